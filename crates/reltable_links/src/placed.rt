//! What stands below a cell, in lists that are in the order of places.

ghost use Rattle.std.specs.Prelude.{◌≡◌, ℕ, drop, false, nat_lt, not, take, true};
ghost use Rattle.std.specs.List.Sorted.{IsNonDecreasingBy, IsPartitionPoint};
ghost use Rattle.reltable_links.specs.Below as spec;

use crate::cells::RowCell;
use link_groups::LinkNode;

// What has a place in the plan.
pub(crate) trait Placed {
    ghost place: { Self → ℕ };

    fn place(&self) -> u32
        ensures { result ≡ place self.now };
}

impl Placed for LinkNode {
    ghost place = { λ node. node.at };

    fn place(&self) -> u32 {
        self.at
    }
}

impl Placed for u32 {
    ghost place = { λ at. at };

    fn place(&self) -> u32 {
        *self
    }
}

// Those that stand below a cell, and not before a place.
pub(crate) fn below<'a, T: Placed>(items: &'a [T], cell: &RowCell, done: u32) -> &'a [T]
    ensures { IsNonDecreasingBy T.place items.now
        → result.now ≡ spec.new_below T.place cell.now done items.now }
{
    let first = count_before(items, cell, done);
    let rest = items_behind(items, first);
    let count = count_within(rest, cell.end);
    items_before(rest, count)
}

// How many stand before the others.
fn count_before<T: Placed>(items: &[T], cell: &RowCell, done: u32) -> usize
    ensures { IsNonDecreasingBy T.place items.now → IsPartitionPoint
        (λ x. not (spec.is_behind cell.now done (T.place x)) ≡ true)
        (λ x. not (spec.is_behind cell.now done (T.place x)) ≡ false) items.now result }
{
    items.partition_point(|item| !cell.is_behind(item.place(), done))
}

// How many of them stand before a place.
fn count_within<T: Placed>(items: &[T], end: u32) -> usize
    ensures { IsNonDecreasingBy T.place items.now → IsPartitionPoint
        (λ x. nat_lt (T.place x) end ≡ true)
        (λ x. nat_lt (T.place x) end ≡ false) items.now result }
{
    items.partition_point(|item| item.place() < end)
}

fn items_behind<T>(items: &[T], count: usize) -> &[T]
    ensures { result.now ≡ drop count items.now }
{
    items.get(count..).unwrap_or(&[])
}

fn items_before<T>(items: &[T], count: usize) -> &[T]
    ensures { result.now ≡ take count items.now }
{
    items.get(..count).unwrap_or(items)
}
