//! The names of scopes within their parents, sorted to be found by halving.

ghost use Rattle.std.specs.Prelude.{◌≡◌, ◌++◌, true, false, List, drop, take, IfOk, OnOk};
ghost use Rattle.std.specs.List.Sorted.{IsPartitionPoint, IsSorted};
ghost use Rattle.dita_doc.specs.declared.plan.Scope.{Scope};
ghost use Rattle.key_scopes.specs.Children as spec;

use dita_doc::{NoMemory, Scope, Text};
use plan_nodes::place_of;
use std::alloc::{AllocError, Global};
use std::cmp::Ordering;

/// A name of a scope, as it is sorted: the scope's parent, the name, the scope, and the name's
/// rank.
type WrittenName<'a> = (u32, &'a str, u32, usize);

/// A name of a scope.
#[derive(Drop)]
pub(crate) struct ChildName {
    parent: u32,
    name: Text,
    pub child: u32,
    /// Where the name stands among those of its scope.
    pub rank: usize,
}

/// The names of all scopes, by parent, then by name, then by scope.
#[derive(Drop)]
pub(crate) struct ChildNames {
    sorted: Vec<ChildName>,
    /// How many bytes the longest name has.
    pub longest: usize,
}

impl ChildNames {
    /// Those of scopes.
    pub(crate) fn of(alloc: Global, scopes: &[Scope]) -> Result<ChildNames, NoMemory>
        ensures { IfOk result (λ made.
            spec.AreChildNames scopes.now made.sorted.items made.longest) }
    {
        let mut written: Vec<WrittenName<'_>> = Vec::new(alloc);
        for (at, scope) in scopes.iter().enumerate() {
            let child = place_of(at)?;
            push_names(&mut written, scope, child)?;
        }
        written.sort_unstable();
        let sorted = texts_of(alloc, &written)?;
        let longest = longest_of(&sorted);
        Ok(ChildNames { sorted, longest })
    }

    /// The children of a scope that have this name, in order.
    pub(crate) fn named(&self, parent: u32, name: &[u8]) -> &[ChildName]
        ensures { (scopes : List Scope)
            → spec.AreChildNames scopes self.now.sorted.items self.now.longest
            → result.now ≡ spec.those_named parent name.now (spec.all_names scopes) }
    {
        named_in(&self.sorted, parent, name)
    }
}

impl ChildName {
    // How it stands to this name in this parent.
    fn order(&self, parent: u32, name: &[u8]) -> Ordering
        ensures { result ≡ spec.own_cmp parent name.now self.now }
    {
        match self.parent.cmp(&parent) {
            Ordering::Equal => self.name.as_bytes().cmp(&name),
            other => other,
        }
    }
}

// Puts the names of a scope behind the others.
fn push_names<'a>(
    written: &mut Vec<WrittenName<'a>>,
    scope: &'a Scope,
    child: u32,
) -> Result<(), AllocError>
    ensures { OnOk result (spec.names_written written.new.items
        ≡ spec.names_written written.old.items ++ spec.child_names_of (scope.now, child)) }
{
    for (rank, name) in scope.names.as_slice().iter().enumerate() {
        written.push((scope.parent, name.as_str(), child, rank))?;
    }
    Ok(())
}

// Copies of names.
fn texts_of(alloc: Global, written: &[WrittenName<'_>]) -> Result<Vec<ChildName>, AllocError>
    ensures { IfOk result (λ sorted. sorted.items ≡ spec.names_written written.now) }
{
    let mut sorted = Vec::new(alloc);
    for entry in written {
        sorted.push(text_of(alloc, *entry)?)?;
    }
    Ok(sorted)
}

fn text_of(alloc: Global, entry: WrittenName<'_>) -> Result<ChildName, AllocError>
    ensures { IfOk result (λ own. own ≡ spec.name_of entry.entry) }
{
    let (parent, name, child, rank) = entry;
    let name = Text::from_str(alloc, name)?;
    Ok(ChildName {
        parent,
        name,
        child,
        rank,
    })
}

// How many bytes the longest of some names has.
fn longest_of(names: &[ChildName]) -> usize
    ensures { spec.AreShort result names.now }
{
    let mut longest = 0;
    for own in names {
        longest = own.name.as_bytes().len().max(longest);
    }
    longest
}

// Those of this name in this parent.
fn named_in<'a>(sorted: &'a [ChildName], parent: u32, name: &[u8]) -> &'a [ChildName]
    ensures { IsSorted spec.name_cmp sorted.now
        → result.now ≡ spec.those_named parent name.now sorted.now }
{
    let first = place_for(sorted, parent, name);
    let rest = names_behind(sorted, first);
    let count = count_of(rest, parent, name);
    names_before(rest, count)
}

pub(crate) fn names_behind(names: &[ChildName], count: usize) -> &[ChildName]
    ensures { result.now ≡ drop count names.now }
{
    names.get(count..).unwrap_or(&[])
}

pub(crate) fn names_before(names: &[ChildName], count: usize) -> &[ChildName]
    ensures { result.now ≡ take count names.now }
{
    names.get(..count).unwrap_or(names)
}

// How many names stand before those of this name in this parent.
fn place_for(sorted: &[ChildName], parent: u32, name: &[u8]) -> usize
    ensures { IsSorted spec.name_cmp sorted.now → IsPartitionPoint
        (λ own. spec.is_below parent name.now own ≡ true)
        (λ own. spec.is_below parent name.now own ≡ false) sorted.now result }
{
    sorted.partition_point(|own| own.order(parent, name) == Ordering::Less)
}

// How many names from the first on are of this name in this parent, where none before it is left.
fn count_of(rest: &[ChildName], parent: u32, name: &[u8]) -> usize
    ensures { IsSorted spec.name_cmp rest.now → spec.AreNotBelow parent name.now rest.now
        → IsPartitionPoint
        (λ own. spec.is_same parent name.now own ≡ true)
        (λ own. spec.is_same parent name.now own ≡ false) rest.now result }
{
    rest.partition_point(|own| own.order(parent, name) == Ordering::Equal)
}
