//! Lists by number: what was put at each number, in order.

ghost use Rattle.std.specs.Prelude.{◌≡◌, ◌++◌, ℕ, IfOk, OnOk};
ghost use Rattle.family_links.specs.Lists as spec;

use dita_doc::NoMemory;
use link_groups::LinkNode;
use std::alloc::Global;
use std::collections::BTreeMap;

// Puts a node behind those at a number.
pub(crate) fn put(
    alloc: Global,
    lists: &mut BTreeMap<u32, Vec<LinkNode>>,
    number: u32,
    node: LinkNode,
) -> Result<(), NoMemory>
    ensures { OnOk result ((other : ℕ) → spec.listed other lists.new.entries
        ≡ spec.listed other lists.old.entries ++ spec.if_there other number node) }
{
    let list = lists.entry(number)?.or_insert_with(|| Vec::new(alloc));
    list.push(node)?;
    Ok(())
}

// Puts a place behind those at a number.
pub(crate) fn put_place(
    alloc: Global,
    lists: &mut BTreeMap<u32, Vec<usize>>,
    number: u32,
    place: usize,
) -> Result<(), NoMemory>
    ensures { OnOk result ((other : ℕ) → spec.listed other lists.new.entries
        ≡ spec.listed other lists.old.entries ++ spec.if_there other number place) }
{
    let list = lists.entry(number)?.or_insert_with(|| Vec::new(alloc));
    list.push(place)?;
    Ok(())
}

// The nodes at a number.
pub(crate) fn copied(
    alloc: Global,
    lists: &BTreeMap<u32, Vec<LinkNode>>,
    number: u32,
) -> Result<Vec<LinkNode>, NoMemory>
    ensures { IfOk result (λ nodes. nodes.items ≡ spec.listed number lists.now.entries) }
{
    match lists.get(&number) {
        Some(list) => Ok(Vec::from_slice(alloc, list)?),
        None => Ok(Vec::new(alloc)),
    }
}
