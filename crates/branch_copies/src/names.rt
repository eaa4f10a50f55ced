//! The names of scopes.

ghost use Rattle.std.specs.Prelude.{◌≡◌, ◌+◌, ◌++◌, ◌&&◌, ℕ, Some, IfOk, OnOk, map, slice_get};
ghost use Rattle.std.specs.Option.{option_copied};
ghost use Rattle.branch_copies.specs.Seen as seen_spec;
ghost use Rattle.branch_copies.specs.Stands as stands_spec;
ghost use Rattle.map_spec.specs.Branches as branches_spec;
ghost use Rattle.map_spec.specs.Cascade as cascade_spec;
ghost use Rattle.map_spec.specs.MapTree as map_tree_spec;
ghost use Rattle.map_spec.specs.MapTree.{Head, MapTree};
ghost use Rattle.reader_spec.specs.World.{World};

use crate::branches::{end_of, is_map_at, next_sibling};
use dita_doc::{Affix, List, NoMemory, PlanKind, PlanNode, Text};
use plan_nodes::{NodeElements, words_of};
use std::alloc::{AllocError, Global};
use std::collections::BTreeSet;

/// The names of the scope that each node begins, none if it begins no scope.
pub(crate) fn scope_names(
    alloc: Global,
    nodes: &[PlanNode],
    homes: &NodeElements,
) -> Result<Vec<List<Text>>, NoMemory>
    ensures { (world : World) (parent at : ℕ) (head : Head) (below more : MapTree)
        → homes.now ≡ map (cascade_spec.whole_at world) nodes.now
        → stands_spec.StandsAt nodes.now parent at (map_tree_spec.MapNode head below more)
        → IfOk result (λ names. slice_get names.items at
        ≡ Some (branches_spec.scope_names_of world head below head.kind)) }
{
    let mut names = Vec::new(alloc);
    for (at, node) in nodes.iter().enumerate() {
        names.push(names_at(alloc, nodes, homes, at, node.kind)?)?;
    }
    Ok(names)
}

// The names of the scope that a node begins. Those of a map stand at the node that includes it.
fn names_at(
    alloc: Global,
    nodes: &[PlanNode],
    homes: &NodeElements,
    at: usize,
    kind: PlanKind,
) -> Result<List<Text>, NoMemory>
    ensures { (world : World) (parent : ℕ) (head : Head) (below more : MapTree)
        → homes.now ≡ map (cascade_spec.whole_at world) nodes.now
        → stands_spec.StandsAt nodes.now parent at (map_tree_spec.MapNode head below more)
        → kind ≡ head.kind → IfOk result (λ names.
        names ≡ branches_spec.scope_names_of world head below head.kind) }
{
    let own = homes.value(at, "keyscope");
    match kind {
        PlanKind::Map => Ok(List::new(alloc)),
        PlanKind::Included => words_once(alloc, own, included_keyscope(nodes, homes, at)),
        _ => words_once(alloc, own, None),
    }
}

// The value of the map that a node includes.
fn included_keyscope<'a>(nodes: &[PlanNode], homes: &'a NodeElements, at: usize) -> Option<&'a str>
    ensures { (world : World) (parent : ℕ) (head : Head) (below more : MapTree)
        → homes.now ≡ map (cascade_spec.whole_at world) nodes.now
        → stands_spec.StandsAt nodes.now parent at (map_tree_spec.MapNode head below more)
        → branches_spec.words_written (option_copied result)
        ≡ branches_spec.keyscope_included world below }
{
    homes.value(included_map(nodes, at)?, "keyscope")
}

// The place of the first map among the children of a node.
fn included_map(nodes: &[PlanNode], at: usize) -> Option<usize>
    ensures { (parent : ℕ) (head : Head) (below more : MapTree)
        → stands_spec.StandsAt nodes.now parent at (map_tree_spec.MapNode head below more)
        → result ≡ stands_spec.first_map (at + 1) below }
{
    let end = end_of(nodes, at);
    let mut child = at.saturating_add(1);
    while child < end {
        if is_map_at(nodes, child) {
            return Some(child);
        }
        child = next_sibling(nodes, child);
    }
    None
}

// The words of two values, each once.
fn words_once(
    alloc: Global,
    first: Option<&str>,
    second: Option<&str>,
) -> Result<List<Text>, NoMemory>
    ensures { IfOk result (λ names. names ≡ branches_spec.each_once
        (branches_spec.words_written (option_copied first.entry)
        ++ branches_spec.words_written (option_copied second.entry))) }
{
    let mut names = List::new(alloc);
    let mut seen = BTreeSet::new(alloc);
    append_words(alloc, &mut names, &mut seen, first)?;
    append_words(alloc, &mut names, &mut seen, second)?;
    Ok(names)
}

// Appends the words of a value that have not been seen.
fn append_words(
    alloc: Global,
    names: &mut List<Text>,
    seen: &mut BTreeSet<Text>,
    value: Option<&str>,
) -> Result<(), NoMemory>
    requires { seen_spec.AreSeen names.old seen.old.keys }
    ensures words { OnOk result (names.new ≡ cascade_spec.with_new names.old
        (branches_spec.words_written (option_copied value.entry))) }
    ensures seen { OnOk result (seen_spec.AreSeen names.new seen.new.keys) }
{
    let Some(value) = value else {
        return Ok(());
    };
    for word in words_of(alloc, value)?.into_vec() {
        if seen.insert(word.clone()?)? {
            names.push(word)?;
        }
    }
    Ok(())
}

/// The names of the scope that the top of a copy begins: the names that it had, with what stands
/// before and after them; without one, that alone.
pub(crate) fn names_in_copy(
    alloc: Global,
    affix: &Affix,
    names: &[Text],
) -> Result<List<Text>, NoMemory>
    ensures { IfOk result (λ made. made ≡ branches_spec.names_in_copy affix.now names.now) }
{
    let mut copies = List::new(alloc);
    for name in names {
        copies.push(affixed(alloc, affix, name.as_str())?)?;
    }
    if copies.is_empty() && !is_no_affix(affix) {
        copies.push(affixed(alloc, affix, "")?)?;
    }
    Ok(copies)
}

fn affixed(alloc: Global, affix: &Affix, name: &str) -> Result<Text, AllocError>
    ensures { IfOk result (λ text. text ≡ affix.now.prefix ++ name.now ++ affix.now.suffix) }
{
    let mut text = Text::from_str(alloc, affix.prefix.as_str())?;
    text.append(name)?;
    text.append(affix.suffix.as_str())?;
    Ok(text)
}

/// Whether an affix puts nothing before and after a name.
pub(crate) fn is_no_affix(affix: &Affix) -> bool
    ensures { result ≡ (branches_spec.is_no_text affix.now.prefix
        && branches_spec.is_no_text affix.now.suffix) }
{
    affix.prefix.is_empty() && affix.suffix.is_empty()
}
