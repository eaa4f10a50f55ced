//! The collections of a plan: nodes, with their children that have pages.

ghost use Rattle.std.specs.Prelude.{◌≡◌, [], IfOk, OnOk, Some, false, map, slice_get, unwrap_or};
ghost use Rattle.dita_doc.specs.declared.plan.Plan as plan_spec;
ghost use Rattle.family_links.specs.Grouped as spec;
ghost use Rattle.link_groups.specs.Asked as asked_spec;
ghost use Rattle.link_groups.specs.LinkNodes as link_nodes_spec;
ghost use Rattle.map_spec.specs.Cascade as cascade_spec;
ghost use Rattle.plan_nodes.specs.Carried.{CarryValues};
ghost use Rattle.plan_nodes.specs.Preorder as preorder_spec;
ghost use Rattle.reader_spec.specs.World.{World};
ghost use Rattle.readers.specs.Documents as documents_spec;
ghost use Rattle.readers.specs.Documents.{AsksOnly};
ghost use Rattle.readers.specs.Founded.{Grows, StaysFounded};
ghost use Rattle.readers.specs.Only.{TellsOnly};
ghost use Rattle.readers.specs.Told.{Agrees};

use crate::lists::put;
use dita_doc::{NoMemory, Plan, PlanNode};
use link_groups::{LinkNode, LinkNodes};
use plan_nodes::{NodeElements, in_tables};
use readers::Asker;
use std::alloc::Global;
use std::collections::BTreeMap;

// How the nodes of a collection are linked.
#[derive(Clone, Copy, PartialEq, Eq)]
pub(crate) enum GroupKind {
    Sequence,
    Family,
}

// For each node of a plan how its children are linked, if they are.
pub(crate) fn kinds_of(
    alloc: Global,
    plan: &Plan,
    homes: &NodeElements,
) -> Result<Vec<Option<GroupKind>>, NoMemory>
    ensures { (world : World) → preorder_spec.HasParentsBefore plan.now.nodes
        → homes.now ≡ map (cascade_spec.whole_at world) plan.now.nodes
        → IfOk result (λ kinds. kinds.items ≡ spec.kinds_of world plan.now) }
{
    let nodes = plan.nodes.as_slice();
    let inside = in_tables(alloc, nodes)?;
    let mut kinds = Vec::new(alloc);
    for at in 0..nodes.len() {
        kinds.push(kind_of(homes, at, is_within(&inside, at)))?;
    }
    Ok(kinds)
}

// Whether a place stands in a relationship table, as the list for all places tells it.
fn is_within(inside: &[bool], at: usize) -> bool
    ensures { result ≡ unwrap_or (slice_get inside.now at) false }
{
    inside.get(at).copied().unwrap_or(false)
}

// How a node's children are linked, as its element says. In a relationship table they are not.
fn kind_of(homes: &NodeElements, at: usize, is_in_table: bool) -> Option<GroupKind>
    ensures { (world : World) (plan : plan_spec.Plan)
        → homes.now ≡ map (cascade_spec.whole_at world) plan.nodes
        → is_in_table ≡ preorder_spec.is_in_table_at plan.nodes at
        → result ≡ spec.kind_at world plan at }
{
    if is_in_table {
        return None;
    }
    kind_named(homes.value(at, "collection-type")?)
}

fn kind_named(value: &str) -> Option<GroupKind>
    ensures { result ≡ spec.kind_named (Some value.now) }
{
    if value == "sequence" {
        Some(GroupKind::Sequence)
    } else if value == "family" {
        Some(GroupKind::Family)
    } else {
        None
    }
}

// The nodes with pages of each collection, by the place of the node whose children they are.
#[tactic(auto, using(readers::proofs::Rules::walking))]
pub(crate) fn children_of<A: Asker>(
    alloc: Global,
    asker: &mut A,
    plan: &Plan,
    kinds: &[Option<GroupKind>],
    link_nodes: &mut LinkNodes,
) -> Result<BTreeMap<u32, Vec<LinkNode>>, NoMemory>
    ensures known { (world : World) → Agrees world (A.told asker.new)
        → CarryValues world plan.now.nodes
        → (A.stand asker.old).setting.pages ≡ plan.now.pages
        → kinds.now ≡ spec.kinds_of world plan.now
        → link_nodes_spec.AreLinkNodes world plan.now link_nodes.old
        → IfOk result (λ children. spec.AreAllChildren world plan.now children.entries
        link_nodes.new) }
    ensures stand { A.stand asker.new ≡ A.stand asker.old }
    ensures founded { StaysFounded (link_nodes_spec.plan_names plan.now) (A.told asker.old)
        (A.told asker.new) }
    ensures asks { AsksOnly documents_spec.nothing [] (A.told asker.old) (A.told asker.new) }
    ensures only { OnOk result (TellsOnly (asked_spec.is_page_of_nodes plan.now)
        (A.told asker.old) (A.told asker.new)) }
    ensures grows { Grows (A.told asker.old) (A.told asker.new) }
{
    let mut children = BTreeMap::new(alloc);
    let nodes = plan.nodes.as_slice();
    for (at, node) in nodes.iter().enumerate() {
        let parent = parent_of(kinds, at, node);
        put_child(alloc, asker, plan, link_nodes, at, parent, &mut children)?;
    }
    Ok(children)
}

// The parent of the node at this place, if it is a collection. The first node has no parent.
fn parent_of(kinds: &[Option<GroupKind>], at: usize, node: &PlanNode) -> Option<u32>
    ensures { result ≡ spec.parent_in kinds.now at node.now }
{
    if at == 0 {
        return None;
    }
    let kind = kinds.get(node.parent as usize)?;
    match kind {
        Some(_) => Some(node.parent),
        None => None,
    }
}

// Puts the node at this place behind the other children of its parent, if it has a page.
#[tactic(auto, using(readers::proofs::Rules::walking))]
fn put_child<A: Asker>(
    alloc: Global,
    asker: &mut A,
    plan: &Plan,
    link_nodes: &mut LinkNodes,
    at: usize,
    parent: Option<u32>,
    children: &mut BTreeMap<u32, Vec<LinkNode>>,
) -> Result<(), NoMemory>
    ensures known { (world : World) → Agrees world (A.told asker.new)
        → CarryValues world plan.now.nodes
        → (A.stand asker.old).setting.pages ≡ plan.now.pages
        → link_nodes_spec.AreLinkNodes world plan.now link_nodes.old
        → OnOk result (spec.IsPutBelow parent (link_nodes_spec.link_node_at world plan.now at)
        children.old.entries children.new.entries
        × link_nodes_spec.AreLinkNodes world plan.now link_nodes.new) }
    ensures stand { A.stand asker.new ≡ A.stand asker.old }
    ensures founded { StaysFounded (link_nodes_spec.plan_names plan.now) (A.told asker.old)
        (A.told asker.new) }
    ensures asks { AsksOnly documents_spec.nothing [] (A.told asker.old) (A.told asker.new) }
    ensures only { OnOk result (TellsOnly (asked_spec.is_page_of_nodes plan.now)
        (A.told asker.old) (A.told asker.new)) }
    ensures grows { Grows (A.told asker.old) (A.told asker.new) }
{
    let Some(parent) = parent else {
        return Ok(());
    };
    let found = link_nodes.find(alloc, asker, plan, at)?;
    put_found(alloc, children, parent, found)
}

fn put_found(
    alloc: Global,
    children: &mut BTreeMap<u32, Vec<LinkNode>>,
    parent: u32,
    found: Option<LinkNode>,
) -> Result<(), NoMemory>
    ensures { OnOk result (spec.IsPutBelow (Some parent) found children.old.entries
        children.new.entries) }
{
    match found {
        Some(node) => put(alloc, children, parent, node),
        None => Ok(()),
    }
}
