//! Where nodes stand.

ghost use Rattle.std.specs.Prelude.{◌≡◌, ◌+◌, ◌<◌, ◌≤◌, ◌^◌, ◌||◌, false, length, map, slice_get, unwrap_or, IfOk, OnErr, OnOk};
ghost use Rattle.map_spec.specs.Included as included_spec;
ghost use Rattle.map_spec.specs.MapTree as map_tree_spec;
ghost use Rattle.map_spec.specs.MapTree.{MapTree};
ghost use Rattle.map_spec.specs.Scopes as scopes_spec;
ghost use Rattle.plan_nodes.specs.Ends as ends_spec;
ghost use Rattle.plan_nodes.specs.Preorder as preorder_spec;

use dita_doc::{Fault, FaultCode, NoMemory, PlanKind, PlanNode, Text};
use std::alloc::{AllocError, Global};

/// A count of nodes as a place; out of memory if there are 2^32 of them.
pub fn place_of(count: usize) -> Result<u32, NoMemory>
    ensures place { IfOk result (λ place. place ≡ count) }
    ensures refused { OnErr result (2 ^ 32 ≤ count) }
{
    match u32::try_from(count) {
        Ok(place) => Ok(place),
        Err(_) => Err(NoMemory),
    }
}

/// Sets the end of each node by the parents of those behind it. The nodes stand in preorder.
pub fn set_ends(nodes: &mut [PlanNode]) -> Result<(), NoMemory>
    ensures ends { (tree : MapTree) → preorder_spec.HasOneRoot tree
        → map preorder_spec.without_end nodes.old
        ≡ map preorder_spec.without_end (map_tree_spec.plan_nodes tree)
        → OnOk result (nodes.new ≡ map_tree_spec.plan_nodes tree) }
    ensures kept { map preorder_spec.without_end nodes.new
        ≡ map preorder_spec.without_end nodes.old }
    ensures refused { OnErr result (2 ^ 32 ≤ length nodes.old) }
{
    clear_ends(nodes);
    for at in (0..nodes.len()).rev() {
        set_end(nodes, at)?;
    }
    Ok(())
}

fn clear_ends(nodes: &mut [PlanNode])
    ensures { nodes.new ≡ map preorder_spec.without_end nodes.old }
{
    for node in nodes.iter_mut() {
        node.end = 0;
    }
}

// Sets the end of a node, behind which all have theirs, and raises that of its parent.
fn set_end(nodes: &mut [PlanNode], at: usize) -> Result<(), NoMemory>
    requires { at < length nodes.old }
    ensures ended { OnOk result (nodes.new ≡ ends_spec.ended at nodes.old) }
    ensures kept { map preorder_spec.without_end nodes.new
        ≡ map preorder_spec.without_end nodes.old }
    ensures refused { OnErr result (2 ^ 32 ≤ at + 1) }
{
    raise(nodes, at, place_of(at + 1)?);
    let node = &nodes[at];
    let end = node.end;
    let parent = node.parent as usize;
    if parent < at {
        raise(nodes, parent, end);
    }
    Ok(())
}

fn raise(nodes: &mut [PlanNode], at: usize, end: u32)
    requires { at < length nodes.old }
    ensures { nodes.new ≡ ends_spec.raised at end nodes.old }
{
    let node = &mut nodes[at];
    node.end = node.end.max(end);
}

/// For each node whether it stands in a relationship table, or is one.
pub fn in_tables(alloc: Global, nodes: &[PlanNode]) -> Result<Vec<bool>, AllocError>
    ensures { IfOk result (λ inside. preorder_spec.HasParentsBefore nodes.now
        → inside.items ≡ preorder_spec.tables_around nodes.now) }
{
    let mut inside = Vec::new(alloc);
    for node in nodes {
        let within = is_within(inside.as_slice(), node);
        inside.push(within)?;
    }
    Ok(inside)
}

// Whether a node stands in a relationship table, or is one, by what is known of those before it.
fn is_within(inside: &[bool], node: &PlanNode) -> bool
    ensures { result ≡ (unwrap_or (slice_get inside.now node.now.parent) false
        || included_spec.is_table node.now.kind) }
{
    let around = inside.get(node.parent as usize).copied().unwrap_or(false);
    around || node.kind == PlanKind::RelTable
}

/// A fault at the element of a node, as it was written.
pub fn fault_of(
    alloc: Global,
    node: &PlanNode,
    code: FaultCode,
    detail: &str,
) -> Result<Fault, NoMemory>
    ensures { IfOk result (λ fault.
        fault ≡ scopes_spec.node_fault node.now code detail.now) }
{
    Ok(Fault {
        name: node.doc.clone()?,
        line: node.line,
        code,
        detail: Text::from_str(alloc, detail)?,
    })
}
