//! Whether a node has its target by its key.

ghost use Rattle.std.specs.Prelude.{◌≡◌, ℕ, true, false, map, slice_get, IfOk, Some};
ghost use Rattle.dita_doc.specs.declared.plan.Plan as plan_spec;
ghost use Rattle.map_spec.specs.Cascade as cascade_spec;
ghost use Rattle.html_spec.specs.Contents as contents_spec;
ghost use Rattle.link_spec.specs.Links as links_spec;
ghost use Rattle.plan_nodes.specs.Preorder as preorder_spec;
ghost use Rattle.reader_spec.specs.World.{World};
ghost use Rattle.toc_page.specs.Toc as spec;

use crate::href::target_at;
use dita_doc::{NoMemory, Plan, PlanNode, Target};
use key_scopes::{ScopeTable, look_up, scope_table};
use plan_nodes::NodeElements;
use std::alloc::Global;
use targets::split_key;

/// The keys of a plan, if there is a node of whose label a key decides: it refers to a key, and its
/// target is a file. Few plans have one.
pub(crate) fn key_table(
    alloc: Global,
    plan: &Plan,
    homes: &NodeElements,
) -> Result<Option<ScopeTable>, NoMemory>
    ensures { (world : World) → preorder_spec.IsTree plan.now.nodes
        → homes.now ≡ map (cascade_spec.whole_at world) plan.now.nodes
        → IfOk result (λ keys. spec.AreKeys world plan.now keys) }
{
    if !needs_keys(plan, homes) {
        return Ok(None);
    }
    let table = scope_table(alloc, homes, plan.nodes.as_slice())?;
    Ok(Some(table))
}

// Whether there is a node of whose label a key decides.
fn needs_keys(plan: &Plan, homes: &NodeElements) -> bool
    ensures { (at : ℕ) → result ≡ false → spec.needs_keys_in plan.now homes.now at ≡ false }
{
    let count = plan.targets.len();
    for at in 0..count {
        if node_needs_keys(plan, homes, at) {
            return true;
        }
    }
    false
}

// Whether a key decides of the label of the node at this place.
fn node_needs_keys(plan: &Plan, homes: &NodeElements, at: usize) -> bool
    ensures { result ≡ spec.needs_keys_in plan.now homes.now at }
{
    match target_at(plan, at) {
        Some(target) => is_file(target) && homes.value(at, "keyref").is_some(),
        None => false,
    }
}

fn is_file(target: &Target) -> bool
    ensures { result ≡ spec.is_file target.now }
{
    matches!(target, Target::File(_, _))
}

/// Whether a node refers to a key that is defined. The node's target is a file.
#[tactic(auto, using(crate::proofs::LabelLaws::found_key))]
pub(crate) fn is_keyed(
    alloc: Global,
    keys: &Option<ScopeTable>,
    homes: &NodeElements,
    at: usize,
    node: &PlanNode,
) -> Result<bool, NoMemory>
    ensures { (world : World) (plan : plan_spec.Plan)
        → homes.now ≡ map (cascade_spec.whole_at world) plan.nodes
        → spec.AreKeys world plan keys.now → slice_get plan.nodes at ≡ Some node.now
        → spec.is_file (links_spec.plan_target plan at) ≡ true
        → IfOk result (λ is. is ≡ contents_spec.is_keyed world plan node.now) }
{
    let (Some(keys), Some(keyref)) = (keys, homes.value(at, "keyref")) else {
        return Ok(false);
    };
    let (key, _) = split_key(keyref);
    let found = look_up(alloc, keys, node.scope, key.as_bytes())?;
    Ok(found.is_some())
}
