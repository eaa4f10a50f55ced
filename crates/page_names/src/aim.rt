//! What a reference of a map leads to: by its key, else by its href.

ghost use Rattle.std.specs.Prelude.{◌≡◌, ◌++◌, [], ℕ, List, IfOk, OnOk, Some, codes, slice_get};
ghost use Rattle.std.specs.Option.{option_copied};
ghost use Rattle.dita_doc.specs.declared.plan.PlanNode as plan_node_spec;
ghost use Rattle.map_spec.specs.Cascade as cascade_spec;
ghost use Rattle.map_spec.specs.Included as included_spec;
ghost use Rattle.map_spec.specs.Pages as pages_spec;
ghost use Rattle.page_names.specs.Aims as spec;
ghost use Rattle.page_names.specs.Made as made_spec;
ghost use Rattle.plan_nodes.specs.Carried as carried_spec;
ghost use Rattle.reader_spec.specs.World.{World};
ghost use Rattle.readers.specs.Documents as documents_spec;
ghost use Rattle.readers.specs.Documents.{AsksOnly};
ghost use Rattle.readers.specs.Founded as founded_spec;
ghost use Rattle.readers.specs.Founded.{Grows, StaysFounded};
ghost use Rattle.readers.specs.Told.{Agrees};

use dita_doc::{Fault, FaultCode, KeyAnswer, List, NoMemory, PlanKind, PlanNode, Target, Text};
use plan_nodes::{NodeElements, fault_of};
use readers::Keys;
use std::alloc::Global;
use targets::{split_key, target_by};

/// What the node at this place leads to. Only a reference leads anywhere. For a reference the
/// documents of all nodes are asked for: which format and scope its href has may cascade to it from
/// the nodes above.
///
/// # Errors
///
/// Out of memory.
pub fn target<K: Keys>(
    alloc: Global,
    asker: &mut K,
    nodes: &List<PlanNode>,
    at: u32,
) -> Result<Target, NoMemory>
    ensures known { (K.stand asker.old).setting.nodes ≡ nodes.now
        → carried_spec.CarryValues (K.stand asker.old).world nodes.now
        → carried_spec.CarryScopes nodes.now → (world : World) → Agrees world (K.told asker.new)
        → IfOk result (λ target. target ≡ (pages_spec.aim_at world nodes.now at).target) }
    ensures value { made_spec.IsTarget (K.stand asker.old).setting.nodes
        (K.stand asker.old).world nodes.now at result }
    ensures stand { K.stand asker.new ≡ K.stand asker.old }
    ensures founded { (K.stand asker.old).setting.nodes ≡ nodes.now
        → StaysFounded (founded_spec.homes nodes.now) (K.told asker.old) (K.told asker.new) }
    ensures asks { AsksOnly documents_spec.nothing (founded_spec.homes nodes.now)
        (K.told asker.old) (K.told asker.new) }
    ensures grows { Grows (K.told asker.old) (K.told asker.new) }
{
    target_in(alloc, asker, nodes.as_slice(), at as usize)
}

// What `target` says, but of the reader's own world.
#[tactic(auto, using(readers::proofs::Rules::walking))]
fn target_in<K: Keys>(
    alloc: Global,
    asker: &mut K,
    nodes: &[PlanNode],
    at: usize,
) -> Result<Target, NoMemory>
    ensures known { (K.stand asker.old).setting.nodes ≡ nodes.now
        → carried_spec.CarryValues (K.stand asker.old).world nodes.now
        → carried_spec.CarryScopes nodes.now → (world : World) → Agrees world (K.told asker.new)
        → IfOk result (λ target. target ≡ (pages_spec.aim_at world nodes.now at).target) }
    ensures stand { K.stand asker.new ≡ K.stand asker.old }
    ensures founded { (K.stand asker.old).setting.nodes ≡ nodes.now
        → StaysFounded (founded_spec.homes nodes.now) (K.told asker.old) (K.told asker.new) }
    ensures asks { AsksOnly documents_spec.nothing (founded_spec.homes nodes.now)
        (K.told asker.old) (K.told asker.new) }
    ensures grows { Grows (K.told asker.old) (K.told asker.new) }
{
    let Some(node) = node_at(nodes, at) else {
        return Ok(Target::Nothing);
    };
    if !is_reference(node.kind) {
        return Ok(Target::Nothing);
    }
    target_among(alloc, asker, nodes, at, node)
}

pub(crate) fn node_at(nodes: &[PlanNode], at: usize) -> Option<&PlanNode>
    ensures { option_copied result ≡ slice_get nodes.now at }
{
    nodes.get(at)
}

pub(crate) fn is_reference(kind: PlanKind) -> bool
    ensures { result ≡ included_spec.is_reference kind }
{
    kind == PlanKind::Reference
}

// What a reference leads to, which stands at this place among the nodes.
#[tactic(auto, using(readers::proofs::Rules::walking))]
fn target_among<K: Keys>(
    alloc: Global,
    asker: &mut K,
    nodes: &[PlanNode],
    at: usize,
    node: &PlanNode,
) -> Result<Target, NoMemory>
    ensures known { (K.stand asker.old).setting.nodes ≡ nodes.now
        → carried_spec.CarryValues (K.stand asker.old).world nodes.now
        → carried_spec.CarryScopes nodes.now → slice_get nodes.now at ≡ Some node.now
        → (world : World) → Agrees world (K.told asker.new)
        → IfOk result (λ target. target ≡ (pages_spec.aim_with world nodes.now at node.now
        (cascade_spec.attribute_at world (codes "keyref") node.now)).target) }
    ensures stand { K.stand asker.new ≡ K.stand asker.old }
    ensures founded { (K.stand asker.old).setting.nodes ≡ nodes.now
        → StaysFounded (founded_spec.homes nodes.now) (K.told asker.old) (K.told asker.new) }
    ensures asks { AsksOnly documents_spec.nothing (founded_spec.homes nodes.now)
        (K.told asker.old) (K.told asker.new) }
    ensures grows { Grows (K.told asker.old) (K.told asker.new) }
{
    let homes = NodeElements::of(alloc, asker, nodes)?;
    let mut faults = List::new(alloc);
    let keyref = homes.value(at, "keyref");
    let href = homes.value(at, "href");
    target_of(alloc, asker, node, keyref, href, &mut faults)
}

/// What a reference leads to that has these two attributes. Appends the faults met on the way.
#[tactic(auto, using(readers::proofs::Rules::walking))]
pub(crate) fn target_of<K: Keys>(
    alloc: Global,
    asker: &mut K,
    node: &PlanNode,
    keyref: Option<&str>,
    href: Option<&str>,
    faults: &mut List<Fault>,
) -> Result<Target, NoMemory>
    ensures known { (world : World) (nodes : List plan_node_spec.PlanNode) (at : ℕ)
        → Agrees world (K.told asker.new) → (K.stand asker.old).setting.nodes ≡ nodes
        → spec.Carries world nodes at node.now
        → IfOk result (λ target. spec.IsAim (spec.aim_by world nodes at node.now
        (option_copied keyref.entry) (option_copied href.entry)) target faults.old faults.new) }
    ensures given { spec.IsGiven (K.told asker.old) node.now.doc (option_copied href.entry)
        → IfOk result (λ target. spec.MayName (K.told asker.new) target) }
    ensures stand { K.stand asker.new ≡ K.stand asker.old }
    ensures founded { StaysFounded (founded_spec.homes (K.stand asker.old).setting.nodes)
        (K.told asker.old) (K.told asker.new) }
    ensures asks { AsksOnly documents_spec.nothing [] (K.told asker.old) (K.told asker.new) }
    ensures grows { Grows (K.told asker.old) (K.told asker.new) }
{
    let Some(keyref) = keyref else {
        return target_by_href(alloc, node, href, faults);
    };
    let (key, _) = split_key(keyref);
    let key = Text::from_str(alloc, key)?;
    let answer = asker.key(alloc, node.scope, &key)?;
    target_by_key(alloc, node, &key, href, answer, faults)
}

// What a reference leads to by what its key gives, else by its href.
fn target_by_key(
    alloc: Global,
    node: &PlanNode,
    key: &Text,
    href: Option<&str>,
    answer: KeyAnswer,
    faults: &mut List<Fault>,
) -> Result<Target, NoMemory>
    ensures aim { (world : World) (around : List plan_node_spec.PlanNode)
        → node.now.cascaded ≡ cascade_spec.cascaded_on world around
        → IfOk result (λ target. spec.IsAim (pages_spec.aim_by_key world node.now around key.now
        (option_copied href.entry) answer) target faults.old faults.new) }
    ensures given { (told : spec.AskedAim)
        → spec.IsGiven told node.now.doc (option_copied href.entry)
        → spec.MayName told answer.target → IfOk result (λ target. spec.MayName told target) }
{
    let KeyAnswer {
        node: definition,
        target,
        faults: met,
        ..
    } = answer;
    append_met(faults, met)?;
    if definition.is_some() {
        return Ok(target);
    }
    target_undefined(alloc, node, key, href, faults)
}

// What a reference leads to whose key has no definition.
fn target_undefined(
    alloc: Global,
    node: &PlanNode,
    key: &Text,
    href: Option<&str>,
    faults: &mut List<Fault>,
) -> Result<Target, NoMemory>
    ensures aim { (world : World) (around : List plan_node_spec.PlanNode)
        → node.now.cascaded ≡ cascade_spec.cascaded_on world around
        → IfOk result (λ target. spec.IsAim (pages_spec.with_more
        (pages_spec.undefined_key node.now key.now (option_copied href.entry))
        (pages_spec.aim_by_href world node.now around (option_copied href.entry)))
        target faults.old faults.new) }
    ensures given { (told : spec.AskedAim)
        → spec.IsGiven told node.now.doc (option_copied href.entry)
        → IfOk result (λ target. spec.MayName told target) }
{
    append_undefined(alloc, node, key, href, faults)?;
    target_by_href(alloc, node, href, faults)
}

fn append_met(faults: &mut List<Fault>, met: List<Fault>) -> Result<(), NoMemory>
    ensures { OnOk result (faults.new ≡ faults.old ++ met) }
{
    for fault in met.into_vec() {
        faults.push(fault)?;
    }
    Ok(())
}

// Appends the fault of a key without a definition, unless an href stands beside it.
fn append_undefined(
    alloc: Global,
    node: &PlanNode,
    key: &Text,
    href: Option<&str>,
    faults: &mut List<Fault>,
) -> Result<(), NoMemory>
    ensures { OnOk result (faults.new ≡ faults.old
        ++ pages_spec.undefined_key node.now key.now (option_copied href.entry)) }
{
    match href {
        Some(_) => Ok(()),
        None => {
            let fault = fault_of(alloc, node, FaultCode::KeyUndefined, key.as_str())?;
            Ok(faults.push(fault)?)
        }
    }
}

// What the href of a reference leads to, by the format and the scope that hold for it.
fn target_by_href(
    alloc: Global,
    node: &PlanNode,
    href: Option<&str>,
    faults: &mut List<Fault>,
) -> Result<Target, NoMemory>
    ensures aim { (world : World) (around : List plan_node_spec.PlanNode)
        → node.now.cascaded ≡ cascade_spec.cascaded_on world around
        → IfOk result (λ target. spec.IsAim (pages_spec.aim_by_href world node.now around
        (option_copied href.entry)) target faults.old faults.new) }
    ensures given { (told : spec.AskedAim)
        → spec.IsGiven told node.now.doc (option_copied href.entry)
        → IfOk result (λ target. spec.MayName told target) }
{
    let Some(href) = href else {
        return Ok(Target::Nothing);
    };
    let format = node.cascaded_value("format").unwrap_or("dita");
    let scope = node.cascaded_value("scope").unwrap_or("local");
    let read = target_by(alloc, href, format, scope, &node.doc)?;
    target_read(alloc, node, href, read, faults)
}

// The target that was read, or nothing, with a fault.
fn target_read(
    alloc: Global,
    node: &PlanNode,
    href: &str,
    read: Option<Target>,
    faults: &mut List<Fault>,
) -> Result<Target, NoMemory>
    ensures { IfOk result (λ target.
        spec.IsAim (pages_spec.aim_read node.now href.now read) target faults.old faults.new) }
{
    match read {
        Some(target) => Ok(target),
        None => {
            faults.push(fault_of(alloc, node, FaultCode::BadReference, href)?)?;
            Ok(Target::Nothing)
        }
    }
}
