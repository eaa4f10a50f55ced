//! What a key gives.

ghost use Rattle.std.specs.Prelude.{◌≡◌, ◌++◌, ◌||◌, ℕ, List, [], Some, map, slice_get, IfOk};
ghost use Rattle.std.specs.Option.{option_to_list};
ghost use Rattle.key_answers.specs.Seen as spec;
ghost use Rattle.key_scopes.specs.Made as made_spec;
ghost use Rattle.map_spec.specs.Cascade as cascade_spec;
ghost use Rattle.map_spec.specs.Keys as keys_spec;
ghost use Rattle.map_spec.specs.Pages as pages_spec;
ghost use Rattle.plan_nodes.specs.Carried as carried_spec;
ghost use Rattle.plan_nodes.specs.Given as given_spec;
ghost use Rattle.reader_spec.specs.World.{World};
ghost use Rattle.readers.specs.Documents as documents_spec;
ghost use Rattle.readers.specs.Documents.{AsksOnly};
ghost use Rattle.readers.specs.Founded as founded_spec;
ghost use Rattle.readers.specs.Founded.{AreAllowed, Grows, StaysFounded};
ghost use Rattle.readers.specs.Only as only_spec;
ghost use Rattle.readers.specs.Only.{TellsOnly};
ghost use Rattle.readers.specs.Told.{Agrees};

use crate::chain::{Chain, chain_of, last_of};
use crate::defined::Defined;
use crate::label::label_of;
use dita_doc::{Fault, FaultCode, KeyAnswer, List, NoMemory, PlanNode, Target, Text};
use key_scopes::ScopeTable;
use plan_nodes::NodeElements;
use readers::Titles;
use std::alloc::Global;
use targets::split_key;

/// What the key of a key reference gives in a scope. The nodes carry their cascaded values and
/// their scopes, and the table is theirs. An undefined key has no node.
///
/// The document of each node is asked for at each call. Where many keys are asked for, make the
/// `NodeElements` once and call `answer_with`.
///
/// # Errors
///
/// Out of memory.
pub fn answer<T: Titles>(
    alloc: Global,
    asker: &mut T,
    nodes: &List<PlanNode>,
    table: &ScopeTable,
    scope: u32,
    keyref: &Text,
) -> Result<KeyAnswer, NoMemory>
    ensures known { made_spec.IsTableOf (T.stand asker.old).world nodes.now table.now
        → carried_spec.CarryValues (T.stand asker.old).world nodes.now
        → carried_spec.CarryScopes nodes.now
        → (world : World) → Agrees world (T.told asker.new) → IfOk result (λ answer. answer
        ≡ keys_spec.key_answer world nodes.now scope (keys_spec.key_of keyref.now)) }
    ensures value { made_spec.IsTableOf (T.stand asker.old).world nodes.now table.now
        → carried_spec.CarryValues (T.stand asker.old).world nodes.now
        → carried_spec.CarryScopes nodes.now
        → IfOk result (λ answer. answer ≡ keys_spec.key_answer (T.stand asker.old).world nodes.now
        scope (keys_spec.key_of keyref.now)) }
    ensures given { (roots : List (List ℕ)) → IfOk result (λ answer. AreAllowed roots
        (T.told asker.new) (option_to_list (pages_spec.local_name answer.target))) }
    ensures stand { T.stand asker.new ≡ T.stand asker.old }
    ensures founded { StaysFounded (founded_spec.homes nodes.now) (T.told asker.old)
        (T.told asker.new) }
    ensures asks { AsksOnly documents_spec.nothing (founded_spec.homes nodes.now)
        (T.told asker.old) (T.told asker.new) }
    ensures only { IfOk result (λ answer. TellsOnly (λ t.
        only_spec.is_document_of (founded_spec.homes nodes.now) t
        || only_spec.is_title_at answer.target t) (T.told asker.old) (T.told asker.new)) }
    ensures grows { Grows (T.told asker.old) (T.told asker.new) }
{
    answer_asked(alloc, asker, nodes.as_slice(), table, scope, keyref)
}

// What `answer` says, but of the asker's own world.
fn answer_asked<T: Titles>(
    alloc: Global,
    asker: &mut T,
    nodes: &[PlanNode],
    table: &ScopeTable,
    scope: u32,
    keyref: &Text,
) -> Result<KeyAnswer, NoMemory>
    ensures known { made_spec.IsTableOf (T.stand asker.old).world nodes.now table.now
        → carried_spec.CarryValues (T.stand asker.old).world nodes.now
        → carried_spec.CarryScopes nodes.now
        → (world : World) → Agrees world (T.told asker.new) → IfOk result (λ answer. answer
        ≡ keys_spec.key_answer world nodes.now scope (keys_spec.key_of keyref.now)) }
    ensures given { (roots : List (List ℕ)) → IfOk result (λ answer. AreAllowed roots
        (T.told asker.new) (option_to_list (pages_spec.local_name answer.target))) }
    ensures stand { T.stand asker.new ≡ T.stand asker.old }
    ensures founded { StaysFounded (founded_spec.homes nodes.now) (T.told asker.old)
        (T.told asker.new) }
    ensures asks { AsksOnly documents_spec.nothing (founded_spec.homes nodes.now)
        (T.told asker.old) (T.told asker.new) }
    ensures only { IfOk result (λ answer. TellsOnly (λ t.
        only_spec.is_document_of (founded_spec.homes nodes.now) t
        || only_spec.is_title_at answer.target t) (T.told asker.old) (T.told asker.new)) }
    ensures grows { Grows (T.told asker.old) (T.told asker.new) }
{
    let homes = NodeElements::of(alloc, asker, nodes)?;
    answer_with(alloc, asker, &homes, nodes, table, scope, keyref)
}

/// The same as `answer` gives, over the elements of the nodes. It asks for nothing but the title of
/// a target.
///
/// # Errors
///
/// Out of memory.
pub fn answer_with<T: Titles>(
    alloc: Global,
    asker: &mut T,
    homes: &NodeElements,
    nodes: &[PlanNode],
    table: &ScopeTable,
    scope: u32,
    keyref: &Text,
) -> Result<KeyAnswer, NoMemory>
    ensures known { (world : World) → Agrees world (T.told asker.new)
        → homes.now ≡ map (cascade_spec.whole_at world) nodes.now
        → made_spec.IsTableOf world nodes.now table.now
        → carried_spec.CarryValues world nodes.now → carried_spec.CarryScopes nodes.now
        → IfOk result (λ answer. answer
        ≡ keys_spec.key_answer world nodes.now scope (keys_spec.key_of keyref.now)) }
    ensures given { (roots : List (List ℕ)) → given_spec.AreTold (T.told asker.old) homes.now
        → IfOk result (λ answer. AreAllowed roots (T.told asker.new)
        (option_to_list (pages_spec.local_name answer.target))) }
    ensures stand { T.stand asker.new ≡ T.stand asker.old }
    ensures founded { given_spec.AreTold (T.told asker.old) homes.now
        → StaysFounded [] (T.told asker.old) (T.told asker.new) }
    ensures asks { AsksOnly documents_spec.nothing [] (T.told asker.old) (T.told asker.new) }
    ensures only { IfOk result (λ answer. TellsOnly (only_spec.is_title_at answer.target)
        (T.told asker.old) (T.told asker.new)) }
    ensures grows { Grows (T.told asker.old) (T.told asker.new) }
{
    let (key, _) = split_key(keyref.as_str());
    answer_key(alloc, asker, homes, nodes, table, scope, key)
}

/// The same for a key alone, whatever bytes it has.
///
/// # Errors
///
/// Out of memory.
pub fn answer_key<T: Titles>(
    alloc: Global,
    asker: &mut T,
    homes: &NodeElements,
    nodes: &[PlanNode],
    table: &ScopeTable,
    scope: u32,
    key: &str,
) -> Result<KeyAnswer, NoMemory>
    ensures known { (world : World) → Agrees world (T.told asker.new)
        → homes.now ≡ map (cascade_spec.whole_at world) nodes.now
        → made_spec.IsTableOf world nodes.now table.now
        → carried_spec.CarryValues world nodes.now → carried_spec.CarryScopes nodes.now
        → IfOk result (λ answer. answer ≡ keys_spec.key_answer world nodes.now scope key.now) }
    ensures given { (roots : List (List ℕ)) → given_spec.AreTold (T.told asker.old) homes.now
        → IfOk result (λ answer. AreAllowed roots (T.told asker.new)
        (option_to_list (pages_spec.local_name answer.target))) }
    ensures stand { T.stand asker.new ≡ T.stand asker.old }
    ensures founded { given_spec.AreTold (T.told asker.old) homes.now
        → StaysFounded [] (T.told asker.old) (T.told asker.new) }
    ensures asks { AsksOnly documents_spec.nothing [] (T.told asker.old) (T.told asker.new) }
    ensures only { IfOk result (λ answer. TellsOnly (only_spec.is_title_at answer.target)
        (T.told asker.old) (T.told asker.new)) }
    ensures grows { Grows (T.told asker.old) (T.told asker.new) }
{
    let defined = Defined {
        homes,
        nodes,
        table,
    };
    let chain = chain_of(alloc, defined, scope, key)?;
    answer_of(alloc, asker, defined, key, chain)
}

// What a key gives whose chain was followed.
fn answer_of<T: Titles>(
    alloc: Global,
    asker: &mut T,
    defined: Defined<'_>,
    key: &str,
    chain: Chain,
) -> Result<KeyAnswer, NoMemory>
    ensures known { (world : World) → Agrees world (T.told asker.new)
        → spec.AreOf world defined.entry → IfOk result (λ answer. answer
        ≡ keys_spec.answer_of_chain world defined.entry.nodes.now key.now (spec.chain_seen chain)) }
    ensures given { (roots : List (List ℕ))
        → given_spec.AreTold (T.told asker.old) defined.entry.homes.now
        → IfOk result (λ answer. AreAllowed roots (T.told asker.new)
        (option_to_list (pages_spec.local_name answer.target))) }
    ensures stand { T.stand asker.new ≡ T.stand asker.old }
    ensures founded { given_spec.AreTold (T.told asker.old) defined.entry.homes.now
        → StaysFounded [] (T.told asker.old) (T.told asker.new) }
    ensures asks { AsksOnly documents_spec.nothing [] (T.told asker.old) (T.told asker.new) }
    ensures only { IfOk result (λ answer. TellsOnly (only_spec.is_title_at answer.target)
        (T.told asker.old) (T.told asker.new)) }
    ensures grows { Grows (T.told asker.old) (T.told asker.new) }
{
    let Chain { met, faults } = chain;
    let Some(first) = first_of(&met) else {
        return Ok(undefined(alloc));
    };
    let target = last_target(alloc, defined, &met)?;
    let text = label_of(alloc, asker, defined, &met, &target)?;
    made_of(alloc, defined, first, key, faults, target, text)
}

// The answer of a chain that begins with this definition, of its faults, its target and its text.
fn made_of(
    alloc: Global,
    defined: Defined<'_>,
    first: u32,
    key: &str,
    faults: List<Fault>,
    target: Target,
    text: Text,
) -> Result<KeyAnswer, NoMemory>
    ensures is { IfOk result (λ answer. answer ≡ record {
      node = Some first;
      target = target;
      label = keys_spec.label_or key.now text;
      faults = faults ++ keys_spec.untitled_at defined.entry.nodes.now first key.now text;
    }) }
    ensures target { IfOk result (λ answer. answer.target ≡ target) }
{
    let untitled = untitled_at(alloc, defined, first, key, &text)?;
    Ok(KeyAnswer {
        node: Some(first),
        target,
        label: label_or(alloc, key, text)?,
        faults: with_fault(faults, untitled)?,
    })
}

fn first_of(met: &[u32]) -> Option<u32>
    ensures { result ≡ slice_get met.now 0 }
{
    met.first().copied()
}

// The target of the last definition's href.
fn last_target(alloc: Global, defined: Defined<'_>, met: &[u32]) -> Result<Target, NoMemory>
    ensures { IfOk result (λ target. target
        ≡ spec.last_target defined.entry.homes.now defined.entry.nodes.now met.now) }
{
    match last_of(met) {
        Some(at) => defined.target(alloc, at),
        None => Ok(Target::Nothing),
    }
}

// The fault of a definition without a text.
fn untitled_at(
    alloc: Global,
    defined: Defined<'_>,
    first: u32,
    key: &str,
    text: &Text,
) -> Result<Option<Fault>, NoMemory>
    ensures { IfOk result (λ fault. option_to_list fault
        ≡ keys_spec.untitled_at defined.entry.nodes.now first key.now text.now) }
{
    if text.is_empty() {
        defined.fault(alloc, first, FaultCode::KeyNoText, key)
    } else {
        Ok(None)
    }
}

// A text, or the key if it is empty.
fn label_or(alloc: Global, key: &str, text: Text) -> Result<Text, NoMemory>
    ensures { IfOk result (λ label. label ≡ keys_spec.label_or key.now text) }
{
    if text.is_empty() {
        Ok(Text::from_str(alloc, key)?)
    } else {
        Ok(text)
    }
}

fn with_fault(faults: List<Fault>, fault: Option<Fault>) -> Result<List<Fault>, NoMemory>
    ensures { IfOk result (λ all. all ≡ faults ++ option_to_list fault) }
{
    let mut faults = faults;
    if let Some(fault) = fault {
        faults.push(fault)?;
    }
    Ok(faults)
}

fn undefined(alloc: Global) -> KeyAnswer
    ensures { result ≡ keys_spec.undefined }
{
    KeyAnswer {
        node: None,
        target: Target::Nothing,
        label: Text::new(alloc),
        faults: List::new(alloc),
    }
}
