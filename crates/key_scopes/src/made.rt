//! The making of the table.

ghost use Rattle.std.specs.Prelude.{◌≡◌, map, IfOk, OnOk};
ghost use Rattle.key_scopes.specs.Defined as defined_spec;
ghost use Rattle.key_scopes.specs.Made as made_spec;
ghost use Rattle.key_scopes.specs.Numbered as numbered_spec;
ghost use Rattle.map_spec.specs.Cascade as cascade_spec;
ghost use Rattle.map_spec.specs.Scopes as scopes_spec;
ghost use Rattle.plan_nodes.specs.Preorder as preorder_spec;
ghost use Rattle.reader_spec.specs.World.{World};
ghost use Rattle.readers.specs.Documents as documents_spec;
ghost use Rattle.readers.specs.Documents.{AsksOnly};
ghost use Rattle.readers.specs.Founded as founded_spec;
ghost use Rattle.readers.specs.Founded.{Grows, StaysFounded};
ghost use Rattle.readers.specs.Only as only_spec;
ghost use Rattle.readers.specs.Only.{TellsOnly};
ghost use Rattle.readers.specs.Told.{Agrees};

use crate::children::ChildNames;
use crate::definitions::{Definitions, WrittenKey};
use crate::numbering::{Numbering, place_in};
use crate::own_keys::own_keys;
use crate::spans::Spans;
use crate::table::ScopeTable;
use dita_doc::{Fault, List, NoMemory, PlanNode, Scope};
use plan_nodes::{NodeElements, copy_nodes};
use readers::Reader;
use std::alloc::{AllocError, Global};

/// The table of scopes, the nodes with their scopes, and the faults of names.
#[derive(Drop)]
pub struct ScopesMade {
    pub table: ScopeTable,
    pub nodes: List<PlanNode>,
    pub faults: List<Fault>,
}

/// The scopes of nodes in preorder, and the keys that are defined in them. The nodes' own field
/// `scope` is not looked at, so over the nodes that it gave it gives the same again. The document of
/// each node is asked for, and none of them twice.
///
/// # Errors
///
/// Out of memory.
pub fn scopes<R: Reader>(
    alloc: Global,
    reader: &mut R,
    nodes: &List<PlanNode>,
) -> Result<ScopesMade, NoMemory>
    ensures known { (world : World) → Agrees world (R.told reader.new)
        → preorder_spec.IsTree nodes.now
        → IfOk result (λ made. made_spec.AreScopes world nodes.now made) }
    ensures value { preorder_spec.IsTree nodes.now → IfOk result (λ made.
        made_spec.AreScopes (R.stand reader.old).world nodes.now made) }
    ensures again { preorder_spec.IsTree nodes.now → IfOk result (λ made.
        made_spec.AreScopes (R.stand reader.old).world made.nodes made) }
    ensures stand { R.stand reader.new ≡ R.stand reader.old }
    ensures founded { StaysFounded (founded_spec.homes nodes.now) (R.told reader.old)
        (R.told reader.new) }
    ensures asks { AsksOnly documents_spec.nothing (founded_spec.homes nodes.now)
        (R.told reader.old) (R.told reader.new) }
    ensures only { OnOk result (TellsOnly (only_spec.is_document_of (founded_spec.homes nodes.now))
        (R.told reader.old) (R.told reader.new)) }
    ensures grows { Grows (R.told reader.old) (R.told reader.new) }
{
    into_scopes(alloc, reader, copy_nodes(alloc, nodes.as_slice())?)
}

/// What `scopes` gives for nodes that are handed over, which are not copied.
///
/// # Errors
///
/// Out of memory. The nodes are gone then.
pub fn into_scopes<R: Reader>(
    alloc: Global,
    reader: &mut R,
    nodes: List<PlanNode>,
) -> Result<ScopesMade, NoMemory>
    ensures known { (world : World) → Agrees world (R.told reader.new)
        → preorder_spec.IsTree nodes
        → IfOk result (λ made. made_spec.AreScopes world nodes made) }
    ensures value { preorder_spec.IsTree nodes → IfOk result (λ made.
        made_spec.AreScopes (R.stand reader.old).world nodes made) }
    ensures again { preorder_spec.IsTree nodes → IfOk result (λ made.
        made_spec.AreScopes (R.stand reader.old).world made.nodes made) }
    ensures stand { R.stand reader.new ≡ R.stand reader.old }
    ensures founded { StaysFounded (founded_spec.homes nodes) (R.told reader.old)
        (R.told reader.new) }
    ensures asks { AsksOnly documents_spec.nothing (founded_spec.homes nodes)
        (R.told reader.old) (R.told reader.new) }
    ensures only { OnOk result (TellsOnly (only_spec.is_document_of (founded_spec.homes nodes))
        (R.told reader.old) (R.told reader.new)) }
    ensures grows { Grows (R.told reader.old) (R.told reader.new) }
{
    scopes_of(alloc, reader, nodes)
}

/// The table alone, of nodes of which the elements are known. Nothing is copied and nothing is asked.
///
/// # Errors
///
/// Out of memory.
pub fn scope_table(
    alloc: Global,
    homes: &NodeElements,
    nodes: &[PlanNode],
) -> Result<ScopeTable, NoMemory>
    ensures { (world : World) → homes.now ≡ map (cascade_spec.whole_at world) nodes.now
        → preorder_spec.IsTree nodes.now
        → IfOk result (λ table. made_spec.IsTableOf world nodes.now table) }
{
    let Numbering {
        scopes,
        written,
        ..
    } = Numbering::of(alloc, homes, nodes)?;
    let table = table_of(alloc, scopes, written, nodes.len())?;
    Ok(table)
}

// What `into_scopes` says, but of the reader's own world.
#[tactic(auto, using(crate::proofs::Walking::walking))]
fn scopes_of<R: Reader>(
    alloc: Global,
    reader: &mut R,
    nodes: List<PlanNode>,
) -> Result<ScopesMade, NoMemory>
    ensures known { (world : World) → Agrees world (R.told reader.new)
        → preorder_spec.IsTree nodes
        → IfOk result (λ made. made_spec.AreScopes world nodes made) }
    ensures stand { R.stand reader.new ≡ R.stand reader.old }
    ensures founded { StaysFounded (founded_spec.homes nodes) (R.told reader.old)
        (R.told reader.new) }
    ensures asks { AsksOnly documents_spec.nothing (founded_spec.homes nodes)
        (R.told reader.old) (R.told reader.new) }
    ensures only { OnOk result (TellsOnly (only_spec.is_document_of (founded_spec.homes nodes))
        (R.told reader.old) (R.told reader.new)) }
    ensures grows { Grows (R.told reader.old) (R.told reader.new) }
{
    let homes = NodeElements::of(alloc, reader, nodes.as_slice())?;
    scopes_in(alloc, &homes, nodes)
}

// The scopes of nodes of which the elements are known.
fn scopes_in(
    alloc: Global,
    homes: &NodeElements,
    nodes: List<PlanNode>,
) -> Result<ScopesMade, NoMemory>
    ensures { (world : World) → homes.now ≡ map (cascade_spec.whole_at world) nodes
        → preorder_spec.IsTree nodes
        → IfOk result (λ made. made_spec.AreScopes world nodes made) }
{
    let Numbering {
        scopes,
        written,
        places,
        faults,
    } = Numbering::of(alloc, homes, nodes.as_slice())?;
    let table = table_of(alloc, scopes, written, nodes.len())?;
    Ok(ScopesMade {
        table,
        nodes: scoped(alloc, nodes, &places)?,
        faults,
    })
}

// The table of scopes, with the keys that so many nodes define in them.
fn table_of(
    alloc: Global,
    scopes: List<Scope>,
    written: Vec<WrittenKey<'_>>,
    count: usize,
) -> Result<ScopeTable, NoMemory>
    ensures { IfOk result (λ table. defined_spec.IsTableBy count scopes
        (numbered_spec.entries written.entry.items) table) }
{
    let spans = Spans::of(alloc, scopes.as_slice())?;
    let own_keys = own_keys(alloc, &written, count, scopes.len())?;
    let definitions = Definitions::of(alloc, written, count, &spans)?;
    let children = ChildNames::of(alloc, scopes.as_slice())?;
    Ok(ScopeTable {
        scopes,
        spans,
        definitions,
        children,
        own_keys,
    })
}

// The nodes in their scopes.
fn scoped(
    alloc: Global,
    nodes: List<PlanNode>,
    places: &[u32],
) -> Result<List<PlanNode>, AllocError>
    ensures { places.now ≡ map (scopes_spec.scope_at nodes) (scopes_spec.places nodes)
        → IfOk result (λ scoped. scoped ≡ scopes_spec.scoped nodes) }
{
    let mut scoped = List::new(alloc);
    for node in nodes.into_vec() {
        let scope = place_in(places, scoped.len());
        scoped.push(in_scope(node, scope))?;
    }
    Ok(scoped)
}

// The node in this scope.
fn in_scope(node: PlanNode, scope: u32) -> PlanNode
    ensures { result ≡ record node { scope = scope } }
{
    PlanNode { scope, ..node }
}
