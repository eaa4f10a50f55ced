//! The plan of nodes that carry their values.

ghost use Rattle.std.specs.Prelude.{◌≡◌, IfOk};
ghost use Rattle.dita_doc.specs.Gives.{GivesSeen};
ghost use Rattle.key_layer.specs.Ready.{AreReady};
ghost use Rattle.key_scopes.specs.Made.{AreScopes, IsTableOf};
ghost use Rattle.map_spec.specs.PlanOf as plan_spec;
ghost use Rattle.map_spec.specs.Scopes as scopes_spec;
ghost use Rattle.plan_nodes.specs.Carried.{CarryValues};
ghost use Rattle.plan_nodes.specs.Preorder.{HasParentsBefore, IsTree};
ghost use Rattle.reader_spec.specs.World.{World};
ghost use Rattle.readers.specs.Documents as documents_spec;
ghost use Rattle.readers.specs.Documents.{AsksOnly};
ghost use Rattle.readers.specs.Founded as founded_spec;
ghost use Rattle.readers.specs.Founded.{Grows, StaysFounded};
ghost use Rattle.readers.specs.Told.{Agrees, Knows};

use crate::keyed::keyed_pages;
use dita_doc::{Fault, List, NoMemory, Plan, PlanNode, PlanStop, Scope, Stop};
use doc_elements::append_faults;
use key_scopes::{ScopeTable, ScopesMade, into_scopes};
use plan_nodes::{NodeElements, copy_texts};
use readers::{Reader, Titles};
use std::alloc::{AllocError, Global};

/// A plan, the elements of its nodes, and the table of their scopes.
#[derive(Drop)]
pub struct Planned {
    pub plan: Plan,
    pub homes: NodeElements,
    pub table: ScopeTable,
}

// Nodes in their scopes, with their elements.
#[derive(Drop)]
struct Scoped {
    made: ScopesMade,
    homes: NodeElements,
}

/// The plan of nodes that carry their values, behind the faults that were found before.
pub(crate) fn plan_of_nodes<T: Titles>(
    alloc: Global,
    asker: &mut T,
    nodes: List<PlanNode>,
    before: List<Fault>,
) -> Result<Planned, Stop<PlanStop>>
    requires tree { IsTree nodes }
    requires values { Knows (T.told asker.old) (λ world. CarryValues world nodes) }
    ensures known { (world : World) → Agrees world (T.told asker.new)
        → GivesSeen (λ planned. planned.plan) result
        (plan_spec.few_pages plan_spec.limits.pages (plan_spec.plan_with world before nodes)) }
    ensures nodes { IfOk result (λ planned. planned.plan.nodes ≡ scopes_spec.scoped nodes) }
    ensures ready { IfOk result (λ planned.
        AreReady (T.told asker.new) planned.plan.nodes planned.homes) }
    ensures tabled { IfOk result (λ planned. Knows (T.told asker.new)
        (λ world. ∥ IsTableOf world planned.plan.nodes planned.table ∥₁)) }
    ensures stand { T.stand asker.new ≡ T.stand asker.old }
    ensures founded { StaysFounded (founded_spec.homes nodes) (T.told asker.old)
        (T.told asker.new) }
    ensures asks { AsksOnly documents_spec.nothing (founded_spec.homes nodes)
        (T.told asker.old) (T.told asker.new) }
    ensures grows { Grows (T.told asker.old) (T.told asker.new) }
{
    let Scoped { made, homes } = with_scopes(alloc, asker, nodes)?;
    let mut faults = before;
    append_faults(&mut faults, made.faults)?;
    let pages = match keyed_pages(alloc, asker, &made.nodes, &homes, &made.table) {
        Ok(pages) => pages,
        Err(stop) => return Err(stop),
    };
    append_faults(&mut faults, pages.faults)?;
    let scopes = copy_scopes(alloc, made.table.list().as_slice())?;
    let plan = Plan {
        nodes: made.nodes,
        scopes,
        pages: pages.pages,
        targets: pages.targets,
        documents: pages.documents,
        faults,
    };
    let table = made.table;
    Ok(Planned { plan, homes, table })
}

// Nodes that carry their values in their scopes, and all that is known of them.
fn with_scopes<R: Reader>(
    alloc: Global,
    reader: &mut R,
    nodes: List<PlanNode>,
) -> Result<Scoped, NoMemory>
    requires tree { IsTree nodes }
    requires values { Knows (R.told reader.old) (λ world. CarryValues world nodes) }
    ensures made { IfOk result (λ scoped. Knows (R.told reader.new)
        (λ world. AreScopes world nodes scoped.made)) }
    ensures nodes { IfOk result (λ scoped. scoped.made.nodes ≡ scopes_spec.scoped nodes) }
    ensures ready { IfOk result (λ scoped.
        AreReady (R.told reader.new) scoped.made.nodes scoped.homes) }
    ensures parents { IfOk result (λ scoped. HasParentsBefore scoped.made.nodes) }
    ensures stand { R.stand reader.new ≡ R.stand reader.old }
    ensures founded { StaysFounded (founded_spec.homes nodes) (R.told reader.old)
        (R.told reader.new) }
    ensures asks { AsksOnly documents_spec.nothing (founded_spec.homes nodes)
        (R.told reader.old) (R.told reader.new) }
    ensures grows { Grows (R.told reader.old) (R.told reader.new) }
{
    let made = into_scopes(alloc, reader, nodes)?;
    let homes = NodeElements::of(alloc, reader, made.nodes.as_slice())?;
    Ok(Scoped { made, homes })
}

fn copy_scopes(alloc: Global, scopes: &[Scope]) -> Result<List<Scope>, AllocError>
    ensures { IfOk result (λ copies. copies ≡ scopes.now) }
{
    let mut copies = List::new(alloc);
    for scope in scopes {
        copies.push(copy_scope(alloc, scope)?)?;
    }
    Ok(copies)
}

fn copy_scope(alloc: Global, scope: &Scope) -> Result<Scope, AllocError>
    ensures { IfOk result (λ copy. copy ≡ scope.now) }
{
    Ok(Scope {
        parent: scope.parent,
        node: scope.node,
        names: copy_texts(alloc, scope.names.as_slice())?,
    })
}
