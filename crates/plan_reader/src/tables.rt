//! What is found once for all parts of a plan.

ghost use Rattle.std.specs.Prelude.{◌≡◌, ◌++◌, [], IfOk};
ghost use Rattle.conref_push.specs.Aimed as aimed_spec;
ghost use Rattle.plan_nodes.specs.Carried.{CarryScopes, CarryValues};
ghost use Rattle.plan_nodes.specs.Preorder.{IsTree};
ghost use Rattle.plan_reader.specs.Keyed.{AreKeyed};
ghost use Rattle.plan_reader.specs.Tables.{AreTables};
ghost use Rattle.readers.specs.Documents as documents_spec;
ghost use Rattle.readers.specs.Documents.{AsksOnly};
ghost use Rattle.readers.specs.Founded as founded_spec;
ghost use Rattle.readers.specs.Founded.{Grows, StaysFounded};

use conref_push::PushTable;
use dita_doc::{List, Name, NoMemory, Plan, PlanNode};
use key_scopes::{ScopeTable, scope_table};
use page_table::PageTable;
use plan_nodes::NodeElements;
use readers::Reader;
use std::alloc::Global;

/// The elements and the scopes of a plan's nodes, the pushes of its documents, and its pages.
#[derive(Drop)]
pub struct PlanTables {
    pub homes: NodeElements,
    pub scopes: ScopeTable,
    pub pushes: PushTable,
    pub pages: PageTable,
}

impl PlanTables {
    /// The tables of a plan, which are right where its nodes stand as those of a tree and carry their
    /// values and their scopes. Each document of the plan is asked for, and those in which nodes stand.
    pub fn of<R: Reader>(alloc: Global, reader: &mut R, plan: &Plan) -> Result<PlanTables, NoMemory>
        ensures tables { IsTree plan.now.nodes → CarryValues (R.stand reader.old).world plan.now.nodes
            → CarryScopes plan.now.nodes → IfOk result (λ tables. AreTables
            (R.stand reader.old).world plan.now.nodes plan.now.documents plan.now.pages tables) }
        ensures stand { R.stand reader.new ≡ R.stand reader.old }
        ensures founded { StaysFounded (founded_spec.homes plan.now.nodes ++ plan.now.documents)
            (R.told reader.old) (R.told reader.new) }
        ensures asks { AsksOnly aimed_spec.push_targets
            (founded_spec.homes plan.now.nodes ++ plan.now.documents) (R.told reader.old)
            (R.told reader.new) }
        ensures grows { Grows (R.told reader.old) (R.told reader.new) }
    {
        let (homes, table) = keyed(alloc, reader, &plan.nodes)?;
        PlanTables::with_pushes(alloc, reader, plan, plan.documents.as_slice(), homes, table)
    }

    /// The tables of a plan of which the elements and the scopes are known, as if no document of it
    /// pushed.
    pub fn without_pushes<R: Reader>(
        alloc: Global,
        reader: &mut R,
        plan: &Plan,
        homes: NodeElements,
        scopes: ScopeTable,
    ) -> Result<PlanTables, NoMemory>
        ensures tables { AreKeyed (R.stand reader.old).world plan.now.nodes homes scopes
            → IfOk result (λ tables. AreTables (R.stand reader.old).world plan.now.nodes []
            plan.now.pages tables) }
        ensures stand { R.stand reader.new ≡ R.stand reader.old }
        ensures founded { StaysFounded [] (R.told reader.old) (R.told reader.new) }
        ensures asks { AsksOnly aimed_spec.push_targets [] (R.told reader.old)
            (R.told reader.new) }
        ensures grows { Grows (R.told reader.old) (R.told reader.new) }
    {
        PlanTables::with_pushes(alloc, reader, plan, &[], homes, scopes)
    }

    // The tables of a plan of which these documents push.
    fn with_pushes<R: Reader>(
        alloc: Global,
        reader: &mut R,
        plan: &Plan,
        documents: &[Name],
        homes: NodeElements,
        scopes: ScopeTable,
    ) -> Result<PlanTables, NoMemory>
        ensures tables { AreKeyed (R.stand reader.old).world plan.now.nodes homes scopes
            → IfOk result (λ tables. AreTables (R.stand reader.old).world plan.now.nodes
            documents.now plan.now.pages tables) }
        ensures stand { R.stand reader.new ≡ R.stand reader.old }
        ensures founded { StaysFounded documents.now (R.told reader.old) (R.told reader.new) }
        ensures asks { AsksOnly aimed_spec.push_targets documents.now (R.told reader.old)
            (R.told reader.new) }
        ensures grows { Grows (R.told reader.old) (R.told reader.new) }
    {
        let pushes = PushTable::of(alloc, reader, documents)?;
        let pages = PageTable::of(alloc, plan.pages.as_slice())?;
        Ok(PlanTables {
            homes,
            scopes,
            pushes,
            pages,
        })
    }
}

// The elements and the scopes of nodes.
fn keyed<R: Reader>(
    alloc: Global,
    reader: &mut R,
    nodes: &List<PlanNode>,
) -> Result<(NodeElements, ScopeTable), NoMemory>
    ensures keyed { IsTree nodes.now → CarryValues (R.stand reader.old).world nodes.now
        → CarryScopes nodes.now → IfOk result (λ both. AreKeyed (R.stand reader.old).world
        nodes.now both.0 both.1) }
    ensures stand { R.stand reader.new ≡ R.stand reader.old }
    ensures founded { StaysFounded (founded_spec.homes nodes.now) (R.told reader.old)
        (R.told reader.new) }
    ensures asks { AsksOnly documents_spec.nothing (founded_spec.homes nodes.now)
        (R.told reader.old) (R.told reader.new) }
    ensures grows { Grows (R.told reader.old) (R.told reader.new) }
{
    let homes = NodeElements::of(alloc, reader, nodes.as_slice())?;
    let table = scope_table(alloc, &homes, nodes.as_slice())?;
    Ok((homes, table))
}
