//! A plan that is ready for the making of its parts.

ghost use Rattle.std.specs.Prelude.{◌≡◌, IfOk, IsTrue, Ok, is_ok};
ghost use Rattle.std.specs.Arc.{arc_value};
ghost use Rattle.std.specs.Option.{option_copied};
ghost use Rattle.fact_judge.specs.Agreed.{plan_agrees};
ghost use Rattle.fact_judge.specs.Sound.{IsSound};
ghost use Rattle.fact_maker.specs.Ready as ready_spec;
ghost use Rattle.facts.specs.Rows as rows_spec;
ghost use Rattle.plan_nodes.specs.Carried.{CarryScopes, CarryValues};
ghost use Rattle.plan_nodes.specs.Preorder.{IsTree};
ghost use Rattle.plan_reader.specs.Tables.{AreTables};
ghost use Rattle.node_links.specs.NodeTable.{AreNodeLinks};
ghost use Rattle.reader_spec.specs.World.{world_of};

use crate::plan_facts::of_plan;
use clean_build::BuildInput;
use dita_doc::{Asked, FactKey, Html, List, NoMemory, Part, Plan, Sources};
use fact_judge::SourceJudge;
use facts::{Fact, PlanFact, Row};
use node_links::NodeLinks;
use plan_reader::{PlanCache, PlanReader, PlanTables};
use source_reader::{KnownTitles, SourceReader};
use std::alloc::Global;
use std::sync::Arc;

/// The plan of a row over sources with which the row agrees, and what is found once for all parts of
/// the plan. The makers and the judges of a build share it.
#[derive(Drop)]
pub struct ReadyPlan {
    pub sources: Arc<Sources>,
    pub row: Row,
    pub tables: Arc<PlanTables>,
    pub links: NodeLinks,
    pub ghost is_plan: { IsTrue (is_ok (arc_value (arc_value row.fact).plan).value) },
    pub ghost ready: { ready_spec.IsReady (arc_value sources) (arc_value row.fact)
        (arc_value tables) links },
}

impl ReadyPlan {
    /// Makes the tables and finds the links of the plan of a row.
    pub fn of(alloc: Global, sources: &Arc<Sources>, row: &Row) -> Result<ReadyPlan, NoMemory>
        requires plan { IsTrue (is_ok (arc_value (arc_value row.now.fact).plan).value) }
        requires sound { IsSound (arc_value row.now.fact) }
        requires agrees { plan_agrees (arc_value (arc_value row.now.fact).plan)
            (arc_value sources.now) }
        ensures sources { IfOk result (λ ready. arc_value ready.sources ≡ arc_value sources.now) }
        ensures row { IfOk result
            (λ ready. rows_spec.row_data ready.row ≡ rows_spec.row_data row.now) }
    {
        let plan = plan_in(&row.fact.plan);
        let (tables, links) = found_once(alloc, sources, plan)?;
        Ok(ReadyPlan {
            sources: Arc::try_clone(sources)?,
            row: row.clone()?,
            tables: Arc::new(alloc, tables)?,
            links,
        })
    }

    /// A judge, over the same sources, of the facts of the plan's map and DITAVAL.
    pub fn judge(&self, alloc: Global) -> Result<SourceJudge, NoMemory>
        ensures sources { IfOk result
            (λ judge. arc_value judge.sources ≡ arc_value self.now.sources) }
        ensures map { IfOk result (λ judge. judge.map ≡ (arc_value self.now.row.fact).key.map) }
        ensures val { IfOk result (λ judge. judge.val ≡ (arc_value self.now.row.fact).key.val) }
    {
        let key = &self.row.fact.key;
        let judge = SourceJudge::new(alloc, &self.sources, &key.map, key.val.as_ref())?;
        Ok(judge.with_tables(Arc::try_clone(&self.tables)?))
    }

    /// The plan.
    pub fn plan(&self) -> &Plan
        ensures { (arc_value (arc_value self.now.row.fact).plan).value ≡ Ok result.now }
    {
        plan_in(&self.row.fact.plan)
    }

    /// The map and the DITAVAL of the plan, with the plan.
    pub(crate) fn input(&self) -> BuildInput<'_>
        ensures map { result.map.now ≡ (arc_value self.now.row.fact).key.map }
        ensures val { option_copied result.val ≡ (arc_value self.now.row.fact).key.val }
        ensures plan { (arc_value (arc_value self.now.row.fact).plan).value ≡ Ok result.plan.now }
    {
        let key = &self.row.fact.key;
        BuildInput {
            map: &key.map,
            val: key.val.as_ref(),
            plan: self.plan(),
        }
    }

    /// The fact of the plan itself.
    pub(crate) fn fact_of_plan(&self, alloc: Global) -> Result<Fact, NoMemory>
        ensures { IfOk result (ready_spec.IsPlanOfRow (rows_spec.row_data self.now.row)) }
    {
        let key = key_with(&self.row.fact.key, Part::Plan)?;
        of_plan(alloc, key, Arc::try_clone(&self.row.fact.plan)?)
    }

    /// The fact of a page or of the contents page, with the questions that it records.
    pub(crate) fn fact_of_html(
        &self,
        alloc: Global,
        part: Part,
        asked: List<Asked>,
        html: Html,
    ) -> Result<Fact, NoMemory>
        ensures { IfOk result
            (ready_spec.IsPartOfRow (rows_spec.row_data self.now.row) part html asked) }
    {
        Ok(Fact {
            key: key_with(&self.row.fact.key, part)?,
            plan: Arc::try_clone(&self.row.fact.plan)?,
            planned: self.row.serial,
            asked,
            html: Some(Arc::new(alloc, html)?),
        })
    }
}

/// A key of the same map and DITAVAL.
pub(crate) fn key_with(key: &FactKey, part: Part) -> Result<FactKey, NoMemory>
    ensures { IfOk result (λ copy. copy ≡ record key.now { part = part }) }
{
    let val = match &key.val {
        Some(val) => Some(val.clone()?),
        None => None,
    };
    Ok(FactKey {
        map: key.map.clone()?,
        val,
        part,
    })
}

// The plan of a build that has one.
fn plan_in(fact: &PlanFact) -> &Plan
    requires { IsTrue (is_ok fact.now.value) }
    ensures { fact.now.value ≡ Ok result.now }
{
    match &fact.value {
        Ok(plan) => plan,
        Err(_) => unreachable!(),
    }
}

// The tables of a plan, and its links.
fn found_once(
    alloc: Global,
    sources: &Sources,
    plan: &Plan,
) -> Result<(PlanTables, NodeLinks), NoMemory>
    requires tree { IsTree plan.now.nodes }
    requires values { CarryValues (world_of sources.now) plan.now.nodes }
    requires scopes { CarryScopes plan.now.nodes }
    ensures { IfOk result (λ both. ready_spec.AreReady sources.now plan.now both.0 both.1) }
{
    let tables = tables_of(alloc, sources, plan)?;
    let links = links_of(alloc, sources, plan, &tables)?;
    Ok((tables, links))
}

// The tables, by a reader whose questions are let go.
fn tables_of(alloc: Global, sources: &Sources, plan: &Plan) -> Result<PlanTables, NoMemory>
    requires tree { IsTree plan.now.nodes }
    requires values { CarryValues (world_of sources.now) plan.now.nodes }
    requires scopes { CarryScopes plan.now.nodes }
    ensures { IfOk result (λ tables. AreTables (world_of sources.now) plan.now.nodes
        plan.now.documents plan.now.pages tables) }
{
    let mut reader = SourceReader::new(alloc, KnownTitles::new(alloc, sources));
    PlanTables::of(alloc, &mut reader, plan)
}

// The links, by a reader whose questions are let go.
fn links_of(
    alloc: Global,
    sources: &Sources,
    plan: &Plan,
    tables: &PlanTables,
) -> Result<NodeLinks, NoMemory>
    requires tree { IsTree plan.now.nodes }
    requires values { CarryValues (world_of sources.now) plan.now.nodes }
    requires tables { AreTables (world_of sources.now) plan.now.nodes plan.now.documents
        plan.now.pages tables.now }
    ensures { IfOk result (AreNodeLinks (world_of sources.now) plan.now) }
{
    let cache = PlanCache::new(alloc);
    let mut reader = PlanReader::new(
        alloc,
        sources,
        cache,
        &plan.nodes,
        &plan.documents,
        &plan.pages,
        tables,
    );
    NodeLinks::of(alloc, &mut reader, plan)
}
