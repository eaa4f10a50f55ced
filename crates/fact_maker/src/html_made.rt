//! The pages of a plan and its contents page, with the questions that their facts record.

ghost use Rattle.std.specs.Prelude.{◌≡◌, ◌<◌, Some, IfOk, length, reverse, slice_get};
ghost use Rattle.dita_doc.specs.declared.fact.Part.TheVariants as parts;
ghost use Rattle.fact_maker.specs.Made.{IsRightOf};
ghost use Rattle.fact_maker.specs.Own as own_spec;
ghost use Rattle.fact_maker.specs.Findings.{GoOn};
ghost use Rattle.fact_maker.specs.Ready.{IsGround};
ghost use Rattle.facts.specs.declared.fact.Fact.{Fact};
ghost use Rattle.node_links.specs.NodeTable.{AreNodeLinks};
ghost use Rattle.plan_reader.specs.Tables.{AreTables};
ghost use Rattle.reader_spec.specs.World.{world_of};
ghost use Rattle.readers.specs.Noted as noted_spec;

use crate::findings::Findings;
use crate::own_asked::own_asked;
use clean_build::{BuildInput, ContentsWork, PageMade, PageWork, WorkDone, over_tables};
use conref_pull::Tables;
use dita_doc::{Asked, Html, List, NoMemory, PagePlan, Plan, Sources};
use node_links::NodeLinks;
use plan_reader::PlanTables;
use readers::Questions;
use std::alloc::Global;

/// The HTML of a part, the questions that its fact records, and what goes on to the next part.
#[derive(Drop)]
pub(crate) struct HtmlMade {
    pub html: Html,
    pub asked: List<Asked>,
    pub findings: Findings,
}

/// The page at an index, with all its faults. Of the tables of its content only the rules go on from
/// the pages before it; what is asked depends on none of them.
pub(crate) fn page_made(
    alloc: Global,
    sources: &Sources,
    findings: Findings,
    ground: BuildInput<'_>,
    tables: &PlanTables,
    links: &NodeLinks,
    index: u32,
) -> Result<HtmlMade, NoMemory>
    requires go_on { GoOn (world_of sources.now) ground.plan.now.documents findings }
    requires tables { AreTables (world_of sources.now) ground.plan.now.nodes
        ground.plan.now.documents ground.plan.now.pages tables.now }
    requires links { ∥ AreNodeLinks (world_of sources.now) ground.plan.now links.now ∥₁ }
    requires within { index < length ground.plan.now.pages }
    ensures right { (fact : Fact) → IsGround sources.now fact ground.entry → IfOk result
        (λ made. IsRightOf sources.now fact (parts.Page index) made.html made.asked) }
    ensures go_on { IfOk result (λ made.
        GoOn (world_of sources.now) ground.entry.plan.now.documents made.findings) }
{
    let Findings { cache, rules } = findings;
    let work = PageWork {
        ground,
        page: page_at(ground.plan, index),
        index,
        links,
        content: Tables::with_rules(alloc, rules),
        behind: links.faults_by_row(alloc, ground.plan)?,
        with_terms: false,
    };
    let done = over_tables(alloc, sources, cache, ground.plan, tables, work)?;
    let WorkDone { made, asked, cache } = done;
    let PageMade { html, content, .. } = made;
    let asked = own_of_plan(alloc, asked, tables)?;
    let rules = content.into_rules();
    Ok(HtmlMade {
        html,
        asked,
        findings: Findings { cache, rules },
    })
}

/// The contents page, with the faults of all pushes.
pub(crate) fn contents_made(
    alloc: Global,
    sources: &Sources,
    findings: Findings,
    ground: BuildInput<'_>,
    tables: &PlanTables,
) -> Result<HtmlMade, NoMemory>
    requires go_on { GoOn (world_of sources.now) ground.plan.now.documents findings }
    requires tables { AreTables (world_of sources.now) ground.plan.now.nodes
        ground.plan.now.documents ground.plan.now.pages tables.now }
    ensures right { (fact : Fact) → IsGround sources.now fact ground.entry → IfOk result
        (λ made. IsRightOf sources.now fact parts.Contents made.html made.asked) }
    ensures go_on { IfOk result (λ made.
        GoOn (world_of sources.now) ground.entry.plan.now.documents made.findings) }
{
    let Findings { cache, rules } = findings;
    let work = ContentsWork { ground };
    let done = over_tables(alloc, sources, cache, ground.plan, tables, work)?;
    let WorkDone { made, asked, cache } = done;
    let asked = own_of_plan(alloc, asked, tables)?;
    Ok(HtmlMade {
        html: made,
        asked,
        findings: Findings { cache, rules },
    })
}

// The page of a plan at an index.
fn page_at(plan: &Plan, index: u32) -> &PagePlan
    requires { index < length plan.now.pages }
    ensures { slice_get plan.now.pages index ≡ Some result.now }
{
    &plan.pages.as_slice()[index as usize]
}

// What a fact records of these questions for a part of the plan of these tables.
fn own_of_plan(
    alloc: Global,
    asked: Questions,
    tables: &PlanTables,
) -> Result<List<Asked>, NoMemory>
    ensures { IfOk result (λ list. list ≡ own_spec.own_asked (length tables.now.scopes.scopes)
        (noted_spec.answered_of (reverse asked))) }
{
    own_asked(alloc, asked, tables.scopes.list().len())
}
