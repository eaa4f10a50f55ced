//! A language for tests of builds: each document that is stored is a page, and each page is the same
//! line. A plan is made anew if other names are stored, and a page never.

ghost use Rattle.std.specs.Prelude.{◌≡◌, [], IfOk, map};
ghost use Rattle.dita_doc.specs.declared.plan.PagePlan.{PagePlan};
ghost use Rattle.facts.specs.Judged as judged_spec;
ghost use Rattle.lock_examples.specs.LineLanguage as line_spec;

use desk_work::Makers;
use dita_doc::{
    FactKey, Html, List, Name, NoMemory, PageId, PagePlan, Part, Plan, PlanStop, Sources,
};
use facts::{Fact, Judge, Parts, PlanFact, Row};
use std::alloc::{AllocError, Global};
use std::sync::Arc;

/// The parts of the language.
pub struct LineParts;

impl Parts for LineParts {
    ghost use Rattle.lock_examples.specs.LineLanguage as line_spec;

    ghost plan_agrees = { λ plan state. Unit {0} };

    ghost own_agrees = { line_spec.AgreesWith };

    ghost is_sound = { line_spec.IsSound };
}

/// A judge, which compares the names of a plan with those that are stored.
#[derive(Drop)]
pub struct LineJudge {
    sources: Arc<Sources>,
    key: FactKey,
}

impl Judge<LineParts> for LineJudge {
    ghost use Rattle.std.specs.Arc.{arc_value};
    ghost use Rattle.facts.specs.Judged as judged_spec;

    ghost sources = { λ judge. arc_value judge.sources };

    ghost build = { λ judge. judged_spec.build_key judge.key };

    fn judge_plan(
        &mut self,
        _alloc: Global,
        _plan: &PlanFact,
        _since: u64,
    ) -> Result<bool, NoMemory> {
        Ok(true)
    }

    fn judge_own(&mut self, alloc: Global, fact: &Fact, _since: u64) -> Result<bool, NoMemory> {
        match fact.key.part {
            Part::Plan => Ok(is_plan_over(alloc, &fact.plan.value, &self.sources)?),
            Part::Page(_) | Part::Contents => Ok(true),
        }
    }
}

/// A plan that is ready over sources. It is the maker of its parts too.
#[derive(Drop)]
pub struct LinePlan {
    sources: Arc<Sources>,
    row: Row,
}

/// Who judges and makes the parts.
pub struct LineMakers;

impl Makers<LineParts> for LineMakers {
    ghost use Rattle.std.specs.Arc.{arc_value};
    ghost use Rattle.facts.specs.Rows as rows_spec;
    ghost use Rattle.lock_examples.specs.LineLaws as laws;
    ghost use Rattle.lock_examples.specs.LineLanguage as line_spec;

    ghost language = { line_spec.line_language };

    type Ready = LinePlan;

    ghost ready_row = { λ ready. rows_spec.row_data ready.row };

    ghost ready_state = { λ ready. arc_value ready.sources };

    type PartJudge = LineJudge;

    type PartMaker = LinePlan;

    ghost maker_row = { λ maker. rows_spec.row_data maker.row };

    ghost maker_state = { λ maker. arc_value maker.sources };

    fn plan_fact(alloc: Global, key: &FactKey, sources: &Arc<Sources>) -> Result<Fact, NoMemory> {
        let plan = PlanFact {
            asked: List::new(alloc),
            value: Ok(plan_over(alloc, sources)?),
        };
        Ok(Fact {
            key: key.clone()?,
            plan: Arc::new(alloc, plan)?,
            planned: 0,
            asked: List::new(alloc),
            html: None,
        })
    }

    fn ready(_alloc: Global, sources: &Arc<Sources>, plan: &Row) -> Result<LinePlan, NoMemory> {
        Ok(LinePlan {
            sources: Arc::try_clone(sources)?,
            row: plan.clone()?,
        })
    }

    fn judge(
        _alloc: Global,
        key: &FactKey,
        sources: &Arc<Sources>,
        _ready: Option<&LinePlan>,
    ) -> Result<LineJudge, NoMemory> {
        Ok(LineJudge {
            sources: Arc::try_clone(sources)?,
            key: key.clone()?,
        })
    }

    fn maker(
        _alloc: Global,
        sources: &Arc<Sources>,
        ready: &LinePlan,
    ) -> Result<LinePlan, NoMemory> {
        Ok(LinePlan {
            sources: Arc::try_clone(sources)?,
            row: ready.row.clone()?,
        })
    }

    fn make(alloc: Global, maker: &mut LinePlan, part: Part) -> Result<Fact, NoMemory> {
        let html = Html {
            bytes: List::from_slice(alloc, b"page\n")?,
            faults: List::new(alloc),
        };
        let planned = &maker.row.fact;
        Ok(Fact {
            key: FactKey {
                map: planned.key.map.clone()?,
                val: planned.key.val.clone()?,
                part,
            },
            plan: Arc::try_clone(&planned.plan)?,
            planned: maker.row.serial,
            asked: List::new(alloc),
            html: Some(Arc::new(alloc, html)?),
        })
    }

    ghost plan_tells = { laws.plan_tells };

    ghost parts_tell = { laws.parts_tell };
}

// Whether a plan has the documents that are stored.
fn is_plan_over(
    alloc: Global,
    value: &Result<Plan, PlanStop>,
    sources: &Sources,
) -> Result<bool, AllocError>
    ensures { IfOk result (λ is. judged_spec.Tells is
        (line_spec.IsPlanOver value.now sources.now)) }
{
    match value {
        Ok(plan) => Ok(plan.documents == names_of(alloc, sources)?),
        Err(_) => Ok(false),
    }
}

// The names that are stored.
fn names_of(alloc: Global, sources: &Sources) -> Result<List<Name>, AllocError>
    ensures { IfOk result (λ names. names ≡ line_spec.names_in sources.now) }
{
    let mut names = List::new(alloc);
    for document in sources.iter() {
        names.push(document.name.clone()?)?;
    }
    Ok(names)
}

// The plan over sources.
fn plan_over(alloc: Global, sources: &Sources) -> Result<Plan, AllocError>
    ensures sound { IfOk result line_spec.IsPagePlan }
    ensures over { IfOk result (λ plan. plan.documents ≡ line_spec.names_in sources.now) }
{
    let documents = names_of(alloc, sources)?;
    Ok(Plan {
        nodes: List::new(alloc),
        scopes: List::new(alloc),
        pages: pages_of(alloc, documents.as_slice())?,
        targets: List::new(alloc),
        documents,
        faults: List::new(alloc),
    })
}

// A page for each name.
fn pages_of(alloc: Global, names: &[Name]) -> Result<List<PagePlan>, AllocError>
    ensures { IfOk result (λ pages. map (λ (page : PagePlan). page.name) pages ≡ names.now) }
{
    let mut pages = List::new(alloc);
    for name in names {
        let id = PageId {
            doc: name.clone()?,
            scope: 0,
            filters: List::new(alloc),
            affixes: List::new(alloc),
        };
        pages.push(PagePlan {
            id,
            node: 0,
            name: name.clone()?,
        })?;
    }
    Ok(pages)
}
