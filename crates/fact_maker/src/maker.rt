//! The maker of the parts of a plan.

ghost use Rattle.std.specs.Prelude.{◌≡◌, IfOk, IsTrue, is_ok};
ghost use Rattle.std.specs.Arc.{arc_value};
ghost use Rattle.fact_judge.specs.Agreed.{plan_agrees};
ghost use Rattle.fact_judge.specs.Sound.{IsSound};
ghost use Rattle.fact_maker.specs.Made as made_spec;
ghost use Rattle.fact_maker.specs.Parts as parts_spec;
ghost use Rattle.fact_maker.specs.Ready as ready_spec;
ghost use Rattle.facts.specs.Rows as rows_spec;

use crate::findings::Findings;
use crate::html_made::{HtmlMade, contents_made, page_made};
use crate::ready::ReadyPlan;
use dita_doc::{NoMemory, Part, Sources};
use facts::{Fact, Row};
use std::alloc::Global;
use std::mem::replace;
use std::sync::Arc;

/// Makes the parts of a plan. What it has found goes on from one part to the next; the questions of
/// a part do not. Makers in several threads share what is ready of the plan.
#[derive(Drop)]
pub struct Maker {
    pub ready: Arc<ReadyPlan>,
    pub findings: Findings,
    pub ghost go_on: { ready_spec.FindingsGoOn (arc_value (arc_value ready).sources)
        (arc_value (arc_value ready).row.fact) findings } by { ready_spec.FindingsGoOn-prop
            (arc_value (arc_value ready).sources) (arc_value (arc_value ready).row.fact) findings },
}

impl Maker {
    /// The maker of the parts of the plan of a row, which is made ready now, over sources with which
    /// the row agrees.
    pub fn new(alloc: Global, sources: &Arc<Sources>, row: &Row) -> Result<Maker, NoMemory>
        requires plan { IsTrue (is_ok (arc_value (arc_value row.now.fact).plan).value) }
        requires sound { IsSound (arc_value row.now.fact) }
        requires agrees { plan_agrees (arc_value (arc_value row.now.fact).plan)
            (arc_value sources.now) }
        ensures sources { IfOk result
            (λ maker. arc_value (arc_value maker.ready).sources ≡ arc_value sources.now) }
        ensures row { IfOk result (λ maker. rows_spec.row_data (arc_value maker.ready).row
            ≡ rows_spec.row_data row.now) }
    {
        let ready = ReadyPlan::of(alloc, sources, row)?;
        Ok(Maker::over(alloc, Arc::new(alloc, ready)?))
    }

    /// One more maker of the parts of a plan that is ready. It takes no memory.
    pub fn over(alloc: Global, ready: Arc<ReadyPlan>) -> Maker
        ensures { result.ready ≡ ready }
    {
        Maker {
            ready,
            findings: Findings::new(alloc),
        }
    }

    /// What the parts of the plan share.
    pub fn ready(&self) -> &Arc<ReadyPlan>
        ensures { result.now ≡ self.now.ready }
    {
        &self.ready
    }

    /// The fact of a part that the plan has.
    ///
    /// # Errors
    ///
    /// Out of memory. The maker can go on then.
    pub fn make(&mut self, alloc: Global, part: Part) -> Result<Fact, NoMemory>
        requires { IsTrue (parts_spec.has_part
            (arc_value (arc_value (arc_value self.old.ready).row.fact).plan).value part) }
        ensures made { IfOk result (made_spec.IsMade
            (arc_value (arc_value self.old.ready).sources)
            (rows_spec.row_data (arc_value self.old.ready).row) part) }
        ensures ready { self.new.ready ≡ self.old.ready }
    {
        match part {
            Part::Plan => self.ready.fact_of_plan(alloc),
            Part::Page(_) | Part::Contents => self.html_fact(alloc, part),
        }
    }

    // The fact of a page or of the contents page.
    fn html_fact(&mut self, alloc: Global, part: Part) -> Result<Fact, NoMemory>
        requires { IsTrue (parts_spec.has_html
            (arc_value (arc_value (arc_value self.old.ready).row.fact).plan).value part) }
        ensures made { IfOk result (made_spec.IsMade
            (arc_value (arc_value self.old.ready).sources)
            (rows_spec.row_data (arc_value self.old.ready).row) part) }
        ensures ready { self.new.ready ≡ self.old.ready }
    {
        let found = replace(&mut self.findings, Findings::new(alloc));
        let made = html_of(alloc, &self.ready, found, part)?;
        let HtmlMade {
            html,
            asked,
            findings,
        } = made;
        self.findings = findings;
        self.ready.fact_of_html(alloc, part, asked, html)
    }
}

// A page or the contents page of a plan that is ready.
fn html_of(
    alloc: Global,
    ready: &ReadyPlan,
    findings: Findings,
    part: Part,
) -> Result<HtmlMade, NoMemory>
    requires part { IsTrue (parts_spec.has_html
        (arc_value (arc_value ready.now.row.fact).plan).value part) }
    requires go_on { ready_spec.FindingsGoOn (arc_value ready.now.sources)
        (arc_value ready.now.row.fact) findings }
    ensures right { IfOk result (λ made. made_spec.IsRightOf (arc_value ready.now.sources)
        (arc_value ready.now.row.fact) part made.html made.asked) }
    ensures go_on { IfOk result (λ made. ready_spec.FindingsGoOn (arc_value ready.now.sources)
        (arc_value ready.now.row.fact) made.findings) }
{
    let ground = ready.input();
    let sources: &Sources = &ready.sources;
    match part {
        Part::Page(index) => {
            page_made(
                alloc,
                sources,
                findings,
                ground,
                &ready.tables,
                &ready.links,
                index,
            )
        }
        Part::Contents => contents_made(alloc, sources, findings, ground, &ready.tables),
        Part::Plan => unreachable!(),
    }
}
