//! Who judges and makes the parts of builds. It stands for the language, which builds by workers do
//! not depend on.

ghost use Rattle.std.specs.Prelude.{◌≡◌, List, Ok, IfOk, IfSome, IsTrue, is_ok};
ghost use Rattle.std.specs.Arc.{arc_value};
ghost use Rattle.std.specs.Option.{option_copied};
ghost use Rattle.dita_doc.specs.Desk.{State};
ghost use Rattle.desk_language.specs.Language as language_spec;
ghost use Rattle.desk_lock.specs.Meaning as meaning_spec;
ghost use Rattle.desk_work.specs.Makers as makers_spec;
ghost use Rattle.facts.specs.Judged as judged_spec;
ghost use Rattle.desk_work.specs.Outcome as outcome_spec;
ghost use Rattle.dita_doc.specs.declared.fact.Part.TheVariants as parts_declared;
ghost use Rattle.dita_doc.specs.declared.plan.Plan as plan_declared;
ghost use Rattle.facts.specs.Rows as rows_spec;
ghost use Rattle.facts.specs.declared.fact.Fact as fact_declared;

use dita_doc::{FactKey, NoMemory, Part, Sources};
use facts::{Fact, Judge, Parts, Row};
use std::alloc::Global;
use std::sync::Arc;

/// Where a build gets its judges and its makers from. Each worker has its own; all share what is
/// found once for the plan.
pub trait Makers<P: Parts>: Sync {
    /// The language of the parts.
    ghost language: { language_spec.Language };

    /// A plan over sources, with what is found once for all its parts.
    type Ready: Send + Sync + Drop;

    /// The row of the plan, and what is stored in the sources.
    ghost ready_row: { Self.Ready → rows_spec.RowData };

    ghost ready_state: { Self.Ready → State };

    type PartJudge: Judge<P> + Sync + Drop;

    /// Who makes the pages and the contents page of a plan.
    type PartMaker: Sync + Drop;

    ghost maker_row: { Self.PartMaker → rows_spec.RowData };

    ghost maker_state: { Self.PartMaker → State };

    /// Makes the plan of a key's map and DITAVAL over sources.
    fn plan_fact(alloc: Global, key: &FactKey, sources: &Arc<Sources>) -> Result<Fact, NoMemory>
        requires { key.now.part ≡ parts_declared.Plan }
        ensures { IfOk result (makers_spec.IsPlanMade
            (meaning_spec.meant_by P.plan_agrees P.own_agrees P.is_sound) language key.now
            (arc_value sources.now)) };

    /// The plan of a row, which has one, over sources with which the row agrees.
    fn ready(alloc: Global, sources: &Arc<Sources>, plan: &Row) -> Result<Self::Ready, NoMemory>
        requires plan { IsTrue (is_ok (rows_spec.plan_in (rows_spec.row_data plan.now)).value) }
        requires sound { P.is_sound (arc_value plan.now.fact) }
        requires agrees { P.plan_agrees (rows_spec.plan_in (rows_spec.row_data plan.now))
            (arc_value sources.now) }
        ensures row { IfOk result (λ ready. ready_row ready ≡ rows_spec.row_data plan.now) }
        ensures state { IfOk result (λ ready. ready_state ready ≡ arc_value sources.now) };

    /// The judge of the facts of a key's map and DITAVAL over sources, by their plan if it is ready
    /// for these sources.
    fn judge(
        alloc: Global,
        key: &FactKey,
        sources: &Arc<Sources>,
        ready: Option<&Self::Ready>,
    ) -> Result<Self::PartJudge, NoMemory>
        requires over { IfSome (option_copied ready)
            (λ ready. ready_state ready ≡ arc_value sources.now) }
        requires of { IfSome (option_copied ready)
            (λ ready. judged_spec.build_key (ready_row ready).fact.key
            ≡ judged_spec.build_key key.now) }
        ensures sources { IfOk result
            (λ judge. Self.PartJudge.sources judge ≡ arc_value sources.now) }
        ensures build { IfOk result
            (λ judge. Self.PartJudge.build judge ≡ judged_spec.build_key key.now) };

    /// Who makes the other parts of a plan over the sources for which it is ready.
    fn maker(
        alloc: Global,
        sources: &Arc<Sources>,
        ready: &Self::Ready,
    ) -> Result<Self::PartMaker, NoMemory>
        requires { ready_state ready.now ≡ arc_value sources.now }
        ensures row { IfOk result (λ maker. maker_row maker ≡ ready_row ready.now) }
        ensures state { IfOk result (λ maker. maker_state maker ≡ arc_value sources.now) };

    /// Makes a page or the contents page.
    fn make(alloc: Global, maker: &mut Self::PartMaker, part: Part) -> Result<Fact, NoMemory>
        requires { makers_spec.HasPart (rows_spec.plan_in (maker_row maker.old)).value part }
        ensures made { IfOk result (makers_spec.IsPartMade
            (meaning_spec.meant_by P.plan_agrees P.own_agrees P.is_sound) language
            (maker_row maker.old) part (maker_state maker.old)) }
        ensures row { maker_row maker.new ≡ maker_row maker.old }
        ensures state { maker_state maker.new ≡ maker_state maker.old };

    /// A right plan tells how many pages the build has, or why it has none.
    ghost plan_tells: { (state : State) (fact : fact_declared.Fact)
        → outcome_spec.IsRightPlan (meaning_spec.meant_by P.plan_agrees P.own_agrees P.is_sound)
        state fact
        → outcome_spec.PlanTells language state fact.key (arc_value fact.plan).value };

    /// The right parts of a right plan are the build.
    ghost parts_tell: { (state : State) (fact : fact_declared.Fact) (plan : plan_declared.Plan)
        (facts : List fact_declared.Fact)
        → outcome_spec.IsRightPlan (meaning_spec.meant_by P.plan_agrees P.own_agrees P.is_sound)
        state fact
        → (arc_value fact.plan).value ≡ Ok plan
        → outcome_spec.ArePartsOfPlan
        (meaning_spec.meant_by P.plan_agrees P.own_agrees P.is_sound) state fact.key plan facts
        → outcome_spec.PartsTell language state fact.key plan facts };
}
