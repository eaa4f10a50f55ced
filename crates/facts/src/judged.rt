//! What is known of facts over other sources than those that they were made from, and who finds out.

ghost use Rattle.std.specs.Prelude.{◌≡◌, IfOk};
ghost use Rattle.std.specs.Arc.{arc_value};
ghost use Rattle.dita_doc.specs.Desk.{State};
ghost use Rattle.facts.specs.Judged as judged_spec;
ghost use Rattle.facts.specs.declared.fact.Fact as fact_declared;
ghost use Rattle.facts.specs.declared.fact.PlanFact as plan_declared;

use crate::fact::{Fact, PlanFact};
use dita_doc::NoMemory;
use std::alloc::Global;

/// A judgement that is kept: whether a plan agrees with the sources of a stamp.
#[derive(Clone, Copy, Drop)]
pub struct Judged {
    /// The serial under which the plan is judged.
    pub plan: u64,
    pub stamp: u64,
    pub agreed: bool,
}

/// What must be known of parts of builds, so that rows can be kept and handed out again. It stands
/// for the language, which the table of rows does not depend on.
pub trait Parts {
    /// Each question of a plan has its recorded answer over sources.
    ghost plan_agrees: { plan_declared.PlanFact → State → Type 0 };

    /// Each question of a fact's own has its recorded answer over sources.
    ghost own_agrees: { fact_declared.Fact → State → Type 0 };

    /// In each world that gives its questions their recorded answers the fact is the part of its
    /// key, and its questions are founded.
    ghost is_sound: { fact_declared.Fact → Type 0 };
}

/// A judge of facts. It has sources and a build, which no call changes. A row's `since` is its stamp
/// if the judge's sources are not older, and else 0.
pub trait Judge<P: Parts> {
    ghost sources: { Self → State };

    /// The map and the DITAVAL whose facts it judges.
    ghost build: { Self → judged_spec.BuildKey };

    /// Whether each question of a plan has its recorded answer over the judge's sources.
    fn judge_plan(&mut self, alloc: Global, plan: &PlanFact, since: u64) -> Result<bool, NoMemory>
        requires agreed { judged_spec.HasAgreed P.plan_agrees plan.now since (sources self.old) }
        ensures sources { sources self.new ≡ sources self.old }
        ensures build { build self.new ≡ build self.old }
        ensures tells { IfOk result (λ agreed.
            judged_spec.Tells agreed (P.plan_agrees plan.now (sources self.old))) };

    /// Whether each question of a fact's own has its recorded answer over the judge's sources, if
    /// each question of its plan has.
    fn judge_own(&mut self, alloc: Global, fact: &Fact, since: u64) -> Result<bool, NoMemory>
        requires sound { P.is_sound fact.now }
        requires build { judged_spec.build_key fact.now.key ≡ build self.old }
        requires agreed { judged_spec.HasAgreed P.own_agrees fact.now since (sources self.old) }
        requires plan { P.plan_agrees (arc_value fact.now.plan) (sources self.old) }
        ensures sources { sources self.new ≡ sources self.old }
        ensures build { build self.new ≡ build self.old }
        ensures tells { IfOk result (λ agreed.
            judged_spec.Tells agreed (P.own_agrees fact.now (sources self.old))) };
}
