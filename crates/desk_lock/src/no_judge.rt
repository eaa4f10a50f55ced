//! The judge of events that need none.

ghost use Rattle.std.specs.Prelude.{[], None};

use dita_doc::NoMemory;
use facts::{Fact, Judge, Parts, PlanFact};
use std::alloc::Global;

// It judges nothing. Only a claim has facts judged.
#[derive(Drop)]
pub(crate) struct NoJudge;

impl<P: Parts> Judge<P> for NoJudge {
    ghost sources = { λ judge. [] };

    ghost build = { λ judge. record { map = []; val = None } };

    fn judge_plan(&mut self, alloc: Global, plan: &PlanFact, since: u64) -> Result<bool, NoMemory> {
        Err(NoMemory)
    }

    fn judge_own(&mut self, alloc: Global, fact: &Fact, since: u64) -> Result<bool, NoMemory> {
        Err(NoMemory)
    }
}
