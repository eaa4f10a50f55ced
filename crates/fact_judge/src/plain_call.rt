//! The judge as a plain call.

ghost use Rattle.std.specs.Prelude.{◌≡◌, IfOk};
ghost use Rattle.std.specs.Arc.{arc_value};
ghost use Rattle.std.specs.Option.{option_copied};
ghost use Rattle.fact_judge.specs.Judging.{IsPlannedBy};

use crate::source_judge::SourceJudge;
use dita_doc::{Name, NoMemory, Sources};
use facts::Fact;
use std::alloc::Global;
use std::sync::Arc;

/// The judge of the facts of a map with a DITAVAL, or without, over stored sources. If the fact of
/// their plan is given, the tables of that plan are made now; else they are made once they are
/// needed.
pub fn judge(
    alloc: Global,
    sources: &Arc<Sources>,
    map: &Name,
    val: Option<&Name>,
    planned: Option<&Fact>,
) -> Result<SourceJudge, NoMemory>
    requires { IsPlannedBy (arc_value sources.now) map.now (option_copied val)
        (option_copied planned) }
    ensures sources { IfOk result (λ judge. arc_value judge.sources ≡ arc_value sources.now) }
    ensures map { IfOk result (λ judge. judge.map ≡ map.now) }
    ensures val { IfOk result (λ judge. judge.val ≡ option_copied val.entry) }
{
    let mut judge = SourceJudge::new(alloc, sources, map, val)?;
    if let Some(fact) = planned {
        if let Ok(plan) = &fact.plan.value {
            judge.make_tables(alloc, plan)?;
        }
    }
    Ok(judge)
}
