//! The fact of a plan.

ghost use Rattle.std.specs.Prelude.{◌≡◌, [], None, Result, IfOk};
ghost use Rattle.std.specs.Arc.{arc_value};
ghost use Rattle.std.specs.Option.{option_copied};
ghost use Rattle.dita_doc.specs.Gives.{GivesSeen};
ghost use Rattle.dita_doc.specs.declared.fact.Part.TheVariants as parts_declared;
ghost use Rattle.dita_doc.specs.declared.plan.Plan.{Plan};
ghost use Rattle.dita_doc.specs.declared.plan.PlanStop.{PlanStop};
ghost use Rattle.fact_judge.specs.Agreed.{plan_agrees};
ghost use Rattle.fact_judge.specs.Sound.{IsSound};
ghost use Rattle.fact_maker.specs.Planned.{IsPlanned};

use build_plan::{Planned, planned};
use dita_doc::{FactKey, List, Name, NoMemory, Part, Plan, PlanStop, Sources, Stop};
use facts::{Fact, PlanFact};
use source_reader::{KnownTitles, SourceReader};
use std::alloc::Global;
use std::sync::Arc;

/// The plan of a map, with a DITAVAL or without, or why there is none, with what was asked for it.
pub fn plan_fact(
    alloc: Global,
    sources: &Sources,
    map: &Name,
    val: Option<&Name>,
) -> Result<Fact, NoMemory>
    ensures key { IfOk result (λ fact. fact.key ≡ record {
      map = map.now;
      val = option_copied val.entry;
      part = parts_declared.Plan;
    }) }
    ensures planned { IfOk result (λ fact. fact.planned ≡ 0) }
    ensures sound { IfOk result IsSound }
    ensures agrees { IfOk result (λ fact. plan_agrees (arc_value fact.plan) sources.now) }
{
    let key = plan_key(map, val)?;
    let plan = plan_asked(alloc, sources, map, val)?;
    of_plan(alloc, key, Arc::new(alloc, plan)?)
}

/// The fact of a plan that rests on no other row.
pub(crate) fn of_plan(alloc: Global, key: FactKey, plan: Arc<PlanFact>) -> Result<Fact, NoMemory>
    ensures { IfOk result (λ fact. fact ≡ record {
      key = key;
      plan = plan;
      planned = 0;
      asked = [];
      html = None;
    }) }
{
    Ok(Fact {
        key,
        plan,
        planned: 0,
        asked: List::new(alloc),
        html: None,
    })
}

fn plan_key(map: &Name, val: Option<&Name>) -> Result<FactKey, NoMemory>
    ensures { IfOk result (λ key. key ≡ record {
      map = map.now;
      val = option_copied val.entry;
      part = parts_declared.Plan;
    }) }
{
    let val = match val {
        Some(val) => Some(val.clone()?),
        None => None,
    };
    Ok(FactKey {
        map: map.clone()?,
        val,
        part: Part::Plan,
    })
}

// The plan or why there is none, with all that was asked.
fn plan_asked(
    alloc: Global,
    sources: &Sources,
    map: &Name,
    val: Option<&Name>,
) -> Result<PlanFact, NoMemory>
    ensures { IfOk result (IsPlanned sources.now map.now (option_copied val.entry)) }
{
    let mut reader = SourceReader::new(alloc, KnownTitles::new(alloc, sources));
    let value = value_of(planned(alloc, &mut reader, map, val))?;
    let (asked, _) = reader.into_asked();
    let asked = asked.into_answered(alloc)?;
    Ok(PlanFact { asked, value })
}

// The plan that was made, or why there is none.
fn value_of(made: Result<Planned, Stop<PlanStop>>) -> Result<Result<Plan, PlanStop>, NoMemory>
    ensures { IfOk result (λ value. (defined : Result Plan PlanStop)
        → GivesSeen (λ planned. planned.plan) made defined → defined ≡ value) }
{
    match made {
        Ok(Planned { plan, .. }) => Ok(Ok(plan)),
        Err(Stop::Fault(stop)) => Ok(Err(stop)),
        Err(Stop::NoMemory) => Err(NoMemory),
    }
}
