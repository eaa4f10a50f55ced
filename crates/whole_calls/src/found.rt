//! A plan that is found anew, with the tables of its parts.

ghost use Rattle.std.specs.Prelude.{◌≡◌, Ok, IfOk, OnOk};
ghost use Rattle.std.specs.Option.{option_copied};
ghost use Rattle.build_plan.specs.Documents as documents_spec;
ghost use Rattle.whole_calls.specs.Single as single_spec;
ghost use Rattle.dita_doc.specs.declared.plan.Plan as plan_declared;
ghost use Rattle.map_spec.specs.PlanOf as plan_spec;
ghost use Rattle.reader_spec.specs.World.{World};
ghost use Rattle.readers.specs.Founded.{Grows, StaysFounded};
ghost use Rattle.readers.specs.Told.{Agrees};

use crate::build_tables::BuildTables;
use build_plan::{Planned, planned};
use dita_doc::{Name, NoMemory, Plan, Stop};
use readers::Titles;
use std::alloc::Global;

/// The plan of a map, and the tables of its parts.
#[derive(Drop)]
pub(crate) struct Found {
    pub plan: Plan,
    pub tables: BuildTables,
}

/// The plan of a map with its tables, if it has a plan.
pub(crate) fn find_plan<T: Titles>(
    alloc: Global,
    asker: &mut T,
    map: &Name,
    val: Option<&Name>,
) -> Result<Option<Found>, NoMemory>
    ensures known { (world : World) (plan : plan_declared.Plan) → Agrees world (T.told asker.new)
        → plan_spec.plan_of plan_spec.limits world map.now (option_copied val.entry) ≡ Ok plan
        → IfOk result (single_spec.IsPlanFound plan) }
    ensures tells { (world : World) → Agrees world (T.told asker.new)
        → OnOk result (single_spec.HaveSamePlan (T.stand asker.old).world world map.now
        (option_copied val.entry)) }
    ensures tables { IfOk result (single_spec.HasTables (T.told asker.new)) }
    ensures given { IfOk result (single_spec.MayBeAsked (option_copied val.entry)
        (documents_spec.build_names map.now (option_copied val.entry)) (T.told asker.old)
        (T.told asker.new)) }
    ensures founded { StaysFounded (documents_spec.build_names map.now (option_copied val.entry))
        (T.told asker.old) (T.told asker.new) }
    ensures stand { T.stand asker.new ≡ T.stand asker.old }
    ensures grows { Grows (T.told asker.old) (T.told asker.new) }
{
    let Planned { plan, homes, table } = match planned(alloc, asker, map, val) {
        Ok(planned) => planned,
        Err(Stop::Fault(_)) => return Ok(None),
        Err(Stop::NoMemory) => return Err(NoMemory),
    };
    let tables = BuildTables::of(alloc, asker, &plan, homes, table)?;
    Ok(Some(Found { plan, tables }))
}
