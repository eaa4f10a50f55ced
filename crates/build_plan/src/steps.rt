//! The plan of a build, over a reader that knows titles.

ghost use Rattle.std.specs.Prelude.{◌≡◌, ℕ, List, IfOk};
ghost use Rattle.std.specs.Option.{option_copied};
ghost use Rattle.build_plan.specs.Documents as documents_spec;
ghost use Rattle.dita_doc.specs.Gives.{GivesSeen};
ghost use Rattle.key_layer.specs.Ready.{AreReady};
ghost use Rattle.key_scopes.specs.Made.{IsTableOf};
ghost use Rattle.map_spec.specs.PlanOf as plan_spec;
ghost use Rattle.reader_spec.specs.World.{World};
ghost use Rattle.readers.specs.Documents.{AsksOnly};
ghost use Rattle.readers.specs.Founded.{AreAllowed, Grows, IsFounded, StaysFounded};
ghost use Rattle.readers.specs.Told.{Agrees, Knows};

use crate::map_nodes::nodes_of_map;
use crate::map_there::why_no_map;
use crate::rules::rules_of_build;
use crate::scoped::{Planned, plan_of_nodes};
use dita_doc::{Name, PlanStop, Stop};
use ditaval_rules::RulesRead;
use doc_elements::append_faults;
use readers::Titles;
use std::alloc::Global;

/// The plan of a map with a DITAVAL or without, with what was found of its nodes.
///
/// # Errors
///
/// In this order: the map is not stored, its root is no map, the DITAVAL is not stored or no
/// DITAVAL, there are too many nodes, there are too many pages; or out of memory.
pub fn planned<T: Titles>(
    alloc: Global,
    asker: &mut T,
    map: &Name,
    val: Option<&Name>,
) -> Result<Planned, Stop<PlanStop>>
    ensures known { (world : World) → Agrees world (T.told asker.new)
        → GivesSeen (λ planned. planned.plan) result
        (plan_spec.plan_of plan_spec.limits world map.now (option_copied val.entry)) }
    ensures ready { IfOk result (λ planned.
        AreReady (T.told asker.new) planned.plan.nodes planned.homes) }
    ensures tabled { IfOk result (λ planned. Knows (T.told asker.new)
        (λ world. ∥ IsTableOf world planned.plan.nodes planned.table ∥₁)) }
    ensures given { IfOk result (λ planned. (roots : List (List ℕ))
        → IsFounded roots (T.told asker.new) → AreAllowed roots (T.told asker.new)
        (documents_spec.names_of_nodes planned.plan.nodes)) }
    ensures stand { T.stand asker.new ≡ T.stand asker.old }
    ensures founded { StaysFounded (documents_spec.build_names map.now (option_copied val.entry))
        (T.told asker.old) (T.told asker.new) }
    ensures asks { AsksOnly documents_spec.plan_targets
        (documents_spec.build_names map.now (option_copied val.entry))
        (T.told asker.old) (T.told asker.new) }
    ensures grows { Grows (T.told asker.old) (T.told asker.new) }
{
    if let Some(stop) = why_no_map(alloc, asker, map)? {
        return Err(Stop::Fault(stop));
    }
    let RulesRead { rules, mut faults } = match rules_of_build(alloc, asker, val) {
        Ok(read) => read,
        Err(stop) => return Err(stop),
    };
    let made = match nodes_of_map(alloc, asker, map, &rules) {
        Ok(made) => made,
        Err(stop) => return Err(stop),
    };
    append_faults(&mut faults, made.faults)?;
    plan_of_nodes(alloc, asker, made.nodes, faults)
}
