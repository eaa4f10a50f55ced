//! The plan of a build, over any reader.

ghost use Rattle.std.specs.Prelude.{◌≡◌, []};
ghost use Rattle.std.specs.Option.{option_copied};
ghost use Rattle.build_plan.specs.Documents as documents_spec;
ghost use Rattle.dita_doc.specs.Gives.{Gives};
ghost use Rattle.map_spec.specs.PlanOf as plan_spec;
ghost use Rattle.reader_spec.specs.World.{World};
ghost use Rattle.readers.specs.Founded.{Grows, StaysFounded};
ghost use Rattle.readers.specs.Titled.{AreTitles};
ghost use Rattle.readers.specs.Told.{Agrees, Knows};

use build_plan::planned;
use dita_doc::{Name, Plan, PlanStop, Stop};
use readers::{LogStart, Questions, Reader, TitleTable};
use std::alloc::Global;
use std::marker::{Brand, PhantomData};
use title_layer::TitleLayer;

/// The plan of a map with a DITAVAL or without, or why there is none.
///
/// # Errors
///
/// In this order: the map is not stored, its root is no map, the DITAVAL is not stored or no
/// DITAVAL, there are too many nodes, there are too many pages; or out of memory.
pub fn plan<R: Reader>(
    alloc: Global,
    reader: &mut R,
    map: &Name,
    val: Option<&Name>,
) -> Result<Plan, Stop<PlanStop>>
    ensures known { (world : World) → Agrees world (R.told reader.new) → Gives result
        (plan_spec.plan_of plan_spec.limits world map.now (option_copied val.entry)) }
    ensures value { Gives result (plan_spec.plan_of plan_spec.limits (R.stand reader.old).world
        map.now (option_copied val.entry)) }
    ensures stand { R.stand reader.new ≡ R.stand reader.old }
    ensures founded { StaysFounded (documents_spec.build_names map.now (option_copied val.entry))
        (R.told reader.old) (R.told reader.new) }
    ensures grows { Grows (R.told reader.old) (R.told reader.new) }
{
    plan_over(alloc, reader, map, val)
}

// What `plan` says, but of the reader's own world.
fn plan_over<R: Reader>(
    alloc: Global,
    reader: &mut R,
    map: &Name,
    val: Option<&Name>,
) -> Result<Plan, Stop<PlanStop>>
    ensures known { (world : World) → Agrees world (R.told reader.new) → Gives result
        (plan_spec.plan_of plan_spec.limits world map.now (option_copied val.entry)) }
    ensures stand { R.stand reader.new ≡ R.stand reader.old }
    ensures founded { StaysFounded (documents_spec.build_names map.now (option_copied val.entry))
        (R.told reader.old) (R.told reader.new) }
    ensures grows { Grows (R.told reader.old) (R.told reader.new) }
{
    let mut table = TitleTable::new(alloc);
    plan_since::<R, Brand>(alloc, reader, &mut table, map, val)
}

// The same since a start, with titles that are known then.
fn plan_since<R: Reader, S: LogStart>(
    alloc: Global,
    reader: &mut R,
    table: &mut TitleTable,
    map: &Name,
    val: Option<&Name>,
) -> Result<Plan, Stop<PlanStop>>
    requires stand { R.stand reader.old ≡ S.stand }
    requires told { R.told reader.old ≡ S.told }
    requires table { Knows (R.told reader.old) (λ world. AreTitles world table.old) }
    ensures known { (world : World) → Agrees world (R.told reader.new) → Gives result
        (plan_spec.plan_of plan_spec.limits world map.now (option_copied val.entry)) }
    ensures stand { R.stand reader.new ≡ S.stand }
    ensures founded { StaysFounded (documents_spec.build_names map.now (option_copied val.entry))
        S.told (R.told reader.new) }
    ensures grows { Grows S.told (R.told reader.new) }
{
    let mut asked = Questions::new(alloc);
    let mut layer: TitleLayer<'_, '_, '_, R, S> = TitleLayer {
        lower: reader,
        asked: &mut asked,
        table,
        since: PhantomData,
    };
    plan_under(alloc, &mut layer, map, val)
}

// What the layer's questions say of the reader below.
fn plan_under<'r, 'q, 't, R: Reader, S: LogStart>(
    alloc: Global,
    layer: &mut TitleLayer<'r, 'q, 't, R, S>,
    map: &Name,
    val: Option<&Name>,
) -> Result<Plan, Stop<PlanStop>>
    requires asked { layer.old.asked.now ≡ [] }
    ensures known { (world : World) → Agrees world (R.told layer.new.lower.now) → Gives result
        (plan_spec.plan_of plan_spec.limits world map.now (option_copied val.entry)) }
    ensures founded { StaysFounded (documents_spec.build_names map.now (option_copied val.entry))
        S.told (R.told layer.new.lower.now) }
    ensures same { layer.new.lower.ghost_name ≡ layer.old.lower.ghost_name }
    ensures same_table { layer.new.table.ghost_name ≡ layer.old.table.ghost_name }
    ensures stand { R.stand layer.new.lower.now ≡ S.stand }
    ensures grows { Grows S.told (R.told layer.new.lower.now) }
{
    match planned(alloc, layer, map, val) {
        Ok(made) => Ok(made.plan),
        Err(stop) => Err(stop),
    }
}
