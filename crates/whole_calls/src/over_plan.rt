//! What is done over a reader that knows a plan.

ghost use Rattle.std.specs.Prelude.{◌≡◌, ◌++◌, [], IfOk};
ghost use Rattle.plan_layer.specs.Carried as carried_spec;
ghost use Rattle.pushed_docs.specs.Made.{AreKept};
ghost use Rattle.reader_spec.specs.World.{World};
ghost use Rattle.readers.specs.Founded as founded_spec;
ghost use Rattle.readers.specs.Founded.{Grows, StaysFounded};
ghost use Rattle.readers.specs.Told.{Agrees};
ghost use Rattle.whole_calls.specs.Tables.{AreTables};

use crate::build_tables::BuildTables;
use clean_build::PlanTask;
use dita_doc::{NoMemory, Plan};
use plan_layer::PlanLayer;
use pushed_docs::{PushedDocs, PushedMemo};
use readers::{Asker, Keys, LogStart, Questions};
use std::alloc::Global;
use std::marker::{Brand, PhantomData};

/// Does a work over a plan, which is laid over a reader that knows the keys of its nodes. The work
/// has a list of questions of its own.
pub(crate) fn over_plan<K: Keys, W: PlanTask>(
    alloc: Global,
    keys: &mut K,
    plan: &Plan,
    tables: &BuildTables,
    docs: &mut PushedDocs,
    work: W,
) -> Result<W::Made, NoMemory>
    requires tables { AreTables (K.told keys.old) plan.now tables.now }
    requires kept { AreKept (K.stand keys.old).world plan.now.documents docs.old }
    ensures known { (world : World) → Agrees world (K.told keys.new)
        → IfOk result (W.makes work (K.stand keys.old).world world (carried_spec.made_for plan.now.documents plan.now.pages
        (K.stand keys.old).setting)) }
    ensures founded { StaysFounded
        (founded_spec.homes (K.stand keys.old).setting.nodes ++ W.about work)
        (K.told keys.old) (K.told keys.new) }
    ensures kept { AreKept (K.stand keys.old).world plan.now.documents docs.new }
    ensures stand { K.stand keys.new ≡ K.stand keys.old }
    ensures grows { Grows (K.told keys.old) (K.told keys.new) }
{
    plan_since::<K, Brand, W>(alloc, keys, plan, tables, docs, work)
}

// The same since a start.
fn plan_since<K: Keys, S: LogStart, W: PlanTask>(
    alloc: Global,
    keys: &mut K,
    plan: &Plan,
    tables: &BuildTables,
    docs: &mut PushedDocs,
    work: W,
) -> Result<W::Made, NoMemory>
    requires stand { K.stand keys.old ≡ S.stand }
    requires told { K.told keys.old ≡ S.told }
    requires tables { AreTables S.told plan.now tables.now }
    requires kept { AreKept S.stand.world plan.now.documents docs.old }
    ensures known { (world : World) → Agrees world (K.told keys.new)
        → IfOk result (W.makes work S.stand.world world (carried_spec.made_for plan.now.documents plan.now.pages
        S.stand.setting)) }
    ensures founded { StaysFounded
        (founded_spec.homes S.stand.setting.nodes ++ W.about work) S.told (K.told keys.new) }
    ensures kept { AreKept S.stand.world plan.now.documents docs.new }
    ensures stand { K.stand keys.new ≡ S.stand }
    ensures grows { Grows S.told (K.told keys.new) }
{
    let mut asked = Questions::new(alloc);
    let mut memo = PushedMemo::new(alloc);
    let mut layer: PlanLayer<'_, '_, '_, '_, '_, K, S> = PlanLayer {
        lower: keys,
        asked: &mut asked,
        memo: &mut memo,
        docs,
        documents: &plan.documents,
        pages: &plan.pages,
        table: &tables.pushes,
        places: &tables.pages,
        since: PhantomData,
    };
    plan_under(alloc, &mut layer, work)
}

// What the layer keeps of the reader below and of the documents.
fn plan_under<'r, 'q, 'm, 'd, 'n, K: Keys, S: LogStart, W: PlanTask>(
    alloc: Global,
    layer: &mut PlanLayer<'r, 'q, 'm, 'd, 'n, K, S>,
    work: W,
) -> Result<W::Made, NoMemory>
    requires asked { layer.old.asked.now ≡ [] }
    ensures known { (world : World) → Agrees world (K.told layer.new.lower.now)
        → IfOk result (W.makes work S.stand.world world (carried_spec.made_for layer.old.documents.now
        layer.old.pages.now S.stand.setting)) }
    ensures founded { StaysFounded
        (founded_spec.homes S.stand.setting.nodes ++ W.about work) S.told
        (K.told layer.new.lower.now) }
    ensures kept { AreKept S.stand.world layer.old.documents.now layer.new.docs.now }
    ensures same { layer.new.lower.ghost_name ≡ layer.old.lower.ghost_name }
    ensures same_docs { layer.new.docs.ghost_name ≡ layer.old.docs.ghost_name }
    ensures stand { K.stand layer.new.lower.now ≡ S.stand }
    ensures grows { Grows S.told (K.told layer.new.lower.now) }
{
    work.run(alloc, layer)
}
