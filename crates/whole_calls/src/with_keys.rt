//! What is done over a reader that knows titles.

ghost use Rattle.std.specs.Prelude.{◌≡◌, ◌++◌, [], IfOk};
ghost use Rattle.clean_build.specs.Told.{made_for};
ghost use Rattle.pushed_docs.specs.Made.{AreKept};
ghost use Rattle.reader_spec.specs.World.{World};
ghost use Rattle.readers.specs.Founded as founded_spec;
ghost use Rattle.readers.specs.Founded.{Grows, StaysFounded};
ghost use Rattle.readers.specs.Told.{Agrees};
ghost use Rattle.whole_calls.specs.Tables.{AreTables};

use crate::build_tables::BuildTables;
use crate::over_plan::over_plan;
use clean_build::PlanTask;
use dita_doc::{NoMemory, Plan};
use key_layer::{KeyLayer, KeyMemo};
use pushed_docs::PushedDocs;
use readers::{LogStart, Questions, Titles};
use std::alloc::Global;
use std::marker::{Brand, PhantomData};

/// Does a work over a plan, which is laid over a reader with the keys of its nodes. Keys and plan
/// have lists of questions of their own, and answers to keys are kept for this work alone.
pub(crate) fn over_titles<T: Titles, W: PlanTask>(
    alloc: Global,
    titles: &mut T,
    plan: &Plan,
    tables: &BuildTables,
    docs: &mut PushedDocs,
    work: W,
) -> Result<W::Made, NoMemory>
    requires tables { AreTables (T.told titles.old) plan.now tables.now }
    requires kept { AreKept (T.stand titles.old).world plan.now.documents docs.old }
    ensures known { (world : World) → Agrees world (T.told titles.new)
        → IfOk result (W.makes work (T.stand titles.old).world world (made_for plan.now)) }
    ensures founded { StaysFounded (founded_spec.homes plan.now.nodes ++ W.about work)
        (T.told titles.old) (T.told titles.new) }
    ensures kept { AreKept (T.stand titles.old).world plan.now.documents docs.new }
    ensures stand { T.stand titles.new ≡ T.stand titles.old }
    ensures grows { Grows (T.told titles.old) (T.told titles.new) }
{
    keys_since::<T, Brand, W>(alloc, titles, plan, tables, docs, work)
}

// The same since a start.
fn keys_since<T: Titles, S: LogStart, W: PlanTask>(
    alloc: Global,
    titles: &mut T,
    plan: &Plan,
    tables: &BuildTables,
    docs: &mut PushedDocs,
    work: W,
) -> Result<W::Made, NoMemory>
    requires stand { T.stand titles.old ≡ S.stand }
    requires told { T.told titles.old ≡ S.told }
    requires tables { AreTables S.told plan.now tables.now }
    requires kept { AreKept S.stand.world plan.now.documents docs.old }
    ensures known { (world : World) → Agrees world (T.told titles.new)
        → IfOk result (W.makes work S.stand.world world (made_for plan.now)) }
    ensures founded { StaysFounded (founded_spec.homes plan.now.nodes ++ W.about work)
        S.told (T.told titles.new) }
    ensures kept { AreKept S.stand.world plan.now.documents docs.new }
    ensures stand { T.stand titles.new ≡ S.stand }
    ensures grows { Grows S.told (T.told titles.new) }
{
    let mut asked = Questions::new(alloc);
    let mut memo = KeyMemo::new(alloc);
    let mut layer: KeyLayer<'_, '_, '_, '_, T, S> = KeyLayer {
        lower: titles,
        asked: &mut asked,
        memo: &mut memo,
        nodes: &plan.nodes,
        homes: &tables.homes,
        table: &tables.scopes,
        since: PhantomData,
    };
    keys_under(alloc, &mut layer, plan, tables, docs, work)
}

// What the layer keeps of the reader below.
fn keys_under<'r, 'q, 'm, 'n, T: Titles, S: LogStart, W: PlanTask>(
    alloc: Global,
    layer: &mut KeyLayer<'r, 'q, 'm, 'n, T, S>,
    plan: &Plan,
    tables: &BuildTables,
    docs: &mut PushedDocs,
    work: W,
) -> Result<W::Made, NoMemory>
    requires asked { layer.old.asked.now ≡ [] }
    requires nodes { layer.old.nodes.now ≡ plan.now.nodes }
    requires tables { AreTables S.told plan.now tables.now }
    requires kept { AreKept S.stand.world plan.now.documents docs.old }
    ensures known { (world : World) → Agrees world (T.told layer.new.lower.now)
        → IfOk result (W.makes work S.stand.world world (made_for plan.now)) }
    ensures founded { StaysFounded (founded_spec.homes plan.now.nodes ++ W.about work)
        S.told (T.told layer.new.lower.now) }
    ensures kept { AreKept S.stand.world plan.now.documents docs.new }
    ensures same { layer.new.lower.ghost_name ≡ layer.old.lower.ghost_name }
    ensures stand { T.stand layer.new.lower.now ≡ S.stand }
    ensures grows { Grows S.told (T.told layer.new.lower.now) }
{
    over_plan(alloc, layer, plan, tables, docs, work)
}
