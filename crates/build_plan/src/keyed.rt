//! The pages of nodes, with the keys of these nodes laid over the reader.

ghost use Rattle.std.specs.Prelude.{◌≡◌, []};
ghost use Rattle.dita_doc.specs.Gives.{Gives};
ghost use Rattle.key_layer.specs.Answers.{AreAnswers};
ghost use Rattle.key_layer.specs.Ready.{AreReady};
ghost use Rattle.key_scopes.specs.Made.{IsTableOf};
ghost use Rattle.page_names.specs.Made.{pages_made};
ghost use Rattle.plan_nodes.specs.Preorder.{HasParentsBefore};
ghost use Rattle.reader_spec.specs.World.{World};
ghost use Rattle.readers.specs.Documents as documents_spec;
ghost use Rattle.readers.specs.Documents.{AsksOnly};
ghost use Rattle.readers.specs.Founded as founded_spec;
ghost use Rattle.readers.specs.Founded.{Grows, StaysFounded};
ghost use Rattle.readers.specs.Told.{Agrees, Knows};

use dita_doc::{List, PlanNode, PlanStop, Stop};
use key_layer::{KeyLayer, KeyMemo};
use key_scopes::ScopeTable;
use page_names::{PagesMade, pages};
use plan_nodes::NodeElements;
use readers::{LogStart, Questions, Titles};
use std::alloc::Global;
use std::marker::{Brand, PhantomData};

/// The pages of nodes that are in their scopes, by their elements and the table of their scopes.
pub(crate) fn keyed_pages<T: Titles>(
    alloc: Global,
    asker: &mut T,
    nodes: &List<PlanNode>,
    homes: &NodeElements,
    table: &ScopeTable,
) -> Result<PagesMade, Stop<PlanStop>>
    requires ready { AreReady (T.told asker.old) nodes.now homes.now }
    requires tabled { Knows (T.told asker.old) (λ world. ∥ IsTableOf world nodes.now table.now ∥₁) }
    requires parents { HasParentsBefore nodes.now }
    ensures known { (world : World) → Agrees world (T.told asker.new)
        → Gives result (pages_made 4096 world nodes.now) }
    ensures stand { T.stand asker.new ≡ T.stand asker.old }
    ensures founded { StaysFounded (founded_spec.homes nodes.now) (T.told asker.old)
        (T.told asker.new) }
    ensures asks { AsksOnly documents_spec.nothing (founded_spec.homes nodes.now)
        (T.told asker.old) (T.told asker.new) }
    ensures grows { Grows (T.told asker.old) (T.told asker.new) }
{
    let mut memo = KeyMemo::new(alloc);
    pages_since::<T, Brand>(alloc, asker, &mut memo, nodes, homes, table)
}

// The same since a start, with answers that are known then.
fn pages_since<T: Titles, S: LogStart>(
    alloc: Global,
    asker: &mut T,
    memo: &mut KeyMemo,
    nodes: &List<PlanNode>,
    homes: &NodeElements,
    table: &ScopeTable,
) -> Result<PagesMade, Stop<PlanStop>>
    requires stand { T.stand asker.old ≡ S.stand }
    requires told { T.told asker.old ≡ S.told }
    requires ready { AreReady S.told nodes.now homes.now }
    requires tabled { Knows S.told (λ world. ∥ IsTableOf world nodes.now table.now ∥₁) }
    requires memo { AreAnswers (T.told asker.old) nodes.now memo.old }
    requires parents { HasParentsBefore nodes.now }
    ensures known { (world : World) → Agrees world (T.told asker.new)
        → Gives result (pages_made 4096 world nodes.now) }
    ensures stand { T.stand asker.new ≡ S.stand }
    ensures founded { StaysFounded (founded_spec.homes nodes.now) S.told (T.told asker.new) }
    ensures asks { AsksOnly documents_spec.nothing (founded_spec.homes nodes.now) S.told
        (T.told asker.new) }
    ensures grows { Grows S.told (T.told asker.new) }
{
    let mut asked = Questions::new(alloc);
    let mut layer: KeyLayer<'_, '_, '_, '_, T, S> = KeyLayer {
        lower: asker,
        asked: &mut asked,
        memo,
        nodes,
        homes,
        table,
        since: PhantomData,
    };
    pages_under(alloc, &mut layer)
}

// What the layer's questions say of the reader below.
fn pages_under<'r, 'q, 'm, 'n, T: Titles, S: LogStart>(
    alloc: Global,
    layer: &mut KeyLayer<'r, 'q, 'm, 'n, T, S>,
) -> Result<PagesMade, Stop<PlanStop>>
    requires asked { layer.old.asked.now ≡ [] }
    requires parents { HasParentsBefore layer.old.nodes.now }
    ensures known { (world : World) → Agrees world (T.told layer.new.lower.now)
        → Gives result (pages_made 4096 world layer.old.nodes.now) }
    ensures founded { StaysFounded (founded_spec.homes layer.old.nodes.now) S.told
        (T.told layer.new.lower.now) }
    ensures asks { AsksOnly documents_spec.nothing (founded_spec.homes layer.old.nodes.now) S.told
        (T.told layer.new.lower.now) }
    ensures same { layer.new.lower.ghost_name ≡ layer.old.lower.ghost_name }
    ensures stand { T.stand layer.new.lower.now ≡ S.stand }
    ensures grows { Grows S.told (T.told layer.new.lower.now) }
{
    let nodes = layer.nodes;
    pages(alloc, layer, nodes)
}
