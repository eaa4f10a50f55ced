//! The pages of a map.

ghost use Rattle.std.specs.Prelude.{◌≡◌, length};
ghost use Rattle.dita_doc.specs.Gives.{Gives};
ghost use Rattle.page_names.specs.Made as spec;
ghost use Rattle.page_names.specs.Uses as uses_spec;
ghost use Rattle.reader_spec.specs.World.{World};
ghost use Rattle.readers.specs.Documents as documents_spec;
ghost use Rattle.readers.specs.Documents.{AsksOnly};
ghost use Rattle.readers.specs.Founded as founded_spec;
ghost use Rattle.readers.specs.Founded.{Grows, StaysFounded};
ghost use Rattle.readers.specs.Told.{Agrees};

use crate::documents::Documents;
use crate::names::name_pages;
use crate::page_uses::PageUses;
use crate::uses::Uses;
use dita_doc::{Fault, List, Name, PagePlan, PlanNode, PlanStop, Stop, Target};
use readers::Keys;
use std::alloc::Global;

/// How many pages a map may have.
pub const PAGE_LIMIT: usize = 4096;

/// The pages of a map, in the order of their first uses; the target of each node; the documents
/// that are used, in the order of their first uses; and the faults that were found.
#[derive(Drop)]
pub struct PagesMade {
    pub pages: List<PagePlan>,
    pub targets: List<Target>,
    pub documents: List<Name>,
    pub faults: List<Fault>,
}

/// The pages of a map's nodes.
///
/// # Errors
///
/// `TooManyPages` alone, or out of memory.
pub fn pages<K: Keys>(
    alloc: Global,
    asker: &mut K,
    nodes: &List<PlanNode>,
) -> Result<PagesMade, Stop<PlanStop>>
    ensures known { uses_spec.AreReady (K.stand asker.old).setting.nodes (K.stand asker.old).world
        nodes.now → (world : World) → Agrees world (K.told asker.new)
        → Gives result (spec.pages_made 4096 world nodes.now) }
    ensures value { spec.ArePages (K.stand asker.old).setting.nodes (K.stand asker.old).world
        nodes.now result }
    ensures stand { K.stand asker.new ≡ K.stand asker.old }
    ensures founded { (K.stand asker.old).setting.nodes ≡ nodes.now
        → StaysFounded (founded_spec.homes nodes.now) (K.told asker.old) (K.told asker.new) }
    ensures asks { AsksOnly documents_spec.nothing (founded_spec.homes nodes.now)
        (K.told asker.old) (K.told asker.new) }
    ensures grows { Grows (K.told asker.old) (K.told asker.new) }
{
    pages_of(alloc, asker, nodes.as_slice())
}

// What `pages` says, but of the reader's own world.
#[tactic(auto, using(readers::proofs::Rules::walking))]
fn pages_of<K: Keys>(
    alloc: Global,
    asker: &mut K,
    nodes: &[PlanNode],
) -> Result<PagesMade, Stop<PlanStop>>
    ensures known { uses_spec.AreReady (K.stand asker.old).setting.nodes (K.stand asker.old).world
        nodes.now → (world : World) → Agrees world (K.told asker.new)
        → Gives result (spec.pages_made 4096 world nodes.now) }
    ensures stand { K.stand asker.new ≡ K.stand asker.old }
    ensures founded { (K.stand asker.old).setting.nodes ≡ nodes.now
        → StaysFounded (founded_spec.homes nodes.now) (K.told asker.old) (K.told asker.new) }
    ensures asks { AsksOnly documents_spec.nothing (founded_spec.homes nodes.now)
        (K.told asker.old) (K.told asker.new) }
    ensures grows { Grows (K.told asker.old) (K.told asker.new) }
{
    let uses = Uses::of(alloc, asker, nodes)?;
    pages_named(alloc, nodes, uses)
}

// The pages that uses make, with their names.
fn pages_named(alloc: Global, nodes: &[PlanNode], uses: Uses) -> Result<PagesMade, Stop<PlanStop>>
    ensures { (world : World) → uses_spec.AreUses world nodes.now (length nodes.now) uses
        → Gives result (spec.pages_made 4096 world nodes.now) }
{
    let Uses {
        pages,
        targets,
        documents,
        mut faults,
    } = uses;
    let PageUses { uses, .. } = pages;
    let Documents {
        names: documents,
        ..
    } = documents;
    if uses.len() > PAGE_LIMIT {
        return Err(Stop::Fault(PlanStop::TooManyPages));
    }
    let pages = name_pages(alloc, nodes, uses, &mut faults)?;
    Ok(PagesMade {
        pages,
        targets,
        documents,
        faults,
    })
}
