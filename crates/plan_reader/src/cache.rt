//! What goes on from one part of a plan to the next.

ghost use Rattle.std.specs.Prelude.{ℕ, List};
ghost use Rattle.plan_reader.specs.Tables as tables_spec;
ghost use Rattle.reader_spec.specs.World.{World};

use pushed_docs::PushedDocs;
use readers::TitleTable;
use std::alloc::Global;

/// The titles that are known of some sources, and the documents that were made with the pushes into
/// them. No question is among them.
#[derive(Drop)]
pub struct PlanCache {
    pub titles: TitleTable,
    pub docs: PushedDocs,
}

impl PlanCache {
    /// Nothing is known yet. It takes no memory.
    pub fn new(alloc: Global) -> Self
        ensures { (world : World) (documents : List (List ℕ))
            → tables_spec.GoesOn world documents result }
    {
        PlanCache {
            titles: TitleTable::new(alloc),
            docs: PushedDocs::new(alloc),
        }
    }
}
