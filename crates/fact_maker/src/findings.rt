//! What a maker has found.

use conref_targets::RuleLists;
use plan_reader::PlanCache;
use std::alloc::Global;

/// What a maker has found in the sources: it goes on from one part to the next, of whichever pages
/// they are.
#[derive(Drop)]
pub struct Findings {
    pub cache: PlanCache,
    pub rules: RuleLists,
}

impl Findings {
    ghost use Rattle.std.specs.Prelude.{ℕ, List};
    ghost use Rattle.fact_maker.specs.Findings.{GoOn};
    ghost use Rattle.reader_spec.specs.World.{World};

    /// Nothing is found yet. It takes no memory.
    pub(crate) fn new(alloc: Global) -> Self
        ensures { (world : World) (documents : List (List ℕ)) → GoOn world documents result }
    {
        Findings {
            cache: PlanCache::new(alloc),
            rules: RuleLists::new(alloc),
        }
    }
}
