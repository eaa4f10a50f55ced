//! What the elements of a page have added.

use dita_doc::{Anchor, Fault, List, PageLink};
use std::alloc::Global;

/// What the elements of a page's body add to the page, in document order: their anchors, the links
/// that it lists, and their faults.
#[derive(Drop)]
pub struct AnchorsMade {
    pub anchors: List<Anchor>,
    pub links: List<PageLink>,
    pub faults: List<Fault>,
}

impl AnchorsMade {
    ghost use Rattle.std.specs.Prelude.{◌≡◌, []};
    ghost use Rattle.xref_links.specs.Adding as spec;

    pub(crate) fn new(alloc: Global) -> AnchorsMade
        ensures { spec.IsEmpty result }
    {
        AnchorsMade {
            anchors: List::new(alloc),
            links: List::new(alloc),
            faults: List::new(alloc),
        }
    }
}
