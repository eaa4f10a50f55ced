//! What is laid over a body.

use crate::link::Links;
use crate::mark::Marks;
use dita_doc::{Anchor, Mark};

/// The links and the marks of a body's elements, by their places.
#[derive(Clone, Copy)]
pub(crate) struct Overlay<'a> {
    pub links: Links<'a>,
    pub marks: Marks<'a>,
}

impl<'a> Overlay<'a> {
    ghost use Rattle.std.specs.Prelude.{◌≡◌};

    /// These anchors and these marks.
    pub fn of(anchors: &'a [Anchor], marks: &'a [Mark]) -> Overlay<'a>
        ensures links { result.links.anchors.now ≡ anchors.now }
        ensures marks { result.marks.marks.now ≡ marks.now }
    {
        Overlay {
            links: Links::of(anchors),
            marks: Marks::of(marks),
        }
    }
}
