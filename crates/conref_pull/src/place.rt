//! Targets by their places.

use dita_doc::Name;

// A target that is being resolved: a place of a document with its pushes.
#[derive(Drop)]
pub(crate) struct Place {
    pub doc: Name,
    pub at: u32,
}
