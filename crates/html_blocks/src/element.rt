//! An element of a body.

ghost use Rattle.std.specs.Prelude.{◌<◌, length};
ghost use Rattle.dita_doc.specs.Siblings as siblings_spec;

use dita_doc::{First, Name, Node, Siblings};

/// An element, its place in the body, and what it holds. It was written in one of the documents
/// that the body's document names.
#[derive(Clone, Copy)]
pub(crate) struct Element<'a> {
    pub place: u32,
    pub node: &'a Node,
    pub inside: Siblings<'a>,
    pub ghost written: { node.now.origin < length (siblings_spec.doc_of_siblings inside).origins },
}

impl<'a> Element<'a> {
    ghost use Rattle.std.specs.Prelude.{◌≡◌};
    ghost use Rattle.html_blocks.specs.Walk as walk_spec;
    ghost use Rattle.readers.specs.Named as named_spec;

    /// Whether it holds nothing.
    pub fn is_empty(self) -> bool
        ensures { result ≡ walk_spec.is_empty (walk_spec.inside_of self.entry) }
    {
        match self.inside.split_first() {
            First::End => true,
            First::Chars { .. } => false,
            First::Element { .. } => false,
        }
    }

    /// The name of the document that it was written in.
    pub fn origin(self) -> &'a Name
        ensures { result.now ≡ named_spec.name_at (walk_spec.origins_of self.entry.inside)
            self.entry.node.now.origin }
    {
        let origins = self.inside.doc().origins.as_slice();
        &origins[self.node.origin as usize]
    }
}
