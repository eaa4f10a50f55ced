//! The root of a document.

ghost use Rattle.std.specs.Prelude.{◌≡◌, ℕ, List};
ghost use Rattle.std.specs.Option.{option_copied};
ghost use Rattle.dita_doc.specs.Tree as tree_spec;
ghost use Rattle.doc_elements.specs.Root as root_spec;
ghost use Rattle.map_spec.specs.Written as written_spec;

use dita_doc::{Doc, Node, NodeKind};

/// The first element that stands in no other. A document that was read from a text has one, and no
/// other beside it.
pub fn root_of(doc: &Doc) -> Option<&Node>
    ensures { (name : List ℕ) → root_spec.root_named name (option_copied result)
        ≡ root_spec.root_element (written_spec.written_in name (tree_spec.tree_of doc.now.nodes)) }
{
    doc.nodes
        .as_slice()
        .iter()
        .find(|node| node.kind == NodeKind::Element)
}
