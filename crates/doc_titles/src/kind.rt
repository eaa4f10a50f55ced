//! What a document is.

ghost use Rattle.std.specs.Prelude.{◌≡◌, ℕ, List};
ghost use Rattle.dita_doc.specs.Tree as tree_spec;
ghost use Rattle.map_spec.specs.Titles as titles_spec;
ghost use Rattle.map_spec.specs.Written as written_spec;
ghost use Rattle.doc_elements.specs.Walk as walk_spec;

use dita_doc::{Doc, DocKind, First, Node, Siblings};

/// What a document is, by its root.
pub fn kind_of(doc: &Doc) -> DocKind
    ensures { (name : List ℕ) → result ≡ titles_spec.kind_of_document
        (written_spec.written_in name (tree_spec.tree_of doc.now.nodes)) }
{
    let mut left = Siblings::of(doc);
    loop {
        match left.split_first() {
            First::End => return DocKind::Absent,
            First::Chars { rest, .. } => left = rest,
            First::Element { node, .. } => return kind_of_root(node),
        }
    }
}

fn kind_of_root(root: &Node) -> DocKind
    ensures { (name : List ℕ) →
        result ≡ titles_spec.kind_of_root (walk_spec.element_of name root.now) }
{
    if root.has_type("topic/topic") {
        DocKind::Topic
    } else if root.text.as_str() == "dita" {
        DocKind::Dita
    } else if root.has_type("map/map") {
        DocKind::Map
    } else {
        DocKind::Other
    }
}
