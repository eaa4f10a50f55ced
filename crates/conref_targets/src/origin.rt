//! Nodes of documents, and where they were written.

ghost use Rattle.std.specs.Prelude.{◌≡◌, ℕ, true, List, Some, slice_get, IfSome};
ghost use Rattle.std.specs.Option.{option_copied};
ghost use Rattle.dita_doc.specs.Siblings as siblings_spec;
ghost use Rattle.dita_doc.specs.Tree as tree_spec;
ghost use Rattle.dita_doc.specs.Tree.{Content};
ghost use Rattle.readers.specs.Founded.{AreAmong};
ghost use Rattle.readers.specs.Named.{named_tree};
ghost use Rattle.readers.specs.Told.{Told};
ghost use Rattle.conref_targets.specs.Asking.{reused_of_doc, reused_of_whole};
ghost use Rattle.conref_targets.specs.Each.{OfWhole};
ghost use Rattle.conref_targets.specs.Hrefs.{HaveNamed, WholeNamed};
ghost use Rattle.conref_targets.specs.PageAsking.{AreMet, IsMet, PageAt};
ghost use Rattle.conref_targets.specs.Parts as parts_spec;
ghost use Rattle.conref_targets.specs.Origin as origin_spec;

use dita_doc::{Doc, Name, Node, Siblings};

/// An element where it stands: the name of the document in which it was written, its node, and what
/// it holds.
#[derive(Clone, Copy)]
pub struct Whole<'a> {
    pub origin: &'a Name,
    pub node: &'a Node,
    pub inside: Siblings<'a>,
}

/// The element at this place of a document; none if a text or nothing stands there.
pub fn whole_at(doc: &Doc, place: u32) -> Option<Whole<'_>>
    ensures whole { (part : Content) → parts_spec.AreSiblingsAt (tree_spec.tree_of doc.now.nodes) place part
        → origin_spec.begins_element part ≡ true
        → origin_spec.whole_shown result ≡ origin_spec.first_whole doc.now.origins part }
    ensures here { IfSome result (λ whole. slice_get doc.now.nodes place ≡ Some whole.node.now) }
    ensures names { IfSome result (λ whole. AreAmong (reused_of_whole whole)
        (reused_of_doc doc.now)) }
    ensures hrefs { (told : List Told) → HaveNamed told (named_tree doc.now)
        → IfSome result (WholeNamed told) }
    ensures met { (page : PageAt) → AreMet page (named_tree doc.now)
        → IfSome result (OfWhole (IsMet page)) }
{
    match Siblings::element_at(doc, place) {
        None => None,
        Some((node, inside)) => whole_of(doc, node, inside),
    }
}

// An element of a document with the name of its origin.
fn whole_of<'a>(doc: &'a Doc, node: &'a Node, inside: Siblings<'a>) -> Option<Whole<'a>>
    ensures whole { (place : ℕ) (part : Content) → siblings_spec.IsElementAt doc.now place node.now inside.entry
        → parts_spec.AreSiblingsAt (tree_spec.tree_of doc.now.nodes) place part
        → origin_spec.begins_element part ≡ true
        → origin_spec.whole_shown result ≡ origin_spec.first_whole doc.now.origins part }
    ensures node { IfSome result (λ whole. whole.node.now ≡ node.now) }
    ensures names { (place : ℕ) → siblings_spec.IsElementAt doc.now place node.now inside.entry
        → IfSome result (λ whole. AreAmong (reused_of_whole whole) (reused_of_doc doc.now)) }
    ensures hrefs { (told : List Told) (place : ℕ)
        → siblings_spec.IsElementAt doc.now place node.now inside.entry
        → HaveNamed told (named_tree doc.now) → IfSome result (WholeNamed told) }
    ensures met { (page : PageAt) (place : ℕ)
        → siblings_spec.IsElementAt doc.now place node.now inside.entry
        → AreMet page (named_tree doc.now) → IfSome result (OfWhole (IsMet page)) }
{
    match origin_of(doc, node) {
        None => None,
        Some(origin) => Some(Whole {
            origin,
            node,
            inside,
        }),
    }
}

/// The name of the document in which a node of this document was written.
pub fn origin_of<'a>(doc: &'a Doc, node: &Node) -> Option<&'a Name>
    ensures { option_copied result ≡ slice_get doc.now.origins node.now.origin }
{
    doc.origins.as_slice().get(node.origin as usize)
}

/// The node at a place of a document.
pub fn node_of(doc: &Doc, place: u32) -> Option<&Node>
    ensures { option_copied result ≡ slice_get doc.now.nodes place }
{
    doc.nodes.as_slice().get(place as usize)
}
