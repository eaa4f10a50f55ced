//! Elements that act: those with a `conaction`.

ghost use Rattle.std.specs.Prelude.{◌≡◌, ℕ, List};
ghost use Rattle.conref_push.specs.Acting as acting_spec;
ghost use Rattle.dita_doc.specs.Tree as tree_spec;
ghost use Rattle.doc_elements.specs.Walk as walk_spec;
ghost use Rattle.map_spec.specs.Written as written_spec;
ghost use Rattle.map_spec.specs.Pushes as pushes_spec;

use dita_doc::{Doc, Node};

/// Whether an element of the document has a `conaction`. If none has, and nothing is pushed into
/// the document, then its pushed document is the document itself.
pub fn has_conaction_in(doc: &Doc) -> bool
    ensures { (name : List ℕ) → result ≡ acting_spec.any_acts
        (written_spec.written_in name (tree_spec.tree_of doc.now.nodes)) }
{
    for node in doc.nodes.as_slice() {
        if acts(node) {
            return true;
        }
    }
    false
}

pub(crate) fn acts(element: &Node) -> bool
    ensures { (name : List ℕ) →
        result ≡ pushes_spec.has_conaction (walk_spec.element_of name element.now) }
{
    element.value_of("conaction").is_some()
}
