//! The references of elements, as they are written.

ghost use Rattle.std.specs.Prelude.{◌≡◌, ℕ, List, IfOk};
ghost use Rattle.href_text.specs.Reference as reference_spec;
ghost use Rattle.map_spec.specs.Target as target_spec;
ghost use Rattle.conref_spec.specs.Content as content_spec;
ghost use Rattle.doc_elements.specs.Walk as walk_spec;
ghost use Rattle.conref_targets.specs.Sought as sought_spec;

use dita_doc::{NoMemory, Node, Reference, Text};
use href_text::read_reference;
use std::alloc::Global;
use targets::if_read;

/// The reference of an element: by a value, by a key, or by both.
#[derive(Clone, Copy)]
pub struct Sought<'a> {
    pub conref: Option<&'a str>,
    pub conkeyref: Option<&'a str>,
}

impl<'a> Sought<'a> {
    /// The reference of an element, if it has one.
    pub fn by(element: &'a Node) -> Option<Sought<'a>>
        ensures { (name : List ℕ) → sought_spec.sought_found result ≡ sought_spec.if_reference
            (content_spec.sought_by (walk_spec.element_of name element.now)) }
    {
        let sought = Sought {
            conref: element.value_of("conref"),
            conkeyref: element.value_of("conkeyref"),
        };
        if sought.conref.is_none() && sought.conkeyref.is_none() {
            return None;
        }
        Some(sought)
    }
}

// The reference that a value is, if it can be read.
pub(crate) fn reference_in(alloc: Global, value: &str) -> Result<Option<Reference>, NoMemory>
    ensures { IfOk result (λ reference. reference
        ≡ target_spec.if_read (reference_spec.reference_of value.now)) }
{
    let text = Text::from_str(alloc, value)?;
    if_read(read_reference(alloc, &text))
}
