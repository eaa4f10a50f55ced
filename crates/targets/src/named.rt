//! What a file's reference names, whatever its format.

ghost use Rattle.std.specs.Prelude.{◌≡◌, IfOk};
ghost use Rattle.map_spec.specs.Target as target_spec;
ghost use Rattle.doc_elements.specs.Walk as walk_spec;
ghost use Rattle.targets.specs.Named as named_spec;

use crate::target::{file_named, is_external, is_far};
use dita_doc::{Name, NoMemory, Node};
use std::alloc::Global;

/// What a reference names.
#[derive(Drop)]
pub enum Named {
    /// A document of this name, which may not be stored.
    Document(Name),
    /// Nothing of ours: its scope or its value leads away.
    Elsewhere,
    /// No name at all: the value is empty, or can't be joined.
    Unreadable,
}

/// What the value on an element of the document `doc` names; the element's own scope counts.
pub fn named_of(alloc: Global, doc: &Name, element: &Node, value: &str) -> Result<Named, NoMemory>
    ensures { IfOk result (λ named. named_spec.named_shown named
        ≡ target_spec.named_of (walk_spec.element_of doc.now element.now) value.now) }
{
    if element.value_of("scope").is_some_and(is_far) || is_external(value) {
        return Ok(Named::Elsewhere);
    }
    match file_named(alloc, value, doc)? {
        None => Ok(Named::Unreadable),
        Some((name, _)) => Ok(Named::Document(name)),
    }
}
