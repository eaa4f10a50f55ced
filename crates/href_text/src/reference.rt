//! The parts of a reference.

ghost use Rattle.std.specs.Prelude.{◌≡◌, ◌&&◌, not, IfOk};
ghost use Rattle.std.specs.List.{list_any};
ghost use Rattle.dita_doc.specs.Bytes.{has_bytes, is_slash};
ghost use Rattle.dita_doc.specs.Gives.{Gives};
ghost use Rattle.dita_doc.specs.declared.plan.Reference as declared;
ghost use Rattle.href_text.specs.Reference as spec;

use crate::fault::RefFault;
use dita_doc::{Reference, Stop, Text, split_text_at_first};
use std::alloc::{AllocError, Global};

/// The file, the topic and the element that a value refers to; a part that is not there is empty.
///
/// # Errors
///
/// `External`, `Empty` or `BadFragment`, the first of these that holds, or out of memory.
pub fn read_reference(alloc: Global, value: &Text) -> Result<Reference, Stop<RefFault>>
    ensures { Gives result (spec.reference_of value.now) }
{
    let value = value.as_str();
    if is_external(value.as_bytes()) {
        return Err(Stop::Fault(RefFault::External));
    }
    if value.is_empty() {
        return Err(Stop::Fault(RefFault::Empty));
    }
    match split_text_at_first(value, b'#') {
        Some((file, fragment)) => reference_with(alloc, file, fragment),
        None => Ok(reference(alloc, value, "", "")?),
    }
}

// Whether a `:` stands before the first `/` and `#`.
fn is_external(value: &[u8]) -> bool
    ensures { result ≡ spec.is_external value.now }
{
    for byte in value {
        match byte {
            b':' => return true,
            b'/' | b'#' => return false,
            _ => {}
        }
    }
    false
}

// The reference to a file and to what stands behind the `#`.
fn reference_with(alloc: Global, file: &str, fragment: &str) -> Result<Reference, Stop<RefFault>>
    ensures { Gives result (spec.reference_with file.now fragment.now) }
{
    if fragment.as_bytes().contains(&b'#') {
        return Err(Stop::Fault(RefFault::BadFragment));
    }
    match split_text_at_first(fragment, b'/') {
        None if !fragment.is_empty() => Ok(reference(alloc, file, fragment, "")?),
        Some((topic, element)) if !topic.is_empty() && is_element(element) => {
            Ok(reference(alloc, file, topic, element)?)
        }
        _ => Err(Stop::Fault(RefFault::BadFragment)),
    }
}

// Whether what stands behind the topic is an element: it has bytes, none of which is a `/`.
fn is_element(text: &str) -> bool
    ensures { result ≡ (has_bytes text.now && not (list_any is_slash text.now)) }
{
    !text.is_empty() && !text.as_bytes().contains(&b'/')
}

// The reference of these parts.
fn reference(alloc: Global, file: &str, topic: &str, element: &str) -> Result<Reference, AllocError>
    ensures { IfOk result (λ parts.
        let made : declared.Reference =
        record { file = file.now; topic = topic.now; element = element.now } in
        parts ≡ made) }
{
    Ok(Reference {
        file: Text::from_str(alloc, file)?,
        topic: Text::from_str(alloc, topic)?,
        element: Text::from_str(alloc, element)?,
    })
}
