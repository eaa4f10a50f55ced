//! What a value leads to.

ghost use Rattle.std.specs.Prelude.{◌≡◌, Err, IfOk, IfSome, OnErr, option_map};
ghost use Rattle.dita_doc.specs.declared.stop.Stop.TheVariants as stops;
ghost use Rattle.href_text.specs.Reference as reference_spec;
ghost use Rattle.map_spec.specs.Target as target_spec;
ghost use Rattle.targets.specs.Named as named_spec;

use dita_doc::{Name, NoMemory, Reference, Stop, Target, Text, split_text_at_first};
use href_text::{RefFault, join_name, read_reference};
use std::alloc::Global;

/// What a value leads to from the document `doc`, under this format and this scope; nothing if it
/// can't be read or joined.
pub fn target_by(
    alloc: Global,
    value: &str,
    format: &str,
    scope: &str,
    doc: &Name,
) -> Result<Option<Target>, NoMemory>
    ensures { IfOk result (λ target.
        target ≡ target_spec.target_by value.now format.now scope.now doc.now) }
{
    if is_far(scope) || is_external(value) {
        Ok(Some(Target::Other(Text::from_str(alloc, value)?)))
    } else if format == "dita" {
        topic_target(alloc, value, doc)
    } else {
        file_target(alloc, value, doc)
    }
}

/// The file that a value names from the document `doc`, with what stands behind its name; nothing
/// if the value is empty or can't be joined.
pub fn file_target(alloc: Global, value: &str, doc: &Name) -> Result<Option<Target>, NoMemory>
    ensures { IfOk result (λ target. target ≡ target_spec.local_file doc.now value.now) }
{
    let Some((name, behind)) = file_named(alloc, value, doc)? else {
        return Ok(None);
    };
    let mut rest = Text::new(alloc);
    if let Some(behind) = behind {
        rest.append("#")?;
        rest.append(behind)?;
    }
    Ok(Some(Target::File(name, rest)))
}

/// Whether a reference of this scope leads away from the documents of the desk.
pub fn is_far(scope: &str) -> bool
    ensures { result ≡ target_spec.is_far scope.now }
{
    scope == "external" || scope == "peer"
}

/// Whether a `:` stands before the first `/` and `#` of a value, so that it leads away.
pub fn is_external(value: &str) -> bool
    ensures { result ≡ reference_spec.is_external value.now }
{
    for byte in value.as_bytes() {
        match byte {
            b':' => return true,
            b'/' | b'#' => return false,
            _ => {}
        }
    }
    false
}

/// Whether a reference is `#./element`, which names the topic around the element that carries it.
pub fn is_same_topic(reference: &Reference) -> bool
    ensures { result ≡ target_spec.is_same_topic reference.now }
{
    reference.file.is_empty() && reference.topic.as_str() == "." && !reference.element.is_empty()
}

// The topic that a value names from the document `doc`.
fn topic_target(alloc: Global, value: &str, doc: &Name) -> Result<Option<Target>, NoMemory>
    ensures { IfOk result (λ target. target ≡ target_spec.local_topic doc.now
        (target_spec.if_read (reference_spec.reference_of value.now))) }
{
    let value = Text::from_str(alloc, value)?;
    let Some(reference) = if_read(read_reference(alloc, &value))? else {
        return Ok(None);
    };
    let name = if_read(join_name(alloc, doc, &reference.file))?;
    Ok(name.map(|name| Target::Local(name, reference)))
}

// The document that the file of a value names, and what stands behind the value's first `#`.
pub(crate) fn file_named<'a>(
    alloc: Global,
    value: &'a str,
    doc: &Name,
) -> Result<Option<(Name, Option<&'a str>)>, NoMemory>
    ensures name { IfOk result (λ named. option_map (λ found. found.0) named
        ≡ target_spec.file_named doc.now value.now) }
    ensures rest { IfOk result (λ named.
        IfSome named (λ found. named_spec.rest_with found.1 ≡ target_spec.rest_of value.now)) }
{
    if value.is_empty() {
        return Ok(None);
    }
    let (file, behind) = split_file(value);
    match if_read(join_name(alloc, doc, &Text::from_str(alloc, file)?))? {
        None => Ok(None),
        Some(name) => Ok(Some((name, behind))),
    }
}

// The file of a value, and what stands behind the value's first `#`.
fn split_file(value: &str) -> (&str, Option<&str>)
    ensures file { result.0.now ≡ target_spec.file_of value.now }
    ensures rest { named_spec.rest_with result.1 ≡ target_spec.rest_of value.now }
{
    match split_text_at_first(value, b'#') {
        None => (value, None),
        Some((file, behind)) => (file, Some(behind)),
    }
}

/// What was read, if it was: a reference or a name that can't be read is none.
pub fn if_read<T: Drop>(read: Result<T, Stop<RefFault>>) -> Result<Option<T>, NoMemory>
    ensures value { IfOk result (λ value. named_spec.IsIfRead value read) }
    ensures memory { OnErr result (read ≡ Err stops.NoMemory) }
{
    match read {
        Ok(value) => Ok(Some(value)),
        Err(Stop::Fault(_)) => Ok(None),
        Err(Stop::NoMemory) => Err(NoMemory),
    }
}
