//! The path that a page's name begins with.

ghost use Rattle.std.specs.Prelude.{◌≡◌, ◌++◌, IfOk};
ghost use Rattle.dita_doc.specs.Bytes.{is_slash, parts_by};
ghost use Rattle.map_spec.specs.Pages as pages_spec;

use dita_doc::{Affix, PageId, Text, split_at_last};
use std::alloc::{AllocError, Global};

/// The path of the page's document without its extension, with each affix round its last segment.
pub(crate) fn base_of(alloc: Global, id: &PageId) -> Result<Text, AllocError>
    ensures { IfOk result (λ base. base ≡ pages_spec.base_of id.now) }
{
    let (folders, last) = split_path(id.doc.as_str());
    let base = joined_path(alloc, folders, "", without_extension(last), "")?;
    with_affixes(alloc, base, id.affixes.as_slice())
}

// A path with each affix round its last segment, as it then stands.
fn with_affixes(alloc: Global, path: Text, affixes: &[Affix]) -> Result<Text, AllocError>
    ensures { IfOk result (λ base. base ≡ pages_spec.with_affixes path affixes.now) }
{
    let mut base = path;
    for affix in affixes {
        base = with_affix(alloc, base.as_str(), affix)?;
    }
    Ok(base)
}

fn with_affix(alloc: Global, path: &str, affix: &Affix) -> Result<Text, AllocError>
    ensures { IfOk result (λ base. base ≡ pages_spec.with_affix path.now affix.now) }
{
    let (folders, last) = split_path(path);
    joined_path(
        alloc,
        folders,
        affix.prefix.as_str(),
        last,
        affix.suffix.as_str(),
    )
}

// The folders of a path, each with its `/`, and its last segment.
fn split_path(path: &str) -> (&str, &str)
    ensures folders { result.0.now ≡ pages_spec.folders (parts_by is_slash path.now) }
    ensures last { result.1.now ≡ pages_spec.last_segment (parts_by is_slash path.now) }
{
    match split_at_last(path.as_bytes(), b'/') {
        None => ("", path),
        Some((folders, _)) => {
            let at = folders.len() + 1;
            (&path[..at], &path[at..])
        }
    }
}

// A segment without its extension; a dot in front begins none.
fn without_extension(segment: &str) -> &str
    ensures { result.now ≡ pages_spec.without_extension segment.now }
{
    match split_at_last(segment.as_bytes(), b'.') {
        None => segment,
        Some((front, _)) => {
            if front.is_empty() {
                segment
            } else {
                &segment[..front.len()]
            }
        }
    }
}

fn joined_path(
    alloc: Global,
    folders: &str,
    prefix: &str,
    last: &str,
    suffix: &str,
) -> Result<Text, AllocError>
    ensures { IfOk result (λ path.
        path ≡ folders.now ++ (prefix.now ++ last.now ++ suffix.now)) }
{
    let mut path = Text::from_str(alloc, folders)?;
    path.append(prefix)?;
    path.append(last)?;
    path.append(suffix)?;
    Ok(path)
}
