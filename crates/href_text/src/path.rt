//! Names of documents from files, and paths between names.

ghost use Rattle.std.specs.Prelude.{◌≡◌, [], ◌∷◌, IfOk, map};
ghost use Rattle.dita_doc.specs.Bytes.{is_slash, parts_by};
ghost use Rattle.dita_doc.specs.Gives.{Gives, GivesSeen};
ghost use Rattle.href_text.specs.Joined as spec;

use crate::fault::RefFault;
use dita_doc::{Name, NoMemory, Stop, Text, is_name, split_at_first, split_text_at_first};
use std::alloc::{AllocError, Global};

/// The name of the document that a file names from the document `from`. An empty file gives `from`.
///
/// # Errors
///
/// `AboveRoot`, `Empty` or `BadName`, or out of memory.
pub fn join_name(alloc: Global, from: &Name, file: &Text) -> Result<Name, Stop<RefFault>>
    ensures { Gives result (spec.joined from.now file.now) }
{
    let file = file.as_str();
    match file.as_bytes().first() {
        None => Ok(from.clone()?),
        Some(b'/') => Err(Stop::Fault(RefFault::AboveRoot)),
        Some(_) => {
            let mut stay = folders_of(alloc, from.as_str())?;
            follow(&mut stay, file)?;
            name_of(alloc, &stay)
        }
    }
}

// The folders in which a document stands, the outermost first.
fn folders_of(alloc: Global, name: &str) -> Result<Vec<&str>, AllocError>
    ensures { IfOk result (λ folders. map (λ folder. folder.now) folders.items
        ≡ spec.folders_of name.now) }
{
    let mut folders = Vec::new(alloc);
    let mut rest = name;
    while let Some((folder, more)) = split_text_at_first(rest, b'/') {
        folders.push(folder)?;
        rest = more;
    }
    Ok(folders)
}

// Follows the segments of a path from a folder. What stays of both is left in `stay`.
fn follow<'a>(stay: &mut Vec<&'a str>, path: &'a str) -> Result<(), Stop<RefFault>>
    ensures { GivesSeen (λ _. map (λ segment. segment.now) stay.new.items) result
        (spec.followed (map (λ segment. segment.now) stay.old.items)
        (parts_by is_slash path.now)) }
{
    let mut rest = path;
    while let Some((segment, more)) = split_text_at_first(rest, b'/') {
        follow_one(stay, segment)?;
        rest = more;
    }
    follow_one(stay, rest)
}

// The same for one segment.
fn follow_one<'a>(stay: &mut Vec<&'a str>, segment: &'a str) -> Result<(), Stop<RefFault>>
    ensures { GivesSeen (λ _. map (λ segment. segment.now) stay.new.items) result
        (spec.followed (map (λ segment. segment.now) stay.old.items) (segment.now ∷ [])) }
{
    match segment {
        "" | "." => Ok(()),
        ".." => match stay.pop() {
            Some(_) => Ok(()),
            None => Err(Stop::Fault(RefFault::AboveRoot)),
        },
        _ => Ok(stay.push(segment)?),
    }
}

// The name that the segments that stay are.
fn name_of(alloc: Global, stay: &[&str]) -> Result<Name, Stop<RefFault>>
    ensures { Gives result (spec.name_of_segments (map (λ segment. segment.now) stay.now)) }
{
    let Some((first, others)) = stay.split_first() else {
        return Err(Stop::Fault(RefFault::Empty));
    };
    let path = path_of(alloc, first, others)?;
    if !is_name(path.as_bytes()) {
        return Err(Stop::Fault(RefFault::BadName));
    }
    Ok(Name::new(alloc, path)?)
}

// The segments with a `/` between them.
fn path_of(alloc: Global, first: &str, others: &[&str]) -> Result<Text, AllocError>
    ensures { IfOk result (λ path. path
        ≡ spec.path_of (first.now ∷ map (λ segment. segment.now) others.now)) }
{
    let mut path = Text::from_str(alloc, first)?;
    for segment in others {
        path.append("/")?;
        path.append(segment)?;
    }
    Ok(path)
}

/// The relative path from one page to another: `../` for each folder of the first, then the second.
pub fn relative(alloc: Global, from: &Name, to: &Name) -> Result<Text, NoMemory>
    ensures { IfOk result (λ path. path ≡ spec.relative_path from.now to.now) }
{
    let mut path = Text::new(alloc);
    let mut rest = from.as_bytes();
    while let Some((_, more)) = split_at_first(rest, b'/') {
        path.append("../")?;
        rest = more;
    }
    path.append(to.as_str())?;
    Ok(path)
}
