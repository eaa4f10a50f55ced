//! The walk over a page's content.

ghost use Rattle.std.specs.Prelude.{◌≡◌, ◌++◌, [], ◌∷◌, ℕ, List, IfOk, OnOk};
ghost use Rattle.doc_elements.specs.Walk as walk_spec;
ghost use Rattle.html_spec.specs.Terms as terms_spec;
ghost use Rattle.readers.specs.Named.{AreNodesOf};
ghost use Rattle.index_page.specs.Walk as spec;
ghost use Rattle.map_spec.specs.Written.{Written};

use crate::text::{holds_term, is_term, term_text};
use dita_doc::{First, List, NoMemory, Node, Resolved, Siblings, TermEntry, Text};
use std::alloc::{AllocError, Global};

/// The entries of a page's resolved content, in document order: one for each term that holds no
/// other, with the texts of the terms around it (DITA 1.3, "indexterm"). One with an empty text is
/// left out. It reads the content once, and once more the text of each term.
///
/// # Errors
///
/// Out of memory.
pub fn terms_of(alloc: Global, body: &Resolved, page: u32) -> Result<List<TermEntry>, NoMemory>
    ensures { (nodes : Written) → AreNodesOf body.now nodes
        → IfOk result (λ entries. entries ≡ terms_spec.terms_of page nodes) }
{
    let mut entries = List::new(alloc);
    append_terms(alloc, &mut entries, Siblings::of(&body.doc), &[], page)?;
    Ok(entries)
}

// Appends the entries among some siblings, within the terms around them.
#[cycle(append)]
fn append_terms(
    alloc: Global,
    entries: &mut List<TermEntry>,
    siblings: Siblings<'_>,
    around: &[Text],
    page: u32,
) -> Result<(), NoMemory>
    ensures { (name : List ℕ) → OnOk result (entries.new ≡ entries.old
        ++ spec.entries_among page around.now (walk_spec.content_in name siblings.entry)) }
{
    let mut left = siblings;
    loop {
        match left.split_first() {
            First::End => return Ok(()),
            First::Chars { rest, .. } => left = rest,
            First::Element {
                node,
                inside,
                rest,
                ..
            } => {
                append_element(alloc, entries, node, inside, around, page)?;
                left = rest;
            }
        }
    }
}

// Appends the entries of an element.
#[cycle(append)]
fn append_element(
    alloc: Global,
    entries: &mut List<TermEntry>,
    element: &Node,
    inside: Siblings<'_>,
    around: &[Text],
    page: u32,
) -> Result<(), NoMemory>
    ensures { (name : List ℕ) → OnOk result (entries.new ≡ entries.old
        ++ spec.entries_at page (spec.paths_of around.now (walk_spec.element_of name element.now)
        (walk_spec.content_in name inside.entry))) }
{
    if !is_term(element) {
        return append_terms(alloc, entries, inside, around, page);
    }
    let path = path_inside(alloc, around, inside)?;
    if holds_term(inside) {
        return append_terms(alloc, entries, inside, path.as_slice(), page);
    }
    append_entry(entries, path, page)
}

// The texts of the terms around a term, and its own.
fn path_inside(
    alloc: Global,
    around: &[Text],
    inside: Siblings<'_>,
) -> Result<List<Text>, AllocError>
    ensures { (name : List ℕ) → IfOk result (λ path. path ≡ around.now
        ++ terms_spec.term_text (walk_spec.content_in name inside.entry) ∷ []) }
{
    let mut path = List::new(alloc);
    for text in around {
        path.push(text.clone()?)?;
    }
    path.push(term_text(alloc, inside)?)?;
    Ok(path)
}

// Appends the entry of a path, if each of its texts has characters.
fn append_entry(entries: &mut List<TermEntry>, path: List<Text>, page: u32) -> Result<(), NoMemory>
    ensures { OnOk result (entries.new ≡ entries.old ++ spec.entries_at page (path ∷ [])) }
{
    if !is_path(path.as_slice()) {
        return Ok(());
    }
    entries.push(TermEntry { path, page })?;
    Ok(())
}

fn is_path(path: &[Text]) -> bool
    ensures { result ≡ spec.is_path path.now }
{
    path.iter().all(|text| !text.is_empty())
}
