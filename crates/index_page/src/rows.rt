//! The rows that are written: entries without the texts of the levels above.

ghost use Rattle.std.specs.Prelude.{◌≡◌, IfOk};
ghost use Rattle.html_spec.specs.Terms as terms_spec;
ghost use Rattle.index_page.specs.Rows as spec;

use dita_doc::{NoMemory, TermEntry, Text};
use std::alloc::{AllocError, Global};
use std::collections::BTreeSet;

// What is left of an entry's path, and its page.
#[derive(Clone, Copy)]
pub(crate) struct TermRow<'a> {
    pub(crate) path: &'a [Text],
    pub(crate) page: u32,
}

// The rows of whole entries.
pub(crate) fn rows_of<'a>(
    alloc: Global,
    entries: &'a [TermEntry],
) -> Result<Vec<TermRow<'a>>, AllocError>
    ensures { IfOk result (λ rows. spec.entries_of rows.items ≡ entries.now) }
{
    let mut rows = Vec::new(alloc);
    for entry in entries {
        rows.push(TermRow {
            path: entry.path.as_slice(),
            page: entry.page,
        })?;
    }
    Ok(rows)
}

// How long the longest path is.
pub(crate) fn levels_of(rows: &[TermRow<'_>]) -> usize
    ensures { result ≡ terms_spec.levels_of (spec.entries_of rows.now) }
{
    let mut most = 0;
    for row in rows {
        most = usize::max(most, row.path.len());
    }
    most
}

// Whether all of them end here.
pub(crate) fn all_end(rows: &[TermRow<'_>]) -> bool
    ensures { result ≡ spec.all_end rows.now }
{
    rows.iter().all(|row| row.path.is_empty())
}

// The pages of the rows that end here.
pub(crate) fn pages_ended(alloc: Global, rows: &[TermRow<'_>]) -> Result<BTreeSet<u32>, NoMemory>
    ensures { IfOk result (λ pages. pages.keys
        ≡ terms_spec.pages_ended (spec.entries_of rows.now)) }
{
    let mut pages = BTreeSet::new(alloc);
    for row in rows {
        if !row.path.is_empty() {
            continue;
        }
        pages.insert(row.page)?;
    }
    Ok(pages)
}
