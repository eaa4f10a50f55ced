//! The page of terms.

ghost use Rattle.std.specs.Prelude.{◌≡◌, ◌++◌, codes, IfOk};
ghost use Rattle.html_spec.specs.PageHtml as page_html_spec;
ghost use Rattle.html_spec.specs.Terms as spec;

use crate::items::{IndexPages, append_items};
use crate::rows::{levels_of, rows_of};
use dita_doc::{Html, List, NoMemory, Plan, TermEntry, Text};
use html_page::page_text;
use std::alloc::{AllocError, Global};

// The most bytes of a page.
const PAGE_LIMIT: usize = 4_194_304;

/// The page that lists the entries, if there are any: at each level each text once, by its bytes,
/// with a link to each page on which it ends, in the plan's order. A page over 4 MiB has an empty
/// body, and no fault. Each text of a path is searched for in a tree of the texts of its level, and is
/// copied.
///
/// # Errors
///
/// Out of memory.
pub fn terms_html(
    alloc: Global,
    entries: &List<TermEntry>,
    plan: &Plan,
    titles: &List<Text>,
) -> Result<Option<Html>, NoMemory>
    ensures { IfOk result (λ html. html ≡ spec.terms_html entries.now plan.now titles.now) }
{
    if entries.is_empty() {
        return Ok(None);
    }
    let pages = IndexPages {
        plan,
        titles: titles.as_slice(),
    };
    let body = body_of(alloc, pages, entries.as_slice())?;
    Ok(Some(within_limit(alloc, &body)?))
}

// What stands in the page.
fn body_of(alloc: Global, pages: IndexPages<'_>, entries: &[TermEntry]) -> Result<Text, NoMemory>
    ensures { IfOk result (λ body. body ≡ spec.body_of
        (spec.index_pages pages.entry.plan.now pages.entry.titles.now) entries.now) }
{
    let rows = rows_of(alloc, entries)?;
    let mut body = Text::from_str(alloc, "<nav class=\"terms\"><h1>Index</h1><ul>")?;
    append_items(alloc, &mut body, pages, &rows, levels_of(&rows))?;
    body.append("</ul></nav>")?;
    Ok(body)
}

// The page with this body, or without it if it is too long.
fn within_limit(alloc: Global, body: &Text) -> Result<Html, AllocError>
    ensures { IfOk result (λ html. html ≡ spec.within page_html_spec.page_limit body.now) }
{
    let title = Text::from_str(alloc, "Index")?;
    let faults = List::new(alloc);
    let bytes = page_text(alloc, &title, body.as_bytes(), &[])?;
    if bytes.len() <= PAGE_LIMIT {
        return Ok(Html { bytes, faults });
    }
    let bytes = page_text(alloc, &title, &[], &[])?;
    Ok(Html { bytes, faults })
}
