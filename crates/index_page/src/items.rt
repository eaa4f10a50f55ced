//! The items of the list, level by level.

ghost use Rattle.std.specs.Prelude.{◌≡◌, ◌++◌, ℕ, List, Option, option_map, slice_get, unwrap_or, [], codes, OnOk};
ghost use Rattle.std.specs.List.{flat_map};
ghost use Rattle.dita_doc.specs.HtmlEscapes as html_escapes_spec;
ghost use Rattle.html_spec.specs.Terms as terms_spec;
ghost use Rattle.index_page.specs.Rows as rows_spec;

use crate::groups::grouped;
use crate::rows::{TermRow, all_end, pages_ended};
use dita_doc::{NoMemory, Plan, Text, append_html};
use html_page::append_anchor;
use std::alloc::{AllocError, Global};

// The pages that items lead to: a plan's, with their titles.
#[derive(Clone, Copy)]
pub(crate) struct IndexPages<'a> {
    pub(crate) plan: &'a Plan,
    pub(crate) titles: &'a [Text],
}

// Appends the items of so many levels.
#[cycle(items)]
pub(crate) fn append_items(
    alloc: Global,
    out: &mut Text,
    pages: IndexPages<'_>,
    rows: &[TermRow<'_>],
    levels: usize,
) -> Result<(), NoMemory>
    ensures { OnOk result (out.new ≡ out.old ++ terms_spec.items_of levels
        (terms_spec.index_pages pages.entry.plan.now pages.entry.titles.now)
        (rows_spec.entries_of rows.now)) }
{
    if levels == 0 {
        return Ok(());
    }
    let groups = grouped(alloc, rows)?;
    for (text, rows) in &groups {
        append_item(alloc, out, pages, text, rows, levels - 1)?;
    }
    Ok(())
}

// Appends the item of a text, below which these rows stand.
#[cycle(items)]
fn append_item(
    alloc: Global,
    out: &mut Text,
    pages: IndexPages<'_>,
    text: &Text,
    rows: &[TermRow<'_>],
    levels: usize,
) -> Result<(), NoMemory>
    ensures { OnOk result (out.new ≡ out.old
        ++ terms_spec.item (terms_spec.index_pages pages.entry.plan.now pages.entry.titles.now)
        (terms_spec.items_of levels
        (terms_spec.index_pages pages.entry.plan.now pages.entry.titles.now)) text.now
        (rows_spec.entries_of rows.now)) }
{
    out.append("<li>")?;
    append_html(out, text.as_str())?;
    append_links(alloc, out, pages, rows)?;
    if all_end(rows) {
        out.append("</li>")?;
        return Ok(());
    }
    out.append("<ul>")?;
    append_items(alloc, out, pages, rows, levels)?;
    out.append("</ul></li>")?;
    Ok(())
}

// Appends the links to the pages of the rows that end here.
fn append_links(
    alloc: Global,
    out: &mut Text,
    pages: IndexPages<'_>,
    rows: &[TermRow<'_>],
) -> Result<(), NoMemory>
    ensures { OnOk result (out.new ≡ out.old ++ flat_map (terms_spec.index_link
        (terms_spec.index_pages pages.entry.plan.now pages.entry.titles.now))
        (terms_spec.pages_ended (rows_spec.entries_of rows.now))) }
{
    let ended = pages_ended(alloc, rows)?;
    for page in &ended {
        append_link(out, pages, *page as usize)?;
    }
    Ok(())
}

// Appends the link to a page.
fn append_link(out: &mut Text, pages: IndexPages<'_>, page: usize) -> Result<(), AllocError>
    ensures { OnOk result (out.new ≡ out.old ++ terms_spec.index_link
        (terms_spec.index_pages pages.entry.plan.now pages.entry.titles.now) page) }
{
    out.append(" ")?;
    append_anchor(out, name_of(pages, page), title_of(pages, page))
}

// The name of the page at this place of the plan.
fn name_of<'a>(pages: IndexPages<'a>, page: usize) -> &'a str
    ensures { result.now ≡ unwrap_or (slice_get (terms_spec.index_pages pages.entry.plan.now
        pages.entry.titles.now).names page) [] }
{
    match pages.plan.pages.as_slice().get(page) {
        Some(page) => page.name.as_str(),
        None => "",
    }
}

// Its title.
fn title_of<'a>(pages: IndexPages<'a>, page: usize) -> &'a str
    ensures { result.now ≡ unwrap_or (slice_get pages.entry.titles.now page) [] }
{
    match pages.titles.get(page) {
        Some(title) => title.as_str(),
        None => "",
    }
}
