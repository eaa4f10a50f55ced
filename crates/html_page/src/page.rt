//! A page as a whole: its lines, and its limit.

ghost use Rattle.std.specs.Prelude.{◌≡◌, ◌++◌, [], ◌∷◌, codes, IfOk, OnOk};
ghost use Rattle.dita_doc.specs.Bytes.{line_feed};
ghost use Rattle.dita_doc.specs.HtmlEscapes as html_escapes_spec;
ghost use Rattle.dita_doc.specs.Lines as lines_spec;
ghost use Rattle.html_spec.specs.PageHtml as spec;

use crate::faults::too_large;
use crate::links::append_related_line;
use dita_doc::{Fault, Html, List, Name, NoMemory, PageLink, Text, append_html, copy_faults};
use std::alloc::{AllocError, Global};

// The most bytes of a page.
const PAGE_LIMIT: usize = 4_194_304;

/// A page as a whole: its lines, with the links that it shows. `name` and `line` are those of the
/// root of the page's document, at which the fault of a page over 4 MiB stands.
pub fn page_html(
    alloc: Global,
    name: &Name,
    line: u32,
    title: &Text,
    body: &Html,
    links: &List<PageLink>,
) -> Result<Html, NoMemory>
    ensures { IfOk result (λ html. html
        ≡ spec.page_html name.now line title.now body.now links.now) }
{
    let bytes = page_text(alloc, title, body.bytes.as_slice(), links.as_slice())?;
    if bytes.len() <= PAGE_LIMIT {
        let faults = copy_faults(alloc, body.faults.as_slice())?;
        return Ok(Html { bytes, faults });
    }
    large_page(alloc, name, line, title, body)
}

// What stands in place of a page that is too long.
fn large_page(
    alloc: Global,
    name: &Name,
    line: u32,
    title: &Text,
    body: &Html,
) -> Result<Html, NoMemory>
    ensures { IfOk result (λ html. html.bytes ≡ spec.page_text title.now [] []
        × html.faults ≡ body.now.faults ++ spec.too_large name.now line ∷ []) }
{
    let bytes = page_text(alloc, title, &[], &[])?;
    let faults = large_faults(alloc, name, line, &body.faults)?;
    Ok(Html { bytes, faults })
}

// The faults of a body, and that of the page behind them.
fn large_faults(
    alloc: Global,
    name: &Name,
    line: u32,
    faults: &List<Fault>,
) -> Result<List<Fault>, NoMemory>
    ensures { IfOk result (λ all. all ≡ faults.now ++ spec.too_large name.now line ∷ []) }
{
    let mut all = copy_faults(alloc, faults.as_slice())?;
    all.push(too_large(alloc, name, line)?)?;
    Ok(all)
}

/// The lines of a page, of any length.
pub fn page_text(
    alloc: Global,
    title: &Text,
    body: &[u8],
    links: &[PageLink],
) -> Result<List<u8>, AllocError>
    ensures { IfOk result (λ page. page ≡ spec.page_text title.now body.now links.now) }
{
    let before = before_body(alloc, title)?;
    let behind = behind_body(alloc, links)?;
    joined(alloc, before.as_bytes(), body, behind.as_bytes())
}

// Three pieces in one list, which takes no more room than they need: pages are kept for long.
fn joined(alloc: Global, before: &[u8], body: &[u8], behind: &[u8]) -> Result<List<u8>, AllocError>
    ensures { IfOk result (λ all. all ≡ before.now ++ body.now ++ behind.now) }
{
    let room = before
        .len()
        .saturating_add(body.len())
        .saturating_add(behind.len());
    let mut all = Vec::with_capacity(alloc, room)?;
    all.extend_from_slice(before)?;
    all.extend_from_slice(body)?;
    all.extend_from_slice(behind)?;
    Ok(List::from_vec(all))
}

// The lines before the body.
fn before_body(alloc: Global, title: &Text) -> Result<Text, AllocError>
    ensures { IfOk result (λ text. text ≡ lines_spec.line (codes "<!DOCTYPE html>")
        ++ lines_spec.line (codes "<html><head><meta charset=\"utf-8\"><title>"
        ++ html_escapes_spec.escaped title.now ++ codes "</title></head>")
        ++ lines_spec.line (codes "<body>")) }
{
    let mut text = Text::new(alloc);
    text.append("<!DOCTYPE html>\n")?;
    text.append("<html><head><meta charset=\"utf-8\">")?;
    append_title(&mut text, title.as_str())?;
    text.append("</head>\n")?;
    text.append("<body>\n")?;
    Ok(text)
}

fn append_title(out: &mut Text, title: &str) -> Result<(), AllocError>
    ensures { OnOk result (out.new
        ≡ out.old ++ codes "<title>" ++ html_escapes_spec.escaped title.now ++ codes "</title>") }
{
    out.append("<title>")?;
    append_html(out, title)?;
    out.append("</title>")
}

// The end of the body's line, and the lines behind it.
fn behind_body(alloc: Global, links: &[PageLink]) -> Result<Text, AllocError>
    ensures { IfOk result (λ text. text ≡ line_feed ∷ spec.related_line links.now
        ++ lines_spec.line (codes "</body></html>")) }
{
    let mut text = Text::from_str(alloc, "\n")?;
    append_related_line(&mut text, links)?;
    text.append("</body></html>\n")?;
    Ok(text)
}
