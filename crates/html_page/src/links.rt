//! The line of a page's links.

ghost use Rattle.std.specs.Prelude.{◌≡◌, ◌++◌, codes, OnOk};
ghost use Rattle.dita_doc.specs.HtmlEscapes as html_escapes_spec;
ghost use Rattle.html_spec.specs.PageHtml as spec;

use dita_doc::{LinkKind, PageLink, Text, append_html, append_html_value};
use std::alloc::AllocError;

/// Appends the line of the links, if there are any.
pub fn append_related_line(out: &mut Text, links: &[PageLink]) -> Result<(), AllocError>
    ensures { OnOk result (out.new ≡ out.old ++ spec.related_line links.now) }
{
    if links.is_empty() {
        return Ok(());
    }
    out.append("<nav class=\"related\"><ul>")?;
    for link in links {
        append_item(out, link)?;
    }
    out.append("</ul></nav>\n")
}

fn append_item(out: &mut Text, link: &PageLink) -> Result<(), AllocError>
    ensures { OnOk result (out.new ≡ out.old ++ spec.link_item link.now) }
{
    out.append("<li class=\"")?;
    out.append(kind_text(link.kind))?;
    out.append("\">")?;
    append_anchor(out, link.href.as_str(), link.label.as_str())?;
    out.append("</li>")
}

/// Appends an anchor, which shows a text and leads to a page.
pub fn append_anchor(out: &mut Text, href: &str, text: &str) -> Result<(), AllocError>
    ensures { OnOk result (out.new ≡ out.old ++ codes "<a href=\""
        ++ html_escapes_spec.escaped_value href.now ++ codes "\">"
        ++ html_escapes_spec.escaped text.now ++ codes "</a>") }
{
    out.append("<a href=\"")?;
    append_html_value(out, href)?;
    out.append("\">")?;
    append_html(out, text)?;
    out.append("</a>")
}

fn kind_text(kind: LinkKind) -> &'static str
    ensures { result.now ≡ spec.kind_text kind }
{
    match kind {
        LinkKind::Previous => "previous",
        LinkKind::Next => "next",
        LinkKind::Sibling => "sibling",
        LinkKind::Related => "related",
    }
}
