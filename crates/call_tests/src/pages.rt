//! A small page, byte for byte.

use crate::given::{name, text};
use dita_doc::{Html, LinkKind, List, NoMemory, PageLink};
use html_page::page_html;
use std::alloc::{AllocError, Global};
use std::test::Fail;

fn link(alloc: Global, kind: LinkKind, href: &str, label: &str) -> Result<PageLink, AllocError> {
    Ok(PageLink {
        kind,
        href: text(alloc, href)?,
        label: text(alloc, label)?,
    })
}

fn page(alloc: Global) -> Result<Html, NoMemory> {
    let body = Html {
        bytes: List::from_slice(alloc, b"<p>\xFF</p>")?,
        faults: List::new(alloc),
    };
    let mut links = List::new(alloc);
    links.push(link(alloc, LinkKind::Previous, "b&\".html", "B < \"C\"")?)?;
    links.push(link(alloc, LinkKind::Related, "../d.html", "D")?)?;
    let title = text(alloc, "Salt & \"sugar\"")?;
    page_html(alloc, &name(alloc, "a/t.dita")?, 1, &title, &body, &links)
}

#[test]
fn a_page_with_two_links(rt: HostRuntime) -> Result<(), Fail> {
    let expected = b"<!DOCTYPE html>\n\
        <html><head><meta charset=\"utf-8\"><title>Salt &amp; \"sugar\"</title></head>\n\
        <body>\n\
        <p>\xFF</p>\n\
        <nav class=\"related\"><ul>\
        <li class=\"previous\"><a href=\"b&amp;&quot;.html\">B &lt; \"C\"</a></li>\
        <li class=\"related\"><a href=\"../d.html\">D</a></li>\
        </ul></nav>\n\
        </body></html>\n";
    let made = page(rt.alloc());
    assert!(rt; made.is_ok_and(|page| page.bytes.as_slice() == expected.as_slice()));
    Ok(())
}
