//! A small index of terms, byte for byte.

use crate::given::{name, text};
use dita_doc::{Html, List, NoMemory, PageId, PagePlan, Plan, TermEntry};
use index_page::terms_html;
use std::alloc::{AllocError, Global};
use std::test::Fail;

// An entry of the first page.
fn entry(alloc: Global, path: &[&str]) -> Result<TermEntry, AllocError> {
    let mut texts = List::new(alloc);
    for term in path {
        texts.push(text(alloc, term)?)?;
    }
    Ok(TermEntry {
        path: texts,
        page: 0,
    })
}

// A plan of one page.
fn plan(alloc: Global) -> Result<Plan, AllocError> {
    let mut pages = List::new(alloc);
    pages.push(PagePlan {
        id: PageId {
            doc: name(alloc, "t.dita")?,
            scope: 0,
            filters: List::new(alloc),
            affixes: List::new(alloc),
        },
        node: 0,
        name: name(alloc, "t.html")?,
    })?;
    Ok(Plan {
        nodes: List::new(alloc),
        scopes: List::new(alloc),
        pages,
        targets: List::new(alloc),
        documents: List::new(alloc),
        faults: List::new(alloc),
    })
}

fn index(alloc: Global) -> Result<Option<Html>, NoMemory> {
    let mut entries = List::new(alloc);
    entries.push(entry(alloc, &["B"])?)?;
    entries.push(entry(alloc, &["A", "C"])?)?;
    let mut titles = List::new(alloc);
    titles.push(text(alloc, "H")?)?;
    terms_html(alloc, &entries, &plan(alloc)?, &titles)
}

#[test]
fn an_index_of_two_terms(rt: HostRuntime) -> Result<(), Fail> {
    let expected = b"<!DOCTYPE html>\n\
        <html><head><meta charset=\"utf-8\"><title>Index</title></head>\n\
        <body>\n\
        <nav class=\"terms\"><h1>Index</h1><ul>\
        <li>A<ul><li>C <a href=\"t.html\">H</a></li></ul></li>\
        <li>B <a href=\"t.html\">H</a></li></ul></nav>\n\
        </body></html>\n";
    let made = index(rt.alloc()).ok().flatten();
    assert!(rt; made.is_some_and(|page| page.bytes.as_slice() == expected.as_slice()));
    Ok(())
}
