//! Pages of maps whose topics stand side by side. Each expected page is put together by hand from
//! the rules of a build.

use crate::documents::{flat_map, page, put, topic};
use crate::runs::Run;
use std::alloc::{AllocError, Global};
use std::test::Fail;

/// A script that stores a map with one topic, and builds it.
fn one_topic(alloc: Global, topic: &str) -> Result<String, AllocError> {
    let map = put(alloc, "m.ditamap", flat_map(alloc, &["t.dita"])?.as_str())?;
    let topic = put(alloc, "t.dita", topic)?;
    format!(in alloc; "{map}{topic}1 build m.ditamap\n")
}

#[test]
fn a_map_with_one_topic_has_two_pages(rt: HostRuntime) -> Result<(), Fail> {
    let alloc = rt.alloc();
    let topic = topic(alloc, "t", "Hello", &["A & B"])?;
    let run = Run::of(alloc, one_topic(alloc, topic.as_str())?.as_str())?;
    assert!(rt;
        run.is_done_with(
            "dita transcript 1\nentry 0 1 1 stored 1\nentry 1 1 2 stored 2\nentry 2 1 3 built 2 0\n|page t.html bytes 181\n|page index.html bytes 188\nend 3 0 0\n"
        )
    );
    let article = page(
        alloc,
        "Hello",
        "<article id=\"t\"><h1>Hello</h1><div class=\"body\"><p>A &amp; B</p></div></article>",
    )?;
    let contents = page(
        alloc,
        "Contents",
        "<nav class=\"toc\"><h1>Contents</h1><ul><li><a href=\"t.html\">Hello</a></li></ul></nav>",
    )?;
    assert!(rt; run.has_page(0, "b3/t.html", article.as_str()));
    assert!(rt; run.has_page(1, "b3/index.html", contents.as_str()));
    Ok(())
}

/// An escaped backslash and an escape that is none stay as they were written; blanks in a title are
/// one space.
#[test]
fn escapes_and_blanks_stand_in_the_page_for_what_they_are(rt: HostRuntime) -> Result<(), Fail> {
    let alloc = rt.alloc();
    let topic = topic(alloc, "a\"b", " Hel\\tlo ", &["a\\\\nb\\nc\\q"])?;
    let run = Run::of(alloc, one_topic(alloc, topic.as_str())?.as_str())?;
    let article = page(
        alloc,
        "Hel lo",
        "<article id=\"a&quot;b\"><h1> Hel\tlo </h1><div class=\"body\"><p>a\\nb\nc\\q</p></div></article>",
    )?;
    assert!(rt; run.has_page(0, "b3/t.html", article.as_str()));
    Ok(())
}

/// A topic that is missing, and one that is none, are told, and have an item without a link.
#[test]
fn a_build_tells_what_is_wrong(rt: HostRuntime) -> Result<(), Fail> {
    let alloc = rt.alloc();
    let map = flat_map(alloc, &["t.dita"])?;
    let map = map.as_str();
    let absent = put(alloc, "m.ditamap", map)?;
    let other = put(alloc, "t.dita", map)?;
    let script = format!(in alloc;
        "{absent}1 build m.ditamap\n{other}1 build m.ditamap\n1 build m.ditamap v.ditaval\n1 build n.ditamap\n"
    )?;
    let run = Run::of(alloc, script.as_str())?;
    assert!(rt;
        run.is_done_with(
            "dita transcript 1\nentry 0 1 1 stored 1\nentry 1 1 2 built 1 1\n|page index.html bytes 168\n|m.ditamap:3 TopicMissing t.dita\nentry 2 1 3 stored 3\nentry 3 1 4 built 1 1\n|page index.html bytes 168\n|m.ditamap:3 NotTopic t.dita\nentry 4 1 5 noditaval\nentry 5 1 6 nomap\nend 6 0 0\n"
        )
    );
    let contents = page(
        alloc,
        "Contents",
        "<nav class=\"toc\"><h1>Contents</h1><ul><li>t.dita</li></ul></nav>",
    )?;
    assert!(rt; run.has_page(0, "b2/index.html", contents.as_str()));
    assert!(rt; run.has_page(1, "b4/index.html", contents.as_str()));
    Ok(())
}
