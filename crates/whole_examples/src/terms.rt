//! A run of the mode `terms`.

use crate::documents::page;
use crate::runs::Run;
use std::test::Fail;

// A topic with the terms B, and C inside A; its map and their build; and a map without topics, with
// its build.
const SCRIPT: &str =
    "1 put m.ditamap\n(map\nAclass - map/map \n(topicref\nAclass - map/topicref \nAhref t.dita\n)topicref\n)map\n.\n1 put t.dita\n(topic\nAclass - topic/topic \nAid t\n(title\nAclass - topic/title \n-H\n)title\n(body\nAclass - topic/body \n(p\nAclass - topic/p \n(indexterm\nAclass - topic/indexterm \n-B\n)indexterm\n(indexterm\nAclass - topic/indexterm \n-A\n(indexterm\nAclass - topic/indexterm \n-C\n)indexterm\n)indexterm\n)p\n)body\n)topic\n.\n1 build m.ditamap\n1 put n.ditamap\n(map\nAclass - map/map \n)map\n.\n1 build n.ditamap\n";

#[test]
fn terms_stand_behind_the_pages_of_their_build(rt: HostRuntime) -> Result<(), Fail> {
    let alloc = rt.alloc();
    let run = Run::with_terms(alloc, SCRIPT)?;
    assert!(rt;
        run.is_done_with(
            "dita transcript 1\nentry 0 1 1 stored 1\nentry 1 1 2 stored 2\nentry 2 1 3 built 2 0\n|page t.html bytes 164\n|page index.html bytes 184\nentry 3 1 4 stored 4\nentry 4 1 5 built 1 0\n|page index.html bytes 144\nend 5 0 0\n"
        )
    );
    let article = "<article id=\"t\"><h1>H</h1><div class=\"body\"><p></p></div></article>";
    let contents =
        "<nav class=\"toc\"><h1>Contents</h1><ul><li><a href=\"t.html\">H</a></li></ul></nav>";
    let terms =
        "<nav class=\"terms\"><h1>Index</h1><ul><li>A<ul><li>C <a href=\"t.html\">H</a></li></ul></li><li>B <a href=\"t.html\">H</a></li></ul></nav>";
    let none = "<nav class=\"toc\"><h1>Contents</h1></nav>";
    let rows = [
        ("b3/t.html", "H", article),
        ("b3/index.html", "Contents", contents),
        ("b3/terms.htm", "Index", terms),
        ("b5/index.html", "Contents", none),
    ];
    assert_eq!(rt; run.outlet.pages().len(), rows.len());
    for (place, (name, title, body)) in rows.iter().enumerate() {
        let page = page(alloc, title, body)?;
        assert!(rt; run.has_page(place, name, page.as_str()), "{name}");
    }
    Ok(())
}
