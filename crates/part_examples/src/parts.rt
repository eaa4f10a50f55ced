//! A map with one topic, and what is made of it part by part. The expected pages are put together by
//! hand from the rules of a build.

ghost use Rattle.std.specs.Prelude.{IfOk};
ghost use Rattle.dita_doc.specs.Request as request_spec;
ghost use Rattle.dita_doc.specs.Seen as seen_spec;

use dita_doc::{List, Name, NoMemory, PlanStop, Request, Stop};
use pyx_text::read_body;
use source_reader::{KnownTitles, SourceReader};
use std::alloc::{AllocError, Global};
use std::test::Fail;
use version_store::Store;
use whole_calls::{page, plan, resolved_page, toc};

const MAP: &str =
    "(map\nAclass - map/map \n(topicref\nAclass - map/topicref \nAhref t.dita\n)topicref\n)map\n";

const TOPIC: &str =
    "(topic\nAclass - topic/topic \nAid t\n(title\nAclass - topic/title \n-Hello\n)title\n(body\nAclass - topic/body \n(p\nAclass - topic/p \n-A\n)p\n)body\n)topic\n";

const ARTICLE: &str =
    "<!DOCTYPE html>\n<html><head><meta charset=\"utf-8\"><title>Hello</title></head>\n<body>\n<article id=\"t\"><h1>Hello</h1><div class=\"body\"><p>A</p></div></article>\n</body></html>\n";

const CONTENTS: &str =
    "<!DOCTYPE html>\n<html><head><meta charset=\"utf-8\"><title>Contents</title></head>\n<body>\n<nav class=\"toc\"><h1>Contents</h1><ul><li><a href=\"t.html\">Hello</a></li></ul></nav>\n</body></html>\n";

fn name(alloc: Global, text: &str) -> Result<Name, AllocError> {
    Name::parse(alloc, text).map_err(|_| AllocError)
}

fn put(alloc: Global, name: Name, text: &str) -> Result<Request, NoMemory>
    ensures origin { IfOk result (λ request. seen_spec.HasOwnOrigin request) }
    ensures edits { IfOk result (λ request.
        request_spec.HasFewEdits (seen_spec.request_seen request)) }
{
    let body = read_body(alloc, &name, List::from_slice(alloc, text.as_bytes())?)?;
    Ok(Request::Put(name, body))
}

// Stores a document under a name.
fn put_into(
    alloc: Global,
    store: &mut Store,
    number: u32,
    document: &str,
    text: &str,
) -> Result<(), AllocError> {
    let request = put(alloc, name(alloc, document)?, text).map_err(|_| AllocError)?;
    match store.answer(alloc, 1, number, request) {
        Ok(_) => Ok(()),
        Err(_) => Err(AllocError),
    }
}

// A store of the map and its topic.
fn stored(alloc: Global) -> Result<Store, AllocError> {
    let mut store = Store::new(alloc).map_err(|_| AllocError)?;
    put_into(alloc, &mut store, 1, "m.ditamap", MAP)?;
    put_into(alloc, &mut store, 2, "t.dita", TOPIC)?;
    Ok(store)
}

#[test]
fn each_part_of_a_plan_is_made_by_itself(rt: HostRuntime) -> Result<(), Fail> {
    let alloc = rt.alloc();
    let map = name(alloc, "m.ditamap")?;
    let store = stored(alloc)?;
    let mut reader = SourceReader::new(alloc, KnownTitles::new(alloc, store.sources()));
    let plan = plan(alloc, &mut reader, &map, None).map_err(|_| AllocError)?;
    assert_eq!(rt; plan.pages.len(), 1);
    let article = page(alloc, &mut reader, &plan, &map, None, 0).map_err(|_| AllocError)?;
    assert!(rt; article.bytes.as_slice() == ARTICLE.as_bytes());
    let contents = toc(alloc, &mut reader, &plan, &map, None).map_err(|_| AllocError)?;
    assert!(rt; contents.bytes.as_slice() == CONTENTS.as_bytes());
    // The topic, its title, its body and its paragraph, and two texts.
    let content = resolved_page(alloc, &mut reader, &plan, &map, None, 0);
    let content = content.map_err(|_| AllocError)?;
    assert_eq!(rt; content.doc.nodes.len(), 6);
    Ok(())
}

#[test]
fn a_map_that_is_not_stored_has_no_plan(rt: HostRuntime) -> Result<(), Fail> {
    let alloc = rt.alloc();
    let map = name(alloc, "n.ditamap")?;
    let store = stored(alloc)?;
    let mut reader = SourceReader::new(alloc, KnownTitles::new(alloc, store.sources()));
    assert!(rt;
        matches!(
            plan(alloc, &mut reader, &map, None),
            Err(Stop::Fault(PlanStop::NoMap))
        )
    );
    Ok(())
}
