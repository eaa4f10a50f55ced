//! What a reader answers about stored documents, and what it was asked.

ghost use Rattle.std.specs.Prelude.{IfOk};
ghost use Rattle.dita_doc.specs.Request as request_spec;
ghost use Rattle.dita_doc.specs.Seen as seen_spec;

use crate::documents::topic;
use dita_doc::{DocKind, List, Name, NoMemory, Request, Text};
use pyx_text::read_body;
use readers::{Reader, Titles};
use source_reader::{KnownTitles, SourceReader};
use std::alloc::{AllocError, Global};
use std::test::Fail;
use version_store::Store;

fn name(alloc: Global, text: &str) -> Result<Name, AllocError> {
    Name::parse(alloc, text).map_err(|_| AllocError)
}

// A put of a topic with the title `Hello`.
fn put(alloc: Global, name: &Name) -> Result<Request, NoMemory>
    ensures origin { IfOk result (λ request. seen_spec.HasOwnOrigin request) }
    ensures edits { IfOk result (λ request.
        request_spec.HasFewEdits (seen_spec.request_seen request)) }
{
    let text = topic(alloc, "t", "Hello", &["A"])?;
    let body = read_body(alloc, name, List::from_slice(alloc, text.as_bytes())?)?;
    Ok(Request::Put(name.clone()?, body))
}

// A store of the topic `t.dita`.
fn stored(alloc: Global) -> Result<Store, AllocError> {
    let mut store = Store::new(alloc).map_err(|_| AllocError)?;
    let request = put(alloc, &name(alloc, "t.dita")?).map_err(|_| AllocError)?;
    match store.answer(alloc, 1, 1, request) {
        Ok(_) => Ok(store),
        Err(_) => Err(AllocError),
    }
}

// The kind, the title and the first topic of a document, or nothing if it is absent.
fn shown<T: Titles>(
    alloc: Global,
    reader: &mut T,
    name: &Name,
) -> Result<Option<(DocKind, Text, Text)>, NoMemory> {
    if reader.doc(alloc, name)?.is_none() {
        return Ok(None);
    }
    let title = reader.title(alloc, name, &Text::new(alloc))?;
    Ok(Some((reader.kind(alloc, name)?, title, reader.first(alloc, name)?)))
}

#[test]
fn a_reader_shows_what_is_stored(rt: HostRuntime) -> Result<(), Fail> {
    let alloc = rt.alloc();
    let name = name(alloc, "t.dita")?;
    let store = stored(alloc)?;
    let mut reader = SourceReader::new(alloc, KnownTitles::new(alloc, store.sources()));
    // The second title comes from the table.
    for _ in 0..2 {
        let shown = shown(alloc, &mut reader, &name).map_err(|_| AllocError)?;
        let (kind, title, first) = shown.ok_or("no document")?;
        assert_eq!(rt; kind, DocKind::Topic);
        assert!(rt; title.as_str() == "Hello");
        assert!(rt; first.as_str() == "t");
    }
    let (asked, _) = reader.into_asked();
    let asked = asked.into_answered(alloc).map_err(|_| AllocError)?;
    assert_eq!(rt; asked.len(), 8);
    Ok(())
}

#[test]
fn an_absent_document_has_its_name_for_a_title(rt: HostRuntime) -> Result<(), Fail> {
    let alloc = rt.alloc();
    let name = name(alloc, "u.dita")?;
    let store = stored(alloc)?;
    let mut reader = SourceReader::new(alloc, KnownTitles::new(alloc, store.sources()));
    assert!(rt; reader.doc(alloc, &name).is_ok_and(|doc| doc.is_none()));
    assert!(rt;
        reader
            .kind(alloc, &name)
            .is_ok_and(|kind| kind == DocKind::Absent)
    );
    let title = reader.title(alloc, &name, &Text::new(alloc));
    assert!(rt; title.is_ok_and(|title| title.as_str() == "u.dita"));
    Ok(())
}
