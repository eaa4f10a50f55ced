//! Titles, first topics and kinds of a small document.

use crate::given::{document, name, text};
use dita_doc::{Doc, DocKind};
use doc_titles::{first_of, kind_of, title_of};
use std::alloc::{AllocError, Global};
use std::test::Fail;

// Two topics in a `dita`. The title of the second stands in an element without a class.
fn two_topics(alloc: Global) -> Result<Doc, AllocError> {
    document(
        alloc,
        "(dita\nAid root\n\
         (topic\nAclass - topic/topic \nAid first\n\
         (title\nAclass - topic/title \n- First\\n title \n)title\n)topic\n\
         (topic\nAclass - topic/topic \nAid second\n\
         (front\n(title\nAclass - topic/title \n-Second\n)title\n)front\n)topic\n\
         )dita\n",
    )
}

#[test]
fn a_dita_is_told_by_its_name(rt: HostRuntime) -> Result<(), Fail> {
    assert_eq!(rt; kind_of(&two_topics(rt.alloc())?), DocKind::Dita);
    Ok(())
}

#[test]
fn a_title_is_that_of_the_topic_named(rt: HostRuntime) -> Result<(), Fail> {
    let alloc = rt.alloc();
    let doc = two_topics(alloc)?;
    let name = name(alloc, "a.dita")?;
    assert!(rt; title_of(alloc, &doc, &name, &text(alloc, "second")?)?.as_str() == "Second");
    // An id that no topic has leads to the first topic.
    assert!(rt; title_of(alloc, &doc, &name, &text(alloc, "third")?)?.as_str() == "First title");
    Ok(())
}

#[test]
fn the_first_topic_has_its_id(rt: HostRuntime) -> Result<(), Fail> {
    let alloc = rt.alloc();
    let id = first_of(alloc, &two_topics(alloc)?)?;
    assert!(rt; id.as_str() == "first");
    Ok(())
}
