//! Elements that fragments name, by a walk and by a table.

use crate::given::{document, text};
use dita_doc::Doc;
use std::alloc::{AllocError, Global};
use std::test::Fail;
use topic_find::{TargetTable, find_target};

// A topic with a text and a paragraph, and a topic with a paragraph.
const TWO_TOPICS: &str = "(dita\nAid root\n\
    (topic\nAclass - topic/topic \nAid one\n-Text\n\
    (p\nAclass - topic/p \nAid a\n)p\n)topic\n\
    (topic\nAclass - topic/topic \nAid two\n\
    (p\nAclass - topic/p \nAid b\n)p\n)topic\n\
    )dita\n";

// A topic with one of the same id in it, and a topic without an id, with a paragraph of one id in each.
const SAME_IDS: &str = "(dita\nAid a\n\
    (topic\nAclass - topic/topic \nAid one\n\
    (topic\nAclass - topic/topic \nAid one\n\
    (p\nAclass - topic/p \nAid a\n)p\n)topic\n)topic\n\
    (topic\nAclass - topic/topic \n\
    (p\nAclass - topic/p \nAid a\n)p\n)topic\n\
    )dita\n";

// The element that a walk finds.
fn find(alloc: Global, doc: &Doc, fragment: (&str, &str)) -> Result<Option<u32>, AllocError> {
    let topic = text(alloc, fragment.0)?;
    Ok(find_target(doc, &topic, &text(alloc, fragment.1)?))
}

#[test]
fn a_fragment_names_an_element(rt: HostRuntime) -> Result<(), Fail> {
    let alloc = rt.alloc();
    let doc = document(alloc, TWO_TOPICS)?;
    let rows = [
        (("", ""), Some(1)),
        (("two", ""), Some(4)),
        (("three", ""), None),
        (("", "a"), Some(3)),
        (("", "b"), None),
        (("two", "b"), Some(5)),
        (("one", "two"), None),
    ];
    for (fragment, place) in rows {
        let found = find(alloc, &doc, fragment)?;
        assert_eq!(rt; found, place, "{fragment:?}");
    }
    Ok(())
}

// The element that a table of the document finds.
fn look_up(alloc: Global, doc: &Doc, fragment: (&str, &str)) -> Result<Option<u32>, AllocError> {
    let (topic, element) = (text(alloc, fragment.0)?, text(alloc, fragment.1)?);
    let table = TargetTable::of(alloc, doc).map_err(|_| AllocError)?;
    table.find(alloc, &topic, &element).map_err(|_| AllocError)
}

#[test]
fn a_table_answers_as_a_walk_does(rt: HostRuntime) -> Result<(), Fail> {
    let alloc = rt.alloc();
    let ids = ["", "a", "b", "one", "two"];
    for lines in [TWO_TOPICS, SAME_IDS] {
        let doc = document(alloc, lines)?;
        for topic in ids {
            for element in ids {
                let found = look_up(alloc, &doc, (topic, element))?;
                assert_eq!(rt; found, find(alloc, &doc, (topic, element))?);
            }
        }
    }
    Ok(())
}
