//! The title of a document.

ghost use Rattle.std.specs.Prelude.{◌≡◌, ℕ, List, IfOk};
ghost use Rattle.dita_doc.specs.Tree as tree_spec;
ghost use Rattle.map_spec.specs.Titles as titles_spec;
ghost use Rattle.map_spec.specs.Written as written_spec;
ghost use Rattle.doc_elements.specs.Walk as walk_spec;
ghost use Rattle.doc_titles.specs.Topics as topics_spec;

use crate::topics::find_topic;
use dita_doc::{Doc, Name, NoMemory, Node, Siblings, Text};
use doc_elements::{first_child, plain_text};
use std::alloc::{AllocError, Global};

/// The title of the topic named, else of the first topic, else the document's name. The empty text
/// names no topic.
pub fn title_of(alloc: Global, doc: &Doc, name: &Name, topic: &Text) -> Result<Text, NoMemory>
    ensures { IfOk result (λ title. title ≡ titles_spec.title_of_document name.now topic.now
        (written_spec.written_in name.now (tree_spec.tree_of doc.now.nodes))) }
{
    let root = Siblings::of(doc);
    let named = title_of_topic(alloc, topic_named(root, topic.as_str()))?;
    if !named.is_empty() {
        return Ok(named);
    }
    let first = title_of_topic(alloc, find_topic(root, None))?;
    if !first.is_empty() {
        return Ok(first);
    }
    Ok(Text::from_str(alloc, name.as_str())?)
}

// The topic of this id, if the text names one, and what it holds.
fn topic_named<'a>(root: Siblings<'a>, id: &str) -> Option<(&'a Node, Siblings<'a>)>
    ensures { (name : List ℕ) → walk_spec.found_in name result ≡ titles_spec.topic_named id.now
        (titles_spec.topics (walk_spec.content_in name root.entry)) }
{
    if id.is_empty() {
        None
    } else {
        find_topic(root, Some(id))
    }
}

// The title of a topic that may be there; without one, the empty text.
fn title_of_topic(alloc: Global, topic: Option<(&Node, Siblings<'_>)>) -> Result<Text, AllocError>
    ensures { (name : List ℕ) → IfOk result (λ title. title
        ≡ topics_spec.title_if_there (walk_spec.found_in name topic.entry)) }
{
    let Some((_, inside)) = topic else {
        return Ok(Text::new(alloc));
    };
    match first_child(inside, "topic/title") {
        Some((_, inside)) => plain_text(alloc, inside),
        None => Ok(Text::new(alloc)),
    }
}
