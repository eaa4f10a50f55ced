//! Topics of a document.

ghost use Rattle.std.specs.Prelude.{◌≡◌, ℕ, List, IfOk};
ghost use Rattle.dita_doc.specs.Tree as tree_spec;
ghost use Rattle.map_spec.specs.Titles as titles_spec;
ghost use Rattle.map_spec.specs.Written as written_spec;
ghost use Rattle.doc_elements.specs.Walk as walk_spec;
ghost use Rattle.doc_titles.specs.Topics as topics_spec;

use dita_doc::{Doc, First, NoMemory, Node, Siblings, Text};
use std::alloc::Global;

/// The id of a document's first topic; the empty text if it has none, or the topic has no id.
pub fn first_of(alloc: Global, doc: &Doc) -> Result<Text, NoMemory>
    ensures { (name : List ℕ) → IfOk result (λ id. id ≡ titles_spec.first_of_document
        (written_spec.written_in name (tree_spec.tree_of doc.now.nodes))) }
{
    match find_topic(Siblings::of(doc), None) {
        Some((topic, _)) => Ok(Text::from_str(alloc, topic.value_of("id").unwrap_or(""))?),
        None => Ok(Text::new(alloc)),
    }
}

// The first topic in document order, or the first of the id that is wanted, and what it holds.
pub(crate) fn find_topic<'a>(
    siblings: Siblings<'a>,
    wanted: Option<&str>,
) -> Option<(&'a Node, Siblings<'a>)>
    ensures { (name : List ℕ) → walk_spec.found_in name result
        ≡ topics_spec.topic_wanted wanted.entry (walk_spec.content_in name siblings.entry) }
{
    let mut left = siblings;
    loop {
        match left.split_first() {
            First::End => return None,
            First::Chars { rest, .. } => left = rest,
            First::Element {
                node,
                inside,
                rest,
                ..
            } => {
                if is_wanted_topic(node, wanted) {
                    return Some((node, inside));
                }
                if let Some(found) = find_topic(inside, wanted) {
                    return Some(found);
                }
                left = rest;
            }
        }
    }
}

fn is_wanted_topic(element: &Node, wanted: Option<&str>) -> bool
    ensures { (name : List ℕ) → result
        ≡ topics_spec.is_wanted_topic wanted.entry (walk_spec.element_of name element.now) }
{
    element.has_type("topic/topic")
        && match wanted {
            Some(id) => element.value_of("id") == Some(id),
            None => true,
        }
}
