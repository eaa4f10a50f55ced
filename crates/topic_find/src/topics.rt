//! Topics of a document.

ghost use Rattle.std.specs.Prelude.{◌≡◌, ◌+◌, ◌<◌, ℕ, List, Option, None};
ghost use Rattle.dita_doc.specs.Siblings as siblings_spec;
ghost use Rattle.dita_doc.specs.Tree as tree_spec;
ghost use Rattle.map_spec.specs.Written as written_spec;
ghost use Rattle.map_spec.specs.Places.{TopicAt};
ghost use Rattle.topic_find.specs.Walk as walk_spec;

use crate::node::{has_id, is_topic};
use dita_doc::{Doc, First, Node, Siblings};
use std::ops::ControlFlow;

// The place of the first topic in document order, or of the first of the id that is wanted.
pub(crate) fn find_topic(doc: &Doc, wanted: Option<&str>) -> Option<u32>
    ensures { (name : List ℕ) → result ≡ walk_spec.first_place_passing (walk_spec.is_topic_wanted wanted.entry)
        0 None (written_spec.written_in name (tree_spec.tree_of doc.now.nodes)) }
{
    walk_to_topic(Siblings::of(doc), 0, wanted).break_value()
}

// Walks until the topic that is wanted, and counts the places on the way, from that of the first of
// the siblings. If none of them is the topic, nor what they hold, it goes on at the place behind
// them.
fn walk_to_topic(siblings: Siblings<'_>, place: u32, wanted: Option<&str>) -> ControlFlow<u32, u32>
    requires { place + tree_spec.size_of (siblings_spec.content siblings)
        < tree_spec.doc_node_limit }
    ensures { (name : List ℕ) (around : Option TopicAt) → result
        ≡ walk_spec.walk_of (walk_spec.is_topic_wanted wanted.entry)
        place around (walk_spec.content_in name siblings.entry) }
{
    let mut left = siblings;
    let mut here = place;
    loop {
        match left.split_first() {
            First::End => return ControlFlow::Continue(here),
            First::Chars { rest, .. } => {
                here += 1;
                left = rest;
            }
            First::Element {
                node,
                inside,
                rest,
                ..
            } => {
                if is_topic_wanted(node, wanted) {
                    return ControlFlow::Break(here);
                }
                here = walk_to_topic(inside, here + 1, wanted)?;
                left = rest;
            }
        }
    }
}

fn is_topic_wanted(element: &Node, wanted: Option<&str>) -> bool
    ensures { (name : List ℕ) → result
        ≡ walk_spec.is_wanted wanted.entry (walk_spec.element_of name element.now) }
{
    is_topic(element) && has_id_wanted(element, wanted)
}

fn has_id_wanted(element: &Node, wanted: Option<&str>) -> bool
    ensures { (name : List ℕ) → result
        ≡ walk_spec.has_id_wanted wanted.entry (walk_spec.element_of name element.now) }
{
    match wanted {
        Some(id) => has_id(element, id),
        None => true,
    }
}
