//! Elements of a document that are no topics.

ghost use Rattle.std.specs.Prelude.{◌≡◌, ◌+◌, ◌<◌, ℕ, List, None, option_map};
ghost use Rattle.dita_doc.specs.Siblings as siblings_spec;
ghost use Rattle.dita_doc.specs.Tree as tree_spec;
ghost use Rattle.map_spec.specs.Written as written_spec;
ghost use Rattle.map_spec.specs.Places as places_spec;
ghost use Rattle.topic_find.specs.Walk as walk_spec;

use crate::meant::{ElementMeant, TopicAround, TopicMeant};
use crate::node::{has_id, is_topic};
use dita_doc::{Doc, First, Node, Siblings};
use std::ops::ControlFlow;

// The place of the first element that is meant, in document order.
pub(crate) fn find_element(doc: &Doc, meant: ElementMeant<'_>) -> Option<u32>
    ensures { (name : List ℕ) → result ≡ walk_spec.first_place_passing (walk_spec.is_element_meant meant.entry)
        0 None (written_spec.written_in name (tree_spec.tree_of doc.now.nodes)) }
{
    walk_to_element(Siblings::of(doc), 0, None, meant).break_value()
}

// Walks until the element that is meant, and counts the places on the way, from that of the first
// of the siblings. If none of them is the element, nor what they hold, it goes on at the place
// behind them.
fn walk_to_element<'a>(
    siblings: Siblings<'a>,
    place: u32,
    around: Option<TopicAround<'a>>,
    meant: ElementMeant<'_>,
) -> ControlFlow<u32, u32>
    requires { place + tree_spec.size_of (siblings_spec.content siblings)
        < tree_spec.doc_node_limit }
    ensures { (name : List ℕ) → result ≡ walk_spec.walk_of (walk_spec.is_element_meant meant.entry)
        place (option_map walk_spec.topic_at around.entry)
        (walk_spec.content_in name siblings.entry) }
{
    let mut left = siblings;
    let mut here = place;
    loop {
        match left.split_first() {
            First::End => return ControlFlow::Continue(here),
            First::Chars { rest, .. } => {
                here += 1;
                left = rest;
            }
            First::Element {
                node,
                inside,
                rest,
                ..
            } => {
                let is_topic = is_topic(node);
                if is_meant(node, is_topic, around, meant) {
                    return ControlFlow::Break(here);
                }
                let nearest = topic_inside(here, node, is_topic, around);
                here = walk_to_element(inside, here + 1, nearest, meant)?;
                left = rest;
            }
        }
    }
}

// The nearest topic around what an element at this place holds.
pub(crate) fn topic_inside<'a>(
    place: u32,
    element: &'a Node,
    is_topic: bool,
    around: Option<TopicAround<'a>>,
) -> Option<TopicAround<'a>>
    ensures { (name : List ℕ)
        → is_topic ≡ places_spec.is_topic (walk_spec.element_of name element.now)
        → option_map walk_spec.topic_at result
        ≡ places_spec.topic_inside place (walk_spec.element_of name element.now)
        (option_map walk_spec.topic_at around.entry) }
{
    if is_topic {
        let id = element.value_of("id").unwrap_or("");
        Some(TopicAround { place, id })
    } else {
        around
    }
}

// Whether this is the element that is meant, by the nearest topic around it.
fn is_meant(
    element: &Node,
    is_topic: bool,
    around: Option<TopicAround<'_>>,
    meant: ElementMeant<'_>,
) -> bool
    ensures { (name : List ℕ)
        → is_topic ≡ places_spec.is_topic (walk_spec.element_of name element.now)
        → result ≡ walk_spec.is_element_meant meant.entry
        (option_map walk_spec.topic_at around.entry) (walk_spec.element_of name element.now) }
{
    if is_topic {
        return false;
    }
    has_id(element, meant.id) && is_in_topic(around, meant.topic)
}

// Whether the nearest topic around an element is the one that is meant.
fn is_in_topic(around: Option<TopicAround<'_>>, meant: TopicMeant<'_>) -> bool
    ensures { result ≡ walk_spec.is_in_topic meant.entry (option_map walk_spec.topic_at around.entry) }
{
    match around {
        Some(topic) => is_topic_meant(topic, meant),
        None => false,
    }
}

fn is_topic_meant(topic: TopicAround<'_>, meant: TopicMeant<'_>) -> bool
    ensures { result ≡ walk_spec.is_topic_meant meant.entry (walk_spec.topic_at topic.entry) }
{
    match meant {
        TopicMeant::WithId(id) => topic.id == id,
        TopicMeant::At(place) => topic.place == place,
    }
}
