//! The topic around an element, as its references see it.

ghost use Rattle.std.specs.Prelude.{◌≡◌, ℕ, List, true};
ghost use Rattle.doc_elements.specs.Walk as walk_spec;
ghost use Rattle.map_spec.specs.Elements as elements_spec;
ghost use Rattle.map_spec.specs.Written.{Element};
ghost use Rattle.conref_spec.specs.Content as content_spec;

use crate::merge::{USE_TARGET, own_id};
use crate::resolver::At;
use dita_doc::Node;

// The id of the nearest topic for the reference of an element: an element that leaves its id to its
// target has none.
pub(crate) fn topic_seen<'b>(node: &'b Node, at: At<'b>) -> &'b str
    ensures { (name : List ℕ) → result.now ≡ content_spec.topic_before_merge at.entry.is_range
        (walk_spec.element_of name node.now) at.entry.topic.now }
{
    let topic = topic_within(node, at);
    if topic == USE_TARGET && node.has_type("topic/topic") {
        return "";
    }
    topic
}

// The id of the nearest topic for what an element holds; an element of a range has none.
pub(crate) fn topic_within<'b>(node: &'b Node, at: At<'b>) -> &'b str
    ensures { (name : List ℕ) → result.now ≡ content_spec.topic_after_merge at.entry.is_range
        (walk_spec.element_of name node.now) (content_spec.topic_before_merge at.entry.is_range
        (walk_spec.element_of name node.now) at.entry.topic.now) }
{
    if !node.has_type("topic/topic") {
        return at.topic;
    }
    if at.is_range {
        return "";
    }
    node.value_of("id").unwrap_or("")
}

// The id of the nearest topic for what an element takes, where its reference saw this one.
pub(crate) fn topic_taken<'b>(node: &'b Node, topic: &'b str, is_range: bool) -> &'b str
    ensures { (name : List ℕ) (target : Element)
        → elements_spec.has_types (walk_spec.element_of name node.now) ≡ true
        → result.now ≡ content_spec.topic_after_merge is_range (content_spec.merged_element
        (walk_spec.element_of name node.now) target) topic.now }
{
    if is_range {
        return topic;
    }
    if !node.has_type("topic/topic") {
        return topic;
    }
    own_id(node)
}
