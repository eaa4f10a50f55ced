//! The element that a fragment names.

ghost use Rattle.std.specs.Prelude.{◌≡◌, ℕ, List};
ghost use Rattle.dita_doc.specs.Tree as tree_spec;
ghost use Rattle.map_spec.specs.Written as written_spec;
ghost use Rattle.map_spec.specs.Places as places_spec;
ghost use Rattle.map_spec.specs.Places.{TopicAt};
ghost use Rattle.topic_find.specs.Walk as walk_spec;

use crate::elements::find_element;
use crate::meant::{ElementMeant, TopicMeant};
use crate::topics::find_topic;
use dita_doc::{Doc, Text};

/// The place of the element that a fragment names: the first in document order that fits. An empty
/// topic is the first topic, and an empty element is the topic itself.
pub fn find_target(doc: &Doc, topic: &Text, element: &Text) -> Option<u32>
    ensures { (name : List ℕ) → result ≡ walk_spec.target_place
        (written_spec.written_in name (tree_spec.tree_of doc.now.nodes)) topic.now element.now }
{
    if element.is_empty() {
        return find_named(doc, topic);
    }
    let topic = topic_meant(doc, topic)?;
    let id = element.as_str();
    find_element(doc, ElementMeant { id, topic })
}

// The place of the topic of this id, or of the first topic if the text is empty.
fn find_named(doc: &Doc, topic: &Text) -> Option<u32>
    ensures { (name : List ℕ) → result ≡ walk_spec.topic_place
        (written_spec.written_in name (tree_spec.tree_of doc.now.nodes)) topic.now }
{
    if topic.is_empty() {
        find_topic(doc, None)
    } else {
        find_topic(doc, Some(topic.as_str()))
    }
}

// The topic that is meant: any of this id, or the first topic if the text is empty. There is none
// if a document without topics is asked for the first.
fn topic_meant<'a>(doc: &Doc, topic: &'a Text) -> Option<TopicMeant<'a>>
    ensures { (name : List ℕ) (around : TopicAt) → walk_spec.is_one_meant result around
        ≡ places_spec.is_topic_meant (places_spec.all_standing
        (written_spec.written_in name (tree_spec.tree_of doc.now.nodes))) topic.now around }
{
    if topic.is_empty() {
        Some(TopicMeant::At(find_topic(doc, None)?))
    } else {
        Some(TopicMeant::WithId(topic.as_str()))
    }
}
