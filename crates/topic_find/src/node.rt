//! Elements by their type and their id.

ghost use Rattle.std.specs.Prelude.{◌≡◌, ℕ, List};
ghost use Rattle.map_spec.specs.Titles as titles_spec;
ghost use Rattle.map_spec.specs.Places as places_spec;
ghost use Rattle.topic_find.specs.Walk as walk_spec;

use dita_doc::Node;

pub(crate) fn is_topic(element: &Node) -> bool
    ensures { (name : List ℕ) → result
        ≡ places_spec.is_topic (walk_spec.element_of name element.now) }
{
    element.has_type("topic/topic")
}

pub(crate) fn has_id(element: &Node, id: &str) -> bool
    ensures { (name : List ℕ) → result
        ≡ walk_spec.has_id id.now (walk_spec.element_of name element.now) }
{
    element.value_of("id") == Some(id)
}

// The id of an element; without one, the empty text.
pub(crate) fn id_of(element: &Node) -> &str
    ensures { (name : List ℕ) → result.now
        ≡ titles_spec.id_of (walk_spec.element_of name element.now) }
{
    element.value_of("id").unwrap_or("")
}
