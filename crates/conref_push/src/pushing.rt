//! The elements of a document that push.

ghost use Rattle.std.specs.Prelude.{◌≡◌, ◌+◌, ◌<◌, ◌++◌, ℕ, List, Option, None, IfOk, OnOk, codes, map, option_map, option_to_list};
ghost use Rattle.std.specs.Option.{option_copied};
ghost use Rattle.conref_push.specs.Sight as sight_spec;
ghost use Rattle.dita_doc.specs.Siblings as siblings_spec;
ghost use Rattle.dita_doc.specs.Tree as tree_spec;
ghost use Rattle.doc_elements.specs.Walk as walk_spec;
ghost use Rattle.map_spec.specs.Elements as elements_spec;
ghost use Rattle.map_spec.specs.Written as written_spec;
ghost use Rattle.map_spec.specs.Written.{Written};
ghost use Rattle.map_spec.specs.Places as places_spec;
ghost use Rattle.map_spec.specs.Places.{TopicAt};
ghost use Rattle.map_spec.specs.Pushes as pushes_spec;

use dita_doc::{Doc, First, Node, PushKind, Siblings};
use std::alloc::{AllocError, Global};

// An element that pushes, where it stands.
#[derive(Clone, Copy)]
pub(crate) struct Pushing<'a> {
    pub kind: PushKind,
    pub place: u32,
    pub element: &'a Node,
    // The id of the nearest topic around it; empty if there is none, or it has no id.
    pub topic: &'a str,
    // What names its target, on itself or on the mark beside it.
    pub conref: Option<&'a str>,
}

// Those of a document, in document order.
pub(crate) fn pushing_in<'a>(alloc: Global, doc: &'a Doc) -> Result<Vec<Pushing<'a>>, AllocError>
    ensures { (name : List ℕ) → IfOk result (λ found. map (sight_spec.sight_of name) found.items
        ≡ sight_spec.all_seen (places_spec.all_standing
        (written_spec.written_in name (tree_spec.tree_of doc.now.nodes)))) }
{
    let mut found = Vec::new(alloc);
    append_pushing(&mut found, Siblings::of(doc), 0, "")?;
    Ok(found)
}

// Appends those among siblings and below, in a topic of this id. It counts the places on the way,
// and gives the place behind them.
fn append_pushing<'a>(
    out: &mut Vec<Pushing<'a>>,
    siblings: Siblings<'a>,
    place: u32,
    topic: &'a str,
) -> Result<u32, AllocError>
    requires { place + tree_spec.size_of (siblings_spec.content siblings)
        < tree_spec.doc_node_limit }
    ensures past { IfOk result (λ past.
        past ≡ place + tree_spec.size_of (siblings_spec.content siblings.entry)) }
    ensures seen { (name : List ℕ) (around : Option TopicAt)
        → sight_spec.id_around around ≡ topic.now
        → OnOk result (map (sight_spec.sight_of name) out.new.items
        ≡ map (sight_spec.sight_of name) out.old.items
        ++ sight_spec.all_seen (places_spec.standing_from place around None
        (walk_spec.content_in name siblings.entry))) }
{
    let mut before = None;
    let mut left = siblings;
    let mut here = place;
    loop {
        match left.split_first() {
            First::End => return Ok(here),
            First::Chars { rest, .. } => {
                here += 1;
                left = rest;
            }
            First::Element {
                node,
                inside,
                rest,
                ..
            } => {
                append_one(out, here, node, topic, before, rest)?;
                here = append_pushing(out, inside, here + 1, topic_inside(node, topic))?;
                before = Some(node);
                left = rest;
            }
        }
    }
}

// Appends the element at this place, if it pushes.
fn append_one<'a>(
    out: &mut Vec<Pushing<'a>>,
    place: u32,
    element: &'a Node,
    topic: &'a str,
    before: Option<&'a Node>,
    behind: Siblings<'a>,
) -> Result<(), AllocError>
    ensures { (name : List ℕ) (inside : Written) (around : Option TopicAt)
        → sight_spec.id_around around ≡ topic.now
        → OnOk result (map (sight_spec.sight_of name) out.new.items
        ≡ map (sight_spec.sight_of name) out.old.items
        ++ option_to_list (sight_spec.seen_at (sight_spec.standing_at place
        (walk_spec.element_of name element.now) inside around
        (sight_spec.element_before name before.entry)
        (walk_spec.content_in name behind.entry)))) }
{
    if let Some(kind) = push_kind(element) {
        out.push(Pushing {
            kind,
            place,
            element,
            topic,
            conref: conref_of(kind, element, before, behind),
        })?;
    }
    Ok(())
}

fn push_kind(element: &Node) -> Option<PushKind>
    ensures { (name : List ℕ) → result ≡ pushes_spec.push_kind
        (elements_spec.attribute (codes "conaction") (walk_spec.element_of name element.now)) }
{
    let action = element.value_of("conaction")?;
    if action == "pushreplace" {
        Some(PushKind::Replace)
    } else if action == "pushbefore" {
        Some(PushKind::Before)
    } else if action == "pushafter" {
        Some(PushKind::After)
    } else {
        None
    }
}

// The reference to the target: on the element itself if it replaces, else on the mark behind it or
// before it.
fn conref_of<'a>(
    kind: PushKind,
    element: &'a Node,
    before: Option<&'a Node>,
    behind: Siblings<'a>,
) -> Option<&'a str>
    ensures { (name : List ℕ) (place : ℕ) (inside : Written) (around : Option TopicAt)
        → option_copied result ≡ pushes_spec.conref_of (sight_spec.standing_at place
        (walk_spec.element_of name element.now) inside around
        (sight_spec.element_before name before.entry)
        (walk_spec.content_in name behind.entry)) kind }
{
    let carrier = carrier_of(kind, element, before, behind)?;
    carrier.value_of("conref")
}

// The element that carries the reference.
fn carrier_of<'a>(
    kind: PushKind,
    element: &'a Node,
    before: Option<&'a Node>,
    behind: Siblings<'a>,
) -> Option<&'a Node>
    ensures { (name : List ℕ) (place : ℕ) (inside : Written) (around : Option TopicAt)
        → sight_spec.element_before name result ≡ pushes_spec.carrier_of
        (sight_spec.standing_at place
        (walk_spec.element_of name element.now) inside around
        (sight_spec.element_before name before.entry)
        (walk_spec.content_in name behind.entry)) kind }
{
    match kind {
        PushKind::Replace => Some(element),
        PushKind::Before => mark(first_element(behind)?),
        PushKind::After => mark(before?),
    }
}

fn mark(element: &Node) -> Option<&Node>
    ensures { (name : List ℕ) → sight_spec.element_before name result
        ≡ pushes_spec.if_mark (walk_spec.element_of name element.now) }
{
    if element.value_of("conaction") == Some("mark") {
        Some(element)
    } else {
        None
    }
}

fn first_element(siblings: Siblings<'_>) -> Option<&Node>
    ensures { (name : List ℕ) → sight_spec.element_before name result
        ≡ option_map sight_spec.label_of (written_spec.first_sibling
        (walk_spec.content_in name siblings.entry)) }
{
    let mut left = siblings;
    loop {
        match left.split_first() {
            First::End => return None,
            First::Chars { rest, .. } => left = rest,
            First::Element { node, .. } => return Some(node),
        }
    }
}

// The id of the nearest topic around what an element holds.
fn topic_inside<'a>(element: &'a Node, topic: &'a str) -> &'a str
    ensures { (name : List ℕ) (place : ℕ) (around : Option TopicAt)
        → sight_spec.id_around around ≡ topic.now
        → result.now ≡ sight_spec.id_around (places_spec.topic_inside place
        (walk_spec.element_of name element.now) around) }
{
    if element.has_type("topic/topic") {
        element.value_of("id").unwrap_or("")
    } else {
        topic
    }
}
