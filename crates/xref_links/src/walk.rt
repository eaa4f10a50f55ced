//! The walk over a page's elements.

ghost use Rattle.std.specs.Arc.{arc_value};
ghost use Rattle.std.specs.Prelude.{◌≡◌, ◌+◌, ◌≤◌, ◌++◌, [], ◌∷◌, ℕ, List, IfOk, OnOk, None, Option, false, length, if◌then◌else◌};
ghost use Rattle.dita_doc.specs.Siblings as siblings_spec;
ghost use Rattle.dita_doc.specs.Tree as tree_spec;
ghost use Rattle.dita_doc.specs.declared.plan.PagePlan.{PagePlan};
ghost use Rattle.dita_doc.specs.declared.plan.PlanNode.{PlanNode};
ghost use Rattle.doc_elements.specs.Walk as walk_spec;
ghost use Rattle.map_spec.specs.Titles as titles_spec;
ghost use Rattle.html_spec.specs.Anchors as anchors_spec;
ghost use Rattle.html_spec.specs.Anchors.{Here};
ghost use Rattle.map_spec.specs.Places.{TopicAt};
ghost use Rattle.reader_spec.specs.World.{World};
ghost use Rattle.readers.specs.Documents as documents_spec;
ghost use Rattle.readers.specs.Documents.{AsksOnly};
ghost use Rattle.readers.specs.Founded.{Grows, StaysFounded};
ghost use Rattle.readers.specs.Named as named_spec;
ghost use Rattle.readers.specs.Told.{Agrees};
ghost use Rattle.xref_links.specs.Adding as spec;
ghost use Rattle.xref_links.specs.Body as body_spec;
ghost use Rattle.xref_links.specs.Here as here_spec;
ghost use Rattle.xref_links.specs.Names as names_spec;
ghost use Rattle.xref_links.specs.Types as types_spec;

use crate::image::add_image;
use crate::keyed::{Keyed, defined_key};
use crate::link::{add_keyed, add_written};
use crate::made::AnchorsMade;
use crate::page::{PageRead, PlacedElement};
use crate::types::Types;
use dita_doc::{Context, First, NoMemory, Node, Plan, Resolved, Siblings, Target};
use readers::Asker;
use std::alloc::Global;
use std::sync::Arc;

/// The anchors of a page's elements, the links that its link elements list, and their faults, each
/// in document order: one walk over the body, and for each element that links at most one question
/// each for its key, its target's title or first topic, and its target's page.
///
/// # Errors
///
/// Out of memory.
pub fn anchors<A: Asker>(
    alloc: Global,
    asker: &mut A,
    plan: &Plan,
    context: &Arc<Context>,
    body: &Resolved,
) -> Result<AnchorsMade, NoMemory>
    ensures known { (world : World) (page : PagePlan) (number : ℕ)
        → Agrees world (A.told asker.new)
        → here_spec.IsMadeFor (A.stand asker.old).setting plan.now
        → here_spec.IsPageOf plan.now (arc_value context.now) page number
        → IfOk result (λ made. here_spec.AreMade (here_spec.here_of world plan.now page number)
        (body_spec.written_of body.now) made) }
    ensures value { (page : PagePlan) (number : ℕ)
        → here_spec.IsMadeFor (A.stand asker.old).setting plan.now
        → here_spec.IsPageOf plan.now (arc_value context.now) page number
        → IfOk result (λ made. here_spec.AreMade
        (here_spec.here_of (A.stand asker.old).world plan.now page number)
        (body_spec.written_of body.now) made) }
    ensures stand { A.stand asker.new ≡ A.stand asker.old }
    ensures founded { StaysFounded
        (names_spec.names_asked (A.stand asker.old).setting.nodes (arc_value context.now) body.now)
        (A.told asker.old) (A.told asker.new) }
    ensures asks { AsksOnly documents_spec.nothing [] (A.told asker.old) (A.told asker.new) }
    ensures grows { Grows (A.told asker.old) (A.told asker.new) }
{
    let page = PageRead {
        alloc,
        plan,
        context,
        body,
    };
    anchors_of(page, asker)
}

// What `anchors` says, but of the asker's own world.
#[tactic(auto, using(readers::proofs::Rules::walking))]
fn anchors_of<A: Asker>(page: PageRead<'_>, asker: &mut A) -> Result<AnchorsMade, NoMemory>
    ensures known { (here : Here) → Agrees here.world (A.told asker.new)
        → spec.IsHere (A.stand asker.old) page.entry here
        → IfOk result (λ made.
        here_spec.AreMade here (body_spec.written_of page.entry.body.now) made) }
    ensures stand { A.stand asker.new ≡ A.stand asker.old }
    ensures founded { StaysFounded
        (names_spec.names_asked (A.stand asker.old).setting.nodes (arc_value page.entry.context.now)
        page.entry.body.now) (A.told asker.old) (A.told asker.new) }
    ensures asks { AsksOnly documents_spec.nothing [] (A.told asker.old) (A.told asker.new) }
    ensures grows { Grows (A.told asker.old) (A.told asker.new) }
{
    let mut made = AnchorsMade::new(page.alloc);
    walk(page, asker, Siblings::of(&page.body.doc), 0, "", &mut made)?;
    Ok(made)
}

// Adds what these elements and those below them add; `topic` is the id of the nearest topic around.
// It counts the places on the way, from that of the first of them, and gives the place behind them.
#[tactic(auto, using(readers::proofs::Rules::walking))]
fn walk<'a, A: Asker>(
    page: PageRead<'a>,
    asker: &mut A,
    siblings: Siblings<'a>,
    place: u32,
    topic: &'a str,
    made: &mut AnchorsMade,
) -> Result<u32, NoMemory>
    requires room { place + tree_spec.size_of (siblings_spec.content siblings)
        ≤ length page.body.now.doc.nodes }
    requires document { siblings_spec.doc_of_siblings siblings ≡ page.body.now.doc }
    ensures past { IfOk result (λ past.
        past ≡ place + tree_spec.size_of (siblings_spec.content siblings.entry)) }
    ensures known { (here : Here) (around : Option TopicAt) → Agrees here.world (A.told asker.new)
        → spec.IsHere (A.stand asker.old) page.entry here → spec.topic_id around ≡ topic.now
        → OnOk result (spec.HaveMore made.old made.new (spec.added_from here place around
        (body_spec.written_at page.entry.body.now place (siblings_spec.content siblings.entry)))) }
    ensures stand { A.stand asker.new ≡ A.stand asker.old }
    ensures founded { (nodes : List PlanNode) → (A.stand asker.old).setting.nodes ≡ nodes
        → StaysFounded (names_spec.names_with nodes (arc_value page.entry.context.now).page.doc
        (named_spec.linked_in (body_spec.written_at page.entry.body.now place
        (siblings_spec.content siblings.entry)))) (A.told asker.old) (A.told asker.new) }
    ensures asks { AsksOnly documents_spec.nothing [] (A.told asker.old) (A.told asker.new) }
    ensures grows { Grows (A.told asker.old) (A.told asker.new) }
{
    let mut left = siblings;
    let mut here = place;
    loop {
        match left.split_first() {
            First::End => return Ok(here),
            First::Chars { rest, .. } => {
                here += 1;
                left = rest;
            }
            First::Element {
                node,
                inside,
                rest,
                ..
            } => {
                let types = Types::of(node);
                let nearest = topic_inside(types, node, topic);
                let standing = PlacedElement {
                    place: here,
                    node,
                    inside,
                    topic: nearest,
                };
                add(page, asker, types, standing, made)?;
                here = walk(page, asker, inside, here + 1, nearest, made)?;
                left = rest;
            }
        }
    }
}

// The id of the nearest topic of an element and of what it holds, which a topic is itself.
fn topic_inside<'a>(types: Types, element: &'a Node, topic: &'a str) -> &'a str
    ensures { (name : List ℕ) → result.now ≡ (if types.is_topic
        then titles_spec.id_of (walk_spec.element_of name element.now) else topic.now) }
{
    if types.is_topic {
        element.value_of("id").unwrap_or("")
    } else {
        topic
    }
}

// Adds what an element adds. A key on one without a class that can be read says nothing.
#[tactic(auto, using(readers::proofs::Rules::walking))]
fn add<'a, A: Asker>(
    page: PageRead<'a>,
    asker: &mut A,
    types: Types,
    standing: PlacedElement<'a>,
    made: &mut AnchorsMade,
) -> Result<(), NoMemory>
    requires { spec.IsPlaced page standing }
    ensures known { (here : Here) (around : Option TopicAt) → Agrees here.world (A.told asker.new)
        → spec.IsHere (A.stand asker.old) page.entry here
        → types_spec.AreTypes (spec.element_of page.entry standing.entry) types
        → anchors_spec.topic_here (spec.stands_in page.entry standing.entry around)
        ≡ standing.entry.topic.now
        → OnOk result (spec.HasMore made.old made.new
        (anchors_spec.added_of here (spec.stands_in page.entry standing.entry around))) }
    ensures stand { A.stand asker.new ≡ A.stand asker.old }
    ensures founded { (nodes : List PlanNode) → (A.stand asker.old).setting.nodes ≡ nodes
        → StaysFounded (names_spec.names_with nodes (arc_value page.entry.context.now).page.doc
        (named_spec.link_names (spec.element_of page.entry standing.entry))) (A.told asker.old)
        (A.told asker.new) }
    ensures asks { AsksOnly documents_spec.nothing [] (A.told asker.old) (A.told asker.new) }
    ensures grows { Grows (A.told asker.old) (A.told asker.new) }
{
    if !types.has_types {
        return Ok(());
    }
    let keyed = defined_key(page, asker, standing, &mut made.faults)?;
    add_behind(page, asker, types, standing, keyed, made)
}

// Adds what an element adds behind the faults of its key.
#[tactic(auto, using(readers::proofs::Rules::walking))]
fn add_behind<'a, A: Asker>(
    page: PageRead<'a>,
    asker: &mut A,
    types: Types,
    standing: PlacedElement<'a>,
    keyed: Option<Keyed<'a>>,
    made: &mut AnchorsMade,
) -> Result<(), NoMemory>
    requires { spec.IsPlaced page standing }
    ensures known { (here : Here) (around : Option TopicAt) → Agrees here.world (A.told asker.new)
        → spec.IsHere (A.stand asker.old) page.entry here
        → types_spec.AreTypes (spec.element_of page.entry standing.entry) types
        → anchors_spec.topic_here (spec.stands_in page.entry standing.entry around)
        ≡ standing.entry.topic.now
        → spec.IsKeyed (anchors_spec.keyref_of (spec.element_of page.entry standing.entry))
        (anchors_spec.defined_key here (spec.element_of page.entry standing.entry)) keyed.entry
        → OnOk result (spec.HasMore made.old made.new
        (anchors_spec.added_by here (spec.stands_in page.entry standing.entry around))) }
    ensures stand { A.stand asker.new ≡ A.stand asker.old }
    ensures founded { StaysFounded (names_spec.names_of_target (spec.target_of keyed.entry)
        ++ (arc_value page.entry.context.now).page.doc
        ∷ named_spec.link_names (spec.element_of page.entry standing.entry)) (A.told asker.old)
        (A.told asker.new) }
    ensures asks { AsksOnly documents_spec.nothing [] (A.told asker.old) (A.told asker.new) }
    ensures grows { Grows (A.told asker.old) (A.told asker.new) }
{
    if types.is_image {
        return add_image(page, standing, target_of(keyed), made);
    }
    match keyed {
        Some(keyed) => add_keyed(page, asker, types, standing, &keyed, made),
        None => add_unkeyed(page, asker, types, standing, made),
    }
}

// Adds what an element adds that is no image and names no defined key.
#[tactic(auto, using(readers::proofs::Rules::walking))]
fn add_unkeyed<'a, A: Asker>(
    page: PageRead<'a>,
    asker: &mut A,
    types: Types,
    standing: PlacedElement<'a>,
    made: &mut AnchorsMade,
) -> Result<(), NoMemory>
    requires { spec.IsPlaced page standing }
    ensures known { (here : Here) (around : Option TopicAt) → Agrees here.world (A.told asker.new)
        → spec.IsHere (A.stand asker.old) page.entry here
        → types_spec.AreTypes (spec.element_of page.entry standing.entry) types
        → types.is_image ≡ false
        → anchors_spec.topic_here (spec.stands_in page.entry standing.entry around)
        ≡ standing.entry.topic.now
        → anchors_spec.defined_key here (spec.element_of page.entry standing.entry) ≡ None
        → OnOk result (spec.HasMore made.old made.new
        (anchors_spec.added_by here (spec.stands_in page.entry standing.entry around))) }
    ensures stand { A.stand asker.new ≡ A.stand asker.old }
    ensures founded { StaysFounded ((arc_value page.entry.context.now).page.doc
        ∷ named_spec.link_names (spec.element_of page.entry standing.entry)) (A.told asker.old)
        (A.told asker.new) }
    ensures asks { AsksOnly documents_spec.nothing [] (A.told asker.old) (A.told asker.new) }
    ensures grows { Grows (A.told asker.old) (A.told asker.new) }
{
    if !types.is_linked() {
        return Ok(());
    }
    add_written(page, asker, types, standing, made)
}

// What a key leads to that is defined; else nothing.
fn target_of(keyed: Option<Keyed<'_>>) -> Target
    ensures { result ≡ spec.target_of keyed.entry }
{
    match keyed {
        Some(keyed) => keyed.target,
        None => Target::Nothing,
    }
}
