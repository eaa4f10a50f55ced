//! The elements of a document that fragments name, as a table.

ghost use Rattle.std.specs.Prelude.{◌≡◌, ◌+◌, ◌<◌, ◌&&◌, ◌++◌, [], ◌∷◌, ℕ, List, None, Option, option_map, IfOk, OnOk};
ghost use Rattle.std.specs.BTreeMap as tree;
ghost use Rattle.std.specs.Ordering.{is_eq};
ghost use Rattle.dita_doc.specs.Siblings as siblings_spec;
ghost use Rattle.dita_doc.specs.Tree as tree_spec;
ghost use Rattle.dita_doc.specs.TextOrder.{text_cmp};
ghost use Rattle.map_spec.specs.Written.{Element};
ghost use Rattle.map_spec.specs.Places as places_spec;
ghost use Rattle.map_spec.specs.Places.{Standing};
ghost use Rattle.topic_find.specs.Table as table_spec;
ghost use Rattle.topic_find.specs.Walk as walk_spec;

use crate::elements::topic_inside;
use crate::meant::TopicAround;
use crate::node::{id_of, is_topic};
use dita_doc::{Doc, First, NoMemory, Node, Siblings, Text};
use std::alloc::Global;
use std::collections::BTreeMap;

// The ids of a topic and of an element whose nearest topic is of this id.
#[derive(PartialEq, Eq, PartialOrd, Ord, Drop)]
struct Fragment {
    topic: Text,
    element: Text,
}

/// The place of each element that a fragment can name in a document: the first in document order
/// that fits.
#[derive(Drop)]
pub struct TargetTable {
    first_topic: Option<u32>,
    topics: BTreeMap<Text, u32>,
    elements: BTreeMap<Fragment, u32>,
    // The elements whose nearest topic is the first one.
    in_first_topic: BTreeMap<Text, u32>,
}

impl TargetTable {
    ghost use Rattle.std.specs.Prelude.{◌≡◌, [], ℕ, List, IfOk, OnOk};
    ghost use Rattle.dita_doc.specs.Tree as tree_spec;
    ghost use Rattle.map_spec.specs.Written as written_spec;
    ghost use Rattle.map_spec.specs.Written.{Written};
    ghost use Rattle.topic_find.specs.Walk as walk_spec;
    ghost use Rattle.topic_find.specs.Table as table_spec;

    /// The table of a document, made in one walk. It takes memory for each topic and for each element
    /// with an id.
    pub fn of(alloc: Global, doc: &Doc) -> Result<TargetTable, NoMemory>
        ensures { (name : List ℕ) → IfOk result (λ table. table_spec.IsTableFor table
            (written_spec.written_in name (tree_spec.tree_of doc.now.nodes))) }
    {
        let mut table = TargetTable::empty(alloc);
        add_elements(alloc, &mut table, Siblings::of(doc), 0, None)?;
        Ok(table)
    }

    fn empty(alloc: Global) -> TargetTable
        ensures { table_spec.IsTableOf result [] }
    {
        TargetTable {
            first_topic: None,
            topics: BTreeMap::new(alloc),
            elements: BTreeMap::new(alloc),
            in_first_topic: BTreeMap::new(alloc),
        }
    }

    /// The place of the element that a fragment names, as `find_target` gives it.
    pub fn find(&self, alloc: Global, topic: &Text, element: &Text) -> Result<Option<u32>, NoMemory>
        ensures { (nodes : Written) → table_spec.IsTableFor self.now nodes
            → IfOk result (λ found.
            found ≡ walk_spec.target_place nodes topic.now element.now) }
    {
        let found = self.look_up(alloc, topic, element)?;
        Ok(found)
    }

    fn look_up(&self, alloc: Global, topic: &Text, element: &Text) -> Result<Option<u32>, NoMemory>
        ensures { IfOk result (λ found.
            found ≡ table_spec.place_of_fragment self.now topic.now element.now) }
    {
        if element.is_empty() {
            return Ok(self.find_topic(topic));
        }
        if topic.is_empty() {
            return Ok(self.in_first_topic.get(element).copied());
        }
        let fragment = Fragment::new(alloc, topic.as_str(), element.as_str())?;
        Ok(self.elements.get(&fragment).copied())
    }

    // The topic of this id, or the first topic if the text is empty.
    fn find_topic(&self, topic: &Text) -> Option<u32>
        ensures { result ≡ table_spec.topic_in self.now topic.now }
    {
        if topic.is_empty() {
            return self.first_topic;
        }
        self.topics.get(topic).copied()
    }

    fn add_topic(&mut self, alloc: Global, place: u32, id: &str) -> Result<(), NoMemory>
        ensures { OnOk result (table_spec.HasTopicMore self.old self.new place id.now) }
    {
        self.first_topic = self.first_topic.or(Some(place));
        add_first(&mut self.topics, Text::from_str(alloc, id)?, place)
    }

    // Adds an element that is no topic, by the nearest topic around it.
    fn add_element(
        &mut self,
        alloc: Global,
        place: u32,
        id: &str,
        topic: TopicAround<'_>,
    ) -> Result<(), NoMemory>
        ensures { OnOk result (table_spec.HasElementMore self.old self.new place id.now
            (walk_spec.topic_at topic.entry)) }
    {
        let is_first = self.is_first(topic.place);
        add_if(alloc, &mut self.in_first_topic, is_first, id, place)?;
        let fragment = Fragment::new(alloc, topic.id, id)?;
        add_first(&mut self.elements, fragment, place)
    }

    // Whether the first topic stands at this place.
    fn is_first(&self, place: u32) -> bool
        ensures { result ≡ table_spec.is_first_topic self.now.first_topic place }
    {
        match self.first_topic {
            Some(first) => first == place,
            None => false,
        }
    }
}

impl Fragment {
    ghost use Rattle.std.specs.Prelude.{◌≡◌, IfOk};
    ghost use Rattle.topic_find.specs.Table as table_spec;

    fn new(alloc: Global, topic: &str, element: &str) -> Result<Fragment, NoMemory>
        ensures { IfOk result (λ made. made ≡ table_spec.fragment_of topic.now element.now) }
    {
        Ok(Fragment {
            topic: Text::from_str(alloc, topic)?,
            element: Text::from_str(alloc, element)?,
        })
    }
}

// Adds the elements among these siblings and all that they hold, in document order. It counts the
// places on the way, and gives the place behind them.
fn add_elements<'a>(
    alloc: Global,
    table: &mut TargetTable,
    siblings: Siblings<'a>,
    place: u32,
    around: Option<TopicAround<'a>>,
) -> Result<u32, NoMemory>
    requires { place + tree_spec.size_of (siblings_spec.content siblings)
        < tree_spec.doc_node_limit }
    ensures past { IfOk result (λ past.
        past ≡ place + tree_spec.size_of (siblings_spec.content siblings.entry)) }
    ensures table { (name : List ℕ) (seen : List Standing) (before : Option Element)
        → table_spec.IsTableOf table.old seen
        → (places_spec.first_topic seen ≡ None
        → option_map walk_spec.topic_at around.entry ≡ None)
        → OnOk result (table_spec.IsTableOf table.new (seen ++ places_spec.standing_from place
        (option_map walk_spec.topic_at around.entry) before
        (walk_spec.content_in name siblings.entry))) }
{
    let mut left = siblings;
    let mut here = place;
    loop {
        match left.split_first() {
            First::End => return Ok(here),
            First::Chars { rest, .. } => {
                here += 1;
                left = rest;
            }
            First::Element {
                node,
                inside,
                rest,
                ..
            } => {
                let is_topic = is_topic(node);
                add_one(alloc, table, here, node, is_topic, around)?;
                let nearest = topic_inside(here, node, is_topic, around);
                here = add_elements(alloc, table, inside, here + 1, nearest)?;
                left = rest;
            }
        }
    }
}

// Adds the element at this place. No fragment names an empty id, so an element of one, and an
// element without an id, is left out.
fn add_one(
    alloc: Global,
    table: &mut TargetTable,
    place: u32,
    element: &Node,
    is_topic: bool,
    around: Option<TopicAround<'_>>,
) -> Result<(), NoMemory>
    ensures { (name : List ℕ) (seen : List Standing) (one : Standing)
        → is_topic ≡ places_spec.is_topic (walk_spec.element_of name element.now)
        → table_spec.IsTableOf table.old seen
        → table_spec.IsNext seen one place (walk_spec.element_of name element.now)
        (option_map walk_spec.topic_at around.entry)
        → OnOk result (table_spec.IsTableOf table.new (seen ++ one ∷ [])) }
{
    let id = id_of(element);
    if is_topic {
        return table.add_topic(alloc, place, id);
    }
    let Some(topic) = around else {
        return Ok(());
    };
    if id.is_empty() {
        return Ok(());
    }
    table.add_element(alloc, place, id, topic)
}

// Adds a place for an id if it is to be added, unless the id has one.
fn add_if(
    alloc: Global,
    places: &mut BTreeMap<Text, u32>,
    is: bool,
    id: &str,
    place: u32,
) -> Result<(), NoMemory>
    ensures { OnOk result ((other : List ℕ) → tree.get text_cmp places.new other
        ≡ table_spec.or_at (tree.get text_cmp places.old other)
        (is && is_eq (text_cmp id.now other)) place) }
{
    if !is {
        return Ok(());
    }
    add_first(places, Text::from_str(alloc, id)?, place)
}

// Adds a place, unless the key has one: the first in document order stays.
fn add_first<K: Ord + Drop>(
    places: &mut BTreeMap<K, u32>,
    key: K,
    place: u32,
) -> Result<(), NoMemory>
    ensures { OnOk result ((other : K) → tree.get K.cmp places.new other
        ≡ table_spec.or_at (tree.get K.cmp places.old other) (is_eq (K.cmp key other)) place) }
{
    places.entry(key)?.or_insert(place);
    Ok(())
}
