//! Where a node of a document stands.

ghost use Rattle.std.specs.Prelude.{◌≡◌, ◌<◌, [], length, IfOk, if◌then◌else◌};
ghost use Rattle.doc_elements.specs.Walk as walk_spec;
ghost use Rattle.map_spec.specs.Titles as titles_spec;
ghost use Rattle.map_spec.specs.Places as places_spec;
ghost use Rattle.conref_targets.specs.Around as around_spec;

use dita_doc::{Doc, List, NoMemory, Node, Text};
use ditaval_rules::own_names;
use std::alloc::Global;

/// Where a node stands: the id of the nearest topic around it, the names of conditional attributes
/// that are declared around it, and how many elements are around it.
#[derive(Drop)]
pub struct NodeStanding<'a> {
    pub topic: &'a str,
    pub declared: List<Text>,
    pub depth: usize,
}

impl<'a> NodeStanding<'a> {
    ghost use Rattle.std.specs.Prelude.{◌≡◌, ◌<◌, IfOk};
    ghost use Rattle.readers.specs.Named.{named_tree};
    ghost use Rattle.conref_targets.specs.Around as around_spec;

    /// Where the node at this place stands, by a walk over the nodes before it.
    pub fn at(alloc: Global, doc: &'a Doc, place: u32) -> Result<NodeStanding<'a>, NoMemory>
        ensures { IfOk result (λ standing. around_spec.standing_shown standing
            ≡ around_spec.around_at around_spec.nothing_around (named_tree doc.now) place) }
    {
        let nodes = doc.nodes.as_slice();
        let count = nodes.len().min(place as usize);
        behind(alloc, &nodes[..count], place)
    }

    // The same once a node was passed that stands in front of the place.
    fn passed(self, alloc: Global, node: &'a Node, place: u32) -> Result<NodeStanding<'a>, NoMemory>
        requires { self.depth < 4294967296 }
        ensures { IfOk result (λ standing. around_spec.standing_shown standing
            ≡ around_spec.entered place node.now (around_spec.standing_shown self.entry)) }
    {
        if node.end <= place {
            return Ok(self);
        }
        let own = own_names(alloc, node)?;
        let NodeStanding {
            topic,
            declared,
            depth,
        } = self;
        Ok(NodeStanding {
            topic: topic_inside(node, topic),
            declared: own.unwrap_or(declared),
            depth: depth + 1,
        })
    }
}

// Where the node at this place stands, behind these nodes.
fn behind<'a>(alloc: Global, nodes: &'a [Node], place: u32) -> Result<NodeStanding<'a>, NoMemory>
    requires { length nodes.now < 4294967296 }
    ensures { IfOk result (λ standing. around_spec.standing_shown standing
        ≡ around_spec.entered_all place nodes.now around_spec.nothing_around) }
{
    let mut standing = NodeStanding {
        topic: "",
        declared: List::new(alloc),
        depth: 0,
    };
    for node in nodes {
        standing = standing.passed(alloc, node, place)?;
    }
    Ok(standing)
}

// The id of the nearest topic for what an element holds.
fn topic_inside<'a>(node: &'a Node, topic: &'a str) -> &'a str
    ensures { result.now ≡ (if places_spec.is_topic (walk_spec.element_of [] node.now)
        then titles_spec.id_of (walk_spec.element_of [] node.now) else topic.now) }
{
    if !node.has_type("topic/topic") {
        return topic;
    }
    node.value_of("id").unwrap_or("")
}
