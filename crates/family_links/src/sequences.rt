//! Links from the pages of sequences to those beside them.

ghost use Rattle.std.specs.Prelude.{◌≡◌, ◌++◌, [], ◌∷◌, ℕ, OnOk};
ghost use Rattle.family_links.specs.Lists as lists_spec;
ghost use Rattle.family_links.specs.Sequenced as spec;
ghost use Rattle.link_groups.specs.LinkLists as link_lists_spec;
ghost use Rattle.dita_doc.specs.declared.plan.Plan as plan_spec;
ghost use Rattle.reader_spec.specs.World.{World};

use crate::lists::{copied, put};
use dita_doc::{LinkKind, NoMemory};
use link_groups::{LinkList, LinkNode};
use std::alloc::Global;
use std::collections::BTreeMap;

// For each page the nodes right before, and right behind, those of its nodes that link to them.
#[derive(Drop)]
pub(crate) struct Sequences {
    previous: BTreeMap<u32, Vec<LinkNode>>,
    next: BTreeMap<u32, Vec<LinkNode>>,
}

impl Sequences {
    // There are no links.
    pub(crate) fn new(alloc: Global) -> Sequences
        ensures { spec.AreSequences [] result }
    {
        Sequences {
            previous: BTreeMap::new(alloc),
            next: BTreeMap::new(alloc),
        }
    }

    // Adds the links of a sequence. No node links beyond the one beside it.
    pub(crate) fn add(&mut self, alloc: Global, nodes: &[LinkNode]) -> Result<(), NoMemory>
        ensures { (groups : lists_spec.Groups) → spec.AreSequences groups self.old
            → OnOk result (spec.AreSequences (groups ++ nodes.now ∷ []) self.new) }
    {
        for at in 1..nodes.len() {
            let one = &nodes[at - 1];
            let other = &nodes[at];
            link(alloc, &mut self.next, one, other)?;
            link(alloc, &mut self.previous, other, one)?;
        }
        Ok(())
    }

    // Appends the links of a page: those back, then those on.
    pub(crate) fn append(
        &self,
        alloc: Global,
        page: u32,
        links: &mut LinkList,
    ) -> Result<(), NoMemory>
        ensures { (world : World) (plan : plan_spec.Plan) (all : link_lists_spec.Links)
            → spec.AreSequencesOf world plan self.now
            → link_lists_spec.HoldsLinks page all links.old
            → OnOk result (link_lists_spec.HoldsLinks page
            (all ++ spec.links_beside world plan page) links.new) }
    {
        links.append(LinkKind::Previous, copied(alloc, &self.previous, page)?)?;
        links.append(LinkKind::Next, copied(alloc, &self.next, page)?)
    }
}

// Puts the other node at the page of the one, if a link may go from the one to the other.
fn link(
    alloc: Global,
    lists: &mut BTreeMap<u32, Vec<LinkNode>>,
    one: &LinkNode,
    other: &LinkNode,
) -> Result<(), NoMemory>
    ensures { OnOk result ((page : ℕ) → lists_spec.listed page lists.new.entries
        ≡ lists_spec.listed page lists.old.entries ++ spec.linked_from page one.now other.now) }
{
    if one.may_link(other) {
        put(alloc, lists, one.page, *other)?;
    }
    Ok(())
}
