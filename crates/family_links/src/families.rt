//! Links from the pages of families to all others of the family.

ghost use Rattle.std.specs.Prelude.{◌≡◌, ◌++◌, [], ◌∷◌, ℕ, IfOk, OnOk};
ghost use Rattle.dita_doc.specs.declared.plan.Plan as plan_spec;
ghost use Rattle.family_links.specs.Families as spec;
ghost use Rattle.family_links.specs.Lists as lists_spec;
ghost use Rattle.link_groups.specs.LinkLists as link_lists_spec;
ghost use Rattle.reader_spec.specs.World.{World};

use crate::lists::put_place;
use dita_doc::{LinkKind, NoMemory};
use link_groups::{LinkList, LinkNode};
use std::alloc::Global;
use std::collections::{BTreeMap, BTreeSet};

// The families, and for each page in which of them its nodes may link.
#[derive(Drop)]
pub(crate) struct Families {
    // For each family the first node of each page that may be linked to.
    targets: Vec<Vec<LinkNode>>,
    of_pages: BTreeMap<u32, Vec<usize>>,
}

impl Families {
    // There are no families.
    pub(crate) fn new(alloc: Global) -> Families
        ensures { spec.AreFamilies [] result }
    {
        Families {
            targets: Vec::new(alloc),
            of_pages: BTreeMap::new(alloc),
        }
    }

    // Adds a family.
    pub(crate) fn add(&mut self, alloc: Global, nodes: &[LinkNode]) -> Result<(), NoMemory>
        ensures { (groups : lists_spec.Groups) → spec.AreFamilies groups self.old
            → OnOk result (spec.AreFamilies (groups ++ nodes.now ∷ []) self.new) }
    {
        let place = self.targets.len();
        put_pages(alloc, &mut self.of_pages, nodes, place)?;
        self.targets.push(first_targets(alloc, nodes)?)?;
        Ok(())
    }

    // Appends the links of a page.
    pub(crate) fn append(
        &self,
        alloc: Global,
        page: u32,
        links: &mut LinkList,
    ) -> Result<(), NoMemory>
        ensures { (world : World) (plan : plan_spec.Plan) (all : link_lists_spec.Links)
            → spec.AreFamiliesOf world plan self.now
            → link_lists_spec.HoldsLinks page all links.old
            → OnOk result (link_lists_spec.HoldsLinks page
            (all ++ spec.links_to_siblings world plan page) links.new) }
    {
        links.append(LinkKind::Sibling, self.targets_from(alloc, page)?)
    }

    // The nodes that a page may link to.
    fn targets_from(&self, alloc: Global, page: u32) -> Result<Vec<LinkNode>, NoMemory>
        ensures { IfOk result (λ nodes. nodes.items ≡ spec.targets_from page self.now) }
    {
        let mut nodes = Vec::new(alloc);
        let Some(places) = self.of_pages.get(&page) else {
            return Ok(nodes);
        };
        for place in places {
            self.append_targets(*place, &mut nodes)?;
        }
        Ok(nodes)
    }

    // Appends the nodes of a family that may be linked to.
    fn append_targets(&self, place: usize, nodes: &mut Vec<LinkNode>) -> Result<(), NoMemory>
        ensures { OnOk result (nodes.new.items
            ≡ nodes.old.items ++ spec.targets_at self.now.targets.items place) }
    {
        match self.targets.get(place) {
            Some(targets) => Ok(nodes.extend_from_slice(targets)?),
            None => Ok(()),
        }
    }
}

// Puts a family behind those of each page that may link in it.
fn put_pages(
    alloc: Global,
    of_pages: &mut BTreeMap<u32, Vec<usize>>,
    nodes: &[LinkNode],
    place: usize,
) -> Result<(), NoMemory>
    ensures { OnOk result ((page : ℕ) → lists_spec.listed page of_pages.new.entries
        ≡ lists_spec.listed page of_pages.old.entries
        ++ spec.if_linking page nodes.now place) }
{
    let mut linking = BTreeSet::new(alloc);
    for node in nodes {
        put_page(alloc, &mut linking, of_pages, node, place)?;
    }
    Ok(())
}

// Puts a family behind those of a node's page, if the page may link, and none of the nodes before
// put it there.
fn put_page(
    alloc: Global,
    linking: &mut BTreeSet<u32>,
    of_pages: &mut BTreeMap<u32, Vec<usize>>,
    node: &LinkNode,
    place: usize,
) -> Result<(), NoMemory>
    ensures { (nodes : lists_spec.Nodes) → spec.ArePages nodes linking.old
        → OnOk result (spec.IsPagePut nodes node.now place linking.new of_pages.old.entries
        of_pages.new.entries) }
{
    if !node.is_source {
        return Ok(());
    }
    if !linking.insert(node.page)? {
        return Ok(());
    }
    put_place(alloc, of_pages, node.page, place)
}

// The first node of each page that may be linked to.
fn first_targets(alloc: Global, nodes: &[LinkNode]) -> Result<Vec<LinkNode>, NoMemory>
    ensures { IfOk result (λ targets. targets.items ≡ spec.first_targets nodes.now) }
{
    let mut targets = Vec::new(alloc);
    let mut linked = BTreeSet::new(alloc);
    for node in nodes {
        put_target(&mut linked, &mut targets, node)?;
    }
    Ok(targets)
}

// Puts a node behind the others, if it may be linked to, and none of them has its page.
fn put_target(
    linked: &mut BTreeSet<u32>,
    targets: &mut Vec<LinkNode>,
    node: &LinkNode,
) -> Result<(), NoMemory>
    ensures { spec.AreFound targets.old.items linked.old
        → OnOk result (spec.IsTargetPut targets.old.items node.now targets.new.items linked.new) }
{
    if !node.is_target {
        return Ok(());
    }
    if !linked.insert(node.page)? {
        return Ok(());
    }
    targets.push(*node)?;
    Ok(())
}
