//! The links that collections give.

ghost use Rattle.std.specs.Prelude.{◌≡◌, ◌++◌, [], IfOk, OnOk, ℕ, map};
ghost use Rattle.dita_doc.specs.declared.plan.Plan as plan_spec;
ghost use Rattle.family_links.specs.Collected as spec;
ghost use Rattle.link_groups.specs.Asked as asked_spec;
ghost use Rattle.link_groups.specs.LinkLists as link_lists_spec;
ghost use Rattle.link_groups.specs.LinkNodes as link_nodes_spec;
ghost use Rattle.map_spec.specs.Cascade as cascade_spec;
ghost use Rattle.plan_nodes.specs.Carried.{CarryValues};
ghost use Rattle.plan_nodes.specs.Preorder as preorder_spec;
ghost use Rattle.reader_spec.specs.World.{World};
ghost use Rattle.readers.specs.Documents as documents_spec;
ghost use Rattle.readers.specs.Documents.{AsksOnly};
ghost use Rattle.readers.specs.Founded.{Grows, StaysFounded};
ghost use Rattle.readers.specs.Only.{TellsOnly};
ghost use Rattle.readers.specs.Told.{Agrees};

use crate::families::Families;
use crate::groups::{GroupKind, children_of, kinds_of};
use crate::lists::copied;
use crate::sequences::Sequences;
use dita_doc::{NoMemory, Plan};
use link_groups::{LinkList, LinkNode, LinkNodes};
use plan_nodes::{NodeElements, place_of};
use readers::Asker;
use std::alloc::Global;
use std::collections::BTreeMap;

/// The sequences and families of a plan, by the pages that link in them.
#[derive(Drop)]
pub struct Collections {
    sequences: Sequences,
    families: Families,
}

impl Collections {
    /// Finds the collections of a plan outside relationship tables.
    #[tactic(auto, using(readers::proofs::Rules::walking))]
    pub fn of<A: Asker>(
        alloc: Global,
        asker: &mut A,
        plan: &Plan,
        homes: &NodeElements,
        link_nodes: &mut LinkNodes,
    ) -> Result<Collections, NoMemory>
        ensures known { (world : World) → Agrees world (A.told asker.new)
            → spec.IsReady world plan.now (A.stand asker.old).setting.pages
            → homes.now ≡ map (cascade_spec.whole_at world) plan.now.nodes
            → link_nodes_spec.AreLinkNodes world plan.now link_nodes.old
            → IfOk result (λ made. spec.AreCollected world plan.now made link_nodes.new) }
        ensures stand { A.stand asker.new ≡ A.stand asker.old }
        ensures founded { StaysFounded (link_nodes_spec.plan_names plan.now) (A.told asker.old)
            (A.told asker.new) }
        ensures asks { AsksOnly documents_spec.nothing [] (A.told asker.old) (A.told asker.new) }
        ensures only { OnOk result (TellsOnly (asked_spec.is_page_of_nodes plan.now)
            (A.told asker.old) (A.told asker.new)) }
        ensures grows { Grows (A.told asker.old) (A.told asker.new) }
    {
        let kinds = kinds_of(alloc, plan, homes)?;
        let children = children_of(alloc, asker, plan, &kinds, link_nodes)?;
        Ok(collected(alloc, &kinds, &children)?)
    }

    // There are no collections.
    fn new(alloc: Global) -> Collections
        ensures { spec.IsMade [] [] result }
    {
        Collections {
            sequences: Sequences::new(alloc),
            families: Families::new(alloc),
        }
    }

    // Adds the children of the node at this place, if they are a collection.
    fn add(
        &mut self,
        alloc: Global,
        at: usize,
        kind: Option<GroupKind>,
        children: &BTreeMap<u32, Vec<LinkNode>>,
    ) -> Result<(), NoMemory>
        ensures { OnOk result (spec.IsMadeMore kind children.now.entries at self.old self.new) }
    {
        let Some(kind) = kind else {
            return Ok(());
        };
        let nodes = copied(alloc, children, place_of(at)?)?;
        match kind {
            GroupKind::Sequence => self.sequences.add(alloc, &nodes),
            GroupKind::Family => self.families.add(alloc, &nodes),
        }
    }

    /// Appends the links of a page: to those before it, to those behind it, and to its siblings.
    pub fn append(&self, alloc: Global, page: u32, links: &mut LinkList) -> Result<(), NoMemory>
        ensures { (world : World) (plan : plan_spec.Plan) (all : link_lists_spec.Links)
            → spec.IsCollectionsOf world plan self.now
            → link_lists_spec.HoldsLinks page all links.old
            → OnOk result (link_lists_spec.HoldsLinks page
            (all ++ spec.links_by_collections world plan page) links.new) }
    {
        self.sequences.append(alloc, page, links)?;
        self.families.append(alloc, page, links)
    }
}

// The collections, each the children of a node of its kind.
fn collected(
    alloc: Global,
    kinds: &[Option<GroupKind>],
    children: &BTreeMap<u32, Vec<LinkNode>>,
) -> Result<Collections, NoMemory>
    ensures { IfOk result (spec.IsMade (spec.sequences_of kinds.now children.now.entries)
        (spec.families_of kinds.now children.now.entries)) }
{
    let mut made = Collections::new(alloc);
    for (at, kind) in kinds.iter().enumerate() {
        made.add(alloc, at, *kind, children)?;
    }
    Ok(made)
}
