//! The branches of all nodes.

ghost use Rattle.std.specs.Prelude.{◌≡◌, ◌<◌, ◌≤◌, [], ◌∷◌, ℕ, Some, IfOk, OnOk, length, map, slice_get, true};
ghost use Rattle.branch_copies.specs.Appended as appended_spec;
ghost use Rattle.branch_copies.specs.Ditavalrefs as ditavalrefs_spec;
ghost use Rattle.branch_copies.specs.Ditavals as ditavals_spec;
ghost use Rattle.branch_copies.specs.Read as read_spec;
ghost use Rattle.branch_copies.specs.Reading as reading_spec;
ghost use Rattle.branch_copies.specs.Stands as stands_spec;
ghost use Rattle.map_spec.specs.Branches as branches_spec;
ghost use Rattle.map_spec.specs.Cascade as cascade_spec;
ghost use Rattle.map_spec.specs.MapTree as map_tree_spec;
ghost use Rattle.map_spec.specs.MapTree.{Head, MapTree};
ghost use Rattle.reader_spec.specs.World.{World};
ghost use Rattle.readers.specs.Founded.{Grows, StaysFounded};
ghost use Rattle.readers.specs.Told.{Agrees};

use crate::branch::{Branch, read_branch};
use crate::ditavals::Ditavals;
use dita_doc::{Fault, List, NoMemory, PlanKind, PlanNode};
use plan_nodes::NodeElements;
use readers::Reader;
use std::alloc::Global;

/// Which of the branches a node has: so many from the first on.
#[derive(Clone, Copy)]
pub(crate) struct Span {
    pub first: usize,
    pub count: usize,
}

/// The branches of all nodes, each read once, which of them each node has, and what is wrong with
/// them.
#[derive(Drop)]
pub(crate) struct Branches {
    pub branches: Vec<Branch>,
    pub spans: Vec<Span>,
    pub faults: List<Fault>,
}

impl Branches {
    fn new(alloc: Global) -> Branches
        ensures branches { result.branches.items ≡ [] }
        ensures spans { result.spans.items ≡ [] }
        ensures faults { result.faults ≡ [] }
    {
        Branches {
            branches: Vec::new(alloc),
            spans: Vec::new(alloc),
            faults: List::new(alloc),
        }
    }

    // Reads the ditavalrefs among the children of the node at this place.
    #[tactic(auto, using(crate::proofs::DitavalrefLaws::ditavals))]
    fn read_at<R: Reader>(
        &mut self,
        alloc: Global,
        reader: &mut R,
        ditavals: &mut Ditavals,
        nodes: &[PlanNode],
        homes: &NodeElements,
        at: usize,
    ) -> Result<(), NoMemory>
        requires given { ditavalrefs_spec.AreGiven (R.told reader.old) nodes.now homes.now }
        ensures known { (world : World) (parent : ℕ) (head : Head) (below more : MapTree)
            → Agrees world (R.told reader.new)
            → homes.now ≡ map (cascade_spec.whole_at world) nodes.now
            → stands_spec.StandsAt nodes.now parent at (map_tree_spec.MapNode head below more)
            → ditavals_spec.AreKnown world ditavals.old.read.items ditavals.old.known.entries
            → OnOk result (appended_spec.AreAppended world nodes.now ditavals.old.read.items
            ditavals.new.read.items ditavals.new.known.entries self.old self.new
            (appended_spec.branches_for world (branches_spec.ditavalrefs below))) }
        ensures stand { R.stand reader.new ≡ R.stand reader.old }
        ensures grows { Grows (R.told reader.old) (R.told reader.new) }
        ensures founded { StaysFounded [] (R.told reader.old) (R.told reader.new) }
        ensures asks { ditavalrefs_spec.AsksDitavals homes.now nodes.now [] (R.told reader.old)
            (R.told reader.new) }
    {
        let end = end_of(nodes, at);
        let mut child = at.saturating_add(1);
        while child < end {
            self.read_child(alloc, reader, ditavals, nodes, homes, child)?;
            child = next_sibling(nodes, child);
        }
        Ok(())
    }

    // Reads the node at this place, if it is a ditavalref.
    #[tactic(auto, using(crate::proofs::DitavalrefLaws::ditavals))]
    fn read_child<R: Reader>(
        &mut self,
        alloc: Global,
        reader: &mut R,
        ditavals: &mut Ditavals,
        nodes: &[PlanNode],
        homes: &NodeElements,
        child: usize,
    ) -> Result<(), NoMemory>
        requires given { ditavalrefs_spec.AreGiven (R.told reader.old) nodes.now homes.now }
        ensures known { (world : World) (parent : ℕ) (head : Head) (below more : MapTree)
            → Agrees world (R.told reader.new)
            → homes.now ≡ map (cascade_spec.whole_at world) nodes.now
            → stands_spec.StandsAt nodes.now parent child (map_tree_spec.MapNode head below more)
            → ditavals_spec.AreKnown world ditavals.old.read.items ditavals.old.known.entries
            → OnOk result (appended_spec.AreAppended world nodes.now ditavals.old.read.items
            ditavals.new.read.items ditavals.new.known.entries self.old self.new
            (appended_spec.branches_for world (appended_spec.if_ditavalref head))) }
        ensures stand { R.stand reader.new ≡ R.stand reader.old }
        ensures grows { Grows (R.told reader.old) (R.told reader.new) }
        ensures founded { StaysFounded [] (R.told reader.old) (R.told reader.new) }
        ensures asks { ditavalrefs_spec.AsksDitavals homes.now nodes.now [] (R.told reader.old)
            (R.told reader.new) }
    {
        if !is_ditavalref_at(nodes, child) {
            return Ok(());
        }
        self.read(alloc, reader, ditavals, nodes, homes, child)
    }

    // Reads the branches of a node, unless it stands below a ditavalref, before the place `next`.
    // Gives the place from which on nodes are read again.
    #[tactic(auto, using(crate::proofs::DitavalrefLaws::ditavals))]
    fn read_from<R: Reader>(
        &mut self,
        alloc: Global,
        reader: &mut R,
        ditavals: &mut Ditavals,
        nodes: &[PlanNode],
        homes: &NodeElements,
        at: usize,
        next: usize,
    ) -> Result<usize, NoMemory>
        requires given { ditavalrefs_spec.AreGiven (R.told reader.old) nodes.now homes.now }
        ensures known { (world : World) (parent : ℕ) (head : Head) (below more : MapTree)
            → Agrees world (R.told reader.new)
            → homes.now ≡ map (cascade_spec.whole_at world) nodes.now
            → stands_spec.StandsAt nodes.now parent at (map_tree_spec.MapNode head below more)
            → ditavals_spec.AreKnown world ditavals.old.read.items ditavals.old.known.entries
            → next ≤ at → IfOk result (λ end. (end ≡ reading_spec.next_behind at head below)
            × appended_spec.AreAppended world nodes.now ditavals.old.read.items
            ditavals.new.read.items ditavals.new.known.entries self.old self.new
            (branches_spec.branches_of world head below)) }
        ensures passed { (world : World)
            → ditavals_spec.AreKnown world ditavals.old.read.items ditavals.old.known.entries
            → at < next → IfOk result (λ end. (end ≡ next)
            × appended_spec.AreAppended world nodes.now ditavals.old.read.items
            ditavals.new.read.items ditavals.new.known.entries self.old self.new []) }
        ensures stand { R.stand reader.new ≡ R.stand reader.old }
        ensures grows { Grows (R.told reader.old) (R.told reader.new) }
        ensures founded { StaysFounded [] (R.told reader.old) (R.told reader.new) }
        ensures asks { ditavalrefs_spec.AsksDitavals homes.now nodes.now [] (R.told reader.old)
            (R.told reader.new) }
    {
        if at < next {
            return Ok(next);
        }
        if is_ditavalref_at(nodes, at) {
            return Ok(end_of(nodes, at));
        }
        if !has_branches_at(nodes, at) {
            return Ok(at);
        }
        self.read_at(alloc, reader, ditavals, nodes, homes, at)?;
        Ok(at)
    }

    // Reads the ditavalref at this place, if its element is there.
    #[tactic(auto, using(crate::proofs::DitavalrefLaws::ditavals))]
    fn read<R: Reader>(
        &mut self,
        alloc: Global,
        reader: &mut R,
        ditavals: &mut Ditavals,
        nodes: &[PlanNode],
        homes: &NodeElements,
        place: usize,
    ) -> Result<(), NoMemory>
        requires given { ditavalrefs_spec.AreGiven (R.told reader.old) nodes.now homes.now }
        ensures known { (world : World) (head : Head) (parent end : ℕ)
            → Agrees world (R.told reader.new)
            → homes.now ≡ map (cascade_spec.whole_at world) nodes.now
            → slice_get nodes.now place ≡ Some (map_tree_spec.node_of head parent end)
            → ditavals_spec.AreKnown world ditavals.old.read.items ditavals.old.known.entries
            → OnOk result (appended_spec.AreAppended world nodes.now ditavals.old.read.items
            ditavals.new.read.items ditavals.new.known.entries self.old self.new
            (appended_spec.branches_for world (head ∷ []))) }
        ensures stand { R.stand reader.new ≡ R.stand reader.old }
        ensures grows { Grows (R.told reader.old) (R.told reader.new) }
        ensures founded { StaysFounded [] (R.told reader.old) (R.told reader.new) }
        ensures asks { stands_spec.is_ditavalref_at nodes.now place ≡ true
            → ditavalrefs_spec.AsksDitavals homes.now nodes.now [] (R.told reader.old)
            (R.told reader.new) }
    {
        let Some(node) = nodes.get(place) else {
            return Ok(());
        };
        let Some((element, inside)) = homes.whole(place) else {
            return Ok(());
        };
        let faults = &mut self.faults;
        let name = &node.doc;
        let branch = read_branch(
            alloc, reader, ditavals, faults, place, name, element, inside,
        )?;
        self.branches.push(branch)?;
        Ok(())
    }
}

/// Reads the branches of all nodes, without those below a ditavalref.
#[tactic(auto, using(crate::proofs::DitavalrefLaws::ditavals))]
pub(crate) fn read_branches<R: Reader>(
    alloc: Global,
    reader: &mut R,
    ditavals: &mut Ditavals,
    nodes: &[PlanNode],
    homes: &NodeElements,
) -> Result<Branches, NoMemory>
    requires given { ditavalrefs_spec.AreGiven (R.told reader.old) nodes.now homes.now }
    ensures known { (world : World) (tree : MapTree) → Agrees world (R.told reader.new)
        → homes.now ≡ map (cascade_spec.whole_at world) nodes.now
        → stands_spec.StandsAt nodes.now 0 0 tree → length nodes.now ≡ map_tree_spec.count tree
        → ditavals_spec.AreKnown world ditavals.old.read.items ditavals.old.known.entries
        → IfOk result (λ read. read_spec.AllRead world ditavals.new.read.items nodes.now tree read) }
    ensures stand { R.stand reader.new ≡ R.stand reader.old }
    ensures grows { Grows (R.told reader.old) (R.told reader.new) }
    ensures founded { StaysFounded [] (R.told reader.old) (R.told reader.new) }
    ensures asks { ditavalrefs_spec.AsksDitavals homes.now nodes.now [] (R.told reader.old)
        (R.told reader.new) }
{
    let mut read = Branches::new(alloc);
    let mut next: usize = 0;
    for at in 0..nodes.len() {
        let first = read.branches.len();
        next = read.read_from(alloc, reader, ditavals, nodes, homes, at, next)?;
        let count = read.branches.len().saturating_sub(first);
        read.spans.push(Span { first, count })?;
    }
    Ok(read)
}

// Whether the node at a place has branches; a ditavalref on any other is passed over.
fn has_branches_at(nodes: &[PlanNode], at: usize) -> bool
    ensures { result ≡ appended_spec.has_branches_at nodes.now at }
{
    match nodes.get(at) {
        Some(node) => matches!(
            node.kind,
            PlanKind::Map | PlanKind::Reference | PlanKind::Included
        ),
        None => false,
    }
}

/// The place just past the subtree of a node, within the nodes.
pub(crate) fn end_of(nodes: &[PlanNode], at: usize) -> usize
    ensures within { result ≤ length nodes.now }
    ensures is { result ≡ stands_spec.end_at nodes.now at }
{
    match nodes.get(at) {
        Some(node) => (node.end as usize).min(nodes.len()),
        None => 0,
    }
}

/// Whether the node at a place is a map.
pub(crate) fn is_map_at(nodes: &[PlanNode], at: usize) -> bool
    ensures { result ≡ stands_spec.is_map_at nodes.now at }
{
    match nodes.get(at) {
        Some(node) => matches!(node.kind, PlanKind::Map),
        None => false,
    }
}

/// Whether the node at a place is a ditavalref.
pub(crate) fn is_ditavalref_at(nodes: &[PlanNode], at: usize) -> bool
    ensures { result ≡ stands_spec.is_ditavalref_at nodes.now at }
{
    match nodes.get(at) {
        Some(node) => matches!(node.kind, PlanKind::DitavalRef),
        None => false,
    }
}

/// The place behind a node's subtree, where its next sibling stands if it has one.
pub(crate) fn next_sibling(nodes: &[PlanNode], at: usize) -> usize
    requires { at < length nodes.now }
    ensures after { at < result }
    ensures is { result ≡ stands_spec.next_at nodes.now at }
{
    end_of(nodes, at).max(at + 1)
}
