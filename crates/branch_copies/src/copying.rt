//! The work list of the copying.

ghost use Rattle.std.specs.Prelude.{◌≡◌, ◌+◌, ◌<◌, ◌≤◌, ◌++◌, List, [], ◌∷◌, true, length, map, IfErr, IfOk, OnOk};
ghost use Rattle.std.specs.List.{list_any};
ghost use Rattle.branch_copies.specs.Chained as chained_spec;
ghost use Rattle.branch_copies.specs.Copied as copied_spec;
ghost use Rattle.branch_copies.specs.Going as spec;
ghost use Rattle.branch_copies.specs.Leaves as leaves_spec;
ghost use Rattle.branch_copies.specs.Left as left_spec;
ghost use Rattle.branch_copies.specs.Marks as marks_spec;
ghost use Rattle.branch_copies.specs.Originals as source_spec;
ghost use Rattle.branch_copies.specs.declared.work.Work.TheVariants as works;
ghost use Rattle.dita_doc.specs.declared.plan.PlanNode as plan_node;
ghost use Rattle.map_spec.specs.Branches as branches_spec;
ghost use Rattle.map_spec.specs.MapTree as map_tree_spec;
ghost use Rattle.map_spec.specs.MapTree.{Head, MapTree};
ghost use Rattle.plan_nodes.specs.Preorder as preorder_spec;
ghost use Rattle.reader_spec.specs.World.{World};

use crate::chains::Chains;
use crate::node::{Original, Originals, Seen};
use crate::work::{Copies, Walk, Work};
use dita_doc::{List, NoMemory, PlanKind, PlanNode, PlanStop, Stop};
use plan_nodes::{place_of, set_ends};
use std::alloc::Global;

// How many nodes a plan has at most.
const NODE_LIMIT: usize = 65_536;

/// The nodes that were made, and what is left to copy, of which the last is the next.
#[derive(Drop)]
pub(crate) struct Copying {
    made: Vec<PlanNode>,
    chains: Chains,
    left: Vec<Work>,
}

impl Copying {
    /// The copying of so many nodes, of which none is made.
    pub fn new(alloc: Global, count: usize) -> Result<Copying, NoMemory>
        ensures made { IfOk result (λ copying. copying.made.items ≡ []) }
        ensures chains { IfOk result (λ copying. spec.chains_of copying ≡ [] ∷ []) }
        ensures left { IfOk result (λ copying. copying.left.items ≡ works.Walk (record {
          at = 0;
          end = count;
          parent = 0;
          chain = 0;
        }) ∷ []) }
    {
        let mut left = Vec::new(alloc);
        left.push(Work::Walk(Walk {
            at: 0,
            end: count,
            parent: 0,
            chain: 0,
        }))?;
        Ok(Copying {
            made: Vec::new(alloc),
            chains: Chains::new(alloc)?,
            left,
        })
    }

    /// Copies all that is left.
    ///
    /// # Errors
    ///
    /// `TooManyNodes` if there are more than 65,536 nodes, or out of memory.
    pub fn run(&mut self, alloc: Global, source: &Originals<'_>) -> Result<(), Stop<PlanStop>>
        ensures left { OnOk result (self.new.left.items ≡ []) }
        ensures goes { (world : World) (defined : List branches_spec.Branch)
            (all : List plan_node.PlanNode) → source_spec.IsSource world source.now defined
            → spec.Going world source.now defined self.old self.old.made.items all
            → spec.Goes world source.now defined result self.new all }
        ensures stop { IfErr result copied_spec.IsTooMany }
    {
        while let Some(work) = self.left.pop() {
            match self.go_on(alloc, source, work) {
                Ok(()) => {}
                Err(stop) => return Err(stop),
            }
        }
        Ok(())
    }

    // Does the next work, or a part of it.
    fn go_on(
        &mut self,
        alloc: Global,
        source: &Originals<'_>,
        work: Work,
    ) -> Result<(), Stop<PlanStop>>
        ensures less { OnOk result (left_spec.left self.new.made.items self.new.left.items
            < left_spec.left self.old.made.items self.old.left.items + left_spec.steps work) }
        ensures goes { (world : World) (defined : List branches_spec.Branch) (tree : MapTree)
            (all : List plan_node.PlanNode) → source_spec.IsSource world source.now defined
            → leaves_spec.WorkMakes world source.now defined (spec.chains_of self.old) work tree
            → spec.Going world source.now defined self.old
            (leaves_spec.put (leaves_spec.parent_of work) tree self.old.made.items) all
            → spec.Goes world source.now defined result self.new all }
        ensures stop { IfErr result copied_spec.IsTooMany }
    {
        match work {
            Work::Walk(walk) => self.step(alloc, source, walk),
            Work::Copies(copies) => self.copy_for_one(alloc, source, copies),
        }
    }

    // Goes over the first node of a walk, and leaves what stands in it and behind it.
    #[tactic(auto, using(crate::proofs::LeftLaws::steps_left_push))]
    fn step(
        &mut self,
        alloc: Global,
        source: &Originals<'_>,
        walk: Walk,
    ) -> Result<(), Stop<PlanStop>>
        ensures less { OnOk result (left_spec.left self.new.made.items self.new.left.items
            < left_spec.left self.old.made.items self.old.left.items + left_spec.steps_of walk) }
        ensures goes { (world : World) (defined : List branches_spec.Branch) (tree : MapTree)
            (all : List plan_node.PlanNode) → source_spec.IsSource world source.now defined
            → leaves_spec.WalkMakes world source.now defined (spec.chains_of self.old) walk tree
            → spec.Going world source.now defined self.old
            (leaves_spec.put walk.parent tree self.old.made.items) all
            → spec.Goes world source.now defined result self.new all }
        ensures stop { IfErr result copied_spec.IsTooMany }
    {
        let Some(seen) = source.see(walk) else {
            return Ok(());
        };
        self.left.push(Work::Walk(Walk {
            at: seen.end,
            ..walk
        }))?;
        if is_ditavalref(seen.original) {
            return Ok(());
        }
        if self.is_excluded(source, walk) {
            return Ok(());
        }
        self.copy_first(alloc, source, walk, seen)
    }

    // Whether a branch around a walk excludes its first node.
    fn is_excluded(&self, source: &Originals<'_>, walk: Walk) -> bool
        ensures { result ≡ list_any (source_spec.excludes_at source.now walk.at)
            (chained_spec.chain_at self.now.chains.chains.items walk.chain) }
    {
        source.is_excluded(walk.at, self.chains.get(walk.chain))
    }

    // Copies the first node of a walk for its branches, or as it is, if it has none.
    #[tactic(auto, using(crate::proofs::LeftLaws::steps_left_push))]
    fn copy_first(
        &mut self,
        alloc: Global,
        source: &Originals<'_>,
        walk: Walk,
        seen: Seen<'_>,
    ) -> Result<(), Stop<PlanStop>>
        requires { walk.at < seen.end }
        ensures less { OnOk result (left_spec.left self.new.made.items self.new.left.items
            ≤ left_spec.left self.old.made.items self.old.left.items
            + (seen.entry.span.count + 1)) }
        ensures goes { (world : World) (defined : List branches_spec.Branch) (head : Head)
            (below : MapTree) (all : List plan_node.PlanNode)
            → source_spec.IsSource world source.now defined
            → spec.IsNext world source.now defined self.old walk seen.entry head below
            → spec.Going world source.now defined self.old (leaves_spec.put walk.parent
            (spec.first_copied world defined self.old walk head below) self.old.made.items) all
            → spec.Goes world source.now defined result self.new all }
        ensures stop { IfErr result copied_spec.IsTooMany }
    {
        if seen.span.count == 0 {
            return self.copy_whole(alloc, source, walk, seen);
        }
        if is_map(seen.original) {
            return self.copy_map(alloc, source, walk, seen);
        }
        self.leave_copies(walk, seen, walk.parent)?;
        Ok(())
    }

    // Copies the first node of a walk, and leaves what stands in it.
    #[tactic(auto, using(crate::proofs::LeftLaws::steps_left_push))]
    fn copy_whole(
        &mut self,
        alloc: Global,
        source: &Originals<'_>,
        walk: Walk,
        seen: Seen<'_>,
    ) -> Result<(), Stop<PlanStop>>
        requires { walk.at < seen.end }
        ensures less { OnOk result (left_spec.left self.new.made.items self.new.left.items
            ≤ left_spec.left self.old.made.items self.old.left.items) }
        ensures goes { (world : World) (defined : List branches_spec.Branch) (head : Head)
            (below : MapTree) (all : List plan_node.PlanNode)
            → source_spec.IsSource world source.now defined
            → spec.IsNext world source.now defined self.old walk seen.entry head below
            → seen.entry.span.count ≡ 0
            → spec.Going world source.now defined self.old (leaves_spec.put walk.parent
            (spec.first_copied world defined self.old walk head below) self.old.made.items) all
            → spec.Goes world source.now defined result self.new all }
        ensures stop { IfErr result copied_spec.IsTooMany }
    {
        let parent = match self.copy(alloc, source, walk, seen.original) {
            Ok(place) => place,
            Err(stop) => return Err(stop),
        };
        self.left.push(Work::Walk(Walk {
            at: walk.at + 1,
            end: seen.end,
            parent,
            chain: walk.chain,
        }))?;
        Ok(())
    }

    // Copies the first node of a walk, which is a map, and leaves the groups of its branches.
    #[tactic(auto, using(crate::proofs::LeftLaws::steps_left_push))]
    fn copy_map(
        &mut self,
        alloc: Global,
        source: &Originals<'_>,
        walk: Walk,
        seen: Seen<'_>,
    ) -> Result<(), Stop<PlanStop>>
        ensures less { OnOk result (left_spec.left self.new.made.items self.new.left.items
            ≤ left_spec.left self.old.made.items self.old.left.items
            + (seen.entry.span.count + 1)) }
        ensures goes { (world : World) (defined : List branches_spec.Branch) (head : Head)
            (below : MapTree) (all : List plan_node.PlanNode)
            → source_spec.IsSource world source.now defined
            → spec.IsNext world source.now defined self.old walk seen.entry head below
            → branches_spec.is_map_node head.kind ≡ true → 0 < seen.entry.span.count
            → spec.Going world source.now defined self.old (leaves_spec.put walk.parent
            (spec.first_copied world defined self.old walk head below) self.old.made.items) all
            → spec.Goes world source.now defined result self.new all }
        ensures stop { IfErr result copied_spec.IsTooMany }
    {
        let parent = match self.copy(alloc, source, walk, seen.original) {
            Ok(place) => place,
            Err(stop) => return Err(stop),
        };
        self.leave_copies(walk, seen, parent)?;
        Ok(())
    }

    // Leaves the copies of the first node of a walk for its branches, which stand below this node.
    #[tactic(auto, using(crate::proofs::LeftLaws::steps_left_push))]
    fn leave_copies(&mut self, walk: Walk, seen: Seen<'_>, parent: u32) -> Result<(), NoMemory>
        ensures made { self.new.made ≡ self.old.made }
        ensures chains { self.new.chains ≡ self.old.chains }
        ensures left { OnOk result (self.new.left.items ≡ self.old.left.items
            ++ works.Copies (spec.copies_left walk seen.entry parent) ∷ []) }
        ensures steps { OnOk result (left_spec.steps_left self.new.left.items
            ≡ left_spec.steps_left self.old.left.items + (seen.entry.span.count + 1)) }
    {
        self.left.push(Work::Copies(Copies {
            at: walk.at,
            end: seen.end,
            branch: seen.span.first,
            count: seen.span.count,
            parent,
            chain: walk.chain,
        }))?;
        Ok(())
    }

    // Copies the first node of a walk alone, and gives the place of the copy.
    fn copy(
        &mut self,
        alloc: Global,
        source: &Originals<'_>,
        walk: Walk,
        original: Original<'_>,
    ) -> Result<u32, Stop<PlanStop>>
        ensures room { OnOk result (length self.old.made.items < 65536) }
        ensures full { IfErr result (λ stop. spec.HasNoRoom stop (length self.old.made.items)) }
        ensures place { IfOk result (λ place. place ≡ length self.old.made.items) }
        ensures count { OnOk result
            (length self.new.made.items ≡ length self.old.made.items + 1) }
        ensures made { OnOk result (self.new.made.items ≡ self.old.made.items
            ++ marks_spec.copied_node source.now.branches.now
            (chained_spec.chain_at self.old.chains.chains.items walk.chain)
            original.entry.node.now original.entry.names.now walk.parent ∷ []) }
        ensures chains { self.new.chains ≡ self.old.chains }
        ensures left { self.new.left ≡ self.old.left }
        ensures stop { IfErr result copied_spec.IsTooMany }
    {
        let chain = self.chains.get(walk.chain);
        let copy = source.copy(alloc, original, walk.parent, chain)?;
        put(&mut self.made, copy)
    }

    // Makes the next of some copies, unless its branch excludes it, and leaves what stands in it
    // and the other copies.
    #[tactic(auto, using(crate::proofs::LeftLaws::steps_left_push))]
    fn copy_for_one(
        &mut self,
        alloc: Global,
        source: &Originals<'_>,
        copies: Copies,
    ) -> Result<(), Stop<PlanStop>>
        ensures less { OnOk result (left_spec.left self.new.made.items self.new.left.items
            < left_spec.left self.old.made.items self.old.left.items + (copies.count + 1)) }
        ensures goes { (world : World) (defined : List branches_spec.Branch) (tree : MapTree)
            (all : List plan_node.PlanNode) → source_spec.IsSource world source.now defined
            → leaves_spec.CopiesMake world source.now defined (spec.chains_of self.old) copies tree
            → spec.Going world source.now defined self.old
            (leaves_spec.put copies.parent tree self.old.made.items) all
            → spec.Goes world source.now defined result self.new all }
        ensures stop { IfErr result copied_spec.IsTooMany }
    {
        if copies.count == 0 {
            return Ok(());
        }
        self.left.push(Work::Copies(Copies {
            branch: behind(copies.branch, source.branches.len()),
            count: copies.count - 1,
            ..copies
        }))?;
        if source.is_top_excluded(copies.at, copies.branch) {
            return Ok(());
        }
        self.copy_top(alloc, source, copies)
    }

    // Makes the next of some copies, and leaves what stands in it.
    #[tactic(auto, using(crate::proofs::LeftLaws::steps_left_push))]
    fn copy_top(
        &mut self,
        alloc: Global,
        source: &Originals<'_>,
        copies: Copies,
    ) -> Result<(), Stop<PlanStop>>
        ensures less { OnOk result (left_spec.left self.new.made.items self.new.left.items
            ≤ left_spec.left self.old.made.items self.old.left.items) }
        ensures goes { (world : World) (defined : List branches_spec.Branch) (head : Head)
            (below : MapTree) (branch : branches_spec.Branch) (all : List plan_node.PlanNode)
            → source_spec.IsSource world source.now defined
            → spec.IsTop world source.now defined self.old copies head below branch
            → spec.Going world source.now defined self.old (leaves_spec.put copies.parent
            (spec.top_copied world defined self.old copies head below branch)
            self.old.made.items) all
            → spec.Goes world source.now defined result self.new all }
        ensures stop { IfErr result copied_spec.IsTooMany }
    {
        let Copies {
            at,
            branch,
            parent,
            ..
        } = copies;
        let chain = self.chains.put(alloc, branch, copies.chain)?;
        let around = self.chains.get(chain);
        let Some(copy) = source.copy_for(alloc, at, branch, parent, around)? else {
            return Ok(());
        };
        let parent = match put(&mut self.made, copy) {
            Ok(place) => place,
            Err(stop) => return Err(stop),
        };
        self.left.push(Work::Walk(Walk {
            at: behind(at, copies.end),
            end: copies.end,
            parent,
            chain,
        }))?;
        Ok(())
    }

    /// The nodes that were made, with their ends.
    pub fn finish(self) -> Result<List<PlanNode>, NoMemory>
        ensures { (tree : MapTree) → preorder_spec.HasOneRoot tree
            → map preorder_spec.without_end self.made.items
            ≡ map preorder_spec.without_end (map_tree_spec.plan_nodes tree)
            → IfOk result (λ nodes. nodes ≡ map_tree_spec.plan_nodes tree) }
    {
        let Copying { made, .. } = self;
        let mut made = made;
        set_ends(&mut made)?;
        Ok(List::from_vec(made))
    }
}

// The place behind another, before some end.
fn behind(at: usize, end: usize) -> usize
    ensures { at < end → result ≡ at + 1 }
{
    at.saturating_add(1).min(end)
}

fn is_ditavalref(original: Original<'_>) -> bool
    ensures { result ≡ branches_spec.is_ditavalref original.entry.node.now.kind }
{
    matches!(original.node.kind, PlanKind::DitavalRef)
}

fn is_map(original: Original<'_>) -> bool
    ensures { result ≡ branches_spec.is_map_node original.entry.node.now.kind }
{
    matches!(original.node.kind, PlanKind::Map)
}

// Appends a node, and gives its place.
fn put(made: &mut Vec<PlanNode>, node: PlanNode) -> Result<u32, Stop<PlanStop>>
    ensures room { OnOk result (length made.old.items < 65536) }
    ensures full { IfErr result (λ stop. spec.HasNoRoom stop (length made.old.items)) }
    ensures place { IfOk result (λ place. place ≡ length made.old.items) }
    ensures count { OnOk result (length made.new.items ≡ length made.old.items + 1) }
    ensures made { OnOk result (made.new.items ≡ made.old.items ++ node ∷ []) }
    ensures stop { IfErr result copied_spec.IsTooMany }
{
    let count = made.len();
    if count >= NODE_LIMIT {
        return Err(Stop::Fault(PlanStop::TooManyNodes));
    }
    made.push(node)?;
    Ok(place_of(count)?)
}
