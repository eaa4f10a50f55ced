//! The copies of branches.

ghost use Rattle.std.specs.Prelude.{◌≡◌, ℕ, List, IfErr, IfOk, Some, map, slice_get};
ghost use Rattle.std.specs.Result.{result_map_both};
ghost use Rattle.branch_copies.specs.Copied as copied_spec;
ghost use Rattle.branch_copies.specs.Ditavalrefs as ditavalrefs_spec;
ghost use Rattle.node_filter.specs.Domains as domains_spec;
ghost use Rattle.branch_copies.specs.Read as read_spec;
ghost use Rattle.branch_copies.specs.Stands as stands_spec;
ghost use Rattle.dita_doc.specs.Gives.{Gives};
ghost use Rattle.dita_doc.specs.declared.plan.PlanKind.TheVariants as kinds;
ghost use Rattle.map_spec.specs.Branches as branches_spec;
ghost use Rattle.map_spec.specs.Cascade as cascade_spec;
ghost use Rattle.map_spec.specs.Included as included_spec;
ghost use Rattle.map_spec.specs.MapTree as map_tree_spec;
ghost use Rattle.map_spec.specs.MapTree.{Grown, Head, MapTree};
ghost use Rattle.plan_nodes.specs.Given.{AreTold};
ghost use Rattle.reader_spec.specs.World.{World};
ghost use Rattle.readers.specs.Founded as founded_spec;
ghost use Rattle.readers.specs.Founded.{Grows, StaysFounded};
ghost use Rattle.readers.specs.Told.{Agrees};

use crate::branches::{Branches, read_branches};
use crate::copying::Copying;
use crate::ditavals::Ditavals;
use crate::names::scope_names;
use crate::node::Originals;
use dita_doc::{Expanded, List, PlanNode, PlanStop, Stop, Text};
use node_filter::{DeclaredNames, Elements};
use plan_nodes::NodeElements;
use readers::Reader;
use std::alloc::Global;

/// The nodes of a map with a copy of each branch for each ditavalref on it, the inner ones first,
/// and without the ditavalrefs. The faults are those of all ditavalrefs that were read.
///
/// # Errors
///
/// `TooManyNodes` if there are more than 65,536 nodes, or out of memory.
#[tactic(auto, using(crate::proofs::DitavalrefLaws::branching))]
pub fn copy_branches<R: Reader>(
    alloc: Global,
    reader: &mut R,
    nodes: &List<PlanNode>,
) -> Result<Expanded, Stop<PlanStop>>
    ensures known { (world : World) → Agrees world (R.told reader.new)
        → copied_spec.AreCopied world nodes.now result }
    ensures value { copied_spec.AreCopied (R.stand reader.old).world nodes.now result }
    ensures stop { IfErr result copied_spec.IsTooMany }
    ensures told { IfOk result (λ copies. AreTold (R.told reader.new)
        (map (cascade_spec.whole_at (R.stand reader.old).world) nodes.now)) }
    ensures stand { R.stand reader.new ≡ R.stand reader.old }
    ensures founded { StaysFounded (founded_spec.homes nodes.now) (R.told reader.old)
        (R.told reader.new) }
    ensures asks { ditavalrefs_spec.AsksDitavals
        (map (cascade_spec.whole_at (R.stand reader.old).world) nodes.now) nodes.now
        (founded_spec.homes nodes.now) (R.told reader.old) (R.told reader.new) }
    ensures grows { Grows (R.told reader.old) (R.told reader.new) }
{
    let nodes = nodes.as_slice();
    let elements = Elements::of(alloc, reader, nodes)?;
    let mut ditavals = Ditavals::new(alloc);
    let read = read_branches(alloc, reader, &mut ditavals, nodes, &elements.homes)?;
    copy_read(alloc, nodes, &elements, &ditavals, read)
}

// The copies of all nodes, by what was read of their branches, with the faults of these.
fn copy_read(
    alloc: Global,
    nodes: &[PlanNode],
    elements: &Elements,
    ditavals: &Ditavals,
    read: Branches,
) -> Result<Expanded, Stop<PlanStop>>
    ensures copied { (world : World) (head : Head) (below : MapTree) → head.kind ≡ kinds.Map
        → nodes.now ≡ map_tree_spec.plan_nodes
        (map_tree_spec.MapNode head below map_tree_spec.NoNodes)
        → elements.now.homes ≡ map (cascade_spec.whole_at world) nodes.now
        → domains_spec.AreDeclared world nodes.now elements.now.declared
        → read_spec.AllRead world ditavals.now.read.items nodes.now
        (map_tree_spec.MapNode head below map_tree_spec.NoNodes) read
        → Gives result (result_map_both included_spec.expanded (λ stop. stop)
        (branches_spec.branched included_spec.map_node_limit world
        (map_tree_spec.MapNode head below map_tree_spec.NoNodes))) }
    ensures stop { IfErr result copied_spec.IsTooMany }
{
    let names = scope_names(alloc, nodes, &elements.homes)?;
    let homes = &elements.homes;
    let declared = &elements.declared;
    let copies = match copy_all(alloc, nodes, homes, declared, ditavals, &names, &read) {
        Ok(copies) => copies,
        Err(stop) => return Err(stop),
    };
    let Branches { faults, .. } = read;
    Ok(Expanded {
        nodes: copies,
        faults,
    })
}

// Copies all nodes, by what was read of their branches.
fn copy_all<'a>(
    alloc: Global,
    nodes: &'a [PlanNode],
    homes: &'a NodeElements,
    declared: &'a DeclaredNames,
    ditavals: &'a Ditavals,
    names: &'a [List<Text>],
    read: &'a Branches,
) -> Result<List<PlanNode>, Stop<PlanStop>>
    ensures copied { (world : World) (head : Head) (below : MapTree)
        (defined : List branches_spec.Branch) → head.kind ≡ kinds.Map
        → nodes.now ≡ map_tree_spec.plan_nodes
        (map_tree_spec.MapNode head below map_tree_spec.NoNodes)
        → homes.now ≡ map (cascade_spec.whole_at world) nodes.now
        → domains_spec.AreDeclared world nodes.now declared.now
        → ((parent at : ℕ) (h : Head) (b more : MapTree)
        → stands_spec.StandsAt nodes.now parent at (map_tree_spec.MapNode h b more)
        → slice_get names.now at ≡ Some (branches_spec.scope_names_of world h b h.kind))
        → read_spec.AreRead ditavals.now.read.items nodes.now read.now.branches.items defined
        → read_spec.HaveBranches world read.now.spans.items defined 0
        (map_tree_spec.MapNode head below map_tree_spec.NoNodes)
        → Gives result (result_map_both (λ (grown : Grown). map_tree_spec.plan_nodes grown.tree)
        (λ stop. stop) (branches_spec.branched included_spec.map_node_limit world
        (map_tree_spec.MapNode head below map_tree_spec.NoNodes))) }
    ensures stop { IfErr result copied_spec.IsTooMany }
{
    let source = Originals {
        nodes,
        homes,
        declared: declared.each(alloc, nodes)?.into_vec(),
        names,
        branches: &read.branches,
        spans: &read.spans,
        tables: ditavals.tables(alloc)?,
    };
    let mut copying = Copying::new(alloc, nodes.len())?;
    match copying.run(alloc, &source) {
        Ok(()) => {}
        Err(stop) => return Err(stop),
    }
    Ok(copying.finish()?)
}
