//! The nodes of a build's map.

ghost use Rattle.std.specs.Prelude.{◌≡◌, [], ◌∷◌, ℕ, List, IfOk};
ghost use Rattle.std.specs.Result.{result_map_both};
ghost use Rattle.build_plan.specs.Documents as documents_spec;
ghost use Rattle.build_plan.specs.Stages as stages_spec;
ghost use Rattle.dita_doc.specs.Gives.{Gives};
ghost use Rattle.map_expand.specs.AskedFor.{AreAsked};
ghost use Rattle.map_spec.specs.Included as included_spec;
ghost use Rattle.plan_nodes.specs.Carried.{CarryValues};
ghost use Rattle.plan_nodes.specs.Preorder.{IsTree};
ghost use Rattle.reader_spec.specs.World.{World};
ghost use Rattle.readers.specs.Documents.{AsksOnly};
ghost use Rattle.readers.specs.Founded as founded_spec;
ghost use Rattle.readers.specs.Founded.{AreAllowed, Grows, StaysFounded};
ghost use Rattle.readers.specs.Told.{Agrees, Knows};

use attr_cascade::cascade;
use branch_copies::copy_branches;
use dita_doc::{Expanded, List, Name, PlanStop, Rule, Stop};
use doc_elements::append_faults;
use map_expand::expand;
use node_filter::filter_nodes;
use readers::Reader;
use std::alloc::Global;

/// The nodes of a map with its submaps, filtered, with branches copied, and cascaded; and the faults
/// of each step.
///
/// # Errors
///
/// In this order: there is no map, or there are too many nodes; or out of memory.
pub(crate) fn nodes_of_map<R: Reader>(
    alloc: Global,
    reader: &mut R,
    map: &Name,
    rules: &List<Rule>,
) -> Result<Expanded, Stop<PlanStop>>
    ensures known { (world : World) → Agrees world (R.told reader.new) → Gives result
        (result_map_both (stages_spec.cascaded_map world) (λ stop. stop)
        (stages_spec.copied_map world rules.now map.now)) }
    ensures tree { IfOk result (λ made. IsTree made.nodes) }
    ensures values { IfOk result (λ made. Knows (R.told reader.new)
        (λ world. CarryValues world made.nodes)) }
    ensures asked { IfOk result (λ made. AreAsked (R.told reader.new)
        (founded_spec.homes made.nodes)) }
    ensures filters { IfOk result (λ made. (roots : List (List ℕ)) → AreAllowed roots
        (R.told reader.new) (documents_spec.filters_of made.nodes)) }
    ensures stand { R.stand reader.new ≡ R.stand reader.old }
    ensures founded { StaysFounded (map.now ∷ []) (R.told reader.old) (R.told reader.new) }
    ensures asks { AsksOnly documents_spec.plan_targets (map.now ∷ []) (R.told reader.old)
        (R.told reader.new) }
    ensures grows { Grows (R.told reader.old) (R.told reader.new) }
{
    let Expanded { nodes, faults } = match branched_nodes(alloc, reader, map, rules) {
        Ok(made) => made,
        Err(stop) => return Err(stop),
    };
    let nodes = cascade(alloc, reader, &nodes)?;
    Ok(Expanded { nodes, faults })
}

// The same, not cascaded.
fn branched_nodes<R: Reader>(
    alloc: Global,
    reader: &mut R,
    map: &Name,
    rules: &List<Rule>,
) -> Result<Expanded, Stop<PlanStop>>
    ensures known { (world : World) → Agrees world (R.told reader.new) → Gives result
        (result_map_both included_spec.expanded (λ stop. stop)
        (stages_spec.copied_map world rules.now map.now)) }
    ensures nodes { IfOk result (λ made. stages_spec.AreMapNodes made.nodes) }
    ensures asked { IfOk result (λ made. AreAsked (R.told reader.new)
        (founded_spec.homes made.nodes)) }
    ensures filters { IfOk result (λ made. (roots : List (List ℕ)) → AreAllowed roots
        (R.told reader.new) (documents_spec.filters_of made.nodes)) }
    ensures stand { R.stand reader.new ≡ R.stand reader.old }
    ensures founded { StaysFounded (map.now ∷ []) (R.told reader.old) (R.told reader.new) }
    ensures asks { AsksOnly documents_spec.plan_targets (map.now ∷ []) (R.told reader.old)
        (R.told reader.new) }
    ensures grows { Grows (R.told reader.old) (R.told reader.new) }
{
    let Expanded { nodes, mut faults } = match filtered_nodes(alloc, reader, map, rules) {
        Ok(made) => made,
        Err(stop) => return Err(stop),
    };
    let branched = match copy_branches(alloc, reader, &nodes) {
        Ok(made) => made,
        Err(stop) => return Err(stop),
    };
    append_faults(&mut faults, branched.faults)?;
    Ok(Expanded {
        nodes: branched.nodes,
        faults,
    })
}

// The same without copies of branches.
fn filtered_nodes<R: Reader>(
    alloc: Global,
    reader: &mut R,
    map: &Name,
    rules: &List<Rule>,
) -> Result<Expanded, Stop<PlanStop>>
    ensures known { (world : World) → Agrees world (R.told reader.new) → Gives result
        (result_map_both (λ grown. included_spec.expanded
        (stages_spec.judged_map world rules.now grown)) (λ stop. stop)
        (included_spec.included included_spec.map_node_limit world map.now)) }
    ensures nodes { IfOk result (λ made. stages_spec.AreMapNodes made.nodes) }
    ensures new { IfOk result (λ made. stages_spec.AreNew made.nodes) }
    ensures asked { IfOk result (λ made. AreAsked (R.told reader.new)
        (founded_spec.homes made.nodes)) }
    ensures stand { R.stand reader.new ≡ R.stand reader.old }
    ensures founded { StaysFounded (map.now ∷ []) (R.told reader.old) (R.told reader.new) }
    ensures asks { AsksOnly documents_spec.plan_targets (map.now ∷ []) (R.told reader.old)
        (R.told reader.new) }
    ensures grows { Grows (R.told reader.old) (R.told reader.new) }
{
    let Expanded { nodes, mut faults } = expand(alloc, reader, map)?;
    let filtered = filter_nodes(alloc, reader, &nodes, rules)?;
    append_faults(&mut faults, filtered.faults)?;
    Ok(Expanded {
        nodes: filtered.nodes,
        faults,
    })
}
