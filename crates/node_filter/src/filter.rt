//! The nodes of a map that rules leave.

ghost use Rattle.std.specs.Prelude.{◌≡◌, map, IfOk};
ghost use Rattle.node_filter.specs.Domains as domains_spec;
ghost use Rattle.node_filter.specs.Filtered as filtered_spec;
ghost use Rattle.node_filter.specs.Sieve as sieve_spec;
ghost use Rattle.map_spec.specs.Cascade as cascade_spec;
ghost use Rattle.map_spec.specs.MapTree as map_tree_spec;
ghost use Rattle.map_spec.specs.MapTree.{MapTree};
ghost use Rattle.plan_nodes.specs.Preorder as preorder_spec;
ghost use Rattle.readers.specs.Documents as documents_spec;
ghost use Rattle.readers.specs.Documents.{AsksOnly};
ghost use Rattle.readers.specs.Founded as founded_spec;
ghost use Rattle.readers.specs.Founded.{Grows, StaysFounded};
ghost use Rattle.readers.specs.Told.{Agrees};
ghost use Rattle.reader_spec.specs.World.{World};

use crate::elements::Elements;
use crate::sieve::Sieve;
use dita_doc::{Expanded, List, NoMemory, PlanNode, Rule};
use ditaval_rules::RuleTable;
use plan_nodes::set_ends;
use readers::Reader;
use std::alloc::Global;

/// The nodes of a map without those that the rules exclude, each with all below it. The root is
/// never excluded. The faults are those of the attributes of all nodes that were judged. An
/// attribute counts too that the node's document declares to be conditional.
pub fn filter_nodes<R: Reader>(
    alloc: Global,
    reader: &mut R,
    nodes: &List<PlanNode>,
    rules: &List<Rule>,
) -> Result<Expanded, NoMemory>
    ensures known { (world : World) → Agrees world (R.told reader.new)
        → IfOk result (λ made. filtered_spec.IsFiltered world rules.now nodes.now made) }
    ensures value { IfOk result (λ made. filtered_spec.IsFiltered (R.stand reader.old).world
        rules.now nodes.now made) }
    ensures stand { R.stand reader.new ≡ R.stand reader.old }
    ensures founded { StaysFounded (founded_spec.homes nodes.now) (R.told reader.old)
        (R.told reader.new) }
    ensures asks { AsksOnly documents_spec.nothing (founded_spec.homes nodes.now)
        (R.told reader.old) (R.told reader.new) }
    ensures grows { Grows (R.told reader.old) (R.told reader.new) }
{
    let elements = Elements::of(alloc, reader, nodes.as_slice())?;
    let table = RuleTable::of(rules.clone()?)?;
    let Sieve { kept, faults, .. } = sieved(alloc, &elements, nodes.as_slice(), &table)?;
    let nodes = with_ends(kept)?;
    Ok(Expanded { nodes, faults })
}

// What all nodes leave.
fn sieved(
    alloc: Global,
    elements: &Elements,
    nodes: &[PlanNode],
    table: &RuleTable,
) -> Result<Sieve, NoMemory>
    ensures { (world : World) → elements.now.homes ≡ map (cascade_spec.whole_at world) nodes.now
        → domains_spec.AreDeclared world nodes.now elements.now.declared
        → IfOk result (λ sieve. sieve
        ≡ sieve_spec.all_passed world table.now nodes.now sieve_spec.empty) }
{
    let mut sieve = Sieve::new(alloc);
    for (at, node) in nodes.iter().enumerate() {
        let declared = elements.declared.names(at, node);
        sieve.pass(alloc, table, node, declared, elements.homes.element(at))?;
    }
    Ok(sieve)
}

// The same nodes with the ends that are theirs.
fn with_ends(nodes: List<PlanNode>) -> Result<List<PlanNode>, NoMemory>
    ensures { (tree : MapTree) → preorder_spec.HasOneRoot tree
        → map preorder_spec.without_end nodes
        ≡ map preorder_spec.without_end (map_tree_spec.plan_nodes tree)
        → IfOk result (λ ended. ended ≡ map_tree_spec.plan_nodes tree) }
{
    let mut nodes = nodes.into_vec();
    set_ends(&mut nodes)?;
    Ok(List::from_vec(nodes))
}
