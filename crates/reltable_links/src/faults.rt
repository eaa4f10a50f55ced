//! The faults of nodes below cells that lead to documents without pages.

ghost use Rattle.std.specs.Prelude.{◌≡◌, ◌++◌, ℕ, filter, OnOk};
ghost use Rattle.std.specs.List.{flat_map};
ghost use Rattle.std.specs.List.Sorted.{IsNonDecreasingBy};
ghost use Rattle.reltable_links.specs.Below as below_spec;
ghost use Rattle.reltable_links.specs.RowTable as spec;
ghost use Rattle.reltable_links.specs.declared.cells.RowCell as cell_spec;

use crate::cells::RowCell;
use crate::placed::below;
use dita_doc::{Fault, FaultCode, List, NoMemory, Plan};
use link_groups::{name_at, node_at};
use plan_nodes::fault_of;
use std::alloc::Global;

// Appends the faults of the nodes below cells in order.
pub(crate) fn append_below(
    alloc: Global,
    plan: &Plan,
    cells: &[RowCell],
    lost: &[u32],
    faults: &mut List<Fault>,
) -> Result<(), NoMemory>
    ensures { IsNonDecreasingBy (λ (cell : cell_spec.RowCell). cell.at) cells.now
        → IsNonDecreasingBy (λ (at : ℕ). at) lost.now
        → OnOk result (faults.new ≡ faults.old ++ flat_map (spec.lost_fault plan.now)
        (filter (below_spec.is_below_one cells.now) lost.now)) }
{
    let mut done = 0;
    for cell in cells {
        append_faults(alloc, plan, below(lost, cell, done), faults)?;
        done = done.max(cell.end);
    }
    Ok(())
}

// Appends the faults of these nodes.
pub(crate) fn append_faults(
    alloc: Global,
    plan: &Plan,
    lost: &[u32],
    faults: &mut List<Fault>,
) -> Result<(), NoMemory>
    ensures { OnOk result (faults.new
        ≡ faults.old ++ flat_map (spec.lost_fault plan.now) lost.now) }
{
    for at in lost {
        append_fault(alloc, plan, *at as usize, faults)?;
    }
    Ok(())
}

fn append_fault(
    alloc: Global,
    plan: &Plan,
    at: usize,
    faults: &mut List<Fault>,
) -> Result<(), NoMemory>
    ensures { OnOk result (faults.new ≡ faults.old ++ spec.lost_fault plan.now at) }
{
    let Some(name) = name_at(plan, at) else {
        return Ok(());
    };
    let Some(node) = node_at(plan, at) else {
        return Ok(());
    };
    faults.push(fault_of(alloc, node, FaultCode::LinkNoPage, name.as_str())?)?;
    Ok(())
}
