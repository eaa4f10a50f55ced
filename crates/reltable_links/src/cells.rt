//! The rows and cells of a plan, and the nodes below them.

ghost use Rattle.std.specs.Prelude.{◌≡◌, ◌<◌, ◌++◌, [], codes, is_some, length, map, nat_lt, true, IfOk, OnOk};
ghost use Rattle.std.specs.Option.{option_copied, option_to_list};
ghost use Rattle.dita_doc.specs.declared.plan.Plan as plan_spec;
ghost use Rattle.link_groups.specs.Asked as asked_spec;
ghost use Rattle.link_groups.specs.LinkNodes as link_nodes_spec;
ghost use Rattle.map_spec.specs.Cascade as cascade_spec;
ghost use Rattle.map_spec.specs.Pages.{local_name};
ghost use Rattle.link_spec.specs.Links as links_spec;
ghost use Rattle.plan_nodes.specs.Carried.{CarryValues};
ghost use Rattle.plan_nodes.specs.Home as home_spec;
ghost use Rattle.reader_spec.specs.World.{World};
ghost use Rattle.readers.specs.Documents as documents_spec;
ghost use Rattle.readers.specs.Documents.{AsksOnly};
ghost use Rattle.readers.specs.Founded.{Grows, StaysFounded};
ghost use Rattle.readers.specs.Only.{TellsOnly};
ghost use Rattle.readers.specs.Told.{Agrees};
ghost use Rattle.reltable_links.specs.Below as below_spec;
ghost use Rattle.reltable_links.specs.CellTable as spec;

use dita_doc::{NoMemory, Plan, PlanKind, PlanNode, Target};
use link_groups::{LinkNode, LinkNodes};
use plan_nodes::{NodeElements, place_of};
use readers::Asker;
use std::alloc::Global;

// A cell of a row: where it and its row stand, where the nodes below it end, and whether those
// are a family.
#[derive(Clone, Copy)]
pub(crate) struct RowCell {
    pub row: u32,
    pub at: u32,
    pub end: u32,
    pub is_family: bool,
}

impl RowCell {
    // Whether a place stands behind that of the cell, and not before where others end.
    pub(crate) fn is_behind(&self, at: u32, done: u32) -> bool
        ensures { result ≡ below_spec.is_behind self.now done at }
    {
        self.at < at && at >= done
    }
}

// The rows and cells of a plan, and all nodes below cells that lead to DITA documents, in order.
#[derive(Drop)]
pub(crate) struct Cells {
    pub rows: Vec<u32>,
    pub cells: Vec<RowCell>,
    // The nodes that have pages.
    pub nodes: Vec<LinkNode>,
    // The places of those that have none.
    pub lost: Vec<u32>,
    // Where the nodes below all cells end.
    end: u32,
}

impl Cells {
    fn new(alloc: Global) -> Cells
        ensures { (world : World) (plan : plan_spec.Plan) → spec.AreCellsOf world plan [] result }
    {
        Cells {
            rows: Vec::new(alloc),
            cells: Vec::new(alloc),
            nodes: Vec::new(alloc),
            lost: Vec::new(alloc),
            end: 0,
        }
    }

    // Goes over all nodes in order.
    #[tactic(auto, using(readers::proofs::Rules::walking))]
    pub(crate) fn of<A: Asker>(
        alloc: Global,
        asker: &mut A,
        plan: &Plan,
        homes: &NodeElements,
        link_nodes: &mut LinkNodes,
    ) -> Result<Cells, NoMemory>
        ensures known { (world : World) → Agrees world (A.told asker.new)
            → spec.IsReady world plan.now (A.stand asker.old).setting.pages homes.now
            → link_nodes_spec.AreLinkNodes world plan.now link_nodes.old
            → IfOk result (λ cells. spec.AreCells world plan.now cells)
            × IfOk result (λ cells. link_nodes_spec.AreLinkNodes world plan.now link_nodes.new) }
        ensures stand { A.stand asker.new ≡ A.stand asker.old }
        ensures founded { StaysFounded (link_nodes_spec.plan_names plan.now) (A.told asker.old)
            (A.told asker.new) }
        ensures asks { AsksOnly documents_spec.nothing [] (A.told asker.old) (A.told asker.new) }
        ensures only { OnOk result (TellsOnly (asked_spec.is_page_of_nodes plan.now)
            (A.told asker.old) (A.told asker.new)) }
        ensures grows { Grows (A.told asker.old) (A.told asker.new) }
    {
        let mut cells = Cells::new(alloc);
        for at in 0..plan.nodes.as_slice().len() {
            cells.put_node(alloc, asker, plan, link_nodes, at)?;
            cells.put_cell(plan, homes, at)?;
        }
        Ok(cells)
    }

    // Puts a node that stands below a cell behind the others, with its page or as lost.
    #[tactic(auto, using(readers::proofs::Rules::walking))]
    fn put_node<A: Asker>(
        &mut self,
        alloc: Global,
        asker: &mut A,
        plan: &Plan,
        link_nodes: &mut LinkNodes,
        at: usize,
    ) -> Result<(), NoMemory>
        ensures known { (world : World) → Agrees world (A.told asker.new)
            → CarryValues world plan.now.nodes
            → (A.stand asker.old).setting.pages ≡ plan.now.pages
            → link_nodes_spec.AreLinkNodes world plan.now link_nodes.old
            → OnOk result (spec.PutsNode world plan.now at self.old self.new)
            × OnOk result (link_nodes_spec.AreLinkNodes world plan.now link_nodes.new) }
        ensures stand { A.stand asker.new ≡ A.stand asker.old }
        ensures founded { StaysFounded (link_nodes_spec.plan_names plan.now) (A.told asker.old)
            (A.told asker.new) }
        ensures asks { AsksOnly documents_spec.nothing [] (A.told asker.old) (A.told asker.new) }
        ensures only { OnOk result (TellsOnly (asked_spec.is_page_of_nodes plan.now)
            (A.told asker.old) (A.told asker.new)) }
        ensures grows { Grows (A.told asker.old) (A.told asker.new) }
    {
        if at >= self.end as usize {
            return Ok(());
        }
        let found = link_nodes.find(alloc, asker, plan, at)?;
        self.put_found(plan, at, found)?;
        Ok(())
    }

    fn put_found(&mut self, plan: &Plan, at: usize, found: Option<LinkNode>) -> Result<(), NoMemory>
        ensures { (world : World) → found ≡ link_nodes_spec.link_node_at world plan.now at
            → nat_lt at self.old.end ≡ true
            → OnOk result (spec.PutsNode world plan.now at self.old self.new) }
    {
        match found {
            Some(node) => self.nodes.push(node)?,
            None => {
                if is_local(plan, at) {
                    self.lost.push(place_of(at)?)?;
                }
            }
        }
        Ok(())
    }

    // Puts a row or a cell behind the others.
    fn put_cell(&mut self, plan: &Plan, homes: &NodeElements, at: usize) -> Result<(), NoMemory>
        requires { at < length plan.now.nodes }
        ensures { (world : World)
            → homes.now ≡ map (cascade_spec.whole_at world) plan.now.nodes
            → OnOk result (spec.PutsCell world plan.now at self.old self.new) }
    {
        let nodes = plan.nodes.as_slice();
        let node = &nodes[at];
        let place = place_of(at)?;
        self.put_row(node, place)?;
        let cell = cell_for(nodes, homes, at, place, node);
        self.put_made(cell)?;
        Ok(())
    }

    fn put_row(&mut self, node: &PlanNode, at: u32) -> Result<(), NoMemory>
        ensures rows { OnOk result (self.new.rows.items
            ≡ self.old.rows.items ++ spec.if_row at node.now) }
        ensures cells { OnOk result (self.new.cells.items ≡ self.old.cells.items) }
        ensures nodes { OnOk result (self.new.nodes.items ≡ self.old.nodes.items) }
        ensures lost { OnOk result (self.new.lost.items ≡ self.old.lost.items) }
        ensures end { OnOk result (self.new.end ≡ self.old.end) }
    {
        if node.kind == PlanKind::RelRow {
            self.rows.push(at)?;
        }
        Ok(())
    }

    fn put_made(&mut self, cell: Option<RowCell>) -> Result<(), NoMemory>
        ensures rows { OnOk result (self.new.rows.items ≡ self.old.rows.items) }
        ensures cells { OnOk result (self.new.cells.items
            ≡ self.old.cells.items ++ option_to_list cell) }
        ensures nodes { OnOk result (self.new.nodes.items ≡ self.old.nodes.items) }
        ensures lost { OnOk result (self.new.lost.items ≡ self.old.lost.items) }
        ensures end { OnOk result (self.new.end ≡ spec.end_with self.old.end cell) }
    {
        let Some(cell) = cell else {
            return Ok(());
        };
        self.cells.push(cell)?;
        self.end = self.end.max(cell.end);
        Ok(())
    }
}

// The cell that a node is, if it is one of a row.
fn cell_for(
    nodes: &[PlanNode],
    homes: &NodeElements,
    at: usize,
    place: u32,
    node: &PlanNode,
) -> Option<RowCell>
    ensures { result ≡ spec.cell_by nodes.now
        (spec.is_family_by (home_spec.value_at homes.now at (codes "collection-type"))) at place
        node.now }
{
    if !is_row_cell(nodes, at, node) {
        return None;
    }
    Some(RowCell {
        row: node.parent,
        at: place,
        end: node.end,
        is_family: is_family(homes.value(at, "collection-type")),
    })
}

fn is_family(value: Option<&str>) -> bool
    ensures { result ≡ spec.is_family_by (option_copied value.entry) }
{
    match value {
        Some(value) => value == "family",
        None => false,
    }
}

// Whether a node leads to a DITA document.
fn is_local(plan: &Plan, at: usize) -> bool
    ensures { result ≡ is_some (local_name (links_spec.plan_target plan.now at)) }
{
    matches!(plan.targets.as_slice().get(at), Some(Target::Local(_, _)))
}

// Whether a node is a cell of a row.
fn is_row_cell(nodes: &[PlanNode], at: usize, node: &PlanNode) -> bool
    ensures { result ≡ spec.is_row_cell nodes.now at node.now }
{
    if at == 0 || node.kind != PlanKind::RelCell {
        return false;
    }
    match nodes.get(node.parent as usize) {
        Some(parent) => parent.kind == PlanKind::RelRow,
        None => false,
    }
}
