//! The links that rows give, and the nodes in them that have no page.

ghost use Rattle.std.specs.Prelude.{◌≡◌, ◌++◌, [], IfOk, OnOk, map};
ghost use Rattle.dita_doc.specs.declared.content.LinkKind.TheVariants as kinds;
ghost use Rattle.dita_doc.specs.declared.plan.Plan as plan_spec;
ghost use Rattle.link_groups.specs.Asked as asked_spec;
ghost use Rattle.link_groups.specs.LinkLists as link_lists_spec;
ghost use Rattle.link_groups.specs.LinkNodes as link_nodes_spec;
ghost use Rattle.map_spec.specs.Cascade as cascade_spec;
ghost use Rattle.link_spec.specs.Links as links_spec;
ghost use Rattle.reader_spec.specs.World.{World};
ghost use Rattle.readers.specs.Documents as documents_spec;
ghost use Rattle.readers.specs.Documents.{AsksOnly};
ghost use Rattle.readers.specs.Founded.{Grows, StaysFounded};
ghost use Rattle.readers.specs.Only.{TellsOnly};
ghost use Rattle.readers.specs.Told.{Agrees};
ghost use Rattle.reltable_links.specs.RowTable as spec;

use crate::cells::Cells;
use crate::faults::{append_below, append_faults};
use crate::standings::Standings;
use dita_doc::{Fault, List, NoMemory, Plan};
use link_groups::{LinkList, LinkNodes};
use plan_nodes::NodeElements;
use readers::Asker;
use std::alloc::Global;

/// The rows of a plan, by the pages that link in them.
#[derive(Drop)]
pub struct Rows {
    cells: Cells,
    standings: Standings,
}

impl Rows {
    /// Finds the rows of a plan.
    #[tactic(auto, using(readers::proofs::Rules::walking))]
    pub fn of<A: Asker>(
        alloc: Global,
        asker: &mut A,
        plan: &Plan,
        homes: &NodeElements,
        link_nodes: &mut LinkNodes,
    ) -> Result<Rows, NoMemory>
        ensures known { (world : World) → Agrees world (A.told asker.new)
            → spec.CanLink world plan.now (A.stand asker.old).setting.pages
            → homes.now ≡ map (cascade_spec.whole_at world) plan.now.nodes
            → link_nodes_spec.AreLinkNodes world plan.now link_nodes.old
            → IfOk result (λ rows. spec.AreRowsFound world plan.now rows link_nodes.new) }
        ensures stand { A.stand asker.new ≡ A.stand asker.old }
        ensures founded { StaysFounded (link_nodes_spec.plan_names plan.now) (A.told asker.old)
            (A.told asker.new) }
        ensures asks { AsksOnly documents_spec.nothing [] (A.told asker.old) (A.told asker.new) }
        ensures only { OnOk result (TellsOnly (asked_spec.is_page_of_nodes plan.now)
            (A.told asker.old) (A.told asker.new)) }
        ensures grows { Grows (A.told asker.old) (A.told asker.new) }
    {
        let cells = Cells::of(alloc, asker, plan, homes, link_nodes)?;
        let standings = Standings::of(alloc, &cells.cells, &cells.nodes)?;
        Ok(Rows { cells, standings })
    }

    /// Appends the links of a page to those that are related to it.
    pub fn append(&self, alloc: Global, page: u32, links: &mut LinkList) -> Result<(), NoMemory>
        ensures { (world : World) (plan : plan_spec.Plan) (all : link_lists_spec.Links)
            → spec.AreRowsOf world plan self.now
            → link_lists_spec.HoldsLinks page all links.old
            → OnOk result (link_lists_spec.HoldsLinks page
            (all ++ links_spec.links_of_kind world plan page kinds.Related) links.new) }
    {
        self.standings
            .append(alloc, &self.cells.nodes, page, links)?;
        Ok(())
    }

    /// The faults of nodes without a page, in order, each node's once.
    pub fn faults(&self, alloc: Global, plan: &Plan) -> Result<List<Fault>, NoMemory>
        ensures { (world : World) → spec.AreRowsOf world plan.now self.now
            → IfOk result (λ faults. faults ≡ spec.cell_faults plan.now) }
    {
        let mut faults = List::new(alloc);
        append_faults(alloc, plan, &self.cells.lost, &mut faults)?;
        Ok(faults)
    }

    /// The faults of each row in turn. A node stands in several rows if one stands in a cell of
    /// another, and then has its fault in each.
    pub fn faults_by_row(&self, alloc: Global, plan: &Plan) -> Result<List<Fault>, NoMemory>
        ensures { (world : World) → spec.AreRowsOf world plan.now self.now
            → IfOk result (λ faults. faults ≡ links_spec.row_faults plan.now) }
    {
        let mut faults = List::new(alloc);
        self.append_rows(alloc, plan, &self.cells.rows, &mut faults)?;
        Ok(faults)
    }

    fn append_rows(
        &self,
        alloc: Global,
        plan: &Plan,
        rows: &[u32],
        faults: &mut List<Fault>,
    ) -> Result<(), NoMemory>
        ensures { (world : World) → spec.AreRowsOf world plan.now self.now
            → OnOk result (faults.new ≡ faults.old
            ++ spec.faults_of_rows plan.now self.now.cells.cells.items rows.now
            self.now.cells.lost.items) }
    {
        for row in rows {
            self.append_row(alloc, plan, *row, faults)?;
        }
        Ok(())
    }

    // Appends the faults of a row.
    fn append_row(
        &self,
        alloc: Global,
        plan: &Plan,
        row: u32,
        faults: &mut List<Fault>,
    ) -> Result<(), NoMemory>
        ensures { (world : World) → spec.AreRowsOf world plan.now self.now
            → OnOk result (faults.new ≡ faults.old
            ++ spec.faults_of_row plan.now self.now.cells.cells.items self.now.cells.lost.items
            row) }
    {
        append_below(
            alloc,
            plan,
            self.standings.cells_of(row),
            &self.cells.lost,
            faults,
        )?;
        Ok(())
    }
}
