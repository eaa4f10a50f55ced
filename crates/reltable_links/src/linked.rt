//! The nodes that a page is linked to by rows.

ghost use Rattle.std.specs.Prelude.{◌≡◌, ◌&&◌, ◌||◌, ◌++◌, List, ℕ, Bool, filter, IfOk, OnOk};
ghost use Rattle.std.specs.List.{list_any};
ghost use Rattle.std.specs.List.Sorted.{IsNonDecreasingBy};
ghost use Rattle.dita_doc.specs.declared.content.LinkKind.TheVariants as links_spec;
ghost use Rattle.link_groups.specs.LinkLists as link_lists_spec;
ghost use Rattle.link_groups.specs.declared.link_nodes.LinkNode as link_node_spec;
ghost use Rattle.reltable_links.specs.Linked as spec;
ghost use Rattle.reltable_links.specs.Standings as standings_spec;
ghost use Rattle.reltable_links.specs.declared.cells.RowCell as cell_spec;

use crate::cells::RowCell;
use crate::placed::below;
use crate::standings::{RowStanding, Standings};
use dita_doc::{LinkKind, NoMemory};
use link_groups::{LinkList, LinkNode};
use std::alloc::{AllocError, Global};

impl Standings {
    // Appends the links of a page.
    pub(crate) fn append(
        &self,
        alloc: Global,
        nodes: &[LinkNode],
        page: u32,
        links: &mut LinkList,
    ) -> Result<(), NoMemory>
        ensures { (cells : List cell_spec.RowCell) (all : link_lists_spec.Links)
            → standings_spec.AreStandings cells nodes.now self.now
            → IsNonDecreasingBy (λ (node : link_node_spec.LinkNode). node.at) nodes.now
            → link_lists_spec.HoldsLinks page all links.old
            → OnOk result (link_lists_spec.HoldsLinks page
            (all ++ link_lists_spec.links_to_nodes page links_spec.Related
            (spec.linked_nodes page cells nodes.now)) links.new) }
    {
        let mut linked = self.linked_cells(alloc, page)?;
        linked.sort_unstable_by_key(|cell| cell.at);
        append_below(nodes, &linked, links)?;
        Ok(())
    }

    // The cells whose nodes a page is linked to.
    fn linked_cells(&self, alloc: Global, page: u32) -> Result<Vec<RowCell>, AllocError>
        ensures { (test : cell_spec.RowCell → Bool) → IfOk result (λ linked.
            list_any test linked.items ≡ list_any
            (standings_spec.reached test self.now.rows.entries)
            (standings_spec.listed page self.now.pages.entries)) }
    {
        let mut linked = Vec::new(alloc);
        self.append_all(self.of_page(page), &mut linked)?;
        Ok(linked)
    }

    fn append_all(
        &self,
        standings: &[RowStanding],
        linked: &mut Vec<RowCell>,
    ) -> Result<(), AllocError>
        ensures { (test : cell_spec.RowCell → Bool) → OnOk result (list_any test linked.new.items
            ≡ (list_any test linked.old.items || list_any
            (standings_spec.reached test self.now.rows.entries) standings.now)) }
    {
        for standing in standings {
            self.append_row(standing, linked)?;
        }
        Ok(())
    }

    // Appends the cells of its row that a standing reaches.
    fn append_row(
        &self,
        standing: &RowStanding,
        linked: &mut Vec<RowCell>,
    ) -> Result<(), AllocError>
        ensures { (test : cell_spec.RowCell → Bool) → OnOk result (list_any test linked.new.items
            ≡ (list_any test linked.old.items
            || standings_spec.reached test self.now.rows.entries standing.now)) }
    {
        append_cells(self.cells_of(standing.row), standing, linked)?;
        Ok(())
    }
}

// Appends those of some cells that a standing reaches.
fn append_cells(
    cells: &[RowCell],
    standing: &RowStanding,
    linked: &mut Vec<RowCell>,
) -> Result<(), AllocError>
    ensures { (test : cell_spec.RowCell → Bool) → OnOk result (list_any test linked.new.items
        ≡ (list_any test linked.old.items || list_any (λ (cell : cell_spec.RowCell).
        standings_spec.reaches cell standing.now && test cell) cells.now)) }
{
    for cell in cells {
        append_cell(cell, standing, linked)?;
    }
    Ok(())
}

fn append_cell(
    cell: &RowCell,
    standing: &RowStanding,
    linked: &mut Vec<RowCell>,
) -> Result<(), AllocError>
    ensures { (test : cell_spec.RowCell → Bool) → OnOk result (list_any test linked.new.items
        ≡ (list_any test linked.old.items
        || (standings_spec.reaches cell.now standing.now && test cell.now))) }
{
    if standing.reaches(cell) {
        linked.push(*cell)?;
    }
    Ok(())
}

// Appends links to the nodes below cells in order. Cells may stand within one another, so each node
// is gone over once.
fn append_below(nodes: &[LinkNode], cells: &[RowCell], links: &mut LinkList) -> Result<(), NoMemory>
    ensures { (own : ℕ) (all : link_lists_spec.Links)
        → IsNonDecreasingBy (λ (node : link_node_spec.LinkNode). node.at) nodes.now
        → IsNonDecreasingBy (λ (cell : cell_spec.RowCell). cell.at) cells.now
        → link_lists_spec.HoldsLinks own all links.old
        → OnOk result (link_lists_spec.HoldsLinks own
        (all ++ link_lists_spec.links_to_nodes own links_spec.Related
        (filter (spec.is_target_below cells.now) nodes.now)) links.new) }
{
    let mut done = 0;
    for cell in cells {
        append_targets(below(nodes, cell, done), links)?;
        done = done.max(cell.end);
    }
    Ok(())
}

// Appends links to the nodes that may be linked to.
fn append_targets(nodes: &[LinkNode], links: &mut LinkList) -> Result<(), NoMemory>
    ensures { (own : ℕ) (all : link_lists_spec.Links)
        → link_lists_spec.HoldsLinks own all links.old
        → OnOk result (link_lists_spec.HoldsLinks own
        (all ++ link_lists_spec.links_to_nodes own links_spec.Related
        (filter spec.is_target nodes.now)) links.new) }
{
    for node in nodes {
        append_target(node, links)?;
    }
    Ok(())
}

fn append_target(node: &LinkNode, links: &mut LinkList) -> Result<(), NoMemory>
    ensures { (own : ℕ) (all : link_lists_spec.Links)
        → link_lists_spec.HoldsLinks own all links.old
        → OnOk result (link_lists_spec.HoldsLinks own
        (all ++ link_lists_spec.links_to_nodes own links_spec.Related
        (spec.if_target node.now)) links.new) }
{
    if node.is_target {
        links.push(LinkKind::Related, node.page)?;
    }
    Ok(())
}
