//! The cells of each row, and the rows in which the nodes of each page stand.

ghost use Rattle.std.specs.Prelude.{◌≡◌, ◌==◌, ◌&&◌, ◌||◌, ◌++◌, ℕ, IfOk, OnOk};
ghost use Rattle.std.specs.List.{list_any};
ghost use Rattle.std.specs.List.Sorted.{IsNonDecreasingBy};
ghost use Rattle.link_groups.specs.declared.link_nodes.LinkNode as link_node_spec;
ghost use Rattle.reltable_links.specs.CellTable as cell_table_spec;
ghost use Rattle.reltable_links.specs.Standings as spec;
ghost use Rattle.reltable_links.specs.declared.cells.RowCell as cell_spec;

use crate::cells::RowCell;
use crate::placed::below;
use dita_doc::NoMemory;
use link_groups::LinkNode;
use std::alloc::{AllocError, Global};
use std::collections::BTreeMap;

// Where a page stands in a row: one of its cells, and whether it stands in others too.
#[derive(Clone, Copy)]
pub(crate) struct RowStanding {
    pub row: u32,
    pub cell: u32,
    pub is_several: bool,
}

impl RowStanding {
    fn alone(own: &RowCell) -> RowStanding
        ensures { result ≡ spec.alone own.now }
    {
        RowStanding {
            row: own.row,
            cell: own.at,
            is_several: false,
        }
    }

    // With one cell more of the row.
    fn joined(&self, own: &RowCell) -> RowStanding
        ensures { result ≡ spec.in_one_cell_more self.now own.now }
    {
        RowStanding {
            row: self.row,
            cell: self.cell,
            is_several: self.is_several || self.cell != own.at,
        }
    }

    // Whether a page that stands so is linked to the nodes below a cell.
    pub(crate) fn reaches(&self, cell: &RowCell) -> bool
        ensures { result ≡ spec.reaches cell.now self.now }
    {
        self.row == cell.row && (self.is_several || self.cell != cell.at || cell.is_family)
    }
}

// The cells of rows, and where pages stand in them.
#[derive(Drop)]
pub(crate) struct Standings {
    // The cells of each row, in order.
    rows: BTreeMap<u32, Vec<RowCell>>,
    // The rows in which the nodes of each page may link.
    pages: BTreeMap<u32, Vec<RowStanding>>,
}

impl Standings {
    pub(crate) fn of(
        alloc: Global,
        cells: &[RowCell],
        nodes: &[LinkNode],
    ) -> Result<Standings, NoMemory>
        ensures { IsNonDecreasingBy (λ (node : link_node_spec.LinkNode). node.at) nodes.now
            → IfOk result (spec.AreStandings cells.now nodes.now) }
    {
        let rows = rows_of(alloc, cells)?;
        let pages = pages_of(alloc, cells, nodes)?;
        Ok(Standings { rows, pages })
    }

    // The cells of a row.
    pub(crate) fn cells_of(&self, row: u32) -> &[RowCell]
        ensures { result.now ≡ spec.listed row self.now.rows.entries }
    {
        match self.rows.get(&row) {
            Some(cells) => cells,
            None => &[],
        }
    }

    // Where a page stands.
    pub(crate) fn of_page(&self, page: u32) -> &[RowStanding]
        ensures { result.now ≡ spec.listed page self.now.pages.entries }
    {
        match self.pages.get(&page) {
            Some(standings) => standings,
            None => &[],
        }
    }
}

fn rows_of(alloc: Global, cells: &[RowCell]) -> Result<BTreeMap<u32, Vec<RowCell>>, NoMemory>
    ensures { IfOk result (λ rows. spec.AreRows cells.now rows.entries) }
{
    let mut rows = BTreeMap::new(alloc);
    for cell in cells {
        put_cell(alloc, &mut rows, cell)?;
    }
    Ok(rows)
}

// Puts a cell behind those of its row.
fn put_cell(
    alloc: Global,
    rows: &mut BTreeMap<u32, Vec<RowCell>>,
    cell: &RowCell,
) -> Result<(), NoMemory>
    ensures { OnOk result ((row : ℕ) → spec.listed row rows.new.entries
        ≡ spec.listed row rows.old.entries ++ spec.if_in row cell.now) }
{
    let list = rows.entry(cell.row)?.or_insert_with(|| Vec::new(alloc));
    list.push(*cell)?;
    Ok(())
}

// Goes over the cells row by row, so that the cells of a page's row stand together.
fn pages_of(
    alloc: Global,
    cells: &[RowCell],
    nodes: &[LinkNode],
) -> Result<BTreeMap<u32, Vec<RowStanding>>, NoMemory>
    ensures { IsNonDecreasingBy (λ (node : link_node_spec.LinkNode). node.at) nodes.now
        → IfOk result (λ pages. spec.ArePages cells.now nodes.now pages.entries) }
{
    let mut ordered = Vec::from_slice(alloc, cells)?;
    ordered.sort_unstable_by_key(|cell| cell.row);
    let pages = pages_from(alloc, &ordered, nodes)?;
    Ok(pages)
}

fn pages_from(
    alloc: Global,
    cells: &[RowCell],
    nodes: &[LinkNode],
) -> Result<BTreeMap<u32, Vec<RowStanding>>, NoMemory>
    ensures { IsNonDecreasingBy (λ (node : link_node_spec.LinkNode). node.at) nodes.now
        → IfOk result (λ pages. (page : ℕ) (cell : cell_spec.RowCell)
        → spec.reaches_at page pages.entries cell
        ≡ list_any (spec.stands_in page nodes.now cell) cells.now) }
{
    let mut pages = BTreeMap::new(alloc);
    for own in cells {
        put_pages(alloc, &mut pages, nodes, own)?;
    }
    Ok(pages)
}

// Puts a cell to the pages of the nodes below it.
fn put_pages(
    alloc: Global,
    pages: &mut BTreeMap<u32, Vec<RowStanding>>,
    nodes: &[LinkNode],
    own: &RowCell,
) -> Result<(), NoMemory>
    ensures { IsNonDecreasingBy (λ (node : link_node_spec.LinkNode). node.at) nodes.now
        → OnOk result ((page : ℕ) (cell : cell_spec.RowCell)
        → spec.reaches_at page pages.new.entries cell
        ≡ (spec.reaches_at page pages.old.entries cell
        || spec.stands_in page nodes.now cell own.now)) }
{
    put_nodes(alloc, pages, below(nodes, own, 0), own)?;
    Ok(())
}

fn put_nodes(
    alloc: Global,
    pages: &mut BTreeMap<u32, Vec<RowStanding>>,
    nodes: &[LinkNode],
    own: &RowCell,
) -> Result<(), NoMemory>
    ensures { OnOk result ((page : ℕ) (cell : cell_spec.RowCell)
        → spec.reaches_at page pages.new.entries cell
        ≡ (spec.reaches_at page pages.old.entries cell
        || list_any (spec.leads_from page own.now cell) nodes.now)) }
{
    for node in nodes {
        put_node(alloc, pages, node, own)?;
    }
    Ok(())
}

// Puts a cell to the page of a node, if links may go from it.
fn put_node(
    alloc: Global,
    pages: &mut BTreeMap<u32, Vec<RowStanding>>,
    node: &LinkNode,
    own: &RowCell,
) -> Result<(), NoMemory>
    ensures { OnOk result ((page : ℕ) (cell : cell_spec.RowCell)
        → spec.reaches_at page pages.new.entries cell
        ≡ (spec.reaches_at page pages.old.entries cell
        || spec.leads_from page own.now cell node.now)) }
{
    if node.is_source {
        put_standing(alloc, pages, node.page, own)?;
    }
    Ok(())
}

fn put_standing(
    alloc: Global,
    pages: &mut BTreeMap<u32, Vec<RowStanding>>,
    page: u32,
    own: &RowCell,
) -> Result<(), NoMemory>
    ensures { OnOk result ((other : ℕ) (cell : cell_spec.RowCell)
        → spec.reaches_at other pages.new.entries cell
        ≡ (spec.reaches_at other pages.old.entries cell
        || ((page == other) && cell_table_spec.relates own.now cell))) }
{
    let list = pages.entry(page)?.or_insert_with(|| Vec::new(alloc));
    add(list, own)?;
    Ok(())
}

// Adds a cell to the last standing, if that is of the same row, or behind the others.
fn add(list: &mut Vec<RowStanding>, own: &RowCell) -> Result<(), AllocError>
    ensures { (cell : cell_spec.RowCell) → OnOk result (list_any (spec.reaches cell) list.new.items
        ≡ (list_any (spec.reaches cell) list.old.items
        || cell_table_spec.relates own.now cell)) }
{
    let Some(last) = list.pop() else {
        list.push(RowStanding::alone(own))?;
        return Ok(());
    };
    if last.row == own.row {
        list.push(last.joined(own))?;
        return Ok(());
    }
    list.push(last)?;
    list.push(RowStanding::alone(own))?;
    Ok(())
}
