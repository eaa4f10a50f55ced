//! The cells of a table.

ghost use Rattle.std.specs.Prelude.{◌≡◌, ◌+◌, ◌<◌, ◌++◌, ℕ, List, IfOk, OnOk, map};
ghost use Rattle.dita_doc.specs.Siblings as siblings_spec;
ghost use Rattle.dita_doc.specs.Tree as tree_spec;
ghost use Rattle.doc_elements.specs.Walk as elements_walk;
ghost use Rattle.html_tables.specs.Walk as walk_spec;
ghost use Rattle.html_spec.specs.Blocks as blocks_spec;
ghost use Rattle.readers.specs.Named as named_spec;

use crate::context::TableContext;
use crate::groups::Groups;
use crate::rows::rows_spanned;
use dita_doc::{Doc, First, List, NoMemory, Node, Siblings};
use doc_elements::tokens_of;
use html_forms::{Form, row_among};
use std::alloc::{AllocError, Global};

/// A cell of a table: its place in the document, whether it heads its column, and how many rows and
/// columns it spans.
#[derive(Clone, Copy, PartialEq, Eq)]
pub struct Cell {
    pub place: u32,
    pub head: bool,
    pub rows: u32,
    pub columns: u32,
}

/// The cells of the table at a place, in document order. There is none if no element stands there.
/// A table inside another has the columns and the heads of the groups around its place.
pub fn cells(alloc: Global, body: &Doc, table: u32) -> Result<List<Cell>, NoMemory>
    ensures { IfOk result (λ cells. map walk_spec.shown_cell cells
        ≡ walk_spec.cells_at (named_spec.named_tree body.now) table) }
{
    let mut walk = Walk {
        cells: List::new(alloc),
        groups: Groups::new(alloc),
    };
    append_found(alloc, &mut walk, body, table)?;
    let Walk { cells, .. } = walk;
    Ok(cells)
}

// Appends the cells of the element at a place, if one stands there. On its way down from the root
// it counts the places, and meets the groups around that element.
fn append_found(alloc: Global, walk: &mut Walk, body: &Doc, table: u32) -> Result<(), NoMemory>
    ensures { OnOk result (map walk_spec.shown_cell walk.new.cells
        ≡ map walk_spec.shown_cell walk.old.cells
        ++ walk_spec.cells_at (named_spec.named_tree body.now) table) }
{
    let mut left = Siblings::of(body);
    let mut here = 0;
    let mut context = TableContext::outside();
    loop {
        match left.split_first() {
            First::End => return Ok(()),
            First::Chars { rest, .. } => {
                if here == table {
                    return Ok(());
                }
                here += 1;
                left = rest;
            }
            First::Element {
                place,
                node,
                inside,
                rest,
            } => {
                if here == table {
                    append_whole(alloc, walk, here, node, inside, context)?;
                    return Ok(());
                }
                let past = here + (node.end - place);
                if past <= table {
                    here = past;
                    left = rest;
                } else {
                    context = enter(alloc, &mut walk.groups, node, inside, context)?;
                    here += 1;
                    left = inside;
                }
            }
        }
    }
}

// Appends the cells of an element that stands at this place.
fn append_whole(
    alloc: Global,
    walk: &mut Walk,
    place: u32,
    element: &Node,
    inside: Siblings<'_>,
    context: TableContext,
) -> Result<(), NoMemory>
    requires { place + 1 + tree_spec.size_of (siblings_spec.content inside) < tree_spec.doc_node_limit }
    ensures { (names : List (List ℕ)) (name : List ℕ) (around : blocks_spec.HtmlContext)
        → walk_spec.IsContext walk.old.groups context around
        → OnOk result (walk_spec.HasCellsMore walk.old walk.new (walk_spec.cells_of around place
        (elements_walk.element_of name element.now, walk_spec.content_named names inside.entry))) }
{
    let within = walk.enter(alloc, place, element, inside, context)?;
    append_cells(alloc, walk, inside, place + 1, within)?;
    Ok(())
}

// Where what an element holds stands. The columns of a group are read once, here.
fn enter(
    alloc: Global,
    groups: &mut Groups,
    element: &Node,
    inside: Siblings<'_>,
    context: TableContext,
) -> Result<TableContext, NoMemory>
    ensures kept { OnOk result (walk_spec.KeepsGroups groups.old groups.new) }
    ensures within { (names : List (List ℕ)) (name : List ℕ) (around : blocks_spec.HtmlContext)
        → walk_spec.IsContext groups.old context around → IfOk result (λ within.
        walk_spec.HasWithin groups.new within (elements_walk.element_of name element.now)
        (walk_spec.content_named names inside.entry) around) }
{
    let tokens = tokens_of(element);
    let group = groups.enter(alloc, tokens, inside, context.group)?;
    match row_among(tokens) {
        Some((token, _)) => Ok(context.within(token, group)),
        None => Ok(TableContext { group, ..context }),
    }
}

// The cells and the groups that were met.
#[derive(Drop)]
struct Walk {
    cells: List<Cell>,
    groups: Groups,
}

impl Walk {
    ghost use Rattle.std.specs.Prelude.{◌≡◌, ◌++◌, ℕ, List, Some, IfOk, OnOk, map};
    ghost use Rattle.doc_elements.specs.Walk as elements_walk;
    ghost use Rattle.html_forms.specs.Shown.{form_shown_of};
    ghost use Rattle.html_tables.specs.Walk as walk_spec;
    ghost use Rattle.html_spec.specs.Blocks.{HtmlContext};
    ghost use Rattle.html_spec.specs.Blocks as blocks_spec;

    // Appends an element, if it is a cell, and tells where what it holds stands.
    fn enter(
        &mut self,
        alloc: Global,
        place: u32,
        element: &Node,
        inside: Siblings<'_>,
        context: TableContext,
    ) -> Result<TableContext, NoMemory>
        ensures { (names : List (List ℕ)) (name : List ℕ) (around : HtmlContext)
            → walk_spec.IsContext self.old.groups context around → IfOk result (λ within.
            walk_spec.HasEntered self.old self.new within place
            (elements_walk.element_of name element.now)
            (walk_spec.content_named names inside.entry) around) }
    {
        self.append_cell(place, element, context)?;
        let within = enter(alloc, &mut self.groups, element, inside, context)?;
        Ok(within)
    }

    // Appends an element, if it is a cell.
    fn append_cell(
        &mut self,
        place: u32,
        element: &Node,
        context: TableContext,
    ) -> Result<(), AllocError>
        ensures groups { self.new.groups ≡ self.old.groups }
        ensures cells { (name : List ℕ) (around : HtmlContext)
            → walk_spec.IsContext self.old.groups context around
            → OnOk result (map walk_spec.shown_cell self.new.cells
            ≡ map walk_spec.shown_cell self.old.cells ++ blocks_spec.cell_by around place
            (elements_walk.element_of name element.now)
            (blocks_spec.row_for (elements_walk.element_of name element.now))) }
    {
        match self.cell_of(place, element, context) {
            Some(cell) => self.cells.push(cell),
            None => Ok(()),
        }
    }

    // The cell that an element is, if it is one.
    fn cell_of(&self, place: u32, element: &Node, context: TableContext) -> Option<Cell>
        ensures { (name : List ℕ) (around : HtmlContext)
            → walk_spec.IsContext self.now.groups context around
            → walk_spec.cells_shown result ≡ blocks_spec.cell_by around place
            (elements_walk.element_of name element.now)
            (blocks_spec.row_for (elements_walk.element_of name element.now)) }
    {
        match row_among(tokens_of(element)) {
            Some((_, form)) => self.cell_by(place, element, form, context),
            None => None,
        }
    }

    // The cell that an element of this form is, if it is one.
    fn cell_by(&self, place: u32, element: &Node, form: Form, context: TableContext) -> Option<Cell>
        ensures { (name token : List ℕ) (around : HtmlContext)
            → walk_spec.IsContext self.now.groups context around
            → walk_spec.cells_shown result ≡ blocks_spec.cell_by around place
            (elements_walk.element_of name element.now) (Some (token, form_shown_of form)) }
    {
        match form {
            Form::Cell => Some(Cell {
                place,
                head: context.head,
                rows: rows_spanned(element),
                columns: self.groups.columns_spanned(context.group, element),
            }),
            Form::SimpleCell => Some(Cell {
                place,
                head: context.simple_head,
                rows: 1,
                columns: 1,
            }),
            _ => None,
        }
    }
}

// Appends the cells among some siblings, and those below them. It counts the places on the way,
// from that of the first sibling, and gives the place behind them.
fn append_cells(
    alloc: Global,
    walk: &mut Walk,
    siblings: Siblings<'_>,
    place: u32,
    context: TableContext,
) -> Result<u32, NoMemory>
    requires { place + tree_spec.size_of (siblings_spec.content siblings)
        < tree_spec.doc_node_limit }
    ensures past { IfOk result (λ past.
        past ≡ place + tree_spec.size_of (siblings_spec.content siblings.entry)) }
    ensures cells { (names : List (List ℕ)) (around : blocks_spec.HtmlContext)
        → walk_spec.IsContext walk.old.groups context around
        → OnOk result (walk_spec.HasCellsMore walk.old walk.new (blocks_spec.cells_from around place
        (walk_spec.content_named names siblings.entry))) }
{
    let mut left = siblings;
    let mut here = place;
    loop {
        match left.split_first() {
            First::End => return Ok(here),
            First::Chars { rest, .. } => {
                here += 1;
                left = rest;
            }
            First::Element {
                node,
                inside,
                rest,
                ..
            } => {
                let within = walk.enter(alloc, here, node, inside, context)?;
                here = append_cells(alloc, walk, inside, here + 1, within)?;
                left = rest;
            }
        }
    }
}
