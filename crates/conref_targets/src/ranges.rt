//! Ranges of siblings.

ghost use Rattle.std.specs.Prelude.{◌≡◌, ◌&&◌, ◌+◌, ℕ, List, Some, IfOk, OnOk, slice_get};
ghost use Rattle.std.specs.Arc.{arc_value};
ghost use Rattle.std.specs.Option.{option_copied};
ghost use Rattle.dita_doc.specs.Tree as tree_spec;
ghost use Rattle.dita_doc.specs.Tree.{Content};
ghost use Rattle.doc_elements.specs.Walk as walk_spec;
ghost use Rattle.conref_spec.specs.Content as content_spec;
ghost use Rattle.readers.specs.Named as named_spec;
ghost use Rattle.conref_targets.specs.Found.{IsFound};
ghost use Rattle.conref_targets.specs.Parts as parts_spec;
ghost use Rattle.conref_targets.specs.Ranges as spec;
ghost use Rattle.conref_targets.specs.Tables.{AreTables, Documents};

use crate::find::Found;
use crate::origin::node_of;
use crate::reference::reference_in;
use crate::tables::PlaceTables;
use dita_doc::{Doc, NoMemory, Node, NodeKind, Text};
use std::alloc::Global;

/// Where the range behind a target ends, by the value that says so; without one there is no range.
/// It is none if the value names no end. `target` is the node of the target.
pub fn range_end(
    alloc: Global,
    places: &mut PlaceTables,
    found: &Found<'_>,
    target: &Node,
    value: Option<&str>,
) -> Result<Option<u32>, NoMemory>
    ensures range { (documents : Documents) (meant : content_spec.Found)
        → AreTables documents places.old → IsFound documents meant found.now
        → slice_get (arc_value found.now.doc).nodes found.now.place ≡ Some target.now
        → IfOk result (λ to. spec.IsRangeEnd target.now.end meant.standing.behind
        (content_spec.range_by meant.standing (option_copied value.entry)) to) }
    ensures tables { (documents : Documents) (meant : content_spec.Found)
        → AreTables documents places.old → IsFound documents meant found.now
        → OnOk result (AreTables documents places.new) }
{
    let Some(value) = value else {
        return Ok(Some(target.end));
    };
    let Some(id) = end_id(alloc, value)? else {
        return Ok(None);
    };
    // The target itself may be the end.
    if is_end(target, id.as_str()) {
        return Ok(Some(target.end));
    }
    let end = places.siblings_end(alloc, &found.name, &found.doc, found.place)?;
    Ok(end_of_range(
        &found.doc,
        target.end,
        end.unwrap_or(target.end),
        id.as_str(),
    ))
}

// Whether an element ends a range up to this id.
fn is_end(element: &Node, id: &str) -> bool
    ensures { (name : List ℕ) → result ≡ content_spec.has_end_id id.now
        (walk_spec.element_of name element.now) }
{
    element.value_of("id") == Some(id)
}

// The id of the element that ends a range.
fn end_id(alloc: Global, value: &str) -> Result<Option<Text>, NoMemory>
    ensures { IfOk result (λ id. id ≡ content_spec.end_id value.now) }
{
    let Some(reference) = reference_in(alloc, value)? else {
        return Ok(None);
    };
    if reference.element.is_empty() {
        return Ok(None);
    }
    Ok(Some(reference.element))
}

// Among the siblings from one place to another, the place behind the first element of this id.
fn end_of_range(doc: &Doc, from: u32, to: u32, id: &str) -> Option<u32>
    ensures { (part : Content) → parts_spec.AreSiblingsAt (tree_spec.tree_of doc.now.nodes) from part
        → from + tree_spec.size_of part ≡ to → result ≡ parts_spec.end_place id.now from
        (named_spec.under_names doc.now.origins part) }
{
    let mut place = from;
    for _ in from..to {
        if place >= to {
            return None;
        }
        let Some(node) = node_of(doc, place) else {
            return None;
        };
        place = node.end;
        if has_id(node, id) {
            return Some(place);
        }
    }
    None
}

// Whether a node is an element of this id.
fn has_id(node: &Node, id: &str) -> bool
    ensures { (name : List ℕ) → result ≡ (tree_spec.is_element node.now.kind
        && content_spec.has_end_id id.now (walk_spec.element_of name node.now)) }
{
    node.kind == NodeKind::Element && node.value_of("id") == Some(id)
}
