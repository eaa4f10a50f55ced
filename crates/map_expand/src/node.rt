//! The nodes that elements make.

ghost use Rattle.std.specs.Prelude.{◌≡◌, IfOk, List, ℕ};
ghost use Rattle.std.specs.Option.{option_copied};
ghost use Rattle.doc_elements.specs.Walk as walk_spec;
ghost use Rattle.map_spec.specs.Included as included_spec;
ghost use Rattle.map_spec.specs.MapTree as tree_spec;
ghost use Rattle.map_expand.specs.Asking as spec;

use crate::work::Walk;
use dita_doc::{List, Name, NoMemory, Node, PlanKind, PlanNode, Text};
use std::alloc::Global;
use targets::{Named, named_of};

/// What a topicref includes: its href, and what that names.
#[derive(Drop)]
pub(crate) struct Inclusion {
    pub href: Text,
    pub named: Named,
}

/// What an element includes, if it makes a node of this kind.
pub(crate) fn asked_by(
    alloc: Global,
    name: &Name,
    element: &Node,
    kind: PlanKind,
    in_table: bool,
) -> Result<Option<Inclusion>, NoMemory>
    ensures { IfOk result (λ asked. spec.IsAsked kind in_table
        (walk_spec.element_of name.now element.now) asked) }
{
    let Some(href) = map_href(element, kind, in_table) else {
        return Ok(None);
    };
    Ok(Some(Inclusion {
        href: Text::from_str(alloc, href)?,
        named: named_of(alloc, name, element, href)?,
    }))
}

// The href of a topicref by which it includes a map: it is written with the format of maps, and
// stands outside relationship tables.
fn map_href(element: &Node, kind: PlanKind, in_table: bool) -> Option<&str>
    ensures { (name : List ℕ) → option_copied result
        ≡ spec.map_href kind in_table (walk_spec.element_of name element.now) }
{
    if kind != PlanKind::Reference || in_table {
        return None;
    }
    match element.value_of("format") {
        Some("ditamap") => element.value_of("href"),
        _ => None,
    }
}

/// The kind of a node with what its element includes.
pub(crate) fn kind_with(asked: &Option<Inclusion>, kind: PlanKind) -> PlanKind
    ensures { result ≡ spec.kind_with asked.now kind }
{
    match asked {
        Some(_) => PlanKind::Included,
        None => kind,
    }
}

/// The node of the first element of a walk, without its end, and as it is before its map is
/// filtered, copied, and cascaded over.
pub(crate) fn made_node(
    alloc: Global,
    name: &Name,
    element: &Node,
    walk: Walk,
    kind: PlanKind,
) -> Result<PlanNode, NoMemory>
    ensures { IfOk result (λ node. node ≡ tree_spec.node_of (included_spec.new_head kind
        (walk_spec.element_of name.now element.now) walk.level walk.place) walk.parent 0) }
{
    Ok(PlanNode {
        kind,
        doc: name.clone()?,
        place: walk.place,
        line: element.line,
        level: walk.level,
        parent: walk.parent,
        end: 0,
        scope: 0,
        scope_names: List::new(alloc),
        filters: List::new(alloc),
        affixes: List::new(alloc),
        cascaded: List::new(alloc),
    })
}
