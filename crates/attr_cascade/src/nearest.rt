//! The attributes of which the nearest value on the walk to the root counts.

ghost use Rattle.std.specs.Prelude.{◌≡◌, ◌||◌, codes, bytes_eq, length, map, Some, IfOk};
ghost use Rattle.std.specs.Option.{option_copied, option_or};
ghost use Rattle.attr_cascade.specs.Nearest as spec;
ghost use Rattle.map_spec.specs.Cascade as cascade_spec;
ghost use Rattle.plan_nodes.specs.Preorder as preorder_spec;
ghost use Rattle.reader_spec.specs.World.{World};

use dita_doc::{PlanKind, PlanNode};
use plan_nodes::NodeElements;
use std::alloc::{AllocError, Global};

/// For each node the nearest value of each attribute, if one is written on its walk.
#[derive(Drop)]
pub(crate) struct Nearest<'a> {
    pub linking: Vec<Option<&'a str>>,
    pub toc: Vec<Option<&'a str>>,
    pub format: Vec<Option<&'a str>>,
    pub scope: Vec<Option<&'a str>>,
    /// The attribute `processing-role`.
    pub role: Vec<Option<&'a str>>,
    pub cascade: Vec<Option<&'a str>>,
}

impl<'a> Nearest<'a> {
    pub(crate) fn of(
        alloc: Global,
        homes: &'a NodeElements,
        nodes: &[PlanNode],
    ) -> Result<Nearest<'a>, AllocError>
        ensures { (world : World) → homes.now ≡ map (cascade_spec.whole_at world) nodes.now
            → preorder_spec.HasParentsBefore nodes.now
            → IfOk result (λ nearest. spec.AreNearest world nodes.now nearest) }
    {
        Ok(Nearest {
            linking: nearest_values(alloc, homes, nodes, "linking")?,
            toc: nearest_values(alloc, homes, nodes, "toc")?,
            format: nearest_values(alloc, homes, nodes, "format")?,
            scope: nearest_values(alloc, homes, nodes, "scope")?,
            role: nearest_values(alloc, homes, nodes, "processing-role")?,
            cascade: nearest_values(alloc, homes, nodes, "cascade")?,
        })
    }
}

/// The value of the node at this place, if there is one.
pub(crate) fn nearest_at<'a>(values: &[Option<&'a str>], at: usize) -> Option<&'a str>
    ensures { option_copied result ≡ spec.value_at (spec.seen values.now) at }
{
    *values.get(at)?
}

// The nearest value of an attribute for each node: its own, else what its parent passes on.
fn nearest_values<'a>(
    alloc: Global,
    homes: &'a NodeElements,
    nodes: &[PlanNode],
    name: &str,
) -> Result<Vec<Option<&'a str>>, AllocError>
    ensures { (world : World) → homes.now ≡ map (cascade_spec.whole_at world) nodes.now
        → preorder_spec.HasParentsBefore nodes.now
        → IfOk result (λ values. spec.seen values.items
        ≡ spec.nearest_of world name.now nodes.now) }
{
    let mut values = Vec::new(alloc);
    for (at, node) in nodes.iter().enumerate() {
        let own = homes.value(at, name);
        let parent = parent_of(nodes, at, node);
        let value = own_or_passed(own, name, node, parent, &values);
        values.push(value)?;
    }
    Ok(values)
}

// The parent of the node at this place, if it stands before it.
fn parent_of<'a>(nodes: &'a [PlanNode], at: usize, node: &PlanNode) -> Option<&'a PlanNode>
    ensures { option_copied result ≡ spec.parent_of nodes.now at node.now }
{
    if (node.parent as usize) < at {
        nodes.get(node.parent as usize)
    } else {
        None
    }
}

// A node's own value, else what its parent passes on.
fn own_or_passed<'a>(
    own: Option<&'a str>,
    name: &str,
    node: &PlanNode,
    parent: Option<&PlanNode>,
    values: &[Option<&'a str>],
) -> Option<&'a str>
    ensures { option_copied result ≡ option_or (option_copied own.entry)
        (spec.passed_on name.now node.now (option_copied parent.entry) (spec.seen values.now)) }
{
    match own {
        Some(value) => Some(value),
        None => passed(name, node, parent, values),
    }
}

// What a parent passes on to a node without a value of its own. A node that includes a map passes
// its format and scope to its own children alone, and not to the map; and the format of maps passes
// to none.
fn passed<'a>(
    name: &str,
    node: &PlanNode,
    parent: Option<&PlanNode>,
    values: &[Option<&'a str>],
) -> Option<&'a str>
    ensures { option_copied result ≡ spec.passed_on name.now node.now
        (option_copied parent.entry) (spec.seen values.now) }
{
    let parent = parent?;
    if stops(name, node, parent) {
        return None;
    }
    let value = nearest_at(values, node.parent as usize)?;
    if stays_behind(name, value) {
        None
    } else {
        Some(value)
    }
}

// Whether a parent passes its value of an attribute to its own children alone, and not to this map.
fn stops(name: &str, node: &PlanNode, parent: &PlanNode) -> bool
    ensures { result ≡ spec.stops name.now node.now parent.now }
{
    is_of_reference(name) && is_map(node.kind) && is_included(parent.kind)
}

// Whether the attribute says something of what a reference leads to.
fn is_of_reference(name: &str) -> bool
    ensures { result
        ≡ (bytes_eq name.now (codes "format") || bytes_eq name.now (codes "scope")) }
{
    name == "format" || name == "scope"
}

fn is_map(kind: PlanKind) -> bool
    ensures { result ≡ cascade_spec.is_map_kind kind }
{
    matches!(kind, PlanKind::Map)
}

fn is_included(kind: PlanKind) -> bool
    ensures { result ≡ cascade_spec.is_included_kind kind }
{
    matches!(kind, PlanKind::Included)
}

// Whether a value passes to no child: the format of maps.
fn stays_behind(name: &str, value: &str) -> bool
    ensures { result ≡ cascade_spec.stays_behind name.now (Some value.now) }
{
    name == "format" && "ditamap" == value
}
