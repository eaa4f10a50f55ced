//! What is wrong with elements of maps.

ghost use Rattle.std.specs.Prelude.{◌≡◌, ◌+◌, ◌<◌, ◌++◌, [], ◌∷◌, Some, slice_get, length, OnOk};
ghost use Rattle.dita_doc.specs.declared.doc.Node as doc;
ghost use Rattle.map_spec.specs.Elements as elements_spec;
ghost use Rattle.map_spec.specs.Included as included_spec;
ghost use Rattle.doc_elements.specs.Walk as walk_spec;
ghost use Rattle.map_expand.specs.Homes as homes_spec;

use crate::maps::Maps;
use crate::work::Walk;
use dita_doc::{Fault, FaultCode, List, Name, NoMemory, Node};
use doc_elements::{class_fault, fault_at};
use std::alloc::Global;

/// Appends a fault for each content reference of an element, which is ignored.
pub(crate) fn append_ignored(
    alloc: Global,
    faults: &mut List<Fault>,
    name: &Name,
    element: &Node,
) -> Result<(), NoMemory>
    ensures { OnOk result (faults.new ≡ faults.old
        ++ included_spec.ignored_references (walk_spec.element_of name.now element.now)) }
{
    append_ignored_by(alloc, faults, name, element, "conref")?;
    append_ignored_by(alloc, faults, name, element, "conkeyref")
}

// Appends a fault if the element has a content reference by this attribute.
fn append_ignored_by(
    alloc: Global,
    faults: &mut List<Fault>,
    name: &Name,
    element: &Node,
    attribute: &str,
) -> Result<(), NoMemory>
    ensures { OnOk result (faults.new ≡ faults.old ++ included_spec.ignored_by attribute.now
        (walk_spec.element_of name.now element.now)) }
{
    if let Some(value) = element.value_of(attribute) {
        faults.push(fault_at(alloc, name, element, FaultCode::MapConref, value)?)?;
    }
    Ok(())
}

/// Appends the fault of the first element of a walk, if it has no class that can be read.
pub(crate) fn append_class_fault(
    alloc: Global,
    faults: &mut List<Fault>,
    maps: &Maps,
    walk: Walk,
) -> Result<(), NoMemory>
    requires { walk.map < length (homes_spec.homes maps.now.maps.items) }
    ensures { (node : doc.Node) → homes_spec.IsNodeOf
        (homes_spec.home_at (homes_spec.homes maps.now.maps.items) walk.map) walk node →
        OnOk result (faults.new ≡ faults.old ++ elements_spec.class_faults (walk_spec.element_of
        (homes_spec.name_at (homes_spec.homes maps.now.maps.items) walk.map) node)) }
{
    if let Some((name, element)) = maps.first(walk) {
        if let Some(fault) = class_fault(alloc, name, element)? {
            faults.push(fault)?;
        }
    }
    Ok(())
}

/// Appends a fault at the first element of a walk.
pub(crate) fn append_fault(
    alloc: Global,
    faults: &mut List<Fault>,
    maps: &Maps,
    walk: Walk,
    code: FaultCode,
    detail: &str,
) -> Result<(), NoMemory>
    requires { walk.map < length (homes_spec.homes maps.now.maps.items) }
    ensures { (node : doc.Node) → homes_spec.IsNodeOf
        (homes_spec.home_at (homes_spec.homes maps.now.maps.items) walk.map) walk node →
        OnOk result (faults.new ≡ faults.old ++ elements_spec.fault_at (walk_spec.element_of
        (homes_spec.name_at (homes_spec.homes maps.now.maps.items) walk.map) node)
        code detail.now ∷ []) }
{
    if let Some((name, element)) = maps.first(walk) {
        faults.push(fault_at(alloc, name, element, code, detail)?)?;
    }
    Ok(())
}
