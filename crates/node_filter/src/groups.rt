//! Conditional attributes whose values are groups.

ghost use Rattle.std.specs.Prelude.{◌≡◌, ◌++◌, OnOk};
ghost use Rattle.doc_elements.specs.Walk as walk_spec;
ghost use Rattle.map_spec.specs.Judged as judged_spec;

use dita_doc::{Attribute, Fault, FaultCode, List, Name, NoMemory, Node, Text};
use ditaval_rules::is_conditional_among;
use doc_elements::fault_at;
use std::alloc::Global;

/// Appends a fault for each conditional attribute of an element whose value has groups: such a
/// value counts as absent. The names are those declared for the element.
pub(crate) fn append_group_faults(
    alloc: Global,
    faults: &mut List<Fault>,
    declared: &List<Text>,
    name: &Name,
    element: &Node,
) -> Result<(), NoMemory>
    ensures { OnOk result (faults.new ≡ faults.old
        ++ judged_spec.group_faults declared.now (walk_spec.element_of name.now element.now)) }
{
    for attribute in element.attributes.as_slice() {
        if is_group(declared, attribute) {
            let detail = attribute.name.as_str();
            faults.push(fault_at(alloc, name, element, FaultCode::GroupValue, detail)?)?;
        }
    }
    Ok(())
}

fn is_group(declared: &List<Text>, attribute: &Attribute) -> bool
    ensures { result ≡ judged_spec.has_groups declared.now attribute.now }
{
    is_conditional_among(declared, attribute.name.as_str())
        && attribute.value.as_bytes().contains(&b'(')
}
