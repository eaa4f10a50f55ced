//! Faults of elements.

ghost use Rattle.std.specs.Prelude.{◌≡◌, ◌++◌, IfOk, OnOk, option_to_list};
ghost use Rattle.map_spec.specs.Elements as elements_spec;
ghost use Rattle.doc_elements.specs.Walk as walk_spec;

use crate::types::is_transparent;
use dita_doc::{Fault, FaultCode, List, Name, NoMemory, Node, Text};
use std::alloc::Global;

/// A fault at an element that was written in the document of this name.
pub fn fault_at(
    alloc: Global,
    name: &Name,
    element: &Node,
    code: FaultCode,
    detail: &str,
) -> Result<Fault, NoMemory>
    ensures { IfOk result (λ fault. fault ≡ elements_spec.fault_at
        (walk_spec.element_of name.now element.now) code detail.now) }
{
    Ok(Fault {
        name: name.clone()?,
        line: element.line,
        code,
        detail: Text::from_str(alloc, detail)?,
    })
}

/// The fault of an element that is transparent: it has no class, or one that can't be read.
pub fn class_fault(alloc: Global, name: &Name, element: &Node) -> Result<Option<Fault>, NoMemory>
    ensures { IfOk result (λ fault. option_to_list fault
        ≡ elements_spec.class_faults (walk_spec.element_of name.now element.now)) }
{
    if !is_transparent(element) {
        return Ok(None);
    }
    let Some(value) = element.value_of("class") else {
        let element_name = element.text.as_str();
        return Ok(Some(fault_at(alloc, name, element, FaultCode::NoClass, element_name)?));
    };
    Ok(Some(fault_at(alloc, name, element, FaultCode::BadClass, value)?))
}

/// Appends faults, which are moved. Without memory some of them may have been appended.
pub fn append_faults(out: &mut List<Fault>, faults: List<Fault>) -> Result<(), NoMemory>
    ensures { OnOk result (out.new ≡ out.old ++ faults) }
{
    for fault in faults.into_vec() {
        out.push(fault)?;
    }
    Ok(())
}
