//! The judging of elements.

ghost use Rattle.std.specs.Prelude.{◌≡◌, ◌++◌, OnOk};
ghost use Rattle.std.specs.List.{list_any};
ghost use Rattle.ditaval_rules.specs.Verdict as verdict_spec;
ghost use Rattle.doc_elements.specs.Walk as walk_spec;
ghost use Rattle.map_spec.specs.Judged as judged_spec;
ghost use Rattle.conref_targets.specs.Judging as judging_spec;

use crate::rules::PageRules;
use dita_doc::{Attribute, Fault, FaultCode, List, Name, NoMemory, Node, Text};
use ditaval_rules::is_conditional_among;
use doc_elements::fault_at;
use std::alloc::Global;

impl<'a> PageRules<'a> {
    ghost use Rattle.std.specs.Prelude.{◌≡◌, ◌++◌, IfOk, OnOk};
    ghost use Rattle.doc_elements.specs.Walk as walk_spec;
    ghost use Rattle.map_spec.specs.Judged as judged_spec;
    ghost use Rattle.conref_targets.specs.Judging as judging_spec;
    ghost use Rattle.conref_targets.specs.Rules as rules_spec;

    /// Whether an element goes that has these attributes, and for which these names of conditional
    /// attributes are declared. A value of groups counts as absent, with a fault.
    pub fn is_excluded(
        &self,
        alloc: Global,
        faults: &mut List<Fault>,
        origin: &Name,
        element: &Node,
        declared: &List<Text>,
        attributes: &List<Attribute>,
    ) -> Result<bool, NoMemory>
        ensures faults { OnOk result (faults.new ≡ faults.old
            ++ judged_spec.group_faults declared.now (judging_spec.with_attributes attributes.now
            (walk_spec.element_of origin.now element.now))) }
        ensures goes { IfOk result (λ goes. goes
            ≡ rules_spec.some_exclude self.now declared.now attributes.now) }
    {
        append_group_faults(alloc, faults, origin, element, declared, attributes)?;
        if self.is_empty() {
            return Ok(false);
        }
        if !has_judged(declared, attributes) {
            return Ok(false);
        }
        Ok(self.exclude(declared, attributes))
    }
}

// Appends a fault for each conditional attribute whose value has groups.
fn append_group_faults(
    alloc: Global,
    faults: &mut List<Fault>,
    origin: &Name,
    element: &Node,
    declared: &List<Text>,
    attributes: &List<Attribute>,
) -> Result<(), NoMemory>
    ensures { OnOk result (faults.new ≡ faults.old
        ++ judged_spec.group_faults declared.now (judging_spec.with_attributes attributes.now
        (walk_spec.element_of origin.now element.now))) }
{
    for attribute in attributes.as_slice() {
        if is_group(declared, attribute) {
            let name = attribute.name.as_str();
            faults.push(fault_at(alloc, origin, element, FaultCode::GroupValue, name)?)?;
        }
    }
    Ok(())
}

// Whether one of these attributes can exclude an element.
fn has_judged(declared: &List<Text>, attributes: &List<Attribute>) -> bool
    ensures { result ≡ list_any (judging_spec.is_judged declared.now) attributes.now }
{
    attributes
        .as_slice()
        .iter()
        .any(|attribute| is_judged(declared, attribute))
}

fn is_judged(declared: &List<Text>, attribute: &Attribute) -> bool
    ensures { result ≡ judging_spec.is_judged declared.now attribute.now }
{
    is_conditional_among(declared, attribute.name.as_str()) && !is_grouped(attribute)
}

// The name is looked at first: its length tells most names apart, while a value is searched to its
// end.
fn is_group(declared: &List<Text>, attribute: &Attribute) -> bool
    ensures { result ≡ judged_spec.has_groups declared.now attribute.now }
{
    is_conditional_among(declared, attribute.name.as_str()) && is_grouped(attribute)
}

fn is_grouped(attribute: &Attribute) -> bool
    ensures { result ≡ verdict_spec.is_grouped attribute.now.value }
{
    attribute.value.as_bytes().contains(&b'(')
}
