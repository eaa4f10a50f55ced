//! The nodes that define keys, with their elements.

ghost use Rattle.std.specs.Prelude.{◌≡◌, IfOk};
ghost use Rattle.std.specs.Option.{option_copied, option_to_list};
ghost use Rattle.map_spec.specs.Keys as keys_spec;
ghost use Rattle.map_spec.specs.Scopes as scopes_spec;
ghost use Rattle.plan_nodes.specs.Home as home_spec;
ghost use Rattle.key_answers.specs.Seen as spec;

use dita_doc::{Fault, FaultCode, Name, NoMemory, PlanNode, Target};
use key_scopes::ScopeTable;
use plan_nodes::{NodeElements, fault_of};
use std::alloc::Global;
use targets::target_by;

/// The nodes of a map with their elements and the table of their scopes.
#[derive(Clone, Copy)]
pub(crate) struct Defined<'a> {
    pub homes: &'a NodeElements,
    pub nodes: &'a [PlanNode],
    pub table: &'a ScopeTable,
}

impl<'a> Defined<'a> {
    /// The value of an attribute of the element of the node at this place, if it has it.
    pub(crate) fn value(self, at: u32, name: &str) -> Option<&'a str>
        ensures { option_copied result ≡ home_spec.value_at self.entry.homes.now at name.now }
    {
        self.homes.value(at as usize, name)
    }

    /// The scope of the node at this place.
    pub(crate) fn scope(self, at: u32) -> u32
        ensures { result ≡ spec.scope_seen self.entry.nodes.now at }
    {
        match self.nodes.get(at as usize) {
            Some(node) => node.scope,
            None => 0,
        }
    }

    /// What the href of the node at this place leads to, by the format and the scope that hold at
    /// it; nothing if it has none, or one that can't be read.
    pub(crate) fn target(self, alloc: Global, at: u32) -> Result<Target, NoMemory>
        ensures { IfOk result (λ target.
            target ≡ spec.target_seen self.entry.homes.now self.entry.nodes.now at) }
    {
        let (Some(node), Some(doc)) = (self.nodes.get(at as usize), self.homes.doc(at as usize))
        else {
            return Ok(Target::Nothing);
        };
        let Some(href) = self.value(at, "href") else {
            return Ok(Target::Nothing);
        };
        target_of(alloc, node, href, doc)
    }

    /// A fault of the node at this place, with a key as its detail.
    pub(crate) fn fault(
        self,
        alloc: Global,
        at: u32,
        code: FaultCode,
        key: &str,
    ) -> Result<Option<Fault>, NoMemory>
        ensures { IfOk result (λ fault. option_to_list fault ≡ keys_spec.fault_of_place
            self.entry.nodes.now at (λ node. scopes_spec.node_fault node code key.now)) }
    {
        match self.nodes.get(at as usize) {
            Some(node) => Ok(Some(fault_of(alloc, node, code, key)?)),
            None => Ok(None),
        }
    }
}

// What a value leads to from a document, by the format and the scope that a node carries.
fn target_of(alloc: Global, node: &PlanNode, href: &str, doc: &Name) -> Result<Target, NoMemory>
    ensures { IfOk result (λ target.
        target ≡ spec.target_carried node.now href.now doc.now) }
{
    let format = node.cascaded_value("format").unwrap_or("dita");
    let scope = node.cascaded_value("scope").unwrap_or("local");
    let target = target_by(alloc, href, format, scope, doc)?;
    Ok(target.unwrap_or(Target::Nothing))
}
