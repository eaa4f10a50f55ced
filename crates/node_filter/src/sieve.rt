//! The nodes that rules leave, made from the first node to the last.

ghost use Rattle.std.specs.Prelude.{◌≡◌, ◌++◌, ◌&&◌, ℕ, List, nat_lt, slice_get, unwrap_or, IfOk, OnOk};
ghost use Rattle.node_filter.specs.Sieve as sieve_spec;

use crate::groups::append_group_faults;
use dita_doc::{Fault, List, Name, NoMemory, Node, PlanNode, Text};
use ditaval_rules::RuleTable;
use plan_nodes::{copy_node, place_of};
use std::alloc::Global;

// What the nodes that were passed leave.
#[derive(Drop)]
pub(crate) struct Sieve {
    // The place of each of them, or of what stands in its place.
    places: List<u32>,
    pub(crate) kept: List<PlanNode>,
    pub(crate) faults: List<Fault>,
    // The place just past the last that was excluded, with all below it.
    next: usize,
}

impl Sieve {
    pub(crate) fn new(alloc: Global) -> Sieve
        ensures { result ≡ sieve_spec.empty }
    {
        Sieve {
            places: List::new(alloc),
            kept: List::new(alloc),
            faults: List::new(alloc),
            next: 0,
        }
    }

    // Passes the next node, which stands for this element, for which these names are declared.
    pub(crate) fn pass(
        &mut self,
        alloc: Global,
        table: &RuleTable,
        node: &PlanNode,
        declared: &List<Text>,
        element: Option<&Node>,
    ) -> Result<(), NoMemory>
        ensures { OnOk result (self.new ≡ sieve_spec.passed table.now declared.now
            (sieve_spec.element_found node.now.doc element.entry) node.now self.old) }
    {
        let at = self.places.len();
        self.places.push(place_of(self.kept.len())?)?;
        if at < self.next {
            return Ok(());
        }
        append_faults_of(alloc, &mut self.faults, declared, &node.doc, element)?;
        if is_left_out(table, at, declared, element) {
            self.next = node.end as usize;
            return Ok(());
        }
        self.kept.push(moved(alloc, node, self.places.as_slice())?)?;
        Ok(())
    }
}

// Appends the faults of the element of a node, if it has one.
fn append_faults_of(
    alloc: Global,
    faults: &mut List<Fault>,
    declared: &List<Text>,
    name: &Name,
    element: Option<&Node>,
) -> Result<(), NoMemory>
    ensures { OnOk result (faults.new ≡ faults.old
        ++ sieve_spec.faults_of declared.now (sieve_spec.element_found name.now element.entry)) }
{
    match element {
        Some(element) => append_group_faults(alloc, faults, declared, name, element),
        None => Ok(()),
    }
}

// Whether the node at a place is left out: the root never is.
fn is_left_out(table: &RuleTable, at: usize, declared: &List<Text>, element: Option<&Node>) -> bool
    ensures { (name : List ℕ) → result ≡ (nat_lt 0 at
        && sieve_spec.is_sieved_out table.now declared.now
        (sieve_spec.element_found name element.entry)) }
{
    at > 0 && is_excluded(table, declared, element)
}

fn is_excluded(table: &RuleTable, declared: &List<Text>, element: Option<&Node>) -> bool
    ensures { (name : List ℕ) → result ≡ sieve_spec.is_sieved_out table.now declared.now
        (sieve_spec.element_found name element.entry) }
{
    match element {
        Some(element) => table.verdict(declared, &element.attributes),
        None => false,
    }
}

// A copy of a node whose parent stands at its new place.
fn moved(alloc: Global, node: &PlanNode, places: &[u32]) -> Result<PlanNode, NoMemory>
    ensures { IfOk result (λ copy. copy ≡ sieve_spec.moved places.now node.now) }
{
    let mut copy = copy_node(alloc, node)?;
    copy.parent = place_in(places, node.parent);
    Ok(copy)
}

// The new place of the node at an old one.
fn place_in(places: &[u32], at: u32) -> u32
    ensures { result ≡ unwrap_or (slice_get places.now at) 0 }
{
    match places.get(at as usize) {
        Some(place) => *place,
        None => 0,
    }
}
