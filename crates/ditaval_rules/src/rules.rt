//! The rules of a DITAVAL, read.

ghost use Rattle.std.specs.Prelude.{◌≡◌, Ok, IfOk, Some};
ghost use Rattle.dita_doc.specs.Gives.{Gives};
ghost use Rattle.dita_doc.specs.Siblings as siblings_spec;
ghost use Rattle.dita_doc.specs.Tree as tree_spec;
ghost use Rattle.ditaval_rules.specs.Rules as spec;

use crate::reading::Reading;
use dita_doc::{Doc, Fault, First, List, Name, NoMemory, Rule, Siblings, Stop};
use std::alloc::Global;

/// The answer that the root of a document is not `val`.
#[derive(Clone, Copy, PartialEq, Eq)]
pub struct NotDitaval;

/// The rules of a DITAVAL, in order, and what is wrong with its `prop` elements.
#[derive(Drop)]
pub struct RulesRead {
    pub rules: List<Rule>,
    pub faults: List<Fault>,
}

/// Reads the rules of the document of this name, in a time linear-logarithmic in their number.
///
/// # Errors
///
/// `NotDitaval` exactly if the root is not `val`, or out of memory.
pub fn read_rules(alloc: Global, name: &Name, doc: &Doc) -> Result<RulesRead, Stop<NotDitaval>>
    ensures { Gives result (spec.rules_in name.now (tree_spec.tree_of doc.now.nodes)) }
{
    match Siblings::of(doc).split_first() {
        First::Element { node, inside, .. } if node.text.as_str() == "val" => {
            Ok(read_props(alloc, name, inside)?)
        }
        _ => Err(Stop::Fault(NotDitaval)),
    }
}

// The rules and faults of the `prop`s among some elements.
fn read_props(alloc: Global, name: &Name, elements: Siblings<'_>) -> Result<RulesRead, NoMemory>
    ensures { IfOk result (λ read. spec.rules_with name.now
        (Some (spec.props_among (siblings_spec.content elements.entry))) ≡ Ok read) }
{
    let mut reading = Reading::new(alloc);
    let mut rest = elements;
    loop {
        match rest.split_first() {
            First::End => return Ok(reading.finish()),
            First::Chars { rest: more, .. } => rest = more,
            First::Element {
                node,
                rest: more,
                ..
            } => {
                if node.text.as_str() == "prop" {
                    reading.read(alloc, name, node)?;
                }
                rest = more;
            }
        }
    }
}
