//! The marks of a body.

ghost use Rattle.std.specs.Prelude.{◌≡◌, ◌<◌, ◌++◌, ◌^◌, length, map, IfOk, OnOk};
ghost use Rattle.std.specs.List.{list_any};
ghost use Rattle.dita_doc.specs.Shown as shown_spec;
ghost use Rattle.ditaval_rules.specs.Domains as domains_spec;
ghost use Rattle.flag_marks.specs.Marks as spec;
ghost use Rattle.flag_marks.specs.Places as places_spec;

use crate::element::texts_of;
use dita_doc::{Action, List, Mark, NoMemory, Node, NodeKind, Resolved, Rule, Text};
use ditaval_rules::RuleTable;
use std::alloc::Global;
use std::collections::BTreeSet;

/// The marks of a body, in the order of its elements: `flag-ATT-TOKEN` for each token that a table
/// of rules flags, by each table in order, each conditional attribute in order and each token in
/// order, each mark of an element once (DITA 1.3, "Flagging"; the form of a mark is our own).
/// `declared` has for each node the names of the attributes that are declared for it; those of the
/// body itself may be passed. A value of groups gives none.
///
/// Each element takes one look at its attributes for each table and each name, each token a halving
/// of the rules, and each one that is flagged a look into the set of the element's marks. Where no
/// table has a rule that flags, no node is looked at.
///
/// # Errors
///
/// Out of memory.
pub fn marks_by(
    alloc: Global,
    body: &Resolved,
    tables: &[&RuleTable],
    declared: &List<List<Text>>,
) -> Result<List<Mark>, NoMemory>
    requires { length declared.now ≡ length body.now.doc.nodes }
    ensures value { IfOk result
        (λ marks. marks ≡ spec.marks_from (shown_spec.shown tables.now) 0 declared.now
        (map spec.attributes_at body.now.doc.nodes)) }
    ensures places { IfOk result
        (λ marks. places_spec.AreAtElements body.now.doc.nodes marks) }
{
    if !has_flag(tables) {
        return Ok(List::new(alloc));
    }
    marks_of(
        alloc,
        tables,
        declared.as_slice(),
        body.doc.nodes.as_slice(),
    )
}

// Whether one of the tables has a rule that flags.
fn has_flag(tables: &[&RuleTable]) -> bool
    ensures { result ≡ list_any spec.have_flag (shown_spec.shown tables.now) }
{
    tables.iter().any(|table| is_flagging(table.rules()))
}

// Whether one of the rules flags.
fn is_flagging(rules: &List<Rule>) -> bool
    ensures { result ≡ spec.have_flag rules.now }
{
    rules
        .as_slice()
        .iter()
        .any(|rule| rule.action == Action::Flag)
}

// The marks of nodes, by tables.
fn marks_of(
    alloc: Global,
    tables: &[&RuleTable],
    declared: &[List<Text>],
    nodes: &[Node],
) -> Result<List<Mark>, NoMemory>
    requires each { length declared.now ≡ length nodes.now }
    requires small { length nodes.now < 2 ^ 32 }
    ensures { IfOk result (λ marks. marks
        ≡ spec.marks_from (shown_spec.shown tables.now) 0 declared.now
        (map spec.attributes_at nodes.now)) }
{
    let mut marks = List::new(alloc);
    for at in 0..nodes.len() {
        push_node(
            alloc,
            &mut marks,
            tables,
            at as u32,
            &declared[at],
            &nodes[at],
        )?;
    }
    Ok(marks)
}

// Appends the marks of the node at a place.
fn push_node(
    alloc: Global,
    marks: &mut List<Mark>,
    tables: &[&RuleTable],
    place: u32,
    declared: &List<Text>,
    node: &Node,
) -> Result<(), NoMemory>
    ensures { OnOk result (marks.new ≡ marks.old
        ++ spec.marks_of_node (shown_spec.shown tables.now) place declared.now
        (spec.attributes_at node.now)) }
{
    match node.kind {
        NodeKind::Chars => Ok(()),
        NodeKind::Element => {
            let texts = texts_of(alloc, tables, declared.as_slice(), node)?;
            push_once(alloc, marks, place, texts.as_slice())
        }
    }
}

// Appends each of some texts once, as marks of a place.
fn push_once(
    alloc: Global,
    marks: &mut List<Mark>,
    place: u32,
    texts: &[Text],
) -> Result<(), NoMemory>
    ensures { OnOk result (marks.new
        ≡ marks.old ++ map (spec.at_place place) (domains_spec.first_of_each texts.now)) }
{
    let mut seen = BTreeSet::new(alloc);
    for text in texts {
        if seen.insert(text.as_bytes())? {
            marks.push(Mark {
                place,
                text: text.clone()?,
            })?;
        }
    }
    Ok(())
}
