//! The texts of an element's marks.

ghost use Rattle.std.specs.Prelude.{◌≡◌, ◌++◌, IfOk, OnOk};
ghost use Rattle.std.specs.List.{flat_map};
ghost use Rattle.dita_doc.specs.Shown.{shown};
ghost use Rattle.ditaval_rules.specs.Verdict.{conditional_names};
ghost use Rattle.flag_marks.specs.Marks as spec;

use crate::value::push_value;
use dita_doc::{List, NoMemory, Node, Text};
use ditaval_rules::{CONDITIONAL, RuleTable};
use std::alloc::Global;

/// The texts of the marks of an element, for which these names are declared, by
/// each table in order; a text can come twice.
pub(crate) fn texts_of(
    alloc: Global,
    tables: &[&RuleTable],
    declared: &[Text],
    node: &Node,
) -> Result<List<Text>, NoMemory>
    ensures { IfOk result
        (λ texts. texts ≡ flat_map (spec.marks_by declared.now node.now.attributes)
        (shown tables.now)) }
{
    let mut texts = List::new(alloc);
    for table in tables {
        push_by(alloc, &mut texts, table, declared, node)?;
    }
    Ok(texts)
}

// Appends the texts by one table.
fn push_by(
    alloc: Global,
    texts: &mut List<Text>,
    table: &RuleTable,
    declared: &[Text],
    node: &Node,
) -> Result<(), NoMemory>
    ensures { OnOk result
        (texts.new ≡ texts.old ++ spec.marks_by declared.now node.now.attributes table.now) }
{
    push_everywhere(alloc, texts, table, node)?;
    push_declared(alloc, texts, table, declared, node)
}

// Appends those of the attributes that are conditional in every document.
fn push_everywhere(
    alloc: Global,
    texts: &mut List<Text>,
    table: &RuleTable,
    node: &Node,
) -> Result<(), NoMemory>
    ensures { OnOk result (texts.new ≡ texts.old
        ++ flat_map (spec.marks_of_attribute table.now node.now.attributes) conditional_names) }
{
    for name in &CONDITIONAL {
        push_attribute(alloc, texts, table, node, name)?;
    }
    Ok(())
}

// Appends those of the attributes that are declared.
fn push_declared(
    alloc: Global,
    texts: &mut List<Text>,
    table: &RuleTable,
    declared: &[Text],
    node: &Node,
) -> Result<(), NoMemory>
    ensures { OnOk result (texts.new ≡ texts.old
        ++ flat_map (spec.marks_of_attribute table.now node.now.attributes) declared.now) }
{
    for name in declared {
        push_attribute(alloc, texts, table, node, name.as_str())?;
    }
    Ok(())
}

// Appends those of the attribute of this name, if there is one.
fn push_attribute(
    alloc: Global,
    texts: &mut List<Text>,
    table: &RuleTable,
    node: &Node,
    name: &str,
) -> Result<(), NoMemory>
    ensures { OnOk result (texts.new
        ≡ texts.old ++ spec.marks_of_attribute table.now node.now.attributes name.now) }
{
    match node.value_of(name) {
        Some(value) => push_value(alloc, texts, table, name, value),
        None => Ok(()),
    }
}
