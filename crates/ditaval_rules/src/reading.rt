//! The reading of one `prop` after another.

ghost use Rattle.std.specs.Prelude.{◌≡◌, ◌++◌, [], ◌∷◌, IfOk, OnOk};
ghost use Rattle.std.specs.Option.{option_copied};
ghost use Rattle.ditaval_rules.specs.Reading as spec;
ghost use Rattle.ditaval_rules.specs.Rules as rules_spec;
ghost use Rattle.ditaval_rules.specs.Subject as subject_spec;

use crate::rules::RulesRead;
use dita_doc::{Action, Fault, FaultCode, List, Name, NoMemory, Node, Rule, Text};
use std::alloc::Global;
use std::collections::BTreeSet;

/// The rules and faults so far, and what the rules are for: their attributes and tokens.
#[derive(Drop)]
pub(crate) struct Reading<'a> {
    rules: List<Rule>,
    faults: List<Fault>,
    seen: BTreeSet<(Option<&'a str>, Option<&'a str>)>,
}

impl<'a> Reading<'a> {
    pub(crate) fn new(alloc: Global) -> Self
        ensures rules { result.rules ≡ [] }
        ensures faults { result.faults ≡ [] }
        ensures seen { subject_spec.IsSubjectsOf result.seen [] }
    {
        Reading {
            rules: List::new(alloc),
            faults: List::new(alloc),
            seen: BTreeSet::new(alloc),
        }
    }

    pub(crate) fn finish(self) -> RulesRead
        ensures rules { result.rules ≡ self.entry.rules }
        ensures faults { result.faults ≡ self.entry.faults }
    {
        let Reading { rules, faults, .. } = self;
        RulesRead { rules, faults }
    }

    /// Reads a `prop` of the document of this name.
    pub(crate) fn read(
        &mut self,
        alloc: Global,
        name: &Name,
        prop: &'a Node,
    ) -> Result<(), NoMemory>
        requires { subject_spec.IsSubjectsOf self.old.seen self.old.rules }
        ensures { OnOk result (spec.HasRead name.now (spec.prop_of prop.now) self.old self.new) }
    {
        let value = prop.value_of("action");
        let Some(action) = action_in(value) else {
            let code = FaultCode::BadAction;
            return push_fault(alloc, &mut self.faults, name, prop, code, value);
        };
        let att = prop.value_of("att");
        let val = val_beside(att, prop);
        if !self.seen.insert((att, val))? {
            let code = FaultCode::DitavalTwice;
            return push_fault(alloc, &mut self.faults, name, prop, code, att);
        }
        self.rules.push(new_rule(alloc, att, val, action)?)?;
        Ok(())
    }
}

// Puts a fault of a `prop` of the document of this name behind the others.
fn push_fault(
    alloc: Global,
    faults: &mut List<Fault>,
    name: &Name,
    prop: &Node,
    code: FaultCode,
    detail: Option<&str>,
) -> Result<(), NoMemory>
    ensures { OnOk result (faults.new ≡ faults.old
        ++ rules_spec.prop_fault name.now prop.now.line code (option_copied detail.entry) ∷ []) }
{
    faults.push(Fault {
        name: name.clone()?,
        line: prop.line,
        code,
        detail: Text::from_str(alloc, detail.unwrap_or(""))?,
    })?;
    Ok(())
}

fn new_rule(
    alloc: Global,
    att: Option<&str>,
    val: Option<&str>,
    action: Action,
) -> Result<Rule, NoMemory>
    ensures att { IfOk result (λ rule. rule.att ≡ option_copied att.entry) }
    ensures val { IfOk result (λ rule. rule.val ≡ option_copied val.entry) }
    ensures action { IfOk result (λ rule. rule.action ≡ action) }
{
    Ok(Rule {
        att: text_in(alloc, att)?,
        val: text_in(alloc, val)?,
        action,
    })
}

fn text_in(alloc: Global, text: Option<&str>) -> Result<Option<Text>, NoMemory>
    ensures { IfOk result (λ made. made ≡ option_copied text.entry) }
{
    match text {
        Some(text) => Ok(Some(Text::from_str(alloc, text)?)),
        None => Ok(None),
    }
}

// The token of a `prop` that has this attribute; one without an attribute has none.
fn val_beside<'a>(att: Option<&'a str>, prop: &'a Node) -> Option<&'a str>
    ensures { option_copied result
        ≡ rules_spec.val_beside (option_copied att.entry) prop.now.attributes }
{
    match att {
        Some(_) => prop.value_of("val"),
        None => None,
    }
}

// The action of this name, if it is one.
fn action_in(value: Option<&str>) -> Option<Action>
    ensures { result ≡ rules_spec.action_named (option_copied value.entry) }
{
    match value? {
        "include" => Some(Action::Include),
        "exclude" => Some(Action::Exclude),
        "passthrough" => Some(Action::Passthrough),
        "flag" => Some(Action::Flag),
        _ => None,
    }
}
