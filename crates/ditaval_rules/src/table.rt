//! The rules of a DITAVAL, made ready for many verdicts.

ghost use Rattle.std.specs.Prelude.{◌≡◌, IfOk};
ghost use Rattle.std.specs.Option.{option_copied};
ghost use Rattle.ditaval_rules.specs.Aim as aim_spec;
ghost use Rattle.ditaval_rules.specs.Verdict as spec;

use crate::exclude::{Decides, is_excluded};
use dita_doc::{Action, Attribute, List, NoMemory, Rule, Text};
use std::cmp::Ordering;
use std::marker::Model;

/// A table of rules, in which the deciding rule is found by halving; seen by contracts as the list of
/// the rules. It owns them, so that it may be kept for many pages.
#[derive(Drop)]
pub struct RuleTable {
    rules: List<Rule>,
    // Copies of them, by what the rules are for; of those for the same, the first rule stands first.
    sorted: Vec<Rule>,
}

impl Model for RuleTable {
    ghost use Rattle.std.specs.Prelude.{List};
    ghost use Rattle.dita_doc.specs.declared.content.Rule.{Rule};
    ghost use Rattle.ditaval_rules.specs.Aim.{IsTableOf};

    ghost Value = { List Rule };

    ghost view = { λ table. table.rules };

    ghost invariant = { λ table. IsTableOf table.sorted.items table.rules };
}

impl RuleTable {
    /// The table of these rules, made in a time linear-logarithmic in their number.
    pub fn of(rules: List<Rule>) -> Result<RuleTable, NoMemory>
        ensures { IfOk result (λ table. table ≡ rules) }
    {
        let mut sorted = rules.clone()?.into_vec();
        sorted.sort_by(|one, other| compare_rules(one, other))?;
        Ok(RuleTable { rules, sorted })
    }

    /// The rules, in their order.
    pub fn rules(&self) -> &List<Rule>
        ensures { result.now ≡ self.now }
    {
        &self.rules
    }

    /// The same verdict as `verdict` gives, by halving. It takes no memory.
    pub fn verdict(&self, declared: &List<Text>, attributes: &List<Attribute>) -> bool
        ensures { result ≡ spec.excluded self.now declared.now attributes.now }
    {
        is_excluded(self, declared, attributes)
    }

    /// The same action as `decided` gives, by halving. It takes no memory.
    pub fn decided(&self, att: &[u8], token: &[u8]) -> Action
        ensures { result ≡ spec.decided (spec.deciding self.now att.now token.now) }
    {
        deciding(self.sorted.as_slice(), att, token).unwrap_or(Action::Include)
    }
}

/// By halving.
impl Decides for RuleTable {
    ghost rules = { λ table. table };

    fn excludes_token(&self, att: &[u8], token: &[u8]) -> bool {
        let action = deciding(self.sorted.as_slice(), att, token);
        action.is_some_and(|action| action == Action::Exclude)
    }
}

// The action for a token, of sorted rules: that for the token, else that for the attribute, else
// that of the default rule.
fn deciding(sorted: &[Rule], att: &[u8], token: &[u8]) -> Option<Action>
    requires { aim_spec.AreSorted sorted.now }
    ensures { result ≡ aim_spec.deciding_action sorted.now att.now token.now }
{
    if let Some(action) = first_for(sorted, Some(att), Some(token)) {
        return Some(action);
    }
    if let Some(action) = first_for(sorted, Some(att), None) {
        return Some(action);
    }
    first_for(sorted, None, None)
}

// The action of the first of sorted rules that is for this attribute and token.
fn first_for(sorted: &[Rule], att: Option<&[u8]>, val: Option<&[u8]>) -> Option<Action>
    requires { aim_spec.AreSorted sorted.now }
    ensures { result ≡ aim_spec.first_action (option_copied att.entry, option_copied val.entry)
        sorted.now }
{
    let rule = sorted.get(place_for(sorted, att, val))?;
    if compare(rule, att, val) == Ordering::Equal {
        Some(rule.action)
    } else {
        None
    }
}

// How many of sorted rules stand below this attribute and token.
fn place_for(sorted: &[Rule], att: Option<&[u8]>, val: Option<&[u8]>) -> usize
    requires { aim_spec.AreSorted sorted.now }
    ensures { aim_spec.IsPlaceFor (option_copied att.entry, option_copied val.entry) sorted.now
        result }
{
    sorted.partition_point(|rule| compare(rule, att, val) == Ordering::Less)
}

// By what two rules are for.
fn compare_rules(one: &Rule, other: &Rule) -> Ordering
    ensures { result ≡ aim_spec.aim_cmp (aim_spec.aim_of one.now) (aim_spec.aim_of other.now) }
{
    compare(one, bytes_of(&other.att), val_of(other))
}

// By what a rule is for, and an attribute and a token.
fn compare(rule: &Rule, att: Option<&[u8]>, val: Option<&[u8]>) -> Ordering
    ensures { result ≡ aim_spec.aim_cmp (aim_spec.aim_of rule.now)
        (option_copied att.entry, option_copied val.entry) }
{
    compare_texts(bytes_of(&rule.att), att).then(compare_texts(val_of(rule), val))
}

fn compare_texts(one: Option<&[u8]>, other: Option<&[u8]>) -> Ordering
    ensures { result ≡ aim_spec.part_cmp (option_copied one.entry) (option_copied other.entry) }
{
    match (one, other) {
        (None, None) => Ordering::Equal,
        (None, Some(_)) => Ordering::Less,
        (Some(_), None) => Ordering::Greater,
        (Some(one), Some(other)) => one.cmp(&other),
    }
}

// The token that a rule is for; that of a default rule does not count.
fn val_of(rule: &Rule) -> Option<&[u8]>
    ensures { option_copied result ≡ aim_spec.val_behind rule.now.att rule.now.val }
{
    match &rule.att {
        Some(_) => bytes_of(&rule.val),
        None => None,
    }
}

fn bytes_of(text: &Option<Text>) -> Option<&[u8]>
    ensures { option_copied result ≡ text.now }
{
    match text {
        Some(text) => Some(text.as_bytes()),
        None => None,
    }
}
