//! What rules decide.

ghost use Rattle.std.specs.Prelude.{◌≡◌};
ghost use Rattle.ditaval_rules.specs.Verdict as spec;

use crate::exclude::{first_default, first_for_attribute, first_for_token};
use dita_doc::{Action, List, Rule, Text};

/// The action of the rule that decides this token of this attribute: that for the token, else that
/// for the attribute, else the default rule; with none of them the token is included. It takes no
/// memory, and walks over the rules: `RuleTable::decided` finds the rule by halving.
pub fn decided(rules: &List<Rule>, att: &Text, token: &[u8]) -> Action
    ensures { result ≡ spec.decided (spec.deciding rules.now att.now token.now) }
{
    let rules = rules.as_slice();
    let att = att.as_bytes();
    first_for_token(rules, att, token)
        .or_else(|| first_for_attribute(rules, att))
        .or_else(|| first_default(rules))
        .map_or(Action::Include, |rule| rule.action)
}
