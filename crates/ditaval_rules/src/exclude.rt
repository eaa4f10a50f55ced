//! Whether rules exclude an element.

ghost use Rattle.std.specs.Prelude.{◌≡◌, ◌&&◌, List, find};
ghost use Rattle.std.specs.List.{list_all};
ghost use Rattle.std.specs.Option.{option_copied};
ghost use Rattle.dita_doc.specs.ClassValue.{words_of};
ghost use Rattle.dita_doc.specs.declared.content.Rule.{Rule};
ghost use Rattle.ditaval_rules.specs.Verdict as spec;

use dita_doc::{Action, Attribute, List, Rule, Text, is_same, split_word};

/// The names of the attributes that are conditional in every document.
pub const CONDITIONAL: [&str; 6] = [
    "audience",
    "platform",
    "product",
    "otherprops",
    "props",
    "deliveryTarget",
];

/// Whether the rules exclude an element of these attributes, for which these names are declared. It
/// takes no memory, and walks over all rules for each token: `RuleTable` finds the deciding rule by
/// halving.
pub fn verdict(rules: &List<Rule>, declared: &List<Text>, attributes: &List<Attribute>) -> bool
    ensures { result ≡ spec.excluded rules.now declared.now attributes.now }
{
    is_excluded(rules, declared, attributes)
}

/// What finds the rule that decides a token.
pub(crate) trait Decides {
    ghost rules: { Self → List Rule };

    /// Whether the rule that decides this token of this attribute excludes it.
    fn excludes_token(&self, att: &[u8], token: &[u8]) -> bool
        ensures { result
            ≡ spec.decides_exclude (spec.deciding (rules self.now) att.now token.now) };
}

/// By a walk over the rules.
impl Decides for List<Rule> {
    ghost rules = { λ rules. rules };

    fn excludes_token(&self, att: &[u8], token: &[u8]) -> bool {
        let rules = self.as_slice();
        first_for_token(rules, att, token)
            .or_else(|| first_for_attribute(rules, att))
            .or_else(|| first_default(rules))
            .is_some_and(|rule| rule.action == Action::Exclude)
    }
}

/// Whether one of the attributes excludes.
pub(crate) fn is_excluded<D: Decides>(
    decides: &D,
    declared: &List<Text>,
    attributes: &List<Attribute>,
) -> bool
    ensures { result ≡ spec.excluded (D.rules decides.now) declared.now attributes.now }
{
    attributes
        .as_slice()
        .iter()
        .any(|attribute| excludes(decides, declared, attribute))
}

fn excludes<D: Decides>(decides: &D, declared: &List<Text>, attribute: &Attribute) -> bool
    ensures { result ≡ spec.excludes (D.rules decides.now) declared.now attribute.now }
{
    let value = attribute.value.as_bytes();
    is_conditional_among(declared, attribute.name.as_str())
        && !value.contains(&b'(')
        && excludes_tokens(decides, attribute.name.as_bytes(), value)
}

// Whether the value has a token, and each of its tokens is excluded.
fn excludes_tokens<D: Decides>(decides: &D, att: &[u8], value: &[u8]) -> bool
    ensures { result ≡ (spec.is_some_token (words_of value.now)
        && list_all
        (λ token. spec.decides_exclude (spec.deciding (D.rules decides.now) att.now token))
        (words_of value.now)) }
{
    let mut rest = value;
    let mut has_token = false;
    while let Some((token, more)) = split_word(rest) {
        if !decides.excludes_token(att, token) {
            return false;
        }
        has_token = true;
        rest = more;
    }
    has_token
}

/// Whether this is the name of a conditional attribute of an element for which these names are
/// declared.
pub fn is_conditional_among(declared: &List<Text>, name: &str) -> bool
    ensures { result ≡ spec.is_conditional_among declared.now name.now }
{
    is_conditional(name)
        || declared
            .as_slice()
            .iter()
            .any(|known| is_same(name.as_bytes(), known.as_bytes()))
}

/// Whether this is the name of an attribute that is conditional in every document.
pub fn is_conditional(name: &str) -> bool
    ensures { result ≡ spec.is_conditional name.now }
{
    is_everywhere(name.as_bytes())
}

/// The same of the bytes of a name.
pub(crate) fn is_everywhere(name: &[u8]) -> bool
    ensures { result ≡ spec.is_conditional name.now }
{
    CONDITIONAL
        .iter()
        .any(|known| is_same(name, known.as_bytes()))
}

pub(crate) fn first_for_token<'a>(rules: &'a [Rule], att: &[u8], token: &[u8]) -> Option<&'a Rule>
    ensures { option_copied result ≡ find (spec.is_for_token att.now token.now) rules.now }
{
    rules.iter().find(|rule| is_text(&rule.att, att) && is_text(&rule.val, token))
}

pub(crate) fn first_for_attribute<'a>(rules: &'a [Rule], att: &[u8]) -> Option<&'a Rule>
    ensures { option_copied result ≡ find (spec.is_for_attribute att.now) rules.now }
{
    rules
        .iter()
        .find(|rule| is_text(&rule.att, att) && rule.val.is_none())
}

pub(crate) fn first_default(rules: &[Rule]) -> Option<&Rule>
    ensures { option_copied result ≡ find spec.is_default rules.now }
{
    rules.iter().find(|rule| rule.att.is_none())
}

fn is_text(own: &Option<Text>, text: &[u8]) -> bool
    ensures { result ≡ spec.is_this_text text.now own.now }
{
    match own {
        Some(own) => own.as_bytes() == text,
        None => false,
    }
}
