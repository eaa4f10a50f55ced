//! Class values of elements.

ghost use Rattle.std.specs.Prelude.{◌≡◌, ◌&&◌, Err, MatchOption, [], bytes_eq};
ghost use Rattle.std.specs.List.{list_all, list_any};
ghost use Rattle.dita_doc.specs.ClassValue as spec;
ghost use Rattle.dita_doc.specs.declared.class.ClassFault.TheVariants as faults;

use crate::bytes::{is_blank_byte, split_at_first};
use crate::list::List;
use crate::text::Text;

/// What the sign of a class value says: the element is of a structural type, or of a domain's.
#[derive(Clone, Copy, Debug, PartialEq, Eq)]
pub enum Sign {
    Structural,
    Domain,
}

/// A class value: the tokens of an element's types, the base type first.
#[derive(Drop)]
pub struct ClassList {
    pub sign: Sign,
    pub tokens: List<Text>,
}

/// Why a text is no class value. The first of these that holds is the fault.
#[derive(Clone, Copy, Debug, PartialEq, Eq)]
pub enum ClassFault {
    /// It does not begin with a sign.
    NoSign = 1,
    /// No token stands behind the sign.
    NoToken = 2,
    /// A token is not a module and a type with one `/` between them.
    BadToken = 3,
}

impl ClassList {
    /// Whether the token stands in the list.
    pub fn has(&self, token: &str) -> bool
        ensures { result ≡ spec.has_token self.now token.now }
    {
        self.tokens
            .as_slice()
            .iter()
            .any(|own| token == own.as_str())
    }
}

/// The sign of a class value, and what stands behind it.
pub fn split_sign(value: &[u8]) -> Option<(Sign, &[u8])>
    ensures { MatchOption result (spec.class_of value.now ≡ Err faults.NoSign)
        (λ parts. spec.IsSigned value.now parts.0 parts.1.now) }
{
    let (first, rest) = without_blanks(value).split_first()?;
    match first {
        b'-' => Some((Sign::Structural, rest)),
        b'+' => Some((Sign::Domain, rest)),
        _ => None,
    }
}

/// The first word of a text, and what stands behind it.
pub fn split_word(text: &[u8]) -> Option<(&[u8], &[u8])>
    ensures { MatchOption result (spec.words_of text.now ≡ [])
        (λ parts. spec.IsFirstWord text.now parts.0.now parts.1.now) }
{
    let text = without_blanks(text);
    if text.is_empty() {
        return None;
    }
    let end = text
        .iter()
        .position(|byte| is_blank_byte(*byte))
        .unwrap_or(text.len());
    Some(text.split_at(end))
}

/// Whether a word is a module and a type with one `/` between them.
pub fn is_token(word: &[u8]) -> bool
    ensures { result ≡ spec.is_token word.now }
{
    let Some((module, kind)) = split_at_first(word, b'/') else {
        return false;
    };
    !module.is_empty() && !kind.is_empty() && !kind.contains(&b'/')
}

/// Whether a class value can be read and has the token.
pub(crate) fn class_has(value: &[u8], token: &[u8]) -> bool
    ensures { result ≡ spec.is_read_with token.now (spec.class_of value.now) }
{
    split_sign(value).is_some_and(|(_, words)| words_have(words, token))
}

// Whether each word is a token, and one of them this one.
fn words_have(text: &[u8], token: &[u8]) -> bool
    ensures { result ≡ (list_all spec.is_token (spec.words_of text.now)
        && list_any (bytes_eq token.now) (spec.words_of text.now)) }
{
    let mut rest = text;
    let mut has = false;
    while let Some((word, more)) = split_word(rest) {
        if !is_token(word) {
            return false;
        }
        has = has || token == word;
        rest = more;
    }
    has
}

fn without_blanks(text: &[u8]) -> &[u8]
    ensures { result.now ≡ spec.without_blanks text.now }
{
    let mut rest = text;
    while let Some((first, more)) = rest.split_first() {
        if !is_blank_byte(*first) {
            break;
        }
        rest = more;
    }
    rest
}
