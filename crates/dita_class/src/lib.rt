//! The types of elements: class values to lists of tokens, and which types specialize others.
//!
//! What is used above it: the contracts of `read_class`, `is_a` and `specializes`. The last two take
//! no memory.
#![tactic(auto)]

ghost use Rattle.std.specs.Prelude.{◌≡◌, ◌↔◌, IsTrue};
ghost use Rattle.std.specs.List.{All};
ghost use Rattle.std.specs.Str.{IsUtf8};
ghost use Rattle.dita_doc.specs.ClassValue as class_value_spec;
ghost use Rattle.dita_doc.specs.Gives.{Gives};
ghost use Rattle.dita_class.specs.Specializes as specializes_spec;

use dita_doc::{ClassFault, ClassList, List, Sign, Stop, Text, is_token, split_sign, split_word};
use std::alloc::Global;

/// The tokens of a class value, with its sign.
///
/// # Errors
///
/// `NoSign`, `NoToken` or `BadToken`, the first of these that holds, or out of memory.
pub fn read_class(alloc: Global, value: &Text) -> Result<ClassList, Stop<ClassFault>>
    ensures { Gives result (class_value_spec.class_of value.now) }
{
    let Some((sign, words)) = split_sign(value.as_bytes()) else {
        return Err(Stop::Fault(ClassFault::NoSign));
    };
    list_with(alloc, sign, words)
}

// The list with this sign, of the words of a text.
fn list_with(alloc: Global, sign: Sign, text: &[u8]) -> Result<ClassList, Stop<ClassFault>>
    requires { All IsUtf8 (class_value_spec.words_of text.now) }
    ensures { Gives result
        (class_value_spec.list_with sign (class_value_spec.words_of text.now)) }
{
    let mut tokens = List::new(alloc);
    let mut rest = text;
    while let Some((word, more)) = split_word(rest) {
        if !is_token(word) {
            return Err(Stop::Fault(ClassFault::BadToken));
        }
        tokens.push(Text::from_bytes(alloc, word)?)?;
        rest = more;
    }
    if tokens.is_empty() {
        return Err(Stop::Fault(ClassFault::NoToken));
    }
    Ok(ClassList { sign, tokens })
}

/// Whether an element of this class is of the type with this token.
pub fn is_a(list: &ClassList, token: &Text) -> bool
    ensures { result ≡ class_value_spec.has_token list.now token.now }
{
    list.has(token.as_str())
}

/// Whether a type specializes another or is it: the tokens of the base are the first of its own.
pub fn specializes(special: &ClassList, base: &ClassList) -> bool
    ensures { IsTrue result ↔ specializes_spec.Specializes special.now base.now }
{
    let own = special.tokens.as_slice();
    let first = base.tokens.as_slice();
    own.starts_with(first)
}
