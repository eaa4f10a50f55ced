//! Words of a line, and what a word says.

ghost use Rattle.std.specs.Prelude.{◌≡◌, ◌↔◌, [], ◌≤◌, length, MatchOption, IsTrue};
ghost use Rattle.std.specs.Option.{option_copied};
ghost use Rattle.std.specs.List.{list_all};
ghost use Rattle.dita_doc.specs.Bytes as bytes_spec;
ghost use Rattle.dita_doc.specs.Gives.{Gives};
ghost use Rattle.script_text.specs.Script as script_spec;
ghost use Rattle.script_text.specs.Words as words_spec;

use crate::fault::ScriptCode;
use dita_doc::{Name, Stop, are_digits, split_text_at_first};
use std::alloc::Global;

// The most digits of a number; its value then fits 64 bits.
const DIGIT_LIMIT: usize = 18;

// The most sessions of a script.
const SESSION_LIMIT: u64 = 16;

/// Whether a line is of spaces and tabs alone, or a comment.
pub fn is_passed(line: &str) -> bool
    ensures { result ≡ script_spec.is_passed line.now }
{
    let bytes = line.as_bytes();
    are_gaps(bytes) || bytes.first() == Some(&b'#')
}

fn are_gaps(bytes: &[u8]) -> bool
    ensures { result ≡ list_all bytes_spec.is_gap bytes.now }
{
    bytes.iter().all(|b| *b == b' ' || *b == b'\t')
}

/// The first word of a line and what stands behind it, if there is a word.
pub fn split_word(line: &str) -> Option<(&str, &str)>
    ensures { MatchOption result (bytes_spec.spaced_words line.now ≡ [])
        (λ parts. words_spec.BeginsWord line.now parts.0.now parts.1.now) }
{
    let mut rest = line;
    while let Some((word, more)) = split_text_at_first(rest, b' ') {
        if !word.is_empty() {
            return Some((word, more));
        }
        rest = more;
    }
    if rest.is_empty() {
        None
    } else {
        Some((rest, ""))
    }
}

/// Whether a line has no word.
pub fn has_no_word(line: &str) -> bool
    ensures { IsTrue result ↔ (bytes_spec.spaced_words line.now ≡ []) }
{
    split_word(line).is_none()
}

/// The word of a line that has one word alone.
pub fn only_word(line: &str) -> Option<&str>
    ensures { option_copied result ≡ words_spec.only (bytes_spec.spaced_words line.now) }
{
    let (word, rest) = split_word(line)?;
    if has_no_word(rest) { Some(word) } else { None }
}

/// The number that a word is.
pub fn number_of(word: &str) -> Option<u64>
    ensures { result ≡ script_spec.number_of word.now }
{
    let digits = word.as_bytes();
    if digits.is_empty() || digits.len() > DIGIT_LIMIT || !are_digits(digits) {
        return None;
    }
    Some(value_of(digits))
}

fn value_of(digits: &[u8]) -> u64
    requires all { IsTrue (list_all bytes_spec.is_digit digits.now) }
    requires few { length digits.now ≤ DIGIT_LIMIT }
    ensures { result ≡ script_spec.value_after 0 digits.now }
{
    let mut value: u64 = 0;
    for digit in digits {
        value = value * 10 + u64::from(*digit - b'0');
    }
    value
}

/// The session that a word is.
pub fn read_session(word: &str) -> Result<u32, Stop<ScriptCode>>
    ensures { Gives result (script_spec.session_of (script_spec.number_of word.now)) }
{
    match number_of(word) {
        None | Some(0) => Err(Stop::Fault(ScriptCode::BadNumber)),
        Some(session) => {
            if session > SESSION_LIMIT {
                return Err(Stop::Fault(ScriptCode::TooManySessions));
            }
            Ok(session as u32)
        }
    }
}

/// The name that a word is.
pub fn read_name(alloc: Global, word: &str) -> Result<Name, Stop<ScriptCode>>
    ensures { Gives result (script_spec.name_of word.now) }
{
    match Name::parse(alloc, word) {
        Ok(name) => Ok(name),
        Err(Stop::Fault(_)) => Err(Stop::Fault(ScriptCode::BadName)),
        Err(Stop::NoMemory) => Err(Stop::NoMemory),
    }
}
