//! The lines below an entry.

ghost use Rattle.std.specs.Prelude.{◌≡◌, MatchBool};
ghost use Rattle.dita_doc.specs.Bytes as bytes_spec;
ghost use Rattle.dita_doc.specs.Cut as cut_spec;
ghost use Rattle.transcript_text.specs.Below as below_spec;
ghost use Rattle.transcript_text.specs.Words as words_spec;

use crate::word::{
    is_name_word, number32, number64, split_word, take_name, take_number64, take_word,
};
use dita_doc::{FaultCode, PyxCode, is_utf8, split_at_first, split_at_last};

/// What lines stand below an entry.
#[derive(Clone, Copy)]
pub enum Below {
    /// So many lines of a text.
    Texts(u64),
    /// So many names with their versions.
    Names(u64),
    /// So many pages, and then so many faults.
    Built(u64, u64),
}

/// All codes of PYX faults, in their order.
pub const PYX_CODES: [PyxCode; 12] = [
    PyxCode::BadLine,
    PyxCode::Entity,
    PyxCode::AttributePlace,
    PyxCode::AttributeTwice,
    PyxCode::Unclosed,
    PyxCode::CloseMismatch,
    PyxCode::NoRoot,
    PyxCode::SecondRoot,
    PyxCode::TextOutside,
    PyxCode::TooDeep,
    PyxCode::TooLong,
    PyxCode::NotUtf8,
];

/// All codes of a build's faults, in their order.
pub const FAULT_CODES: [FaultCode; 31] = [
    FaultCode::NoClass,
    FaultCode::BadClass,
    FaultCode::BadReference,
    FaultCode::MapMissing,
    FaultCode::MapCycle,
    FaultCode::TopicMissing,
    FaultCode::NotTopic,
    FaultCode::MapConref,
    FaultCode::GroupValue,
    FaultCode::DitavalMissing,
    FaultCode::DitavalTwice,
    FaultCode::BadAction,
    FaultCode::CopyTo,
    FaultCode::Chunk,
    FaultCode::NameChanged,
    FaultCode::BadKeyName,
    FaultCode::BadScopeName,
    FaultCode::KeyUndefined,
    FaultCode::KeyCycle,
    FaultCode::KeyNoText,
    FaultCode::ConrefMissing,
    FaultCode::ConrefType,
    FaultCode::ConrefCycle,
    FaultCode::ConrefDepth,
    FaultCode::RangeEnd,
    FaultCode::PushPlace,
    FaultCode::PushTwice,
    FaultCode::TooManyResolved,
    FaultCode::LinkNoPage,
    FaultCode::PageTooLarge,
    FaultCode::Foreign,
];

/// What the words of a reply say of the lines below it, if they are a reply's.
pub fn read_reply(reply: &[u8]) -> Option<Below>
    ensures { result ≡ below_spec.below_of (bytes_spec.spaced_parts reply.now) }
{
    if is_refusal(reply) {
        Some(Below::Texts(0))
    } else {
        read_other(reply)
    }
}

fn is_refusal(words: &[u8]) -> bool
    ensures { result ≡ below_spec.is_refusal (bytes_spec.spaced_parts words.now) }
{
    let (first, rest) = split_word(words);
    let Some(rest) = rest else {
        return first == b"absent".as_slice();
    };
    let (second, rest) = split_word(rest);
    let Some(rest) = rest else {
        return is_refusal_of_two(first, second);
    };
    let (third, rest) = split_word(rest);
    match rest {
        None => is_refusal_of_three(first, second, third),
        Some(_) => false,
    }
}

fn is_refusal_of_two(word: &[u8], second: &[u8]) -> bool
    ensures { result ≡ below_spec.is_refusal_two word.now second.now }
{
    if word == b"conflict".as_slice() {
        number64(second).is_some()
    } else {
        word == b"toomanynames".as_slice() && second == b"10000".as_slice()
    }
}

fn is_refusal_of_three(word: &[u8], second: &[u8], third: &[u8]) -> bool
    ensures { result ≡ below_spec.is_refusal_three word.now second.now third.now }
{
    word == b"refused".as_slice() && is_pyx_code(second) && number32(third).is_some()
}

// The same for a reply that is no refusal.
fn read_other(reply: &[u8]) -> Option<Below>
    ensures { result ≡ below_spec.below_other (bytes_spec.spaced_parts reply.now) }
{
    let (first, rest) = split_word(reply);
    let Some(rest) = rest else {
        return read_one(first);
    };
    let (second, rest) = split_word(rest);
    if first == b"stopped".as_slice() {
        read_stopped(second, rest)
    } else {
        read_some(first, second, rest)
    }
}

fn read_one(word: &[u8]) -> Option<Below>
    ensures { result ≡ below_spec.below_one word.now }
{
    if is_lone(word) {
        Some(Below::Texts(0))
    } else {
        None
    }
}

fn is_lone(word: &[u8]) -> bool
    ensures { result ≡ below_spec.is_among below_spec.lone_words word.now }
{
    word == b"nomap".as_slice()
        || word == b"notmap".as_slice()
        || word == b"noditaval".as_slice()
        || word == b"toomanynodes".as_slice()
        || word == b"toomanypages".as_slice()
}

// A group that was stopped at the edit of this number, for this refusal.
fn read_stopped(number: &[u8], refusal: Option<&[u8]>) -> Option<Below>
    ensures { result
        ≡ below_spec.below_stopped number.now (words_spec.words_in refusal.entry) }
{
    if is_refusal(refusal?) && number32(number).is_some() {
        Some(Below::Texts(0))
    } else {
        None
    }
}

// A reply of two words, or of three if there are more.
fn read_some(word: &[u8], second: &[u8], rest: Option<&[u8]>) -> Option<Below>
    ensures { result
        ≡ below_spec.below_some word.now second.now (words_spec.words_in rest.entry) }
{
    let Some(rest) = rest else {
        return read_two(word, second);
    };
    let (third, rest) = split_word(rest);
    match rest {
        None => read_three(word, second, third),
        Some(_) => None,
    }
}

fn read_two(word: &[u8], second: &[u8]) -> Option<Below>
    ensures { result ≡ below_spec.below_two word.now second.now }
{
    if is_numbered(word) {
        number64(second)?;
        return Some(Below::Texts(0));
    }
    if word == b"grouped".as_slice() {
        number32(second)?;
        return Some(Below::Texts(0));
    }
    if word == b"text".as_slice() {
        return Some(Below::Texts(number64(second)?));
    }
    if word == b"names".as_slice() {
        return Some(Below::Names(number64(second)?));
    }
    None
}

fn is_numbered(word: &[u8]) -> bool
    ensures { result ≡ below_spec.is_among below_spec.numbered_words word.now }
{
    word == b"stored".as_slice() || word == b"removed".as_slice() || word == b"toolarge".as_slice()
}

fn read_three(word: &[u8], second: &[u8], third: &[u8]) -> Option<Below>
    ensures { result ≡ below_spec.below_three word.now second.now third.now }
{
    if word == b"built".as_slice() {
        return Some(Below::Built(number64(second)?, number64(third)?));
    }
    None
}

fn is_pyx_code(word: &[u8]) -> bool
    ensures { result ≡ below_spec.is_pyx_code word.now }
{
    PYX_CODES.iter().any(|code| code.text().as_bytes() == word)
}

fn is_fault_code(word: &[u8]) -> bool
    ensures { result ≡ below_spec.is_fault_code word.now }
{
    FAULT_CODES
        .iter()
        .any(|code| code.text().as_bytes() == word)
}

/// Whether a text may stand on the line of this index below an entry, without its `|`.
pub fn fits(below: Below, at: usize, text: &[u8]) -> bool
    requires { cut_spec.Lacks bytes_spec.line_feed text.now }
    ensures { MatchBool result (below_spec.FitsAt below at text.now)
        (below_spec.FitsAt below at text.now → ⊥) }
{
    match below {
        Below::Texts(_) => is_utf8(text),
        Below::Names(_) => is_name_text(text),
        Below::Built(pages, _) => {
            if (at as u64) < pages {
                is_page_text(text)
            } else {
                is_fault_text(text)
            }
        }
    }
}

fn is_name_text(text: &[u8]) -> bool
    ensures { MatchBool result (below_spec.IsNameText text.now)
        (below_spec.IsNameText text.now → ⊥) }
{
    let Some((_, rest)) = take_name(Some(text)) else {
        return false;
    };
    ends_with_number(rest)
}

// Whether one word is left, and it is a number below 2^64.
fn ends_with_number(rest: Option<&[u8]>) -> bool
    ensures { MatchBool result (below_spec.IsLastNumber (words_spec.words_in rest.entry))
        (below_spec.IsLastNumber (words_spec.words_in rest.entry) → ⊥) }
{
    match take_number64(rest) {
        Some((_, behind)) => behind.is_none(),
        None => false,
    }
}

fn is_page_text(text: &[u8]) -> bool
    ensures { MatchBool result (below_spec.IsPageText text.now)
        (below_spec.IsPageText text.now → ⊥) }
{
    let Some(rest) = take_word(Some(text), b"page") else {
        return false;
    };
    let Some((_, rest)) = take_name(rest) else {
        return false;
    };
    match take_word(rest, b"bytes") {
        Some(rest) => ends_with_number(rest),
        None => match take_word(rest, b"row") {
            Some(rest) => ends_with_number(rest),
            None => false,
        },
    }
}

fn is_fault_text(text: &[u8]) -> bool
    requires { cut_spec.Lacks bytes_spec.line_feed text.now }
    ensures { MatchBool result (below_spec.IsFaultText text.now)
        (below_spec.IsFaultText text.now → ⊥) }
{
    let Some((place, code)) = split_at_first(text, b' ') else {
        return false;
    };
    is_place(place) && is_code_text(code)
}

// Whether a text is a name, a colon and a line.
fn is_place(text: &[u8]) -> bool
    ensures { MatchBool result (below_spec.IsPlaceText text.now)
        (below_spec.IsPlaceText text.now → ⊥) }
{
    match split_at_last(text, b':') {
        Some((name, line)) => is_name_word(name) && number32(line).is_some(),
        None => false,
    }
}

// Whether a text is a code, and a detail behind a space or none.
fn is_code_text(text: &[u8]) -> bool
    requires { cut_spec.Lacks bytes_spec.line_feed text.now }
    ensures { MatchBool result (below_spec.IsCodeText text.now)
        (below_spec.IsCodeText text.now → ⊥) }
{
    match split_at_first(text, b' ') {
        Some((code, detail)) => is_fault_code(code) && is_detail(detail),
        None => is_fault_code(text),
    }
}

fn is_detail(detail: &[u8]) -> bool
    requires { cut_spec.Lacks bytes_spec.line_feed detail.now }
    ensures { MatchBool result (below_spec.IsDetail detail.now)
        (below_spec.IsDetail detail.now → ⊥) }
{
    !detail.is_empty() && is_utf8(detail)
}
