//! The parts of one line.

ghost use Rattle.std.specs.Prelude.{◌≡◌, ◌≤◌, ◌∷◌, slice_get, IfOk, IfSome, IfNone};
ghost use Rattle.std.specs.List.{before_first, after_first, list_any};
ghost use Rattle.dita_doc.specs.Bytes as bytes_spec;
ghost use Rattle.dita_doc.specs.PyxEscapes as pyx_escapes_spec;
ghost use Rattle.dita_doc.specs.PyxLine as pyx_line_spec;

use dita_doc::{Text, append_unescaped, split_text_at_first};
use std::alloc::{AllocError, Global};

/// The first byte of a text and the text behind it, if there is one and it is ASCII.
pub fn split_first(text: &str) -> Option<(u8, &str)>
    ensures some { IfSome result (λ parts. text.now ≡ parts.0 ∷ parts.1.now) }
    ensures none { IfNone result (IfSome (slice_get text.now 0) (λ first. 128 ≤ first)) }
{
    let first = *text.as_bytes().first()?;
    if !first.is_ascii() {
        return None;
    }
    Some((first, &text[1..]))
}

/// Whether a text is the name of an element or attribute: it is not empty, and has no space or tab.
pub fn is_line_name(text: &str) -> bool
    ensures { result ≡ pyx_line_spec.is_line_name text.now }
{
    !text.is_empty() && !has_gap(text.as_bytes())
}

fn has_gap(bytes: &[u8]) -> bool
    ensures { result ≡ list_any bytes_spec.is_gap bytes.now }
{
    bytes.iter().any(|byte| *byte == b' ' || *byte == b'\t')
}

/// What stands before and behind the first space; without one nothing stands behind.
pub fn split_at_space(text: &str) -> (&str, &str)
    ensures front { result.0.now ≡ before_first bytes_spec.is_space text.now }
    ensures back { result.1.now ≡ after_first bytes_spec.is_space text.now }
{
    match split_text_at_first(text, b' ') {
        Some(parts) => parts,
        None => (text, ""),
    }
}

/// The text that a text with escapes stands for.
pub fn unescape(alloc: Global, text: &str) -> Result<Text, AllocError>
    ensures { IfOk result (λ plain. plain ≡ pyx_escapes_spec.unescaped text.now) }
{
    let mut plain = Text::new(alloc);
    append_unescaped(&mut plain, text)?;
    Ok(plain)
}
