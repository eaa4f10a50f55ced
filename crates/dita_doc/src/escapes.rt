//! The escapes of HTML and of PYX, and a text on one line.
//!
//! Each run of bytes without an escape is copied as a whole. A call that finds no memory may have
//! appended the first part of its text.

ghost use Rattle.std.specs.Prelude.{◌≡◌, ◌++◌, ◌∷◌, ◌<◌, ◌≤◌, [], true, length, IfOk, IfSome, OnOk, OnSome, MatchOption};
ghost use Rattle.dita_doc.specs.HtmlEscapes as html_escapes_spec;
ghost use Rattle.dita_doc.specs.PlainText as plain_text_spec;
ghost use Rattle.dita_doc.specs.PyxEscapes as pyx_escapes_spec;

use crate::bytes::{is_blank_byte, split_text_at_first};
use crate::list::List;
use crate::text::Text;
use std::alloc::{AllocError, Global};

/// Appends a text as HTML writes it between tags, with each `&`, `<` and `>` escaped.
pub fn append_html(out: &mut Text, text: &str) -> Result<(), AllocError>
    ensures { OnOk result (out.new ≡ out.old ++ html_escapes_spec.escaped text.now) }
{
    let mut rest = text;
    while let Some((front, escape, back)) = split_at_html_escape(rest) {
        out.append(front)?;
        out.append(escape)?;
        rest = back;
    }
    out.append(rest)
}

/// Appends a text as HTML writes it between double quotes, with each `"` escaped too.
pub fn append_html_value(out: &mut Text, value: &str) -> Result<(), AllocError>
    ensures { OnOk result (out.new ≡ out.old ++ html_escapes_spec.escaped_value value.now) }
{
    let mut rest = value;
    while let Some((front, back)) = split_text_at_first(rest, b'"') {
        append_html(out, front)?;
        out.append("&quot;")?;
        rest = back;
    }
    append_html(out, rest)
}

// What stands before the first character that has an escape, this escape, and what stands behind
// the character, if there is one.
fn split_at_html_escape(text: &str) -> Option<(&str, &'static str, &str)>
    ensures whole { MatchOption result (html_escapes_spec.escaped text.now ≡ text.now) (λ parts.
        html_escapes_spec.escaped text.now
        ≡ parts.0.now ++ parts.1.now ++ html_escapes_spec.escaped parts.2.now) }
    ensures shorter { IfSome result (λ parts. length parts.2.now < length text.now) }
{
    for (at, byte) in text.as_bytes().iter().enumerate() {
        if let Some(escape) = html_escape(*byte) {
            return Some((&text[..at], escape, &text[at + 1..]));
        }
    }
    None
}

// What HTML writes in place of a character, if not the character itself.
fn html_escape(byte: u8) -> Option<&'static str>
    ensures escape { MatchOption result (html_escapes_spec.escaped_byte byte ≡ byte ∷ [])
        (λ escape. html_escapes_spec.escaped_byte byte ≡ escape.now) }
    ensures ascii { OnSome result (byte < 128) }
{
    match byte {
        b'&' => Some("&amp;"),
        b'<' => Some("&lt;"),
        b'>' => Some("&gt;"),
        _ => None,
    }
}

/// Appends bytes as a line of PYX writes them, with each LF, tab and backslash escaped.
pub fn append_pyx(out: &mut List<u8>, text: &[u8]) -> Result<(), AllocError>
    ensures { OnOk result (out.new ≡ out.old ++ pyx_escapes_spec.escaped text.now) }
{
    let mut rest = text;
    while let Some((front, escape, back)) = split_at_pyx_escape(rest) {
        out.append(front)?;
        out.append(escape)?;
        rest = back;
    }
    out.append(rest)
}

// What stands before the first byte that has an escape, this escape, and what stands behind the
// byte, if there is one.
fn split_at_pyx_escape(bytes: &[u8]) -> Option<(&[u8], &'static [u8], &[u8])>
    ensures whole { MatchOption result (pyx_escapes_spec.escaped bytes.now ≡ bytes.now) (λ parts.
        pyx_escapes_spec.escaped bytes.now
        ≡ parts.0.now ++ parts.1.now ++ pyx_escapes_spec.escaped parts.2.now) }
    ensures shorter { IfSome result (λ parts. length parts.2.now < length bytes.now) }
{
    for (at, byte) in bytes.iter().enumerate() {
        if let Some(escape) = pyx_escape(*byte) {
            return Some((&bytes[..at], escape, &bytes[at + 1..]));
        }
    }
    None
}

// What PYX writes in place of a byte, if not the byte itself.
fn pyx_escape(byte: u8) -> Option<&'static [u8]>
    ensures { MatchOption result (pyx_escapes_spec.escaped_byte byte ≡ byte ∷ [])
        (λ escape. pyx_escapes_spec.escaped_byte byte ≡ escape.now) }
{
    match byte {
        b'\n' => Some(b"\\n"),
        b'\t' => Some(b"\\t"),
        b'\\' => Some(b"\\\\"),
        _ => None,
    }
}

/// Appends a text of PYX with the character that each of its escapes stands for.
pub fn append_unescaped(out: &mut Text, text: &str) -> Result<(), AllocError>
    ensures { OnOk result (out.new ≡ out.old ++ pyx_escapes_spec.unescaped text.now) }
{
    let mut rest = text;
    while let Some((front, behind)) = split_text_at_first(rest, b'\\') {
        let (meant, back) = read_pyx_escape(behind);
        out.append(front)?;
        out.append(meant)?;
        rest = back;
    }
    out.append(rest)
}

// What a backslash stands for, with the first character behind it if the two are an escape, and
// what is left of the text behind it.
fn read_pyx_escape(behind: &str) -> (&'static str, &str)
    ensures whole { pyx_escapes_spec.unescaped_after true behind.now
        ≡ result.0.now ++ pyx_escapes_spec.unescaped result.1.now }
    ensures shorter { length result.1.now ≤ length behind.now }
{
    match behind.as_bytes().first() {
        Some(b'n') => ("\n", &behind[1..]),
        Some(b't') => ("\t", &behind[1..]),
        Some(b'\\') => ("\\", &behind[1..]),
        _ => ("\\", behind),
    }
}

/// The text on one line: a space for each run of blanks between words, and none at the ends. A
/// blank is a space, a tab or an LF.
pub fn fold(alloc: Global, text: &str) -> Result<Text, AllocError>
    ensures { IfOk result (λ line. line ≡ plain_text_spec.folded text.now) }
{
    let mut line = Vec::new(alloc);
    let words = text.as_bytes().split(|byte| is_blank_byte(*byte));
    for word in words.filter(|word| !word.is_empty()) {
        if !line.is_empty() {
            line.push(b' ')?;
        }
        line.extend_from_slice(word)?;
    }
    Ok(Text::from_vec(line))
}
