//! Tests of bytes, and bytes and texts cut at a byte.

ghost use Rattle.std.specs.Prelude.{◌≡◌, ◌<◌, MatchOption, bytes_eq};
ghost use Rattle.std.specs.List.{list_all};
ghost use Rattle.std.specs.Str.{is_utf8 as is_utf8_of};
ghost use Rattle.dita_doc.specs.Bytes.{is_digit};
ghost use Rattle.dita_doc.specs.Cut as cut_spec;
ghost use Rattle.dita_doc.specs.PlainText as plain_text_spec;

/// Whether bytes are UTF-8.
pub fn is_utf8(bytes: &[u8]) -> bool
    ensures { result ≡ is_utf8_of bytes.now }
{
    str::from_utf8(bytes).is_ok()
}

/// Whether a byte is a blank: a space, a tab or an LF.
pub fn is_blank_byte(byte: u8) -> bool
    ensures { result ≡ plain_text_spec.is_blank_byte byte }
{
    byte == b' ' || byte == b'\t' || byte == b'\n'
}

/// Whether a text is of blanks alone.
pub fn is_blank(text: &[u8]) -> bool
    ensures { result ≡ plain_text_spec.is_blank text.now }
{
    text.iter().all(|byte| is_blank_byte(*byte))
}

/// Whether bytes are decimal digits alone.
pub fn are_digits(bytes: &[u8]) -> bool
    ensures { result ≡ list_all is_digit bytes.now }
{
    bytes.iter().all(|byte| *byte >= b'0' && *byte <= b'9')
}

/// Whether two texts are one. Their lengths are compared first: names that are compared often, as
/// those of attributes and types, mostly differ in them.
pub fn is_same(one: &[u8], other: &[u8]) -> bool
    ensures { result ≡ bytes_eq one.now other.now }
{
    if one.len() != other.len() {
        return false;
    }
    one == other
}

/// What stands before and behind the first such byte, if there is one.
pub fn split_at_first(bytes: &[u8], byte: u8) -> Option<(&[u8], &[u8])>
    ensures { MatchOption result (cut_spec.Lacks byte bytes.now)
        (λ parts. cut_spec.IsCutAt byte bytes.now parts.0.now parts.1.now) }
{
    let at = bytes.iter().position(|b| *b == byte)?;
    Some((&bytes[..at], &bytes[at + 1..]))
}

/// What stands before and behind the last such byte, if there is one.
pub fn split_at_last(bytes: &[u8], byte: u8) -> Option<(&[u8], &[u8])>
    ensures { MatchOption result (cut_spec.Lacks byte bytes.now)
        (λ parts. cut_spec.IsCutAtLast byte bytes.now parts.0.now parts.1.now) }
{
    let mut end = bytes.len();
    while end > 0 {
        if bytes[end - 1] == byte {
            return Some((&bytes[..end - 1], &bytes[end..]));
        }
        end -= 1;
    }
    None
}

/// What stands before and behind the first such ASCII character, if there is one.
pub fn split_text_at_first(text: &str, byte: u8) -> Option<(&str, &str)>
    requires { byte < 128 }
    ensures { MatchOption result (cut_spec.Lacks byte text.now)
        (λ parts. cut_spec.IsCutAt byte text.now parts.0.now parts.1.now) }
{
    let (front, back) = split_at_first(text.as_bytes(), byte)?;
    let at = front.len();
    Some((&text[..at], &text[at + 1..]))
}
