//! Lines of bytes.

ghost use Rattle.std.specs.Prelude.{◌≡◌, [], MatchOption};
ghost use Rattle.script_text.specs.Read as read_spec;

use dita_doc::split_at_first;

/// The first line of some bytes without its LF and what stands behind it, if there is a line.
pub fn split_line(bytes: &[u8]) -> Option<(&[u8], &[u8])>
    ensures { MatchOption result (bytes.now ≡ [])
        (λ parts. read_spec.BeginsLine bytes.now parts.0.now parts.1.now) }
{
    if let Some(parts) = split_at_first(bytes, b'\n') {
        return Some(parts);
    }
    if bytes.is_empty() {
        None
    } else {
        Some((bytes, &[]))
    }
}
