//! Texts line by line.

ghost use Rattle.std.specs.Prelude.{◌≡◌, ◌++◌, OnOk, length};
ghost use Rattle.std.specs.List.{flat_map};
ghost use Rattle.dita_doc.specs.Lines as lines_spec;
ghost use Rattle.transcript_text.specs.Transcript as transcript_spec;

use dita_doc::{List, split_at_first};
use std::alloc::AllocError;

/// How many lines a text has; a rest without LF is one.
pub fn count_lines(bytes: &[u8]) -> usize
    ensures { result ≡ length (lines_spec.lines_of bytes.now) }
{
    let mut count = 0;
    let mut rest = bytes;
    while let Some((_, back)) = split_at_first(rest, b'\n') {
        count += 1;
        rest = back;
    }
    if rest.is_empty() { count } else { count + 1 }
}

/// Appends the lines of a text, each behind a bar.
///
/// # Errors
///
/// Out of memory. Some of the lines may have been appended then.
pub fn append_lines(out: &mut List<u8>, bytes: &[u8]) -> Result<(), AllocError>
    ensures { OnOk result (out.new ≡ out.old
        ++ flat_map transcript_spec.bar_line (lines_spec.lines_of bytes.now)) }
{
    let mut rest = bytes;
    while let Some((front, back)) = split_at_first(rest, b'\n') {
        append_line(out, front)?;
        rest = back;
    }
    if !rest.is_empty() {
        append_line(out, rest)?;
    }
    Ok(())
}

pub(crate) fn append_line(out: &mut List<u8>, text: &[u8]) -> Result<(), AllocError>
    ensures { OnOk result (out.new ≡ out.old ++ transcript_spec.bar_line text.now) }
{
    out.append(b"|")?;
    out.append(text)?;
    out.append(b"\n")
}
