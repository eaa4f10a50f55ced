//! Rows to lines.

ghost use Rattle.std.specs.Prelude.{◌≡◌, ◌++◌, codes, true, IfOk, IfSome, OnOk};
ghost use Rattle.std.specs.Fmt.{decimal};
ghost use Rattle.std.specs.List.{flat_map};
ghost use Rattle.std.specs.Str.{is_utf8};
ghost use Rattle.dita_doc.specs.Lines as lines_spec;
ghost use Rattle.facts.specs.Rows as rows_spec;
ghost use Rattle.row_text.specs.RowWritten as spec;
ghost use Rattle.transcript_text.specs.Transcript as transcript_spec;

use dita_doc::{FactKey, List, Name, NoMemory, Part};
use facts::{Fact, Row};
use std::alloc::{AllocError, Global};
use transcript_text::{append_lines, count_lines};

/// The text of a row: of a page, or of a contents page.
///
/// # Errors
///
/// Out of memory.
pub fn write_row(alloc: Global, row: &Row) -> Result<List<u8>, NoMemory>
    requires page { spec.HasPage (rows_spec.row_data row.now).fact }
    ensures text { IfOk result (λ text. IfSome (spec.row_shown (rows_spec.row_data row.now))
        (λ shown. text ≡ transcript_spec.row_text shown)) }
    ensures form { is_utf8 (spec.bytes_of (rows_spec.row_data row.now).fact) ≡ true
        → IfOk result (λ text. IfSome (spec.row_shown (rows_spec.row_data row.now))
        transcript_spec.IsRowShown) }
    ensures whole { IfOk result (λ text. IfSome (spec.row_shown (rows_spec.row_data row.now))
        (λ shown. flat_map lines_spec.line shown.lines
        ≡ spec.bytes_of (rows_spec.row_data row.now).fact)) }
{
    let mut out = List::new(alloc);
    let bytes = bytes_of(&row.fact);
    append_front(alloc, &mut out, row.serial, &row.fact.key)?;
    append_count(alloc, &mut out, row.fact.key.part, count_lines(bytes))?;
    append_lines(&mut out, bytes)?;
    Ok(out)
}

// The page of a fact; no bytes if it has none.
fn bytes_of(fact: &Fact) -> &[u8]
    ensures { result.now ≡ spec.bytes_of fact.now }
{
    match &fact.html {
        Some(html) => html.bytes.as_slice(),
        None => &[],
    }
}

// Appends the first line of a row up to its index.
fn append_front(
    alloc: Global,
    out: &mut List<u8>,
    serial: u64,
    key: &FactKey,
) -> Result<(), AllocError>
    ensures text { OnOk result (out.new ≡ out.old ++ spec.front_text serial key.now) }
    ensures serial { OnOk result (transcript_spec.Fits64 serial) }
    ensures map { OnOk result (transcript_spec.IsNameShown key.now.map) }
    ensures val { OnOk result (transcript_spec.IsValShown key.now.val) }
{
    out.append(format!(in alloc; "row {serial} ")?.as_bytes())?;
    out.append(word_of(key.part).as_bytes())?;
    out.append(b" ")?;
    out.append(key.map.as_bytes())?;
    out.append(b" ")?;
    append_val(out, &key.val)?;
    out.append(b" ")
}

fn append_val(out: &mut List<u8>, val: &Option<Name>) -> Result<(), AllocError>
    ensures text { OnOk result (out.new ≡ out.old ++ transcript_spec.val_text val.now) }
    ensures form { OnOk result (transcript_spec.IsValShown val.now) }
{
    match val {
        Some(val) => out.append(val.as_bytes()),
        None => out.append(b"-"),
    }
}

// Appends the end of the first line: the index of the part, and how many lines it has.
fn append_count(
    alloc: Global,
    out: &mut List<u8>,
    part: Part,
    lines: usize,
) -> Result<(), AllocError>
    ensures text { OnOk result (out.new ≡ out.old
        ++ lines_spec.line (decimal (spec.index_of part) ++ codes " " ++ decimal lines)) }
    ensures index { OnOk result (transcript_spec.Fits32 (spec.index_of part)) }
    ensures count { OnOk result (transcript_spec.Fits64 lines) }
{
    let index = index_of(part);
    out.append(format!(in alloc; "{index} {lines}\n")?.as_bytes())
}

fn word_of(part: Part) -> &'static str
    ensures { result.now ≡ spec.word_of part }
{
    match part {
        Part::Page(_) => "page",
        Part::Plan | Part::Contents => "contents",
    }
}

fn index_of(part: Part) -> u32
    ensures { result ≡ spec.index_of part }
{
    match part {
        Part::Page(index) => index,
        Part::Plan | Part::Contents => 0,
    }
}
