//! A transcript, line by line.

ghost use Rattle.std.specs.Prelude.{◌≡◌, ◌<◌, ◌==◌, ◌∷◌, [], ◌++◌, length};
ghost use Rattle.std.specs.Prelude.{IfOk, IfSome, MatchOption};
ghost use Rattle.std.specs.Option.{option_copied};
ghost use Rattle.std.specs.Str.{IsUtf8};
ghost use Rattle.dita_doc.specs.Bytes.{Bytes};
ghost use Rattle.dita_doc.specs.Bytes as bytes_spec;
ghost use Rattle.dita_doc.specs.Cut as cut_spec;
ghost use Rattle.dita_doc.specs.Lines as lines_spec;
ghost use Rattle.transcript_text.specs.Below as below_spec;
ghost use Rattle.transcript_text.specs.State as state_spec;
ghost use Rattle.transcript_text.specs.Told as told_spec;
ghost use Rattle.transcript_text.specs.Transcript as transcript_spec;
ghost use Rattle.transcript_text.specs.Words.{TextLines};

use crate::below::{Below, fits};
use crate::head::{EntryLine, RowLine, read_end_line, read_entry_line, read_row_line};
use crate::transcript::{EntryText, RowText, Transcript};
use dita_doc::{FactKey, List, Name, Text, is_utf8};
use std::alloc::{AllocError, Global};

/// What was read of a transcript.
#[derive(Drop)]
pub enum ReadState {
    /// Nothing.
    Start,
    /// Whole entries.
    Entries(List<EntryText>),
    /// Whole entries, and an entry of which lines are to come.
    Entry(List<EntryText>, EntryText, Below),
    /// All entries and whole rows, with the serial of the last row, or 0 if there is none.
    Rows(List<EntryText>, List<RowText>, u64),
    /// All entries, whole rows, and a row of which so many lines are to come.
    Row(List<EntryText>, List<RowText>, RowText, u64),
    /// The whole transcript.
    End(Transcript),
}

impl ReadState {
    /// Takes the next line, without its LF. The answer is `None` if the line may not stand there.
    pub fn next(self, alloc: Global, line: &[u8]) -> Result<Option<ReadState>, AllocError>
        requires { cut_spec.Lacks bytes_spec.line_feed line.now }
        ensures sound { (read : TextLines) → state_spec.HasRead self read →
            IfOk result (λ next. IfSome next
            (λ state. state_spec.HasRead state (read ++ line.now ∷ []))) }
        ensures complete { (more : TextLines) → state_spec.May self (line.now ∷ more) →
            IfOk result (λ next. MatchOption next ⊥ (λ state. state_spec.May state more)) }
    {
        match self {
            ReadState::Start => Ok(start(alloc, line)),
            ReadState::Entries(entries) => entry_or_row(alloc, entries, line),
            ReadState::Entry(entries, opened, below) => entry_text(
                alloc, entries, opened, below, line,
            ),
            ReadState::Rows(entries, rows, last) => row_or_end(alloc, entries, rows, last, line),
            ReadState::Row(entries, rows, opened, left) => {
                row_text(entries, rows, opened, left, line)
            }
            ReadState::End(_) => Ok(None),
        }
    }
}

fn start(alloc: Global, line: &[u8]) -> Option<ReadState>
    ensures sound { IfSome result (λ state. state_spec.HasRead state (line.now ∷ [])) }
    ensures complete { (more : TextLines) → state_spec.MayStart (line.now ∷ more) →
        MatchOption result ⊥ (λ state. state_spec.May state more) }
{
    if line == b"dita transcript 1".as_slice() {
        Some(ReadState::Entries(List::new(alloc)))
    } else {
        None
    }
}

fn entry_or_row(
    alloc: Global,
    entries: List<EntryText>,
    line: &[u8],
) -> Result<Option<ReadState>, AllocError>
    ensures sound { (read : TextLines) → state_spec.HasEntries entries read →
        IfOk result (λ next. IfSome next
        (λ state. state_spec.HasRead state (read ++ line.now ∷ []))) }
    ensures complete { (more : TextLines) → state_spec.MayEntries (line.now ∷ more) →
        IfOk result (λ next. MatchOption next ⊥ (λ state. state_spec.May state more)) }
{
    match read_entry_line(line) {
        Some(head) => {
            let opened = open_entry(alloc, &head)?;
            Ok(Some(with_entry(entries, opened, head.below)?))
        }
        None => row_or_end(alloc, entries, List::new(alloc), 0, line),
    }
}

fn open_entry(alloc: Global, head: &EntryLine<'_>) -> Result<EntryText, AllocError>
    requires { IsUtf8 head.now.reply.now }
    ensures { IfOk result (λ opened. opened ≡ record {
      place = head.now.place;
      session = head.now.session;
      number = head.now.number;
      reply = head.now.reply.now;
      lines = [];
    }) }
{
    Ok(EntryText {
        place: head.place,
        session: head.session,
        number: head.number,
        reply: Text::from_bytes(alloc, head.reply)?,
        lines: List::new(alloc),
    })
}

// The state with an entry, which is whole if no lines of it are to come.
fn with_entry(
    entries: List<EntryText>,
    opened: EntryText,
    below: Below,
) -> Result<ReadState, AllocError>
    ensures sound { (read : TextLines) → state_spec.HasOpenEntry entries opened below read →
        IfOk result (λ state. state_spec.HasRead state read) }
    ensures complete { (more : TextLines) →
        state_spec.MayEntryLines below (length opened.lines) more →
        IfOk result (λ state. state_spec.May state more) }
{
    if is_whole(below, opened.lines.len()) {
        let mut entries = entries;
        entries.push(opened)?;
        Ok(ReadState::Entries(entries))
    } else {
        Ok(ReadState::Entry(entries, opened, below))
    }
}

// Whether so many lines are all.
fn is_whole(below: Below, lines: usize) -> bool
    ensures { result ≡ (lines == below_spec.count_of below) }
{
    let lines = lines as u64;
    match below {
        Below::Texts(count) | Below::Names(count) => lines == count,
        Below::Built(pages, faults) => lines >= pages && lines - pages == faults,
    }
}

// Takes a line of an entry.
fn entry_text(
    alloc: Global,
    entries: List<EntryText>,
    opened: EntryText,
    below: Below,
    line: &[u8],
) -> Result<Option<ReadState>, AllocError>
    requires { cut_spec.Lacks bytes_spec.line_feed line.now }
    ensures sound { (read : TextLines) → state_spec.HasOpenEntry entries opened below read →
        length opened.lines < below_spec.count_of below →
        IfOk result (λ next. IfSome next
        (λ state. state_spec.HasRead state (read ++ line.now ∷ []))) }
    ensures complete { (more : TextLines) →
        state_spec.MayEntryLines below (length opened.lines) (line.now ∷ more) →
        length opened.lines < below_spec.count_of below →
        IfOk result (λ next. MatchOption next ⊥ (λ state. state_spec.May state more)) }
{
    let Some(text) = text_of(line) else {
        return Ok(None);
    };
    if !fits(below, opened.lines.len(), text) {
        return Ok(None);
    }
    let longer = with_text(alloc, opened, text)?;
    Ok(Some(with_entry(entries, longer, below)?))
}

// The entry with one more line.
fn with_text(alloc: Global, opened: EntryText, text: &[u8]) -> Result<EntryText, AllocError>
    requires { IsUtf8 text.now }
    ensures { IfOk result (λ longer. longer
        ≡ record opened { lines = opened.lines ++ text.now ∷ [] }) }
{
    let mut longer = opened;
    longer.lines.push(Text::from_bytes(alloc, text)?)?;
    Ok(longer)
}

// What stands behind the `|` of a line.
fn text_of(line: &[u8]) -> Option<&[u8]>
    ensures { MatchOption result ((text : Bytes) → line.now ≡ told_spec.bar text → ⊥)
        (λ text. line.now ≡ told_spec.bar text.now) }
{
    match line.split_first() {
        Some((first, text)) if *first == b'|' => Some(text),
        _ => None,
    }
}

fn row_or_end(
    alloc: Global,
    entries: List<EntryText>,
    rows: List<RowText>,
    last: u64,
    line: &[u8],
) -> Result<Option<ReadState>, AllocError>
    ensures sound { (read : TextLines) → state_spec.HasRows entries rows last read →
        IfOk result (λ next. IfSome next
        (λ state. state_spec.HasRead state (read ++ line.now ∷ []))) }
    ensures complete { (more : TextLines) → state_spec.MayRows last (line.now ∷ more) →
        IfOk result (λ next. MatchOption next ⊥ (λ state. state_spec.May state more)) }
{
    match read_row_line(line) {
        Some(row) => {
            if row.serial < last {
                return Ok(None);
            }
            let opened = open_row(alloc, &row)?;
            Ok(Some(with_row(entries, rows, opened, row.count)?))
        }
        None => match read_end_line(line) {
            Some(total) => Ok(Some(ReadState::End(Transcript {
                entries,
                rows,
                total,
            }))),
            None => Ok(None),
        },
    }
}

fn open_row(alloc: Global, row: &RowLine<'_>) -> Result<RowText, AllocError>
    requires map { transcript_spec.IsNameShown row.now.map.now }
    requires val { transcript_spec.IsValShown (option_copied row.now.val) }
    ensures { IfOk result (λ opened. opened ≡ record {
      serial = row.now.serial;
      key = record {
        map = row.now.map.now;
        val = option_copied row.now.val;
        part = row.now.part;
      };
      bytes = [];
    }) }
{
    let map = name_of(alloc, row.map)?;
    let val = match row.val {
        Some(val) => Some(name_of(alloc, val)?),
        None => None,
    };
    Ok(RowText {
        serial: row.serial,
        key: FactKey {
            map,
            val,
            part: row.part,
        },
        bytes: List::new(alloc),
    })
}

fn name_of(alloc: Global, bytes: &[u8]) -> Result<Name, AllocError>
    requires { transcript_spec.IsNameShown bytes.now }
    ensures { IfOk result (λ name. name ≡ bytes.now) }
{
    Name::new(alloc, Text::from_bytes(alloc, bytes)?)
}

// The state with a row, which is whole if no lines of it are left.
fn with_row(
    entries: List<EntryText>,
    rows: List<RowText>,
    opened: RowText,
    left: u64,
) -> Result<ReadState, AllocError>
    ensures sound { (read : TextLines) → state_spec.HasOpenRow entries rows opened left read →
        IfOk result (λ state. state_spec.HasRead state read) }
    ensures complete { (more : TextLines) → state_spec.MayRowLines left opened.serial more →
        IfOk result (λ state. state_spec.May state more) }
{
    if left == 0 {
        let last = opened.serial;
        let mut rows = rows;
        rows.push(opened)?;
        Ok(ReadState::Rows(entries, rows, last))
    } else {
        Ok(ReadState::Row(entries, rows, opened, left))
    }
}

// Takes a line of a row.
fn row_text(
    entries: List<EntryText>,
    rows: List<RowText>,
    opened: RowText,
    left: u64,
    line: &[u8],
) -> Result<Option<ReadState>, AllocError>
    requires { cut_spec.Lacks bytes_spec.line_feed line.now }
    ensures sound { (read : TextLines) → state_spec.HasOpenRow entries rows opened left read →
        0 < left →
        IfOk result (λ next. IfSome next
        (λ state. state_spec.HasRead state (read ++ line.now ∷ []))) }
    ensures complete { (more : TextLines) →
        state_spec.MayRowLines left opened.serial (line.now ∷ more) → 0 < left →
        IfOk result (λ next. MatchOption next ⊥ (λ state. state_spec.May state more)) }
{
    let Some(text) = text_of_row(left, line) else {
        return Ok(None);
    };
    let longer = with_line(opened, text)?;
    Ok(Some(with_row(entries, rows, longer, left - 1)?))
}

// What stands behind the `|` of a line of a row of which so many lines are to come.
fn text_of_row(left: u64, line: &[u8]) -> Option<&[u8]>
    requires { cut_spec.Lacks bytes_spec.line_feed line.now }
    ensures { MatchOption result
        ((text : Bytes) → line.now ≡ told_spec.bar text → lines_spec.IsLineText text →
        0 < left → ⊥)
        (λ text. (line.now ≡ told_spec.bar text.now) × lines_spec.IsLineText text.now
        × (0 < left)) }
{
    let text = text_of(line)?;
    if left == 0 || !is_utf8(text) {
        return None;
    }
    Some(text)
}

// The row with one more line of its bytes.
fn with_line(opened: RowText, text: &[u8]) -> Result<RowText, AllocError>
    ensures { IfOk result (λ longer. longer
        ≡ record opened { bytes = opened.bytes ++ lines_spec.line text.now }) }
{
    let mut longer = opened;
    longer.bytes.append(text)?;
    longer.bytes.push(b'\n')?;
    Ok(longer)
}
