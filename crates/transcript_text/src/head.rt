//! The lines that begin an entry or a row, and the last line.

ghost use Rattle.std.specs.Prelude.{◌≡◌, ◌∷◌, ℕ, Option, MatchOption};
ghost use Rattle.std.specs.Option.{option_copied};
ghost use Rattle.dita_doc.specs.Bytes.{Bytes};
ghost use Rattle.transcript_text.specs.declared.below.Below.{Below as BelowShown};
ghost use Rattle.transcript_text.specs.Heads as heads_spec;
ghost use Rattle.transcript_text.specs.Transcript as transcript_spec;
ghost use Rattle.transcript_text.specs.Words as words_spec;

use crate::below::{Below, read_reply};
use crate::word::{is_name_word, split_word, take_name, take_number32, take_number64, take_word};
use dita_doc::Part;

/// What the first line of an entry says.
#[derive(Drop)]
pub struct EntryLine<'a> {
    pub place: u64,
    pub session: u32,
    pub number: u32,
    pub reply: &'a [u8],
    pub below: Below,
}

/// What the first line of a row says.
#[derive(Drop)]
pub struct RowLine<'a> {
    pub serial: u64,
    pub part: Part,
    pub map: &'a [u8],
    pub val: Option<&'a [u8]>,
    /// How many lines stand below.
    pub count: u64,
}

/// Reads the first line of an entry, if it is one.
pub fn read_entry_line(line: &[u8]) -> Option<EntryLine<'_>>
    ensures { MatchOption result
        ((place session number : ℕ) (reply : Bytes) (below : BelowShown) →
        heads_spec.IsEntryLine line.now place session number reply below → ⊥)
        (λ head. heads_spec.IsEntryLine line.now
        head.place head.session head.number head.reply.now head.below) }
{
    let rest = take_word(Some(line), b"entry")?;
    let (place, rest) = take_number64(rest)?;
    let (session, rest) = take_number32(rest)?;
    let (number, rest) = take_number32(rest)?;
    let reply = rest?;
    let below = read_reply(reply)?;
    Some(EntryLine {
        place,
        session,
        number,
        reply,
        below,
    })
}

/// Reads the first line of a row, if it is one.
pub fn read_row_line(line: &[u8]) -> Option<RowLine<'_>>
    ensures { MatchOption result
        ((serial : ℕ) (part : transcript_spec.PartShown) (map : Bytes) (val : Option Bytes)
        (count : ℕ) → heads_spec.IsRowLine line.now serial part map val count → ⊥)
        (λ row. (part : transcript_spec.PartShown) × (row.part ≡ heads_spec.part_seen part)
        × heads_spec.IsRowLine line.now
        row.serial part row.map.now (option_copied row.val) row.count) }
{
    let rest = take_word(Some(line), b"row")?;
    let (serial, rest) = take_number64(rest)?;
    let (is_page, rest) = take_part(rest)?;
    let (map, rest) = take_name(rest)?;
    let (val, rest) = take_val(rest)?;
    let (index, rest) = take_number32(rest)?;
    let (count, rest) = take_number64(rest)?;
    if rest.is_some() {
        return None;
    }
    let part = part_at(is_page, index)?;
    Some(RowLine {
        serial,
        part,
        map,
        val,
        count,
    })
}

// The part of this word and index: the contents page has index 0.
fn part_at(is_page: bool, index: u32) -> Option<Part>
    ensures { MatchOption result
        ((part : transcript_spec.PartShown) →
        heads_spec.part_word is_page ≡ transcript_spec.part_text part →
        index ≡ transcript_spec.part_index part → ⊥)
        (λ found. (part : transcript_spec.PartShown) × (found ≡ heads_spec.part_seen part)
        × (heads_spec.part_word is_page ≡ transcript_spec.part_text part)
        × (index ≡ transcript_spec.part_index part)) }
{
    if is_page {
        Some(Part::Page(index))
    } else if index == 0 {
        Some(Part::Contents)
    } else {
        None
    }
}

// Takes the word of a page, which gives true, or that of the contents page.
fn take_part(rest: Option<&[u8]>) -> Option<(bool, Option<&[u8]>)>
    ensures { MatchOption result
        ((part : transcript_spec.PartShown) (more : words_spec.Words) →
        words_spec.words_in rest.entry ≡ transcript_spec.part_text part ∷ more → ⊥)
        (λ taken. words_spec.words_in rest.entry
        ≡ heads_spec.part_word taken.0 ∷ words_spec.words_in taken.1) }
{
    let (word, behind) = split_word(rest?);
    if word == b"page".as_slice() {
        Some((true, behind))
    } else if word == b"contents".as_slice() {
        Some((false, behind))
    } else {
        None
    }
}

// Takes the name of a DITAVAL, or the word that says that there is none.
fn take_val(rest: Option<&[u8]>) -> Option<(Option<&[u8]>, Option<&[u8]>)>
    ensures { MatchOption result
        ((val : Option Bytes) (more : words_spec.Words) → transcript_spec.IsValShown val →
        words_spec.words_in rest.entry ≡ transcript_spec.val_text val ∷ more → ⊥)
        (λ taken. (words_spec.words_in rest.entry
        ≡ transcript_spec.val_text (option_copied taken.0) ∷ words_spec.words_in taken.1)
        × transcript_spec.IsValShown (option_copied taken.0)) }
{
    let (word, behind) = split_word(rest?);
    if word == b"-".as_slice() {
        Some((None, behind))
    } else if is_name_word(word) {
        Some((Some(word), behind))
    } else {
        None
    }
}

/// Reads the last line: how many entries there are, and how many rows were made and dropped.
pub fn read_end_line(line: &[u8]) -> Option<(u64, u64, u64)>
    ensures { MatchOption result
        ((entries made dropped : ℕ) → heads_spec.IsEndLine line.now entries made dropped → ⊥)
        (λ total. heads_spec.IsEndLine line.now total.0 total.1 total.2) }
{
    let rest = take_word(Some(line), b"end")?;
    let (entries, rest) = take_number64(rest)?;
    let (made, rest) = take_number64(rest)?;
    let (dropped, rest) = take_number64(rest)?;
    if rest.is_some() {
        return None;
    }
    Some((entries, made, dropped))
}
