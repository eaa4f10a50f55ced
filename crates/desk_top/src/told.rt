//! The transcript of a batch: its entries, the rows that they cite, and its end.

ghost use Rattle.std.specs.Prelude.{◌≡◌, ◌<◌, All, IfOk, None, OnOk, [], is_some, length, map, vec_len};
ghost use Rattle.std.specs.BTreeMap as map_spec;
ghost use Rattle.std.specs.Ordering.{nat_cmp};
ghost use Rattle.dita_doc.specs.History as history_spec;
ghost use Rattle.transcript_text.specs.declared.built.BuiltText.TheVariants as texts;
ghost use Rattle.desk_top.specs.Cited as cited_spec;
ghost use Rattle.desk_top.specs.Runs.{IsUtf8Entry};
ghost use Rattle.desk_top.specs.Served as served_spec;
ghost use Rattle.desk_top.specs.TextMade as made_spec;
ghost use Rattle.desk_top.specs.Told as spec;

use crate::callers::{Answered, BuiltAt};
use desk_work::{Outcome, PageRow};
use dita_doc::{Fault, List, NoMemory};
use facts::Row;
use row_text::write_row;
use std::alloc::{AllocError, Global};
use std::collections::BTreeMap;
use transcript_text::{BuiltText, PageMark, write_end, write_entry, write_head};
use version_store::Store;

// What each entry shows of a build, by its place; and the rows that builds cite, by their serials.
#[derive(Drop)]
struct Cited {
    shown: Vec<Option<BuiltText>>,
    rows: BTreeMap<u64, Row>,
}

/// The transcript of what was answered.
pub fn transcript_of(alloc: Global, answered: Answered) -> Result<List<u8>, NoMemory>
    requires { served_spec.IsServed answered.book.store.history answered.built.items }
    ensures { IfOk result (made_spec.TellsBatch answered.book answered.built.items) }
{
    let Answered { book, built } = answered;
    let store = book.store();
    let cited = cited_by(alloc, store.entries(), built)?;
    let mut text = write_head(alloc)?;
    append_entries(alloc, &mut text, store, cited.shown.as_slice())?;
    append_rows(alloc, &mut text, &cited.rows)?;
    let table = book.table();
    let end = write_end(alloc, store.entries(), table.made(), table.dropped())?;
    text.append(end.as_slice())?;
    Ok(text)
}

fn cited_by(alloc: Global, entries: u64, built: Vec<BuiltAt>) -> Result<Cited, AllocError>
    requires { All (λ place. place < entries) (served_spec.places_of built.items) }
    ensures count { IfOk result (λ cited. vec_len cited.shown ≡ entries) }
    ensures shown { IfOk result
        (λ cited. cited_spec.AreShown cited.shown.items built.items) }
    ensures rows { IfOk result (λ cited. cited.rows.entries
        ≡ cited_spec.with_rows [] (cited_spec.rows_in_all built.items)) }
{
    let mut shown = nothing_shown(alloc, entries)?;
    let mut rows = BTreeMap::new(alloc);
    for BuiltAt { place, outcome } in built {
        shown[place as usize] = Some(text_of(alloc, outcome, &mut rows)?);
    }
    Ok(Cited { shown, rows })
}

// No build, for each entry.
fn nothing_shown(alloc: Global, entries: u64) -> Result<Vec<Option<BuiltText>>, AllocError>
    ensures count { IfOk result (λ shown. vec_len shown ≡ entries) }
    ensures none { IfOk result (λ shown. All (λ one. one ≡ None) shown.items) }
{
    let mut shown = Vec::with_capacity(alloc, entries as usize)?;
    for _ in 0..entries {
        shown.push_reserved(None);
    }
    Ok(shown)
}

// What is shown of a build. Its rows are put among the others.
fn text_of(
    alloc: Global,
    outcome: Outcome,
    rows: &mut BTreeMap<u64, Row>,
) -> Result<BuiltText, AllocError>
    ensures text { IfOk result (λ text. text ≡ cited_spec.text_of outcome) }
    ensures rows { OnOk result (rows.new.entries
        ≡ cited_spec.with_rows rows.old.entries (cited_spec.rows_in outcome)) }
{
    match outcome {
        Outcome::Done(pages, faults) => pages_text(alloc, pages, faults, rows),
        Outcome::Stopped(stop) => Ok(BuiltText::Stopped(stop)),
        Outcome::TooLarge(total) => Ok(BuiltText::TooLarge(total)),
    }
}

fn pages_text(
    alloc: Global,
    pages: List<PageRow>,
    faults: List<Fault>,
    rows: &mut BTreeMap<u64, Row>,
) -> Result<BuiltText, AllocError>
    ensures text { IfOk result
        (λ text. text ≡ texts.Pages (map cited_spec.page_marked pages) faults) }
    ensures rows { OnOk result (rows.new.entries
        ≡ cited_spec.with_rows rows.old.entries (map cited_spec.row_in pages)) }
{
    let mut marks = List::new(alloc);
    for PageRow { name, row } in pages.into_vec() {
        marks.push((name, PageMark::Row(row.serial)))?;
        rows.insert(row.serial, row)?;
    }
    Ok(BuiltText::Pages(marks, faults))
}

fn append_entries(
    alloc: Global,
    text: &mut List<u8>,
    store: &Store,
    shown: &[Option<BuiltText>],
) -> Result<(), NoMemory>
    requires legal { history_spec.IsLegal store.now.history }
    requires utf8 { All IsUtf8Entry store.now.history }
    requires count { length shown.now ≡ length store.now.history }
    requires built { spec.AreOfBuilds store.now.history shown.now }
    ensures { OnOk result (spec.TellsEntries store.now.history shown.now
        (length store.now.history) text.old text.new) }
{
    for place in 0..store.entries() {
        append_entry(alloc, text, store, place, &shown[place as usize])?;
    }
    Ok(())
}

fn append_entry(
    alloc: Global,
    text: &mut List<u8>,
    store: &Store,
    place: u64,
    built: &Option<BuiltText>,
) -> Result<(), NoMemory>
    requires within { place < length store.now.history }
    requires legal { history_spec.IsLegal store.now.history }
    requires utf8 { All IsUtf8Entry store.now.history }
    requires built { is_some built.now ≡ spec.is_build_at store.now.history place }
    ensures { OnOk result
        (spec.TellsEntry store.now.history place built.now text.old text.new) }
{
    let entry = write_entry(alloc, place, store.entry(place), built.as_ref())?;
    text.append(entry.as_slice())?;
    Ok(())
}

fn append_rows(
    alloc: Global,
    text: &mut List<u8>,
    rows: &BTreeMap<u64, Row>,
) -> Result<(), NoMemory>
    requires { All spec.HasUtf8Page (map_spec.values rows.now) }
    ensures told { OnOk result
        (spec.TellsRows (map_spec.values rows.now) [] text.old text.new) }
    ensures ordered { map_spec.IsOrdered nat_cmp rows.now }
{
    for (_, row) in rows.iter() {
        append_row(alloc, text, row)?;
    }
    Ok(())
}

fn append_row(alloc: Global, text: &mut List<u8>, row: &Row) -> Result<(), NoMemory>
    requires { spec.HasUtf8Page row.now }
    ensures { OnOk result (spec.TellsRow row.now text.old text.new) }
{
    let lines = write_row(alloc, row)?;
    text.append(lines.as_slice())?;
    Ok(())
}
