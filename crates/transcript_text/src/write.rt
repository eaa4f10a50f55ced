//! Entries to lines.

ghost use Rattle.std.specs.Prelude.{◌≡◌, ◌++◌, map, is_some, true};
ghost use Rattle.std.specs.Prelude.{All, IfOk, IfSome, OnOk};
ghost use Rattle.std.specs.Fmt.{decimal};
ghost use Rattle.std.specs.List.{flat_map};
ghost use Rattle.std.specs.Option.{option_copied};
ghost use Rattle.std.specs.Str.{is_utf8};
ghost use Rattle.dita_doc.specs.Lines as lines_spec;
ghost use Rattle.dita_doc.specs.Seen as seen_spec;
ghost use Rattle.transcript_text.specs.Transcript as transcript_spec;
ghost use Rattle.transcript_text.specs.Written as written_spec;

use crate::built::{BuiltText, PageMark};
use crate::lines::{append_line, append_lines, count_lines};
use dita_doc::{EditFault, Entry, Fault, List, Name, NoMemory, PlanStop, Read, Reply};
use fault_report::fault_line;
use std::alloc::{AllocError, Global};

/// The text of an entry at its place, in the form of transcripts; `built` is what its build gave.
pub fn write_entry(
    alloc: Global,
    place: u64,
    entry: &Entry,
    built: Option<&BuiltText>,
) -> Result<List<u8>, NoMemory>
    // A built text is given exactly if the reply is that a build has its place.
    requires built { is_some built ≡ written_spec.is_begun (seen_spec.reply_seen entry.now.reply) }
    requires text { written_spec.IsText (seen_spec.reply_seen entry.now.reply) }
    ensures { IfOk result (λ text. written_spec.IsTextOfEntry
        (transcript_spec.entry_shown place (seen_spec.entry_seen entry.now)
        (written_spec.built_shown (option_copied built.entry))) text) }
{
    let mut out = List::new(alloc);
    append_numbers(alloc, &mut out, place, entry.session, entry.number)?;
    match built {
        Some(built) => append_built(alloc, &mut out, built)?,
        None => append_reply(alloc, &mut out, &entry.reply)?,
    }
    Ok(out)
}

/// The first line of a transcript.
pub fn write_head(alloc: Global) -> Result<List<u8>, NoMemory>
    ensures { IfOk result (λ text. text ≡ transcript_spec.head_text) }
{
    Ok(List::from_slice(alloc, b"dita transcript 1\n")?)
}

/// The last line: how many entries there are, and how many rows were made and dropped.
pub fn write_end(alloc: Global, entries: u64, made: u64, dropped: u64) -> Result<List<u8>, NoMemory>
    ensures { let totals : transcript_spec.Totals =
        record { entries = entries; made = made; dropped = dropped } in
        IfOk result (λ text. text ≡ lines_spec.line (transcript_spec.end_head totals)) }
{
    let mut out = List::new(alloc);
    out.append(format!(in alloc; "end {entries} {made} {dropped}\n")?.as_bytes())?;
    Ok(out)
}

// Appends the beginning of an entry: its three numbers.
fn append_numbers(
    alloc: Global,
    out: &mut List<u8>,
    place: u64,
    session: u32,
    number: u32,
) -> Result<(), AllocError>
    ensures text { OnOk result
        (out.new ≡ out.old ++ written_spec.numbers_text place session number) }
    ensures fits { OnOk result (transcript_spec.Fits64 place × transcript_spec.Fits32 session
        × transcript_spec.Fits32 number) }
{
    out.append(format!(in alloc; "entry {place} {session} {number} ")?.as_bytes())
}

// Appends a reply and the lines below it. Of the reply that a build has its place there is nothing
// to show without the build.
fn append_reply(alloc: Global, out: &mut List<u8>, reply: &Reply) -> Result<(), AllocError>
    requires text { written_spec.IsText (seen_spec.reply_seen reply.now) }
    ensures text { let shown = transcript_spec.reply_shown (seen_spec.reply_seen reply.now) None in
        OnOk result (IfSome shown (λ what. out.new ≡ out.old ++ written_spec.shown_text what)) }
    ensures form { let shown = transcript_spec.reply_shown (seen_spec.reply_seen reply.now) None in
        OnOk result (IfSome shown transcript_spec.IsShown) }
{
    match reply {
        Reply::Stored(version) => append_number(alloc, out, b"stored ", *version),
        Reply::Removed(version) => append_number(alloc, out, b"removed ", *version),
        Reply::Bytes(bytes) => append_text(alloc, out, bytes.as_slice()),
        Reply::NameList(names) => append_names(alloc, out, names.as_slice()),
        Reply::Refused(fault) => append_refusal(alloc, out, EditFault::Refused(*fault)),
        Reply::Conflict(version) => append_refusal(alloc, out, EditFault::Conflict(*version)),
        Reply::Absent => append_refusal(alloc, out, EditFault::Absent),
        Reply::TooManyNames(limit) => append_refusal(alloc, out, EditFault::TooManyNames(*limit)),
        Reply::Begun => Ok(()),
        Reply::Grouped(edits) => append_number(alloc, out, b"grouped ", u64::from(*edits)),
        Reply::Stopped(number, fault) => append_stopped(alloc, out, *number, *fault),
    }
}

// Appends a refusal. The limit of names is always the same.
fn append_refusal(alloc: Global, out: &mut List<u8>, fault: EditFault) -> Result<(), AllocError>
    ensures text { let refusal = transcript_spec.refusal_shown (seen_spec.refusal_seen fault) in
        OnOk result
        (out.new ≡ out.old ++ lines_spec.line (transcript_spec.refusal_words refusal)) }
    ensures form { let refusal = transcript_spec.refusal_shown (seen_spec.refusal_seen fault) in
        OnOk result (transcript_spec.IsRefusalShown refusal) }
{
    match fault {
        EditFault::Refused(fault) => {
            out.append(b"refused ")?;
            out.append(fault.code.text().as_bytes())?;
            append_number(alloc, out, b" ", u64::from(fault.line))
        }
        EditFault::Conflict(version) => append_number(alloc, out, b"conflict ", version),
        EditFault::Absent => out.append(b"absent\n"),
        EditFault::TooManyNames(_) => append_number(alloc, out, b"toomanynames ", 10000),
    }
}

// Appends the number of the edit at which a group was stopped, and the refusal.
fn append_stopped(
    alloc: Global,
    out: &mut List<u8>,
    number: u32,
    fault: EditFault,
) -> Result<(), AllocError>
    ensures text { let refusal = transcript_spec.refusal_shown (seen_spec.refusal_seen fault) in
        let shown = transcript_spec.StoppedAt number refusal in
        OnOk result (out.new ≡ out.old ++ written_spec.shown_text shown) }
    ensures form { let refusal = transcript_spec.refusal_shown (seen_spec.refusal_seen fault) in
        OnOk result (transcript_spec.IsShown (transcript_spec.StoppedAt number refusal)) }
{
    out.append(format!(in alloc; "stopped {number} ")?.as_bytes())?;
    append_refusal(alloc, out, fault)
}

// Appends the end of a line: words, and a number.
fn append_number(
    alloc: Global,
    out: &mut List<u8>,
    words: &[u8],
    number: u64,
) -> Result<(), AllocError>
    ensures text { OnOk result
        (out.new ≡ out.old ++ lines_spec.line (words.now ++ decimal number)) }
    ensures fits { OnOk result (transcript_spec.Fits64 number) }
{
    out.append(words)?;
    out.append(format!(in alloc; "{number}\n")?.as_bytes())
}

// Appends a text line by line.
fn append_text(alloc: Global, out: &mut List<u8>, bytes: &[u8]) -> Result<(), AllocError>
    requires { is_utf8 bytes.now ≡ true }
    ensures text { let shown = transcript_spec.Lines (lines_spec.lines_of bytes.now) in
        OnOk result (out.new ≡ out.old ++ written_spec.shown_text shown) }
    ensures form { OnOk result (transcript_spec.IsShown
        (transcript_spec.Lines (lines_spec.lines_of bytes.now))) }
{
    append_number(alloc, out, b"text ", count_lines(bytes) as u64)?;
    append_lines(out, bytes)
}

// Appends names with their versions.
fn append_names(alloc: Global, out: &mut List<u8>, names: &[Read]) -> Result<(), AllocError>
    ensures text { let shown = transcript_spec.Names (map seen_spec.read_seen names.now) in
        OnOk result (out.new ≡ out.old ++ written_spec.shown_text shown) }
    ensures form { OnOk result (transcript_spec.IsShown
        (transcript_spec.Names (map seen_spec.read_seen names.now))) }
{
    append_number(alloc, out, b"names ", names.len() as u64)?;
    for read in names {
        append_name(alloc, out, read)?;
    }
    Ok(())
}

fn append_name(alloc: Global, out: &mut List<u8>, read: &Read) -> Result<(), AllocError>
    ensures text { let text = transcript_spec.name_line (seen_spec.read_seen read.now) in
        OnOk result (out.new ≡ out.old ++ transcript_spec.bar_line text) }
    ensures form { OnOk result (transcript_spec.IsNameLine (seen_spec.read_seen read.now)) }
{
    out.append(b"|")?;
    out.append(read.name.as_bytes())?;
    append_number(alloc, out, b" ", read.version)
}

// Appends what a build gave.
fn append_built(alloc: Global, out: &mut List<u8>, built: &BuiltText) -> Result<(), NoMemory>
    ensures text { let shown = transcript_spec.OfBuild (written_spec.text_shown built.now) in
        OnOk result (out.new ≡ out.old ++ written_spec.shown_text shown) }
    ensures form { OnOk result (transcript_spec.IsBuildShown
        (written_spec.text_shown built.now)) }
{
    match built {
        BuiltText::Pages(pages, faults) => {
            let count = pages.len();
            out.append(format!(in alloc; "built {count} ")?.as_bytes())?;
            append_number(alloc, out, b"", faults.len() as u64)?;
            append_pages(alloc, out, pages.as_slice())?;
            append_faults(alloc, out, faults.as_slice())
        }
        BuiltText::Stopped(stop) => Ok(append_stop(out, *stop)?),
        BuiltText::TooLarge(total) => Ok(append_number(alloc, out, b"toolarge ", *total)?),
    }
}

fn append_stop(out: &mut List<u8>, stop: PlanStop) -> Result<(), AllocError>
    ensures { OnOk result (out.new ≡ out.old ++ lines_spec.line (transcript_spec.stop_text stop)) }
{
    match stop {
        PlanStop::NoMap => out.append(b"nomap\n"),
        PlanStop::NotMap => out.append(b"notmap\n"),
        PlanStop::NoDitaval => out.append(b"noditaval\n"),
        PlanStop::TooManyNodes => out.append(b"toomanynodes\n"),
        PlanStop::TooManyPages => out.append(b"toomanypages\n"),
    }
}

fn append_pages(
    alloc: Global,
    out: &mut List<u8>,
    pages: &[(Name, PageMark)],
) -> Result<(), AllocError>
    ensures text { let shown = map written_spec.page_shown pages.now in
        let texts = map transcript_spec.page_line shown in
        OnOk result (out.new ≡ out.old ++ flat_map transcript_spec.bar_line texts) }
    ensures form { OnOk result (All transcript_spec.IsPageShown
        (map written_spec.page_shown pages.now)) }
{
    for page in pages {
        append_page(alloc, out, &page.0, page.1)?;
    }
    Ok(())
}

fn append_page(
    alloc: Global,
    out: &mut List<u8>,
    name: &Name,
    mark: PageMark,
) -> Result<(), AllocError>
    ensures text { let shown = written_spec.page_shown (name.now, mark) in
        let text = transcript_spec.page_line shown in
        OnOk result (out.new ≡ out.old ++ transcript_spec.bar_line text) }
    ensures form { OnOk result (transcript_spec.IsPageShown
        (written_spec.page_shown (name.now, mark))) }
{
    out.append(b"|page ")?;
    out.append(name.as_bytes())?;
    match mark {
        PageMark::Bytes(bytes) => append_number(alloc, out, b" bytes ", bytes),
        PageMark::Row(serial) => append_number(alloc, out, b" row ", serial),
    }
}

fn append_faults(alloc: Global, out: &mut List<u8>, faults: &[Fault]) -> Result<(), NoMemory>
    ensures text { let shown = map transcript_spec.fault_shown faults.now in
        let texts = map transcript_spec.fault_line shown in
        OnOk result (out.new ≡ out.old ++ flat_map transcript_spec.bar_line texts) }
    ensures form { OnOk result (All transcript_spec.IsFaultShown
        (map transcript_spec.fault_shown faults.now)) }
{
    for fault in faults {
        append_fault(alloc, out, fault)?;
    }
    Ok(())
}

fn append_fault(alloc: Global, out: &mut List<u8>, fault: &Fault) -> Result<(), NoMemory>
    ensures text { let text = transcript_spec.fault_line (transcript_spec.fault_shown fault.now) in
        OnOk result (out.new ≡ out.old ++ transcript_spec.bar_line text) }
    ensures form { OnOk result (transcript_spec.IsFaultShown
        (transcript_spec.fault_shown fault.now)) }
{
    keeps_to_form(fault);
    append_line(out, fault_line(alloc, fault)?.as_bytes())?;
    Ok(())
}

// A fault is in the form by the types of its fields. Each is looked at, so that what its type says
// is known here.
fn keeps_to_form(fault: &Fault)
    ensures { transcript_spec.IsFaultShown (transcript_spec.fault_shown fault.now) }
{
    let _ = fault.name.as_bytes();
    let _ = u64::from(fault.line);
    let _ = fault.detail.as_bytes();
}
