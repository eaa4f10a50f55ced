//! What is answered to a request: the text of its entry, and the pages of a build.

ghost use Rattle.std.specs.Prelude.{◌≡◌, All, IfOk, OnOk, map, true};
ghost use Rattle.dita_doc.specs.Seen as seen_spec;
ghost use Rattle.desk_session.specs.Asking as spec;

use desk_work::{Built, Outcome, PageRow};
use dita_doc::{Entry, List, Name, NoMemory, Reply, Request, is_utf8};
use std::alloc::Global;
use transcript_text::{BuiltText, PageMark, write_entry};

// The text of an entry, and the pages of its build, of which the rows follow.
#[derive(Drop)]
pub(crate) struct Answer {
    pub text: List<u8>,
    pub pages: List<PageRow>,
}

// The answer to a request that is no build. A transcript has a text for each of its replies but
// for bytes that are not UTF-8, which nobody stores who reads requests as text.
pub(crate) fn reply_answer(
    alloc: Global,
    place: u64,
    session: u32,
    number: u32,
    reply: Reply,
) -> Result<Answer, NoMemory>
    ensures { IfOk result (spec.TellsReply place session number (seen_spec.reply_seen reply)) }
{
    if !has_text(&reply) {
        return Err(NoMemory);
    }
    let entry = entry_of(session, number, reply);
    let text = write_entry(alloc, place, &entry, None)?;
    let pages = List::new(alloc);
    Ok(Answer { text, pages })
}

// The answer to a build. A page without HTML has no row text. No maker of pages makes one.
pub(crate) fn built_answer(
    alloc: Global,
    session: u32,
    number: u32,
    built: Built,
) -> Result<Answer, NoMemory>
    ensures { IfOk result (spec.TellsBuilt built.place session number built.outcome) }
{
    let Built { place, outcome } = built;
    let (shown, pages) = shown_of(alloc, outcome)?;
    let entry = entry_of(session, number, Reply::Begun);
    let text = write_entry(alloc, place, &entry, Some(&shown))?;
    Ok(Answer { text, pages })
}

// An entry with this reply. Its text does not show its request.
fn entry_of(session: u32, number: u32, reply: Reply) -> Entry
    ensures session { result.session ≡ session }
    ensures number { result.number ≡ number }
    ensures reply { result.reply ≡ reply }
{
    Entry {
        session,
        number,
        request: Request::Names,
        reply,
    }
}

// Whether a reply has a text without a build.
fn has_text(reply: &Reply) -> bool
    ensures { result ≡ true → spec.HasText (seen_spec.reply_seen reply.now) }
{
    match reply {
        Reply::Bytes(bytes) => is_utf8(bytes.as_slice()),
        Reply::Begun => false,
        _ => true,
    }
}

// What is shown of a build, and its pages.
fn shown_of(alloc: Global, outcome: Outcome) -> Result<(BuiltText, List<PageRow>), NoMemory>
    ensures text { IfOk result (λ shown. shown.0 ≡ spec.text_of outcome) }
    ensures pages { IfOk result (λ shown. shown.1 ≡ spec.pages_of outcome) }
    ensures have { IfOk result (λ shown. All spec.HasHtml shown.1) }
{
    match outcome {
        Outcome::Done(pages, faults) => {
            let marks = marks_of(alloc, pages.as_slice())?;
            Ok((BuiltText::Pages(marks, faults), pages))
        }
        Outcome::Stopped(stop) => Ok((BuiltText::Stopped(stop), List::new(alloc))),
        Outcome::TooLarge(total) => Ok((BuiltText::TooLarge(total), List::new(alloc))),
    }
}

// Each page by the serial of its row.
fn marks_of(alloc: Global, pages: &[PageRow]) -> Result<List<(Name, PageMark)>, NoMemory>
    ensures marks { IfOk result (λ marks. marks ≡ map spec.page_marked pages.now) }
    ensures have { OnOk result (All spec.HasHtml pages.now) }
{
    let mut marks = List::new(alloc);
    for page in pages {
        marks.push(mark_of(page)?)?;
    }
    Ok(marks)
}

// A page by the serial of its row, which has its HTML.
fn mark_of(page: &PageRow) -> Result<(Name, PageMark), NoMemory>
    ensures mark { IfOk result (λ mark. mark ≡ spec.page_marked page.now) }
    ensures has { OnOk result (spec.HasHtml page.now) }
{
    if page.row.fact.html.is_none() {
        return Err(NoMemory);
    }
    Ok((page.name.clone()?, PageMark::Row(page.row.serial)))
}
