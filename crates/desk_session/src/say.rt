//! Messages that a session sends.

ghost use Rattle.std.specs.Prelude.{◌≡◌, [], ◌∷◌, All, IfOk, map};
ghost use Rattle.script_text.specs.Faults as faults_spec;
ghost use Rattle.desk_session.specs.Asking as asking_spec;
ghost use Rattle.desk_session.specs.Ends as ends_spec;
ghost use Rattle.desk_session.specs.Saying as spec;

use crate::answer::Answer;
use crate::end::SessionEnd;
use desk_work::PageRow;
use dita_doc::List;
use dita_outside::Link;
use row_text::write_row;
use script_text::ScriptFault;
use std::alloc::{AllocError, Global};
use version_store::Full;

// Sends an answer: the text of its entry, and the text of the row of each page.
pub(crate) fn say_answer<L: Link>(
    alloc: Global,
    link: &mut L,
    answer: &Answer,
) -> Result<(), SessionEnd>
    requires { All asking_spec.HasItsPage answer.now.pages }
    ensures { spec.SaysAll (L.told link.old) (L.told link.new) result
        (asking_spec.messages_in answer.now) }
{
    say(alloc, link, answer.text.as_slice())?;
    say_rows(alloc, link, answer.pages.as_slice())
}

fn say_rows<L: Link>(alloc: Global, link: &mut L, pages: &[PageRow]) -> Result<(), SessionEnd>
    requires { All asking_spec.HasItsPage pages.now }
    ensures { spec.SaysAll (L.told link.old) (L.told link.new) result
        (map asking_spec.row_message pages.now) }
{
    for page in pages {
        say_row(alloc, link, page)?;
    }
    Ok(())
}

fn say_row<L: Link>(alloc: Global, link: &mut L, page: &PageRow) -> Result<(), SessionEnd>
    requires { asking_spec.HasItsPage page.now }
    ensures { spec.SaysAll (L.told link.old) (L.told link.new) result
        (asking_spec.row_message page.now ∷ []) }
{
    let text = write_row(alloc, &page.row)?;
    say(alloc, link, text.as_slice())
}

// Says which line is faulty.
pub(crate) fn say_fault<L: Link>(
    alloc: Global,
    link: &mut L,
    fault: ScriptFault,
) -> Result<(), SessionEnd>
    ensures { spec.SaysAll (L.told link.old) (L.told link.new) result
        (faults_spec.rejection_line fault ∷ []) }
{
    let message = fault.to_line(alloc)?;
    say(alloc, link, message.as_slice())
}

// Says how much there is.
pub(crate) fn say_full<L: Link>(alloc: Global, link: &mut L, full: Full) -> Result<(), SessionEnd>
    ensures { spec.SaysAll (L.told link.old) (L.told link.new) result
        (ends_spec.full_message full ∷ []) }
{
    let message = full_message(alloc, full)?;
    say(alloc, link, message.as_slice())
}

// Sends a message.
fn say<L: Link>(alloc: Global, link: &mut L, message: &[u8]) -> Result<(), SessionEnd>
    ensures { spec.SaysAll (L.told link.old) (L.told link.new) result (message.now ∷ []) }
{
    link.send(alloc, message)?;
    Ok(())
}

fn full_message(alloc: Global, full: Full) -> Result<List<u8>, AllocError>
    ensures { IfOk result (λ message. message ≡ ends_spec.full_message full) }
{
    let entries = full.entries;
    let bytes = full.bytes;
    List::from_slice(
        alloc,
        format!(in alloc; "full {entries} {bytes}\n")?.as_bytes(),
    )
}
