//! The requests of a script, answered in order on one thread.

ghost use Rattle.std.specs.Prelude.{◌≡◌, ◌+◌, length, IfOk, OnOk, OnErr};
ghost use Rattle.dita_doc.specs.Seen as seen_spec;
ghost use Rattle.dita_outside.specs.Cause as cause_spec;
ghost use Rattle.dita_outside.specs.Pages as pages_spec;
ghost use Rattle.script_text.specs.Read as read_spec;
ghost use Rattle.transcript_text.specs.Transcript as transcript_spec;
ghost use Rattle.version_store.specs.Kept as kept_spec;
ghost use Rattle.run_spec.specs.Answers as answers_spec;
ghost use Rattle.run_spec.specs.CleanRun as clean_run_spec;
ghost use Rattle.desk_top.specs.Runs as runs_spec;

use crate::build::build;
use dita_doc::{List, NoMemory, Request, Stop};
use dita_outside::{Failed, Outlet};
use script_text::Script;
use std::alloc::Global;
use transcript_text::{write_end, write_entry, write_head};
use version_store::Store;

/// Answers the steps of a script in order on a new desk, puts the pages of each build into the
/// outlet, with the page of its terms if these are wanted, and gives the transcript.
pub fn answer_all<O: Outlet>(
    alloc: Global,
    script: Script,
    with_terms: bool,
    outlet: &mut O,
) -> Result<List<u8>, Stop<Failed>>
    ensures text { IfOk result (λ text. text ≡ (clean_run_spec.run_answered with_terms
        (answers_spec.answers_to (read_spec.steps_seen script.steps))).output) }
    ensures form { OnOk result (transcript_spec.IsTranscript (answers_spec.transcript_of
        (answers_spec.answers_to (read_spec.steps_seen script.steps)))) }
    ensures pages { pages_spec.PutsPages (O.pages outlet.old) (O.pages outlet.new) result
        (clean_run_spec.run_answered with_terms
        (answers_spec.answers_to (read_spec.steps_seen script.steps))).pages }
    ensures cause { cause_spec.HasCauseOrNoMemory
        (O.faults outlet.old) (O.faults outlet.new) result }
{
    let mut store = Store::new(alloc)?;
    let mut text = write_head(alloc)?;
    for (session, request) in script.steps.into_vec() {
        answer(
            alloc, &mut store, session, request, with_terms, outlet, &mut text,
        )?;
    }
    let end = write_end(alloc, store.entries(), 0, 0)?;
    text.append(end.as_slice())?;
    Ok(text)
}

// Answers a request, puts the pages of its build, and appends its entry to the text.
fn answer<O: Outlet>(
    alloc: Global,
    store: &mut Store,
    session: u32,
    request: Request,
    with_terms: bool,
    outlet: &mut O,
    text: &mut List<u8>,
) -> Result<(), Stop<Failed>>
    requires origin { seen_spec.HasOwnOrigin request }
    requires desk { runs_spec.IsOfDesk store.old }
    requires room { runs_spec.HasRoom store.old.history (read_spec.step_seen (session, request)) }
    ensures desk { runs_spec.IsOfDesk store.new }
    ensures ok { OnOk result (runs_spec.Answers store.old.history store.new.history
        (read_spec.step_seen (session, request)) text.old text.new) }
    ensures pages { let step = read_spec.step_seen (session, request) in
        pages_spec.PutsPages (O.pages outlet.old) (O.pages outlet.new) result
        (answers_spec.pages_of_answer with_terms (runs_spec.answer_behind store.old.history step)) }
    ensures cause { cause_spec.HasCauseOrNoMemory
        (O.faults outlet.old) (O.faults outlet.new) result }
{
    let number = store.entries() as u32 + 1;
    let place = keep(alloc, store, session, number, request)?;
    let built = build(alloc, store, place, number, with_terms, outlet)?;
    let entry = write_entry(alloc, place, store.entry(place), built.as_ref())?;
    text.append(entry.as_slice())?;
    Ok(())
}

// Puts a request into the history, and gives its place. A desk that has room is not full.
fn keep(
    alloc: Global,
    store: &mut Store,
    session: u32,
    number: u32,
    request: Request,
) -> Result<u64, NoMemory>
    requires origin { seen_spec.HasOwnOrigin request }
    requires desk { runs_spec.IsOfDesk store.old }
    requires room { runs_spec.HasRoom store.old.history (read_spec.step_seen (session, request)) }
    ensures place { IfOk result (λ place. place ≡ length store.old.history) }
    ensures ok { OnOk result (store.new
        ≡ kept_spec.answered session number (seen_spec.request_seen request) store.old) }
    ensures err { OnErr result (store.new ≡ store.old) }
{
    match store.answer(alloc, session, number, request) {
        Ok(place) => Ok(place),
        Err(Stop::NoMemory) => Err(NoMemory),
        Err(Stop::Fault(_)) => unreachable!(),
    }
}
