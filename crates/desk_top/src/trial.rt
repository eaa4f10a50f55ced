//! The mode `trial`: the script of a project, answered as one session, from no input to one line.

ghost use Rattle.std.specs.Prelude.{◌≡◌, ◌≤◌, All, IfOk, length, map, sum_by};
ghost use Rattle.run_spec.specs.EndsTrial as trial_spec;
ghost use Rattle.script_text.specs.Facts as script_facts;
ghost use Rattle.script_text.specs.Read as read_spec;
ghost use Rattle.script_text.specs.Script as script_spec;
ghost use Rattle.desk_top.specs.Counts as counts_spec;
ghost use Rattle.desk_top.specs.Outside as outside_spec;
ghost use Rattle.desk_top.specs.Served as served_spec;

use crate::callers::{Answered, answer_beside};
use crate::modes::written;
use desk_work::Outcome;
use dita_doc::{List, NoMemory, Request};
use dita_outside::{Gate, Sink};
use doc_gen::project;
use run_spec::Status;
use script_text::{Script, read_script};
use std::alloc::{AllocError, Global};
use std::sync::Wait;
use std::thread::Threads;

// How much there was: requests that were answered, builds, and the pages and the faults of all
// builds.
#[derive(Clone, Copy)]
struct Counts {
    entries: u64,
    builds: usize,
    pages: u128,
    faults: u128,
}

/// Answers the script of a number and of a count of topics as one session, with so many workers for
/// each build, and writes how much there was. Makers of parts pass the gate.
pub fn run_trial<R: Threads + Wait + Sync, K: Sink, G: Gate + Sync>(
    rt: &R,
    alloc: Global,
    number: u64,
    topics: u32,
    workers: u32,
    sink: &mut K,
    gate: &G,
) -> Status
    requires few_topics { 2 ≤ topics }
    requires many_topics { topics ≤ 4000 }
    requires few { 1 ≤ workers }
    requires many { workers ≤ 16 }
    ensures { let changed = outside_spec.change K.taken K.faults sink.old sink.new in
        trial_spec.EndsTrial number topics (outside_spec.sunk_before changed)
        (outside_spec.sunk_after changed) result }
{
    match trial(rt, alloc, number, topics, workers, gate) {
        Ok(line) => written(sink, line.as_slice(), Status::Done),
        Err(NoMemory) => Status::NoMemory,
    }
}

// The line of a trial.
fn trial<R: Threads + Wait + Sync, G: Gate + Sync>(
    rt: &R,
    alloc: Global,
    number: u64,
    topics: u32,
    workers: u32,
    gate: &G,
) -> Result<List<u8>, NoMemory>
    requires few_topics { 2 ≤ topics }
    requires many_topics { topics ≤ 4000 }
    requires few { 1 ≤ workers }
    requires many { workers ≤ 16 }
    ensures { IfOk result (λ text. text ≡ trial_spec.trial_text number topics) }
{
    let steps = steps_of(alloc, number, topics)?;
    let answered = answer_beside(rt, alloc, steps, workers, gate)?;
    Ok(line_of(alloc, number, topics, counts_of(&answered))?)
}

fn line_of(alloc: Global, number: u64, topics: u32, counts: Counts) -> Result<List<u8>, AllocError>
    ensures { IfOk result (λ text. text ≡ counts_spec.counts_line number topics counts.entries
        counts.builds counts.pages counts.faults) }
{
    let mut line = front_of(alloc, number, topics, counts.entries)?;
    let back = back_of(alloc, counts.builds, counts.pages, counts.faults)?;
    line.append(back.as_slice())?;
    Ok(line)
}

fn front_of(alloc: Global, number: u64, topics: u32, entries: u64) -> Result<List<u8>, AllocError>
    ensures { IfOk result (λ text. text ≡ counts_spec.counts_front number topics entries) }
{
    let text = format!(in alloc; "trial {number} {topics} entries {entries}")?;
    Ok(List::from_vec(text.into_bytes()))
}

fn back_of(alloc: Global, builds: usize, pages: u128, faults: u128) -> Result<List<u8>, AllocError>
    ensures { IfOk result (λ text. text ≡ counts_spec.counts_back builds pages faults) }
{
    let text = format!(in alloc; " builds {builds} pages {pages} faults {faults}\n")?;
    Ok(List::from_vec(text.into_bytes()))
}

// The requests of the project's script, all of session 1. Such a script has no fault, so what is not
// read is so for want of memory.
fn steps_of(alloc: Global, number: u64, topics: u32) -> Result<List<(u32, Request)>, NoMemory>
    requires few { 2 ≤ topics }
    requires many { topics ≤ 4000 }
    ensures steps { IfOk result
        (λ steps. read_spec.steps_seen steps ≡ trial_spec.trial_steps number topics) }
    ensures short { IfOk result (λ steps. length steps ≤ script_spec.request_limit) }
    ensures sessions { IfOk result (All script_facts.IsInSession) }
    ensures asked { IfOk result (All served_spec.MayBeAsked) }
{
    let text = project(alloc, number, topics)?;
    match read_script(alloc, text.as_slice()) {
        Ok(script) => Ok(in_one_session(alloc, script)?),
        Err(_) => Err(NoMemory),
    }
}

fn in_one_session(alloc: Global, script: Script) -> Result<List<(u32, Request)>, AllocError>
    ensures steps { IfOk result (λ steps. read_spec.steps_seen steps
        ≡ map trial_spec.in_one_session (read_spec.steps_seen script.steps)) }
    ensures short { IfOk result (λ steps. length steps ≤ script_spec.request_limit) }
    ensures sessions { IfOk result (All script_facts.IsInSession) }
    ensures asked { IfOk result (All served_spec.MayBeAsked) }
{
    let mut same = List::new(alloc);
    for (_, request) in script.steps.into_vec() {
        same.push((1, request))?;
    }
    Ok(same)
}

fn counts_of(answered: &Answered) -> Counts
    ensures entries { result.entries ≡ length answered.now.book.store.history }
    ensures builds { result.builds ≡ length answered.now.built.items }
    ensures pages { result.pages ≡ sum_by counts_spec.pages_given answered.now.built.items }
    ensures faults { result.faults ≡ sum_by counts_spec.faults_given answered.now.built.items }
{
    let mut counts = Counts {
        entries: answered.book.store().entries(),
        builds: answered.built.len(),
        pages: 0,
        faults: 0,
    };
    for built in answered.built.as_slice() {
        let (pages, faults) = sizes_of(&built.outcome);
        counts.pages += u128::from(pages);
        counts.faults += u128::from(faults);
    }
    counts
}

// How many pages and faults a build gave.
fn sizes_of(outcome: &Outcome) -> (u64, u64)
    ensures pages { result.0 ≡ counts_spec.pages_of outcome.now }
    ensures faults { result.1 ≡ counts_spec.faults_of outcome.now }
{
    match outcome {
        Outcome::Done(pages, faults) => (pages.len() as u64, faults.len() as u64),
        Outcome::Stopped(_) | Outcome::TooLarge(_) => (0, 0),
    }
}
