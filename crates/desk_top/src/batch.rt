//! The mode `batch`: a script, its sessions beside each other, from bytes to the transcript.

ghost use Rattle.std.specs.Prelude.{◌≤◌, IfOk};
ghost use Rattle.run_spec.specs.EndsBatch as batch_spec;
ghost use Rattle.run_spec.specs.Faithful as faithful_spec;
ghost use Rattle.run_spec.specs.Language.{dita};
ghost use Rattle.script_text.specs.Read as read_spec;
ghost use Rattle.script_text.specs.Script as script_spec;
ghost use Rattle.desk_top.specs.Outside as outside_spec;

use crate::callers::answer_beside;
use crate::modes::{READ_LIMIT, script_in, written};
use crate::outside::read_all;
use crate::told::transcript_of;
use dita_doc::{List, NoMemory, Stop};
use dita_outside::{Gate, Sink, Source};
use run_spec::Status;
use script_text::Script;
use std::alloc::Global;
use std::sync::Wait;
use std::thread::Threads;

/// Reads a script, answers the requests of each session in order, beside the other sessions, with so
/// many workers for each build, and writes the transcript. Makers of parts pass the gate.
pub fn run_batch<R: Threads + Wait + Sync, S: Source, K: Sink, G: Gate + Sync>(
    rt: &R,
    alloc: Global,
    workers: u32,
    source: &mut S,
    sink: &mut K,
    gate: &G,
) -> Status
    requires few { 1 ≤ workers }
    requires many { workers ≤ 16 }
    ensures { let read = outside_spec.change S.left S.faults source.old source.new in
        let written = outside_spec.change K.taken K.faults sink.old sink.new in
        batch_spec.EndsBatch (outside_spec.streams_before read written)
        (outside_spec.streams_after read written) result }
{
    let input = match read_all(alloc, source, READ_LIMIT) {
        Ok(input) => input,
        Err(Stop::Fault(_)) => return Status::ReadFault,
        Err(Stop::NoMemory) => return Status::NoMemory,
    };
    match batch(rt, alloc, input, workers, gate) {
        Ok((status, output)) => written(sink, output.as_slice(), status),
        Err(NoMemory) => Status::NoMemory,
    }
}

// The status and the output of a batch over these bytes.
fn batch<R: Threads + Wait + Sync, G: Gate + Sync>(
    rt: &R,
    alloc: Global,
    input: List<u8>,
    workers: u32,
    gate: &G,
) -> Result<(Status, List<u8>), NoMemory>
    requires few { 1 ≤ workers }
    requires many { workers ≤ 16 }
    ensures { IfOk result (λ answer.
        batch_spec.IsBatchOf (script_spec.script_of input) answer.0 answer.1) }
{
    match script_in(alloc, input) {
        Ok(script) => Ok((Status::Done, transcript(rt, alloc, script, workers, gate)?)),
        Err(Stop::Fault(fault)) => Ok((Status::Script, fault.to_line(alloc)?)),
        Err(Stop::NoMemory) => Err(NoMemory),
    }
}

// The transcript of a script that is answered.
fn transcript<R: Threads + Wait + Sync, G: Gate + Sync>(
    rt: &R,
    alloc: Global,
    script: Script,
    workers: u32,
    gate: &G,
) -> Result<List<u8>, NoMemory>
    requires few { 1 ≤ workers }
    requires many { workers ≤ 16 }
    ensures { IfOk result
        (faithful_spec.IsFaithful dita (read_spec.steps_seen script.steps)) }
{
    let answered = answer_beside(rt, alloc, script.steps, workers, gate)?;
    transcript_of(alloc, answered)
}
