//! The modes `clean` and `terms`: a script, on one thread, from bytes to pages.

ghost use Rattle.std.specs.Prelude.{◌≡◌, IfOk, OnOk};
ghost use Rattle.dita_doc.specs.Gives.{GivesSeen};
ghost use Rattle.dita_outside.specs.Cause as cause_spec;
ghost use Rattle.dita_outside.specs.Pages as pages_spec;
ghost use Rattle.run_spec.specs.CleanRun as clean_run_spec;
ghost use Rattle.script_text.specs.Read as read_spec;
ghost use Rattle.script_text.specs.Script as script_spec;
ghost use Rattle.desk_top.specs.Ends as ends_spec;
ghost use Rattle.desk_top.specs.Outside as outside_spec;

use crate::outside::read_all;
use crate::run::answer_all;
use dita_doc::{List, Stop};
use dita_outside::{Failed, Outlet, Sink, Source, write_all};
use run_spec::Status;
use script_text::{SCRIPT_LIMIT, Script, ScriptFault, read_script};
use std::alloc::Global;

// One byte more than the longest script has.
pub(crate) const READ_LIMIT: usize = SCRIPT_LIMIT + 1;

/// Reads a script, answers its requests in order, puts the pages of each build into the outlet and
/// writes the transcript.
pub fn run_clean<S: Source, K: Sink, O: Outlet>(
    alloc: Global,
    source: &mut S,
    sink: &mut K,
    outlet: &mut O,
) -> Status
    ensures { ends_spec.EndsClean
        (outside_spec.change S.left S.faults source.old source.new)
        (outside_spec.change K.taken K.faults sink.old sink.new)
        (outside_spec.change O.pages O.faults outlet.old outlet.new) result }
{
    run(alloc, source, sink, outlet, false)
}

/// The same, and behind the pages of each build it puts the page of its terms, if it has any.
pub fn run_terms<S: Source, K: Sink, O: Outlet>(
    alloc: Global,
    source: &mut S,
    sink: &mut K,
    outlet: &mut O,
) -> Status
    ensures { ends_spec.EndsTerms
        (outside_spec.change S.left S.faults source.old source.new)
        (outside_spec.change K.taken K.faults sink.old sink.new)
        (outside_spec.change O.pages O.faults outlet.old outlet.new) result }
{
    run(alloc, source, sink, outlet, true)
}

// A run with pages of terms or without.
fn run<S: Source, K: Sink, O: Outlet>(
    alloc: Global,
    source: &mut S,
    sink: &mut K,
    outlet: &mut O,
    with_terms: bool,
) -> Status
    ensures { ends_spec.EndsRun with_terms
        (outside_spec.change S.left S.faults source.old source.new)
        (outside_spec.change K.taken K.faults sink.old sink.new)
        (outside_spec.change O.pages O.faults outlet.old outlet.new) result }
{
    let input = match read_all(alloc, source, READ_LIMIT) {
        Ok(input) => input,
        Err(Stop::Fault(_)) => return Status::ReadFault,
        Err(Stop::NoMemory) => return Status::NoMemory,
    };
    match answered(alloc, input, with_terms, outlet) {
        Ok((status, output)) => written(sink, output.as_slice(), status),
        Err(Stop::Fault(_)) => Status::OutletFault,
        Err(Stop::NoMemory) => Status::NoMemory,
    }
}

// The status and the output of a run over these bytes, whose pages the outlet takes.
fn answered<O: Outlet>(
    alloc: Global,
    input: List<u8>,
    with_terms: bool,
    outlet: &mut O,
) -> Result<(Status, List<u8>), Stop<Failed>>
    ensures ok { let run = clean_run_spec.run_over with_terms input in
        IfOk result (λ answer. (run.status ≡ answer.0) × (run.output ≡ answer.1)) }
    ensures form { OnOk result (clean_run_spec.HasForm (script_spec.script_of input)) }
    ensures pages { pages_spec.PutsPages (O.pages outlet.old) (O.pages outlet.new) result
        (clean_run_spec.run_over with_terms input).pages }
    ensures cause { cause_spec.HasCauseOrNoMemory
        (O.faults outlet.old) (O.faults outlet.new) result }
{
    match script_in(alloc, input) {
        Ok(script) => Ok((Status::Done, answer_all(alloc, script, with_terms, outlet)?)),
        Err(Stop::Fault(fault)) => Ok((Status::Script, fault.to_line(alloc)?)),
        Err(Stop::NoMemory) => Err(Stop::NoMemory),
    }
}

// The script that these bytes are. It has texts of its own, so they are let go.
pub(crate) fn script_in(alloc: Global, input: List<u8>) -> Result<Script, Stop<ScriptFault>>
    ensures { GivesSeen (λ script. read_spec.steps_seen script.steps) result
        (script_spec.script_of input) }
{
    read_script(alloc, input.as_slice())
}

// The status of a run whose output is written last.
pub(crate) fn written<K: Sink>(sink: &mut K, output: &[u8], status: Status) -> Status
    ensures { ends_spec.WritesLast (K.taken sink.old) (K.taken sink.new) (K.faults sink.old)
        (K.faults sink.new) output.now status result }
{
    match write_all(sink, output) {
        Ok(()) => status,
        Err(Stop::Fault(_)) => Status::WriteFault,
        Err(Stop::NoMemory) => Status::NoMemory,
    }
}
