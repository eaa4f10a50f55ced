//! The mode `gen`: the script of a project, from no input to bytes.

ghost use Rattle.std.specs.Prelude.{◌≤◌};
ghost use Rattle.desk_top.specs.Ends as ends_spec;
ghost use Rattle.desk_top.specs.Outside as outside_spec;

use crate::modes::written;
use dita_doc::NoMemory;
use dita_outside::Sink;
use doc_gen::project;
use run_spec::Status;
use std::alloc::Global;

/// Writes the script of a number and of a count of topics.
pub fn run_gen<K: Sink>(alloc: Global, number: u64, topics: u32, sink: &mut K) -> Status
    requires few { 2 ≤ topics }
    requires many { topics ≤ 4000 }
    ensures { ends_spec.EndsProject number topics
        (outside_spec.change K.taken K.faults sink.old sink.new) result }
{
    match project(alloc, number, topics) {
        Ok(text) => written(sink, text.as_slice(), Status::Done),
        Err(NoMemory) => Status::NoMemory,
    }
}
