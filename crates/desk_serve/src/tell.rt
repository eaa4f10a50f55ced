//! What a run tells its sink.

ghost use Rattle.std.specs.Prelude.{◌≡◌, IfOk};
ghost use Rattle.run_spec.specs.Written as written_spec;
ghost use Rattle.desk_serve.specs.Ends as spec;

use dita_doc::{List, Stop};
use dita_outside::{Failed, Sink, write_all};
use run_spec::Status;
use std::alloc::{AllocError, Global};

/// Writes how many connections were served, and how many entries the history has.
pub(crate) fn tell<K: Sink>(alloc: Global, sink: &mut K, connections: u32, entries: u64) -> Status
    ensures { written_spec.EndsWriting (spec.count_line connections entries)
        (spec.sunk K.taken K.faults sink.old) (spec.sunk K.taken K.faults sink.new) result }
{
    let Ok(line) = count_line(alloc, connections, entries) else {
        return Status::NoMemory;
    };
    match write_all(sink, line.as_slice()) {
        Ok(()) => Status::Done,
        Err(Stop::Fault(Failed)) => Status::WriteFault,
        Err(Stop::NoMemory) => Status::NoMemory,
    }
}

fn count_line(alloc: Global, connections: u32, entries: u64) -> Result<List<u8>, AllocError>
    ensures { IfOk result (λ line. line ≡ spec.count_line connections entries) }
{
    let text = format!(in alloc; "served {connections} {entries}\n")?;
    Ok(List::from_vec(text.into_bytes()))
}
