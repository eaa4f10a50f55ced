//! Where output goes.

ghost use Rattle.std.specs.Prelude.{◌≡◌, ◌<◌, ◌-◌, ◌^◌, ℕ, [], Option, None, length, IfOk, OnErr, OnOk};
ghost use Rattle.std.specs.Io.{WritesAtMost};
ghost use Rattle.std.specs.Io.KnownBytes.{Appends, WriteAppends};
ghost use Rattle.dita_doc.specs.Bytes.{Bytes};
ghost use Rattle.dita_outside.specs.Cause as cause_spec;
ghost use Rattle.dita_outside.specs.Taken as taken_spec;

use crate::Failed;
use crate::calls::Calls;
use crate::count::with_fault;
use dita_doc::{List, Stop};
use std::alloc::Global;
use std::io::{self, ErrorKind, Write};

/// A sink of bytes.
pub trait Sink {
    /// The bytes that it took, if it tells them.
    ghost taken: { Self → Option Bytes };

    /// How often it failed. The count stands still at 2^64 - 1, the last value of a counter.
    ghost faults: { Self → ℕ };

    /// Takes the first bytes, at least one if there are any, and answers how many. With an `Err` it
    /// took none.
    fn write(&mut self, bytes: &[u8]) -> Result<usize, Stop<Failed>>
        ensures bound { WritesAtMost result bytes.now }
        ensures some { 0 < length bytes.now → IfOk result (λ count. 0 < count) }
        ensures bytes { WriteAppends (taken self.old) (taken self.new) result bytes.now }
        ensures cause { cause_spec.HasCauseOrNoMemory (faults self.old) (faults self.new) result };
}

/// Writes bytes whole, by as many calls as the sink needs.
///
/// # Errors
///
/// A call of the sink failed or was out of memory. The sink then has the bytes that it took before.
pub fn write_all<K: Sink>(sink: &mut K, bytes: &[u8]) -> Result<(), Stop<Failed>>
    ensures ok { OnOk result (Appends (K.taken sink.old) (K.taken sink.new) bytes.now) }
    ensures err { OnErr result
        (taken_spec.AppendsFront (K.taken sink.old) (K.taken sink.new) bytes.now) }
    ensures cause { cause_spec.HasCauseOrNoMemory (K.faults sink.old) (K.faults sink.new) result }
{
    let mut done = 0;
    while done < bytes.len() {
        done += sink.write(&bytes[done..])?;
    }
    Ok(())
}

/// A sink in memory that fails at the calls listed, which are counted from 1, and when its room is
/// full.
#[derive(Drop)]
pub struct MemSink {
    content: List<u8>,
    room: u64,
    calls: Calls,
}

impl MemSink {
    ghost use Rattle.dita_outside.specs.Calls as calls_spec;
    ghost use Rattle.dita_outside.specs.Forms as forms_spec;

    /// A sink with more room than can be filled.
    pub fn new(alloc: Global, failing: List<u32>) -> MemSink
        ensures bytes { forms_spec.sink_bytes result ≡ [] }
        ensures failing { forms_spec.sink_failing result ≡ calls_spec.not_called failing }
        ensures room { forms_spec.sink_room result ≡ 2 ^ 64 - 1 }
    {
        MemSink {
            content: List::new(alloc),
            room: u64::MAX,
            calls: Calls::new(failing),
        }
    }

    /// A sink that takes so many bytes in all, and then fails.
    pub fn with_room(alloc: Global, room: u64) -> MemSink
        ensures bytes { forms_spec.sink_bytes result ≡ [] }
        ensures failing { forms_spec.sink_failing result ≡ calls_spec.not_called [] }
        ensures room { forms_spec.sink_room result ≡ room }
    {
        MemSink {
            content: List::new(alloc),
            room,
            calls: Calls::new(List::new(alloc)),
        }
    }

    /// What it took.
    pub fn bytes(&self) -> &List<u8>
        ensures { result.now ≡ forms_spec.sink_bytes self.now }
    {
        &self.content
    }
}

impl Sink for MemSink {
    ghost use Rattle.std.specs.Prelude.{◌≡◌, ◌+◌, ◌<◌, IsTrue, IfOk, IfErr, OnErr, length, true, false, Some};
    ghost use Rattle.std.specs.Io.{WritesAtMost};
    ghost use Rattle.std.specs.Io.KnownBytes.{WriteAppends};
    ghost use Rattle.dita_doc.specs.Gives.{OnFault};
    ghost use Rattle.dita_outside.specs.Calls as calls_spec;
    ghost use Rattle.dita_outside.specs.Cause as cause_spec;
    ghost use Rattle.dita_outside.specs.Forms as forms_spec;

    ghost taken = { λ s. Some (forms_spec.sink_bytes s) };

    ghost faults = { λ s. (forms_spec.sink_failing s).faults };

    fn write(&mut self, bytes: &[u8]) -> Result<usize, Stop<Failed>>
        ensures bound { WritesAtMost result bytes.now }
        ensures some { 0 < length bytes.now → IfOk result (λ count. 0 < count) }
        ensures bytes { WriteAppends (Some (forms_spec.sink_bytes self.old))
            (Some (forms_spec.sink_bytes self.new)) result bytes.now }
        ensures cause { cause_spec.HasCauseOrNoMemory (forms_spec.sink_failing self.old).faults
            (forms_spec.sink_failing self.new).faults result }
        // It fails if the call is listed or the room is full, and else never.
        ensures failed { IfErr result (λ stop. OnFault stop
            (IsTrue (forms_spec.sink_fails self.old bytes.now))) }
        ensures took { IfOk result (λ count. (forms_spec.sink_fails self.old bytes.now ≡ false)
            × (forms_spec.sink_room self.new + count ≡ forms_spec.sink_room self.old)) }
        // A call that takes nothing leaves the room as it was.
        ensures room { OnErr result (forms_spec.sink_room self.new ≡ forms_spec.sink_room self.old) }
        ensures counted { forms_spec.sink_failing self.new ≡ calls_spec.after_call
            (cause_spec.is_fault result) (forms_spec.sink_failing self.old) }
    {
        if self.calls.call().is_err() {
            return Err(Stop::Fault(Failed));
        }
        if self.room == 0 && !bytes.is_empty() {
            self.calls.fail();
            return Err(Stop::Fault(Failed));
        }
        let count = if bytes.len() as u64 <= self.room {
            bytes.len()
        } else {
            self.room as usize
        };
        self.content.append(&bytes[..count])?;
        self.room -= count as u64;
        Ok(count)
    }
}

/// A sink in memory that fails only when it is out of memory.
#[derive(Debug, Drop)]
pub struct SureSink {
    content: List<u8>,
}

impl SureSink {
    ghost use Rattle.dita_outside.specs.Forms as forms_spec;

    /// A sink that took nothing yet.
    pub fn new(alloc: Global) -> SureSink
        ensures { forms_spec.sure_sink_bytes result ≡ [] }
    {
        SureSink {
            content: List::new(alloc),
        }
    }

    /// What it took.
    pub fn bytes(&self) -> &List<u8>
        ensures { result.now ≡ forms_spec.sure_sink_bytes self.now }
    {
        &self.content
    }
}

impl Sink for SureSink {
    ghost use Rattle.std.specs.Prelude.{Some};
    ghost use Rattle.dita_outside.specs.Forms as forms_spec;

    ghost taken = { λ s. Some (forms_spec.sure_sink_bytes s) };

    ghost faults = { λ _. 0 };

    fn write(&mut self, bytes: &[u8]) -> Result<usize, Stop<Failed>> {
        self.content.append(bytes)?;
        Ok(bytes.len())
    }
}

/// A writer of the system as a sink: it tells no bytes, and counts each error of the writer. A
/// write that takes nothing of a piece that is not empty is such an error.
#[derive(Drop)]
pub struct StdSink<W: Write> {
    writer: W,
    faults: u64,
    last: Option<io::Error>,
}

impl<W: Write> StdSink<W> {
    /// The writer as a sink.
    pub fn new(writer: W) -> StdSink<W> {
        StdSink {
            writer,
            faults: 0,
            last: None,
        }
    }

    /// The error of the last write that failed. For the reader of a message; no contract rests on
    /// it.
    pub fn last_error(&self) -> Option<io::Error> {
        self.last
    }
}

impl<W: Write> Sink for StdSink<W> {
    ghost taken = { λ _. None };

    ghost faults = { λ s. s.faults };

    fn write(&mut self, bytes: &[u8]) -> Result<usize, Stop<Failed>> {
        if bytes.is_empty() {
            return Ok(0);
        }
        match self.writer.write(bytes) {
            Ok(count) if count > 0 => Ok(count),
            taken => {
                self.faults = with_fault(self.faults);
                self.last = Some(taken.err().unwrap_or(io::Error::from(ErrorKind::WriteZero)));
                Err(Stop::Fault(Failed))
            }
        }
    }
}
