//! Where bytes come from.

ghost use Rattle.std.specs.Prelude.{◌≡◌, ◌<◌, ◌≤◌, ◌-◌, ◌^◌, ◌++◌, ℕ, Option, None, IfSome, IfNone, length, take, drop, min, max};
ghost use Rattle.std.specs.Io.{ReadsAtMost};
ghost use Rattle.std.specs.Io.KnownBytes.{ReadConsumes};
ghost use Rattle.dita_doc.specs.Bytes.{Bytes};
ghost use Rattle.dita_outside.specs.Cause as cause_spec;

use crate::Failed;
use crate::calls::Calls;
use crate::count::with_fault;
use dita_doc::List;
use std::collections::VecDeque;
use std::io::{self, Read};

/// A source of bytes.
pub trait Source {
    /// The bytes that are left, if it tells them.
    ghost left: { Self → Option Bytes };

    /// How often it failed. The count stands still at 2^64 - 1, the last value of a counter.
    ghost faults: { Self → ℕ };

    /// Reads some bytes into the buffer, and answers how many. 0 for a buffer that is not empty is
    /// the end.
    fn read(&mut self, into: &mut [u8]) -> Result<usize, Failed>
        ensures bound { ReadsAtMost result into.new }
        ensures bytes { ReadConsumes (left self.old) (left self.new) result into.new }
        ensures cause { cause_spec.HasCause (faults self.old) (faults self.new) result };
}

/// A source in memory that fails at the calls listed, which are counted from 1, or gives its bytes
/// in pieces of the sizes listed.
#[derive(Drop)]
pub struct MemSource {
    bytes: List<u8>,
    place: usize,
    sizes: VecDeque<u32>,
    calls: Calls,
    ghost inside: { place ≤ length bytes },
}

impl MemSource {
    ghost use Rattle.std.specs.Prelude.{[]};
    ghost use Rattle.dita_outside.specs.Calls as calls_spec;
    ghost use Rattle.dita_outside.specs.Forms as forms_spec;

    /// A source of these bytes that fails at these calls, and else gives what the buffer can take.
    /// It takes no memory.
    pub fn new(bytes: List<u8>, failing: List<u32>) -> MemSource
        ensures bytes { forms_spec.source_bytes result ≡ bytes }
        ensures failing { forms_spec.source_failing result ≡ calls_spec.not_called failing }
        ensures sizes { forms_spec.source_sizes result ≡ [] }
    {
        let bytes = bytes.into_vec();
        let alloc = *bytes.allocator();
        MemSource {
            bytes: List::from_vec(bytes),
            place: 0,
            sizes: VecDeque::new(alloc),
            calls: Calls::new(failing),
        }
    }

    /// A source of these bytes that never fails, and gives at most as many at each read as the next
    /// size says, where 0 counts as 1. Behind the last size there is no limit. It takes no memory.
    pub fn in_pieces(bytes: List<u8>, sizes: List<u32>) -> MemSource
        ensures bytes { forms_spec.source_bytes result ≡ bytes }
        ensures failing { forms_spec.source_failing result ≡ calls_spec.not_called [] }
        ensures sizes { forms_spec.source_sizes result ≡ sizes }
    {
        let bytes = bytes.into_vec();
        let alloc = *bytes.allocator();
        MemSource {
            bytes: List::from_vec(bytes),
            place: 0,
            sizes: VecDeque::from_vec(sizes.into_vec()),
            calls: Calls::new(List::new(alloc)),
        }
    }
}

impl Source for MemSource {
    ghost use Rattle.std.specs.Prelude.{◌≡◌, is_err, Some, IfOk, drop};
    ghost use Rattle.std.specs.Io.{ReadsAtMost};
    ghost use Rattle.std.specs.Io.KnownBytes.{ReadConsumes};
    ghost use Rattle.dita_outside.specs.Calls as calls_spec;
    ghost use Rattle.dita_outside.specs.Cause as cause_spec;
    ghost use Rattle.dita_outside.specs.Forms as forms_spec;

    ghost left = { λ s. Some (forms_spec.source_bytes s) };

    ghost faults = { λ s. (forms_spec.source_failing s).faults };

    fn read(&mut self, into: &mut [u8]) -> Result<usize, Failed>
        ensures bound { ReadsAtMost result into.new }
        ensures bytes { ReadConsumes (Some (forms_spec.source_bytes self.old))
            (Some (forms_spec.source_bytes self.new)) result into.new }
        ensures cause { cause_spec.HasCause (forms_spec.source_failing self.old).faults
            (forms_spec.source_failing self.new).faults result }
        // It fails at the calls listed, and at no other.
        ensures listed { is_err result ≡ calls_spec.is_listed (forms_spec.source_failing self.old) }
        ensures counted { forms_spec.source_failing self.new
            ≡ calls_spec.after_call (is_err result) (forms_spec.source_failing self.old) }
        // It gives no more than the next size says, and each read uses up a size.
        ensures within { IfOk result (λ count.
            forms_spec.IsWithin (forms_spec.source_sizes self.old) count) }
        ensures sizes { forms_spec.source_sizes self.new
            ≡ drop 1 (forms_spec.source_sizes self.old) }
    {
        let size = self.sizes.pop_front();
        self.calls.call()?;
        let rest = &self.bytes.as_slice()[self.place..];
        let count = copy_front(rest, limit_of(size), into);
        self.place += count;
        Ok(count)
    }
}

// How many bytes a read of this size gives at most: at least one, and without a size there is no
// limit.
fn limit_of(size: Option<u32>) -> usize
    ensures some { 0 < result }
    ensures limit { IfSome size (λ size. result ≡ max size 1) }
    ensures none { IfNone size (result ≡ 2 ^ 64 - 1) }
{
    match size {
        Some(size) => size.max(1) as usize,
        None => usize::MAX,
    }
}

// Copies the first bytes, no more than the limit, and answers how many.
fn copy_front(bytes: &[u8], limit: usize, into: &mut [u8]) -> usize
    ensures count { result ≡ min (min limit (length bytes.now)) (length into.old) }
    ensures copied { bytes.now ≡ take result into.new ++ drop result bytes.now }
{
    let mut piece = &bytes[..limit.min(bytes.len())];
    match piece.read(into) {
        Ok(count) => count,
        Err(_) => unreachable!(),
    }
}

/// A source in memory that never fails.
#[derive(Drop)]
pub struct SureSource {
    bytes: List<u8>,
    place: usize,
    ghost inside: { place ≤ length bytes },
}

impl SureSource {
    ghost use Rattle.dita_outside.specs.Forms as forms_spec;

    /// A source of these bytes, which takes no memory.
    pub fn new(bytes: List<u8>) -> SureSource
        ensures { forms_spec.sure_source_bytes result ≡ bytes }
    {
        SureSource { bytes, place: 0 }
    }
}

impl Source for SureSource {
    ghost use Rattle.std.specs.Prelude.{Some};
    ghost use Rattle.dita_outside.specs.Forms as forms_spec;

    ghost left = { λ s. Some (forms_spec.sure_source_bytes s) };

    ghost faults = { λ _. 0 };

    fn read(&mut self, into: &mut [u8]) -> Result<usize, Failed> {
        let mut rest = &self.bytes.as_slice()[self.place..];
        match rest.read(into) {
            Ok(count) => {
                self.place += count;
                Ok(count)
            }
            Err(_) => unreachable!(),
        }
    }
}

/// A reader of the system as a source: it tells no bytes, and counts each error of the reader.
#[derive(Drop)]
pub struct StdSource<R: Read> {
    reader: R,
    faults: u64,
    last: Option<io::Error>,
    first: Option<u8>,
}

impl<R: Read> StdSource<R> {
    /// The reader as a source.
    pub fn new(reader: R) -> StdSource<R> {
        StdSource {
            reader,
            faults: 0,
            last: None,
            first: None,
        }
    }

    /// The error of the last read that failed. For the reader of a message; no contract rests on it.
    pub fn last_error(&self) -> Option<io::Error> {
        self.last
    }

    /// The first byte that was read. For the reader of a message; no contract rests on it.
    pub fn first_byte(&self) -> Option<u8> {
        self.first
    }
}

impl<R: Read> Source for StdSource<R> {
    ghost left = { λ _. None };

    ghost faults = { λ s. s.faults };

    fn read(&mut self, into: &mut [u8]) -> Result<usize, Failed> {
        match self.reader.read(into) {
            Ok(count) => {
                if self.first.is_none() && count > 0 {
                    self.first = into.first().copied();
                }
                Ok(count)
            }
            Err(error) => {
                self.faults = with_fault(self.faults);
                self.last = Some(error);
                Err(Failed)
            }
        }
    }
}
