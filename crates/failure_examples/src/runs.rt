//! Runs of the mode `clean` in which each call of an object fails in turn.

use crate::objects::{PIECE, ShortOutlet, ShortSink};
use crate::project::{SCRIPT, first_bytes, first_pages};
use desk_top::{Status, run_clean};
use dita_doc::List;
use dita_outside::{MemOutlet, MemSink, MemSource};
use std::alloc::{AllocError, Global};
use std::test::Fail;

// What a call of a run meets.
#[derive(Clone, Copy, Debug, PartialEq, Eq)]
enum Trouble {
    // The source fails.
    Source,
    // The sink fails, or has no memory.
    Sink,
    ShortSink,
    // The outlet fails, or has no memory.
    Outlet,
    ShortOutlet,
    // None, and the source gives one byte at a time.
    Bytes,
}

impl Trouble {
    // The call that meets another trouble: this one if they are the same, and none else.
    fn call(self, other: Trouble, call: u32) -> u32 {
        if self == other { call } else { 0 }
    }
}

// What a run ended with: its status, and how many bytes and pages were taken, if these are the first
// of those that the rules say.
#[derive(Clone, Copy, Debug, PartialEq, Eq)]
struct Ended {
    status: Status,
    bytes: Option<usize>,
    pages: Option<usize>,
}

impl Ended {
    fn new(status: Status, bytes: usize, pages: usize) -> Ended {
        Ended {
            status,
            bytes: Some(bytes),
            pages: Some(pages),
        }
    }

    fn done() -> Ended {
        Ended::new(Status::Done, 142, 2)
    }

    // Whether it was out of memory with a beginning of what it should have given.
    fn is_short(&self) -> bool {
        self.status == Status::NoMemory && self.bytes.is_some() && self.pages.is_some()
    }
}

// A run in which this call meets this trouble. What has no memory where something else is expected
// is tried again: in a run of the tests one request for memory at most is refused.
fn tried(alloc: Global, trouble: Trouble, call: u32, expected: Ended) -> Result<Ended, AllocError> {
    match run(alloc, trouble, call) {
        Ok(ended) if ended == expected || !ended.is_short() => Ok(ended),
        _ => run(alloc, trouble, call),
    }
}

fn run(alloc: Global, trouble: Trouble, call: u32) -> Result<Ended, AllocError> {
    let mut source = source(alloc, trouble, call)?;
    let failed = trouble.call(Trouble::Sink, call);
    let inside = MemSink::new(alloc, failing(alloc, failed)?);
    let mut sink = ShortSink::new(inside, trouble.call(Trouble::ShortSink, call));
    let failed = trouble.call(Trouble::Outlet, call);
    let inside = MemOutlet::new(alloc, failing(alloc, failed)?);
    let mut outlet = ShortOutlet::new(inside, trouble.call(Trouble::ShortOutlet, call));
    let status = run_clean(alloc, &mut source, &mut sink, &mut outlet);
    Ok(Ended {
        status,
        bytes: first_bytes(sink.bytes()),
        pages: first_pages(outlet.pages()),
    })
}

fn source(alloc: Global, trouble: Trouble, call: u32) -> Result<MemSource, AllocError> {
    let script = List::from_slice(alloc, SCRIPT.as_bytes())?;
    if trouble == Trouble::Bytes {
        let sizes = vec![in alloc; 1u32; SCRIPT.len()]?;
        return Ok(MemSource::in_pieces(script, List::from_vec(sizes)));
    }
    let failed = trouble.call(Trouble::Source, call);
    Ok(MemSource::new(script, failing(alloc, failed)?))
}

// The list of this call, where 0 is none.
fn failing(alloc: Global, call: u32) -> Result<List<u32>, AllocError> {
    Ok(List::from_vec(Vec::from_slice(alloc, &[call])?))
}

// The source is read twice: the script, and its end.
#[test]
fn a_failed_read_leaves_nothing(rt: HostRuntime) -> Result<(), Fail> {
    let alloc = rt.alloc();
    for call in 1..=2 {
        let left = Ended::new(Status::ReadFault, 0, 0);
        assert_eq!(rt; tried(alloc, Trouble::Source, call, left)?, left, "{call}");
    }
    let done = Ended::done();
    assert_eq!(rt; tried(alloc, Trouble::Source, 3, done)?, done);
    Ok(())
}

// The 142 bytes of the output are written by eight calls, the last of which takes two.
#[test]
fn a_failed_write_leaves_a_beginning(rt: HostRuntime) -> Result<(), Fail> {
    let alloc = rt.alloc();
    let done = Ended::done();
    for (trouble, status) in [
        (Trouble::Sink, Status::WriteFault),
        (Trouble::ShortSink, Status::NoMemory),
    ] {
        for before in 0..8u32 {
            let left = Ended::new(status, PIECE * before as usize, 2);
            assert_eq!(rt; tried(alloc, trouble, before + 1, left)?, left, "{before}");
        }
        assert_eq!(rt; tried(alloc, trouble, 9, done)?, done);
    }
    Ok(())
}

// There are two pages, and nothing is written before both are put.
#[test]
fn a_failed_page_leaves_those_before(rt: HostRuntime) -> Result<(), Fail> {
    let alloc = rt.alloc();
    let done = Ended::done();
    for (trouble, status) in [
        (Trouble::Outlet, Status::OutletFault),
        (Trouble::ShortOutlet, Status::NoMemory),
    ] {
        for before in 0..2u32 {
            let left = Ended::new(status, 0, before as usize);
            assert_eq!(rt; tried(alloc, trouble, before + 1, left)?, left, "{before}");
        }
        assert_eq!(rt; tried(alloc, trouble, 3, done)?, done);
    }
    Ok(())
}

#[test]
fn a_script_comes_byte_by_byte(rt: HostRuntime) -> Result<(), Fail> {
    let alloc = rt.alloc();
    let done = Ended::done();
    assert_eq!(rt; tried(alloc, Trouble::Bytes, 0, done)?, done);
    Ok(())
}
