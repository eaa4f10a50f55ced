//! A batch of two sessions, each of which puts a map and a topic and builds, with two workers.

use crate::project::SCRIPT;
use desk_top::{Status, run_batch};
use dita_doc::List;
use dita_outside::{NoGate, SureSink, SureSource};
use std::alloc::{AllocError, Global};
use std::sync::Wait;
use std::test::Fail;
use std::thread::Threads;

// The requests of the second session.
const OTHER: &str =
    "2 put n.ditamap\n(map\nAclass - map/map \n(topicref\nAclass - map/topicref \nAhref u.dita\n)topicref\n)map\n.\n2 put u.dita\n(topic\nAclass - topic/topic \nAid u\n(title\nAclass - topic/title \n-Other\n)title\n)topic\n.\n2 build n.ditamap\n";

// What the entries show, whatever the order of the sessions: requests are numbered as in the script.
const ENTRIES: [&str; 6] = [
    " 1 1 stored ",
    " 1 2 stored ",
    " 1 3 built 2 0\n|page t.html row ",
    " 2 4 stored ",
    " 2 5 stored ",
    " 2 6 built 2 0\n|page u.html row ",
];

// What a batch ended with.
#[derive(Clone, Copy, Debug, PartialEq, Eq)]
enum Ended {
    // With all entries, and three rows of each build.
    Done,
    // Out of memory, with nothing written.
    NoMemory,
    Wrong,
}

fn batch<R: Threads + Wait + Sync>(rt: &R, alloc: Global) -> Result<Ended, AllocError> {
    let script = format!(in alloc; "{SCRIPT}{OTHER}")?;
    let mut source = SureSource::new(List::from_slice(alloc, script.as_bytes())?);
    let mut sink = SureSink::new(alloc);
    let status = run_batch(rt, alloc, 2, &mut source, &mut sink, &NoGate);
    let written = sink.bytes().as_slice();
    Ok(match status {
        Status::Done if is_whole(written) => Ended::Done,
        Status::NoMemory if written.is_empty() => Ended::NoMemory,
        _ => Ended::Wrong,
    })
}

fn is_whole(written: &[u8]) -> bool {
    let Ok(text) = str::from_utf8(written) else {
        return false;
    };
    for entry in ENTRIES {
        if !text.contains(entry) {
            return false;
        }
    }
    text.starts_with("dita transcript 1\nentry 0 ") && text.ends_with("\nend 6 6 0\n")
}

// What has no memory is tried again: in a run of the tests one request for memory at most is
// refused.
#[test]
fn two_sessions_build_or_have_no_memory(rt: HostRuntime) -> Result<(), Fail> {
    let alloc = rt.alloc();
    let ended = match batch(&rt, alloc) {
        Ok(Ended::Done) => Ended::Done,
        Ok(Ended::Wrong) => Ended::Wrong,
        Ok(Ended::NoMemory) | Err(AllocError) => batch(&rt, alloc)?,
    };
    assert_eq!(rt; ended, Ended::Done);
    Ok(())
}
