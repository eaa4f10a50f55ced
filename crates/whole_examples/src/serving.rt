//! The mode `serve`, over links in memory.

ghost use Rattle.std.specs.Prelude.{◌≤◌};

use crate::documents::{flat_map, topic};
use crate::gates::OfMaps;
use desk_top::{Status, run_serve};
use dita_doc::List;
use dita_outside::{Gate, MemDoor, MemLink, NoGate, SureSink};
use std::alloc::{AllocError, Global};
use std::sync::Wait;
use std::test::Fail;
use std::thread::Threads;

// A link on which these messages come.
fn link(alloc: Global, messages: &[&str]) -> Result<MemLink, AllocError> {
    let mut left = List::new(alloc);
    for message in messages {
        left.push(List::from_slice(alloc, message.as_bytes())?)?;
    }
    Ok(MemLink::new(alloc, left, List::new(alloc)))
}

// What a run ended with.
#[derive(Drop)]
struct Served {
    status: Status,
    sink: SureSink,
    door: MemDoor,
}

// A run that serves so many links of a door, which fails at these calls.
fn serve<R: Threads + Wait + Sync, G: Gate + Sync>(
    rt: &R,
    alloc: Global,
    connections: u32,
    links: Vec<MemLink>,
    failing: &[u32],
    gate: &G,
) -> Result<Served, AllocError>
    requires some { 1 ≤ connections }
    requires most { connections ≤ 1024 }
{
    let failing = List::from_vec(Vec::from_slice(alloc, failing)?);
    let mut door = MemDoor::new(List::from_vec(links), failing);
    let mut sink = SureSink::new(alloc);
    let status = run_serve(rt, alloc, 0, connections, 2, &mut sink, &mut door, gate);
    Ok(Served { status, sink, door })
}

impl Served {
    // The messages that were sent on the link that was taken back as the one with this number.
    fn sent(&self, number: usize) -> Option<&[List<u8>]> {
        let link = self.door.returned().as_slice().get(number)?;
        Some(link.sent().as_slice())
    }
}

// A put that two messages cut.
fn cut_put(alloc: Global) -> Result<Vec<MemLink>, AllocError> {
    let mut links = Vec::new(alloc);
    links.push(link(alloc, &["put t.dita\n(p\n)", "p\n.\n"])?)?;
    Ok(links)
}

#[test]
fn a_connection_is_answered_and_counted(rt: HostRuntime) -> Result<(), Fail> {
    let alloc = rt.alloc();
    let served = serve(&rt, alloc, 1, cut_put(alloc)?, &[], &NoGate)?;
    assert!(rt; served.status == Status::Done);
    assert!(rt; served.sink.bytes().as_slice() == b"served 1 1\n".as_slice());
    let sent = served.sent(0).ok_or("no link came back")?;
    assert!(rt; sent.len() == 1 && sent[0].as_slice() == b"entry 0 1 1 stored 1\n".as_slice());
    Ok(())
}

#[test]
fn a_door_that_does_not_listen_serves_nobody(rt: HostRuntime) -> Result<(), Fail> {
    let alloc = rt.alloc();
    let served = serve(&rt, alloc, 1, cut_put(alloc)?, &[1], &NoGate)?;
    assert!(rt; served.status == Status::Port);
    assert!(rt; served.sink.bytes().is_empty());
    assert!(rt; served.door.returned().is_empty());
    Ok(())
}

// A map of one topic and its build, as a session asks for them.
fn build_of(alloc: Global, map: &str, page: &str) -> Result<String, Fail> {
    let book = flat_map(alloc, &[page])?;
    let text = topic(alloc, "t", "T", &["x"])?;
    Ok(format!(in alloc; "put {map}\n{book}.\nput {page}\n{text}.\nbuild {map}\n")?)
}

#[test]
fn two_connections_build_at_one_time(rt: HostRuntime) -> Result<(), Fail> {
    let alloc = rt.alloc();
    let gate = OfMaps::new();
    let mut links = Vec::new(alloc);
    let first = build_of(alloc, "m.ditamap", "t.dita")?;
    let second = build_of(alloc, "n.ditamap", "u.dita")?;
    links.push(link(alloc, &[first.as_str()])?)?;
    links.push(link(alloc, &[second.as_str()])?)?;
    let served = serve(&rt, alloc, 2, links, &[], &gate)?;
    assert!(rt; served.status == Status::Done);
    assert!(rt; gate.all_met());
    assert!(rt; served.sink.bytes().as_slice() == b"served 2 6\n".as_slice());
    // Three answers, and the rows of a page and of the contents page.
    assert!(rt; served.sent(0).ok_or("no first link")?.len() == 5);
    assert!(rt; served.sent(1).ok_or("no second link")?.len() == 5);
    Ok(())
}
