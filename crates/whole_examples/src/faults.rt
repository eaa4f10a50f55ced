//! Whole runs over objects in memory: what they take, and what each failing object leaves.

use desk_top::{Status, desk_top, run_clean};
use dita_doc::List;
use dita_outside::{
    MemDoor, MemOutlet, MemSink, MemSource, NoGate, SureOutlet, SureSink, SureSource,
};
use std::alloc::{AllocError, Global};
use std::sync::Wait;
use std::test::Fail;
use std::thread::Threads;

// A map with one topic, and its build.
const SCRIPT: &[u8] =
    b"1 put m.ditamap\n(map\nAclass - map/map \n(topicref\nAclass - map/topicref \nAhref t.dita\n)topicref\n)map\n.\n1 put t.dita\n(topic\nAclass - topic/topic \nAid t\n(title\nAclass - topic/title \n-Hello\n)title\n(body\nAclass - topic/body \n(p\nAclass - topic/p \n-A & B\n)p\n)body\n)topic\n.\n1 build m.ditamap\n";

fn source(alloc: Global, bytes: &[u8]) -> Result<SureSource, AllocError> {
    Ok(SureSource::new(List::from_slice(alloc, bytes)?))
}

fn calls(alloc: Global, numbers: &[u32]) -> Result<List<u32>, AllocError> {
    Ok(List::from_vec(Vec::from_slice(alloc, numbers)?))
}

// The status of a run over these bytes, and whether its output is this one.
fn run_over(alloc: Global, script: &[u8], output: &[u8]) -> Result<(Status, bool), AllocError> {
    let mut sink = SureSink::new(alloc);
    let mut outlet = SureOutlet::new(alloc);
    let status = run_clean(alloc, &mut source(alloc, script)?, &mut sink, &mut outlet);
    Ok((status, sink.bytes().as_slice() == output))
}

#[test]
fn a_faulty_script_is_refused_with_its_line(rt: HostRuntime) -> Result<(), Fail> {
    let alloc = rt.alloc();
    let rows = [
        (b"0 names".as_slice(), b"script BadNumber 1\n".as_slice()),
        (
            b"17 names".as_slice(),
            b"script TooManySessions 1\n".as_slice(),
        ),
        (b"1 put a".as_slice(), b"script NoEnd 1\n".as_slice()),
        (b"1 get ../a".as_slice(), b"script BadName 1\n".as_slice()),
        (
            b"1 names\n\n1 fly\n".as_slice(),
            b"script BadCommand 3\n".as_slice(),
        ),
    ];
    for (script, output) in rows {
        let (status, is_output) = run_over(alloc, script, output)?;
        assert_eq!(rt; status, Status::Script, "{script:?}");
        assert!(rt; is_output, "{script:?}");
    }
    Ok(())
}

#[test]
fn a_full_sink_has_the_beginning(rt: HostRuntime) -> Result<(), Fail> {
    let alloc = rt.alloc();
    let mut sink = MemSink::with_room(alloc, 20);
    let mut outlet = SureOutlet::new(alloc);
    let status = run_clean(alloc, &mut source(alloc, SCRIPT)?, &mut sink, &mut outlet);
    assert_eq!(rt; status, Status::WriteFault);
    assert!(rt; sink.bytes().as_slice() == b"dita transcript 1\nen".as_slice());
    Ok(())
}

#[test]
fn a_failed_source_leaves_nothing_written(rt: HostRuntime) -> Result<(), Fail> {
    let alloc = rt.alloc();
    let mut source = MemSource::new(List::from_slice(alloc, SCRIPT)?, calls(alloc, &[1])?);
    let mut sink = SureSink::new(alloc);
    let mut outlet = SureOutlet::new(alloc);
    let status = run_clean(alloc, &mut source, &mut sink, &mut outlet);
    assert_eq!(rt; status, Status::ReadFault);
    assert!(rt; sink.bytes().is_empty());
    assert!(rt; outlet.pages().is_empty());
    Ok(())
}

#[test]
fn a_failed_outlet_has_the_pages_before(rt: HostRuntime) -> Result<(), Fail> {
    let alloc = rt.alloc();
    let mut sink = SureSink::new(alloc);
    let mut outlet = MemOutlet::new(alloc, calls(alloc, &[2])?);
    let status = run_clean(alloc, &mut source(alloc, SCRIPT)?, &mut sink, &mut outlet);
    assert_eq!(rt; status, Status::OutletFault);
    assert!(rt; sink.bytes().is_empty());
    assert_eq!(rt; outlet.pages().len(), 1);
    let page = outlet.pages().as_slice().first().ok_or("no page")?;
    assert!(rt; page.0.as_str() == "b3/t.html");
    Ok(())
}

// The status of the program over words that are separated by spaces, and what it wrote.
fn run_words<R: Threads + Wait + Sync>(
    rt: &R,
    alloc: Global,
    line: &str,
    script: &[u8],
) -> Result<(Status, List<u8>), Fail> {
    let mut words = Vec::new(alloc);
    for word in line.split(' ') {
        words.push(String::from_str(alloc, word)?)?;
    }
    let mut sink = SureSink::new(alloc);
    let mut outlet = SureOutlet::new(alloc);
    let mut source = source(alloc, script)?;
    let mut door = MemDoor::new(List::new(alloc), List::new(alloc));
    let status = desk_top(
        rt,
        alloc,
        &words,
        &mut source,
        &mut sink,
        &mut outlet,
        &mut door,
        &NoGate,
    );
    Ok((status, List::from_slice(alloc, sink.bytes().as_slice())?))
}

#[test]
fn words_that_are_not_read_touch_nothing(rt: HostRuntime) -> Result<(), Fail> {
    let alloc = rt.alloc();
    for line in ["dita_desk fly", "dita_desk clean --topics 1"] {
        let (status, written) = run_words(&rt, alloc, line, SCRIPT)?;
        assert_eq!(rt; status, Status::Words, "{line}");
        assert!(rt; written.is_empty(), "{line}");
    }
    Ok(())
}

#[test]
fn options_of_other_modes_are_read(rt: HostRuntime) -> Result<(), Fail> {
    let alloc = rt.alloc();
    for line in ["dita_desk clean --topics 2", "dita_desk terms --topics 2"] {
        let (status, written) = run_words(&rt, alloc, line, b"")?;
        assert_eq!(rt; status, Status::Done, "{line}");
        assert!(rt;
            written.as_slice() == b"dita transcript 1\nend 0 0 0\n".as_slice(),
            "{line}"
        );
    }
    Ok(())
}
