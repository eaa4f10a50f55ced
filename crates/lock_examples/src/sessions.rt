//! Sessions over links in memory, in a language in which each document is a page. What is expected
//! is derived from the rules by hand.

use crate::line_language::{LineMakers, LineParts};
use desk_core::{Book, Limits};
use desk_lock::Desk;
use desk_session::{SessionEnd, serve_link};
use dita_doc::List;
use dita_outside::{MemLink, NoGate};
use script_text::{ScriptCode, ScriptFault};
use std::alloc::{AllocError, Global};
use std::sync::Wait;
use std::test::Fail;
use std::thread::Threads;
use version_store::Full;

// How a session ended, and the messages that it sent, each with a line `--` behind it.
#[derive(Drop)]
struct Served {
    end: SessionEnd,
    sent: List<u8>,
}

// A put is cut in its body.
#[test]
fn a_put_comes_in_two_messages(rt: HostRuntime) -> Result<(), Fail> {
    let alloc = rt.alloc();
    let messages = two(alloc, b"put t.dita\n(p\n", b")p\n.\n")?;
    let served = serve(&rt, alloc, Limits::standard(), messages, List::new(alloc))?;
    assert_eq!(rt; served.end, SessionEnd::Closed);
    assert!(rt; is_sent(&served, b"entry 0 1 1 stored 1\n--\n"));
    Ok(())
}

// The plan has the first serial, then come the page and the contents page.
#[test]
fn a_build_tells_its_rows(rt: HostRuntime) -> Result<(), Fail> {
    let alloc = rt.alloc();
    let messages = two(alloc, b"put d0\n(p\n)p\n.\nbuild d0", b"\nnames\n")?;
    let served = serve(&rt, alloc, Limits::standard(), messages, List::new(alloc))?;
    assert_eq!(rt; served.end, SessionEnd::Closed);
    let expected = b"entry 0 1 1 stored 1\n--\n\
        entry 1 1 2 built 2 0\n|page d0 row 2\n|page index.html row 3\n--\n\
        row 2 page d0 - 0 1\n|page\n--\n\
        row 3 contents d0 - 0 1\n|page\n--\n\
        entry 2 1 3 names 1\n|d0 1\n--\n";
    assert!(rt; is_sent(&served, expected));
    Ok(())
}

// A refusal does not end the session. The request behind the faulty line is not read.
#[test]
fn a_fault_is_told_behind_the_requests_before_it(rt: HostRuntime) -> Result<(), Fail> {
    let alloc = rt.alloc();
    let messages = two(alloc, b"remove a\nget a\nfly\nremove b\n", b"remove c\n")?;
    let served = serve(&rt, alloc, Limits::standard(), messages, List::new(alloc))?;
    let fault = ScriptFault {
        code: ScriptCode::BadCommand,
        line: 3,
    };
    assert_eq!(rt; served.end, SessionEnd::Script(fault));
    let expected = b"entry 0 1 1 absent\n--\nentry 1 1 2 absent\n--\nscript BadCommand 3\n--\n";
    assert!(rt; is_sent(&served, expected));
    Ok(())
}

#[test]
fn a_full_desk_is_told(rt: HostRuntime) -> Result<(), Fail> {
    let alloc = rt.alloc();
    let limits = Limits {
        entries: 1,
        ..Limits::standard()
    };
    let messages = two(alloc, b"remove a\nrem", b"ove a\n")?;
    let served = serve(&rt, alloc, limits, messages, List::new(alloc))?;
    let full = Full {
        entries: 1,
        bytes: 1,
    };
    assert_eq!(rt; served.end, SessionEnd::Full(full));
    assert!(rt; is_sent(&served, b"entry 0 1 1 absent\n--\nfull 1 1\n--\n"));
    Ok(())
}

// The call 1 of the link receives, and the call 2 sends.
#[test]
fn a_link_that_fails_ends_the_session(rt: HostRuntime) -> Result<(), Fail> {
    let alloc = rt.alloc();
    let messages = two(alloc, b"remove a\n", b"remove b\n")?;
    let mut failing = List::new(alloc);
    failing.push(2)?;
    let served = serve(&rt, alloc, Limits::standard(), messages, failing)?;
    assert_eq!(rt; served.end, SessionEnd::LinkFault);
    assert!(rt; served.sent.is_empty());
    Ok(())
}

#[test]
fn a_put_without_its_end_is_not_answered(rt: HostRuntime) -> Result<(), Fail> {
    let alloc = rt.alloc();
    let messages = two(alloc, b"names\nput a\n(p\n", b")p\n")?;
    let served = serve(&rt, alloc, Limits::standard(), messages, List::new(alloc))?;
    assert_eq!(rt; served.end, SessionEnd::Closed);
    assert!(rt; is_sent(&served, b"entry 0 1 1 names 0\n--\n"));
    Ok(())
}

// Serves these messages as session 1 of a new desk, with one worker.
fn serve<R: Threads + Wait + Sync>(
    rt: &R,
    alloc: Global,
    limits: Limits,
    messages: List<List<u8>>,
    failing: List<u32>,
) -> Result<Served, AllocError> {
    let Ok((desk, mut pass)) = Desk::<Book<LineParts>>::start(alloc, limits) else {
        return Err(AllocError);
    };
    let mut session = desk.session(&mut pass, 1);
    let mut link = MemLink::new(alloc, messages, failing);
    let end = serve_link::<R, LineParts, LineMakers, MemLink, NoGate>(
        rt,
        alloc,
        &desk,
        &mut session,
        &mut link,
        &NoGate,
        1,
    );
    desk.end_session(&mut pass, session);
    desk.close(rt, pass);
    let sent = sent_on(alloc, &link)?;
    Ok(Served { end, sent })
}

fn sent_on(alloc: Global, link: &MemLink) -> Result<List<u8>, AllocError> {
    let mut sent = List::new(alloc);
    for message in link.sent().as_slice() {
        sent.append(message.as_slice())?;
        sent.append(b"--\n")?;
    }
    Ok(sent)
}

fn is_sent(served: &Served, expected: &[u8]) -> bool {
    served.sent.as_slice() == expected
}

fn two(alloc: Global, first: &[u8], second: &[u8]) -> Result<List<List<u8>>, AllocError> {
    let mut messages = List::new(alloc);
    messages.push(List::from_slice(alloc, first)?)?;
    messages.push(List::from_slice(alloc, second)?)?;
    Ok(messages)
}
