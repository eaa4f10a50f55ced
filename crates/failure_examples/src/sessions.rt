//! Sessions over a link of which each call fails in turn, in the language of maps.

ghost use Rattle.std.specs.Prelude.{◌+◌, ◌<◌, ◌≤◌};
ghost use Rattle.desk_lock.specs.Knows as knows_spec;
ghost use Rattle.desk_lock.specs.Tokens as tokens_spec;

use crate::objects::ShortLink;
use desk_core::{Book, Limits};
use desk_lock::{Desk, Pass};
use desk_session::{SessionEnd, serve_link};
use dita_doc::List;
use dita_outside::{MemLink, NoGate};
use fact_judge::MapParts;
use map_makers::MapMakers;
use std::alloc::{AllocError, Global};
use std::sync::Wait;
use std::test::Fail;
use std::thread::Threads;

// What is received in a session, and the messages that the rules have sent of it.
#[derive(Clone, Copy)]
struct Talk {
    received: &'static [&'static str],
    sent: &'static [&'static str],
}

// A put that is cut in its body.
const PUT: Talk = Talk {
    received: &["put t.dita\n(p\n", ")p\n.\n"],
    sent: &["entry 0 1 1 stored 1\n"],
};

// A map without topics is put and built. The plan has the first serial.
const BUILD: Talk = Talk {
    received: &["put m.ditamap\n(map\nAclass - map/map \n)map\n.\nbuild m.ditamap\n"],
    sent: &[
        "entry 0 1 1 stored 1\n",
        "entry 1 1 2 built 1 0\n|page index.html row 2\n",
        "row 2 contents m.ditamap - 0 5\n|<!DOCTYPE html>\n|<html><head><meta charset=\"utf-8\"><title>Contents</title></head>\n|<body>\n|<nav class=\"toc\"><h1>Contents</h1></nav>\n|</body></html>\n",
    ],
};

// How a call of a link goes wrong.
#[derive(Clone, Copy, PartialEq, Eq)]
enum Trouble {
    Fault,
    NoMemory,
}

impl Trouble {
    // The call that meets another trouble: this one if they are the same, and none else.
    fn call(self, other: Trouble, call: u32) -> u32 {
        if self == other { call } else { 0 }
    }
}

// What a session ended with: how many messages were sent, if these are the first of those that the
// rules say; how the next session at its desk ended, which builds; and how many entries the desk
// has when it is closed.
#[derive(Clone, Copy, Debug, PartialEq, Eq)]
struct Served {
    end: SessionEnd,
    sent: Option<usize>,
    next: SessionEnd,
    entries: u64,
}

impl Served {
    // A session that asked for so many entries; the next one asks for one.
    fn new(end: SessionEnd, sent: usize, entries: u64) -> Served {
        Served {
            end,
            sent: Some(sent),
            next: SessionEnd::Closed,
            entries: entries.saturating_add(1),
        }
    }

    // Whether a session was out of memory, and a beginning was sent.
    fn is_short(&self) -> bool {
        let ends = [self.end, self.next];
        ends.contains(&SessionEnd::NoMemory) && self.sent.is_some()
    }
}

// A session in which this call of its link meets this trouble. What has no memory where something
// else is expected is tried again: in a run of the tests one request for memory at most is refused.
fn tried<R: Threads + Wait + Sync>(
    rt: &R,
    alloc: Global,
    talk: Talk,
    trouble: Trouble,
    call: u32,
    expected: Served,
) -> Result<Served, AllocError> {
    match serve(rt, alloc, talk, trouble, call) {
        Ok(served) if served == expected || !served.is_short() => Ok(served),
        _ => serve(rt, alloc, talk, trouble, call),
    }
}

// A session at a new desk, and a next one, whose link fails at no call.
fn serve<R: Threads + Wait + Sync>(
    rt: &R,
    alloc: Global,
    talk: Talk,
    trouble: Trouble,
    call: u32,
) -> Result<Served, AllocError> {
    let mut link = link(alloc, talk.received, trouble, call)?;
    let mut other = self::link(alloc, &["build m.ditamap\n"], trouble, 0)?;
    let Ok((desk, mut pass)) = Desk::<Book<MapParts>>::start(alloc, Limits::standard()) else {
        return Err(AllocError);
    };
    let end = session(rt, alloc, &desk, &mut pass, 1, &mut link);
    let next = session(rt, alloc, &desk, &mut pass, 2, &mut other);
    let book = desk.close(rt, pass);
    Ok(Served {
        end,
        sent: first_messages(link.sent(), talk.sent),
        next,
        entries: book.store().entries(),
    })
}

// A session with one worker for its builds.
fn session<R: Threads + Wait + Sync>(
    rt: &R,
    alloc: Global,
    desk: &Desk<Book<MapParts>>,
    pass: &mut Pass<Book<MapParts>>,
    number: u32,
    link: &mut ShortLink,
) -> SessionEnd
    requires pass { tokens_spec.IsPassOf desk.now pass.old }
    requires parts { knows_spec.session_parts < (tokens_spec.pass_view pass.old).parts }
    ensures pass { tokens_spec.IsPassOf desk.now pass.new }
    ensures parts { (tokens_spec.pass_view pass.old).parts
        ≤ (tokens_spec.pass_view pass.new).parts + knows_spec.session_parts }
{
    let mut session = desk.session(pass, number);
    let end = serve_link::<R, MapParts, MapMakers, ShortLink, NoGate>(
        rt,
        alloc,
        desk,
        &mut session,
        link,
        &NoGate,
        1,
    );
    desk.end_session(pass, session);
    end
}

// A link on which these messages come, and of which this call meets this trouble.
fn link(
    alloc: Global,
    texts: &[&str],
    trouble: Trouble,
    call: u32,
) -> Result<ShortLink, AllocError> {
    let mut messages = List::new(alloc);
    for text in texts {
        messages.push(List::from_slice(alloc, text.as_bytes())?)?;
    }
    let mut failing = List::new(alloc);
    failing.push(trouble.call(Trouble::Fault, call))?;
    let inside = MemLink::new(alloc, messages, failing);
    Ok(ShortLink::new(inside, trouble.call(Trouble::NoMemory, call)))
}

// How many messages these are, if they are the first of the texts.
fn first_messages(messages: &List<List<u8>>, texts: &[&str]) -> Option<usize> {
    if messages.len() > texts.len() {
        return None;
    }
    for (message, text) in messages.as_slice().iter().zip(texts) {
        if message.as_slice() != text.as_bytes() {
            return None;
        }
    }
    Some(messages.len())
}

const TROUBLES: [(Trouble, SessionEnd); 2] = [
    (Trouble::Fault, SessionEnd::LinkFault),
    (Trouble::NoMemory, SessionEnd::NoMemory),
];

// The calls are two that receive, one that sends, and one that receives the end. The entry stands
// once both messages were received.
#[test]
fn a_put_is_sent_or_the_session_ends(rt: HostRuntime) -> Result<(), Fail> {
    let alloc = rt.alloc();
    for (trouble, end) in TROUBLES {
        let rows = [(1, 0, 0), (2, 0, 0), (3, 0, 1), (4, 1, 1)];
        for (call, sent, entries) in rows {
            let left = Served::new(end, sent, entries);
            assert_eq!(rt;
                tried(&rt, alloc, PUT, trouble, call, left)?,
                left,
                "{call}"
            );
        }
        let done = Served::new(SessionEnd::Closed, 1, 1);
        assert_eq!(rt; tried(&rt, alloc, PUT, trouble, 5, done)?, done);
    }
    Ok(())
}

// The calls are one that receives, three that send, and one that receives the end.
#[test]
fn a_build_is_sent_or_the_session_ends(rt: HostRuntime) -> Result<(), Fail> {
    let alloc = rt.alloc();
    for (trouble, end) in TROUBLES {
        let rows = [(1, 0, 0), (2, 0, 1), (3, 1, 2), (4, 2, 2), (5, 3, 2)];
        for (call, sent, entries) in rows {
            let left = Served::new(end, sent, entries);
            assert_eq!(rt;
                tried(&rt, alloc, BUILD, trouble, call, left)?,
                left,
                "{call}"
            );
        }
        let done = Served::new(SessionEnd::Closed, 3, 2);
        assert_eq!(rt; tried(&rt, alloc, BUILD, trouble, 6, done)?, done);
    }
    Ok(())
}
