//! A session over a link, from its first message to its end.

ghost use Rattle.std.specs.Prelude.{◌≡◌, ◌<◌, ◌≤◌, All, IfErr, IfOk, map};
ghost use Rattle.desk_lock.specs.Tokens as tokens_spec;
ghost use Rattle.dita_doc.specs.Seen as seen_spec;
ghost use Rattle.script_text.specs.Pieces as pieces_spec;
ghost use Rattle.desk_session.specs.Answers as answers_spec;
ghost use Rattle.desk_session.specs.Pass as pass_spec;
ghost use Rattle.desk_session.specs.SoFar as spec;
ghost use Rattle.desk_session.specs.declared.end.SessionEnd.TheVariants as ends;

use crate::ask::ask;
use crate::end::SessionEnd;
use crate::say::{say_answer, say_fault, say_full};
use desk_core::Book;
use desk_lock::{Desk, Pass};
use desk_work::Makers;
use dita_doc::{List, NoMemory, Request, Stop};
use dita_outside::{Gate, Link};
use facts::Parts;
use script_text::RequestReader;
use std::alloc::Global;
use std::sync::Wait;
use std::thread::Threads;

// The most bytes that may be received in messages that make no request whole: no desk has room for
// more.
const MOST_WAITING: usize = 67_108_864;

// How far a session has read: the number of the last request that was answered, and how many bytes
// came in messages behind the one that made the last request whole.
#[derive(Drop)]
pub(crate) struct Reading {
    pub reader: RequestReader,
    pub number: u32,
    pub waiting: usize,
}

/// Serves a session over a link: each request that is received whole is put at the desk under the
/// pass's session and the next number from 1, and is answered by messages. So many workers make the
/// parts of each build.
///
/// Out of memory also if more bytes are received in messages that make no request whole than a desk
/// has room for; if there is no number left for a request; and if a reply has bytes that are not
/// UTF-8, or a page no HTML, of which there is no text.
pub fn serve_link<
    R: Threads + Wait + Sync,
    P: Parts + Send + Sync,
    M: Makers<P>,
    L: Link,
    G: Gate + Sync,
>(
    rt: &R,
    alloc: Global,
    desk: &Desk<Book<P>>,
    pass: &mut Pass<Book<P>>,
    link: &mut L,
    gate: &G,
    workers: u32,
) -> SessionEnd
    requires pass { tokens_spec.IsPassOf desk.now pass.old }
    requires parts { 17 < (tokens_spec.pass_view pass.old).parts }
    requires few { 1 ≤ workers }
    requires many { workers ≤ 16 }
    requires pages { answers_spec.PagesEndWithLine M.language.clean }
    ensures pass { tokens_spec.IsPassOf desk.now pass.new }
    ensures served { pass_spec.ServesPass M.language.clean (tokens_spec.pass_view pass.old)
        (tokens_spec.pass_view pass.new) (L.told link.old) (L.told link.new) result }
{
    match RequestReader::new(alloc) {
        Ok(reader) => {
            let mut reading = Reading {
                reader,
                number: 0,
                waiting: 0,
            };
            serve::<R, P, M, L, G>(rt, alloc, desk, pass, link, gate, workers, &mut reading)
        }
        Err(NoMemory) => SessionEnd::NoMemory,
    }
}

// Takes messages until the session ends.
fn serve<R: Threads + Wait + Sync, P: Parts + Send + Sync, M: Makers<P>, L: Link, G: Gate + Sync>(
    rt: &R,
    alloc: Global,
    desk: &Desk<Book<P>>,
    pass: &mut Pass<Book<P>>,
    link: &mut L,
    gate: &G,
    workers: u32,
    reading: &mut Reading,
) -> SessionEnd
    requires pass { tokens_spec.IsPassOf desk.now pass.old }
    requires parts { 17 < (tokens_spec.pass_view pass.old).parts }
    requires few { 1 ≤ workers }
    requires many { workers ≤ 16 }
    requires pages { answers_spec.PagesEndWithLine M.language.clean }
    ensures pass { tokens_spec.IsPassOf desk.now pass.new }
    ensures goes { spec.GoesToEnd M.language.clean (tokens_spec.pass_view pass.old)
        (L.told link.old) reading.old result (tokens_spec.pass_view pass.new) (L.told link.new) }
{
    for _ in rt.forever() {
        if let Err(end) = turn::<R, P, M, L, G>(
            rt, alloc, desk, pass, link, gate, workers, reading,
        ) {
            return end;
        }
    }
    unreachable!()
}

// Takes one message.
fn turn<R: Threads + Wait + Sync, P: Parts + Send + Sync, M: Makers<P>, L: Link, G: Gate + Sync>(
    rt: &R,
    alloc: Global,
    desk: &Desk<Book<P>>,
    pass: &mut Pass<Book<P>>,
    link: &mut L,
    gate: &G,
    workers: u32,
    reading: &mut Reading,
) -> Result<(), SessionEnd>
    requires pass { tokens_spec.IsPassOf desk.now pass.old }
    requires parts { 17 < (tokens_spec.pass_view pass.old).parts }
    requires few { 1 ≤ workers }
    requires many { workers ≤ 16 }
    requires pages { answers_spec.PagesEndWithLine M.language.clean }
    ensures pass { tokens_spec.IsPassOf desk.now pass.new }
    ensures parts { (tokens_spec.pass_view pass.new).parts
        ≡ (tokens_spec.pass_view pass.old).parts }
    ensures turns { spec.Turns M.language.clean (tokens_spec.pass_view pass.old)
        (L.told link.old) reading.old result (tokens_spec.pass_view pass.new) (L.told link.new)
        reading.new }
{
    match link.receive(alloc)? {
        Some(message) => {
            let message = message.as_slice();
            take::<R, P, M, L, G>(rt, alloc, desk, pass, link, gate, workers, reading, message)
        }
        None => Err(SessionEnd::Closed),
    }
}

// Reads a message and answers each request that is whole by it. Then no line is faulty that was
// read.
fn take<R: Threads + Wait + Sync, P: Parts + Send + Sync, M: Makers<P>, L: Link, G: Gate + Sync>(
    rt: &R,
    alloc: Global,
    desk: &Desk<Book<P>>,
    pass: &mut Pass<Book<P>>,
    link: &mut L,
    gate: &G,
    workers: u32,
    reading: &mut Reading,
    message: &[u8],
) -> Result<(), SessionEnd>
    requires pass { tokens_spec.IsPassOf desk.now pass.old }
    requires parts { 17 < (tokens_spec.pass_view pass.old).parts }
    requires few { 1 ≤ workers }
    requires many { workers ≤ 16 }
    requires pages { answers_spec.PagesEndWithLine M.language.clean }
    ensures pass { tokens_spec.IsPassOf desk.now pass.new }
    ensures parts { (tokens_spec.pass_view pass.new).parts
        ≡ (tokens_spec.pass_view pass.old).parts }
    ensures takes { spec.Takes M.language.clean message.now (tokens_spec.pass_view pass.old)
        (L.told link.old) reading.old result (tokens_spec.pass_view pass.new) (L.told link.new)
        reading.new }
{
    let requests = read(alloc, link, &mut reading.reader, message)?;
    reading.waiting = waiting_behind(reading.waiting, message, &requests)?;
    answer_all::<R, P, M, L, G>(
        rt, alloc, desk, pass, link, gate, workers, reading, requests,
    )?;
    read(alloc, link, &mut reading.reader, &[])?;
    Ok(())
}

// The requests that are whole by a piece. If there is none, a fault is told.
fn read<L: Link>(
    alloc: Global,
    link: &mut L,
    reader: &mut RequestReader,
    piece: &[u8],
) -> Result<List<Request>, SessionEnd>
    ensures reads { spec.Reads reader.old piece.now result reader.new
        (L.told link.old) (L.told link.new) }
    ensures taken { IfOk result (All pieces_spec.IsTaken) }
{
    match reader.feed(alloc, piece) {
        Ok(requests) => Ok(requests),
        Err(Stop::Fault(fault)) => {
            say_fault(alloc, link, fault)?;
            Err(SessionEnd::Script(fault))
        }
        Err(Stop::NoMemory) => Err(SessionEnd::NoMemory),
    }
}

// How many bytes came in messages that made no request whole, behind a message that made these whole.
fn waiting_behind(
    waiting: usize,
    message: &[u8],
    requests: &List<Request>,
) -> Result<usize, SessionEnd>
    ensures { IfErr result (λ end. end ≡ ends.NoMemory) }
{
    if !requests.is_empty() {
        return Ok(0);
    }
    let waiting = waiting.saturating_add(message.len());
    if waiting > MOST_WAITING {
        return Err(SessionEnd::NoMemory);
    }
    Ok(waiting)
}

// Answers requests in order.
fn answer_all<
    R: Threads + Wait + Sync,
    P: Parts + Send + Sync,
    M: Makers<P>,
    L: Link,
    G: Gate + Sync,
>(
    rt: &R,
    alloc: Global,
    desk: &Desk<Book<P>>,
    pass: &mut Pass<Book<P>>,
    link: &mut L,
    gate: &G,
    workers: u32,
    reading: &mut Reading,
    requests: List<Request>,
) -> Result<(), SessionEnd>
    requires pass { tokens_spec.IsPassOf desk.now pass.old }
    requires parts { 17 < (tokens_spec.pass_view pass.old).parts }
    requires few { 1 ≤ workers }
    requires many { workers ≤ 16 }
    requires pages { answers_spec.PagesEndWithLine M.language.clean }
    requires taken { All pieces_spec.IsTaken requests }
    ensures pass { tokens_spec.IsPassOf desk.now pass.new }
    ensures parts { (tokens_spec.pass_view pass.new).parts
        ≡ (tokens_spec.pass_view pass.old).parts }
    ensures answers { spec.AnswersAll M.language.clean (map seen_spec.request_seen requests)
        (tokens_spec.pass_view pass.old) (L.told link.old) reading.old result
        (tokens_spec.pass_view pass.new) (L.told link.new) reading.new }
{
    for request in requests.into_vec() {
        answer::<R, P, M, L, G>(rt, alloc, desk, pass, link, gate, workers, reading, request)?;
    }
    Ok(())
}

// Answers a request, under the next number.
fn answer<R: Threads + Wait + Sync, P: Parts + Send + Sync, M: Makers<P>, L: Link, G: Gate + Sync>(
    rt: &R,
    alloc: Global,
    desk: &Desk<Book<P>>,
    pass: &mut Pass<Book<P>>,
    link: &mut L,
    gate: &G,
    workers: u32,
    reading: &mut Reading,
    request: Request,
) -> Result<(), SessionEnd>
    requires pass { tokens_spec.IsPassOf desk.now pass.old }
    requires parts { 17 < (tokens_spec.pass_view pass.old).parts }
    requires few { 1 ≤ workers }
    requires many { workers ≤ 16 }
    requires pages { answers_spec.PagesEndWithLine M.language.clean }
    requires taken { pieces_spec.IsTaken request }
    ensures pass { tokens_spec.IsPassOf desk.now pass.new }
    ensures parts { (tokens_spec.pass_view pass.new).parts
        ≡ (tokens_spec.pass_view pass.old).parts }
    ensures answers { spec.AnswersOne M.language.clean (seen_spec.request_seen request)
        (tokens_spec.pass_view pass.old) (L.told link.old) reading.old result
        (tokens_spec.pass_view pass.new) (L.told link.new) reading.new }
{
    let Some(number) = reading.number.checked_add(1) else {
        return Err(SessionEnd::NoMemory);
    };
    match ask::<R, P, M, G>(rt, alloc, desk, pass, number, request, gate, workers) {
        Ok(answer) => {
            say_answer(alloc, link, &answer)?;
            reading.number = number;
            Ok(())
        }
        Err(Stop::Fault(full)) => {
            say_full(alloc, link, full)?;
            Err(SessionEnd::Full(full))
        }
        Err(Stop::NoMemory) => Err(SessionEnd::NoMemory),
    }
}
