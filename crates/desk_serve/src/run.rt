//! The run of the mode `serve`.

ghost use Rattle.std.specs.Prelude.{◌≡◌, ◌≤◌, IfOk};
ghost use Rattle.run_spec.specs.EndsServe as ends_spec;
ghost use Rattle.desk_session.specs.Answers as answers_spec;
ghost use Rattle.desk_session.specs.Serving as serving_spec;
ghost use Rattle.desk_serve.specs.Accepting as accepting_spec;
ghost use Rattle.desk_serve.specs.Ends as spec;

use crate::accept::{Accepted, accept_all};
use crate::builds::{Builds, BuildsOf};
use crate::end::end_all;
use crate::tell::tell;
use desk_core::{Book, Limits};
use desk_lock::Desk;
use desk_work::Makers;
use dita_doc::{NoMemory, Stop};
use dita_outside::{Door, Failed, Gate, Link, Sink};
use facts::Parts;
use run_spec::Status;
use std::alloc::Global;
use std::sync::Wait;
use std::thread::Threads;

/// Listens at the port, and accepts so many connections. Each is the next session from 1 of one desk,
/// and is served as it comes, beside the others; so many workers make the parts of each build, and
/// makers of parts pass the gate. When all sessions have ended, the connections are handed back to
/// the door in the order in which they came, and then the sink is told how many there were, and how
/// many entries the history has.
///
/// If no thread is given for a session, the caller serves it before it accepts the next connection.
pub fn run_serve<
    R: Threads + Wait + Sync,
    P: Parts + Send + Sync,
    M: Makers<P>,
    K: Sink,
    D: Door,
    G: Gate + Sync,
>(
    rt: &R,
    alloc: Global,
    port: u16,
    connections: u32,
    workers: u32,
    sink: &mut K,
    door: &mut D,
    gate: &G,
) -> Status
    requires some { 1 ≤ connections }
    requires most { connections ≤ 1024 }
    requires few { 1 ≤ workers }
    requires many { workers ≤ 16 }
    requires pages { answers_spec.PagesEndWithLine M.language.clean }
    ensures { ends_spec.EndsServe (serving_spec.serves M.language.clean)
        (serving_spec.breaks M.language.clean) connections
        (spec.ports K.taken K.faults D.told sink.old door.old)
        (spec.ports K.taken K.faults D.told sink.new door.new) result }
{
    match serve_all::<R, P, M, BuildsOf<P, M>, D, G>(
        rt,
        alloc,
        port,
        connections,
        workers,
        door,
        gate,
    ) {
        Ok(entries) => tell(alloc, sink, connections, entries),
        Err(Stop::Fault(Failed)) => Status::Port,
        Err(Stop::NoMemory) => Status::NoMemory,
    }
}

// Listens, serves all connections, and counts the entries of the history.
fn serve_all<
    R: Threads + Wait + Sync,
    P: Parts + Send + Sync,
    M: Makers<P>,
    B: Builds,
    D: Door,
    G: Gate + Sync,
>(
    rt: &R,
    alloc: Global,
    port: u16,
    connections: u32,
    workers: u32,
    door: &mut D,
    gate: &G,
) -> Result<u64, Stop<Failed>>
    requires some { 1 ≤ connections }
    requires most { connections ≤ 1024 }
    requires few { 1 ≤ workers }
    requires many { workers ≤ 16 }
    requires pages { answers_spec.PagesEndWithLine B.clean }
    requires same { B.clean ≡ M.language.clean }
    ensures { spec.ServesConnections B.clean connections (D.told door.old)
        (D.told door.new) result }
{
    if let Err(failed) = door.listen(port) {
        return Err(Stop::Fault(failed));
    }
    match opened::<P, B, D::Connection>(alloc, connections) {
        Ok((desk, first)) => serve_at::<R, P, M, B, D, G>(
            rt,
            alloc,
            desk,
            first,
            connections,
            workers,
            door,
            gate,
        ),
        Err(NoMemory) => Err(Stop::NoMemory),
    }
}

// A desk at which nothing was asked, and its first pass, with room for so many sessions.
fn opened<P: Parts, B: Builds, L: Link>(
    alloc: Global,
    connections: u32,
) -> Result<(Desk<Book<P>>, Accepted<P, B, L>), NoMemory>
    requires { connections ≤ 1024 }
    ensures { IfOk result (λ opened. accepting_spec.MayAccept connections opened.0 opened.1) }
{
    let (desk, pass) = Desk::start(alloc, Limits::standard())?;
    let running = Vec::with_capacity(alloc, connections as usize)?;
    Ok((desk, Accepted { pass, running }))
}

// The same at a door that listens.
fn serve_at<
    R: Threads + Wait + Sync,
    P: Parts + Send + Sync,
    M: Makers<P>,
    B: Builds,
    D: Door,
    G: Gate + Sync,
>(
    rt: &R,
    alloc: Global,
    desk: Desk<Book<P>>,
    first: Accepted<P, B, D::Connection>,
    connections: u32,
    workers: u32,
    door: &mut D,
    gate: &G,
) -> Result<u64, Stop<Failed>>
    requires starts { accepting_spec.MayAccept connections desk first }
    requires few { 1 ≤ workers }
    requires many { workers ≤ 16 }
    requires pages { answers_spec.PagesEndWithLine B.clean }
    requires same { B.clean ≡ M.language.clean }
    ensures { spec.ServesConnections B.clean connections (D.told door.old)
        (D.told door.new) result }
{
    let (accepted, stopped) = accept_all::<R, P, M, B, D, G>(
        rt,
        alloc,
        &desk,
        first,
        door,
        gate,
        workers,
        connections,
    );
    let Accepted { mut pass, running } = accepted;
    let lost = end_all::<R, P, B, D>(rt, &desk, &mut pass, running, door);
    let book = desk.close(rt, pass);
    answer(book.store().entries(), lost, stopped)
}

// What is answered of a history with so many entries, by whether a session ended out of memory, and
// why no more connections were accepted.
fn answer(entries: u64, lost: bool, stopped: Result<(), Stop<Failed>>) -> Result<u64, Stop<Failed>>
    ensures { result ≡ spec.answer_of entries lost stopped }
{
    if lost {
        return Err(Stop::NoMemory);
    }
    match stopped {
        Ok(()) => Ok(entries),
        Err(stop) => Err(stop),
    }
}
