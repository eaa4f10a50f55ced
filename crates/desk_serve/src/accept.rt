//! Connections are accepted, and each is served as it comes.

ghost use Rattle.std.specs.Prelude.{◌≡◌, ◌≤◌};
ghost use Rattle.desk_session.specs.Answers as answers_spec;
ghost use Rattle.desk_serve.specs.Accepting as spec;

use crate::builds::Builds;
use crate::session::Running;
use desk_core::Book;
use desk_lock::{Desk, Pass};
use desk_work::Makers;
use dita_doc::Stop;
use dita_outside::{Door, Failed, Gate, Link};
use facts::Parts;
use std::alloc::Global;
use std::sync::Wait;
use std::thread;
use std::thread::{Scope, Threads};

/// The first pass of a desk, and the sessions that were begun, in order.
#[derive(Drop)]
pub(crate) struct Accepted<P: Parts, B: Builds, L: Link> {
    pub pass: Pass<Book<P>>,
    pub running: Vec<Running<P, B, L>>,
}

/// Accepts so many connections, for which there is room, and begins a session for each. All sessions
/// that were begun have ended when it returns. If the door fails, or finds no memory, no more are
/// accepted.
pub(crate) fn accept_all<
    R: Threads + Wait + Sync,
    P: Parts + Send + Sync,
    M: Makers<P>,
    B: Builds,
    D: Door,
    G: Gate + Sync,
>(
    rt: &R,
    alloc: Global,
    desk: &Desk<Book<P>>,
    first: Accepted<P, B, D::Connection>,
    door: &mut D,
    gate: &G,
    workers: u32,
    connections: u32,
) -> (Accepted<P, B, D::Connection>, Result<(), Stop<Failed>>)
    requires starts { spec.MayAccept connections desk.now first }
    requires few { 1 ≤ workers }
    requires many { workers ≤ 16 }
    requires pages { answers_spec.PagesEndWithLine B.clean }
    requires same { B.clean ≡ M.language.clean }
    ensures { spec.AcceptsAll B.clean D.Connection.told connections desk.now
        (D.told door.old) (D.told door.new) result.0 result.1 }
{
    let (accepted, stopped, door) = thread::scope(
        thread::scope_env(),
        rt,
        move |scope| -> (
            Accepted<P, B, D::Connection>,
            Result<(), Stop<Failed>>,
            &mut D,
        )
            requires { spec.MayAccept connections desk.now first × (1 ≤ workers) × (workers ≤ 16)
                × answers_spec.PagesEndWithLine B.clean × (B.clean ≡ M.language.clean) }
            ensures { spec.AcceptsAll B.clean D.Connection.told connections
                desk.entry.now (D.told door.entry.now) (D.told result.2.now) result.0 result.1
                × (result.2.ghost_name ≡ door.entry.ghost_name) }
        {
            let mut accepted = first;
            let stopped = accept_in::<R, P, M, B, D, G>(
                scope,
                rt,
                alloc,
                desk,
                &mut accepted,
                door,
                gate,
                workers,
                connections,
            );
            (accepted, stopped, door)
        },
    );
    take_back(door);
    (accepted, stopped)
}

// Behind this use of it a door is known to be the one that was lent.
fn take_back<D>(door: &mut D)
    ensures { door.new ≡ door.old }
{}

// Accepts connections, whose sessions run in threads of a scope.
fn accept_in<
    'e,
    's,
    R: Threads + Wait + Sync,
    P: Parts + Send + Sync + 's,
    M: Makers<P> + 's,
    B: Builds + 's,
    D: Door + 's,
    G: Gate + Sync,
>(
    scope: &'s Scope<'s, &'e ()>,
    rt: &'e R,
    alloc: Global,
    desk: &'e Desk<Book<P>>,
    accepted: &mut Accepted<P, B, D::Connection>,
    door: &mut D,
    gate: &'e G,
    workers: u32,
    connections: u32,
) -> Result<(), Stop<Failed>>
    requires starts { spec.MayAccept connections desk.now accepted.old }
    requires few { 1 ≤ workers }
    requires many { workers ≤ 16 }
    requires pages { answers_spec.PagesEndWithLine B.clean }
    requires same { B.clean ≡ M.language.clean }
    ensures { spec.AcceptsAll B.clean D.Connection.told connections desk.now
        (D.told door.old) (D.told door.new) accepted.new result }
{
    for before in 0..connections {
        let link = door.accept(alloc)?;
        let pass = desk.session(&mut accepted.pass, before + 1);
        let session = Running::<P, B, D::Connection>::begin::<R, M, G>(
            scope, rt, alloc, desk, pass, link, gate, workers,
        );
        accepted.running.push_reserved(session);
    }
    Ok(())
}
