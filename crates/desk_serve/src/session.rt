//! A session: its connection is served in a thread of its own, or by the caller.

ghost use Rattle.std.specs.Prelude.{◌≡◌, ◌≤◌, ◌<◌};
ghost use Rattle.desk_lock.specs.Tokens as tokens_spec;
ghost use Rattle.desk_session.specs.Answers as answers_spec;
ghost use Rattle.desk_serve.specs.Running as spec;

use crate::builds::Builds;
use desk_core::Book;
use desk_lock::{Desk, Pass};
use desk_session::{SessionEnd, serve_link};
use desk_work::Makers;
use dita_outside::{Gate, Link};
use facts::Parts;
use std::alloc::Global;
use std::marker::PhantomData;
use std::snapshot::Snapshot;
use std::sync::Wait;
use std::thread::{Promise, PromisedHandle, Scope, Threads};

/// A session that has ended, and its connection.
#[derive(Drop)]
pub(crate) struct Ended<P: Parts, L> {
    pub pass: Pass<Book<P>>,
    pub link: L,
    pub end: SessionEnd,
}

/// What its pass and its connection are served from, at which desk.
#[derive(Drop)]
pub(crate) struct Begun<P: Parts, B, L> {
    pub desk: Snapshot<Desk<Book<P>>>,
    pub pass: Snapshot<Pass<Book<P>>>,
    pub link: Snapshot<L>,
    builds: PhantomData<B>,
}

impl<P: Parts, B: Builds, L: Link> Promise<Ended<P, L>> for Begun<P, B, L> {
    ghost use Rattle.desk_serve.specs.HasServed as promise_spec;

    ghost kept_by = { λ begun ended. promise_spec.HasServed B.clean L.told begun.desk.value
        begun.pass.value begun.link.value ended.pass ended.link ended.end };
}

/// A session that was begun: it runs in a thread, or the caller has served it.
#[derive(Drop)]
pub(crate) enum Running<P: Parts, B: Builds, L: Link> {
    There(PromisedHandle<Ended<P, L>, Begun<P, B, L>>),
    Here(Begun<P, B, L>, Ended<P, L>),
}

impl<P: Parts, B: Builds, L: Link> Running<P, B, L> {
    /// Begins the session of this pass over a connection. If no thread is given, it is over then.
    pub fn begin<'e, 's, R: Threads + Wait + Sync, M: Makers<P>, G: Gate + Sync>(
        scope: &'s Scope<'s, &'e ()>,
        rt: &'e R,
        alloc: Global,
        desk: &'e Desk<Book<P>>,
        pass: Pass<Book<P>>,
        link: L,
        gate: &'e G,
        workers: u32,
    ) -> Running<P, B, L>
    where
        P: Send + Sync + 's,
        M: 's,
        B: 's,
        L: Send + Drop + 's,
        requires pass { tokens_spec.IsPassOf desk.now pass }
        requires parts { 17 < (tokens_spec.pass_view pass).parts }
        requires few { 1 ≤ workers }
        requires many { workers ≤ 16 }
        requires pages { answers_spec.PagesEndWithLine B.clean }
        requires same { B.clean ≡ M.language.clean }
        ensures { spec.IsBegun B.clean L.told desk.now pass link result }
    {
        let begun = Begun::of(desk, &pass, &link);
        let again = Begun::of(desk, &pass, &link);
        let work = move || -> Ended<P, L>
            requires { tokens_spec.IsPassOf desk.now pass × (17 < (tokens_spec.pass_view pass).parts)
                × (1 ≤ workers) × (workers ≤ 16) × answers_spec.PagesEndWithLine B.clean
                × (B.clean ≡ M.language.clean) }
            ensures { spec.HasServed B.clean L.told desk.entry.now pass link
                result.pass result.link result.end }
        { serve::<R, P, M, B, L, G>(rt, alloc, desk, pass, link, gate, workers) };
        match scope.spawn_with(begun, work) {
            Ok(handle) => Running::There(handle),
            Err(refused) => Running::Here(again, (refused.value)()),
        }
    }

    /// The session, once it has ended.
    pub fn ended<R: Threads>(self, rt: &R) -> Ended<P, L>
        requires { spec.IsKept B.clean L.told self }
        ensures { spec.IsServedAs B.clean L.told (spec.begun_of self) result }
    {
        match self {
            Running::There(handle) => handle.join(rt),
            Running::Here(_, ended) => ended,
        }
    }
}

impl<P: Parts, B, L> Begun<P, B, L> {
    fn of(desk: &Desk<Book<P>>, pass: &Pass<Book<P>>, link: &L) -> Begun<P, B, L>
        ensures desk { result.desk.value ≡ desk.now }
        ensures pass { result.pass.value ≡ pass.now }
        ensures link { result.link.value ≡ link.now }
    {
        Begun {
            desk: Snapshot::of(desk),
            pass: Snapshot::of(pass),
            link: Snapshot::of(link),
            builds: PhantomData,
        }
    }
}

fn serve<
    R: Threads + Wait + Sync,
    P: Parts + Send + Sync,
    M: Makers<P>,
    B: Builds,
    L: Link,
    G: Gate + Sync,
>(
    rt: &R,
    alloc: Global,
    desk: &Desk<Book<P>>,
    pass: Pass<Book<P>>,
    link: L,
    gate: &G,
    workers: u32,
) -> Ended<P, L>
    requires pass { tokens_spec.IsPassOf desk.now pass }
    requires parts { 17 < (tokens_spec.pass_view pass).parts }
    requires few { 1 ≤ workers }
    requires many { workers ≤ 16 }
    requires pages { answers_spec.PagesEndWithLine B.clean }
    requires same { B.clean ≡ M.language.clean }
    ensures { spec.HasServed B.clean L.told desk.now pass link result.pass result.link
        result.end }
{
    let mut pass = pass;
    let mut link = link;
    let end = serve_link::<R, P, M, L, G>(rt, alloc, desk, &mut pass, &mut link, gate, workers);
    Ended { pass, link, end }
}
