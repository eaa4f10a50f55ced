//! A desk is started, gets entries, and is closed.

ghost use Rattle.std.specs.Prelude.{◌≡◌, IfOk, IfErr};
ghost use Rattle.std.specs.Option.{option_copied};
ghost use Rattle.dita_doc.specs.Request as request_spec;
ghost use Rattle.dita_doc.specs.Seen as doc_seen_spec;
ghost use Rattle.desk_core.specs.Seen as seen_spec;
ghost use Rattle.desk_core.specs.Steps as core_steps_spec;
ghost use Rattle.desk_lock.specs.Calls as calls_spec;
ghost use Rattle.desk_lock.specs.Closes as closes_spec;
ghost use Rattle.desk_lock.specs.Meaning as meaning_spec;
ghost use Rattle.desk_lock.specs.Tokens as tokens_spec;

use crate::desk::{Desk, Pass};
use crate::events::{ask, ask_build};
use atomic_table::{Refused, Table};
use desk_core::{Book, Limits, Snapshot};
use dita_doc::{Name, NoMemory, Reply, Request, Stop};
use facts::Parts;
use std::alloc::{AllocError, Global};
use std::sync::Wait;
use version_store::Full;

impl<P: Parts> Desk<Book<P>> {
    /// A desk at which nothing was asked, and its first pass, which has session 0 and all parts.
    pub fn start(alloc: Global, limits: Limits) -> Result<(Desk<Book<P>>, Pass<Book<P>>), NoMemory>
        ensures pass { IfOk result (λ started. tokens_spec.IsPassOf started.0 started.1) }
        ensures starts { IfOk result
            (λ started. calls_spec.Starts limits (tokens_spec.pass_view started.1)) }
    {
        let mut slots = Vec::with_capacity(alloc, 1)?;
        slots.push_reserved(Some(Book::new(alloc, limits)?));
        match Table::new(alloc, &[0], slots, &limits) {
            Ok((table, seat)) => Ok((Desk { table, alloc }, Pass { session: 0, seat })),
            Err(Refused { .. }) => Err(NoMemory),
        }
    }

    /// Puts a request of the pass's session at the end of the history, with its number there, and
    /// gives its place and the reply. It is no build.
    ///
    /// # Errors
    ///
    /// What stands in the history, if one more request would pass a limit, or out of memory. Then
    /// the request has no place.
    pub fn edit<R: Wait>(
        &self,
        rt: &R,
        alloc: Global,
        pass: &mut Pass<Book<P>>,
        number: u32,
        request: Request,
    ) -> Result<(u64, Reply), Stop<Full>>
        requires pass { tokens_spec.IsPassOf self.now pass.old }
        requires may { core_steps_spec.MayCommit (doc_seen_spec.request_seen request) }
        requires origin { doc_seen_spec.HasOwnOrigin request }
        ensures pass { tokens_spec.IsPassOf self.now pass.new }
        ensures ok { IfOk result (λ placed. calls_spec.Appends (tokens_spec.pass_view pass.old)
            number (doc_seen_spec.request_seen request) (doc_seen_spec.reply_seen placed.1)
            placed.0 (tokens_spec.pass_view pass.new)) }
        ensures err { IfErr result (λ stop. calls_spec.IsStopped (tokens_spec.pass_view pass.old)
            (doc_seen_spec.request_seen request) stop (tokens_spec.pass_view pass.new)) }
    {
        let session = pass.session;
        let mut book = self.take_book(rt, &mut pass.seat);
        let placed = ask(&mut book, alloc, session, number, request);
        self.put(&mut pass.seat, book);
        match placed {
            Ok(placed) => {
                self.open_entered(&mut pass.seat);
                Ok(placed)
            }
            Err(stop) => {
                self.open_unchanged(&mut pass.seat);
                Err(stop)
            }
        }
    }

    /// Puts a build at the end of the history, and gives its place and what is stored there.
    ///
    /// # Errors
    ///
    /// As those of an edit.
    pub fn begin<R: Wait>(
        &self,
        rt: &R,
        alloc: Global,
        pass: &mut Pass<Book<P>>,
        number: u32,
        map: &Name,
        val: Option<&Name>,
    ) -> Result<(u64, Snapshot), Stop<Full>>
        requires pass { tokens_spec.IsPassOf self.now pass.old }
        ensures pass { tokens_spec.IsPassOf self.now pass.new }
        ensures ok { IfOk result (λ begun. calls_spec.Begins (tokens_spec.pass_view pass.old)
            number map.now (option_copied val.entry) begun.0 (seen_spec.snapshot_seen begun.1)
            (tokens_spec.pass_view pass.new)) }
        ensures err { IfErr result (λ stop. calls_spec.IsStopped (tokens_spec.pass_view pass.old)
            (request_spec.Build map.now (option_copied val.entry)) stop
            (tokens_spec.pass_view pass.new)) }
    {
        let session = pass.session;
        let Ok((map, val)) = shared(map, val) else {
            return Err(Stop::NoMemory);
        };
        let mut book = self.take_book(rt, &mut pass.seat);
        let begun = ask_build(&mut book, alloc, session, number, map, val);
        self.put(&mut pass.seat, book);
        match begun {
            Ok(begun) => {
                self.open_entered(&mut pass.seat);
                Ok(begun)
            }
            Err(stop) => {
                self.open_unchanged(&mut pass.seat);
                Err(stop)
            }
        }
    }

    /// Takes the gate a last time, and gives the book.
    pub fn close<R: Wait>(self, rt: &R, pass: Pass<Book<P>>) -> Book<P>
        requires pass { tokens_spec.IsPassOf self pass }
        ensures closes { closes_spec.Closes
            (meaning_spec.meant_by P.plan_agrees P.own_agrees P.is_sound)
            (tokens_spec.pass_view pass) result }
    {
        let Pass { mut seat, .. } = pass;
        self.take_book(rt, &mut seat)
    }
}

// The names of a build, which are shared.
fn shared(map: &Name, val: Option<&Name>) -> Result<(Name, Option<Name>), AllocError>
    ensures map { IfOk result (λ names. names.0 ≡ map.now) }
    ensures val { IfOk result (λ names. names.1 ≡ option_copied val.entry) }
{
    let map = map.clone()?;
    match val {
        Some(val) => Ok((map, Some(val.clone()?))),
        None => Ok((map, None)),
    }
}
