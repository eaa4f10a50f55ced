//! The book of the desk.

ghost use Rattle.std.specs.Prelude.{◌≡◌, Ok, IfOk};
ghost use Rattle.std.specs.Arc.{arc_value};
ghost use Rattle.dita_doc.specs.Seen as doc_seen_spec;
ghost use Rattle.desk_core.specs.Book as book_spec;
ghost use Rattle.desk_core.specs.Events as events_spec;
ghost use Rattle.desk_core.specs.Invariant as invariant_spec;
ghost use Rattle.desk_core.specs.Seen as seen_spec;
ghost use Rattle.desk_core.specs.Steps as steps_spec;
ghost use Rattle.facts.specs.Latest as latest_spec;

use crate::event::{Answer, Event};
use crate::limits::Limits;
use crate::snapshot::Snapshot;
use crate::stamp::stamp_after;
use dita_doc::{FactKey, Name, NoMemory, Request, Stop};
use fact_table::{Table, Ticket};
use facts::{FactPair, Judge, Parts};
use std::alloc::Global;
use std::marker::{Model, PhantomData};
use std::sync::Arc;
use version_store::{Full, Store};

/// The history of all that was asked, what is stored after it, and the table of finished parts.
#[derive(Drop)]
pub struct Book<P: Parts> {
    store: Store,
    table: Table,
    // The number of entries, up to and with the last one that changed what is stored.
    stamp: u64,
    parts: PhantomData<P>,
}

impl<P: Parts> Model for Book<P> {
    ghost use Rattle.desk_core.specs.Book as book_spec;
    ghost use Rattle.desk_core.specs.Seen as seen_spec;

    ghost Value = { book_spec.BookData };

    ghost view = { λ book. seen_spec.book_seen book.store book.table };

    ghost invariant = { λ book. seen_spec.IsInside P.plan_agrees P.own_agrees P.is_sound book.store
        book.table book.stamp };
}

impl<P: Parts> Book<P> {
    /// A book in which nothing was asked.
    #[tactic(auto, using(crate::proofs::BookLaws::opening))]
    pub fn new(alloc: Global, limits: Limits) -> Result<Book<P>, NoMemory>
        ensures { IfOk result (λ book. book
            ≡ book_spec.new_book limits.entries limits.text_bytes limits.table_bytes) }
    {
        Ok(Book {
            store: Store::with_limits(alloc, limits.entries, limits.text_bytes)?,
            table: Table::new(alloc, limits.table_bytes)?,
            stamp: 0,
            parts: PhantomData,
        })
    }

    /// Does one event. Only a claim uses the judge. An event that is not answered changes nothing,
    /// and a publish and a release always are.
    ///
    /// # Errors
    ///
    /// What stands in the history, if one more request would pass a limit, or out of memory.
    pub fn step<J: Judge<P>>(
        &mut self,
        alloc: Global,
        event: Event,
        judge: &mut J,
    ) -> Result<Answer, Stop<Full>>
        requires may { steps_spec.MayStep (latest_spec.Agrees P.plan_agrees P.own_agrees) P.is_sound
            self.old (seen_spec.event_seen event) }
        requires origins { seen_spec.HasOrigins event }
        requires judge { steps_spec.IsJudgeFor (J.build judge.old) (J.sources judge.old)
            (seen_spec.event_seen event) }
        ensures steps { steps_spec.Steps (latest_spec.Agrees P.plan_agrees P.own_agrees) self.old
            (seen_spec.event_seen event) (seen_spec.ending_seen result) self.new }
        ensures sources { J.sources judge.new ≡ J.sources judge.old }
        ensures build { J.build judge.new ≡ J.build judge.old }
    {
        match event {
            Event::Commit(session, number, request) => self.commit(alloc, session, number, request),
            Event::Begin(session, number, map, val) => self.begin(alloc, session, number, map, val),
            Event::Claim(key, snapshot) => self.claim(alloc, &key, &snapshot, judge),
            Event::Publish(ticket, fact) => Ok(self.publish(ticket, fact)),
            Event::Release(ticket) => Ok(self.release(ticket)),
        }
    }

    /// The history, and what is stored after it.
    #[tactic(auto, using(crate::proofs::StepLaws::in_order))]
    pub fn store(&self) -> &Store
        ensures store { result.now ≡ self.now.store }
        ensures order { invariant_spec.IsInOrder (latest_spec.Agrees P.plan_agrees P.own_agrees)
            P.is_sound self.now }
    {
        &self.store
    }

    /// The table of finished parts.
    #[tactic(auto, using(crate::proofs::StepLaws::in_order))]
    pub fn table(&self) -> &Table
        ensures table { result.now.table ≡ self.now.table }
        ensures order { invariant_spec.IsInOrder (latest_spec.Agrees P.plan_agrees P.own_agrees)
            P.is_sound self.now }
    {
        &self.table
    }

    #[tactic(auto, using(crate::proofs::StepLaws::committing))]
    fn commit(
        &mut self,
        alloc: Global,
        session: u32,
        number: u32,
        request: Request,
    ) -> Result<Answer, Stop<Full>>
        requires may { steps_spec.MayCommit (doc_seen_spec.request_seen request) }
        requires origin { doc_seen_spec.HasOwnOrigin request }
        ensures { steps_spec.Steps (latest_spec.Agrees P.plan_agrees P.own_agrees) self.old
            (events_spec.Commit session number (doc_seen_spec.request_seen request))
            (seen_spec.ending_seen result) self.new }
    {
        let (place, reply) = self
            .store
            .answer_with_reply(alloc, session, number, request)?;
        self.stamp = stamp_after(self.stamp, place, &reply);
        Ok(Answer::Placed(place, reply))
    }

    #[tactic(auto, using(crate::proofs::StepLaws::beginning))]
    fn begin(
        &mut self,
        alloc: Global,
        session: u32,
        number: u32,
        map: Name,
        val: Option<Name>,
    ) -> Result<Answer, Stop<Full>>
        ensures { steps_spec.Steps (latest_spec.Agrees P.plan_agrees P.own_agrees) self.old
            (events_spec.Begin session number map val) (seen_spec.ending_seen result) self.new }
    {
        let snapshot = Snapshot {
            stamp: self.stamp,
            sources: Arc::try_clone(self.store.sources())?,
        };
        let place = self
            .store
            .answer(alloc, session, number, Request::Build(map, val))?;
        Ok(Answer::Begun(place, snapshot))
    }

    #[tactic(auto, using(crate::proofs::StepLaws::claiming))]
    fn claim<J: Judge<P>>(
        &mut self,
        alloc: Global,
        key: &FactKey,
        snapshot: &Snapshot,
        judge: &mut J,
    ) -> Result<Answer, Stop<Full>>
        requires of { steps_spec.IsSnapshotOf self.old.store.history
            (seen_spec.snapshot_seen snapshot.now) }
        requires judge { steps_spec.IsJudgeOfClaim (J.build judge.old) (J.sources judge.old) key.now
            (seen_spec.snapshot_seen snapshot.now) }
        ensures steps { steps_spec.Steps (latest_spec.Agrees P.plan_agrees P.own_agrees) self.old
            (events_spec.Claim key.now (seen_spec.snapshot_seen snapshot.now))
            (seen_spec.ending_seen result) self.new }
        ensures sources { J.sources judge.new ≡ J.sources judge.old }
        ensures build { J.build judge.new ≡ J.build judge.old }
    {
        let claimed = self
            .table
            .claim::<P, J>(alloc, key, &snapshot.sources, snapshot.stamp, judge)?;
        Ok(Answer::Claimed(claimed))
    }

    #[tactic(auto, using(crate::proofs::StepLaws::publishing))]
    fn publish(&mut self, ticket: Ticket, fact: FactPair) -> Answer
        requires { steps_spec.MayPublish (latest_spec.Agrees P.plan_agrees P.own_agrees) P.is_sound
            self.old.table ticket (arc_value fact.kept) }
        ensures { steps_spec.Steps (latest_spec.Agrees P.plan_agrees P.own_agrees) self.old
            (events_spec.Publish ticket (arc_value fact.kept))
            (Ok (seen_spec.answer_seen result)) self.new }
    {
        Answer::Published(self.table.publish(ticket, fact))
    }

    #[tactic(auto, using(crate::proofs::StepLaws::releasing))]
    fn release(&mut self, ticket: Ticket) -> Answer
        requires { steps_spec.MayRelease self.old.table ticket }
        ensures { steps_spec.Steps (latest_spec.Agrees P.plan_agrees P.own_agrees) self.old
            (events_spec.Release ticket) (Ok (seen_spec.answer_seen result)) self.new }
    {
        self.table.release(ticket);
        Answer::Released
    }
}
