//! The events of a book, each with what it is answered. Whoever calls one has the book out of its
//! slot.

ghost use Rattle.std.specs.Prelude.{◌≡◌, Err, IfOk, IfErr, OnErr};
ghost use Rattle.std.specs.Arc.{arc_value};
ghost use Rattle.dita_doc.specs.Seen as doc_seen_spec;
ghost use Rattle.fact_table.specs.Answers as answers_spec;
ghost use Rattle.facts.specs.Latest as latest_spec;
ghost use Rattle.facts.specs.Rows as rows_spec;
ghost use Rattle.desk_core.specs.Events as events_spec;
ghost use Rattle.desk_core.specs.Seen as seen_spec;
ghost use Rattle.desk_core.specs.Steps as core_steps_spec;

use crate::no_judge::NoJudge;
use desk_core::{Answer, Book, Event, Snapshot};
use dita_doc::{FactKey, Name, NoMemory, Reply, Request, Stop};
use fact_table::{Claimed, Ticket};
use facts::{FactPair, Judge, Parts, Row};
use std::alloc::Global;
use version_store::Full;

// A request that is no build.
pub(crate) fn ask<P: Parts>(
    book: &mut Book<P>,
    alloc: Global,
    session: u32,
    number: u32,
    request: Request,
) -> Result<(u64, Reply), Stop<Full>>
    requires may { core_steps_spec.MayCommit (doc_seen_spec.request_seen request) }
    requires origin { doc_seen_spec.HasOwnOrigin request }
    ensures ok { IfOk result (λ placed. core_steps_spec.IsPlaced session number
        (doc_seen_spec.request_seen request) book.old placed.0 (doc_seen_spec.reply_seen placed.1)
        book.new) }
    ensures err { IfErr result (λ stop. core_steps_spec.Steps
        (latest_spec.Agrees P.plan_agrees P.own_agrees) book.old
        (events_spec.Commit session number (doc_seen_spec.request_seen request)) (Err stop)
        book.new) }
{
    match book.step(alloc, Event::Commit(session, number, request), &mut NoJudge) {
        Ok(Answer::Placed(place, reply)) => Ok((place, reply)),
        Ok(_) => unreachable!(),
        Err(stop) => Err(stop),
    }
}

// A build.
pub(crate) fn ask_build<P: Parts>(
    book: &mut Book<P>,
    alloc: Global,
    session: u32,
    number: u32,
    map: Name,
    val: Option<Name>,
) -> Result<(u64, Snapshot), Stop<Full>>
    ensures ok { IfOk result (λ begun. core_steps_spec.IsBegun session number map val book.old
        begun.0 (seen_spec.snapshot_seen begun.1) book.new) }
    ensures err { IfErr result (λ stop. core_steps_spec.Steps
        (latest_spec.Agrees P.plan_agrees P.own_agrees) book.old
        (events_spec.Begin session number map val) (Err stop) book.new) }
{
    match book.step(alloc, Event::Begin(session, number, map, val), &mut NoJudge) {
        Ok(Answer::Begun(place, snapshot)) => Ok((place, snapshot)),
        Ok(_) => unreachable!(),
        Err(stop) => Err(stop),
    }
}

// A claim, of this part and for this snapshot, which are for proofs alone.
pub(crate) fn claim_part<P: Parts, J: Judge<P>>(
    book: &mut Book<P>,
    alloc: Global,
    event: Event,
    _key: &FactKey,
    _snapshot: &Snapshot,
    judge: &mut J,
) -> Result<Claimed, NoMemory>
    requires event { seen_spec.event_seen event
        ≡ events_spec.Claim _key.now (seen_spec.snapshot_seen _snapshot.now) }
    requires origins { seen_spec.HasOrigins event }
    requires of { core_steps_spec.IsSnapshotOf book.old.store.history
        (seen_spec.snapshot_seen _snapshot.now) }
    requires judge { core_steps_spec.IsJudgeOfClaim (J.build judge.old) (J.sources judge.old)
        _key.now (seen_spec.snapshot_seen _snapshot.now) }
    ensures ok { IfOk result (λ claimed. core_steps_spec.IsClaimed
        (latest_spec.Agrees P.plan_agrees P.own_agrees) _key.now
        (seen_spec.snapshot_seen _snapshot.now) book.old (answers_spec.answer_seen claimed)
        book.new) }
    ensures err { OnErr result (book.new ≡ book.old) }
    ensures sources { J.sources judge.new ≡ J.sources judge.old }
    ensures build { J.build judge.new ≡ J.build judge.old }
{
    match book.step(alloc, event, judge) {
        Ok(Answer::Claimed(claimed)) => Ok(claimed),
        Ok(_) => unreachable!(),
        Err(_) => Err(NoMemory),
    }
}

// The part of a claim is published.
pub(crate) fn publish_part<P: Parts>(
    book: &mut Book<P>,
    alloc: Global,
    ticket: Ticket,
    fact: FactPair,
) -> Row
    requires { core_steps_spec.MayPublish (latest_spec.Agrees P.plan_agrees P.own_agrees) P.is_sound
        book.old.table ticket (arc_value fact.kept) }
    ensures { core_steps_spec.IsPublished ticket (arc_value fact.kept) book.old
        (rows_spec.row_data result) book.new }
{
    match book.step(alloc, Event::Publish(ticket, fact), &mut NoJudge) {
        Ok(Answer::Published(row)) => row,
        _ => unreachable!(),
    }
}

// A claim is released.
pub(crate) fn release_part<P: Parts>(book: &mut Book<P>, alloc: Global, ticket: Ticket)
    requires { core_steps_spec.MayRelease book.old.table ticket }
    ensures { book.new ≡ core_steps_spec.with_released ticket.serial book.old }
{
    match book.step(alloc, Event::Release(ticket), &mut NoJudge) {
        Ok(Answer::Released) => {}
        _ => unreachable!(),
    }
}
