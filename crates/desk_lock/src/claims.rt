//! Workers claim parts, and end their claims.

ghost use Rattle.std.specs.Prelude.{◌≡◌, IfOk, OnErr};
ghost use Rattle.std.specs.Arc.{arc_value};
ghost use Rattle.fact_table.specs.Answers as answers_spec;
ghost use Rattle.facts.specs.Rows as rows_spec;
ghost use Rattle.desk_core.specs.Events as events_spec;
ghost use Rattle.desk_core.specs.Seen as seen_spec;
ghost use Rattle.desk_core.specs.Steps as core_steps_spec;
ghost use Rattle.desk_lock.specs.Calls as calls_spec;
ghost use Rattle.desk_lock.specs.Meaning as meaning_spec;
ghost use Rattle.desk_lock.specs.Tokens as tokens_spec;

use crate::desk::{Desk, Hand};
use crate::events::{claim_part, publish_part, release_part};
use desk_core::{Book, Event, Snapshot};
use dita_doc::{FactKey, NoMemory};
use fact_table::{Claimed, Ticket};
use facts::{FactPair, Judge, Parts, Row};
use std::alloc::{AllocError, Global};
use std::marker::Brand;
use std::sync::{Arc, Wait};

impl<P: Parts> Desk<Book<P>> {
    /// Claims a part of a build for the build's snapshot. The judge has the snapshot's sources, and
    /// judges facts of the part's map and DITAVAL.
    ///
    /// # Errors
    ///
    /// Out of memory; then nothing was claimed.
    pub fn claim<R: Wait, J: Judge<P>>(
        &self,
        rt: &R,
        alloc: Global,
        hand: &mut Hand<Book<P>>,
        key: &FactKey,
        snapshot: &Snapshot,
        judge: &mut J,
    ) -> Result<Claimed, NoMemory>
        requires hand { tokens_spec.IsHandOf self.now hand.old }
        requires of { core_steps_spec.IsSnapshotOf (tokens_spec.hand_view hand.old).seen
            (seen_spec.snapshot_seen snapshot.now) }
        requires judge { core_steps_spec.IsJudgeOfClaim (J.build judge.old) (J.sources judge.old)
            key.now (seen_spec.snapshot_seen snapshot.now) }
        ensures hand { tokens_spec.IsHandOf self.now hand.new }
        ensures ok { IfOk result (λ claimed. calls_spec.Answers
            (meaning_spec.meant_by P.plan_agrees P.own_agrees P.is_sound)
            (tokens_spec.hand_view hand.old) key.now (seen_spec.snapshot_seen snapshot.now)
            (answers_spec.answer_seen claimed) (tokens_spec.hand_view hand.new)) }
        ensures err { OnErr result (calls_spec.Looks (tokens_spec.hand_view hand.old)
            (tokens_spec.hand_view hand.new)) }
        ensures sources { J.sources judge.new ≡ J.sources judge.old }
        ensures build { J.build judge.new ≡ J.build judge.old }
    {
        let Ok(event) = claim_of(key, snapshot) else {
            return Err(NoMemory);
        };
        let mut book = self.take_book(rt, &mut hand.seat);
        let claimed = claim_part(&mut book, alloc, event, key, snapshot, judge);
        self.put(&mut hand.seat, book);
        match claimed {
            Ok(claimed) => {
                self.open_claimed(&mut hand.seat, key, snapshot.stamp, &claimed);
                Ok(claimed)
            }
            Err(_) => {
                self.open_unchanged(&mut hand.seat);
                Err(NoMemory)
            }
        }
    }

    /// Ends a claim of this hand with the part that was made, and gives its row. It takes no memory.
    pub fn publish<R: Wait>(
        &self,
        rt: &R,
        hand: &mut Hand<Book<P>>,
        ticket: Ticket,
        fact: FactPair,
    ) -> Row
        requires hand { tokens_spec.IsHandOf self.now hand.old }
        requires may { calls_spec.HandMayPublish
            (meaning_spec.meant_by P.plan_agrees P.own_agrees P.is_sound)
            (tokens_spec.hand_view hand.old) ticket (arc_value fact.kept) }
        ensures hand { tokens_spec.IsHandOf self.now hand.new }
        ensures publishes { calls_spec.Publishes (tokens_spec.hand_view hand.old) ticket
            (arc_value fact.kept) (rows_spec.row_data result) (tokens_spec.hand_view hand.new) }
    {
        let mut book = self.take_book(rt, &mut hand.seat);
        let row = publish_part(&mut book, self.alloc, ticket, fact);
        self.put(&mut hand.seat, book);
        self.open_printed::<Brand>(&mut hand.seat, &row);
        row
    }

    /// Ends a claim of this hand, for which no part is made. It takes no memory.
    pub fn release<R: Wait>(&self, rt: &R, hand: &mut Hand<Book<P>>, ticket: Ticket)
        requires hand { tokens_spec.IsHandOf self.now hand.old }
        requires may { calls_spec.MayEnd (tokens_spec.hand_view hand.old) ticket }
        ensures hand { tokens_spec.IsHandOf self.now hand.new }
        ensures releases { calls_spec.Releases (tokens_spec.hand_view hand.old) ticket.serial
            (tokens_spec.hand_view hand.new) }
    {
        let serial = ticket.serial();
        let mut book = self.take(rt, &mut hand.seat);
        release_part(&mut book, self.alloc, ticket);
        self.put(&mut hand.seat, book);
        self.open_released::<Brand>(&mut hand.seat, serial);
    }
}

// The claim of a part for a snapshot, which shares the sources.
fn claim_of(key: &FactKey, snapshot: &Snapshot) -> Result<Event, AllocError>
    ensures event { IfOk result (λ event. seen_spec.event_seen event
        ≡ events_spec.Claim key.now (seen_spec.snapshot_seen snapshot.now)) }
    ensures origins { IfOk result (λ event. seen_spec.HasOrigins event) }
{
    let sources = Arc::try_clone(&snapshot.sources)?;
    let stamp = snapshot.stamp;
    Ok(Event::Claim(key.clone()?, Snapshot { stamp, sources }))
}
