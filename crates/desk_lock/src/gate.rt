//! The gate of a desk. Who shuts it takes the book; who opens it has put a book back.

ghost use Rattle.std.specs.Prelude.{◌≡◌, ◌∷◌, [], Some, None};
ghost use Rattle.atomic_table.specs.Table.{Allows};
ghost use Rattle.fact_table.specs.Answers as answers_spec;
ghost use Rattle.facts.specs.Latest as latest_spec;
ghost use Rattle.facts.specs.Rows as rows_spec;
ghost use Rattle.desk_core.specs.Invariant as invariant_spec;
ghost use Rattle.desk_lock.specs.GateTurn as gate_turn_spec;
ghost use Rattle.desk_lock.specs.Knows as knows_spec;
ghost use Rattle.desk_lock.specs.Learns as learns_spec;
ghost use Rattle.desk_lock.specs.Picks as picks_spec;
ghost use Rattle.desk_lock.specs.Rule as rule_spec;
ghost use Rattle.desk_lock.specs.Steps as steps_spec;
ghost use Rattle.desk_lock.specs.Tokens as tokens_spec;

use crate::desk::Desk;
use crate::plays::{Commit, Draw, Give, Meet, Picked, Print, Release, See, Try};
use crate::rule::Shown;
use crate::view::View;
use atomic_table::Seat;
use desk_core::Book;
use dita_doc::FactKey;
use fact_table::{Claimed, Ticket};
use facts::{Parts, Row};
use std::marker::Brand;
use std::sync::Wait;
use std::thread;

impl<B: Shown + Drop> Desk<B> {
    // Shuts the gate, once it is open, and takes the book.
    pub(crate) fn take<R: Wait>(&self, rt: &R, seat: &mut Seat<Option<B>, View>) -> B
        requires of { seat.old.table_id ≡ tokens_spec.desk_id self.now }
        requires idle { tokens_spec.IsIdle seat.old.me }
        ensures of { seat.new.table_id ≡ tokens_spec.desk_id self.now }
        ensures me { seat.new.me
            ≡ (knows_spec.holding seat.old.me.0 (B.shown result), (0, None) ∷ []) }
        ensures learns { learns_spec.Learns seat.old.me.0 (B.shown result) }
    {
        let shared = &self.table.shared;
        for _ in rt.forever() {
            if shared.compare_exchange::<Try>(seat, 0, 0, 1) == 0 {
                return shared.exchange(seat, 0, None).unwrap();
            }
            thread::yield_now();
        }
        unreachable!()
    }

    // Puts a book back. The gate is still shut.
    pub(crate) fn put(&self, seat: &mut Seat<Option<B>, View>, book: B)
        requires of { seat.old.table_id ≡ tokens_spec.desk_id self.now }
        requires out { gate_turn_spec.TakesOut seat.old.me seat.old.me }
        ensures of { seat.new.table_id ≡ tokens_spec.desk_id self.now }
        ensures back { gate_turn_spec.PutsBack seat.old.me book seat.new.me }
    {
        drop(self.table.shared.exchange(seat, 0, Some(book)));
    }

    // Opens the gate after no event.
    pub(crate) fn open_unchanged(&self, seat: &mut Seat<Option<B>, View>)
        requires of { seat.old.table_id ≡ tokens_spec.desk_id self.now }
        requires allows { Allows (rule_spec.RuleKept B.shown) 1 seat.old.id seat.old.me 0 (λ _. 0)
            (λ _. steps_spec.Sees B.shown seat.old.me 0) }
        ensures of { seat.new.table_id ≡ tokens_spec.desk_id self.now }
        ensures me { steps_spec.Sees B.shown seat.old.me 0 seat.new.me }
    {
        self.table.shared.store::<See>(seat, 0, 0);
    }

    // Opens the gate after an entry of this party.
    pub(crate) fn open_entered(&self, seat: &mut Seat<Option<B>, View>)
        requires of { seat.old.table_id ≡ tokens_spec.desk_id self.now }
        requires allows { Allows (rule_spec.RuleKept B.shown) 1 seat.old.id seat.old.me 0 (λ _. 0)
            (λ _. steps_spec.Commits B.shown seat.old.me 0) }
        ensures of { seat.new.table_id ≡ tokens_spec.desk_id self.now }
        ensures me { steps_spec.Commits B.shown seat.old.me 0 seat.new.me }
    {
        self.table.shared.store::<Commit>(seat, 0, 0);
    }

    // After a claim of this part and stamp, by its answer. What the step tells is for proofs alone,
    // here and below.
    pub(crate) fn open_claimed(
        &self,
        seat: &mut Seat<Option<B>, View>,
        key: &FactKey,
        stamp: u64,
        claimed: &Claimed,
    )
        requires of { seat.old.table_id ≡ tokens_spec.desk_id self.now }
        requires allows { Allows (rule_spec.RuleKept B.shown) 1 seat.old.id seat.old.me 0 (λ _. 0)
            (λ _. steps_spec.Tells B.shown key.now stamp (answers_spec.answer_seen claimed.now)
            seat.old.me 0) }
        ensures of { seat.new.table_id ≡ tokens_spec.desk_id self.now }
        ensures me { steps_spec.Tells B.shown key.now stamp (answers_spec.answer_seen claimed.now)
            seat.old.me 0 seat.new.me }
    {
        match claimed {
            Claimed::Have(row) => self.open_given::<Brand>(seat, row),
            Claimed::Taken(serial) => self.open_met::<Brand>(seat, key, stamp, *serial),
            Claimed::Yours(ticket) => self.open_drawn::<Brand>(seat, ticket),
        }
    }

    // After a claim for which this row was kept.
    fn open_given<N: Picked>(&self, seat: &mut Seat<Option<B>, View>, _row: &Row)
        requires picked { N.picked_row ≡ rows_spec.row_data _row.now }
        requires of { seat.old.table_id ≡ tokens_spec.desk_id self.now }
        requires allows { Allows (rule_spec.RuleKept B.shown) 1 seat.old.id seat.old.me 0 (λ _. 0)
            (λ _. steps_spec.Had B.shown (rows_spec.row_data _row.now) seat.old.me 0) }
        ensures of { seat.new.table_id ≡ tokens_spec.desk_id self.now }
        ensures me { steps_spec.Had B.shown (rows_spec.row_data _row.now)
            seat.old.me 0 seat.new.me }
    {
        self.table.shared.store::<Give<N>>(seat, 0, 0);
    }

    // After a claim of this part and stamp that another runs under this serial.
    fn open_met<N: Picked>(
        &self,
        seat: &mut Seat<Option<B>, View>,
        _key: &FactKey,
        _stamp: u64,
        _serial: u64,
    )
        requires picked { N.picked_claim ≡ picks_spec.claim_at _serial _key.now _stamp }
        requires of { seat.old.table_id ≡ tokens_spec.desk_id self.now }
        requires allows { Allows (rule_spec.RuleKept B.shown) 1 seat.old.id seat.old.me 0 (λ _. 0)
            (λ _. steps_spec.Met B.shown (picks_spec.claim_at _serial _key.now _stamp) seat.old.me 0) }
        ensures of { seat.new.table_id ≡ tokens_spec.desk_id self.now }
        ensures me { steps_spec.Met B.shown (picks_spec.claim_at _serial _key.now _stamp)
            seat.old.me 0 seat.new.me }
    {
        self.table.shared.store::<Meet<N>>(seat, 0, 0);
    }

    // After a claim that is granted.
    fn open_drawn<N: Picked>(&self, seat: &mut Seat<Option<B>, View>, _ticket: &Ticket)
        requires picked { N.picked_claim ≡ _ticket.now }
        requires of { seat.old.table_id ≡ tokens_spec.desk_id self.now }
        requires allows { Allows (rule_spec.RuleKept B.shown) 1 seat.old.id seat.old.me 0 (λ _. 0)
            (λ _. steps_spec.IsGranted B.shown _ticket.now seat.old.me 0) }
        ensures of { seat.new.table_id ≡ tokens_spec.desk_id self.now }
        ensures me { steps_spec.IsGranted B.shown _ticket.now seat.old.me 0 seat.new.me }
    {
        self.table.shared.store::<Draw<N>>(seat, 0, 0);
    }

    // After this row was published.
    pub(crate) fn open_printed<N: Picked>(&self, seat: &mut Seat<Option<B>, View>, _row: &Row)
        requires picked { N.picked_row ≡ rows_spec.row_data _row.now }
        requires of { seat.old.table_id ≡ tokens_spec.desk_id self.now }
        requires allows { Allows (rule_spec.RuleKept B.shown) 1 seat.old.id seat.old.me 0 (λ _. 0)
            (λ _. steps_spec.Prints B.shown (rows_spec.row_data _row.now) seat.old.me 0) }
        ensures of { seat.new.table_id ≡ tokens_spec.desk_id self.now }
        ensures me { steps_spec.Prints B.shown (rows_spec.row_data _row.now)
            seat.old.me 0 seat.new.me }
    {
        self.table.shared.store::<Print<N>>(seat, 0, 0);
    }

    // After the claim of this serial was released.
    pub(crate) fn open_released<N: Picked>(&self, seat: &mut Seat<Option<B>, View>, _serial: u64)
        requires picked { N.picked_serial ≡ _serial }
        requires of { seat.old.table_id ≡ tokens_spec.desk_id self.now }
        requires allows { Allows (rule_spec.RuleKept B.shown) 1 seat.old.id seat.old.me 0 (λ _. 0)
            (λ _. steps_spec.LetsGo B.shown _serial seat.old.me 0) }
        ensures of { seat.new.table_id ≡ tokens_spec.desk_id self.now }
        ensures me { steps_spec.LetsGo B.shown _serial seat.old.me 0 seat.new.me }
    {
        self.table.shared.store::<Release<N>>(seat, 0, 0);
    }
}

impl<P: Parts> Desk<Book<P>> {
    // Shuts the gate, once it is open, and takes the book, which is in order. Whoever looks at a
    // book is told so.
    pub(crate) fn take_book<R: Wait>(
        &self,
        rt: &R,
        seat: &mut Seat<Option<Book<P>>, View>,
    ) -> Book<P>
        requires of { seat.old.table_id ≡ tokens_spec.desk_id self.now }
        requires idle { tokens_spec.IsIdle seat.old.me }
        ensures of { seat.new.table_id ≡ tokens_spec.desk_id self.now }
        ensures me { seat.new.me ≡ (knows_spec.holding seat.old.me.0 result, (0, None) ∷ []) }
        ensures learns { learns_spec.Learns seat.old.me.0 result }
        ensures order { invariant_spec.IsInOrder (latest_spec.Agrees P.plan_agrees P.own_agrees)
            P.is_sound result }
    {
        let book = self.take(rt, seat);
        let _ = book.store();
        book
    }
}
