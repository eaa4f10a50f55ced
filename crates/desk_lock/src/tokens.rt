//! Tokens: each comes from another, and goes back into one.

ghost use Rattle.std.specs.Prelude.{◌≡◌, ◌<◌, []};
ghost use Rattle.desk_lock.specs.Calls as calls_spec;
ghost use Rattle.desk_lock.specs.Knows as knows_spec;
ghost use Rattle.desk_lock.specs.Tokens as tokens_spec;

use crate::desk::{Desk, Hand, Pass};
use crate::plays::{Both, Compare, Cut, Share};
use crate::rule::Shown;
use crate::view::View;
use atomic_table::Seat;
use std::marker::Brand;

// The parts of a pass that is made for another caller, and those of a hand.
const SESSION_PARTS: u64 = 256;

const HAND_PARTS: u64 = 1;

impl<B> Pass<B> {
    /// The session of its entries.
    pub fn session(&self) -> u32
        ensures { result ≡ self.now.session }
    {
        self.session
    }
}

impl<B: Shown> Desk<B> {
    /// A pass for another caller, with this session and 256 of the parts of the pass. It has seen
    /// what the pass has seen.
    pub fn session(&self, pass: &mut Pass<B>, session: u32) -> Pass<B>
        requires pass { tokens_spec.IsPassOf self.now pass.old }
        requires parts { knows_spec.session_parts < (tokens_spec.pass_view pass.old).parts }
        ensures pass { tokens_spec.IsPassOf self.now pass.new }
        ensures new { tokens_spec.IsPassOf self.now result }
        ensures splits { calls_spec.Splits (tokens_spec.pass_view pass.old) session
            knows_spec.session_parts (tokens_spec.pass_view pass.new)
            (tokens_spec.pass_view result) }
    {
        let seat = self.cut::<Brand>(&mut pass.seat, session, SESSION_PARTS);
        Pass { session, seat }
    }

    /// A hand for a worker of this caller, with one part of the pass.
    pub fn hand(&self, pass: &mut Pass<B>) -> Hand<B>
        requires pass { tokens_spec.IsPassOf self.now pass.old }
        requires parts { knows_spec.hand_parts < (tokens_spec.pass_view pass.old).parts }
        ensures pass { tokens_spec.IsPassOf self.now pass.new }
        ensures new { tokens_spec.IsHandOf self.now result }
        ensures splits { calls_spec.Splits (tokens_spec.pass_view pass.old)
            (tokens_spec.pass_view pass.old).session knows_spec.hand_parts
            (tokens_spec.pass_view pass.new) (tokens_spec.hand_view result) }
    {
        let session = pass.session;
        let seat = self.cut::<Brand>(&mut pass.seat, session, HAND_PARTS);
        Hand { seat }
    }

    /// Takes in what a worker knows, and its part.
    pub fn join(&self, pass: &mut Pass<B>, hand: Hand<B>)
        requires pass { tokens_spec.IsPassOf self.now pass.old }
        requires hand { tokens_spec.IsHandOf self.now hand }
        ensures pass { tokens_spec.IsPassOf self.now pass.new }
        ensures joins { calls_spec.Joins (tokens_spec.pass_view pass.old)
            (tokens_spec.hand_view hand) (tokens_spec.pass_view pass.new) }
    {
        let Hand { seat } = hand;
        self.merge(&mut pass.seat, seat);
    }

    /// Takes in what another caller knows, and its parts.
    pub fn end_session(&self, pass: &mut Pass<B>, other: Pass<B>)
        requires pass { tokens_spec.IsPassOf self.now pass.old }
        requires other { tokens_spec.IsPassOf self.now other }
        ensures pass { tokens_spec.IsPassOf self.now pass.new }
        ensures joins { calls_spec.Joins (tokens_spec.pass_view pass.old)
            (tokens_spec.pass_view other) (tokens_spec.pass_view pass.new) }
    {
        let Pass { seat, .. } = other;
        self.merge(&mut pass.seat, seat);
    }

    // A new seat, for this session and with these parts of the seat, which proofs alone read.
    fn cut<N: Share>(
        &self,
        seat: &mut Seat<Option<B>, View>,
        _session: u32,
        _parts: u64,
    ) -> Seat<Option<B>, View>
        requires session { N.for_session ≡ _session }
        requires picked { N.with_parts ≡ _parts }
        requires of { seat.old.table_id ≡ tokens_spec.desk_id self.now }
        requires idle { tokens_spec.IsIdle seat.old.me }
        requires some { 0 < _parts }
        requires parts { _parts < seat.old.me.0.parts }
        ensures of { seat.new.table_id ≡ tokens_spec.desk_id self.now }
        ensures new { result.table_id ≡ tokens_spec.desk_id self.now }
        ensures me { seat.new.me ≡ (knows_spec.parted seat.old.me.0 _parts, []) }
        ensures got { result.me ≡ (knows_spec.arrived seat.old.me.0 _session _parts, []) }
    {
        self.table.shared.split_seat::<Cut<N>>(seat)
    }

    // Takes in another seat. Behind the join the gate is looked at: of the two histories the longer
    // begins with the shorter.
    fn merge(&self, seat: &mut Seat<Option<B>, View>, other: Seat<Option<B>, View>)
        requires of { seat.old.table_id ≡ tokens_spec.desk_id self.now }
        requires idle { tokens_spec.IsIdle seat.old.me }
        requires other_of { other.table_id ≡ tokens_spec.desk_id self.now }
        requires other_idle { tokens_spec.IsIdle other.me }
        ensures of { seat.new.table_id ≡ tokens_spec.desk_id self.now }
        ensures idle { tokens_spec.IsIdle seat.new.me }
        ensures joins { calls_spec.Joins seat.old.me.0 other.me.0 seat.new.me.0 }
    {
        let shared = &self.table.shared;
        shared.join_seat::<Both>(seat, other);
        shared.load::<Compare>(seat, 0);
    }
}
