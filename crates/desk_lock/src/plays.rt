//! What the steps of a desk tell.

ghost use Rattle.std.specs.Prelude.{ℕ};
ghost use Rattle.facts.specs.Rows.{Claim, RowData};
ghost use Rattle.desk_lock.specs.Knows as knows_spec;
ghost use Rattle.desk_lock.specs.Picks as picks_spec;
ghost use Rattle.desk_lock.specs.Steps as steps_spec;

use crate::rule::Shown;
use crate::view::View;
use atomic_table::{Join, Play, Split};
use std::marker::{Brand, PhantomData};

/// What a step tells that opens the gate after a claim or its end.
pub trait Picked {
    ghost picked_claim: { Claim };

    ghost picked_row: { RowData };

    ghost picked_serial: { ℕ };
}

/// What a new token gets.
pub trait Share {
    ghost for_session: { ℕ };

    ghost with_parts: { ℕ };
}

// A call picks what it tells and what it gives.
impl Picked for Brand {
    ghost picked_claim = { picks_spec.no_claim };

    ghost picked_row = { picks_spec.no_row };

    ghost picked_serial = { 0 };
}

impl Share for Brand {
    ghost for_session = { 0 };

    ghost with_parts = { 0 };
}

/// The gate is tried.
pub struct Try;

/// The gate is opened after no event.
pub struct See;

/// The gate is opened after an entry.
pub struct Commit;

/// The gate is opened after a claim that is granted.
pub struct Draw<N: Picked> {
    of: PhantomData<N>,
}

/// The gate is opened after a claim that another runs.
pub struct Meet<N: Picked> {
    of: PhantomData<N>,
}

/// The gate is opened after a claim for which a row was kept.
pub struct Give<N: Picked> {
    of: PhantomData<N>,
}

/// The gate is opened after a row was published.
pub struct Print<N: Picked> {
    of: PhantomData<N>,
}

/// The gate is opened after a claim was released.
pub struct Release<N: Picked> {
    of: PhantomData<N>,
}

/// The gate is looked at behind a join.
pub struct Compare;

/// A token gives parts to a new one.
pub struct Cut<N: Share> {
    of: PhantomData<N>,
}

/// A token takes in another.
pub struct Both;

impl<B: Shown> Play<Option<B>, View> for Try {
    ghost then = { λ step. steps_spec.Tries B.shown };
}

impl<B: Shown> Play<Option<B>, View> for See {
    ghost then = { λ step. steps_spec.Sees B.shown };
}

impl<B: Shown> Play<Option<B>, View> for Commit {
    ghost then = { λ step. steps_spec.Commits B.shown };
}

impl<B: Shown, N: Picked> Play<Option<B>, View> for Draw<N> {
    ghost then = { λ step. steps_spec.IsGranted B.shown N.picked_claim };
}

impl<B: Shown, N: Picked> Play<Option<B>, View> for Meet<N> {
    ghost then = { λ step. steps_spec.Met B.shown N.picked_claim };
}

impl<B: Shown, N: Picked> Play<Option<B>, View> for Give<N> {
    ghost then = { λ step. steps_spec.Had B.shown N.picked_row };
}

impl<B: Shown, N: Picked> Play<Option<B>, View> for Print<N> {
    ghost then = { λ step. steps_spec.Prints B.shown N.picked_row };
}

impl<B: Shown, N: Picked> Play<Option<B>, View> for Release<N> {
    ghost then = { λ step. steps_spec.LetsGo B.shown N.picked_serial };
}

impl<B: Shown> Play<Option<B>, View> for Compare {
    ghost then = { λ step. steps_spec.Compares };
}

impl<N: Share> Split<View> for Cut<N> {
    ghost left = { λ v. knows_spec.parted v N.with_parts };

    ghost right = { λ v. knows_spec.arrived v N.for_session N.with_parts };
}

impl Join<View> for Both {
    ghost both = { knows_spec.both };

    ghost spent = { knows_spec.spent_view };
}
