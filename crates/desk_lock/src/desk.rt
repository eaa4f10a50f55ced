//! A desk of many threads, and the tokens by which callers and workers use it.

ghost use Rattle.std.specs.Prelude.{◌≡◌};

use crate::rule::{Order, Shown};
use crate::view::View;
use atomic_table::{Seat, Table};
use desk_core::Limits;
use std::alloc::Global;

/// A desk: a book behind a gate.
#[derive(Drop)]
pub struct Desk<B: Shown> {
    pub(crate) table: Table<Option<B>, View, Limits, Order, Global>,
    // What a step of the book is handed, also one that takes no memory.
    pub(crate) alloc: Global,
    ghost sized: { (table.shared.table_id.words ≡ 1) × (table.shared.table_id.slots ≡ 1) },
}

/// A caller's token. Its entries have its session.
#[derive(Drop)]
pub struct Pass<B> {
    pub(crate) session: u32,
    pub(crate) seat: Seat<Option<B>, View>,
}

/// A worker's token.
#[derive(Drop)]
pub struct Hand<B> {
    pub(crate) seat: Seat<Option<B>, View>,
}
