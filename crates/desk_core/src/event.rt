//! The events of the book, and what they are answered.

use crate::snapshot::Snapshot;
use dita_doc::{FactKey, Name, Reply, Request};
use fact_table::{Claimed, Ticket};
use facts::{FactPair, Row};

/// An event of the book.
#[derive(Drop)]
pub enum Event {
    /// A request of a session, with its number there. It is no build.
    Commit(u32, u32, Request),
    /// A build of a map with a DITAVAL, or without: the request of a session, with its number there.
    Begin(u32, u32, Name, Option<Name>),
    /// A part of a build is claimed, for the build's snapshot.
    Claim(FactKey, Snapshot),
    /// The part of a claim was made.
    Publish(Ticket, FactPair),
    /// The part of a claim is not made.
    Release(Ticket),
}

/// What an event is answered.
#[derive(Drop)]
pub enum Answer {
    /// The place of the request, and its reply.
    Placed(u64, Reply),
    /// The place of the build, and what is stored there.
    Begun(u64, Snapshot),
    Claimed(Claimed),
    Published(Row),
    Released,
}
