//! The book of the desk: the history of all that was asked, what is stored after it, and the table
//! of finished parts. Each event leaves the book that its definition says.
//!
//! What is used above it: the events, what they are answered and what they leave (`Steps`), and what
//! holds between any two of them (`IsBook`).
#![tactic(auto)]

mod book;
mod event;
mod limits;
mod snapshot;
mod stamp;

pub use book::Book;
pub use event::{Answer, Event};
pub use limits::Limits;
pub use snapshot::Snapshot;
