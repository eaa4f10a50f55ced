//! What the desk keeps: the history of all that was asked, and what is stored after it.
//!
//! What is used above it: the clause `ok` of `Store::answer` and `Store::answer_with_reply`. A
//! request is put at the end of the history with the reply that the desk gives at its place, and
//! what is stored is always the history's replay.
#![tactic(auto)]

mod answer;
mod change;
mod full;
mod group;
mod reply;
mod size;
mod store;

pub use full::Full;
pub use store::{ENTRY_LIMIT, Store, TEXT_LIMIT};
