//! Finished parts of builds with the questions that they were made from, and the rows that keep
//! them for later builds.
//!
//! What is used above it: a copy of a row is the same row, and shares its fact; and what a judge's
//! answer tells.
#![tactic(auto)]

mod fact;
mod judged;
mod pair;
mod row;

pub use fact::{Fact, PlanFact};
pub use judged::{Judge, Judged, Parts};
pub use pair::FactPair;
pub use row::Row;
