//! The reader by which the parts of a plan are made over stored sources: it tells the questions of
//! one part alone, and goes on to the next with what it has found.
//!
//! What is used above it: `PlanReader` meets `Reader`, `Titles`, `Keys` and `Asker` of `readers`, and
//! `PlanTables` are the tables of a plan, which its readers and judges share.
#![tactic(auto, using(readers::proofs::Rules::noting))]

mod aside;
mod asker;
mod cache;
mod calls;
mod reader;
mod tables;

pub use cache::PlanCache;
pub use calls::answer_aside;
pub use reader::PlanReader;
pub use tables::PlanTables;
