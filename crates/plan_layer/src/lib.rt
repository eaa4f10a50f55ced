//! The pushes and the pages of a plan over any reader that knows keys.
//!
//! What is used above it: the clauses of `Reader`, `Titles`, `Keys` and `Asker` of `readers`, which
//! `PlanLayer` meets over any `Keys`, and its ghost fields, by which they go down to that reader.
#![tactic(auto, using(readers::proofs::Rules::noting))]

mod asker;
mod asks;
mod calls;
mod layer;

pub use layer::PlanLayer;
