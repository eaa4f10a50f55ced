//! Keys of a map's nodes over any reader that knows titles.
//!
//! What is used above it: the clauses of `Reader`, `Titles` and `Keys` of `readers`, which
//! `KeyLayer` meets over any `Titles`, and its ghost fields, by which they go down to that reader.
#![tactic(auto, using(readers::proofs::Rules::noting))]

mod asks;
mod calls;
mod layer;
mod memo;

pub use layer::KeyLayer;
pub use memo::{KeyAt, KeyMemo};
