//! Titles over any reader of documents: what documents are, and what they are called.
//!
//! What is used above it: the clauses of `Reader` and `Titles` of `readers`, which `TitleLayer`
//! meets over any `Reader`, and its ghost fields, by which they go down to that reader.
#![tactic(auto, using(crate::proofs::Rules::noting))]

mod found;
mod layer;

pub use layer::TitleLayer;
