//! What keys give where they are used: the node that defines a key, its target and its text.
//!
//! What is used above it: the contracts of `answer_with` and `answer_key`, over the elements of the
//! map's nodes, which are looked up once for all keys.
#![tactic(auto)]

mod chain;
mod defined;
mod given;
mod label;

pub use given::{answer, answer_key, answer_with};
