//! Kept rows to the lines by which a transcript cites them.
//!
//! What is used above it: the contract of `write_row`. What is written has the form of transcripts.
#![tactic(auto)]

mod write;

pub use write::write_row;
