//! The element of a document that a fragment names.
//!
//! What is used above it: the contract of `find_target`, the definition of what it answers.
#![tactic(auto)]

mod elements;
mod meant;
mod node;
mod table;
mod target;
mod topics;

pub use table::TargetTable;
pub use target::find_target;
