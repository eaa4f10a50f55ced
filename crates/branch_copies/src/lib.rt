//! The copies of a map's branches.
//!
//! What is used above it: the contract of `copy_branches`, which gives what its definition gives.
#![tactic(auto)]

mod branch;
mod branches;
mod chains;
mod copies;
mod copying;
mod ditavals;
mod names;
mod node;
mod work;

pub use copies::copy_branches;
