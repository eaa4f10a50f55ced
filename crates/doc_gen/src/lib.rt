//! The generator of projects: the script of a number and of a count of topics.
//!
//! What is used above it: `project`, the call and the bytes of that script (in `specs/`).
#![tactic(auto)]

mod draws;
mod elements;
mod map;
mod requests;
mod topic;

pub use requests::project;
