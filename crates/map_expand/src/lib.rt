//! The nodes of a map with all maps that it includes.
//!
//! What is used above it is the contract of `expand`.
#![tactic(auto)]

mod element;
mod expansion;
mod faults;
mod maps;
mod node;
mod whole_map;
mod work;

pub use whole_map::expand;
