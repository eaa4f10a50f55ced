//! The contents page: the items of a map, with their labels and links.
//!
//! What is used above it: `contents`.
#![tactic(auto)]

mod href;
mod item;
mod keys;
mod label;
mod list;
mod page;
mod titles;

pub use page::contents;
