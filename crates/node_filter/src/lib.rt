//! The nodes of a map filtered by rules, and what nodes are judged by: their elements, and the
//! conditional attributes that are declared for these.
//!
//! What is used above it: the contracts of `filter_nodes`, `Elements::of` and
//! `DeclaredNames::each`, which give what their definitions give.
#![tactic(auto)]

mod domains;
mod elements;
mod filter;
mod groups;
mod sieve;

pub use domains::DeclaredNames;
pub use elements::Elements;
pub use filter::filter_nodes;
