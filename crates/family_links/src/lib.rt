//! Links by collections: from each page of a sequence to those before and behind it, and from each
//! page of a family to all others.
//!
//! What is used above it: `Collections`, made once for a plan, whose links are exactly those of the
//! definition.
#![tactic(auto)]

mod families;
mod groups;
mod lists;
mod sequences;
mod table;

pub use table::Collections;
