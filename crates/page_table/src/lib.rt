//! Pages of a plan, found by their documents and by what sets them apart.
//!
//! What is used above it: `find` gives exactly the page of the definition.
#![tactic(auto)]

mod keys;
mod table;

pub use table::PageTable;
