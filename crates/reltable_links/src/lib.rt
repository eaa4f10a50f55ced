//! Links by relationship tables: from each page in a cell of a row to those in its other cells, and
//! in a cell that is a family also to those beside it.
//!
//! What is used above it: `Rows`, made once for a plan. Its clauses say what the definition `Links` of
//! `link_spec` says of relationship tables.
#![tactic(auto)]

mod cells;
mod faults;
mod linked;
mod placed;
mod standings;
mod table;

pub use table::Rows;
