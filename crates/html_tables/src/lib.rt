//! Cells of tables: which head a column, and how many rows and columns they span.
//!
//! What is used above it: `cells`, which lists the cells of a table, and what the HTML of a page
//! asks of each cell on its own walk: `TableContext`, `Groups` and `rows_spanned`.
#![tactic(auto)]

mod columns;
mod context;
mod groups;
mod rows;
mod table;

pub use context::TableContext;
pub use groups::Groups;
pub use rows::rows_spanned;
pub use table::{Cell, cells};
