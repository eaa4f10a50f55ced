//! The traits through which evaluators look at documents, and what was told to a reader.
//!
//! What is used above it: the clauses of `Reader`, `Titles`, `Keys` and `Asker`.
#![tactic(auto)]

mod asker;
mod log_start;
mod questions;
mod title_table;

pub use asker::{Asker, Keys, Reader, Titles};
pub use log_start::LogStart;
pub use questions::{Note, Questions, share};
pub use title_table::{TitleKey, TitleTable};
