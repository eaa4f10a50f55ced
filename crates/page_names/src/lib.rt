//! Which nodes of a map make pages, what the pages are called, and what each reference leads to.
//!
//! What is used above it: `pages` makes the pages of a plan with the targets of its nodes, and
//! `target` gives that of one node, each exactly as the definition says.
#![tactic(auto)]

mod aim;
mod base;
mod documents;
mod made;
mod names;
mod page_uses;
mod uses;

pub use aim::target;
pub use made::{PAGE_LIMIT, PagesMade, pages};
