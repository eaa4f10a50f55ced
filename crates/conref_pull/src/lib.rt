//! Content with its references resolved: what each `conref` and `conkeyref` names is brought in,
//! and what the rules of the build and of the page's filters exclude is left out.
//!
//! What is used above it: `resolve_page` gives the content of a whole page, and `resolve` that of
//! one node of its document; with the suffix `_with` they take tables that are made once for all
//! pages of a plan.
#![tactic(auto)]

mod accept;
mod calls;
mod chain;
mod merge;
mod name_set;
mod place;
mod resolver;
mod tables;
mod topics;
mod walk;

pub use calls::{resolve, resolve_page, resolve_page_with, resolve_with};
pub use tables::Tables;
