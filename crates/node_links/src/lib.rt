//! The links between the pages of a plan, found once for all pages.
//!
//! What is used above it: `NodeLinks`, whose list of a page is made when it is asked for. Its
//! clauses say that the list is that of the definition `Links` of `link_spec`: by collections, and
//! then by relationship tables, to each page once.
#![tactic(auto)]

mod table;

pub use table::NodeLinks;
