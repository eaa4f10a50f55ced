//! Calls that make one thing as a whole: the plan of a map over any reader, one page of a plan, its
//! content or its contents page, and the links of one page. No program calls them, as a build finds
//! once what its parts share; only laws, tests and examples stand on this crate.
//!
//! What is used above it: nothing. `plan`, `page`, `toc`, `resolved_page`, `by_rows` and
//! `by_families` give what the definitions say, in each world that agrees with what was told.
#![tactic(auto, using(crate::proofs::Calling::calling))]

mod build_tables;
mod found;
mod over_plan;
mod over_reader;
mod page_links;
mod resolved;
mod single_parts;
mod whole_plan;
mod with_keys;

pub use page_links::{LinksMade, by_families, by_rows};
pub use resolved::resolved_page;
pub use single_parts::{page, toc};
pub use whole_plan::plan;
