//! The targets of content references: which element a `conref` or a `conkeyref` names, how far the
//! range behind it goes, what stands around it, and which elements the rules of a page exclude.
//!
//! What is used above it: `find_referenced` gives the target of an element's reference;
//! `range_end` and `around_found` say more of it; `PageRules::is_excluded` judges an element. What
//! they read of documents is kept in `PlaceTables` and `RuleLists`.
#![tactic(auto)]

mod find;
mod judge;
mod origin;
mod ranges;
mod reference;
mod rules;
mod standing;
mod tables;

pub use find::{Found, around_found, find_referenced};
pub use origin::{Whole, node_of, origin_of, whole_at};
pub use ranges::range_end;
pub use reference::Sought;
pub use rules::{PageRules, RuleLists};
pub use standing::NodeStanding;
pub use tables::PlaceTables;
