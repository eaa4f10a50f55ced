//! DITAVAL rules: what is read of a DITAVAL, and which elements it excludes.
//!
//! What is used above it: `read_rules` gives the rules of a document with their faults; `verdict`
//! and `RuleTable::verdict` say whether an element is excluded, as one definition says it. Neither
//! verdict takes memory. `decided` and `RuleTable::decided` give the action of the rule that decides
//! a token. `declared` gives the names of the conditional attributes that a document
//! declares for an element, and `Declarations` those for many of its elements; `CONDITIONAL` has those
//! of all documents.
#![tactic(auto)]

mod decision;
mod declarations;
mod domains;
mod exclude;
mod reading;
mod rules;
mod table;

pub use decision::decided;
pub use declarations::Declarations;
pub use domains::{declared, names_declared, own_names};
pub use exclude::{CONDITIONAL, is_conditional, is_conditional_among, verdict};
pub use rules::{NotDitaval, RulesRead, read_rules};
pub use table::RuleTable;
