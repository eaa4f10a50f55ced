//! What a document is, its title and its first topic.
//!
//! What is used above it: the contracts of `kind_of`, `title_of` and `first_of`, each the
//! definition of what it answers.
#![tactic(auto)]

mod kind;
mod title;
mod topics;

pub use kind::kind_of;
pub use title::title_of;
pub use topics::first_of;
