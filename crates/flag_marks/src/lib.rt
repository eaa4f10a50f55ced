//! The flags of a page's elements: which marks the rules put on each element of resolved content.
//!
//! What is used above it: `marks_by` gives the marks of a body, as one definition says them, by
//! references to the lists of rules.
#![tactic(auto)]

mod element;
mod mark;
mod value;

pub use mark::marks_by;
