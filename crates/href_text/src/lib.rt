//! References: the parts of a value, the document that its file names, and paths from one page to
//! another.
//!
//! What is used above it: the contracts of `read_reference`, `join_name` and `relative`, each the
//! definition of what it answers.
#![tactic(auto)]

mod fault;
mod path;
mod reference;

pub use fault::RefFault;
pub use path::{join_name, relative};
pub use reference::read_reference;
