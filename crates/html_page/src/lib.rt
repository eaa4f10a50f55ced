//! Pages as a whole.
//!
//! What is used above it: the bytes and the faults of a page are those that the definition of a
//! page gives for its title, its body and its links. Pages without a limit are made of the same
//! lines and anchors.
#![tactic(auto)]

mod faults;
mod links;
mod page;

pub use links::append_anchor;
pub use page::{page_html, page_text};
