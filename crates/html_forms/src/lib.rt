//! The HTML forms of elements: what an element of each type becomes in a page, in one table.
//!
//! What is used above it: `row_of`, the token and the form of the last of an element's types that
//! the table has; `row_among`, the same for tokens that were read already; and `form_of`, the form
//! alone.
#![tactic(auto)]

mod forms;
mod rows;

pub use forms::Form;
pub use rows::{form_of, row_among, row_of};
