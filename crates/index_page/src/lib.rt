//! The index of terms: the entries that a page's content gives, and the page that lists entries.
//!
//! What is used above it: `terms_of` and `terms_html`, each the definition of what it answers.
#![tactic(auto)]

mod groups;
mod items;
mod page;
mod rows;
mod text;
mod walk;

pub use page::terms_html;
pub use walk::terms_of;
