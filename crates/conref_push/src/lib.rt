//! Pushes of content: what goes into a document from others, the faults of pushing elements, and
//! the document with its pushes.
//!
//! What is used above it: the table of all pushes of some documents, what goes into each of them,
//! and the document with its pushes, each exactly as the definition says.
#![tactic(auto)]

mod acts;
mod attributes;
mod entries;
mod pushed_doc;
mod pushing;
mod sources;
mod table;
mod target_docs;

pub use acts::has_conaction_in;
pub use pushed_doc::{ask_pushed, pushed};
pub use table::{PushTable, pushes_into};
