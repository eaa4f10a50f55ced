//! The nodes of maps: the elements that they stand for, copies of them, and where they stand.
//!
//! What is used above it: `NodeElements`, which asks for each document in which nodes stand once.
#![tactic(auto)]

mod copies;
mod node_elements;
mod places;
mod words;

pub use copies::{
    affix_texts, copy_affixes, copy_attributes, copy_names, copy_node, copy_nodes, copy_texts,
};
pub use node_elements::NodeElements;
pub use places::{fault_of, in_tables, place_of, set_ends};
pub use words::{contains_text, push_once, words_of};
