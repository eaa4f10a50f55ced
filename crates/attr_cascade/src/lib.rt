//! The attributes that cascade in a map: what holds at each node, by its walk to the root.
//!
//! What is used above it: each node of the plan carries its values, so that no later step walks up
//! again. It is proved that these are the values that hold by the walk to the root, each exactly, if
//! the nodes stand in preorder; and that no documents but those of the nodes are asked for.
#![tactic(auto)]

mod nearest;
mod tokens;
mod values;

pub use values::cascade;
