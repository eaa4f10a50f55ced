//! Documents made node by node.
//!
//! What is used above it: what a `DocMaker` gives at its end is the document of what was put into
//! it, each node with the document that it was written in, and resolved content also with the
//! document of each href and the names that are declared for each node.
#![tactic(auto)]

mod maker;
mod origins;

pub use maker::DocMaker;
