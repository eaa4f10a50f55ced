//! Definitions of what a build reads: the world of the documents that are stored.
//!
//! What is used above it: `World`, over which every part of the language is defined.
#![tactic(auto)]
