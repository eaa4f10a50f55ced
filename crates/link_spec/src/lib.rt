//! Definitions of the links of pages by collections and relationship tables.
//!
//! What is used above it: the lists of links of a page, and the page of a node.
#![tactic(auto)]
