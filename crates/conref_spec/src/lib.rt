//! Definitions of content with its references resolved, and of the documents that it is made from.
//!
//! What is used above it: `resolved_page`, `IsPageDocument` and `IsPageKey`.
#![tactic(auto)]
