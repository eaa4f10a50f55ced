//! Definitions of the parts of a build, and of the clean build that they make up.
//!
//! What is used above it: `page_part` and `contents_part` of a build, and `clean_build`.
#![tactic(auto)]
