//! The definitions of the language, computed on known maps and pages (in `proofs/`). Nothing stands
//! on this crate.
#![tactic(auto)]
