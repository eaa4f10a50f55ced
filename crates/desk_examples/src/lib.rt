//! The definitions of rows, tables, facts and the book, computed on small ones (in `proofs/`).
//! Nothing stands on this crate.
#![tactic(auto)]
