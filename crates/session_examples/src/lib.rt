//! The definitions of sessions over a link and of the mode `serve`, computed on small sessions (in
//! `proofs/`). Nothing stands on this crate.
#![tactic(auto)]
