//! The definition of faithful transcripts and the generator's script, computed on small scripts (in
//! `proofs/`). Nothing stands on this crate.
#![tactic(auto)]
