//! Definitions of what runs are: the answers to a script, the transcript and the pages of a run,
//! and its status.
//!
//! What is used above it: `run_over`, which says for any bytes with which status, pages and output a
//! run ends, with pages of terms (`terms_run`) or without (`clean_run`); how a batch, a run of the
//! generator, a trial and a run of `serve` end (`EndsBatch`, `EndsGen`, `EndsTrial`, `EndsServe`); the
//! language that is published (`dita`); and `Status`.
#![tactic(auto)]

mod status;

pub use status::Status;
