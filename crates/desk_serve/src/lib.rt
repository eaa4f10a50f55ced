//! The mode `serve`: connections come in at a door, and each is a session of one desk.
//!
//! What is used above it: how `run_serve` ends, by `EndsServe` of `run_spec`.
#![tactic(auto)]

mod accept;
mod builds;
mod end;
mod run;
mod session;
mod tell;

pub use run::run_serve;
