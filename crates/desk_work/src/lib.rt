//! Builds whose parts are made by workers.
//!
//! What is used above it: the relation `Ends` of `Build`, what a build gives and what its caller
//! knows then, by the way in which it ends.
#![tactic(auto)]

mod bench;
mod building;
mod built;
mod deal;
mod deliver;
mod makers;
mod outcome;
mod rounds;
mod team;
mod work;

pub use building::build;
pub use built::{BuildStop, Built, Outcome, PageRow};
pub use makers::Makers;
