//! The plan of a build: the nodes of its map with their submaps, filtered, with branches copied,
//! cascaded and in scopes; and its pages.
//!
//! What is used above it: `planned`, over a reader that knows titles, which also gives what was found
//! of the nodes.
#![tactic(auto, using(crate::proofs::Planning::planning))]

mod keyed;
mod map_nodes;
mod map_there;
mod rules;
mod scoped;
mod steps;

pub use scoped::Planned;
pub use steps::planned;
