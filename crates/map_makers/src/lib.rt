//! The makers and the judge of the parts of maps, as builds by workers take them.
//!
//! What is used above it: `MapMakers`, by which builds of maps are made.
#![tactic(auto)]

mod makers;

pub use makers::MapMakers;
