//! The faults of a build: their report, and the line of each.
//!
//! What is used above it: `report` gives the distinct faults in one order, and `fault_line` the line
//! that shows a fault.
#![tactic(auto)]

mod distinct;
mod line;
mod order;

pub use distinct::report;
pub use line::fault_line;
