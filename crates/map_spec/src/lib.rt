//! Definitions of maps: their nodes, branches and cascade, key scopes and keys, pages and plans.
//!
//! What is used above it: `plan_of`, the plan of a map over a world, and the definitions of its
//! steps.
#![tactic(auto)]
