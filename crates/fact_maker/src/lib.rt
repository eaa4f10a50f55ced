//! The makers of facts: the plan of a build with its questions, and by one maker for each plan its
//! pages and its contents page, each with the questions of its own.
//!
//! What is used above it: the facts that are made are sound, and agree with the sources over which
//! they were made.
#![tactic(auto)]

mod findings;
mod html_made;
mod maker;
mod own_asked;
mod plain_call;
mod plan_facts;
mod ready;

pub use maker::Maker;
pub use plain_call::fact;
pub use plan_facts::plan_fact;
pub use ready::ReadyPlan;
