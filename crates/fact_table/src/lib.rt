//! The table of finished parts: the rows that are kept for later builds, and the claims that run.
//!
//! What is used above it: a claim is answered as `IsClaimAnswer` says, and a claim, a publish and a
//! release leave the table that the definitions of `facts` give. A publish and a release take no
//! memory.
#![tactic(auto)]

mod claims;
mod memo;
mod ranks;
mod shelf;
mod table;
mod ticket;

pub use table::Table;
pub use ticket::{Claimed, Ticket};
