//! Tests of links over WebSockets: of the link alone, over bytes in memory, and of the door with a
//! client of its own in a thread. Nothing stands on this crate.
#![tactic(auto)]

#[cfg(test)]
mod client;
#[cfg(test)]
mod known;
