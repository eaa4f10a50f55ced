//! Tests in which each call of an object of the outside fails in turn, in a run of the mode `clean`
//! and in sessions over links. Nothing stands on this crate.
#![tactic(auto)]

#[cfg(test)]
mod batches;
#[cfg(test)]
mod objects;
#[cfg(test)]
mod project;
#[cfg(test)]
mod runs;
#[cfg(test)]
mod sessions;
