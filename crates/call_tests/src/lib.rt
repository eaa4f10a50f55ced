//! Tests of the public calls of the crates below the desk, each on its way to success, and of their
//! adapters. They stand in one crate of their own, since the proof of a crate's tests proves the
//! whole crate once more. Nothing stands on this crate.
#![tactic(auto)]

#[cfg(test)]
mod classes;
#[cfg(test)]
mod given;
#[cfg(test)]
mod lists;
#[cfg(test)]
mod outside;
#[cfg(test)]
mod pages;
#[cfg(test)]
mod pyx;
#[cfg(test)]
mod references;
#[cfg(test)]
mod reports;
#[cfg(test)]
mod rules;
#[cfg(test)]
mod scripts;
#[cfg(test)]
mod store;
#[cfg(test)]
mod targets;
#[cfg(test)]
mod terms;
#[cfg(test)]
mod titles;
#[cfg(test)]
mod transcripts;
#[cfg(test)]
mod words;
