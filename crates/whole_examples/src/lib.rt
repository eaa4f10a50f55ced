//! Whole examples: documents and scripts, and what comes of them. Tests that need more than one
//! crate stand here, and the definitions computed on known texts (in `proofs/`). Nothing stands on
//! this crate.
#![tactic(auto)]

#[cfg(test)]
mod asked;
#[cfg(test)]
mod batches;
#[cfg(test)]
mod documents;
#[cfg(test)]
mod faults;
#[cfg(test)]
mod gates;
#[cfg(test)]
mod generated;
#[cfg(test)]
mod no_room;
#[cfg(test)]
mod pages;
#[cfg(test)]
mod replies;
#[cfg(test)]
mod runs;
#[cfg(test)]
mod serving;
#[cfg(test)]
mod terms;
