//! The definitions of the lock and of builds by workers, computed on small histories (in
//! `proofs/`); and tests of both, by one thread and by many. Nothing stands on this crate.
#![tactic(auto)]

#[cfg(test)]
mod chance;
#[cfg(test)]
mod crowd;
#[cfg(test)]
mod events;
#[cfg(test)]
mod passes;
#[cfg(test)]
mod rush;
#[cfg(test)]
mod tally;
#[cfg(test)]
mod toy;

// Builds by workers, in a language of their own.
#[cfg(test)]
mod builds;
#[cfg(test)]
mod line_language;

// Sessions over links, in the same language.
#[cfg(test)]
mod sessions;
