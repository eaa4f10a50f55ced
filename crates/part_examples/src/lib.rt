//! A plan, a page, its content and a contents page, each made by itself over stored documents.
//! Nothing stands on this crate.
#![tactic(auto)]

#[cfg(test)]
mod parts;
