//! What a reference leads to, by its value, its format and its scope; and key references, cut at
//! their `/`.
//!
//! What is used above it: the contracts of `target_by`, `named_of` and `split_key`, each the
//! definition of what it answers, so that one rule holds in maps, in keys, in links and in content.
#![tactic(auto)]

mod copies;
mod keyref;
mod named;
mod target;

pub use copies::{copy_answer, copy_reference, copy_target};
pub use keyref::split_key;
pub use named::{Named, named_of};
pub use target::{file_target, if_read, is_external, is_far, is_same_topic, target_by};
