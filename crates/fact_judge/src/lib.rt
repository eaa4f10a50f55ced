//! What facts say of the language: when they agree with sources, when they are sound, and what they
//! may ask.
//!
//! What is used above it: `MapParts`, through which the table of rows and the book know the language,
//! and `SourceJudge`, which finds out of facts whether they agree with stored sources.
#![tactic(auto)]

mod map_parts;
mod plain_call;
mod planned;
mod source_judge;
mod stored;

pub use map_parts::MapParts;
pub use plain_call::judge;
pub use source_judge::SourceJudge;
