//! The reader over stored sources.
//!
//! What is used above it: the clauses of `Reader` and `Titles` of `readers`, which `SourceReader`
//! meets, and what `KnownTitles` answers of the stored sources without telling it.
#![tactic(auto, using(crate::proofs::Rules::noting))]

mod known_titles;
mod reader;

pub use known_titles::KnownTitles;
pub use reader::SourceReader;
