//! Documents with the pushes into them: how a reader that tells pushes makes them, keeps them and
//! hands them out.
//!
//! What is used above it: `made_pushed`, `kept_pushed` and `with_pushes` over the traits `TellsPushes`
//! and `GivesTouched`, the tables `PushedMemo` and `PushedDocs`, and the notes of what a plan answers.
#![tactic(auto, using(crate::proofs::Rules::telling))]

mod docs;
mod made;
mod memo;
mod notes;

pub use docs::PushedDocs;
pub use made::{GivesTouched, TellsPushes, kept_pushed, made_pushed, with_pushes};
pub use memo::PushedMemo;
pub use notes::{page_note, pushes_known};
