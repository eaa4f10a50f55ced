//! The lock round the book of a desk of many threads: its calls, what each caller knows, the rule
//! that holds between any two steps, and what each step changes.
//!
//! What is used above it: the relations of `Calls`, one for each way in which a call ends, and
//! `RuleKept`, the rule.
#![tactic(auto)]

mod claims;
mod desk;
mod entries;
mod events;
mod gate;
mod no_judge;
mod plays;
mod rule;
mod tokens;
mod view;

pub use desk::{Desk, Hand, Pass};
pub use plays::{
    Both, Commit, Compare, Cut, Draw, Give, Meet, Picked, Print, Release, See, Share, Try,
};
pub use rule::{Order, Shown};
pub use view::View;
