//! One session over a link of messages: requests are read of what is received, and each is answered
//! by messages.
//!
//! What is used above it: the relation `ServesPass` of `Pass`, what a session did and what its pass knows then.
#![tactic(auto)]

mod answer;
mod ask;
mod end;
mod say;
mod serve;

pub use end::SessionEnd;
pub use serve::serve_link;
