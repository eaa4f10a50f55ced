//! The HTML of a body: the bytes of resolved content with its links and its marks, and the faults met
//! on the way.
//!
//! What is used above it: `body_html`.
#![tactic(auto)]

mod body;
mod class;
mod context;
mod element;
mod link;
mod mark;
mod names;
mod overlay;
mod page;
mod start;
mod tags;

pub use body::body_html;
