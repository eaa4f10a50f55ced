//! The links of a page's elements: where each cross reference, link, image and keyed element leads,
//! the text that it shows, and the links that the page's link elements list.
//!
//! What is used above it: `anchors`, whose answer has an anchor for each such element, in document
//! order, with the links and faults of all of them.
#![tactic(auto)]

mod hrefs;
mod image;
mod keyed;
mod lead;
mod link;
mod made;
mod page;
mod types;
mod walk;

pub use made::AnchorsMade;
pub use walk::anchors;
