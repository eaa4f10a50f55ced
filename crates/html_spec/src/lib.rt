//! Definitions of HTML: the links that elements show, tables, bodies, pages and the contents page.
//!
//! What is used above it: `body_html`, `page_text`, `contents` and the anchors of a page.
#![tactic(auto)]
