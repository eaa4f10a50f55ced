//! Links between the pages of a plan: the nodes that they go from and to, and the list of one page,
//! in which each other page stands once.
//!
//! What is used above it: `LinkNodes`, which asks for the page of each node once, and `LinkList`,
//! to which the links by collections and by relationship tables are appended. Their clauses say
//! what the definition `Links` of `link_spec` says of one node, and of the links of one page.
#![tactic(auto)]

mod link_list;
mod link_nodes;
mod page_marks;

pub use link_list::LinkList;
pub use link_nodes::{LinkNode, LinkNodes, name_at, node_at};
