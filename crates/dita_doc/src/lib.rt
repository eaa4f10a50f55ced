//! The vocabulary that every other crate shares: texts, names, trees of documents, requests and
//! replies, stored sources, faults, and the types of plans, keys, content, questions and the keys of
//! finished parts.
//!
//! What is used above it: the facts that its types keep. A `Text` is UTF-8 and a `Name` a document
//! name; the nodes of a `Doc` are the preorder of a tree, and their origins are among its names;
//! what a `Body` says was read is the reading of its bytes; `Sources` stand by their names, each
//! once.
#![tactic(auto)]

mod block;
mod blocks;
mod body;
mod bytes;
mod class;
mod content;
mod doc;
mod escapes;
mod fact;
mod fault;
mod list;
mod name;
mod plan;
mod question;
mod request;
mod siblings;
mod sources;
mod sources_iter;
mod stop;
mod text;

pub use body::Body;
pub use bytes::{
    are_digits, is_blank, is_blank_byte, is_same, is_utf8, split_at_first, split_at_last,
    split_text_at_first,
};
pub use class::{ClassFault, ClassList, Sign, is_token, split_sign, split_word};
pub use content::{
    Action, Anchor, KeyAnswer, LinkKind, Mark, PageLink, Push, PushKind, PushList, Resolved, Rule,
    TermEntry,
};
pub use doc::{Attribute, Doc, Node, NodeKind};
pub use escapes::{append_html, append_html_value, append_pyx, append_unescaped, fold};
pub use fact::{FactKey, Html, Part};
pub use fault::{Fault, FaultCode, PyxCode, PyxFault, copy_faults};
pub use list::List;
pub use name::{NAME_LIMIT, Name, NotName, is_name};
pub use plan::{
    Affix, Context, Expanded, PageId, PagePlan, Plan, PlanKind, PlanNode, PlanStop, Reference,
    Scope, Target,
};
pub use question::{Answered, Asked, DocKind, Question};
pub use request::{Edit, EditFault, Entry, Read, Reply, Request};
pub use siblings::{First, Siblings};
pub use sources::{Sources, StoredDoc};
pub use sources_iter::SourcesIter;
pub use stop::{NoMemory, Stop};
pub use text::Text;
