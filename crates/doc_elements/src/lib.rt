//! Elements of documents: the types that they have, what stands in the place of transparent ones,
//! their children and plain texts, and the faults that stand at them.
//!
//! What is used above it: the contract of each call, which is the definition of what it answers.
#![tactic(auto)]

mod below;
mod children;
mod faults;
mod root;
mod special;
mod text;
mod types;

pub use below::first_under;
pub use children::first_child;
pub use faults::{append_faults, class_fault, fault_at};
pub use root::root_of;
pub use special::is_special;
pub use text::plain_text;
pub use types::{has_types, is_dita, is_transparent, tokens_of};
