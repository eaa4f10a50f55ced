//! Key scopes, and the search for the definition of a key.
//!
//! What is used above it: `scopes` makes the table once for a map, `scope_table` once for a plan whose
//! nodes have their scopes, and `find` looks up keys in it without memory; each exactly.
#![tactic(auto)]

mod children;
mod definitions;
mod lookup;
mod made;
mod names;
mod numbering;
mod own_keys;
mod search;
mod spans;
mod table;

pub use lookup::look_up;
pub use made::{ScopesMade, into_scopes, scope_table, scopes};
pub use search::find;
pub use table::ScopeTable;
