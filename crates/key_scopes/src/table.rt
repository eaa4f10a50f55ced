//! The table of scopes.

ghost use Rattle.std.specs.Prelude.{◌≡◌, ◌<◌, IfSome};
ghost use Rattle.key_scopes.specs.Above as above_spec;

use crate::children::ChildNames;
use crate::definitions::Definitions;
use crate::own_keys::KeyMap;
use crate::spans::Spans;
use dita_doc::{List, Scope, Text};
use indexmap::IndexMap;
use std::marker::Model;

/// The scopes of a map, with the keys that are defined in them.
#[derive(Drop)]
pub struct ScopeTable {
    pub(crate) scopes: List<Scope>,
    pub(crate) spans: Spans,
    pub(crate) definitions: Definitions,
    pub(crate) children: ChildNames,
    pub(crate) own_keys: Vec<KeyMap>,
}

impl Model for ScopeTable {
    ghost use Rattle.std.specs.Prelude.{length};
    ghost use Rattle.key_scopes.specs.Defined as defined_spec;
    ghost use Rattle.key_scopes.specs.OwnKeys.{rows_of};
    ghost use Rattle.key_scopes.specs.Table as spec;

    ghost Value = { spec.Table };

    ghost coded = { spec.table_code };

    ghost view = { λ t. record {
      scopes = t.scopes;
      ends = t.spans.ends.items;
      definitions = t.definitions.sorted.items;
      names = t.children.sorted.items;
      longest = t.children.longest;
      own_keys = rows_of t.own_keys.items;
    } };

    // What is found by halving stands in order, and each scope has its keys.
    ghost invariant = { λ t. defined_spec.IsInOrder t.scopes t.definitions.sorted.items
        t.children.sorted.items t.children.longest (length t.own_keys.items) };
}

impl ScopeTable {
    /// The scopes in preorder: first the root scope, then each with its parent before it.
    pub fn list(&self) -> &List<Scope>
        ensures { result.now ≡ self.now.scopes }
    {
        &self.scopes
    }

    /// The scope around a scope; none around the root scope, or if it is not in the table.
    pub(crate) fn around(&self, scope: u32) -> Option<u32>
        ensures lower { IfSome result (λ around. around < scope) }
        ensures value { result ≡ above_spec.around_in self.now.scopes scope }
    {
        let parent = self.scopes.as_slice().get(scope as usize)?.parent;
        if parent < scope { Some(parent) } else { None }
    }
}

impl ScopeTable {
    ghost use Rattle.std.specs.Prelude.{◌≡◌, ◌<◌, List, length};
    ghost use Rattle.dita_doc.specs.declared.plan.PlanNode.{PlanNode};
    ghost use Rattle.key_scopes.specs.Made as made_spec;
    ghost use Rattle.key_scopes.specs.OwnKeys as own_keys_spec;
    ghost use Rattle.reader_spec.specs.World.{World};

    /// The keys that a scope defines itself, each once, with the node that first defines it: in the
    /// order of definitions, by level and then by place. Qualified names are not among them.
    pub fn own(&self, scope: u32) -> &IndexMap<Text, u32>
        requires { scope < length self.now.scopes }
        ensures { (world : World) (nodes : List PlanNode)
            → made_spec.IsTableOf world nodes self.now → result.now.entries
            ≡ own_keys_spec.first_of_each (own_keys_spec.own_definitions world nodes scope) }
    {
        &self.own_keys[scope as usize]
    }
}
