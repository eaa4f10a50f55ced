//! The definitions of keys, sorted to be found by halving.

ghost use Rattle.std.specs.Prelude.{◌≡◌, ◌≤◌, ℕ, true, false, not, length, IfOk, OnOk};
ghost use Rattle.std.specs.Option.{option_copied};
ghost use Rattle.std.specs.List.Sorted.{IsPartitionPoint};
ghost use Rattle.key_scopes.specs.Defined as spec;
ghost use Rattle.key_scopes.specs.Numbered as numbered_spec;
ghost use Rattle.key_scopes.specs.Outermost as outermost_spec;
ghost use Rattle.key_scopes.specs.Table as table_spec;

use crate::spans::Spans;
use dita_doc::Text;
use std::alloc::{AllocError, Global};
use std::cmp::Ordering;

/// A key that a node defines: the key, the scope, and the level and the place of the node. In this
/// order a scope's first definition of a key stands before its others.
pub(crate) type WrittenKey<'a> = (&'a str, u32, u32, u32);

/// A scope's first definition of a key.
#[derive(Drop)]
pub(crate) struct Definition {
    key: Text,
    pub scope: u32,
    pub node: u32,
    // The place of the outermost definition of the same key in this scope or one around it.
    top: usize,
}

/// The first definitions of all scopes, by key and then by scope.
#[derive(Drop)]
pub(crate) struct Definitions {
    sorted: Vec<Definition>,
}

impl Definitions {
    /// Those among keys that so many nodes define. No node's level is beyond their count: a key at
    /// such a level is passed over.
    pub(crate) fn of(
        alloc: Global,
        written: Vec<WrittenKey<'_>>,
        count: usize,
        spans: &Spans,
    ) -> Result<Definitions, AllocError>
        ensures topped { IfOk result (λ made.
            outermost_spec.AreTopped spans.now.ends.items made.sorted.items) }
        ensures firsts { IfOk result (λ made. spec.AreFirsts count
            (numbered_spec.entries written.entry.items) (table_spec.firsts_of made.sorted.items)) }
    {
        let mut written = written;
        written.sort_unstable();
        let mut sorted: Vec<Definition> = Vec::new(alloc);
        for entry in &written {
            push_entry(alloc, &mut sorted, spans, count, *entry)?;
        }
        Ok(Definitions { sorted })
    }

    /// The node of a scope's own definition of a key, if there is one.
    pub(crate) fn own(&self, scope: u32, key: &[u8]) -> Option<u32>
        ensures { spec.AreStrict (table_spec.firsts_of self.now.sorted.items)
            → result
            ≡ table_spec.own_in (table_spec.firsts_of self.now.sorted.items) scope key.now }
    {
        let at = place_for(&self.sorted, scope, key);
        own_at(&self.sorted, at, scope, key)
    }

    /// The first scope from this one on that defines a key itself.
    pub(crate) fn holder_from(&self, scope: u32, key: &[u8]) -> Option<u32>
        ensures { spec.AreStrict (table_spec.firsts_of self.now.sorted.items)
            → spec.IsNextHolder (λ other.
            table_spec.own_in (table_spec.firsts_of self.now.sorted.items) other key.now)
            scope result }
    {
        let at = place_for(&self.sorted, scope, key);
        scope_at(&self.sorted, at, key)
    }

    /// The definition of a key in the outermost scope that is this one or stands around it.
    pub(crate) fn outermost(&self, spans: &Spans, scope: u32, key: &[u8]) -> Option<&Definition>
        ensures { spec.AreStrict (table_spec.firsts_of self.now.sorted.items)
            → option_copied result
            ≡ outermost_spec.outermost_by spans.now.ends.items self.now.sorted.items
            (spec.count_upto scope key.now self.now.sorted.items) scope key.now }
    {
        let count = place_behind(&self.sorted, scope, key);
        outermost_by(&self.sorted, spans, count, scope, key)
    }
}

impl Definition {
    fn is_of(&self, key: &str, scope: u32) -> bool
        ensures { result ≡ table_spec.is_first scope key.now (table_spec.first_of self.now) }
    {
        self.scope == scope && key == self.key.as_str()
    }

    // How it stands to a definition of this key in this scope.
    fn order(&self, scope: u32, key: &[u8]) -> Ordering
        ensures { result
            ≡ spec.first_order (table_spec.first_of self.now) (spec.probe scope key.now) }
    {
        self.key.as_bytes().cmp(&key).then(self.scope.cmp(&scope))
    }
}

// How many definitions stand before one of this key in this scope.
fn place_for(sorted: &[Definition], scope: u32, key: &[u8]) -> usize
    ensures { spec.AreStrict (table_spec.firsts_of sorted.now) → IsPartitionPoint
        (λ own. spec.is_below scope key.now own ≡ true)
        (λ own. spec.is_below scope key.now own ≡ false) sorted.now result }
{
    sorted.partition_point(|own| own.order(scope, key) == Ordering::Less)
}

// How many definitions do not stand behind one of this key in this scope.
fn place_behind(sorted: &[Definition], scope: u32, key: &[u8]) -> usize
    ensures within { result ≤ length sorted.now }
    ensures place { spec.AreStrict (table_spec.firsts_of sorted.now) → IsPartitionPoint
        (λ own. not (spec.is_behind scope key.now own) ≡ true)
        (λ own. not (spec.is_behind scope key.now own) ≡ false) sorted.now result }
{
    sorted.partition_point(|own| own.order(scope, key) != Ordering::Greater)
}

// The outermost definition of a key by the last that is not behind it, of so many.
fn outermost_by<'a>(
    sorted: &'a [Definition],
    spans: &Spans,
    count: usize,
    scope: u32,
    key: &[u8],
) -> Option<&'a Definition>
    ensures { option_copied result
        ≡ outermost_spec.outermost_by spans.now.ends.items sorted.now count scope key.now }
{
    let last = sorted.get(count.checked_sub(1)?)?;
    if key != last.key.as_bytes() {
        return None;
    }
    let top = sorted.get(last.top)?;
    if spans.encloses(top.scope, scope) {
        Some(top)
    } else {
        None
    }
}

// The node of the definition at a place, if it is of this key in this scope.
fn own_at(sorted: &[Definition], at: usize, scope: u32, key: &[u8]) -> Option<u32>
    ensures { result ≡ spec.own_at sorted.now at scope key.now }
{
    let own = sorted.get(at)?;
    if own.order(scope, key) == Ordering::Equal {
        Some(own.node)
    } else {
        None
    }
}

// The scope of the definition at a place, if it is of this key.
fn scope_at(sorted: &[Definition], at: usize, key: &[u8]) -> Option<u32>
    ensures { result ≡ spec.scope_at sorted.now at key.now }
{
    let own = sorted.get(at)?;
    if key == own.key.as_bytes() {
        Some(own.scope)
    } else {
        None
    }
}

// Puts the definition of a key behind the others, unless its level is beyond the count, or the last
// one is of the same key and scope.
fn push_entry(
    alloc: Global,
    sorted: &mut Vec<Definition>,
    spans: &Spans,
    count: usize,
    entry: WrittenKey<'_>,
) -> Result<(), AllocError>
    ensures topped { outermost_spec.AreTopped spans.now.ends.items sorted.old.items
        → OnOk result (outermost_spec.AreTopped spans.now.ends.items sorted.new.items) }
    ensures firsts { OnOk result (table_spec.firsts_of sorted.new.items
        ≡ spec.with_entry count (table_spec.firsts_of sorted.old.items)
        (numbered_spec.entry_of entry.entry)) }
{
    let (key, scope, level, node) = entry;
    if (level as usize) < count {
        push_first(alloc, sorted, spans, key, scope, node)?;
    }
    Ok(())
}

// Puts the definition of a key in a scope behind the others, unless the last one is of the same key
// and scope.
fn push_first(
    alloc: Global,
    sorted: &mut Vec<Definition>,
    spans: &Spans,
    key: &str,
    scope: u32,
    node: u32,
) -> Result<(), AllocError>
    ensures topped { outermost_spec.AreTopped spans.now.ends.items sorted.old.items
        → OnOk result (outermost_spec.AreTopped spans.now.ends.items sorted.new.items) }
    ensures firsts { (level : ℕ) → OnOk result (table_spec.firsts_of sorted.new.items
        ≡ spec.with_first (table_spec.firsts_of sorted.old.items)
        (numbered_spec.entry scope level node key.now)) }
{
    if is_last_of(sorted, key, scope) {
        return Ok(());
    }
    let top = top_for(sorted, spans, key, scope);
    let key = Text::from_str(alloc, key)?;
    sorted.push(Definition {
        key,
        scope,
        node,
        top,
    })?;
    Ok(())
}

fn is_last_of(sorted: &[Definition], key: &str, scope: u32) -> bool
    ensures { (level node : ℕ) → result ≡ spec.is_last_of (table_spec.firsts_of sorted.now)
        (numbered_spec.entry scope level node key.now) }
{
    match sorted.last() {
        Some(last) => last.is_of(key, scope),
        None => false,
    }
}

// The place of the outermost definition of a key in a scope or one around it, where those before it
// stand and it is put behind them.
fn top_for(sorted: &[Definition], spans: &Spans, key: &str, scope: u32) -> usize
    ensures { result ≡ outermost_spec.top_for spans.now.ends.items sorted.now key.now scope }
{
    let Some(last) = sorted.last() else {
        return sorted.len();
    };
    if key == last.key.as_str() && spans.encloses(scope_in(sorted, last.top), scope) {
        last.top
    } else {
        sorted.len()
    }
}

fn scope_in(sorted: &[Definition], at: usize) -> u32
    ensures { result ≡ outermost_spec.scope_in sorted.now at }
{
    match sorted.get(at) {
        Some(own) => own.scope,
        None => 0,
    }
}
