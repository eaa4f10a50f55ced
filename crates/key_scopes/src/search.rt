//! The search for a key.

ghost use Rattle.std.specs.Prelude.{◌≡◌, ◌<◌, ◌≤◌, ◌^◌, true, false, filter, find, is_some, length, nat_le, not, option_map, IfSome};
ghost use Rattle.std.specs.List.{All};
ghost use Rattle.std.specs.List.Sorted.{IsPartitionPoint};
ghost use Rattle.std.specs.Option.{option_copied, option_or};
ghost use Rattle.dita_doc.specs.declared.plan.Scope as scope_spec;
ghost use Rattle.key_scopes.specs.declared.children.ChildName.{ChildName};
ghost use Rattle.key_scopes.specs.Defined as defined_spec;
ghost use Rattle.key_scopes.specs.Found as found_spec;
ghost use Rattle.key_scopes.specs.Rising as rising_spec;
ghost use Rattle.key_scopes.specs.Steps as spec;
ghost use Rattle.key_scopes.specs.Table as table_spec;
ghost use Rattle.key_scopes.specs.Ways as ways_spec;

use crate::children::{ChildName, names_before, names_behind};
use crate::definitions::{Definition, Definitions};
use crate::table::ScopeTable;

// The way into a scope by one of its names, with which a key begins: the scope, where the name
// stands among those of the scope, and what is left of the key behind the name and its dot.
#[derive(Clone, Copy)]
pub(crate) struct SearchStep<'k> {
    pub child: u32,
    rank: usize,
    pub rest: &'k [u8],
}

impl SearchStep<'_> {
    // Whether it counts before the way by another name.
    fn is_before(&self, name: &ChildName) -> bool
        ensures order { result ≡ true → spec.step_order self.now < spec.name_order name.now }
        ensures value { result ≡ ways_spec.is_later self.now.child self.now.rank name.now }
    {
        self.child < name.child || (self.child == name.child && self.rank < name.rank)
    }
}

/// The node that defines a key, searched from the root scope down to this one: at each scope its own
/// definition, then that of a scope in it, whose name and a dot stand before the key. A scope that
/// is not in the table counts as the root scope. It takes no memory.
pub fn find(table: &ScopeTable, scope: u32, key: &[u8]) -> Option<u32>
    ensures { result ≡ found_spec.found_in table.now scope key.now }
{
    let scope = scope_within(table, scope);
    let own = table.definitions.outermost(&table.spans, scope, key);
    let from = from_of(table, scope, own);
    outer_or_own(by_dots(table, from, key), own)
}

// The scope, or the root scope if it is not in the table.
pub(crate) fn scope_within(table: &ScopeTable, scope: u32) -> u32
    ensures { result ≡ rising_spec.scope_within table.now.scopes scope }
{
    if (scope as usize) < table.scopes.len() {
        scope
    } else {
        0
    }
}

// The innermost scope whose qualified keys count before the outermost own definition.
pub(crate) fn from_of(table: &ScopeTable, scope: u32, own: Option<&Definition>) -> Option<u32>
    ensures { result ≡ rising_spec.from_of table.now.scopes scope (option_copied own.entry) }
{
    match own {
        Some(own) => table.around(own.scope),
        None => Some(scope),
    }
}

// The node that was found further out, or else that of the own definition.
pub(crate) fn outer_or_own(outer: Option<u32>, own: Option<&Definition>) -> Option<u32>
    ensures { result ≡ option_or outer
        (rising_spec.node_of (option_copied own.entry)) }
{
    match outer {
        Some(node) => Some(node),
        None => Some(own?.node),
    }
}

// As `outermost_qualified` does; a key without a dot has none.
fn by_dots(table: &ScopeTable, from: Option<u32>, key: &[u8]) -> Option<u32>
    ensures { result ≡ rising_spec.answer_up
        (rising_spec.by_names table.now.scopes (found_spec.own_of table.now) key.now)
        table.now.scopes from }
{
    if key.contains(&b'.') {
        outermost_qualified(table, from, key)
    } else {
        None
    }
}

// The definition by a qualified key at the outermost scope that has one, of this scope and those
// around it.
fn outermost_qualified(table: &ScopeTable, from: Option<u32>, key: &[u8]) -> Option<u32>
    ensures { result ≡ rising_spec.answer_up
        (rising_spec.by_names table.now.scopes (found_spec.own_of table.now) key.now)
        table.now.scopes from }
{
    let mut found = None;
    let mut here = from;
    while let Some(scope) = here {
        if let Some(node) = qualified(table, scope, key) {
            found = Some(node);
        }
        here = table.around(scope);
    }
    found
}

// The definition of a key that begins with a name of a scope in this one and a dot: that scope's own
// for the rest of the key, or again one of a scope in it. Of several the first scope's counts, and
// of its names the first. Into the last scope that fits the search goes on without a call.
fn qualified(table: &ScopeTable, scope: u32, key: &[u8]) -> Option<u32>
    ensures { result
        ≡ rising_spec.by_names table.now.scopes (found_spec.own_of table.now) key.now scope }
{
    let mut around = scope;
    let mut left = key;
    let mut step = next_step(table, around, left, None)?;
    loop {
        if let Some(node) = table.definitions.own(step.child, step.rest) {
            return Some(node);
        }
        match next_step(table, around, left, Some(step)) {
            Some(next) => {
                if let Some(node) = qualified(table, step.child, step.rest) {
                    return Some(node);
                }
                step = next;
            }
            None => {
                around = step.child;
                left = step.rest;
                step = next_step(table, around, left, None)?;
            }
        }
    }
}

// The first way behind this one from a scope into one of those in it by which something may be
// found. A key is cut at no dot behind the longest name. At each dot only names up to the first way
// so far are looked at, so that all steps together go through them once.
pub(crate) fn next_step<'k>(
    table: &ScopeTable,
    scope: u32,
    key: &'k [u8],
    after: Option<SearchStep<'_>>,
) -> Option<SearchStep<'k>>
    ensures rest { IfSome result (λ step. length step.rest.now < length key.now) }
    ensures behind { IfSome result (λ step. spec.last_order after.entry < spec.step_order step) }
    ensures low { IfSome result (λ step. spec.step_order step < 2 ^ 97) }
    ensures value { option_map ways_spec.way_of result ≡ ways_spec.next_way table.now.scopes
        (found_spec.own_of table.now) scope key.now (option_map ways_spec.way_of after.entry) }
{
    let children = &table.children;
    let mut first: Option<SearchStep<'k>> = None;
    for (dot, byte) in key.iter().enumerate() {
        if dot > children.longest {
            break;
        }
        if *byte != b'.' {
            continue;
        }
        let rest = &key[dot + 1..];
        let names = names_after(children.named(scope, &key[..dot]), after);
        if let Some(name) = first_holding(table, names_until(names, first), rest) {
            first = Some(step_into(name.child, name.rank, rest));
        }
    }
    first
}

// The way into a scope by its name of this rank.
fn step_into(child: u32, rank: usize, rest: &[u8]) -> SearchStep<'_>
    ensures way { ways_spec.way_of result
        ≡ record { child = child; rank = rank; rest = rest.now } }
    ensures order { spec.step_order result ≡ spec.order_of child rank }
    ensures rest { result.rest.now ≡ rest.now }
    ensures low { spec.step_order result < 2 ^ 97 }
{
    SearchStep { child, rank, rest }
}

// Those of some names in order that stand behind a way.
fn names_after<'a>(names: &'a [ChildName], after: Option<SearchStep<'_>>) -> &'a [ChildName]
    ensures order { ways_spec.AreInTurn names.now → All (λ name.
        spec.last_order after.entry < spec.name_order name) result.now }
    ensures value { ways_spec.AreInTurn names.now → result.now
        ≡ filter (ways_spec.is_behind (option_map ways_spec.way_of after.entry)) names.now }
{
    match after {
        Some(after) => names_behind(names, count_until(names, after)),
        None => names,
    }
}

// Those of some names in order that do not stand behind a way.
fn names_until<'a>(names: &'a [ChildName], until: Option<SearchStep<'_>>) -> &'a [ChildName]
    ensures { ways_spec.AreInTurn names.now → result.now
        ≡ filter (ways_spec.is_earlier (option_map ways_spec.way_of until.entry)) names.now }
{
    match until {
        Some(until) => names_before(names, count_until(names, until)),
        None => names,
    }
}

// How many of some names in order do not stand behind a way.
fn count_until(names: &[ChildName], until: SearchStep<'_>) -> usize
    ensures order { (name : ChildName)
        → ways_spec.is_later until.entry.child until.entry.rank name ≡ true
        → spec.step_order until.entry < spec.name_order name }
    ensures place { ways_spec.AreInTurn names.now → IsPartitionPoint
        (λ name. not (ways_spec.is_later until.entry.child until.entry.rank name) ≡ true)
        (λ name. not (ways_spec.is_later until.entry.child until.entry.rank name) ≡ false)
        names.now result }
{
    names.partition_point(|name| !until.is_before(name))
}

// Those of some names in order whose scope does not stand before this one.
fn names_from(names: &[ChildName], scope: u32) -> &[ChildName]
    ensures short { length result.now ≤ length names.now }
    ensures value { ways_spec.AreInTurn names.now
        → result.now ≡ filter (λ name. nat_le scope name.child) names.now }
{
    let count = names.partition_point(|name| name.child < scope);
    names_behind(names, count)
}

// The first of some names in order by which something may be found for what is left of a key.
fn first_holding<'a>(
    table: &ScopeTable,
    names: &'a [ChildName],
    rest: &[u8],
) -> Option<&'a ChildName>
    ensures { ways_spec.AreInTurn names.now → option_copied result ≡ find (λ name.
        ways_spec.may_hold (found_spec.own_of table.now) name.child rest.now) names.now }
{
    let first = names.first()?;
    if rest.contains(&b'.') {
        Some(first)
    } else {
        first_holder(&table.definitions, names, rest)
    }
}

// The first of some names in order whose scope defines a key itself. It goes by halving from a name
// to the first scope from there on that defines the key, and from that scope to its first name.
fn first_holder<'a>(
    definitions: &Definitions,
    names: &'a [ChildName],
    key: &[u8],
) -> Option<&'a ChildName>
    ensures { defined_spec.AreStrict (table_spec.firsts_of definitions.now.sorted.items)
        → ways_spec.AreInTurn names.now → option_copied result ≡ find (λ name. is_some
        (table_spec.own_in (table_spec.firsts_of definitions.now.sorted.items) name.child key.now))
        names.now }
{
    let mut left = names;
    while let Some((name, others)) = left.split_first() {
        let scope = definitions.holder_from(name.child, key)?;
        if scope == name.child {
            return Some(name);
        }
        left = names_from(others, scope);
    }
    None
}
