//! The search for a key among scopes of any depth.

ghost use Rattle.std.specs.Prelude.{◌≡◌, ℕ, List, None, false, IfOk, OnOk};
ghost use Rattle.key_scopes.specs.Found as found_spec;
ghost use Rattle.key_scopes.specs.Lookup as spec;
ghost use Rattle.key_scopes.specs.Rising as rising_spec;
ghost use Rattle.key_scopes.specs.Table.{Table};

use crate::search::{SearchStep, from_of, next_step, outer_or_own, scope_within};
use crate::table::ScopeTable;
use dita_doc::NoMemory;
use std::alloc::{AllocError, Global};
use std::collections::BTreeSet;

// Scopes in which nothing is found for what is left of a key, each with how many bytes are left.
type DeadEnds = BTreeSet<(u32, usize)>;

// The most that are remembered at once, in some 30 MB.
const DEAD_END_LIMIT: usize = 1 << 20;

// A scope that is looked into for what is left of a key, and the way into one in it that was taken
// last.
#[derive(Clone, Copy)]
struct OpenScope<'k> {
    scope: u32,
    rest: &'k [u8],
    last: Option<SearchStep<'k>>,
}

/// As `find`, but it calls itself for no scope and remembers where it found nothing, so that scopes
/// may lie within one another as deep as they do, and none is looked into twice for the same rest of
/// the key unless a million are remembered, which are forgotten then.
pub fn look_up(
    alloc: Global,
    table: &ScopeTable,
    scope: u32,
    key: &[u8],
) -> Result<Option<u32>, NoMemory>
    ensures { IfOk result (λ node. node ≡ found_spec.found_in table.now scope key.now) }
{
    let scope = scope_within(table, scope);
    let own = table.definitions.outermost(&table.spans, scope, key);
    let from = from_of(table, scope, own);
    let outer = outer_of(alloc, table, from, key)?;
    Ok(outer_or_own(outer, own))
}

// The definition by a qualified key at the outermost scope that has one, of this scope and those
// around it; a key without a dot has none.
fn outer_of(
    alloc: Global,
    table: &ScopeTable,
    from: Option<u32>,
    key: &[u8],
) -> Result<Option<u32>, AllocError>
    ensures { IfOk result (λ found. found ≡ rising_spec.answer_up
        (rising_spec.by_names table.now.scopes (found_spec.own_of table.now) key.now)
        table.now.scopes from) }
{
    if key.contains(&b'.') {
        outermost_by_ways(alloc, table, from, key)
    } else {
        Ok(None)
    }
}

// The definition by a key with a dot at the outermost scope that has one, of this scope and those
// around it. What one scope shows to hold nothing is remembered for those around it.
fn outermost_by_ways(
    alloc: Global,
    table: &ScopeTable,
    from: Option<u32>,
    key: &[u8],
) -> Result<Option<u32>, AllocError>
    ensures { IfOk result (λ found. found ≡ rising_spec.answer_up
        (rising_spec.by_names table.now.scopes (found_spec.own_of table.now) key.now)
        table.now.scopes from) }
{
    let mut dead_ends = BTreeSet::new(alloc);
    let mut found = None;
    let mut here = from;
    while let Some(scope) = here {
        let inside = by_ways(alloc, table, scope, key, &mut dead_ends)?;
        found = inside.or(found);
        here = table.around(scope);
    }
    Ok(found)
}

// The definition of a key that begins with a name of a scope in this one and a dot: that scope's own
// for the rest of the key, or again one of a scope in it. Of several the first scope's counts, and
// of its names the first. Scopes in which nothing is found are noted.
fn by_ways(
    alloc: Global,
    table: &ScopeTable,
    scope: u32,
    key: &[u8],
    dead_ends: &mut DeadEnds,
) -> Result<Option<u32>, AllocError>
    requires { spec.AreDeadEnds table.now key.now dead_ends.old }
    ensures found { IfOk result (λ found. found
        ≡ rising_spec.by_names table.now.scopes (found_spec.own_of table.now) key.now scope) }
    ensures ends { OnOk result (spec.AreDeadEnds table.now key.now dead_ends.new) }
{
    let mut entered = Vec::new(alloc);
    entered.push(OpenScope {
        scope,
        rest: key,
        last: None,
    })?;
    while let Some(inner) = entered.pop() {
        let Some(step) = next_step(table, inner.scope, inner.rest, inner.last) else {
            note(dead_ends, inner.scope, inner.rest.len())?;
            continue;
        };
        if let Some(node) = table.definitions.own(step.child, step.rest) {
            return Ok(Some(node));
        }
        entered.push(OpenScope {
            last: Some(step),
            ..inner
        })?;
        if may_hold(dead_ends, step) {
            entered.push(OpenScope {
                scope: step.child,
                rest: step.rest,
                last: None,
            })?;
        }
    }
    Ok(None)
}

// Whether something may be found in the scope of this way: what is left of the key has a dot, and it
// is not remembered that there is nothing.
fn may_hold(dead_ends: &DeadEnds, step: SearchStep<'_>) -> bool
    ensures { result ≡ false → (table : Table) (key : List ℕ)
        → spec.AreDeadEnds table key dead_ends.now → spec.EndsWith key step.entry.rest.now
        → rising_spec.by_names table.scopes (found_spec.own_of table) step.entry.rest.now
        step.entry.child ≡ None }
{
    step.rest.contains(&b'.') && !dead_ends.contains(&(step.child, step.rest.len()))
}

// Remembers that nothing is found in a scope for so many last bytes of a key. If too many such scopes
// are remembered, they are forgotten first.
fn note(dead_ends: &mut DeadEnds, scope: u32, left: usize) -> Result<(), AllocError>
    ensures { OnOk result (spec.IsNoted scope left dead_ends.old dead_ends.new) }
{
    if dead_ends.len() >= DEAD_END_LIMIT {
        dead_ends.clear();
    }
    dead_ends.insert((scope, left))?;
    Ok(())
}
