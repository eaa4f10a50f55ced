//! The keys of each scope in the order of its definitions.

ghost use Rattle.std.specs.Prelude.{◌≡◌, [], IfOk, OnOk};
ghost use Rattle.key_scopes.specs.Numbered as numbered_spec;
ghost use Rattle.key_scopes.specs.OwnKeys as spec;

use crate::definitions::WrittenKey;
use dita_doc::{NoMemory, Text};
use indexmap::IndexMap;
use std::alloc::{AllocError, Global};

/// The keys of a scope in the order of their first definitions, each with the node of that one.
pub(crate) type KeyMap = IndexMap<Text, u32>;

/// Those of so many scopes, among keys that so many nodes define. No node's level is beyond their
/// count: a key at such a level is passed over.
pub(crate) fn own_keys(
    alloc: Global,
    written: &[WrittenKey<'_>],
    count: usize,
    scopes: usize,
) -> Result<Vec<KeyMap>, NoMemory>
    ensures { IfOk result (λ maps. spec.rows_of maps.items
        ≡ spec.rows_by scopes (spec.by_level count (numbered_spec.entries written.now))) }
{
    let mut ordered = Vec::from_slice(alloc, written)?;
    ordered.sort_by_key(|entry| entry.2)?;
    let mut maps = no_keys(alloc, scopes)?;
    for entry in &ordered {
        put_entry(alloc, &mut maps, count, *entry)?;
    }
    Ok(maps)
}

// So many scopes without keys.
fn no_keys(alloc: Global, scopes: usize) -> Result<Vec<KeyMap>, AllocError>
    ensures { IfOk result (λ maps. spec.rows_of maps.items ≡ spec.rows_by scopes []) }
{
    let mut maps: Vec<KeyMap> = Vec::new(alloc);
    for _ in 0..scopes {
        maps.push(IndexMap::new(alloc))?;
    }
    Ok(maps)
}

// Puts a key behind the others of its scope, unless its level is beyond the count, or it is there.
fn put_entry(
    alloc: Global,
    maps: &mut Vec<KeyMap>,
    count: usize,
    entry: WrittenKey<'_>,
) -> Result<(), NoMemory>
    ensures { OnOk result (spec.rows_of maps.new.items
        ≡ spec.with_entry count (spec.rows_of maps.old.items)
        (numbered_spec.entry_of entry.entry)) }
{
    let (key, scope, level, node) = entry;
    if (level as usize) < count {
        let key = Text::from_str(alloc, key)?;
        put_in_scope(maps, scope as usize, key, node)?;
    }
    Ok(())
}

fn put_in_scope(maps: &mut Vec<KeyMap>, scope: usize, key: Text, node: u32) -> Result<(), NoMemory>
    ensures { OnOk result (spec.rows_of maps.new.items
        ≡ spec.with_key_at scope (key, node) (spec.rows_of maps.old.items)) }
{
    if scope < maps.len() {
        put_first(&mut maps[scope], key, node)?;
    }
    Ok(())
}

// Puts a key behind the others, unless it is there.
fn put_first(map: &mut KeyMap, key: Text, node: u32) -> Result<(), NoMemory>
    ensures { OnOk result (map.new.entries ≡ spec.with_key (key, node) map.old.entries) }
{
    if !map.contains_key(&key) {
        map.insert(key, node)?;
    }
    Ok(())
}
