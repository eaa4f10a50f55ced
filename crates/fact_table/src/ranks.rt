//! The rank of each key's newest row.

ghost use Rattle.std.specs.Prelude.{◌≡◌, OnOk};
ghost use Rattle.facts.specs.Judged as judged_spec;
ghost use Rattle.fact_table.specs.Ranks as spec;

use dita_doc::{FactKey, NoMemory};
use std::collections::BTreeMap;
use std::mem::replace;

// Whether two keys are the same, by the order in which the map has them.
pub(crate) fn is_same(one: &FactKey, other: &FactKey) -> bool
    ensures { judged_spec.Tells result (one.now ≡ other.now) }
{
    one.cmp(other).is_eq()
}

// The rank of a key; 0 if it has no entry.
pub(crate) fn rank_of(ranks: &BTreeMap<FactKey, u64>, key: &FactKey) -> u64
    ensures { result ≡ spec.rank_in ranks.now key.now }
{
    match ranks.get(key) {
        Some(rank) => *rank,
        None => 0,
    }
}

// Sees that a key has an entry.
pub(crate) fn enter(ranks: &mut BTreeMap<FactKey, u64>, key: &FactKey) -> Result<(), NoMemory>
    ensures same { spec.AreSame ranks.old ranks.new }
    ensures known { OnOk result (spec.IsKnown ranks.new key.now) }
{
    if ranks.contains_key(key) {
        return Ok(());
    }
    ranks.insert(key.clone()?, 0)?;
    Ok(())
}

// Gives a key that has an entry another rank, and answers its old one.
pub(crate) fn renew(ranks: &mut BTreeMap<FactKey, u64>, key: &FactKey, rank: u64) -> u64
    requires { spec.IsKnown ranks.old key.now }
    ensures older { result ≡ spec.rank_in ranks.old key.now }
    ensures renewed { spec.IsRenewed key.now rank ranks.old ranks.new }
    ensures known { spec.IsKnown ranks.new key.now }
{
    match ranks.get_mut(key) {
        Some(newest) => replace(newest, rank),
        None => unreachable!(),
    }
}

// Takes out a key's entry.
pub(crate) fn leave(ranks: &mut BTreeMap<FactKey, u64>, key: &FactKey)
    ensures { spec.IsRenewed key.now 0 ranks.old ranks.new }
{
    ranks.remove(key);
}
