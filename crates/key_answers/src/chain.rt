//! The chain of definitions.

ghost use Rattle.std.specs.Prelude.{◌≡◌, ◌+◌, ℕ, [], length, IfOk};
ghost use Rattle.std.specs.Option.{option_to_list};
ghost use Rattle.map_spec.specs.Keys as keys_spec;
ghost use Rattle.reader_spec.specs.World.{World};
ghost use Rattle.key_answers.specs.Seen as spec;

use crate::defined::Defined;
use dita_doc::{Fault, FaultCode, List, NoMemory};
use key_scopes::look_up;
use std::alloc::{AllocError, Global};
use std::collections::BTreeSet;
use targets::split_key;

/// The places of the definitions that a key leads to, one after the other, and the faults of the
/// last step.
#[derive(Drop)]
pub(crate) struct Chain {
    pub met: Vec<u32>,
    pub faults: List<Fault>,
}

/// The chain of a key in a scope. It goes on with the key reference of the definition met last, and
/// ends at one without, at a key that is not defined, or before a definition that was met.
pub(crate) fn chain_of<'a>(
    alloc: Global,
    defined: Defined<'a>,
    scope: u32,
    key: &'a str,
) -> Result<Chain, NoMemory>
    ensures is { (world : World) → spec.AreOf world defined.entry
        → IfOk result (λ chain. spec.chain_seen chain
        ≡ keys_spec.chain world defined.entry.nodes.now scope key.now) }
    ensures enough { (world : World) (more : ℕ) → spec.AreOf world defined.entry
        → IfOk result (λ chain. spec.chain_seen chain
        ≡ keys_spec.chain_from (length defined.entry.nodes.now + 1 + more) world
        defined.entry.nodes.now [] scope key.now) }
{
    followed(alloc, defined, scope, key)
}

// Follows a chain for one step more than there are nodes.
fn followed<'a>(
    alloc: Global,
    defined: Defined<'a>,
    scope: u32,
    key: &'a str,
) -> Result<Chain, NoMemory>
    ensures { (world : World) → spec.AreOf world defined.entry
        → IfOk result (λ chain. spec.chain_seen chain
        ≡ keys_spec.chain world defined.entry.nodes.now scope key.now) }
{
    let mut met: Vec<u32> = Vec::new(alloc);
    let mut known = BTreeSet::new(alloc);
    let mut scope = scope;
    let mut key = key;
    for _step in 0..defined.nodes.len() + 1 {
        let found = look_up(alloc, defined.table, scope, key.as_bytes())?;
        let Some(at) = found else {
            let fault = undefined(alloc, defined, last_of(&met), key)?;
            return Ok(ended(alloc, met, fault)?);
        };
        if known.contains(&at) {
            let fault = defined.fault(alloc, at, FaultCode::KeyCycle, key)?;
            return Ok(ended(alloc, met, fault)?);
        }
        met.push(at)?;
        let Some(keyref) = defined.value(at, "keyref") else {
            return Ok(ended(alloc, met, None)?);
        };
        known.insert(at)?;
        scope = defined.scope(at);
        key = key_of(keyref);
    }
    Ok(ended(alloc, met, None)?)
}

// The key of a key reference.
fn key_of(keyref: &str) -> &str
    ensures { result.now ≡ keys_spec.key_of keyref.now }
{
    split_key(keyref).0
}

pub(crate) fn last_of(met: &[u32]) -> Option<u32>
    ensures { result ≡ keys_spec.last_of met.now }
{
    met.last().copied()
}

// The chain of these definitions, with the fault of its last step.
fn ended(alloc: Global, met: Vec<u32>, fault: Option<Fault>) -> Result<Chain, AllocError>
    ensures { IfOk result (λ chain. spec.chain_seen chain
        ≡ record { met = met.items; faults = option_to_list fault }) }
{
    let mut faults = List::new(alloc);
    if let Some(fault) = fault {
        faults.push(fault)?;
    }
    Ok(Chain { met, faults })
}

// The fault of a definition whose key is not defined, unless an href stands beside it.
fn undefined(
    alloc: Global,
    defined: Defined<'_>,
    last: Option<u32>,
    key: &str,
) -> Result<Option<Fault>, NoMemory>
    ensures { (world : World) → spec.AreOf world defined.entry
        → IfOk result (λ fault. option_to_list fault
        ≡ keys_spec.undefined_at world defined.entry.nodes.now key.now last) }
{
    match last {
        Some(at) if defined.value(at, "href").is_none() => {
            defined.fault(alloc, at, FaultCode::KeyUndefined, key)
        }
        _ => Ok(None),
    }
}
