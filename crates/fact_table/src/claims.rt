//! Claims that run.

ghost use Rattle.std.specs.Prelude.{◌≡◌, IfSome, IfNone};
ghost use Rattle.facts.specs.Judged as judged_spec;
ghost use Rattle.facts.specs.Latest as latest_spec;
ghost use Rattle.facts.specs.Table as table_spec;
ghost use Rattle.fact_table.specs.Claims as spec;

use crate::ranks::is_same;
use dita_doc::{FactKey, Sources};
use std::sync::Arc;

// A claim that runs, with the sources of its snapshot.
#[derive(Drop)]
pub(crate) struct RunningClaim {
    pub serial: u64,
    pub key: FactKey,
    pub stamp: u64,
    pub sources: Arc<Sources>,
}

// The serial of the claim that runs for a key and a stamp, if one does.
pub(crate) fn claim_for(claims: &[RunningClaim], key: &FactKey, stamp: u64) -> Option<u64>
    ensures found { IfSome result (λ serial.
        spec.IsSerialFor (spec.claims_seen claims.now) key.now stamp serial) }
    ensures absent { IfNone result
        (latest_spec.NoneRuns (spec.claims_seen claims.now) key.now stamp) }
{
    for claim in claims {
        if is_for(claim, key, stamp) {
            return Some(claim.serial);
        }
    }
    None
}

// Whether a claim is for this key and this stamp.
fn is_for(claim: &RunningClaim, key: &FactKey, stamp: u64) -> bool
    ensures { judged_spec.Tells result (spec.IsFor key.now stamp claim.now) }
{
    if claim.stamp != stamp {
        return false;
    }
    is_same(&claim.key, key)
}

// Whether a claim of this key runs.
pub(crate) fn runs(claims: &[RunningClaim], key: &FactKey) -> bool
    ensures { spec.TellsRunning (spec.claims_seen claims.now) key.now result }
{
    for claim in claims {
        if is_same(&claim.key, key) {
            return true;
        }
    }
    false
}

// How many names are stored in the sources of the claim of this serial.
pub(crate) fn names_of(claims: &[RunningClaim], serial: u64) -> u64
    ensures { spec.AreNamesOf (spec.claims_seen claims.now) serial result }
{
    for claim in claims {
        if claim.serial == serial {
            return claim.sources.names();
        }
    }
    0
}

// Takes out the claim of this serial.
pub(crate) fn end(claims: &mut Vec<RunningClaim>, serial: u64)
    ensures { spec.claims_seen claims.new.items
        ≡ table_spec.others serial (spec.claims_seen claims.old.items) }
{
    claims.retain(|claim| claim.serial != serial);
}
