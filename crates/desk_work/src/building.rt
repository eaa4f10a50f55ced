//! A build by workers.

ghost use Rattle.std.specs.Prelude.{◌≡◌, ◌<◌, ◌≤◌, IfOk, OnErr, Ok, Some};
ghost use Rattle.std.specs.Arc.{arc_value};
ghost use Rattle.std.specs.Option.{option_copied};
ghost use Rattle.desk_core.specs.Seen as seen_spec;
ghost use Rattle.desk_core.specs.Steps as steps_spec;
ghost use Rattle.desk_language.specs.Language as language_spec;
ghost use Rattle.desk_lock.specs.Meaning as meaning_spec;
ghost use Rattle.desk_lock.specs.Tokens as tokens_spec;
ghost use Rattle.desk_work.specs.Build as build_spec;
ghost use Rattle.desk_work.specs.Rounds as rounds_spec;
ghost use Rattle.desk_work.specs.Sites as sites_spec;
ghost use Rattle.desk_work.specs.Teams as teams_spec;
ghost use Rattle.dita_doc.specs.declared.fact.Part.TheVariants as part_spec;
ghost use Rattle.facts.specs.Rows as rows_spec;

use crate::built::{BuildStop, Built, Outcome};
use crate::deliver::put_pages;
use crate::makers::Makers;
use crate::outcome::outcome_of;
use crate::rounds::{part_rows, plan_row};
use crate::work::Site;
use desk_core::{Book, Snapshot};
use desk_lock::{Desk, Pass};
use dita_doc::{FactKey, Name, NoMemory, Part, Plan, Stop};
use dita_outside::{Failed, Gate, Outlet};
use facts::{Parts, Row};
use std::alloc::{AllocError, Global};
use std::sync::Wait;
use std::thread::Threads;

/// Builds a map with a DITAVAL, or without: the request of this number of the pass's session. The
/// caller makes the plan, as worker 0, and workers 1 and up make the pages and the contents page
/// beside each other. The outlet takes the pages in the order of the plan, the contents page last.
///
/// # Errors
///
/// The outlet failed; one more request would pass a limit of the history; or out of memory. If the
/// history is not full, the build may have its place all the same.
pub fn build<
    R: Threads + Wait + Sync,
    P: Parts + Send + Sync,
    M: Makers<P>,
    O: Outlet,
    G: Gate + Sync,
>(
    rt: &R,
    alloc: Global,
    desk: &Desk<Book<P>>,
    pass: &mut Pass<Book<P>>,
    number: u32,
    map: &Name,
    val: Option<&Name>,
    outlet: &mut O,
    gate: &G,
    workers: u32,
) -> Result<Built, BuildStop>
    requires pass { tokens_spec.IsPassOf desk.now pass.old }
    requires parts { 17 < (tokens_spec.pass_view pass.old).parts }
    requires few { 1 ≤ workers }
    requires many { workers ≤ 16 }
    ensures pass { tokens_spec.IsPassOf desk.now pass.new }
    ensures ends { build_spec.Ends (meaning_spec.meant_by P.plan_agrees P.own_agrees P.is_sound)
        M.language (tokens_spec.pass_view pass.old)
        (build_spec.order_of number map.now (option_copied val.entry)) result
        (tokens_spec.pass_view pass.new) (O.pages outlet.old) (O.pages outlet.new) }
    ensures cause { build_spec.HasBuildCause (O.faults outlet.old) (O.faults outlet.new) result }
{
    let (place, snapshot) = match desk.begin(rt, alloc, pass, number, map, val) {
        Ok(begun) => begun,
        Err(Stop::Fault(full)) => return Err(BuildStop::Full(full)),
        Err(Stop::NoMemory) => return Err(BuildStop::NoMemory),
    };
    let made = build_over::<R, P, M, G>(rt, alloc, desk, pass, map, val, &snapshot, gate, workers);
    let Ok(outcome) = made else {
        return Err(BuildStop::NoMemory);
    };
    match put_pages(alloc, &outcome, outlet) {
        Ok(()) => Ok(Built { place, outcome }),
        Err(Stop::Fault(Failed)) => Err(BuildStop::OutletFault),
        Err(Stop::NoMemory) => Err(BuildStop::NoMemory),
    }
}

// What the build of a map over a snapshot gives.
fn build_over<'x, R: Threads + Wait + Sync, P: Parts + Send + Sync, M: Makers<P>, G: Gate + Sync>(
    rt: &R,
    alloc: Global,
    desk: &'x Desk<Book<P>>,
    pass: &mut Pass<Book<P>>,
    map: &Name,
    val: Option<&Name>,
    snapshot: &'x Snapshot,
    gate: &'x G,
    workers: u32,
) -> Result<Outcome, NoMemory>
    requires pass { tokens_spec.IsPassOf desk.now pass.old }
    requires saw { steps_spec.IsSnapshotOf (tokens_spec.pass_view pass.old).seen
        (seen_spec.snapshot_seen snapshot.now) }
    requires parts { 17 < (tokens_spec.pass_view pass.old).parts }
    requires few { 1 ≤ workers }
    requires many { workers ≤ 16 }
    ensures pass { tokens_spec.IsPassOf desk.now pass.new }
    ensures kept { (tokens_spec.pass_view pass.new).parts
        ≡ (tokens_spec.pass_view pass.old).parts }
    ensures builds { IfOk result (rounds_spec.Builds (sites_spec.basis_of P.plan_agrees P.own_agrees
        P.is_sound M.language (seen_spec.snapshot_seen snapshot.now))
        (language_spec.key_of map.now (option_copied val.entry) part_spec.Plan)
        (tokens_spec.pass_view pass.old) (tokens_spec.pass_view pass.new)) }
    ensures so_far { OnErr result (rounds_spec.ComesSoFar (sites_spec.basis_of P.plan_agrees
        P.own_agrees P.is_sound M.language (seen_spec.snapshot_seen snapshot.now))
        (language_spec.key_of map.now (option_copied val.entry) part_spec.Plan)
        (tokens_spec.pass_view pass.old) (tokens_spec.pass_view pass.new)) }
{
    let key = plan_key(map, val)?;
    let site: Site<'_, P, M, G> = Site {
        desk,
        key: &key,
        snapshot,
        ready: &None,
        gate,
    };
    let planned = plan_row::<R, P, M, G>(rt, alloc, &site, pass)?;
    match &planned.fact.plan.value {
        Ok(plan) => build_plan::<R, P, M, G>(rt, alloc, &site, pass, &planned, plan, workers),
        Err(stop) => Ok(Outcome::Stopped(*stop)),
    }
}

// What the build of a plan gives, which this row keeps.
fn build_plan<R: Threads + Wait + Sync, P: Parts + Send + Sync, M: Makers<P>, G: Gate + Sync>(
    rt: &R,
    alloc: Global,
    site: &Site<'_, P, M, G>,
    pass: &mut Pass<Book<P>>,
    planned: &Row,
    plan: &Plan,
    workers: u32,
) -> Result<Outcome, NoMemory>
    requires pass { teams_spec.MayHire site.now.desk.now
        (seen_spec.snapshot_seen site.now.snapshot.now) (Some (rows_spec.row_data planned.now))
        pass.old }
    requires parts_left { 16 < (tokens_spec.pass_view pass.old).parts }
    requires few { 1 ≤ workers }
    requires many { workers ≤ 16 }
    requires right { meaning_spec.IsRightRow
        (meaning_spec.meant_by P.plan_agrees P.own_agrees P.is_sound)
        (rows_spec.row_data planned.now) site.now.key.now (arc_value site.now.snapshot.now.sources) }
    requires plan { (rows_spec.plan_in (rows_spec.row_data planned.now)).value ≡ Ok plan.now }
    ensures pass { tokens_spec.IsPassOf site.now.desk.now pass.new }
    ensures kept { (tokens_spec.pass_view pass.new).parts
        ≡ (tokens_spec.pass_view pass.old).parts }
    ensures together { IfOk result (rounds_spec.PutsTogether (sites_spec.basis_of P.plan_agrees
        P.own_agrees P.is_sound M.language (seen_spec.snapshot_seen site.now.snapshot.now))
        site.now.key.now plan.now (tokens_spec.pass_view pass.old)
        (tokens_spec.pass_view pass.new)) }
    ensures tries { OnErr result (rounds_spec.TriesParts (sites_spec.basis_of P.plan_agrees
        P.own_agrees P.is_sound M.language (seen_spec.snapshot_seen site.now.snapshot.now))
        (tokens_spec.pass_view pass.old) (rounds_spec.parts_behind site.now.key.now plan.now)
        (tokens_spec.pass_view pass.new)) }
{
    let ready = Some(M::ready(alloc, &site.snapshot.sources, planned)?);
    let site: Site<'_, P, M, G> = Site {
        desk: site.desk,
        key: site.key,
        snapshot: site.snapshot,
        ready: &ready,
        gate: site.gate,
    };
    let rows = part_rows::<R, P, M, G>(rt, alloc, &site, pass, plan, workers)?;
    outcome_of(alloc, plan, rows)
}

// The key of the plan of a map with a DITAVAL, or without.
fn plan_key(map: &Name, val: Option<&Name>) -> Result<FactKey, AllocError>
    ensures { IfOk result (λ key. key
        ≡ language_spec.key_of map.now (option_copied val.entry) part_spec.Plan) }
{
    Ok(FactKey {
        map: map.clone()?,
        val: shared(val)?,
        part: Part::Plan,
    })
}

// The name of a DITAVAL, if there is one, which shares it.
fn shared(val: Option<&Name>) -> Result<Option<Name>, AllocError>
    ensures { IfOk result (λ name. name ≡ option_copied val.entry) }
{
    match val {
        Some(val) => Ok(Some(val.clone()?)),
        None => Ok(None),
    }
}
