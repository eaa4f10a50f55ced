//! Claims at a table of many rows.

ghost use Rattle.std.specs.Prelude.{◌≡◌, ◌<◌, ◌+◌, OnOk};
ghost use Rattle.facts.specs.Judged as judged_spec;
ghost use Rattle.desk_core.specs.Seen as seen_spec;
ghost use Rattle.desk_core.specs.Steps as steps_spec;
ghost use Rattle.desk_lock.specs.Knows as knows_spec;
ghost use Rattle.desk_lock.specs.Tokens as tokens_spec;
ghost use Rattle.desk_bench.specs.Bench as spec;

use crate::desk::{BenchDesk, BenchHand, BenchPass, begin, claim, publish, put, release};
use crate::language::{page, part_of};
use desk_core::Snapshot;
use dita_doc::{FactKey, Name};
use fact_table::Claimed;
use std::alloc::{AllocError, Global};
use std::sync::Wait;

/// What is done at the table, again and again.
#[derive(Clone, Copy, PartialEq, Eq)]
pub enum Work {
    /// A part of which there is no row is claimed and released.
    Claim,
    /// That, and the part is made before it is released.
    Make,
    /// A part of which there is no row is claimed, made and published.
    Publish,
    /// A part is claimed and released of which there are rows, and none agrees.
    Stale,
}

/// How many pages have rows, and how many each has: one for each of so many numbers of stored names.
pub struct Size {
    pub pages: u32,
    pub rows: u32,
}

// The number of claims that run meanwhile.
const RUNNING: u32 = 16;

// The pages of claims that run, and those of which there is no row.
const RUNNING_PAGE: u32 = 1_000_000;

const NEW_PAGE: u32 = 2_000_000;

/// Fills a table, and does this so many times.
pub fn work_at_table<R: Wait>(
    rt: &R,
    alloc: Global,
    desk: &BenchDesk,
    pass: &mut BenchPass,
    map: &Name,
    size: &Size,
    work: Work,
    times: u32,
) -> Result<(), AllocError>
    requires { spec.Has desk.now pass.old knows_spec.all_parts }
    ensures { OnOk result (tokens_spec.IsPassOf desk.now pass.new) }
{
    fill(rt, alloc, desk, pass, map, size)?;
    put(rt, alloc, desk, pass, size.rows)?;
    let snapshot = begin(rt, alloc, desk, pass, map)?;
    work_beside(rt, alloc, desk, pass, map, &snapshot, RUNNING, work, times)
}

// For each number of stored names each page is claimed and published once.
fn fill<R: Wait>(
    rt: &R,
    alloc: Global,
    desk: &BenchDesk,
    pass: &mut BenchPass,
    map: &Name,
    size: &Size,
) -> Result<(), AllocError>
    requires { spec.Has desk.now pass.old knows_spec.all_parts }
    ensures { OnOk result (spec.Has desk.now pass.new knows_spec.all_parts) }
{
    for names in 0..size.rows {
        if names > 0 {
            put(rt, alloc, desk, pass, names)?;
        }
        let snapshot = begin(rt, alloc, desk, pass, map)?;
        let mut hand = desk.hand(pass);
        for index in 0..size.pages {
            let key = page(map, index)?;
            make(rt, alloc, desk, &mut hand, &key, &snapshot)?;
        }
        desk.join(pass, hand);
    }
    Ok(())
}

// Claims a part, and makes and publishes it if it is granted.
fn make<R: Wait>(
    rt: &R,
    alloc: Global,
    desk: &BenchDesk,
    hand: &mut BenchHand,
    key: &FactKey,
    snapshot: &Snapshot,
) -> Result<(), AllocError>
    requires works { spec.Works desk.now hand.old (seen_spec.snapshot_seen snapshot.now) }
    requires build { judged_spec.build_key key.now ≡ spec.build_of key.now.map }
    ensures { spec.Works desk.now hand.new (seen_spec.snapshot_seen snapshot.now) }
{
    if let Claimed::Yours(ticket) = claim(rt, alloc, desk, hand, key, snapshot)? {
        let part = part_of(alloc, key, snapshot.sources.names())?;
        publish(rt, desk, hand, key, snapshot, ticket, part);
    }
    Ok(())
}

// Does the work while so many claims run, each of another page.
fn work_beside<R: Wait>(
    rt: &R,
    alloc: Global,
    desk: &BenchDesk,
    pass: &mut BenchPass,
    map: &Name,
    snapshot: &Snapshot,
    count: u32,
    work: Work,
    times: u32,
) -> Result<(), AllocError>
    requires pass { tokens_spec.IsPassOf desk.now pass.old }
    requires parts { count + 1 < (tokens_spec.pass_view pass.old).parts }
    requires of { steps_spec.IsSnapshotOf (tokens_spec.pass_view pass.old).seen
        (seen_spec.snapshot_seen snapshot.now) }
    ensures { OnOk result (tokens_spec.IsPassOf desk.now pass.new) }
{
    let mut hand = desk.hand(pass);
    if count == 0 {
        work_all(rt, alloc, desk, &mut hand, map, snapshot, work, times)?;
    } else {
        let key = page(map, RUNNING_PAGE.wrapping_add(count))?;
        let claimed = claim(rt, alloc, desk, &mut hand, &key, snapshot)?;
        work_beside(rt, alloc, desk, pass, map, snapshot, count - 1, work, times)?;
        if let Claimed::Yours(ticket) = claimed {
            release(rt, desk, &mut hand, snapshot, ticket);
        }
    }
    desk.join(pass, hand);
    Ok(())
}

// Does the work so many times.
fn work_all<R: Wait>(
    rt: &R,
    alloc: Global,
    desk: &BenchDesk,
    hand: &mut BenchHand,
    map: &Name,
    snapshot: &Snapshot,
    work: Work,
    times: u32,
) -> Result<(), AllocError>
    requires { spec.Works desk.now hand.old (seen_spec.snapshot_seen snapshot.now) }
    ensures { spec.Works desk.now hand.new (seen_spec.snapshot_seen snapshot.now) }
{
    for time in 0..times {
        let index = match work {
            Work::Claim => NEW_PAGE,
            Work::Stale => 0,
            Work::Make | Work::Publish => NEW_PAGE.wrapping_add(time),
        };
        let key = page(map, index)?;
        match work {
            Work::Claim | Work::Stale => {
                claim_and_release(rt, alloc, desk, hand, &key, snapshot)?;
            }
            Work::Make => {
                let part = part_of(alloc, &key, snapshot.sources.names())?;
                claim_and_release(rt, alloc, desk, hand, &key, snapshot)?;
                drop(part);
            }
            Work::Publish => make(rt, alloc, desk, hand, &key, snapshot)?,
        }
    }
    Ok(())
}

/// Claims a part, and releases the claim if it is granted.
pub fn claim_and_release<R: Wait>(
    rt: &R,
    alloc: Global,
    desk: &BenchDesk,
    hand: &mut BenchHand,
    key: &FactKey,
    snapshot: &Snapshot,
) -> Result<(), AllocError>
    requires works { spec.Works desk.now hand.old (seen_spec.snapshot_seen snapshot.now) }
    requires build { judged_spec.build_key key.now ≡ spec.build_of key.now.map }
    ensures { spec.Works desk.now hand.new (seen_spec.snapshot_seen snapshot.now) }
{
    if let Claimed::Yours(ticket) = claim(rt, alloc, desk, hand, key, snapshot)? {
        release(rt, desk, hand, snapshot, ticket);
    }
    Ok(())
}
