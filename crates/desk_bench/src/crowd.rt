//! Many threads at one desk.

ghost use Rattle.std.specs.Prelude.{◌<◌};
ghost use denote.Param.Send.{IsSync};
ghost use Rattle.desk_core.specs.Seen as seen_spec;
ghost use Rattle.desk_core.specs.Steps as steps_spec;
ghost use Rattle.desk_lock.specs.Tokens as tokens_spec;
ghost use Rattle.desk_bench.specs.Bench as spec;

use crate::desk::{BenchDesk, BenchHand, BenchPass, begin, name, started};
use crate::language::{BenchParts, page};
use crate::table::claim_and_release;
use desk_core::{Book, Snapshot};
use dita_doc::Name;
use std::alloc::{AllocError, Global};
use std::sync::Wait;
use std::thread;
use std::thread::Threads;

// The number of threads.
const WORKERS: u32 = 16;

/// Each of sixteen threads claims and releases a page of its own, so many times.
pub fn crowd<R: Threads + Wait + Sync>(
    rt: &R,
    alloc: Global,
    times: u32,
) -> Result<Book<BenchParts>, AllocError> {
    let map = name(alloc, "a")?;
    let (desk, mut pass) = started(alloc)?;
    let snapshot = begin(rt, alloc, &desk, &mut pass, &map)?;
    let (pass, worked) = work_all(rt, alloc, &desk, pass, &map, &snapshot, WORKERS, times);
    worked?;
    Ok(desk.close(rt, pass))
}

// So many workers, each in a thread of its own.
#[cycle(workers)]
fn work_all<R: Threads + Wait + Sync>(
    rt: &R,
    alloc: Global,
    desk: &BenchDesk,
    pass: BenchPass,
    map: &Name,
    snapshot: &Snapshot,
    count: u32,
    times: u32,
) -> (BenchPass, Result<(), AllocError>)
    requires pass { tokens_spec.IsPassOf desk.now pass }
    requires parts { count < (tokens_spec.pass_view pass).parts }
    requires of { steps_spec.IsSnapshotOf (tokens_spec.pass_view pass).seen
        (seen_spec.snapshot_seen snapshot.now) }
    ensures { tokens_spec.IsPassOf desk.now result.0 }
{
    if count == 0 {
        return (pass, Ok(()));
    }
    let mut first = pass;
    let hand = desk.hand(&mut first);
    let left = count - 1;
    let one = move || -> (BenchHand, Result<(), AllocError>)
        requires { IsSync R.row
            × spec.Works desk.now hand (seen_spec.snapshot_seen snapshot.now) }
        ensures { tokens_spec.IsHandOf desk.entry.now result.0 }
    { work(rt, alloc, desk, hand, map, snapshot, count, times) };
    let others = move || -> (BenchPass, Result<(), AllocError>)
        requires { IsSync R.row × tokens_spec.IsPassOf desk.now first
            × (left < (tokens_spec.pass_view first).parts)
            × steps_spec.IsSnapshotOf (tokens_spec.pass_view first).seen
            (seen_spec.snapshot_seen snapshot.now) }
        ensures { tokens_spec.IsPassOf desk.entry.now result.0 }
    { work_all(rt, alloc, desk, first, map, snapshot, left, times) };
    let (worked, rest) = thread::join(rt, one, others);
    let mut pass = rest.0;
    desk.join(&mut pass, worked.0);
    (pass, worked.1.and(rest.1))
}

// The claims of one worker.
fn work<R: Wait>(
    rt: &R,
    alloc: Global,
    desk: &BenchDesk,
    hand: BenchHand,
    map: &Name,
    snapshot: &Snapshot,
    index: u32,
    times: u32,
) -> (BenchHand, Result<(), AllocError>)
    requires { spec.Works desk.now hand (seen_spec.snapshot_seen snapshot.now) }
    ensures { tokens_spec.IsHandOf desk.now result.0 }
{
    let mut hand = hand;
    let worked = claim_all(rt, alloc, desk, &mut hand, map, snapshot, index, times);
    (hand, worked)
}

// Claims and releases a page so many times.
fn claim_all<R: Wait>(
    rt: &R,
    alloc: Global,
    desk: &BenchDesk,
    hand: &mut BenchHand,
    map: &Name,
    snapshot: &Snapshot,
    index: u32,
    times: u32,
) -> Result<(), AllocError>
    requires { spec.Works desk.now hand.old (seen_spec.snapshot_seen snapshot.now) }
    ensures { spec.Works desk.now hand.new (seen_spec.snapshot_seen snapshot.now) }
{
    let key = page(map, index)?;
    for _ in 0..times {
        claim_and_release(rt, alloc, desk, hand, &key, snapshot)?;
    }
    Ok(())
}
