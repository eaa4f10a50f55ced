//! Sixteen sessions with sixteen workers each at one desk, which leave their turns to others at
//! random places. What is expected follows from the rules, whatever the order in which they take
//! the gate.

ghost use Rattle.std.specs.Prelude.{◌≡◌, ◌*◌, ◌<◌, IfOk, OnOk};
ghost use denote.Param.Send.{IsSync};
ghost use Rattle.desk_core.specs.Seen as core_seen_spec;
ghost use Rattle.desk_core.specs.Steps as core_steps_spec;
ghost use Rattle.desk_lock.specs.Knows as knows_spec;
ghost use Rattle.desk_lock.specs.Tokens as tokens_spec;

use crate::chance::Chance;
use crate::tally::{Ended, Tally};
use crate::toy::{
    ToyDesk, ToyHand, ToyPass, begin, claim, edit, hired, name, page, part_of, publish, put,
    release, started,
};
use desk_core::{Limits, Snapshot};
use dita_doc::Name;
use fact_table::Claimed;
use std::alloc::{AllocError, Global};
use std::sync::Wait;
use std::test::Fail;
use std::thread;
use std::thread::Threads;

const SESSIONS: u32 = 16;

const WORKERS: u32 = 16;

// How many claims each worker makes, and of how many pages it draws them.
const CLAIMS: u32 = 40;

const PAGES: u32 = 2048;

// Each claim is answered, and each that is granted is published or released. What was published is
// kept, and nothing else. Each session has two entries.
#[test]
fn each_claim_of_many_workers_ends(rt: HostRuntime) -> Result<(), Fail> {
    let alloc = rt.alloc();
    let map = name(alloc, "a")?;
    let (desk, pass) = started(alloc, Limits::standard())?;
    let (pass, tally) = hold_all(&rt, alloc, &desk, pass, &map, SESSIONS);
    let book = desk.close(&rt, pass);
    assert_eq!(rt; tally.lost, 0);
    assert_eq!(rt; tally.answered(), u64::from(SESSIONS * WORKERS * CLAIMS));
    assert_eq!(rt; book.store().entries(), 2 * u64::from(SESSIONS));
    let table = book.table();
    assert_eq!(rt;
        (table.kept(), table.made(), table.dropped()),
        (tally.published, tally.published, 0)
    );
    Ok(())
}

// So many sessions, each in a thread of its own, and what their claims came to.
#[cycle(sessions)]
fn hold_all<R: Threads + Wait + Sync>(
    rt: &R,
    alloc: Global,
    desk: &ToyDesk,
    pass: ToyPass,
    map: &Name,
    count: u32,
) -> (ToyPass, Tally)
    requires pass { tokens_spec.IsPassOf desk.now pass }
    requires parts { knows_spec.session_parts * count < (tokens_spec.pass_view pass).parts }
    ensures { tokens_spec.IsPassOf desk.now result.0 }
{
    if count == 0 {
        return (pass, Tally::new());
    }
    let mut first = pass;
    let other = desk.session(&mut first, count);
    let left = count - 1;
    let one = move || -> (ToyPass, Tally)
        requires { IsSync R.row × tokens_spec.IsPassOf desk.now other
            × ((tokens_spec.pass_view other).parts ≡ knows_spec.session_parts) }
        ensures { tokens_spec.IsPassOf desk.entry.now result.0 }
    { hold(rt, alloc, desk, other, map, count) };
    let others = move || -> (ToyPass, Tally)
        requires { IsSync R.row × tokens_spec.IsPassOf desk.now first
            × (knows_spec.session_parts * left < (tokens_spec.pass_view first).parts) }
        ensures { tokens_spec.IsPassOf desk.entry.now result.0 }
    { hold_all(rt, alloc, desk, first, map, left) };
    let (held, rest) = thread::join(rt, one, others);
    let mut pass = rest.0;
    desk.end_session(&mut pass, held.0);
    (pass, held.1.plus(&rest.1))
}

// A session: an edit, and a build with its workers.
fn hold<R: Threads + Wait + Sync>(
    rt: &R,
    alloc: Global,
    desk: &ToyDesk,
    pass: ToyPass,
    map: &Name,
    session: u32,
) -> (ToyPass, Tally)
    requires pass { tokens_spec.IsPassOf desk.now pass }
    requires parts { (tokens_spec.pass_view pass).parts ≡ knows_spec.session_parts }
    ensures { tokens_spec.IsPassOf desk.now result.0 }
{
    let mut pass = pass;
    match opened(rt, alloc, desk, &mut pass, map) {
        Ok(snapshot) => {
            let seed = u64::from(session) << 32;
            work_all(rt, alloc, desk, pass, map, &snapshot, WORKERS, seed)
        }
        Err(_) => (pass, Tally::lost()),
    }
}

// An edit, and a build.
fn opened<R: Wait>(
    rt: &R,
    alloc: Global,
    desk: &ToyDesk,
    pass: &mut ToyPass,
    map: &Name,
) -> Result<Snapshot, AllocError>
    requires pass { tokens_spec.IsPassOf desk.now pass.old }
    ensures pass { tokens_spec.IsPassOf desk.now pass.new }
    ensures parts { OnOk result ((tokens_spec.pass_view pass.new).parts
        ≡ (tokens_spec.pass_view pass.old).parts) }
    ensures of { IfOk result (λ snapshot. core_steps_spec.IsSnapshotOf
        (tokens_spec.pass_view pass.new).seen (core_seen_spec.snapshot_seen snapshot)) }
{
    edit(rt, alloc, desk, pass, 1, put(alloc, map)?)?;
    let (_, snapshot) = begin(rt, alloc, desk, pass, 2, map)?;
    Ok(snapshot)
}

// So many workers of a build, each in a thread of its own.
#[cycle(workers)]
fn work_all<R: Threads + Wait + Sync>(
    rt: &R,
    alloc: Global,
    desk: &ToyDesk,
    pass: ToyPass,
    map: &Name,
    snapshot: &Snapshot,
    count: u32,
    seed: u64,
) -> (ToyPass, Tally)
    requires pass { tokens_spec.IsPassOf desk.now pass }
    requires parts { count < (tokens_spec.pass_view pass).parts }
    requires of { core_steps_spec.IsSnapshotOf (tokens_spec.pass_view pass).seen
        (core_seen_spec.snapshot_seen snapshot.now) }
    ensures { tokens_spec.IsPassOf desk.now result.0 }
{
    if count == 0 {
        return (pass, Tally::new());
    }
    let mut first = pass;
    let hand = hired(desk, &mut first, snapshot);
    let chance = Chance::new(seed | u64::from(count));
    let left = count - 1;
    let one = move || -> (ToyHand, Tally)
        requires { IsSync R.row × tokens_spec.IsHandOf desk.now hand
            × core_steps_spec.IsSnapshotOf (tokens_spec.hand_view hand).seen
            (core_seen_spec.snapshot_seen snapshot.now) }
        ensures { tokens_spec.IsHandOf desk.entry.now result.0 }
    { work(rt, alloc, desk, hand, map, snapshot, chance) };
    let others = move || -> (ToyPass, Tally)
        requires { IsSync R.row × tokens_spec.IsPassOf desk.now first
            × (left < (tokens_spec.pass_view first).parts)
            × core_steps_spec.IsSnapshotOf (tokens_spec.pass_view first).seen
            (core_seen_spec.snapshot_seen snapshot.now) }
        ensures { tokens_spec.IsPassOf desk.entry.now result.0 }
    { work_all(rt, alloc, desk, first, map, snapshot, left, seed) };
    let (worked, rest) = thread::join(rt, one, others);
    let mut pass = rest.0;
    desk.join(&mut pass, worked.0);
    (pass, worked.1.plus(&rest.1))
}

// The claims of one worker.
fn work<R: Wait>(
    rt: &R,
    alloc: Global,
    desk: &ToyDesk,
    hand: ToyHand,
    map: &Name,
    snapshot: &Snapshot,
    chance: Chance,
) -> (ToyHand, Tally)
    requires hand { tokens_spec.IsHandOf desk.now hand }
    requires of { core_steps_spec.IsSnapshotOf (tokens_spec.hand_view hand).seen
        (core_seen_spec.snapshot_seen snapshot.now) }
    ensures { tokens_spec.IsHandOf desk.now result.0 }
{
    let mut hand = hand;
    let mut chance = chance;
    let mut tally = Tally::new();
    for _ in 0..CLAIMS {
        let index = chance.next() % PAGES;
        pause(&mut chance);
        let ended = ask(
            rt,
            alloc,
            desk,
            &mut hand,
            map,
            index,
            snapshot,
            &mut chance,
        );
        tally.count(ended);
    }
    (hand, tally)
}

// A claim of a page, to its end.
fn ask<R: Wait>(
    rt: &R,
    alloc: Global,
    desk: &ToyDesk,
    hand: &mut ToyHand,
    map: &Name,
    index: u32,
    snapshot: &Snapshot,
    chance: &mut Chance,
) -> Result<Ended, AllocError>
    requires hand { tokens_spec.IsHandOf desk.now hand.old }
    requires of { core_steps_spec.IsSnapshotOf (tokens_spec.hand_view hand.old).seen
        (core_seen_spec.snapshot_seen snapshot.now) }
    ensures hand { tokens_spec.IsHandOf desk.now hand.new }
    ensures of { core_steps_spec.IsSnapshotOf (tokens_spec.hand_view hand.new).seen
        (core_seen_spec.snapshot_seen snapshot.now) }
{
    let key = page(map, index)?;
    let part = part_of(alloc, &key)?;
    match claim(rt, alloc, desk, hand, &key, snapshot)? {
        Claimed::Have(_) => Ok(Ended::Had),
        Claimed::Taken(_) => Ok(Ended::Met),
        Claimed::Yours(ticket) => {
            pause(chance);
            if chance.next() % 2 == 0 {
                publish(rt, desk, hand, ticket, part, snapshot);
                Ok(Ended::Published)
            } else {
                release(rt, desk, hand, ticket, snapshot);
                Ok(Ended::Released)
            }
        }
    }
}

// Leaves its turn to others, up to three times.
fn pause(chance: &mut Chance) {
    for _ in 0..chance.next() % 4 {
        thread::yield_now();
    }
}
