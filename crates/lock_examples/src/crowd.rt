//! Many threads at one desk. What is expected follows from the rules, whatever the order in which
//! they take the gate.

ghost use Rattle.desk_core.specs.Seen as core_seen_spec;
ghost use Rattle.desk_core.specs.Steps as core_steps_spec;
ghost use Rattle.desk_lock.specs.Tokens as tokens_spec;

use crate::toy::{
    ToyDesk, ToyHand, ToyPass, begin, claim, edit, hired, name, page, part_of, publish, put,
    started,
};
use desk_core::{Limits, Snapshot};
use dita_doc::{Name, Reply};
use fact_table::Claimed;
use std::alloc::{AllocError, Global};
use std::sync::Wait;
use std::test::Fail;
use std::thread;
use std::thread::Threads;

// How many texts each of four passes puts, and how many pages each of four hands claims.
const TEXTS: u32 = 200;

const PAGES: u32 = 32;

// A pass behind its edits, and whether each had the reply that it should have.
type Asked = (ToyPass, bool);

// A hand behind its claims, and whether each was answered.
type Worked = (ToyHand, bool);

// Each edit has a place, and stores at the version behind it.
#[test]
fn each_edit_of_four_threads_stands_once(rt: HostRuntime) -> Result<(), Fail> {
    let alloc = rt.alloc();
    let text = name(alloc, "a")?;
    let (desk, mut pass) = started(alloc, Limits::standard())?;
    let first = desk.session(&mut pass, 1);
    let second = desk.session(&mut pass, 2);
    let third = desk.session(&mut pass, 3);
    let fourth = desk.session(&mut pass, 4);
    let (low, high) = thread::join(
        &rt,
        || ask_two(&rt, alloc, &desk, first, second, &text),
        || ask_two(&rt, alloc, &desk, third, fourth, &text),
    );
    assert!(rt; low.0.1 && low.1.1 && high.0.1 && high.1.1);
    desk.end_session(&mut pass, low.0.0);
    desk.end_session(&mut pass, low.1.0);
    desk.end_session(&mut pass, high.0.0);
    desk.end_session(&mut pass, high.1.0);
    let book = desk.close(&rt, pass);
    let store = book.store();
    assert_eq!(rt; store.entries(), 4 * u64::from(TEXTS));
    let mut next = [0, 0, 0, 0, 0];
    for place in 0..store.entries() {
        let entry = store.entry(place);
        let session = entry.session as usize;
        assert!(rt; session < 5);
        assert_eq!(rt; entry.number, next[session]);
        assert!(rt; next[session] < TEXTS);
        next[session] += 1;
    }
    assert_eq!(rt; next, [0, TEXTS, TEXTS, TEXTS, TEXTS]);
    Ok(())
}

// Two passes, each in a thread of its own.
fn ask_two<R: Threads + Wait + Sync>(
    rt: &R,
    alloc: Global,
    desk: &ToyDesk,
    one: ToyPass,
    other: ToyPass,
    text: &Name,
) -> (Asked, Asked)
    requires one { tokens_spec.IsPassOf desk.now one }
    requires other { tokens_spec.IsPassOf desk.now other }
    ensures one { tokens_spec.IsPassOf desk.now result.0.0 }
    ensures other { tokens_spec.IsPassOf desk.now result.1.0 }
{
    thread::join(
        rt,
        move || ask_all(rt, alloc, desk, one, text),
        move || ask_all(rt, alloc, desk, other, text),
    )
}

// Puts a text again and again. Now and then it leaves its turn to others.
fn ask_all<R: Wait>(rt: &R, alloc: Global, desk: &ToyDesk, pass: ToyPass, text: &Name) -> Asked
    requires { tokens_spec.IsPassOf desk.now pass }
    ensures { tokens_spec.IsPassOf desk.now result.0 }
{
    let mut pass = pass;
    let mut all = true;
    for number in 0..TEXTS {
        let stored = ask(rt, alloc, desk, &mut pass, number, text);
        all = all && matches!(stored, Ok(true));
        if number % 7 == 0 {
            thread::yield_now();
        }
    }
    (pass, all)
}

// Whether a text is stored at the version behind its place.
fn ask<R: Wait>(
    rt: &R,
    alloc: Global,
    desk: &ToyDesk,
    pass: &mut ToyPass,
    number: u32,
    text: &Name,
) -> Result<bool, AllocError>
    requires { tokens_spec.IsPassOf desk.now pass.old }
    ensures { tokens_spec.IsPassOf desk.now pass.new }
{
    let request = put(alloc, text)?;
    match edit(rt, alloc, desk, pass, number, request)? {
        (place, Reply::Stored(version)) => Ok(version.checked_sub(1) == Some(place)),
        _ => Ok(false),
    }
}

// Each page is granted once, to one of four hands, and published once.
#[test]
fn each_page_of_four_threads_is_made_once(rt: HostRuntime) -> Result<(), Fail> {
    let alloc = rt.alloc();
    let map = name(alloc, "a")?;
    let (desk, mut pass) = started(alloc, Limits::standard())?;
    let (_, snapshot) = begin(&rt, alloc, &desk, &mut pass, 1, &map)?;
    let first = hired(&desk, &mut pass, &snapshot);
    let second = hired(&desk, &mut pass, &snapshot);
    let third = hired(&desk, &mut pass, &snapshot);
    let fourth = hired(&desk, &mut pass, &snapshot);
    let (low, high) = thread::join(
        &rt,
        || work_two(&rt, alloc, &desk, first, second, &map, &snapshot),
        || work_two(&rt, alloc, &desk, third, fourth, &map, &snapshot),
    );
    assert!(rt; low.0.1 && low.1.1 && high.0.1 && high.1.1);
    desk.join(&mut pass, low.0.0);
    desk.join(&mut pass, low.1.0);
    desk.join(&mut pass, high.0.0);
    desk.join(&mut pass, high.1.0);
    let book = desk.close(&rt, pass);
    let pages = u64::from(PAGES);
    let table = book.table();
    assert_eq!(rt;
        (table.kept(), table.made(), table.dropped()),
        (pages, pages, 0)
    );
    Ok(())
}

// Two hands, each in a thread of its own.
fn work_two<R: Threads + Wait + Sync>(
    rt: &R,
    alloc: Global,
    desk: &ToyDesk,
    one: ToyHand,
    other: ToyHand,
    map: &Name,
    snapshot: &Snapshot,
) -> (Worked, Worked)
    requires one { tokens_spec.IsHandOf desk.now one }
    requires one_of { core_steps_spec.IsSnapshotOf (tokens_spec.hand_view one).seen
        (core_seen_spec.snapshot_seen snapshot.now) }
    requires other { tokens_spec.IsHandOf desk.now other }
    requires other_of { core_steps_spec.IsSnapshotOf (tokens_spec.hand_view other).seen
        (core_seen_spec.snapshot_seen snapshot.now) }
    ensures one { tokens_spec.IsHandOf desk.now result.0.0 }
    ensures other { tokens_spec.IsHandOf desk.now result.1.0 }
{
    thread::join(
        rt,
        move || work_all(rt, alloc, desk, one, map, snapshot),
        move || work_all(rt, alloc, desk, other, map, snapshot),
    )
}

// Claims each page, and makes those that are granted.
fn work_all<R: Wait>(
    rt: &R,
    alloc: Global,
    desk: &ToyDesk,
    hand: ToyHand,
    map: &Name,
    snapshot: &Snapshot,
) -> Worked
    requires hand { tokens_spec.IsHandOf desk.now hand }
    requires of { core_steps_spec.IsSnapshotOf (tokens_spec.hand_view hand).seen
        (core_seen_spec.snapshot_seen snapshot.now) }
    ensures { tokens_spec.IsHandOf desk.now result.0 }
{
    let mut hand = hand;
    let mut all = true;
    for index in 0..PAGES {
        let made = work(rt, alloc, desk, &mut hand, map, index, snapshot);
        all = all && made.is_ok();
    }
    (hand, all)
}

// Claims a page. If it is granted, it leaves its turn to others, so that they meet the claim, and
// publishes the page.
fn work<R: Wait>(
    rt: &R,
    alloc: Global,
    desk: &ToyDesk,
    hand: &mut ToyHand,
    map: &Name,
    index: u32,
    snapshot: &Snapshot,
) -> Result<(), AllocError>
    requires hand { tokens_spec.IsHandOf desk.now hand.old }
    requires of { core_steps_spec.IsSnapshotOf (tokens_spec.hand_view hand.old).seen
        (core_seen_spec.snapshot_seen snapshot.now) }
    ensures hand { tokens_spec.IsHandOf desk.now hand.new }
    ensures of { core_steps_spec.IsSnapshotOf (tokens_spec.hand_view hand.new).seen
        (core_seen_spec.snapshot_seen snapshot.now) }
{
    let key = page(map, index)?;
    let part = part_of(alloc, &key)?;
    if let Claimed::Yours(ticket) = claim(rt, alloc, desk, hand, &key, snapshot)? {
        thread::yield_now();
        publish(rt, desk, hand, ticket, part, snapshot);
    }
    Ok(())
}
