//! What one worker does: it gets a row for each of its parts, from the desk or by its own work.

ghost use Rattle.std.specs.Prelude.{◌≡◌, ◌<◌, ◌≤◌, IfOk, OnOk, true, length};
ghost use Rattle.std.specs.Arc.{arc_value};
ghost use Rattle.std.specs.Option.{option_map};
ghost use Rattle.desk_core.specs.Seen as seen_spec;
ghost use Rattle.desk_lock.specs.Calls as calls_spec;
ghost use Rattle.desk_lock.specs.Lists as lists_spec;
ghost use Rattle.desk_lock.specs.Meaning as meaning_spec;
ghost use Rattle.desk_lock.specs.Tokens as tokens_spec;
ghost use Rattle.desk_work.specs.Attempts as attempts_spec;
ghost use Rattle.desk_work.specs.Sites as sites_spec;

use crate::bench::Bench;
use crate::makers::Makers;
use desk_core::{Book, Snapshot};
use desk_lock::{Desk, Hand};
use dita_doc::{FactKey, NoMemory};
use dita_outside::Gate;
use fact_table::{Claimed, Ticket};
use facts::{FactPair, Parts, Row};
use std::alloc::Global;
use std::sync::Wait;
use std::thread;

// The longest a worker waits between two tries, in turns that it leaves to others.
const LONGEST_PAUSE: u32 = 1024;

// A part of a build, and the row that is cited for it once it is done.
#[derive(Drop)]
pub(crate) struct Job {
    pub key: FactKey,
    pub row: Option<Row>,
}

// A worker with its pile of parts, of which the last is on top; and whether it found no memory.
#[derive(Drop)]
pub(crate) struct Worker<P: Parts> {
    pub number: u32,
    pub hand: Hand<Book<P>>,
    pub jobs: Vec<Job>,
    pub failed: bool,
}

// What the workers of a build share: the desk, the key of the build's plan, its snapshot, the plan
// once it is ready, and the gate that makers pass.
#[derive(Drop)]
pub(crate) struct Site<'a, P: Parts, M: Makers<P>, G> {
    pub desk: &'a Desk<Book<P>>,
    pub key: &'a FactKey,
    pub snapshot: &'a Snapshot,
    pub ready: &'a Option<M::Ready>,
    pub gate: &'a G,
}

// Gets a row for each part of a worker, unless memory runs out. Every claim that was drawn is ended
// then, in either case.
pub(crate) fn work<R: Wait, P: Parts, M: Makers<P>, G: Gate>(
    rt: &R,
    alloc: Global,
    site: &Site<'_, P, M, G>,
    worker: &mut Worker<P>,
)
    requires hand { sites_spec.IsAtWork site.now.desk.now
        (seen_spec.snapshot_seen site.now.snapshot.now)
        (option_map M.ready_row site.now.ready.now) worker.old.hand }
    requires parts { sites_spec.ArePartsOf site.now.key.now (option_map M.ready_row site.now.ready.now)
        (attempts_spec.jobs_seen worker.old.jobs.items) }
    requires ready { sites_spec.IsReadyOver M.ready_state
        (arc_value site.now.snapshot.now.sources) site.now.ready.now }
    ensures hand { sites_spec.IsAtWork site.now.desk.now
        (seen_spec.snapshot_seen site.now.snapshot.now)
        (option_map M.ready_row site.now.ready.now) worker.new.hand }
    ensures works { attempts_spec.WorksOn (sites_spec.basis_of P.plan_agrees P.own_agrees P.is_sound
        M.language (seen_spec.snapshot_seen site.now.snapshot.now))
        (tokens_spec.hand_view worker.old.hand) (attempts_spec.jobs_seen worker.old.jobs.items)
        (tokens_spec.hand_view worker.new.hand) (attempts_spec.jobs_seen worker.new.jobs.items) }
    ensures done { attempts_spec.HasAll worker.new.failed
        (attempts_spec.jobs_seen worker.new.jobs.items) }
{
    let number = worker.number;
    let jobs = worker.jobs.as_mut_slice();
    let worked = finish(rt, alloc, site, &mut worker.hand, number, jobs);
    worker.failed = worked.is_err();
}

// Makes a bench if there is a part, and gets a row for each part by it.
fn finish<R: Wait, P: Parts, M: Makers<P>, G: Gate>(
    rt: &R,
    alloc: Global,
    site: &Site<'_, P, M, G>,
    hand: &mut Hand<Book<P>>,
    number: u32,
    jobs: &mut [Job],
) -> Result<(), NoMemory>
    requires hand { sites_spec.IsAtWork site.now.desk.now
        (seen_spec.snapshot_seen site.now.snapshot.now)
        (option_map M.ready_row site.now.ready.now) hand.old }
    requires parts { sites_spec.ArePartsOf site.now.key.now (option_map M.ready_row site.now.ready.now)
        (attempts_spec.jobs_seen jobs.old) }
    requires ready { sites_spec.IsReadyOver M.ready_state
        (arc_value site.now.snapshot.now.sources) site.now.ready.now }
    ensures hand { sites_spec.IsAtWork site.now.desk.now
        (seen_spec.snapshot_seen site.now.snapshot.now)
        (option_map M.ready_row site.now.ready.now) hand.new }
    ensures works { attempts_spec.WorksOn (sites_spec.basis_of P.plan_agrees P.own_agrees P.is_sound
        M.language (seen_spec.snapshot_seen site.now.snapshot.now))
        (tokens_spec.hand_view hand.old) (attempts_spec.jobs_seen jobs.old)
        (tokens_spec.hand_view hand.new) (attempts_spec.jobs_seen jobs.new) }
    ensures done { OnOk result (lists_spec.Each attempts_spec.IsDone
        (attempts_spec.jobs_seen jobs.new)) }
{
    let Some(first) = jobs.first() else {
        return Ok(());
    };
    let mut bench = Bench::<P, M>::new(alloc, &first.key, site.snapshot, site.ready)?;
    finish_all(rt, alloc, site, &mut bench, hand, number, jobs)
}

// Tries its parts until each has a row. A part that another makes is tried again after all others.
fn finish_all<R: Wait, P: Parts, M: Makers<P>, G: Gate>(
    rt: &R,
    alloc: Global,
    site: &Site<'_, P, M, G>,
    bench: &mut Bench<P, M>,
    hand: &mut Hand<Book<P>>,
    number: u32,
    jobs: &mut [Job],
) -> Result<(), NoMemory>
    requires hand { sites_spec.IsAtWork site.now.desk.now
        (seen_spec.snapshot_seen site.now.snapshot.now)
        (option_map M.ready_row site.now.ready.now) hand.old }
    requires parts { sites_spec.ArePartsOf site.now.key.now (option_map M.ready_row site.now.ready.now)
        (attempts_spec.jobs_seen jobs.old) }
    requires ready { sites_spec.IsReadyOver M.ready_state
        (arc_value site.now.snapshot.now.sources) site.now.ready.now }
    requires judge { sites_spec.IsJudgeOf M.PartJudge.sources M.PartJudge.build site.now.key.now
        (arc_value site.now.snapshot.now.sources) bench.old.judge }
    requires maker { sites_spec.HasMaker M.maker_row M.maker_state
        (arc_value site.now.snapshot.now.sources) (option_map M.ready_row site.now.ready.now)
        bench.old.maker }
    ensures hand { sites_spec.IsAtWork site.now.desk.now
        (seen_spec.snapshot_seen site.now.snapshot.now)
        (option_map M.ready_row site.now.ready.now) hand.new }
    ensures works { attempts_spec.WorksOn (sites_spec.basis_of P.plan_agrees P.own_agrees P.is_sound
        M.language (seen_spec.snapshot_seen site.now.snapshot.now))
        (tokens_spec.hand_view hand.old) (attempts_spec.jobs_seen jobs.old)
        (tokens_spec.hand_view hand.new) (attempts_spec.jobs_seen jobs.new) }
    ensures done { OnOk result (lists_spec.Each attempts_spec.IsDone
        (attempts_spec.jobs_seen jobs.new)) }
{
    let mut pause = 1;
    for _ in rt.forever() {
        try_all(rt, alloc, site, bench, hand, number, jobs)?;
        if are_done(jobs) {
            return Ok(());
        }
        leave_turns(pause);
        pause = longer(pause);
    }
    unreachable!()
}

// Tries each of its parts that has no row, from the top of its pile on.
fn try_all<R: Wait, P: Parts, M: Makers<P>, G: Gate>(
    rt: &R,
    alloc: Global,
    site: &Site<'_, P, M, G>,
    bench: &mut Bench<P, M>,
    hand: &mut Hand<Book<P>>,
    number: u32,
    jobs: &mut [Job],
) -> Result<(), NoMemory>
    requires hand { sites_spec.IsAtWork site.now.desk.now
        (seen_spec.snapshot_seen site.now.snapshot.now)
        (option_map M.ready_row site.now.ready.now) hand.old }
    requires parts { sites_spec.ArePartsOf site.now.key.now (option_map M.ready_row site.now.ready.now)
        (attempts_spec.jobs_seen jobs.old) }
    requires ready { sites_spec.IsReadyOver M.ready_state
        (arc_value site.now.snapshot.now.sources) site.now.ready.now }
    requires judge { sites_spec.IsJudgeOf M.PartJudge.sources M.PartJudge.build site.now.key.now
        (arc_value site.now.snapshot.now.sources) bench.old.judge }
    requires maker { sites_spec.HasMaker M.maker_row M.maker_state
        (arc_value site.now.snapshot.now.sources) (option_map M.ready_row site.now.ready.now)
        bench.old.maker }
    ensures hand { sites_spec.IsAtWork site.now.desk.now
        (seen_spec.snapshot_seen site.now.snapshot.now)
        (option_map M.ready_row site.now.ready.now) hand.new }
    ensures judge { sites_spec.IsJudgeOf M.PartJudge.sources M.PartJudge.build site.now.key.now
        (arc_value site.now.snapshot.now.sources) bench.new.judge }
    ensures maker { sites_spec.HasMaker M.maker_row M.maker_state
        (arc_value site.now.snapshot.now.sources) (option_map M.ready_row site.now.ready.now)
        bench.new.maker }
    ensures works { attempts_spec.WorksOn (sites_spec.basis_of P.plan_agrees P.own_agrees P.is_sound
        M.language (seen_spec.snapshot_seen site.now.snapshot.now))
        (tokens_spec.hand_view hand.old) (attempts_spec.jobs_seen jobs.old)
        (tokens_spec.hand_view hand.new) (attempts_spec.jobs_seen jobs.new) }
{
    let mut place = jobs.len();
    while place > 0 {
        place -= 1;
        try_at(rt, alloc, site, bench, hand, number, jobs, place)?;
    }
    Ok(())
}

// Tries the part at a place.
fn try_at<R: Wait, P: Parts, M: Makers<P>, G: Gate>(
    rt: &R,
    alloc: Global,
    site: &Site<'_, P, M, G>,
    bench: &mut Bench<P, M>,
    hand: &mut Hand<Book<P>>,
    number: u32,
    jobs: &mut [Job],
    place: usize,
) -> Result<(), NoMemory>
    requires hand { sites_spec.IsAtWork site.now.desk.now
        (seen_spec.snapshot_seen site.now.snapshot.now)
        (option_map M.ready_row site.now.ready.now) hand.old }
    requires parts { sites_spec.ArePartsOf site.now.key.now (option_map M.ready_row site.now.ready.now)
        (attempts_spec.jobs_seen jobs.old) }
    requires ready { sites_spec.IsReadyOver M.ready_state
        (arc_value site.now.snapshot.now.sources) site.now.ready.now }
    requires judge { sites_spec.IsJudgeOf M.PartJudge.sources M.PartJudge.build site.now.key.now
        (arc_value site.now.snapshot.now.sources) bench.old.judge }
    requires maker { sites_spec.HasMaker M.maker_row M.maker_state
        (arc_value site.now.snapshot.now.sources) (option_map M.ready_row site.now.ready.now)
        bench.old.maker }
    requires within { place < length jobs.old }
    ensures hand { sites_spec.IsAtWork site.now.desk.now
        (seen_spec.snapshot_seen site.now.snapshot.now)
        (option_map M.ready_row site.now.ready.now) hand.new }
    ensures judge { sites_spec.IsJudgeOf M.PartJudge.sources M.PartJudge.build site.now.key.now
        (arc_value site.now.snapshot.now.sources) bench.new.judge }
    ensures maker { sites_spec.HasMaker M.maker_row M.maker_state
        (arc_value site.now.snapshot.now.sources) (option_map M.ready_row site.now.ready.now)
        bench.new.maker }
    ensures works { attempts_spec.WorksOn (sites_spec.basis_of P.plan_agrees P.own_agrees P.is_sound
        M.language (seen_spec.snapshot_seen site.now.snapshot.now))
        (tokens_spec.hand_view hand.old) (attempts_spec.jobs_seen jobs.old)
        (tokens_spec.hand_view hand.new) (attempts_spec.jobs_seen jobs.new) }
    ensures many { length jobs.new ≡ length jobs.old }
{
    try_one(rt, alloc, site, bench, hand, number, &mut jobs[place])
}

fn try_one<R: Wait, P: Parts, M: Makers<P>, G: Gate>(
    rt: &R,
    alloc: Global,
    site: &Site<'_, P, M, G>,
    bench: &mut Bench<P, M>,
    hand: &mut Hand<Book<P>>,
    number: u32,
    job: &mut Job,
) -> Result<(), NoMemory>
    requires hand { sites_spec.IsAtWork site.now.desk.now
        (seen_spec.snapshot_seen site.now.snapshot.now)
        (option_map M.ready_row site.now.ready.now) hand.old }
    requires ready { sites_spec.IsReadyOver M.ready_state
        (arc_value site.now.snapshot.now.sources) site.now.ready.now }
    requires judge { sites_spec.IsJudgeOf M.PartJudge.sources M.PartJudge.build site.now.key.now
        (arc_value site.now.snapshot.now.sources) bench.old.judge }
    requires maker { sites_spec.HasMaker M.maker_row M.maker_state
        (arc_value site.now.snapshot.now.sources) (option_map M.ready_row site.now.ready.now)
        bench.old.maker }
    requires of { sites_spec.IsPartOf site.now.key.now (option_map M.ready_row site.now.ready.now) job.old.key }
    ensures hand { sites_spec.IsAtWork site.now.desk.now
        (seen_spec.snapshot_seen site.now.snapshot.now)
        (option_map M.ready_row site.now.ready.now) hand.new }
    ensures judge { sites_spec.IsJudgeOf M.PartJudge.sources M.PartJudge.build site.now.key.now
        (arc_value site.now.snapshot.now.sources) bench.new.judge }
    ensures maker { sites_spec.HasMaker M.maker_row M.maker_state
        (arc_value site.now.snapshot.now.sources) (option_map M.ready_row site.now.ready.now)
        bench.new.maker }
    ensures key { job.new.key ≡ job.old.key }
    ensures goes_on { attempts_spec.GoesOnAt (sites_spec.basis_of P.plan_agrees P.own_agrees P.is_sound
        M.language (seen_spec.snapshot_seen site.now.snapshot.now))
        (tokens_spec.hand_view hand.old) (attempts_spec.job_seen job.old)
        (tokens_spec.hand_view hand.new) (attempts_spec.job_seen job.new) }
{
    if job.row.is_some() {
        return Ok(());
    }
    job.row = attempt(rt, alloc, site, bench, hand, number, &job.key)?;
    Ok(())
}

// Claims a part, and makes it if the claim is granted. There is no row if another makes it.
fn attempt<R: Wait, P: Parts, M: Makers<P>, G: Gate>(
    rt: &R,
    alloc: Global,
    site: &Site<'_, P, M, G>,
    bench: &mut Bench<P, M>,
    hand: &mut Hand<Book<P>>,
    number: u32,
    key: &FactKey,
) -> Result<Option<Row>, NoMemory>
    requires hand { sites_spec.IsAtWork site.now.desk.now
        (seen_spec.snapshot_seen site.now.snapshot.now)
        (option_map M.ready_row site.now.ready.now) hand.old }
    requires ready { sites_spec.IsReadyOver M.ready_state
        (arc_value site.now.snapshot.now.sources) site.now.ready.now }
    requires judge { sites_spec.IsJudgeOf M.PartJudge.sources M.PartJudge.build site.now.key.now
        (arc_value site.now.snapshot.now.sources) bench.old.judge }
    requires maker { sites_spec.HasMaker M.maker_row M.maker_state
        (arc_value site.now.snapshot.now.sources) (option_map M.ready_row site.now.ready.now)
        bench.old.maker }
    requires of { sites_spec.IsPartOf site.now.key.now (option_map M.ready_row site.now.ready.now) key.now }
    ensures hand { sites_spec.IsAtWork site.now.desk.now
        (seen_spec.snapshot_seen site.now.snapshot.now)
        (option_map M.ready_row site.now.ready.now) hand.new }
    ensures judge { sites_spec.IsJudgeOf M.PartJudge.sources M.PartJudge.build site.now.key.now
        (arc_value site.now.snapshot.now.sources) bench.new.judge }
    ensures maker { sites_spec.HasMaker M.maker_row M.maker_state
        (arc_value site.now.snapshot.now.sources) (option_map M.ready_row site.now.ready.now)
        bench.new.maker }
    ensures attempts { attempts_spec.Attempts (sites_spec.basis_of P.plan_agrees P.own_agrees P.is_sound
        M.language (seen_spec.snapshot_seen site.now.snapshot.now))
        (tokens_spec.hand_view hand.old) key.now result (tokens_spec.hand_view hand.new) }
{
    let desk = site.desk;
    match desk.claim(rt, alloc, hand, key, site.snapshot, &mut bench.judge)? {
        Claimed::Have(row) => Ok(Some(row)),
        Claimed::Taken(_) => Ok(None),
        Claimed::Yours(ticket) => {
            site.gate.pass(number, key);
            let made = bench.make(alloc, key, site.snapshot, site.ready);
            end_claim(rt, desk, hand, ticket, made)
        }
    }
}

// Publishes what was made for a claim, or releases the claim.
fn end_claim<R: Wait, P: Parts>(
    rt: &R,
    desk: &Desk<Book<P>>,
    hand: &mut Hand<Book<P>>,
    ticket: Ticket,
    made: Result<FactPair, NoMemory>,
) -> Result<Option<Row>, NoMemory>
    requires hand { tokens_spec.IsHandOf desk.now hand.old }
    requires may_end { calls_spec.MayEnd (tokens_spec.hand_view hand.old) ticket }
    requires may_publish { IfOk made (λ pair. calls_spec.HandMayPublish
        (meaning_spec.meant_by P.plan_agrees P.own_agrees P.is_sound)
        (tokens_spec.hand_view hand.old) ticket (arc_value pair.kept)) }
    ensures hand { tokens_spec.IsHandOf desk.now hand.new }
    ensures ends { attempts_spec.EndsClaim (tokens_spec.hand_view hand.old) ticket made result
        (tokens_spec.hand_view hand.new) }
{
    match made {
        Ok(fact) => Ok(Some(desk.publish(rt, hand, ticket, fact))),
        Err(NoMemory) => {
            desk.release(rt, hand, ticket);
            Err(NoMemory)
        }
    }
}

// Whether each part has a row.
fn are_done(jobs: &[Job]) -> bool
    ensures { result ≡ true → lists_spec.Each attempts_spec.IsDone
        (attempts_spec.jobs_seen jobs.now) }
{
    for job in jobs {
        if job.row.is_none() {
            return false;
        }
    }
    true
}

// Leaves so many turns to others.
fn leave_turns(turns: u32) {
    for _ in 0..turns {
        thread::yield_now();
    }
}

fn longer(pause: u32) -> u32 {
    if pause < LONGEST_PAUSE {
        pause * 2
    } else {
        pause
    }
}
