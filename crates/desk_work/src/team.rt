//! Workers beside each other. Each has a hand of its own, and all hands are joined.

ghost use Rattle.std.specs.Prelude.{◌≡◌, ◌+◌, ◌<◌, ◌≤◌, ℕ, All, IfOk, OnErr, length, map, slice_index_or, vec_capacity, vec_len};
ghost use Rattle.std.specs.Arc.{arc_value};
ghost use Rattle.std.specs.Option.{option_map};
ghost use Rattle.desk_core.specs.Seen as seen_spec;
ghost use Rattle.desk_lock.specs.Knows as knows_spec;
ghost use Rattle.desk_lock.specs.Lists as lists_spec;
ghost use Rattle.desk_lock.specs.Tokens as tokens_spec;
ghost use Rattle.desk_work.specs.Attempts as attempts_spec;
ghost use Rattle.desk_work.specs.Dealing as dealing_spec;
ghost use Rattle.desk_work.specs.Sites as sites_spec;
ghost use Rattle.desk_work.specs.Teams as teams_spec;

use crate::makers::Makers;
use crate::work::{Job, Site, Worker, work};
use desk_core::Book;
use desk_lock::{Desk, Pass};
use dita_doc::NoMemory;
use dita_outside::Gate;
use facts::Parts;
use std::alloc::{AllocError, Global};
use std::sync::Wait;
use std::thread;
use std::thread::Threads;

// The most workers of a build.
const MOST_WORKERS: usize = 16;

// Workers that are ready, with room for what they leave.
pub(crate) struct Team<P: Parts> {
    pub workers: Vec<Worker<P>>,
    pub left: Vec<Vec<Job>>,
}

// Lets a worker for each pile, of this number and those behind it, work beside each other, and gives
// the piles back. If one finds no memory, the others do their parts, and each hand is joined.
pub(crate) fn work_together<
    R: Threads + Wait + Sync,
    P: Parts + Send + Sync,
    M: Makers<P>,
    G: Gate + Sync,
>(
    rt: &R,
    alloc: Global,
    site: &Site<'_, P, M, G>,
    pass: &mut Pass<Book<P>>,
    first: u32,
    piles: Vec<Vec<Job>>,
) -> Result<Vec<Vec<Job>>, NoMemory>
    requires pass { teams_spec.MayHire site.now.desk.now
        (seen_spec.snapshot_seen site.now.snapshot.now)
        (option_map M.ready_row site.now.ready.now) pass.old }
    requires few { vec_len piles ≤ 16 }
    requires first { first ≤ 1 }
    requires parts_left { vec_len piles < (tokens_spec.pass_view pass.old).parts }
    requires parts { lists_spec.Each (sites_spec.ArePartsOf site.now.key.now
        (option_map M.ready_row site.now.ready.now))
        (dealing_spec.piles_seen piles.items) }
    requires new { lists_spec.Each dealing_spec.AreNew (dealing_spec.piles_seen piles.items) }
    requires ready { sites_spec.IsReadyOver M.ready_state
        (arc_value site.now.snapshot.now.sources) site.now.ready.now }
    ensures pass { tokens_spec.IsPassOf site.now.desk.now pass.new }
    ensures kept { (tokens_spec.pass_view pass.new).parts
        ≡ (tokens_spec.pass_view pass.old).parts }
    ensures does { IfOk result (λ left. teams_spec.TeamDoes (sites_spec.basis_of P.plan_agrees P.own_agrees P.is_sound
        M.language (seen_spec.snapshot_seen site.now.snapshot.now))
        (tokens_spec.pass_view pass.old) (dealing_spec.piles_seen piles.items)
        (tokens_spec.pass_view pass.new) (dealing_spec.piles_seen left.items)) }
    ensures fails { OnErr result (teams_spec.TeamFails (sites_spec.basis_of P.plan_agrees P.own_agrees P.is_sound
        M.language (seen_spec.snapshot_seen site.now.snapshot.now))
        (tokens_spec.pass_view pass.old) (dealing_spec.piles_seen piles.items)
        (tokens_spec.pass_view pass.new)) }
{
    let mut team = hire(alloc, site.desk, pass, first, piles)?;
    work_all::<R, P, M, G>(rt, alloc, site, team.workers.as_mut_slice());
    join_all(site, pass, team)
}

// Gives each worker its parts and a hand. There is room for all before the first hand is made.
fn hire<P: Parts>(
    alloc: Global,
    desk: &Desk<Book<P>>,
    pass: &mut Pass<Book<P>>,
    first: u32,
    piles: Vec<Vec<Job>>,
) -> Result<Team<P>, AllocError>
    requires pass { tokens_spec.IsPassOf desk.now pass.old }
    requires few { vec_len piles ≤ 16 }
    requires first { first ≤ 1 }
    requires parts_left { vec_len piles < (tokens_spec.pass_view pass.old).parts }
    ensures pass { tokens_spec.IsPassOf desk.now pass.new }
    ensures parted { IfOk result (λ team. tokens_spec.pass_view pass.new
        ≡ knows_spec.parted (tokens_spec.pass_view pass.old) (vec_len piles)) }
    ensures hands { IfOk result (λ team. All (λ worker. teams_spec.IsHired desk.now
        (tokens_spec.pass_view pass.old) worker.hand) team.workers.items) }
    ensures piles { IfOk result (λ team. map (λ worker. worker.jobs) team.workers.items
        ≡ piles.items) }
    ensures room { IfOk result (λ team. vec_len team.workers ≤ vec_capacity team.left) }
    ensures none_left { IfOk result (λ team. vec_len team.left ≡ 0) }
    ensures same { OnErr result (tokens_spec.pass_view pass.new
        ≡ tokens_spec.pass_view pass.old) }
{
    let mut workers = Vec::with_capacity(alloc, piles.len())?;
    let left = Vec::with_capacity(alloc, piles.len())?;
    let mut number = first;
    for jobs in piles {
        workers.push_reserved(Worker {
            number,
            hand: desk.hand(pass),
            jobs,
            failed: false,
        });
        number += 1;
    }
    Ok(Team { workers, left })
}

fn work_all<R: Threads + Wait + Sync, P: Parts + Send + Sync, M: Makers<P>, G: Gate + Sync>(
    rt: &R,
    alloc: Global,
    site: &Site<'_, P, M, G>,
    workers: &mut [Worker<P>],
)
    requires hands { All (λ worker. sites_spec.IsAtWork site.now.desk.now
        (seen_spec.snapshot_seen site.now.snapshot.now)
        (option_map M.ready_row site.now.ready.now) worker.hand) workers.old }
    requires parts { All (λ worker. sites_spec.ArePartsOf site.now.key.now
        (option_map M.ready_row site.now.ready.now)
        (attempts_spec.jobs_seen worker.jobs.items)) workers.old }
    requires ready { sites_spec.IsReadyOver M.ready_state
        (arc_value site.now.snapshot.now.sources) site.now.ready.now }
    ensures many { length workers.new ≡ length workers.old }
    ensures hands { (i : ℕ) (d : _) → i < length workers.old → sites_spec.IsAtWork
        site.now.desk.now (seen_spec.snapshot_seen site.now.snapshot.now)
        (option_map M.ready_row site.now.ready.now) (slice_index_or workers.new i d).hand }
    ensures works { (i : ℕ) (d : _) → i < length workers.old → attempts_spec.WorksOn
        (sites_spec.basis_of P.plan_agrees P.own_agrees P.is_sound M.language
        (seen_spec.snapshot_seen site.now.snapshot.now))
        (tokens_spec.hand_view (slice_index_or workers.old i d).hand)
        (attempts_spec.jobs_seen (slice_index_or workers.old i d).jobs.items)
        (tokens_spec.hand_view (slice_index_or workers.new i d).hand)
        (attempts_spec.jobs_seen (slice_index_or workers.new i d).jobs.items) }
    ensures done { (i : ℕ) (d : _) → i < length workers.old → attempts_spec.HasAll
        (slice_index_or workers.new i d).failed
        (attempts_spec.jobs_seen (slice_index_or workers.new i d).jobs.items) }
{
    thread::for_each_mut(
        rt,
        workers,
        MOST_WORKERS,
        &|_, worker: &mut Worker<P>|
            requires hand { sites_spec.IsAtWork site.now.desk.now
                (seen_spec.snapshot_seen site.now.snapshot.now)
                (option_map M.ready_row site.now.ready.now) worker.old.hand }
            requires parts { sites_spec.ArePartsOf site.now.key.now
                (option_map M.ready_row site.now.ready.now)
                (attempts_spec.jobs_seen worker.old.jobs.items) }
            requires ready { sites_spec.IsReadyOver M.ready_state
                (arc_value site.now.snapshot.now.sources) site.now.ready.now }
            ensures hand { sites_spec.IsAtWork site.entry.now.desk.now
                (seen_spec.snapshot_seen site.entry.now.snapshot.now)
                (option_map M.ready_row site.entry.now.ready.now) worker.new.hand }
            ensures works { attempts_spec.WorksOn (sites_spec.basis_of P.plan_agrees P.own_agrees
                P.is_sound M.language (seen_spec.snapshot_seen site.entry.now.snapshot.now))
                (tokens_spec.hand_view worker.old.hand)
                (attempts_spec.jobs_seen worker.old.jobs.items)
                (tokens_spec.hand_view worker.new.hand)
                (attempts_spec.jobs_seen worker.new.jobs.items) }
            ensures done { attempts_spec.HasAll worker.new.failed
                (attempts_spec.jobs_seen worker.new.jobs.items) }
        { work::<R, P, M, G>(rt, alloc, site, worker) },
    );
}

// Joins each hand, and only then looks whether all parts were done.
fn join_all<P: Parts, M: Makers<P>, G>(
    site: &Site<'_, P, M, G>,
    pass: &mut Pass<Book<P>>,
    team: Team<P>,
) -> Result<Vec<Vec<Job>>, NoMemory>
    requires pass { tokens_spec.IsPassOf site.now.desk.now pass.old }
    requires hands { All (λ worker. teams_spec.HasWorked (sites_spec.basis_of P.plan_agrees P.own_agrees P.is_sound
        M.language (seen_spec.snapshot_seen site.now.snapshot.now)) site.now.desk.now
        (tokens_spec.pass_view pass.old) (attempts_spec.jobs_seen worker.jobs.items) worker.hand)
        team.workers.items }
    requires done { All (λ worker. attempts_spec.HasAll worker.failed
        (attempts_spec.jobs_seen worker.jobs.items)) team.workers.items }
    requires room { vec_len team.workers ≤ vec_capacity team.left }
    requires none_left { vec_len team.left ≡ 0 }
    ensures pass { tokens_spec.IsPassOf site.now.desk.now pass.new }
    ensures parts { (tokens_spec.pass_view pass.new).parts
        ≡ (tokens_spec.pass_view pass.old).parts + vec_len team.workers }
    ensures goes_on { teams_spec.GoesOnWith (sites_spec.basis_of P.plan_agrees P.own_agrees P.is_sound
        M.language (seen_spec.snapshot_seen site.now.snapshot.now)) (tokens_spec.pass_view pass.old)
        (tokens_spec.pass_view pass.new)
        (map (λ worker. attempts_spec.jobs_seen worker.jobs.items) team.workers.items) }
    ensures left { IfOk result (λ left. left.items
        ≡ map (λ worker. worker.jobs) team.workers.items) }
    ensures done { IfOk result (λ left. lists_spec.Each attempts_spec.IsDone
        (dealing_spec.all_of (dealing_spec.piles_seen left.items))) }
{
    let Team { workers, mut left } = team;
    let mut failed = false;
    for worker in workers {
        let Worker {
            hand,
            jobs,
            failed: has_failed,
            ..
        } = worker;
        site.desk.join(pass, hand);
        left.push_reserved(jobs);
        failed = failed || has_failed;
    }
    if failed { Err(NoMemory) } else { Ok(left) }
}
