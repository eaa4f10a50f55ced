//! Parts of a build are given to workers, and come back with a row each: first the plan, then all
//! others.

ghost use Rattle.std.specs.Prelude.{◌≡◌, ◌<◌, ◌≤◌, [], ◌∷◌, IfOk, OnErr, Some, length, map, vec_len};
ghost use Rattle.std.specs.Arc.{arc_value};
ghost use Rattle.std.specs.Option.{option_map};
ghost use Rattle.desk_core.specs.Seen as seen_spec;
ghost use Rattle.desk_lock.specs.Lists as lists_spec;
ghost use Rattle.desk_lock.specs.Tokens as tokens_spec;
ghost use Rattle.desk_work.specs.Attempts as attempts_spec;
ghost use Rattle.desk_work.specs.Cited as cited_spec;
ghost use Rattle.desk_work.specs.Rounds as rounds_spec;
ghost use Rattle.desk_work.specs.Sites as sites_spec;
ghost use Rattle.desk_work.specs.Teams as teams_spec;
ghost use Rattle.dita_doc.specs.declared.fact.Part.TheVariants as part_spec;
ghost use Rattle.facts.specs.Rows as rows_spec;

use crate::deal::{Dealt, deal, in_order, weights};
use crate::makers::Makers;
use crate::team::work_together;
use crate::work::{Job, Site};
use desk_core::Book;
use desk_lock::Pass;
use dita_doc::{FactKey, NoMemory, Part, Plan};
use dita_outside::Gate;
use facts::{Parts, Row};
use std::alloc::{AllocError, Global};
use std::sync::Wait;
use std::thread::Threads;

// The row of the plan, which the caller gets as worker 0.
pub(crate) fn plan_row<
    R: Threads + Wait + Sync,
    P: Parts + Send + Sync,
    M: Makers<P>,
    G: Gate + Sync,
>(
    rt: &R,
    alloc: Global,
    site: &Site<'_, P, M, G>,
    pass: &mut Pass<Book<P>>,
) -> Result<Row, NoMemory>
    requires pass { teams_spec.MayHire site.now.desk.now
        (seen_spec.snapshot_seen site.now.snapshot.now)
        (option_map M.ready_row site.now.ready.now) pass.old }
    requires parts_left { 1 < (tokens_spec.pass_view pass.old).parts }
    requires of { sites_spec.IsPartOf site.now.key.now (option_map M.ready_row site.now.ready.now)
        site.now.key.now }
    requires ready { sites_spec.IsReadyOver M.ready_state
        (arc_value site.now.snapshot.now.sources) site.now.ready.now }
    ensures pass { tokens_spec.IsPassOf site.now.desk.now pass.new }
    ensures kept { (tokens_spec.pass_view pass.new).parts
        ≡ (tokens_spec.pass_view pass.old).parts }
    ensures gets { IfOk result (λ row. rounds_spec.GetsRows (sites_spec.basis_of P.plan_agrees
        P.own_agrees P.is_sound M.language (seen_spec.snapshot_seen site.now.snapshot.now))
        (tokens_spec.pass_view pass.old) (site.now.key.now ∷ []) (tokens_spec.pass_view pass.new)
        (rows_spec.row_data row ∷ [])) }
    ensures tries { OnErr result (rounds_spec.TriesParts (sites_spec.basis_of P.plan_agrees
        P.own_agrees P.is_sound M.language (seen_spec.snapshot_seen site.now.snapshot.now))
        (tokens_spec.pass_view pass.old) (site.now.key.now ∷ [])
        (tokens_spec.pass_view pass.new)) }
{
    let parts = only(alloc, site.key)?;
    let mut rows = rows_of::<R, P, M, G>(rt, alloc, site, pass, 0, parts, &[0], 1)?;
    match rows.pop() {
        Some(row) => Ok(row),
        None => unreachable!(),
    }
}

// A part alone.
fn only(alloc: Global, key: &FactKey) -> Result<Vec<FactKey>, AllocError>
    ensures { IfOk result (λ parts. parts.items ≡ key.now ∷ []) }
{
    let mut parts = Vec::with_capacity(alloc, 1)?;
    parts.push_reserved(key.clone()?);
    Ok(parts)
}

// The rows of the pages of a plan in order, and of its contents page, which workers 1 and up get.
pub(crate) fn part_rows<
    R: Threads + Wait + Sync,
    P: Parts + Send + Sync,
    M: Makers<P>,
    G: Gate + Sync,
>(
    rt: &R,
    alloc: Global,
    site: &Site<'_, P, M, G>,
    pass: &mut Pass<Book<P>>,
    plan: &Plan,
    workers: u32,
) -> Result<Vec<Row>, NoMemory>
    requires pass { teams_spec.MayHire site.now.desk.now
        (seen_spec.snapshot_seen site.now.snapshot.now)
        (option_map M.ready_row site.now.ready.now) pass.old }
    requires few { 1 ≤ workers }
    requires many { workers ≤ 16 }
    requires parts_left { 16 < (tokens_spec.pass_view pass.old).parts }
    requires plan { rounds_spec.HasPlan site.now.key.now plan.now
        (option_map M.ready_row site.now.ready.now) }
    requires ready { sites_spec.IsReadyOver M.ready_state
        (arc_value site.now.snapshot.now.sources) site.now.ready.now }
    ensures pass { tokens_spec.IsPassOf site.now.desk.now pass.new }
    ensures kept { (tokens_spec.pass_view pass.new).parts
        ≡ (tokens_spec.pass_view pass.old).parts }
    ensures gets { IfOk result (λ rows. rounds_spec.GetsRows (sites_spec.basis_of P.plan_agrees
        P.own_agrees P.is_sound M.language (seen_spec.snapshot_seen site.now.snapshot.now))
        (tokens_spec.pass_view pass.old) (rounds_spec.parts_behind site.now.key.now plan.now)
        (tokens_spec.pass_view pass.new) (cited_spec.rows_seen rows.items)) }
    ensures tries { OnErr result (rounds_spec.TriesParts (sites_spec.basis_of P.plan_agrees
        P.own_agrees P.is_sound M.language (seen_spec.snapshot_seen site.now.snapshot.now))
        (tokens_spec.pass_view pass.old) (rounds_spec.parts_behind site.now.key.now plan.now)
        (tokens_spec.pass_view pass.new)) }
{
    let parts = parts_of(alloc, site.key, plan)?;
    let weights = weights(alloc, &site.snapshot.sources, plan)?;
    let count = team_size(workers, parts.len());
    rows_of::<R, P, M, G>(rt, alloc, site, pass, 1, parts, weights.as_slice(), count)
}

// As many workers as there are parts for.
fn team_size(workers: u32, parts: usize) -> usize
    requires few { 0 < workers }
    requires some { 0 < parts }
    ensures few { 0 < result }
    ensures many { result ≤ workers }
{
    (workers as usize).min(parts)
}

// The rows of parts in order. So many workers get them, of which the first has this number; what a
// part takes is estimated by its weight.
fn rows_of<R: Threads + Wait + Sync, P: Parts + Send + Sync, M: Makers<P>, G: Gate + Sync>(
    rt: &R,
    alloc: Global,
    site: &Site<'_, P, M, G>,
    pass: &mut Pass<Book<P>>,
    first: u32,
    parts: Vec<FactKey>,
    weights: &[u64],
    workers: usize,
) -> Result<Vec<Row>, NoMemory>
    requires pass { teams_spec.MayHire site.now.desk.now
        (seen_spec.snapshot_seen site.now.snapshot.now)
        (option_map M.ready_row site.now.ready.now) pass.old }
    requires first { first ≤ 1 }
    requires weighed { length weights.now ≡ vec_len parts }
    requires few { 0 < workers }
    requires many { workers ≤ 16 }
    requires parts_left { workers < (tokens_spec.pass_view pass.old).parts }
    requires parts { lists_spec.Each (sites_spec.IsPartOf site.now.key.now
        (option_map M.ready_row site.now.ready.now)) parts.items }
    requires ready { sites_spec.IsReadyOver M.ready_state
        (arc_value site.now.snapshot.now.sources) site.now.ready.now }
    ensures pass { tokens_spec.IsPassOf site.now.desk.now pass.new }
    ensures kept { (tokens_spec.pass_view pass.new).parts
        ≡ (tokens_spec.pass_view pass.old).parts }
    ensures gets { IfOk result (λ rows. rounds_spec.GetsRows (sites_spec.basis_of P.plan_agrees
        P.own_agrees P.is_sound M.language (seen_spec.snapshot_seen site.now.snapshot.now))
        (tokens_spec.pass_view pass.old) parts.items (tokens_spec.pass_view pass.new)
        (cited_spec.rows_seen rows.items)) }
    ensures tries { OnErr result (rounds_spec.TriesParts (sites_spec.basis_of P.plan_agrees
        P.own_agrees P.is_sound M.language (seen_spec.snapshot_seen site.now.snapshot.now))
        (tokens_spec.pass_view pass.old) parts.items (tokens_spec.pass_view pass.new)) }
{
    let Dealt { piles, homes } = deal(alloc, parts, weights, workers)?;
    let piles = work_together::<R, P, M, G>(rt, alloc, site, pass, first, piles)?;
    let jobs = in_order(alloc, Dealt { piles, homes })?;
    Ok(cited(alloc, jobs)?)
}

// The keys of the pages of a plan, and behind them that of its contents page.
fn parts_of(alloc: Global, key: &FactKey, plan: &Plan) -> Result<Vec<FactKey>, NoMemory>
    ensures { IfOk result (λ parts. parts.items ≡ rounds_spec.parts_behind key.now plan.now) }
{
    let count = plan.pages.len();
    let mut parts = Vec::with_capacity(alloc, count + 1)?;
    for index in 0..count {
        parts.push_reserved(page_key(key, index)?);
    }
    parts.push_reserved(part_key(key, Part::Contents)?);
    Ok(parts)
}

// The key of the page of an index. More pages than can be counted are more than there is memory for.
fn page_key(key: &FactKey, index: usize) -> Result<FactKey, NoMemory>
    ensures { IfOk result (λ page. page ≡ record key.now { part = part_spec.Page index }) }
{
    match u32::try_from(index) {
        Ok(index) => Ok(part_key(key, Part::Page(index))?),
        Err(_) => Err(NoMemory),
    }
}

// The key of another part of the same builds.
fn part_key(key: &FactKey, part: Part) -> Result<FactKey, AllocError>
    ensures { IfOk result (λ other. other ≡ record key.now { part = part }) }
{
    Ok(FactKey {
        part,
        ..key.clone()?
    })
}

// The rows of parts that are all done.
fn cited(alloc: Global, jobs: Vec<Job>) -> Result<Vec<Row>, AllocError>
    requires { lists_spec.Each attempts_spec.IsDone (attempts_spec.jobs_seen jobs.items) }
    ensures { IfOk result (λ rows. map (λ job. job.row) (attempts_spec.jobs_seen jobs.items)
        ≡ map (λ row. Some row) (cited_spec.rows_seen rows.items)) }
{
    let mut rows = Vec::with_capacity(alloc, jobs.len())?;
    for job in jobs {
        let Job { row, .. } = job;
        let Some(row) = row else { unreachable!() };
        rows.push_reserved(row);
    }
    Ok(rows)
}
