//! Parts are dealt to workers, and what came of them is put in order again.

ghost use Rattle.std.specs.Prelude.{◌≡◌, ◌+◌, ◌<◌, ◌∷◌, ◌++◌, [], List, Some, All, IfOk, OnOk, length, map, slice_get, vec_len};
ghost use Rattle.desk_lock.specs.Lists as lists_spec;
ghost use Rattle.desk_work.specs.Attempts as attempts_spec;
ghost use Rattle.desk_work.specs.Dealing as dealing_spec;
ghost use Rattle.desk_work.specs.declared.work.Job.{Job as WorkerJob};
ghost use Rattle.dita_doc.specs.declared.fact.FactKey as key_declared;

use crate::work::Job;
use dita_doc::{FactKey, Name, NoMemory, Plan, Sources};
use std::alloc::{AllocError, Global};

// A pile of parts for each worker, with the first of its parts on top; and for each part, in order,
// the pile on which it lies.
#[derive(Drop)]
pub(crate) struct Dealt {
    pub piles: Vec<Vec<Job>>,
    pub homes: Vec<usize>,
}

// Deals parts to so many workers, by an estimate of what each part takes.
pub(crate) fn deal(
    alloc: Global,
    parts: Vec<FactKey>,
    weights: &[u64],
    workers: usize,
) -> Result<Dealt, NoMemory>
    requires same { length weights.now ≡ vec_len parts }
    requires some { 0 < workers }
    ensures many { IfOk result (λ dealt. vec_len dealt.piles ≡ workers) }
    ensures dealt { IfOk result (λ dealt. dealing_spec.AreDealt dealt.homes.items parts.items
        (dealing_spec.pile_keys (dealing_spec.piles_seen dealt.piles.items))) }
    ensures new { IfOk result (λ dealt. lists_spec.Each dealing_spec.AreNew
        (dealing_spec.piles_seen dealt.piles.items)) }
{
    let homes = homes_by(alloc, weights, workers)?;
    let mut piles = empty_piles(alloc, workers)?;
    put_all(piles.as_mut_slice(), homes.as_slice(), parts)?;
    Ok(Dealt { piles, homes })
}

// So many piles without a part.
fn empty_piles(alloc: Global, count: usize) -> Result<Vec<Vec<Job>>, AllocError>
    ensures many { IfOk result (λ piles. vec_len piles ≡ count) }
    ensures empty { IfOk result (λ piles. lists_spec.Each (λ pile. pile ≡ [])
        (dealing_spec.piles_seen piles.items)) }
{
    let mut piles = Vec::with_capacity(alloc, count)?;
    for _ in 0..count {
        piles.push_reserved(Vec::new(alloc));
    }
    Ok(piles)
}

// Puts parts on the piles that are their homes, the last part first.
fn put_all(piles: &mut [Vec<Job>], homes: &[usize], parts: Vec<FactKey>) -> Result<(), AllocError>
    requires same { length homes.now ≡ vec_len parts }
    requires within { All (λ home. home < length piles.old) homes.now }
    requires empty { lists_spec.Each (λ pile. pile ≡ []) (dealing_spec.piles_seen piles.old) }
    ensures many { length piles.new ≡ length piles.old }
    ensures dealt { OnOk result (dealing_spec.AreDealt homes.now parts.items
        (dealing_spec.pile_keys (dealing_spec.piles_seen piles.new))) }
    ensures new { OnOk result (lists_spec.Each dealing_spec.AreNew
        (dealing_spec.piles_seen piles.new)) }
{
    let mut parts = parts;
    while let Some(key) = parts.pop() {
        put(piles, homes[parts.len()], key)?;
    }
    Ok(())
}

// Puts a part on a pile.
fn put(piles: &mut [Vec<Job>], home: usize, key: FactKey) -> Result<(), AllocError>
    requires { home < length piles.old }
    ensures many { length piles.new ≡ length piles.old }
    ensures put { OnOk result (dealing_spec.IsPut (dealing_spec.piles_seen piles.old) home key
        (dealing_spec.piles_seen piles.new)) }
{
    piles[home].push(Job { key, row: None })?;
    Ok(())
}

// The pile of each part: the heaviest part first, each goes to the worker that has the least so far.
fn homes_by(alloc: Global, weights: &[u64], workers: usize) -> Result<Vec<usize>, AllocError>
    requires some { 0 < workers }
    ensures many { IfOk result (λ homes. vec_len homes ≡ length weights.now) }
    ensures within { IfOk result (λ homes. All (λ home. home < workers) homes.items) }
{
    let mut heaviest_last = numbered(alloc, weights)?;
    heaviest_last.sort_unstable();
    let mut loads = vec![in alloc; 0u64; workers]?;
    let mut homes = vec![in alloc; 0usize; weights.len()]?;
    while let Some((weight, place)) = heaviest_last.pop() {
        let home = least(loads.as_slice());
        loads[home] = loads[home].saturating_add(weight);
        if let Some(chosen) = homes.get_mut(place) {
            *chosen = home;
        }
    }
    Ok(homes)
}

// Each weight with its place.
fn numbered(alloc: Global, weights: &[u64]) -> Result<Vec<(u64, usize)>, AllocError> {
    let mut all = Vec::with_capacity(alloc, weights.len())?;
    for (place, weight) in weights.iter().enumerate() {
        all.push_reserved((*weight, place));
    }
    Ok(all)
}

// The place of the least load.
fn least(loads: &[u64]) -> usize
    requires { 0 < length loads.now }
    ensures { result < length loads.now }
{
    let mut found = 0;
    for place in 1..loads.len() {
        if loads[place] < loads[found] {
            found = place;
        }
    }
    found
}

// How long each page of a plan and the contents page may take: the nodes of the page's document,
// and those of the plan.
pub(crate) fn weights(alloc: Global, sources: &Sources, plan: &Plan) -> Result<Vec<u64>, AllocError>
    ensures { IfOk result (λ weights. vec_len weights ≡ length plan.now.pages + 1) }
{
    let mut weights = Vec::with_capacity(alloc, plan.pages.len() + 1)?;
    for page in plan.pages.as_slice() {
        weights.push_reserved(nodes_of(sources, &page.id.doc));
    }
    weights.push_reserved(plan.nodes.len() as u64);
    Ok(weights)
}

// How many nodes the document of this name has, if it is stored.
fn nodes_of(sources: &Sources, name: &Name) -> u64 {
    match sources.get(name) {
        Some((_, doc)) => doc.nodes.len() as u64,
        None => 0,
    }
}

// All parts in order again, each from the top of its pile.
pub(crate) fn in_order(alloc: Global, dealt: Dealt) -> Result<Vec<Job>, AllocError>
    requires dealt { (keys : List key_declared.FactKey) × dealing_spec.AreDealt dealt.homes.items keys
        (dealing_spec.pile_keys (dealing_spec.piles_seen dealt.piles.items)) }
    ensures keys { IfOk result (λ jobs. (keys : List key_declared.FactKey)
        → dealing_spec.AreDealt dealt.homes.items keys
        (dealing_spec.pile_keys (dealing_spec.piles_seen dealt.piles.items))
        → attempts_spec.keys_of (attempts_spec.jobs_seen jobs.items) ≡ keys) }
    ensures same { IfOk result (λ jobs. dealing_spec.SameItems
        (dealing_spec.all_of (dealing_spec.piles_seen dealt.piles.items))
        (attempts_spec.jobs_seen jobs.items)) }
{
    let Dealt { mut piles, homes } = dealt;
    let mut jobs = Vec::with_capacity(alloc, homes.len())?;
    for home in homes {
        jobs.push_reserved(take(piles.as_mut_slice(), home));
    }
    Ok(jobs)
}

// The part on top of a pile.
fn take(piles: &mut [Vec<Job>], home: usize) -> Job
    requires { (pile : List WorkerJob) × (top : WorkerJob) × (slice_get (map (λ pile. pile.items)
        piles.old) home ≡ Some (pile ++ top ∷ [])) }
    ensures taken { dealing_spec.IsTaken (dealing_spec.piles_seen piles.old) home
        (attempts_spec.job_seen result) (dealing_spec.piles_seen piles.new) }
{
    match piles[home].pop() {
        Some(job) => job,
        None => unreachable!(),
    }
}
