//! A language for tests, in which each part is sound and agrees with any sources; and calls of a
//! desk of it that are on their way to success.

ghost use Rattle.std.specs.Prelude.{◌≡◌, ◌<◌, ◌+◌, ◌-◌, [], ◌∷◌, ◌++◌, IfOk, OnOk, length};
ghost use Rattle.std.specs.Arc.{arc_value};
ghost use Rattle.dita_doc.specs.Seen as seen_spec;
ghost use Rattle.facts.specs.Judged as judged_spec;
ghost use Rattle.desk_core.specs.Seen as core_seen_spec;
ghost use Rattle.desk_core.specs.Steps as core_steps_spec;
ghost use Rattle.desk_lock.specs.Calls as calls_spec;
ghost use Rattle.desk_lock.specs.Knows as knows_spec;
ghost use Rattle.desk_lock.specs.Tokens as tokens_spec;
ghost use Rattle.lock_examples.specs.Toy as toy_spec;

use desk_core::{Book, Limits, Snapshot};
use desk_lock::{Desk, Hand, Pass};
use dita_doc::{FactKey, Html, List, Name, NoMemory, Part, PlanStop, Reply, Request, Sources};
use fact_table::{Claimed, Ticket};
use facts::{Fact, FactPair, Judge, Parts, PlanFact, Row};
use pyx_text::read_body;
use std::alloc::{AllocError, Global};
use std::sync::{Arc, Wait};

/// The parts of the language.
pub struct ToyParts;

impl Parts for ToyParts {
    ghost plan_agrees = { λ plan state. Unit {0} };

    ghost own_agrees = { λ fact state. Unit {0} };

    ghost is_sound = { λ fact. Unit {0} };
}

/// A desk of the language, with its tokens.
pub type ToyDesk = Desk<Book<ToyParts>>;

pub type ToyPass = Pass<Book<ToyParts>>;

pub type ToyHand = Hand<Book<ToyParts>>;

/// A judge, to whom each fact agrees.
#[derive(Drop)]
pub struct ToyJudge {
    sources: Arc<Sources>,
    key: FactKey,
}

impl Judge<ToyParts> for ToyJudge {
    ghost use Rattle.std.specs.Arc.{arc_value};
    ghost use Rattle.facts.specs.Judged as judged_spec;

    ghost sources = { λ judge. arc_value judge.sources };

    ghost build = { λ judge. judged_spec.build_key judge.key };

    fn judge_plan(&mut self, alloc: Global, plan: &PlanFact, since: u64) -> Result<bool, NoMemory> {
        Ok(true)
    }

    fn judge_own(&mut self, alloc: Global, fact: &Fact, since: u64) -> Result<bool, NoMemory> {
        Ok(true)
    }
}

// The judge of a claim.
fn judge_of(key: &FactKey, snapshot: &Snapshot) -> Result<ToyJudge, AllocError>
    ensures { IfOk result (λ judge. core_steps_spec.IsJudgeOfClaim (judged_spec.build_key judge.key)
        (arc_value judge.sources) key.now (core_seen_spec.snapshot_seen snapshot.now)) }
{
    Ok(ToyJudge {
        sources: Arc::try_clone(&snapshot.sources)?,
        key: key.clone()?,
    })
}

/// A judge of a map's builds over nothing, for events that need none.
pub fn idle_judge(alloc: Global, map: &Name) -> Result<ToyJudge, AllocError> {
    Ok(ToyJudge {
        sources: Arc::new(alloc, Sources::new(alloc))?,
        key: page(map, 0)?,
    })
}

/// A name. A text that is none counts as out of memory: no test gives one.
pub fn name(alloc: Global, text: &str) -> Result<Name, AllocError> {
    Name::parse(alloc, text).map_err(|_| AllocError)
}

/// The page of this index, of the builds of a map without a DITAVAL.
pub fn page(map: &Name, index: u32) -> Result<FactKey, AllocError> {
    Ok(FactKey {
        map: map.clone()?,
        val: None,
        part: Part::Page(index),
    })
}

/// The plan of the builds of a map without a DITAVAL.
pub fn plan(map: &Name) -> Result<FactKey, AllocError> {
    Ok(FactKey {
        map: map.clone()?,
        val: None,
        part: Part::Plan,
    })
}

/// A put of six bytes, which are one element, under a name.
pub fn put(alloc: Global, name: &Name) -> Result<Request, AllocError>
    ensures origin { IfOk result (λ request. seen_spec.HasOwnOrigin request) }
    ensures may { IfOk result
        (λ request. core_steps_spec.MayCommit (seen_spec.request_seen request)) }
{
    let text = List::from_slice(alloc, b"(p\n)p\n")?;
    let body = read_body(alloc, name, text).map_err(|_| AllocError)?;
    Ok(Request::Put(name.clone()?, body))
}

/// A remove of a name.
pub fn remove(name: &Name) -> Result<Request, AllocError>
    ensures origin { IfOk result (λ request. seen_spec.HasOwnOrigin request) }
    ensures may { IfOk result
        (λ request. core_steps_spec.MayCommit (seen_spec.request_seen request)) }
{
    Ok(Request::Remove(name.clone()?))
}

/// A part whose HTML has five bytes. It rests on no row of a plan.
pub fn part_of(alloc: Global, key: &FactKey) -> Result<FactPair, AllocError>
    ensures key { IfOk result (λ pair. (arc_value pair.kept).key ≡ key.now) }
    ensures own { IfOk result (λ pair. (arc_value pair.kept).planned ≡ 0) }
{
    let plan = PlanFact {
        asked: List::new(alloc),
        value: Err(PlanStop::NoMap),
    };
    let html = Html {
        bytes: List::from_slice(alloc, b"page\n")?,
        faults: List::new(alloc),
    };
    let fact = Fact {
        key: key.clone()?,
        plan: Arc::new(alloc, plan)?,
        planned: 0,
        asked: List::new(alloc),
        html: Some(Arc::new(alloc, html)?),
    };
    FactPair::new(alloc, fact).map_err(|_| AllocError)
}

/// A new desk with its first pass.
pub fn started(alloc: Global, limits: Limits) -> Result<(ToyDesk, ToyPass), AllocError>
    ensures pass { IfOk result (λ started. tokens_spec.IsPassOf started.0 started.1) }
    ensures mine { IfOk result (λ started. (tokens_spec.pass_view started.1).mine ≡ []) }
    ensures parts { IfOk result
        (λ started. (tokens_spec.pass_view started.1).parts ≡ knows_spec.all_parts) }
{
    match ToyDesk::start(alloc, limits) {
        Ok(started) => Ok(started),
        Err(_) => Err(AllocError),
    }
}

/// An edit for which there is room.
pub fn edit<R: Wait>(
    rt: &R,
    alloc: Global,
    desk: &ToyDesk,
    pass: &mut ToyPass,
    number: u32,
    request: Request,
) -> Result<(u64, Reply), AllocError>
    requires pass { tokens_spec.IsPassOf desk.now pass.old }
    requires may { core_steps_spec.MayCommit (seen_spec.request_seen request) }
    requires origin { seen_spec.HasOwnOrigin request }
    ensures pass { tokens_spec.IsPassOf desk.now pass.new }
    ensures parts { OnOk result ((tokens_spec.pass_view pass.new).parts
        ≡ (tokens_spec.pass_view pass.old).parts) }
    ensures place { IfOk result (λ placed. (tokens_spec.pass_view pass.new).mine
        ≡ (tokens_spec.pass_view pass.old).mine ++ placed.0 ∷ []) }
    ensures seen { IfOk result
        (λ placed. length (tokens_spec.pass_view pass.new).seen ≡ placed.0 + 1) }
{
    match desk.edit(rt, alloc, pass, number, request) {
        Ok(placed) => Ok(placed),
        Err(_) => Err(AllocError),
    }
}

/// A build for which there is room.
pub fn begin<R: Wait>(
    rt: &R,
    alloc: Global,
    desk: &ToyDesk,
    pass: &mut ToyPass,
    number: u32,
    map: &Name,
) -> Result<(u64, Snapshot), AllocError>
    requires pass { tokens_spec.IsPassOf desk.now pass.old }
    ensures pass { tokens_spec.IsPassOf desk.now pass.new }
    ensures parts { OnOk result ((tokens_spec.pass_view pass.new).parts
        ≡ (tokens_spec.pass_view pass.old).parts) }
    ensures of { IfOk result (λ begun. core_steps_spec.IsSnapshotOf
        (tokens_spec.pass_view pass.new).seen (core_seen_spec.snapshot_seen begun.1)) }
{
    match desk.begin(rt, alloc, pass, number, map, None) {
        Ok(begun) => Ok(begun),
        Err(_) => Err(AllocError),
    }
}

/// A hand, which may claim for this snapshot.
pub fn hired(desk: &ToyDesk, pass: &mut ToyPass, snapshot: &Snapshot) -> ToyHand
    requires pass { tokens_spec.IsPassOf desk.now pass.old }
    requires parts { knows_spec.hand_parts < (tokens_spec.pass_view pass.old).parts }
    requires of { core_steps_spec.IsSnapshotOf (tokens_spec.pass_view pass.old).seen
        (core_seen_spec.snapshot_seen snapshot.now) }
    ensures pass { tokens_spec.IsPassOf desk.now pass.new }
    ensures parts { (tokens_spec.pass_view pass.new).parts
        ≡ (tokens_spec.pass_view pass.old).parts - 1 }
    ensures pass_of { core_steps_spec.IsSnapshotOf (tokens_spec.pass_view pass.new).seen
        (core_seen_spec.snapshot_seen snapshot.now) }
    ensures hand { tokens_spec.IsHandOf desk.now result }
    ensures of { core_steps_spec.IsSnapshotOf (tokens_spec.hand_view result).seen
        (core_seen_spec.snapshot_seen snapshot.now) }
{
    desk.hand(pass)
}

/// A claim. The hand may claim for the same snapshot again.
pub fn claim<R: Wait>(
    rt: &R,
    alloc: Global,
    desk: &ToyDesk,
    hand: &mut ToyHand,
    key: &FactKey,
    snapshot: &Snapshot,
) -> Result<Claimed, AllocError>
    requires hand { tokens_spec.IsHandOf desk.now hand.old }
    requires of { core_steps_spec.IsSnapshotOf (tokens_spec.hand_view hand.old).seen
        (core_seen_spec.snapshot_seen snapshot.now) }
    ensures hand { tokens_spec.IsHandOf desk.now hand.new }
    ensures of { core_steps_spec.IsSnapshotOf (tokens_spec.hand_view hand.new).seen
        (core_seen_spec.snapshot_seen snapshot.now) }
    ensures granted { IfOk result
        (toy_spec.MayEndIfGranted (tokens_spec.hand_view hand.new) key.now) }
{
    let mut judge = judge_of(key, snapshot)?;
    match desk.claim(rt, alloc, hand, key, snapshot, &mut judge) {
        Ok(claimed) => Ok(claimed),
        Err(_) => Err(AllocError),
    }
}

/// Publishes a part that rests on no row of a plan. The hand may claim again for a snapshot for
/// which it might.
pub fn publish<R: Wait>(
    rt: &R,
    desk: &ToyDesk,
    hand: &mut ToyHand,
    ticket: Ticket,
    part: FactPair,
    snapshot: &Snapshot,
) -> Row
    requires hand { tokens_spec.IsHandOf desk.now hand.old }
    requires may { calls_spec.MayEnd (tokens_spec.hand_view hand.old) ticket }
    requires key { (arc_value part.kept).key ≡ ticket.key }
    requires own { (arc_value part.kept).planned ≡ 0 }
    requires of { core_steps_spec.IsSnapshotOf (tokens_spec.hand_view hand.old).seen
        (core_seen_spec.snapshot_seen snapshot.now) }
    ensures hand { tokens_spec.IsHandOf desk.now hand.new }
    ensures of { core_steps_spec.IsSnapshotOf (tokens_spec.hand_view hand.new).seen
        (core_seen_spec.snapshot_seen snapshot.now) }
{
    desk.publish(rt, hand, ticket, part)
}

/// Releases a claim. The hand may claim again for a snapshot for which it might.
pub fn release<R: Wait>(
    rt: &R,
    desk: &ToyDesk,
    hand: &mut ToyHand,
    ticket: Ticket,
    snapshot: &Snapshot,
)
    requires hand { tokens_spec.IsHandOf desk.now hand.old }
    requires may { calls_spec.MayEnd (tokens_spec.hand_view hand.old) ticket }
    requires of { core_steps_spec.IsSnapshotOf (tokens_spec.hand_view hand.old).seen
        (core_seen_spec.snapshot_seen snapshot.now) }
    ensures hand { tokens_spec.IsHandOf desk.now hand.new }
    ensures of { core_steps_spec.IsSnapshotOf (tokens_spec.hand_view hand.new).seen
        (core_seen_spec.snapshot_seen snapshot.now) }
{
    desk.release(rt, hand, ticket)
}
