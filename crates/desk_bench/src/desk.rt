//! Calls of a desk that are on their way to success. Each says that its token may be used again.

ghost use Rattle.std.specs.Prelude.{◌≡◌, IfOk, OnOk};
ghost use Rattle.std.specs.Arc.{arc_value};
ghost use Rattle.facts.specs.Judged as judged_spec;
ghost use Rattle.desk_core.specs.Seen as seen_spec;
ghost use Rattle.desk_core.specs.Steps as steps_spec;
ghost use Rattle.desk_lock.specs.Calls as calls_spec;
ghost use Rattle.desk_lock.specs.Knows as knows_spec;
ghost use Rattle.desk_lock.specs.Tokens as tokens_spec;
ghost use Rattle.desk_bench.specs.Bench as spec;

use crate::language::{BenchJudge, BenchParts};
use desk_core::{Book, Limits, Snapshot};
use desk_lock::{Desk, Hand, Pass};
use dita_doc::{FactKey, List, Name, Request};
use fact_table::{Claimed, Ticket};
use facts::FactPair;
use pyx_text::read_body;
use std::alloc::{AllocError, Global};
use std::sync::{Arc, Wait};

/// A desk of the bench's language, with its tokens.
pub type BenchDesk = Desk<Book<BenchParts>>;

pub type BenchPass = Pass<Book<BenchParts>>;

pub type BenchHand = Hand<Book<BenchParts>>;

/// Limits that no run reaches.
pub fn no_limits() -> Limits {
    Limits {
        entries: u64::MAX,
        text_bytes: u64::MAX,
        table_bytes: u64::MAX,
    }
}

/// A new desk with its first pass.
pub fn started(alloc: Global) -> Result<(BenchDesk, BenchPass), AllocError>
    ensures { IfOk result (λ started. spec.Has started.0 started.1 knows_spec.all_parts) }
{
    match BenchDesk::start(alloc, no_limits()) {
        Ok(started) => Ok(started),
        Err(_) => Err(AllocError),
    }
}

/// A name. A text that is none counts as out of memory.
pub fn name(alloc: Global, text: &str) -> Result<Name, AllocError> {
    Name::parse(alloc, text).map_err(|_| AllocError)
}

/// Puts six bytes, which are one element, under the name of this number.
pub fn put<R: Wait>(
    rt: &R,
    alloc: Global,
    desk: &BenchDesk,
    pass: &mut BenchPass,
    number: u32,
) -> Result<(), AllocError>
    requires { spec.Has desk.now pass.old knows_spec.all_parts }
    ensures { OnOk result (spec.Has desk.now pass.new knows_spec.all_parts) }
{
    let text = format!(in alloc; "n{number}")?;
    let name = name(alloc, text.as_str())?;
    let bytes = List::from_slice(alloc, b"(p\n)p\n")?;
    let body = read_body(alloc, &name, bytes).map_err(|_| AllocError)?;
    match desk.edit(rt, alloc, pass, number, Request::Put(name, body)) {
        Ok(_) => Ok(()),
        Err(_) => Err(AllocError),
    }
}

/// A build, with a hand that may claim for its snapshot.
pub fn begin<R: Wait>(
    rt: &R,
    alloc: Global,
    desk: &BenchDesk,
    pass: &mut BenchPass,
    map: &Name,
) -> Result<Snapshot, AllocError>
    requires { spec.Has desk.now pass.old knows_spec.all_parts }
    ensures pass { OnOk result (spec.Has desk.now pass.new knows_spec.all_parts) }
    ensures of { IfOk result (λ snapshot. steps_spec.IsSnapshotOf
        (tokens_spec.pass_view pass.new).seen (seen_spec.snapshot_seen snapshot)) }
{
    match desk.begin(rt, alloc, pass, 0, map, None) {
        Ok((_, snapshot)) => Ok(snapshot),
        Err(_) => Err(AllocError),
    }
}

/// Claims a part of a build without a DITAVAL.
pub fn claim<R: Wait>(
    rt: &R,
    alloc: Global,
    desk: &BenchDesk,
    hand: &mut BenchHand,
    key: &FactKey,
    snapshot: &Snapshot,
) -> Result<Claimed, AllocError>
    requires works { spec.Works desk.now hand.old (seen_spec.snapshot_seen snapshot.now) }
    requires build { judged_spec.build_key key.now ≡ spec.build_of key.now.map }
    ensures works { spec.Works desk.now hand.new (seen_spec.snapshot_seen snapshot.now) }
    ensures granted { IfOk result (spec.IfGranted (tokens_spec.hand_view hand.new) key.now
        snapshot.now.stamp) }
{
    let mut judge = BenchJudge {
        sources: Arc::try_clone(&snapshot.sources)?,
        map: key.map.clone()?,
    };
    match desk.claim(rt, alloc, hand, key, snapshot, &mut judge) {
        Ok(claimed) => Ok(claimed),
        Err(_) => Err(AllocError),
    }
}

/// Publishes a part that has as many bytes of HTML as the snapshot has names.
#[tactic(auto, using(crate::proofs::PublishLaws::may_publish))]
pub fn publish<R: Wait>(
    rt: &R,
    desk: &BenchDesk,
    hand: &mut BenchHand,
    key: &FactKey,
    snapshot: &Snapshot,
    ticket: Ticket,
    part: FactPair,
)
    requires works { spec.Works desk.now hand.old (seen_spec.snapshot_seen snapshot.now) }
    requires granted { spec.IsGranted (tokens_spec.hand_view hand.old) key.now snapshot.now.stamp
        ticket }
    requires key { (arc_value part.kept).key ≡ key.now }
    requires own { (arc_value part.kept).planned ≡ 0 }
    requires counts { spec.CountsNames (arc_value part.kept) (arc_value snapshot.now.sources) }
    ensures { spec.Works desk.now hand.new (seen_spec.snapshot_seen snapshot.now) }
{
    desk.publish(rt, hand, ticket, part);
}

/// Releases a claim.
pub fn release<R: Wait>(
    rt: &R,
    desk: &BenchDesk,
    hand: &mut BenchHand,
    snapshot: &Snapshot,
    ticket: Ticket,
)
    requires works { spec.Works desk.now hand.old (seen_spec.snapshot_seen snapshot.now) }
    requires may { calls_spec.MayEnd (tokens_spec.hand_view hand.old) ticket }
    ensures { spec.Works desk.now hand.new (seen_spec.snapshot_seen snapshot.now) }
{
    desk.release(rt, hand, ticket)
}
