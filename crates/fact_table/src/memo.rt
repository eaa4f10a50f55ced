//! Judgements of plans that are kept, so that a plan is judged once for each stamp.

ghost use Rattle.std.specs.Prelude.{◌≡◌, ◌≤◌, IfOk, IfSome, if◌then◌else◌};
ghost use Rattle.std.specs.Arc.{arc_value};
ghost use Rattle.facts.specs.Judged as judged_spec;
ghost use Rattle.facts.specs.Latest as latest_spec;
ghost use Rattle.facts.specs.Memo as memo_spec;
ghost use Rattle.facts.specs.Rows as rows_spec;
ghost use Rattle.fact_table.specs.Noted as spec;

use dita_doc::NoMemory;
use facts::{Judge, Judged, Parts, Row};
use std::alloc::Global;

// The most judgements that are kept.
const MEMO_LIMIT: usize = 256;

// A judgement, with the rank of a row that rests on its plan: the row that was judged, or the last
// that was published since.
#[derive(Clone, Copy, Drop)]
pub(crate) struct Noted {
    pub judged: Judged,
    pub rank: u64,
}

// The serial under which the plan of a row is judged.
pub(crate) fn plan_of(row: &Row) -> u64
    ensures { result ≡ rows_spec.plan_serial (rows_spec.row_data row.now) }
{
    if row.fact.planned == 0 {
        row.serial
    } else {
        row.fact.planned
    }
}

// Whether the questions of a row's plan and its own have their recorded answers over the judge's
// sources, which are those of a stamp. The plan is judged if no judgement of it is kept.
pub(crate) fn row_agrees<P: Parts, J: Judge<P>>(
    alloc: Global,
    memo: &mut Vec<Noted>,
    row: &Row,
    stamp: u64,
    judge: &mut J,
) -> Result<bool, NoMemory>
    requires may { spec.MayJudge P.plan_agrees P.own_agrees P.is_sound (J.sources judge.old)
        (J.build judge.old) stamp (spec.judged_seen memo.old.items) (rows_spec.row_data row.now) }
    ensures tells { IfOk result (λ agreed. judged_spec.Tells agreed
        (latest_spec.Agrees P.plan_agrees P.own_agrees (arc_value row.now.fact)
        (J.sources judge.old))) }
    ensures memo { spec.MayGrow P.plan_agrees (J.sources judge.old) stamp
        (rows_spec.row_data row.now) memo.old.items memo.new.items }
    ensures sources { J.sources judge.new ≡ J.sources judge.old }
    ensures build { J.build judge.new ≡ J.build judge.old }
{
    let since = if row.stamp <= stamp { row.stamp } else { 0 };
    if !plan_agrees(alloc, memo, row, stamp, since, judge)? {
        return Ok(false);
    }
    judge.judge_own(alloc, &row.fact, since)
}

// The same of a row's plan alone.
fn plan_agrees<P: Parts, J: Judge<P>>(
    alloc: Global,
    memo: &mut Vec<Noted>,
    row: &Row,
    stamp: u64,
    since: u64,
    judge: &mut J,
) -> Result<bool, NoMemory>
    requires agreed { judged_spec.HasAgreed P.plan_agrees
        (rows_spec.plan_in (rows_spec.row_data row.now)) since (J.sources judge.old) }
    requires right { memo_spec.AreRight P.plan_agrees (J.sources judge.old) stamp
        (rows_spec.row_data row.now) (spec.judged_seen memo.old.items) }
    ensures tells { IfOk result (λ agreed. judged_spec.Tells agreed
        (P.plan_agrees (rows_spec.plan_in (rows_spec.row_data row.now)) (J.sources judge.old))) }
    ensures memo { spec.MayGrow P.plan_agrees (J.sources judge.old) stamp
        (rows_spec.row_data row.now) memo.old.items memo.new.items }
    ensures sources { J.sources judge.new ≡ J.sources judge.old }
    ensures build { J.build judge.new ≡ J.build judge.old }
{
    let plan = plan_of(row);
    if let Some(agreed) = known(memo, plan, stamp) {
        return Ok(agreed);
    }
    let agreed = judge.judge_plan(alloc, &row.fact.plan, since)?;
    let judged = Judged {
        plan,
        stamp,
        agreed,
    };
    note(
        memo,
        Noted {
            judged,
            rank: row.rank,
        },
    );
    Ok(agreed)
}

// What is kept of a plan for a stamp. The last judgements are looked at first: they are those of the
// latest stamps.
fn known(memo: &[Noted], plan: u64, stamp: u64) -> Option<bool>
    ensures { IfSome result (spec.IsKnown memo.now plan stamp) }
{
    for at in (0..memo.len()).rev() {
        let judged = &memo[at].judged;
        if judged.plan == plan && judged.stamp == stamp {
            return Some(judged.agreed);
        }
    }
    None
}

// Keeps a judgement. Without memory nothing is kept; the oldest goes if there are too many.
fn note(memo: &mut Vec<Noted>, noted: Noted)
    ensures { spec.AddsAtMost noted memo.old.items memo.new.items }
{
    if memo.len() >= MEMO_LIMIT {
        memo.remove(0);
    }
    drop(memo.push(noted));
}

// A row of this rank is published, which rests on this plan.
pub(crate) fn raise(memo: &mut [Noted], plan: u64, rank: u64)
    ensures { spec.AreRaised plan rank memo.old memo.new }
{
    for noted in memo.iter_mut() {
        if noted.judged.plan == plan {
            noted.rank = rank;
        }
    }
}

// Forgets what was judged of plans of which all known rows are among so many dropped ones.
pub(crate) fn forget(memo: &mut Vec<Noted>, dropped: u64)
    ensures { memo.new.items ≡ spec.remembered dropped memo.old.items }
{
    memo.retain(|noted| noted.rank > dropped);
}
