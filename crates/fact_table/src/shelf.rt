//! Kept rows. Those of a key are a chain from its newest on.

ghost use Rattle.std.specs.Prelude.{◌≡◌, ◌≤◌, ◌<◌, ◌+◌, ◌^◌, [], ◌∷◌, ◌++◌, IfOk, OnOk, length};
ghost use Rattle.std.specs.Arc.{arc_value};
ghost use Rattle.std.specs.VecDeque.{deque_capacity, deque_len};
ghost use Rattle.dita_doc.specs.declared.fact.FactKey as key_spec;
ghost use Rattle.facts.specs.Latest as latest_spec;
ghost use Rattle.facts.specs.Memo as memo_spec;
ghost use Rattle.facts.specs.Rows as rows_spec;
ghost use Rattle.facts.specs.Table as table_spec;
ghost use Rattle.fact_table.specs.Claims as claims_spec;
ghost use Rattle.fact_table.specs.Noted as noted_spec;
ghost use Rattle.fact_table.specs.Ranks as ranks_spec;
ghost use Rattle.fact_table.specs.Shelf as spec;

use crate::claims::{RunningClaim, runs};
use crate::memo::{Noted, row_agrees};
use crate::ranks::{enter, leave, rank_of, renew};
use dita_doc::{FactKey, NoMemory};
use facts::{Judge, Parts, Row};
use std::alloc::Global;
use std::collections::{BTreeMap, VecDeque};

// A row, with the rank of the row of its key before it; 0 if there was none.
#[derive(Drop)]
pub(crate) struct Kept {
    pub row: Row,
    pub older: u64,
}

// The kept rows in the order in which they were published. A rank tells a row's place, and the ranks
// of dropped rows tell that they are gone.
#[derive(Drop)]
pub(crate) struct Shelf {
    pub rows: VecDeque<Kept>,
    // For each key that has a row or a running claim the rank of its newest row, or 0.
    pub newest: BTreeMap<FactKey, u64>,
    pub dropped: u64,
    // What the rows count for.
    pub bytes: u128,
}

impl Shelf {
    pub fn new(alloc: Global) -> Shelf
        ensures shelf { spec.IsShelf result }
        ensures rows { spec.rows_seen result ≡ [] }
        ensures dropped { result.dropped ≡ 0 }
        ensures len { deque_len result.rows ≡ 0 }
    {
        Shelf {
            rows: VecDeque::new(alloc),
            newest: BTreeMap::new(alloc),
            dropped: 0,
            bytes: 0,
        }
    }

    // The last published of the rows of a key that agree with the judge's sources, which are those
    // of a stamp.
    #[tactic(none)]
    pub fn find<P: Parts, J: Judge<P>>(
        &self,
        alloc: Global,
        memo: &mut Vec<Noted>,
        key: &FactKey,
        stamp: u64,
        judge: &mut J,
    ) -> Result<Option<Row>, NoMemory>
        requires shelf { spec.IsShelf self.now }
        requires may { noted_spec.MayClaim P.plan_agrees P.own_agrees P.is_sound
            (spec.rows_seen self.now) (noted_spec.judged_seen memo.old.items) key.now stamp
            (J.sources judge.old) (J.build judge.old) }
        requires noted { noted_spec.AllHaveRows (spec.rows_seen self.now) memo.old.items }
        ensures found { IfOk result (λ found. latest_spec.IsLatest
            (latest_spec.Agrees P.plan_agrees P.own_agrees) (spec.rows_seen self.now) key.now
            (J.sources judge.old) (spec.row_found found)) }
        ensures memo { memo_spec.MayNote P.plan_agrees (J.sources judge.old) stamp
            (spec.rows_seen self.now) (noted_spec.judged_seen memo.old.items)
            (noted_spec.judged_seen memo.new.items) }
        ensures noted { noted_spec.AllHaveRows (spec.rows_seen self.now) memo.new.items }
        ensures sources { J.sources judge.new ≡ J.sources judge.old }
        ensures build { J.build judge.new ≡ J.build judge.old }
    {
        let mut at = rank_of(&self.newest, key);
        while at > self.dropped {
            let kept = &self.rows[(at - self.dropped - 1) as usize];
            if row_agrees(alloc, memo, &kept.row, stamp, judge)? {
                return Ok(Some(kept.row.clone()?));
            }
            at = kept.older;
        }
        Ok(None)
    }

    // Makes room for a row of a key, beside so many others.
    pub fn reserve(&mut self, key: &FactKey, others: usize) -> Result<(), NoMemory>
        requires shelf { spec.IsShelf self.old }
        requires few { others < 2 ^ 63 }
        ensures shelf { spec.IsShelf self.new }
        ensures rows { spec.rows_seen self.new ≡ spec.rows_seen self.old }
        ensures dropped { self.new.dropped ≡ self.old.dropped }
        ensures same { ranks_spec.AreSame self.old.newest self.new.newest }
        ensures len { deque_len self.new.rows ≡ deque_len self.old.rows }
        ensures capacity { deque_capacity self.old.rows ≤ deque_capacity self.new.rows }
        ensures known { OnOk result (ranks_spec.IsKnown self.new.newest key.now) }
        ensures room { OnOk result
            (deque_len self.new.rows + others + 1 ≤ deque_capacity self.new.rows) }
    {
        self.rows.reserve(others + 1)?;
        enter(&mut self.newest, key)
    }

    // How many rows were published.
    pub fn made(&self) -> u64
        requires { self.now.dropped + length (spec.rows_seen self.now) < 2 ^ 64 }
        ensures { result ≡ self.now.dropped + length (spec.rows_seen self.now) }
    {
        self.dropped + self.rows.len() as u64
    }

    // Puts a row behind the others. There is room for it.
    pub fn put(&mut self, row: Row)
        requires shelf { spec.IsShelf self.old }
        requires rank { row.rank ≡ self.old.dropped + length (spec.rows_seen self.old) + 1 }
        requires known { ranks_spec.IsKnown self.old.newest (arc_value row.fact).key }
        requires room { deque_len self.old.rows < deque_capacity self.old.rows }
        requires small { self.old.bytes < 2 ^ 64 }
        ensures shelf { spec.IsShelf self.new }
        ensures rows { spec.rows_seen self.new
            ≡ spec.rows_seen self.old ++ rows_spec.row_data row ∷ [] }
        ensures dropped { self.new.dropped ≡ self.old.dropped }
        ensures known { (other : key_spec.FactKey) → ranks_spec.IsKnown self.old.newest other
            → ranks_spec.IsKnown self.new.newest other }
        ensures capacity { deque_capacity self.new.rows ≡ deque_capacity self.old.rows }
    {
        let older = renew(&mut self.newest, &row.fact.key, row.rank);
        self.bytes += u128::from(row.bytes);
        self.rows.push_back_reserved(Kept { row, older });
    }

    // Drops the first rows while they count for more than the limit. Keys of claims keep their entries.
    pub fn fit(&mut self, claims: &[RunningClaim], limit: u64)
        requires shelf { spec.IsShelf self.old }
        requires known { spec.KnowsClaims self.old.newest (claims_spec.claims_seen claims.now) }
        requires small { self.old.dropped + length (spec.rows_seen self.old) < 2 ^ 64 }
        ensures shelf { spec.IsShelf self.new }
        ensures known { spec.KnowsClaims self.new.newest (claims_spec.claims_seen claims.now) }
        ensures rows { spec.rows_seen self.new ≡ table_spec.left limit (spec.rows_seen self.old) }
        ensures made { self.new.dropped + length (spec.rows_seen self.new)
            ≡ self.old.dropped + length (spec.rows_seen self.old) }
        ensures capacity { deque_capacity self.new.rows ≡ deque_capacity self.old.rows }
    {
        while self.bytes > u128::from(limit) {
            let row = self.drop_first();
            self.forget(&row.fact.key, claims);
        }
    }

    // Drops the first row, and gives it.
    fn drop_first(&mut self) -> Row
        requires shelf { spec.IsShelf self.old }
        requires some { 0 < length (spec.rows_seen self.old) }
        requires small { self.old.dropped + 1 < 2 ^ 64 }
        ensures shelf { spec.IsShelf self.new }
        ensures rows { spec.rows_seen self.old
            ≡ rows_spec.row_data result ∷ spec.rows_seen self.new }
        ensures dropped { self.new.dropped ≡ self.old.dropped + 1 }
        ensures newest { self.new.newest ≡ self.old.newest }
        ensures capacity { deque_capacity self.new.rows ≡ deque_capacity self.old.rows }
    {
        let Some(Kept { row, .. }) = self.rows.pop_front() else {
            unreachable!()
        };
        self.bytes -= u128::from(row.bytes);
        self.dropped += 1;
        row
    }

    // Forgets a key that has no row and no claim.
    pub fn forget(&mut self, key: &FactKey, claims: &[RunningClaim])
        requires shelf { spec.IsShelf self.old }
        requires known { spec.KnowsClaims self.old.newest (claims_spec.claims_seen claims.now) }
        ensures shelf { spec.IsShelf self.new }
        ensures known { spec.KnowsClaims self.new.newest (claims_spec.claims_seen claims.now) }
        ensures rows { spec.rows_seen self.new ≡ spec.rows_seen self.old }
        ensures dropped { self.new.dropped ≡ self.old.dropped }
        ensures len { deque_len self.new.rows ≡ deque_len self.old.rows }
        ensures capacity { deque_capacity self.new.rows ≡ deque_capacity self.old.rows }
    {
        if rank_of(&self.newest, key) > self.dropped {
            return;
        }
        if runs(claims, key) {
            return;
        }
        leave(&mut self.newest, key);
    }
}
