//! The table of finished parts.

ghost use Rattle.std.specs.Prelude.{◌≡◌, ◌≤◌, ◌<◌, ◌+◌, [], ◌∷◌, ◌++◌, IfOk, IfSome, IfNone, OnOk, OnErr, length};
ghost use Rattle.std.specs.Arc.{arc_value};
ghost use Rattle.facts.specs.Judged as judged_spec;
ghost use Rattle.facts.specs.Latest as latest_spec;
ghost use Rattle.facts.specs.Memo as memo_spec;
ghost use Rattle.facts.specs.Rows as rows_spec;
ghost use Rattle.facts.specs.Table as table_spec;
ghost use Rattle.fact_table.specs.Answers as answers_spec;
ghost use Rattle.fact_table.specs.Claims as claims_spec;
ghost use Rattle.fact_table.specs.Noted as noted_spec;
ghost use Rattle.fact_table.specs.Shelf as shelf_spec;

use crate::claims::{RunningClaim, claim_for, end, names_of};
use crate::memo::{Noted, forget, plan_of, raise};
use crate::shelf::Shelf;
use crate::ticket::{Claimed, Ticket};
use dita_doc::{FactKey, NoMemory, Sources};
use facts::{FactPair, Judge, Parts, Row};
use std::alloc::Global;
use std::marker::Model;
use std::sync::Arc;

// The most names that the sources of a claim may have.
const NAME_LIMIT: u64 = 1 << 48;

/// The rows that are kept for later builds, and the claims that run.
#[derive(Drop)]
pub struct Table {
    shelf: Shelf,
    claims: Vec<RunningClaim>,
    memo: Vec<Noted>,
    drawn: u64,
    limit: u64,
}

impl Model for Table {
    ghost use Rattle.fact_table.specs.Seen as seen_spec;

    ghost Value = { seen_spec.TableSeen };

    ghost use Rattle.fact_table.specs.Inside as inside_spec;

    ghost view = { inside_spec.table_seen };

    ghost invariant = { inside_spec.IsTable };
}

impl Table {
    /// A table without rows, whose rows may count for at most so many bytes.
    #[tactic(auto, using(crate::proofs::NewLaws::new_is))]
    pub fn new(alloc: Global, bytes: u64) -> Result<Table, NoMemory>
        ensures data { IfOk result (λ table. table.table ≡ table_spec.new_table bytes) }
        ensures judged { IfOk result (λ table. table.judged ≡ []) }
    {
        Ok(Table {
            shelf: Shelf::new(alloc),
            claims: Vec::new(alloc),
            memo: Vec::new(alloc),
            drawn: 0,
            limit: bytes,
        })
    }

    /// Claims a part for a snapshot: its sources and its stamp. The judge has these sources.
    ///
    /// # Errors
    ///
    /// Out of memory; also if all serials were drawn.
    #[tactic(auto, using(crate::proofs::AnswerLaws::answers))]
    pub fn claim<P: Parts, J: Judge<P>>(
        &mut self,
        alloc: Global,
        key: &FactKey,
        sources: &Arc<Sources>,
        stamp: u64,
        judge: &mut J,
    ) -> Result<Claimed, NoMemory>
        requires sources { J.sources judge.old ≡ arc_value sources.now }
        requires may { noted_spec.MayClaim P.plan_agrees P.own_agrees P.is_sound
            self.old.table.rows self.old.judged key.now stamp (J.sources judge.old)
            (J.build judge.old) }
        ensures answers { IfOk result (λ claimed. latest_spec.IsClaimAnswer
            (latest_spec.Agrees P.plan_agrees P.own_agrees) self.old.table key.now stamp
            (arc_value sources.now) (answers_spec.answer_seen claimed)) }
        ensures left { IfOk result (λ claimed. self.new.table
            ≡ latest_spec.after_claim self.old.table key.now stamp (arc_value sources.now)
            (answers_spec.answer_seen claimed)) }
        ensures err { OnErr result (self.new.table ≡ self.old.table) }
        ensures judged { memo_spec.MayNote P.plan_agrees (arc_value sources.now) stamp
            self.old.table.rows self.old.judged self.new.judged }
        ensures judge_sources { J.sources judge.new ≡ J.sources judge.old }
        ensures judge_build { J.build judge.new ≡ J.build judge.old }
    {
        if let Some(row) = self.seek(alloc, key, stamp, judge)? {
            return Ok(Claimed::Have(row));
        }
        if let Some(serial) = self.running_for(key, stamp) {
            return Ok(Claimed::Taken(serial));
        }
        Ok(Claimed::Yours(self.draw(key, sources, stamp)?))
    }

    // The last published of the rows of a key that agree with the judge's sources, which are those
    // of a stamp.
    #[tactic(none)]
    fn seek<P: Parts, J: Judge<P>>(
        &mut self,
        alloc: Global,
        key: &FactKey,
        stamp: u64,
        judge: &mut J,
    ) -> Result<Option<Row>, NoMemory>
        requires { noted_spec.MayClaim P.plan_agrees P.own_agrees P.is_sound
            self.old.table.rows self.old.judged key.now stamp (J.sources judge.old)
            (J.build judge.old) }
        ensures found { IfOk result (λ found. latest_spec.IsLatest
            (latest_spec.Agrees P.plan_agrees P.own_agrees) self.old.table.rows key.now
            (J.sources judge.old) (shelf_spec.row_found found)) }
        ensures same { self.new.table ≡ self.old.table }
        ensures judged { memo_spec.MayNote P.plan_agrees (J.sources judge.old) stamp
            self.old.table.rows self.old.judged self.new.judged }
        ensures sources { J.sources judge.new ≡ J.sources judge.old }
        ensures build { J.build judge.new ≡ J.build judge.old }
    {
        self.shelf.find(alloc, &mut self.memo, key, stamp, judge)
    }

    // The serial of the claim that runs for a key and a stamp, if one does.
    fn running_for(&self, key: &FactKey, stamp: u64) -> Option<u64>
        ensures found { IfSome result (λ serial. claims_spec.IsSerialFor self.now.table.running
            key.now stamp serial) }
        ensures absent { IfNone result
            (latest_spec.NoneRuns self.now.table.running key.now stamp) }
    {
        claim_for(&self.claims, key, stamp)
    }

    // Draws a claim, and makes room for its row.
    fn draw(
        &mut self,
        key: &FactKey,
        sources: &Arc<Sources>,
        stamp: u64,
    ) -> Result<Ticket, NoMemory>
        ensures ticket { IfOk result (λ ticket. ticket ≡ rows_spec.claim_of
            (table_spec.next_claim self.old.table key.now stamp (arc_value sources.now))) }
        ensures left { OnOk result (self.new.table
            ≡ table_spec.claimed self.old.table key.now stamp (arc_value sources.now)) }
        ensures err { OnErr result (self.new.table ≡ self.old.table) }
        ensures judged { self.new.judged ≡ self.old.judged }
    {
        if self.drawn == u64::MAX {
            return Err(NoMemory);
        }
        let names = sources.names();
        if names > NAME_LIMIT {
            return Err(NoMemory);
        }
        let serial = self.drawn + 1;
        let own = key.clone()?;
        let kept = key.clone()?;
        let state = Arc::try_clone(sources)?;
        let claim = RunningClaim {
            serial,
            key: kept,
            stamp,
            sources: state,
        };
        self.shelf.reserve(key, self.claims.len())?;
        self.claims.push(claim)?;
        self.drawn = serial;
        Ok(Ticket {
            serial,
            key: own,
            stamp,
        })
    }

    /// Puts the row of a claim last, and drops the first rows while they count for too much. One
    /// share of the fact stays in the table, and the other is in the row.
    #[tactic(none)]
    pub fn publish(&mut self, ticket: Ticket, fact: FactPair) -> Row
        requires runs { answers_spec.IsRunning self.old.table.running ticket }
        requires key { (arc_value fact.kept).key ≡ ticket.key }
        ensures published { answers_spec.IsPublished ticket (arc_value fact.kept)
            self.old.table (rows_spec.row_data result) self.new.table }
        ensures judged { answers_spec.AreAmong self.new.judged self.old.judged }
        ensures rows { memo_spec.HaveRows self.new.table.rows self.new.judged }
    {
        let Ticket { serial, stamp, .. } = ticket;
        let FactPair {
            kept,
            given,
            bytes,
            ..
        } = fact;
        let made = self.shelf.made();
        let rank = made + 1;
        let mark = self.drawn;
        let names = names_of(&self.claims, serial);
        let bytes = bytes + 64 + 32 * names;
        let row = Row {
            serial,
            stamp,
            rank,
            mark,
            bytes,
            fact: kept,
        };
        end(&mut self.claims, serial);
        raise(&mut self.memo, plan_of(&row), rank);
        self.shelf.put(row);
        self.shelf.fit(&self.claims, self.limit);
        forget(&mut self.memo, self.shelf.dropped);
        Row {
            serial,
            stamp,
            rank,
            mark,
            bytes,
            fact: given,
        }
    }

    /// Ends a claim, for which no row is made.
    #[tactic(none)]
    pub fn release(&mut self, ticket: Ticket)
        requires { answers_spec.IsRunning self.old.table.running ticket }
        ensures left { self.new.table ≡ table_spec.released self.old.table ticket.serial }
        ensures judged { self.new.judged ≡ self.old.judged }
    {
        end(&mut self.claims, ticket.serial);
        self.shelf.forget(&ticket.key, &self.claims);
    }

    /// How many rows are kept.
    pub fn kept(&self) -> u64
        ensures { result ≡ length self.now.table.rows }
    {
        self.shelf.rows.len() as u64
    }

    /// How many rows were published.
    pub fn made(&self) -> u64
        ensures { result ≡ table_spec.made self.now.table }
    {
        self.shelf.made()
    }

    /// How many rows were dropped.
    pub fn dropped(&self) -> u64
        ensures { result ≡ self.now.table.dropped }
    {
        self.shelf.dropped
    }
}
