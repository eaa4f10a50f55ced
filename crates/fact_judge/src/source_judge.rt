//! The judge of facts over stored sources.

ghost use Rattle.std.specs.Prelude.{◌≡◌, IfOk, IsTrue, None, Ok, Some, is_some};
ghost use Rattle.std.specs.Arc.{arc_value};
ghost use Rattle.std.specs.Option.{option_copied};
ghost use Rattle.fact_judge.specs.Answer as answer_spec;
ghost use Rattle.fact_judge.specs.Judging as judging_spec;
ghost use Rattle.fact_judge.specs.Judging.{HasTablesOf, HasTablesOf-prop, WasSo};
ghost use Rattle.facts.specs.Judged.{Tells};
ghost use Rattle.map_spec.specs.PlanOf as plan_spec;
ghost use Rattle.reader_spec.specs.World.{world_of};
ghost use Rattle.readers.specs.Titled.{AreTitles, AreTitles-prop};

use crate::map_parts::MapParts;
use crate::planned::{are_about_plan, are_planned_answers};
use crate::stored::{StoredSince, are_stored_answers};
use dita_doc::{Asked, Name, NoMemory, Plan, Sources};
use facts::{Fact, Judge, PlanFact};
use plan_reader::PlanTables;
use readers::TitleTable;
use source_reader::{KnownTitles, SourceReader};
use std::alloc::Global;
use std::mem::replace;
use std::sync::Arc;

/// A judge of the facts of a map with a DITAVAL, or without, over stored sources. The tables are
/// those of the plan that the map has there; without them they are made once they are needed. Titles
/// that were made for one question are kept for the next.
#[derive(Drop)]
pub struct SourceJudge {
    sources: Arc<Sources>,
    map: Name,
    val: Option<Name>,
    tables: Option<Arc<PlanTables>>,
    titles: TitleTable,
    ghost tabled: { HasTablesOf (world_of (arc_value sources)) map val tables } by { HasTablesOf-prop
        (world_of (arc_value sources)) map val tables },
    ghost titled: { AreTitles (world_of (arc_value sources)) titles } by { AreTitles-prop
        (world_of (arc_value sources)) titles },
}

impl SourceJudge {
    /// A judge without tables.
    pub fn new(
        alloc: Global,
        sources: &Arc<Sources>,
        map: &Name,
        val: Option<&Name>,
    ) -> Result<SourceJudge, NoMemory>
        ensures sources { IfOk result
            (λ judge. arc_value judge.sources ≡ arc_value sources.now) }
        ensures map { IfOk result (λ judge. judge.map ≡ map.now) }
        ensures val { IfOk result (λ judge. judge.val ≡ option_copied val.entry) }
    {
        let val = match val {
            Some(val) => Some(val.clone()?),
            None => None,
        };
        Ok(SourceJudge {
            sources: Arc::try_clone(sources)?,
            map: map.clone()?,
            val,
            tables: None,
            titles: TitleTable::new(alloc),
        })
    }

    /// The same judge with the tables of the plan that its map has.
    pub fn with_tables(self, tables: Arc<PlanTables>) -> SourceJudge
        requires { judging_spec.AreTablesOf (world_of (arc_value self.sources))
            self.map self.val (arc_value tables) }
        ensures sources { arc_value result.sources ≡ arc_value self.sources }
        ensures map { result.map ≡ self.map }
        ensures val { result.val ≡ self.val }
    {
        let SourceJudge {
            sources,
            map,
            val,
            titles,
            ..
        } = self;
        SourceJudge {
            sources,
            map,
            val,
            tables: Some(tables),
            titles,
        }
    }

    /// Makes the tables of the plan that the judge's map has, if there are none yet.
    pub(crate) fn make_tables(&mut self, alloc: Global, plan: &Plan) -> Result<(), NoMemory>
        requires { plan_spec.plan_of plan_spec.limits (world_of (arc_value self.old.sources))
            self.old.map self.old.val ≡ Ok plan.now }
        ensures sources { arc_value self.new.sources ≡ arc_value self.old.sources }
        ensures map { self.new.map ≡ self.old.map }
        ensures val { self.new.val ≡ self.old.val }
        ensures ready { IfOk result (λ done. IsTrue (is_some self.new.tables)) }
    {
        if self.tables.is_some() {
            return Ok(());
        }
        let known = KnownTitles::new(alloc, &self.sources);
        let mut reader = SourceReader::new(alloc, known);
        let tables = PlanTables::of(alloc, &mut reader, plan)?;
        self.tables = Some(Arc::new(alloc, tables)?);
        Ok(())
    }

    // Whether each of some questions about documents has its recorded answer.
    fn judge_stored(&mut self, alloc: Global, asked: &[Asked], since: u64) -> Result<bool, NoMemory>
        requires { WasSo (λ state. answer_spec.AreAnswers (world_of state) None asked.now)
            since (arc_value self.old.sources) }
        ensures sources { arc_value self.new.sources ≡ arc_value self.old.sources }
        ensures map { self.new.map ≡ self.old.map }
        ensures val { self.new.val ≡ self.old.val }
        ensures tells { IfOk result (λ are. Tells are (answer_spec.AreAnswers
            (world_of (arc_value self.old.sources)) None asked.now)) }
    {
        let titles = replace(&mut self.titles, TitleTable::new(alloc));
        let sources: &Sources = &self.sources;
        let mut known = KnownTitles::with_titles(sources, titles);
        let stored = StoredSince { sources, since };
        let agreed = are_stored_answers(alloc, &stored, &mut known, asked);
        self.titles = known.into_titles();
        agreed
    }

    // Whether each of some questions has its recorded answer, where those about a plan are put for
    // this one, which is the plan there.
    fn judge_planned(
        &mut self,
        alloc: Global,
        plan: &Plan,
        asked: &[Asked],
        since: u64,
    ) -> Result<bool, NoMemory>
        requires plan { plan_spec.plan_of plan_spec.limits
            (world_of (arc_value self.old.sources)) self.old.map self.old.val ≡ Ok plan.now }
        requires was { WasSo (λ state. answer_spec.AreAnswers (world_of state)
            (answer_spec.setting_by (Ok plan.now)) asked.now) since
            (arc_value self.old.sources) }
        ensures sources { arc_value self.new.sources ≡ arc_value self.old.sources }
        ensures map { self.new.map ≡ self.old.map }
        ensures val { self.new.val ≡ self.old.val }
        ensures tells { IfOk result (λ are. Tells are (answer_spec.AreAnswers
            (world_of (arc_value self.old.sources)) (answer_spec.setting_by (Ok plan.now))
            asked.now)) }
    {
        self.make_tables(alloc, plan)?;
        let Some(tables) = &self.tables else {
            unreachable!()
        };
        let titles = replace(&mut self.titles, TitleTable::new(alloc));
        let sources: &Sources = &self.sources;
        let mut known = KnownTitles::with_titles(sources, titles);
        let stored = StoredSince { sources, since };
        let agreed = are_planned_answers(alloc, &stored, &mut known, plan, tables, asked);
        self.titles = known.into_titles();
        agreed
    }
}

impl Judge<MapParts> for SourceJudge {
    ghost use Rattle.std.specs.Arc.{arc_value};

    ghost sources = { λ judge. arc_value judge.sources };

    ghost build = { λ judge. record { map = judge.map; val = judge.val } };

    fn judge_plan(&mut self, alloc: Global, plan: &PlanFact, since: u64) -> Result<bool, NoMemory> {
        self.judge_stored(alloc, plan.asked.as_slice(), since)
    }

    fn judge_own(&mut self, alloc: Global, fact: &Fact, since: u64) -> Result<bool, NoMemory> {
        let asked = fact.asked.as_slice();
        match &fact.plan.value {
            Ok(plan) => {
                if are_about_plan(asked) {
                    self.judge_planned(alloc, plan, asked, since)
                } else {
                    self.judge_stored(alloc, asked, since)
                }
            }
            Err(_) => self.judge_stored(alloc, asked, since),
        }
    }
}
