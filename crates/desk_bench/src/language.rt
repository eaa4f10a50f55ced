//! A language for the bench. A part has as many bytes of HTML as names were stored, so it agrees
//! with the sources that have as many.

ghost use Rattle.std.specs.Prelude.{◌≡◌, IfOk, length};
ghost use Rattle.std.specs.Arc.{arc_value};
ghost use Rattle.facts.specs.Judged as judged_spec;
ghost use Rattle.facts.specs.Table as table_spec;
ghost use Rattle.desk_bench.specs.Bench as spec;

use dita_doc::{FactKey, Html, List, Name, NoMemory, Part, PlanStop, Sources};
use facts::{Fact, FactPair, Judge, Parts, PlanFact};
use std::alloc::{AllocError, Global};
use std::sync::Arc;

/// The parts of the language.
pub struct BenchParts;

impl Parts for BenchParts {
    ghost use Rattle.desk_bench.specs.Bench as spec;

    ghost plan_agrees = { λ plan state. Unit {0} };

    ghost own_agrees = { spec.CountsNames };

    ghost is_sound = { λ fact. Unit {0} };
}

/// The judge of a build without a DITAVAL.
#[derive(Drop)]
pub struct BenchJudge {
    pub sources: Arc<Sources>,
    pub map: Name,
}

impl Judge<BenchParts> for BenchJudge {
    ghost use Rattle.std.specs.Arc.{arc_value};
    ghost use Rattle.desk_bench.specs.Bench as spec;

    ghost sources = { λ judge. arc_value judge.sources };

    ghost build = { λ judge. spec.build_of judge.map };

    fn judge_plan(&mut self, alloc: Global, plan: &PlanFact, since: u64) -> Result<bool, NoMemory> {
        Ok(true)
    }

    fn judge_own(&mut self, alloc: Global, fact: &Fact, since: u64) -> Result<bool, NoMemory> {
        Ok(counts(fact, self.sources.names()))
    }
}

// Whether a part has as many bytes of HTML as names are stored.
fn counts(fact: &Fact, names: u64) -> bool
    ensures { judged_spec.Tells result (table_spec.html_bytes fact.now.html ≡ names) }
{
    html_bytes(fact) == names
}

fn html_bytes(fact: &Fact) -> u64
    ensures { result ≡ table_spec.html_bytes fact.now.html }
{
    match &fact.html {
        Some(html) => html.bytes.len() as u64,
        None => 0,
    }
}

/// The page of this index, of the builds of a map without a DITAVAL.
pub fn page(map: &Name, index: u32) -> Result<FactKey, AllocError>
    ensures { IfOk result (λ key. judged_spec.build_key key ≡ spec.build_of key.map) }
{
    Ok(FactKey {
        map: map.clone()?,
        val: None,
        part: Part::Page(index),
    })
}

/// A part for sources of so many names. It rests on no row of a plan.
pub fn part_of(alloc: Global, key: &FactKey, names: u64) -> Result<FactPair, AllocError>
    ensures key { IfOk result (λ pair. (arc_value pair.kept).key ≡ key.now) }
    ensures own { IfOk result (λ pair. (arc_value pair.kept).planned ≡ 0) }
    ensures counts { IfOk result
        (λ pair. table_spec.html_bytes (arc_value pair.kept).html ≡ names) }
{
    let plan = PlanFact {
        asked: List::new(alloc),
        value: Err(PlanStop::NoMap),
    };
    let html = Html {
        bytes: dots(alloc, names)?,
        faults: List::new(alloc),
    };
    let fact = Fact {
        key: key.clone()?,
        plan: Arc::new(alloc, plan)?,
        planned: 0,
        asked: List::new(alloc),
        html: Some(Arc::new(alloc, html)?),
    };
    FactPair::new(alloc, fact).map_err(|_| AllocError)
}

// So many bytes.
fn dots(alloc: Global, count: u64) -> Result<List<u8>, AllocError>
    ensures { IfOk result (λ bytes. length bytes ≡ count) }
{
    let mut bytes = Vec::new(alloc);
    bytes.resize(count as usize, b'.')?;
    Ok(List::from_vec(bytes))
}
