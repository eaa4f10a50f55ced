//! One fact alone, as a plain call.

ghost use Rattle.std.specs.Prelude.{IfOk, IsTrue};
ghost use Rattle.std.specs.Option.{option_copied};
ghost use Rattle.std.specs.Arc.{arc_value};
ghost use Rattle.fact_maker.specs.Alone as alone_spec;
ghost use Rattle.fact_maker.specs.Parts as parts_spec;
ghost use Rattle.facts.specs.Rows as rows_spec;

use crate::maker::Maker;
use crate::plan_facts::{of_plan, plan_fact};
use crate::ready::key_with;
use dita_doc::{FactKey, NoMemory, Part, Sources};
use facts::{Fact, Row};
use std::alloc::Global;
use std::sync::Arc;

/// The fact of a part. For a page or the contents page `planned` is the fact of the plan of the same
/// map and DITAVAL, which is sound, agrees with the sources and has this part. What the parts of the
/// plan share is found for this one alone, and the fact names no row of its plan.
pub fn fact(
    alloc: Global,
    sources: &Arc<Sources>,
    key: &FactKey,
    planned: Option<&Fact>,
) -> Result<Fact, NoMemory>
    requires part { IsTrue (parts_spec.is_planned key.now.part (option_copied planned)) }
    requires planned { alone_spec.GivenFor key.now.part key.now (arc_value sources.now)
        (option_copied planned) }
    ensures { IfOk result (alone_spec.IsAlone key.now (arc_value sources.now)
        (option_copied planned.entry)) }
{
    match (key.part, planned) {
        (Part::Plan, _) => plan_fact(alloc, sources, &key.map, key.val.as_ref()),
        (part, Some(planned)) => {
            let row = row_of(alloc, planned)?;
            Maker::new(alloc, sources, &row)?.make(alloc, part)
        }
        (_, None) => unreachable!(),
    }
}

// A row of the plan of a fact, which no table keeps.
fn row_of(alloc: Global, planned: &Fact) -> Result<Row, NoMemory>
    ensures { IfOk result (λ row. alone_spec.IsRowOf planned.now (rows_spec.row_data row)) }
{
    let key = key_with(&planned.key, Part::Plan)?;
    let fact = of_plan(alloc, key, Arc::try_clone(&planned.plan)?)?;
    Ok(Row {
        serial: 0,
        stamp: 0,
        rank: 0,
        mark: 0,
        bytes: 0,
        fact: Arc::new(alloc, fact)?,
    })
}
