//! Where builds of maps get their judges and makers from.

use desk_work::Makers;
use dita_doc::{FactKey, NoMemory, Part, Sources};
use fact_judge::{MapParts, SourceJudge};
use fact_maker::{Maker, ReadyPlan, plan_fact};
use facts::{Fact, Row};
use std::alloc::Global;
use std::sync::Arc;

/// Who judges and makes the parts of builds of maps.
pub struct MapMakers;

impl Makers<MapParts> for MapMakers {
    ghost use Rattle.std.specs.Arc.{arc_value};
    ghost use Rattle.facts.specs.Rows as rows_spec;
    ghost use Rattle.map_makers.specs.PartsTell as parts_laws;
    ghost use Rattle.map_makers.specs.PlanTells as plan_laws;
    ghost use Rattle.run_spec.specs.Language as language_spec;

    ghost language = { language_spec.dita };

    type Ready = Arc<ReadyPlan>;

    ghost ready_row = { λ ready. rows_spec.row_data (arc_value ready).row };

    ghost ready_state = { λ ready. arc_value (arc_value ready).sources };

    type PartJudge = SourceJudge;

    type PartMaker = Maker;

    ghost maker_row = { λ maker. rows_spec.row_data (arc_value maker.ready).row };

    ghost maker_state = { λ maker. arc_value (arc_value maker.ready).sources };

    fn plan_fact(alloc: Global, key: &FactKey, sources: &Arc<Sources>) -> Result<Fact, NoMemory> {
        plan_fact(alloc, sources, &key.map, key.val.as_ref())
    }

    fn ready(
        alloc: Global,
        sources: &Arc<Sources>,
        plan: &Row,
    ) -> Result<Arc<ReadyPlan>, NoMemory> {
        Ok(Arc::new(alloc, ReadyPlan::of(alloc, sources, plan)?)?)
    }

    fn judge(
        alloc: Global,
        key: &FactKey,
        sources: &Arc<Sources>,
        ready: Option<&Arc<ReadyPlan>>,
    ) -> Result<SourceJudge, NoMemory> {
        match ready {
            Some(ready) => ready.judge(alloc),
            None => SourceJudge::new(alloc, sources, &key.map, key.val.as_ref()),
        }
    }

    fn maker(
        alloc: Global,
        sources: &Arc<Sources>,
        ready: &Arc<ReadyPlan>,
    ) -> Result<Maker, NoMemory> {
        Ok(Maker::over(alloc, Arc::try_clone(ready)?))
    }

    fn make(alloc: Global, maker: &mut Maker, part: Part) -> Result<Fact, NoMemory> {
        maker.make(alloc, part)
    }

    ghost plan_tells = { plan_laws.plan_tells };

    ghost parts_tell = { parts_laws.parts_tell };
}
