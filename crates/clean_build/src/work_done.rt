//! What is done over stored sources by the tables of a plan.

ghost use Rattle.std.specs.Prelude.{◌++◌, [], IfOk};
ghost use Rattle.clean_build.specs.Told as told_spec;
ghost use Rattle.plan_reader.specs.Tables.{AreTables, GoesOn};
ghost use Rattle.reader_spec.specs.World.{World, world_of};
ghost use Rattle.readers.specs.Documents.{AsksOnly};
ghost use Rattle.readers.specs.Founded as founded_spec;
ghost use Rattle.readers.specs.Founded.{StaysFounded};
ghost use Rattle.readers.specs.Told.{Agrees};

use crate::plan_task::PlanTask;
use dita_doc::{NoMemory, Plan, Sources};
use plan_reader::{PlanCache, PlanReader, PlanTables};
use readers::Questions;
use std::alloc::Global;

/// What a work made, the questions that it asked, and what goes on to the next.
#[derive(Drop)]
pub struct WorkDone<M> {
    pub made: M,
    pub asked: Questions,
    pub cache: PlanCache,
}

/// Does a work over a plan, by a reader that tells the questions of this work alone.
pub fn over_tables<W: PlanTask>(
    alloc: Global,
    sources: &Sources,
    cache: PlanCache,
    plan: &Plan,
    tables: &PlanTables,
    work: W,
) -> Result<WorkDone<W::Made>, NoMemory>
    requires goes_on { GoesOn (world_of sources.now) plan.now.documents cache }
    requires tables { AreTables (world_of sources.now) plan.now.nodes plan.now.documents
        plan.now.pages tables.now }
    ensures goes_on { IfOk result
        (λ done. GoesOn (world_of sources.now) plan.now.documents done.cache) }
    ensures known { (world : World) → IfOk result
        (λ done. Agrees world (told_spec.told_by_plan plan.now done.asked)
        → W.makes work (world_of sources.now) world (told_spec.made_for plan.now) done.made) }
    ensures agrees { IfOk result
        (λ done. Agrees (world_of sources.now) (told_spec.told_by_plan plan.now done.asked)) }
    ensures founded { IfOk result (λ done. StaysFounded
        (founded_spec.homes plan.now.nodes ++ W.about work) []
        (told_spec.told_by_plan plan.now done.asked)) }
    ensures asks { IfOk result (λ done. AsksOnly (W.follows work) (W.documents work) []
        (told_spec.told_by_plan plan.now done.asked)) }
    ensures only { (world : World) → IfOk result
        (λ done. Agrees world (told_spec.told_by_plan plan.now done.asked)
        → W.tells work world (told_spec.made_for plan.now) []
        (told_spec.told_by_plan plan.now done.asked)) }
{
    let mut reader = PlanReader::new(
        alloc,
        sources,
        cache,
        &plan.nodes,
        &plan.documents,
        &plan.pages,
        tables,
    );
    let made = work.run(alloc, &mut reader)?;
    let (asked, cache) = reader.into_asked();
    Ok(WorkDone { made, asked, cache })
}

/// The same, of which the questions are let go.
pub(crate) fn made_over<W: PlanTask>(
    alloc: Global,
    sources: &Sources,
    cache: PlanCache,
    plan: &Plan,
    tables: &PlanTables,
    work: W,
) -> Result<(W::Made, PlanCache), NoMemory>
    requires goes_on { GoesOn (world_of sources.now) plan.now.documents cache }
    requires tables { AreTables (world_of sources.now) plan.now.nodes plan.now.documents
        plan.now.pages tables.now }
    ensures made { IfOk result
        (λ done. W.makes work (world_of sources.now) (world_of sources.now)
        (told_spec.made_for plan.now) done.0) }
    ensures goes_on { IfOk result
        (λ done. GoesOn (world_of sources.now) plan.now.documents done.1) }
{
    let done = over_tables(alloc, sources, cache, plan, tables, work)?;
    let WorkDone { made, cache, .. } = done;
    Ok((made, cache))
}
