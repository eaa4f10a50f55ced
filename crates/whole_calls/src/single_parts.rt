//! Single parts of a build, over any reader.

ghost use Rattle.std.specs.Prelude.{◌≡◌, ◌++◌, Ok, IfOk, OnOk};
ghost use Rattle.std.specs.Option.{option_copied};
ghost use Rattle.clean_build.specs.BuildInput.{IsReady};
ghost use Rattle.clean_build.specs.Names as names_spec;
ghost use Rattle.whole_calls.specs.Single as single_spec;
ghost use Rattle.build_plan.specs.Documents as documents_spec;
ghost use Rattle.conref_targets.specs.Asking as asking_spec;
ghost use Rattle.map_spec.specs.PlanOf as plan_spec;
ghost use Rattle.part_spec.specs.Parts as parts_spec;
ghost use Rattle.reader_spec.specs.World.{World};
ghost use Rattle.readers.specs.Documents.{AsksOnly};
ghost use Rattle.readers.specs.Founded as founded_spec;
ghost use Rattle.readers.specs.Founded.{Grows, StaysFounded};
ghost use Rattle.readers.specs.Told.{Agrees};

use crate::found::{Found, find_plan};
use crate::over_reader::{TitleWork, over_reader};
use crate::with_keys::over_titles;
use clean_build::{BuildInput, PageMade, PageWork, PlanTask, no_html};
use conref_pull::Tables;
use dita_doc::{Html, Name, NoMemory, Plan};
use node_links::NodeLinks;
use pushed_docs::PushedDocs;
use readers::{Asker, Reader, Titles};
use std::alloc::Global;
use toc_page::contents;

/// The page of a plan at an index, with all its faults; it is empty if there is no such page. The
/// plan is that of the map and the DITAVAL over what the reader reads. It is made anew, so that what
/// is asked tells it in every world that agrees; and so is what all pages of a plan need.
pub fn page<R: Reader>(
    alloc: Global,
    reader: &mut R,
    plan: &Plan,
    map: &Name,
    val: Option<&Name>,
    index: u32,
) -> Result<Html, NoMemory>
    ensures tells { (world : World) → Agrees world (R.told reader.new)
        → OnOk result (single_spec.HaveSamePlan (R.stand reader.old).world world map.now
        (option_copied val.entry)) }
    ensures known { (world : World) → Agrees world (R.told reader.new)
        → plan_spec.plan_of plan_spec.limits (R.stand reader.old).world map.now
        (option_copied val.entry) ≡ Ok plan.now
        → IfOk result (λ html. html ≡ parts_spec.page_part parts_spec.rooms world plan.now
        (option_copied val.entry) index) }
    ensures value { plan_spec.plan_of plan_spec.limits (R.stand reader.old).world map.now
        (option_copied val.entry) ≡ Ok plan.now
        → IfOk result (λ html. html ≡ parts_spec.page_part parts_spec.rooms
        (R.stand reader.old).world plan.now (option_copied val.entry) index) }
    ensures founded { StaysFounded (documents_spec.build_names map.now (option_copied val.entry))
        (R.told reader.old) (R.told reader.new) }
    ensures stand { R.stand reader.new ≡ R.stand reader.old }
    ensures grows { Grows (R.told reader.old) (R.told reader.new) }
{
    page_of_plan(alloc, reader, plan, map, val, index)
}

// What `page` says, but of the reader's own world.
fn page_of_plan<R: Reader>(
    alloc: Global,
    reader: &mut R,
    plan: &Plan,
    map: &Name,
    val: Option<&Name>,
    index: u32,
) -> Result<Html, NoMemory>
    ensures tells { (world : World) → Agrees world (R.told reader.new)
        → OnOk result (single_spec.HaveSamePlan (R.stand reader.old).world world map.now
        (option_copied val.entry)) }
    ensures known { (world : World) → Agrees world (R.told reader.new)
        → plan_spec.plan_of plan_spec.limits (R.stand reader.old).world map.now
        (option_copied val.entry) ≡ Ok plan.now
        → IfOk result (λ html. html ≡ parts_spec.page_part parts_spec.rooms world plan.now
        (option_copied val.entry) index) }
    ensures founded { StaysFounded (documents_spec.build_names map.now (option_copied val.entry))
        (R.told reader.old) (R.told reader.new) }
    ensures stand { R.stand reader.new ≡ R.stand reader.old }
    ensures grows { Grows (R.told reader.old) (R.told reader.new) }
{
    let part = Part::Page(index);
    over_reader(alloc, reader, PartCall { map, val, part })
}

/// The contents page of a plan, with the faults of all pushes. The plan is that of the map and the
/// DITAVAL over what the reader reads. It is made anew, so that what is asked tells it in every world
/// that agrees.
pub fn toc<R: Reader>(
    alloc: Global,
    reader: &mut R,
    plan: &Plan,
    map: &Name,
    val: Option<&Name>,
) -> Result<Html, NoMemory>
    ensures tells { (world : World) → Agrees world (R.told reader.new)
        → OnOk result (single_spec.HaveSamePlan (R.stand reader.old).world world map.now
        (option_copied val.entry)) }
    ensures known { (world : World) → Agrees world (R.told reader.new)
        → plan_spec.plan_of plan_spec.limits (R.stand reader.old).world map.now
        (option_copied val.entry) ≡ Ok plan.now
        → IfOk result (λ html. html ≡ parts_spec.contents_part world plan.now) }
    ensures value { plan_spec.plan_of plan_spec.limits (R.stand reader.old).world map.now
        (option_copied val.entry) ≡ Ok plan.now
        → IfOk result (λ html.
        html ≡ parts_spec.contents_part (R.stand reader.old).world plan.now) }
    ensures founded { StaysFounded (documents_spec.build_names map.now (option_copied val.entry))
        (R.told reader.old) (R.told reader.new) }
    ensures stand { R.stand reader.new ≡ R.stand reader.old }
    ensures grows { Grows (R.told reader.old) (R.told reader.new) }
{
    contents_of_plan(alloc, reader, plan, map, val)
}

// What `toc` says, but of the reader's own world.
fn contents_of_plan<R: Reader>(
    alloc: Global,
    reader: &mut R,
    plan: &Plan,
    map: &Name,
    val: Option<&Name>,
) -> Result<Html, NoMemory>
    ensures tells { (world : World) → Agrees world (R.told reader.new)
        → OnOk result (single_spec.HaveSamePlan (R.stand reader.old).world world map.now
        (option_copied val.entry)) }
    ensures known { (world : World) → Agrees world (R.told reader.new)
        → plan_spec.plan_of plan_spec.limits (R.stand reader.old).world map.now
        (option_copied val.entry) ≡ Ok plan.now
        → IfOk result (λ html. html ≡ parts_spec.contents_part world plan.now) }
    ensures founded { StaysFounded (documents_spec.build_names map.now (option_copied val.entry))
        (R.told reader.old) (R.told reader.new) }
    ensures stand { R.stand reader.new ≡ R.stand reader.old }
    ensures grows { Grows (R.told reader.old) (R.told reader.new) }
{
    let part = Part::Contents;
    over_reader(alloc, reader, PartCall { map, val, part })
}

// A part of a build that stands alone.
#[derive(Clone, Copy)]
enum Part {
    Page(u32),
    Contents,
}

// A part of the build of a map, by a reader that knows titles.
#[derive(Clone, Copy)]
struct PartCall<'p> {
    map: &'p Name,
    val: Option<&'p Name>,
    part: Part,
}

impl<'p> TitleWork for PartCall<'p> {
    ghost use Rattle.whole_calls.specs.Single as single_spec;

    type Made = Html;

    ghost makes = { single_spec.MakesPartOf };

    ghost about = { single_spec.about_call };

    fn run<T: Titles>(self, alloc: Global, asker: &mut T) -> Result<Html, NoMemory> {
        single(alloc, asker, self.map, self.val, self.part)
    }
}

// A part of a build; without a plan it is empty.
fn single<T: Titles>(
    alloc: Global,
    asker: &mut T,
    map: &Name,
    val: Option<&Name>,
    part: Part,
) -> Result<Html, NoMemory>
    ensures known { (world : World) → Agrees world (T.told asker.new)
        → IfOk result (λ html. single_spec.IsOfPlan (T.stand asker.old).world world map.now
        (option_copied val.entry) (λ plan.
        html ≡ single_spec.part_html part world plan (option_copied val.entry))) }
    ensures founded { StaysFounded (documents_spec.build_names map.now (option_copied val.entry))
        (T.told asker.old) (T.told asker.new) }
    ensures stand { T.stand asker.new ≡ T.stand asker.old }
    ensures grows { Grows (T.told asker.old) (T.told asker.new) }
{
    let Some(Found { plan, tables }) = find_plan(alloc, asker, map, val)? else {
        return Ok(no_html(alloc));
    };
    let mut docs = PushedDocs::new(alloc);
    let ground = BuildInput {
        map,
        val,
        plan: &plan,
    };
    let work = PartWork { ground, part };
    over_titles(alloc, asker, &plan, &tables, &mut docs, work)
}

// What a part that stands alone needs of its plan is found for it.
#[derive(Clone, Copy)]
struct PartWork<'p> {
    ground: BuildInput<'p>,
    part: Part,
}

impl<'p> PlanTask for PartWork<'p> {
    ghost use Rattle.readers.specs.Founded.{Grows};
    ghost use Rattle.whole_calls.specs.Single as single_spec;
    ghost use Rattle.conref_targets.specs.Asking as asking_spec;

    type Made = Html;

    ghost makes = { single_spec.MakesPart };

    ghost about = { single_spec.about_part };

    ghost documents = { single_spec.documents_of_part };

    ghost follows = { λ work. asking_spec.of_content };

    ghost tells = { λ work world setting old new. Grows old new };

    fn run<A: Asker>(self, alloc: Global, asker: &mut A) -> Result<Html, NoMemory> {
        match self.part {
            Part::Page(index) => page_alone(alloc, asker, self.ground, index),
            Part::Contents => contents(alloc, asker, self.ground.plan),
        }
    }
}

// The page at an index, with all its faults. A page that is not there is empty.
fn page_alone<A: Asker>(
    alloc: Global,
    asker: &mut A,
    ground: BuildInput<'_>,
    index: u32,
) -> Result<Html, NoMemory>
    ensures known { (world : World) → Agrees world (A.told asker.new)
        → IsReady world ground.entry (A.stand asker.old).setting
        → IfOk result (λ html. html ≡ parts_spec.page_part parts_spec.rooms world
        ground.entry.plan.now (option_copied ground.entry.val) index) }
    ensures founded { StaysFounded (founded_spec.homes (A.stand asker.old).setting.nodes
        ++ names_spec.names_of_build ground.entry) (A.told asker.old) (A.told asker.new) }
    ensures asks { AsksOnly asking_spec.of_content
        (single_spec.documents_of_alone ground.entry index) (A.told asker.old)
        (A.told asker.new) }
    ensures stand { A.stand asker.new ≡ A.stand asker.old }
    ensures grows { Grows (A.told asker.old) (A.told asker.new) }
{
    let plan = ground.plan;
    let Some(page) = plan.pages.as_slice().get(index as usize) else {
        return Ok(no_html(alloc));
    };
    let links = NodeLinks::of(alloc, asker, plan)?;
    let work = PageWork {
        ground,
        page,
        index,
        links: &links,
        content: Tables::new(alloc),
        behind: links.faults_by_row(alloc, plan)?,
        with_terms: false,
    };
    let PageMade { html, .. } = work.run(alloc, asker)?;
    Ok(html)
}
