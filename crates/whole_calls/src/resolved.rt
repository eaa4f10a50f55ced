//! The resolved content of a page, over any reader.

ghost use Rattle.std.specs.Prelude.{◌≡◌, ◌++◌, Ok, IfOk, OnOk};
ghost use Rattle.std.specs.Option.{option_copied};
ghost use Rattle.build_plan.specs.Documents as documents_spec;
ghost use Rattle.clean_build.specs.Bodies.{content_of};
ghost use Rattle.clean_build.specs.BuildInput.{IsReady, context_for};
ghost use Rattle.clean_build.specs.Made as made_spec;
ghost use Rattle.clean_build.specs.Names as names_spec;
ghost use Rattle.conref_targets.specs.Asking as asking_spec;
ghost use Rattle.conref_pull.specs.Resolved.{IsResolved};
ghost use Rattle.conref_spec.specs.Content.{nothing_made};
ghost use Rattle.map_spec.specs.PlanOf as plan_spec;
ghost use Rattle.part_spec.specs.Parts as parts_spec;
ghost use Rattle.reader_spec.specs.World.{World};
ghost use Rattle.readers.specs.Documents.{AsksOnly};
ghost use Rattle.readers.specs.Founded as founded_spec;
ghost use Rattle.readers.specs.Founded.{Grows, StaysFounded};
ghost use Rattle.readers.specs.Told.{Agrees};
ghost use Rattle.whole_calls.specs.Single as single_spec;

use crate::found::{Found, find_plan};
use crate::over_reader::{TitleWork, over_reader};
use crate::with_keys::over_titles;
use clean_build::{BuildInput, PlanTask, resolved_for, root_line};
use conref_pull::Tables;
use dita_doc::{Doc, List, Name, NoMemory, PagePlan, Plan, Resolved};
use pushed_docs::PushedDocs;
use readers::{Asker, Reader, Titles};
use std::alloc::Global;

/// The content of the page of a plan at an index, with its references resolved; it is empty if there
/// is no such page. The plan is that of the map and the DITAVAL over what the reader reads. It is made
/// anew, so that what is asked tells it in every world that agrees.
pub fn resolved_page<R: Reader>(
    alloc: Global,
    reader: &mut R,
    plan: &Plan,
    map: &Name,
    val: Option<&Name>,
    index: u32,
) -> Result<Resolved, NoMemory>
    ensures tells { (world : World) → Agrees world (R.told reader.new)
        → OnOk result (single_spec.HaveSamePlan (R.stand reader.old).world world map.now
        (option_copied val.entry)) }
    ensures known { (world : World) → Agrees world (R.told reader.new)
        → plan_spec.plan_of plan_spec.limits (R.stand reader.old).world map.now
        (option_copied val.entry) ≡ Ok plan.now
        → IfOk result (λ resolved. IsResolved resolved (parts_spec.page_content parts_spec.rooms
        world plan.now (option_copied val.entry) index)) }
    ensures value { plan_spec.plan_of plan_spec.limits (R.stand reader.old).world map.now
        (option_copied val.entry) ≡ Ok plan.now
        → IfOk result (λ resolved. IsResolved resolved (parts_spec.page_content parts_spec.rooms
        (R.stand reader.old).world plan.now (option_copied val.entry) index)) }
    ensures founded { StaysFounded (documents_spec.build_names map.now (option_copied val.entry))
        (R.told reader.old) (R.told reader.new) }
    ensures stand { R.stand reader.new ≡ R.stand reader.old }
    ensures grows { Grows (R.told reader.old) (R.told reader.new) }
{
    resolved_of_plan(alloc, reader, plan, map, val, index)
}

// What `resolved_page` says, but of the reader's own world.
fn resolved_of_plan<R: Reader>(
    alloc: Global,
    reader: &mut R,
    plan: &Plan,
    map: &Name,
    val: Option<&Name>,
    index: u32,
) -> Result<Resolved, NoMemory>
    ensures tells { (world : World) → Agrees world (R.told reader.new)
        → OnOk result (single_spec.HaveSamePlan (R.stand reader.old).world world map.now
        (option_copied val.entry)) }
    ensures known { (world : World) → Agrees world (R.told reader.new)
        → plan_spec.plan_of plan_spec.limits (R.stand reader.old).world map.now
        (option_copied val.entry) ≡ Ok plan.now
        → IfOk result (λ resolved. IsResolved resolved (parts_spec.page_content parts_spec.rooms
        world plan.now (option_copied val.entry) index)) }
    ensures founded { StaysFounded (documents_spec.build_names map.now (option_copied val.entry))
        (R.told reader.old) (R.told reader.new) }
    ensures stand { R.stand reader.new ≡ R.stand reader.old }
    ensures grows { Grows (R.told reader.old) (R.told reader.new) }
{
    over_reader(alloc, reader, ContentCall { map, val, index })
}

// The content of a page of the build of a map, by a reader that knows titles.
#[derive(Clone, Copy)]
struct ContentCall<'p> {
    map: &'p Name,
    val: Option<&'p Name>,
    index: u32,
}

impl<'p> TitleWork for ContentCall<'p> {
    ghost use Rattle.whole_calls.specs.Single as single_spec;

    type Made = Resolved;

    ghost makes = { single_spec.MakesContentOf };

    ghost about = { single_spec.about_content_call };

    fn run<T: Titles>(self, alloc: Global, asker: &mut T) -> Result<Resolved, NoMemory> {
        content_alone(alloc, asker, self.map, self.val, self.index)
    }
}

// The content of the page at an index of the plan of a map; without a plan it is empty.
fn content_alone<T: Titles>(
    alloc: Global,
    asker: &mut T,
    map: &Name,
    val: Option<&Name>,
    index: u32,
) -> Result<Resolved, NoMemory>
    ensures known { (world : World) → Agrees world (T.told asker.new)
        → IfOk result (λ resolved. single_spec.IsOfPlan (T.stand asker.old).world world map.now
        (option_copied val.entry) (λ plan. IsResolved resolved (parts_spec.page_content
        parts_spec.rooms world plan (option_copied val.entry) index))) }
    ensures founded { StaysFounded (documents_spec.build_names map.now (option_copied val.entry))
        (T.told asker.old) (T.told asker.new) }
    ensures stand { T.stand asker.new ≡ T.stand asker.old }
    ensures grows { Grows (T.told asker.old) (T.told asker.new) }
{
    let Some(Found { plan, tables }) = find_plan(alloc, asker, map, val)? else {
        return Ok(no_content(alloc));
    };
    let mut docs = PushedDocs::new(alloc);
    let ground = BuildInput {
        map,
        val,
        plan: &plan,
    };
    let work = ContentWork { ground, index };
    over_titles(alloc, asker, &plan, &tables, &mut docs, work)
}

// The content of the page at an index. It is empty if its document is not stored.
#[derive(Clone, Copy)]
struct ContentWork<'p> {
    ground: BuildInput<'p>,
    index: u32,
}

impl<'p> PlanTask for ContentWork<'p> {
    ghost use Rattle.readers.specs.Founded.{Grows};
    ghost use Rattle.conref_targets.specs.Asking as asking_spec;
    ghost use Rattle.whole_calls.specs.Single as single_spec;

    type Made = Resolved;

    ghost makes = { single_spec.MakesContent };

    ghost about = { single_spec.about_content };

    ghost documents = { single_spec.documents_of_content };

    ghost follows = { λ work. asking_spec.of_content };

    ghost tells = { λ work world setting old new. Grows old new };

    fn run<A: Asker>(self, alloc: Global, asker: &mut A) -> Result<Resolved, NoMemory> {
        let Some(page) = self.ground.plan.pages.as_slice().get(self.index as usize) else {
            return Ok(no_content(alloc));
        };
        content_of_page(alloc, asker, self.ground, page)
    }
}

// The content of a page of this ground's plan. It is empty if its document has no root.
fn content_of_page<A: Asker>(
    alloc: Global,
    asker: &mut A,
    ground: BuildInput<'_>,
    page: &PagePlan,
) -> Result<Resolved, NoMemory>
    ensures known { (world : World) → Agrees world (A.told asker.new)
        → IsReady world ground.entry (A.stand asker.old).setting
        → IfOk result (λ resolved. IsResolved resolved (made_spec.page_content_of world
        ground.entry.plan.now (option_copied ground.entry.val) page.now)) }
    ensures founded { StaysFounded (founded_spec.homes (A.stand asker.old).setting.nodes
        ++ (names_spec.names_of_page page.now ++ names_spec.names_of_build ground.entry))
        (A.told asker.old) (A.told asker.new) }
    ensures asks { AsksOnly asking_spec.of_content
        (names_spec.names_of_content ground.entry page.now) (A.told asker.old) (A.told asker.new) }
    ensures stand { A.stand asker.new ≡ A.stand asker.old }
    ensures grows { Grows (A.told asker.old) (A.told asker.new) }
{
    match root_line(alloc, asker, &page.id.doc)? {
        Some(_) => content_on_ground(alloc, asker, ground, page),
        None => Ok(no_content(alloc)),
    }
}

// The content of a page of this ground's plan, made for the page's own context.
fn content_on_ground<A: Asker>(
    alloc: Global,
    asker: &mut A,
    ground: BuildInput<'_>,
    page: &PagePlan,
) -> Result<Resolved, NoMemory>
    ensures known { (world : World) → Agrees world (A.told asker.new)
        → IsReady world ground.entry (A.stand asker.old).setting
        → IfOk result (λ resolved. IsResolved resolved (content_of world ground.entry.plan.now
        (context_for ground.entry page.now))) }
    ensures founded { StaysFounded (founded_spec.homes (A.stand asker.old).setting.nodes
        ++ names_spec.names_of_content ground.entry page.now) (A.told asker.old)
        (A.told asker.new) }
    ensures asks { AsksOnly asking_spec.of_content
        (names_spec.names_of_content ground.entry page.now) (A.told asker.old) (A.told asker.new) }
    ensures stand { A.stand asker.new ≡ A.stand asker.old }
    ensures grows { Grows (A.told asker.old) (A.told asker.new) }
{
    let context = ground.context_of(alloc, page)?;
    let mut tables = Tables::new(alloc);
    resolved_for(alloc, asker, &mut tables, &context)
}

// Content without nodes and without faults.
fn no_content(alloc: Global) -> Resolved
    ensures { IsResolved result nothing_made }
{
    Resolved {
        doc: Doc {
            origins: List::new(alloc),
            nodes: List::new(alloc),
        },
        hrefs: List::new(alloc),
        declared: List::new(alloc),
        count: 0,
        faults: List::new(alloc),
    }
}
