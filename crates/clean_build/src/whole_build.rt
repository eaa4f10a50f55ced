//! The build of a map over stored sources.

ghost use Rattle.std.specs.Prelude.{◌≡◌, [], IfOk, Ok, OnOk, codes, map};
ghost use Rattle.std.specs.Option.{option_copied};
ghost use Rattle.clean_build.specs.Clean as clean_spec;
ghost use Rattle.clean_build.specs.Gathering as gathering_spec;
ghost use Rattle.clean_build.specs.Gathering.{HasGathered};
ghost use Rattle.clean_build.specs.Terms as terms_spec;
ghost use Rattle.map_spec.specs.PlanOf as plan_spec;
ghost use Rattle.node_links.specs.NodeTable.{AreNodeLinks};
ghost use Rattle.part_spec.specs.Parts as parts_spec;
ghost use Rattle.plan_reader.specs.Keyed.{AreKeyed};
ghost use Rattle.plan_reader.specs.Tables.{AreTables, GoesOn};
ghost use Rattle.reader_spec.specs.World.{World, world_of};

use crate::build_input::BuildInput;
use crate::built::Clean;
use crate::gathered::Gathered;
use crate::terms::{append_terms, terms_page};
use crate::work_done::made_over;
use crate::works::{ContentsWork, LinksWork, PageMade, PageWork};
use build_plan::{Planned, planned};
use conref_pull::Tables;
use conref_push::PushTable;
use dita_doc::{Html, List, Name, NoMemory, Plan, Sources, Stop, TermEntry, Text, copy_faults};
use key_scopes::ScopeTable;
use node_links::NodeLinks;
use page_table::PageTable;
use plan_nodes::{NodeElements, place_of};
use plan_reader::{PlanCache, PlanTables};
use pushed_docs::PushedDocs;
use readers::Reader;
use source_reader::{KnownTitles, SourceReader};
use std::alloc::{AllocError, Global};

/// The build of a map, with a DITAVAL or without: each page of its plan, the contents page, and the
/// faults of all, each once and in order. If the pages have more than 268,435,456 bytes together, it
/// says how many they have.
pub fn clean(
    alloc: Global,
    sources: &Sources,
    map: &Name,
    val: Option<&Name>,
) -> Result<Clean, NoMemory>
    ensures built { IfOk result (λ built. clean_spec.clean_seen built
        ≡ parts_spec.clean_build (world_of sources.now) map.now (option_copied val.entry)) }
    ensures names { IfOk result clean_spec.HasPageNames }
{
    let (built, _) = build_of_map(alloc, sources, map, val, false)?;
    Ok(built)
}

/// The same build, and the page of its terms. A build without terms has no such page, and neither
/// has one that is stopped or whose pages are too large together. No page is resolved twice; the
/// titles of all pages are asked for at the end.
pub fn clean_with_terms(
    alloc: Global,
    sources: &Sources,
    map: &Name,
    val: Option<&Name>,
) -> Result<(Clean, Option<Html>), NoMemory>
    ensures built { IfOk result (λ pair. clean_spec.clean_seen pair.0
        ≡ parts_spec.clean_build (world_of sources.now) map.now (option_copied val.entry)) }
    ensures names { IfOk result (λ pair. clean_spec.HasPageNames pair.0) }
    ensures terms { IfOk result (λ pair. pair.1
        ≡ parts_spec.clean_terms (world_of sources.now) map.now (option_copied val.entry)) }
{
    build_of_map(alloc, sources, map, val, true)
}

// The build of a map, and the page of its terms, if it is wanted.
fn build_of_map(
    alloc: Global,
    sources: &Sources,
    map: &Name,
    val: Option<&Name>,
    with_terms: bool,
) -> Result<(Clean, Option<Html>), NoMemory>
    ensures built { IfOk result (λ pair. clean_spec.clean_seen pair.0
        ≡ parts_spec.clean_build (world_of sources.now) map.now (option_copied val.entry)) }
    ensures names { IfOk result (λ pair. clean_spec.HasPageNames pair.0) }
    ensures terms { IfOk result (λ pair. pair.1 ≡ terms_spec.page_of_build with_terms
        (world_of sources.now) map.now (option_copied val.entry)) }
{
    let mut reader = SourceReader::new(alloc, KnownTitles::new(alloc, sources));
    match planned(alloc, &mut reader, map, val) {
        Ok(found) => build_of_plan(alloc, sources, reader, found, map, val, with_terms),
        Err(Stop::Fault(stop)) => Ok((Clean::Stopped(stop), None)),
        Err(Stop::NoMemory) => Err(NoMemory),
    }
}

// The build of a map whose plan was found, by the reader that found it. Its questions are let go, and
// the titles that it made go on.
fn build_of_plan(
    alloc: Global,
    sources: &Sources,
    reader: SourceReader<'_>,
    found: Planned,
    map: &Name,
    val: Option<&Name>,
    with_terms: bool,
) -> Result<(Clean, Option<Html>), NoMemory>
    requires sources { world_of reader.known.sources.now ≡ world_of sources.now }
    requires keyed { AreKeyed (world_of sources.now) found.plan.nodes found.homes found.table }
    requires plan { plan_spec.plan_of plan_spec.limits (world_of sources.now) map.now
        (option_copied val) ≡ Ok found.plan }
    ensures built { IfOk result (λ pair. gathering_spec.IsBuilt found.plan (parts_spec.parts_of
        parts_spec.rooms (world_of sources.now) found.plan (option_copied val.entry)) pair.0) }
    ensures terms { IfOk result (λ pair. pair.1 ≡ terms_spec.page_of_plan with_terms
        (world_of sources.now) found.plan (option_copied val.entry)) }
{
    let mut reader = reader;
    let Planned { plan, homes, table } = found;
    let tables = tables_of(alloc, &mut reader, &plan, homes, table)?;
    let (_, known) = reader.into_asked();
    let cache = PlanCache {
        titles: known.into_titles(),
        docs: PushedDocs::new(alloc),
    };
    let ground = BuildInput {
        map,
        val,
        plan: &plan,
    };
    build_of_parts(alloc, sources, cache, ground, &tables, with_terms)
}

// The tables of a plan, of which the elements and the scopes were found with it.
fn tables_of<R: Reader>(
    alloc: Global,
    reader: &mut R,
    plan: &Plan,
    homes: NodeElements,
    scopes: ScopeTable,
) -> Result<PlanTables, NoMemory>
    ensures tables { AreKeyed (R.stand reader.old).world plan.now.nodes homes scopes
        → IfOk result (λ tables. AreTables (R.stand reader.old).world plan.now.nodes
        plan.now.documents plan.now.pages tables) }
    ensures stand { R.stand reader.new ≡ R.stand reader.old }
{
    let pushes = PushTable::of(alloc, reader, plan.documents.as_slice())?;
    let pages = PageTable::of(alloc, plan.pages.as_slice())?;
    Ok(PlanTables {
        homes,
        scopes,
        pushes,
        pages,
    })
}

// All parts, by the tables of the plan.
fn build_of_parts(
    alloc: Global,
    sources: &Sources,
    cache: PlanCache,
    ground: BuildInput<'_>,
    tables: &PlanTables,
    with_terms: bool,
) -> Result<(Clean, Option<Html>), NoMemory>
    requires goes_on { GoesOn (world_of sources.now) ground.plan.now.documents cache }
    requires tables { AreTables (world_of sources.now) ground.plan.now.nodes
        ground.plan.now.documents ground.plan.now.pages tables.now }
    requires plan { plan_spec.plan_of plan_spec.limits (world_of sources.now) ground.map.now
        (option_copied ground.val) ≡ Ok ground.plan.now }
    ensures built { IfOk result (λ pair. gathering_spec.IsBuilt ground.entry.plan.now
        (parts_spec.parts_of parts_spec.rooms (world_of sources.now) ground.entry.plan.now
        (option_copied ground.entry.val)) pair.0) }
    ensures terms { IfOk result (λ pair. pair.1 ≡ terms_spec.page_of_plan with_terms
        (world_of sources.now) ground.entry.plan.now (option_copied ground.entry.val)) }
{
    let plan = ground.plan;
    let work = LinksWork { ground };
    let (links, cache) = made_over(alloc, sources, cache, plan, tables, work)?;
    let mut gathered = first_faults(alloc, plan, &links)?;
    let Put { cache, terms } = put_parts(
        alloc,
        sources,
        cache,
        ground,
        tables,
        &links,
        &mut gathered,
        with_terms,
    )?;
    let page = terms_page(
        alloc, sources, cache, ground, tables, &gathered, &terms, with_terms,
    )?;
    let clean = gathered.finish(alloc)?;
    Ok((clean, page))
}

// The faults of a plan and those of its rows, before any page is put. Faults of rows are faults of
// each page, so a plan without pages has none of them.
fn first_faults(alloc: Global, plan: &Plan, links: &NodeLinks) -> Result<Gathered, NoMemory>
    ensures { (world : World) → AreNodeLinks world plan.now links.now
        → IfOk result (HasGathered [] [] (gathering_spec.faults_before plan.now)) }
{
    let mut gathered = Gathered::new(alloc);
    gathered.put_faults(alloc, copy_faults(alloc, plan.faults.as_slice())?)?;
    if plan.pages.is_empty() {
        return Ok(gathered);
    }
    gathered.put_faults(alloc, copy_faults(alloc, links.faults())?)?;
    Ok(gathered)
}

// The parts of a build were put: what goes on, and the terms of the pages, if they are wanted.
#[derive(Drop)]
struct Put {
    cache: PlanCache,
    terms: List<TermEntry>,
}

// Puts each page, and the contents page last.
fn put_parts(
    alloc: Global,
    sources: &Sources,
    cache: PlanCache,
    ground: BuildInput<'_>,
    tables: &PlanTables,
    links: &NodeLinks,
    gathered: &mut Gathered,
    with_terms: bool,
) -> Result<Put, NoMemory>
    requires goes_on { GoesOn (world_of sources.now) ground.plan.now.documents cache }
    requires tables { AreTables (world_of sources.now) ground.plan.now.nodes
        ground.plan.now.documents ground.plan.now.pages tables.now }
    requires plan { plan_spec.plan_of plan_spec.limits (world_of sources.now) ground.map.now
        (option_copied ground.val) ≡ Ok ground.plan.now }
    requires links { AreNodeLinks (world_of sources.now) ground.plan.now links.now }
    requires gathered { HasGathered [] [] (gathering_spec.faults_before ground.plan.now)
        gathered.old }
    ensures put { OnOk result (gathering_spec.HasPartsOf (world_of sources.now)
        ground.entry.plan.now (option_copied ground.entry.val) gathered.new) }
    ensures goes_on { IfOk result
        (λ put. GoesOn (world_of sources.now) ground.entry.plan.now.documents put.cache) }
    ensures terms { IfOk result (λ put. put.terms ≡ terms_spec.terms_of_all with_terms
        (world_of sources.now) ground.entry.plan.now (option_copied ground.entry.val)) }
{
    let plan = ground.plan;
    let mut content = Tables::new(alloc);
    let mut cache = cache;
    let mut terms = List::new(alloc);
    for (index, page) in plan.pages.as_slice().iter().enumerate() {
        let work = PageWork {
            ground,
            page,
            index: place_of(index)?,
            links,
            content,
            behind: List::new(alloc),
            with_terms,
        };
        let (made, next) = made_over(alloc, sources, cache, plan, tables, work)?;
        let PageMade {
            html,
            terms: of_page,
            content: kept,
        } = made;
        content = kept;
        cache = next;
        append_terms(&mut terms, of_page)?;
        gathered.put(alloc, page.name.clone()?, html)?;
    }
    let cache = put_contents(alloc, sources, cache, ground, tables, gathered)?;
    Ok(Put { cache, terms })
}

// Puts the contents page behind all pages.
fn put_contents(
    alloc: Global,
    sources: &Sources,
    cache: PlanCache,
    ground: BuildInput<'_>,
    tables: &PlanTables,
    gathered: &mut Gathered,
) -> Result<PlanCache, NoMemory>
    requires goes_on { GoesOn (world_of sources.now) ground.plan.now.documents cache }
    requires tables { AreTables (world_of sources.now) ground.plan.now.nodes
        ground.plan.now.documents ground.plan.now.pages tables.now }
    requires plan { plan_spec.plan_of plan_spec.limits (world_of sources.now) ground.map.now
        (option_copied ground.val) ≡ Ok ground.plan.now }
    requires put { gathering_spec.HasParts ground.plan.now
        (map (λ page. page.name) ground.plan.now.pages)
        (parts_spec.page_parts parts_spec.rooms (world_of sources.now) ground.plan.now
        (option_copied ground.val)) gathered.old }
    ensures put { OnOk result (gathering_spec.HasPartsOf (world_of sources.now)
        ground.entry.plan.now (option_copied ground.entry.val) gathered.new) }
    ensures goes_on { IfOk result
        (λ cache. GoesOn (world_of sources.now) ground.entry.plan.now.documents cache) }
{
    let work = ContentsWork { ground };
    let (html, cache) = made_over(alloc, sources, cache, ground.plan, tables, work)?;
    gathered.put(alloc, contents_name(alloc)?, html)?;
    Ok(cache)
}

// The name of the contents page.
fn contents_name(alloc: Global) -> Result<Name, AllocError>
    ensures { IfOk result (λ name. name ≡ codes "index.html") }
{
    Name::new(alloc, Text::from_str(alloc, "index.html")?)
}
