//! Builds at desks whose tables have little room for rows, or none.

ghost use Rattle.std.specs.Prelude.{◌≡◌, ◌<◌, ◌≤◌, IfOk, OnOk};
ghost use Rattle.desk_lock.specs.Knows as knows_spec;
ghost use Rattle.desk_lock.specs.Tokens as tokens_spec;

use clean_build::{Clean, clean};
use desk_core::{Book, Limits};
use desk_lock::{Desk, Pass};
use desk_work::{BuildStop, Built, Outcome, build};
use dita_doc::{List, Name, Request};
use dita_outside::{NoGate, SureOutlet};
use doc_gen::project;
use fact_judge::MapParts;
use map_makers::MapMakers;
use pyx_text::read_body;
use script_text::read_script;
use std::alloc::{AllocError, Global};
use std::sync::Wait;
use std::test::Fail;
use std::thread::Threads;

type MapDesk = Desk<Book<MapParts>>;

type MapPass = Pass<Book<MapParts>>;

fn name(alloc: Global, text: &str) -> Result<Name, AllocError> {
    Name::parse(alloc, text).map_err(|_| AllocError)
}

// Puts a document.
fn store<R: Wait>(
    rt: &R,
    alloc: Global,
    desk: &MapDesk,
    pass: &mut MapPass,
    name: &Name,
    bytes: &[u8],
) -> Result<(), AllocError>
    requires pass { tokens_spec.IsPassOf desk.now pass.old }
    ensures pass { tokens_spec.IsPassOf desk.now pass.new }
    ensures parts { OnOk result ((tokens_spec.pass_view pass.new).parts
        ≡ (tokens_spec.pass_view pass.old).parts) }
{
    let text = List::from_slice(alloc, bytes)?;
    let body = read_body(alloc, name, text).map_err(|_| AllocError)?;
    match desk.edit(rt, alloc, pass, 1, Request::Put(name.clone()?, body)) {
        Ok(_) => Ok(()),
        Err(_) => Err(AllocError),
    }
}

// Puts each document that a script puts, in its order.
fn store_all<R: Wait>(
    rt: &R,
    alloc: Global,
    desk: &MapDesk,
    pass: &mut MapPass,
    steps: List<(u32, Request)>,
) -> Result<(), AllocError>
    requires pass { tokens_spec.IsPassOf desk.now pass.old }
    ensures pass { tokens_spec.IsPassOf desk.now pass.new }
    ensures parts { OnOk result ((tokens_spec.pass_view pass.new).parts
        ≡ (tokens_spec.pass_view pass.old).parts) }
{
    for (_, request) in steps.into_vec() {
        match request {
            Request::Put(name, body) => {
                store(rt, alloc, desk, pass, &name, body.bytes.as_slice())?;
            }
            _other => (),
        }
    }
    Ok(())
}

// A desk whose rows may count for so many bytes, at which these documents were put.
fn filled<R: Wait>(
    rt: &R,
    alloc: Global,
    steps: List<(u32, Request)>,
    table_bytes: u64,
) -> Result<(MapDesk, MapPass), AllocError>
    ensures pass { IfOk result (λ filled. tokens_spec.IsPassOf filled.0 filled.1) }
    ensures parts { IfOk result
        (λ filled. (tokens_spec.pass_view filled.1).parts ≡ knows_spec.all_parts) }
{
    let limits = Limits {
        table_bytes,
        ..Limits::standard()
    };
    let Ok((desk, mut pass)) = MapDesk::start(alloc, limits) else {
        return Err(AllocError);
    };
    store_all(rt, alloc, &desk, &mut pass, steps)?;
    Ok((desk, pass))
}

// A build of a map with a DITAVAL by so many workers.
fn built<R: Threads + Wait + Sync>(
    rt: &R,
    alloc: Global,
    desk: &MapDesk,
    pass: &mut MapPass,
    map: &Name,
    val: &Name,
    outlet: &mut SureOutlet,
    workers: u32,
) -> Result<Built, BuildStop>
    requires pass { tokens_spec.IsPassOf desk.now pass.old }
    requires parts { 17 < (tokens_spec.pass_view pass.old).parts }
    requires few { 1 ≤ workers }
    requires many { workers ≤ 16 }
    ensures { tokens_spec.IsPassOf desk.now pass.new }
{
    build::<R, MapParts, MapMakers, SureOutlet, NoGate>(
        rt,
        alloc,
        desk,
        pass,
        1,
        map,
        Some(val),
        outlet,
        &NoGate,
        workers,
    )
}

// Each page with its name, one after the other, if there are no faults: of a build with rows,
fn given(alloc: Global, built: &Built) -> Result<List<u8>, AllocError> {
    let mut text = List::new(alloc);
    if let Outcome::Done(pages, faults) = &built.outcome
        && faults.is_empty()
    {
        for page in pages.as_slice() {
            text.append(page.name.as_str().as_bytes())?;
            text.append(b":")?;
            if let Some(html) = &page.row.fact.html {
                text.append(html.bytes.as_slice())?;
            }
        }
    }
    Ok(text)
}

// of what an outlet took,
fn taken(alloc: Global, pages: &List<(Name, List<u8>)>) -> Result<List<u8>, AllocError> {
    let mut text = List::new(alloc);
    for page in pages.as_slice() {
        text.append(page.0.as_str().as_bytes())?;
        text.append(b":")?;
        text.append(page.1.as_slice())?;
    }
    Ok(text)
}

// and of a clean build.
fn expected(alloc: Global, built: &Clean) -> Result<List<u8>, AllocError> {
    let mut text = List::new(alloc);
    if let Clean::Done(pages, faults) = built
        && faults.is_empty()
    {
        for page in pages.as_slice() {
            text.append(page.0.as_str().as_bytes())?;
            text.append(b":")?;
            text.append(page.1.bytes.as_slice())?;
        }
    }
    Ok(text)
}

// What the rows of a build's pages count for: all together, and the one that was published last.
#[derive(Clone, Copy, Default)]
struct Sizes {
    all: u64,
    last: u64,
    rank: u64,
}

fn sizes_of(built: &Built) -> Sizes {
    let mut sizes = Sizes::default();
    if let Outcome::Done(pages, _) = &built.outcome {
        for page in pages.as_slice() {
            sizes.all = sizes.all.saturating_add(page.row.bytes);
            if page.row.rank > sizes.rank {
                sizes.rank = page.row.rank;
                sizes.last = page.row.bytes;
            }
        }
    }
    sizes
}

// How a build at a desk ended: whether its pages and those that the outlet took are those of the clean
// build, what its rows count for, and how many rows were kept, made and dropped.
#[derive(Drop)]
struct Ended {
    is_clean: bool,
    sizes: Sizes,
    counts: (u64, u64, u64),
}

// A build of a generated map of 40 topics: a plan, 42 pages and a contents page are made.
fn run_once<R: Threads + Wait + Sync>(
    rt: &R,
    alloc: Global,
    table_bytes: u64,
    workers: u32,
) -> Result<Ended, Fail>
    requires few { 1 ≤ workers }
    requires many { workers ≤ 16 }
{
    let text = project(alloc, 7, 40)?;
    let script = read_script(alloc, text.as_slice())?;
    let map = name(alloc, "book.ditamap")?;
    let val = name(alloc, "val.ditaval")?;
    let (desk, mut pass) = filled(rt, alloc, script.steps, table_bytes)?;
    let mut outlet = SureOutlet::new(alloc);
    let built = built(
        rt,
        alloc,
        &desk,
        &mut pass,
        &map,
        &val,
        &mut outlet,
        workers,
    )?;
    let book = desk.close(rt, pass);
    let clean = clean(alloc, book.store().sources(), &map, Some(&val))?;
    let pages = expected(alloc, &clean)?;
    let is_clean = !pages.is_empty()
        && given(alloc, &built)? == pages
        && taken(alloc, outlet.pages())? == pages;
    let table = book.table();
    Ok(Ended {
        is_clean,
        sizes: sizes_of(&built),
        counts: (table.kept(), table.made(), table.dropped()),
    })
}

// No row finds room.
#[test]
fn a_table_without_room_changes_no_page(rt: HostRuntime) -> Result<(), Fail> {
    let ended = run_once(&rt, rt.alloc(), 1, 4)?;
    assert!(rt; ended.is_clean);
    assert_eq!(rt; ended.counts, (0, 44, 44));
    Ok(())
}

// The plan's row is the first, so it is dropped first. With one worker the parts are made in the same order each
// time, so the same row comes last.
#[test]
fn a_table_keeps_the_last_rows_that_fit(rt: HostRuntime) -> Result<(), Fail> {
    let alloc = rt.alloc();
    let whole = run_once(&rt, alloc, 1_073_741_824, 1)?;
    assert!(rt; whole.is_clean);
    assert_eq!(rt; whole.counts, (44, 44, 0));
    let sizes = whole.sizes;
    let tables = [
        (sizes.all, (43, 44, 1)),
        (sizes.all.saturating_sub(1), (42, 44, 2)),
        (sizes.last, (1, 44, 43)),
    ];
    for (table_bytes, counts) in tables {
        let ended = run_once(&rt, alloc, table_bytes, 1)?;
        assert!(rt; ended.is_clean);
        assert_eq!(rt; ended.counts, counts);
    }
    Ok(())
}
