//! Builds by workers, in a language in which each document is a page. What is expected is derived
//! from the rules by hand, whatever the order in which the workers come.

ghost use Rattle.std.specs.Prelude.{◌≡◌, ◌≤◌, ◌<◌, IfOk, OnOk};
ghost use Rattle.desk_lock.specs.Knows as knows_spec;
ghost use Rattle.desk_lock.specs.Tokens as tokens_spec;
ghost use Rattle.desk_work.specs.Build as build_spec;

use crate::line_language::{LineMakers, LineParts};
use crate::toy::{name, put};
use desk_core::{Book, Limits};
use desk_lock::{Desk, Pass};
use desk_work::{BuildStop, Built, Outcome, build};
use dita_doc::{FactKey, List, Name};
use dita_outside::{Gate, MemOutlet, NoGate, Outlet, SureOutlet};
use std::alloc::{AllocError, Global};
use std::sync::Wait;
use std::sync::atomic::{AtomicU64, Ordering};
use std::test::Fail;
use std::thread;
use std::thread::Threads;

// A desk of the language, with its passes.
type LineDesk = Desk<Book<LineParts>>;

type LinePass = Pass<Book<LineParts>>;

// A pass behind its build.
type Done = (LinePass, Result<Built, BuildStop>);

// Counts who passes it.
#[derive(Drop)]
struct Counted {
    passes: AtomicU64,
}

impl Counted {
    fn new() -> Counted {
        Counted {
            passes: AtomicU64::new(0),
        }
    }

    fn passes(&self) -> u64 {
        self.passes.load(Ordering::SeqCst)
    }
}

impl Gate for Counted {
    fn pass(&self, _worker: u32, _key: &FactKey) {
        self.passes.fetch_add(1, Ordering::SeqCst);
    }
}

// A desk at which documents with the names of these numbers are stored, those of `first` before
// those of `then`.
fn filled<R: Wait>(
    rt: &R,
    alloc: Global,
    limits: Limits,
    first: (u32, u32),
    then: (u32, u32),
) -> Result<(LineDesk, LinePass), AllocError>
    ensures pass { IfOk result (λ filled. tokens_spec.IsPassOf filled.0 filled.1) }
    ensures parts { IfOk result
        (λ filled. (tokens_spec.pass_view filled.1).parts ≡ knows_spec.all_parts) }
{
    let Ok((desk, mut pass)) = LineDesk::start(alloc, limits) else {
        return Err(AllocError);
    };
    fill(rt, alloc, &desk, &mut pass, first)?;
    fill(rt, alloc, &desk, &mut pass, then)?;
    Ok((desk, pass))
}

// Stores the documents with the names of the numbers from the first up to the last.
fn fill<R: Wait>(
    rt: &R,
    alloc: Global,
    desk: &LineDesk,
    pass: &mut LinePass,
    numbers: (u32, u32),
) -> Result<(), AllocError>
    requires pass { tokens_spec.IsPassOf desk.now pass.old }
    ensures pass { tokens_spec.IsPassOf desk.now pass.new }
    ensures parts { OnOk result ((tokens_spec.pass_view pass.new).parts
        ≡ (tokens_spec.pass_view pass.old).parts) }
{
    for number in numbers.0..numbers.1 {
        store(rt, alloc, desk, pass, number)?;
    }
    Ok(())
}

// Stores the document with the name of a number.
fn store<R: Wait>(
    rt: &R,
    alloc: Global,
    desk: &LineDesk,
    pass: &mut LinePass,
    number: u32,
) -> Result<(), AllocError>
    requires pass { tokens_spec.IsPassOf desk.now pass.old }
    ensures pass { tokens_spec.IsPassOf desk.now pass.new }
    ensures parts { OnOk result ((tokens_spec.pass_view pass.new).parts
        ≡ (tokens_spec.pass_view pass.old).parts) }
{
    let text = format!(in alloc; "d{number}")?;
    let request = put(alloc, &name(alloc, text.as_str())?)?;
    match desk.edit(rt, alloc, pass, number, request) {
        Ok(_) => Ok(()),
        Err(_) => Err(AllocError),
    }
}

// A build of the map of this name by so many workers, numbered behind what was stored before.
fn built<R: Threads + Wait + Sync, O: Outlet, G: Gate + Sync>(
    rt: &R,
    alloc: Global,
    desk: &LineDesk,
    pass: LinePass,
    map: &Name,
    outlet: &mut O,
    gate: &G,
    workers: u32,
) -> Done
    requires pass { tokens_spec.IsPassOf desk.now pass }
    requires parts { 17 < (tokens_spec.pass_view pass).parts }
    requires few { 1 ≤ workers }
    requires many { workers ≤ 16 }
    ensures pass { tokens_spec.IsPassOf desk.now result.0 }
    ensures cause { build_spec.HasBuildCause (O.faults outlet.old) (O.faults outlet.new) result.1 }
{
    let mut pass = pass;
    let built = build::<R, LineParts, LineMakers, O, G>(
        rt, alloc, desk, &mut pass, 9, map, None, outlet, gate, workers,
    );
    (pass, built)
}

// What an outlet took, each page as its name and its line.
fn taken(alloc: Global, pages: &List<(Name, List<u8>)>) -> Result<List<u8>, AllocError> {
    let mut text = List::new(alloc);
    for page in pages.as_slice() {
        text.append(page.0.as_str().as_bytes())?;
        text.append(b":")?;
        text.append(page.1.as_slice())?;
    }
    Ok(text)
}

// The same of what a build gives, if it is done and has no faults.
fn given(alloc: Global, built: &Result<Built, BuildStop>) -> Result<List<u8>, AllocError> {
    let mut text = List::new(alloc);
    if let Ok(built) = built
        && let Outcome::Done(pages, faults) = &built.outcome
        && faults.is_empty()
    {
        for page in pages.as_slice() {
            text.append(page.name.as_str().as_bytes())?;
            text.append(b":")?;
            if let Some(html) = &page.row.fact.html {
                text.append(html.bytes.as_slice())?;
            }
        }
    }
    Ok(text)
}

// The pages of the documents with the names of the numbers from the first up to the last, and the
// contents page.
fn expected(alloc: Global, numbers: (u32, u32)) -> Result<List<u8>, AllocError> {
    let mut text = List::new(alloc);
    for number in numbers.0..numbers.1 {
        let page = format!(in alloc; "d{number}:page\n")?;
        text.append(page.as_bytes())?;
    }
    text.append(b"index.html:page\n")?;
    Ok(text)
}

#[test]
fn any_number_of_workers_builds_the_same(rt: HostRuntime) -> Result<(), Fail> {
    let alloc = rt.alloc();
    assert!(rt; builds_by(&rt, alloc, 1)?);
    assert!(rt; builds_by(&rt, alloc, 4)?);
    assert!(rt; builds_by(&rt, alloc, 16)?);
    Ok(())
}

// Twenty documents are put, the later names first, so the build has the place 20, and its pages
// come by their names, the contents page last. There are 22 parts with the plan.
fn builds_by<R: Threads + Wait + Sync>(
    rt: &R,
    alloc: Global,
    workers: u32,
) -> Result<bool, AllocError>
    requires few { 1 ≤ workers }
    requires many { workers ≤ 16 }
{
    let map = name(alloc, "d10")?;
    let pages = expected(alloc, (10, 30))?;
    let (desk, mut pass) = filled(rt, alloc, Limits::standard(), (20, 30), (10, 20))?;
    let session = desk.session(&mut pass, 1);
    let mut outlet = SureOutlet::new(alloc);
    let done = built(
        rt,
        alloc,
        &desk,
        session,
        &map,
        &mut outlet,
        &NoGate,
        workers,
    );
    desk.end_session(&mut pass, done.0);
    let book = desk.close(rt, pass);
    let table = book.table();
    Ok(
        matches!(&done.1, Ok(Built { place: 20, .. }))
            && given(alloc, &done.1)? == pages
            && taken(alloc, outlet.pages())? == pages
            && (table.kept(), table.made(), table.dropped()) == (22, 22, 0),
    )
}

// A plan, a page and a contents page are made, and no row finds room.
#[test]
fn a_table_without_room_keeps_nothing(rt: HostRuntime) -> Result<(), Fail> {
    let alloc = rt.alloc();
    let map = name(alloc, "d10")?;
    let limits = Limits {
        table_bytes: 1,
        ..Limits::standard()
    };
    let (desk, mut pass) = filled(&rt, alloc, limits, (10, 11), (0, 0))?;
    let session = desk.session(&mut pass, 1);
    let mut outlet = SureOutlet::new(alloc);
    let done = built(&rt, alloc, &desk, session, &map, &mut outlet, &NoGate, 4);
    let pages = expected(alloc, (10, 11))?;
    assert!(rt; given(alloc, &done.1)? == pages);
    assert!(rt; taken(alloc, outlet.pages())? == pages);
    desk.end_session(&mut pass, done.0);
    let book = desk.close(&rt, pass);
    let table = book.table();
    assert_eq!(rt; (table.kept(), table.made(), table.dropped()), (0, 3, 3));
    Ok(())
}

// Two builds of 42 parts, with no edit between, make each part once together.
#[test]
fn builds_beside_each_other_share_their_parts(rt: HostRuntime) -> Result<(), Fail> {
    let alloc = rt.alloc();
    let map = name(alloc, "d10")?;
    let gate = Counted::new();
    let (desk, mut pass) = filled(&rt, alloc, Limits::standard(), (10, 50), (0, 0))?;
    let first = desk.session(&mut pass, 1);
    let second = desk.session(&mut pass, 2);
    let (one, other) = thread::join(
        &rt,
        || built_beside(&rt, alloc, &desk, first, &map, &gate),
        || built_beside(&rt, alloc, &desk, second, &map, &gate),
    );
    let pages = expected(alloc, (10, 50))?;
    assert!(rt; given(alloc, &one.1)? == pages);
    assert!(rt; given(alloc, &other.1)? == pages);
    assert_eq!(rt; gate.passes(), 42);
    desk.end_session(&mut pass, one.0);
    desk.end_session(&mut pass, other.0);
    let book = desk.close(&rt, pass);
    let table = book.table();
    assert_eq!(rt; (table.kept(), table.made(), table.dropped()), (42, 42, 0));
    Ok(())
}

// A build by eight workers, beside others.
fn built_beside<R: Threads + Wait + Sync>(
    rt: &R,
    alloc: Global,
    desk: &LineDesk,
    pass: LinePass,
    map: &Name,
    gate: &Counted,
) -> Done
    requires pass { tokens_spec.IsPassOf desk.now pass }
    requires parts { 17 < (tokens_spec.pass_view pass).parts }
    ensures { tokens_spec.IsPassOf desk.now result.0 }
{
    let mut outlet = SureOutlet::new(alloc);
    built(rt, alloc, desk, pass, map, &mut outlet, gate, 8)
}

// The first build makes 22 parts, and the second finds their rows.
#[test]
fn what_is_made_passes_the_gate_once(rt: HostRuntime) -> Result<(), Fail> {
    let alloc = rt.alloc();
    let map = name(alloc, "d10")?;
    let gate = Counted::new();
    let (desk, mut pass) = filled(&rt, alloc, Limits::standard(), (10, 30), (0, 0))?;
    let session = desk.session(&mut pass, 1);
    let later = desk.session(&mut pass, 2);
    let first = built_beside(&rt, alloc, &desk, session, &map, &gate);
    assert_eq!(rt; gate.passes(), 22);
    let second = built_beside(&rt, alloc, &desk, later, &map, &gate);
    assert_eq!(rt; gate.passes(), 22);
    desk.end_session(&mut pass, first.0);
    desk.end_session(&mut pass, second.0);
    let pages = expected(alloc, (10, 30))?;
    assert!(rt; given(alloc, &first.1)? == pages);
    assert!(rt; given(alloc, &second.1)? == pages);
    let book = desk.close(&rt, pass);
    assert_eq!(rt; book.table().made(), 22);
    Ok(())
}

// The outlet takes the first page and fails at the second. All five parts were made by then, so the
// next build finds their rows.
#[test]
fn a_build_without_its_outlet_leaves_its_rows(rt: HostRuntime) -> Result<(), Fail> {
    let alloc = rt.alloc();
    let map = name(alloc, "d10")?;
    let gate = Counted::new();
    let (desk, mut pass) = filled(&rt, alloc, Limits::standard(), (10, 13), (0, 0))?;
    let mut failing = List::new(alloc);
    failing.push(2)?;
    let mut outlet = MemOutlet::new(alloc, failing);
    let session = desk.session(&mut pass, 1);
    let later = desk.session(&mut pass, 2);
    let failed = built(&rt, alloc, &desk, session, &map, &mut outlet, &gate, 4);
    assert!(rt; matches!(&failed.1, Err(BuildStop::OutletFault)));
    assert!(rt; taken(alloc, outlet.pages())?.as_slice() == b"d10:page\n".as_slice());
    assert_eq!(rt; gate.passes(), 5);
    let second = built_beside(&rt, alloc, &desk, later, &map, &gate);
    assert!(rt; given(alloc, &second.1)? == expected(alloc, (10, 13))?);
    assert_eq!(rt; gate.passes(), 5);
    desk.end_session(&mut pass, failed.0);
    desk.end_session(&mut pass, second.0);
    let book = desk.close(&rt, pass);
    let table = book.table();
    assert_eq!(rt; (table.kept(), table.made(), table.dropped()), (5, 5, 0));
    Ok(())
}
