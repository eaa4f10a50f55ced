//! The sessions of a script, beside each other at one desk.

ghost use Rattle.std.specs.Prelude.{◌≡◌, ◌+◌, ◌*◌, ◌<◌, ◌≤◌, [], All, IfOk, OnOk, false, length, map, vec_capacity, vec_len};
ghost use Rattle.std.specs.Option.{option_copied};
ghost use Rattle.dita_doc.specs.Request as request_spec;
ghost use Rattle.dita_doc.specs.Seen as seen_spec;
ghost use Rattle.desk_core.specs.Steps as steps_spec;
ghost use Rattle.desk_lock.specs.Knows as knows_spec;
ghost use Rattle.desk_lock.specs.Tokens as tokens_spec;
ghost use Rattle.script_text.specs.Facts as script_facts;
ghost use Rattle.script_text.specs.Read as read_spec;
ghost use Rattle.script_text.specs.Script as script_spec;
ghost use Rattle.map_makers.specs.PlanTells.{meaning};
ghost use Rattle.run_spec.specs.Faithful.{table_limit};
ghost use Rattle.run_spec.specs.Language.{dita};
ghost use Rattle.desk_top.specs.Asked as asked_spec;
ghost use Rattle.desk_top.specs.BatchMade as batch_spec;
ghost use Rattle.desk_top.specs.OneHistory as history_spec;
ghost use Rattle.desk_top.specs.Served as spec;
ghost use Rattle.desk_top.specs.SessionMade as made_spec;

use crate::makers::{MapDesk, MapMakers, MapPass};
use desk_core::{Book, Limits};
use desk_work::{Built, Outcome, build};
use dita_doc::{List, Name, NoMemory, Request};
use dita_outside::{Gate, NoOutlet};
use fact_judge::MapParts;
use std::alloc::{AllocError, Global};
use std::mem::replace;
use std::sync::Wait;
use std::thread;
use std::thread::Threads;

// The most sessions of a script.
const MOST_SESSIONS: usize = 16;

/// What a build gave at its place.
#[derive(Drop)]
pub struct BuiltAt {
    pub place: u64,
    pub outcome: Outcome,
}

/// The book of a desk at which each request of a script was answered, and what its builds gave.
#[derive(Drop)]
pub struct Answered {
    pub book: Book<MapParts>,
    pub built: Vec<BuiltAt>,
}

// A session at the desk, and what its builds gave.
#[derive(Drop)]
struct Session {
    pass: MapPass,
    built: Vec<BuiltAt>,
}

// A session with its requests and their numbers; and whether it found no memory.
#[derive(Drop)]
struct Caller {
    session: Session,
    asked: Vec<(u32, Request)>,
    failed: bool,
}

/// Answers the requests of a script at one desk. Each session puts its own in order, beside the other
/// sessions, and so many workers make the parts of each build.
pub fn answer_beside<R: Threads + Wait + Sync, G: Gate + Sync>(
    rt: &R,
    alloc: Global,
    steps: List<(u32, Request)>,
    workers: u32,
    gate: &G,
) -> Result<Answered, NoMemory>
    requires short { length steps ≤ script_spec.request_limit }
    requires sessions { All script_facts.IsInSession steps }
    requires asked { All spec.MayBeAsked steps }
    requires few { 1 ≤ workers }
    requires many { workers ≤ 16 }
    ensures served { IfOk result
        (λ answered. spec.IsServed answered.book.store.history answered.built.items) }
    ensures one { IfOk result (λ answered.
        history_spec.IsOneHistory (read_spec.steps_seen steps) answered.book.store.history) }
    ensures made { IfOk result
        (λ answered. batch_spec.BatchMade meaning dita answered.book answered.built.items) }
    ensures limit { IfOk result (λ answered. answered.book.table.limit ≡ table_limit) }
{
    let piles = by_session(alloc, steps)?;
    let (desk, mut pass) = MapDesk::start(alloc, Limits::standard())?;
    let mut callers = callers_of(alloc, &desk, &mut pass, piles)?;
    let mut left = Vec::with_capacity(alloc, MOST_SESSIONS)?;
    serve_all(rt, alloc, &desk, callers.as_mut_slice(), workers, gate);
    let failed = end_all(&desk, &mut pass, callers, &mut left);
    let book = desk.close(rt, pass);
    if failed {
        return Err(NoMemory);
    }
    let built = all_of(alloc, left)?;
    Ok(Answered { book, built })
}

// The requests of each session in order, with their numbers in the script.
fn by_session(
    alloc: Global,
    steps: List<(u32, Request)>,
) -> Result<Vec<Vec<(u32, Request)>>, AllocError>
    requires short { length steps ≤ script_spec.request_limit }
    requires sessions { All script_facts.IsInSession steps }
    requires asked { All spec.MayBeAsked steps }
    ensures count { IfOk result (λ piles. vec_len piles ≡ 16) }
    ensures asked { IfOk result
        (λ piles. All (λ pile. All spec.MayBeAsked pile.items) piles.items) }
    ensures piles { IfOk result
        (λ piles. spec.ArePiles (read_spec.steps_seen steps) piles.items) }
{
    let mut piles = no_requests(alloc)?;
    put_all(piles.as_mut_slice(), steps)?;
    Ok(piles)
}

fn put_all(piles: &mut [Vec<(u32, Request)>], steps: List<(u32, Request)>) -> Result<(), AllocError>
    requires short { length steps ≤ script_spec.request_limit }
    requires sessions { All script_facts.IsInSession steps }
    requires asked { All spec.MayBeAsked steps }
    requires count { length piles.old ≡ 16 }
    requires none { All (λ pile. pile.items ≡ []) piles.old }
    ensures count { length piles.new ≡ length piles.old }
    ensures all { OnOk result (All (λ pile. All spec.MayBeAsked pile.items) piles.new) }
    ensures piles { OnOk result (spec.ArePiles (read_spec.steps_seen steps) piles.new) }
{
    let mut number = 0;
    for (session, request) in steps.into_vec() {
        number += 1;
        put(piles, session as usize - 1, (number, request))?;
    }
    Ok(())
}

fn put(
    piles: &mut [Vec<(u32, Request)>],
    home: usize,
    asked: (u32, Request),
) -> Result<(), AllocError>
    requires within { home < length piles.old }
    requires asked { spec.MayBeAsked asked }
    requires all { All (λ pile. All spec.MayBeAsked pile.items) piles.old }
    ensures count { length piles.new ≡ length piles.old }
    ensures all { OnOk result (All (λ pile. All spec.MayBeAsked pile.items) piles.new) }
    ensures put { OnOk result (spec.IsPut piles.old home asked piles.new) }
{
    piles[home].push(asked)?;
    Ok(())
}

// No requests, for each session.
fn no_requests(alloc: Global) -> Result<Vec<Vec<(u32, Request)>>, AllocError>
    ensures count { IfOk result (λ piles. vec_len piles ≡ 16) }
    ensures none { IfOk result (λ piles. All (λ pile. pile.items ≡ []) piles.items) }
{
    let mut piles = Vec::with_capacity(alloc, MOST_SESSIONS)?;
    for _ in 0..MOST_SESSIONS {
        piles.push_reserved(Vec::new(alloc));
    }
    Ok(piles)
}

// A caller for each session.
fn callers_of(
    alloc: Global,
    desk: &MapDesk,
    pass: &mut MapPass,
    piles: Vec<Vec<(u32, Request)>>,
) -> Result<Vec<Caller>, AllocError>
    requires pass { tokens_spec.IsPassOf desk.now pass.old }
    requires parts { (tokens_spec.pass_view pass.old).parts ≡ knows_spec.all_parts }
    requires none { asked_spec.HasNone (tokens_spec.pass_view pass.old) }
    requires count { vec_len piles ≡ 16 }
    requires asked { All (λ pile. All spec.MayBeAsked pile.items) piles.items }
    ensures pass { tokens_spec.IsPassOf desk.now pass.new }
    ensures parts { IfOk result (λ callers. (tokens_spec.pass_view pass.new).parts
        + vec_len callers * knows_spec.session_parts ≡ knows_spec.all_parts) }
    ensures none { asked_spec.HasNone (tokens_spec.pass_view pass.new) }
    ensures limits { (tokens_spec.pass_view pass.new).limits
        ≡ (tokens_spec.pass_view pass.old).limits }
    ensures count { IfOk result (λ callers. vec_len callers ≡ 16) }
    ensures ready { IfOk result (λ callers. All (spec.IsReady desk.now) callers.items) }
    ensures order { IfOk result (λ callers. spec.AreInOrder callers.items) }
    ensures asked { IfOk result
        (λ callers. map (λ caller. caller.asked) callers.items ≡ piles.items) }
{
    let mut callers = Vec::with_capacity(alloc, MOST_SESSIONS)?;
    let mut number = 0;
    for asked in piles {
        number += 1;
        callers.push_reserved(Caller {
            session: Session {
                pass: desk.session(pass, number),
                built: Vec::new(alloc),
            },
            asked,
            failed: false,
        });
    }
    Ok(callers)
}

fn serve_all<R: Threads + Wait + Sync, G: Gate + Sync>(
    rt: &R,
    alloc: Global,
    desk: &MapDesk,
    callers: &mut [Caller],
    workers: u32,
    gate: &G,
)
    requires ready { All (spec.IsReady desk.now) callers.old }
    requires few { 1 ≤ workers }
    requires many { workers ≤ 16 }
    ensures count { length callers.new ≡ length callers.old }
    ensures ended { All (spec.HasEnded desk.now) callers.new }
    ensures asked { spec.HaveAskedAll callers.old callers.new }
{
    thread::for_each_mut(
        rt,
        callers,
        MOST_SESSIONS,
        &|_, caller: &mut Caller|
            requires ready { spec.IsReady desk.now caller.old }
            requires few { 1 ≤ workers }
            requires many { workers ≤ 16 }
            ensures ended { spec.HasEnded desk.entry.now caller.new }
            ensures asked { spec.HasAskedAll caller.old caller.new }
        { serve(rt, alloc, desk, caller, workers, gate) },
    );
}

// Puts the requests of a caller in order, until one finds no memory.
fn serve<R: Threads + Wait + Sync, G: Gate + Sync>(
    rt: &R,
    alloc: Global,
    desk: &MapDesk,
    caller: &mut Caller,
    workers: u32,
    gate: &G,
)
    requires ready { spec.IsReady desk.now caller.old }
    requires few { 1 ≤ workers }
    requires many { workers ≤ 16 }
    ensures ended { spec.HasEnded desk.now caller.new }
    ensures asked { spec.HasAskedAll caller.old caller.new }
{
    let asked = replace(&mut caller.asked, Vec::new(alloc));
    if ask_all(rt, alloc, desk, &mut caller.session, asked, workers, gate).is_err() {
        caller.failed = true;
    }
}

fn ask_all<R: Threads + Wait + Sync, G: Gate + Sync>(
    rt: &R,
    alloc: Global,
    desk: &MapDesk,
    session: &mut Session,
    asked: Vec<(u32, Request)>,
    workers: u32,
    gate: &G,
) -> Result<(), NoMemory>
    requires at { spec.IsAtDesk desk.now session.old }
    requires answered { spec.HasAnswered session.old }
    requires none { asked_spec.HasNone (spec.known_by session.old) }
    requires asked { All spec.MayBeAsked asked.items }
    requires few { 1 ≤ workers }
    requires many { workers ≤ 16 }
    ensures at { spec.IsAtDesk desk.now session.new }
    ensures answered { OnOk result (spec.HasAnswered session.new) }
    ensures asked { OnOk result (asked_spec.AsksAll (spec.known_by session.old)
        (asked_spec.all_asked asked.items) (spec.known_by session.new)) }
{
    for (number, request) in asked {
        ask(rt, alloc, desk, session, number, request, workers, gate)?;
    }
    Ok(())
}

// Puts a request.
fn ask<R: Threads + Wait + Sync, G: Gate + Sync>(
    rt: &R,
    alloc: Global,
    desk: &MapDesk,
    session: &mut Session,
    number: u32,
    request: Request,
    workers: u32,
    gate: &G,
) -> Result<(), NoMemory>
    requires at { spec.IsAtDesk desk.now session.old }
    requires answered { spec.HasAnswered session.old }
    requires asked { spec.MayBeAsked (number, request) }
    requires few { 1 ≤ workers }
    requires many { workers ≤ 16 }
    ensures at { spec.IsAtDesk desk.now session.new }
    ensures ok { OnOk result
        (spec.Answers session.old (asked_spec.asked_seen (number, request)) session.new) }
{
    match request {
        Request::Build(map, val) => {
            ask_build(
                rt,
                alloc,
                desk,
                session,
                number,
                &map,
                val.as_ref(),
                workers,
                gate,
            )
        }
        request => ask_edit(rt, alloc, desk, session, number, request),
    }
}

// Puts a build, whose pages are those of its rows. A script is not so long that it fills a desk.
fn ask_build<R: Threads + Wait + Sync, G: Gate + Sync>(
    rt: &R,
    alloc: Global,
    desk: &MapDesk,
    session: &mut Session,
    number: u32,
    map: &Name,
    val: Option<&Name>,
    workers: u32,
    gate: &G,
) -> Result<(), NoMemory>
    requires at { spec.IsAtDesk desk.now session.old }
    requires answered { spec.HasAnswered session.old }
    requires utf8 { request_spec.IsUtf8Request
        (request_spec.Build map.now (option_copied val)) }
    requires few { 1 ≤ workers }
    requires many { workers ≤ 16 }
    ensures at { spec.IsAtDesk desk.now session.new }
    ensures ok { OnOk result (spec.Answers session.old
        (asked_spec.asked_build number map.now (option_copied val.entry)) session.new) }
{
    let built = build::<R, MapParts, MapMakers, NoOutlet, G>(
        rt,
        alloc,
        desk,
        &mut session.pass,
        number,
        map,
        val,
        &mut NoOutlet,
        gate,
        workers,
    );
    let Ok(Built { place, outcome }) = built else {
        return Err(NoMemory);
    };
    session.built.push(BuiltAt { place, outcome })?;
    Ok(())
}

// Puts a request that is no build. A script is not so long that it fills a desk.
fn ask_edit<R: Wait>(
    rt: &R,
    alloc: Global,
    desk: &MapDesk,
    session: &mut Session,
    number: u32,
    request: Request,
) -> Result<(), NoMemory>
    requires at { spec.IsAtDesk desk.now session.old }
    requires answered { spec.HasAnswered session.old }
    requires asked { spec.MayBeAsked (number, request) }
    requires no_build { steps_spec.IsNoBuild (seen_spec.request_seen request) }
    ensures at { spec.IsAtDesk desk.now session.new }
    ensures ok { OnOk result
        (spec.Answers session.old (asked_spec.asked_seen (number, request)) session.new) }
{
    match desk.edit(rt, alloc, &mut session.pass, number, request) {
        Ok(_) => Ok(()),
        Err(_) => Err(NoMemory),
    }
}

// Takes in all callers. There is room for what each of them built. Says whether one found no memory.
fn end_all(
    desk: &MapDesk,
    pass: &mut MapPass,
    callers: Vec<Caller>,
    left: &mut Vec<Vec<BuiltAt>>,
) -> bool
    requires pass { tokens_spec.IsPassOf desk.now pass.old }
    requires none { asked_spec.HasNone (tokens_spec.pass_view pass.old) }
    requires callers { All (spec.HasEnded desk.now) callers.items }
    requires none_left { vec_len left.old ≡ 0 }
    requires room { vec_len callers ≤ vec_capacity left.old }
    ensures pass { tokens_spec.IsPassOf desk.now pass.new }
    ensures parts { (tokens_spec.pass_view pass.new).parts
        ≡ (tokens_spec.pass_view pass.old).parts + vec_len callers * knows_spec.session_parts }
    ensures pages { All spec.HasItsPages (spec.together left.new.items) }
    ensures given { result ≡ false → spec.HasGiven (tokens_spec.pass_view pass.new)
        (spec.together left.new.items) }
    ensures left { left.new.items ≡ map spec.built_by callers.items }
    ensures well { result ≡ false → All spec.IsWell callers.items }
    ensures takes { asked_spec.TakesIn (tokens_spec.pass_view pass.old)
        (map spec.view_of callers.items) (tokens_spec.pass_view pass.new) }
    ensures rows { made_spec.TakesRows (tokens_spec.pass_view pass.old)
        (map spec.view_of callers.items) (tokens_spec.pass_view pass.new) }
{
    let mut failed = false;
    for caller in callers {
        let Caller {
            session: Session { pass: other, built },
            failed: has_failed,
            ..
        } = caller;
        desk.end_session(pass, other);
        left.push_reserved(built);
        failed = failed || has_failed;
    }
    failed
}

// What all of them built.
fn all_of(alloc: Global, left: Vec<Vec<BuiltAt>>) -> Result<Vec<BuiltAt>, AllocError>
    ensures { IfOk result (λ all. all.items ≡ spec.together left.items) }
{
    let mut all = Vec::new(alloc);
    for mut built in left {
        all.append(&mut built)?;
    }
    Ok(all)
}
