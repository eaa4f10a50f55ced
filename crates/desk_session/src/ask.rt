//! One request at the desk.

ghost use Rattle.std.specs.Prelude.{◌≡◌, ◌<◌, ◌≤◌};
ghost use Rattle.std.specs.Option.{option_copied};
ghost use Rattle.desk_core.specs.Steps as steps_spec;
ghost use Rattle.desk_lock.specs.Meaning as meaning_spec;
ghost use Rattle.desk_lock.specs.Tokens as tokens_spec;
ghost use Rattle.desk_work.specs.Build as build_spec;
ghost use Rattle.dita_doc.specs.Request as request_spec;
ghost use Rattle.dita_doc.specs.Seen as seen_spec;
ghost use Rattle.script_text.specs.Pieces as pieces_spec;
ghost use Rattle.desk_session.specs.Answers as answers_spec;
ghost use Rattle.desk_session.specs.Asking as spec;

use crate::answer::{Answer, built_answer, reply_answer};
use desk_core::Book;
use desk_lock::{Desk, Pass};
use desk_work::{BuildStop, Built, Makers, build};
use dita_doc::{Name, Request, Stop};
use dita_outside::{Gate, NoOutlet};
use facts::Parts;
use std::alloc::Global;
use std::sync::Wait;
use std::thread::Threads;
use version_store::Full;

// Puts a request under its number, and gives the answer.
pub(crate) fn ask<R: Threads + Wait + Sync, P: Parts + Send + Sync, M: Makers<P>, G: Gate + Sync>(
    rt: &R,
    alloc: Global,
    desk: &Desk<Book<P>>,
    pass: &mut Pass<Book<P>>,
    number: u32,
    request: Request,
    gate: &G,
    workers: u32,
) -> Result<Answer, Stop<Full>>
    requires pass { tokens_spec.IsPassOf desk.now pass.old }
    requires parts { 17 < (tokens_spec.pass_view pass.old).parts }
    requires few { 1 ≤ workers }
    requires many { workers ≤ 16 }
    requires pages { answers_spec.PagesEndWithLine M.language.clean }
    requires taken { pieces_spec.IsTaken request }
    ensures pass { tokens_spec.IsPassOf desk.now pass.new }
    ensures puts { spec.Puts M.language.clean (tokens_spec.pass_view pass.old) number
        (seen_spec.request_seen request) result (tokens_spec.pass_view pass.new) }
{
    match request {
        Request::Build(map, val) => {
            let val = val.as_ref();
            ask_build::<R, P, M, G>(rt, alloc, desk, pass, number, &map, val, gate, workers)
        }
        request => ask_edit::<R, P, M>(rt, alloc, desk, pass, number, request),
    }
}

// Puts a request that is no build.
fn ask_edit<R: Wait, P: Parts, M: Makers<P>>(
    rt: &R,
    alloc: Global,
    desk: &Desk<Book<P>>,
    pass: &mut Pass<Book<P>>,
    number: u32,
    request: Request,
) -> Result<Answer, Stop<Full>>
    requires pass { tokens_spec.IsPassOf desk.now pass.old }
    requires taken { pieces_spec.IsTaken request }
    requires no_build { steps_spec.IsNoBuild (seen_spec.request_seen request) }
    ensures pass { tokens_spec.IsPassOf desk.now pass.new }
    ensures puts { spec.Puts M.language.clean (tokens_spec.pass_view pass.old) number
        (seen_spec.request_seen request) result (tokens_spec.pass_view pass.new) }
{
    let session = pass.session();
    let (place, reply) = desk.edit(rt, alloc, pass, number, request)?;
    Ok(reply_answer(alloc, place, session, number, reply)?)
}

// Puts a build.
fn ask_build<R: Threads + Wait + Sync, P: Parts + Send + Sync, M: Makers<P>, G: Gate + Sync>(
    rt: &R,
    alloc: Global,
    desk: &Desk<Book<P>>,
    pass: &mut Pass<Book<P>>,
    number: u32,
    map: &Name,
    val: Option<&Name>,
    gate: &G,
    workers: u32,
) -> Result<Answer, Stop<Full>>
    requires pass { tokens_spec.IsPassOf desk.now pass.old }
    requires parts { 17 < (tokens_spec.pass_view pass.old).parts }
    requires few { 1 ≤ workers }
    requires many { workers ≤ 16 }
    requires pages { answers_spec.PagesEndWithLine M.language.clean }
    ensures pass { tokens_spec.IsPassOf desk.now pass.new }
    ensures puts { spec.Puts M.language.clean (tokens_spec.pass_view pass.old) number
        (request_spec.Build map.now (option_copied val.entry)) result
        (tokens_spec.pass_view pass.new) }
{
    let session = pass.session();
    let built = build_alone::<R, P, M, G>(rt, alloc, desk, pass, number, map, val, gate, workers)?;
    Ok(built_answer(alloc, session, number, built)?)
}

// Builds; the pages are read from the rows of its outcome, and go into no outlet.
fn build_alone<R: Threads + Wait + Sync, P: Parts + Send + Sync, M: Makers<P>, G: Gate + Sync>(
    rt: &R,
    alloc: Global,
    desk: &Desk<Book<P>>,
    pass: &mut Pass<Book<P>>,
    number: u32,
    map: &Name,
    val: Option<&Name>,
    gate: &G,
    workers: u32,
) -> Result<Built, Stop<Full>>
    requires pass { tokens_spec.IsPassOf desk.now pass.old }
    requires parts { 17 < (tokens_spec.pass_view pass.old).parts }
    requires few { 1 ≤ workers }
    requires many { workers ≤ 16 }
    ensures pass { tokens_spec.IsPassOf desk.now pass.new }
    ensures builds { spec.Builds (meaning_spec.meant_by P.plan_agrees P.own_agrees P.is_sound)
        M.language (tokens_spec.pass_view pass.old)
        (build_spec.order_of number map.now (option_copied val.entry)) result
        (tokens_spec.pass_view pass.new) }
{
    let built = build::<R, P, M, NoOutlet, G>(
        rt,
        alloc,
        desk,
        pass,
        number,
        map,
        val,
        &mut NoOutlet,
        gate,
        workers,
    );
    match built {
        Ok(built) => Ok(built),
        Err(stop) => Err(stop_of(stop)),
    }
}

// Why a build without an outlet gives nothing.
fn stop_of(stop: BuildStop) -> Stop<Full>
    ensures { result ≡ spec.stop_of stop }
{
    match stop {
        BuildStop::Full(full) => Stop::Fault(full),
        BuildStop::OutletFault | BuildStop::NoMemory => Stop::NoMemory,
    }
}
