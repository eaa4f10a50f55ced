//! The top call: words to a run.

ghost use Rattle.std.specs.Prelude.{◌≡◌, map, string_bytes};
ghost use Rattle.command_line.specs.Command as command_spec;
ghost use Rattle.desk_top.specs.Ends as ends_spec;
ghost use Rattle.desk_top.specs.Outside as outside_spec;

use crate::batch::run_batch;
use crate::generate::run_gen;
use crate::modes::{run_clean, run_terms};
use crate::serve::run_serve;
use crate::trial::run_trial;
use command_line::{Mode, mode};
use dita_doc::NoMemory;
use dita_outside::{Door, Gate, Outlet, Sink, Source};
use run_spec::Status;
use std::alloc::Global;
use std::sync::Wait;
use std::thread::Threads;

/// Runs the mode that the words name, and answers its status.
///
/// The first word is the program's name. Words that the command does not read are answered by
/// `Words`, and then nothing is read, put or written, and no session is served. Makers of the parts
/// of builds by workers pass the gate.
pub fn desk_top<R: Threads + Wait + Sync, S: Source, K: Sink, O: Outlet, D: Door, G: Gate + Sync>(
    rt: &R,
    alloc: Global,
    words: &[String],
    source: &mut S,
    sink: &mut K,
    outlet: &mut O,
    door: &mut D,
    gate: &G,
) -> Status
    ensures { let left : ends_spec.AsBefore = record {
      source = source.new ≡ source.old;
      outlet = outlet.new ≡ outlet.old;
      door = door.new ≡ door.old;
    } in
        let told : ends_spec.Objects = record {
          source = outside_spec.change S.left S.faults source.old source.new;
          sink = outside_spec.change K.taken K.faults sink.old sink.new;
          outlet = outside_spec.change O.pages O.faults outlet.old outlet.new;
          door = D.told door.old;
          door_after = D.told door.new;
        } in
        ends_spec.EndsProgram (command_spec.mode_of (map string_bytes words.now))
        (λ mode. ends_spec.EndsMode mode left told)
        ((source.new ≡ source.old) × (sink.new ≡ sink.old) × (outlet.new ≡ outlet.old)
        × (door.new ≡ door.old)) result }
{
    match mode(alloc, words) {
        Ok(Some(mode)) => run_mode(rt, alloc, &mode, source, sink, outlet, door, gate),
        Ok(None) => Status::Words,
        Err(NoMemory) => Status::NoMemory,
    }
}

// Runs a mode, and answers its status.
fn run_mode<R: Threads + Wait + Sync, S: Source, K: Sink, O: Outlet, D: Door, G: Gate + Sync>(
    rt: &R,
    alloc: Global,
    mode: &Mode,
    source: &mut S,
    sink: &mut K,
    outlet: &mut O,
    door: &mut D,
    gate: &G,
) -> Status
    ensures { let left : ends_spec.AsBefore = record {
      source = source.new ≡ source.old;
      outlet = outlet.new ≡ outlet.old;
      door = door.new ≡ door.old;
    } in
        let told : ends_spec.Objects = record {
          source = outside_spec.change S.left S.faults source.old source.new;
          sink = outside_spec.change K.taken K.faults sink.old sink.new;
          outlet = outside_spec.change O.pages O.faults outlet.old outlet.new;
          door = D.told door.old;
          door_after = D.told door.new;
        } in
        ends_spec.EndsMode mode.now left told result }
{
    match mode {
        Mode::Clean => run_clean(alloc, source, sink, outlet),
        Mode::Terms => run_terms(alloc, source, sink, outlet),
        Mode::Gen(project) => run_gen(alloc, project.number(), project.topics(), sink),
        Mode::Batch(workers) => run_batch(rt, alloc, workers.count(), source, sink, gate),
        Mode::Trial(project, workers) => {
            let (number, topics) = (project.number(), project.topics());
            run_trial(rt, alloc, number, topics, workers.count(), sink, gate)
        }
        Mode::Serve(listening, workers) => {
            let (port, connections) = (listening.port(), listening.connections());
            run_serve(
                rt,
                alloc,
                port,
                connections,
                workers.count(),
                sink,
                door,
                gate,
            )
        }
    }
}
