//! The mode `serve`: sessions over links, each connection one session, at one desk where maps are
//! built.

ghost use Rattle.std.specs.Prelude.{◌≤◌};
ghost use Rattle.run_spec.specs.EndsServe as serve_spec;
ghost use Rattle.run_spec.specs.Language.{dita};
ghost use Rattle.desk_session.specs.Serving as serving_spec;
ghost use Rattle.desk_serve.specs.Ends as ports_spec;

use crate::makers::MapMakers;
use dita_outside::{Door, Gate, Sink};
use fact_judge::MapParts;
use run_spec::Status;
use std::alloc::Global;
use std::sync::Wait;
use std::thread::Threads;

/// Listens at a port, serves as many connections as stated, each as a session of its own with so
/// many workers for each build, and writes how many sessions and entries there were. Makers of parts
/// pass the gate.
pub fn run_serve<R: Threads + Wait + Sync, K: Sink, D: Door, G: Gate + Sync>(
    rt: &R,
    alloc: Global,
    port: u16,
    connections: u32,
    workers: u32,
    sink: &mut K,
    door: &mut D,
    gate: &G,
) -> Status
    requires some { 1 ≤ connections }
    requires most { connections ≤ 1024 }
    requires few { 1 ≤ workers }
    requires many { workers ≤ 16 }
    ensures { serve_spec.EndsServe (serving_spec.serves dita.clean) (serving_spec.breaks dita.clean)
        connections (ports_spec.ports K.taken K.faults D.told sink.old door.old)
        (ports_spec.ports K.taken K.faults D.told sink.new door.new) result }
{
    desk_serve::run_serve::<R, MapParts, MapMakers, K, D, G>(
        rt,
        alloc,
        port,
        connections,
        workers,
        sink,
        door,
        gate,
    )
}
