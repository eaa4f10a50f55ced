//! Builds whose workers are held at gates: each gate tells whether what it waited for came.

use crate::documents::{flat_map, topic};
use desk_top::{run_batch, run_gen, run_trial};
use dita_doc::{FactKey, List};
use dita_outside::{Gate, SureSink, SureSource};
use run_spec::Status;
use std::alloc::Global;
use std::sync::atomic::{AtomicU64, Ordering};
use std::test::Fail;
use std::thread;

// How many turns a worker is held at most.
const TURNS: u32 = 10_000_000;

// Waits until a word is at least so much.
fn comes(word: &AtomicU64, least: u64) -> bool {
    for _ in 0..TURNS {
        if word.load(Ordering::SeqCst) >= least {
            return true;
        }
        thread::yield_now();
    }
    false
}

// Two who wait for each other, and how many waited too long.
#[derive(Drop)]
struct Meeting {
    first: AtomicU64,
    second: AtomicU64,
    late: AtomicU64,
}

impl Meeting {
    fn new() -> Meeting {
        Meeting {
            first: AtomicU64::new(0),
            second: AtomicU64::new(0),
            late: AtomicU64::new(0),
        }
    }

    // One of the two has come, and waits for the other.
    fn meet(&self, own: &AtomicU64, other: &AtomicU64) {
        own.store(1, Ordering::SeqCst);
        if !comes(other, 1) {
            self.late.fetch_add(1, Ordering::SeqCst);
        }
    }

    fn all_met(&self) -> bool {
        self.late.load(Ordering::SeqCst) == 0
    }
}

// Holds the first pass of worker 1 and that of worker 2 until the other has begun.
#[derive(Drop)]
struct OfWorkers {
    meeting: Meeting,
}

impl Gate for OfWorkers {
    fn pass(&self, worker: u32, _key: &FactKey) {
        let meeting = &self.meeting;
        match worker {
            1 => meeting.meet(&meeting.first, &meeting.second),
            2 => meeting.meet(&meeting.second, &meeting.first),
            _ => (),
        }
    }
}

#[test]
fn two_workers_make_parts_at_one_time(rt: HostRuntime) -> Result<(), Fail> {
    let alloc = rt.alloc();
    let gate = OfWorkers {
        meeting: Meeting::new(),
    };
    let mut sink = SureSink::new(alloc);
    let status = run_trial(&rt, alloc, 7, 40, 2, &mut sink, &gate);
    assert!(rt; status == Status::Done);
    assert!(rt; gate.meeting.all_met());
    Ok(())
}

// Holds each pass for one of two maps until one for the other has begun.
#[derive(Drop)]
pub struct OfMaps {
    meeting: Meeting,
}

impl OfMaps {
    /// A gate that nobody has come to.
    pub fn new() -> OfMaps {
        OfMaps {
            meeting: Meeting::new(),
        }
    }

    /// Whether nobody waited too long.
    pub fn all_met(&self) -> bool {
        self.meeting.all_met()
    }
}

impl Gate for OfMaps {
    fn pass(&self, _worker: u32, key: &FactKey) {
        let meeting = &self.meeting;
        if key.map.as_str() == "m.ditamap" {
            meeting.meet(&meeting.first, &meeting.second);
        } else {
            meeting.meet(&meeting.second, &meeting.first);
        }
    }
}

// Two sessions, each with a map of one topic and its build.
fn two_maps(alloc: Global) -> Result<String, Fail> {
    let first = flat_map(alloc, &["t.dita"])?;
    let second = flat_map(alloc, &["u.dita"])?;
    let topic = topic(alloc, "t", "T", &["x"])?;
    Ok(format!(in alloc;
        "1 put m.ditamap\n{first}.\n1 put t.dita\n{topic}.\n1 build m.ditamap\n2 put n.ditamap\n{second}.\n2 put u.dita\n{topic}.\n2 build n.ditamap\n"
    )?)
}

#[test]
fn two_sessions_build_at_one_time(rt: HostRuntime) -> Result<(), Fail> {
    let alloc = rt.alloc();
    let gate = OfMaps::new();
    let script = two_maps(alloc)?;
    let mut source = SureSource::new(List::from_slice(alloc, script.as_bytes())?);
    let mut sink = SureSink::new(alloc);
    let status = run_batch(&rt, alloc, 2, &mut source, &mut sink, &gate);
    assert!(rt; status == Status::Done);
    assert!(rt; gate.all_met());
    Ok(())
}

// Holds worker 1 of one map until another session was answered and worker 2 has passed twice. The
// other session's first build waits until worker 1 is held; it makes three parts, and its second
// build, behind an edit, one more.
#[derive(Drop)]
struct Held {
    held: AtomicU64,
    others: AtomicU64,
    passed: AtomicU64,
    late: AtomicU64,
}

impl Held {
    fn new() -> Held {
        Held {
            held: AtomicU64::new(0),
            others: AtomicU64::new(0),
            passed: AtomicU64::new(0),
            late: AtomicU64::new(0),
        }
    }

    fn expect(&self, is_in_time: bool) {
        if !is_in_time {
            self.late.fetch_add(1, Ordering::SeqCst);
        }
    }
}

impl Gate for Held {
    fn pass(&self, worker: u32, key: &FactKey) {
        if key.map.as_str() != "m.ditamap" {
            self.expect(comes(&self.held, 1));
            self.others.fetch_add(1, Ordering::SeqCst);
        } else if worker == 1 {
            self.held.store(1, Ordering::SeqCst);
            self.expect(comes(&self.others, 4) && comes(&self.passed, 2));
        } else if worker == 2 {
            self.passed.fetch_add(1, Ordering::SeqCst);
        }
    }
}

// One session builds a map of three topics. The other builds a map of one, edits its topic, and
// builds again.
fn two_paces(alloc: Global) -> Result<String, Fail> {
    let first = flat_map(alloc, &["a.dita", "b.dita", "c.dita"])?;
    let second = flat_map(alloc, &["u.dita"])?;
    let topic_x = topic(alloc, "t", "T", &["x"])?;
    let topic_y = topic(alloc, "t", "T", &["y"])?;
    let mut script = format!(in alloc;
        "1 put m.ditamap\n{first}.\n1 put a.dita\n{topic_x}.\n1 put b.dita\n{topic_x}.\n1 put c.dita\n{topic_x}.\n1 build m.ditamap\n"
    )?;
    let other = format!(in alloc;
        "2 put n.ditamap\n{second}.\n2 put u.dita\n{topic_x}.\n2 build n.ditamap\n2 put u.dita\n{topic_y}.\n2 build n.ditamap\n"
    )?;
    script.push_str(other.as_str())?;
    Ok(script)
}

#[test]
fn a_held_worker_holds_nobody(rt: HostRuntime) -> Result<(), Fail> {
    let alloc = rt.alloc();
    let gate = Held::new();
    let script = two_paces(alloc)?;
    let mut source = SureSource::new(List::from_slice(alloc, script.as_bytes())?);
    let mut sink = SureSink::new(alloc);
    let status = run_batch(&rt, alloc, 2, &mut source, &mut sink, &gate);
    assert!(rt; status == Status::Done);
    assert_eq!(rt; gate.late.load(Ordering::SeqCst), 0);
    assert!(rt;
        sink.bytes()
            .as_slice()
            .ends_with("\nend 10 9 0\n".as_bytes())
    );
    Ok(())
}

// Counts its passes.
#[derive(Drop)]
struct Counted {
    passes: AtomicU64,
}

impl Gate for Counted {
    fn pass(&self, _worker: u32, _key: &FactKey) {
        self.passes.fetch_add(1, Ordering::SeqCst);
    }
}

#[test]
fn what_is_made_passes_the_gate_once(rt: HostRuntime) -> Result<(), Fail> {
    let alloc = rt.alloc();
    let mut script = SureSink::new(alloc);
    assert!(rt; run_gen(alloc, 7, 40, &mut script) == Status::Done);
    let bytes = List::from_slice(alloc, script.bytes().as_slice())?;
    let gate = Counted {
        passes: AtomicU64::new(0),
    };
    let mut source = SureSource::new(bytes);
    let mut sink = SureSink::new(alloc);
    assert!(rt; run_batch(&rt, alloc, 4, &mut source, &mut sink, &gate) == Status::Done);
    let passes = gate.passes.load(Ordering::SeqCst);
    let end = format!(in alloc; "\nend 49 {passes} 0\n")?;
    assert!(rt; sink.bytes().as_slice().ends_with(end.as_bytes()));
    Ok(())
}
