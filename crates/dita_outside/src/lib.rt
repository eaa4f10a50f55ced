//! The outside as the program sees it: sources, sinks, outlets, links and doors, each with a count of
//! its faults, and the gate that makers of parts of builds pass.
//!
//! What is used above it: a call answers `Failed` only if the object's count rose in it, or stands
//! at its last value. Then, and if it answers `NoMemory`, the object has taken nothing. Only the
//! forms in memory tell what they hold.
#![tactic(auto)]

mod calls;
mod count;
mod door;
mod folder;
mod gate;
mod link;
mod mem_door;
mod mem_link;
mod outlet;
mod sink;
mod source;

pub use count::with_fault;
pub use door::Door;
pub use folder::{FolderOutlet, PageError};
pub use gate::{Gate, NoGate};
pub use link::Link;
pub use mem_door::MemDoor;
pub use mem_link::{MemLink, SureLink};
pub use outlet::{MemOutlet, NoOutlet, Outlet, SureOutlet};
pub use sink::{MemSink, Sink, StdSink, SureSink, write_all};
pub use source::{MemSource, Source, StdSource, SureSource};

/// The one answer of an object that failed.
#[derive(Clone, Copy, Debug, PartialEq, Eq)]
pub struct Failed;
