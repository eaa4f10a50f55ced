//! What a build answers.

use dita_doc::{Fault, List, Name, PlanStop};
use facts::Row;
use version_store::Full;

/// A page of a build, with the row that keeps it.
#[derive(Drop)]
pub struct PageRow {
    pub name: Name,
    pub row: Row,
}

/// What a build gives.
#[derive(Drop)]
pub enum Outcome {
    /// The pages in the order of the plan, the contents page last, and the faults of the build.
    Done(List<PageRow>, List<Fault>),
    /// The map has no plan.
    Stopped(PlanStop),
    /// The pages have so many bytes together, more than a build may have.
    TooLarge(u64),
}

/// A build that has its place in the history.
#[derive(Drop)]
pub struct Built {
    pub place: u64,
    pub outcome: Outcome,
}

/// Why a build gives nothing. It may have its place all the same, but for `Full`.
#[derive(Clone, Copy, Debug, PartialEq, Eq)]
pub enum BuildStop {
    /// The outlet failed.
    OutletFault,
    NoMemory,
    /// One more request would pass a limit of the history.
    Full(Full),
}
