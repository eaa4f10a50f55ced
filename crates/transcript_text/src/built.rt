//! What an entry shows of a build.

use dita_doc::{Fault, List, Name, PlanStop};

/// Where the bytes of a page are.
#[derive(Clone, Copy, PartialEq, Eq)]
pub enum PageMark {
    /// So many bytes were put into the outlet.
    Bytes(u64),
    /// They are in the row of this serial.
    Row(u64),
}

/// What a build gave.
#[derive(Drop)]
pub enum BuiltText {
    /// The pages, the contents page last, and the faults.
    Pages(List<(Name, PageMark)>, List<Fault>),
    Stopped(PlanStop),
    /// The pages have so many bytes, which are too many.
    TooLarge(u64),
}
