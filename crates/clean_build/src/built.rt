//! What a build gives.

use dita_doc::{Fault, Html, List, Name, PlanStop};
use std::sync::Arc;

/// What a build gives.
#[derive(Drop)]
pub enum Clean {
    /// The pages in the map's order, the contents page last; and the faults.
    Done(List<(Name, Arc<Html>)>, List<Fault>),
    /// The build has no plan.
    Stopped(PlanStop),
    /// The pages have more bytes than a build may have: so many.
    TooLarge(u64),
}
