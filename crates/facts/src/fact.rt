//! Finished parts of builds.

use dita_doc::{Asked, FactKey, Html, List, Plan, PlanStop};
use std::sync::Arc;

/// The plan of a build or why it has none, with the questions that it was made from and their
/// answers.
#[derive(Drop)]
pub struct PlanFact {
    pub asked: List<Asked>,
    pub value: Result<Plan, PlanStop>,
}

/// A part of a build. Its questions are those of its plan and then its own.
#[derive(Drop)]
pub struct Fact {
    pub key: FactKey,
    /// The plan on which the part rests: its own, if it is the plan.
    pub plan: Arc<PlanFact>,
    /// The serial of the row that keeps the plan; 0 if the part is the plan.
    pub planned: u64,
    /// The questions that were asked beside those of the plan, and their answers.
    pub asked: List<Asked>,
    /// The page or the contents page; none if the part is the plan.
    pub html: Option<Arc<Html>>,
}
