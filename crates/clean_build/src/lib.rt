//! The build of a map by the evaluators of the whole language: its plan, each of its pages, the
//! contents page, and all of them together.
//!
//! What is used above it: `clean` gives the clean build of a map over stored sources, as it is
//! defined, and `clean_with_terms` the page of its terms with it. `fact_maker` makes the parts of
//! builds by the works of pages and by `over_tables`, which does a work over a plan; `whole_calls`
//! does such works over any reader.
#![tactic(auto, using(crate::proofs::Putting::putting))]

mod body;
mod build_input;
mod built;
mod content;
mod gathered;
mod hrefs;
mod plan_task;
mod root;
mod terms;
mod whole_build;
mod work_done;
mod works;

pub use body::no_html;
pub use build_input::BuildInput;
pub use built::Clean;
pub use content::resolved_for;
pub use plan_task::PlanTask;
pub use root::root_line;
pub use whole_build::{clean, clean_with_terms};
pub use work_done::{WorkDone, over_tables};
pub use works::{ContentsWork, PageMade, PageWork};
