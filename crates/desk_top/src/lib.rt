//! The runs of the program, from the bytes that come in to the pages and the transcript that go
//! out.
//!
//! What is used above it: `desk_top` answers the status of the run that its words name, which is
//! `run_clean`, `run_terms`, `run_gen`, `run_batch`, `run_trial` or `run_serve`. The status says what
//! the source, the sink, the outlet and the door tell afterwards.
#![tactic(auto)]

mod batch;
mod build;
mod callers;
mod deliver;
mod generate;
mod makers;
mod modes;
mod outside;
mod path;
mod run;
mod serve;
mod told;
mod top;
mod trial;

pub use batch::run_batch;
pub use command_line::out_folder;
pub use generate::run_gen;
pub use modes::{run_clean, run_terms};
pub use run_spec::Status;
pub use serve::run_serve;
pub use top::desk_top;
pub use trial::run_trial;
