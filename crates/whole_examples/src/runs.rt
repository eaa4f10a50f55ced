//! Runs over objects in memory that do not fail.

use dita_doc::List;
use dita_outside::{SureOutlet, SureSink, SureSource};
use run_spec::Status;
use std::alloc::{AllocError, Global};

/// What a run ended with.
#[derive(Debug, Drop)]
pub struct Run {
    pub status: Status,
    pub sink: SureSink,
    pub outlet: SureOutlet,
}

impl Run {
    /// Runs a script in the mode `clean`.
    pub fn of(alloc: Global, script: &str) -> Result<Run, AllocError> {
        let mut source = SureSource::new(List::from_slice(alloc, script.as_bytes())?);
        let mut sink = SureSink::new(alloc);
        let mut outlet = SureOutlet::new(alloc);
        let status = desk_top::run_clean(alloc, &mut source, &mut sink, &mut outlet);
        Ok(Run {
            status,
            sink,
            outlet,
        })
    }

    /// Runs a script in the mode `terms`.
    pub fn with_terms(alloc: Global, script: &str) -> Result<Run, AllocError> {
        let mut source = SureSource::new(List::from_slice(alloc, script.as_bytes())?);
        let mut sink = SureSink::new(alloc);
        let mut outlet = SureOutlet::new(alloc);
        let status = desk_top::run_terms(alloc, &mut source, &mut sink, &mut outlet);
        Ok(Run {
            status,
            sink,
            outlet,
        })
    }

    /// Whether it finished with this output.
    pub fn is_done_with(&self, output: &str) -> bool {
        self.status == Status::Done && self.sink.bytes().as_slice() == output.as_bytes()
    }

    /// Whether the page of this place was put under this name with these bytes.
    pub fn has_page(&self, place: usize, name: &str, bytes: &str) -> bool {
        match self.outlet.pages().as_slice().get(place) {
            Some(page) => { page.0.as_str() == name && page.1.as_slice() == bytes.as_bytes() }
            None => false,
        }
    }
}
