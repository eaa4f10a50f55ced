//! What was stored at a time.

use dita_doc::Sources;
use std::sync::Arc;

/// What was stored after the first entries of a history.
#[derive(Drop)]
pub struct Snapshot {
    /// The number of entries, up to and with the last one that changed what is stored.
    pub stamp: u64,
    pub sources: Arc<Sources>,
}
