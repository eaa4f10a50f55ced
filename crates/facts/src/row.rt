//! Facts that are kept for later builds.

use crate::fact::Fact;
use std::alloc::AllocError;
use std::sync::Arc;

/// A fact that is kept for later builds.
#[derive(Drop)]
pub struct Row {
    /// Rows and claims have numbers from 1, drawn when they are claimed.
    pub serial: u64,
    /// The number of entries, up to and with the last one that changed the sources.
    pub stamp: u64,
    /// The number of rows that were published, up to and with this one.
    pub rank: u64,
    /// The greatest serial that was drawn when the row was published.
    pub mark: u64,
    /// What the row counts for in the table.
    pub bytes: u64,
    pub fact: Arc<Fact>,
}

/// A copy shares the fact.
impl Clone for Row {
    ghost use Rattle.std.specs.Prelude.{◌≡◌};
    ghost use Rattle.facts.specs.Rows as rows_spec;

    ghost is_clone = { λ row copy. rows_spec.row_data copy ≡ rows_spec.row_data row };

    fn clone(&self) -> Result<Row, AllocError> {
        Ok(Row {
            serial: self.serial,
            stamp: self.stamp,
            rank: self.rank,
            mark: self.mark,
            bytes: self.bytes,
            fact: Arc::try_clone(&self.fact)?,
        })
    }
}
