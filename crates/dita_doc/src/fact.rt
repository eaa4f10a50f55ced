//! Finished parts of builds, and what they are known by.

use crate::fault::Fault;
use crate::list::List;
use crate::name::Name;
use std::alloc::AllocError;

/// A page's bytes, with the faults that were met on the way.
#[derive(Drop)]
pub struct Html {
    pub bytes: List<u8>,
    pub faults: List<Fault>,
}

/// A part of a build.
#[derive(Clone, Copy, Debug, PartialEq, Eq, PartialOrd, Ord)]
pub enum Part {
    Plan,
    /// The page of this index.
    Page(u32),
    Contents,
}

/// A part of the builds of a map with a DITAVAL, or without. Keys are in order by their parts first,
/// since those of one map differ in nothing else.
#[derive(PartialEq, Eq, PartialOrd, Ord, Drop)]
pub struct FactKey {
    pub part: Part,
    pub map: Name,
    pub val: Option<Name>,
}

impl Clone for FactKey {
    ghost use Rattle.std.specs.Prelude.{◌≡◌};

    ghost is_clone = { λ key copy. copy ≡ key };

    fn clone(&self) -> Result<FactKey, AllocError> {
        Ok(FactKey {
            part: self.part,
            map: self.map.clone()?,
            val: self.val.clone()?,
        })
    }
}
