//! Why a store answers no more.

/// How much stands in a history that has no room for one more request.
#[derive(Clone, Copy, Debug, PartialEq, Eq)]
pub struct Full {
    pub entries: u64,
    /// The bytes of all names and bodies.
    pub bytes: u64,
}
