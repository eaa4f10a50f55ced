//! How much a book may hold.

ghost use Rattle.std.specs.Prelude.{◌≡◌};
ghost use Rattle.version_store.specs.Kept as kept_spec;

/// The most that a book may hold.
#[derive(Clone, Copy, Debug, PartialEq, Eq)]
pub struct Limits {
    /// Entries of the history.
    pub entries: u64,
    /// Bytes of the names and bodies of all entries.
    pub text_bytes: u64,
    /// What the kept rows of the table count for.
    pub table_bytes: u64,
}

impl Limits {
    /// The limits of a desk.
    pub fn standard() -> Limits
        ensures entries { result.entries ≡ kept_spec.entry_limit_of_desk }
        ensures text { result.text_bytes ≡ kept_spec.text_limit_of_desk }
        ensures table { result.table_bytes ≡ 1073741824 }
    {
        Limits {
            entries: version_store::ENTRY_LIMIT,
            text_bytes: version_store::TEXT_LIMIT,
            table_bytes: 1_073_741_824,
        }
    }
}
