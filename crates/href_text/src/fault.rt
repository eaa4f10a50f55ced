//! Why a value refers to no document of the desk.

/// Why a value is no reference, or a file can't be joined. The numbers are those of
/// `docs/RULES.md`.
#[derive(Clone, Copy, PartialEq, Eq)]
pub enum RefFault {
    /// A `:` stands before the first `/` and `#`, so the value names something outside.
    External = 1,
    /// The path goes above the root, or begins there.
    AboveRoot = 2,
    /// What stands behind the `#` is no topic, and no topic with an element.
    BadFragment = 3,
    /// The value is empty, or nothing of the path stays.
    Empty = 4,
    /// What stays of the path is no document name.
    BadName = 5,
}
