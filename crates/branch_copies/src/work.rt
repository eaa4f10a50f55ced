//! What is left to copy.

/// Nodes that stand side by side, from `at` to `end`, below which node their copies stand, and the
/// chain of the branches around them.
#[derive(Clone, Copy)]
pub(crate) struct Walk {
    pub at: usize,
    pub end: usize,
    pub parent: u32,
    pub chain: usize,
}

/// Copies of the node `at`, whose subtree ends at `end`, for so many branches from `branch` on.
#[derive(Clone, Copy)]
pub(crate) struct Copies {
    pub at: usize,
    pub end: usize,
    pub branch: usize,
    pub count: usize,
    pub parent: u32,
    pub chain: usize,
}

#[derive(Clone, Copy)]
pub(crate) enum Work {
    Walk(Walk),
    Copies(Copies),
}
