//! The scopes within one another. They are counted in preorder, so that a scope and those in it
//! have numbers without a gap.

ghost use Rattle.std.specs.Prelude.{◌≡◌, ◌<◌, ℕ, length, IfOk};
ghost use Rattle.key_scopes.specs.Above as spec;

use dita_doc::{NoMemory, Scope};
use plan_nodes::place_of;
use std::alloc::Global;

/// For each scope the number just past those in it.
#[derive(Drop)]
pub(crate) struct Spans {
    ends: Vec<u32>,
}

impl Spans {
    /// The spans of scopes whose parents stand before them.
    pub(crate) fn of(alloc: Global, scopes: &[Scope]) -> Result<Spans, NoMemory>
        ensures { spec.parent_in scopes.now 0 ≡ 0
            → ((at : ℕ) → 0 < at → at < length scopes.now → spec.parent_in scopes.now at < at)
            → IfOk result (λ spans. spec.AreEndsFrom (spec.parent_in scopes.now)
            (length scopes.now) 0 spans.ends.items) }
    {
        let mut ends: Vec<u32> = Vec::new(alloc);
        for at in 0..scopes.len() {
            ends.push(place_of(at + 1)?)?;
        }
        for at in (0..scopes.len()).rev() {
            raise_around(&mut ends, at, scopes[at].parent as usize);
        }
        Ok(Spans { ends })
    }

    /// Whether a scope is another, or stands around it.
    pub(crate) fn encloses(&self, outer: u32, inner: u32) -> bool
        ensures { result ≡ spec.encloses self.now.ends.items outer inner }
    {
        outer <= inner && inner < end_at(&self.ends, outer as usize)
    }
}

fn end_at(ends: &[u32], at: usize) -> u32
    ensures { result ≡ spec.end_at ends.now at }
{
    ends.get(at).copied().unwrap_or(0)
}

// Raises the end of a scope's parent to its own.
#[tactic(auto, using(crate::proofs::AboveLaws::raised_set, crate::proofs::AboveLaws::raised_past))]
fn raise_around(ends: &mut Vec<u32>, at: usize, around: usize)
    ensures { ends.new.items
        ≡ spec.raised_to around (spec.end_at ends.old.items at) ends.old.items }
{
    let end = end_at(ends, at);
    if around < ends.len() {
        let own = ends[around];
        ends[around] = own.max(end);
    }
}
