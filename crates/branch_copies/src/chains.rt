//! The branches around nodes.

ghost use Rattle.std.specs.Prelude.{◌≡◌, ◌++◌, [], ◌∷◌, IfOk, OnOk, length};
ghost use Rattle.branch_copies.specs.Chained as chained_spec;

use dita_doc::NoMemory;
use std::alloc::Global;

/// Chains of branches that stand around a node, each by its place: the inner ones first. The chain
/// at place 0 is empty.
#[derive(Drop)]
pub(crate) struct Chains {
    chains: Vec<Vec<usize>>,
}

impl Chains {
    pub fn new(alloc: Global) -> Result<Chains, NoMemory>
        ensures { IfOk result (λ chains. chained_spec.shown chains.chains.items ≡ [] ∷ []) }
    {
        let mut chains = Vec::new(alloc);
        chains.push(Vec::new(alloc))?;
        Ok(Chains { chains })
    }

    /// The branches of a chain.
    pub fn get(&self, chain: usize) -> &[usize]
        ensures { result.now ≡ chained_spec.chain_at self.now.chains.items chain }
    {
        match self.chains.get(chain) {
            Some(branches) => branches.as_slice(),
            None => &[],
        }
    }

    /// Makes the chain of a branch within those of a chain, and gives its place.
    pub fn put(&mut self, alloc: Global, branch: usize, chain: usize) -> Result<usize, NoMemory>
        ensures place { IfOk result (λ place. place ≡ length self.old.chains.items) }
        ensures put { OnOk result (chained_spec.shown self.new.chains.items
            ≡ chained_spec.shown self.old.chains.items
            ++ (branch ∷ chained_spec.chain_at self.old.chains.items chain) ∷ []) }
    {
        let mut branches = Vec::new(alloc);
        branches.push(branch)?;
        branches.extend_from_slice(self.get(chain))?;
        let place = self.chains.len();
        self.chains.push(branches)?;
        Ok(place)
    }
}
