//! The uses that make pages: one for each page.

ghost use Rattle.std.specs.Prelude.{◌≡◌, [], ◌∷◌, ℕ, List, IfOk, OnOk};
ghost use Rattle.dita_doc.specs.declared.plan.PlanNode as plan_node_spec;
ghost use Rattle.page_names.specs.PageUses as spec;

use dita_doc::{List, Name, NoMemory, PageId, PlanNode, Text};
use plan_nodes::{affix_texts, copy_affixes, copy_names, place_of};
use std::alloc::{AllocError, Global};
use std::collections::BTreeSet;

/// A page before it has its name.
#[derive(Drop)]
pub(crate) struct Use {
    pub id: PageId,
    pub node: u32,
}

// What makes two pages different, in an order; the prefixes and suffixes stand in turn.
#[derive(PartialEq, Eq, PartialOrd, Ord, Drop)]
struct PageKey {
    doc: Name,
    scope: u32,
    filters: List<Name>,
    affixes: List<Text>,
}

/// The first use of each page, in order.
#[derive(Drop)]
pub(crate) struct PageUses {
    pub uses: Vec<Use>,
    seen: BTreeSet<PageKey>,
}

impl PageUses {
    pub(crate) fn new(alloc: Global) -> PageUses
        ensures { spec.AreFirst [] result }
    {
        PageUses {
            uses: Vec::new(alloc),
            seen: BTreeSet::new(alloc),
        }
    }

    /// Puts the use of a document by the node at this place behind the others, unless one like it
    /// is there.
    pub(crate) fn put(
        &mut self,
        alloc: Global,
        at: usize,
        node: &PlanNode,
        name: &Name,
    ) -> Result<(), NoMemory>
        ensures { (uses : spec.Uses) → spec.AreFirst uses self.old
            → OnOk result (spec.AreFirst (spec.with_use uses
            (spec.use_by at name.now node.now)) self.new) }
    {
        if self.seen.insert(key_of(alloc, node, name)?)? {
            let id = id_of(alloc, node, name)?;
            let node = place_of(at)?;
            self.uses.push(Use { id, node })?;
        }
        Ok(())
    }
}

fn id_of(alloc: Global, node: &PlanNode, name: &Name) -> Result<PageId, AllocError>
    ensures { IfOk result (λ id. id ≡ spec.id_by name.now node.now) }
{
    Ok(PageId {
        doc: name.clone()?,
        scope: node.scope,
        filters: copy_names(alloc, node.filters.as_slice())?,
        affixes: copy_affixes(alloc, node.affixes.as_slice())?,
    })
}

fn key_of(alloc: Global, node: &PlanNode, name: &Name) -> Result<PageKey, AllocError>
    ensures { IfOk result (λ key. key ≡ spec.key_of (spec.id_by name.now node.now)) }
{
    Ok(PageKey {
        doc: name.clone()?,
        scope: node.scope,
        filters: copy_names(alloc, node.filters.as_slice())?,
        affixes: affix_texts(alloc, node.affixes.as_slice())?,
    })
}
