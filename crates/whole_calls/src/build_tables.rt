//! The tables of a plan that was found anew, over any reader.

ghost use Rattle.std.specs.Prelude.{◌≡◌, IfOk};
ghost use Rattle.key_layer.specs.Ready.{AreReady};
ghost use Rattle.key_scopes.specs.Made.{IsTableOf};
ghost use Rattle.readers.specs.Founded.{Grows, StaysFounded};
ghost use Rattle.readers.specs.Told.{Knows};
ghost use Rattle.whole_calls.specs.Tables.{AreTables};

use conref_push::PushTable;
use dita_doc::{NoMemory, Plan};
use key_scopes::ScopeTable;
use page_table::PageTable;
use plan_nodes::NodeElements;
use readers::Reader;
use std::alloc::Global;

/// The elements and the scopes of a plan's nodes, the pushes of its documents, and its pages.
#[derive(Drop)]
pub(crate) struct BuildTables {
    pub homes: NodeElements,
    pub scopes: ScopeTable,
    pub pushes: PushTable,
    pub pages: PageTable,
}

impl BuildTables {
    /// The tables of a plan, from the elements and the scopes of its nodes.
    pub fn of<R: Reader>(
        alloc: Global,
        reader: &mut R,
        plan: &Plan,
        homes: NodeElements,
        scopes: ScopeTable,
    ) -> Result<BuildTables, NoMemory>
        requires ready { AreReady (R.told reader.old) plan.now.nodes homes }
        requires scoped { Knows (R.told reader.old)
            (λ world. ∥ IsTableOf world plan.now.nodes scopes ∥₁) }
        ensures tables { IfOk result (λ tables. AreTables (R.told reader.new) plan.now tables) }
        ensures founded { StaysFounded plan.now.documents (R.told reader.old)
            (R.told reader.new) }
        ensures stand { R.stand reader.new ≡ R.stand reader.old }
        ensures grows { Grows (R.told reader.old) (R.told reader.new) }
    {
        let pushes = PushTable::of(alloc, reader, plan.documents.as_slice())?;
        let pages = PageTable::of(alloc, plan.pages.as_slice())?;
        Ok(BuildTables {
            homes,
            scopes,
            pushes,
            pages,
        })
    }
}
