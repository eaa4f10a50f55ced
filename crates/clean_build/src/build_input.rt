//! What a build stands on.

ghost use Rattle.std.specs.Arc.{arc_value};
ghost use Rattle.std.specs.Prelude.{◌≡◌, IfOk};
ghost use Rattle.std.specs.Option.{option_copied};
ghost use Rattle.clean_build.specs.BuildInput as ground_spec;

use dita_doc::{Context, Name, NoMemory, PageId, PagePlan, Plan};
use plan_nodes::{copy_affixes, copy_names};
use std::alloc::Global;
use std::sync::Arc;

/// The map and the DITAVAL of a build, and its plan.
#[derive(Clone, Copy)]
pub struct BuildInput<'p> {
    pub map: &'p Name,
    pub val: Option<&'p Name>,
    pub plan: &'p Plan,
}

impl<'p> BuildInput<'p> {
    /// What a page of the plan is made for; the questions for the page share it.
    pub fn context_of(self, alloc: Global, page: &PagePlan) -> Result<Arc<Context>, NoMemory>
        ensures { IfOk result
            (λ context. arc_value context ≡ ground_spec.context_for self.entry page.now) }
    {
        let val = copy_val(self.val)?;
        let context = Context {
            map: self.map.clone()?,
            val,
            page: copy_id(alloc, &page.id)?,
            name: page.name.clone()?,
        };
        Ok(Arc::new(alloc, context)?)
    }
}

// The name of a DITAVAL, if there is one, which shares it.
fn copy_val(val: Option<&Name>) -> Result<Option<Name>, NoMemory>
    ensures { IfOk result (λ copy. copy ≡ option_copied val.entry) }
{
    match val {
        Some(val) => Ok(Some(val.clone()?)),
        None => Ok(None),
    }
}

// A copy, which shares the names.
fn copy_id(alloc: Global, id: &PageId) -> Result<PageId, NoMemory>
    ensures { IfOk result (λ copy. copy ≡ id.now) }
{
    Ok(PageId {
        doc: id.doc.clone()?,
        scope: id.scope,
        filters: copy_names(alloc, id.filters.as_slice())?,
        affixes: copy_affixes(alloc, id.affixes.as_slice())?,
    })
}
