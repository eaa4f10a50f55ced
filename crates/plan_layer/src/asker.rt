//! The calls of the layer as a reader that knows a plan.

use crate::layer::PlanLayer;
use conref_push::{PushTable, has_conaction_in};
use dita_doc::{Context, Doc, Name, NoMemory, PushList};
use pushed_docs::{
    GivesTouched, TellsPushes, kept_pushed, made_pushed, page_note, pushes_known, with_pushes,
};
use readers::{Asker, Keys, LogStart, share};
use std::alloc::Global;
use std::sync::Arc;

impl<'r, 'q, 'm, 'd, 'n, K: Keys, S: LogStart> TellsPushes for PlanLayer<'r, 'q, 'm, 'd, 'n, K, S> {
    fn tell_pushes(&mut self, alloc: Global, name: &Name) -> Result<PushList, NoMemory> {
        let answer = self.table.pushes_into(alloc, name)?;
        // The question is kept with an answer of its own.
        let note = pushes_known(alloc, self.table, name)?;
        self.asked.begin(note)?;
        Ok(answer)
    }
}

impl<'r, 'q, 'm, 'd, 'n, K: Keys, S: LogStart> GivesTouched
    for PlanLayer<'r, 'q, 'm, 'd, 'n, K, S> {
    fn touched(&mut self, alloc: Global, name: &Name) -> Result<Option<Arc<Doc>>, NoMemory> {
        if let Some(kept) = self.docs.find(name) {
            let copy = share(kept)?;
            return kept_pushed(alloc, self, name, copy);
        }
        let made = with_pushes(alloc, self, name)?;
        let kept = share(&made)?;
        self.docs.put(name, kept)?;
        Ok(made)
    }

    fn is_itself(
        &mut self,
        table: &PushTable,
        name: &Name,
        found: &Option<Arc<Doc>>,
    ) -> Result<bool, NoMemory> {
        let Some(doc) = found else {
            return Ok(true);
        };
        if table.touches(name) {
            return Ok(false);
        }
        if self.docs.is_without_conaction(name) {
            return Ok(true);
        }
        if has_conaction_in(doc) {
            return Ok(false);
        }
        self.docs.put_quiet(name)?;
        Ok(true)
    }
}

impl<'r, 'q, 'm, 'd, 'n, K: Keys, S: LogStart> Asker for PlanLayer<'r, 'q, 'm, 'd, 'n, K, S> {
    fn pushes(&mut self, alloc: Global, name: &Name) -> Result<PushList, NoMemory> {
        self.tell_pushes(alloc, name)
    }

    fn pushed(&mut self, alloc: Global, name: &Name) -> Result<Option<Arc<Doc>>, NoMemory> {
        if let Some(known) = self.memo.find(name) {
            return Ok(share(known)?);
        }
        let table = self.table;
        let made = made_pushed(alloc, self, table, name)?;
        let copy = share(&made)?;
        self.memo.put(name, copy)?;
        Ok(made)
    }

    fn page_of(
        &mut self,
        alloc: Global,
        name: &Name,
        context: &Arc<Context>,
    ) -> Result<Option<u32>, NoMemory> {
        let place = self.places.find(alloc, name, &context.page)?;
        let note = page_note(alloc, name, context, place)?;
        self.asked.begin(note)?;
        Ok(place)
    }
}
