//! The calls of the reader for pushes and pages.

use crate::reader::PlanReader;
use conref_push::{PushTable, has_conaction_in};
use dita_doc::{Context, Doc, Name, NoMemory, PushList};
use pushed_docs::{
    GivesTouched, TellsPushes, kept_pushed, made_pushed, page_note, pushes_known, with_pushes,
};
use readers::{Asker, share};
use std::alloc::Global;
use std::sync::Arc;

impl<'a, 'n> TellsPushes for PlanReader<'a, 'n> {
    fn tell_pushes(&mut self, alloc: Global, name: &Name) -> Result<PushList, NoMemory> {
        let answer = self.tables.pushes.pushes_into(alloc, name)?;
        // The question is kept with an answer of its own.
        let note = pushes_known(alloc, &self.tables.pushes, name)?;
        self.asked.begin(note)?;
        Ok(answer)
    }
}

impl<'a, 'n> GivesTouched for PlanReader<'a, 'n> {
    fn touched(&mut self, alloc: Global, name: &Name) -> Result<Option<Arc<Doc>>, NoMemory> {
        if let Some(kept) = self.docs.find(name) {
            let copy = share(kept)?;
            return kept_pushed(alloc, self, name, copy);
        }
        let made = with_pushes(alloc, self, name)?;
        let kept = share(&made)?;
        self.docs.put(name, kept)?;
        Ok(made)
    }

    fn is_itself(
        &mut self,
        table: &PushTable,
        name: &Name,
        found: &Option<Arc<Doc>>,
    ) -> Result<bool, NoMemory> {
        let Some(doc) = found else {
            return Ok(true);
        };
        if table.touches(name) {
            return Ok(false);
        }
        if self.docs.is_without_conaction(name) {
            return Ok(true);
        }
        if has_conaction_in(doc) {
            return Ok(false);
        }
        self.docs.put_quiet(name)?;
        Ok(true)
    }
}

impl<'a, 'n> Asker for PlanReader<'a, 'n> {
    fn pushes(&mut self, alloc: Global, name: &Name) -> Result<PushList, NoMemory> {
        self.tell_pushes(alloc, name)
    }

    fn pushed(&mut self, alloc: Global, name: &Name) -> Result<Option<Arc<Doc>>, NoMemory> {
        if let Some(known) = self.memo.find(name) {
            return Ok(share(known)?);
        }
        let tables = self.tables;
        let made = made_pushed(alloc, self, &tables.pushes, name)?;
        let copy = share(&made)?;
        self.memo.put(name, copy)?;
        Ok(made)
    }

    fn page_of(
        &mut self,
        alloc: Global,
        name: &Name,
        context: &Arc<Context>,
    ) -> Result<Option<u32>, NoMemory> {
        let place = self.tables.pages.find(alloc, name, &context.page)?;
        let note = page_note(alloc, name, context, place)?;
        self.asked.begin(note)?;
        Ok(place)
    }
}
