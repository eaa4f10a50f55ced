//! The calls of the layer as a reader.

ghost use Rattle.std.specs.Prelude.{◌≡◌, IfOk};
ghost use Rattle.readers.specs.Noted as noted_spec;
ghost use Rattle.readers.specs.Setting.{Setting};
ghost use Rattle.readers.specs.Told as told_spec;

use crate::layer::PlanLayer;
use dita_doc::{Doc, DocKind, KeyAnswer, Name, NoMemory, Text};
use readers::{Keys, LogStart, Note, Reader, Titles};
use std::alloc::Global;
use std::sync::Arc;
use targets::copy_answer;

impl<'r, 'q, 'm, 'd, 'n, K: Keys, S: LogStart> Reader for PlanLayer<'r, 'q, 'm, 'd, 'n, K, S> {
    ghost use Rattle.std.specs.Prelude.{◌∷◌};
    ghost use Rattle.plan_layer.specs.Carried as carried_spec;
    ghost use Rattle.readers.specs.Noted as noted_spec;

    ghost stand = { λ l. record (K.stand l.lower.now) {
      setting = carried_spec.made_for l.documents.now l.pages.now S.stand.setting;
      lent = l.lower.ghost_name ∷ l.memo.ghost_name ∷ l.docs.ghost_name
          ∷ (K.stand l.lower.now).lent;
    } };

    ghost told = { λ l. noted_spec.told_onto
        (carried_spec.made_for l.documents.now l.pages.now S.stand.setting) S.told l.asked.now };

    ghost agrees = { λ l. l.carried.agrees (K.stand l.lower.now).world (K.agrees l.lower.now) };

    fn doc(&mut self, alloc: Global, name: &Name) -> Result<Option<Arc<Doc>>, NoMemory> {
        let found = self.ask_doc(alloc, name)?;
        let note = Note::document(name, &found)?;
        self.asked.settle(note);
        Ok(found)
    }
}

impl<'r, 'q, 'm, 'd, 'n, K: Keys, S: LogStart> Titles for PlanLayer<'r, 'q, 'm, 'd, 'n, K, S> {
    fn kind(&mut self, alloc: Global, name: &Name) -> Result<DocKind, NoMemory> {
        let kind = self.ask_kind(alloc, name)?;
        let note = Note::kind(name, kind)?;
        self.asked.settle(note);
        Ok(kind)
    }

    fn title(&mut self, alloc: Global, name: &Name, topic: &Text) -> Result<Text, NoMemory> {
        let text = self.ask_title(alloc, name, topic)?;
        let note = Note::title(name, topic, &text)?;
        self.asked.settle(note);
        Ok(text)
    }

    fn first(&mut self, alloc: Global, name: &Name) -> Result<Text, NoMemory> {
        let id = self.ask_first(alloc, name)?;
        let note = Note::first(name, &id)?;
        self.asked.settle(note);
        Ok(id)
    }
}

impl<'r, 'q, 'm, 'd, 'n, K: Keys, S: LogStart> Keys for PlanLayer<'r, 'q, 'm, 'd, 'n, K, S> {
    fn key(&mut self, alloc: Global, scope: u32, key: &Text) -> Result<KeyAnswer, NoMemory> {
        let answer = self.ask_key(alloc, scope, key)?;
        let note = key_note(alloc, scope, key, &answer)?;
        self.asked.settle(note);
        Ok(answer)
    }
}

// The question for a key, with a copy of its answer.
fn key_note(alloc: Global, scope: u32, key: &Text, answer: &KeyAnswer) -> Result<Note, NoMemory>
    ensures { IfOk result (λ note. (setting : Setting) → noted_spec.told_of setting note
        ≡ told_spec.key setting.nodes scope key.now answer.now) }
{
    Note::key(alloc, scope, key, copy_answer(alloc, answer)?)
}
