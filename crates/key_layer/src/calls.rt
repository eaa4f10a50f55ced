//! The calls of the layer as a reader.

ghost use Rattle.std.specs.Prelude.{◌≡◌, ◌∷◌, ◌⊎◌, IfOk, OnOk};
ghost use Rattle.readers.specs.Noted as noted_spec;
ghost use Rattle.readers.specs.Setting.{Setting};
ghost use Rattle.readers.specs.Told as told_spec;

use crate::layer::KeyLayer;
use crate::memo::KeyAt;
use dita_doc::{Doc, DocKind, KeyAnswer, Name, NoMemory, Text};
use readers::{Keys, LogStart, Note, Questions, Reader, Titles};
use std::alloc::Global;
use std::sync::Arc;
use targets::copy_answer;

impl<'r, 'q, 'm, 'n, T: Titles, S: LogStart> Reader for KeyLayer<'r, 'q, 'm, 'n, T, S> {
    ghost use Rattle.std.specs.Prelude.{◌∷◌};
    ghost use Rattle.key_layer.specs.Ready as ready_spec;
    ghost use Rattle.readers.specs.Noted as noted_spec;

    ghost stand = { λ l. record (T.stand l.lower.now) {
      setting = ready_spec.made_for l.nodes.now (T.stand l.lower.now).setting;
      lent = l.lower.ghost_name ∷ l.memo.ghost_name ∷ (T.stand l.lower.now).lent;
    } };

    ghost told = { λ l. noted_spec.told_onto (ready_spec.made_for l.nodes.now S.stand.setting)
        S.told l.asked.now };

    ghost agrees = { λ l. l.carried.agrees (T.stand l.lower.now).world (T.agrees l.lower.now) };

    fn doc(&mut self, alloc: Global, name: &Name) -> Result<Option<Arc<Doc>>, NoMemory> {
        let found = self.ask_doc(alloc, name)?;
        let note = Note::document(name, &found)?;
        self.asked.settle(note);
        Ok(found)
    }
}

impl<'r, 'q, 'm, 'n, T: Titles, S: LogStart> Titles for KeyLayer<'r, 'q, 'm, 'n, T, S> {
    fn kind(&mut self, alloc: Global, name: &Name) -> Result<DocKind, NoMemory> {
        let kind = self.ask_kind(alloc, name)?;
        let note = Note::kind(name, kind)?;
        self.asked.settle(note);
        Ok(kind)
    }

    fn title(&mut self, alloc: Global, name: &Name, topic: &Text) -> Result<Text, NoMemory> {
        let text = self.ask_title(alloc, name, topic)?;
        let note = Note::title(name, topic, &text)?;
        self.asked.settle(note);
        Ok(text)
    }

    fn first(&mut self, alloc: Global, name: &Name) -> Result<Text, NoMemory> {
        let id = self.ask_first(alloc, name)?;
        let note = Note::first(name, &id)?;
        self.asked.settle(note);
        Ok(id)
    }
}

impl<'r, 'q, 'm, 'n, T: Titles, S: LogStart> Keys for KeyLayer<'r, 'q, 'm, 'n, T, S> {
    fn key(&mut self, alloc: Global, scope: u32, key: &Text) -> Result<KeyAnswer, NoMemory> {
        let at = KeyAt::new(scope, key)?;
        if let Some(answer) = self.memo.recall(alloc, &at)? {
            let (note, answer) = noted(alloc, scope, key, answer)?;
            return tell(self.asked, note, answer);
        }
        let answer = self.make_answer(alloc, at)?;
        let (note, answer) = noted(alloc, scope, key, answer)?;
        self.asked.settle(note);
        Ok(answer)
    }
}

// An answer, behind the question for its key.
fn noted(
    alloc: Global,
    scope: u32,
    key: &Text,
    answer: KeyAnswer,
) -> Result<(Note, KeyAnswer), NoMemory>
    ensures note { IfOk result (λ both. (setting : Setting) → noted_spec.told_of setting both.0
        ≡ told_spec.key setting.nodes scope key.now answer) }
    ensures answer { IfOk result (λ both. both.1 ≡ answer) }
{
    let note = key_note(alloc, scope, key, &answer)?;
    Ok((note, answer))
}

// Gives the answer once its question has been put.
fn tell(asked: &mut Questions, note: Note, answer: KeyAnswer) -> Result<KeyAnswer, NoMemory>
    ensures ok { OnOk result (asked.new ≡ note ∷ asked.old) }
    ensures either { (asked.new ≡ asked.old) ⊎ (asked.new ≡ note ∷ asked.old) }
    ensures answer { IfOk result (λ told. told ≡ answer) }
{
    asked.begin(note)?;
    Ok(answer)
}

// The question for a key, with a copy of its answer.
fn key_note(alloc: Global, scope: u32, key: &Text, answer: &KeyAnswer) -> Result<Note, NoMemory>
    ensures { IfOk result (λ note. (setting : Setting) → noted_spec.told_of setting note
        ≡ told_spec.key setting.nodes scope key.now answer.now) }
{
    Note::key(alloc, scope, key, copy_answer(alloc, answer)?)
}
