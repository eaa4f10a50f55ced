//! How the layer asks the reader below, each question put first without its answer.

ghost use Rattle.std.specs.Prelude.{◌≡◌, ◌∷◌, ◌⊎◌, [], IfOk, IfSome, OnErr, OnOk};
ghost use Rattle.key_layer.specs.Answers.{IsAnswer};
ghost use Rattle.readers.specs.Told as told_spec;
ghost use Rattle.readers.specs.declared.questions.Note.TheVariants as notes;

use crate::layer::KeyLayer;
use crate::memo::KeyAt;
use dita_doc::{Doc, DocKind, KeyAnswer, Name, NoMemory, Text};
use key_answers::answer_key;
use readers::{LogStart, Note, Titles};
use std::alloc::Global;
use std::sync::Arc;

impl<'r, 'q, 'm, 'n, T: Titles, S: LogStart> KeyLayer<'r, 'q, 'm, 'n, T, S> {
    pub(crate) fn ask_doc(
        &mut self,
        alloc: Global,
        name: &Name,
    ) -> Result<Option<Arc<Doc>>, NoMemory>
        ensures same { self.new.lower.ghost_name ≡ self.old.lower.ghost_name }
        ensures same_memo { self.new.memo.ghost_name ≡ self.old.memo.ghost_name }
        ensures nodes { self.new.nodes.now ≡ self.old.nodes.now }
        ensures stand { T.stand self.new.lower.now ≡ T.stand self.old.lower.now }
        ensures ok { OnOk result (self.new.asked.now ≡ notes.PendingDocument name.now ∷ self.old.asked.now) }
        ensures err { OnErr result ((self.new.asked.now ≡ self.old.asked.now)
            ⊎ (self.new.asked.now ≡ notes.PendingDocument name.now ∷ self.old.asked.now)) }
        ensures below { IfOk result (λ found. T.told self.new.lower.now
            ≡ told_spec.document name.now (told_spec.tree_found found)
            ∷ T.told self.old.lower.now) }
        ensures origin { IfOk result (λ found. IfSome (told_spec.doc_of found)
            (λ doc. doc.origins ≡ name.now ∷ [])) }
    {
        self.asked.begin(Note::PendingDocument(name.clone()?))?;
        self.lower.doc(alloc, name)
    }

    pub(crate) fn ask_kind(&mut self, alloc: Global, name: &Name) -> Result<DocKind, NoMemory>
        ensures same { self.new.lower.ghost_name ≡ self.old.lower.ghost_name }
        ensures same_memo { self.new.memo.ghost_name ≡ self.old.memo.ghost_name }
        ensures nodes { self.new.nodes.now ≡ self.old.nodes.now }
        ensures stand { T.stand self.new.lower.now ≡ T.stand self.old.lower.now }
        ensures ok { OnOk result (self.new.asked.now ≡ notes.Pending name.now ∷ self.old.asked.now) }
        ensures err { OnErr result ((self.new.asked.now ≡ self.old.asked.now)
            ⊎ (self.new.asked.now ≡ notes.Pending name.now ∷ self.old.asked.now)) }
        ensures below { IfOk result (λ kind. T.told self.new.lower.now
            ≡ told_spec.kind name.now kind ∷ T.told self.old.lower.now) }
    {
        self.asked.begin(Note::Pending(name.clone()?))?;
        self.lower.kind(alloc, name)
    }

    pub(crate) fn ask_title(
        &mut self,
        alloc: Global,
        name: &Name,
        topic: &Text,
    ) -> Result<Text, NoMemory>
        ensures same { self.new.lower.ghost_name ≡ self.old.lower.ghost_name }
        ensures same_memo { self.new.memo.ghost_name ≡ self.old.memo.ghost_name }
        ensures nodes { self.new.nodes.now ≡ self.old.nodes.now }
        ensures stand { T.stand self.new.lower.now ≡ T.stand self.old.lower.now }
        ensures ok { OnOk result (self.new.asked.now ≡ notes.Pending name.now ∷ self.old.asked.now) }
        ensures err { OnErr result ((self.new.asked.now ≡ self.old.asked.now)
            ⊎ (self.new.asked.now ≡ notes.Pending name.now ∷ self.old.asked.now)) }
        ensures below { IfOk result (λ text. T.told self.new.lower.now
            ≡ told_spec.title name.now topic.now text ∷ T.told self.old.lower.now) }
    {
        self.asked.begin(Note::Pending(name.clone()?))?;
        self.lower.title(alloc, name, topic)
    }

    pub(crate) fn ask_first(&mut self, alloc: Global, name: &Name) -> Result<Text, NoMemory>
        ensures same { self.new.lower.ghost_name ≡ self.old.lower.ghost_name }
        ensures same_memo { self.new.memo.ghost_name ≡ self.old.memo.ghost_name }
        ensures nodes { self.new.nodes.now ≡ self.old.nodes.now }
        ensures stand { T.stand self.new.lower.now ≡ T.stand self.old.lower.now }
        ensures ok { OnOk result (self.new.asked.now ≡ notes.Pending name.now ∷ self.old.asked.now) }
        ensures err { OnErr result ((self.new.asked.now ≡ self.old.asked.now)
            ⊎ (self.new.asked.now ≡ notes.Pending name.now ∷ self.old.asked.now)) }
        ensures below { IfOk result (λ id. T.told self.new.lower.now
            ≡ told_spec.first name.now id ∷ T.told self.old.lower.now) }
    {
        self.asked.begin(Note::Pending(name.clone()?))?;
        self.lower.first(alloc, name)
    }

    pub(crate) fn ask_key(
        &mut self,
        alloc: Global,
        scope: u32,
        key: &Text,
    ) -> Result<KeyAnswer, NoMemory>
        ensures same { self.new.lower.ghost_name ≡ self.old.lower.ghost_name }
        ensures same_memo { self.new.memo.ghost_name ≡ self.old.memo.ghost_name }
        ensures nodes { self.new.nodes.now ≡ self.old.nodes.now }
        ensures stand { T.stand self.new.lower.now ≡ T.stand self.old.lower.now }
        ensures ok { OnOk result (self.new.asked.now ≡ notes.PendingKey ∷ self.old.asked.now) }
        ensures err { OnErr result ((self.new.asked.now ≡ self.old.asked.now)
            ⊎ (self.new.asked.now ≡ notes.PendingKey ∷ self.old.asked.now)) }
        ensures is { IfOk result (λ answer. IsAnswer (T.told self.new.lower.now)
            self.new.nodes.now (record { scope = scope; key = key.now }) answer) }
    {
        self.asked.begin(Note::PendingKey)?;
        let nodes = self.nodes.as_slice();
        let key = key.as_str();
        answer_key(alloc, self.lower, self.homes, nodes, self.table, scope, key)
    }

    // Asks for what the answer to a key needs, and keeps the answer.
    pub(crate) fn make_answer(&mut self, alloc: Global, at: KeyAt) -> Result<KeyAnswer, NoMemory>
        ensures same { self.new.lower.ghost_name ≡ self.old.lower.ghost_name }
        ensures same_memo { self.new.memo.ghost_name ≡ self.old.memo.ghost_name }
        ensures nodes { self.new.nodes.now ≡ self.old.nodes.now }
        ensures stand { T.stand self.new.lower.now ≡ T.stand self.old.lower.now }
        ensures ok { OnOk result (self.new.asked.now ≡ notes.PendingKey ∷ self.old.asked.now) }
        ensures err { OnErr result ((self.new.asked.now ≡ self.old.asked.now)
            ⊎ (self.new.asked.now ≡ notes.PendingKey ∷ self.old.asked.now)) }
        ensures is { IfOk result (λ answer. IsAnswer (T.told self.new.lower.now)
            self.new.nodes.now at answer) }
    {
        let answer = self.ask_key(alloc, at.scope, &at.key)?;
        self.memo.keep(alloc, at, answer)
    }
}
