//! How the layer asks the reader below, each question put first without its answer.

ghost use Rattle.std.specs.Prelude.{◌≡◌, ◌∷◌, ◌⊎◌, [], IfOk, IfSome, OnErr, OnOk};
ghost use Rattle.readers.specs.Told as told_spec;
ghost use Rattle.readers.specs.declared.questions.Note.TheVariants as notes;

use crate::layer::PlanLayer;
use dita_doc::{Doc, DocKind, KeyAnswer, Name, NoMemory, Text};
use readers::{Keys, LogStart, Note};
use std::alloc::Global;
use std::sync::Arc;

impl<'r, 'q, 'm, 'd, 'n, K: Keys, S: LogStart> PlanLayer<'r, 'q, 'm, 'd, 'n, K, S> {
    pub(crate) fn ask_doc(
        &mut self,
        alloc: Global,
        name: &Name,
    ) -> Result<Option<Arc<Doc>>, NoMemory>
        ensures same { self.new.lower.ghost_name ≡ self.old.lower.ghost_name }
        ensures same_memo { self.new.memo.ghost_name ≡ self.old.memo.ghost_name }
        ensures same_docs { self.new.docs.ghost_name ≡ self.old.docs.ghost_name }
        ensures documents { self.new.documents.now ≡ self.old.documents.now }
        ensures pages { self.new.pages.now ≡ self.old.pages.now }
        ensures stand { K.stand self.new.lower.now ≡ K.stand self.old.lower.now }
        ensures ok { OnOk result (self.new.asked.now ≡ notes.PendingDocument name.now ∷ self.old.asked.now) }
        ensures err { OnErr result ((self.new.asked.now ≡ self.old.asked.now)
            ⊎ (self.new.asked.now ≡ notes.PendingDocument name.now ∷ self.old.asked.now)) }
        ensures below { IfOk result (λ found. K.told self.new.lower.now
            ≡ told_spec.document name.now (told_spec.tree_found found)
            ∷ K.told self.old.lower.now) }
        ensures origin { IfOk result (λ found. IfSome (told_spec.doc_of found)
            (λ doc. doc.origins ≡ name.now ∷ [])) }
    {
        self.asked.begin(Note::PendingDocument(name.clone()?))?;
        self.lower.doc(alloc, name)
    }

    pub(crate) fn ask_kind(&mut self, alloc: Global, name: &Name) -> Result<DocKind, NoMemory>
        ensures same { self.new.lower.ghost_name ≡ self.old.lower.ghost_name }
        ensures same_memo { self.new.memo.ghost_name ≡ self.old.memo.ghost_name }
        ensures same_docs { self.new.docs.ghost_name ≡ self.old.docs.ghost_name }
        ensures documents { self.new.documents.now ≡ self.old.documents.now }
        ensures pages { self.new.pages.now ≡ self.old.pages.now }
        ensures stand { K.stand self.new.lower.now ≡ K.stand self.old.lower.now }
        ensures ok { OnOk result (self.new.asked.now ≡ notes.Pending name.now ∷ self.old.asked.now) }
        ensures err { OnErr result ((self.new.asked.now ≡ self.old.asked.now)
            ⊎ (self.new.asked.now ≡ notes.Pending name.now ∷ self.old.asked.now)) }
        ensures below { IfOk result (λ kind. K.told self.new.lower.now
            ≡ told_spec.kind name.now kind ∷ K.told self.old.lower.now) }
    {
        self.asked.begin(Note::Pending(name.clone()?))?;
        self.lower.kind(alloc, name)
    }

    pub(crate) fn ask_title(
        &mut self,
        alloc: Global,
        name: &Name,
        topic: &Text,
    ) -> Result<Text, NoMemory>
        ensures same { self.new.lower.ghost_name ≡ self.old.lower.ghost_name }
        ensures same_memo { self.new.memo.ghost_name ≡ self.old.memo.ghost_name }
        ensures same_docs { self.new.docs.ghost_name ≡ self.old.docs.ghost_name }
        ensures documents { self.new.documents.now ≡ self.old.documents.now }
        ensures pages { self.new.pages.now ≡ self.old.pages.now }
        ensures stand { K.stand self.new.lower.now ≡ K.stand self.old.lower.now }
        ensures ok { OnOk result (self.new.asked.now ≡ notes.Pending name.now ∷ self.old.asked.now) }
        ensures err { OnErr result ((self.new.asked.now ≡ self.old.asked.now)
            ⊎ (self.new.asked.now ≡ notes.Pending name.now ∷ self.old.asked.now)) }
        ensures below { IfOk result (λ text. K.told self.new.lower.now
            ≡ told_spec.title name.now topic.now text ∷ K.told self.old.lower.now) }
    {
        self.asked.begin(Note::Pending(name.clone()?))?;
        self.lower.title(alloc, name, topic)
    }

    pub(crate) fn ask_first(&mut self, alloc: Global, name: &Name) -> Result<Text, NoMemory>
        ensures same { self.new.lower.ghost_name ≡ self.old.lower.ghost_name }
        ensures same_memo { self.new.memo.ghost_name ≡ self.old.memo.ghost_name }
        ensures same_docs { self.new.docs.ghost_name ≡ self.old.docs.ghost_name }
        ensures documents { self.new.documents.now ≡ self.old.documents.now }
        ensures pages { self.new.pages.now ≡ self.old.pages.now }
        ensures stand { K.stand self.new.lower.now ≡ K.stand self.old.lower.now }
        ensures ok { OnOk result (self.new.asked.now ≡ notes.Pending name.now ∷ self.old.asked.now) }
        ensures err { OnErr result ((self.new.asked.now ≡ self.old.asked.now)
            ⊎ (self.new.asked.now ≡ notes.Pending name.now ∷ self.old.asked.now)) }
        ensures below { IfOk result (λ id. K.told self.new.lower.now
            ≡ told_spec.first name.now id ∷ K.told self.old.lower.now) }
    {
        self.asked.begin(Note::Pending(name.clone()?))?;
        self.lower.first(alloc, name)
    }

    pub(crate) fn ask_key(
        &mut self,
        alloc: Global,
        scope: u32,
        key: &Text,
    ) -> Result<KeyAnswer, NoMemory>
        ensures same { self.new.lower.ghost_name ≡ self.old.lower.ghost_name }
        ensures same_memo { self.new.memo.ghost_name ≡ self.old.memo.ghost_name }
        ensures same_docs { self.new.docs.ghost_name ≡ self.old.docs.ghost_name }
        ensures documents { self.new.documents.now ≡ self.old.documents.now }
        ensures pages { self.new.pages.now ≡ self.old.pages.now }
        ensures stand { K.stand self.new.lower.now ≡ K.stand self.old.lower.now }
        ensures ok { OnOk result (self.new.asked.now ≡ notes.PendingKey ∷ self.old.asked.now) }
        ensures err { OnErr result ((self.new.asked.now ≡ self.old.asked.now)
            ⊎ (self.new.asked.now ≡ notes.PendingKey ∷ self.old.asked.now)) }
        ensures below { IfOk result (λ answer. K.told self.new.lower.now
            ≡ told_spec.key (K.stand self.old.lower.now).setting.nodes scope key.now answer
            ∷ K.told self.old.lower.now) }
    {
        self.asked.begin(Note::PendingKey)?;
        self.lower.key(alloc, scope, key)
    }
}
