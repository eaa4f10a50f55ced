//! The layer, and its calls.

ghost use Rattle.std.specs.Prelude.{◌≡◌, ◌∷◌, ◌⊎◌, [], IfOk, IfSome, OnErr, OnOk};
ghost use Rattle.map_spec.specs.Titles as titles_spec;
ghost use Rattle.reader_spec.specs.World.{World};
ghost use Rattle.readers.specs.Founded.{Carries, Grows};
ghost use Rattle.readers.specs.Noted as noted_spec;
ghost use Rattle.readers.specs.Props.{Carries-prop, Knows-prop, Stand-set};
ghost use Rattle.readers.specs.Setting.{Setting};
ghost use Rattle.readers.specs.Titled.{AreTitles, AreTitles-prop};
ghost use Rattle.readers.specs.Told as told_spec;
ghost use Rattle.readers.specs.Told.{Knows};
ghost use Rattle.readers.specs.declared.questions.Note.TheVariants as notes;

use crate::found::{first_found, kind_found, title_found};
use dita_doc::{Doc, DocKind, Name, NoMemory, Text};
use readers::{LogStart, Note, Questions, Reader, TitleKey, TitleTable, Titles};
use std::alloc::Global;
use std::marker::PhantomData;
use std::sync::Arc;

/// Titles over a reader of documents. Each is made once, and then told from the table. Its own
/// questions begin behind those that the reader below had been told at the start.
///
/// `carried` says that what the reader below was told carries what the layer tells, and `grown`
/// that it only grows from the start; so what holds of the layer's questions holds below.
#[derive(Drop)]
pub struct TitleLayer<'r, 'q, 't, R: Reader, S: LogStart> {
    pub lower: &'r mut R,
    pub asked: &'q mut Questions,
    pub table: &'t mut TitleTable,
    pub since: PhantomData<S>,
    pub ghost known: { Knows (R.told lower.now)
        (λ world. AreTitles world table.now) } by { Knows-prop (R.told lower.now)
            (λ world. AreTitles world table.now) (λ world. AreTitles-prop world table.now) },
    pub ghost carried: { Carries (R.told lower.now)
        (noted_spec.told_onto S.stand.setting S.told asked.now) } by { Carries-prop
            (R.told lower.now)
            (noted_spec.told_onto S.stand.setting S.told asked.now) },
    pub ghost stand: { R.stand lower.now ≡ S.stand } by { Stand-set (R.stand lower.now) S.stand },
    pub ghost grown: { Grows S.told (R.told lower.now) },
}

impl<'r, 'q, 't, R: Reader, S: LogStart> TitleLayer<'r, 'q, 't, R, S> {
    // Puts the document as tried, and asks the reader below for it.
    fn ask(&mut self, alloc: Global, name: &Name) -> Result<Option<Arc<Doc>>, NoMemory>
        ensures same { self.new.lower.ghost_name ≡ self.old.lower.ghost_name }
        ensures same_table { self.new.table.ghost_name ≡ self.old.table.ghost_name }
        ensures stand { R.stand self.new.lower.now ≡ R.stand self.old.lower.now }
        ensures ok { OnOk result (self.new.asked.now ≡ notes.Pending name.now ∷ self.old.asked.now) }
        ensures err { OnErr result ((self.new.asked.now ≡ self.old.asked.now)
            ⊎ (self.new.asked.now ≡ notes.Pending name.now ∷ self.old.asked.now)) }
        ensures below { IfOk result (λ found. R.told self.new.lower.now
            ≡ told_spec.document name.now (told_spec.tree_found found)
            ∷ R.told self.old.lower.now) }
        ensures origin { IfOk result (λ found. IfSome (told_spec.doc_of found)
            (λ doc. doc.origins ≡ name.now ∷ [])) }
    {
        self.asked.begin(Note::Pending(name.clone()?))?;
        self.lower.doc(alloc, name)
    }

    // Makes the title of a topic from its document, and keeps it. Its document is put as tried.
    fn make_title(
        &mut self,
        alloc: Global,
        name: &Name,
        topic: &Text,
        at: TitleKey,
    ) -> Result<Text, NoMemory>
        requires name { at.name ≡ name.now }
        requires topic { at.topic ≡ topic.now }
        ensures same { self.new.lower.ghost_name ≡ self.old.lower.ghost_name }
        ensures same_table { self.new.table.ghost_name ≡ self.old.table.ghost_name }
        ensures stand { R.stand self.new.lower.now ≡ R.stand self.old.lower.now }
        ensures ok { OnOk result (self.new.asked.now ≡ notes.Pending name.now ∷ self.old.asked.now) }
        ensures err { OnErr result ((self.new.asked.now ≡ self.old.asked.now)
            ⊎ (self.new.asked.now ≡ notes.Pending name.now ∷ self.old.asked.now)) }
        ensures known { IfOk result (λ text. Knows (R.told self.new.lower.now)
            (λ world. titles_spec.title_in world name.now topic.now ≡ text)) }
    {
        let found = self.ask(alloc, name)?;
        let text = title_found(alloc, &found, name, topic)?;
        let copy = text.clone()?;
        self.table.put(at, copy)?;
        Ok(text)
    }
}

impl<'r, 'q, 't, R: Reader, S: LogStart> Reader for TitleLayer<'r, 'q, 't, R, S> {
    ghost use Rattle.std.specs.Prelude.{◌∷◌};
    ghost use Rattle.readers.specs.Noted as noted_spec;

    ghost stand = { λ l. record (R.stand l.lower.now) {
      lent = l.lower.ghost_name ∷ l.table.ghost_name ∷ (R.stand l.lower.now).lent;
    } };

    ghost told = { λ l. noted_spec.told_onto S.stand.setting S.told l.asked.now };

    ghost agrees = { λ l. l.carried.agrees (R.stand l.lower.now).world (R.agrees l.lower.now) };

    fn doc(&mut self, alloc: Global, name: &Name) -> Result<Option<Arc<Doc>>, NoMemory> {
        let found = self.ask(alloc, name)?;
        let note = Note::document(name, &found)?;
        self.asked.settle(note);
        Ok(found)
    }
}

impl<'r, 'q, 't, R: Reader, S: LogStart> Titles for TitleLayer<'r, 'q, 't, R, S> {
    fn kind(&mut self, alloc: Global, name: &Name) -> Result<DocKind, NoMemory> {
        let found = self.ask(alloc, name)?;
        let kind = kind_found(&found);
        let note = Note::kind(name, kind)?;
        self.asked.settle(note);
        Ok(kind)
    }

    fn title(&mut self, alloc: Global, name: &Name, topic: &Text) -> Result<Text, NoMemory> {
        let at = TitleKey::new(name, topic)?;
        if let Some(text) = known_title(self.table, &at)? {
            let (note, text) = noted(name, topic, text)?;
            return tell(self.asked, note, text);
        }
        let text = self.make_title(alloc, name, topic, at)?;
        let (note, text) = noted(name, topic, text)?;
        self.asked.settle(note);
        Ok(text)
    }

    fn first(&mut self, alloc: Global, name: &Name) -> Result<Text, NoMemory> {
        let found = self.ask(alloc, name)?;
        let id = first_found(alloc, &found)?;
        let note = Note::first(name, &id)?;
        self.asked.settle(note);
        Ok(id)
    }
}

// A copy of the title of a topic, if it is known.
fn known_title(table: &TitleTable, at: &TitleKey) -> Result<Option<Text>, NoMemory>
    ensures { (world : World) → AreTitles world table.now → IfOk result (λ found.
        IfSome found (λ text. titles_spec.title_in world at.now.name at.now.topic ≡ text)) }
{
    match table.find(at) {
        Some(known) => Ok(Some(known.clone()?)),
        None => Ok(None),
    }
}

// A title, behind the question for it.
fn noted(name: &Name, topic: &Text, text: Text) -> Result<(Note, Text), NoMemory>
    ensures note { IfOk result (λ both. (setting : Setting) → noted_spec.told_of setting both.0
        ≡ told_spec.title name.now topic.now text) }
    ensures text { IfOk result (λ both. both.1 ≡ text) }
{
    let note = Note::title(name, topic, &text)?;
    Ok((note, text))
}

// Gives the title once its question has been put.
fn tell(asked: &mut Questions, note: Note, text: Text) -> Result<Text, NoMemory>
    ensures ok { OnOk result (asked.new ≡ note ∷ asked.old) }
    ensures either { (asked.new ≡ asked.old) ⊎ (asked.new ≡ note ∷ asked.old) }
    ensures text { IfOk result (λ told. told ≡ text) }
{
    asked.begin(note)?;
    Ok(text)
}
