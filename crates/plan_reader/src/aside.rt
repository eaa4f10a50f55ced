//! A reader of documents and titles beside another, whose questions are let go.

ghost use Rattle.readers.specs.Props.{Agrees-prop};
ghost use Rattle.source_reader.specs.Stored as stored_spec;

use dita_doc::{Doc, DocKind, Name, NoMemory, Text};
use readers::{Note, Questions, Reader, Titles};
use source_reader::KnownTitles;
use std::alloc::Global;
use std::sync::Arc;

/// A reader over sources with titles that are lent to it. It was made for no map and no plan. What
/// it is asked is put into a list that is lent to it too.
#[derive(Drop)]
pub(crate) struct AsideReader<'k, 'q, 'a> {
    pub known: &'k mut KnownTitles<'a>,
    pub asked: &'q mut Questions,
    pub ghost agreed: { stored_spec.AreAnswers known.now.sources.now asked.now } by { Prim.hlevel Agrees-prop },
}

impl<'k, 'q, 'a> Reader for AsideReader<'k, 'q, 'a> {
    ghost use Rattle.std.specs.Prelude.{[], ◌∷◌};
    ghost use Rattle.reader_spec.specs.World.{world_of};
    ghost use Rattle.readers.specs.Setting as setting_spec;
    ghost use Rattle.source_reader.specs.Stored as stored_spec;

    ghost stand = { λ r. record {
      world = world_of r.known.now.sources.now;
      setting = setting_spec.no_setting;
      lent = r.known.ghost_name ∷ r.asked.ghost_name ∷ [];
    } };

    ghost told = { λ r. stored_spec.told_alone r.asked.now };

    ghost agrees = { λ r. r.agreed };

    fn doc(&mut self, alloc: Global, name: &Name) -> Result<Option<Arc<Doc>>, NoMemory> {
        let found = self.known.doc(name)?;
        let note = Note::document(name, &found)?;
        self.asked.begin(note)?;
        Ok(found)
    }
}

impl<'k, 'q, 'a> Titles for AsideReader<'k, 'q, 'a> {
    fn kind(&mut self, alloc: Global, name: &Name) -> Result<DocKind, NoMemory> {
        let kind = self.known.kind(name);
        let note = Note::kind(name, kind)?;
        self.asked.begin(note)?;
        Ok(kind)
    }

    fn title(&mut self, alloc: Global, name: &Name, topic: &Text) -> Result<Text, NoMemory> {
        let text = self.known.title(alloc, name, topic)?;
        let note = Note::title(name, topic, &text)?;
        self.asked.begin(note)?;
        Ok(text)
    }

    fn first(&mut self, alloc: Global, name: &Name) -> Result<Text, NoMemory> {
        let id = self.known.first(alloc, name)?;
        let note = Note::first(name, &id)?;
        self.asked.begin(note)?;
        Ok(id)
    }
}
