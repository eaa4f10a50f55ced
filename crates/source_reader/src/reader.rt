//! A reader over the stored sources.

ghost use Rattle.std.specs.Prelude.{◌≡◌, []};
ghost use Rattle.readers.specs.Props.{Agrees-prop};
ghost use Rattle.source_reader.specs.Kinds as kinds_spec;
ghost use Rattle.source_reader.specs.Stored as stored_spec;

use crate::known_titles::KnownTitles;
use dita_doc::{Doc, DocKind, Name, NoMemory, Text};
use readers::{Note, Questions, Reader, Titles};
use std::alloc::Global;
use std::sync::Arc;

/// A reader over sources, which were made for no map and no plan. `agrees` says that the sources give
/// each answer that was told, and `kinds` that no question was put that wants a plan.
#[derive(Drop)]
pub struct SourceReader<'a> {
    known: KnownTitles<'a>,
    asked: Questions,
    ghost agrees: { stored_spec.AreAnswers known.sources.now asked } by { Prim.hlevel Agrees-prop },
    ghost kinds: { kinds_spec.AreOfPlanKind asked },
}

impl<'a> SourceReader<'a> {
    /// Nothing was asked.
    pub fn new(alloc: Global, known: KnownTitles<'a>) -> Self
        ensures sources { result.known.sources.now ≡ known.entry.sources.now }
        ensures asked { result.asked ≡ [] }
    {
        SourceReader {
            known,
            asked: Questions::new(alloc),
        }
    }

    /// The questions that it was asked, and the titles that it knows.
    pub fn into_asked(self) -> (Questions, KnownTitles<'a>)
        ensures asked { result.0 ≡ self.entry.asked }
        ensures kinds { kinds_spec.AreOfPlanKind result.0 }
        ensures sources { result.1.sources.now ≡ self.entry.known.sources.now }
    {
        let SourceReader { known, asked, .. } = self;
        (asked, known)
    }
}

impl<'a> Reader for SourceReader<'a> {
    ghost use Rattle.std.specs.Prelude.{[]};
    ghost use Rattle.reader_spec.specs.World.{world_of};
    ghost use Rattle.readers.specs.Setting as setting_spec;
    ghost use Rattle.source_reader.specs.Stored as stored_spec;

    ghost stand = { λ r. record {
      world = world_of r.known.sources.now;
      setting = setting_spec.no_setting;
      lent = [];
    } };

    ghost told = { λ r. stored_spec.told_alone r.asked };

    ghost agrees = { λ r. r.agrees };

    fn doc(&mut self, alloc: Global, name: &Name) -> Result<Option<Arc<Doc>>, NoMemory> {
        let found = self.known.doc(name)?;
        let note = Note::document(name, &found)?;
        self.asked.begin(note)?;
        Ok(found)
    }
}

impl<'a> Titles for SourceReader<'a> {
    fn kind(&mut self, alloc: Global, name: &Name) -> Result<DocKind, NoMemory> {
        let kind = self.known.kind(name);
        let note = Note::kind(name, kind)?;
        self.asked.begin(note)?;
        Ok(kind)
    }

    fn title(&mut self, alloc: Global, name: &Name, topic: &Text) -> Result<Text, NoMemory> {
        let text = self.known.title(alloc, name, topic)?;
        let note = Note::title(name, topic, &text)?;
        self.asked.begin(note)?;
        Ok(text)
    }

    fn first(&mut self, alloc: Global, name: &Name) -> Result<Text, NoMemory> {
        let id = self.known.first(alloc, name)?;
        let note = Note::first(name, &id)?;
        self.asked.begin(note)?;
        Ok(id)
    }
}
