//! What is stored, with the titles that were made. Nothing that it answers is told.

ghost use Rattle.std.specs.Prelude.{◌≡◌, [], ◌∷◌, IfOk, IfSome};
ghost use Rattle.map_spec.specs.Titles as titles_spec;
ghost use Rattle.reader_spec.specs.World.{world_of};
ghost use Rattle.readers.specs.Titled.{AreTitles, AreTitles-prop};
ghost use Rattle.readers.specs.Told as told_spec;

use dita_doc::{Doc, DocKind, Name, NoMemory, Sources, Text};
use doc_titles::{first_of, kind_of, title_of};
use readers::{TitleKey, TitleTable};
use std::alloc::Global;
use std::sync::Arc;

/// Sources, and titles of their documents. No question is kept here, so that it outlives them.
#[derive(Drop)]
pub struct KnownTitles<'a> {
    sources: &'a Sources,
    table: TitleTable,
    ghost titles: { AreTitles (world_of sources.now) table } by { Prim.hlevel AreTitles-prop },
}

impl<'a> KnownTitles<'a> {
    /// No title is known.
    pub fn new(alloc: Global, sources: &'a Sources) -> Self
        ensures { result.sources.now ≡ sources.now }
    {
        KnownTitles {
            sources,
            table: TitleTable::new(alloc),
        }
    }

    /// These titles are known, which are right over the sources. It takes no memory.
    pub fn with_titles(sources: &'a Sources, table: TitleTable) -> Self
        requires { AreTitles (world_of sources.now) table }
        ensures { result.sources.now ≡ sources.now }
    {
        KnownTitles { sources, table }
    }

    /// The titles that are known, without the sources.
    pub fn into_titles(self) -> TitleTable
        ensures { AreTitles (world_of self.entry.sources.now) result }
    {
        let KnownTitles { table, .. } = self;
        table
    }

    /// The document that stands under a name, if one does. It is shared, and not copied, which no
    /// clause says.
    pub fn doc(&self, name: &Name) -> Result<Option<Arc<Doc>>, NoMemory>
        ensures value { IfOk result (λ found.
            told_spec.tree_found found ≡ world_of self.now.sources.now name.now) }
        ensures origin { IfOk result (λ found. IfSome (told_spec.doc_of found)
            (λ doc. doc.origins ≡ name.now ∷ [])) }
    {
        match self.sources.get(name) {
            Some((_, doc)) => Ok(Some(Arc::try_clone(doc)?)),
            None => Ok(None),
        }
    }

    /// What the document is.
    pub fn kind(&self, name: &Name) -> DocKind
        ensures { titles_spec.kind_in (world_of self.now.sources.now) name.now ≡ result }
    {
        match self.sources.get(name) {
            Some((_, doc)) => kind_of(doc),
            None => DocKind::Absent,
        }
    }

    /// The title of a topic, from the table or else from its document; the empty text names no topic.
    pub fn title(&mut self, alloc: Global, name: &Name, topic: &Text) -> Result<Text, NoMemory>
        ensures sources { self.new.sources.now ≡ self.old.sources.now }
        ensures value { IfOk result (λ text.
            titles_spec.title_in (world_of self.old.sources.now) name.now topic.now ≡ text) }
    {
        let at = TitleKey::new(name, topic)?;
        if let Some(known) = self.table.find(&at) {
            return Ok(known.clone()?);
        }
        let text = title_in(alloc, self.sources, name, topic)?;
        self.table.put(at, text.clone()?)?;
        Ok(text)
    }

    /// The id of the document's first topic; empty if there is none.
    pub fn first(&self, alloc: Global, name: &Name) -> Result<Text, NoMemory>
        ensures { IfOk result (λ id.
            titles_spec.first_in (world_of self.now.sources.now) name.now ≡ id) }
    {
        match self.sources.get(name) {
            Some((_, doc)) => first_of(alloc, doc),
            None => Ok(Text::new(alloc)),
        }
    }
}

fn title_in(alloc: Global, sources: &Sources, name: &Name, topic: &Text) -> Result<Text, NoMemory>
    ensures { IfOk result (λ text.
        titles_spec.title_in (world_of sources.now) name.now topic.now ≡ text) }
{
    match sources.get(name) {
        Some((_, doc)) => title_of(alloc, doc, name, topic),
        None => Ok(Text::from_str(alloc, name.as_str())?),
    }
}
