//! Titles that were made, each under its document and topic.

ghost use Rattle.std.specs.Prelude.{◌≡◌, [], IfOk, IfSome, OnErr};
ghost use Rattle.map_spec.specs.Titles as titles_spec;
ghost use Rattle.reader_spec.specs.World.{World};
ghost use Rattle.readers.specs.Titled as spec;

use dita_doc::{Name, NoMemory, Text};
use std::alloc::Global;
use std::collections::BTreeMap;
use std::marker::Model;

/// A topic of a document; the empty text names no topic.
#[derive(PartialEq, Eq, PartialOrd, Ord, Drop)]
pub struct TitleKey {
    pub name: Name,
    pub topic: Text,
}

impl TitleKey {
    pub fn new(name: &Name, topic: &Text) -> Result<TitleKey, NoMemory>
        ensures name { IfOk result (λ at. at.name ≡ name.now) }
        ensures topic { IfOk result (λ at. at.topic ≡ topic.now) }
    {
        Ok(TitleKey {
            name: name.clone()?,
            topic: topic.clone()?,
        })
    }
}

/// Titles, by their topics.
#[derive(Drop)]
pub struct TitleTable {
    titles: BTreeMap<TitleKey, Text>,
}

impl Model for TitleTable {
    ghost use Rattle.std.specs.Prelude.{List};
    ghost use Rattle.readers.specs.Titled as titled_spec;

    ghost Value = { List titled_spec.Titled };

    ghost view = { λ table. table.titles.entries };
}

impl TitleTable {
    pub fn new(alloc: Global) -> Self
        ensures { result ≡ [] }
    {
        TitleTable {
            titles: BTreeMap::new(alloc),
        }
    }

    /// The title of a topic, if it is there.
    pub fn find(&self, topic: &TitleKey) -> Option<&Text>
        ensures { (world : World) → spec.AreTitles world self.now → IfSome result (λ text.
            titles_spec.title_in world topic.now.name topic.now.topic ≡ text.now) }
    {
        self.titles.get(topic)
    }

    /// Puts the title of a topic. Without memory the table stays as it was.
    pub fn put(&mut self, topic: TitleKey, text: Text) -> Result<(), NoMemory>
        ensures titles { (world : World) → spec.AreTitles world self.old
            → titles_spec.title_in world topic.name topic.topic ≡ text
            → spec.AreTitles world self.new }
        ensures err { OnErr result (self.new ≡ self.old) }
    {
        let _ = self.titles.insert(topic, text)?;
        Ok(())
    }
}
