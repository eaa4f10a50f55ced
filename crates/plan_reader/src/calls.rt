//! The calls of the reader for documents, titles and keys. Each puts its question once, with its
//! answer.

ghost use Rattle.std.specs.Prelude.{◌≡◌, IfOk};
ghost use Rattle.map_spec.specs.Keys as keys_spec;
ghost use Rattle.plan_reader.specs.Keyed.{AreKeyed};
ghost use Rattle.reader_spec.specs.World.{world_of};
ghost use Rattle.readers.specs.Noted as noted_spec;
ghost use Rattle.readers.specs.Setting.{Setting};
ghost use Rattle.readers.specs.Told as told_spec;

use crate::aside::AsideReader;
use crate::reader::PlanReader;
use crate::tables::PlanTables;
use dita_doc::{Doc, DocKind, KeyAnswer, List, Name, NoMemory, PlanNode, Text};
use key_answers::answer_key;
use readers::{Keys, Note, Questions, Reader, Titles};
use source_reader::KnownTitles;
use std::alloc::Global;
use std::sync::Arc;
use targets::copy_answer;

impl<'a, 'n> Reader for PlanReader<'a, 'n> {
    ghost use Rattle.std.specs.Prelude.{[]};
    ghost use Rattle.plan_reader.specs.Made as made_spec;
    ghost use Rattle.reader_spec.specs.World.{world_of};

    ghost stand = { λ r. record {
      world = world_of r.known.sources.now;
      setting = made_spec.made_for r.nodes.now r.documents.now r.pages.now;
      lent = [];
    } };

    ghost told = { λ r. made_spec.told_for r.nodes.now r.documents.now r.pages.now r.asked };

    ghost agrees = { λ r. r.agreed };

    fn doc(&mut self, alloc: Global, name: &Name) -> Result<Option<Arc<Doc>>, NoMemory> {
        let found = self.known.doc(name)?;
        let note = Note::document(name, &found)?;
        self.asked.begin(note)?;
        Ok(found)
    }
}

impl<'a, 'n> Titles for PlanReader<'a, 'n> {
    fn kind(&mut self, alloc: Global, name: &Name) -> Result<DocKind, NoMemory> {
        let kind = self.known.kind(name);
        let note = Note::kind(name, kind)?;
        self.asked.begin(note)?;
        Ok(kind)
    }

    fn title(&mut self, alloc: Global, name: &Name, topic: &Text) -> Result<Text, NoMemory> {
        let text = self.known.title(alloc, name, topic)?;
        let note = Note::title(name, topic, &text)?;
        self.asked.begin(note)?;
        Ok(text)
    }

    fn first(&mut self, alloc: Global, name: &Name) -> Result<Text, NoMemory> {
        let id = self.known.first(alloc, name)?;
        let note = Note::first(name, &id)?;
        self.asked.begin(note)?;
        Ok(id)
    }
}

impl<'a, 'n> Keys for PlanReader<'a, 'n> {
    fn key(&mut self, alloc: Global, scope: u32, key: &Text) -> Result<KeyAnswer, NoMemory> {
        let answer = answer_aside(alloc, &mut self.known, self.nodes, self.tables, scope, key)?;
        let note = key_note(alloc, scope, key, &answer)?;
        self.asked.begin(note)?;
        Ok(answer)
    }
}

/// What a key gives in a scope of a plan, by elements and scopes that are right over the sources of
/// these titles. It is found by a reader whose questions are let go.
pub fn answer_aside<'a>(
    alloc: Global,
    known: &mut KnownTitles<'a>,
    nodes: &List<PlanNode>,
    tables: &PlanTables,
    scope: u32,
    key: &Text,
) -> Result<KeyAnswer, NoMemory>
    requires { AreKeyed (world_of known.old.sources.now) nodes.now tables.now.homes
        tables.now.scopes }
    ensures world { world_of known.new.sources.now ≡ world_of known.old.sources.now }
    ensures value { IfOk result (λ answer. keys_spec.key_answer (world_of known.old.sources.now)
        nodes.now scope key.now ≡ answer) }
{
    let mut asked = Questions::new(alloc);
    let mut aside = AsideReader {
        known,
        asked: &mut asked,
    };
    answer_under(alloc, &mut aside, nodes, tables, scope, key)
}

// What the reader aside says of the sources.
fn answer_under<'k, 'q, 'a>(
    alloc: Global,
    aside: &mut AsideReader<'k, 'q, 'a>,
    nodes: &List<PlanNode>,
    tables: &PlanTables,
    scope: u32,
    key: &Text,
) -> Result<KeyAnswer, NoMemory>
    requires { AreKeyed (world_of aside.old.known.now.sources.now) nodes.now tables.now.homes
        tables.now.scopes }
    ensures same { aside.new.known.ghost_name ≡ aside.old.known.ghost_name }
    ensures world { world_of aside.new.known.now.sources.now
        ≡ world_of aside.old.known.now.sources.now }
    ensures value { IfOk result (λ answer.
        keys_spec.key_answer (world_of aside.old.known.now.sources.now) nodes.now scope key.now
        ≡ answer) }
{
    let nodes = nodes.as_slice();
    let key = key.as_str();
    answer_key(
        alloc,
        aside,
        &tables.homes,
        nodes,
        &tables.scopes,
        scope,
        key,
    )
}

// The question for a key, with a copy of its answer.
fn key_note(alloc: Global, scope: u32, key: &Text, answer: &KeyAnswer) -> Result<Note, NoMemory>
    ensures { IfOk result (λ note. (setting : Setting) → noted_spec.told_of setting note
        ≡ told_spec.key setting.nodes scope key.now answer.now) }
{
    Note::key(alloc, scope, key, copy_answer(alloc, answer)?)
}
