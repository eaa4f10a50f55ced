//! Whether questions about stored documents have their recorded answers.

ghost use Rattle.std.specs.Prelude.{◌≡◌, Some, None, true, IfOk};
ghost use Rattle.std.specs.Bool.{Decides};
ghost use Rattle.dita_doc.specs.Tree.{tree_of};
ghost use Rattle.fact_judge.specs.Answer as answer_spec;
ghost use Rattle.fact_judge.specs.Judging.{HasStoodAt, WasSo};
ghost use Rattle.facts.specs.Judged.{Tells};
ghost use Rattle.map_spec.specs.Titles as titles_spec;
ghost use Rattle.reader_spec.specs.World.{world_of};
ghost use Rattle.readers.specs.Told as told_spec;

use dita_doc::{Answered, Asked, Doc, DocKind, Name, NoMemory, Question, Sources, Text};
use source_reader::KnownTitles;
use std::alloc::Global;
use std::sync::Arc;

/// What is stored. What is stored at a version of at most `since` has stood: a question about it
/// still has the answer that it had.
#[derive(Drop)]
pub(crate) struct StoredSince<'a> {
    pub sources: &'a Sources,
    pub since: u64,
}

impl<'a> StoredSince<'a> {
    /// Whether a question about a document has its recorded answer. A question about a plan has
    /// none, and an answer of another kind is none.
    pub fn is_answer(
        &self,
        alloc: Global,
        known: &mut KnownTitles<'_>,
        one: &Asked,
    ) -> Result<bool, NoMemory>
        requires known { world_of known.old.sources.now ≡ world_of self.now.sources.now }
        requires was { WasSo (λ state. answer_spec.IsAnswer (world_of state) None one.now.question
            one.now.answered) self.now.since self.now.sources.now }
        ensures known { world_of known.new.sources.now ≡ world_of known.old.sources.now }
        ensures tells { IfOk result (λ is. Tells is (answer_spec.IsAnswer
            (world_of self.now.sources.now) None one.now.question one.now.answered)) }
    {
        match &one.question {
            Question::Document(name) => match &one.answered {
                Answered::Document(found) => Ok(self.is_found(name, found)),
                _ => Ok(false),
            },
            Question::Kind(name) => match &one.answered {
                Answered::Kind(kind) => Ok(self.is_kind(known, name, *kind)),
                _ => Ok(false),
            },
            Question::Title(name, topic) => match &one.answered {
                Answered::Title(text) => self.is_title(alloc, known, name, topic, text),
                _ => Ok(false),
            },
            Question::First(name) => match &one.answered {
                Answered::First(id) => self.is_first(alloc, known, name, id),
                _ => Ok(false),
            },
            _ => Ok(false),
        }
    }

    // Whether the document that was found stands under a name, or none if none was.
    fn is_found(&self, name: &Name, found: &Option<Arc<Doc>>) -> bool
        requires { WasSo (λ state. world_of state name.now ≡ told_spec.tree_found found.now)
            self.now.since self.now.sources.now }
        ensures { Tells result
            (world_of self.now.sources.now name.now ≡ told_spec.tree_found found.now) }
    {
        match found {
            Some(found) => self.is_same(name, found),
            None => self.is_absent(name),
        }
    }

    fn is_absent(&self, name: &Name) -> bool
        ensures { Tells result (world_of self.now.sources.now name.now ≡ None) }
    {
        self.sources.get(name).is_none()
    }

    // Whether a document with the tree of this one stands under a name.
    fn is_same(&self, name: &Name, found: &Doc) -> bool
        requires { WasSo (λ state. world_of state name.now ≡ Some (tree_of found.now.nodes))
            self.now.since self.now.sources.now }
        ensures { Tells result
            (world_of self.now.sources.now name.now ≡ Some (tree_of found.now.nodes)) }
    {
        let Some((version, doc)) = self.sources.get(name) else {
            return false;
        };
        if version <= self.since {
            return true;
        }
        are_same(doc, found)
    }

    fn is_kind(&self, known: &KnownTitles<'_>, name: &Name, kind: DocKind) -> bool
        requires known { world_of known.now.sources.now ≡ world_of self.now.sources.now }
        requires was { WasSo (λ state. titles_spec.kind_in (world_of state) name.now ≡ kind)
            self.now.since self.now.sources.now }
        ensures { Tells result
            (titles_spec.kind_in (world_of self.now.sources.now) name.now ≡ kind) }
    {
        if self.has_stood(name) {
            return true;
        }
        let given = known.kind(name);
        given == kind
    }

    fn is_title(
        &self,
        alloc: Global,
        known: &mut KnownTitles<'_>,
        name: &Name,
        topic: &Text,
        text: &Text,
    ) -> Result<bool, NoMemory>
        requires known { world_of known.old.sources.now ≡ world_of self.now.sources.now }
        requires was { WasSo (λ state. titles_spec.title_in (world_of state) name.now topic.now
            ≡ text.now) self.now.since self.now.sources.now }
        ensures known { world_of known.new.sources.now ≡ world_of known.old.sources.now }
        ensures tells { IfOk result (λ is. Tells is (titles_spec.title_in
            (world_of self.now.sources.now) name.now topic.now ≡ text.now)) }
    {
        if self.has_stood(name) {
            return Ok(true);
        }
        let given = known.title(alloc, name, topic)?;
        Ok(given == *text)
    }

    fn is_first(
        &self,
        alloc: Global,
        known: &KnownTitles<'_>,
        name: &Name,
        id: &Text,
    ) -> Result<bool, NoMemory>
        requires known { world_of known.now.sources.now ≡ world_of self.now.sources.now }
        requires was { WasSo (λ state. titles_spec.first_in (world_of state) name.now ≡ id.now)
            self.now.since self.now.sources.now }
        ensures { IfOk result (λ is. Tells is
            (titles_spec.first_in (world_of self.now.sources.now) name.now ≡ id.now)) }
    {
        if self.has_stood(name) {
            return Ok(true);
        }
        let given = known.first(alloc, name)?;
        Ok(given == *id)
    }

    fn has_stood(&self, name: &Name) -> bool
        ensures { result ≡ true → HasStoodAt self.now.since self.now.sources.now name.now }
    {
        match self.sources.get(name) {
            Some((version, _)) => version <= self.since,
            None => false,
        }
    }
}

// Whether two documents have the same nodes: as many, and then each the same.
fn are_same(one: &Doc, other: &Doc) -> bool
    ensures { Decides result (one.now.nodes ≡ other.now.nodes) }
{
    one.nodes.len() == other.nodes.len() && one.nodes == other.nodes
}

/// Whether each of some questions about documents has its recorded answer; the first that has
/// another decides.
pub(crate) fn are_stored_answers(
    alloc: Global,
    stored: &StoredSince<'_>,
    known: &mut KnownTitles<'_>,
    asked: &[Asked],
) -> Result<bool, NoMemory>
    requires known { world_of known.old.sources.now ≡ world_of stored.now.sources.now }
    requires was { WasSo (λ state. answer_spec.AreAnswers (world_of state) None asked.now)
        stored.now.since stored.now.sources.now }
    ensures known { world_of known.new.sources.now ≡ world_of known.old.sources.now }
    ensures tells { IfOk result (λ are. Tells are (answer_spec.AreAnswers
        (world_of stored.now.sources.now) None asked.now)) }
{
    for one in asked {
        if !stored.is_answer(alloc, known, one)? {
            return Ok(false);
        }
    }
    Ok(true)
}
