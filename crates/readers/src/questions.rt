//! The questions that a reader was asked, seen by contracts the newest first.

ghost use Rattle.std.specs.Prelude.{◌≡◌, ◌<◌, ◌⊎◌, [], ◌∷◌, length, drop, reverse, IfOk, OnErr, OnOk};
ghost use Rattle.readers.specs.Noted as noted_spec;
ghost use Rattle.readers.specs.Setting.{Setting};
ghost use Rattle.readers.specs.Told as told_spec;

use dita_doc::{Answered, Asked, Doc, DocKind, KeyAnswer, List, Name, NoMemory, Question, Text};
use std::alloc::{AllocError, Global};
use std::marker::Model;
use std::sync::Arc;

/// A question as a reader keeps it. A build puts most of those that have a form of their own, so that
/// they take little room.
#[derive(Drop)]
pub enum Note {
    /// A document, as it was found.
    Document(Name, Option<Arc<Doc>>),
    /// What a document is.
    Kind(Name, DocKind),
    /// The title of a topic of a document.
    Title(Name, Text, Text),
    /// The id of a document's first topic.
    First(Name, Text),
    /// Another question, which has its answer.
    Answer(Box<Asked>),
    /// It is about this document, and has no answer yet.
    Pending(Name),
    /// It asks for this document as a whole, and has no answer yet.
    PendingDocument(Name),
    /// It is about a key, for which the documents of all nodes may be asked, and has no answer yet.
    PendingKey,
}

impl Note {
    /// The question for a document, with its answer.
    pub fn document(name: &Name, found: &Option<Arc<Doc>>) -> Result<Note, NoMemory>
        ensures { IfOk result (λ note. (setting : Setting) → noted_spec.told_of setting note
            ≡ told_spec.document name.now (told_spec.tree_found found.now)) }
    {
        Ok(Note::Document(name.clone()?, share(found)?))
    }

    pub fn kind(name: &Name, kind: DocKind) -> Result<Note, NoMemory>
        ensures { IfOk result (λ note. (setting : Setting) → noted_spec.told_of setting note
            ≡ told_spec.kind name.now kind) }
    {
        Ok(Note::Kind(name.clone()?, kind))
    }

    pub fn title(name: &Name, topic: &Text, text: &Text) -> Result<Note, NoMemory>
        ensures { IfOk result (λ note. (setting : Setting) → noted_spec.told_of setting note
            ≡ told_spec.title name.now topic.now text.now) }
    {
        Ok(Note::Title(name.clone()?, topic.clone()?, text.clone()?))
    }

    pub fn first(name: &Name, id: &Text) -> Result<Note, NoMemory>
        ensures { IfOk result (λ note. (setting : Setting) → noted_spec.told_of setting note
            ≡ told_spec.first name.now id.now) }
    {
        Ok(Note::First(name.clone()?, id.clone()?))
    }

    /// The question for a key in the scope of this place, with its answer.
    pub fn key(alloc: Global, scope: u32, key: &Text, answer: KeyAnswer) -> Result<Note, NoMemory>
        ensures { IfOk result (λ note. (setting : Setting) → noted_spec.told_of setting note
            ≡ told_spec.key setting.nodes scope key.now answer) }
    {
        let asked = Asked {
            question: Question::Key(scope, key.clone()?),
            answered: Answered::Key(answer),
        };
        Ok(Note::Answer(Box::new(alloc, asked)?))
    }

    /// The question with its answer, if it has one.
    fn into_asked(self) -> Option<Asked>
        ensures { result ≡ noted_spec.if_answered self }
    {
        let (question, answered) = match self {
            Note::Document(name, found) => (Question::Document(name), Answered::Document(found)),
            Note::Kind(name, kind) => (Question::Kind(name), Answered::Kind(kind)),
            Note::Title(name, topic, text) => (Question::Title(name, topic), Answered::Title(text)),
            Note::First(name, id) => (Question::First(name), Answered::First(id)),
            Note::Answer(asked) => return Some(Box::into_inner(asked)),
            Note::Pending(_) | Note::PendingDocument(_) | Note::PendingKey => return None,
        };
        Some(Asked { question, answered })
    }
}

/// A share of a document that was found, which is not copied.
pub fn share(found: &Option<Arc<Doc>>) -> Result<Option<Arc<Doc>>, AllocError>
    ensures { IfOk result (λ copy. told_spec.doc_of copy ≡ told_spec.doc_of found.now) }
{
    match found {
        Some(doc) => Ok(Some(Arc::try_clone(doc)?)),
        None => Ok(None),
    }
}

/// The questions in the order in which they were put.
#[derive(Drop)]
pub struct Questions {
    oldest_first: Vec<Note>,
}

impl Model for Questions {
    ghost use Rattle.std.specs.Prelude.{List, reverse};
    ghost use Rattle.readers.specs.declared.questions.Note.{Note};

    ghost Value = { List Note };

    ghost view = { λ q. reverse q.oldest_first.items };
}

impl Questions {
    pub fn new(alloc: Global) -> Self
        ensures { result ≡ [] }
    {
        Questions {
            oldest_first: Vec::new(alloc),
        }
    }

    /// Puts a question. Without memory the list stays as it was.
    pub fn begin(&mut self, note: Note) -> Result<(), AllocError>
        ensures ok { OnOk result (self.new ≡ note ∷ self.old) }
        ensures err { OnErr result (self.new ≡ self.old) }
        ensures either { (self.new ≡ self.old) ⊎ (self.new ≡ note ∷ self.old) }
    {
        self.oldest_first.push(note)?;
        Ok(())
    }

    /// Writes over the question that was put last. It takes no memory.
    pub fn settle(&mut self, note: Note)
        requires { 0 < length self.old }
        ensures { self.new ≡ note ∷ drop 1 self.old }
    {
        let last = self.oldest_first.len() - 1;
        self.oldest_first[last] = note;
    }

    /// The questions that have their answers, the oldest first.
    pub fn into_answered(self, alloc: Global) -> Result<List<Asked>, NoMemory>
        ensures { IfOk result (λ list. list ≡ noted_spec.answered_of (reverse self)) }
    {
        let Questions { oldest_first } = self;
        let mut answered = List::new(alloc);
        for note in oldest_first {
            if let Some(asked) = note.into_asked() {
                answered.push(asked)?;
            }
        }
        Ok(answered)
    }
}
