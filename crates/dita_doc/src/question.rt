//! What is asked of documents while a build is made, and what is answered.

use crate::content::{KeyAnswer, Push};
use crate::doc::Doc;
use crate::fault::Fault;
use crate::list::List;
use crate::name::Name;
use crate::plan::Context;
use crate::text::Text;
use std::sync::Arc;

/// What a document is, by its root.
#[derive(Clone, Copy, Debug, PartialEq, Eq)]
pub enum DocKind {
    /// It is not stored.
    Absent,
    Topic,
    /// Its root is the element `dita`.
    Dita,
    Map,
    Other,
}

/// A question about documents, about the keys of a plan's nodes, or about a plan.
#[derive(Drop)]
pub enum Question {
    Document(Name),
    Kind(Name),
    /// The title of a topic of a document; the empty text names no topic.
    Title(Name, Text),
    /// The id of a document's first topic.
    First(Name),
    /// A key, in the scope of this place.
    Key(u32, Text),
    /// The pushes into a document.
    Pushes(Name),
    /// The page of a document for a context.
    PageOf(Name, Arc<Context>),
}

/// The answer to a question of the same name.
#[derive(Drop)]
pub enum Answered {
    Document(Option<Arc<Doc>>),
    Kind(DocKind),
    Title(Text),
    First(Text),
    Key(KeyAnswer),
    Pushes(List<Push>, List<Fault>),
    PageOf(Option<u32>),
}

/// A question, with its answer.
#[derive(Drop)]
pub struct Asked {
    pub question: Question,
    pub answered: Answered,
}
