//! Documents from texts that come in pieces.

ghost use Rattle.std.specs.Prelude.{◌≡◌, IfOk};
ghost use Rattle.dita_doc.specs.ReadTree as read_tree_spec;
ghost use Rattle.dita_doc.specs.Tree as tree_spec;
ghost use Rattle.pyx_text.specs.Pieces as pieces_spec;
ghost use Rattle.pyx_text.specs.Reader as spec;

use crate::text_machine::TextMachine;
use crate::text_state::TextState;
use dita_doc::{Doc, List, Name, NoMemory, PyxFault, Stop};
use std::alloc::Global;
use std::marker::Model;

/// A reader of a text that comes in pieces, under a name. It keeps no byte of a line that has
/// ended, and none behind the limit of a text.
#[derive(Drop)]
pub struct PyxReader {
    name: Name,
    state: TextState,
}

impl Model for PyxReader {
    ghost use Rattle.pyx_text.specs.Reader as reader_spec;

    ghost Value = { reader_spec.Reader };

    ghost view = { λ reader. record { name = reader.name; state = reader.state } };

    ghost invariant = { λ reader. reader_spec.IsRead reader.state };
}

impl PyxReader {
    /// A reader that was given nothing yet. The document's one origin will be `name`.
    pub fn new(alloc: Global, name: &Name) -> Result<PyxReader, NoMemory>
        ensures stands { IfOk result (λ reader. spec.StandsFor reader pieces_spec.read_nothing) }
        ensures name { IfOk result (λ reader. reader.name ≡ name.now) }
    {
        Ok(PyxReader {
            name: name.clone()?,
            state: TextState::Reading(TextMachine::new(alloc)),
        })
    }

    /// Takes the next piece of the text.
    ///
    /// # Errors
    ///
    /// The first fault of the first faulty line, as soon as that line is ended, or out of memory.
    /// Each later call answers the same.
    pub fn feed(&mut self, alloc: Global, piece: &[u8]) -> Result<(), Stop<PyxFault>>
        ensures feeds { pieces_spec.Feeds spec.StandsFor pieces_spec.AnswersPiece self.old
            piece.now result self.new }
        ensures name { self.new.name ≡ self.old.name }
    {
        self.state.feed(alloc, piece)
    }

    /// The document of the whole text.
    ///
    /// # Errors
    ///
    /// As those of `read_pyx`.
    pub fn finish(self, alloc: Global) -> Result<Doc, Stop<PyxFault>>
        ensures ends { pieces_spec.Finishes spec.StandsFor self.name self result }
        ensures kept { IfOk result
            (λ doc. read_tree_spec.IsReadTree (tree_spec.tree_of doc.nodes)) }
    {
        let PyxReader { name, state } = self;
        let nodes = state.finish(alloc)?;
        let mut origins = List::new(alloc);
        origins.push(name)?;
        Ok(Doc { origins, nodes })
    }
}
