//! What was read of a text, also behind a stop.

ghost use Rattle.std.specs.Prelude.{◌≡◌, ◌<◌, Some, None, Err, IfOk, IfErr, length};
ghost use Rattle.dita_doc.specs.Bytes.{Bytes};
ghost use Rattle.dita_doc.specs.Gives.{IsStopOf};
ghost use Rattle.dita_doc.specs.declared.stop.Stop.TheVariants as stops;
ghost use Rattle.dita_doc.specs.Pyx as pyx_spec;
ghost use Rattle.dita_doc.specs.Tree as tree_spec;
ghost use Rattle.pyx_text.specs.Pieces as pieces_spec;
ghost use Rattle.pyx_text.specs.Read as read_spec;
ghost use Rattle.pyx_text.specs.Reader as spec;

use crate::text_machine::TextMachine;
use dita_doc::{List, Node, PyxFault, Stop};
use std::alloc::Global;

/// What was read of a text that comes in pieces, or why its reading stopped.
#[derive(Drop)]
pub enum TextState {
    Reading(TextMachine),
    Stopped(Stop<PyxFault>),
}

impl TextState {
    /// Takes the next piece of the text. A stop is answered to each later piece too.
    pub fn feed(&mut self, alloc: Global, piece: &[u8]) -> Result<(), Stop<PyxFault>>
        requires { spec.IsRead self.old }
        ensures { pieces_spec.Feeds spec.IsReadSoFar pieces_spec.AnswersPiece self.old piece.now
            result self.new }
    {
        let stop = match self {
            TextState::Reading(machine) => match machine.feed(alloc, piece) {
                Ok(()) => return Ok(()),
                Err(stop) => stop,
            },
            TextState::Stopped(stop) => *stop,
        };
        *self = TextState::Stopped(stop);
        Err(stop)
    }

    /// The nodes of the whole text.
    pub fn finish(self, alloc: Global) -> Result<List<Node>, Stop<PyxFault>>
        requires { spec.IsRead self }
        ensures tree { (text : Bytes) → spec.IsReadSoFar self (Some text) →
            IfOk result (λ nodes. read_spec.AreRead nodes text) }
        ensures fault { (text : Bytes) → spec.IsReadSoFar self (Some text) →
            IfErr result (λ stop. IsStopOf stop (pyx_spec.reading text)) }
        ensures spent { spec.IsReadSoFar self None → result ≡ Err stops.NoMemory }
        ensures small { IfOk result (λ nodes. length nodes < tree_spec.doc_node_limit) }
    {
        match self {
            TextState::Reading(machine) => machine.finish(alloc),
            TextState::Stopped(stop) => Err(stop),
        }
    }
}
