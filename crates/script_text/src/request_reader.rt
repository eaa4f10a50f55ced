//! Requests of a session, which come in pieces.

ghost use Rattle.std.specs.Prelude.{IfOk};
ghost use Rattle.pyx_text.specs.Pieces as text_pieces_spec;
ghost use Rattle.script_text.specs.Pieces as pieces_spec;
ghost use Rattle.script_text.specs.Reader as spec;

use crate::fault::ScriptFault;
use crate::request_machine::RequestMachine;
use crate::request_state::RequestState;
use dita_doc::{List, NoMemory, Request, Stop};
use std::alloc::Global;
use std::marker::Model;

/// A reader of the requests that a session is sent, without a session in front. It keeps the line
/// that is not ended yet, and a put or a group until its end.
#[derive(Drop)]
pub struct RequestReader {
    state: RequestState,
}

impl Model for RequestReader {
    ghost use Rattle.script_text.specs.declared.request_state.RequestState.{RequestState};
    ghost use Rattle.script_text.specs.contracts.request_state.RequestState as state_type;

    ghost Value = { RequestState };

    ghost coded = { state_type.the_row.coded };

    ghost use Rattle.script_text.specs.Reader as reader_spec;

    ghost view = { λ reader. reader.state };

    ghost invariant = { λ reader. reader_spec.IsRead reader.state };
}

impl RequestReader {
    /// A reader that was given nothing yet.
    pub fn new(alloc: Global) -> Result<RequestReader, NoMemory>
        ensures { IfOk result (λ reader. spec.StandsFor reader text_pieces_spec.read_nothing) }
    {
        Ok(RequestReader {
            state: RequestState::Reading(RequestMachine::new(alloc)),
        })
    }

    /// Takes the next piece, and answers the requests that it completes.
    ///
    /// # Errors
    ///
    /// The first fault of the first faulty line, once all requests in front of it were answered, or
    /// out of memory. Each later call answers the same. A fault behind line 4,294,967,295 is
    /// answered as out of memory, since no fault has a greater line.
    pub fn feed(&mut self, alloc: Global, piece: &[u8]) -> Result<List<Request>, Stop<ScriptFault>>
        ensures feeds { text_pieces_spec.Feeds spec.StandsFor pieces_spec.AnswersPiece self.old
            piece.now result self.new }
        ensures taken { pieces_spec.AreTaken result }
    {
        self.state.feed(alloc, piece)
    }
}
