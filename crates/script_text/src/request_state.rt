//! What a session was sent, as far as it was read, also behind a stop.

ghost use Rattle.pyx_text.specs.Pieces as text_pieces_spec;
ghost use Rattle.script_text.specs.Pieces as pieces_spec;
ghost use Rattle.script_text.specs.Reader as spec;

use crate::fault::ScriptFault;
use crate::request_machine::{Fed, RequestMachine};
use dita_doc::{List, Request, Stop};
use std::alloc::Global;

/// What was read of requests that come in pieces, or why their reading stopped.
#[derive(Drop)]
pub enum RequestState {
    Reading(RequestMachine),
    Stopped(Stop<ScriptFault>),
}

impl RequestState {
    /// Takes the next piece. A stop is answered to each later piece too.
    pub fn feed(&mut self, alloc: Global, piece: &[u8]) -> Result<List<Request>, Stop<ScriptFault>>
        requires { spec.IsRead self.old }
        ensures feeds { text_pieces_spec.Feeds spec.StandsFor pieces_spec.AnswersPiece self.old
            piece.now result self.new }
        ensures taken { pieces_spec.AreTaken result }
    {
        let fed = match self {
            RequestState::Reading(machine) => machine.feed(alloc, piece),
            RequestState::Stopped(stop) => return Err(*stop),
        };
        let Ok(Fed { requests, fault }) = fed else {
            *self = RequestState::Stopped(Stop::NoMemory);
            return Err(Stop::NoMemory);
        };
        match fault {
            None => Ok(requests),
            Some(fault) => {
                *self = RequestState::Stopped(Stop::Fault(fault));
                if requests.is_empty() {
                    return Err(Stop::Fault(fault));
                }
                Ok(requests)
            }
        }
    }
}
