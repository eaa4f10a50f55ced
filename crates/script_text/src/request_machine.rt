//! Requests from bytes, which come in pieces.

ghost use Rattle.std.specs.Prelude.{◌≡◌};
ghost use Rattle.std.specs.Option.{option_map};
ghost use Rattle.script_text.specs.Reader as spec;

use crate::fault::{ScriptCode, ScriptFault};
use crate::machine::ScriptMachine;
use crate::outside::RequestLines;
use dita_doc::{List, NoMemory, Request, Stop, split_at_first};
use std::alloc::{AllocError, Global};

/// A machine that takes what a session is sent, in pieces.
#[derive(Drop)]
pub struct RequestMachine {
    machine: ScriptMachine,
    // The line that is not ended yet.
    line: Vec<u8>,
    // How many lines have ended. It stays at the greatest number.
    number: u32,
}

/// What a piece completed, and the fault behind which nothing is read.
#[derive(Drop)]
pub struct Fed {
    pub requests: List<Request>,
    pub fault: Option<ScriptFault>,
}

impl RequestMachine {
    ghost use Rattle.std.specs.Prelude.{◌≡◌, ◌++◌, ◌∷◌, [], IfOk, IfErr, IfSome, OnOk};
    ghost use Rattle.std.specs.List.{All};
    ghost use Rattle.dita_doc.specs.Bytes.{Bytes, line_feed};
    ghost use Rattle.dita_doc.specs.Cut.{Lacks};
    ghost use Rattle.script_text.specs.Pieces as pieces_spec;
    ghost use Rattle.script_text.specs.Reader as spec;

    pub fn new(alloc: Global) -> Self
        ensures { spec.IsAt result [] }
    {
        RequestMachine {
            machine: ScriptMachine::new(),
            line: Vec::new(alloc),
            number: 0,
        }
    }

    /// Takes the next piece. After an `Err` or a fault the machine is of no use.
    pub fn feed(&mut self, alloc: Global, piece: &[u8]) -> Result<Fed, NoMemory>
        requires { spec.IsReading self.old }
        ensures fed { (text : Bytes) → spec.IsAt self.old text → IfOk result
            (λ fed. spec.HasFed self.new text (text ++ piece.now) fed) }
        ensures taken { IfOk result (λ fed. All pieces_spec.IsTaken fed.requests) }
    {
        let mut requests = List::new(alloc);
        let mut rest = piece;
        while let Some((line, more)) = split_at_first(rest, b'\n') {
            self.add(line)?;
            match self.end_line(alloc) {
                Ok(None) => {}
                Ok(Some(request)) => requests.push(request)?,
                Err(Stop::Fault(fault)) => {
                    return Ok(Fed {
                        requests,
                        fault: Some(fault),
                    });
                }
                Err(Stop::NoMemory) => return Err(NoMemory),
            }
            rest = more;
        }
        self.add(rest)?;
        Ok(Fed {
            requests,
            fault: None,
        })
    }

    // Puts bytes behind the line at hand.
    fn add(&mut self, bytes: &[u8]) -> Result<(), AllocError>
        requires { Lacks line_feed bytes.now }
        ensures { (text : Bytes) → spec.IsAt self.old text → OnOk result
            (spec.IsBehind self.new text (text ++ bytes.now) []) }
    {
        self.line.extend_from_slice(bytes)
    }

    // Ends the line at hand, and begins the next. Answers the request that it completes.
    fn end_line(&mut self, alloc: Global) -> Result<Option<Request>, Stop<ScriptFault>>
        requires { spec.IsReading self.old }
        ensures ended { (text : Bytes) → spec.IsAt self.old text → IfOk result
            (λ request. spec.IsBehind self.new text (text ++ line_feed ∷ [])
            (spec.request_in_seen request)) }
        ensures fault { (text : Bytes) → spec.IsAt self.old text → IfErr result
            (λ stop. spec.IsTold stop text (text ++ line_feed ∷ [])) }
        ensures taken { IfOk result (λ request. IfSome request pieces_spec.IsTaken) }
    {
        match self.machine.line(alloc, &RequestLines, 0, &self.line) {
            Ok(step) => {
                self.line.clear();
                self.number = self.number.saturating_add(1);
                Ok(request_of(step))
            }
            Err(Stop::Fault(code)) => Err(fault_behind(code, self.number)),
            Err(Stop::NoMemory) => Err(Stop::NoMemory),
        }
    }
}

// The request of a step.
fn request_of(step: Option<(u32, Request)>) -> Option<Request>
    ensures { result ≡ option_map (λ step. step.1) step }
{
    match step {
        None => None,
        Some((_, request)) => Some(request),
    }
}

// The fault of the line behind so many. If its number does not fit a fault, the reading gives up.
fn fault_behind(code: ScriptCode, number: u32) -> Stop<ScriptFault>
    ensures { spec.IsFaultBehind code number result }
{
    if number == u32::MAX {
        return Stop::NoMemory;
    }
    Stop::Fault(ScriptFault {
        code,
        line: number + 1,
    })
}
