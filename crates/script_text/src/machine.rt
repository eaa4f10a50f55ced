//! Requests from lines: a machine that takes one line after the other.

use crate::fault::ScriptCode;
use crate::outside::LineReader;
use crate::turn::{Begun, turn_at};
use dita_doc::{Request, Stop};
use std::alloc::Global;

/// What some lines began and did not end.
#[derive(Drop)]
pub struct ScriptMachine {
    begun: Option<Begun>,
}

impl ScriptMachine {
    ghost use Rattle.std.specs.Prelude.{◌≡◌, None, IfOk, IfSome, is_some};
    ghost use Rattle.dita_doc.specs.Gives.{GivesSeen};
    ghost use Rattle.dita_doc.specs.Seen as seen_spec;
    ghost use Rattle.script_text.specs.Script as script_spec;
    ghost use Rattle.script_text.specs.Machine as machine_spec;

    pub fn new() -> Self
        ensures { result.begun ≡ None }
    {
        ScriptMachine { begun: None }
    }

    /// Whether a put or a group is begun that has no end yet.
    pub fn is_within(&self) -> bool
        ensures { result ≡ is_some self.now.begun }
    {
        self.begun.is_some()
    }

    /// Takes a line, without its LF, behind so many requests, and answers the request that it ends,
    /// with its session, if it ends one. After an `Err` the machine is of no use.
    pub fn line<L: LineReader>(
        &mut self,
        alloc: Global,
        reader: &L,
        count: usize,
        line: &[u8],
    ) -> Result<Option<(u32, Request)>, Stop<ScriptCode>>
        ensures turn { GivesSeen (machine_spec.turned_seen self.new.begun) result
            (script_spec.turn L.reads count (machine_spec.pending_seen self.old.begun) line.now) }
        ensures own { IfOk result (λ step. IfSome step (λ step. seen_spec.HasOwnOrigin step.1)) }
    {
        let begun = self.begun.take();
        let turn = turn_at(alloc, reader, count, begun, line)?;
        self.begun = turn.begun;
        Ok(turn.step)
    }
}
