//! Scripts to requests.
//!
//! What is used above it: the contracts of `read_script` and `RequestReader`, and the facts that a
//! `Script` keeps. The steps that are answered are those of the script, and a fault is the first of
//! the first faulty line. Requests that come in pieces are read as if they came whole.
#![tactic(auto)]

ghost use Rattle.dita_doc.specs.Gives.{GivesSeen};
ghost use Rattle.script_text.specs.Read as read_spec;
ghost use Rattle.script_text.specs.Script as script_spec;

mod command;
mod fault;
mod group;
mod lines;
mod machine;
mod opened;
mod outside;
mod reader;
mod request_machine;
mod request_reader;
mod request_state;
mod script;
mod turn;
mod words;

use crate::reader::read_lines;
use dita_doc::Stop;
pub use fault::{ScriptCode, ScriptFault};
pub use request_reader::RequestReader;
pub use script::Script;
use std::alloc::Global;

/// How many bytes the longest script has.
pub const SCRIPT_LIMIT: usize = 67_108_864;

/// Reads a script. One of more than 67,108,864 bytes is rejected, and nothing behind the first byte
/// too many is looked at.
///
/// # Errors
///
/// The first faulty line with its first fault, or out of memory.
pub fn read_script(alloc: Global, bytes: &[u8]) -> Result<Script, Stop<ScriptFault>>
    ensures { GivesSeen (λ script. read_spec.steps_seen script.steps) result
        (script_spec.script_of bytes.now) }
{
    let text = &bytes[..bytes.len().min(SCRIPT_LIMIT + 1)];
    let is_cut = bytes.len() > SCRIPT_LIMIT;
    let steps = read_lines(alloc, text, is_cut)?;
    Ok(Script { steps })
}
