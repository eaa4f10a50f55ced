//! The steps of some lines.

ghost use Rattle.std.specs.Prelude.{◌≡◌, ◌<◌, ◌^◌, ◌&&◌, None, length, IfOk};
ghost use Rattle.std.specs.List.{All};
ghost use Rattle.dita_doc.specs.Gives.{GivesSeen};
ghost use Rattle.dita_doc.specs.declared.stop.Stop.TheVariants as stops;
ghost use Rattle.dita_doc.specs.Lines as lines_spec;
ghost use Rattle.script_text.specs.Facts as facts_spec;
ghost use Rattle.script_text.specs.Read as read_spec;
ghost use Rattle.script_text.specs.Script as script_spec;

use crate::fault::{ScriptCode, ScriptFault};
use crate::lines::split_line;
use crate::machine::ScriptMachine;
use crate::outside::ScriptLines;
use dita_doc::{List, Request, Stop};
use std::alloc::Global;

/// The steps of a text. If it was cut behind the first byte too many, its last line is TooLong.
pub fn read_lines(
    alloc: Global,
    text: &[u8],
    is_cut: bool,
) -> Result<List<(u32, Request)>, Stop<ScriptFault>>
    requires { length text.now < 2 ^ 32 }
    ensures steps { GivesSeen read_spec.steps_seen result
        (script_spec.steps_from script_spec.script_line is_cut 0 0 None
        (lines_spec.lines_of text.now)) }
    ensures origins { IfOk result (All facts_spec.IsOwnStep) }
{
    let mut machine = ScriptMachine::new();
    let mut steps = List::new(alloc);
    let mut number: u32 = 0;
    let mut rest = text;
    while let Some((line, more)) = split_line(rest) {
        number += 1;
        if is_too_long(is_cut, more) {
            return Err(fault_at(ScriptCode::TooLong, number));
        }
        match machine.line(alloc, &ScriptLines, steps.len(), line) {
            Ok(None) => {}
            Ok(Some(step)) => steps.push(step)?,
            Err(stop) => return Err(at_line(stop, number)),
        }
        rest = more;
    }
    if machine.is_within() {
        return Err(fault_at(ScriptCode::NoEnd, number));
    }
    Ok(steps)
}

// Whether a line, with this text behind it, is the last of a text that is cut.
fn is_too_long(is_cut: bool, more: &[u8]) -> bool
    ensures { result ≡ (is_cut && script_spec.is_no_line (lines_spec.lines_of more.now)) }
{
    is_cut && more.is_empty()
}

fn fault_at(code: ScriptCode, line: u32) -> Stop<ScriptFault>
    ensures { result ≡ stops.Fault (record { code = code; line = line }) }
{
    Stop::Fault(ScriptFault { code, line })
}

// The fault of a line, at its number.
fn at_line(stop: Stop<ScriptCode>, line: u32) -> Stop<ScriptFault>
    ensures { result ≡ read_spec.at_line stop line }
{
    match stop {
        Stop::Fault(code) => fault_at(code, line),
        Stop::NoMemory => Stop::NoMemory,
    }
}
