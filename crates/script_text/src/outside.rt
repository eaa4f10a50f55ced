//! The lines outside bodies and groups.

ghost use Rattle.std.specs.Prelude.{◌≡◌, ◌∷◌, nat_le, IfOk, IfSome};
ghost use Rattle.dita_doc.specs.Bytes as bytes_spec;
ghost use Rattle.dita_doc.specs.Gives.{GivesSeen};
ghost use Rattle.script_text.specs.Command as command_spec;
ghost use Rattle.script_text.specs.Requests as requests_spec;
ghost use Rattle.script_text.specs.Script as script_spec;

use crate::command::{Command, read_command};
use crate::fault::ScriptCode;
use crate::words::{is_passed, read_session, split_word};
use dita_doc::Stop;
use std::alloc::Global;

// The most requests of a script.
const REQUEST_LIMIT: usize = 65_536;

/// How the lines outside bodies and groups are read.
pub trait LineReader {
    ghost use Rattle.std.specs.Prelude.{IfOk, IfSome};
    ghost use Rattle.dita_doc.specs.Gives.{GivesSeen};
    ghost use Rattle.script_text.specs.Command as command_spec;

    ghost reads: { script_spec.LineReading };

    /// What a line behind so many requests asks, in its session; nothing, if it is passed over.
    fn read(
        &self,
        alloc: Global,
        count: usize,
        line: &str,
    ) -> Result<Option<(u32, Command)>, Stop<ScriptCode>>
        ensures asked { GivesSeen command_spec.asked_seen result (reads count line.now) }
        ensures own { IfOk result (λ asked. IfSome asked (λ asked. command_spec.HasOwn asked.1)) };
}

/// The lines of a script: each begins with its session.
pub struct ScriptLines;

impl LineReader for ScriptLines {
    ghost reads = { script_spec.script_line };

    fn read(
        &self,
        alloc: Global,
        count: usize,
        line: &str,
    ) -> Result<Option<(u32, Command)>, Stop<ScriptCode>> {
        if is_passed(line) {
            return Ok(None);
        }
        let Some((word, words)) = split_word(line) else {
            return Ok(None);
        };
        read_asked(alloc, count, word, words)
    }
}

/// The lines of a session over a link: none begins with a session, and as many come as are sent.
pub struct RequestLines;

impl LineReader for RequestLines {
    ghost reads = { requests_spec.request_line };

    fn read(
        &self,
        alloc: Global,
        _count: usize,
        line: &str,
    ) -> Result<Option<(u32, Command)>, Stop<ScriptCode>> {
        if is_passed(line) {
            return Ok(None);
        }
        let command = read_command(alloc, line)?;
        Ok(Some((0, command)))
    }
}

// What the words behind a session's word ask, behind so many requests.
fn read_asked(
    alloc: Global,
    count: usize,
    word: &str,
    words: &str,
) -> Result<Option<(u32, Command)>, Stop<ScriptCode>>
    ensures asked { GivesSeen command_spec.asked_seen result
        (script_spec.asked_by count (word.now ∷ bytes_spec.spaced_words words.now)) }
    ensures own { IfOk result (λ asked. IfSome asked (λ asked. command_spec.HasOwn asked.1)) }
{
    let session = read_session(word)?;
    let command = read_command(alloc, words)?;
    if are_all(count) {
        return Err(Stop::Fault(ScriptCode::TooManyRequests));
    }
    Ok(Some((session, command)))
}

// Whether so many requests are as many as a script may have.
fn are_all(count: usize) -> bool
    ensures { result ≡ nat_le script_spec.request_limit count }
{
    count >= REQUEST_LIMIT
}
