//! Bytes to a transcript.

ghost use Rattle.std.specs.Prelude.{◌≡◌, ◌∷◌, [], ◌++◌, IfOk, IfErr};
ghost use Rattle.dita_doc.specs.Bytes as bytes_spec;
ghost use Rattle.dita_doc.specs.Cut as cut_spec;
ghost use Rattle.dita_doc.specs.declared.stop.Stop.TheVariants as stop_spec;
ghost use Rattle.transcript_text.specs.Read as read_spec;
ghost use Rattle.transcript_text.specs.State as state_spec;
ghost use Rattle.transcript_text.specs.Words.{TextLines};
ghost use Rattle.transcript_text.specs.declared.state.ReadState.TheVariants as states_spec;
ghost use Rattle.transcript_text.specs.declared.transcript.Transcript.{Transcript as AllRead};

use crate::state::ReadState;
use crate::transcript::{BadTranscript, Transcript};
use dita_doc::{Stop, split_at_first};
use std::alloc::Global;

/// Reads a transcript, in a time and with memory linear in its bytes.
///
/// # Errors
///
/// The first line that no transcript has behind the lines before it; if there is none, the last
/// line, since the text ends too early. Or out of memory, which also stands for a fault in a line
/// that is past number 2^32 - 1.
pub fn read_transcript(alloc: Global, bytes: &[u8]) -> Result<Transcript, Stop<BadTranscript>>
    ensures read { IfOk result (λ transcript. read_spec.IsRead transcript bytes.now) }
    ensures refused { IfErr result (λ stop. read_spec.IsFaultOf stop bytes.now) }
{
    let mut state = ReadState::Start;
    let mut rest = bytes;
    let mut number = 0;
    while let Some((line, behind)) = split_at_first(rest, b'\n') {
        number += 1;
        state = state_behind(alloc, state, line, number)?;
        rest = behind;
    }
    if !rest.is_empty() {
        return Err(bad_at(number + 1));
    }
    whole(state, number)
}

// The state behind the line of this number, if it may stand there.
fn state_behind(
    alloc: Global,
    state: ReadState,
    line: &[u8],
    number: usize,
) -> Result<ReadState, Stop<BadTranscript>>
    requires { cut_spec.Lacks bytes_spec.line_feed line.now }
    ensures sound { (read : TextLines) → state_spec.HasRead state read →
        IfOk result (λ next. state_spec.HasRead next (read ++ line.now ∷ [])) }
    ensures complete { (more : TextLines) → state_spec.May state (line.now ∷ more) →
        IfOk result (λ next. state_spec.May next more) }
    ensures refused { (more : TextLines) → state_spec.May state (line.now ∷ more) →
        IfErr result (λ stop. stop ≡ stop_spec.NoMemory) }
    ensures named { IfErr result (λ stop. read_spec.IsLine stop number) }
{
    match state.next(alloc, line)? {
        Some(next) => Ok(next),
        None => Err(bad_at(number)),
    }
}

// The transcript, if all of it was read with the line of this number.
fn whole(state: ReadState, number: usize) -> Result<Transcript, Stop<BadTranscript>>
    ensures read { IfOk result (λ transcript. state ≡ states_spec.End transcript) }
    ensures refused { IfErr result
        (λ stop. (transcript : AllRead) → state ≡ states_spec.End transcript → ⊥) }
    ensures named { IfErr result (λ stop. read_spec.IsLine stop number) }
{
    match state {
        ReadState::End(transcript) => Ok(transcript),
        _ => Err(bad_at(number)),
    }
}

// The fault of this line.
fn bad_at(line: usize) -> Stop<BadTranscript>
    ensures { read_spec.IsLine result line }
{
    match u32::try_from(line) {
        Ok(line) => Stop::Fault(BadTranscript { line }),
        Err(_) => Stop::NoMemory,
    }
}
