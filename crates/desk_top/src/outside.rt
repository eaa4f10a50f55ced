//! Whole reads of a source.

ghost use Rattle.std.specs.Prelude.{◌≡◌, IfOk, vec_len};
ghost use Rattle.dita_outside.specs.Cause as cause_spec;
ghost use Rattle.run_spec.specs.Reads as reads_spec;

use dita_doc::{List, Stop};
use dita_outside::{Failed, Source};
use std::alloc::{AllocError, Global};

// The bytes of one read.
const PIECE: usize = 65536;

/// Reads a source to its end, or so many bytes of it.
pub fn read_all<S: Source>(
    alloc: Global,
    source: &mut S,
    limit: usize,
) -> Result<List<u8>, Stop<Failed>>
    ensures ok { IfOk result
        (λ input. reads_spec.Reads limit (S.left source.old) (S.left source.new) input) }
    ensures cause { cause_spec.HasCauseOrNoMemory
        (S.faults source.old) (S.faults source.new) result }
{
    let mut buffer = zeros(alloc, PIECE)?;
    let mut input = List::new(alloc);
    while input.len() < limit {
        let room = buffer.len().min(limit - input.len());
        let piece = &mut buffer.as_mut_slice()[..room];
        let count = match source.read(piece) {
            Ok(count) => count,
            Err(failed) => return Err(Stop::Fault(failed)),
        };
        if count == 0 {
            return Ok(input);
        }
        input.append(&piece[..count])?;
    }
    Ok(input)
}

fn zeros(alloc: Global, count: usize) -> Result<Vec<u8>, AllocError>
    ensures { IfOk result (λ bytes. vec_len bytes ≡ count) }
{
    vec![in alloc; 0u8; count]
}
