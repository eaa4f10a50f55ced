//! Bodies, kept with their reading.

ghost use Rattle.std.specs.Prelude.{◌≡◌, ◌∷◌, [], IfOk};
ghost use Rattle.std.specs.Arc.{arc_value};

use crate::read_pyx;
use dita_doc::{Body, List, Name, NoMemory, Stop};
use std::alloc::Global;
use std::sync::Arc;

/// Bytes, with the document that they are under this name, or with their first fault. No byte is
/// copied.
pub fn read_body(alloc: Global, name: &Name, bytes: List<u8>) -> Result<Body, NoMemory>
    ensures bytes { IfOk result (λ body. arc_value body.bytes ≡ bytes) }
    // If it is a document, this name is its one origin.
    ensures origin { IfOk result
        (λ body. IfOk body.read (λ doc. (arc_value doc).origins ≡ name.now ∷ [])) }
{
    let read = match read_pyx(alloc, name, bytes.as_slice()) {
        Ok(doc) => Ok(Arc::new(alloc, doc)?),
        Err(Stop::Fault(fault)) => Err(fault),
        Err(Stop::NoMemory) => return Err(NoMemory),
    };
    let bytes = Arc::new(alloc, bytes)?;
    Ok(Body { bytes, read })
}
