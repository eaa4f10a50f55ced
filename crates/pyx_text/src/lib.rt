//! Texts of PYX to documents, and documents to texts.
//!
//! What is used above it: the contracts of `read_pyx`, `read_body`, `write_pyx` and `PyxReader`. A
//! document that is answered is the tree that the text stands for, a fault is the first of the first
//! faulty line, and what is written is the canonical text. A text that comes in pieces is read as if
//! it came whole. The laws of these definitions are in `pyx_laws`.
#![tactic(auto)]

ghost use Rattle.std.specs.Prelude.{◌≡◌, [], ◌∷◌, IfOk, IfErr};
ghost use Rattle.dita_doc.specs.Gives.{IsStopOf};
ghost use Rattle.dita_doc.specs.Pyx as pyx_spec;
ghost use Rattle.dita_doc.specs.ReadTree as read_tree_spec;
ghost use Rattle.dita_doc.specs.Tree as tree_spec;
ghost use Rattle.pyx_text.specs.Read as read_spec;

mod body;
mod line;
mod machine;
mod reader;
mod text_machine;
mod text_state;
mod write;

pub use body::read_body;
use dita_doc::{Doc, Name, PyxFault, Stop};
pub use reader::PyxReader;
use std::alloc::Global;
pub use write::write_pyx;

/// Reads a text of PYX lines, of at most 4,194,304 bytes. The document's one origin is `name`.
///
/// Behind the limit CRs alone are accepted, if no line is begun there: a CR is dropped wherever it
/// stands, and a last rest of CRs alone is no line.
///
/// # Errors
///
/// The first faulty line with its first fault, or out of memory.
pub fn read_pyx(alloc: Global, name: &Name, bytes: &[u8]) -> Result<Doc, Stop<PyxFault>>
    ensures tree { IfOk result (λ doc. read_spec.AreRead doc.nodes bytes.now) }
    ensures kept { IfOk result
        (λ doc. read_tree_spec.IsReadTree (tree_spec.tree_of doc.nodes)) }
    ensures origin { IfOk result (λ doc. doc.origins ≡ name.now ∷ []) }
    ensures fault { IfErr result (λ stop. IsStopOf stop (pyx_spec.reading bytes.now)) }
{
    let mut reader = PyxReader::new(alloc, name)?;
    reader.feed(alloc, bytes)?;
    reader.finish(alloc)
}
