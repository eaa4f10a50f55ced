//! The body of a put, with its reading.

ghost use Rattle.std.specs.Prelude.{◌≡◌, length};
ghost use Rattle.std.specs.Arc.{arc_value};
ghost use Rattle.std.specs.Result.{ForOk};
ghost use Rattle.std.proofs.Props.{props};
ghost use Rattle.dita_doc.specs.Body as body_spec;
ghost use Rattle.dita_doc.specs.Pyx as pyx_spec;

use crate::doc::Doc;
use crate::fault::PyxFault;
use crate::list::List;
use std::sync::Arc;

/// Bytes, and what PYX they are: the document of the tree that they stand for, which has one
/// origin, or their first fault.
#[derive(Drop)]
pub struct Body {
    pub bytes: Arc<List<u8>>,
    pub read: Result<Arc<Doc>, PyxFault>,
    pub ghost reading: { body_spec.nodes_read read
        ≡ pyx_spec.nodes_or_fault (pyx_spec.document_of (arc_value bytes)) },
    pub ghost origin: { ForOk read (λ doc. length (arc_value doc).origins ≡ 1) },
}
