//! The fault of a page that is too long.

ghost use Rattle.std.specs.Prelude.{◌≡◌, IfOk};
ghost use Rattle.html_spec.specs.PageHtml as spec;

use dita_doc::{Fault, FaultCode, Name, Text};
use std::alloc::{AllocError, Global};

/// The fault of a page that is too long, at this line of its document.
pub fn too_large(alloc: Global, name: &Name, line: u32) -> Result<Fault, AllocError>
    ensures { IfOk result (λ fault. fault ≡ spec.too_large name.now line) }
{
    Ok(Fault {
        name: name.clone()?,
        line,
        code: FaultCode::PageTooLarge,
        detail: Text::new(alloc),
    })
}
