//! Puts, with their bodies so far.

use crate::command::Opening;
use dita_doc::{Edit, List, NoMemory};
use std::alloc::{AllocError, Global};

/// A put, with the lines of its body so far.
#[derive(Drop)]
pub struct OpenPut {
    opening: Opening,
    body: List<u8>,
}

impl OpenPut {
    ghost use Rattle.std.specs.Prelude.{◌≡◌, OnOk, IfOk};
    ghost use Rattle.dita_doc.specs.Seen as seen_spec;
    ghost use Rattle.script_text.specs.Command as command_spec;
    ghost use Rattle.script_text.specs.Machine as machine_spec;
    ghost use Rattle.script_text.specs.Script as script_spec;

    /// A put with no line of its body yet.
    pub fn new(alloc: Global, opening: Opening) -> Self
        ensures { machine_spec.opened_seen result
            ≡ script_spec.open_body (command_spec.opening_seen opening) }
    {
        let body = List::new(alloc);
        OpenPut { opening, body }
    }

    /// Takes a line of the body.
    pub fn add(&mut self, line: &str) -> Result<(), AllocError>
        ensures { OnOk result (machine_spec.opened_seen self.new
            ≡ script_spec.with_line (machine_spec.opened_seen self.old) line.now) }
    {
        self.body.append(line.as_bytes())?;
        self.body.push(b'\n')
    }

    /// The edit, if these lines are the whole body.
    pub fn into_edit(self, alloc: Global) -> Result<Edit, NoMemory>
        ensures edit { IfOk result (λ edit. seen_spec.edit_seen edit
            ≡ script_spec.whole_edit (machine_spec.opened_seen self)) }
        ensures own { IfOk result seen_spec.IsOwnEdit }
    {
        let OpenPut { opening, body } = self;
        opening.with_body(alloc, body)
    }
}
