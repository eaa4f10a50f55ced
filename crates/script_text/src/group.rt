//! Groups: their lines, and their edits so far.

ghost use Rattle.std.specs.Prelude.{◌≡◌, nat_le, IfOk, IfSome};
ghost use Rattle.std.specs.List.{All};
ghost use Rattle.dita_doc.specs.Gives.{GivesSeen};
ghost use Rattle.dita_doc.specs.Request as request_spec;
ghost use Rattle.dita_doc.specs.Seen as seen_spec;
ghost use Rattle.script_text.specs.Command as command_spec;
ghost use Rattle.script_text.specs.Facts as facts_spec;
ghost use Rattle.script_text.specs.Script as script_spec;

use crate::command::{EditCommand, read_edit};
use crate::fault::ScriptCode;
use crate::words::is_passed;
use dita_doc::{Edit, List, Stop};
use std::alloc::{AllocError, Global};

// The most edits of a group.
const EDIT_LIMIT: usize = 1_000;

/// A group, with its edits so far. A document that one is to store has the name that it is stored
/// under.
#[derive(Drop)]
pub struct Group {
    pub session: u32,
    pub edits: List<Edit>,
    pub ghost own: { All seen_spec.IsOwnEdit edits } by { Prim.hlevel facts_spec.kept },
}

impl Group {
    ghost use Rattle.std.specs.Prelude.{◌≡◌, ◌++◌, ◌∷◌, [], IfOk};
    ghost use Rattle.dita_doc.specs.Seen as seen_spec;
    ghost use Rattle.script_text.specs.Machine as machine_spec;
    ghost use Rattle.script_text.specs.Script as script_spec;

    /// A group with no edit yet.
    pub fn new(alloc: Global, session: u32) -> Self
        ensures { machine_spec.group_seen result ≡ script_spec.InGroup session [] }
    {
        let edits = List::new(alloc);
        Group { session, edits }
    }

    /// The group with one edit more, behind the others.
    pub fn with_edit(self, edit: Edit) -> Result<Self, AllocError>
        requires { seen_spec.IsOwnEdit edit }
        ensures { IfOk result (λ group. machine_spec.group_seen group
            ≡ script_spec.InGroup self.session
            (machine_spec.edits_seen self ++ seen_spec.edit_seen edit ∷ [])) }
    {
        let Group { session, mut edits } = self;
        edits.push(edit)?;
        Ok(Group { session, edits })
    }
}

/// The edit that a line of a group says, behind so many edits of it; nothing, if it is passed over.
pub fn read_edit_line(
    alloc: Global,
    count: usize,
    line: &str,
) -> Result<Option<EditCommand>, Stop<ScriptCode>>
    ensures edit { GivesSeen command_spec.edit_line_seen result
        (script_spec.edit_line count line.now) }
    ensures own { IfOk result (λ edit. IfSome edit command_spec.HasOwnEdit) }
{
    if is_passed(line) {
        return Ok(None);
    }
    let edit = read_edit(alloc, line)?;
    if are_all(count) {
        return Err(Stop::Fault(ScriptCode::TooManyEdits));
    }
    Ok(Some(edit))
}

// Whether so many edits are as many as a group may have.
fn are_all(count: usize) -> bool
    ensures { result ≡ nat_le request_spec.edit_limit count }
{
    count >= EDIT_LIMIT
}
