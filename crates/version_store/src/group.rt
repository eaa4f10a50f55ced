//! The edits of a group, tried one after the other.

ghost use Rattle.std.specs.Prelude.{◌≡◌, ◌+◌, ◌<◌, ◌≤◌, ◌^◌, IfOk, OnOk, length, map, option_map};
ghost use Rattle.std.specs.Arc.{arc_value};
ghost use Rattle.std.specs.List.{All};
ghost use Rattle.dita_doc.specs.Request as request_spec;
ghost use Rattle.dita_doc.specs.Desk as desk_spec;
ghost use Rattle.dita_doc.specs.Seen as seen_spec;
ghost use Rattle.version_store.specs.Change as change_spec;

use crate::answer::Decided;
use crate::change::edit_in_place;
use crate::reply::edit_reply;
use dita_doc::{Edit, EditFault, Reply, Sources};
use std::alloc::AllocError;
use std::sync::Arc;

/// Tries the edits of a group at a place on a share of the sources, which is put away if one of
/// them is refused. The first edit that changes something makes a copy of the list of blocks, and
/// each one a copy of the block that it changes if the sources share it.
pub fn try_group(sources: &Arc<Sources>, place: u64, edits: &[Edit]) -> Result<Decided, AllocError>
    requires place { place + 1 < 2 ^ 64 }
    requires few { length edits.now ≤ request_spec.edit_limit }
    requires origin { All seen_spec.IsOwnEdit edits.now }
    ensures reply { IfOk result (λ answer. seen_spec.reply_seen answer.reply
        ≡ desk_spec.reply (arc_value sources.now) place
        (request_spec.Group (map seen_spec.edit_seen edits.now))) }
    ensures left { IfOk result (λ answer. change_spec.left_by (arc_value sources.now)
        (request_spec.Group (map seen_spec.edit_seen edits.now))
        (seen_spec.reply_seen answer.reply) (option_map arc_value answer.left)
        ≡ desk_spec.next (arc_value sources.now) place
        (request_spec.Group (map seen_spec.edit_seen edits.now))) }
{
    let mut tried = Arc::try_clone(sources)?;
    let mut number = 0;
    for edit in edits {
        number += 1;
        if let Some(fault) = try_edit(&mut tried, place, edit)? {
            return Ok(Decided {
                reply: Reply::Stopped(number, fault),
                left: None,
            });
        }
    }
    Ok(Decided {
        reply: Reply::Grouped(number),
        left: Some(tried),
    })
}

// Does an edit at a place, or tells why it is refused.
fn try_edit(
    sources: &mut Arc<Sources>,
    place: u64,
    edit: &Edit,
) -> Result<Option<EditFault>, AllocError>
    requires place { place + 1 < 2 ^ 64 }
    requires origin { seen_spec.IsOwnEdit edit.now }
    ensures fault { IfOk result (λ fault. option_map seen_spec.refusal_seen fault
        ≡ desk_spec.refusal_in (desk_spec.edit_reply (arc_value sources.old) place
        (seen_spec.edit_seen edit.now))) }
    ensures ok { OnOk result (arc_value sources.new
        ≡ desk_spec.next_edit (arc_value sources.old) place (seen_spec.edit_seen edit.now)) }
{
    let reply = edit_reply(sources, place, edit);
    edit_in_place(sources, edit, &reply)?;
    Ok(fault_in(&reply))
}

// Why an edit with this reply is refused, if it is.
fn fault_in(reply: &Reply) -> Option<EditFault>
    ensures { option_map seen_spec.refusal_seen result
        ≡ desk_spec.refusal_in (seen_spec.reply_seen reply.now) }
{
    match reply {
        Reply::Refused(fault) => Some(EditFault::Refused(*fault)),
        Reply::Conflict(version) => Some(EditFault::Conflict(*version)),
        Reply::Absent => Some(EditFault::Absent),
        Reply::TooManyNames(limit) => Some(EditFault::TooManyNames(*limit)),
        _ => None,
    }
}
