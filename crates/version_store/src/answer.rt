//! The answer to one request, by what is stored. Nothing changes here.

ghost use Rattle.std.specs.Prelude.{◌≡◌, ◌+◌, ◌<◌, ◌^◌, IfOk, option_map};
ghost use Rattle.std.specs.Arc.{arc_value};
ghost use Rattle.dita_doc.specs.Request as request_spec;
ghost use Rattle.dita_doc.specs.Desk as desk_spec;
ghost use Rattle.dita_doc.specs.Seen as seen_spec;
ghost use Rattle.version_store.specs.Change as change_spec;

use crate::group::try_group;
use crate::reply::{get_reply, names_reply, put_if_reply, put_reply, remove_reply};
use dita_doc::{Reply, Request, Sources};
use std::alloc::{AllocError, Global};
use std::sync::Arc;

/// A reply, with the sources that a group leaves if it is done.
#[derive(Drop)]
pub struct Decided {
    pub reply: Reply,
    pub left: Option<Arc<Sources>>,
}

/// The answer to the request at a place.
pub fn answer_to(
    alloc: Global,
    sources: &Arc<Sources>,
    place: u64,
    request: &Request,
) -> Result<Decided, AllocError>
    requires place { place + 1 < 2 ^ 64 }
    requires origin { seen_spec.HasOwnOrigin request.now }
    requires edits { request_spec.HasFewEdits (seen_spec.request_seen request.now) }
    ensures reply { IfOk result (λ answer. seen_spec.reply_seen answer.reply
        ≡ desk_spec.reply (arc_value sources.now) place (seen_spec.request_seen request.now)) }
    ensures left { IfOk result (λ answer. change_spec.left_by (arc_value sources.now)
        (seen_spec.request_seen request.now) (seen_spec.reply_seen answer.reply)
        (option_map arc_value answer.left)
        ≡ desk_spec.next (arc_value sources.now) place (seen_spec.request_seen request.now)) }
{
    match request {
        Request::Put(name, body) => Ok(alone(put_reply(sources, place, name, body))),
        Request::PutIf(version, name, body) => {
            Ok(alone(put_if_reply(sources, place, *version, name, body)))
        }
        Request::Remove(name) => Ok(alone(remove_reply(sources, name))),
        Request::Get(name) => Ok(alone(get_reply(sources, name)?)),
        Request::Names => Ok(alone(names_reply(alloc, sources)?)),
        Request::Build(_, _) => Ok(alone(Reply::Begun)),
        Request::Group(edits) => try_group(sources, place, edits.as_slice()),
    }
}

// The reply alone: what it says is done in place.
fn alone(reply: Reply) -> Decided
    ensures { result ≡ record { reply = reply; left = None } }
{
    Decided { reply, left: None }
}
