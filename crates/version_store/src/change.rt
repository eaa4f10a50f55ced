//! What an edit stores or removes, once its reply is known.

ghost use Rattle.std.specs.Prelude.{◌≡◌, IsOk, OnOk, OnErr, option_map};
ghost use Rattle.std.specs.Arc.{arc_value};
ghost use Rattle.dita_doc.specs.Request as request_spec;
ghost use Rattle.dita_doc.specs.Desk as desk_spec;
ghost use Rattle.dita_doc.specs.Seen as seen_spec;
ghost use Rattle.version_store.specs.Change as change_spec;

use dita_doc::{Body, Edit, Name, Reply, Request, Sources, StoredDoc};
use std::alloc::AllocError;
use std::sync::Arc;

/// Puts the sources that a group has left in the place of these, or else stores or removes what a
/// request with this reply says. Without memory nothing changes. Sources that have no other owner
/// are changed in place.
pub fn change(
    sources: &mut Arc<Sources>,
    request: &Request,
    reply: &Reply,
    left: Option<Arc<Sources>>,
) -> Result<(), AllocError>
    requires text { change_spec.StoresTextIfEdit
        (seen_spec.request_seen request.now) (seen_spec.reply_seen reply.now) }
    requires origin { seen_spec.HasOwnOrigin request.now }
    ensures ok { OnOk result (arc_value sources.new ≡ change_spec.left_by (arc_value sources.old)
        (seen_spec.request_seen request.now) (seen_spec.reply_seen reply.now)
        (option_map arc_value left)) }
    ensures err { OnErr result (arc_value sources.new ≡ arc_value sources.old) }
{
    match left {
        Some(left) => {
            *sources = left;
            Ok(())
        }
        None => change_in_place(sources, request, reply),
    }
}

fn change_in_place(
    sources: &mut Arc<Sources>,
    request: &Request,
    reply: &Reply,
) -> Result<(), AllocError>
    requires text { change_spec.StoresTextIfEdit
        (seen_spec.request_seen request.now) (seen_spec.reply_seen reply.now) }
    requires origin { seen_spec.HasOwnOrigin request.now }
    ensures ok { OnOk result (arc_value sources.new ≡ change_spec.after_reply (arc_value sources.old)
        (seen_spec.request_seen request.now) (seen_spec.reply_seen reply.now)) }
    ensures err { OnErr result (arc_value sources.new ≡ arc_value sources.old) }
{
    match (request, reply) {
        (Request::Put(name, body) | Request::PutIf(_, name, body), Reply::Stored(version)) => {
            store(sources, *version, name, body)
        }
        (Request::Remove(name), Reply::Removed(_)) => remove(sources, name),
        _ => Ok(()),
    }
}

/// Stores or removes what an edit with this reply says. Without memory nothing changes.
pub fn edit_in_place(
    sources: &mut Arc<Sources>,
    edit: &Edit,
    reply: &Reply,
) -> Result<(), AllocError>
    requires text { change_spec.StoresText
        (seen_spec.edit_seen edit.now) (seen_spec.reply_seen reply.now) }
    requires origin { seen_spec.IsOwnEdit edit.now }
    ensures ok { OnOk result (arc_value sources.new ≡ desk_spec.after_edit (arc_value sources.old)
        (seen_spec.edit_seen edit.now) (seen_spec.reply_seen reply.now)) }
    ensures err { OnErr result (arc_value sources.new ≡ arc_value sources.old) }
{
    match (edit, reply) {
        (Edit::Put(name, body) | Edit::PutIf(_, name, body), Reply::Stored(version)) => {
            store(sources, *version, name, body)
        }
        (Edit::Remove(name), Reply::Removed(_)) => remove(sources, name),
        _ => Ok(()),
    }
}

fn store(
    sources: &mut Arc<Sources>,
    version: u64,
    name: &Name,
    body: &Body,
) -> Result<(), AllocError>
    requires text { IsOk body.now.read }
    requires origin { seen_spec.HasOrigin name.now body.now }
    ensures ok { OnOk result (arc_value sources.new ≡ desk_spec.after_edit (arc_value sources.old)
        (request_spec.Put name.now (seen_spec.body_seen body.now)) (desk_spec.IsStored version)) }
    ensures err { OnErr result (arc_value sources.new ≡ arc_value sources.old) }
{
    let Ok(doc) = &body.read else { unreachable!() };
    let document = StoredDoc {
        name: name.clone()?,
        version,
        bytes: Arc::try_clone(&body.bytes)?,
        doc: Arc::try_clone(doc)?,
    };
    Arc::make_mut(sources)?.put(document)
}

fn remove(sources: &mut Arc<Sources>, name: &Name) -> Result<(), AllocError>
    ensures ok { OnOk result
        (arc_value sources.new ≡ desk_spec.without_name name.now (arc_value sources.old)) }
    ensures err { OnErr result (arc_value sources.new ≡ arc_value sources.old) }
{
    Arc::make_mut(sources)?.remove(name)?;
    Ok(())
}
