//! The reply to an edit or a question, by what is stored. Nothing changes here.

ghost use Rattle.std.specs.Prelude.{◌≡◌, ◌+◌, ◌<◌, ◌^◌, ◌&&◌, IfOk, not, is_some, length, nat_le, map};
ghost use Rattle.dita_doc.specs.Request as request_spec;
ghost use Rattle.dita_doc.specs.Desk as desk_spec;
ghost use Rattle.dita_doc.specs.Seen as seen_spec;

use dita_doc::{Body, Edit, List, Name, Read, Reply, Sources};
use std::alloc::{AllocError, Global};
use std::sync::Arc;

// How many names may be stored.
const STORED_LIMIT: u32 = 10_000;

/// The reply to the edit at a place.
pub fn edit_reply(sources: &Sources, place: u64, edit: &Edit) -> Reply
    requires { place + 1 < 2 ^ 64 }
    ensures { seen_spec.reply_seen result
        ≡ desk_spec.edit_reply sources.now place (seen_spec.edit_seen edit.now) }
{
    match edit {
        Edit::Put(name, body) => put_reply(sources, place, name, body),
        Edit::PutIf(version, name, body) => put_if_reply(sources, place, *version, name, body),
        Edit::Remove(name) => remove_reply(sources, name),
    }
}

/// The reply to a put.
pub fn put_reply(sources: &Sources, place: u64, name: &Name, body: &Body) -> Reply
    requires { place + 1 < 2 ^ 64 }
    ensures { seen_spec.reply_seen result
        ≡ desk_spec.edit_reply sources.now place
        (request_spec.Put name.now (seen_spec.body_seen body.now)) }
{
    match &body.read {
        Ok(_) => store_reply(sources, place, name),
        Err(fault) => Reply::Refused(*fault),
    }
}

/// The reply to a put if this version stands under the name.
pub fn put_if_reply(sources: &Sources, place: u64, version: u64, name: &Name, body: &Body) -> Reply
    requires { place + 1 < 2 ^ 64 }
    ensures { seen_spec.reply_seen result
        ≡ desk_spec.edit_reply sources.now place
        (request_spec.PutIf version name.now (seen_spec.body_seen body.now)) }
{
    let stands = version_under(sources, name);
    match &body.read {
        Ok(_) if stands != version => Reply::Conflict(stands),
        _ => put_reply(sources, place, name, body),
    }
}

// The reply if a body is a text that may be stored.
fn store_reply(sources: &Sources, place: u64, name: &Name) -> Reply
    requires { place + 1 < 2 ^ 64 }
    ensures { seen_spec.reply_seen result ≡ desk_spec.store_reply sources.now place name.now }
{
    if has_no_room(sources, name) {
        Reply::TooManyNames(STORED_LIMIT)
    } else {
        Reply::Stored(place + 1)
    }
}

// Whether the names are as many as may be, and this is none of them.
fn has_no_room(sources: &Sources, name: &Name) -> bool
    ensures { result ≡ (nat_le desk_spec.stored_limit (length sources.now)
        && not (is_some (desk_spec.stored_under sources.now name.now))) }
{
    sources.names() >= u64::from(STORED_LIMIT) && sources.find(name).is_none()
}

fn version_under(sources: &Sources, name: &Name) -> u64
    ensures { result ≡ desk_spec.version_at sources.now name.now }
{
    match sources.find(name) {
        Some(document) => document.version,
        None => 0,
    }
}

/// The reply to a removal.
pub fn remove_reply(sources: &Sources, name: &Name) -> Reply
    ensures { seen_spec.reply_seen result
        ≡ desk_spec.remove_reply (desk_spec.stored_under sources.now name.now) }
{
    match sources.find(name) {
        Some(document) => Reply::Removed(document.version),
        None => Reply::Absent,
    }
}

/// The reply to a get.
pub fn get_reply(sources: &Sources, name: &Name) -> Result<Reply, AllocError>
    ensures { IfOk result (λ answer. seen_spec.reply_seen answer
        ≡ desk_spec.get_reply (desk_spec.stored_under sources.now name.now)) }
{
    match sources.find(name) {
        Some(document) => Ok(Reply::Bytes(Arc::try_clone(&document.bytes)?)),
        None => Ok(Reply::Absent),
    }
}

/// All names that are stored, with their versions.
pub fn names_reply(alloc: Global, sources: &Sources) -> Result<Reply, AllocError>
    ensures { IfOk result (λ answer. seen_spec.reply_seen answer
        ≡ desk_spec.NameList (map desk_spec.listed sources.now)) }
{
    let mut names = Vec::new(alloc);
    for document in sources.iter() {
        names.push(Read {
            name: document.name.clone()?,
            version: document.version,
        })?;
    }
    Ok(Reply::NameList(List::from_vec(names)))
}

/// The same reply. Bytes are shared, and a list of names is copied.
pub fn copy_of(alloc: Global, reply: &Reply) -> Result<Reply, AllocError>
    ensures { IfOk result (λ copy. seen_spec.reply_seen copy ≡ seen_spec.reply_seen reply.now) }
{
    match reply {
        Reply::Stored(version) => Ok(Reply::Stored(*version)),
        Reply::Removed(version) => Ok(Reply::Removed(*version)),
        Reply::Bytes(bytes) => Ok(Reply::Bytes(Arc::try_clone(bytes)?)),
        Reply::NameList(names) => Ok(Reply::NameList(copy_of_names(alloc, names.as_slice())?)),
        Reply::Refused(fault) => Ok(Reply::Refused(*fault)),
        Reply::Conflict(version) => Ok(Reply::Conflict(*version)),
        Reply::Absent => Ok(Reply::Absent),
        Reply::TooManyNames(limit) => Ok(Reply::TooManyNames(*limit)),
        Reply::Begun => Ok(Reply::Begun),
        Reply::Grouped(edits) => Ok(Reply::Grouped(*edits)),
        Reply::Stopped(number, fault) => Ok(Reply::Stopped(*number, *fault)),
    }
}

fn copy_of_names(alloc: Global, names: &[Read]) -> Result<List<Read>, AllocError>
    ensures { IfOk result (λ copy. copy ≡ names.now) }
{
    let mut copy = Vec::new(alloc);
    for read in names {
        copy.push(Read {
            name: read.name.clone()?,
            version: read.version,
        })?;
    }
    Ok(List::from_vec(copy))
}
