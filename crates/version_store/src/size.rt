//! How many bytes of names and bodies a request has.

ghost use Rattle.std.specs.Prelude.{◌≡◌, ◌+◌, ◌<◌, ◌≤◌, ◌^◌, length, map, sum};
ghost use Rattle.dita_doc.specs.Request as request_spec;
ghost use Rattle.dita_doc.specs.Seen as seen_spec;

use dita_doc::{Body, Edit, Name, Request};

/// The bytes of a request's names and bodies.
pub fn text_bytes(request: &Request) -> u128
    requires { request_spec.HasFewEdits (seen_spec.request_seen request.now) }
    ensures { result ≡ request_spec.text_size (seen_spec.request_seen request.now) }
{
    match request {
        Request::Put(name, body) | Request::PutIf(_, name, body) => u128::from(put_bytes(
            name, body,
        )),
        Request::Remove(name) | Request::Get(name) => name.as_bytes().len() as u128,
        Request::Names => 0,
        Request::Build(map, None) => map.as_bytes().len() as u128,
        Request::Build(map, Some(val)) => {
            map.as_bytes().len() as u128 + val.as_bytes().len() as u128
        }
        Request::Group(edits) => group_bytes(edits.as_slice()),
    }
}

// All the names and bodies of a group may be longer than a `u64` tells.
fn group_bytes(edits: &[Edit]) -> u128
    requires { length edits.now ≤ request_spec.edit_limit }
    ensures { result
        ≡ request_spec.text_size (request_spec.Group (map seen_spec.edit_seen edits.now)) }
{
    let mut bytes = 0;
    for edit in edits {
        bytes += u128::from(edit_bytes(edit));
    }
    bytes
}

fn edit_bytes(edit: &Edit) -> u64
    ensures { result ≡ request_spec.edit_size (seen_spec.edit_seen edit.now) }
{
    match edit {
        Edit::Put(name, body) | Edit::PutIf(_, name, body) => put_bytes(name, body),
        Edit::Remove(name) => name.as_bytes().len() as u64,
    }
}

fn put_bytes(name: &Name, body: &Body) -> u64
    ensures { result ≡ length name.now + length (seen_spec.body_seen body.now) }
{
    name.as_bytes().len() as u64 + body.bytes.len() as u64
}
