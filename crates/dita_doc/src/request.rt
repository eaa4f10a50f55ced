//! What is asked of the desk, and what it answers.

use crate::body::Body;
use crate::fault::PyxFault;
use crate::list::List;
use crate::name::Name;
use std::sync::Arc;

/// A change of what is stored.
#[derive(Drop)]
pub enum Edit {
    /// Stores a body under a name, in the place of what stands there.
    Put(Name, Body),
    /// Stores a body if this version stands under the name; an absent name has version 0.
    PutIf(u64, Name, Body),
    /// Removes what is stored under a name.
    Remove(Name),
}

impl Edit {
    ghost use Rattle.std.specs.Prelude.{◌≡◌};
    ghost use Rattle.dita_doc.specs.Request as request_spec;
    ghost use Rattle.dita_doc.specs.Seen as seen_spec;

    /// The request for this edit alone.
    pub fn into_request(self) -> Request
        ensures request { seen_spec.request_seen result
            ≡ request_spec.Single (seen_spec.edit_seen self) }
        ensures origin { seen_spec.IsOwnEdit self → seen_spec.HasOwnOrigin result }
    {
        match self {
            Edit::Put(name, body) => Request::Put(name, body),
            Edit::PutIf(version, name, body) => Request::PutIf(version, name, body),
            Edit::Remove(name) => Request::Remove(name),
        }
    }
}

/// Why an edit is refused.
#[derive(Clone, Copy, Debug, PartialEq, Eq)]
pub enum EditFault {
    /// The body is no PYX text.
    Refused(PyxFault),
    /// This version stands under the name, and not the one that was given.
    Conflict(u64),
    /// Nothing is stored under the name.
    Absent,
    /// So many names are stored, the most that may be, and this one is not among them.
    TooManyNames(u32),
}

/// A request. A call that takes one has the conditions that a document in the body of a put has the
/// put's name as its origin, and that a group has at most 1,000 edits.
#[derive(Drop)]
pub enum Request {
    /// Stores a body under a name, in the place of what stands there.
    Put(Name, Body),
    /// Stores a body if this version stands under the name; an absent name has version 0.
    PutIf(u64, Name, Body),
    /// Removes what is stored under a name.
    Remove(Name),
    /// Asks for the bytes that are stored under a name.
    Get(Name),
    /// Asks for all names that are stored.
    Names,
    /// Builds the pages of a map, with a DITAVAL or without.
    Build(Name, Option<Name>),
    /// Does all of these edits, one after the other, or none of them if one is refused.
    Group(List<Edit>),
}

/// A name with the version that stood under it. An absent name has version 0.
#[derive(PartialEq, Eq, Drop)]
pub struct Read {
    pub name: Name,
    pub version: u64,
}

/// The desk's reply to a request.
#[derive(Drop)]
pub enum Reply {
    /// The body was stored with this version.
    Stored(u64),
    /// The document with this version was removed.
    Removed(u64),
    /// The bytes as they were put.
    Bytes(Arc<List<u8>>),
    /// All names that are stored, by their bytes.
    NameList(List<Read>),
    /// The body is no PYX text.
    Refused(PyxFault),
    /// This version stands under the name, and not the one that was given.
    Conflict(u64),
    /// Nothing is stored under the name.
    Absent,
    /// So many names are stored, the most that may be, and this one is not among them.
    TooManyNames(u32),
    /// A build has its place.
    Begun,
    /// All edits of a group were done, so many.
    Grouped(u32),
    /// No edit of a group was done: the one of this number, counted from 1, is the first that is
    /// refused.
    Stopped(u32, EditFault),
}

/// A request of a session, with its number and its reply. In a script requests are numbered from 1
/// over all sessions.
#[derive(Drop)]
pub struct Entry {
    pub session: u32,
    pub number: u32,
    pub request: Request,
    pub reply: Reply,
}
