//! Requests with the replies that the rules give them, derived by hand.

ghost use Rattle.std.specs.Prelude.{IfOk};
ghost use Rattle.dita_doc.specs.Request as request_spec;
ghost use Rattle.dita_doc.specs.Seen as seen_spec;

use crate::given::name;
use dita_doc::{
    Body, Edit, EditFault, List, Name, PyxCode, PyxFault, Reply, Request, Sources, Stop,
};
use pyx_text::read_body;
use std::alloc::{AllocError, Global};
use std::sync::Arc;
use std::test::Fail;
use version_store::{Full, Store};

const TEXT: &[u8] = b"(p\n)p\n";

const NO_ROOT: PyxFault = PyxFault {
    code: PyxCode::NoRoot,
    line: 0,
};

// The text of one element, to be stored under a name.
fn element(alloc: Global, name: &Name) -> Result<Body, AllocError>
    ensures { IfOk result (λ body. seen_spec.HasOrigin name.now body) }
{
    read_body(alloc, name, List::from_slice(alloc, TEXT)?).map_err(|_| AllocError)
}

// The empty text, which is no document.
fn nothing(alloc: Global, name: &Name) -> Result<Body, AllocError>
    ensures { IfOk result (λ body. seen_spec.HasOrigin name.now body) }
{
    read_body(alloc, name, List::new(alloc)).map_err(|_| AllocError)
}

fn put(alloc: Global, name: &Name) -> Result<Request, AllocError>
    ensures origin { IfOk result (λ request. seen_spec.HasOwnOrigin request) }
    ensures edits { IfOk result (λ request. request_spec.HasFewEdits
        (seen_spec.request_seen request)) }
{
    Ok(Request::Put(name.clone()?, element(alloc, name)?))
}

fn put_if(alloc: Global, version: u64, name: &Name) -> Result<Request, AllocError>
    ensures origin { IfOk result (λ request. seen_spec.HasOwnOrigin request) }
    ensures edits { IfOk result (λ request. request_spec.HasFewEdits
        (seen_spec.request_seen request)) }
{
    let body = element(alloc, name)?;
    Ok(Request::PutIf(version, name.clone()?, body))
}

// The group that removes one name, and puts a text under another one at this version.
fn remove_and_put_if(
    alloc: Global,
    gone: &Name,
    version: u64,
    name: &Name,
) -> Result<Request, AllocError>
    ensures origin { IfOk result (λ request. seen_spec.HasOwnOrigin request) }
    ensures edits { IfOk result (λ request. request_spec.HasFewEdits
        (seen_spec.request_seen request)) }
{
    let mut edits = List::new(alloc);
    edits.push(Edit::Remove(gone.clone()?))?;
    let body = element(alloc, name)?;
    edits.push(Edit::PutIf(version, name.clone()?, body))?;
    Ok(Request::Group(edits))
}

// The group that puts a text under a name, and removes it again.
fn put_and_remove(alloc: Global, name: &Name) -> Result<Request, AllocError>
    ensures origin { IfOk result (λ request. seen_spec.HasOwnOrigin request) }
    ensures edits { IfOk result (λ request. request_spec.HasFewEdits
        (seen_spec.request_seen request)) }
{
    let mut edits = List::new(alloc);
    edits.push(Edit::Put(name.clone()?, element(alloc, name)?))?;
    edits.push(Edit::Remove(name.clone()?))?;
    Ok(Request::Group(edits))
}

// What a reply tells: its number or its fault, whether its bytes are the text that was stored, and
// how many names it has.
#[derive(Clone, Copy, PartialEq, Eq)]
enum ReplyTold {
    Stored(u64),
    Removed(u64),
    Conflict(u64),
    Refused(PyxFault),
    Absent,
    Text(bool),
    Names(usize),
    Begun,
    Grouped(u32),
    Stopped(u32, EditFault),
    Other,
}

fn told_by(reply: &Reply) -> ReplyTold {
    match reply {
        Reply::Stored(version) => ReplyTold::Stored(*version),
        Reply::Removed(version) => ReplyTold::Removed(*version),
        Reply::Conflict(version) => ReplyTold::Conflict(*version),
        Reply::Refused(fault) => ReplyTold::Refused(*fault),
        Reply::Absent => ReplyTold::Absent,
        Reply::Bytes(bytes) => ReplyTold::Text(bytes.as_slice() == TEXT),
        Reply::NameList(names) => ReplyTold::Names(names.len()),
        Reply::Begun => ReplyTold::Begun,
        Reply::Grouped(edits) => ReplyTold::Grouped(*edits),
        Reply::Stopped(number, fault) => ReplyTold::Stopped(*number, *fault),
        _ => ReplyTold::Other,
    }
}

fn ask(store: &mut Store, alloc: Global, request: Request) -> Result<ReplyTold, AllocError>
    requires origin { seen_spec.HasOwnOrigin request }
    requires edits { request_spec.HasFewEdits (seen_spec.request_seen request) }
{
    match store.answer_with_reply(alloc, 1, 1, request) {
        Ok((_, reply)) => Ok(told_by(&reply)),
        Err(_) => Err(AllocError),
    }
}

// A store of one document, in version 1.
fn stored(alloc: Global, name: &Name) -> Result<Store, AllocError> {
    let mut store = Store::new(alloc).map_err(|_| AllocError)?;
    match ask(&mut store, alloc, put(alloc, name)?)? {
        ReplyTold::Stored(1) => Ok(store),
        _ => Err(AllocError),
    }
}

#[test]
fn a_put_under_a_version_is_judged(rt: HostRuntime) -> Result<(), Fail> {
    let alloc = rt.alloc();
    let a = name(alloc, "a")?;
    let mut store = stored(alloc, &a)?;
    // A text that is no document is refused before its version is looked at.
    let request = Request::PutIf(9, a.clone()?, nothing(alloc, &a)?);
    assert!(rt; ask(&mut store, alloc, request)? == ReplyTold::Refused(NO_ROOT));
    let request = put_if(alloc, 9, &a)?;
    assert!(rt; ask(&mut store, alloc, request)? == ReplyTold::Conflict(1));
    let request = put_if(alloc, 1, &a)?;
    assert!(rt; ask(&mut store, alloc, request)? == ReplyTold::Stored(4));
    assert!(rt; store.entries() == 4);
    assert!(rt; told_by(&store.entry(2).reply) == ReplyTold::Conflict(1));
    Ok(())
}

#[test]
fn what_is_stored_is_given(rt: HostRuntime) -> Result<(), Fail> {
    let alloc = rt.alloc();
    let a = name(alloc, "a")?;
    let mut store = stored(alloc, &a)?;
    assert!(rt; ask(&mut store, alloc, Request::Get(a.clone()?))? == ReplyTold::Text(true));
    assert!(rt; ask(&mut store, alloc, Request::Names)? == ReplyTold::Names(1));
    assert!(rt; ask(&mut store, alloc, Request::Build(a, None))? == ReplyTold::Begun);
    Ok(())
}

#[test]
fn what_is_removed_is_gone(rt: HostRuntime) -> Result<(), Fail> {
    let alloc = rt.alloc();
    let a = name(alloc, "a")?;
    let mut store = stored(alloc, &a)?;
    assert!(rt; ask(&mut store, alloc, Request::Remove(a.clone()?))? == ReplyTold::Removed(1));
    assert!(rt; ask(&mut store, alloc, Request::Get(a))? == ReplyTold::Absent);
    Ok(())
}

#[test]
fn a_group_that_is_refused_leaves_everything(rt: HostRuntime) -> Result<(), Fail> {
    let alloc = rt.alloc();
    let a = name(alloc, "a")?;
    let b = name(alloc, "b")?;
    let mut store = stored(alloc, &a)?;
    let request = remove_and_put_if(alloc, &a, 1, &b)?;
    let conflict = EditFault::Conflict(0);
    assert!(rt; ask(&mut store, alloc, request)? == ReplyTold::Stopped(2, conflict));
    assert!(rt; version_of(store.sources(), &a) == Some(1));
    assert!(rt; version_of(store.sources(), &b) == None);
    let request = remove_and_put_if(alloc, &b, 0, &a)?;
    assert!(rt; ask(&mut store, alloc, request)? == ReplyTold::Stopped(1, EditFault::Absent));
    Ok(())
}

#[test]
fn the_edits_of_a_group_have_its_version(rt: HostRuntime) -> Result<(), Fail> {
    let alloc = rt.alloc();
    let a = name(alloc, "a")?;
    let b = name(alloc, "b")?;
    let mut store = stored(alloc, &a)?;
    let request = remove_and_put_if(alloc, &a, 0, &b)?;
    assert!(rt; ask(&mut store, alloc, request)? == ReplyTold::Grouped(2));
    assert!(rt; version_of(store.sources(), &a) == None);
    assert!(rt; version_of(store.sources(), &b) == Some(2));
    assert!(rt; ask(&mut store, alloc, Request::Names)? == ReplyTold::Names(1));
    Ok(())
}

#[test]
fn an_edit_of_a_group_sees_those_before_it(rt: HostRuntime) -> Result<(), Fail> {
    let alloc = rt.alloc();
    let a = name(alloc, "a")?;
    let b = name(alloc, "b")?;
    let mut store = stored(alloc, &a)?;
    let request = Request::Group(List::new(alloc));
    assert!(rt; ask(&mut store, alloc, request)? == ReplyTold::Grouped(0));
    let request = put_and_remove(alloc, &b)?;
    assert!(rt; ask(&mut store, alloc, request)? == ReplyTold::Grouped(2));
    assert!(rt; version_of(store.sources(), &a) == Some(1));
    assert!(rt; version_of(store.sources(), &b) == None);
    Ok(())
}

const FULL: Full = Full {
    entries: 1,
    bytes: 1,
};

// Of a history without an entry.
const NOTHING: Full = Full {
    entries: 0,
    bytes: 0,
};

#[test]
fn a_history_of_one_entry_answers_no_more(rt: HostRuntime) -> Result<(), Fail> {
    let alloc = rt.alloc();
    let a = name(alloc, "a")?;
    let mut one = Store::with_limits(alloc, 1, 100).map_err(|_| AllocError)?;
    assert!(rt; one.answer(alloc, 1, 1, Request::Get(a)) == Ok(0));
    assert!(rt; one.answer(alloc, 1, 2, Request::Names) == Err(Stop::Fault(FULL)));
    Ok(())
}

#[test]
fn a_history_of_one_byte_answers_what_takes_none(rt: HostRuntime) -> Result<(), Fail> {
    let alloc = rt.alloc();
    let a = name(alloc, "a")?;
    let mut short = Store::with_limits(alloc, 9, 1).map_err(|_| AllocError)?;
    assert!(rt; short.answer(alloc, 1, 1, Request::Get(a.clone()?)) == Ok(0));
    assert!(rt; short.answer(alloc, 1, 2, Request::Get(a)) == Err(Stop::Fault(FULL)));
    assert!(rt; short.answer(alloc, 1, 2, Request::Names) == Ok(1));
    Ok(())
}

#[test]
fn all_edits_of_a_group_are_counted(rt: HostRuntime) -> Result<(), Fail> {
    let alloc = rt.alloc();
    let a = name(alloc, "a")?;
    let b = name(alloc, "b")?;
    // Two names of one byte, and a text of six.
    let mut short = Store::with_limits(alloc, 9, 7).map_err(|_| AllocError)?;
    let request = remove_and_put_if(alloc, &a, 0, &b)?;
    assert!(rt; short.answer(alloc, 1, 1, request) == Err(Stop::Fault(NOTHING)));
    let mut enough = Store::with_limits(alloc, 9, 8).map_err(|_| AllocError)?;
    let request = remove_and_put_if(alloc, &a, 0, &b)?;
    assert!(rt; enough.answer(alloc, 1, 1, request) == Ok(0));
    Ok(())
}

#[test]
fn a_snapshot_stays_what_it_is(rt: HostRuntime) -> Result<(), Fail> {
    let alloc = rt.alloc();
    let a = name(alloc, "a")?;
    let b = name(alloc, "b")?;
    let mut store = stored(alloc, &b)?;
    let before = Arc::try_clone(store.sources())?;
    ask(&mut store, alloc, put(alloc, &a)?)?;
    ask(&mut store, alloc, Request::Remove(b.clone()?))?;
    assert!(rt; version_of(&before, &b) == Some(1));
    assert!(rt; version_of(&before, &a) == None);
    assert!(rt; version_of(store.sources(), &a) == Some(2));
    assert!(rt; version_of(store.sources(), &b) == None);
    Ok(())
}

fn version_of(sources: &Sources, name: &Name) -> Option<u64> {
    sources.get(name).map(|(version, _)| version)
}
