//! One test for each adapter of the system, and the forms in memory at a failing call.

use crate::given::name;
use dita_doc::{List, Stop, Text};
use dita_outside::{
    Failed, FolderOutlet, Link, MemLink, MemOutlet, MemSink, MemSource, Outlet, Sink, Source,
    StdSink, StdSource, SureLink,
};
use std::alloc::{AllocError, Global};
use std::io::ErrorKind;
use std::os::unix::fs::MetadataExt;
use std::test::Fail;
use std::{env, fs};

fn calls(alloc: Global, numbers: &[u32]) -> Result<List<u32>, AllocError> {
    Ok(List::from_vec(Vec::from_slice(alloc, numbers)?))
}

fn source(alloc: Global, bytes: &[u8], failing: &[u32]) -> Result<MemSource, AllocError> {
    let bytes = List::from_slice(alloc, bytes)?;
    Ok(MemSource::new(bytes, calls(alloc, failing)?))
}

#[test]
fn a_source_fails_at_its_second_call(rt: HostRuntime) -> Result<(), Fail> {
    let mut source = source(rt.alloc(), b"abc", &[2])?;
    let mut buffer = [0u8; 2];
    assert!(rt; source.read(&mut buffer) == Ok(2));
    assert!(rt; source.read(&mut buffer) == Err(Failed));
    assert!(rt; source.read(&mut buffer) == Ok(1));
    assert!(rt; buffer[0] == b'c');
    Ok(())
}

#[test]
fn a_source_gives_pieces_of_the_sizes_listed(rt: HostRuntime) -> Result<(), Fail> {
    let alloc = rt.alloc();
    let bytes = List::from_slice(alloc, b"abcdefg")?;
    let mut source = MemSource::in_pieces(bytes, calls(alloc, &[2, 0])?);
    let mut buffer = [0u8; 8];
    assert!(rt; source.read(&mut buffer) == Ok(2));
    assert!(rt; source.read(&mut buffer) == Ok(1));
    assert!(rt; buffer[0] == b'c');
    assert!(rt; source.read(&mut buffer) == Ok(4));
    assert!(rt; source.read(&mut buffer) == Ok(0));
    Ok(())
}

#[test]
fn a_sink_takes_what_it_has_room_for(rt: HostRuntime) -> Result<(), Fail> {
    let alloc = rt.alloc();
    let mut sink = MemSink::with_room(alloc, 3);
    assert_eq!(rt; sink.write(b"abcd"), Ok(3));
    assert_eq!(rt; sink.write(b"d"), Err(Stop::Fault(Failed)));
    assert!(rt; sink.bytes().as_slice() == b"abc".as_slice());
    Ok(())
}

// Whether an outlet takes a page, and does not fail at it.
fn takes<O: Outlet>(
    outlet: &mut O,
    alloc: Global,
    page: &str,
    bytes: &[u8],
) -> Result<bool, AllocError> {
    match outlet.put_page(alloc, &name(alloc, page)?, bytes) {
        Ok(()) => Ok(true),
        Err(Stop::Fault(Failed)) => Ok(false),
        Err(Stop::NoMemory) => Err(AllocError),
    }
}

// Whether an outlet took one page, with these bytes.
fn has_one(outlet: &MemOutlet, bytes: &[u8]) -> bool {
    match outlet.pages().as_slice() {
        [page] => page.1.as_slice() == bytes,
        _ => false,
    }
}

#[test]
fn an_outlet_does_not_take_the_page_that_failed(rt: HostRuntime) -> Result<(), Fail> {
    let alloc = rt.alloc();
    let mut outlet = MemOutlet::new(alloc, calls(alloc, &[1])?);
    assert!(rt; !takes(&mut outlet, alloc, "b1/t.html", b"x")?);
    assert!(rt; takes(&mut outlet, alloc, "b1/t.html", b"y")?);
    assert!(rt; has_one(&outlet, b"y"));
    Ok(())
}

// Two messages.
fn messages(alloc: Global) -> Result<List<List<u8>>, AllocError> {
    let mut messages = List::new(alloc);
    messages.push(List::from_slice(alloc, b"one")?)?;
    messages.push(List::from_slice(alloc, b"two")?)?;
    Ok(messages)
}

// Whether a link gives this message next, or its end.
fn gives<L: Link>(
    link: &mut L,
    alloc: Global,
    message: Option<&[u8]>,
) -> Result<bool, Stop<Failed>> {
    let next = link.receive(alloc)?;
    Ok(next.as_ref().map(List::as_slice) == message)
}

// Whether these messages were sent, and no other.
fn were_sent(sent: &List<List<u8>>, messages: &[&[u8]]) -> bool {
    sent.as_slice()
        .iter()
        .map(List::as_slice)
        .eq(messages.iter().copied())
}

#[test]
fn a_link_fails_at_its_second_call_and_loses_nothing(rt: HostRuntime) -> Result<(), Fail> {
    let alloc = rt.alloc();
    let mut link = MemLink::new(alloc, messages(alloc)?, calls(alloc, &[2, 4])?);
    assert_eq!(rt; gives(&mut link, alloc, Some(b"one")), Ok(true));
    assert_eq!(rt;
        gives(&mut link, alloc, Some(b"two")),
        Err(Stop::Fault(Failed))
    );
    assert_eq!(rt; gives(&mut link, alloc, Some(b"two")), Ok(true));
    assert_eq!(rt; link.send(alloc, b"lost"), Err(Stop::Fault(Failed)));
    assert_eq!(rt; link.send(alloc, b"kept"), Ok(()));
    assert_eq!(rt; gives(&mut link, alloc, None), Ok(true));
    assert!(rt; were_sent(link.sent(), &[b"kept"]));
    Ok(())
}

#[test]
fn a_sure_link_keeps_what_is_sent(rt: HostRuntime) -> Result<(), Fail> {
    let alloc = rt.alloc();
    let mut link = SureLink::new(alloc, messages(alloc)?);
    assert_eq!(rt; gives(&mut link, alloc, Some(b"one")), Ok(true));
    assert_eq!(rt; link.send(alloc, b"three"), Ok(()));
    assert_eq!(rt; link.send(alloc, b""), Ok(()));
    assert!(rt; were_sent(link.sent(), &[b"three", b""]));
    Ok(())
}

#[test]
fn standard_input_is_read(rt: HostRuntime) -> Result<(), Fail> {
    let mut source = StdSource::new(b"ab".as_slice());
    let mut buffer = [0u8; 4];
    assert_eq!(rt; source.first_byte(), None);
    assert_eq!(rt; source.read(&mut buffer), Ok(2));
    assert_eq!(rt; source.read(&mut buffer), Ok(0));
    assert_eq!(rt; source.first_byte(), Some(b'a'));
    Ok(())
}

#[test]
fn standard_output_is_written(rt: HostRuntime) -> Result<(), Fail> {
    let mut sink = StdSink::new(Vec::new(rt.alloc()));
    assert_eq!(rt; sink.write(b"ab"), Ok(2));
    assert_eq!(rt; sink.write(b""), Ok(0));
    Ok(())
}

// A folder for this process alone, among the temporary files.
fn own_folder(rt: &HostRuntime) -> Result<String, Fail> {
    let folder = env::temp_dir(rt)?;
    let folder = folder.as_path().to_str().ok_or("no text")?;
    let id = std::process::id(rt.process());
    Ok(format!(in rt.alloc(); "{folder}/dita-outlet-{id}")?)
}

// The path of a page's file in a folder.
fn path_of(alloc: Global, folder: &str, page: &str) -> Result<String, AllocError> {
    format!(in alloc; "{folder}/{page}")
}

// The number of a page's file, if it is there.
fn number_of(rt: &HostRuntime, folder: &str, page: &str) -> Result<Option<u64>, AllocError> {
    let path = path_of(rt.alloc(), folder, page)?;
    Ok(match fs::metadata(rt, path.as_str()) {
        Ok(told) => Some(told.ino()),
        Err(_) => None,
    })
}

// Whether a page's file is there, with these bytes.
fn holds(rt: &HostRuntime, folder: &str, page: &str, bytes: &[u8]) -> Result<bool, AllocError> {
    let path = path_of(rt.alloc(), folder, page)?;
    Ok(match fs::read(rt, path.as_str()) {
        Ok(read) => read.as_slice() == bytes,
        Err(_) => false,
    })
}

// The number of the file of a page that was put.
fn put(
    rt: &HostRuntime,
    outlet: &mut FolderOutlet<HostRuntime>,
    folder: &str,
    bytes: &[u8],
) -> Result<Option<u64>, AllocError> {
    if takes(outlet, rt.alloc(), "b1/a/t.html", bytes)? {
        number_of(rt, folder, "b1/a/t.html")
    } else {
        Ok(None)
    }
}

// Whether the last failure is that of this page, where a folder stands.
fn failed_at(
    outlet: &FolderOutlet<HostRuntime>,
    alloc: Global,
    folder: &str,
    page: &str,
) -> Result<bool, AllocError> {
    let path = path_of(alloc, folder, page)?;
    Ok(match outlet.last_error() {
        Some(told) => {
            told.path.as_str() == path.as_str() && told.error.kind() == ErrorKind::IsADirectory
        }
        None => false,
    })
}

// Whether a page is put, its file is left as it is while the page stays the same, another page has
// another file, and that file holds it.
fn puts(
    rt: &HostRuntime,
    outlet: &mut FolderOutlet<HostRuntime>,
    folder: &str,
) -> Result<(bool, bool, bool, bool), AllocError> {
    let first = put(rt, outlet, folder, b"one")?;
    let same = put(rt, outlet, folder, b"one")?;
    let other = put(rt, outlet, folder, b"two")?;
    let held = holds(rt, folder, "b1/a/t.html", b"two")?;
    let new = other.is_some() && other != first;
    Ok((first.is_some(), same == first, new, held))
}

// Whether a page where a folder stands is not put, leaves nothing beside it, and is told of.
fn refuses(
    rt: &HostRuntime,
    outlet: &mut FolderOutlet<HostRuntime>,
    folder: &str,
) -> Result<(bool, bool, bool), AllocError> {
    let alloc = rt.alloc();
    let taken = takes(outlet, alloc, "b1/a", b"x")?;
    let beside = number_of(rt, folder, "b1/a new")?;
    let told = failed_at(outlet, alloc, folder, "b1/a")?;
    Ok((!taken, beside.is_none(), told))
}

// What an outlet puts into a folder, and what it refuses there. The folder goes again.
fn tried(rt: &HostRuntime) -> Result<((bool, bool, bool, bool), (bool, bool, bool)), Fail> {
    let folder = own_folder(rt)?;
    let folder = folder.as_str();
    let mut outlet = FolderOutlet::new(rt.clone()?, Text::from_str(rt.alloc(), folder)?);
    let put = puts(rt, &mut outlet, folder)?;
    let refused = refuses(rt, &mut outlet, folder)?;
    fs::remove_dir_all(rt, folder)?;
    Ok((put, refused))
}

#[test]
fn a_folder_keeps_the_file_of_an_unchanged_page(rt: HostRuntime) -> Result<(), Fail> {
    let ((first, same, new, held), (refused, nothing, told)) = tried(&rt)?;
    assert!(rt; first);
    assert!(rt; same);
    assert!(rt; new);
    assert!(rt; held);
    assert!(rt; refused);
    assert!(rt; nothing);
    assert!(rt; told);
    Ok(())
}
