//! Scripts with their faults and their requests, derived by hand from the rules of scripts.

use dita_doc::{Body, Edit, List, Name, Request, Stop};
use script_text::{RequestReader, ScriptCode, ScriptFault, read_script};
use std::alloc::{AllocError, Global};
use std::test::Fail;

// The fault of a script, if it has one.
fn fault(alloc: Global, bytes: &[u8]) -> Result<Option<ScriptFault>, AllocError> {
    match read_script(alloc, bytes) {
        Ok(_) => Ok(None),
        Err(Stop::Fault(fault)) => Ok(Some(fault)),
        Err(Stop::NoMemory) => Err(AllocError),
    }
}

fn at(code: ScriptCode, line: u32) -> Option<ScriptFault> {
    Some(ScriptFault { code, line })
}

// So many lines, all the same.
fn repeated(alloc: Global, line: &[u8], count: u32) -> Result<List<u8>, AllocError> {
    let mut text = List::new(alloc);
    for _ in 0..count {
        text.append(line)?;
    }
    Ok(text)
}

// What was read of a script, each request in one form, whatever form it was written in.
fn shown(alloc: Global, bytes: &[u8]) -> Result<Option<List<u8>>, AllocError> {
    let script = match read_script(alloc, bytes) {
        Ok(script) => script,
        Err(Stop::Fault(_)) => return Ok(None),
        Err(Stop::NoMemory) => return Err(AllocError),
    };
    let mut text = List::new(alloc);
    for step in script.steps.as_slice() {
        let session = format!(in alloc; "{}", step.0)?;
        text.append(session.as_bytes())?;
        append_request(alloc, &mut text, &step.1)?;
    }
    Ok(Some(text))
}

fn append_request(alloc: Global, text: &mut List<u8>, request: &Request) -> Result<(), AllocError> {
    match request {
        Request::Put(name, body) => append_put(text, name, body),
        Request::PutIf(version, name, body) => append_put_if(alloc, text, *version, name, body),
        Request::Remove(name) => append_name(text, b" remove ", name),
        Request::Get(name) => append_name(text, b" get ", name),
        Request::Names => text.append(b" names"),
        Request::Build(map, val) => {
            append_name(text, b" build ", map)?;
            match val {
                Some(val) => append_name(text, b" ", val),
                None => Ok(()),
            }
        }
        Request::Group(edits) => {
            text.append(b" group")?;
            for edit in edits.as_slice() {
                append_edit(alloc, text, edit)?;
            }
            text.append(b" end")
        }
    }?;
    text.append(b"\n")
}

fn append_edit(alloc: Global, text: &mut List<u8>, edit: &Edit) -> Result<(), AllocError> {
    match edit {
        Edit::Put(name, body) => append_put(text, name, body),
        Edit::PutIf(version, name, body) => append_put_if(alloc, text, *version, name, body),
        Edit::Remove(name) => append_name(text, b" remove ", name),
    }
}

fn append_put(text: &mut List<u8>, name: &Name, body: &Body) -> Result<(), AllocError> {
    append_name(text, b" put ", name)?;
    append_body(text, body)
}

fn append_put_if(
    alloc: Global,
    text: &mut List<u8>,
    version: u64,
    name: &Name,
    body: &Body,
) -> Result<(), AllocError> {
    let version = format!(in alloc; " putif {version}")?;
    text.append(version.as_bytes())?;
    append_name(text, b" ", name)?;
    append_body(text, body)
}

fn append_name(text: &mut List<u8>, word: &[u8], name: &Name) -> Result<(), AllocError> {
    text.append(word)?;
    text.append(name.as_bytes())
}

// The bytes, and whether they are a document.
fn append_body(text: &mut List<u8>, body: &Body) -> Result<(), AllocError> {
    text.append(b"[")?;
    text.append(body.bytes.as_slice())?;
    text.append(if body.read.is_ok() {
        b"] read"
    } else {
        b"] kept"
    })
}

fn same(alloc: Global, bytes: &[u8]) -> Result<Option<List<u8>>, AllocError> {
    Ok(Some(List::from_slice(alloc, bytes)?))
}

#[test]
fn a_fault_is_told_with_its_line(rt: HostRuntime) -> Result<(), Fail> {
    let alloc = rt.alloc();
    let rows = [
        (b"1 fly\n".as_slice(), ScriptCode::BadCommand, 1),
        (b"# x\n1 build\n".as_slice(), ScriptCode::BadCommand, 2),
        // A tab is a part of a word.
        (b"1 names\t\n".as_slice(), ScriptCode::BadCommand, 1),
        (b"000 names\n".as_slice(), ScriptCode::BadNumber, 1),
        // 19 digits, of which 18 are zeros.
        (
            b"0000000000000000001 names\n".as_slice(),
            ScriptCode::BadNumber,
            1,
        ),
        // Outside a body this ends none.
        (b"\n.\n".as_slice(), ScriptCode::BadNumber, 2),
        (b"1 names\n1 remove /a\n".as_slice(), ScriptCode::BadName, 2),
        (b"1 put a\n\n# x\n-x".as_slice(), ScriptCode::NoEnd, 4),
        // None of these is a dot alone.
        (
            b"1 put a\n.\r\n..\n. \n .\n".as_slice(),
            ScriptCode::NoEnd,
            5,
        ),
        (
            b"16 names\n17 names\n".as_slice(),
            ScriptCode::TooManySessions,
            2,
        ),
        (b"# \xff\n".as_slice(), ScriptCode::NotUtf8, 1),
        (b"1 put a\n-\xc3\n.\n".as_slice(), ScriptCode::NotUtf8, 2),
    ];
    for (text, code, line) in rows {
        assert_eq!(rt; fault(alloc, text)?, at(code, line), "{text:?}");
    }
    Ok(())
}

#[test]
fn a_line_has_its_first_fault(rt: HostRuntime) -> Result<(), Fail> {
    let alloc = rt.alloc();
    let rows = [
        (b"0 fly \xff\n".as_slice(), ScriptCode::NotUtf8, 1),
        (b"0 fly\n".as_slice(), ScriptCode::BadNumber, 1),
        (b"17 get ../a\n".as_slice(), ScriptCode::TooManySessions, 1),
        (b"1 putif x a b\n.\n".as_slice(), ScriptCode::BadCommand, 1),
        (b"1 putif x ../a\n.\n".as_slice(), ScriptCode::BadNumber, 1),
        (b"1 get ../a b\n".as_slice(), ScriptCode::BadCommand, 1),
        // The first faulty line of several.
        (
            b"1 names\n17 names\n0 names\n\xff\n".as_slice(),
            ScriptCode::TooManySessions,
            2,
        ),
    ];
    for (text, code, line) in rows {
        assert_eq!(rt; fault(alloc, text)?, at(code, line), "{text:?}");
    }
    Ok(())
}

#[test]
fn requests_are_at_most_65536(rt: HostRuntime) -> Result<(), Fail> {
    let alloc = rt.alloc();
    let mut text = repeated(alloc, b"1 names\n", 65_536)?;
    // Lines that are passed over are no requests.
    text.append(b"# x\n\n")?;
    assert_eq!(rt; fault(alloc, text.as_slice())?, None);
    let rows = [
        // A put is counted where it begins.
        (b"1 put a\n-x\n".as_slice(), ScriptCode::TooManyRequests),
        (b"1 group\nfly\n".as_slice(), ScriptCode::TooManyRequests),
        // What is wrong with the line itself comes first.
        (b"1 get ../a\n".as_slice(), ScriptCode::BadName),
    ];
    for (last, code) in rows {
        let mut longer = text.clone()?;
        longer.append(last)?;
        let found = fault(alloc, longer.as_slice())?;
        assert_eq!(rt; found, at(code, 65_539));
    }
    Ok(())
}

#[test]
fn each_command_is_read(rt: HostRuntime) -> Result<(), Fail> {
    let alloc = rt.alloc();
    let text =
        b"1 put m/a\n(p\n)p\n.\n2 putif 7 b\n-x\n.\n3 remove a\n16 get a\n5 names\n6 build m\n7 build m v\n";
    assert_eq!(rt;
        shown(alloc, text)?,
        same(
            alloc,
            b"1 put m/a[(p\n)p\n] read\n2 putif 7 b[-x\n] kept\n3 remove a\n16 get a\n5 names\n6 build m\n7 build m v\n"
        )?
    );
    Ok(())
}

#[test]
fn forms_of_lines(rt: HostRuntime) -> Result<(), Fail> {
    let alloc = rt.alloc();
    let rows = [
        (b"\n \t \n#\n#1 names\n".as_slice(), b"".as_slice()),
        // The last LF may be missing.
        (b"1 names".as_slice(), b"1 names\n".as_slice()),
        // Words stand between runs of spaces, at both ends too.
        (b"  1   get   a  \n".as_slice(), b"1 get a\n".as_slice()),
        // Zeros before a number; and the greatest version.
        (
            b"000000000000000016 names\n".as_slice(),
            b"16 names\n".as_slice(),
        ),
        (
            b"01 putif 999999999999999999 a\n.".as_slice(),
            b"1 putif 999999999999999999 a[] kept\n".as_slice(),
        ),
        // Blank lines, comments, requests and other dots are lines of a body.
        (
            b"1 put a\n\n \n# x\n0 names\n..\n.\r\n .\n. \n.\n1 names\n".as_slice(),
            b"1 put a[\n \n# x\n0 names\n..\n.\r\n .\n. \n] kept\n1 names\n".as_slice(),
        ),
    ];
    for (text, read) in rows {
        assert!(rt; shown(alloc, text)? == same(alloc, read)?, "{text:?}");
    }
    Ok(())
}

#[test]
fn a_group_is_its_edits(rt: HostRuntime) -> Result<(), Fail> {
    let alloc = rt.alloc();
    let rows = [
        // A group may have none.
        (b"1 group\nend\n".as_slice(), b"1 group end\n".as_slice()),
        // The last LF may be missing, and words stand as in other lines.
        (
            b" 02  group \n remove  a \nend".as_slice(),
            b"2 group remove a end\n".as_slice(),
        ),
        // Blank lines and comments are passed over; in a body they are lines of it, and so is `end`.
        (
            b"1 group\n\n# x\nput m/a\n(p\n)p\n.\n \t\nputif 007 b\n# y\n\nend\n.\nend\n1 names\n".as_slice(),
            b"1 group put m/a[(p\n)p\n] read putif 7 b[# y\n\nend\n] kept end\n1 names\n".as_slice(),
        ),
        // Edits in the order of their lines, of one name too; and a group behind a group.
        (
            b"3 group\nremove a\nput a\n.\nremove a\nend\n4 group\nend\n4 remove b\n".as_slice(),
            b"3 group remove a put a[] kept remove a end\n4 group end\n4 remove b\n".as_slice(),
        ),
    ];
    for (text, read) in rows {
        assert!(rt; shown(alloc, text)? == same(alloc, read)?, "{text:?}");
    }
    Ok(())
}

#[test]
fn a_line_of_a_group_has_its_fault(rt: HostRuntime) -> Result<(), Fail> {
    let alloc = rt.alloc();
    let rows = [
        (b"1 group x\nend\n".as_slice(), ScriptCode::BadCommand, 1),
        // Only edits stand in a group, without a session.
        (
            b"1 group\nremove a\nget a\nend\n".as_slice(),
            ScriptCode::BadCommand,
            3,
        ),
        (
            b"1 group\nnames\nend\n".as_slice(),
            ScriptCode::BadCommand,
            2,
        ),
        (
            b"1 group\ngroup\nend\n".as_slice(),
            ScriptCode::BadCommand,
            2,
        ),
        (
            b"1 group\n1 remove a\nend\n".as_slice(),
            ScriptCode::BadCommand,
            2,
        ),
        // The line of the end is that word alone.
        (b"1 group\n end\n".as_slice(), ScriptCode::BadCommand, 2),
        (b"1 group\nend \n".as_slice(), ScriptCode::BadCommand, 2),
        (b"1 group\nend\r\n".as_slice(), ScriptCode::BadCommand, 2),
        (b"1 group\n.\n".as_slice(), ScriptCode::BadCommand, 2),
        // Outside a group this ends none.
        (b"1 group\nend\nend\n".as_slice(), ScriptCode::BadNumber, 3),
        (
            b"1 group\nremove a b\n".as_slice(),
            ScriptCode::BadCommand,
            2,
        ),
        (
            b"1 group\nputif x ../a\n".as_slice(),
            ScriptCode::BadNumber,
            2,
        ),
        (
            b"1 group\nputif 1 ../a\n".as_slice(),
            ScriptCode::BadName,
            2,
        ),
        (b"1 group\nfly \xff\n".as_slice(), ScriptCode::NotUtf8, 2),
    ];
    for (text, code, line) in rows {
        assert_eq!(rt; fault(alloc, text)?, at(code, line), "{text:?}");
    }
    Ok(())
}

#[test]
fn a_group_without_end_has_a_fault(rt: HostRuntime) -> Result<(), Fail> {
    let alloc = rt.alloc();
    let rows = [
        (b"1 group\n".as_slice(), ScriptCode::NoEnd, 1),
        (b"1 group".as_slice(), ScriptCode::NoEnd, 1),
        (
            b"1 group\nremove a\n# end\n\n".as_slice(),
            ScriptCode::NoEnd,
            4,
        ),
        // This `end` is a line of the body.
        (b"1 group\nput a\nend\n".as_slice(), ScriptCode::NoEnd, 3),
        (b"1 group\nput a\nend\n.\n".as_slice(), ScriptCode::NoEnd, 4),
        // The fault of the last line itself comes first.
        (
            b"1 group\nremove a\nget a\n".as_slice(),
            ScriptCode::BadCommand,
            3,
        ),
    ];
    for (text, code, line) in rows {
        assert_eq!(rt; fault(alloc, text)?, at(code, line), "{text:?}");
    }
    Ok(())
}

#[test]
fn edits_of_a_group_are_at_most_1000(rt: HostRuntime) -> Result<(), Fail> {
    let alloc = rt.alloc();
    let mut text = List::from_slice(alloc, b"1 group\n")?;
    text.append(repeated(alloc, b"remove a\n", 1_000)?.as_slice())?;
    // Lines that are passed over are no edits.
    text.append(b"# x\n\n")?;
    let rows = [
        (b"end\n".as_slice(), None),
        // The next group begins with none.
        (b"end\n1 group\nremove a\nend\n".as_slice(), None),
        (
            b"remove a\nend\n".as_slice(),
            at(ScriptCode::TooManyEdits, 1_004),
        ),
        // A put is counted where it begins.
        (
            b"put a\n.\n".as_slice(),
            at(ScriptCode::TooManyEdits, 1_004),
        ),
        // What is wrong with the line itself comes first.
        (b"get a\n".as_slice(), at(ScriptCode::BadCommand, 1_004)),
        (b"remove ../a\n".as_slice(), at(ScriptCode::BadName, 1_004)),
    ];
    for (last, found) in rows {
        let mut longer = text.clone()?;
        longer.append(last)?;
        assert_eq!(rt; fault(alloc, longer.as_slice())?, found);
    }
    Ok(())
}

// The requests that a piece completes, each in one form.
fn answered(
    alloc: Global,
    reader: &mut RequestReader,
    piece: &[u8],
) -> Result<List<u8>, Stop<ScriptFault>> {
    let requests = reader.feed(alloc, piece)?;
    let mut text = List::new(alloc);
    for request in requests.as_slice() {
        append_request(alloc, &mut text, request)?;
    }
    Ok(text)
}

// The requests of what comes in two pieces.
fn answered_to_two(
    alloc: Global,
    first: &[u8],
    second: &[u8],
) -> Result<List<u8>, Stop<ScriptFault>> {
    let mut reader = RequestReader::new(alloc)?;
    let mut text = answered(alloc, &mut reader, first)?;
    let more = answered(alloc, &mut reader, second)?;
    text.append(more.as_slice())?;
    Ok(text)
}

#[test]
fn requests_are_the_same_wherever_they_are_cut(rt: HostRuntime) -> Result<(), Fail> {
    let alloc = rt.alloc();
    let text = b"put a\n(p\n)p\n.\n\n# 1 names\n group \nremove b\nend\nnames\nget".as_slice();
    let requests = b" put a[(p\n)p\n] read\n group remove b end\n names\n".as_slice();
    for at in 0..text.len() {
        let all = answered_to_two(alloc, &text[..at], &text[at..]).map_err(|_| AllocError)?;
        assert!(rt; all.as_slice() == requests, "{at}");
    }
    Ok(())
}

#[test]
fn a_fault_waits_for_the_requests_in_front(rt: HostRuntime) -> Result<(), Fail> {
    let alloc = rt.alloc();
    let mut reader = RequestReader::new(alloc).map_err(|_| AllocError)?;
    let first = answered(alloc, &mut reader, b"names\n1 names\nget a\n").map_err(|_| AllocError)?;
    assert!(rt; first.as_slice() == b" names\n".as_slice());
    for piece in [b"".as_slice(), b"get b\n".as_slice()] {
        let told = match reader.feed(alloc, piece) {
            Err(Stop::Fault(fault)) => Some(fault),
            _ => None,
        };
        assert_eq!(rt; told, at(ScriptCode::BadCommand, 2));
    }
    Ok(())
}
