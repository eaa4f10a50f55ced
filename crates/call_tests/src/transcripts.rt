//! Entries with their texts, and texts with what they tell, derived by hand from the form.

ghost use Rattle.std.specs.Prelude.{◌≡◌, true, is_some};
ghost use Rattle.dita_doc.specs.Seen as seen_spec;
ghost use Rattle.transcript_text.specs.Written as written_spec;

use crate::given::{name, text};
use dita_doc::{
    EditFault, Entry, Fault, FaultCode, List, Part, PlanStop, PyxCode, PyxFault, Read, Reply,
    Request, Stop, is_utf8,
};
use std::alloc::{AllocError, Global};
use std::sync::Arc;
use std::test::Fail;
use transcript_text::{
    BadTranscript, BuiltText, EntryText, PageMark, RowText, Transcript, read_transcript, write_end,
    write_entry, write_head,
};

fn is_text(reply: &Reply) -> bool
    ensures { result ≡ true → written_spec.IsText (seen_spec.reply_seen reply.now) }
{
    match reply {
        Reply::Bytes(bytes) => is_utf8(bytes.as_slice()),
        _ => true,
    }
}

fn is_given(reply: &Reply, built: Option<&BuiltText>) -> bool
    ensures { result ≡ true →
        is_some built.entry ≡ written_spec.is_begun (seen_spec.reply_seen reply.now) }
{
    match reply {
        Reply::Begun => built.is_some(),
        _ => built.is_none(),
    }
}

// What is written of an entry at the eighth place.
fn written(
    alloc: Global,
    entry: &Entry,
    built: Option<&BuiltText>,
) -> Result<List<u8>, AllocError> {
    if !is_text(&entry.reply) || !is_given(&entry.reply, built) {
        return Err(AllocError);
    }
    write_entry(alloc, 7, entry, built).map_err(|_| AllocError)
}

// Whether the entry at the eighth place, whose request is the third one of its session, has this
// text behind its numbers.
fn writes(
    alloc: Global,
    reply: Reply,
    built: Option<&BuiltText>,
    expected: &str,
) -> Result<bool, AllocError> {
    let entry = Entry {
        session: 2,
        number: 3,
        request: Request::Names,
        reply,
    };
    let text = format!(in alloc; "entry 7 2 3 {expected}")?;
    Ok(written(alloc, &entry, built)?.as_slice() == text.as_bytes())
}

#[test]
fn replies_are_written(rt: HostRuntime) -> Result<(), Fail> {
    let alloc = rt.alloc();
    let fault = PyxFault {
        code: PyxCode::TextOutside,
        line: 12,
    };
    assert!(rt; writes(alloc, Reply::Stored(8), None, "stored 8\n")?);
    assert!(rt; writes(alloc, Reply::Absent, None, "absent\n")?);
    assert!(rt;
        writes(
            alloc,
            Reply::TooManyNames(10000),
            None,
            "toomanynames 10000\n"
        )?
    );
    assert!(rt;
        writes(
            alloc,
            Reply::Refused(fault),
            None,
            "refused TextOutside 12\n"
        )?
    );
    Ok(())
}

#[test]
fn groups_are_written(rt: HostRuntime) -> Result<(), Fail> {
    let alloc = rt.alloc();
    let fault = PyxFault {
        code: PyxCode::TooDeep,
        line: 4_294_967_295,
    };
    let rows = [
        (Reply::Grouped(0), "grouped 0\n"),
        (Reply::Grouped(1000), "grouped 1000\n"),
        (
            Reply::Stopped(3, EditFault::Refused(fault)),
            "stopped 3 refused TooDeep 4294967295\n",
        ),
        (
            Reply::Stopped(1, EditFault::Conflict(20)),
            "stopped 1 conflict 20\n",
        ),
        (
            Reply::Stopped(1000, EditFault::Absent),
            "stopped 1000 absent\n",
        ),
        (
            Reply::Stopped(2, EditFault::TooManyNames(10000)),
            "stopped 2 toomanynames 10000\n",
        ),
    ];
    for (reply, expected) in rows {
        assert!(rt; writes(alloc, reply, None, expected)?, "{expected:?}");
    }
    Ok(())
}

#[test]
fn bytes_are_written_as_text(rt: HostRuntime) -> Result<(), Fail> {
    let alloc = rt.alloc();
    let text = List::from_slice(alloc, b"(p\n\n)p\r\n-\xc3\xa9")?;
    let bytes = Reply::Bytes(Arc::new(alloc, text)?);
    assert!(rt; writes(alloc, bytes, None, "text 4\n|(p\n|\n|)p\r\n|-é\n")?);
    Ok(())
}

#[test]
fn names_are_written(rt: HostRuntime) -> Result<(), Fail> {
    let alloc = rt.alloc();
    let mut names = List::new(alloc);
    for (text, version) in [("a/b.dita", 1), ("m.ditamap", 20)] {
        names.push(Read {
            name: name(alloc, text)?,
            version,
        })?;
    }
    let expected = "names 2\n|a/b.dita 1\n|m.ditamap 20\n";
    assert!(rt; writes(alloc, Reply::NameList(names), None, expected)?);
    Ok(())
}

fn fault_of(alloc: Global, line: u32, code: FaultCode, detail: &str) -> Result<Fault, AllocError> {
    Ok(Fault {
        name: name(alloc, "t.dita")?,
        line,
        code,
        detail: text(alloc, detail)?,
    })
}

fn writes_build(alloc: Global, built: BuiltText, expected: &str) -> Result<bool, AllocError> {
    writes(alloc, Reply::Begun, Some(&built), expected)
}

#[test]
fn pages_and_faults_are_written(rt: HostRuntime) -> Result<(), Fail> {
    let alloc = rt.alloc();
    let mut pages = List::new(alloc);
    pages.push((name(alloc, "t.html")?, PageMark::Bytes(181)))?;
    pages.push((name(alloc, "index.html")?, PageMark::Row(3)))?;
    let mut faults = List::new(alloc);
    faults.push(fault_of(alloc, 4, FaultCode::KeyUndefined, "a\tb\\c d\n")?)?;
    faults.push(fault_of(alloc, 9, FaultCode::NoClass, "")?)?;
    let expected = "built 2 2\n|page t.html bytes 181\n|page index.html row 3\n\
        |t.dita:4 KeyUndefined a\\tb\\\\c d\\n\n|t.dita:9 NoClass\n";
    assert!(rt; writes_build(alloc, BuiltText::Pages(pages, faults), expected)?);
    Ok(())
}

#[test]
fn builds_without_pages_are_written(rt: HostRuntime) -> Result<(), Fail> {
    let alloc = rt.alloc();
    let stopped = BuiltText::Stopped(PlanStop::NoDitaval);
    assert!(rt; writes_build(alloc, stopped, "noditaval\n")?);
    let large = BuiltText::TooLarge(70_000_000);
    assert!(rt; writes_build(alloc, large, "toolarge 70000000\n")?);
    Ok(())
}

#[test]
fn the_ends_are_written(rt: HostRuntime) -> Result<(), Fail> {
    let alloc = rt.alloc();
    let (Ok(head), Ok(end)) = (write_head(alloc), write_end(alloc, 3, 20, 100)) else {
        return Err(AllocError.into());
    };
    assert!(rt; head.as_slice() == b"dita transcript 1\n".as_slice());
    assert!(rt; end.as_slice() == b"end 3 20 100\n".as_slice());
    Ok(())
}

fn read(alloc: Global, text: &str) -> Result<Transcript, AllocError> {
    match read_transcript(alloc, text.as_bytes()) {
        Ok(transcript) => Ok(transcript),
        Err(_) => Err(AllocError),
    }
}

#[test]
fn entries_tell_their_parts(rt: HostRuntime) -> Result<(), Fail> {
    let text = "dita transcript 1\n\
        entry 6 4294967295 0 built 1 1\n|page p.html row 2\n|a:b:1 CopyTo x y\n\
        entry 18446744073709551615 0 7 absent\nend 0 9 18446744073709551615\n";
    let transcript = read(rt.alloc(), text)?;
    assert!(rt; transcript.total == (0, 9, 18_446_744_073_709_551_615));
    assert!(rt; are_two_entries(transcript.entries.as_slice()));
    Ok(())
}

// Whether an entry has these numbers, this reply, and so many lines.
fn is_entry(entry: &EntryText, numbers: (u64, u32, u32), reply: &str, lines: usize) -> bool {
    (entry.place, entry.session, entry.number) == numbers
        && entry.reply.as_str() == reply
        && entry.lines.len() == lines
}

fn are_two_entries(entries: &[EntryText]) -> bool {
    match entries {
        [built, absent] => {
            is_entry(built, (6, 4_294_967_295, 0), "built 1 1", 2)
                && is_entry(absent, (18_446_744_073_709_551_615, 0, 7), "absent", 0)
        }
        _ => false,
    }
}

#[test]
fn the_lines_of_an_entry_are_told(rt: HostRuntime) -> Result<(), Fail> {
    let text = "dita transcript 1\n\
        entry 6 1 0 built 1 1\n|page p.html row 2\n|a:b:1 CopyTo x y\nend 0 9 0\n";
    let transcript = read(rt.alloc(), text)?;
    assert!(rt;
        transcript
            .entries
            .as_slice()
            .first()
            .is_some_and(|entry| tells_its_lines(entry))
    );
    Ok(())
}

fn tells_its_lines(entry: &EntryText) -> bool {
    match entry.lines.as_slice() {
        [page, fault] => {
            page.as_str() == "page p.html row 2" && fault.as_str() == "a:b:1 CopyTo x y"
        }
        _ => false,
    }
}

#[test]
fn groups_tell_their_words(rt: HostRuntime) -> Result<(), Fail> {
    let rows = [
        "grouped 0",
        "grouped 4294967295",
        "stopped 0 absent",
        "stopped 4294967295 conflict 18446744073709551615",
        "stopped 12 refused TooDeep 0",
        "stopped 1 toomanynames 10000",
    ];
    for reply in rows {
        let text = format!(in rt.alloc(); "dita transcript 1\nentry 4 1 5 {reply}\nend 1 0 0\n")?;
        let transcript = read(rt.alloc(), text.as_str())?;
        assert!(rt; is_alone(transcript.entries.as_slice(), reply), "{reply:?}");
    }
    Ok(())
}

// Whether there is one entry, with this reply and no lines.
fn is_alone(entries: &[EntryText], reply: &str) -> bool {
    match entries {
        [entry] => is_entry(entry, (4, 1, 5), reply, 0),
        _ => false,
    }
}

#[test]
fn rows_tell_their_keys(rt: HostRuntime) -> Result<(), Fail> {
    let text = "dita transcript 1\nrow 2 page m.ditamap - 4 2\n|<p>\n||\n\
        row 2 contents m.ditamap d.ditaval 0 0\nend 0 2 0\n";
    let transcript = read(rt.alloc(), text)?;
    assert!(rt; transcript.entries.is_empty());
    assert!(rt; are_two_rows(transcript.rows.as_slice()));
    Ok(())
}

// Whether a row of the second build of the map has this key and these bytes.
fn is_row(row: &RowText, has_val: bool, part: Part, bytes: &[u8]) -> bool {
    row.serial == 2
        && row.key.map.as_str() == "m.ditamap"
        && row.key.val.is_some() == has_val
        && row.key.part == part
        && row.bytes.as_slice() == bytes
}

fn are_two_rows(rows: &[RowText]) -> bool {
    match rows {
        [page, contents] => {
            is_row(page, false, Part::Page(4), b"<p>\n|\n")
                && is_row(contents, true, Part::Contents, b"")
        }
        _ => false,
    }
}

// The line in which a text is no transcript, or nothing if it is one.
fn fault(alloc: Global, text: &[u8]) -> Result<Option<BadTranscript>, AllocError> {
    match read_transcript(alloc, text) {
        Ok(_) => Ok(None),
        Err(Stop::Fault(bad)) => Ok(Some(bad)),
        Err(Stop::NoMemory) => Err(AllocError),
    }
}

#[test]
fn the_frame_of_a_transcript_is_whole(rt: HostRuntime) -> Result<(), Fail> {
    let alloc = rt.alloc();
    let rows = [
        ("", 0),
        ("dita transcript 1", 1),
        ("dita transcript 1\n", 1),
        ("dita transcript 1\r\nend 0 0 0\n", 1),
        ("dita transcript 1\nend 0 0 0", 2),
        ("dita transcript 1\nend 0 0\n", 2),
        ("dita transcript 1\nend 0 0 0\n\n", 3),
    ];
    for (text, line) in rows {
        let found = fault(alloc, text.as_bytes())?;
        assert_eq!(rt; found, Some(BadTranscript { line }), "{text:?}");
    }
    Ok(())
}

#[test]
fn a_fault_has_its_line(rt: HostRuntime) -> Result<(), Fail> {
    let alloc = rt.alloc();
    let rows = [
        (b"entry 0 1 1 text 2\n|a\nend 0 0 0\n".as_slice(), 4),
        (b"entry 0 1 1 text 1\n|\xff\nend 0 0 0\n".as_slice(), 3),
        (b"entry 0 1 1 names 1\n|a/../b 1\nend 0 0 0\n".as_slice(), 3),
        (b"entry 00 1 1 absent\nend 0 0 0\n".as_slice(), 2),
        (b"entry 0 4294967296 1 absent\nend 0 0 0\n".as_slice(), 2),
        (b"entry 0 1 1 absent \nend 0 0 0\n".as_slice(), 2),
        (b"entry 0 1 1 later\nend 0 0 0\n".as_slice(), 2),
        (
            b"entry 0 1 1 built 1 1\n|a:1 NoClass\nend 0 0 0\n".as_slice(),
            3,
        ),
        (
            b"entry 0 1 1 built 0 1\n|a:1 NoSuch\nend 0 0 0\n".as_slice(),
            3,
        ),
        (
            b"row 2 page m - 0 0\nrow 1 page m - 0 0\nend 0 0 0\n".as_slice(),
            3,
        ),
        (b"row 1 contents m - 1 0\nend 0 0 0\n".as_slice(), 2),
        (b"row 1 page - - 0 0\nend 0 0 0\n".as_slice(), 2),
        (b"row 1 page m - 0 1\n|\xc3\nend 0 0 0\n".as_slice(), 3),
    ];
    for (rest, line) in rows {
        let mut text = List::from_slice(alloc, b"dita transcript 1\n")?;
        text.append(rest)?;
        let found = fault(alloc, text.as_slice())?;
        assert_eq!(rt; found, Some(BadTranscript { line }), "{rest:?}");
    }
    Ok(())
}

// Replies that are none, each of the second of three entries.
#[test]
fn other_words_of_groups_are_no_reply(rt: HostRuntime) -> Result<(), Fail> {
    let alloc = rt.alloc();
    let rows = [
        "grouped",
        "grouped ",
        "grouped 01",
        "grouped +1",
        "grouped 4294967296",
        "grouped 1 1",
        "stopped",
        "stopped 1",
        "stopped absent",
        "stopped 01 absent",
        "stopped 4294967296 absent",
        "stopped 1 absent ",
        "stopped 1 stored 2",
        "stopped 1 noditaval",
        "stopped 1 stopped 1 absent",
        "stopped 1 grouped 1",
        "stopped 1 conflict",
        "stopped 1 conflict 18446744073709551616",
        "stopped 1 refused TooDeep",
        "stopped 1 refused TooDeep 4294967296",
        "stopped 1 refused NoClass 1",
        "stopped 1 refused TooDeep 1 1",
        "stopped 1 toomanynames 9999",
    ];
    for reply in rows {
        let text = format!(in alloc;
            "dita transcript 1\nentry 0 1 1 absent\nentry 1 1 2 {reply}\nentry 2 1 3 absent\n\
            end 3 0 0\n"
        )?;
        let found = fault(alloc, text.as_bytes())?;
        assert_eq!(rt; found, Some(BadTranscript { line: 3 }), "{reply:?}");
    }
    Ok(())
}

// No line stands below the reply to a group.
#[test]
fn a_line_below_a_group_has_its_fault(rt: HostRuntime) -> Result<(), Fail> {
    let alloc = rt.alloc();
    for reply in ["grouped 1", "stopped 1 absent"] {
        let text = format!(in alloc; "dita transcript 1\nentry 0 1 1 {reply}\n|a\nend 1 0 0\n")?;
        let found = fault(alloc, text.as_bytes())?;
        assert_eq!(rt; found, Some(BadTranscript { line: 3 }), "{reply:?}");
    }
    Ok(())
}
