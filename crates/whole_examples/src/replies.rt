//! Scripts with the replies of the desk.

use crate::runs::Run;
use dita_doc::Stop;
use run_spec::Status;
use std::alloc::{AllocError, Global};
use std::test::Fail;
use transcript_text::{Transcript, read_transcript};

// What a row is about, its script and its transcript.
const ROWS: [(&str, &str, &str); 5] = [
    (
        "a refused body is not stored",
        "1 put t.dita\n(p\n)q\n.\n1 get t.dita\n",
        "dita transcript 1\nentry 0 1 1 refused CloseMismatch 2\nentry 1 1 2 absent\nend 2 0 0\n",
    ),
    (
        "a build sees what is stored at its place",
        "1 build m.ditamap\n1 put m.ditamap\n(map\nAclass - map/map \n)map\n.\n1 build m.ditamap\n",
        "dita transcript 1\nentry 0 1 1 nomap\nentry 1 1 2 stored 2\nentry 2 1 3 built 1 0\n|page index.html bytes 144\nend 3 0 0\n",
    ),
    (
        "two sessions store under a name that is absent",
        "1 putif 0 t.dita\n(p\n)p\n.\n2 putif 0 t.dita\n(p\n)p\n.\n",
        "dita transcript 1\nentry 0 1 1 stored 1\nentry 1 2 2 conflict 1\nend 2 0 0\n",
    ),
    (
        "bytes come back as they were put, names by their bytes",
        "# names\n\n 3  put b\n?x\r\n(p\n)p\n.\n3 put A\n(q\n)q\n.\n3 names\n3 get b\n3 remove b\n3 remove b\n3 names",
        "dita transcript 1\nentry 0 3 1 stored 1\nentry 1 3 2 stored 2\nentry 2 3 3 names 2\n|A 2\n|b 1\nentry 3 3 4 text 3\n|?x\r\n|(p\n|)p\nentry 4 3 5 removed 1\nentry 5 3 6 absent\nentry 6 3 7 names 1\n|A 2\nend 7 0 0\n",
    ),
    (
        "refused comes before conflict",
        "1 putif 7 t\n(p\n.\n1 putif 7 t\n(p\n)p\n.\n1 put t\n(p\n)p\n.\n",
        "dita transcript 1\nentry 0 1 1 refused Unclosed 1\nentry 1 1 2 conflict 0\nentry 2 1 3 stored 3\nend 3 0 0\n",
    ),
];

#[test]
fn each_request_has_its_reply(rt: HostRuntime) -> Result<(), Fail> {
    let alloc = rt.alloc();
    for (about, script, transcript) in ROWS {
        let run = Run::of(alloc, script)?;
        if !run.is_done_with(transcript) {
            return Err(Fail::new(about));
        }
    }
    Ok(())
}

#[test]
fn the_empty_script_has_the_empty_transcript(rt: HostRuntime) -> Result<(), Fail> {
    let run = Run::of(rt.alloc(), "")?;
    assert!(rt; run.is_done_with("dita transcript 1\nend 0 0 0\n"));
    assert!(rt; run.outlet.pages().is_empty());
    Ok(())
}

// What is read of the transcript of a run.
fn transcript_of(alloc: Global, script: &str) -> Result<Transcript, Fail> {
    let run = Run::of(alloc, script)?;
    match read_transcript(alloc, run.sink.bytes().as_slice()) {
        Ok(transcript) => Ok(transcript),
        Err(Stop::Fault(_)) => Err(Fail::new("it is no transcript")),
        Err(Stop::NoMemory) => Err(AllocError.into()),
    }
}

#[test]
fn what_a_run_wrote_is_read_again(rt: HostRuntime) -> Result<(), Fail> {
    let transcript = transcript_of(rt.alloc(), "1 put t\n(p\n)p\n.\n1 names\n")?;
    assert_eq!(rt; transcript.total, (2, 0, 0));
    let rows = [("stored 1", ""), ("names 1", "t 1")];
    assert_eq!(rt; transcript.entries.len(), rows.len());
    for (entry, (reply, lines)) in transcript.entries.as_slice().iter().zip(rows) {
        assert!(rt; entry.reply.as_str() == reply);
        let line = entry.lines.as_slice().first();
        assert!(rt; line.map_or("", |line| line.as_str()) == lines);
    }
    Ok(())
}
