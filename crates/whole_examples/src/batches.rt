//! Batches and trials: sessions beside each other, with workers for each build.

ghost use Rattle.std.specs.Prelude.{◌≤◌};

use crate::documents::{flat_map, put, topic};
use desk_top::{run_batch, run_trial};
use dita_doc::List;
use dita_outside::{NoGate, SureSink, SureSource};
use run_spec::Status;
use std::alloc::{AllocError, Global};
use std::sync::Wait;
use std::test::Fail;
use std::thread::Threads;

/// What a batch ended with.
#[derive(Drop)]
pub struct Batch {
    pub status: Status,
    pub sink: SureSink,
}

impl Batch {
    /// A batch over a script with so many workers for each build.
    pub fn of<R: Threads + Wait + Sync>(
        rt: &R,
        alloc: Global,
        script: &str,
        workers: u32,
    ) -> Result<Batch, AllocError>
        requires few { 1 ≤ workers }
        requires many { workers ≤ 16 }
    {
        let mut source = SureSource::new(List::from_slice(alloc, script.as_bytes())?);
        let mut sink = SureSink::new(alloc);
        let status = run_batch(rt, alloc, workers, &mut source, &mut sink, &NoGate);
        Ok(Batch { status, sink })
    }

    /// Whether it finished with this transcript.
    pub fn is(&self, text: &str) -> bool {
        self.status == Status::Done && self.sink.bytes().as_slice() == text.as_bytes()
    }

    /// Whether it finished with a transcript that ends so.
    pub fn ends_with(&self, text: &str) -> bool {
        self.status == Status::Done && self.sink.bytes().as_slice().ends_with(text.as_bytes())
    }

    /// Whether it finished with a transcript that begins so.
    pub fn starts_with(&self, text: &str) -> bool {
        self.status == Status::Done && self.sink.bytes().as_slice().starts_with(text.as_bytes())
    }
}

// A map with one topic, and its build.
const ONE_TOPIC: &str =
    "1 put m.ditamap\n(map\nAclass - map/map \n(topicref\nAclass - map/topicref \nAhref t.dita\n)topicref\n)map\n.\n1 put t.dita\n(topic\nAclass - topic/topic \nAid t\n(title\nAclass - topic/title \n-Hello\n)title\n(body\nAclass - topic/body \n(p\nAclass - topic/p \n-A & B\n)p\n)body\n)topic\n.\n1 build m.ditamap\n";

// Its transcript. The plan has the first serial, and no line.
const ONE_TOPIC_TOLD: &str =
    "dita transcript 1\nentry 0 1 1 stored 1\nentry 1 1 2 stored 2\nentry 2 1 3 built 2 0\n|page t.html row 2\n|page index.html row 3\nrow 2 page m.ditamap - 0 5\n|<!DOCTYPE html>\n|<html><head><meta charset=\"utf-8\"><title>Hello</title></head>\n|<body>\n|<article id=\"t\"><h1>Hello</h1><div class=\"body\"><p>A &amp; B</p></div></article>\n|</body></html>\nrow 3 contents m.ditamap - 0 5\n|<!DOCTYPE html>\n|<html><head><meta charset=\"utf-8\"><title>Contents</title></head>\n|<body>\n|<nav class=\"toc\"><h1>Contents</h1><ul><li><a href=\"t.html\">Hello</a></li></ul></nav>\n|</body></html>\nend 3 3 0\n";

#[test]
fn the_empty_batch_has_the_empty_transcript(rt: HostRuntime) -> Result<(), Fail> {
    let batch = Batch::of(&rt, rt.alloc(), "", 4)?;
    assert!(rt; batch.is("dita transcript 1\nend 0 0 0\n"));
    Ok(())
}

#[test]
fn a_build_cites_the_rows_of_its_pages(rt: HostRuntime) -> Result<(), Fail> {
    let alloc = rt.alloc();
    assert!(rt; Batch::of(&rt, alloc, ONE_TOPIC, 1)?.is(ONE_TOPIC_TOLD));
    assert!(rt; Batch::of(&rt, alloc, ONE_TOPIC, 2)?.ends_with("\nend 3 3 0\n"));
    Ok(())
}

#[test]
fn a_faulty_script_is_refused_with_its_line(rt: HostRuntime) -> Result<(), Fail> {
    let batch = Batch::of(&rt, rt.alloc(), "1 fly\n", 4)?;
    assert!(rt; batch.status == Status::Script);
    assert!(rt; batch.sink.bytes().as_slice() == "script BadCommand 1\n".as_bytes());
    Ok(())
}

#[test]
fn a_stopped_build_has_one_part(rt: HostRuntime) -> Result<(), Fail> {
    let script =
        "1 build m.ditamap\n1 put m.ditamap\n(map\nAclass - map/map \n)map\n.\n1 build m.ditamap\n";
    let batch = Batch::of(&rt, rt.alloc(), script, 1)?;
    let begin =
        "dita transcript 1\nentry 0 1 1 nomap\nentry 1 1 2 stored 2\nentry 2 1 3 built 1 0\n|page index.html row 3\nrow 3 contents m.ditamap - 0 ";
    assert!(rt; batch.starts_with(begin));
    assert!(rt; batch.ends_with("\nend 3 3 0\n"));
    Ok(())
}

#[test]
fn one_of_two_sessions_stores_under_an_absent_name(rt: HostRuntime) -> Result<(), Fail> {
    let alloc = rt.alloc();
    let script = "1 putif 0 t.dita\n(p\n)p\n.\n2 putif 0 t.dita\n(p\n)p\n.\n";
    let first = "dita transcript 1\nentry 0 1 1 stored 1\nentry 1 2 2 conflict 1\nend 2 0 0\n";
    let second = "dita transcript 1\nentry 0 2 2 stored 1\nentry 1 1 1 conflict 1\nend 2 0 0\n";
    for _ in 0..10 {
        let batch = Batch::of(&rt, alloc, script, 4)?;
        assert!(rt; batch.is(first) || batch.is(second));
    }
    Ok(())
}

// A map of the topics a and b, and the two topics.
fn two_topics(alloc: Global) -> Result<String, AllocError> {
    let map = put(
        alloc,
        "m.ditamap",
        flat_map(alloc, &["a.dita", "b.dita"])?.as_str(),
    )?;
    let a = put(alloc, "a.dita", topic(alloc, "a", "A", &["x"])?.as_str())?;
    let b = put(alloc, "b.dita", topic(alloc, "b", "B", &["x"])?.as_str())?;
    format!(in alloc; "{map}{a}{b}")
}

#[test]
fn a_build_over_the_same_documents_makes_nothing(rt: HostRuntime) -> Result<(), Fail> {
    let alloc = rt.alloc();
    let documents = two_topics(alloc)?;
    let script = format!(in alloc; "{documents}1 build m.ditamap\n1 build m.ditamap\n")?;
    let script = script.as_str();
    assert!(rt; Batch::of(&rt, alloc, script, 1)?.ends_with("\nend 5 4 0\n"));
    assert!(rt; Batch::of(&rt, alloc, script, 2)?.ends_with("\nend 5 4 0\n"));
    assert!(rt; Batch::of(&rt, alloc, script, 3)?.ends_with("\nend 5 4 0\n"));
    assert!(rt; Batch::of(&rt, alloc, script, 4)?.ends_with("\nend 5 4 0\n"));
    Ok(())
}

// Whether the trial of 40 topics writes its line, with so many workers for each build.
fn has_line<R: Threads + Wait + Sync>(rt: &R, alloc: Global, workers: u32) -> bool
    requires few { 1 ≤ workers }
    requires many { workers ≤ 16 }
{
    let mut sink = SureSink::new(alloc);
    let status = run_trial(rt, alloc, 7, 40, workers, &mut sink, &NoGate);
    let line = "trial 7 40 entries 49 builds 3 pages 129 faults 0\n".as_bytes();
    status == Status::Done && sink.bytes().as_slice() == line
}

#[test]
fn a_trial_has_the_same_line_with_any_number_of_workers(rt: HostRuntime) -> Result<(), Fail> {
    let alloc = rt.alloc();
    assert!(rt; has_line(&rt, alloc, 1));
    assert!(rt; has_line(&rt, alloc, 2));
    assert!(rt; has_line(&rt, alloc, 3));
    assert!(rt; has_line(&rt, alloc, 4));
    assert!(rt; has_line(&rt, alloc, 8));
    assert!(rt; has_line(&rt, alloc, 16));
    Ok(())
}

// A document is put that nothing reads, and then the topic with another title.
const BEHIND: &str =
    "1 put z.dita\n(p\n)p\n.\n1 build m.ditamap\n1 put t.dita\n(topic\nAclass - topic/topic \nAid t\n(title\nAclass - topic/title \n-Other\n)title\n)topic\n.\n1 build m.ditamap\n";

#[test]
fn what_is_not_asked_makes_nothing_again(rt: HostRuntime) -> Result<(), Fail> {
    let alloc = rt.alloc();
    let script = format!(in alloc; "{ONE_TOPIC}{BEHIND}")?;
    assert!(rt; Batch::of(&rt, alloc, script.as_str(), 1)?.ends_with("\nend 7 5 0\n"));
    Ok(())
}

#[test]
fn an_edit_makes_the_pages_that_show_it_again(rt: HostRuntime) -> Result<(), Fail> {
    let alloc = rt.alloc();
    let documents = two_topics(alloc)?;
    let a = put(
        alloc,
        "a.dita",
        topic(alloc, "a", "A", &["x", "y"])?.as_str(),
    )?;
    let b = put(alloc, "b.dita", topic(alloc, "b", "BB", &["x"])?.as_str())?;
    let first = format!(in alloc; "{documents}1 build m.ditamap\n{a}1 build m.ditamap\n")?;
    assert!(rt; Batch::of(&rt, alloc, first.as_str(), 1)?.ends_with("\nend 6 5 0\n"));
    let second = format!(in alloc; "{first}{b}1 build m.ditamap\n")?;
    assert!(rt; Batch::of(&rt, alloc, second.as_str(), 1)?.ends_with("\nend 8 7 0\n"));
    Ok(())
}
