//! A run of the mode `gen`, and one of `clean` over what it wrote.

use crate::runs::Run;
use dita_outside::SureSink;
use run_spec::Status;
use std::str;
use std::test::Fail;

#[test]
fn a_project_is_written_and_answered(rt: HostRuntime) -> Result<(), Fail> {
    let alloc = rt.alloc();
    let mut sink = SureSink::new(alloc);
    let status = desk_top::run_gen(alloc, 7, 2, &mut sink);
    assert!(rt; status == Status::Done);
    let script = str::from_utf8(sink.bytes().as_slice())?;
    let begin = "1 put val.ditaval\n(val\n(prop\nAaction exclude\nAatt audience\nAval internal\n";
    assert!(rt; script.starts_with(begin));
    assert!(rt; script.ends_with("\n3 build book.ditamap val.ditaval\n"));
    let run = Run::of(alloc, script)?;
    assert!(rt; run.status == Status::Done);
    assert_eq!(rt; run.outlet.pages().len(), 15);
    Ok(())
}
