//! The program `show_pages`, which is not shipped. It runs `clean` over standard input, and writes
//! each page behind the transcript and a line `page NAME BYTES`. So the pages are seen of a run that
//! keeps no file.
#![tactic(auto)]

use desk_top::{Status, run_clean};
use dita_outside::{StdSink, StdSource, SureOutlet};
use std::io::{self, Write};
use std::process::ExitCode;

fn main(rt: HostRuntime) -> ExitCode {
    let alloc = rt.alloc();
    let mut source = StdSource::new(rt.stdin());
    let mut sink = StdSink::new(rt.stdout());
    let mut outlet = SureOutlet::new(alloc);
    let status = run_clean(alloc, &mut source, &mut sink, &mut outlet);
    match show(&rt, &outlet) {
        Ok(()) => ExitCode::from(status.number()),
        Err(_) => ExitCode::from(Status::WriteFault.number()),
    }
}

// Writes the pages in the order in which they were put.
fn show(rt: &HostRuntime, outlet: &SureOutlet) -> io::Result<()> {
    for page in outlet.pages().as_slice() {
        let name = page.0.as_str();
        let bytes = page.1.len();
        print!(rt; "page {name} {bytes}\n")?;
        rt.stdout().write_all(page.1.as_slice())?;
    }
    Ok(())
}
