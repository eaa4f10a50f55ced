//! The program `dita_desk`: the words of the command, standard input as the source, standard output
//! as the sink, the folder that the words name as the outlet, and a port of this machine as the door.
//! Its exit status is that of the run.
#![tactic(auto)]

use command_line::command;
use desk_top::{Status, desk_top, out_folder};
use dita_doc::NoMemory;
use dita_outside::{FolderOutlet, NoGate, StdSink, StdSource};
use std::io::ErrorKind;
use std::process::ExitCode;
use std::{env, io};
use thiserror::Error;
use ws_link::TcpDoor;

// A run that did not end as it should, and what the system said if it failed.
#[derive(Debug, Drop, Error)]
enum Ended<'a> {
    #[error("dita_desk: {0:?}")]
    With(Status),
    #[error("dita_desk: Script\nstandard input: looks like XML and is no script: use publish/publish")]
    Xml,
    #[error("dita_desk: {status:?}\n{place}: {error}")]
    Because {
        status: Status,
        place: &'a str,
        error: io::Error,
    },
}

type Prepared = (Vec<String>, FolderOutlet<HostRuntime>, TcpDoor<HostRuntime>);

fn main(rt: HostRuntime) -> ExitCode {
    let (words, mut outlet, mut door) = match prepared(&rt) {
        Ok(prepared) => prepared,
        Err(status) => return end(&rt, status),
    };
    let alloc = rt.alloc();
    let words = words.as_slice();
    let mut source = StdSource::new(rt.stdin());
    let mut sink = StdSink::new(rt.stdout());
    let status = desk_top(
        &rt,
        alloc,
        words,
        &mut source,
        &mut sink,
        &mut outlet,
        &mut door,
        &NoGate,
    );
    match status {
        Status::Words => refuse(&rt, words),
        Status::ReadFault => end_by(&rt, status, "standard input", source.last_error()),
        Status::Script => end_by_script(&rt, source.first_byte()),
        Status::WriteFault => end_by(&rt, status, "standard output", sink.last_error()),
        Status::OutletFault => match outlet.last_error() {
            Some(page) => end_by(&rt, status, page.path.as_str(), Some(page.error)),
            None => end(&rt, status),
        },
        Status::Port => end_by_door(&rt, &door),
        _ => end(&rt, status),
    }
}

// The words of the command, the outlet of pages, which is the folder that they name, and the door of
// this machine.
fn prepared(rt: &HostRuntime) -> Result<Prepared, Status> {
    let words = words_of(rt)?;
    let Ok(folder) = out_folder(rt.alloc(), words.as_slice()) else {
        return Err(Status::NoMemory);
    };
    let Ok(writer) = rt.clone() else {
        return Err(Status::NoMemory);
    };
    let Ok(listener) = rt.clone() else {
        return Err(Status::NoMemory);
    };
    let outlet = FolderOutlet::new(writer, folder);
    Ok((words, outlet, TcpDoor::new(listener)))
}

fn words_of(rt: &HostRuntime) -> Result<Vec<String>, Status> {
    let mut words = Vec::new(rt.alloc());
    let given = match env::args(rt) {
        Ok(given) => given,
        Err(error) if error.kind() == ErrorKind::InvalidData => {
            // If standard error can't be written, the exit status alone tells.
            let _ = rt.eprintln("error: a word of the command is not UTF-8");
            return Err(Status::Words);
        }
        Err(_) => return Err(Status::NoMemory),
    };
    for word in given {
        if words.push(word).is_err() {
            return Err(Status::NoMemory);
        }
    }
    Ok(words)
}

// Words that the command does not read: they ask for its help or its version, or are wrong.
fn refuse(rt: &HostRuntime, words: &[String]) -> ExitCode {
    match explained(rt, words) {
        Ok(code) => code,
        Err(NoMemory) => end(rt, Status::NoMemory),
    }
}

fn explained(rt: &HostRuntime, words: &[String]) -> Result<ExitCode, NoMemory> {
    if let Err(error) = command(rt.alloc())?.try_get_matches_from(words) {
        let printed = error.print(rt);
        if !error.use_stderr() {
            return Ok(match printed {
                Ok(()) => ExitCode::SUCCESS,
                Err(error) => end_by(rt, Status::WriteFault, "standard output", Some(error)),
            });
        }
    }
    Ok(end(rt, Status::Words))
}

// The exit status of a run that failed, with what the system said, if it did.
fn end_by(rt: &HostRuntime, status: Status, place: &str, error: Option<io::Error>) -> ExitCode {
    match error {
        Some(error) => {
            // If standard error can't be written, the exit status alone tells.
            let _ = rt.eprintln(Ended::Because {
                status,
                place,
                error,
            });
            ExitCode::from(status.number())
        }
        None => end(rt, status),
    }
}

// The exit status of a door that failed, with the port at which it listened, or was to listen.
fn end_by_door(rt: &HostRuntime, door: &TcpDoor<HostRuntime>) -> ExitCode {
    let port = door.port().unwrap_or(door.asked());
    match format!(in rt.alloc(); "127.0.0.1:{port}") {
        Ok(place) => end_by(rt, Status::Port, &place, door.last_error()),
        Err(_) => end(rt, Status::Port),
    }
}

// The exit status of bytes that are no script. If they begin as XML does, standard error says so.
fn end_by_script(rt: &HostRuntime, first: Option<u8>) -> ExitCode {
    if first != Some(b'<') {
        return end(rt, Status::Script);
    }
    // If standard error can't be written, the exit status alone tells.
    let _ = rt.eprintln(Ended::Xml);
    ExitCode::from(Status::Script.number())
}

// The exit status of a run. If it is not that of a run that is done, standard error names it.
fn end(rt: &HostRuntime, status: Status) -> ExitCode {
    if status != Status::Done {
        let _ = rt.eprintln(Ended::With(status));
    }
    ExitCode::from(status.number())
}
