//! The words of the program, as they are written.

use command_line::{Mode, command, mode, out_folder};
use std::alloc::{AllocError, Global};
use std::test::Fail;

fn words(alloc: Global, line: &str) -> Result<Vec<String>, AllocError> {
    let mut words = Vec::new(alloc);
    for word in line.split(' ') {
        words.push(String::from_str(alloc, word)?)?;
    }
    Ok(words)
}

#[test]
fn words_are_read(rt: HostRuntime) -> Result<(), Fail> {
    let alloc = rt.alloc();
    let read = [
        ("dita_desk clean", Mode::Clean),
        ("dita_desk terms", Mode::Terms),
        ("dita_desk clean --topics 2", Mode::Clean),
        (
            "dita_desk --out=www clean --number 9223372036854775807",
            Mode::Clean,
        ),
        (
            "dita_desk clean --port 0 --workers 16 --connections 1024 --topics 4000",
            Mode::Clean,
        ),
        ("dita_desk -- terms", Mode::Terms),
    ];
    for (line, named) in read {
        assert!(rt; mode(alloc, &words(alloc, line)?)? == Some(named), "{line}");
    }
    Ok(())
}

#[test]
fn words_are_refused(rt: HostRuntime) -> Result<(), Fail> {
    let alloc = rt.alloc();
    let refused = [
        "dita_desk",
        "dita_desk fly",
        "dita_desk clean terms",
        "dita_desk clean --topics 1",
        "dita_desk gen --topics 1",
        "dita_desk clean --topics 4001",
        "dita_desk clean --workers 0",
        "dita_desk clean --workers 17",
        "dita_desk clean --number 9223372036854775808",
        "dita_desk clean --port 65536",
        "dita_desk clean --connections 0",
        "dita_desk serve --connections 1025",
        "dita_desk serve --port 65536",
        "dita_desk clean --out a --out b",
        "dita_desk clean --out=",
        "dita_desk clean --out",
        "dita_desk clean --in a",
        "dita_desk clean -- --topics",
        "dita_desk --help",
        "dita_desk --version",
    ];
    for line in refused {
        assert!(rt; mode(alloc, &words(alloc, line)?)?.is_none(), "{line}");
    }
    Ok(())
}

#[test]
fn a_project_is_asked_for(rt: HostRuntime) -> Result<(), Fail> {
    let alloc = rt.alloc();
    let asked = [
        ("dita_desk gen", 1u64, 40u32),
        ("dita_desk gen --topics=2 --number +07", 7, 2),
        (
            "dita_desk --number 9223372036854775807 --topics 4000 gen",
            9223372036854775807,
            4000,
        ),
    ];
    for (line, number, topics) in asked {
        match mode(alloc, &words(alloc, line)?)? {
            Some(named) => assert!(rt; is_project(&named, number, topics), "{line}"),
            None => assert!(rt; false, "{line}"),
        }
    }
    Ok(())
}

// Whether the mode is that of a project of this number and so many topics.
fn is_project(named: &Mode, number: u64, topics: u32) -> bool {
    match named {
        Mode::Gen(project) => project.number() == number && project.topics() == topics,
        _ => false,
    }
}

#[test]
fn a_server_is_asked_for(rt: HostRuntime) -> Result<(), Fail> {
    let alloc = rt.alloc();
    let asked = [
        ("dita_desk serve", 7070u16, 1u32, 4u32),
        (
            "dita_desk --port=0 serve --connections 1024 --workers 16",
            0,
            1024,
            16,
        ),
        (
            "dita_desk serve --connections 2 --port 65535 --workers=1",
            65535,
            2,
            1,
        ),
    ];
    for (line, port, connections, workers) in asked {
        match mode(alloc, &words(alloc, line)?)? {
            Some(named) => {
                assert!(rt; is_server(&named, port, connections, workers), "{line}");
            }
            None => assert!(rt; false, "{line}"),
        }
    }
    Ok(())
}

// Whether the mode serves so many connections at this port, with so many workers for each build.
fn is_server(named: &Mode, port: u16, connections: u32, workers: u32) -> bool {
    match named {
        Mode::Serve(listening, team) => {
            listening.port() == port
                && listening.connections() == connections
                && team.count() == workers
        }
        _ => false,
    }
}

#[test]
fn the_folder_is_named(rt: HostRuntime) -> Result<(), Fail> {
    let alloc = rt.alloc();
    let folders = [
        ("dita_desk clean", "out"),
        ("dita_desk clean --out www", "www"),
        ("dita_desk --out=a/b clean", "a/b"),
        ("dita_desk fly --out www", "out"),
    ];
    for (line, folder) in folders {
        let named = out_folder(alloc, &words(alloc, line)?)?;
        assert!(rt; named.as_str() == folder, "{line}");
    }
    Ok(())
}

#[test]
fn help_names_each_option(rt: HostRuntime) -> Result<(), Fail> {
    let alloc = rt.alloc();
    let help = command(alloc)?.render_help()?;
    for part in [
        "clean",
        "terms",
        "gen",
        "serve",
        "--workers <N>",
        "--number <N>",
        "--topics <N>",
        "--port <N>",
        "--connections <N>",
        "--out <DIR>",
    ] {
        assert!(rt; help.as_str().contains(part));
    }
    Ok(())
}
