//! What the command makes of words.

ghost use Rattle.std.specs.Prelude.{◌≡◌, ◌≤◌, ◌&&◌, IfOk, IfSome, if◌then◌else◌, is_some, nat_le, map, string_bytes};
ghost use Rattle.clap.specs.Matches.{found_of};
ghost use Rattle.clap.specs.Simple.{matches_of};
ghost use Rattle.clap.specs.Walk.{rows_of};
ghost use Rattle.command_line.specs.Command as spec;

use crate::arguments::command;
use crate::modes::{Listening, Mode, Project, Workers};
use clap::ArgMatches;
use clap::error::ErrorKind;
use dita_doc::{NoMemory, Text};
use std::alloc::Global;

const DEFAULT_FOLDER: &str = "out";

const TERMS: &str = "terms";

const GEN: &str = "gen";

const BATCH: &str = "batch";

const TRIAL: &str = "trial";

const SERVE: &str = "serve";

/// The mode that the words name, of which the first is the program's name, if the command reads
/// them. It does not read `--help` and `--version`: these ask for a text.
pub fn mode(alloc: Global, words: &[String]) -> Result<Option<Mode>, NoMemory>
    ensures { IfOk result (λ mode. mode ≡ spec.mode_of (map string_bytes words.now)) }
{
    match matches(alloc, words)? {
        Some(matches) => Ok(Some(mode_in(&matches))),
        None => Ok(None),
    }
}

// The mode of words that the command reads.
fn mode_in(matches: &ArgMatches) -> Mode
    ensures { result ≡ spec.mode_in (rows_of (found_of matches.now)) }
{
    let name = value_in(matches, "mode");
    if name == TERMS {
        Mode::Terms
    } else if name == GEN {
        Mode::Gen(project_in(matches))
    } else if name == BATCH {
        Mode::Batch(workers_in(matches))
    } else if name == TRIAL {
        Mode::Trial(project_in(matches), workers_in(matches))
    } else if name == SERVE {
        Mode::Serve(listening_in(matches), workers_in(matches))
    } else {
        Mode::Clean
    }
}

fn project_in(matches: &ArgMatches) -> Project
    ensures { result ≡ spec.project_in (rows_of (found_of matches.now)) }
{
    let number = number_in(0, i64::MAX as u64, value_in(matches, "number"));
    let topics = number_in(2, 4000, value_in(matches, "topics"));
    Project::new(number, topics as u32)
}

fn listening_in(matches: &ArgMatches) -> Listening
    ensures { result ≡ spec.listening_in (rows_of (found_of matches.now)) }
{
    let port = number_in(0, u16::MAX as u64, value_in(matches, "port"));
    let connections = number_in(1, 1024, value_in(matches, "connections"));
    Listening::new(port as u16, connections as u32)
}

fn workers_in(matches: &ArgMatches) -> Workers
    ensures { result ≡ spec.workers_in (rows_of (found_of matches.now)) }
{
    Workers::new(number_in(1, 16, value_in(matches, "workers")) as u32)
}

// The first value of an argument.
fn value_in<'a>(matches: &ArgMatches<'a>, id: &str) -> &'a str
    ensures { result.now ≡ spec.value_in id.now (rows_of (found_of matches.now)) }
{
    matches.get_str(id).unwrap_or("")
}

// The number that a text is, if it is within the bounds; words that are read have no other text.
fn number_in(least: u64, most: u64, text: &str) -> u64
    requires { least ≤ most }
    ensures number { result ≡ spec.number_in least most text.now }
    ensures least { least ≤ result }
    ensures most { result ≤ most }
{
    match text.parse::<u64>() {
        Ok(number) => within(least, most, number),
        Err(_) => least,
    }
}

fn within(least: u64, most: u64, number: u64) -> u64
    requires { least ≤ most }
    ensures number { result
        ≡ (if nat_le least number && nat_le number most then number else least) }
    ensures least { least ≤ result }
    ensures most { result ≤ most }
{
    if least <= number && number <= most {
        number
    } else {
        least
    }
}

/// The folder of the pages: the value of `--out`, and `out` if the words name none or are not read.
pub fn out_folder(alloc: Global, words: &[String]) -> Result<Text, NoMemory>
    ensures { IfOk result (λ folder. folder ≡ spec.out_folder (map string_bytes words.now)) }
{
    let folder = match matches(alloc, words)? {
        Some(matches) => matches.get_str("out").unwrap_or(DEFAULT_FOLDER),
        None => DEFAULT_FOLDER,
    };
    Ok(Text::from_str(alloc, folder)?)
}

// The matches of the words, if the command reads them.
fn matches<'a>(alloc: Global, words: &'a [String]) -> Result<Option<ArgMatches<'a>>, NoMemory>
    ensures read { IfOk result (λ found.
        is_some found ≡ spec.is_read (map string_bytes words.now)) }
    ensures rows { IfOk result (λ found. IfSome found (λ matches.
        rows_of (found_of matches) ≡ matches_of spec.command (map string_bytes words.now))) }
{
    match command(alloc)?.try_get_matches_from(words) {
        Ok(matches) => Ok(Some(matches)),
        Err(error) => match error.kind() {
            ErrorKind::OutOfMemory => Err(NoMemory),
            _ => Ok(None),
        },
    }
}
