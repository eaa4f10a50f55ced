//! The command of the program, argument by argument.

ghost use Rattle.std.specs.Prelude.{◌≡◌, IfOk, codes, false};
ghost use Rattle.clap.specs.Simple.{app_of, with_rule};
ghost use Rattle.clap.specs.Walk.{rule_of};
ghost use Rattle.clap.specs.declared.builder.value_parser.ValueParser.TheVariants as value_parsers;
ghost use Rattle.command_line.specs.Command as spec;

use clap::builder::ValueParser;
use clap::{Arg, ArgAction, Command};
use std::alloc::{AllocError, Global};

const VERSION: &str = "0.1.0";

static MODES: [&str; 6] = ["clean", "terms", "gen", "batch", "trial", "serve"];

/// The command of the program: a mode, and the options of all modes. A mode ignores the options that
/// are not its own.
pub fn command<'a>(alloc: Global) -> Result<Command<'a>, AllocError>
    ensures { IfOk result (λ command. spec.IsCommand (app_of command)) }
{
    let with_mode = named(alloc).arg(mode(alloc))?;
    let workers = number(alloc, "workers", 1, 16, "4").help(
        "batch, trial and serve: threads that work on one build",
    );
    let start = with_mode.arg(workers)?;
    let made = with_project(alloc, start)?;
    let served = with_sessions(alloc, made)?;
    with_folder(alloc, served)
}

// The command without arguments, which tells its version.
fn named<'a>(alloc: Global) -> Command<'a>
    ensures { app_of result ≡ spec.versioned (codes "dita_desk") }
{
    Command::new(alloc, "dita_desk")
        .version(VERSION)
        .about("Publishes documentation written in DITA 1.3")
}

// Adds the number from which a project is made, and its topics.
fn with_project<'a>(alloc: Global, command: Command<'a>) -> Result<Command<'a>, AllocError>
    ensures { IfOk result (λ made. app_of made ≡ with_rule (with_rule (app_of command.entry)
        (spec.option (codes "number") (value_parsers.Unsigned 0 9223372036854775807) (codes "1")))
        (spec.option (codes "topics") (value_parsers.Unsigned 2 4000) (codes "40"))) }
{
    let seed = number(alloc, "number", 0, i64::MAX as u64, "1").help(
        "gen and trial: the number from which a project is made",
    );
    let numbered = command.arg(seed)?;
    let topics = number(alloc, "topics", 2, 4000, "40").help(
        "gen and trial: topics of the project that is made",
    );
    numbered.arg(topics)
}

// Adds where sessions connect, and how many.
fn with_sessions<'a>(alloc: Global, command: Command<'a>) -> Result<Command<'a>, AllocError>
    ensures { IfOk result (λ made. app_of made ≡ with_rule (with_rule (app_of command.entry)
        (spec.option (codes "port") (value_parsers.Unsigned 0 65535) (codes "7070")))
        (spec.option (codes "connections") (value_parsers.Unsigned 1 1024) (codes "1"))) }
{
    let port = number(alloc, "port", 0, 65535, "7070").help(
        "serve: the port of 127.0.0.1 to which sessions connect; 0 takes a free one",
    );
    let placed = command.arg(port)?;
    let connections = number(alloc, "connections", 1, 1024, "1").help(
        "serve: how many sessions are served before the run ends",
    );
    placed.arg(connections)
}

// Adds the folder of the pages.
fn with_folder<'a>(alloc: Global, command: Command<'a>) -> Result<Command<'a>, AllocError>
    ensures { IfOk result (λ made. app_of made ≡ with_rule (app_of command.entry)
        (spec.option (codes "out") value_parsers.NonEmptyString spec.default_folder)) }
{
    let out = option(alloc, "out", "DIR", ValueParser::NonEmptyString, "out").help(
        "clean and terms: the folder of the pages",
    );
    command.arg(out)
}

// The mode, which must be there.
fn mode<'a>(alloc: Global) -> Arg<'a>
    ensures rule { spec.IsMode (rule_of result) }
    ensures here { result.global ≡ false }
{
    Arg::new(alloc, "mode")
        .required(true)
        .action(ArgAction::Set)
        .value_name("MODE")
        .value_parser(MODES.as_slice())
        .help(
            "clean: answers the script on standard input, on one thread; terms: does the same, and adds a page that lists the index terms of each build; gen: writes the script of a project; batch: answers the script on standard input, each session in a thread of its own; trial: answers the script of a project as one session, and writes how much there was; serve: serves sessions over WebSocket, each connection one session, until as many as `--connections` says have ended",
        )
}

// `--name VALUE`, at most once; without it the value is `default`.
fn option<'a>(
    alloc: Global,
    name: &'a str,
    value: &'a str,
    values: ValueParser<'a>,
    default: &'a str,
) -> Arg<'a>
    ensures rule { rule_of result ≡ spec.option name.entry.now values.entry default.entry.now }
    ensures here { result.global ≡ false }
{
    Arg::new(alloc, name)
        .long(name)
        .action(ArgAction::Set)
        .value_name(value)
        .value_parser(values)
        .default_value(default)
}

// The same with a number as its value.
fn number<'a>(alloc: Global, name: &'a str, least: u64, most: u64, default: &'a str) -> Arg<'a>
    ensures rule { rule_of result
        ≡ spec.option name.entry.now (value_parsers.Unsigned least most) default.entry.now }
    ensures here { result.global ≡ false }
{
    option(
        alloc,
        name,
        "N",
        ValueParser::unsigned(least, most),
        default,
    )
}
