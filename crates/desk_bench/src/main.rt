//! The program `desk_bench`, which is not shipped. Its words name work at a desk and a number of
//! times; it does the work so often, closes the desk, and tells what the book has.
#![tactic(auto)]

mod crowd;
mod desk;
mod entries;
mod language;
mod table;

use crate::crowd::crowd;
use crate::desk::{name, started};
use crate::entries::{edits, steps};
use crate::language::BenchParts;
use crate::table::{Size, Work, work_at_table};
use desk_core::Book;
use std::alloc::{AllocError, Global};
use std::process::ExitCode;
use std::sync::Wait;
use std::{env, io};

// 100,000 rows of 1,000 pages, and 10,000 of one.
const WIDE: Size = Size {
    pages: 1000,
    rows: 100,
};

const DEEP: Size = Size {
    pages: 1,
    rows: 10_000,
};

fn main(rt: HostRuntime) -> io::Result<ExitCode> {
    let mut words = env::args(&rt)?;
    let (Some(_), Some(what), Some(times)) = (words.next(), words.next(), words.next()) else {
        return usage(&rt);
    };
    let Ok(times) = times.parse::<u32>() else {
        return usage(&rt);
    };
    let alloc = rt.alloc();
    let book = match what.as_str() {
        "steps" => steps(alloc, times)?,
        "edits" => edits(&rt, alloc, times)?,
        "claims" => at_table(&rt, alloc, &WIDE, Work::Claim, times)?,
        "parts" => at_table(&rt, alloc, &WIDE, Work::Make, times)?,
        "rows" => at_table(&rt, alloc, &WIDE, Work::Publish, times)?,
        "stale" => at_table(&rt, alloc, &DEEP, Work::Stale, times)?,
        "crowd" => crowd(&rt, alloc, times)?,
        _ => return usage(&rt),
    };
    tell(&rt, &book)?;
    Ok(ExitCode::SUCCESS)
}

// The book of a desk after work at its table.
fn at_table<R: Wait>(
    rt: &R,
    alloc: Global,
    size: &Size,
    work: Work,
    times: u32,
) -> Result<Book<BenchParts>, AllocError> {
    let map = name(alloc, "a")?;
    let (desk, mut pass) = started(alloc)?;
    work_at_table(rt, alloc, &desk, &mut pass, &map, size, work, times)?;
    Ok(desk.close(rt, pass))
}

// Tells how many entries and rows a book has.
fn tell(rt: &HostRuntime, book: &Book<BenchParts>) -> io::Result<()> {
    let entries = book.store().entries();
    let table = book.table();
    let (kept, made, dropped) = (table.kept(), table.made(), table.dropped());
    println!(rt; "entries {entries} kept {kept} made {made} dropped {dropped}")
}

fn usage(rt: &HostRuntime) -> io::Result<ExitCode> {
    rt.eprintln("usage: desk_bench steps|edits|claims|parts|rows|stale|crowd TIMES")?;
    Ok(ExitCode::from(2))
}
