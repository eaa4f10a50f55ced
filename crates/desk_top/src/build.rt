//! What an entry builds.

ghost use Rattle.std.specs.Option.{option_copied};
ghost use Rattle.std.specs.Prelude.{◌≡◌, ◌<◌, ◌≤◌, Some, None, IfOk, if◌then◌else◌, length, map, option_map};
ghost use Rattle.script_text.specs.Script as script_spec;
ghost use Rattle.dita_outside.specs.Cause as cause_spec;
ghost use Rattle.dita_outside.specs.Pages as pages_spec;
ghost use Rattle.clean_build.specs.Clean as clean_spec;
ghost use Rattle.part_spec.specs.Parts as parts_spec;
ghost use Rattle.reader_spec.specs.World.{world_of};
ghost use Rattle.transcript_text.specs.Written as written_spec;
ghost use Rattle.run_spec.specs.Answers as answers_spec;
ghost use Rattle.desk_top.specs.Builds as builds_spec;

use crate::deliver::{deliver, deliver_terms};
use clean_build::{Clean, clean, clean_with_terms};
use dita_doc::{Html, List, Name, NoMemory, Request, Sources, Stop};
use dita_outside::{Failed, Outlet};
use std::alloc::{AllocError, Global};
use std::sync::Arc;
use transcript_text::{BuiltText, PageMark};
use version_store::Store;

/// What the entry at a place builds over what is stored now, if it is a build. The outlet takes the
/// pages under the number, which is that of the entry's request; if pages of terms are wanted, it
/// takes that of the build behind them.
pub fn build<O: Outlet>(
    alloc: Global,
    store: &Store,
    place: u64,
    number: u32,
    with_terms: bool,
    outlet: &mut O,
) -> Result<Option<BuiltText>, Stop<Failed>>
    requires there { place < length store.now.history }
    requires number { number ≤ script_spec.request_limit }
    ensures shown { IfOk result (λ built. written_spec.built_shown built
        ≡ option_map answers_spec.build_shown (builds_spec.built_at store.now place)) }
    ensures pages { pages_spec.PutsPages (O.pages outlet.old) (O.pages outlet.new) result
        (builds_spec.pages_put_at with_terms number store.now place) }
    ensures cause { cause_spec.HasCauseOrNoMemory
        (O.faults outlet.old) (O.faults outlet.new) result }
{
    match &store.entry(place).request {
        Request::Build(map, val) => {
            let (built, terms) = made(alloc, store.sources(), map, val.as_ref(), with_terms)?;
            let text = put_built(alloc, number, built, outlet)?;
            deliver_terms(alloc, number, terms, outlet)?;
            Ok(Some(text))
        }
        _ => Ok(None),
    }
}

// The build of a map, and the page of its terms, if pages of terms are wanted and it has one.
fn made(
    alloc: Global,
    sources: &Sources,
    map: &Name,
    val: Option<&Name>,
    with_terms: bool,
) -> Result<(Clean, Option<Html>), NoMemory>
    ensures built { IfOk result (λ made. clean_spec.clean_seen made.0
        ≡ parts_spec.clean_build (world_of sources.now) map.now (option_copied val.entry)) }
    ensures names { IfOk result (λ made. clean_spec.HasPageNames made.0) }
    ensures terms { IfOk result (λ made. made.1 ≡ if with_terms
        then parts_spec.clean_terms (world_of sources.now) map.now (option_copied val.entry)
        else None) }
{
    if with_terms {
        clean_with_terms(alloc, sources, map, val)
    } else {
        Ok((clean(alloc, sources, map, val)?, None))
    }
}

// Puts the pages of a build, and gives what is shown of it.
fn put_built<O: Outlet>(
    alloc: Global,
    number: u32,
    built: Clean,
    outlet: &mut O,
) -> Result<BuiltText, Stop<Failed>>
    requires number { number ≤ script_spec.request_limit }
    requires names { clean_spec.HasPageNames built }
    ensures shown { IfOk result (λ text. written_spec.text_shown text
        ≡ answers_spec.build_shown (clean_spec.clean_seen built)) }
    ensures pages { pages_spec.PutsPages (O.pages outlet.old) (O.pages outlet.new) result
        (builds_spec.pages_put_by number (Some (clean_spec.clean_seen built))) }
    ensures cause { cause_spec.HasCauseOrNoMemory
        (O.faults outlet.old) (O.faults outlet.new) result }
{
    match built {
        Clean::Done(pages, faults) => {
            deliver(alloc, number, pages.as_slice(), outlet)?;
            let marks = marks(alloc, pages.as_slice())?;
            Ok(BuiltText::Pages(marks, faults))
        }
        Clean::Stopped(stop) => Ok(BuiltText::Stopped(stop)),
        Clean::TooLarge(total) => Ok(BuiltText::TooLarge(total)),
    }
}

// The name of each page, and how many bytes it has.
fn marks(alloc: Global, pages: &[(Name, Arc<Html>)]) -> Result<List<(Name, PageMark)>, AllocError>
    ensures { IfOk result (λ marks. map written_spec.page_shown marks
        ≡ map answers_spec.page_put (map clean_spec.page_seen pages.now)) }
{
    let mut marks = List::new(alloc);
    for page in pages {
        let bytes = page.1.bytes.len() as u64;
        marks.push((page.0.clone()?, PageMark::Bytes(bytes)))?;
    }
    Ok(marks)
}
