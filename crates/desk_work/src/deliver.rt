//! The pages of a build are put into its outlet.

ghost use Rattle.std.specs.Prelude.{map};
ghost use Rattle.build_spec.specs.Built as built_spec;
ghost use Rattle.dita_outside.specs.Cause as cause_spec;
ghost use Rattle.dita_outside.specs.Pages as pages_spec;
ghost use Rattle.desk_work.specs.Build as build_spec;

use crate::built::{Outcome, PageRow};
use crate::outcome::page_bytes;
use dita_doc::Stop;
use dita_outside::{Failed, Outlet};
use std::alloc::Global;

// Puts the pages of a build that is done, in order.
pub(crate) fn put_pages<O: Outlet>(
    alloc: Global,
    outcome: &Outcome,
    outlet: &mut O,
) -> Result<(), Stop<Failed>>
    ensures pages { pages_spec.PutsPages (O.pages outlet.old) (O.pages outlet.new) result
        (built_spec.built_pages (build_spec.outcome_seen outcome.now)) }
    ensures cause { cause_spec.HasCauseOrNoMemory
        (O.faults outlet.old) (O.faults outlet.new) result }
{
    match outcome {
        Outcome::Done(pages, _) => put_all(alloc, pages.as_slice(), outlet),
        Outcome::Stopped(_) | Outcome::TooLarge(_) => Ok(()),
    }
}

fn put_all<O: Outlet>(alloc: Global, pages: &[PageRow], outlet: &mut O) -> Result<(), Stop<Failed>>
    ensures pages { pages_spec.PutsPages (O.pages outlet.old) (O.pages outlet.new) result
        (map build_spec.page_seen pages.now) }
    ensures cause { cause_spec.HasCauseOrNoMemory
        (O.faults outlet.old) (O.faults outlet.new) result }
{
    for page in pages {
        outlet.put_page(alloc, &page.name, page_bytes(&page.row))?;
    }
    Ok(())
}
