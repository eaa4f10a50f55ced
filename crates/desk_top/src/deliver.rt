//! The pages of a build and that of its terms, put into the outlet one by one.

ghost use Rattle.std.specs.Prelude.{◌≡◌, ◌≤◌, All, IfOk};
ghost use Rattle.clean_build.specs.Clean as clean_spec;
ghost use Rattle.build_plan.specs.PageNames as page_names_spec;
ghost use Rattle.html_spec.specs.Terms as terms_spec;
ghost use Rattle.script_text.specs.Script as script_spec;
ghost use Rattle.dita_outside.specs.Cause as cause_spec;
ghost use Rattle.dita_outside.specs.Pages as pages_spec;
ghost use Rattle.run_spec.specs.Answers as answers_spec;
ghost use Rattle.desk_top.specs.Builds as builds_spec;

use crate::path::page_path;
use dita_doc::{Html, Name, Stop, Text};
use dita_outside::{Failed, Outlet};
use std::alloc::{AllocError, Global};
use std::sync::Arc;

/// Puts the pages of the request of this number, in order.
pub fn deliver<O: Outlet>(
    alloc: Global,
    number: u32,
    pages: &[(Name, Arc<Html>)],
    outlet: &mut O,
) -> Result<(), Stop<Failed>>
    requires number { number ≤ script_spec.request_limit }
    requires names { All clean_spec.HasPageName pages.now }
    ensures pages { pages_spec.PutsPages (O.pages outlet.old) (O.pages outlet.new) result
        (builds_spec.pages_put number pages.now) }
    ensures cause { cause_spec.HasCauseOrNoMemory
        (O.faults outlet.old) (O.faults outlet.new) result }
{
    for page in pages {
        put(alloc, number, &page.0, page.1.bytes.as_slice(), outlet)?;
    }
    Ok(())
}

/// Puts the page of the terms of the request of this number, if there is one.
pub fn deliver_terms<O: Outlet>(
    alloc: Global,
    number: u32,
    terms: Option<Html>,
    outlet: &mut O,
) -> Result<(), Stop<Failed>>
    requires number { number ≤ script_spec.request_limit }
    ensures pages { pages_spec.PutsPages (O.pages outlet.old) (O.pages outlet.new) result
        (builds_spec.terms_put number terms) }
    ensures cause { cause_spec.HasCauseOrNoMemory
        (O.faults outlet.old) (O.faults outlet.new) result }
{
    match terms {
        Some(html) => {
            let name = terms_name(alloc)?;
            put(alloc, number, &name, html.bytes.as_slice(), outlet)
        }
        None => Ok(()),
    }
}

// The name of the page of terms.
fn terms_name(alloc: Global) -> Result<Name, AllocError>
    ensures { IfOk result (λ name. name ≡ terms_spec.terms_name) }
{
    Name::new(alloc, Text::from_str(alloc, "terms.htm")?)
}

// Puts a page under the folder of its request.
fn put<O: Outlet>(
    alloc: Global,
    number: u32,
    name: &Name,
    page: &[u8],
    outlet: &mut O,
) -> Result<(), Stop<Failed>>
    requires number { number ≤ script_spec.request_limit }
    requires name { page_names_spec.IsPageName name.now }
    ensures page { pages_spec.PutsPage (O.pages outlet.old) (O.pages outlet.new) result
        (answers_spec.delivered number (name.now, page.now)) }
    ensures cause { cause_spec.HasCauseOrNoMemory
        (O.faults outlet.old) (O.faults outlet.new) result }
{
    let path = page_path(alloc, number, name)?;
    outlet.put_page(alloc, &path, page)
}
