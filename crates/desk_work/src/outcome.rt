//! What a build gives, by the rows that are cited for its parts.

ghost use Rattle.std.specs.Prelude.{◌≡◌, ◌+◌, ◌≤◌, ◌++◌, IfOk, OnOk, Some, length, map, slice_get, vec_len};
ghost use Rattle.std.specs.List.{flat_map};
ghost use Rattle.std.specs.Arc.{arc_value};
ghost use Rattle.desk_work.specs.Build as build_spec;
ghost use Rattle.desk_work.specs.Cited as cited_spec;
ghost use Rattle.desk_work.specs.Outcome as outcome_spec;
ghost use Rattle.facts.specs.Rows as rows_spec;

use crate::built::{Outcome, PageRow};
use dita_doc::{Fault, Html, List, Name, NoMemory, Plan, Text, copy_faults};
use facts::Row;
use fault_report::report;
use std::alloc::{AllocError, Global};
use std::sync::Arc;

// The most bytes of all pages of a build.
const TOTAL_LIMIT: u64 = 268_435_456;

// What the build of a plan gives: the rows are those of its pages in order and of its contents page.
pub(crate) fn outcome_of(alloc: Global, plan: &Plan, rows: Vec<Row>) -> Result<Outcome, NoMemory>
    requires { vec_len rows ≡ length plan.now.pages + 1 }
    ensures outcome { IfOk result (λ outcome. build_spec.outcome_seen outcome
        ≡ outcome_spec.outcome_of plan.now (cited_spec.facts_of rows.items)) }
    ensures named { IfOk result (λ outcome. cited_spec.NamesRows outcome
        (cited_spec.rows_seen rows.items)) }
{
    let total = total_of(rows.as_slice())?;
    if total > TOTAL_LIMIT {
        return Ok(Outcome::TooLarge(total));
    }
    let faults = faults_of(alloc, plan, rows.as_slice())?;
    let pages = named(alloc, plan, rows)?;
    Ok(Outcome::Done(pages, faults))
}

// The bytes of all pages. More bytes than can be counted are more than there is memory for.
fn total_of(rows: &[Row]) -> Result<u64, NoMemory>
    ensures { IfOk result (λ total. total
        ≡ outcome_spec.total_of (cited_spec.facts_of rows.now)) }
{
    let mut total: u64 = 0;
    for row in rows {
        let Some(more) = total.checked_add(page_bytes(row).len() as u64) else {
            return Err(NoMemory);
        };
        total = more;
    }
    Ok(total)
}

/// The bytes of the page that a row keeps.
pub(crate) fn page_bytes(row: &Row) -> &[u8]
    ensures { result.now ≡ build_spec.html_in (rows_spec.row_data row.now).fact.html }
{
    match &row.fact.html {
        Some(html) => html.bytes.as_slice(),
        None => &[],
    }
}

// The report of the faults of the plan and of all pages.
fn faults_of(alloc: Global, plan: &Plan, rows: &[Row]) -> Result<List<Fault>, NoMemory>
    ensures { IfOk result (λ faults. faults ≡ outcome_spec.report_of_all plan.now
        (cited_spec.facts_of rows.now)) }
{
    let mut faults = copy_faults(alloc, plan.faults.as_slice())?;
    for row in rows {
        append_faults(&mut faults, &row.fact.html)?;
    }
    report(alloc, &faults)
}

fn append_faults(faults: &mut List<Fault>, html: &Option<Arc<Html>>) -> Result<(), AllocError>
    ensures { OnOk result (faults.new ≡ faults.old ++ outcome_spec.html_faults html.now) }
{
    match html {
        Some(html) => append_copies(faults, html.faults.as_slice()),
        None => Ok(()),
    }
}

fn append_copies(faults: &mut List<Fault>, more: &[Fault]) -> Result<(), AllocError>
    ensures { OnOk result (faults.new ≡ faults.old ++ more.now) }
{
    for fault in more {
        faults.push(fault.clone()?)?;
    }
    Ok(())
}

// Each page under its name, with its row, and the contents page last.
fn named(alloc: Global, plan: &Plan, rows: Vec<Row>) -> Result<List<PageRow>, AllocError>
    requires { vec_len rows ≡ length plan.now.pages + 1 }
    ensures names { IfOk result (λ pages. map (λ page. page.name) pages
        ≡ outcome_spec.page_names plan.now) }
    ensures rows { IfOk result (λ pages. map (λ page. page.row) pages ≡ rows.items) }
{
    let mut pages = List::new(alloc);
    let mut index = 0;
    for row in rows {
        let name = name_of(alloc, plan, index)?;
        pages.push(PageRow { name, row })?;
        index += 1;
    }
    Ok(pages)
}

// The name of the page of an index; behind the last page stands the contents page.
fn name_of(alloc: Global, plan: &Plan, index: usize) -> Result<Name, AllocError>
    requires { index ≤ length plan.now.pages }
    ensures { IfOk result (λ name. slice_get (outcome_spec.page_names plan.now) index ≡ Some name) }
{
    match plan.pages.as_slice().get(index) {
        Some(page) => page.name.clone(),
        None => Name::new(alloc, Text::from_str(alloc, "index.html")?),
    }
}
