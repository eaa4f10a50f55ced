//! The report of some faults.

ghost use Rattle.std.specs.Prelude.{◌≡◌, IfOk, map};
ghost use Rattle.fault_report.specs.Report as report_spec;

use crate::order::fault_order;
use dita_doc::{Fault, List, NoMemory};
use std::alloc::{AllocError, Global};

/// The distinct faults, by name, line, code and detail, in a time that is linear-logarithmic in
/// their number.
pub fn report(alloc: Global, faults: &List<Fault>) -> Result<List<Fault>, NoMemory>
    ensures { IfOk result (λ report. report_spec.IsReport faults.now report) }
{
    let distinct = distinct_faults(alloc, faults.as_slice())?;
    Ok(copy_all(alloc, distinct.as_slice())?)
}

// The distinct faults, in their order: none of them is copied.
fn distinct_faults(alloc: Global, faults: &[Fault]) -> Result<Vec<&Fault>, AllocError>
    ensures { IfOk result (λ distinct.
        report_spec.IsReport faults.now (map (λ fault. fault.now) distinct.items)) }
{
    let mut distinct = references(alloc, faults)?;
    distinct.sort_unstable_by(|first, second| fault_order(first, second));
    distinct.dedup_by(|second, first| fault_order(second, first).is_eq());
    Ok(distinct)
}

fn references(alloc: Global, faults: &[Fault]) -> Result<Vec<&Fault>, AllocError>
    ensures { IfOk result (λ all. map (λ fault. fault.now) all.items ≡ faults.now) }
{
    let mut all = Vec::new(alloc);
    for fault in faults {
        all.push(fault)?;
    }
    Ok(all)
}

fn copy_all(alloc: Global, faults: &[&Fault]) -> Result<List<Fault>, AllocError>
    ensures { IfOk result (λ copies. copies ≡ map (λ fault. fault.now) faults.now) }
{
    let mut copies = List::new(alloc);
    for fault in faults {
        copies.push(Fault::clone(fault)?)?;
    }
    Ok(copies)
}
