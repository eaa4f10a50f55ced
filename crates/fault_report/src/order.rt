//! The order of faults.

ghost use Rattle.std.specs.Prelude.{◌≡◌};
ghost use Rattle.fault_report.specs.CodeNumber as code_number_spec;
ghost use Rattle.fault_report.specs.Report as report_spec;

use dita_doc::{Fault, FaultCode};
use std::cmp::Ordering;

/// By the document's name, the line, the code's number and the detail.
pub(crate) fn fault_order(first: &Fault, second: &Fault) -> Ordering
    ensures { result ≡ report_spec.fault_order first.now second.now }
{
    first.name.cmp(&second.name).then_with(|| {
        first.line.cmp(&second.line).then_with(|| {
            code_number(first.code)
                .cmp(&code_number(second.code))
                .then_with(|| first.detail.cmp(&second.detail))
        })
    })
}

fn code_number(code: FaultCode) -> u8
    ensures { result ≡ code_number_spec.code_number code }
{
    code as u8
}
