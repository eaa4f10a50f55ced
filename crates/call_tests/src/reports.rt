//! Rows of reports, and of lines.

use crate::given;
use dita_doc::{Fault, FaultCode, List};
use fault_report::{fault_line, report};
use std::alloc::{AllocError, Global};
use std::test::Fail;

fn fault(
    alloc: Global,
    name: &str,
    line: u32,
    code: FaultCode,
    detail: &str,
) -> Result<Fault, AllocError> {
    Ok(Fault {
        name: given::name(alloc, name)?,
        line,
        code,
        detail: given::text(alloc, detail)?,
    })
}

#[test]
fn a_report_has_each_fault_once_in_order(rt: HostRuntime) -> Result<(), Fail> {
    let alloc = rt.alloc();
    let mut faults = List::new(alloc);
    for (name, line, code, detail) in [
        ("b.dita", 1, FaultCode::NoClass, ""),
        ("a.dita", 10, FaultCode::NoClass, ""),
        ("a.dita", 9, FaultCode::Foreign, ""),
        ("a.dita", 9, FaultCode::KeyUndefined, "z"),
        ("b.dita", 1, FaultCode::NoClass, ""),
        ("a.dita", 9, FaultCode::KeyUndefined, "k"),
    ] {
        faults.push(fault(alloc, name, line, code, detail)?)?;
    }
    let report = report(alloc, &faults).map_err(|_| AllocError)?;
    let rows = [
        ("a.dita", 9, FaultCode::KeyUndefined, "k"),
        ("a.dita", 9, FaultCode::KeyUndefined, "z"),
        ("a.dita", 9, FaultCode::Foreign, ""),
        ("a.dita", 10, FaultCode::NoClass, ""),
        ("b.dita", 1, FaultCode::NoClass, ""),
    ];
    assert!(rt; report.len() == rows.len());
    for (told, row) in report.as_slice().iter().zip(rows) {
        assert!(rt; is_fault(told, row));
    }
    Ok(())
}

fn is_fault(told: &Fault, (name, line, code, detail): (&str, u32, FaultCode, &str)) -> bool {
    told.name.as_str() == name
        && told.line == line
        && told.code == code
        && told.detail.as_str() == detail
}

#[test]
fn a_line_shows_name_line_code_and_detail(rt: HostRuntime) -> Result<(), Fail> {
    let alloc = rt.alloc();
    let cycle = fault(alloc, "maps/all.ditamap", 12, FaultCode::MapCycle, "")?;
    assert!(rt; fault_line(alloc, &cycle)?.as_str() == "maps/all.ditamap:12 MapCycle");
    let key = fault(alloc, "a.dita", 3, FaultCode::KeyUndefined, "k\t\\x\nü")?;
    assert!(rt; fault_line(alloc, &key)?.as_str() == "a.dita:3 KeyUndefined k\\t\\\\x\\nü");
    Ok(())
}
