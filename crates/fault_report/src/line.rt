//! The line of a fault.

ghost use Rattle.std.specs.Prelude.{◌≡◌, ◌++◌, IfOk, OnOk, codes};
ghost use Rattle.std.specs.Fmt.{decimal};
ghost use Rattle.dita_doc.specs.Faults as faults_spec;
ghost use Rattle.dita_doc.specs.PyxEscapes as pyx_escapes_spec;
ghost use Rattle.fault_report.specs.FaultLine as fault_line_spec;

use dita_doc::{Fault, List, NoMemory, Text, append_pyx};
use std::alloc::{AllocError, Global};

/// The line that shows a fault, without its LF.
pub fn fault_line(alloc: Global, fault: &Fault) -> Result<Text, NoMemory>
    ensures { IfOk result (λ line. line ≡ fault_line_spec.fault_line fault.now) }
{
    let mut line = place_and_code(alloc, fault)?;
    append_detail(alloc, &mut line, &fault.detail)?;
    Ok(line)
}

// The line without the detail.
fn place_and_code(alloc: Global, fault: &Fault) -> Result<Text, AllocError>
    ensures { IfOk result (λ text. text ≡ fault.now.name ++ codes ":" ++ decimal fault.now.line
        ++ codes " " ++ faults_spec.fault_code_text fault.now.code) }
{
    let (name, code) = (fault.name.as_str(), fault.code.text());
    let text = format!(in alloc; "{}:{} {}", name, fault.line, code)?;
    Text::from_str(alloc, text.as_str())
}

// Appends a detail behind a space, and nothing if it is empty.
fn append_detail(alloc: Global, line: &mut Text, detail: &Text) -> Result<(), AllocError>
    ensures { OnOk result (line.new ≡ line.old
        ++ fault_line_spec.with_detail (pyx_escapes_spec.escaped detail.now)) }
{
    let mut escaped = List::new(alloc);
    append_pyx(&mut escaped, detail.as_bytes())?;
    if escaped.is_empty() {
        return Ok(());
    }
    line.append(" ")?;
    line.append_bytes(escaped.as_slice())
}
