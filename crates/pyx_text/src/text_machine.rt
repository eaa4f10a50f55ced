//! Lines from bytes, which come in pieces.

ghost use Rattle.std.specs.Prelude.{◌≡◌, ◌==◌, ◌&&◌, ◌+◌, ◌<◌, ◌≤◌, [], ◌∷◌, ◌++◌, None, length, OnOk, IfOk, IfErr};
ghost use Rattle.dita_doc.specs.Bytes as bytes_spec;
ghost use Rattle.dita_doc.specs.Bytes.{Bytes};
ghost use Rattle.dita_doc.specs.Gives.{IsStopOf};
ghost use Rattle.dita_doc.specs.Pyx as pyx_spec;
ghost use Rattle.dita_doc.specs.PyxEvent as pyx_event_spec;
ghost use Rattle.dita_doc.specs.PyxLine as pyx_line_spec;
ghost use Rattle.dita_doc.specs.Tree as tree_spec;
ghost use Rattle.pyx_text.specs.Machine as machine_spec;
ghost use Rattle.pyx_text.specs.Read as read_spec;
ghost use Rattle.pyx_text.specs.Reader as spec;

use crate::machine::PyxMachine;
use dita_doc::{List, Node, PyxCode, PyxFault, Stop};
use std::alloc::Global;

// The bytes of the longest text.
const TEXT_LIMIT: u32 = 4_194_304;

/// A machine that takes the bytes of a text in pieces.
#[derive(Drop)]
pub struct TextMachine {
    machine: PyxMachine,
    // The line that is not ended yet, without CRs and without what stands behind the limit.
    line: Vec<u8>,
    // How many lines have ended.
    number: u32,
    // How many bytes more are within the limit.
    left: u32,
    // Whether that line has a byte behind the limit.
    over: bool,
}

impl TextMachine {
    pub fn new(alloc: Global) -> Self
        ensures { spec.IsAt result [] }
    {
        TextMachine {
            machine: PyxMachine::new(alloc),
            line: Vec::new(alloc),
            number: 0,
            left: TEXT_LIMIT,
            over: false,
        }
    }

    /// Takes the next piece of the text. A fault is answered once its line is ended. After an `Err`
    /// the machine is of no use.
    pub fn feed(&mut self, alloc: Global, piece: &[u8]) -> Result<(), Stop<PyxFault>>
        requires { spec.IsReadingText self.old }
        ensures ok { (text : Bytes) → spec.IsAt self.old text →
            OnOk result (spec.IsAt self.new (text ++ piece.now)) }
        ensures fault { (text rest : Bytes) → spec.IsAt self.old text →
            IfErr result (λ stop. spec.IsTold stop ((text ++ piece.now) ++ rest)) }
    {
        for byte in piece {
            self.take_byte(alloc, *byte)?;
        }
        Ok(())
    }

    /// The nodes of the whole text.
    pub fn finish(mut self, alloc: Global) -> Result<List<Node>, Stop<PyxFault>>
        requires { spec.IsReadingText self }
        ensures tree { (text : Bytes) → spec.IsAt self text →
            IfOk result (λ nodes. read_spec.AreRead nodes text) }
        ensures fault { (text : Bytes) → spec.IsAt self text →
            IfErr result (λ stop. IsStopOf stop (pyx_spec.reading text)) }
        ensures small { IfOk result (λ nodes. length nodes < tree_spec.doc_node_limit) }
    {
        self.end_text(alloc)?;
        match self.machine.end_fault() {
            Some(code) => Err(Stop::Fault(PyxFault {
                code,
                line: self.number,
            })),
            None => Ok(self.machine.into_nodes()),
        }
    }

    fn take_byte(&mut self, alloc: Global, byte: u8) -> Result<(), Stop<PyxFault>>
        requires { spec.IsReadingText self.old }
        ensures ok { (text : Bytes) → spec.IsAt self.old text →
            OnOk result (spec.IsAt self.new (text ++ byte ∷ [])) }
        ensures fault { (text rest : Bytes) → spec.IsAt self.old text →
            IfErr result (λ stop. spec.IsTold stop ((text ++ byte ∷ []) ++ rest)) }
    {
        if self.left == 0 {
            return self.take_behind(byte);
        }
        self.left -= 1;
        match byte {
            b'\n' => self.end_line(alloc)?,
            b'\r' => {}
            _ => self.line.push(byte)?,
        }
        Ok(())
    }

    // Takes a byte behind the limit. It is not kept.
    fn take_behind(&mut self, byte: u8) -> Result<(), Stop<PyxFault>>
        requires reading { spec.IsReadingText self.old }
        requires none { self.old.left ≡ 0 }
        ensures ok { (text : Bytes) → spec.IsAt self.old text →
            OnOk result (spec.IsAt self.new (text ++ byte ∷ [])) }
        ensures fault { (text rest : Bytes) → spec.IsAt self.old text →
            IfErr result (λ stop. spec.IsTold stop ((text ++ byte ∷ []) ++ rest)) }
    {
        if byte == b'\n' {
            return Err(Stop::Fault(self.too_long()));
        }
        if !self.is_dropped(byte) {
            self.over = true;
        }
        Ok(())
    }

    // Whether a byte behind the limit is a CR that begins no line.
    fn is_dropped(&self, byte: u8) -> bool
        ensures { result ≡ ((byte == bytes_spec.carriage_return)
            && pyx_spec.is_empty_line self.now.line.items) }
    {
        byte == b'\r' && self.line.is_empty()
    }

    // The fault of the line that is not ended yet, if it has a byte behind the limit.
    fn too_long(&self) -> PyxFault
        requires { self.now.number ≤ pyx_spec.text_limit }
        ensures { result ≡ spec.too_long self.now.number }
    {
        PyxFault {
            code: PyxCode::TooLong,
            line: self.number + 1,
        }
    }

    // Ends the line at hand, and begins the next.
    fn end_line(&mut self, alloc: Global) -> Result<(), Stop<PyxFault>>
        requires reading { (before : machine_spec.Events)
            × spec.HasReadLines self.old.machine self.old.number before }
        requires within { self.old.number ≤ pyx_spec.text_limit }
        ensures ok { (before : machine_spec.Events) →
            spec.HasReadLines self.old.machine self.old.number before →
            let line = pyx_line_spec.line_of self.old.line.items in
            let after = pyx_event_spec.after (self.old.number + 1) before line in
            OnOk result ((pyx_event_spec.fault_of before line ≡ None)
            × spec.HasReadLines self.new.machine (self.old.number + 1) after) }
        ensures fault { (before : machine_spec.Events) (rest : spec.EventsOrFault) →
            spec.HasReadLines self.old.machine self.old.number before →
            let fault = pyx_event_spec.fault_of before
            (pyx_line_spec.line_of self.old.line.items) in
            IfErr result (λ stop.
            IsStopOf stop (pyx_spec.goes_on fault (self.old.number + 1) rest)) }
        ensures number { OnOk result (self.new.number ≡ self.old.number + 1) }
        ensures line { OnOk result (self.new.line.items ≡ []) }
        ensures left { self.new.left ≡ self.old.left }
        ensures over { self.new.over ≡ self.old.over }
    {
        self.number += 1;
        match self.machine.take_line(alloc, self.number, &self.line) {
            Ok(()) => {
                self.line.clear();
                Ok(())
            }
            Err(Stop::Fault(code)) => Err(Stop::Fault(PyxFault {
                code,
                line: self.number,
            })),
            Err(Stop::NoMemory) => Err(Stop::NoMemory),
        }
    }

    // Ends the last line, if it has no LF.
    fn end_text(&mut self, alloc: Global) -> Result<(), Stop<PyxFault>>
        requires { spec.IsReadingText self.old }
        ensures ok { (text : Bytes) → spec.IsAt self.old text →
            OnOk result (spec.HasReadAll self.new text) }
        ensures fault { (text : Bytes) → spec.IsAt self.old text →
            IfErr result (λ stop. IsStopOf stop (pyx_spec.reading text)) }
    {
        if self.over {
            return Err(Stop::Fault(self.too_long()));
        }
        if !self.line.is_empty() {
            self.end_line(alloc)?;
        }
        Ok(())
    }
}
