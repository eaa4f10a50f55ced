//! Nodes from lines: a machine that takes one line after the other.

ghost use Rattle.std.specs.Prelude.{◌≡◌, [], ◌∷◌, ◌++◌, ◌<◌, ◌+◌, ◌^◌, ◌||◌, ℕ, Ok, length, bytes_eq, not, OnOk, IfOk};
ghost use Rattle.dita_doc.specs.Bytes.{Bytes};
ghost use Rattle.dita_doc.specs.Pyx as pyx_spec;
ghost use Rattle.dita_doc.specs.PyxEscapes as pyx_escapes_spec;
ghost use Rattle.dita_doc.specs.PyxEvent as pyx_event_spec;
ghost use Rattle.dita_doc.specs.PyxLine as pyx_line_spec;
ghost use Rattle.pyx_text.specs.Machine as spec;

use crate::line::{is_line_name, split_at_space, split_first, unescape};
use dita_doc::{Attribute, List, Node, NodeKind, PyxCode, Stop, Text, append_unescaped, is_blank};
use std::alloc::{AllocError, Global};
use std::collections::BTreeSet;
use std::mem;

// How many elements may be open within one another.
const DEPTH_LIMIT: usize = 256;

// Up to how many attributes an element's list takes room for one at a time.
const FEW_ATTRIBUTES: usize = 4;

/// The nodes that some lines made, and what of them the next lines go on with.
#[derive(Drop)]
pub struct PyxMachine {
    nodes: Vec<Node>,
    // The places of the open elements, the innermost last.
    places: Vec<usize>,
    // The text since the last element opened or closed, of which no node is made yet.
    text: Text,
    // Whether an attribute of the last node may come.
    fresh: bool,
    // The names of the attributes of the element opened last. A walk over the attributes at each of
    // them would take a time that is quadratic in their number.
    given: BTreeSet<Text>,
    // Whether the root was opened.
    rooted: bool,
}

impl PyxMachine {
    pub fn new(alloc: Global) -> Self
        ensures { spec.HasRead result [] }
    {
        PyxMachine {
            nodes: Vec::new(alloc),
            places: Vec::new(alloc),
            text: Text::new(alloc),
            fresh: false,
            given: BTreeSet::new(alloc),
            rooted: false,
        }
    }

    /// Takes the line of this number: its bytes without CRs and LF. Here alone they are tested to
    /// be UTF-8.
    pub fn take_line(
        &mut self,
        alloc: Global,
        number: u32,
        bytes: &[u8],
    ) -> Result<(), Stop<PyxCode>>
        requires reading { spec.IsReading self.old }
        requires room { length self.old.nodes.items + 2 < 2 ^ 32 }
        ensures { (before : spec.Events) → spec.HasRead self.old before →
            let said = pyx_line_spec.line_of bytes.now in
            spec.StepsTo result (pyx_event_spec.fault_of before said)
            (spec.HasRead self.new (pyx_event_spec.after number before said)) }
    {
        match str::from_utf8(bytes) {
            Ok(line) => self.take_text(alloc, number, line),
            Err(_) => Err(Stop::Fault(PyxCode::NotUtf8)),
        }
    }

    // Takes the line of this number, which is a text.
    fn take_text(&mut self, alloc: Global, number: u32, line: &str) -> Result<(), Stop<PyxCode>>
        requires reading { spec.IsReading self.old }
        requires room { length self.old.nodes.items + 2 < 2 ^ 32 }
        ensures { (before : spec.Events) → spec.HasRead self.old before →
            let said = pyx_line_spec.line_by_bytes line.now in
            spec.StepsTo result (pyx_event_spec.fault_of before said)
            (spec.HasRead self.new (pyx_event_spec.after number before said)) }
    {
        if line.is_empty() {
            return Ok(());
        }
        let Some((first, rest)) = split_first(line) else {
            return Err(Stop::Fault(PyxCode::BadLine));
        };
        match first {
            b'(' => self.opens(alloc, number, rest),
            b')' => self.closes(alloc, rest),
            b'A' => self.gives(alloc, rest),
            b'-' | b'[' => self.says(alloc, rest),
            b'?' | b'C' | b'D' | b'N' | b'U' => Ok(()),
            b'&' => Err(Stop::Fault(PyxCode::Entity)),
            _ => Err(Stop::Fault(PyxCode::BadLine)),
        }
    }

    // An element begins, of this name.
    fn opens(&mut self, alloc: Global, number: u32, name: &str) -> Result<(), Stop<PyxCode>>
        requires reading { spec.IsReading self.old }
        requires room { length self.old.nodes.items + 2 < 2 ^ 32 }
        ensures { (before : spec.Events) → spec.HasRead self.old before →
            let line = pyx_line_spec.with_name name.now (pyx_line_spec.Opens name.now) in
            spec.StepsTo result (pyx_event_spec.fault_of before line)
            (spec.HasRead self.new (pyx_event_spec.after number before line)) }
    {
        if !is_line_name(name) {
            return Err(Stop::Fault(PyxCode::BadLine));
        }
        if self.places.is_empty() {
            if self.rooted {
                return Err(Stop::Fault(PyxCode::SecondRoot));
            }
        } else if self.places.len() >= DEPTH_LIMIT {
            return Err(Stop::Fault(PyxCode::TooDeep));
        }
        self.settle(alloc)?;
        self.places.push(self.nodes.len())?;
        push_element(alloc, &mut self.nodes, number, name)?;
        self.given.clear();
        self.fresh = true;
        self.rooted = true;
        Ok(())
    }

    // The element just opened has an attribute: a name, a space and a value.
    fn gives(&mut self, alloc: Global, text: &str) -> Result<(), Stop<PyxCode>>
        requires { spec.IsReading self.old }
        ensures { (number : ℕ) (before : spec.Events) → spec.HasRead self.old before →
            let line = spec.attribute_said text.now in
            spec.StepsTo result (pyx_event_spec.fault_of before line)
            (spec.HasRead self.new (pyx_event_spec.after number before line)) }
    {
        let (name, value) = split_at_space(text);
        if !is_line_name(name) {
            return Err(Stop::Fault(PyxCode::BadLine));
        }
        if !self.fresh {
            return Err(Stop::Fault(PyxCode::AttributePlace));
        }
        let is_new = insert_name(alloc, &mut self.given, name)?;
        if !is_new {
            return Err(Stop::Fault(PyxCode::AttributeTwice));
        }
        let attribute = Attribute {
            name: Text::from_str(alloc, name)?,
            value: unescape(alloc, value)?,
        };
        push_attribute(alloc, &mut self.nodes, attribute)?;
        Ok(())
    }

    // A text, with its escapes.
    fn says(&mut self, alloc: Global, text: &str) -> Result<(), Stop<PyxCode>>
        ensures { (number : ℕ) (before : spec.Events) → spec.HasRead self.old before →
            let line = pyx_line_spec.Says (pyx_escapes_spec.unescaped text.now) in
            spec.StepsTo result (pyx_event_spec.fault_of before line)
            (spec.HasRead self.new (pyx_event_spec.after number before line)) }
    {
        if self.places.is_empty() {
            let plain = unescape(alloc, text)?;
            if !is_blank(plain.as_bytes()) {
                return Err(Stop::Fault(PyxCode::TextOutside));
            }
        } else {
            append_unescaped(&mut self.text, text)?;
            self.fresh = false;
        }
        Ok(())
    }

    // An element of this name ends.
    fn closes(&mut self, alloc: Global, name: &str) -> Result<(), Stop<PyxCode>>
        requires reading { spec.IsReading self.old }
        requires room { length self.old.nodes.items + 2 < 2 ^ 32 }
        ensures { (number : ℕ) (before : spec.Events) → spec.HasRead self.old before →
            let line = pyx_line_spec.with_name name.now (pyx_line_spec.Closes name.now) in
            spec.StepsTo result (pyx_event_spec.fault_of before line)
            (spec.HasRead self.new (pyx_event_spec.after number before line)) }
    {
        if !is_line_name(name) {
            return Err(Stop::Fault(PyxCode::BadLine));
        }
        let Some(place) = self.places.last().copied() else {
            return Err(Stop::Fault(PyxCode::CloseMismatch));
        };
        if name != self.nodes[place].text.as_str() {
            return Err(Stop::Fault(PyxCode::CloseMismatch));
        }
        self.settle(alloc)?;
        self.places.pop();
        set_end(&mut self.nodes, place);
        self.fresh = false;
        Ok(())
    }

    /// What is wrong with an end here: an element is open, or there was none.
    pub fn end_fault(&self) -> Option<PyxCode>
        ensures { (number : ℕ) (before : spec.Events) → spec.HasRead self.now before →
            pyx_spec.ends number before ≡ pyx_spec.goes_on result number (Ok before) }
    {
        if !self.places.is_empty() {
            Some(PyxCode::Unclosed)
        } else if !self.rooted {
            Some(PyxCode::NoRoot)
        } else {
            None
        }
    }

    /// The nodes, with no more room than they need.
    pub fn into_nodes(self) -> List<Node>
        ensures { result ≡ self.nodes.items }
    {
        let mut nodes = self.nodes;
        nodes.shrink_to_fit();
        List::from_vec(nodes)
    }

    // Makes a node of the text at hand, unless it is empty.
    fn settle(&mut self, alloc: Global) -> Result<(), AllocError>
        requires { length self.old.nodes.items + 1 < 2 ^ 32 }
        ensures nodes { OnOk result
            (self.new.nodes.items ≡ spec.with_text self.old.text self.old.nodes.items) }
        ensures text { OnOk result (self.new.text ≡ []) }
        ensures places { self.new.places ≡ self.old.places }
        ensures fresh { self.new.fresh ≡ self.old.fresh }
        ensures rooted { self.new.rooted ≡ self.old.rooted }
    {
        let text = mem::replace(&mut self.text, Text::new(alloc));
        push_text(alloc, &mut self.nodes, text)
    }
}

// Makes a node of a text, unless it is empty.
fn push_text(alloc: Global, nodes: &mut Vec<Node>, text: Text) -> Result<(), AllocError>
    requires { length nodes.old.items + 1 < 2 ^ 32 }
    ensures { OnOk result (nodes.new.items ≡ spec.with_text text nodes.old.items) }
{
    if text.is_empty() {
        return Ok(());
    }
    let end = (nodes.len() + 1) as u32;
    nodes.push(Node {
        kind: NodeKind::Chars,
        text,
        attributes: List::new(alloc),
        origin: 0,
        line: 0,
        end,
    })?;
    Ok(())
}

// Makes a node of an element. It ends where `set_end` says.
fn push_element(
    alloc: Global,
    nodes: &mut Vec<Node>,
    line: u32,
    name: &str,
) -> Result<(), AllocError>
    ensures { OnOk result (nodes.new.items ≡ spec.with_element name.now line nodes.old.items) }
{
    nodes.push(Node {
        kind: NodeKind::Element,
        text: Text::from_str(alloc, name)?,
        attributes: List::new(alloc),
        origin: 0,
        line,
        end: 0,
    })?;
    Ok(())
}

// Inserts a name among others, and says whether it is new there.
fn insert_name(alloc: Global, names: &mut BTreeSet<Text>, name: &str) -> Result<bool, AllocError>
    ensures added { IfOk result (λ is_new. is_new ≡ not (spec.has_name name.now names.old)) }
    ensures names { OnOk result ((other : Bytes) →
        spec.has_name other names.new
        ≡ (bytes_eq other name.now || spec.has_name other names.old)) }
{
    let is_new = names.insert(Text::from_str(alloc, name)?)?;
    Ok(is_new)
}

// Gives the last node an attribute.
fn push_attribute(
    alloc: Global,
    nodes: &mut Vec<Node>,
    attribute: Attribute,
) -> Result<(), AllocError>
    ensures { OnOk result (nodes.new.items ≡ spec.with_attribute attribute nodes.old.items) }
{
    if let Some(node) = nodes.last_mut() {
        append_attribute(alloc, &mut node.attributes, attribute)?;
    }
    Ok(())
}

// Appends an attribute. Most elements have one or two, so room for the first few is taken one by one.
// Without memory the list is lost, and its reader stops for good.
fn append_attribute(
    alloc: Global,
    attributes: &mut List<Attribute>,
    attribute: Attribute,
) -> Result<(), AllocError>
    ensures { OnOk result (attributes.new ≡ attributes.old ++ attribute ∷ []) }
{
    let mut content = mem::replace(attributes, List::new(alloc)).into_vec();
    if content.len() < FEW_ATTRIBUTES {
        content.reserve_exact(1)?;
    }
    content.push(attribute)?;
    *attributes = List::from_vec(content);
    Ok(())
}

// Ends the subtree of an element behind the last node.
fn set_end(nodes: &mut Vec<Node>, place: usize)
    requires inside { place < length nodes.old.items }
    requires room { length nodes.old.items < 2 ^ 32 }
    ensures { nodes.new.items ≡ spec.with_end place nodes.old.items }
{
    let end = nodes.len() as u32;
    nodes[place].end = end;
}
