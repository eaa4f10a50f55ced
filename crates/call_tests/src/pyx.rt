//! Texts with what they stand for, derived by hand from the rules of PYX.

use crate::given::{self, document};
use dita_doc::{Attribute, Doc, List, Name, Node, NodeKind, PyxCode, PyxFault, Stop};
use pyx_text::{PyxReader, read_body, read_pyx, write_pyx};
use std::alloc::{AllocError, Global};
use std::test::Fail;

fn name(alloc: Global) -> Result<Name, AllocError> {
    given::name(alloc, "t.dita")
}

// The fault of a text, if it has one.
fn fault(alloc: Global, text: &[u8]) -> Result<Option<PyxFault>, AllocError> {
    match read_pyx(alloc, &name(alloc)?, text) {
        Ok(_) => Ok(None),
        Err(Stop::Fault(fault)) => Ok(Some(fault)),
        Err(Stop::NoMemory) => Err(AllocError),
    }
}

fn at(code: PyxCode, line: u32) -> Option<PyxFault> {
    Some(PyxFault { code, line })
}

// The fault that is answered to a piece of a text.
fn fed(
    alloc: Global,
    reader: &mut PyxReader,
    piece: &[u8],
) -> Result<Option<PyxFault>, AllocError> {
    match reader.feed(alloc, piece) {
        Ok(()) => Ok(None),
        Err(Stop::Fault(fault)) => Ok(Some(fault)),
        Err(Stop::NoMemory) => Err(AllocError),
    }
}

#[test]
fn each_fault_has_its_line(rt: HostRuntime) -> Result<(), Fail> {
    let alloc = rt.alloc();
    let rows = [
        (b"(p\n(a b\n".as_slice(), PyxCode::BadLine, 2),
        (b"(p\n\n&lt;\n".as_slice(), PyxCode::Entity, 3),
        (b"(p\n-\nAid x\n".as_slice(), PyxCode::AttributePlace, 3),
        (
            b"(p\nAid x\n?y\nAid z".as_slice(),
            PyxCode::AttributeTwice,
            4,
        ),
        (b"(p\n\n".as_slice(), PyxCode::Unclosed, 2),
        (b"(p\n(q\n)p\n".as_slice(), PyxCode::CloseMismatch, 3),
        (b"".as_slice(), PyxCode::NoRoot, 0),
        (b"\n\r".as_slice(), PyxCode::NoRoot, 1),
        (b"(p\n)p\n(p\n)p\n".as_slice(), PyxCode::SecondRoot, 3),
        (b"- \\t\n(p\n)p\n-x".as_slice(), PyxCode::TextOutside, 4),
        (b"(p\n\xc3\xa9\n".as_slice(), PyxCode::BadLine, 2),
        (b"(p\nx\xff\n)p\n".as_slice(), PyxCode::NotUtf8, 2),
    ];
    for (text, code, line) in rows {
        assert_eq!(rt; fault(alloc, text)?, at(code, line), "{text:?}");
    }
    Ok(())
}

// The longest text that is all line ends, then a CR, which is no line.
fn longest(alloc: Global) -> Result<Vec<u8>, AllocError> {
    let mut text = Vec::new(alloc);
    text.push(b'\n')?;
    for _ in 0..22 {
        let half = text.clone()?;
        text.extend_from_slice(&half)?;
    }
    text.push(b'\r')?;
    Ok(text)
}

// What comes behind the limit is too long before it is anything else, here no UTF-8.
#[test]
fn length_has_a_limit(rt: HostRuntime) -> Result<(), Fail> {
    let alloc = rt.alloc();
    let mut text = longest(alloc)?;
    assert_eq!(rt; fault(alloc, &text)?, at(PyxCode::NoRoot, 4_194_304));
    text.push(b'\xff')?;
    assert_eq!(rt; fault(alloc, &text)?, at(PyxCode::TooLong, 4_194_305));
    Ok(())
}

#[test]
fn too_long_waits_for_the_end_of_its_line(rt: HostRuntime) -> Result<(), Fail> {
    let alloc = rt.alloc();
    let text = longest(alloc)?;
    let mut reader = PyxReader::new(alloc, &name(alloc)?).map_err(|_| AllocError)?;
    assert_eq!(rt; fed(alloc, &mut reader, &text)?, None);
    assert_eq!(rt; fed(alloc, &mut reader, b"(\xff")?, None);
    assert_eq!(rt;
        fed(alloc, &mut reader, b"\n")?,
        at(PyxCode::TooLong, 4_194_305)
    );
    Ok(())
}

const MANY_FORMS: &str =
    "?xml\r\n(to\rpic\nAid a\\tb\nAempty\n-one\nCx\n[\\n two\\\\n\n(b\n)b\n-\\q\\\n)topic";

// Whether a node has this text, stands at this line of its own document, and ends there.
fn is_node(node: &Node, kind: NodeKind, text: &str, line: u32, end: u32) -> bool {
    node.kind == kind
        && node.text.as_str() == text
        && node.origin == 0
        && node.line == line
        && node.end == end
}

// Whether these are the nodes of the text of many forms.
fn are_many_forms(nodes: &[Node]) -> bool {
    let [topic, one, b, q] = nodes else {
        return false;
    };
    is_node(topic, NodeKind::Element, "topic", 2, 4)
        && is_node(one, NodeKind::Chars, "one\n two\\n", 0, 2)
        && is_node(b, NodeKind::Element, "b", 8, 3)
        && is_node(q, NodeKind::Chars, "\\q\\", 0, 4)
}

#[test]
fn a_text_is_read_as_its_tree(rt: HostRuntime) -> Result<(), Fail> {
    let doc = document(rt.alloc(), MANY_FORMS)?;
    assert!(rt; are_many_forms(doc.nodes.as_slice()));
    Ok(())
}

fn is_attribute(attribute: &Attribute, name: &str, value: &str) -> bool {
    attribute.name.as_str() == name && attribute.value.as_str() == value
}

// Whether an element has the two attributes of the root of many forms.
fn has_two(element: &Node) -> bool {
    match element.attributes.as_slice() {
        [id, empty] => is_attribute(id, "id", "a\tb") && is_attribute(empty, "empty", ""),
        _ => false,
    }
}

#[test]
fn attributes_are_read_in_their_order(rt: HostRuntime) -> Result<(), Fail> {
    let doc = document(rt.alloc(), MANY_FORMS)?;
    assert!(rt;
        doc.nodes
            .as_slice()
            .first()
            .is_some_and(|root| has_two(root))
    );
    Ok(())
}

// The document of a text that comes in two pieces.
fn document_of_two(alloc: Global, first: &[u8], second: &[u8]) -> Result<Doc, Stop<PyxFault>> {
    let mut reader = PyxReader::new(alloc, &name(alloc)?)?;
    reader.feed(alloc, first)?;
    reader.feed(alloc, second)?;
    reader.finish(alloc)
}

#[test]
fn a_text_is_the_same_wherever_it_is_cut(rt: HostRuntime) -> Result<(), Fail> {
    let alloc = rt.alloc();
    let text = MANY_FORMS.as_bytes();
    for at in 0..text.len() {
        let doc = document_of_two(alloc, &text[..at], &text[at..]).map_err(|_| AllocError)?;
        assert!(rt; are_many_forms(doc.nodes.as_slice()), "{at}");
    }
    Ok(())
}

#[test]
fn a_fault_waits_for_the_end_of_its_line(rt: HostRuntime) -> Result<(), Fail> {
    let alloc = rt.alloc();
    let mut reader = PyxReader::new(alloc, &name(alloc)?).map_err(|_| AllocError)?;
    let told = at(PyxCode::BadLine, 2);
    assert_eq!(rt; fed(alloc, &mut reader, b"(p\nx")?, None);
    assert_eq!(rt; fed(alloc, &mut reader, b"\n")?, told);
    assert_eq!(rt; fed(alloc, &mut reader, b")q\n")?, told);
    let end = match reader.finish(alloc) {
        Err(Stop::Fault(fault)) => Some(fault),
        _ => None,
    };
    assert_eq!(rt; end, told);
    Ok(())
}

// What the writing leaves out: a head, a comment, CRs, and how a text was cut into lines.
fn is_written(alloc: Global, text: &str, canonical: &str) -> Result<bool, AllocError> {
    let doc = document(alloc, text)?;
    let written = write_pyx(alloc, &doc).map_err(|_| AllocError)?;
    Ok(written.as_slice() == canonical.as_bytes())
}

#[test]
fn a_text_of_many_forms_has_one_canonical_text(rt: HostRuntime) -> Result<(), Fail> {
    let alloc = rt.alloc();
    let text = "?xml version=\"1.0\"\r\n(p\r\nAid\r\n-a\r\nC x\n[\\tb\\\n-\\q\n)p";
    let canonical = "(p\nAid \n-a\\tb\\\\\\\\q\n)p\n";
    assert!(rt; is_written(alloc, text, canonical)?);
    assert!(rt; is_written(alloc, canonical, canonical)?);
    Ok(())
}

#[test]
fn a_body_keeps_its_bytes_and_its_fault(rt: HostRuntime) -> Result<(), Fail> {
    let alloc = rt.alloc();
    let text = b"(p\n)q\n".as_slice();
    let bytes = List::from_slice(alloc, text)?;
    let body = read_body(alloc, &name(alloc)?, bytes).map_err(|_| AllocError)?;
    assert!(rt; body.bytes.as_slice() == text);
    assert_eq!(rt; body.read.err(), at(PyxCode::CloseMismatch, 2));
    Ok(())
}
