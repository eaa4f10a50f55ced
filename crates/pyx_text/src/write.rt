//! Documents to texts.

ghost use Rattle.std.specs.Prelude.{◌≡◌, ◌≤◌, ◌++◌, length, OnOk, IfOk};
ghost use Rattle.dita_doc.specs.Pyx as pyx_spec;
ghost use Rattle.dita_doc.specs.ReadTree as read_tree_spec;
ghost use Rattle.dita_doc.specs.Tree as tree_spec;
ghost use Rattle.pyx_text.specs.Canonical as canonical_spec;
ghost use Rattle.pyx_text.specs.Read as read_spec;

use dita_doc::{Attribute, Doc, First, List, NoMemory, Node, Siblings, append_pyx};
use std::alloc::{AllocError, Global};

/// The canonical text of a document, in a time linear in its size.
///
/// The elements that are open are kept in memory and not on the stack, so a document may be of any
/// depth.
pub fn write_pyx(alloc: Global, doc: &Doc) -> Result<List<u8>, NoMemory>
    ensures text { IfOk result
        (λ text. text ≡ canonical_spec.text_of (tree_spec.tree_of doc.now.nodes)) }
    // What is written of a tree that was read stands for it again, unless it is longer than a text
    // may be.
    ensures again { let tree = tree_spec.tree_of doc.now.nodes in read_tree_spec.IsReadTree tree →
        IfOk result (λ text.
        length text ≤ pyx_spec.text_limit → read_spec.StandsAgainFor text tree) }
{
    let mut text = List::new(alloc);
    let mut open_elements: Vec<OpenElement<'_>> = Vec::new(alloc);
    let mut left = Siblings::of(doc);
    loop {
        match left.split_first() {
            First::End => {
                let Some(element) = open_elements.pop() else {
                    return Ok(text);
                };
                append_line(&mut text, b')', element.node.text.as_bytes())?;
                left = element.rest;
            }
            First::Chars { node, rest, .. } => {
                append_text(&mut text, node.text.as_bytes())?;
                left = rest;
            }
            First::Element {
                node,
                inside,
                rest,
                ..
            } => {
                append_line(&mut text, b'(', node.text.as_bytes())?;
                append_attributes(&mut text, node.attributes.as_slice())?;
                open_elements.push(OpenElement { node, rest })?;
                left = inside;
            }
        }
    }
}

// An element whose closing is not written yet, and what comes after it.
#[derive(Clone, Copy)]
struct OpenElement<'a> {
    node: &'a Node,
    rest: Siblings<'a>,
}

// Appends the line of an opening or a closing.
fn append_line(text: &mut List<u8>, first: u8, name: &[u8]) -> Result<(), AllocError>
    ensures { OnOk result (text.new ≡ text.old ++ canonical_spec.line_with first name.now) }
{
    text.push(first)?;
    text.append(name)?;
    text.push(b'\n')
}

// Appends the line of a text.
fn append_text(text: &mut List<u8>, plain: &[u8]) -> Result<(), AllocError>
    ensures { OnOk result (text.new ≡ text.old ++ canonical_spec.text_line plain.now) }
{
    text.push(b'-')?;
    append_pyx(text, plain)?;
    text.push(b'\n')
}

fn append_attributes(text: &mut List<u8>, attributes: &[Attribute]) -> Result<(), AllocError>
    ensures { OnOk result (text.new ≡ text.old ++ canonical_spec.attribute_lines attributes.now) }
{
    for attribute in attributes {
        append_attribute(text, attribute)?;
    }
    Ok(())
}

fn append_attribute(text: &mut List<u8>, attribute: &Attribute) -> Result<(), AllocError>
    ensures { OnOk result (text.new ≡ text.old ++ canonical_spec.attribute_line attribute.now) }
{
    text.push(b'A')?;
    text.append(attribute.name.as_bytes())?;
    text.push(b' ')?;
    append_pyx(text, attribute.value.as_bytes())?;
    text.push(b'\n')
}
