//! Terms: which elements they are, and their texts.

ghost use Rattle.std.specs.Prelude.{◌≡◌, ◌++◌, ℕ, List, IfOk, OnOk};
ghost use Rattle.doc_elements.specs.Walk as walk_spec;
ghost use Rattle.html_spec.specs.Terms as terms_spec;

use dita_doc::{First, Node, Siblings, Text, fold};
use std::alloc::{AllocError, Global};

pub(crate) fn is_term(element: &Node) -> bool
    ensures { (name : List ℕ) →
        result ≡ terms_spec.is_term (walk_spec.element_of name element.now) }
{
    element.has_type("topic/indexterm")
}

// Whether what stands in an element is no text of the term around it.
fn is_apart(element: &Node) -> bool
    ensures { (name : List ℕ) →
        result ≡ terms_spec.is_apart (walk_spec.element_of name element.now) }
{
    is_term(element) || element.has_type("topic/index-base")
}

// Whether a term stands among these siblings or in them. It reads them up to the first.
pub(crate) fn holds_term(siblings: Siblings<'_>) -> bool
    ensures { (name : List ℕ) →
        result ≡ terms_spec.holds_term (walk_spec.content_in name siblings.entry) }
{
    let mut left = siblings;
    loop {
        match left.split_first() {
            First::End => return false,
            First::Chars { rest, .. } => left = rest,
            First::Element {
                node,
                inside,
                rest,
                ..
            } => {
                if is_term(node) {
                    return true;
                }
                if holds_term(inside) {
                    return true;
                }
                left = rest;
            }
        }
    }
}

// The text of a term that holds these siblings: what stands in other terms is left out.
pub(crate) fn term_text(alloc: Global, inside: Siblings<'_>) -> Result<Text, AllocError>
    ensures { (name : List ℕ) → IfOk result (λ text. text
        ≡ terms_spec.term_text (walk_spec.content_in name inside.entry)) }
{
    let mut characters = Text::new(alloc);
    append_own(&mut characters, inside)?;
    fold(alloc, characters.as_str())
}

// Appends the characters outside elements that stand apart.
fn append_own(out: &mut Text, siblings: Siblings<'_>) -> Result<(), AllocError>
    ensures { (name : List ℕ) → OnOk result (out.new
        ≡ out.old ++ terms_spec.own_characters (walk_spec.content_in name siblings.entry)) }
{
    let mut left = siblings;
    loop {
        match left.split_first() {
            First::End => return Ok(()),
            First::Chars { node, rest, .. } => {
                out.append(node.text.as_str())?;
                left = rest;
            }
            First::Element {
                node,
                inside,
                rest,
                ..
            } => {
                left = rest;
                if is_apart(node) {
                    continue;
                }
                append_own(out, inside)?;
            }
        }
    }
}
