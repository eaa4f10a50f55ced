//! Elements by their types, at any depth.

ghost use Rattle.std.specs.Prelude.{◌≡◌, ℕ, List};
ghost use Rattle.map_spec.specs.Elements as elements_spec;
ghost use Rattle.doc_elements.specs.Walk as walk_spec;

use crate::types::is_transparent;
use dita_doc::{First, Node, Siblings};

/// The first element of a type, in document order, below any child of another type, and what it
/// holds.
pub fn first_under<'a>(
    siblings: Siblings<'a>,
    child: &str,
    token: &str,
) -> Option<(&'a Node, Siblings<'a>)>
    ensures { (name : List ℕ) → walk_spec.found_in name result ≡ elements_spec.first_under
        child.now token.now (walk_spec.content_in name siblings.entry) }
{
    let mut left = siblings;
    loop {
        match left.split_first() {
            First::End => return None,
            First::Chars { rest, .. } => left = rest,
            First::Element {
                node,
                inside,
                rest,
                ..
            } => {
                if is_transparent(node) {
                    if let Some(found) = first_under(inside, child, token) {
                        return Some(found);
                    }
                } else if node.has_type(child) {
                    if let Some(found) = first_below(inside, token) {
                        return Some(found);
                    }
                }
                left = rest;
            }
        }
    }
}

// The first element of a type, in document order, and what it holds.
fn first_below<'a>(siblings: Siblings<'a>, token: &str) -> Option<(&'a Node, Siblings<'a>)>
    ensures { (name : List ℕ) → walk_spec.found_in name result
        ≡ walk_spec.first_below token.now (walk_spec.content_in name siblings.entry) }
{
    let mut left = siblings;
    loop {
        match left.split_first() {
            First::End => return None,
            First::Chars { rest, .. } => left = rest,
            First::Element {
                node,
                inside,
                rest,
                ..
            } => {
                if node.has_type(token) {
                    return Some((node, inside));
                }
                if let Some(found) = first_below(inside, token) {
                    return Some(found);
                }
                left = rest;
            }
        }
    }
}
