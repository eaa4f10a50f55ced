//! Children by their types.

ghost use Rattle.std.specs.Prelude.{◌≡◌, ℕ, List};
ghost use Rattle.map_spec.specs.Elements as elements_spec;
ghost use Rattle.doc_elements.specs.Walk as walk_spec;

use crate::types::is_transparent;
use dita_doc::{First, Node, Siblings};

/// The first child of a type, and what it holds. What a transparent element holds stands in its
/// place.
pub fn first_child<'a>(siblings: Siblings<'a>, token: &str) -> Option<(&'a Node, Siblings<'a>)>
    ensures { (name : List ℕ) → walk_spec.found_in name result
        ≡ elements_spec.first_child token.now (walk_spec.content_in name siblings.entry) }
{
    let mut left = siblings;
    loop {
        match left.split_first() {
            First::End => return None,
            First::Chars { rest, .. } => left = rest,
            First::Element {
                node,
                inside,
                rest,
                ..
            } => {
                if is_transparent(node) {
                    if let Some(found) = first_child(inside, token) {
                        return Some(found);
                    }
                } else if node.has_type(token) {
                    return Some((node, inside));
                }
                left = rest;
            }
        }
    }
}
