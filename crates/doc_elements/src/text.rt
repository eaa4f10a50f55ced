//! The text of what an element holds.

ghost use Rattle.std.specs.Prelude.{◌≡◌, ◌++◌, ℕ, List, IfOk, OnOk};
ghost use Rattle.map_spec.specs.Elements as elements_spec;
ghost use Rattle.map_spec.specs.Written as written_spec;
ghost use Rattle.doc_elements.specs.Walk as walk_spec;

use dita_doc::{First, Siblings, Text, fold};
use std::alloc::{AllocError, Global};

/// All characters, on one line.
pub fn plain_text(alloc: Global, siblings: Siblings<'_>) -> Result<Text, AllocError>
    ensures { (name : List ℕ) → IfOk result (λ text. text
        ≡ elements_spec.plain_text (walk_spec.content_in name siblings.entry)) }
{
    let mut characters = Text::new(alloc);
    append_characters(&mut characters, siblings)?;
    fold(alloc, characters.as_str())
}

// Appends all characters, in document order.
fn append_characters(out: &mut Text, siblings: Siblings<'_>) -> Result<(), AllocError>
    ensures { (name : List ℕ) → OnOk result (out.new
        ≡ out.old ++ written_spec.characters (walk_spec.content_in name siblings.entry)) }
{
    let mut left = siblings;
    loop {
        match left.split_first() {
            First::End => return Ok(()),
            First::Chars { node, rest, .. } => {
                out.append(node.text.as_str())?;
                left = rest;
            }
            First::Element { inside, rest, .. } => {
                append_characters(out, inside)?;
                left = rest;
            }
        }
    }
}
