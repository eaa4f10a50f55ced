//! Types that specialize others.

ghost use Rattle.std.specs.Prelude.{◌≡◌, ℕ, List};
ghost use Rattle.dita_doc.specs.ClassValue as class_value_spec;
ghost use Rattle.doc_elements.specs.Walk as walk_spec;
ghost use Rattle.map_spec.specs.Elements as elements_spec;

use crate::types::tokens_of;
use dita_doc::{Node, split_word};

/// Whether an element is of the type of another, or of one that specializes it: the types of the
/// other are the first of its own. An element without a class that can be read is neither.
pub fn is_special(special: &Node, base: &Node) -> bool
    ensures { (name other : List ℕ) → result ≡ elements_spec.is_special
        (walk_spec.element_of name special.now) (walk_spec.element_of other base.now) }
{
    let wanted = tokens_of(base);
    match split_word(wanted) {
        None => false,
        Some(_) => begins_with(tokens_of(special), wanted),
    }
}

// Whether the words of a text begin with those of another.
fn begins_with(text: &[u8], first: &[u8]) -> bool
    ensures { result ≡ elements_spec.begins_with (class_value_spec.words_of text.now)
        (class_value_spec.words_of first.now) }
{
    let mut own = text;
    let mut wanted = first;
    while let Some((word, more)) = split_word(wanted) {
        let Some((own_word, own_more)) = split_word(own) else {
            return false;
        };
        if own_word != word {
            return false;
        }
        own = own_more;
        wanted = more;
    }
    true
}
