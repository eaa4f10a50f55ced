//! The types of elements.

ghost use Rattle.std.specs.Prelude.{◌≡◌, ℕ, List, ◌&&◌, ◌==◌, length, not};
ghost use Rattle.std.specs.List.{list_all};
ghost use Rattle.dita_doc.specs.ClassValue as class_value_spec;
ghost use Rattle.map_spec.specs.Elements as elements_spec;
ghost use Rattle.doc_elements.specs.Walk as walk_spec;

use dita_doc::{Node, is_token, split_sign, split_word};

/// Whether what an element holds stands in its place: it has no class that can be read.
pub fn is_transparent(element: &Node) -> bool
    ensures { (name : List ℕ) →
        result ≡ elements_spec.is_transparent (walk_spec.element_of name element.now) }
{
    !has_types(element) && !is_dita(element)
}

/// Whether it is the element `dita`, which has no class.
pub fn is_dita(element: &Node) -> bool
    ensures { (name : List ℕ) →
        result ≡ elements_spec.is_dita (walk_spec.element_of name element.now) }
{
    element.text.as_str() == "dita"
}

/// Whether the element has a class value that can be read.
pub fn has_types(element: &Node) -> bool
    ensures { (name : List ℕ) →
        result ≡ elements_spec.has_types (walk_spec.element_of name element.now) }
{
    element
        .value_of("class")
        .is_some_and(|value| is_class(value.as_bytes()))
}

/// The tokens of an element's types, the base type first: what stands behind the sign of a class
/// value that can be read, else nothing. `split_word` cuts them one by one.
pub fn tokens_of(element: &Node) -> &[u8]
    ensures { (name : List ℕ) → class_value_spec.words_of result.now
        ≡ elements_spec.tokens_of (walk_spec.element_of name element.now) }
{
    match element.value_of("class") {
        Some(value) => tokens_in(value.as_bytes()),
        None => b"",
    }
}

fn tokens_in(value: &[u8]) -> &[u8]
    ensures { class_value_spec.words_of result.now
        ≡ elements_spec.tokens_read (class_value_spec.class_of value.now) }
{
    match split_sign(value) {
        Some((_, words)) if are_tokens(words) => words,
        _ => b"",
    }
}

// Whether this can be read as a class value.
fn is_class(value: &[u8]) -> bool
    ensures { result
        ≡ not (length (elements_spec.tokens_read (class_value_spec.class_of value.now)) == 0) }
{
    split_sign(value).is_some_and(|(_, words)| are_tokens(words))
}

// Whether a text has words, and each is a token.
fn are_tokens(text: &[u8]) -> bool
    ensures { result ≡ (not (length (class_value_spec.words_of text.now) == 0)
        && list_all class_value_spec.is_token (class_value_spec.words_of text.now)) }
{
    let mut rest = text;
    let mut has_words = false;
    while let Some((word, more)) = split_word(rest) {
        if !is_token(word) {
            return false;
        }
        has_words = true;
        rest = more;
    }
    has_words
}
