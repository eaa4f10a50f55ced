//! The row of the table that counts for an element.

ghost use Rattle.std.specs.Prelude.{◌≡◌, ℕ, List, option_map};
ghost use Rattle.dita_doc.specs.ClassValue.{words_of};
ghost use Rattle.doc_elements.specs.Walk as walk_spec;
ghost use Rattle.html_forms.specs.Shown as shown_spec;
ghost use Rattle.html_spec.specs.Blocks as blocks_spec;

use crate::forms::{Form, ROWS};
use dita_doc::{Node, is_same, split_word};
use doc_elements::tokens_of;

/// The form of the last of an element's types that the table has, if it has one.
pub fn form_of(element: &Node) -> Option<Form>
    ensures { (name : List ℕ) → shown_spec.form_found result ≡ option_map (λ row. row.1)
        (blocks_spec.row_for (walk_spec.element_of name element.now)) }
{
    match row_of(element) {
        Some((_, form)) => Some(form),
        None => None,
    }
}

/// The token and the form of the last of an element's types that the table has, if it has one.
pub fn row_of(element: &Node) -> Option<(&'static str, Form)>
    ensures { (name : List ℕ) → shown_spec.row_found result
        ≡ blocks_spec.row_for (walk_spec.element_of name element.now) }
{
    row_among(tokens_of(element))
}

/// The same for the tokens of an element's types, which stand with blanks between them.
pub fn row_among(tokens: &[u8]) -> Option<(&'static str, Form)>
    ensures { shown_spec.row_found result ≡ shown_spec.row_among (words_of tokens.now) }
{
    let mut rest = tokens;
    let mut last = None;
    while let Some((word, more)) = split_word(rest) {
        if let Some(row) = row_named(word) {
            last = Some(row);
        }
        rest = more;
    }
    last
}

// The row of a token, if the table has it.
fn row_named(token: &[u8]) -> Option<(&'static str, Form)>
    ensures { shown_spec.row_found result ≡ blocks_spec.row_of token.now }
{
    ROWS.iter()
        .find(|row| is_same(row.0.as_bytes(), token))
        .copied()
}
