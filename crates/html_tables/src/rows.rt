//! How many rows a cell spans.

ghost use Rattle.std.specs.Prelude.{◌≡◌, ◌+◌, ℕ, List, nat_le, if◌then◌else◌};
ghost use Rattle.doc_elements.specs.Walk as walk_spec;
ghost use Rattle.html_spec.specs.Tables as tables_spec;

use dita_doc::{Node, are_digits};

// The most rows that a cell can add to its own.
const MORE_LIMIT: u32 = 9999;

/// How many rows a cell spans: its own and as many more as it says, if that is a number from 1 to
/// 9,999.
pub fn rows_spanned(element: &Node) -> u32
    ensures { (name : List ℕ) → result
        ≡ tables_spec.rows_of (walk_spec.element_of name element.now) }
{
    match element.value_of("morerows") {
        Some(value) => rows_said(value),
        None => 1,
    }
}

fn rows_said(value: &str) -> u32
    ensures { result ≡ tables_spec.rows_said value.now }
{
    if !is_decimal(value) {
        return 1;
    }
    match value.parse::<u32>() {
        Ok(more) => rows_with(more),
        Err(_) => 1,
    }
}

fn rows_with(more: u32) -> u32
    ensures { result ≡ (if nat_le more tables_spec.row_limit then more + 1 else 1) }
{
    if more <= MORE_LIMIT { more + 1 } else { 1 }
}

fn is_decimal(text: &str) -> bool
    ensures { result ≡ tables_spec.is_decimal text.now }
{
    !text.is_empty() && are_digits(text.as_bytes())
}
