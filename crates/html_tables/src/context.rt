//! Where an element stands among the tables around it.

ghost use Rattle.std.specs.Prelude.{◌≡◌};
ghost use Rattle.html_spec.specs.Blocks as blocks_spec;

use dita_doc::is_same;

/// Whether a cell heads its column here, and the nearest group of rows.
#[derive(Clone, Copy)]
pub struct TableContext {
    /// Whether a cell of a table heads its column.
    pub head: bool,
    /// Whether a cell of a simple table heads its column.
    pub simple_head: bool,
    /// The number of the nearest group among those that were met.
    pub group: Option<usize>,
}

impl TableContext {
    ghost use Rattle.std.specs.Prelude.{◌≡◌, None};
    ghost use Rattle.html_spec.specs.Blocks as blocks_spec;

    /// Where no table stands around.
    pub fn outside() -> TableContext
        ensures head { result.head ≡ blocks_spec.outside.head }
        ensures simple_head { result.simple_head ≡ blocks_spec.outside.simple_head }
        ensures group { result.group ≡ None }
    {
        TableContext {
            head: false,
            simple_head: false,
            group: None,
        }
    }

    /// Where what an element holds stands, by the token that counts for the element and the nearest
    /// group.
    pub fn within(self, token: &str, group: Option<usize>) -> TableContext
        ensures head { result.head ≡ blocks_spec.head_in token.now self.head }
        ensures simple_head { result.simple_head
            ≡ blocks_spec.simple_head_in token.now self.simple_head }
        ensures group { result.group ≡ group }
    {
        TableContext {
            head: head_in(token, self.head),
            simple_head: simple_head_in(token, self.simple_head),
            group,
        }
    }
}

fn head_in(token: &str, around: bool) -> bool
    ensures { result ≡ blocks_spec.head_in token.now around }
{
    let token = token.as_bytes();
    if is_same(token, b"topic/thead") {
        return true;
    }
    if is_same(token, b"topic/tbody") || is_same(token, b"topic/table") {
        return false;
    }
    around
}

fn simple_head_in(token: &str, around: bool) -> bool
    ensures { result ≡ blocks_spec.simple_head_in token.now around }
{
    let token = token.as_bytes();
    if is_same(token, b"topic/sthead") {
        return true;
    }
    if is_same(token, b"topic/strow") || is_same(token, b"topic/simpletable") {
        return false;
    }
    around
}
