//! The groups of rows that stand around cells.

ghost use Rattle.std.specs.Prelude.{◌≡◌, ◌==◌, ℕ, List, length, bytes_eq};
ghost use Rattle.std.specs.List.{list_any};
ghost use Rattle.dita_doc.specs.ClassValue.{words_of};

use crate::columns::Columns;
use dita_doc::{List, NoMemory, Node, Siblings, split_word};
use std::alloc::Global;

/// The groups that were met on a walk over a document, each with its columns.
#[derive(Drop)]
pub struct Groups {
    groups: List<Columns>,
}

impl Groups {
    ghost use Rattle.std.specs.Prelude.{◌≡◌, [], ℕ, List, None, IfOk, OnOk};
    ghost use Rattle.dita_doc.specs.ClassValue.{words_of};
    ghost use Rattle.doc_elements.specs.Walk as elements_walk;
    ghost use Rattle.html_tables.specs.Walk as walk_spec;
    ghost use Rattle.html_spec.specs.Tables as tables_spec;

    /// No group was met.
    pub fn new(alloc: Global) -> Groups
        ensures { walk_spec.HasColumns result None [] }
    {
        Groups {
            groups: List::new(alloc),
        }
    }

    /// The number of the nearest group around what an element holds: the element's own, whose
    /// columns are read, if it is a group by its tokens; else the one around it.
    pub fn enter(
        &mut self,
        alloc: Global,
        tokens: &[u8],
        inside: Siblings<'_>,
        around: Option<usize>,
    ) -> Result<Option<usize>, NoMemory>
        ensures kept { OnOk result (walk_spec.KeepsGroups self.old self.new) }
        ensures nearest { (names : List (List ℕ)) (columns : walk_spec.Names)
            → walk_spec.HasColumns self.old around columns → IfOk result (λ group.
            walk_spec.HasColumns self.new group (walk_spec.columns_within (words_of tokens.now)
            (walk_spec.content_named names inside.entry) columns)) }
    {
        if !has_token(tokens, "topic/tgroup") {
            return Ok(around);
        }
        let columns = Columns::of(alloc, inside)?;
        let number = self.groups.len();
        self.groups.push(columns)?;
        Ok(Some(number))
    }

    /// How many columns a cell spans, if the group of this number is the nearest around it.
    pub fn columns_spanned(&self, group: Option<usize>, cell: &Node) -> u32
        ensures { (name : List ℕ) (columns : walk_spec.Names)
            → walk_spec.HasColumns self.now group columns
            → result ≡ tables_spec.columns_of columns (elements_walk.element_of name cell.now) }
    {
        match group {
            Some(number) => self.spanned_in(number, cell),
            None => 1,
        }
    }

    fn spanned_in(&self, number: usize, cell: &Node) -> u32
        ensures { (name : List ℕ) (columns : walk_spec.Names)
            → walk_spec.IsGroupAt self.now number columns
            → result ≡ tables_spec.columns_of columns (elements_walk.element_of name cell.now) }
    {
        match self.groups.as_slice().get(number) {
            Some(columns) => columns.spanned(cell),
            None => 1,
        }
    }
}

// Whether one of the words of a text is this token.
pub(crate) fn has_token(tokens: &[u8], token: &str) -> bool
    ensures { result ≡ list_any (bytes_eq token.now) (words_of tokens.now) }
{
    let mut rest = tokens;
    while let Some((word, more)) = split_word(rest) {
        if token.as_bytes() == word {
            return true;
        }
        rest = more;
    }
    false
}

// Whether a text has no word.
pub(crate) fn has_no_token(tokens: &[u8]) -> bool
    ensures { result ≡ (length (words_of tokens.now) == 0) }
{
    split_word(tokens).is_none()
}
