//! The columns of a group of rows, by their names.

ghost use Rattle.std.specs.Prelude.{◌≡◌, ◌++◌, ◌<◌, ℕ, List, Some, OnOk};
ghost use Rattle.dita_doc.specs.ClassValue.{words_of};
ghost use Rattle.doc_elements.specs.Walk as elements_walk;
ghost use Rattle.html_tables.specs.Walk as walk_spec;
ghost use Rattle.map_spec.specs.Elements as elements_spec;
ghost use Rattle.html_spec.specs.Tables as tables_spec;

use crate::groups::{has_no_token, has_token};
use dita_doc::{First, NoMemory, Node, Siblings};
use doc_elements::{is_dita, tokens_of};
use std::alloc::Global;
use std::collections::BTreeMap;

/// The columns of a group: the place of each name among them. Of equal names the first counts.
#[derive(Drop)]
pub(crate) struct Columns {
    places: BTreeMap<String, u32>,
    count: u32,
}

impl Columns {
    ghost use Rattle.std.specs.Prelude.{◌≡◌, ◌++◌, [], ◌∷◌, ℕ, List, Some, IfOk, OnOk};
    ghost use Rattle.std.specs.Option.{option_copied};
    ghost use Rattle.doc_elements.specs.Walk as elements_walk;
    ghost use Rattle.html_tables.specs.Walk as walk_spec;
    ghost use Rattle.map_spec.specs.Elements as elements_spec;
    ghost use Rattle.html_spec.specs.Tables as tables_spec;

    /// The columns that a group holds. What a transparent element holds stands in its place.
    pub fn of(alloc: Global, inside: Siblings<'_>) -> Result<Columns, NoMemory>
        ensures { (names : List (List ℕ)) → IfOk result (λ columns. walk_spec.AreColumns columns
            (tables_spec.column_names (walk_spec.content_named names inside.entry))) }
    {
        let mut columns = Columns::empty(alloc);
        append_columns(alloc, &mut columns, inside)?;
        Ok(columns)
    }

    fn empty(alloc: Global) -> Columns
        ensures { walk_spec.AreColumns result [] }
    {
        Columns {
            places: BTreeMap::new(alloc),
            count: 0,
        }
    }

    /// How many columns a cell spans: those from one to another, if these rise, else its own.
    pub fn spanned(&self, element: &Node) -> u32
        ensures { (name : List ℕ) (names : walk_spec.Names) → walk_spec.AreColumns self.now names
            → result ≡ tables_spec.columns_of names (elements_walk.element_of name element.now) }
    {
        let first = self.place(element, "namest");
        let last = self.place(element, "nameend");
        span_of(first, last, self.count)
    }

    // The place of the column that an attribute names.
    fn place(&self, element: &Node, attribute: &str) -> Option<u32>
        ensures { (name : List ℕ) (names : walk_spec.Names) → walk_spec.AreColumns self.now names
            → result ≡ tables_spec.column_at names (elements_spec.attribute attribute.now
            (elements_walk.element_of name element.now)) }
    {
        match element.value_of(attribute) {
            Some(name) => self.places.get(name).copied(),
            None => None,
        }
    }

    // Appends a column, which may have no name.
    fn append(&mut self, alloc: Global, name: Option<&str>) -> Result<(), NoMemory>
        ensures { OnOk result ((names : walk_spec.Names) → walk_spec.AreColumns self.old names
            → walk_spec.AreColumns self.new (names ++ option_copied name.entry ∷ [])) }
    {
        match name {
            Some(name) => {
                self.append_name(alloc, name)?;
                self.count_one()?;
                Ok(())
            }
            None => {
                self.count_one()?;
                Ok(())
            }
        }
    }

    fn count_one(&mut self) -> Result<(), NoMemory>
        ensures { OnOk result (walk_spec.HasCountMore self.old self.new) }
    {
        self.count = self.count.checked_add(1).ok_or(NoMemory)?;
        Ok(())
    }

    // Gives a name the place of the next column, unless it has one.
    fn append_name(&mut self, alloc: Global, name: &str) -> Result<(), NoMemory>
        ensures { OnOk result (walk_spec.HasNameMore self.old self.new name.now) }
    {
        if self.places.contains_key(name) {
            return Ok(());
        }
        let key = String::from_str(alloc, name)?;
        self.places.insert(key, self.count)?;
        Ok(())
    }
}

// How many of so many columns stand from one to another, if these rise.
fn span_of(first: Option<u32>, last: Option<u32>, count: u32) -> u32
    ensures { ((at : ℕ) → last ≡ Some at → at < count)
        → result ≡ tables_spec.columns_from first last }
{
    match first {
        Some(first) => match last {
            Some(last) => span_between(first, last, count),
            None => 1,
        },
        None => 1,
    }
}

fn span_between(first: u32, last: u32, count: u32) -> u32
    ensures { last < count → result ≡ tables_spec.columns_from (Some first) (Some last) }
{
    if first < last && last < count {
        last - first + 1
    } else {
        1
    }
}

// Appends the columns among some siblings.
fn append_columns(
    alloc: Global,
    columns: &mut Columns,
    siblings: Siblings<'_>,
) -> Result<(), NoMemory>
    ensures { OnOk result ((names : List (List ℕ)) (before : walk_spec.Names)
        → walk_spec.AreColumns columns.old before → walk_spec.AreColumns columns.new (before
        ++ tables_spec.column_names (walk_spec.content_named names siblings.entry))) }
{
    let mut left = siblings;
    loop {
        match left.split_first() {
            First::End => return Ok(()),
            First::Chars { rest, .. } => left = rest,
            First::Element {
                node,
                inside,
                rest,
                ..
            } => {
                let tokens = tokens_of(node);
                if is_transparent(node, tokens) {
                    append_columns(alloc, columns, inside)?;
                } else if has_token(tokens, "topic/colspec") {
                    columns.append(alloc, node.value_of("colname"))?;
                }
                left = rest;
            }
        }
    }
}

// Whether what an element of these tokens holds stands in its place.
fn is_transparent(element: &Node, tokens: &[u8]) -> bool
    ensures { (name : List ℕ)
        → words_of tokens.now ≡ elements_spec.tokens_of (elements_walk.element_of name element.now)
        → result ≡ elements_spec.is_transparent (elements_walk.element_of name element.now) }
{
    if has_no_token(tokens) {
        !is_dita(element)
    } else {
        false
    }
}
