//! The conditional attributes that documents declare.

ghost use Rattle.std.specs.Prelude.{◌≡◌, ◌<◌, ℕ, List, [], length, unwrap_or, IfOk, OnOk};
ghost use Rattle.std.specs.List.{All, list_any};
ghost use Rattle.std.specs.Option.{option_copied};
ghost use Rattle.std.specs.Str.{IsUtf8};
ghost use Rattle.dita_doc.specs.ClassValue as class_value_spec;
ghost use Rattle.dita_doc.specs.Tree as tree_spec;
ghost use Rattle.ditaval_rules.specs.Domains as spec;
ghost use Rattle.ditaval_rules.specs.Names as names_spec;

use crate::declarations::Declarations;
use crate::exclude::is_everywhere;
use dita_doc::{
    Doc, List, NoMemory, Node, Text, is_blank_byte, is_same, split_at_first, split_word,
};
use std::alloc::Global;
use std::collections::BTreeSet;

/// The names of the conditional attributes that the document declares for the element at a place, in
/// order, each once. `Declarations` serves for many places.
pub fn declared(alloc: Global, doc: &Doc, place: u32) -> Result<List<Text>, NoMemory>
    requires { place < length doc.now.nodes }
    ensures { IfOk result
        (λ names. names ≡ spec.declared_at [] (tree_spec.tree_of doc.now.nodes) place) }
{
    let declarations = Declarations::of(alloc, doc)?;
    let mut names = List::new(alloc);
    for name in declarations.at(place).as_slice() {
        names.push(name.clone()?)?;
    }
    Ok(names)
}

/// The names that an element declares itself, if it has the attribute `domains`.
pub fn own_names(alloc: Global, element: &Node) -> Result<Option<List<Text>>, NoMemory>
    ensures { (around : List (List ℕ)) → IfOk result (λ own.
        spec.declared_by around element.now.attributes ≡ unwrap_or own around) }
{
    match element.value_of("domains") {
        Some(value) => Ok(Some(names_declared(alloc, value)?)),
        None => Ok(None),
    }
}

/// The names that a value of `domains` declares, in order, each once. Each byte is looked at a few
/// times at most; the names are kept in an ordered set besides.
pub fn names_declared(alloc: Global, value: &str) -> Result<List<Text>, NoMemory>
    ensures { IfOk result (λ names. names ≡ spec.names_declared value.now) }
{
    let mut names = Names::new(alloc);
    let mut rest = value.as_bytes();
    let mut may_begin = true;
    while let Some((text, more)) = split_at_first(rest, b')') {
        if declares(may_begin, text) {
            names.put_last(alloc, text)?;
        }
        may_begin = false;
        rest = more;
    }
    Ok(names.finish())
}

// Names that were found, each once.
#[derive(Drop)]
struct Names<'a> {
    list: List<Text>,
    seen: BTreeSet<&'a [u8]>,
}

impl<'a> Names<'a> {
    fn new(alloc: Global) -> Names<'a>
        ensures list { result.list ≡ [] }
        ensures seen { names_spec.AreNames result }
    {
        Names {
            list: List::new(alloc),
            seen: BTreeSet::new(alloc),
        }
    }

    fn finish(self) -> List<Text>
        ensures { result ≡ self.entry.list }
    {
        let Names { list, .. } = self;
        list
    }

    // Puts the last word of a text behind the others, unless it is there or conditional in every
    // document.
    fn put_last(&mut self, alloc: Global, text: &'a [u8]) -> Result<(), NoMemory>
        requires utf8 { All IsUtf8 (class_value_spec.words_of text.now) }
        requires seen { names_spec.AreNames self.old }
        ensures list { OnOk result (self.new.list
            ≡ names_spec.with_last self.old.list (names_spec.last_word text.now)) }
        ensures seen { OnOk result (names_spec.AreNames self.new) }
    {
        let Some(name) = last_word(text) else {
            return Ok(());
        };
        if !is_everywhere(name) && self.seen.insert(name)? {
            self.list.push(Text::from_bytes(alloc, name)?)?;
        }
        Ok(())
    }
}

// Whether one of the pieces that end with this text declares a name, which is then its last word.
fn declares(may_begin: bool, text: &[u8]) -> bool
    ensures { result ≡ list_any names_spec.is_declaration
        (names_spec.ends_of may_begin text.now) }
{
    let mut begins = may_begin;
    let mut rest = text;
    while let Some((first, more)) = rest.split_first() {
        if begins && begins_declaration(rest) {
            return true;
        }
        begins = is_blank_byte(*first);
        rest = more;
    }
    false
}

// Whether a text begins with `a(`, and what stands behind this declares a name.
fn begins_declaration(text: &[u8]) -> bool
    ensures { result ≡ names_spec.begins_declaration text.now }
{
    match text {
        [b'a', b'(', piece @ ..] => is_declaration(piece),
        _ => false,
    }
}

// Whether a piece declares a name.
fn is_declaration(piece: &[u8]) -> bool
    ensures { result ≡ names_spec.is_declaration piece.now }
{
    let Some((first, rest)) = split_word(piece) else {
        return false;
    };
    is_same(first, b"props") && split_word(rest).is_some()
}

// The last word of a text.
fn last_word(text: &[u8]) -> Option<&[u8]>
    ensures { option_copied result ≡ names_spec.last_word text.now }
{
    let mut last = None;
    let mut rest = text;
    while let Some((word, more)) = split_word(rest) {
        last = Some(word);
        rest = more;
    }
    last
}
