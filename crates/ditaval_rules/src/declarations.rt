//! The conditional attributes that a document declares, made ready for many of its elements.

ghost use Rattle.std.specs.Prelude.{◌≡◌, ◌+◌, ◌++◌, Bool, [], map, IfOk, OnOk};
ghost use Rattle.dita_doc.specs.Tree.{Content};
ghost use Rattle.dita_doc.specs.Tree as tree_spec;
ghost use Rattle.ditaval_rules.specs.Declarations as spec;
ghost use Rattle.ditaval_rules.specs.Domains as domains_spec;
ghost use Rattle.ditaval_rules.specs.declared.declarations.DeclaredEntry.{DeclaredEntry as EntryValue};

use crate::domains::own_names;
use dita_doc::{Doc, List, NoMemory, Node, Text};
use std::alloc::Global;
use std::marker::Model;

// An element that has the attribute `domains`, with the names that it declares.
#[derive(Drop)]
struct DeclaredEntry {
    place: u32,
    // The place just past its subtree.
    end: u32,
    // How many entries there are up to the nearest one around it, with that: 0 if there is none.
    outer: usize,
    names: List<Text>,
}

/// The elements of a document that have the attribute `domains`, with the names that they declare;
/// seen by contracts as the list of them.
#[derive(Drop)]
pub struct Declarations {
    // In the order of the document.
    entries: Vec<DeclaredEntry>,
    // The names where no element declares any.
    none: List<Text>,
}

impl Model for Declarations {
    ghost use Rattle.std.specs.Prelude.{List, map};
    ghost use Rattle.ditaval_rules.specs.Declarations.{Declaring, declaring_of, AreKept};

    ghost Value = { List Declaring };

    ghost view = { λ made. map declaring_of made.entries.items };

    ghost invariant = { λ made. AreKept made.entries.items made.none };
}

impl Declarations {
    /// Those of a document, made in one walk over its nodes.
    pub fn of(alloc: Global, doc: &Doc) -> Result<Declarations, NoMemory>
        ensures { IfOk result
            (λ made. spec.AreDeclarations (tree_spec.tree_of doc.now.nodes) made) }
    {
        let mut entries = Vec::new(alloc);
        let mut place = 0;
        for node in doc.nodes.as_slice() {
            push_own(alloc, &mut entries, node, place)?;
            place += 1;
        }
        let none = List::new(alloc);
        Ok(Declarations { entries, none })
    }

    /// The names declared for the element at a place, found by halving. It takes no memory.
    pub fn at(&self, place: u32) -> &List<Text>
        ensures { (tree : Content) → spec.AreDeclarations tree self.now
            → result.now ≡ domains_spec.declared_at [] tree place }
    {
        let entries = self.entries.as_slice();
        names_at(entries, &self.none, count_to(entries, place), place)
    }

    /// The names declared around the node at a place, without those that it declares itself; found
    /// by halving. It takes no memory.
    pub fn around(&self, place: u32) -> &List<Text>
        ensures { (tree : Content) → spec.AreDeclarations tree self.now
            → result.now ≡ domains_spec.declared_around [] tree place }
    {
        let entries = self.entries.as_slice();
        names_at(entries, &self.none, count_before(entries, place), place)
    }
}

// Puts an element behind the others, if it has the attribute.
fn push_own(
    alloc: Global,
    entries: &mut Vec<DeclaredEntry>,
    node: &Node,
    place: u32,
) -> Result<(), NoMemory>
    requires { spec.AreBefore place entries.old.items }
    ensures before { OnOk result (spec.AreBefore (place + 1) entries.new.items) }
    ensures declaring { OnOk result (map spec.declaring_of entries.new.items
        ≡ map spec.declaring_of entries.old.items
        ++ spec.declaring_by place node.now.end node.now.attributes) }
{
    if let Some(names) = own_names(alloc, node)? {
        let outer = last_around(entries.as_slice(), entries.len(), place);
        let end = node.end;
        entries.push(DeclaredEntry {
            place,
            end,
            outer,
            names,
        })?;
    }
    Ok(())
}

// How many stand at most at a place.
fn count_to(entries: &[DeclaredEntry], place: u32) -> usize
    requires { spec.AreLinked entries.now }
    ensures { spec.IsCut (spec.holds place) entries.now place result }
{
    entries.partition_point(|entry| entry.place <= place)
}

// How many stand before a place.
fn count_before(entries: &[DeclaredEntry], place: u32) -> usize
    requires { spec.AreLinked entries.now }
    ensures { spec.IsCut (spec.lies_around place) entries.now place result }
{
    entries.partition_point(|entry| entry.place < place)
}

// The names of the last of so many that ends behind a place.
fn names_at<'a>(
    entries: &'a [DeclaredEntry],
    none: &'a List<Text>,
    count: usize,
    place: u32,
) -> &'a List<Text>
    requires linked { spec.AreLinked entries.now }
    requires before { spec.StandBefore entries.now place count }
    ensures { (test : EntryValue → Bool) → spec.IsCut test entries.now place count
        → result.now ≡ spec.last_names test none.now entries.now }
{
    let last = last_around(entries, count, place);
    if last == 0 {
        return none;
    }
    &entries[last - 1].names
}

// How many there are up to the last of so many that ends behind a place, with this.
fn last_around(entries: &[DeclaredEntry], count: usize, place: u32) -> usize
    requires linked { spec.AreLinked entries.now }
    requires before { spec.StandBefore entries.now place count }
    ensures { spec.IsLastAround entries.now place count result }
{
    let mut last = count;
    while last > 0 && entries[last - 1].end <= place {
        last = entries[last - 1].outer;
    }
    last
}
