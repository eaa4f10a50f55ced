//! What is kept of documents for all pages of a plan.

ghost use Rattle.std.specs.Prelude.{◌≡◌, ◌+◌, ◌++◌, [], Some, IfOk, OnOk, slice_get};
ghost use Rattle.dita_doc.specs.Tree as tree_spec;
ghost use Rattle.dita_doc.specs.Tree.{Content};
ghost use Rattle.conref_spec.specs.Content.{declared_around_written};
ghost use Rattle.readers.specs.Named as named_spec;
ghost use Rattle.topic_find.specs.Walk as walk_spec;
ghost use Rattle.conref_targets.specs.Parts as parts_spec;
ghost use Rattle.conref_targets.specs.Tables as tables_spec;
ghost use Rattle.conref_targets.specs.Tables.{Documents};

use crate::origin::node_of;
use dita_doc::{Doc, List, Name, NoMemory, Node, NodeKind, Text};
use ditaval_rules::Declarations;
use std::alloc::Global;
use std::collections::BTreeMap;
use topic_find::TargetTable;

/// What was read of documents, by their names, each when it is first needed: where their elements
/// stand, where siblings end, and which names of conditional attributes they declare. It holds for
/// one plan over one world, and each answer by it is the same as with new tables.
#[derive(Drop)]
pub struct PlaceTables {
    targets: BTreeMap<Name, TargetTable>,
    // For each node the place behind the last of its siblings.
    ends: BTreeMap<Name, Vec<u32>>,
    // The names of conditional attributes that elements declare.
    declared: BTreeMap<Name, Declarations>,
}

impl PlaceTables {
    /// Nothing is read yet.
    pub fn new(alloc: Global) -> Self
        ensures { (documents : Documents) → tables_spec.AreTables documents result }
    {
        PlaceTables {
            targets: BTreeMap::new(alloc),
            ends: BTreeMap::new(alloc),
            declared: BTreeMap::new(alloc),
        }
    }

    // The place of the element of a document that a fragment names.
    pub(crate) fn find(
        &mut self,
        alloc: Global,
        name: &Name,
        doc: &Doc,
        topic: &Text,
        element: &Text,
    ) -> Result<Option<u32>, NoMemory>
        ensures found { (documents : Documents) → tables_spec.AreTables documents self.old
            → documents name.now ≡ Some (named_spec.named_tree doc.now)
            → IfOk result (λ found. found ≡ walk_spec.target_place
            (named_spec.named_tree doc.now) topic.now element.now) }
        ensures known { (documents : Documents) → tables_spec.AreTables documents self.old
            → documents name.now ≡ Some (named_spec.named_tree doc.now)
            → OnOk result (tables_spec.AreTables documents self.new) }
    {
        if let Some(table) = self.targets.get(name) {
            return table.find(alloc, topic, element);
        }
        let table = TargetTable::of(alloc, doc)?;
        let found = table.find(alloc, topic, element)?;
        self.targets.insert(name.clone()?, table)?;
        Ok(found)
    }

    // The place behind the last sibling of the node at this place.
    pub(crate) fn siblings_end(
        &mut self,
        alloc: Global,
        name: &Name,
        doc: &Doc,
        place: u32,
    ) -> Result<Option<u32>, NoMemory>
        ensures end { (documents : Documents) → tables_spec.AreTables documents self.old
            → documents name.now ≡ Some (named_spec.named_tree doc.now)
            → IfOk result (λ end. end
            ≡ slice_get (parts_spec.ends_of (named_spec.named_tree doc.now)) place) }
        ensures known { (documents : Documents) → tables_spec.AreTables documents self.old
            → documents name.now ≡ Some (named_spec.named_tree doc.now)
            → OnOk result (tables_spec.AreTables documents self.new) }
    {
        if let Some(ends) = self.ends.get(name) {
            return Ok(end_at(ends.as_slice(), place));
        }
        let ends = ends_in(alloc, doc)?;
        let end = end_at(ends.as_slice(), place);
        self.ends.insert(name.clone()?, ends)?;
        Ok(end)
    }

    // The names of conditional attributes that are declared around the element at this place.
    pub(crate) fn declared_around(
        &mut self,
        alloc: Global,
        name: &Name,
        doc: &Doc,
        place: u32,
    ) -> Result<List<Text>, NoMemory>
        ensures names { (documents : Documents) → tables_spec.AreTables documents self.old
            → documents name.now ≡ Some (named_spec.named_tree doc.now)
            → IfOk result (λ names. names
            ≡ declared_around_written [] (named_spec.named_tree doc.now) place) }
        ensures known { (documents : Documents) → tables_spec.AreTables documents self.old
            → documents name.now ≡ Some (named_spec.named_tree doc.now)
            → OnOk result (tables_spec.AreTables documents self.new) }
    {
        if let Some(declarations) = self.declared.get(name) {
            return Ok(declarations.around(place).clone()?);
        }
        let declarations = Declarations::of(alloc, doc)?;
        let names = declarations.around(place).clone()?;
        self.declared.insert(name.clone()?, declarations)?;
        Ok(names)
    }
}

fn end_at(ends: &[u32], place: u32) -> Option<u32>
    ensures { result ≡ slice_get ends.now place }
{
    ends.get(place as usize).copied()
}

// For each node of a document the place behind the last of its siblings.
fn ends_in(alloc: Global, doc: &Doc) -> Result<Vec<u32>, NoMemory>
    ensures { IfOk result (λ ends. ends.items ≡ parts_spec.ends_of (named_spec.named_tree doc.now)) }
{
    let mut ends = Vec::new(alloc);
    put_ends(&mut ends, doc, 0, doc.nodes.len() as u32)?;
    Ok(ends)
}

// Puts the place where these siblings end, for each of them, and so for all that they hold.
fn put_ends(ends: &mut Vec<u32>, doc: &Doc, from: u32, to: u32) -> Result<(), NoMemory>
    ensures { (part : Content) → parts_spec.AreSiblingsAt (tree_spec.tree_of doc.now.nodes) from part
        → from + tree_spec.size_of part ≡ to
        → OnOk result (ends.new.items ≡ ends.old.items ++ parts_spec.ends_from to from
        (named_spec.under_names doc.now.origins part)) }
{
    let mut place = from;
    for _ in from..to {
        if place >= to {
            return Ok(());
        }
        let Some(node) = node_of(doc, place) else {
            return Ok(());
        };
        ends.push(to)?;
        let inside = place + 1;
        place = node.end.max(inside);
        if is_element(node) {
            put_ends(ends, doc, inside, place.min(to))?;
        }
    }
    Ok(())
}

fn is_element(node: &Node) -> bool
    ensures { result ≡ tree_spec.is_element node.now.kind }
{
    node.kind == NodeKind::Element
}
