//! The elements that nodes stand for.

ghost use Rattle.std.specs.Prelude.{◌≡◌, [], ◌∷◌, List, ℕ, IfOk, OnOk, Some, map, option_map};
ghost use Rattle.std.specs.Option.{option_copied};
ghost use Rattle.doc_elements.specs.Walk as walk_spec;
ghost use Rattle.map_spec.specs.Cascade as cascade_spec;
ghost use Rattle.map_spec.specs.Judged as judged_spec;
ghost use Rattle.map_spec.specs.Written as written_spec;
ghost use Rattle.map_spec.specs.Written.{Element};
ghost use Rattle.plan_nodes.specs.Given as given_spec;
ghost use Rattle.plan_nodes.specs.Home as home_spec;
ghost use Rattle.plan_nodes.specs.HomeDocs as home_docs_spec;
ghost use Rattle.plan_nodes.specs.ToldDocs as told_docs_spec;
ghost use Rattle.reader_spec.specs.World.{World};
ghost use Rattle.readers.specs.Documents as documents_spec;
ghost use Rattle.readers.specs.Documents.{AsksOnly};
ghost use Rattle.readers.specs.Founded as founded_spec;
ghost use Rattle.readers.specs.Founded.{Grows, StaysFounded};
ghost use Rattle.readers.specs.Only as only_spec;
ghost use Rattle.readers.specs.Only.{TellsOnly};
ghost use Rattle.readers.specs.Told as told_spec;
ghost use Rattle.readers.specs.Told.{Agrees};

use dita_doc::{Doc, Name, NoMemory, Node, NodeKind, PlanKind, PlanNode, Siblings};
use readers::Reader;
use std::alloc::Global;
use std::collections::BTreeMap;
use std::marker::Model;
use std::sync::Arc;

// Where the element of a node stands: which of the documents, and the place in it.
#[derive(Clone, Copy)]
struct Home {
    doc: usize,
    place: u32,
}

// A document and the name under which it stands.
#[derive(Drop)]
struct NamedDoc {
    name: Name,
    doc: Arc<Doc>,
}

/// The documents in which the nodes of a map stand, and the element of each node.
#[derive(Drop)]
pub struct NodeElements {
    docs: Vec<NamedDoc>,
    homes: Vec<Option<Home>>,
}

impl Model for NodeElements {
    ghost use Rattle.std.specs.Prelude.{List, Option, map};
    ghost use Rattle.map_spec.specs.Written as written_spec;
    ghost use Rattle.plan_nodes.specs.HomeDocs as home_docs_spec;
    ghost use Rattle.plan_nodes.specs.WholeCode as whole_code_spec;

    ghost Value = { List (Option written_spec.Whole) };

    ghost coded = { whole_code_spec.homes_code };

    ghost view = { λ h. map (home_docs_spec.whole_of h.docs.items) h.homes.items };
}

impl NodeElements {
    /// Asks for the document of each node, and for none of them twice. A group has no element, and
    /// asks for nothing.
    pub fn of<R: Reader>(
        alloc: Global,
        reader: &mut R,
        nodes: &[PlanNode],
    ) -> Result<NodeElements, NoMemory>
        ensures known { (world : World) → Agrees world (R.told reader.new)
            → IfOk result (λ homes. homes ≡ map (cascade_spec.whole_at world) nodes.now) }
        ensures value { IfOk result (λ homes. homes
            ≡ map (cascade_spec.whole_at (R.stand reader.old).world) nodes.now) }
        ensures given { IfOk result (λ homes. given_spec.AreTold (R.told reader.new) homes) }
        ensures stand { R.stand reader.new ≡ R.stand reader.old }
        ensures founded { StaysFounded (founded_spec.homes nodes.now) (R.told reader.old)
            (R.told reader.new) }
        ensures asks { AsksOnly documents_spec.nothing (founded_spec.homes nodes.now)
            (R.told reader.old) (R.told reader.new) }
        ensures only { OnOk result (TellsOnly
            (only_spec.is_document_of (founded_spec.homes nodes.now)) (R.told reader.old)
            (R.told reader.new)) }
        ensures grows { Grows (R.told reader.old) (R.told reader.new) }
    {
        homes_of(alloc, reader, nodes)
    }

    /// The element of the node at this place, if it has one.
    pub fn element(&self, at: usize) -> Option<&Node>
        ensures { home_spec.found_in (home_spec.doc_of self.now at) result
            ≡ home_spec.element_among self.now at }
    {
        let home = home_at(&self.homes, at)?;
        element_of(&self.docs, home)
    }

    /// The element of the node at this place, and what it holds, if it has one.
    pub fn whole(&self, at: usize) -> Option<(&Node, Siblings<'_>)>
        ensures { walk_spec.found_in (home_spec.doc_of self.now at) result
            ≡ home_spec.whole_at self.now at }
    {
        let home = home_at(&self.homes, at)?;
        whole_of(&self.docs, home)
    }

    /// The name of the document in which the node's element was written, if it has one.
    pub fn doc(&self, at: usize) -> Option<&Name>
        ensures { option_copied result
            ≡ option_map (λ (element : Element). element.doc) (home_spec.element_among self.now at) }
    {
        let home = home_at(&self.homes, at)?;
        name_of(&self.docs, home)
    }

    /// The value of an attribute of the node's element, if it has it.
    pub fn value(&self, at: usize, name: &str) -> Option<&str>
        ensures { option_copied result ≡ home_spec.value_at self.now at name.now }
    {
        self.element(at)?.value_of(name)
    }
}

// What `NodeElements::of` says, but of the reader's own world.
fn homes_of<R: Reader>(
    alloc: Global,
    reader: &mut R,
    nodes: &[PlanNode],
) -> Result<NodeElements, NoMemory>
    ensures known { (world : World) → Agrees world (R.told reader.new)
        → IfOk result (λ homes. homes ≡ map (cascade_spec.whole_at world) nodes.now) }
    ensures given { IfOk result (λ homes. given_spec.AreTold (R.told reader.new) homes) }
    ensures stand { R.stand reader.new ≡ R.stand reader.old }
    ensures founded { StaysFounded (founded_spec.homes nodes.now) (R.told reader.old)
        (R.told reader.new) }
    ensures asks { AsksOnly documents_spec.nothing (founded_spec.homes nodes.now)
        (R.told reader.old) (R.told reader.new) }
    ensures only { OnOk result (TellsOnly (only_spec.is_document_of (founded_spec.homes nodes.now))
        (R.told reader.old) (R.told reader.new)) }
    ensures grows { Grows (R.told reader.old) (R.told reader.new) }
{
    let mut docs = Vec::new(alloc);
    let mut homes = Vec::new(alloc);
    let mut known: BTreeMap<Name, Option<usize>> = BTreeMap::new(alloc);
    for node in nodes {
        let home = home_of(alloc, reader, &mut known, &mut docs, node)?;
        homes.push(home)?;
    }
    Ok(NodeElements { docs, homes })
}

// The home of a node, whose document is asked for if it was not before.
fn home_of<R: Reader>(
    alloc: Global,
    reader: &mut R,
    known: &mut BTreeMap<Name, Option<usize>>,
    docs: &mut Vec<NamedDoc>,
    node: &PlanNode,
) -> Result<Option<Home>, NoMemory>
    ensures known { (world : World) → Agrees world (R.told reader.new)
        → home_docs_spec.AreKnown world docs.old.items known.old.entries
        → IfOk result (λ home. home_docs_spec.IsHomeOf world docs.old.items docs.new.items
        known.new.entries node.now home) }
    ensures given { told_docs_spec.AreToldDocs (R.told reader.old) docs.old.items
        → OnOk result (told_docs_spec.AreToldDocs (R.told reader.new) docs.new.items) }
    ensures stand { R.stand reader.new ≡ R.stand reader.old }
    ensures founded { StaysFounded (node.now.doc ∷ []) (R.told reader.old) (R.told reader.new) }
    ensures asks { AsksOnly documents_spec.nothing (node.now.doc ∷ []) (R.told reader.old)
        (R.told reader.new) }
    ensures only { OnOk result (TellsOnly (only_spec.is_document_of (node.now.doc ∷ []))
        (R.told reader.old) (R.told reader.new)) }
    ensures grows { Grows (R.told reader.old) (R.told reader.new) }
{
    if !has_element(node.kind) {
        return Ok(None);
    }
    let doc = doc_of(alloc, reader, known, docs, &node.doc)?;
    Ok(home_in(doc, node.place))
}

// Which of the documents stands under a name, if one does.
fn doc_of<R: Reader>(
    alloc: Global,
    reader: &mut R,
    known: &mut BTreeMap<Name, Option<usize>>,
    docs: &mut Vec<NamedDoc>,
    name: &Name,
) -> Result<Option<usize>, NoMemory>
    ensures known { (world : World) → Agrees world (R.told reader.new)
        → home_docs_spec.AreKnown world docs.old.items known.old.entries
        → IfOk result (λ place. home_docs_spec.IsDocOf world docs.old.items docs.new.items
        known.new.entries name.now place) }
    ensures given { told_docs_spec.AreToldDocs (R.told reader.old) docs.old.items
        → OnOk result (told_docs_spec.AreToldDocs (R.told reader.new) docs.new.items) }
    ensures stand { R.stand reader.new ≡ R.stand reader.old }
    ensures founded { StaysFounded (name.now ∷ []) (R.told reader.old) (R.told reader.new) }
    ensures asks { AsksOnly documents_spec.nothing (name.now ∷ []) (R.told reader.old)
        (R.told reader.new) }
    ensures only { OnOk result (TellsOnly (only_spec.is_document_of (name.now ∷ []))
        (R.told reader.old) (R.told reader.new)) }
    ensures grows { Grows (R.told reader.old) (R.told reader.new) }
{
    if let Some(doc) = known.get(name) {
        return Ok(*doc);
    }
    let found = reader.doc(alloc, name)?;
    keep_doc(known, docs, name, found)
}

// Puts what was found under a name behind the documents, and its place into the table.
fn keep_doc(
    known: &mut BTreeMap<Name, Option<usize>>,
    docs: &mut Vec<NamedDoc>,
    name: &Name,
    found: Option<Arc<Doc>>,
) -> Result<Option<usize>, NoMemory>
    ensures known { (world : World) → world name.now ≡ told_spec.tree_found found
        → home_docs_spec.AreKnown world docs.old.items known.old.entries
        → IfOk result (λ place. home_docs_spec.IsDocOf world docs.old.items docs.new.items
        known.new.entries name.now place) }
    ensures put { OnOk result (docs.new.items
        ≡ told_docs_spec.with_found docs.old.items name.now found) }
{
    let doc = put_doc(docs, name, found)?;
    known.insert(name.clone()?, doc)?;
    Ok(doc)
}

// Puts a document behind the others, if one was found, and gives its place.
fn put_doc(
    docs: &mut Vec<NamedDoc>,
    name: &Name,
    found: Option<Arc<Doc>>,
) -> Result<Option<usize>, NoMemory>
    ensures longer { IfOk result (λ place. home_docs_spec.Longer docs.old.items docs.new.items) }
    ensures put { OnOk result (docs.new.items
        ≡ told_docs_spec.with_found docs.old.items name.now found) }
    ensures known { (world : World) → world name.now ≡ told_spec.tree_found found
        → IfOk result (λ place. home_docs_spec.IsKnown world docs.new.items name.now place) }
{
    let Some(doc) = found else {
        return Ok(None);
    };
    let at = docs.len();
    let name = name.clone()?;
    docs.push(NamedDoc { name, doc })?;
    Ok(Some(at))
}

// Whether a node of this kind has an element.
fn has_element(kind: PlanKind) -> bool
    ensures { result ≡ judged_spec.has_element kind }
{
    !matches!(kind, PlanKind::Group)
}

fn home_in(doc: Option<usize>, place: u32) -> Option<Home>
    ensures { result ≡ option_map (λ (at : ℕ). record { doc = at; place = place }) doc }
{
    let doc = doc?;
    Some(Home { doc, place })
}

// The home of the node at this place, if it has one.
fn home_at(homes: &[Option<Home>], at: usize) -> Option<Home>
    ensures { result ≡ home_docs_spec.home_at homes.now at }
{
    *homes.get(at)?
}

// The element at a home, and what it holds, if one is there.
fn whole_of(docs: &[NamedDoc], home: Home) -> Option<(&Node, Siblings<'_>)>
    ensures { walk_spec.found_in (home_docs_spec.name_of docs.now home.doc) result
        ≡ home_docs_spec.whole_of docs.now (Some home) }
{
    let named = docs.get(home.doc)?;
    Siblings::element_at(&named.doc, home.place)
}

// The element at a home, if one is there.
fn element_of(docs: &[NamedDoc], home: Home) -> Option<&Node>
    ensures { home_spec.found_in (home_docs_spec.name_of docs.now home.doc) result
        ≡ home_docs_spec.element_of docs.now home }
{
    let named = docs.get(home.doc)?;
    let node = named.doc.nodes.as_slice().get(home.place as usize)?;
    match node.kind {
        NodeKind::Element => Some(node),
        NodeKind::Chars => None,
    }
}

// The name of the document at a home, if an element stands there.
fn name_of(docs: &[NamedDoc], home: Home) -> Option<&Name>
    ensures { option_copied result ≡ option_map (λ (element : Element). element.doc)
        (home_docs_spec.element_of docs.now home) }
{
    element_of(docs, home)?;
    let named = docs.get(home.doc)?;
    Some(&named.name)
}
