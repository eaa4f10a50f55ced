//! The names of the conditional attributes that documents declare for the elements of nodes.

ghost use Rattle.std.specs.Prelude.{◌≡◌, [], ◌∷◌, List, ℕ, Some, IfOk, map, slice_get};
ghost use Rattle.std.specs.Option.{option_copied};
ghost use Rattle.node_filter.specs.Domains as spec;
ghost use Rattle.dita_doc.specs.declared.plan.PlanNode as plan_node;
ghost use Rattle.reader_spec.specs.World.{World};
ghost use Rattle.readers.specs.Documents as documents_spec;
ghost use Rattle.readers.specs.Documents.{AsksOnly};
ghost use Rattle.readers.specs.Founded as founded_spec;
ghost use Rattle.readers.specs.Founded.{Grows, StaysFounded};
ghost use Rattle.readers.specs.Told as told_spec;
ghost use Rattle.readers.specs.Told.{Agrees};

use dita_doc::{Doc, List, Name, NoMemory, PlanNode, Text};
use ditaval_rules::Declarations;
use readers::Reader;
use std::alloc::Global;
use std::collections::BTreeMap;
use std::sync::Arc;

/// What the documents in which nodes stand declare, each once, and for each node which of them is
/// its own. It is made for a list of nodes by `Elements::of`, and answers for the same list alone.
#[derive(Drop)]
pub struct DeclaredNames {
    documents: Vec<Declarations>,
    homes: Vec<Option<usize>>,
    // The names where there is no document.
    none: List<Text>,
}

impl DeclaredNames {
    /// Asks for the document of each node, and for none of them twice.
    pub(crate) fn of<R: Reader>(
        alloc: Global,
        reader: &mut R,
        nodes: &[PlanNode],
    ) -> Result<DeclaredNames, NoMemory>
        ensures known { (world : World) → Agrees world (R.told reader.new)
            → IfOk result (λ declared. spec.AreDeclared world nodes.now declared) }
        ensures stand { R.stand reader.new ≡ R.stand reader.old }
        ensures founded { StaysFounded (founded_spec.homes nodes.now) (R.told reader.old)
            (R.told reader.new) }
        ensures asks { AsksOnly documents_spec.nothing (founded_spec.homes nodes.now)
            (R.told reader.old) (R.told reader.new) }
        ensures grows { Grows (R.told reader.old) (R.told reader.new) }
    {
        let none = List::new(alloc);
        let mut documents = Vec::new(alloc);
        let mut homes = Vec::new(alloc);
        let mut known: BTreeMap<Name, Option<usize>> = BTreeMap::new(alloc);
        for node in nodes {
            let home = document_of(alloc, reader, &mut known, &mut documents, &node.doc)?;
            homes.push(home)?;
        }
        Ok(DeclaredNames {
            documents,
            homes,
            none,
        })
    }

    /// The names declared for the element of this node, which stands at this place among the nodes.
    pub(crate) fn names(&self, at: usize, node: &PlanNode) -> &List<Text>
        ensures { (world : World) (nodes : List plan_node.PlanNode)
            → spec.AreDeclared world nodes self.now → slice_get nodes at ≡ Some node.now
            → result.now ≡ spec.names_at world node.now }
    {
        match self.document(at) {
            Some(document) => document.at(node.place),
            None => &self.none,
        }
    }

    // What the document of the node at this place declares, if there is one.
    fn document(&self, at: usize) -> Option<&Declarations>
        ensures { option_copied result ≡ spec.document_at self.now.documents.items
            (spec.home_at self.now.homes.items at) }
    {
        let home = home_at(&self.homes, at)?;
        self.documents.get(home)
    }

    /// The names declared for the element of each of these nodes, in their order. A node without an
    /// element has those of its document at its place. The names are lent, not copied.
    ///
    /// # Errors
    ///
    /// Out of memory.
    pub fn each<'a>(
        &'a self,
        alloc: Global,
        nodes: &[PlanNode],
    ) -> Result<List<&'a List<Text>>, NoMemory>
        ensures { (world : World) → spec.AreDeclared world nodes.now self.now
            → IfOk result (λ names. spec.shown names
            ≡ map (spec.names_at world) nodes.now) }
    {
        let mut names = List::new(alloc);
        for (at, node) in nodes.iter().enumerate() {
            names.push(self.names(at, node))?;
        }
        Ok(names)
    }
}

// Which of the documents is that of the node at this place, if there is one.
fn home_at(homes: &[Option<usize>], at: usize) -> Option<usize>
    ensures { result ≡ spec.home_at homes.now at }
{
    *homes.get(at)?
}

// Which of the documents stands under a name, if one does; it is asked for if it was not before.
#[tactic(auto, using(readers::proofs::Rules::walking))]
fn document_of<R: Reader>(
    alloc: Global,
    reader: &mut R,
    known: &mut BTreeMap<Name, Option<usize>>,
    documents: &mut Vec<Declarations>,
    name: &Name,
) -> Result<Option<usize>, NoMemory>
    ensures known { (world : World) → Agrees world (R.told reader.new)
        → spec.AreKnown world documents.old.items known.old.entries
        → IfOk result (λ place. spec.IsDocumentOf world documents.old.items
        documents.new.items known.new.entries name.now place) }
    ensures stand { R.stand reader.new ≡ R.stand reader.old }
    ensures founded { StaysFounded (name.now ∷ []) (R.told reader.old) (R.told reader.new) }
    ensures asks { AsksOnly documents_spec.nothing (name.now ∷ []) (R.told reader.old)
        (R.told reader.new) }
    ensures grows { Grows (R.told reader.old) (R.told reader.new) }
{
    if let Some(document) = known.get(name) {
        return Ok(*document);
    }
    let found = reader.doc(alloc, name)?;
    keep(alloc, known, documents, name, found)
}

// Puts what a document declares that was found under a name behind the others, and its place into
// the table.
fn keep(
    alloc: Global,
    known: &mut BTreeMap<Name, Option<usize>>,
    documents: &mut Vec<Declarations>,
    name: &Name,
    found: Option<Arc<Doc>>,
) -> Result<Option<usize>, NoMemory>
    ensures { (world : World) → world name.now ≡ told_spec.tree_found found
        → spec.AreKnown world documents.old.items known.old.entries
        → IfOk result (λ place. spec.IsDocumentOf world documents.old.items
        documents.new.items known.new.entries name.now place) }
{
    let document = put(alloc, documents, found)?;
    known.insert(name.clone()?, document)?;
    Ok(document)
}

// Puts what a document declares behind the others, if one was found, and gives its place.
fn put(
    alloc: Global,
    documents: &mut Vec<Declarations>,
    found: Option<Arc<Doc>>,
) -> Result<Option<usize>, NoMemory>
    ensures longer { IfOk result (λ place. spec.Longer documents.old.items documents.new.items) }
    ensures known { (world : World) (name : List ℕ) → world name ≡ told_spec.tree_found found
        → IfOk result (λ place. spec.IsKnown world documents.new.items name place) }
{
    let Some(doc) = found else {
        return Ok(None);
    };
    let at = documents.len();
    documents.push(Declarations::of(alloc, &doc)?)?;
    Ok(Some(at))
}
