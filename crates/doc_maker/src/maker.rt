//! The maker of documents.

ghost use Rattle.std.specs.Prelude.{◌≡◌, ◌+◌, ◌<◌, ◌==◌, ◌^◌, ◌||◌, ℕ, List, [], ◌∷◌, ◌++◌, Some, length, slice_get, IfOk, IsTrue, OnErr, OnOk};
ghost use Rattle.dita_doc.specs.Tree as tree_spec;
ghost use Rattle.doc_maker.specs.Building as spec;
ghost use Rattle.doc_maker.specs.Made as made_spec;
ghost use Rattle.doc_maker.specs.Origins as origins_spec;
ghost use Rattle.map_spec.specs.Written as written_spec;
ghost use Rattle.readers.specs.Named as named_spec;

use crate::origins::Origins;
use dita_doc::{Attribute, Doc, Fault, List, Name, NoMemory, Node, NodeKind, Resolved, Text};
use std::alloc::Global;
use std::marker::Model;

// The most nodes of a document.
const NODE_LIMIT: usize = u32::MAX as usize;

/// A document in the making: elements are opened and closed, and what is put goes into the element
/// opened last.
#[derive(Drop)]
pub struct DocMaker {
    origins: Origins,
    nodes: Vec<Node>,
    // For each node the origin in which its href was written, its own if it has no href.
    hrefs: Vec<u32>,
    // For each node the names of the conditional attributes that are declared for it.
    declared: Vec<List<Text>>,
    // The places of the open elements, the innermost last.
    opened: Vec<u32>,
}

impl Model for DocMaker {
    ghost use Rattle.doc_maker.specs.Made as fields_spec;

    ghost Value = { fields_spec.MadeContent };

    ghost view = { λ m. fields_spec.made_of m.origins m.nodes.items m.hrefs.items
        m.declared.items m.opened.items };

    ghost invariant = { λ m. fields_spec.IsMade (fields_spec.made_of m.origins m.nodes.items
        m.hrefs.items m.declared.items m.opened.items) };
}

impl DocMaker {
    pub fn new(alloc: Global) -> Self
        ensures nothing { made_spec.building result ≡ spec.nothing }
        ensures declared { made_spec.declared result ≡ [] }
    {
        DocMaker {
            origins: Origins::new(alloc),
            nodes: Vec::new(alloc),
            hrefs: Vec::new(alloc),
            declared: Vec::new(alloc),
            opened: Vec::new(alloc),
        }
    }

    /// How many nodes were put.
    pub fn count(&self) -> usize
        ensures { result ≡ spec.count (made_spec.building self.now) }
    {
        self.nodes.len()
    }

    /// How many elements are open.
    pub fn depth(&self) -> usize
        ensures { result ≡ spec.depth (made_spec.building self.now) }
    {
        self.opened.len()
    }

    /// Puts a text that was written in the document of this name. No names are declared for it. It
    /// is out of memory if there are 2^32 - 1 nodes.
    pub fn put_chars(&mut self, alloc: Global, text: Text, origin: &Name) -> Result<(), NoMemory>
        ensures put { OnOk result (made_spec.building self.new
            ≡ spec.behind (made_spec.building self.old)
            (written_spec.Chars text origin.now written_spec.End)) }
        ensures declared { OnOk result (made_spec.declared self.new
            ≡ made_spec.declared self.old ++ [] ∷ []) }
        ensures failed { OnErr result (made_spec.building self.new ≡ made_spec.building self.old) }
        ensures kept { OnErr result (made_spec.declared self.new ≡ made_spec.declared self.old) }
    {
        let home = self.origins.place(origin)?;
        let end = next_end(self.nodes.len())?;
        let node = Node {
            kind: NodeKind::Chars,
            text,
            attributes: List::new(alloc),
            origin: home,
            line: 0,
            end,
        };
        let names = List::new(alloc);
        put(
            &mut self.nodes,
            &mut self.hrefs,
            &mut self.declared,
            node,
            home,
            names,
        )?;
        Ok(())
    }

    /// Opens an element of this name, which was written in a line of the document `origin`, and its
    /// href in the document `href_doc`, which is not looked at if the element has no href. These
    /// names of conditional attributes are declared for it. It is out of memory if there are
    /// 2^32 - 1 nodes.
    pub fn open(
        &mut self,
        name: Text,
        attributes: List<Attribute>,
        origin: &Name,
        line: u32,
        href_doc: &Name,
        declared: List<Text>,
    ) -> Result<(), NoMemory>
        ensures opened { OnOk result (made_spec.building self.new
            ≡ spec.opened (made_spec.building self.old) (spec.element name attributes origin.now
            line (spec.href_written attributes origin.now href_doc.now))) }
        ensures declared { OnOk result (made_spec.declared self.new
            ≡ made_spec.declared self.old ++ declared ∷ []) }
        ensures failed { OnErr result (made_spec.building self.new ≡ made_spec.building self.old) }
        ensures kept { OnErr result (made_spec.declared self.new ≡ made_spec.declared self.old) }
    {
        let home = self.origins.place(origin)?;
        let end = next_end(self.nodes.len())?;
        let node = Node {
            kind: NodeKind::Element,
            text: name,
            attributes,
            origin: home,
            line,
            end,
        };
        let href = href_place(&mut self.origins, &node, href_doc)?;
        self.opened.push(end - 1)?;
        match put(
            &mut self.nodes,
            &mut self.hrefs,
            &mut self.declared,
            node,
            href,
            declared,
        ) {
            Ok(()) => Ok(()),
            Err(stop) => {
                self.opened.pop();
                Err(stop)
            }
        }
    }

    /// Closes the element opened last that is open, if one is. It takes no memory.
    pub fn close(&mut self)
        ensures closed { made_spec.building self.new ≡ spec.closed (made_spec.building self.old) }
        ensures declared { made_spec.declared self.new ≡ made_spec.declared self.old }
    {
        if let Some(place) = self.opened.pop() {
            set_end(&mut self.nodes, place as usize);
        }
    }

    /// The document, with all elements closed. It takes no memory.
    pub fn finish(self) -> Doc
        ensures content { named_spec.named_tree result ≡ spec.own_hrefs
            (spec.whole (made_spec.building self)) }
        ensures once { origins_spec.EachOnce result.origins }
    {
        let mut maker = self;
        maker.close_all();
        let DocMaker { origins, nodes, .. } = maker;
        Doc {
            origins: origins.into_names(),
            nodes: List::from_vec(nodes),
        }
    }

    /// The same as resolved content, of which so many nodes were resolved.
    pub fn finish_resolved(self, count: u32, faults: List<Fault>) -> Resolved
        ensures content { made_spec.resolved_tree result
            ≡ spec.whole (made_spec.building self) }
        ensures declared { result.declared ≡ made_spec.declared self }
        ensures once { origins_spec.EachOnce result.doc.origins }
        ensures count { result.count ≡ count }
        ensures faults { result.faults ≡ faults }
    {
        let mut maker = self;
        maker.close_all();
        let DocMaker {
            origins,
            nodes,
            hrefs,
            declared,
            ..
        } = maker;
        Resolved {
            doc: Doc {
                origins: origins.into_names(),
                nodes: List::from_vec(nodes),
            },
            hrefs: List::from_vec(hrefs),
            declared: List::from_vec(declared),
            count,
            faults,
        }
    }

    fn close_all(&mut self)
        ensures top { made_spec.building self.new
            ≡ spec.Top (spec.whole (made_spec.building self.old)) }
        ensures declared { made_spec.declared self.new ≡ made_spec.declared self.old }
    {
        while self.depth() > 0 {
            self.close();
        }
    }
}

// The place behind a node that is put behind so many and holds nothing.
fn next_end(count: usize) -> Result<u32, NoMemory>
    ensures end { IfOk result (λ end. end ≡ count + 1) }
    ensures small { IfOk result (λ end. end < 2 ^ 32) }
{
    if count >= NODE_LIMIT {
        return Err(NoMemory);
    }
    Ok(count as u32 + 1)
}

// The place of the document in which a node's href was written: that of the node's own if it has no
// href.
fn href_place(origins: &mut Origins, node: &Node, href_doc: &Name) -> Result<u32, NoMemory>
    ensures place { (doc : List ℕ) → slice_get origins.old node.now.origin ≡ Some doc
        → IfOk result (λ place. slice_get origins.new place
        ≡ Some (spec.href_written node.now.attributes doc href_doc.now)) }
    ensures own { IfOk result (λ place. IsTrue (tree_spec.has_href node.now.attributes
        || node.now.origin == place)) }
    ensures grows { origins_spec.Longer origins.old origins.new }
{
    if node.value_of("href").is_some() {
        origins.place(href_doc)
    } else {
        Ok(node.origin)
    }
}

// Puts a node behind the others, with the origin of its href and the names that are declared for
// it. Without memory nothing is put.
fn put(
    nodes: &mut Vec<Node>,
    hrefs: &mut Vec<u32>,
    declared: &mut Vec<List<Text>>,
    node: Node,
    href: u32,
    names: List<Text>,
) -> Result<(), NoMemory>
    ensures nodes { OnOk result (nodes.new.items ≡ nodes.old.items ++ node ∷ []) }
    ensures hrefs { OnOk result (hrefs.new.items ≡ hrefs.old.items ++ href ∷ []) }
    ensures declared { OnOk result (declared.new.items ≡ declared.old.items ++ names ∷ []) }
    ensures no_nodes { OnErr result (nodes.new.items ≡ nodes.old.items) }
    ensures no_hrefs { OnErr result (hrefs.new.items ≡ hrefs.old.items) }
    ensures none_declared { OnErr result (declared.new.items ≡ declared.old.items) }
{
    declared.push(names)?;
    match put_node(nodes, hrefs, node, href) {
        Ok(()) => Ok(()),
        Err(stop) => {
            declared.pop();
            Err(stop)
        }
    }
}

// The same without the names.
fn put_node(
    nodes: &mut Vec<Node>,
    hrefs: &mut Vec<u32>,
    node: Node,
    href: u32,
) -> Result<(), NoMemory>
    ensures nodes { OnOk result (nodes.new.items ≡ nodes.old.items ++ node ∷ []) }
    ensures hrefs { OnOk result (hrefs.new.items ≡ hrefs.old.items ++ href ∷ []) }
    ensures no_nodes { OnErr result (nodes.new.items ≡ nodes.old.items) }
    ensures no_hrefs { OnErr result (hrefs.new.items ≡ hrefs.old.items) }
{
    hrefs.push(href)?;
    match nodes.push(node) {
        Ok(()) => Ok(()),
        Err(_) => {
            hrefs.pop();
            Err(NoMemory)
        }
    }
}

// Ends the subtree of an element behind the last node.
fn set_end(nodes: &mut Vec<Node>, place: usize)
    requires inside { place < length nodes.old.items }
    requires room { length nodes.old.items < 2 ^ 32 }
    ensures { nodes.new.items ≡ made_spec.with_end place nodes.old.items }
{
    let end = nodes.len() as u32;
    nodes[place].end = end;
}
