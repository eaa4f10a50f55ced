//! A walk over a document's tree, from one sibling to the next.

ghost use Rattle.std.specs.Prelude.{◌≡◌, ◌+◌, ◌<◌, length, slice_get, EachIndex};
ghost use Rattle.dita_doc.specs.Tree as tree_spec;

use crate::doc::{Doc, Node, NodeKind};

/// Nodes of a document that stand side by side, with all that is in them: what an element holds, or
/// the last of it.
#[derive(Clone, Copy)]
pub struct Siblings<'a> {
    doc: &'a Doc,
    nodes: &'a [Node],
    place: u32,
    ghost within: { EachIndex nodes.now
        (λ k. slice_get nodes.now k ≡ slice_get doc.now.nodes (place + k)) },
    ghost tree: { tree_spec.ArePreorder nodes.now place },
    ghost small: { place + length nodes.now < tree_spec.doc_node_limit },
}

/// The first of some siblings, with its place in the document, and the others.
#[derive(Clone, Copy)]
pub enum First<'a> {
    End,
    Chars {
        place: u32,
        node: &'a Node,
        rest: Siblings<'a>,
    },
    Element {
        place: u32,
        node: &'a Node,
        inside: Siblings<'a>,
        rest: Siblings<'a>,
    },
}

impl<'a> Siblings<'a> {
    ghost use Rattle.std.specs.Prelude.{None, MatchOption};
    ghost use Rattle.dita_doc.specs.Siblings as siblings_spec;

    /// The root of a document, or its roots.
    pub fn of(doc: &'a Doc) -> Siblings<'a>
        ensures content { siblings_spec.content result ≡ tree_spec.tree_of doc.now.nodes }
        ensures place { result.place ≡ 0 }
        ensures document { siblings_spec.doc_of_siblings result ≡ doc.now }
    {
        Siblings {
            doc,
            nodes: doc.nodes.as_slice(),
            place: 0,
        }
    }

    /// The element at a place of a document, and what it holds.
    pub fn element_at(doc: &'a Doc, place: u32) -> Option<(&'a Node, Siblings<'a>)>
        ensures { MatchOption result
            (siblings_spec.content_at (tree_spec.tree_of doc.now.nodes) place ≡ None)
            (λ found. siblings_spec.IsElementAt doc.now place found.0.now found.1) }
    {
        let nodes = doc.nodes.as_slice().get(place as usize..)?;
        let from = Siblings { doc, nodes, place };
        let First::Element { node, inside, .. } = from.split_first() else {
            return None;
        };
        Some((node, inside))
    }

    /// The document that they stand in.
    pub fn doc(&self) -> &'a Doc
        ensures { result.now ≡ siblings_spec.doc_of_siblings self.now }
    {
        self.doc
    }

    /// The place of the first of them in the document, or of what stands behind them if there is
    /// none.
    pub fn place(&self) -> u32
        ensures { result ≡ self.now.place }
    {
        self.place
    }

    /// The first node: a text, or an element with what it holds; and what comes after it.
    pub fn split_first(self) -> First<'a>
        ensures content { siblings_spec.IsFirst (siblings_spec.content self.entry) result }
        ensures place { siblings_spec.StandsAt self.entry.place result }
        ensures places { siblings_spec.PartsStandAt self.entry.place result }
        ensures node { siblings_spec.IsNodeOf (siblings_spec.doc_of_siblings self.entry) result }
        ensures document { siblings_spec.PartsAreOf (siblings_spec.doc_of_siblings self.entry) result }
    {
        let Some((node, nodes)) = self.nodes.split_first() else {
            return First::End;
        };
        let doc = self.doc;
        let place = self.place;
        let behind = place + 1;
        match node.kind {
            NodeKind::Chars => First::Chars {
                place,
                node,
                rest: Siblings {
                    doc,
                    nodes,
                    place: behind,
                },
            },
            NodeKind::Element => {
                let end = node.end;
                let (inside, rest) = nodes.split_at((end - behind) as usize);
                First::Element {
                    place,
                    node,
                    inside: Siblings {
                        doc,
                        nodes: inside,
                        place: behind,
                    },
                    rest: Siblings {
                        doc,
                        nodes: rest,
                        place: end,
                    },
                }
            }
        }
    }
}
