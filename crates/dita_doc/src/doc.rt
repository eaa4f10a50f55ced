//! Documents as trees: the nodes in preorder.

ghost use Rattle.std.specs.Prelude.{◌≡◌, ◌<◌, length, IsTrue};
ghost use Rattle.std.specs.Option.{option_copied};
ghost use Rattle.dita_doc.specs.ClassValue as class_value_spec;
ghost use Rattle.dita_doc.specs.Tree as tree_spec;

use crate::bytes::is_same;
use crate::class::class_has;
use crate::list::List;
use crate::name::Name;
use crate::text::Text;
use std::alloc::AllocError;

/// An attribute as it was written. An element has no two of one name.
#[derive(PartialEq, Eq, Drop)]
pub struct Attribute {
    pub name: Text,
    pub value: Text,
}

impl Clone for Attribute {
    ghost use Rattle.std.specs.Prelude.{◌≡◌};

    ghost is_clone = { λ attribute copy. copy ≡ attribute };

    fn clone(&self) -> Result<Attribute, AllocError> {
        Ok(Attribute {
            name: self.name.clone()?,
            value: self.value.clone()?,
        })
    }
}

// The value of the attribute of this name, if there is one.
pub(crate) fn value_among<'a>(attributes: &'a [Attribute], name: &str) -> Option<&'a str>
    ensures { option_copied result ≡ class_value_spec.value_of name.now attributes.now }
{
    let sought = name.as_bytes();
    let attribute = attributes
        .iter()
        .find(|attribute| is_same(attribute.name.as_bytes(), sought))?;
    Some(attribute.value.as_str())
}

/// What a node is.
#[derive(Clone, Copy, Debug, PartialEq, Eq)]
pub enum NodeKind {
    Element,
    Chars,
}

/// A node of a document: an element, whose `text` is its name, or a text without attributes.
#[derive(PartialEq, Eq, Drop)]
pub struct Node {
    pub kind: NodeKind,
    pub text: Text,
    pub attributes: List<Attribute>,
    /// The place, in the document's `origins`, of the document that the node was written in.
    pub origin: u32,
    /// The line of the element's start; 0 for a text, of whose line no rule speaks.
    pub line: u32,
    /// The place just past the node's subtree.
    pub end: u32,
}

impl Node {
    ghost use Rattle.std.specs.Prelude.{◌≡◌};
    ghost use Rattle.std.specs.Option.{option_copied};
    ghost use Rattle.dita_doc.specs.ClassValue as class_value_spec;

    /// Whether the element is of the type with this token, as `topic/p`. It is of none if it has no
    /// class value, or one that cannot be read.
    pub fn has_type(&self, token: &str) -> bool
        ensures { result ≡ class_value_spec.has_type self.now.attributes token.now }
    {
        self.value_of("class")
            .is_some_and(|value| class_has(value.as_bytes(), token.as_bytes()))
    }

    /// The value of an attribute, if the element has it.
    pub fn value_of(&self, name: &str) -> Option<&str>
        ensures { option_copied result ≡ class_value_spec.value_of name.now self.now.attributes }
    {
        value_among(self.attributes.as_slice(), name)
    }
}

/// A document: the nodes of its tree in preorder, and the names of the documents that they were
/// written in. The `origin` of each node is a place in `origins`.
#[derive(Drop)]
pub struct Doc {
    pub origins: List<Name>,
    pub nodes: List<Node>,
    pub ghost tree: { tree_spec.ArePreorder nodes 0 },
    pub ghost small: { length nodes < tree_spec.doc_node_limit },
    pub ghost placed: { IsTrue (tree_spec.are_placed (length origins) nodes) },
}
