//! What content is made of: rules, keys, pushes, resolved nodes and links.

ghost use Rattle.std.specs.Prelude.{◌≡◌, length, IsTrue};
ghost use Rattle.dita_doc.specs.Tree as tree_spec;

use crate::doc::Doc;
use crate::fault::Fault;
use crate::list::List;
use crate::name::Name;
use crate::plan::Target;
use crate::text::Text;
use std::alloc::AllocError;

/// What a DITAVAL rule does with an element.
#[derive(Clone, Copy, Debug, PartialEq, Eq)]
pub enum Action {
    Include,
    Exclude,
    Passthrough,
    Flag,
}

/// A rule of a DITAVAL: for a token of an attribute, for the whole attribute, or, without an
/// attribute, for all that no other rule decides.
#[derive(Drop)]
pub struct Rule {
    pub att: Option<Text>,
    pub val: Option<Text>,
    pub action: Action,
}

impl Clone for Rule {
    ghost use Rattle.std.specs.Prelude.{◌≡◌};

    ghost is_clone = { λ rule copy. copy ≡ rule };

    fn clone(&self) -> Result<Rule, AllocError> {
        Ok(Rule {
            att: self.att.clone()?,
            val: self.val.clone()?,
            action: self.action,
        })
    }
}

/// What a key gives where it is used: the node that defines it, if one does, its target, its text,
/// and the faults met on the way.
#[derive(PartialEq, Eq, Drop)]
pub struct KeyAnswer {
    pub node: Option<u32>,
    pub target: Target,
    pub label: Text,
    pub faults: List<Fault>,
}

/// Where pushed content goes.
#[derive(Clone, Copy, PartialEq, Eq)]
pub enum PushKind {
    Before,
    After,
    Replace,
}

/// A push: to the element at the place `at`, from the element at `place` of the document `from`.
#[derive(PartialEq, Eq, Drop)]
pub struct Push {
    pub kind: PushKind,
    pub at: u32,
    pub from: Name,
    pub place: u32,
}

/// The pushes into a document, and the faults of the pushes that stand in it.
#[derive(PartialEq, Eq, Drop)]
pub struct PushList {
    pub pushes: List<Push>,
    pub faults: List<Fault>,
}

/// Content with its references resolved. Each node has an entry in `hrefs`: the place, in the
/// document's `origins`, of the document in which the node's href was written, and the node's own
/// origin if it has no href. Each has one in `declared` too: the names of the conditional attributes
/// that are declared for it, and none for a text.
#[derive(Drop)]
pub struct Resolved {
    pub doc: Doc,
    pub hrefs: List<u32>,
    pub declared: List<List<Text>>,
    /// How many nodes were resolved.
    pub count: u32,
    pub faults: List<Fault>,
    pub ghost each: { length hrefs ≡ length doc.nodes },
    pub ghost placed: { IsTrue (tree_spec.are_places (length doc.origins) hrefs) },
    pub ghost own: { IsTrue (tree_spec.are_own doc.nodes hrefs) },
    pub ghost named: { length declared ≡ length doc.nodes },
}

/// A flag: the element at `place` of resolved content is shown with this class.
#[derive(Drop)]
pub struct Mark {
    pub place: u32,
    pub text: Text,
}

/// An entry of an index: the terms from the outermost to the one that is meant, and the page, by its
/// place in the plan, on which it stands.
#[derive(Drop)]
pub struct TermEntry {
    pub path: List<Text>,
    pub page: u32,
}

/// Why one page is linked to another.
#[derive(Clone, Copy, PartialEq, Eq)]
pub enum LinkKind {
    Previous,
    Next,
    Sibling,
    Related,
}

/// A link of a page to another.
#[derive(Drop)]
pub struct PageLink {
    pub kind: LinkKind,
    pub href: Text,
    pub label: Text,
}

/// The link of the element at `place`: what it leads to, and the text that it shows if it has none
/// of its own.
#[derive(Drop)]
pub struct Anchor {
    pub place: u32,
    pub href: Option<Text>,
    pub label: Option<Text>,
}
