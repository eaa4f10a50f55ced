//! The plan of a build: the nodes of its map, its scopes and its pages.

use crate::doc::{Attribute, value_among};
use crate::fault::Fault;
use crate::list::List;
use crate::name::Name;
use crate::text::Text;
use std::alloc::AllocError;

/// The three parts of a reference; a part that is not there is empty.
#[derive(PartialEq, Eq, Drop)]
pub struct Reference {
    pub file: Text,
    pub topic: Text,
    pub element: Text,
}

/// What a branch copy puts before and after the names of its pages.
#[derive(PartialEq, Eq, PartialOrd, Ord, Drop)]
pub struct Affix {
    pub prefix: Text,
    pub suffix: Text,
}

impl Clone for Affix {
    ghost use Rattle.std.specs.Prelude.{◌≡◌};

    ghost is_clone = { λ affix copy. copy ≡ affix };

    fn clone(&self) -> Result<Affix, AllocError> {
        Ok(Affix {
            prefix: self.prefix.clone()?,
            suffix: self.suffix.clone()?,
        })
    }
}

/// What a node of a map stands for.
#[derive(Clone, Copy, PartialEq, Eq)]
pub enum PlanKind {
    Map,
    Reference,
    Included,
    DitavalRef,
    Group,
    RelTable,
    RelRow,
    RelCell,
}

/// A node of a map, in preorder. Its element stands at `place` of the document `doc`; a group has
/// none.
#[derive(Drop)]
pub struct PlanNode {
    pub kind: PlanKind,
    pub doc: Name,
    pub place: u32,
    pub line: u32,
    /// How many maps are included around it.
    pub level: u32,
    /// The place of its parent in the plan; the root is its own.
    pub parent: u32,
    /// The place just past its subtree in the plan.
    pub end: u32,
    pub scope: u32,
    pub scope_names: List<Text>,
    pub filters: List<Name>,
    pub affixes: List<Affix>,
    pub cascaded: List<Attribute>,
}

impl PlanNode {
    ghost use Rattle.std.specs.Prelude.{◌≡◌};
    ghost use Rattle.std.specs.Option.{option_copied};
    ghost use Rattle.dita_doc.specs.ClassValue as class_value_spec;

    /// The value of an attribute that holds at the node, if one does.
    pub fn cascaded_value(&self, name: &str) -> Option<&str>
        ensures { option_copied result ≡ class_value_spec.value_of name.now self.now.cascaded }
    {
        value_among(self.cascaded.as_slice(), name)
    }
}

/// A key scope: its parent, the node that begins it, and its names.
#[derive(Drop)]
pub struct Scope {
    pub parent: u32,
    pub node: u32,
    pub names: List<Text>,
}

/// What makes two pages of a document different.
#[derive(PartialEq, Eq, PartialOrd, Ord, Drop)]
pub struct PageId {
    pub doc: Name,
    pub scope: u32,
    pub filters: List<Name>,
    pub affixes: List<Affix>,
}

impl Clone for PageId {
    ghost use Rattle.std.specs.Prelude.{◌≡◌};

    ghost is_clone = { λ page copy. copy ≡ page };

    fn clone(&self) -> Result<PageId, AllocError> {
        Ok(PageId {
            doc: self.doc.clone()?,
            scope: self.scope,
            filters: self.filters.clone()?,
            affixes: self.affixes.clone()?,
        })
    }
}

/// A page of a plan: the node of its first use, and its name.
#[derive(Drop)]
pub struct PagePlan {
    pub id: PageId,
    pub node: u32,
    pub name: Name,
}

/// What a reference leads to.
#[derive(PartialEq, Eq, Drop)]
pub enum Target {
    Nothing,
    /// A DITA document, by the reference that was read.
    Local(Name, Reference),
    /// A file of another format, with what stands behind its name.
    File(Name, Text),
    /// The value as it was written.
    Other(Text),
}

/// The nodes of a map as a step of planning leaves them, with the faults that the step found.
#[derive(Drop)]
pub struct Expanded {
    pub nodes: List<PlanNode>,
    pub faults: List<Fault>,
}

/// Where a page is made: the map and the DITAVAL of its build, what sets it apart from other pages,
/// and its name.
#[derive(PartialEq, Eq, Drop)]
pub struct Context {
    pub map: Name,
    pub val: Option<Name>,
    pub page: PageId,
    pub name: Name,
}

impl Clone for Context {
    ghost use Rattle.std.specs.Prelude.{◌≡◌};

    ghost is_clone = { λ context copy. copy ≡ context };

    fn clone(&self) -> Result<Context, AllocError> {
        Ok(Context {
            map: self.map.clone()?,
            val: self.val.clone()?,
            page: self.page.clone()?,
            name: self.name.clone()?,
        })
    }
}

/// The plan of a build. Node 0 is the root map, and scope 0 the root scope.
#[derive(Drop)]
pub struct Plan {
    pub nodes: List<PlanNode>,
    pub scopes: List<Scope>,
    pub pages: List<PagePlan>,
    pub targets: List<Target>,
    pub documents: List<Name>,
    pub faults: List<Fault>,
}

/// Why a build has no plan.
#[derive(Clone, Copy, PartialEq, Eq)]
pub enum PlanStop {
    /// The map is not stored.
    NoMap,
    /// The root of the map's document is no map.
    NotMap,
    /// The DITAVAL is not stored, or its root is no `val`.
    NoDitaval,
    /// The map has more than 65,536 nodes.
    TooManyNodes,
    /// The map has more than 4,096 pages.
    TooManyPages,
}
