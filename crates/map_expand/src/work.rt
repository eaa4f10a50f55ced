//! What is left to walk over.

ghost use Rattle.std.specs.Prelude.{◌≡◌, ◌<◌};
ghost use Rattle.map_expand.specs.Below as below_spec;
ghost use Rattle.map_expand.specs.Making as making_spec;

use dita_doc::PlanKind;

/// Nodes of a map's document that stand side by side, from `place` to `end`, counted from the
/// document's first node, and where the nodes that they make stand: below which node of the plan,
/// how many maps are included around them, and whether a relationship table is around them.
#[derive(Clone, Copy)]
pub(crate) struct Walk {
    pub map: usize,
    pub place: u32,
    pub end: u32,
    pub parent: u32,
    pub level: u32,
    pub in_table: bool,
}

/// A walk, or the end of a map.
#[derive(Clone, Copy)]
pub(crate) enum Work {
    Walk(Walk),
    Leave(usize),
}

impl Walk {
    /// What stands behind the first of the nodes, which ends there.
    pub fn behind(self, end: u32) -> Walk
        ensures { result ≡ making_spec.behind self end }
    {
        Walk { place: end, ..self }
    }

    /// What stands in the first of the nodes, which ends there, and stands in its place.
    pub fn content(self, end: u32) -> Walk
        requires { self.place < end }
        ensures { result ≡ making_spec.content self end }
    {
        Walk {
            place: self.place + 1,
            end,
            ..self
        }
    }

    /// The same, below the node of a kind that the first made at a place of the plan.
    pub fn below(self, end: u32, parent: u32, kind: PlanKind) -> Walk
        requires { self.place < end }
        ensures { result ≡ below_spec.below self end parent kind }
    {
        let content = self.content(end);
        Walk {
            parent,
            in_table: self.in_table || kind == PlanKind::RelTable,
            ..content
        }
    }
}
