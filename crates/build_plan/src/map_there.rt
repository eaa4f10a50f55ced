//! Whether there is a map.

ghost use Rattle.std.specs.Prelude.{◌≡◌, [], ◌∷◌, ℕ, List, Some, IfOk};
ghost use Rattle.build_plan.specs.Stages as stages_spec;
ghost use Rattle.dita_doc.specs.Tree as tree_spec;
ghost use Rattle.doc_elements.specs.Walk as walk_spec;
ghost use Rattle.map_spec.specs.Included as included_spec;
ghost use Rattle.map_spec.specs.Written as written_spec;
ghost use Rattle.map_spec.specs.Written.{Written};
ghost use Rattle.reader_spec.specs.World.{World};
ghost use Rattle.readers.specs.Documents as documents_spec;
ghost use Rattle.readers.specs.Documents.{AsksOnly};
ghost use Rattle.readers.specs.Founded.{Grows, StaysFounded};
ghost use Rattle.readers.specs.Told.{Agrees};

use dita_doc::{Doc, First, Name, NoMemory, Node, PlanStop, Siblings};
use readers::Reader;
use std::alloc::Global;

/// Why there is no map under a name, if there is none.
pub(crate) fn why_no_map<R: Reader>(
    alloc: Global,
    reader: &mut R,
    map: &Name,
) -> Result<Option<PlanStop>, NoMemory>
    ensures known { (world : World) → Agrees world (R.told reader.new) → IfOk result
        (λ stop. stop ≡ stages_spec.map_stop (included_spec.root_in world map.now)) }
    ensures stand { R.stand reader.new ≡ R.stand reader.old }
    ensures founded { StaysFounded (map.now ∷ []) (R.told reader.old) (R.told reader.new) }
    ensures asks { AsksOnly documents_spec.nothing (map.now ∷ []) (R.told reader.old)
        (R.told reader.new) }
    ensures grows { Grows (R.told reader.old) (R.told reader.new) }
{
    match reader.doc(alloc, map)? {
        Some(doc) => Ok(stop_of(&doc)),
        None => Ok(Some(PlanStop::NoMap)),
    }
}

// Why a document is no map, if it is none.
fn stop_of(doc: &Doc) -> Option<PlanStop>
    ensures { (name : List ℕ) → result ≡ stages_spec.map_stop (written_spec.first_sibling
        (written_spec.written_in name (tree_spec.tree_of doc.now.nodes))) }
{
    let mut left = Siblings::of(doc);
    loop {
        match left.split_first() {
            First::End => return Some(PlanStop::NoMap),
            First::Chars { rest, .. } => left = rest,
            First::Element { node, .. } => return stop_of_root(node),
        }
    }
}

fn stop_of_root(root: &Node) -> Option<PlanStop>
    ensures { (name : List ℕ) (inside : Written) → result
        ≡ stages_spec.map_stop (Some (walk_spec.element_of name root.now, inside)) }
{
    if root.has_type("map/map") {
        None
    } else {
        Some(PlanStop::NotMap)
    }
}
