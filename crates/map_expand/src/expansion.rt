//! The walk over a map and all maps that it includes.

ghost use Rattle.std.specs.Prelude.{◌≡◌, ◌+◌, ◌<◌, ◌≤◌, ◌++◌, [], ◌∷◌, Some, List, true, false, length, bytes_eq, OnOk, OnErr, IfOk, IfErr};
ghost use Rattle.std.specs.List.{list_any};
ghost use Rattle.std.proofs.Common.{set};
ghost use Rattle.dita_doc.specs.declared.doc.Node as doc;
ghost use Rattle.reader_spec.specs.World.{World};
ghost use Rattle.readers.specs.Documents.{AsksOnly};
ghost use Rattle.readers.specs.Founded as founded_spec;
ghost use Rattle.readers.specs.Founded.{Grows, StaysFounded};
ghost use Rattle.readers.specs.Told.{Told, Agrees};
ghost use Rattle.doc_elements.specs.Walk as walk_spec;
ghost use Rattle.map_spec.specs.Elements as elements_spec;
ghost use Rattle.map_spec.specs.Included as included_spec;
ghost use Rattle.map_spec.specs.MapTree as tree_spec;
ghost use Rattle.map_spec.specs.Written.{Whole};
ghost use Rattle.plan_nodes.specs.Preorder as preorder_spec;
ghost use Rattle.targets.specs.Named as named_spec;
ghost use Rattle.map_expand.specs.AskedFor as asked_for_spec;
ghost use Rattle.map_expand.specs.Going as spec;
ghost use Rattle.map_expand.specs.Homes as homes_spec;
ghost use Rattle.map_expand.specs.Including as including_spec;
ghost use Rattle.map_expand.specs.Making as making_spec;
ghost use Rattle.map_expand.specs.Telling as telling_spec;
ghost use Rattle.map_expand.specs.declared.work.Work.TheVariants as works;
ghost use Rattle.map_expand.specs.Left as left_spec;

use crate::element::Makes;
use crate::faults::{append_class_fault, append_fault, append_ignored};
use crate::maps::Maps;
use crate::node::{Inclusion, asked_by, kind_with, made_node};
use crate::work::{Walk, Work};
use dita_doc::{
    Expanded, Fault, FaultCode, List, Name, NoMemory, Node, PlanKind, PlanNode, PlanStop, Stop,
};
use plan_nodes::set_ends;
use readers::Reader;
use std::alloc::Global;
use targets::Named;

// How many nodes a plan has at most.
const NODE_LIMIT: usize = 65_536;

/// The nodes that were made, their faults, and what is left to walk over, of which the last is the
/// next.
#[derive(Drop)]
pub(crate) struct Expansion {
    nodes: List<PlanNode>,
    faults: List<Fault>,
    left: Vec<Work>,
}

impl Expansion {
    pub fn new(alloc: Global) -> Expansion
        ensures nodes { result.nodes ≡ [] }
        ensures faults { result.faults ≡ [] }
        ensures left { result.left.items ≡ [] }
    {
        Expansion {
            nodes: List::new(alloc),
            faults: List::new(alloc),
            left: Vec::new(alloc),
        }
    }

    /// Makes the node of a map's root, and leaves its content to be walked over.
    #[tactic(auto, using(crate::proofs::LeftLaws::steps_left_push))]
    pub fn enter(
        &mut self,
        alloc: Global,
        maps: &mut Maps,
        map: usize,
        parent: u32,
        level: u32,
    ) -> Result<(), Stop<PlanStop>>
        requires within { map < length (spec.homes_of maps.old) }
        requires fits { homes_spec.HomeFits (homes_spec.home_at (spec.homes_of maps.old) map) }
        ensures few { OnOk result (length self.new.nodes ≤ included_spec.map_node_limit) }
        ensures less { OnOk result (left_spec.left self.new.nodes self.new.left.items
            ≤ left_spec.left self.old.nodes self.old.left.items) }
        ensures known { maps.new.known ≡ maps.old.known }
        ensures homes { spec.homes_of maps.new ≡ spec.homes_of maps.old }
        ensures flags { OnOk result (homes_spec.flags maps.new.maps.items
            ≡ set (homes_spec.flags maps.old.maps.items) map true) }
        ensures path { OnOk result (spec.path_at maps.new self.new
            ≡ spec.path_at maps.old self.old
            ++ homes_spec.name_at (spec.homes_of maps.old) map ∷ []) }
        ensures ready { (told : List Told) → spec.Ready told maps.old self.old →
            homes_spec.flag_at maps.old.maps.items map ≡ false →
            level ≤ length self.old.nodes →
            OnOk result (spec.Ready told maps.new self.new) }
        ensures made { (world : World) (root : Whole) →
            homes_spec.root_in (homes_spec.home_at (spec.homes_of maps.old) map) ≡ Some root →
            homes_spec.IsPlaced world (homes_spec.home_at (spec.homes_of maps.old) map) →
            level ≤ length self.old.nodes → level ≤ included_spec.map_node_limit →
            spec.Goes world result maps.new self.new (spec.rest world maps.old self.old
            (making_spec.put parent (making_spec.whole_map world (spec.path_at maps.old self.old
            ++ homes_spec.name_at (spec.homes_of maps.old) map ∷ []) level root)
            (spec.so_far self.old))) }
    {
        let Some(walk) = maps.root(map, parent, level) else {
            return Ok(());
        };
        let Some((name, root)) = maps.first(walk) else {
            return Ok(());
        };
        let place = match self.put(alloc, name, root, walk, PlanKind::Map) {
            Ok(place) => place,
            Err(stop) => return Err(stop),
        };
        maps.set_around(map, true);
        self.left.push(Work::Leave(map))?;
        let content = walk.content(walk.end);
        self.left.push(Work::Walk(Walk {
            parent: place,
            ..content
        }))?;
        Ok(())
    }

    /// Walks over all that is left.
    #[tactic(auto, using(crate::proofs::TellingLaws::telling))]
    pub fn walk<R: Reader>(
        &mut self,
        alloc: Global,
        reader: &mut R,
        maps: &mut Maps,
    ) -> Result<(), Stop<PlanStop>>
        requires ready { spec.Ready (R.told reader.old) maps.old self.old }
        requires few { length self.old.nodes ≤ included_spec.map_node_limit }
        ensures few { OnOk result (length self.new.nodes ≤ included_spec.map_node_limit) }
        ensures left { OnOk result (self.new.left.items ≡ []) }
        ensures asked { OnOk result (asked_for_spec.AreAsked (R.told reader.new)
            (founded_spec.homes self.new.nodes)) }
        ensures stand { R.stand reader.new ≡ R.stand reader.old }
        ensures grows { Grows (R.told reader.old) (R.told reader.new) }
        ensures founded { StaysFounded [] (R.told reader.old) (R.told reader.new) }
        ensures asks { AsksOnly telling_spec.map_targets []
            (R.told reader.old) (R.told reader.new) }
        ensures made { (world : World) → Agrees world (R.told reader.new) →
            spec.Goes world result maps.new self.new
            (spec.rest world maps.old self.old (spec.so_far self.old)) }
    {
        while let Some(work) = self.left.pop() {
            match work {
                Work::Walk(walk) => match self.step(alloc, reader, maps, walk) {
                    Ok(()) => {}
                    Err(stop) => return Err(stop),
                },
                Work::Leave(map) => maps.set_around(map, false),
            }
        }
        Ok(())
    }

    // Goes over the first node of a walk, and leaves what stands in it and behind it.
    #[tactic(auto, using(crate::proofs::StepLaws::stepping))]
    fn step<R: Reader>(
        &mut self,
        alloc: Global,
        reader: &mut R,
        maps: &mut Maps,
        walk: Walk,
    ) -> Result<(), Stop<PlanStop>>
        requires ready { spec.Ready (R.told reader.old) maps.old self.old }
        requires fits { making_spec.WalkFits (spec.homes_of maps.old) (length self.old.nodes) walk }
        requires few { length self.old.nodes ≤ included_spec.map_node_limit }
        ensures few { OnOk result (length self.new.nodes ≤ included_spec.map_node_limit) }
        ensures less { OnOk result (left_spec.left self.new.nodes self.new.left.items
            < left_spec.left self.old.nodes self.old.left.items + left_spec.steps_of walk) }
        ensures ready { OnOk result (spec.Ready (R.told reader.new) maps.new self.new) }
        ensures stand { R.stand reader.new ≡ R.stand reader.old }
        ensures grows { Grows (R.told reader.old) (R.told reader.new) }
        ensures founded { StaysFounded [] (R.told reader.old) (R.told reader.new) }
        ensures asks { AsksOnly telling_spec.map_targets []
            (R.told reader.old) (R.told reader.new) }
        ensures made { (world : World) → Agrees world (R.told reader.new) →
            spec.Goes world result maps.new self.new (spec.rest world maps.old self.old
            (making_spec.put walk.parent (making_spec.grown_of world
            (spec.path_at maps.old self.old)
            (homes_spec.home_at (spec.homes_of maps.old) walk.map) walk)
            (spec.so_far self.old))) }
    {
        let Some(seen) = maps.see(walk) else {
            return Ok(());
        };
        self.left.push(Work::Walk(walk.behind(seen.end)))?;
        match seen.makes {
            Makes::Node(kind) => self.make(alloc, reader, maps, walk, kind, seen.end),
            Makes::Nothing => Ok(()),
            Makes::Content => Ok(self.open(alloc, maps, walk, seen.end)?),
        }
    }

    // Leaves what an element holds in its place, with a fault.
    #[tactic(auto, using(crate::proofs::LeftLaws::steps_left_push))]
    fn open(&mut self, alloc: Global, maps: &Maps, walk: Walk, end: u32) -> Result<(), NoMemory>
        requires within { walk.map < length (spec.homes_of maps.now) }
        requires some { walk.place < end }
        ensures nodes { OnOk result (self.new.nodes ≡ self.old.nodes) }
        ensures left { OnOk result (self.new.left.items
            ≡ self.old.left.items ++ works.Walk (making_spec.content walk end) ∷ []) }
        ensures faults { (node : doc.Node) → homes_spec.IsNodeOf
            (homes_spec.home_at (spec.homes_of maps.now) walk.map) walk node →
            OnOk result (self.new.faults ≡ self.old.faults ++ elements_spec.class_faults
            (walk_spec.element_of (homes_spec.name_at (spec.homes_of maps.now) walk.map) node)) }
    {
        append_class_fault(alloc, &mut self.faults, maps, walk)?;
        self.left.push(Work::Walk(walk.content(end)))?;
        Ok(())
    }

    // Makes the node of an element, and leaves the map that it includes and its content.
    #[tactic(auto, using(crate::proofs::StepLaws::stepping))]
    fn make<R: Reader>(
        &mut self,
        alloc: Global,
        reader: &mut R,
        maps: &mut Maps,
        walk: Walk,
        kind: PlanKind,
        end: u32,
    ) -> Result<(), Stop<PlanStop>>
        requires some { walk.place < end }
        requires ends { end ≤ walk.end }
        requires ready { spec.Ready (R.told reader.old) maps.old self.old }
        requires fits { making_spec.WalkFits (spec.homes_of maps.old) (length self.old.nodes) walk }
        requires inside { homes_spec.AreSiblings
            (homes_spec.home_at (spec.homes_of maps.old) walk.map) (walk.place + 1) end }
        ensures few { OnOk result (length self.new.nodes ≤ included_spec.map_node_limit) }
        ensures less { OnOk result (left_spec.left self.new.nodes self.new.left.items
            ≤ left_spec.left self.old.nodes self.old.left.items) }
        ensures ready { OnOk result (spec.Ready (R.told reader.new) maps.new self.new) }
        ensures stand { R.stand reader.new ≡ R.stand reader.old }
        ensures grows { Grows (R.told reader.old) (R.told reader.new) }
        ensures founded { StaysFounded [] (R.told reader.old) (R.told reader.new) }
        ensures asks { AsksOnly telling_spec.map_targets []
            (R.told reader.old) (R.told reader.new) }
        ensures made { (world : World) → Agrees world (R.told reader.new) → (node : doc.Node) →
            homes_spec.IsNodeOf (homes_spec.home_at (spec.homes_of maps.old) walk.map) walk node →
            spec.Goes world result maps.new self.new (spec.rest world maps.old self.old
            (making_spec.put walk.parent (making_spec.node_grown world
            (spec.path_at maps.old self.old)
            (homes_spec.home_at (spec.homes_of maps.old) walk.map) walk kind
            (walk_spec.element_of (homes_spec.name_at (spec.homes_of maps.old) walk.map) node) end)
            (spec.so_far self.old))) }
    {
        let Some((name, element)) = maps.first(walk) else {
            return Ok(());
        };
        let asked = asked_by(alloc, name, element, kind, walk.in_table)?;
        let kind = kind_with(&asked, kind);
        let place = match self.put(alloc, name, element, walk, kind) {
            Ok(place) => place,
            Err(stop) => return Err(stop),
        };
        self.left.push(Work::Walk(walk.below(end, place, kind)))?;
        match asked {
            Some(asked) => self.include(alloc, reader, maps, walk, place, asked),
            None => Ok(()),
        }
    }

    // Enters the map that the first element of a walk asks for.
    #[tactic(auto, using(crate::proofs::TellingLaws::telling))]
    fn include<R: Reader>(
        &mut self,
        alloc: Global,
        reader: &mut R,
        maps: &mut Maps,
        walk: Walk,
        place: u32,
        asked: Inclusion,
    ) -> Result<(), Stop<PlanStop>>
        requires ready { spec.Ready (R.told reader.old) maps.old self.old }
        requires within { walk.map < length (spec.homes_of maps.old) }
        requires level { walk.level + 1 < length self.old.nodes }
        requires count { length self.old.nodes ≤ included_spec.map_node_limit }
        requires may { telling_spec.MayFind (R.told reader.old)
            (named_spec.named_shown asked.named) }
        ensures few { OnOk result (length self.new.nodes ≤ included_spec.map_node_limit) }
        ensures less { OnOk result (left_spec.left self.new.nodes self.new.left.items
            ≤ left_spec.left self.old.nodes self.old.left.items) }
        ensures ready { OnOk result (spec.Ready (R.told reader.new) maps.new self.new) }
        ensures stand { R.stand reader.new ≡ R.stand reader.old }
        ensures grows { Grows (R.told reader.old) (R.told reader.new) }
        ensures founded { StaysFounded [] (R.told reader.old) (R.told reader.new) }
        ensures asks { AsksOnly telling_spec.map_targets []
            (R.told reader.old) (R.told reader.new) }
        ensures made { (world : World) → Agrees world (R.told reader.new) → (node : doc.Node) →
            homes_spec.IsNodeOf (homes_spec.home_at (spec.homes_of maps.old) walk.map) walk node →
            spec.Goes world result maps.new self.new (spec.rest world maps.old self.old
            (making_spec.put place (including_spec.submap_for world (spec.path_at maps.old self.old)
            walk.level
            (walk_spec.element_of (homes_spec.name_at (spec.homes_of maps.old) walk.map) node)
            asked.href (named_spec.named_shown asked.named)) (spec.so_far self.old))) }
    {
        let Inclusion { href, named } = asked;
        match named {
            Named::Document(name) => self.include_name(alloc, reader, maps, walk, place, &name),
            Named::Elsewhere => Ok(()),
            Named::Unreadable => {
                let code = FaultCode::BadReference;
                append_fault(alloc, &mut self.faults, maps, walk, code, href.as_str())?;
                Ok(())
            }
        }
    }

    // Enters the map of a name.
    #[tactic(auto, using(crate::proofs::TellingLaws::telling))]
    fn include_name<R: Reader>(
        &mut self,
        alloc: Global,
        reader: &mut R,
        maps: &mut Maps,
        walk: Walk,
        place: u32,
        name: &Name,
    ) -> Result<(), Stop<PlanStop>>
        requires ready { spec.Ready (R.told reader.old) maps.old self.old }
        requires within { walk.map < length (spec.homes_of maps.old) }
        requires level { walk.level + 1 < length self.old.nodes }
        requires count { length self.old.nodes ≤ included_spec.map_node_limit }
        ensures few { OnOk result (length self.new.nodes ≤ included_spec.map_node_limit) }
        ensures less { OnOk result (left_spec.left self.new.nodes self.new.left.items
            ≤ left_spec.left self.old.nodes self.old.left.items) }
        ensures ready { OnOk result (spec.Ready (R.told reader.new) maps.new self.new) }
        ensures stand { R.stand reader.new ≡ R.stand reader.old }
        ensures grows { Grows (R.told reader.old) (R.told reader.new) }
        ensures founded { StaysFounded (name.now ∷ []) (R.told reader.old) (R.told reader.new) }
        ensures asks { AsksOnly telling_spec.map_targets (name.now ∷ [])
            (R.told reader.old) (R.told reader.new) }
        ensures made { (world : World) → Agrees world (R.told reader.new) → (node : doc.Node) →
            homes_spec.IsNodeOf (homes_spec.home_at (spec.homes_of maps.old) walk.map) walk node →
            spec.Goes world result maps.new self.new (spec.rest world maps.old self.old
            (making_spec.put place (including_spec.submap_under world
            (spec.path_at maps.old self.old) walk.level
            (walk_spec.element_of (homes_spec.name_at (spec.homes_of maps.old) walk.map) node)
            name.now (included_spec.map_in world name.now)) (spec.so_far self.old))) }
    {
        match maps.find(alloc, reader, name)? {
            Some(map) => self.include_map(alloc, maps, walk, place, name, map),
            None => {
                let code = FaultCode::MapMissing;
                append_fault(alloc, &mut self.faults, maps, walk, code, name.as_str())?;
                Ok(())
            }
        }
    }

    // Enters a map, unless it stands around its reference.
    fn include_map(
        &mut self,
        alloc: Global,
        maps: &mut Maps,
        walk: Walk,
        place: u32,
        name: &Name,
        map: usize,
    ) -> Result<(), Stop<PlanStop>>
        requires within { walk.map < length (spec.homes_of maps.old) }
        requires there { map < length (spec.homes_of maps.old) }
        requires fits { homes_spec.HomeFits (homes_spec.home_at (spec.homes_of maps.old) map) }
        requires named { homes_spec.name_at (spec.homes_of maps.old) map ≡ name.now }
        requires around { homes_spec.flag_at maps.old.maps.items map
            ≡ list_any (bytes_eq name.now) (spec.path_at maps.old self.old) }
        requires level { walk.level + 1 < length self.old.nodes }
        requires count { length self.old.nodes ≤ included_spec.map_node_limit }
        ensures few { OnOk result (length self.new.nodes ≤ included_spec.map_node_limit) }
        ensures less { OnOk result (left_spec.left self.new.nodes self.new.left.items
            ≤ left_spec.left self.old.nodes self.old.left.items) }
        ensures ready { (told : List Told) → spec.Ready told maps.old self.old →
            OnOk result (spec.Ready told maps.new self.new) }
        ensures made { (world : World) (node : doc.Node) (root : Whole) →
            homes_spec.IsNodeOf (homes_spec.home_at (spec.homes_of maps.old) walk.map) walk node →
            homes_spec.root_in (homes_spec.home_at (spec.homes_of maps.old) map) ≡ Some root →
            homes_spec.IsPlaced world (homes_spec.home_at (spec.homes_of maps.old) map) →
            spec.Goes world result maps.new self.new (spec.rest world maps.old self.old
            (making_spec.put place (including_spec.submap_under world
            (spec.path_at maps.old self.old) walk.level
            (walk_spec.element_of (homes_spec.name_at (spec.homes_of maps.old) walk.map) node)
            name.now (Some root)) (spec.so_far self.old))) }
    {
        if maps.is_around(map) {
            let code = FaultCode::MapCycle;
            append_fault(alloc, &mut self.faults, maps, walk, code, name.as_str())?;
            return Ok(());
        }
        self.enter(alloc, maps, map, place, walk.level + 1)
    }

    // Makes a node of the first element of a walk, and gives its place.
    fn put(
        &mut self,
        alloc: Global,
        name: &Name,
        element: &Node,
        walk: Walk,
        kind: PlanKind,
    ) -> Result<u32, Stop<PlanStop>>
        ensures room { OnOk result (length self.old.nodes < 65536) }
        ensures few { OnOk result (length self.new.nodes ≤ included_spec.map_node_limit) }
        ensures full { IfErr result (λ stop. spec.HasNoRoom stop (length self.old.nodes)) }
        ensures place { IfOk result (λ place. place ≡ length self.old.nodes) }
        ensures nodes { OnOk result (self.new.nodes ≡ self.old.nodes
            ++ tree_spec.node_of (included_spec.new_head kind
            (walk_spec.element_of name.now element.now) walk.level walk.place) walk.parent 0 ∷ []) }
        ensures faults { OnOk result (self.new.faults ≡ self.old.faults
            ++ included_spec.ignored_references (walk_spec.element_of name.now element.now)) }
        ensures left { self.new.left ≡ self.old.left }
        ensures still { OnErr result (self.new.nodes ≡ self.old.nodes) }
    {
        let count = self.nodes.len();
        if count >= NODE_LIMIT {
            return Err(Stop::Fault(PlanStop::TooManyNodes));
        }
        append_ignored(alloc, &mut self.faults, name, element)?;
        self.nodes
            .push(made_node(alloc, name, element, walk, kind)?)?;
        Ok(count as u32)
    }

    /// The nodes that were made, with their ends, and their faults.
    pub fn finish(self) -> Result<Expanded, NoMemory>
        ensures nodes { (tree : tree_spec.MapTree) → preorder_spec.HasOneRoot tree →
            making_spec.without_ends self.nodes
            ≡ making_spec.without_ends (tree_spec.plan_nodes tree) →
            IfOk result (λ made. made.nodes ≡ tree_spec.plan_nodes tree) }
        ensures faults { IfOk result (λ made. made.faults ≡ self.faults) }
        ensures homes { IfOk result (λ made.
            founded_spec.homes made.nodes ≡ founded_spec.homes self.nodes) }
    {
        let Expansion { nodes, faults, .. } = self;
        let mut nodes = nodes.into_vec();
        set_ends(&mut nodes)?;
        Ok(Expanded {
            nodes: List::from_vec(nodes),
            faults,
        })
    }
}
