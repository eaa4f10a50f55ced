//! The maps that were asked for.

ghost use Rattle.std.specs.Prelude.{◌≡◌, ◌+◌, ◌<◌, ◌≤◌, Some, None, slice_get, length, IfSome, MatchOption};
ghost use Rattle.std.specs.Prelude.{[], ◌∷◌, ℕ, List, OnOk, OnErr, IfOk, IsSomeAnd};
ghost use Rattle.std.specs.Arc.{arc_value};
ghost use Rattle.std.specs.BTreeMap.{get};
ghost use Rattle.std.specs.Cmp.Lexicographic.{slice_cmp};
ghost use Rattle.std.specs.Ordering.{nat_cmp};
ghost use Rattle.std.proofs.Common.{set};
ghost use Rattle.reader_spec.specs.World.{World};
ghost use Rattle.readers.specs.Founded.{Grows, StaysFounded};
ghost use Rattle.readers.specs.Documents.{AsksOnly};
ghost use Rattle.readers.specs.Told.{Agrees};
ghost use Rattle.map_expand.specs.Homes as homes_spec;
ghost use Rattle.map_expand.specs.Known as known_spec;
ghost use Rattle.map_expand.specs.Making as making_spec;
ghost use Rattle.map_expand.specs.Telling as telling_spec;

use crate::element::{Makes, made_by};
use crate::work::Walk;
use dita_doc::{Doc, Name, NoMemory, Node, NodeKind};
use readers::Reader;
use std::alloc::Global;
use std::collections::BTreeMap;
use std::sync::Arc;

/// The first of some nodes: what it makes, and the place just past its subtree.
#[derive(Clone, Copy)]
pub(crate) struct Seen {
    pub makes: Makes,
    pub end: u32,
}

// A map: its document, where its root stands in it, and whether it stands around what is walked
// over.
#[derive(Drop)]
struct MapDoc {
    name: Name,
    doc: Arc<Doc>,
    root: u32,
    is_around: bool,
}

/// The maps that were asked for, and for each name which map stands under it, if one does.
#[derive(Drop)]
pub(crate) struct Maps {
    known: BTreeMap<Name, Option<usize>>,
    maps: Vec<MapDoc>,
}

impl Maps {
    pub fn new(alloc: Global) -> Maps
        ensures known { (name : List ℕ) →
            get (slice_cmp nat_cmp) result.known name ≡ None }
        ensures maps { result.maps.items ≡ [] }
    {
        Maps {
            known: BTreeMap::new(alloc),
            maps: Vec::new(alloc),
        }
    }

    /// The map of a name, if there is one. No document is asked for twice.
    #[tactic(auto, using(crate::proofs::TellingLaws::telling))]
    pub fn find<R: Reader>(
        &mut self,
        alloc: Global,
        reader: &mut R,
        name: &Name,
    ) -> Result<Option<usize>, NoMemory>
        requires { known_spec.MapsFit (R.told reader.old) self.old }
        ensures fits { OnOk result (known_spec.MapsFit (R.told reader.new) self.new) }
        ensures homes { homes_spec.Extends (homes_spec.homes self.old.maps.items)
            (homes_spec.homes self.new.maps.items) }
        ensures flags { (at : ℕ) →
            homes_spec.flag_at self.new.maps.items at ≡ homes_spec.flag_at self.old.maps.items at }
        ensures within { IfOk result (λ found. IfSome found (λ at. known_spec.IsNamed
            (homes_spec.homes self.new.maps.items) name.now at)) }
        ensures known { (world : World) → Agrees world (R.told reader.new) →
            IfOk result (λ found. known_spec.IsFound world
            (homes_spec.homes self.new.maps.items) name.now found) }
        ensures stand { R.stand reader.new ≡ R.stand reader.old }
        ensures grows { Grows (R.told reader.old) (R.told reader.new) }
        ensures founded { StaysFounded (name.now ∷ []) (R.told reader.old) (R.told reader.new) }
        ensures asks { AsksOnly telling_spec.map_targets (name.now ∷ [])
            (R.told reader.old) (R.told reader.new) }
    {
        if let Some(map) = self.known.get(name) {
            return Ok(*map);
        }
        let map = self.ask(alloc, reader, name)?;
        self.known.insert(name.clone()?, map)?;
        Ok(map)
    }

    // Asks for the document of a name, and puts it behind the other maps if it is one.
    #[tactic(auto, using(crate::proofs::TellingLaws::telling))]
    fn ask<R: Reader>(
        &mut self,
        alloc: Global,
        reader: &mut R,
        name: &Name,
    ) -> Result<Option<usize>, NoMemory>
        ensures known { self.new.known ≡ self.old.known }
        ensures homes { homes_spec.Extends (homes_spec.homes self.old.maps.items)
            (homes_spec.homes self.new.maps.items) }
        ensures flags { (at : ℕ) →
            homes_spec.flag_at self.new.maps.items at ≡ homes_spec.flag_at self.old.maps.items at }
        ensures added { IfOk result (λ found. known_spec.IsAdded name.now
            (homes_spec.homes self.old.maps.items) (homes_spec.homes self.new.maps.items) found) }
        ensures told { IfOk result (λ found. IfSome found (λ at. telling_spec.IsTold
            (R.told reader.new)
            (homes_spec.home_at (homes_spec.homes self.new.maps.items) at))) }
        ensures found { (world : World) → Agrees world (R.told reader.new) →
            IfOk result (λ found. known_spec.IsFound world
            (homes_spec.homes self.new.maps.items) name.now found) }
        ensures stand { R.stand reader.new ≡ R.stand reader.old }
        ensures grows { Grows (R.told reader.old) (R.told reader.new) }
        ensures founded { StaysFounded (name.now ∷ []) (R.told reader.old) (R.told reader.new) }
        ensures asks { AsksOnly telling_spec.map_targets (name.now ∷ [])
            (R.told reader.old) (R.told reader.new) }
    {
        match reader.doc(alloc, name)? {
            Some(doc) => self.put_if_map(name, doc),
            None => Ok(None),
        }
    }

    fn put_if_map(&mut self, name: &Name, doc: Arc<Doc>) -> Result<Option<usize>, NoMemory>
        ensures known { self.new.known ≡ self.old.known }
        ensures err { OnErr result (homes_spec.homes self.new.maps.items
            ≡ homes_spec.homes self.old.maps.items) }
        ensures flags { (at : ℕ) →
            homes_spec.flag_at self.new.maps.items at ≡ homes_spec.flag_at self.old.maps.items at }
        ensures map { IfOk result (λ found. known_spec.IsPut name.now (arc_value doc).nodes
            (homes_spec.homes self.old.maps.items) (homes_spec.homes self.new.maps.items) found) }
    {
        let Some(root) = map_root(&doc) else {
            return Ok(None);
        };
        let map = self.maps.len();
        self.maps.push(MapDoc {
            name: name.clone()?,
            doc,
            root,
            is_around: false,
        })?;
        Ok(Some(map))
    }

    /// Whether a map stands around what is walked over.
    pub fn is_around(&self, map: usize) -> bool
        ensures { result ≡ homes_spec.flag_at self.now.maps.items map }
    {
        self.maps.get(map).is_some_and(|found| found.is_around)
    }

    pub fn set_around(&mut self, map: usize, is_around: bool)
        ensures homes { homes_spec.homes self.new.maps.items
            ≡ homes_spec.homes self.old.maps.items }
        ensures known { self.new.known ≡ self.old.known }
        ensures flags { homes_spec.flags self.new.maps.items
            ≡ set (homes_spec.flags self.old.maps.items) map is_around }
    {
        if map < self.maps.len() {
            let found = &mut self.maps[map];
            found.is_around = is_around;
        }
    }

    /// The walk over the root of a map.
    pub fn root(&self, map: usize, parent: u32, level: u32) -> Option<Walk>
        requires within { map < length (homes_spec.homes self.now.maps.items) }
        requires fits { homes_spec.HomeFits
            (homes_spec.home_at (homes_spec.homes self.now.maps.items) map) }
        ensures { IsSomeAnd result (λ walk. making_spec.IsRootWalk
            (homes_spec.homes self.now.maps.items) map parent level walk) }
    {
        let found = self.maps.get(map)?;
        let root = found.doc.nodes.as_slice().get(found.root as usize)?;
        Some(Walk {
            map,
            place: found.root,
            end: root.end,
            parent,
            level,
            in_table: false,
        })
    }

    /// The first of the nodes that are left, if there is one.
    pub fn see(&self, walk: Walk) -> Option<Seen>
        requires { making_spec.IsOn (homes_spec.homes self.now.maps.items) walk }
        ensures begins { IfSome result (λ seen. walk.place < seen.end) }
        ensures ends { IfSome result (λ seen. seen.end ≤ walk.end) }
        ensures seen { MatchOption result (walk.place ≡ walk.end) (λ seen. making_spec.IsSeen
            (homes_spec.home_at (homes_spec.homes self.now.maps.items) walk.map)
            walk seen.makes seen.end) }
    {
        if walk.place >= walk.end {
            return None;
        }
        let found = self.maps.get(walk.map)?;
        let node = found.doc.nodes.as_slice().get(walk.place as usize)?;
        Some(seen_at(node, walk))
    }

    /// The first of the nodes that are left, with the name of the document in which it was written.
    pub fn first(&self, walk: Walk) -> Option<(&Name, &Node)>
        requires within { walk.map < length (homes_spec.homes self.now.maps.items) }
        ensures { MatchOption result
            (slice_get (homes_spec.home_at (homes_spec.homes self.now.maps.items) walk.map).nodes
            walk.place ≡ None)
            (λ found. homes_spec.IsFirst
            (homes_spec.home_at (homes_spec.homes self.now.maps.items) walk.map)
            walk found.0.now found.1.now) }
    {
        let map = self.maps.get(walk.map)?;
        let node = map.doc.nodes.as_slice().get(walk.place as usize)?;
        Some((&map.name, node))
    }
}

// The node at the begin of a walk.
fn seen_at(node: &Node, walk: Walk) -> Seen
    requires { walk.place < walk.end }
    ensures begins { walk.place < result.end }
    ensures ends { result.end ≤ walk.end }
    ensures seen { (home : homes_spec.Home) → homes_spec.AreSiblings home walk.place walk.end
        → slice_get home.nodes walk.place ≡ Some node.now
        → making_spec.IsSeen home walk result.makes result.end }
{
    match node.kind {
        NodeKind::Element => Seen {
            makes: made_by(node),
            end: node.end.max(walk.place + 1).min(walk.end),
        },
        NodeKind::Chars => Seen {
            makes: Makes::Nothing,
            end: walk.place + 1,
        },
    }
}

/// The place of a document's root.
pub(crate) fn root_of(doc: &Doc) -> Option<u32>
    ensures { (name : List ℕ) → MatchOption result
        (known_spec.root_wanted name doc.now.nodes ≡ None)
        (λ place. known_spec.IsRoot name doc.now.nodes
        (known_spec.root_wanted name doc.now.nodes) place) }
{
    let nodes = doc.nodes.as_slice();
    let mut place = 0;
    while (place as usize) < nodes.len() {
        let node = &nodes[place as usize];
        match node.kind {
            NodeKind::Chars => place += 1,
            NodeKind::Element => return Some(place),
        }
    }
    None
}

// The place of a document's root, if it is a map.
fn map_root(doc: &Doc) -> Option<u32>
    ensures { (name : List ℕ) → MatchOption result
        (known_spec.map_wanted name doc.now.nodes ≡ None)
        (λ place. known_spec.IsRoot name doc.now.nodes
        (known_spec.map_wanted name doc.now.nodes) place) }
{
    let place = root_of(doc)?;
    let root = doc.nodes.as_slice().get(place as usize)?;
    if root.has_type("map/map") {
        Some(place)
    } else {
        None
    }
}
