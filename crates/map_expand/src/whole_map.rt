//! The public call.

ghost use Rattle.std.specs.Prelude.{◌≡◌, ◌<◌, [], ◌∷◌, ℕ, List, Some, IfOk, false, length};
ghost use Rattle.std.specs.Result.{result_map_both};
ghost use Rattle.dita_doc.specs.Gives.{Gives};
ghost use Rattle.map_spec.specs.Included as included_spec;
ghost use Rattle.map_spec.specs.Written.{Whole};
ghost use Rattle.reader_spec.specs.World.{World};
ghost use Rattle.readers.specs.Documents.{AsksOnly};
ghost use Rattle.readers.specs.Founded as founded_spec;
ghost use Rattle.readers.specs.Founded.{Grows, StaysFounded};
ghost use Rattle.readers.specs.Told.{Agrees};
ghost use Rattle.map_expand.specs.AskedFor as asked_for_spec;
ghost use Rattle.map_expand.specs.Ending as ending_spec;
ghost use Rattle.map_expand.specs.Going as going_spec;
ghost use Rattle.map_expand.specs.Homes as homes_spec;
ghost use Rattle.map_expand.specs.Known as known_spec;
ghost use Rattle.map_expand.specs.Making as making_spec;
ghost use Rattle.map_expand.specs.Telling as telling_spec;

use crate::expansion::Expansion;
use crate::maps::{Maps, root_of};
use dita_doc::{Doc, Expanded, Name, NoMemory, PlanStop, Stop};
use readers::Reader;
use std::alloc::Global;

/// The nodes of a map with all maps that it includes, in document order, and what is wrong with
/// them.
///
/// # Errors
///
/// `NoMap` if the map is not stored, `NotMap` if the root of its document is no map, `TooManyNodes`
/// if there are more than 65,536 nodes, or out of memory.
#[tactic(auto, using(crate::proofs::TellingLaws::telling))]
pub fn expand<R: Reader>(
    alloc: Global,
    reader: &mut R,
    map: &Name,
) -> Result<Expanded, Stop<PlanStop>>
    ensures known { (world : World) → Agrees world (R.told reader.new) →
        Gives result (result_map_both included_spec.expanded (λ stop. stop)
        (included_spec.included included_spec.map_node_limit world map.now)) }
    ensures value { Gives result (result_map_both included_spec.expanded (λ stop. stop)
        (included_spec.included included_spec.map_node_limit (R.stand reader.old).world map.now)) }
    ensures stand { R.stand reader.new ≡ R.stand reader.old }
    ensures grows { Grows (R.told reader.old) (R.told reader.new) }
    ensures founded { StaysFounded (map.now ∷ []) (R.told reader.old) (R.told reader.new) }
    ensures asks { AsksOnly telling_spec.map_targets (map.now ∷ [])
        (R.told reader.old) (R.told reader.new) }
    ensures asked { IfOk result (λ made. asked_for_spec.AreAsked (R.told reader.new)
        (founded_spec.homes made.nodes)) }
{
    let mut maps = Maps::new(alloc);
    let Some(root) = maps.find(alloc, reader, map)? else {
        return Err(Stop::Fault(why_no_map(alloc, reader, map)?));
    };
    expand_root(alloc, reader, &mut maps, root)
}

// The same from the root of the map, of which alone it is known that it is one.
#[tactic(auto, using(crate::proofs::TellingLaws::telling))]
fn expand_root<R: Reader>(
    alloc: Global,
    reader: &mut R,
    maps: &mut Maps,
    root: usize,
) -> Result<Expanded, Stop<PlanStop>>
    requires fits { known_spec.MapsFit (R.told reader.old) maps.old }
    requires within { root < length (going_spec.homes_of maps.old) }
    requires free { (at : ℕ) → homes_spec.flag_at maps.old.maps.items at ≡ false }
    ensures known { (world : World) → Agrees world (R.told reader.new) → (whole : Whole) →
        homes_spec.root_in (homes_spec.home_at (going_spec.homes_of maps.old) root) ≡ Some whole →
        homes_spec.IsPlaced world (homes_spec.home_at (going_spec.homes_of maps.old) root) →
        Gives result (result_map_both included_spec.expanded (λ stop. stop)
        (included_spec.limited included_spec.map_node_limit (making_spec.whole_map world
        (homes_spec.name_at (going_spec.homes_of maps.old) root ∷ []) 0 whole))) }
    ensures stand { R.stand reader.new ≡ R.stand reader.old }
    ensures grows { Grows (R.told reader.old) (R.told reader.new) }
    ensures founded { StaysFounded [] (R.told reader.old) (R.told reader.new) }
    ensures asks { AsksOnly telling_spec.map_targets []
        (R.told reader.old) (R.told reader.new) }
    ensures asked { IfOk result (λ made. asked_for_spec.AreAsked (R.told reader.new)
        (founded_spec.homes made.nodes)) }
{
    let mut expansion = Expansion::new(alloc);
    match expansion.enter(alloc, maps, root, 0, 0) {
        Ok(()) => {}
        Err(stop) => return Err(stop),
    }
    match expansion.walk(alloc, reader, maps) {
        Ok(()) => {}
        Err(stop) => return Err(stop),
    }
    Ok(expansion.finish()?)
}

// Why there is no map under a name.
#[tactic(auto, using(crate::proofs::TellingLaws::telling))]
fn why_no_map<R: Reader>(alloc: Global, reader: &mut R, map: &Name) -> Result<PlanStop, NoMemory>
    ensures known { (world : World) → Agrees world (R.told reader.new) → IfOk result
        (λ stop. stop ≡ ending_spec.why_none (included_spec.root_in world map.now)) }
    ensures stand { R.stand reader.new ≡ R.stand reader.old }
    ensures grows { Grows (R.told reader.old) (R.told reader.new) }
    ensures founded { StaysFounded (map.now ∷ []) (R.told reader.old) (R.told reader.new) }
    ensures asks { AsksOnly telling_spec.map_targets (map.now ∷ [])
        (R.told reader.old) (R.told reader.new) }
{
    match reader.doc(alloc, map)? {
        Some(doc) => Ok(why_not(&doc)),
        None => Ok(PlanStop::NoMap),
    }
}

// Why a document is no map.
fn why_not(doc: &Doc) -> PlanStop
    ensures { (name : List ℕ) → result
        ≡ ending_spec.why_none (known_spec.root_wanted name doc.now.nodes) }
{
    match root_of(doc) {
        Some(_) => PlanStop::NotMap,
        None => PlanStop::NoMap,
    }
}
