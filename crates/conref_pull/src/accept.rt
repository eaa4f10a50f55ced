//! Whether a target can be taken.

ghost use Rattle.std.specs.Prelude.{◌≡◌, [], ℕ, List, Some, IfOk, OnOk, slice_get, take};
ghost use Rattle.std.specs.Arc.{arc_value};
ghost use Rattle.std.specs.List.{list_any};
ghost use Rattle.std.specs.Option.{option_copied};
ghost use Rattle.doc_elements.specs.Walk as walk_spec;
ghost use Rattle.conref_spec.specs.Content as content_spec;
ghost use Rattle.conref_targets.specs.Tables.{AreTables, Documents};
ghost use Rattle.conref_pull.specs.Accepting as accepting_spec;

use crate::chain::TakenTarget;
use crate::place::Place;
use crate::resolver::Resolver;
use conref_targets::{Found, PlaceTables, around_found, range_end, whole_at};
use dita_doc::{FaultCode, List, Name, NoMemory, Node, Text};
use doc_elements::is_special;

// How many targets may be resolved within one another.
pub(crate) const LINK_LIMIT: u32 = 32;

impl<'a> Resolver<'a> {
    ghost use Rattle.std.specs.Prelude.{◌≡◌, ◌<◌, ◌≤◌, [], ℕ, Some, IfNone, IfOk, IfSome, IsSome, OnOk, codes, length, slice_get, true};
    ghost use Rattle.std.specs.Arc.{arc_value};
    ghost use Rattle.std.specs.List.{list_any};
    ghost use Rattle.dita_doc.specs.declared.doc.Node as doc;
    ghost use Rattle.doc_elements.specs.Walk as walk_spec;
    ghost use Rattle.doc_maker.specs.Building.{depth};
    ghost use Rattle.doc_maker.specs.Made.{building};
    ghost use Rattle.map_spec.specs.Elements as elements_spec;
    ghost use Rattle.conref_spec.specs.Content as content_spec;
    ghost use Rattle.conref_targets.specs.Tables.{AreTables, Documents};
    ghost use Rattle.conref_targets.specs.Ranges as ranges_spec;
    ghost use Rattle.conref_targets.specs.Found as found_spec;
    ghost use Rattle.conref_targets.specs.declared.tables.PlaceTables.{PlaceTables};
    ghost use Rattle.conref_pull.specs.Linked as linked_spec;
    ghost use Rattle.conref_pull.specs.Putting.{IsSameMaker};
    ghost use Rattle.conref_pull.specs.Step as step_spec;
    ghost use Rattle.conref_pull.specs.State as state_spec;
    ghost use Rattle.conref_pull.specs.Accepting as accepting_spec;

    // Takes a target into an element that is resolved within so many others; none, with a fault, if
    // its type does not fit, its range has no end, it is being resolved already, or it would be too
    // deep.
    #[tactic(auto, using(crate::proofs::PutLaws::making))]
    pub(crate) fn accept(
        &mut self,
        places: &mut PlaceTables,
        origin: &Name,
        element: &Node,
        found: Found<'_>,
        links: u32,
    ) -> Result<Option<TakenTarget>, NoMemory>
        ensures limit { IfOk result (λ link. IsSome link → links < 32) }
        ensures known { (documents : Documents) (meant : content_spec.Found) (at : ℕ)
            → AreTables documents places.old → found_spec.IsFound documents meant found.entry
            → state_spec.IsDepth self.old at → links ≤ length self.old.path.items
            → IfOk result (λ link. linked_spec.IsStep documents
            (step_spec.step_with (state_spec.path_within self.old links)
            (walk_spec.element_of origin.now element.now) meant []
            (content_spec.refused_by found.entry.value.now at (state_spec.path_within self.old links)
            (walk_spec.element_of origin.now element.now) meant)) self.old self.new places.new link) }
        ensures doc { IfOk result (λ link. IfSome link (λ one. one.doc ≡ found.entry.doc)) }
        ensures page { OnOk result (state_spec.IsSamePage self.old self.new) }
        ensures maker { OnOk result (IsSameMaker self.old self.new) }
    {
        let Some(target) = whole_at(&found.doc, found.place) else {
            return Ok(None);
        };
        if !is_special(target.node, element) {
            self.push_fault(origin, element, FaultCode::ConrefType, found.value)?;
            return Ok(None);
        }
        let end = element.value_of("conrefend");
        let Some(to) = range_end(self.alloc, places, &found, target.node, end)? else {
            self.push_fault(origin, element, FaultCode::RangeEnd, end.unwrap_or(""))?;
            return Ok(None);
        };
        let from = target.node.end;
        let declared = around_found(self.alloc, places, &found)?;
        self.go_on(origin, element, found, links, declared, from, to)
    }

    // Goes on within a target that fits the element, around which these names are declared, with a
    // range behind it; none, with a fault, if it is being resolved already, or it would be too deep.
    #[tactic(auto, using(crate::proofs::PutLaws::making))]
    fn go_on(
        &mut self,
        origin: &Name,
        element: &Node,
        found: Found<'_>,
        links: u32,
        declared: List<Text>,
        from: u32,
        to: u32,
    ) -> Result<Option<TakenTarget>, NoMemory>
        ensures limit { IfOk result (λ link. IsSome link → links < 32) }
        ensures known { (documents : Documents) (meant : content_spec.Found) (at : ℕ) (target : doc.Node)
            (places : PlaceTables) → AreTables documents places
            → found_spec.IsFound documents meant found.entry
            → slice_get (arc_value found.entry.doc).nodes found.entry.place ≡ Some target → target.end ≡ from
            → declared ≡ content_spec.declared_around_written [] meant.nodes meant.standing.place
            → elements_spec.is_special meant.standing.whole.0 (walk_spec.element_of origin.now element.now)
            ≡ true
            → ranges_spec.IsRangeEnd from meant.standing.behind (content_spec.range_by meant.standing
            (elements_spec.attribute (codes "conrefend") (walk_spec.element_of origin.now element.now)))
            (Some to)
            → state_spec.IsDepth self.old at → links ≤ length self.old.path.items
            → IfOk result (λ link. linked_spec.IsStep documents
            (step_spec.step_with (state_spec.path_within self.old links)
            (walk_spec.element_of origin.now element.now) meant []
            (content_spec.refused_by found.entry.value.now at (state_spec.path_within self.old links)
            (walk_spec.element_of origin.now element.now) meant)) self.old self.new places link) }
        ensures doc { IfOk result (λ link. IfSome link (λ one. one.doc ≡ found.entry.doc)) }
        ensures page { OnOk result (state_spec.IsSamePage self.old self.new) }
        ensures maker { OnOk result (IsSameMaker self.old self.new) }
    {
        match self.refusal(&found, links) {
            Some(code) => {
                self.push_fault(origin, element, code, found.value)?;
                Ok(None)
            }
            None => {
                let path = &mut self.path;
                Ok(Some(enter(path, found, links, declared, from, to)?))
            }
        }
    }

    // Why a target can't be taken within so many others, if it can't.
    fn refusal(&self, found: &Found<'_>, links: u32) -> Option<FaultCode>
        ensures limit { IfNone result (links < 32) }
        ensures code { result ≡ accepting_spec.refusal_by
            (list_any (content_spec.is_place (accepting_spec.place_of found.now))
            (state_spec.path_within self.now links))
            (accepting_spec.is_too_deep links self.now.deepest (depth (building self.now.maker))) }
    {
        if self.is_on_path(found, links) {
            return Some(FaultCode::ConrefCycle);
        }
        if self.is_too_deep(links) {
            return Some(FaultCode::ConrefDepth);
        }
        None
    }

    // Whether a target is one of those that are being resolved.
    fn is_on_path(&self, found: &Found<'_>, links: u32) -> bool
        ensures { result ≡ list_any (content_spec.is_place (accepting_spec.place_of found.now))
            (state_spec.path_within self.now links) }
    {
        is_among(found, first_of(&self.path, links))
    }

    // Whether so many targets, or the elements that are open, are too many.
    fn is_too_deep(&self, links: u32) -> bool
        ensures { result ≡ accepting_spec.is_too_deep links self.now.deepest
            (depth (building self.now.maker)) }
    {
        links >= LINK_LIMIT || self.maker.depth() >= self.deepest
    }
}

// Whether a target is one of these.
fn is_among(found: &Found<'_>, places: &[Place]) -> bool
    ensures { result ≡ list_any (accepting_spec.is_at found.now) places.now }
{
    places.iter().any(|place| is_at(found, place))
}

// The places are compared first: names take longer, and differ less often.
fn is_at(found: &Found<'_>, place: &Place) -> bool
    ensures { result ≡ accepting_spec.is_at found.now place.now }
{
    found.place == place.at && found.name == place.doc
}

// The first so many places of a path.
fn first_of(path: &[Place], links: u32) -> &[Place]
    ensures { result.now ≡ take links path.now }
{
    path.get(..links as usize).unwrap_or(path)
}

// Goes on within a target that is taken, behind so many others.
fn enter(
    path: &mut Vec<Place>,
    found: Found<'_>,
    links: u32,
    declared: List<Text>,
    from: u32,
    to: u32,
) -> Result<TakenTarget, NoMemory>
    ensures link { IfOk result (λ link. link
        ≡ accepting_spec.link_of found.entry declared from to) }
    ensures path { OnOk result (accepting_spec.GoesOn path.old.items path.new.items found.entry
        links) }
{
    let Found {
        name,
        doc,
        place,
        ..
    } = found;
    path.truncate(links as usize);
    path.push(Place {
        doc: name,
        at: place,
    })?;
    Ok(TakenTarget {
        doc,
        place,
        declared,
        from,
        to,
    })
}
