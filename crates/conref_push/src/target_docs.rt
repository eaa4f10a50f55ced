//! The elements that pushes name.

ghost use Rattle.std.specs.Prelude.{◌≡◌, ◌∷◌, [], ℕ, List, IfOk, OnOk, ◌&&◌, IsTrue, is_some, option_to_list};
ghost use Rattle.std.specs.BTreeMap as tree;
ghost use Rattle.std.specs.BTreeSet as set;
ghost use Rattle.std.specs.Cmp.Lexicographic.{slice_cmp};
ghost use Rattle.std.specs.Ordering.{nat_cmp};
ghost use Rattle.std.specs.Option.{option_copied};
ghost use Rattle.conref_push.specs.Aimed as aimed_spec;
ghost use Rattle.conref_push.specs.Sight as sight_spec;
ghost use Rattle.conref_push.specs.Targets as spec;
ghost use Rattle.map_spec.specs.Written as written_spec;
ghost use Rattle.map_spec.specs.Pushes as pushes_spec;
ghost use Rattle.reader_spec.specs.World.{World};
ghost use Rattle.readers.specs.Documents as documents_spec;
ghost use Rattle.readers.specs.Documents.{AsksOnly};
ghost use Rattle.readers.specs.Founded.{Grows, StaysFounded};
ghost use Rattle.readers.specs.Told.{Agrees};
ghost use Rattle.topic_find.specs.Table as table_spec;

use crate::pushing::Pushing;
use dita_doc::{Doc, Name, NoMemory, PushKind, Reference, Siblings, Stop, Text};
use doc_elements::is_special;
use href_text::{join_name, read_reference};
use readers::Reader;
use std::alloc::{AllocError, Global};
use std::collections::{BTreeMap, BTreeSet};
use std::sync::Arc;
use targets::is_same_topic;
use topic_find::TargetTable;

// A document into which is pushed, and the places of its elements that fragments name.
#[derive(Drop)]
pub(crate) struct TargetDoc {
    doc: Arc<Doc>,
    table: TargetTable,
}

// A target: an element of a document.
#[derive(PartialEq, Eq, PartialOrd, Ord, Drop)]
pub(crate) struct PushTarget {
    pub doc: Name,
    pub place: u32,
}

// The documents that pushes name, each asked for once. None is kept for one that is not stored.
#[derive(Drop)]
pub(crate) struct Targets {
    docs: BTreeMap<Name, Option<TargetDoc>>,
    // The elements that are replaced.
    replaced: BTreeSet<PushTarget>,
}

impl Targets {
    pub fn new(alloc: Global) -> Self
        ensures docs { result.docs.entries ≡ [] }
        ensures replaced { result.replaced.keys ≡ [] }
    {
        Targets {
            docs: BTreeMap::new(alloc),
            replaced: BTreeSet::new(alloc),
        }
    }

    // The target of an element that stands in the document of this name, if the target is there and
    // the element is of its type.
    #[tactic(auto, using(readers::proofs::Rules::walking))]
    pub fn find<R: Reader>(
        &mut self,
        alloc: Global,
        reader: &mut R,
        from: &Name,
        pushing: Pushing<'_>,
    ) -> Result<Option<PushTarget>, NoMemory>
        ensures known { (world : World) → Agrees world (R.told reader.new)
            → spec.AreDocs world self.old → IfOk result (λ target. target
            ≡ spec.spot_seen world (sight_spec.sight_of from.now pushing.entry)) }
        ensures docs { (world : World) → Agrees world (R.told reader.new)
            → spec.AreDocs world self.old → OnOk result (spec.AreDocs world self.new) }
        ensures replaced { OnOk result (self.new.replaced ≡ self.old.replaced) }
        ensures stand { R.stand reader.new ≡ R.stand reader.old }
        ensures founded { StaysFounded (option_to_list (aimed_spec.doc_aimed
            (sight_spec.sight_of from.now pushing.entry))) (R.told reader.old)
            (R.told reader.new) }
        ensures asks { AsksOnly documents_spec.nothing (option_to_list (aimed_spec.doc_aimed
            (sight_spec.sight_of from.now pushing.entry))) (R.told reader.old)
            (R.told reader.new) }
        ensures grows { Grows (R.told reader.old) (R.told reader.new) }
    {
        let Some((doc, reference)) = read_target(alloc, from, pushing.conref)? else {
            return Ok(None);
        };
        self.ask(alloc, reader, &doc)?;
        match self.place(alloc, &doc, &reference, pushing)? {
            Some(place) => Ok(Some(PushTarget { doc, place })),
            None => Ok(None),
        }
    }

    // Notes a push to a target, and says whether it replaces what is replaced already.
    pub fn note(&mut self, kind: PushKind, target: &PushTarget) -> Result<bool, NoMemory>
        ensures told { IfOk result (λ twice. twice ≡ (pushes_spec.is_replace kind
            && set.contains spec.target_cmp self.old.replaced target.now)) }
        ensures noted { IfOk result (λ twice. spec.IsNoted kind target.now twice
            self.old.replaced self.new.replaced) }
        ensures docs { OnOk result (self.new.docs ≡ self.old.docs) }
    {
        if !replaces(kind) {
            return Ok(false);
        }
        let copy = PushTarget {
            doc: target.doc.clone()?,
            place: target.place,
        };
        let added = self.replaced.insert(copy)?;
        Ok(!added)
    }

    // Asks for the document of this name, unless it was asked for.
    #[tactic(auto, using(readers::proofs::Rules::walking))]
    fn ask<R: Reader>(&mut self, alloc: Global, reader: &mut R, name: &Name) -> Result<(), NoMemory>
        ensures docs { (world : World) → Agrees world (R.told reader.new)
            → spec.AreDocs world self.old → OnOk result (spec.AreDocs world self.new) }
        ensures has { OnOk result (IsTrue (is_some
            (tree.get (slice_cmp nat_cmp) self.new.docs name.now))) }
        ensures replaced { OnOk result (self.new.replaced ≡ self.old.replaced) }
        ensures stand { R.stand reader.new ≡ R.stand reader.old }
        ensures founded { StaysFounded (name.now ∷ []) (R.told reader.old) (R.told reader.new) }
        ensures asks { AsksOnly documents_spec.nothing (name.now ∷ []) (R.told reader.old)
            (R.told reader.new) }
        ensures grows { Grows (R.told reader.old) (R.told reader.new) }
    {
        if self.docs.contains_key(name) {
            return Ok(());
        }
        let found = target_doc(alloc, reader, name)?;
        self.docs.insert(name.clone()?, found)?;
        Ok(())
    }

    // The place of the element that is named in a document that was asked for, if it is stored, and
    // the pushing element is of its type.
    fn place(
        &self,
        alloc: Global,
        name: &Name,
        reference: &Reference,
        pushing: Pushing<'_>,
    ) -> Result<Option<u32>, NoMemory>
        ensures { (world : World) (from : List ℕ) → spec.AreDocs world self.now
            → IsTrue (is_some (tree.get (slice_cmp nat_cmp) self.now.docs name.now))
            → IfOk result (λ place. place ≡ spec.place_seen world
            (sight_spec.sight_of from pushing.entry) name.now reference.now) }
    {
        let Some(found) = self.docs.get(name) else {
            return Ok(None);
        };
        place_if_stored(alloc, found, reference, pushing)
    }
}

fn replaces(kind: PushKind) -> bool
    ensures { result ≡ pushes_spec.is_replace kind }
{
    match kind {
        PushKind::Replace => true,
        PushKind::Before | PushKind::After => false,
    }
}

// What stands under a name.
#[tactic(auto, using(readers::proofs::Rules::walking))]
fn target_doc<R: Reader>(
    alloc: Global,
    reader: &mut R,
    name: &Name,
) -> Result<Option<TargetDoc>, NoMemory>
    ensures known { (world : World) → Agrees world (R.told reader.new)
        → IfOk result (λ found. spec.IsTargetDoc world name.now found) }
    ensures stand { R.stand reader.new ≡ R.stand reader.old }
    ensures founded { StaysFounded (name.now ∷ []) (R.told reader.old) (R.told reader.new) }
    ensures asks { AsksOnly documents_spec.nothing (name.now ∷ []) (R.told reader.old)
        (R.told reader.new) }
    ensures grows { Grows (R.told reader.old) (R.told reader.new) }
{
    let Some(doc) = reader.doc(alloc, name)? else {
        return Ok(None);
    };
    let table = TargetTable::of(alloc, &doc)?;
    Ok(Some(TargetDoc { doc, table }))
}

// The document that a value names, and the parts of the value, if they can be read.
fn read_target(
    alloc: Global,
    from: &Name,
    conref: Option<&str>,
) -> Result<Option<(Name, Reference)>, NoMemory>
    ensures { IfOk result (λ read. read
        ≡ aimed_spec.push_aim_read from.now (option_copied conref.entry)) }
{
    let Some(conref) = conref else {
        return Ok(None);
    };
    let reference = match read_reference(alloc, &Text::from_str(alloc, conref)?) {
        Ok(reference) => reference,
        Err(Stop::Fault(_)) => return Ok(None),
        Err(Stop::NoMemory) => return Err(NoMemory),
    };
    match join_name(alloc, from, &reference.file) {
        Ok(name) => Ok(Some((name, reference))),
        Err(Stop::Fault(_)) => Ok(None),
        Err(Stop::NoMemory) => Err(NoMemory),
    }
}

// The place of the element that is named in what stands under a name.
fn place_if_stored(
    alloc: Global,
    found: &Option<TargetDoc>,
    reference: &Reference,
    pushing: Pushing<'_>,
) -> Result<Option<u32>, NoMemory>
    ensures { (world : World) (name from : List ℕ) → spec.IsTargetDoc world name found.now
        → IfOk result (λ place. place ≡ spec.place_seen world
        (sight_spec.sight_of from pushing.entry) name reference.now) }
{
    match found {
        Some(target) => place_in(alloc, target, reference, pushing),
        None => Ok(None),
    }
}

// The place of the element that is named, if the pushing element is of its type.
fn place_in(
    alloc: Global,
    target: &TargetDoc,
    reference: &Reference,
    pushing: Pushing<'_>,
) -> Result<Option<u32>, NoMemory>
    ensures { (name from : List ℕ) → table_spec.IsTableFor target.now.table
        (written_spec.written_in name (spec.target_tree target.now))
        → IfOk result (λ place. place ≡ spec.place_meant
        (written_spec.written_in name (spec.target_tree target.now))
        (sight_spec.sight_of from pushing.entry) reference.now) }
{
    let topic = topic_named(alloc, reference, pushing.topic)?;
    let Some(place) = target.table.find(alloc, &topic, &reference.element)? else {
        return Ok(None);
    };
    if fits(target, place, pushing) {
        Ok(Some(place))
    } else {
        Ok(None)
    }
}

// Whether the pushing element is of the type of the element at this place.
fn fits(target: &TargetDoc, place: u32, pushing: Pushing<'_>) -> bool
    ensures { (name from : List ℕ) → result ≡ spec.fits_at
        (written_spec.written_in name (spec.target_tree target.now))
        (sight_spec.sight_of from pushing.entry) place }
{
    match Siblings::element_at(&target.doc, place) {
        Some((element, _)) => is_special(pushing.element, element),
        None => false,
    }
}

// The topic that a reference names, on an element in the topic of this id.
fn topic_named(alloc: Global, reference: &Reference, around: &str) -> Result<Text, AllocError>
    ensures { IfOk result (λ topic. topic ≡ spec.topic_meant reference.now around.now) }
{
    if is_same_topic(reference) {
        return Text::from_str(alloc, around);
    }
    Text::from_str(alloc, reference.topic.as_str())
}
