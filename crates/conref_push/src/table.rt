//! All pushes of some documents.

ghost use Rattle.std.specs.Prelude.{◌≡◌, ◌++◌, [], ◌∷◌, ℕ, Bool, List, Some, IfOk, OnOk, option_to_list};
ghost use Rattle.conref_push.specs.Aimed as aimed_spec;
ghost use Rattle.conref_push.specs.Gathered as gathered_spec;
ghost use Rattle.conref_push.specs.Sight as sight_spec;
ghost use Rattle.conref_push.specs.Table as spec;
ghost use Rattle.conref_push.specs.Targets as targets_spec;
ghost use Rattle.dita_doc.specs.Tree as tree_spec;
ghost use Rattle.map_spec.specs.Written as written_spec;
ghost use Rattle.map_spec.specs.Pushes as pushes_spec;
ghost use Rattle.map_spec.specs.Pushes.{AllPushes};
ghost use Rattle.reader_spec.specs.World.{World};
ghost use Rattle.readers.specs.Documents as documents_spec;
ghost use Rattle.readers.specs.Documents.{AsksOnly};
ghost use Rattle.readers.specs.Founded.{AreAllowed, Grows, IsFounded, StaysFounded};
ghost use Rattle.readers.specs.Told.{Agrees};

use crate::acts::has_conaction_in;
use crate::entries::Entries;
use crate::pushing::{Pushing, pushing_in};
use crate::target_docs::{PushTarget, Targets};
use dita_doc::{Doc, Fault, FaultCode, List, Name, NoMemory, Push, PushList, copy_faults};
use doc_elements::fault_at;
use readers::Reader;
use std::alloc::Global;

/// The pushes of some documents, by the document into which they go.
#[derive(Drop)]
pub struct PushTable {
    entries: Entries,
    faults: List<Fault>,
}

impl PushTable {
    /// The pushes of these documents, by first use of the document and then in document order. Of
    /// two replacements of one element the second is dropped. Each document is asked for once for
    /// its own pushes, and once more if others push into it.
    #[tactic(auto, using(readers::proofs::Rules::walking))]
    pub fn of<R: Reader>(
        alloc: Global,
        reader: &mut R,
        documents: &[Name],
    ) -> Result<PushTable, NoMemory>
        ensures known { (world : World) → Agrees world (R.told reader.new)
            → IfOk result (λ table. spec.IsPushTable world documents.now table) }
        ensures allowed { IfOk result (λ table. (roots : List (List ℕ))
            → IsFounded roots (R.told reader.new)
            → AreAllowed roots (R.told reader.new) documents.now) }
        ensures stand { R.stand reader.new ≡ R.stand reader.old }
        ensures founded { StaysFounded documents.now (R.told reader.old) (R.told reader.new) }
        ensures asks { AsksOnly aimed_spec.push_targets documents.now (R.told reader.old)
            (R.told reader.new) }
        ensures grows { Grows (R.told reader.old) (R.told reader.new) }
    {
        let mut table = PushTable::empty(alloc);
        let mut targets = Targets::new(alloc);
        for name in documents {
            table.put_document(alloc, reader, &mut targets, name)?;
        }
        Ok(table)
    }

    fn empty(alloc: Global) -> PushTable
        ensures entries { result.entries.map.entries ≡ [] }
        ensures faults { result.faults ≡ [] }
    {
        PushTable {
            entries: Entries::new(alloc),
            faults: List::new(alloc),
        }
    }

    /// The pushes into a document, and the faults that stand in it, both in order.
    pub fn pushes_into(&self, alloc: Global, doc: &Name) -> Result<PushList, NoMemory>
        ensures { (world : World) (documents : List (List ℕ))
            → spec.IsPushTable world documents self.now → IfOk result (λ list. list
            ≡ pushes_spec.pushes_into world documents doc.now) }
    {
        match self.entries.get(doc) {
            Some(entry) => Ok(PushList {
                pushes: copy_pushes(alloc, entry.pushes.as_slice())?,
                faults: copy_faults(alloc, entry.faults.as_slice())?,
            }),
            None => Ok(PushList {
                pushes: List::new(alloc),
                faults: List::new(alloc),
            }),
        }
    }

    /// The faults of all pushes, in order.
    pub fn faults(&self) -> &[Fault]
        ensures { (world : World) (documents : List (List ℕ))
            → spec.IsPushTable world documents self.now
            → result.now ≡ (pushes_spec.all_pushes world documents).faults }
    {
        self.faults.as_slice()
    }

    /// Whether something is pushed into a document, or an element of it acts. The second is known
    /// only of the documents for which the table was made: `has_conaction_in` tells it of any.
    pub fn touches(&self, doc: &Name) -> bool
        ensures { (world : World) (documents : List (List ℕ))
            → spec.IsPushTable world documents self.now
            → result ≡ spec.is_touched world documents doc.now }
    {
        match self.entries.get(doc) {
            Some(entry) => entry.touches(),
            None => false,
        }
    }

    // Puts what the elements of the document of this name push, if it is stored.
    #[tactic(auto, using(readers::proofs::Rules::walking))]
    fn put_document<R: Reader>(
        &mut self,
        alloc: Global,
        reader: &mut R,
        targets: &mut Targets,
        name: &Name,
    ) -> Result<(), NoMemory>
        ensures known { (world : World) (documents : List (List ℕ))
            → Agrees world (R.told reader.new)
            → gathered_spec.IsGathered world (pushes_spec.all_pushes world documents)
            (spec.acts_among world documents) targets.old self.old
            → OnOk result (gathered_spec.IsGathered world
            (pushes_spec.all_pushes world (documents ++ name.now ∷ []))
            (spec.acts_among world (documents ++ name.now ∷ [])) targets.new self.new) }
        ensures allowed { (roots : List (List ℕ)) → IsFounded roots (R.told reader.new)
            → OnOk result (AreAllowed roots (R.told reader.new) (name.now ∷ [])) }
        ensures stand { R.stand reader.new ≡ R.stand reader.old }
        ensures founded { StaysFounded (name.now ∷ []) (R.told reader.old) (R.told reader.new) }
        ensures asks { AsksOnly aimed_spec.push_targets (name.now ∷ []) (R.told reader.old)
            (R.told reader.new) }
        ensures grows { Grows (R.told reader.old) (R.told reader.new) }
    {
        match reader.doc(alloc, name)? {
            Some(doc) => self.put_all(alloc, reader, targets, name, &doc),
            None => Ok(()),
        }
    }

    // Puts what the elements of a document push.
    #[tactic(auto, using(readers::proofs::Rules::walking))]
    fn put_all<R: Reader>(
        &mut self,
        alloc: Global,
        reader: &mut R,
        targets: &mut Targets,
        name: &Name,
        doc: &Doc,
    ) -> Result<(), NoMemory>
        ensures known { (world : World) (all : AllPushes) (acting : List ℕ → Bool)
            → Agrees world (R.told reader.new)
            → gathered_spec.IsGathered world all acting targets.old self.old
            → OnOk result (gathered_spec.IsGathered world
            (sight_spec.with_all_seen world all (gathered_spec.sights_in
            (written_spec.written_in name.now (tree_spec.tree_of doc.now.nodes))))
            (gathered_spec.acting_with acting name.now
            (written_spec.written_in name.now (tree_spec.tree_of doc.now.nodes)))
            targets.new self.new) }
        ensures stand { R.stand reader.new ≡ R.stand reader.old }
        ensures founded { StaysFounded (aimed_spec.aims_in name.now
            (Some (tree_spec.tree_of doc.now.nodes))) (R.told reader.old) (R.told reader.new) }
        ensures asks { AsksOnly documents_spec.nothing (aimed_spec.aims_in name.now
            (Some (tree_spec.tree_of doc.now.nodes))) (R.told reader.old) (R.told reader.new) }
        ensures grows { Grows (R.told reader.old) (R.told reader.new) }
    {
        if !has_conaction_in(doc) {
            return Ok(());
        }
        self.entries.set_acts(alloc, name)?;
        let all = pushing_in(alloc, doc)?;
        for pushing in &all {
            self.put_one(alloc, reader, targets, name, *pushing)?;
        }
        Ok(())
    }

    // Puts what an element of the document of this name pushes.
    #[tactic(auto, using(readers::proofs::Rules::walking))]
    fn put_one<R: Reader>(
        &mut self,
        alloc: Global,
        reader: &mut R,
        targets: &mut Targets,
        name: &Name,
        pushing: Pushing<'_>,
    ) -> Result<(), NoMemory>
        ensures known { (world : World) (all : AllPushes) (acting : List ℕ → Bool)
            → Agrees world (R.told reader.new)
            → gathered_spec.IsGathered world all acting targets.old self.old
            → OnOk result (gathered_spec.IsGathered world
            (sight_spec.with_seen world all (sight_spec.sight_of name.now pushing.entry)) acting
            targets.new self.new) }
        ensures stand { R.stand reader.new ≡ R.stand reader.old }
        ensures founded { StaysFounded (option_to_list (aimed_spec.doc_aimed
            (sight_spec.sight_of name.now pushing.entry))) (R.told reader.old)
            (R.told reader.new) }
        ensures asks { AsksOnly documents_spec.nothing (option_to_list (aimed_spec.doc_aimed
            (sight_spec.sight_of name.now pushing.entry))) (R.told reader.old)
            (R.told reader.new) }
        ensures grows { Grows (R.told reader.old) (R.told reader.new) }
    {
        match targets.find(alloc, reader, name, pushing)? {
            Some(target) => self.put(alloc, targets, name, pushing, target),
            None => self.put_fault(alloc, name, pushing, FaultCode::PushPlace),
        }
    }

    // Puts a push, unless it replaces what is replaced already.
    fn put(
        &mut self,
        alloc: Global,
        targets: &mut Targets,
        name: &Name,
        pushing: Pushing<'_>,
        target: PushTarget,
    ) -> Result<(), NoMemory>
        ensures { (world : World) (all : AllPushes) (acting : List ℕ → Bool)
            → gathered_spec.IsGathered world all acting targets.old self.old
            → Some target ≡ targets_spec.spot_seen world
            (sight_spec.sight_of name.now pushing.entry)
            → OnOk result (gathered_spec.IsGathered world
            (sight_spec.with_seen world all (sight_spec.sight_of name.now pushing.entry)) acting
            targets.new self.new) }
    {
        let twice = targets.note(pushing.kind, &target)?;
        if twice {
            return self.put_fault(alloc, name, pushing, FaultCode::PushTwice);
        }
        let push = Push {
            kind: pushing.kind,
            at: target.place,
            from: name.clone()?,
            place: pushing.place,
        };
        self.entries.add_push(alloc, &target.doc, push)
    }

    // Puts the fault of an element that pushes.
    fn put_fault(
        &mut self,
        alloc: Global,
        name: &Name,
        pushing: Pushing<'_>,
        code: FaultCode,
    ) -> Result<(), NoMemory>
        ensures { (all : AllPushes) (acting : List ℕ → Bool) → spec.IsTableOf all acting self.old
            → OnOk result (spec.IsTableOf (gathered_spec.with_fault all
            (gathered_spec.fault_seen (sight_spec.sight_of name.now pushing.entry) code)) acting
            self.new) }
    {
        let detail = pushing.conref.unwrap_or("");
        let fault = fault_at(alloc, name, pushing.element, code, detail)?;
        self.entries.add_fault(alloc, name, fault.clone()?)?;
        self.faults.push(fault)?;
        Ok(())
    }
}

/// The pushes of some documents into one, and the faults of those that stand in it, both in order:
/// by first use of the document and then in document order. For more than one document a table is
/// made once.
#[tactic(auto, using(readers::proofs::Rules::walking))]
pub fn pushes_into<R: Reader>(
    alloc: Global,
    reader: &mut R,
    documents: &List<Name>,
    doc: &Name,
) -> Result<PushList, NoMemory>
    ensures value { IfOk result (λ list. list ≡ pushes_spec.pushes_into
        (R.stand reader.old).world documents.now doc.now) }
    ensures known { (world : World) → Agrees world (R.told reader.new) → IfOk result (λ list.
        list ≡ pushes_spec.pushes_into world documents.now doc.now) }
    ensures stand { R.stand reader.new ≡ R.stand reader.old }
    ensures founded { StaysFounded documents.now (R.told reader.old) (R.told reader.new) }
    ensures asks { AsksOnly aimed_spec.push_targets documents.now (R.told reader.old)
        (R.told reader.new) }
    ensures grows { Grows (R.told reader.old) (R.told reader.new) }
{
    pushes_of(alloc, reader, documents, doc)
}

// The same, said of each world that agrees with what the reader was told.
#[tactic(auto, using(readers::proofs::Rules::walking))]
fn pushes_of<R: Reader>(
    alloc: Global,
    reader: &mut R,
    documents: &List<Name>,
    doc: &Name,
) -> Result<PushList, NoMemory>
    ensures known { (world : World) → Agrees world (R.told reader.new) → IfOk result (λ list.
        list ≡ pushes_spec.pushes_into world documents.now doc.now) }
    ensures stand { R.stand reader.new ≡ R.stand reader.old }
    ensures founded { StaysFounded documents.now (R.told reader.old) (R.told reader.new) }
    ensures asks { AsksOnly aimed_spec.push_targets documents.now (R.told reader.old)
        (R.told reader.new) }
    ensures grows { Grows (R.told reader.old) (R.told reader.new) }
{
    PushTable::of(alloc, reader, documents.as_slice())?.pushes_into(alloc, doc)
}

fn copy_pushes(alloc: Global, pushes: &[Push]) -> Result<List<Push>, NoMemory>
    ensures { IfOk result (λ copies. copies ≡ pushes.now) }
{
    let mut copies = List::new(alloc);
    for push in pushes {
        copies.push(copy_push(push)?)?;
    }
    Ok(copies)
}

pub(crate) fn copy_push(push: &Push) -> Result<Push, NoMemory>
    ensures { IfOk result (λ copy. copy ≡ push.now) }
{
    Ok(Push {
        kind: push.kind,
        at: push.at,
        from: push.from.clone()?,
        place: push.place,
    })
}
