//! What is known of each document: what is pushed into it, and what is wrong in it.

ghost use Rattle.std.specs.Prelude.{◌≡◌, [], None, Some, OnOk, IfOk};
ghost use Rattle.std.specs.Option.{option_copied};
ghost use Rattle.conref_push.specs.Table as spec;

use dita_doc::{Fault, List, Name, NoMemory, Push};
use std::alloc::Global;
use std::collections::BTreeMap;

// What is pushed into a document, the faults that stand in it, and whether an element of it acts.
#[derive(Drop)]
pub(crate) struct PushEntry {
    pub pushes: List<Push>,
    pub faults: List<Fault>,
    pub acts: bool,
}

impl PushEntry {
    ghost use Rattle.std.specs.Prelude.{◌≡◌};
    ghost use Rattle.conref_push.specs.Table as spec;

    fn new(alloc: Global) -> PushEntry
        ensures { result ≡ spec.no_entry }
    {
        PushEntry {
            pushes: List::new(alloc),
            faults: List::new(alloc),
            acts: false,
        }
    }

    pub fn touches(&self) -> bool
        ensures { result ≡ spec.touched_by self.now }
    {
        self.acts || !self.pushes.is_empty()
    }
}

// The entries of documents by their names.
#[derive(Drop)]
pub(crate) struct Entries {
    map: BTreeMap<Name, PushEntry>,
}

impl Entries {
    pub fn new(alloc: Global) -> Entries
        ensures { result.map.entries ≡ [] }
    {
        Entries {
            map: BTreeMap::new(alloc),
        }
    }

    pub fn get(&self, name: &Name) -> Option<&PushEntry>
        ensures { option_copied result ≡ spec.entry_in self.now name.now }
    {
        self.map.get(name)
    }

    // Puts a push behind the others into a document.
    pub fn add_push(&mut self, alloc: Global, name: &Name, push: Push) -> Result<(), NoMemory>
        ensures { OnOk result (spec.IsChanged self.old self.new name.now (spec.with_push push)) }
    {
        let entry = self
            .map
            .entry(name.clone()?)?
            .or_insert(PushEntry::new(alloc));
        Ok(entry.pushes.push(push)?)
    }

    // Puts a fault behind the others that stand in a document.
    pub fn add_fault(&mut self, alloc: Global, name: &Name, fault: Fault) -> Result<(), NoMemory>
        ensures { OnOk result (spec.IsChanged self.old self.new name.now
            (spec.with_fault fault)) }
    {
        let entry = self
            .map
            .entry(name.clone()?)?
            .or_insert(PushEntry::new(alloc));
        Ok(entry.faults.push(fault)?)
    }

    // Notes that an element of a document acts.
    pub fn set_acts(&mut self, alloc: Global, name: &Name) -> Result<(), NoMemory>
        ensures { OnOk result (spec.IsChanged self.old self.new name.now spec.with_acts) }
    {
        let entry = self
            .map
            .entry(name.clone()?)?
            .or_insert(PushEntry::new(alloc));
        entry.acts = true;
        Ok(())
    }
}
