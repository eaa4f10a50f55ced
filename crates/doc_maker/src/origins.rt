//! The documents in which nodes were written.

ghost use Rattle.std.specs.Prelude.{◌≡◌, [], ◌∷◌, ◌++◌, length, slice_get, Some, IfNone, IfOk, IfSome, OnErr, OnOk};
ghost use Rattle.doc_maker.specs.Origins as spec;

use dita_doc::{List, Name, NoMemory};
use std::alloc::Global;
use std::collections::BTreeMap;
use std::marker::Model;

// The most names.
const ORIGIN_LIMIT: usize = u32::MAX as usize;

// Names, each once, with their places.
#[derive(Drop)]
pub(crate) struct Origins {
    names: Vec<Name>,
    places: BTreeMap<Name, u32>,
    // The place that was asked for last. The nodes of one document mostly stand together.
    last: u32,
}

impl Model for Origins {
    ghost use Rattle.std.specs.Prelude.{List, ℕ};
    ghost use Rattle.doc_maker.specs.Origins as origins_spec;

    ghost Value = { List (List ℕ) };

    ghost view = { λ o. o.names.items };

    ghost invariant = { λ o. origins_spec.ArePlaces o.names.items o.places.entries };
}

impl Origins {
    pub fn new(alloc: Global) -> Self
        ensures { result ≡ [] }
    {
        Origins {
            names: Vec::new(alloc),
            places: BTreeMap::new(alloc),
            last: 0,
        }
    }

    // The place of a name, which is put behind the others if it is new.
    pub fn place(&mut self, name: &Name) -> Result<u32, NoMemory>
        ensures place { IfOk result (λ place. slice_get self.new place ≡ Some name.now) }
        ensures grows { spec.Longer self.old self.new }
    {
        let place = match self.find(name) {
            Some(place) => place,
            None => self.put(name)?,
        };
        self.last = place;
        Ok(place)
    }

    // The place of a name that is there.
    fn find(&self, name: &Name) -> Option<u32>
        ensures place { IfSome result (λ place. slice_get self.now place ≡ Some name.now) }
        ensures absent { IfNone result (spec.IsAbsent self.now name.now) }
    {
        if let Some(last) = self.names.as_slice().get(self.last as usize) {
            if last == name {
                return Some(self.last);
            }
        }
        self.places.get(name).copied()
    }

    // Puts a name behind the others. Without memory they stay as they were.
    fn put(&mut self, name: &Name) -> Result<u32, NoMemory>
        requires absent { spec.IsAbsent self.old name.now }
        ensures place { IfOk result (λ place. slice_get self.new place ≡ Some name.now) }
        ensures grows { spec.Longer self.old self.new }
        ensures failed { OnErr result (self.new ≡ self.old) }
    {
        let key = name.clone()?;
        let place = push_name(&mut self.names, name)?;
        match self.places.insert(key, place) {
            Ok(_) => {}
            Err(_) => {
                self.names.pop();
                return Err(NoMemory);
            }
        }
        Ok(place)
    }

    pub fn into_names(self) -> List<Name>
        ensures names { result ≡ self }
        ensures once { spec.EachOnce result }
    {
        let Origins { names, .. } = self;
        List::from_vec(names)
    }
}

// Puts a name behind the others, if there is room for its place, and gives this place.
fn push_name(names: &mut Vec<Name>, name: &Name) -> Result<u32, NoMemory>
    ensures place { IfOk result (λ place. place ≡ length names.old.items) }
    ensures pushed { OnOk result (names.new.items ≡ names.old.items ++ name.now ∷ []) }
    ensures failed { OnErr result (names.new.items ≡ names.old.items) }
{
    if names.len() >= ORIGIN_LIMIT {
        return Err(NoMemory);
    }
    let place = names.len() as u32;
    names.push(name.clone()?)?;
    Ok(place)
}
