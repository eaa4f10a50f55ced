//! What outlives the questions for which it was found: documents with the pushes into them, and the
//! names of those of which no element acts.

ghost use Rattle.std.specs.Prelude.{◌≡◌, ℕ, List, Some, IfSome, IsTrue, OnOk, false};
ghost use Rattle.std.specs.Option.{option_copied};
ghost use Rattle.conref_push.specs.Acting as acting_spec;
ghost use Rattle.pushed_docs.specs.Made as made_spec;
ghost use Rattle.pushed_docs.specs.Made.{AreKept, IsKept};
ghost use Rattle.reader_spec.specs.World.{World};

use dita_doc::{Doc, Name, NoMemory};
use std::alloc::Global;
use std::collections::{BTreeMap, BTreeSet};
use std::sync::Arc;

/// Documents with the pushes of a plan's documents into them, by their names; none for a name under
/// which none is stored. Beside them the names of documents of which it was seen that no element
/// acts.
#[derive(Drop)]
pub struct PushedDocs {
    docs: BTreeMap<Name, Option<Arc<Doc>>>,
    quiet: BTreeSet<Name>,
}

impl PushedDocs {
    /// Nothing is kept.
    pub fn new(alloc: Global) -> Self
        ensures { (world : World) (documents : List (List ℕ)) → AreKept world documents result }
    {
        PushedDocs {
            docs: BTreeMap::new(alloc),
            quiet: BTreeSet::new(alloc),
        }
    }

    /// The document of a name, if it is kept.
    pub fn find(&self, name: &Name) -> Option<&Option<Arc<Doc>>>
        ensures value { option_copied result ≡ made_spec.under self.now.docs name.now }
        ensures kept { (world : World) (documents : List (List ℕ))
            → AreKept world documents self.now
            → IfSome result (λ found. IsKept world documents name.now found.now) }
    {
        self.docs.get(name)
    }

    /// Puts the document of a name.
    pub fn put(&mut self, name: &Name, found: Option<Arc<Doc>>) -> Result<(), NoMemory>
        ensures kept { (world : World) (documents : List (List ℕ))
            → AreKept world documents self.old → IsKept world documents name.now found
            → AreKept world documents self.new }
        ensures ok { OnOk result (made_spec.under self.new.docs name.now ≡ Some found) }
    {
        let _ = self.docs.insert(name.clone()?, found)?;
        Ok(())
    }

    /// Whether it was seen that no element of the document of this name acts.
    pub fn is_without_conaction(&self, name: &Name) -> bool
        ensures value { result ≡ made_spec.is_without_conaction self.now.quiet name.now }
        ensures quiet { (world : World) (documents : List (List ℕ))
            → AreKept world documents self.now → IsTrue result
            → acting_spec.has_conaction_in world name.now ≡ false }
    {
        self.quiet.contains(name)
    }

    /// Puts the name of a document of which no element acts.
    pub fn put_quiet(&mut self, name: &Name) -> Result<(), NoMemory>
        ensures kept { (world : World) (documents : List (List ℕ))
            → AreKept world documents self.old → acting_spec.has_conaction_in world name.now ≡ false
            → AreKept world documents self.new }
        ensures ok { OnOk result (IsTrue (made_spec.is_without_conaction self.new.quiet name.now)) }
    {
        let _ = self.quiet.insert(name.clone()?)?;
        Ok(())
    }
}
