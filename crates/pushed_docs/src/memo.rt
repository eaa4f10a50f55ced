//! Documents that were made with the pushes into them, each under its name.

ghost use Rattle.std.specs.Prelude.{◌≡◌, ℕ, List, Some, IfSome, OnOk};
ghost use Rattle.std.specs.Option.{option_copied};
ghost use Rattle.pushed_docs.specs.Made as made_spec;
ghost use Rattle.pushed_docs.specs.Made.{ArePushed, IsPushed};
ghost use Rattle.readers.specs.Told.{Told};

use dita_doc::{Doc, Name, NoMemory};
use std::alloc::Global;
use std::collections::BTreeMap;
use std::sync::Arc;

/// Documents with the pushes into them, by their names; none for a name under which none is stored.
#[derive(Drop)]
pub struct PushedMemo {
    docs: BTreeMap<Name, Option<Arc<Doc>>>,
}

impl PushedMemo {
    /// No document was made.
    pub fn new(alloc: Global) -> Self
        ensures { (told : List Told) (documents : List (List ℕ)) → ArePushed told documents result }
    {
        PushedMemo {
            docs: BTreeMap::new(alloc),
        }
    }

    /// The document of a name, if it was made.
    pub fn find(&self, name: &Name) -> Option<&Option<Arc<Doc>>>
        ensures value { option_copied result ≡ made_spec.under self.now.docs name.now }
        ensures made { (told : List Told) (documents : List (List ℕ))
            → ArePushed told documents self.now
            → IfSome result (λ found. IsPushed told documents name.now found.now) }
    {
        self.docs.get(name)
    }

    /// Puts the document of a name.
    pub fn put(&mut self, name: &Name, found: Option<Arc<Doc>>) -> Result<(), NoMemory>
        ensures made { (told : List Told) (documents : List (List ℕ))
            → ArePushed told documents self.old → IsPushed told documents name.now found
            → ArePushed told documents self.new }
        ensures ok { OnOk result (made_spec.under self.new.docs name.now ≡ Some found) }
    {
        let _ = self.docs.insert(name.clone()?, found)?;
        Ok(())
    }
}
