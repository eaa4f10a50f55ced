//! The elements that are pushed.

ghost use Rattle.std.specs.Prelude.{◌≡◌, ◌∷◌, ◌++◌, [], ℕ, List, IfOk, OnOk, IsTrue};
ghost use Rattle.std.specs.Option.{option_copied};
ghost use Rattle.conref_push.specs.Into as into_spec;
ghost use Rattle.conref_push.specs.Sources as spec;
ghost use Rattle.doc_elements.specs.Walk as walk_spec;
ghost use Rattle.map_spec.specs.Written as written_spec;
ghost use Rattle.reader_spec.specs.World.{World};
ghost use Rattle.readers.specs.Documents as documents_spec;
ghost use Rattle.readers.specs.Documents.{AsksOnly};
ghost use Rattle.readers.specs.Founded as founded_spec;
ghost use Rattle.readers.specs.Founded.{Grows, StaysFounded};
ghost use Rattle.readers.specs.Only as only_spec;
ghost use Rattle.readers.specs.Only.{TellsOnly};
ghost use Rattle.readers.specs.Told as told_spec;
ghost use Rattle.readers.specs.Told.{Agrees};

use dita_doc::{Doc, Name, NoMemory, Node, Push, Siblings};
use readers::Reader;
use std::alloc::Global;
use std::collections::BTreeMap;
use std::sync::Arc;

// The documents that pushes come from.
#[derive(Drop)]
pub(crate) struct PushSources {
    docs: BTreeMap<Name, Option<Arc<Doc>>>,
}

impl PushSources {
    // Asks for each of them once.
    #[tactic(auto, using(readers::proofs::Rules::walking))]
    pub fn of<R: Reader>(
        alloc: Global,
        reader: &mut R,
        pushes: &[Push],
    ) -> Result<PushSources, NoMemory>
        ensures known { (world : World) → Agrees world (R.told reader.new)
            → IfOk result (λ sources. spec.AreSources world (into_spec.froms pushes.now) sources) }
        ensures given { IfOk result (spec.AreGiven (R.told reader.new)) }
        ensures stand { R.stand reader.new ≡ R.stand reader.old }
        ensures founded { StaysFounded (into_spec.froms pushes.now) (R.told reader.old)
            (R.told reader.new) }
        ensures asks { AsksOnly documents_spec.nothing (into_spec.froms pushes.now)
            (R.told reader.old) (R.told reader.new) }
        ensures only { OnOk result (TellsOnly
            (only_spec.is_document_of (into_spec.froms pushes.now)) (R.told reader.old)
            (R.told reader.new)) }
        ensures grows { Grows (R.told reader.old) (R.told reader.new) }
    {
        let mut sources = PushSources {
            docs: BTreeMap::new(alloc),
        };
        for push in pushes {
            sources.ask(alloc, reader, &push.from)?;
        }
        Ok(sources)
    }

    // Asks for one of them, unless it was asked for.
    #[tactic(auto, using(readers::proofs::Rules::walking))]
    fn ask<R: Reader>(&mut self, alloc: Global, reader: &mut R, name: &Name) -> Result<(), NoMemory>
        ensures known { (world : World) (names : List (List ℕ)) → Agrees world (R.told reader.new)
            → spec.AreSources world names self.old
            → OnOk result (spec.AreSources world (names ++ name.now ∷ []) self.new) }
        ensures given { spec.AreGiven (R.told reader.old) self.old
            → OnOk result (spec.AreGiven (R.told reader.new) self.new) }
        ensures stand { R.stand reader.new ≡ R.stand reader.old }
        ensures founded { StaysFounded (name.now ∷ []) (R.told reader.old) (R.told reader.new) }
        ensures asks { AsksOnly documents_spec.nothing (name.now ∷ []) (R.told reader.old)
            (R.told reader.new) }
        ensures only { OnOk result (TellsOnly (only_spec.is_document_of (name.now ∷ []))
            (R.told reader.old) (R.told reader.new)) }
        ensures grows { Grows (R.told reader.old) (R.told reader.new) }
    {
        if self.docs.contains_key(name) {
            return Ok(());
        }
        let doc = reader.doc(alloc, name)?;
        self.docs.insert(name.clone()?, doc)?;
        Ok(())
    }

    // The element that is pushed, and what it holds, if it is there.
    pub fn element(&self, push: &Push) -> Option<(&Node, Siblings<'_>)>
        ensures { (world : World) (names : List (List ℕ)) → spec.AreSources world names self.now
            → IsTrue (founded_spec.is_among names push.now.from)
            → walk_spec.found_in push.now.from result
            ≡ written_spec.element_in world push.now.from push.now.place }
    {
        match self.doc(&push.from) {
            Some(doc) => Siblings::element_at(doc, push.place),
            None => None,
        }
    }

    // The document of a name, if one stands there.
    fn doc(&self, name: &Name) -> Option<&Arc<Doc>>
        ensures { (world : World) (names : List (List ℕ)) → spec.AreSources world names self.now
            → IsTrue (founded_spec.is_among names name.now)
            → told_spec.tree_found (option_copied result) ≡ world name.now }
    {
        match self.docs.get(name) {
            Some(found) => found.as_ref(),
            None => None,
        }
    }
}
