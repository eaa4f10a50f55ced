//! The documents that a map uses, and what each is.

ghost use Rattle.std.specs.Prelude.{◌≡◌, [], ◌∷◌, IfOk};
ghost use Rattle.map_spec.specs.Titles as titles_spec;
ghost use Rattle.page_names.specs.Used as spec;
ghost use Rattle.reader_spec.specs.World.{World};
ghost use Rattle.readers.specs.Documents as documents_spec;
ghost use Rattle.readers.specs.Documents.{AsksOnly};
ghost use Rattle.readers.specs.Founded.{Grows, StaysFounded};
ghost use Rattle.readers.specs.Told.{Agrees};

use dita_doc::{DocKind, List, Name, NoMemory};
use readers::Titles;
use std::alloc::Global;
use std::collections::BTreeMap;

/// The documents that are used, in the order of their first uses, and what each is.
#[derive(Drop)]
pub(crate) struct Documents {
    pub names: List<Name>,
    kinds: BTreeMap<Name, DocKind>,
}

impl Documents {
    pub(crate) fn new(alloc: Global) -> Documents
        ensures { (world : World) → spec.AreUsed world [] result }
    {
        Documents {
            names: List::new(alloc),
            kinds: BTreeMap::new(alloc),
        }
    }

    /// What a document is; each is asked for once, and put behind the documents that are used.
    #[tactic(auto, using(readers::proofs::Rules::walking))]
    pub(crate) fn kind<T: Titles>(
        &mut self,
        alloc: Global,
        asker: &mut T,
        name: &Name,
    ) -> Result<DocKind, NoMemory>
        ensures known { (world : World) (names : spec.Texts) → Agrees world (T.told asker.new)
            → spec.AreUsed world names self.old → IfOk result (λ kind.
            spec.IsKindOf world names name.now kind self.new) }
        ensures stand { T.stand asker.new ≡ T.stand asker.old }
        ensures founded { StaysFounded (name.now ∷ []) (T.told asker.old) (T.told asker.new) }
        ensures asks { AsksOnly documents_spec.nothing [] (T.told asker.old) (T.told asker.new) }
        ensures grows { Grows (T.told asker.old) (T.told asker.new) }
    {
        if let Some(kind) = self.kinds.get(name) {
            return Ok(*kind);
        }
        let kind = asker.kind(alloc, name)?;
        let _ = self.kinds.insert(name.clone()?, kind)?;
        self.names.push(name.clone()?)?;
        Ok(kind)
    }
}
