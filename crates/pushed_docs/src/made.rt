//! A document with the pushes into it, by a reader that tells pushes and keeps what it made.

ghost use Rattle.std.specs.Prelude.{◌≡◌, ℕ, [], ◌∷◌, List, true, IfOk, OnOk};
ghost use Rattle.conref_push.specs.Table.{IsPushTable};
ghost use Rattle.map_spec.specs.Written as written_spec;
ghost use Rattle.map_spec.specs.Pushes as pushes_spec;
ghost use Rattle.pushed_docs.specs.Made.{IsKept};
ghost use Rattle.reader_spec.specs.World.{World};
ghost use Rattle.readers.specs.Documents as documents_spec;
ghost use Rattle.readers.specs.Documents.{AsksOnly, IsGiven};
ghost use Rattle.readers.specs.Founded.{Grows, StaysFounded};
ghost use Rattle.readers.specs.Named as named_spec;
ghost use Rattle.readers.specs.Only as only_spec;
ghost use Rattle.readers.specs.Only.{TellsOnly};
ghost use Rattle.readers.specs.Told as told_spec;
ghost use Rattle.readers.specs.Told.{Agrees};

use conref_push::{PushTable, ask_pushed, pushed};
use dita_doc::{Doc, Name, NoMemory, PushList};
use readers::Keys;
use std::alloc::Global;
use std::sync::Arc;

/// A reader that tells the pushes into documents, as `Asker` does, and need not make a document.
pub trait TellsPushes: Keys {
    fn tell_pushes(&mut self, alloc: Global, name: &Name) -> Result<PushList, NoMemory>
        ensures stand { Self.stand self.new ≡ Self.stand self.old }
        ensures told { IfOk result (λ answer. Self.told self.new
            ≡ told_spec.pushes (Self.stand self.old).setting.documents name.now answer
            ∷ Self.told self.old) }
        ensures founded { StaysFounded (name.now ∷ []) (Self.told self.old) (Self.told self.new) }
        ensures asks { AsksOnly documents_spec.nothing [] (Self.told self.old)
            (Self.told self.new) }
        ensures grows { Grows (Self.told self.old) (Self.told self.new) };
}

/// A reader that gives a document with the pushes that it tells, and makes it once.
pub trait GivesTouched: TellsPushes {
    fn touched(&mut self, alloc: Global, name: &Name) -> Result<Option<Arc<Doc>>, NoMemory>
        ensures known { (world : World) → Agrees world (Self.told self.new)
            → IfOk result (λ found. named_spec.named_found found
            ≡ pushes_spec.pushed world (Self.stand self.old).setting.documents name.now) }
        ensures given { IfOk result (λ found. IsGiven (Self.told self.new)
            (named_spec.named_found found)) }
        ensures stand { Self.stand self.new ≡ Self.stand self.old }
        ensures founded { StaysFounded (name.now ∷ []) (Self.told self.old) (Self.told self.new) }
        ensures asks { AsksOnly documents_spec.of_pushes (name.now ∷ []) (Self.told self.old)
            (Self.told self.new) }
        ensures only { (world : World) → Agrees world (Self.told self.new)
            → OnOk result (TellsOnly (only_spec.is_of_pushed world
            (Self.stand self.old).setting.documents name.now) (Self.told self.old)
            (Self.told self.new)) }
        ensures grows { Grows (Self.told self.old) (Self.told self.new) };

    /// Whether the pushes leave the document that was found under a name as it is, as far as the
    /// table tells. If so, it is its own pushed document in each world that has this document, and the
    /// pushes into it that the table has. No question is told.
    fn is_itself(
        &mut self,
        table: &PushTable,
        name: &Name,
        found: &Option<Arc<Doc>>,
    ) -> Result<bool, NoMemory>
        requires there { (Self.stand self.old).world name.now ≡ told_spec.tree_found found.now }
        ensures same { (world : World) (documents : List (List ℕ))
            → IsPushTable (Self.stand self.old).world documents table.now
            → pushes_spec.pushes_into world documents name.now
            ≡ pushes_spec.pushes_into (Self.stand self.old).world documents name.now
            → world name.now ≡ told_spec.tree_found found.now → IfOk result (λ itself. itself ≡ true
            → pushes_spec.pushed world documents name.now
            ≡ written_spec.document world name.now) }
        ensures stand { Self.stand self.new ≡ Self.stand self.old }
        ensures told { Self.told self.new ≡ Self.told self.old };
}

/// The document with the pushes into it, if it is stored. The pushes are told. It is shared if they
/// leave it as it is.
pub fn made_pushed<P: GivesTouched>(
    alloc: Global,
    asker: &mut P,
    table: &PushTable,
    name: &Name,
) -> Result<Option<Arc<Doc>>, NoMemory>
    requires tabled { IsPushTable (P.stand asker.old).world
        (P.stand asker.old).setting.documents table.now }
    ensures known { (world : World) → Agrees world (P.told asker.new)
        → IfOk result (λ found. named_spec.named_found found
        ≡ pushes_spec.pushed world (P.stand asker.old).setting.documents name.now) }
    ensures given { IfOk result (λ found. IsGiven (P.told asker.new)
        (named_spec.named_found found)) }
    ensures stand { P.stand asker.new ≡ P.stand asker.old }
    ensures founded { StaysFounded (name.now ∷ []) (P.told asker.old) (P.told asker.new) }
    ensures asks { AsksOnly documents_spec.of_pushes (name.now ∷ []) (P.told asker.old)
        (P.told asker.new) }
    ensures only { (world : World) → Agrees world (P.told asker.new)
        → OnOk result (TellsOnly (only_spec.is_of_pushed world
        (P.stand asker.old).setting.documents name.now) (P.told asker.old) (P.told asker.new)) }
    ensures grows { Grows (P.told asker.old) (P.told asker.new) }
{
    let found = asker.doc(alloc, name)?;
    if asker.is_itself(table, name, &found)? {
        asker.tell_pushes(alloc, name)?;
        return Ok(found);
    }
    asker.touched(alloc, name)
}

/// The document with the pushes that the reader tells.
pub fn with_pushes<P: TellsPushes>(
    alloc: Global,
    asker: &mut P,
    name: &Name,
) -> Result<Option<Arc<Doc>>, NoMemory>
    ensures known { (world : World) → Agrees world (P.told asker.new)
        → IfOk result (λ found. named_spec.named_found found
        ≡ pushes_spec.pushed world (P.stand asker.old).setting.documents name.now) }
    ensures given { IfOk result (λ found. IsGiven (P.told asker.new)
        (named_spec.named_found found)) }
    ensures stand { P.stand asker.new ≡ P.stand asker.old }
    ensures founded { StaysFounded (name.now ∷ []) (P.told asker.old) (P.told asker.new) }
    ensures asks { AsksOnly documents_spec.of_pushes (name.now ∷ []) (P.told asker.old)
        (P.told asker.new) }
    ensures only { (world : World) → Agrees world (P.told asker.new)
        → OnOk result (TellsOnly (only_spec.is_of_pushed world
        (P.stand asker.old).setting.documents name.now) (P.told asker.old) (P.told asker.new)) }
    ensures grows { Grows (P.told asker.old) (P.told asker.new) }
{
    let list = asker.tell_pushes(alloc, name)?;
    match pushed(alloc, asker, name, &list.pushes)? {
        Some(doc) => Ok(Some(Arc::new(alloc, doc)?)),
        None => Ok(None),
    }
}

/// The document that was kept, if it is that with the pushes. These are told, and all is asked for
/// that it is made of.
pub fn kept_pushed<P: TellsPushes>(
    alloc: Global,
    asker: &mut P,
    name: &Name,
    kept: Option<Arc<Doc>>,
) -> Result<Option<Arc<Doc>>, NoMemory>
    requires kept { IsKept (P.stand asker.old).world (P.stand asker.old).setting.documents
        name.now kept }
    ensures known { (world : World) → Agrees world (P.told asker.new)
        → IfOk result (λ found. named_spec.named_found found
        ≡ pushes_spec.pushed world (P.stand asker.old).setting.documents name.now) }
    ensures given { IfOk result (λ found. IsGiven (P.told asker.new)
        (named_spec.named_found found)) }
    ensures stand { P.stand asker.new ≡ P.stand asker.old }
    ensures founded { StaysFounded (name.now ∷ []) (P.told asker.old) (P.told asker.new) }
    ensures asks { AsksOnly documents_spec.of_pushes (name.now ∷ []) (P.told asker.old)
        (P.told asker.new) }
    ensures only { (world : World) → Agrees world (P.told asker.new)
        → OnOk result (TellsOnly (only_spec.is_of_pushed world
        (P.stand asker.old).setting.documents name.now) (P.told asker.old) (P.told asker.new)) }
    ensures grows { Grows (P.told asker.old) (P.told asker.new) }
{
    let list = asker.tell_pushes(alloc, name)?;
    ask_pushed(alloc, asker, name, &list.pushes)?;
    Ok(kept)
}
