//! The traits of readers: each call answers a question, and tells it with its answer.

ghost use Rattle.std.specs.Arc.{arc_value};
ghost use Rattle.std.specs.Prelude.{◌≡◌, [], ◌∷◌, List, IfOk, IfSome, OnOk};
ghost use Rattle.map_spec.specs.Pushes.{pushed};
ghost use Rattle.reader_spec.specs.World.{World};
ghost use Rattle.readers.specs.Documents as documents_spec;
ghost use Rattle.readers.specs.Documents.{AsksOnly, IsGiven};
ghost use Rattle.readers.specs.Founded as founded_spec;
ghost use Rattle.readers.specs.Founded.{Grows, StaysFounded};
ghost use Rattle.readers.specs.Named as named_spec;
ghost use Rattle.readers.specs.Only as only_spec;
ghost use Rattle.readers.specs.Only.{TellsOnly};
ghost use Rattle.readers.specs.Setting.{Stand};
ghost use Rattle.readers.specs.Told as told_spec;
ghost use Rattle.readers.specs.Told.{Told, Agrees};

use dita_doc::{Context, Doc, DocKind, KeyAnswer, Name, NoMemory, PushList, Text};
use std::alloc::Global;
use std::sync::Arc;

/// A reader of documents. It stands on a world, and what it was told only grows.
pub trait Reader {
    ghost stand: { Self → Stand };

    ghost told: { Self → List Told };

    /// The document that stands under a name, if one does.
    fn doc(&mut self, alloc: Global, name: &Name) -> Result<Option<Arc<Doc>>, NoMemory>
        ensures stand { stand self.new ≡ stand self.old }
        ensures told { IfOk result (λ found. told self.new
            ≡ told_spec.document name.now (told_spec.tree_found found) ∷ told self.old) }
        ensures origin { IfOk result (λ found. IfSome (told_spec.doc_of found)
            (λ doc. doc.origins ≡ name.now ∷ [])) }
        ensures founded { StaysFounded (name.now ∷ []) (told self.old) (told self.new) }
        ensures asks { AsksOnly documents_spec.nothing (name.now ∷ []) (told self.old)
            (told self.new) }
        ensures grows { Grows (told self.old) (told self.new) };

    ghost agrees: { (r : Self) → Agrees (stand r).world (told r) };
}

/// A reader that knows what documents are, and what they are called.
pub trait Titles: Reader {
    fn kind(&mut self, alloc: Global, name: &Name) -> Result<DocKind, NoMemory>
        ensures stand { Self.stand self.new ≡ Self.stand self.old }
        ensures told { IfOk result (λ answer. Self.told self.new
            ≡ told_spec.kind name.now answer ∷ Self.told self.old) }
        ensures founded { StaysFounded (name.now ∷ []) (Self.told self.old) (Self.told self.new) }
        ensures asks { AsksOnly documents_spec.nothing [] (Self.told self.old)
            (Self.told self.new) }
        ensures grows { Grows (Self.told self.old) (Self.told self.new) };

    /// The title of a topic of a document; the empty text names no topic.
    fn title(&mut self, alloc: Global, name: &Name, topic: &Text) -> Result<Text, NoMemory>
        ensures stand { Self.stand self.new ≡ Self.stand self.old }
        ensures told { IfOk result (λ text. Self.told self.new
            ≡ told_spec.title name.now topic.now text ∷ Self.told self.old) }
        ensures founded { StaysFounded (name.now ∷ []) (Self.told self.old) (Self.told self.new) }
        ensures asks { AsksOnly documents_spec.nothing [] (Self.told self.old)
            (Self.told self.new) }
        ensures grows { Grows (Self.told self.old) (Self.told self.new) };

    /// The id of a document's first topic; empty if there is none.
    fn first(&mut self, alloc: Global, name: &Name) -> Result<Text, NoMemory>
        ensures stand { Self.stand self.new ≡ Self.stand self.old }
        ensures told { IfOk result (λ id. Self.told self.new
            ≡ told_spec.first name.now id ∷ Self.told self.old) }
        ensures founded { StaysFounded (name.now ∷ []) (Self.told self.old) (Self.told self.new) }
        ensures asks { AsksOnly documents_spec.nothing [] (Self.told self.old)
            (Self.told self.new) }
        ensures grows { Grows (Self.told self.old) (Self.told self.new) };
}

/// A reader that was made for the nodes of a map, and knows their keys.
pub trait Keys: Titles {
    /// What a key gives in the scope of this place.
    fn key(&mut self, alloc: Global, scope: u32, key: &Text) -> Result<KeyAnswer, NoMemory>
        ensures stand { Self.stand self.new ≡ Self.stand self.old }
        ensures told { IfOk result (λ answer. Self.told self.new
            ≡ told_spec.key (Self.stand self.old).setting.nodes scope key.now answer
            ∷ Self.told self.old) }
        ensures founded { StaysFounded (founded_spec.homes (Self.stand self.old).setting.nodes)
            (Self.told self.old) (Self.told self.new) }
        ensures asks { AsksOnly documents_spec.nothing [] (Self.told self.old)
            (Self.told self.new) }
        ensures grows { Grows (Self.told self.old) (Self.told self.new) };
}

/// A reader that was made for a finished plan, and knows its pushes and its pages.
pub trait Asker: Keys {
    /// The pushes into a document, and the faults of those that stand in it.
    fn pushes(&mut self, alloc: Global, name: &Name) -> Result<PushList, NoMemory>
        ensures stand { Self.stand self.new ≡ Self.stand self.old }
        ensures told { IfOk result (λ answer. Self.told self.new
            ≡ told_spec.pushes (Self.stand self.old).setting.documents name.now answer
            ∷ Self.told self.old) }
        ensures founded { StaysFounded (name.now ∷ []) (Self.told self.old) (Self.told self.new) }
        ensures asks { AsksOnly documents_spec.nothing [] (Self.told self.old)
            (Self.told self.new) }
        ensures grows { Grows (Self.told self.old) (Self.told self.new) };

    /// The document with the pushes into it, if it stands there. Several questions are told: for it,
    /// for the pushes into it, and for the documents from which these come.
    fn pushed(&mut self, alloc: Global, name: &Name) -> Result<Option<Arc<Doc>>, NoMemory>
        ensures stand { Self.stand self.new ≡ Self.stand self.old }
        ensures known { (world : World) → Agrees world (Self.told self.new)
            → IfOk result (λ found. named_spec.named_found found
            ≡ pushed world (Self.stand self.old).setting.documents name.now) }
        ensures given { IfOk result (λ found. IsGiven (Self.told self.new)
            (named_spec.named_found found)) }
        ensures founded { StaysFounded (name.now ∷ []) (Self.told self.old) (Self.told self.new) }
        ensures asks { AsksOnly documents_spec.of_pushes (name.now ∷ []) (Self.told self.old)
            (Self.told self.new) }
        ensures only { (world : World) → Agrees world (Self.told self.new)
            → OnOk result (TellsOnly (only_spec.is_of_pushed world
            (Self.stand self.old).setting.documents name.now) (Self.told self.old)
            (Self.told self.new)) }
        ensures grows { Grows (Self.told self.old) (Self.told self.new) };

    /// The page of a document for a context: that of the same context, else the document's first.
    /// The question shares the context.
    fn page_of(
        &mut self,
        alloc: Global,
        name: &Name,
        context: &Arc<Context>,
    ) -> Result<Option<u32>, NoMemory>
        ensures stand { Self.stand self.new ≡ Self.stand self.old }
        ensures told { IfOk result (λ place. Self.told self.new
            ≡ told_spec.page_of (Self.stand self.old).setting.pages name.now
            (arc_value context.now) place ∷ Self.told self.old) }
        ensures founded { StaysFounded (name.now ∷ []) (Self.told self.old) (Self.told self.new) }
        ensures asks { AsksOnly documents_spec.nothing [] (Self.told self.old)
            (Self.told self.new) }
        ensures grows { Grows (Self.told self.old) (Self.told self.new) };
}
