//! What is stored: names with their versions, bytes and documents.

ghost use Rattle.std.specs.Prelude.{◌≡◌, [], ◌∷◌, Ok, length, IfOk, IfSome, OnErr, OnOk, option_map};
ghost use Rattle.std.specs.Arc.{arc_value};
ghost use Rattle.dita_doc.specs.Pyx as pyx_spec;

use crate::block::Block;
use crate::blocks::{block_for, put_among, remove_among};
use crate::doc::Doc;
use crate::list::List;
use crate::name::Name;
use crate::sources_iter::SourcesIter;
use std::alloc::{AllocError, Global};
use std::marker::Model;
use std::sync::Arc;

/// A stored document: the bytes as they were put, and the document that they are.
#[derive(Drop)]
pub struct StoredDoc {
    pub name: Name,
    /// The place of the entry that stored it, plus 1.
    pub version: u64,
    pub bytes: Arc<List<u8>>,
    pub doc: Arc<Doc>,
    pub ghost reading: { pyx_spec.nodes_or_fault (pyx_spec.document_of (arc_value bytes))
        ≡ Ok (arc_value doc).nodes },
    pub ghost origin: { (arc_value doc).origins ≡ name ∷ [] },
}

/// A copy shares the name, the bytes and the document.
impl Clone for StoredDoc {
    ghost use Rattle.std.specs.Prelude.{◌≡◌};
    ghost use Rattle.dita_doc.specs.Sources as sources_spec;

    ghost is_clone = { λ document copy.
        sources_spec.document_seen copy ≡ sources_spec.document_seen document };

    fn clone(&self) -> Result<StoredDoc, AllocError> {
        Ok(StoredDoc {
            name: self.name.clone()?,
            version: self.version,
            bytes: Arc::try_clone(&self.bytes)?,
            doc: Arc::try_clone(&self.doc)?,
        })
    }
}

/// The documents that are stored, by the bytes of their names, each name once. They stand in blocks
/// that copies share: a copy copies the list of blocks, an edit the block that it changes if another
/// has a share of it, and a put cuts a full block into two halves.
#[derive(Drop)]
pub struct Sources {
    blocks: Vec<Arc<Block>>,
    // How many documents the blocks have.
    count: u64,
}

impl Model for Sources {
    ghost use Rattle.dita_doc.specs.Desk as desk_spec;
    ghost use Rattle.dita_doc.specs.Sources as sources_spec;

    ghost Value = { desk_spec.State };

    ghost view = { λ sources. sources_spec.all_stored sources.blocks.items };

    ghost invariant = { λ sources.
        sources_spec.AreSources sources.count (sources_spec.all_stored sources.blocks.items) };
}

impl Sources {
    ghost use Rattle.dita_doc.specs.Sources as sources_spec;
    ghost use Rattle.dita_doc.specs.Desk as desk_spec;

    /// Nothing is stored.
    pub fn new(alloc: Global) -> Self
        ensures { result ≡ [] }
    {
        Sources {
            blocks: Vec::new(alloc),
            count: 0,
        }
    }

    /// The document that is stored under a name, with all that is kept of it.
    pub fn find(&self, name: &Name) -> Option<&StoredDoc>
        ensures { sources_spec.found_seen result ≡ desk_spec.stored_under self.now name.now }
    {
        if self.blocks.is_empty() {
            return None;
        }
        self.blocks[block_for(&self.blocks, name)].find(name)
    }

    /// The version that stands under a name, and the document that has it.
    pub fn get(&self, name: &Name) -> Option<(u64, &Arc<Doc>)>
        ensures value { sources_spec.got_seen result
            ≡ option_map sources_spec.version_and_nodes (desk_spec.stored_under self.now name.now) }
        ensures origin { IfSome result (λ pair. (arc_value pair.1.now).origins ≡ name.now ∷ []) }
    {
        let document = self.find(name)?;
        Some((document.version, &document.doc))
    }

    /// How many names are stored.
    pub fn names(&self) -> u64
        ensures { result ≡ length self.now }
    {
        self.count
    }

    /// All that is stored, by the bytes of the names.
    pub fn iter(&self) -> SourcesIter<'_>
        ensures value { result ≡ self.now }
        ensures sorted { desk_spec.IsSortedByName self.now }
    {
        SourcesIter::of(&self.blocks)
    }

    /// Stores a document in the place of what stands under its name. No text and no document is
    /// copied. Memory is taken for a new name, and for a block that is shared or full.
    pub fn put(&mut self, document: StoredDoc) -> Result<(), AllocError>
        ensures ok { OnOk result (self.new
            ≡ desk_spec.with_stored (sources_spec.document_seen document) self.old) }
        ensures err { OnErr result (self.new ≡ self.old) }
    {
        // So many documents are in no memory, but the proof does not know it.
        if self.count == u64::MAX {
            return Err(AllocError);
        }
        let is_new = put_among(&mut self.blocks, document)?;
        self.count += u64::from(is_new);
        Ok(())
    }

    /// Takes away what stands under a name, and answers its version. Memory is taken for a block
    /// that is shared.
    pub fn remove(&mut self, name: &Name) -> Result<Option<u64>, AllocError>
        ensures version { IfOk result (λ version. version
            ≡ option_map (λ stored. stored.version) (desk_spec.stored_under self.old name.now)) }
        ensures ok { OnOk result (self.new ≡ desk_spec.without_name name.now self.old) }
        ensures err { OnErr result (self.new ≡ self.old) }
    {
        let version = remove_among(&mut self.blocks, name)?;
        self.count -= u64::from(version.is_some());
        Ok(version)
    }
}

/// A copy shares the blocks.
impl Clone for Sources {
    ghost use Rattle.std.specs.Prelude.{◌≡◌};

    ghost is_clone = { λ sources copy. copy ≡ sources };

    fn clone(&self) -> Result<Sources, AllocError> {
        Ok(Sources {
            blocks: self.blocks.clone()?,
            count: self.count,
        })
    }
}
