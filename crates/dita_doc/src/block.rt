//! A block of stored documents: the unit that is shared and copied.

ghost use Rattle.std.specs.Prelude.{◌≡◌, ◌∷◌, [], ◌++◌, ◌+◌, ◌<◌, length, IfOk, IfErr, OnErr, OnOk, is_some, map, option_map, if◌then◌else◌};

use crate::name::Name;
use crate::sources::StoredDoc;
use std::alloc::{AllocError, Global};
use std::marker::Model;

/// How many documents a block may have.
pub const BLOCK_LIMIT: usize = 128;

/// Stored documents that follow one another, by the bytes of their names: at least one.
#[derive(Drop)]
pub struct Block {
    documents: Vec<StoredDoc>,
}

impl Model for Block {
    ghost use Rattle.std.specs.Prelude.{map};
    ghost use Rattle.dita_doc.specs.Desk as desk_spec;
    ghost use Rattle.dita_doc.specs.Sources as sources_spec;

    ghost Value = { desk_spec.State };

    ghost view = { λ block. map sources_spec.document_seen block.documents.items };

    ghost invariant = { λ block.
        sources_spec.IsBlock (map sources_spec.document_seen block.documents.items) };
}

impl Block {
    ghost use Rattle.dita_doc.specs.Sources as sources_spec;
    ghost use Rattle.dita_doc.specs.Desk as desk_spec;

    /// The block of one document.
    pub fn of(alloc: Global, document: StoredDoc) -> Result<Block, AllocError>
        ensures { IfOk result (λ block. block ≡ sources_spec.document_seen document ∷ []) }
    {
        let mut documents = Vec::new(alloc);
        documents.push(document)?;
        Ok(Block { documents })
    }

    /// The document that is stored under a name.
    pub fn find(&self, name: &Name) -> Option<&StoredDoc>
        ensures { sources_spec.found_seen result ≡ desk_spec.stored_under self.now name.now }
    {
        match self.position(name) {
            Ok(at) => Some(&self.documents[at]),
            Err(_) => None,
        }
    }

    /// Whether the first name is above this one.
    pub fn begins_above(&self, name: &Name) -> bool
        ensures value { result ≡ sources_spec.begins_above name.now self.now }
        ensures some { 0 < length self.now }
    {
        self.documents[0].name.cmp(name).is_gt()
    }

    /// How many documents it has.
    pub fn len(&self) -> usize
        ensures { result ≡ length self.now }
    {
        self.documents.len()
    }

    /// All that it has, by the bytes of the names.
    pub fn as_slice(&self) -> &[StoredDoc]
        ensures value { map sources_spec.document_seen result.now ≡ self.now }
        ensures some { 0 < length result.now }
    {
        &self.documents
    }

    /// Stores a document in the place of what stands under its name, and answers whether the name
    /// is new.
    pub fn put(&mut self, document: StoredDoc) -> Result<bool, AllocError>
        requires { length self.old < sources_spec.block_limit }
        ensures ok { OnOk result (self.new
            ≡ desk_spec.with_stored (sources_spec.document_seen document) self.old) }
        ensures err { OnErr result (self.new ≡ self.old) }
        ensures count { IfOk result (λ is_new. length self.new
            ≡ length self.old + (if is_new then 1 else 0)) }
    {
        match self.position(&document.name) {
            Ok(at) => {
                self.documents[at] = document;
                Ok(false)
            }
            Err(at) => {
                self.documents.insert(at, document)?;
                Ok(true)
            }
        }
    }

    /// Takes away what stands under a name, if it is not the last document.
    pub fn remove(&mut self, name: &Name) -> Option<u64>
        requires { 1 < length self.old }
        ensures version { result
            ≡ option_map (λ stored. stored.version) (desk_spec.stored_under self.old name.now) }
        ensures after { self.new ≡ desk_spec.without_name name.now self.old }
        ensures count { length self.new + (if is_some result then 1 else 0) ≡ length self.old }
    {
        match self.position(name) {
            Ok(at) => Some(self.documents.remove(at).version),
            Err(_) => None,
        }
    }

    /// Copies of the first half and of the second one.
    pub fn halves(&self) -> Result<(Block, Block), AllocError>
        requires { 1 < length self.now }
        ensures whole { IfOk result (λ halves. halves.0 ++ halves.1 ≡ self.now) }
        ensures room { IfOk result (λ halves. (length halves.0 < sources_spec.block_limit)
            × (length halves.1 < sources_spec.block_limit)) }
    {
        let mut front = self.documents.clone()?;
        let back = front.split_off(front.len() / 2)?;
        Ok((Block { documents: front }, Block { documents: back }))
    }

    // Where the name is, or where it would go.
    fn position(&self, name: &Name) -> Result<usize, usize>
        ensures found { IfOk result (sources_spec.IsAt self.now name.now) }
        ensures absent { IfErr result (sources_spec.IsGapFor self.now name.now) }
    {
        self.documents
            .binary_search_by(|document| document.name.cmp(name))
    }
}

/// A copy shares the names, bytes and documents.
impl Clone for Block {
    ghost use Rattle.std.specs.Prelude.{◌≡◌};

    ghost is_clone = { λ block copy. copy ≡ block };

    fn clone(&self) -> Result<Block, AllocError> {
        Ok(Block {
            documents: self.documents.clone()?,
        })
    }
}
