//! A walk over stored documents, in their order.

ghost use Rattle.std.specs.Prelude.{◌≡◌};
ghost use Rattle.std.specs.Iterator.{YieldsFirstBy, item_count};

use crate::block::Block;
use crate::sources::StoredDoc;
use std::marker::Model;
use std::sync::Arc;

/// The documents of `Sources` by the bytes of their names, seen as those that are left.
#[derive(Drop)]
pub struct SourcesIter<'a> {
    // What is left of the block that was begun, and the blocks behind it.
    documents: &'a [StoredDoc],
    blocks: &'a [Arc<Block>],
}

impl<'a> Model for SourcesIter<'a> {
    ghost use Rattle.std.specs.Prelude.{◌++◌, map};
    ghost use Rattle.dita_doc.specs.Desk as desk_spec;
    ghost use Rattle.dita_doc.specs.Sources as sources_spec;

    ghost Value = { desk_spec.State };

    ghost view = { λ walk. map sources_spec.document_seen walk.documents.now
        ++ sources_spec.all_stored walk.blocks.now };
}

impl<'a> SourcesIter<'a> {
    ghost use Rattle.dita_doc.specs.Sources as sources_spec;

    /// The walk over all documents of some blocks.
    pub(crate) fn of(blocks: &'a [Arc<Block>]) -> SourcesIter<'a>
        ensures { result ≡ sources_spec.all_stored blocks.now }
    {
        SourcesIter {
            documents: &[],
            blocks,
        }
    }
}

impl<'a> Iterator for SourcesIter<'a> {
    ghost use Rattle.std.specs.Iterator.{YieldsFirstBy, item_count};
    ghost use Rattle.dita_doc.specs.Sources as sources_spec;

    type Item = &'a StoredDoc;

    ghost next_gives = { YieldsFirstBy (λ document. sources_spec.document_seen document.now) (λ rest. rest) };

    ghost remaining = { item_count (λ rest. rest) };

    fn next(&mut self) -> Option<&'a StoredDoc> {
        if self.documents.is_empty() {
            let (block, blocks) = self.blocks.split_first()?;
            self.documents = block.as_slice();
            self.blocks = blocks;
        }
        let (document, documents) = self.documents.split_first()?;
        self.documents = documents;
        Some(document)
    }
}
