//! What sets pages apart, in an order.

ghost use Rattle.std.specs.Prelude.{◌≡◌, IfOk};
ghost use Rattle.page_table.specs.Pages as spec;

use dita_doc::{List, Name, PageId, Text};
use plan_nodes::{affix_texts, copy_names};
use std::alloc::{AllocError, Global};

// What sets pages of a document apart, and the document, which the pages of one document share; the
// prefixes and suffixes stand in turn.
#[derive(PartialEq, Eq, PartialOrd, Ord, Drop)]
pub(crate) struct PageKey {
    scope: u32,
    filters: List<Name>,
    affixes: List<Text>,
    doc: Name,
}

// The key of the page of a document that is set apart as this page is.
pub(crate) fn key_of(alloc: Global, doc: &Name, page: &PageId) -> Result<PageKey, AllocError>
    ensures { IfOk result (λ key. key ≡ spec.key_of doc.now page.now) }
{
    Ok(PageKey {
        scope: page.scope,
        filters: copy_names(alloc, page.filters.as_slice())?,
        affixes: affix_texts(alloc, page.affixes.as_slice())?,
        doc: doc.clone()?,
    })
}
