//! The table of a plan's pages.

ghost use Rattle.std.specs.Prelude.{◌≡◌, ◌++◌, ◌||◌, [], ◌∷◌, ℕ, List, Some, length, is_some, not, IfOk, OnOk, if◌then◌else◌};
ghost use Rattle.std.specs.BTreeMap as tree;
ghost use Rattle.std.specs.Cmp.Lexicographic.{slice_cmp};
ghost use Rattle.std.specs.Ordering.{nat_cmp};
ghost use Rattle.dita_doc.specs.declared.plan.PagePlan as page_plan_spec;
ghost use Rattle.map_spec.specs.Pages as pages_spec;
ghost use Rattle.page_table.specs.Pages as spec;

use crate::keys::{PageKey, key_of};
use dita_doc::{Name, NoMemory, PageId, PagePlan};
use plan_nodes::place_of;
use std::alloc::Global;
use std::collections::BTreeMap;
use std::collections::btree_map::Entry;

// The first page of a document, and whether it has no other.
#[derive(Clone, Copy)]
struct DocPages {
    first: u32,
    alone: bool,
}

/// The pages of a plan: the first of each document, and each by what sets it apart.
#[derive(Drop)]
pub struct PageTable {
    docs: BTreeMap<Name, DocPages>,
    pages: BTreeMap<PageKey, u32>,
}

impl PageTable {
    /// The table of pages in their order.
    pub fn of(alloc: Global, pages: &[PagePlan]) -> Result<PageTable, NoMemory>
        ensures { IfOk result (λ table. spec.IsPageTable pages.now table) }
    {
        let mut table = PageTable::new(alloc);
        for (index, page) in pages.iter().enumerate() {
            table.put(alloc, index, page)?;
        }
        Ok(table)
    }

    fn new(alloc: Global) -> PageTable
        ensures { spec.IsPageTable [] result }
    {
        PageTable {
            docs: BTreeMap::new(alloc),
            pages: BTreeMap::new(alloc),
        }
    }

    // Puts a page behind those that are there.
    fn put(&mut self, alloc: Global, index: usize, page: &PagePlan) -> Result<(), NoMemory>
        ensures { (pages : List page_plan_spec.PagePlan) → length pages ≡ index
            → spec.IsPageTable pages self.old
            → OnOk result (spec.IsPageTable (pages ++ page.now ∷ []) self.new) }
    {
        let place = place_of(index)?;
        let key = key_of(alloc, &page.id.doc, &page.id)?;
        let doc = self.put_doc(page.id.doc.clone()?, place)?;
        if self.is_fresh(doc, &key) {
            self.pages.insert(key, place)?;
        }
        Ok(())
    }

    // Whether no page has this key. A document that is new has no page, so that none is looked for.
    fn is_fresh(&self, doc: DocPages, key: &PageKey) -> bool
        ensures { result ≡ (doc.alone || not (is_some (spec.page_at self.now key.now))) }
    {
        doc.alone || !self.pages.contains_key(key)
    }

    // Notes that a document has one more page, at this place, and gives its first page.
    fn put_doc(&mut self, name: Name, place: u32) -> Result<DocPages, NoMemory>
        ensures doc { IfOk result (λ doc. doc
            ≡ spec.doc_with (spec.doc_in self.old name) place) }
        ensures docs { IfOk result (λ doc. (other : List ℕ) → spec.doc_in self.new other
            ≡ (if tree.is_at (slice_cmp nat_cmp name) other then Some doc
            else spec.doc_in self.old other)) }
        ensures pages { self.new.pages ≡ self.old.pages }
    {
        match self.docs.entry(name)? {
            Entry::Occupied(known) => {
                let doc = known.into_mut();
                doc.alone = false;
                Ok(*doc)
            }
            Entry::Vacant(absent) => {
                let doc = absent.insert(DocPages {
                    first: place,
                    alone: true,
                });
                Ok(*doc)
            }
        }
    }

    /// The place of the page of a document whose scope, filters and affixes are those of another
    /// page; else of the first page of the document, if it has one.
    pub fn find(&self, alloc: Global, doc: &Name, context: &PageId) -> Result<Option<u32>, NoMemory>
        ensures { (pages : List page_plan_spec.PagePlan) → spec.IsPageTable pages self.now
            → IfOk result (λ place. place ≡ pages_spec.page_for pages doc.now context.now) }
    {
        let Some(found) = self.docs.get(doc) else {
            return Ok(None);
        };
        // A page that is alone is the first in any case.
        if found.alone {
            return Ok(Some(found.first));
        }
        let key = key_of(alloc, doc, context)?;
        match self.pages.get(&key) {
            Some(place) => Ok(Some(*place)),
            None => Ok(Some(found.first)),
        }
    }
}
