//! The links of a page, each href once.

ghost use Rattle.std.specs.Prelude.{◌≡◌, IfOk};
ghost use Rattle.part_spec.specs.Parts as parts_spec;

use dita_doc::{List, PageLink};
use std::alloc::{AllocError, Global};
use std::collections::BTreeSet;

/// The links without those whose href an earlier one has.
pub(crate) fn hrefs_once(alloc: Global, links: List<PageLink>) -> Result<List<PageLink>, AllocError>
    ensures { IfOk result (λ once. once ≡ parts_spec.hrefs_once links) }
{
    let mut seen = BTreeSet::new(alloc);
    let mut once = List::new(alloc);
    for link in links.into_vec() {
        if seen.insert(link.href.clone()?)? {
            once.push(link)?;
        }
    }
    Ok(once)
}
