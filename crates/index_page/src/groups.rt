//! The rows of a level by their first texts.

ghost use Rattle.std.specs.Prelude.{◌≡◌, ◌++◌, ℕ, List, IfOk, OnOk};
ghost use Rattle.std.specs.BTreeSet.{insert_key};
ghost use Rattle.std.specs.Map.{keys_of};
ghost use Rattle.dita_doc.specs.TextOrder.{text_cmp};
ghost use Rattle.index_page.specs.Groups as spec;
ghost use Rattle.index_page.specs.Rows as rows_spec;

use crate::rows::TermRow;
use dita_doc::{NoMemory, Text};
use std::alloc::Global;
use std::collections::BTreeMap;

// The rows by their first texts, without these.
pub(crate) fn grouped<'a>(
    alloc: Global,
    rows: &[TermRow<'a>],
) -> Result<BTreeMap<Text, Vec<TermRow<'a>>>, NoMemory>
    ensures { IfOk result (λ groups. spec.AreGroups groups.entries (rows_spec.entries_of rows.now)) }
{
    let mut groups = BTreeMap::new(alloc);
    for row in rows {
        let Some((text, path)) = row.path.split_first() else {
            continue;
        };
        let behind = TermRow {
            path,
            page: row.page,
        };
        put(alloc, &mut groups, text.clone()?, behind)?;
    }
    Ok(groups)
}

// Puts a row behind those of a text.
#[tactic(auto, using(crate::proofs::GroupLaws::keys_put))]
fn put<'a>(
    alloc: Global,
    groups: &mut BTreeMap<Text, Vec<TermRow<'a>>>,
    text: Text,
    row: TermRow<'a>,
) -> Result<(), NoMemory>
    ensures texts { OnOk result (keys_of groups.new.entries
        ≡ insert_key text_cmp (keys_of groups.old.entries) text) }
    ensures rows { OnOk result ((other : List ℕ) → spec.listed other groups.new.entries
        ≡ spec.listed other groups.old.entries ++ spec.if_there other text row.entry) }
{
    let rows = groups.entry(text)?.or_insert(Vec::new(alloc));
    rows.push(row)?;
    Ok(())
}
