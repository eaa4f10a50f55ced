//! What a document is, its title and its first topic, also if there is no document.

ghost use Rattle.std.specs.Prelude.{◌≡◌, ℕ, [], List, IfOk, option_map};
ghost use Rattle.std.specs.Option.{option_map_or};
ghost use Rattle.dita_doc.specs.declared.question.DocKind.TheVariants as kinds;
ghost use Rattle.map_spec.specs.Titles as titles_spec;
ghost use Rattle.map_spec.specs.Written.{written_in};
ghost use Rattle.readers.specs.Told.{tree_found};

use dita_doc::{Doc, DocKind, Name, NoMemory, Text};
use doc_titles::{first_of, kind_of, title_of};
use std::alloc::Global;
use std::sync::Arc;

pub(crate) fn kind_found(found: &Option<Arc<Doc>>) -> DocKind
    ensures { (name : List ℕ) → option_map_or titles_spec.kind_of_document
        (option_map (written_in name) (tree_found found.now)) kinds.Absent ≡ result }
{
    match found {
        Some(doc) => kind_of(doc),
        None => DocKind::Absent,
    }
}

pub(crate) fn title_found(
    alloc: Global,
    found: &Option<Arc<Doc>>,
    name: &Name,
    topic: &Text,
) -> Result<Text, NoMemory>
    ensures { IfOk result (λ text. option_map_or
        (titles_spec.title_of_document name.now topic.now)
        (option_map (written_in name.now) (tree_found found.now)) name.now ≡ text) }
{
    match found {
        Some(doc) => title_of(alloc, doc, name, topic),
        None => Ok(Text::from_str(alloc, name.as_str())?),
    }
}

pub(crate) fn first_found(alloc: Global, found: &Option<Arc<Doc>>) -> Result<Text, NoMemory>
    ensures { (name : List ℕ) → IfOk result (λ id. option_map_or titles_spec.first_of_document
        (option_map (written_in name) (tree_found found.now)) [] ≡ id) }
{
    match found {
        Some(doc) => first_of(alloc, doc),
        None => Ok(Text::new(alloc)),
    }
}
