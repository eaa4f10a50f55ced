//! The text of a key.

ghost use Rattle.std.specs.Prelude.{◌≡◌, ℕ, [], List, codes, map, IfOk, OnOk};
ghost use Rattle.std.specs.Option.{option_to_list};
ghost use Rattle.map_spec.specs.Keys as keys_spec;
ghost use Rattle.map_spec.specs.Elements as elements_spec;
ghost use Rattle.map_spec.specs.Pages as pages_spec;
ghost use Rattle.map_spec.specs.Titles as titles_spec;
ghost use Rattle.reader_spec.specs.World.{World};
ghost use Rattle.readers.specs.Documents as documents_spec;
ghost use Rattle.readers.specs.Documents.{AsksOnly};
ghost use Rattle.readers.specs.Founded.{Grows, StaysFounded};
ghost use Rattle.readers.specs.Only as only_spec;
ghost use Rattle.readers.specs.Only.{TellsOnly};
ghost use Rattle.readers.specs.Told.{Agrees};
ghost use Rattle.doc_elements.specs.Walk as walk_spec;
ghost use Rattle.key_answers.specs.Seen as spec;

use crate::defined::Defined;
use dita_doc::{NoMemory, Siblings, Target, Text};
use doc_elements::{first_under, plain_text};
use readers::Titles;
use std::alloc::{AllocError, Global};

/// The first text, that is not empty, of the definitions that were met, else the title of a target
/// that is a topic; the empty text if there is none.
pub(crate) fn label_of<T: Titles>(
    alloc: Global,
    asker: &mut T,
    defined: Defined<'_>,
    met: &[u32],
    target: &Target,
) -> Result<Text, NoMemory>
    ensures known { (world : World) → Agrees world (T.told asker.new)
        → spec.AreOf world defined.entry
        → IfOk result (λ label. label ≡ titles_spec.first_text (spec.texts_with
        world defined.entry.nodes.now met.now target.now)) }
    ensures stand { T.stand asker.new ≡ T.stand asker.old }
    ensures founded { StaysFounded (option_to_list (pages_spec.local_name target.now))
        (T.told asker.old) (T.told asker.new) }
    ensures asks { AsksOnly documents_spec.nothing [] (T.told asker.old) (T.told asker.new) }
    ensures only { OnOk result (TellsOnly (only_spec.is_title_at target.now) (T.told asker.old)
        (T.told asker.new)) }
    ensures grows { Grows (T.told asker.old) (T.told asker.new) }
{
    let own = own_text(alloc, defined, met)?;
    if !own.is_empty() {
        return Ok(own);
    }
    title_of(alloc, asker, target)
}

// The title of a target that is a topic, else the empty text.
fn title_of<T: Titles>(alloc: Global, asker: &mut T, target: &Target) -> Result<Text, NoMemory>
    ensures known { (world : World) → Agrees world (T.told asker.new)
        → IfOk result (λ title. title ≡ keys_spec.title_of_target world target.now) }
    ensures stand { T.stand asker.new ≡ T.stand asker.old }
    ensures founded { StaysFounded (option_to_list (pages_spec.local_name target.now))
        (T.told asker.old) (T.told asker.new) }
    ensures asks { AsksOnly documents_spec.nothing [] (T.told asker.old) (T.told asker.new) }
    ensures only { OnOk result (TellsOnly (only_spec.is_title_at target.now) (T.told asker.old)
        (T.told asker.new)) }
    ensures grows { Grows (T.told asker.old) (T.told asker.new) }
{
    match target {
        Target::Local(name, reference) => asker.title(alloc, name, &reference.topic),
        _ => Ok(Text::new(alloc)),
    }
}

// The first text, that is not empty, of the definitions that were met; else the empty text.
fn own_text(alloc: Global, defined: Defined<'_>, met: &[u32]) -> Result<Text, AllocError>
    ensures { IfOk result (λ text. text
        ≡ titles_spec.first_text (map (spec.text_seen defined.entry.homes.now) met.now)) }
{
    for at in met {
        let text = text_of(alloc, defined, *at)?;
        if !text.is_empty() {
            return Ok(text);
        }
    }
    Ok(Text::new(alloc))
}

// The text that a definition has itself: that of its keyword, its link text or its navigation
// title, else of its attribute `navtitle`; the empty text if it has none.
fn text_of(alloc: Global, defined: Defined<'_>, at: u32) -> Result<Text, AllocError>
    ensures { IfOk result (λ text. text ≡ spec.text_seen defined.entry.homes.now at) }
{
    let Some((element, inside)) = defined.homes.whole(at as usize) else {
        return Ok(Text::new(alloc));
    };
    let text = metadata_text(alloc, inside)?;
    if !text.is_empty() {
        return Ok(text);
    }
    Text::from_str(alloc, element.value_of("navtitle").unwrap_or(""))
}

// The text of a definition's keyword, its link text or its navigation title: the first of them that
// is not empty, by what its element holds.
fn metadata_text(alloc: Global, inside: Siblings<'_>) -> Result<Text, AllocError>
    ensures { (name : List ℕ) → IfOk result (λ text. text ≡ titles_spec.first_text
        (keys_spec.metadata_texts (walk_spec.content_in name inside.entry))) }
{
    let keyword = text_under(alloc, inside, "topic/keyword")?;
    if !keyword.is_empty() {
        return Ok(keyword);
    }
    let link = text_under(alloc, inside, "map/linktext")?;
    if !link.is_empty() {
        return Ok(link);
    }
    text_under(alloc, inside, "topic/navtitle")
}

// The text of the first element of a type in the metadata of a definition; else the empty text.
fn text_under(alloc: Global, inside: Siblings<'_>, token: &str) -> Result<Text, AllocError>
    ensures { (name : List ℕ) → IfOk result (λ text. text ≡ elements_spec.text_of
        (elements_spec.first_under (codes "map/topicmeta") token.now
        (walk_spec.content_in name inside.entry))) }
{
    match first_under(inside, "map/topicmeta", token) {
        Some((_, inside)) => plain_text(alloc, inside),
        None => Ok(Text::new(alloc)),
    }
}
