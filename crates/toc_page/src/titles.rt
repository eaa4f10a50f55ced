//! Titles that elements of maps say themselves.

ghost use Rattle.std.specs.Prelude.{◌≡◌, ◌∷◌, [], ℕ, List, codes, IfOk};
ghost use Rattle.doc_elements.specs.Walk as walk_spec;
ghost use Rattle.map_spec.specs.Elements as elements_spec;
ghost use Rattle.map_spec.specs.Titles as titles_spec;
ghost use Rattle.html_spec.specs.Contents as contents_spec;
ghost use Rattle.plan_nodes.specs.Home as home_spec;
ghost use Rattle.toc_page.specs.Toc as spec;

use dita_doc::{NoMemory, Siblings, Text};
use doc_elements::{first_child, first_under, plain_text};
use plan_nodes::NodeElements;
use std::alloc::{AllocError, Global};

/// The title of the page: that of the root map, its attribute, or a word of ours.
pub(crate) fn contents_title(alloc: Global, homes: &NodeElements) -> Result<Text, NoMemory>
    ensures { IfOk result (λ title. title ≡ titles_spec.first_text
        (spec.title_in (home_spec.whole_at homes.now 0) ∷ codes "Contents" ∷ [])) }
{
    let title = root_title(alloc, homes)?;
    if title.is_empty() {
        return Ok(Text::from_str(alloc, "Contents")?);
    }
    Ok(title)
}

fn root_title(alloc: Global, homes: &NodeElements) -> Result<Text, AllocError>
    ensures { IfOk result (λ title. title ≡ spec.title_in (home_spec.whole_at homes.now 0)) }
{
    let Some((root, inside)) = homes.whole(0) else {
        return Ok(Text::new(alloc));
    };
    let title = title_child(alloc, inside)?;
    if !title.is_empty() {
        return Ok(title);
    }
    Text::from_str(alloc, root.value_of("title").unwrap_or(""))
}

// The text of the first title among the children of an element; else the empty text.
fn title_child(alloc: Global, inside: Siblings<'_>) -> Result<Text, AllocError>
    ensures { (name : List ℕ) → IfOk result (λ text. text ≡ elements_spec.text_of
        (elements_spec.first_child (codes "topic/title")
        (walk_spec.content_in name inside.entry))) }
{
    match first_child(inside, "topic/title") {
        Some((_, inside)) => plain_text(alloc, inside),
        None => Ok(Text::new(alloc)),
    }
}

/// The title that a node says of itself: its element comes before its attribute.
pub(crate) fn navtitle_of(
    alloc: Global,
    homes: &NodeElements,
    at: usize,
) -> Result<Text, AllocError>
    ensures { IfOk result (λ title. title
        ≡ spec.navtitle_in (home_spec.whole_at homes.now at)) }
{
    let Some((element, inside)) = homes.whole(at) else {
        return Ok(Text::new(alloc));
    };
    let title = navtitle_element(alloc, inside)?;
    if !title.is_empty() {
        return Ok(title);
    }
    Text::from_str(alloc, element.value_of("navtitle").unwrap_or(""))
}

// The text of the first navigation title in the metadata of a node; else the empty text.
fn navtitle_element(alloc: Global, inside: Siblings<'_>) -> Result<Text, AllocError>
    ensures { (name : List ℕ) → IfOk result (λ text. text
        ≡ contents_spec.navtitle_element (walk_spec.content_in name inside.entry)) }
{
    match first_under(inside, "map/topicmeta", "topic/navtitle") {
        Some((_, inside)) => plain_text(alloc, inside),
        None => Ok(Text::new(alloc)),
    }
}
