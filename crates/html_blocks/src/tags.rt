//! Tags, and their attributes.

ghost use Rattle.std.specs.Prelude.{◌≡◌, ◌++◌, ℕ, List, Some, OnOk, codes};
ghost use Rattle.std.specs.Option.{option_copied};
ghost use Rattle.doc_elements.specs.Walk as elements_walk;
ghost use Rattle.html_blocks.specs.Shown as shown_spec;
ghost use Rattle.map_spec.specs.Titles as titles_spec;
ghost use Rattle.html_spec.specs.Blocks as blocks_spec;

use dita_doc::{Node, Text, append_html_value};
use std::alloc::{AllocError, Global};

/// Appends the beginning of a start tag: its name, and the id of an element, which stands behind
/// the id of its topic. An empty id is none, and the id of a topic has no topic before it.
pub(crate) fn append_name(
    out: &mut Text,
    name: &str,
    topic: Option<&str>,
    element: &Node,
) -> Result<(), AllocError>
    ensures { (doc : List ℕ) → OnOk result (out.new ≡ out.old ++ shown_spec.name_begun name.now
        (option_copied topic.entry)
        (titles_spec.id_of (elements_walk.element_of doc element.now))) }
{
    out.append("<")?;
    out.append(name)?;
    append_id(out, topic, element.value_of("id").unwrap_or(""))
}

// Appends the id of an element, unless it is empty.
fn append_id(out: &mut Text, topic: Option<&str>, id: &str) -> Result<(), AllocError>
    ensures { OnOk result (out.new ≡ out.old ++ blocks_spec.attribute_text (codes "id")
        (shown_spec.id_behind (option_copied topic.entry) id.now)) }
{
    if id.is_empty() {
        return Ok(());
    }
    out.append(" id=\"")?;
    append_topic(out, topic)?;
    append_html_value(out, id)?;
    out.append("\"")
}

// Appends what stands before an id: the id of the topic, if there is one before it.
fn append_topic(out: &mut Text, topic: Option<&str>) -> Result<(), AllocError>
    ensures { OnOk result (out.new ≡ out.old
        ++ shown_spec.topic_before (option_copied topic.entry)) }
{
    match topic {
        Some(topic) => {
            append_html_value(out, topic)?;
            out.append("__")
        }
        None => Ok(()),
    }
}

/// Appends an attribute.
pub(crate) fn append_attribute(out: &mut Text, name: &str, value: &str) -> Result<(), AllocError>
    ensures { OnOk result (out.new
        ≡ out.old ++ blocks_spec.attribute_text name.now (Some value.now)) }
{
    out.append(" ")?;
    out.append(name)?;
    out.append("=\"")?;
    append_html_value(out, value)?;
    out.append("\"")
}

/// Appends an attribute, unless its value is empty.
pub(crate) fn append_if_some(out: &mut Text, name: &str, value: &str) -> Result<(), AllocError>
    ensures { OnOk result (out.new ≡ out.old
        ++ blocks_spec.attribute_text name.now (blocks_spec.if_some_text value.now)) }
{
    if value.is_empty() {
        return Ok(());
    }
    append_attribute(out, name, value)
}

/// Appends the attribute of a span over more than one row or column.
pub(crate) fn append_span(
    alloc: Global,
    out: &mut Text,
    name: &str,
    count: u32,
) -> Result<(), AllocError>
    ensures { OnOk result (out.new ≡ out.old ++ blocks_spec.span_text name.now count) }
{
    if count <= 1 {
        return Ok(());
    }
    append_attribute(out, name, format!(in alloc; "{count}")?.as_str())
}

/// Appends the start of a link.
pub(crate) fn append_link(out: &mut Text, href: &str) -> Result<(), AllocError>
    ensures { OnOk result (out.new ≡ out.old ++ blocks_spec.start_tag (codes "a")
        (blocks_spec.attribute_text (codes "href") (Some href.now))) }
{
    out.append("<a")?;
    append_attribute(out, "href", href)?;
    out.append(">")
}

/// Appends the end of an element of HTML.
pub(crate) fn append_end(out: &mut Text, name: &str) -> Result<(), AllocError>
    ensures { OnOk result (out.new ≡ out.old ++ blocks_spec.end_tag name.now) }
{
    out.append("</")?;
    out.append(name)?;
    out.append(">")
}
