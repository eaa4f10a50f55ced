//! The start tags of elements.

ghost use Rattle.std.specs.Prelude.{◌≡◌, ◌++◌, [], ℕ, List, Some, None, OnOk, codes, unwrap_or, if◌then◌else◌};
ghost use Rattle.std.specs.Option.{option_copied};
ghost use Rattle.doc_elements.specs.Walk as elements_walk;
ghost use Rattle.html_blocks.specs.Opened as opened_spec;
ghost use Rattle.html_blocks.specs.Walk as walk_spec;
ghost use Rattle.html_forms.specs.Shown.{form_shown_of};
ghost use Rattle.html_tables.specs.Walk.{HasColumns};
ghost use Rattle.map_spec.specs.Elements as elements_spec;
ghost use Rattle.html_spec.specs.Blocks as blocks_spec;

use crate::class::append_class;
use crate::context::HtmlContext;
use crate::element::Element;
use crate::link::ShownLink;
use crate::mark::Marks;
use crate::tags::{append_attribute, append_name, append_span};
use dita_doc::{Node, Siblings, Text};
use doc_elements::{first_child, plain_text};
use html_forms::Form;
use html_tables::{Groups, rows_spanned};
use std::alloc::{AllocError, Global};

/// Appends the start tag of an element of this form and name.
pub(crate) fn append_start(
    alloc: Global,
    out: &mut Text,
    groups: &Groups,
    name: &str,
    form: Form,
    element: Element<'_>,
    link: ShownLink<'_>,
    marks: &Marks<'_>,
    context: HtmlContext<'_>,
) -> Result<(), AllocError>
    ensures { (around : blocks_spec.HtmlContext) → walk_spec.IsWithin groups.now context.entry around
        → OnOk result (out.new ≡ out.old ++ opened_spec.start_by around
        (option_copied link.entry.href)
        (blocks_spec.marks_at marks.now.marks.now element.entry.place)
        (walk_spec.element_of element.entry) name.now (form_shown_of form)) }
{
    append_name(out, name, topic_before(form, context), element.node)?;
    append_class(out, form, element, marks)?;
    append_more(alloc, out, groups, form, element.node, link, context)?;
    out.append(">")
}

// The id of the topic that stands before the id of an element; a topic has none.
fn topic_before<'a>(form: Form, context: HtmlContext<'a>) -> Option<&'a str>
    ensures { option_copied result ≡ (if opened_spec.is_topic (form_shown_of form) then None
        else Some context.entry.topic.now) }
{
    match form {
        Form::Topic => None,
        _ => Some(context.topic),
    }
}

// Appends what stands behind the id and the class of an element of this form.
fn append_more(
    alloc: Global,
    out: &mut Text,
    groups: &Groups,
    form: Form,
    element: &Node,
    link: ShownLink<'_>,
    context: HtmlContext<'_>,
) -> Result<(), AllocError>
    ensures { (name : List ℕ) (around : blocks_spec.HtmlContext)
        → HasColumns groups.now context.entry.tables.group around.columns
        → OnOk result (out.new ≡ out.old ++ opened_spec.more_by around
        (option_copied link.entry.href) (elements_walk.element_of name element.now)
        (form_shown_of form)) }
{
    match form {
        Form::Reference => append_href(out, link),
        Form::Cell => append_spans(alloc, out, groups, element, context),
        _ => Ok(()),
    }
}

fn append_href(out: &mut Text, link: ShownLink<'_>) -> Result<(), AllocError>
    ensures { OnOk result (out.new ≡ out.old ++ blocks_spec.attribute_text (codes "href")
        (option_copied link.entry.href)) }
{
    match link.href {
        Some(href) => append_attribute(out, "href", href),
        None => Ok(()),
    }
}

// Appends the rows and columns that a cell spans.
fn append_spans(
    alloc: Global,
    out: &mut Text,
    groups: &Groups,
    cell: &Node,
    context: HtmlContext<'_>,
) -> Result<(), AllocError>
    ensures { (name : List ℕ) (around : blocks_spec.HtmlContext)
        → HasColumns groups.now context.entry.tables.group around.columns
        → OnOk result (out.new ≡ out.old
        ++ blocks_spec.spans around (elements_walk.element_of name cell.now)) }
{
    let rows = rows_spanned(cell);
    let columns = groups.columns_spanned(context.tables.group, cell);
    append_span(alloc, out, "rowspan", rows)?;
    append_span(alloc, out, "colspan", columns)
}

/// Appends an image, with the text of its attribute or else of its first child for that.
pub(crate) fn append_image(
    alloc: Global,
    out: &mut Text,
    image: Element<'_>,
    link: ShownLink<'_>,
    marks: &Marks<'_>,
    context: HtmlContext<'_>,
) -> Result<(), AllocError>
    ensures { (around : blocks_spec.HtmlContext) → context.entry.topic.now ≡ around.topic
        → OnOk result (out.new ≡ out.old ++ opened_spec.image_by around
        (option_copied link.entry.href)
        (blocks_spec.marks_at marks.now.marks.now image.entry.place)
        (walk_spec.element_of image.entry) (walk_spec.inside_of image.entry)) }
{
    append_name(out, "img", Some(context.topic), image.node)?;
    append_class(out, Form::Image, image, marks)?;
    append_file(alloc, out, image, link)?;
    out.append(">")
}

// Appends the file that an image shows, and the text in its place.
fn append_file(
    alloc: Global,
    out: &mut Text,
    image: Element<'_>,
    link: ShownLink<'_>,
) -> Result<(), AllocError>
    ensures { OnOk result (out.new ≡ out.old ++ opened_spec.file_text
        (option_copied link.entry.href) (walk_spec.element_of image.entry)
        (walk_spec.inside_of image.entry)) }
{
    append_attribute(out, "src", link.href.unwrap_or(""))?;
    append_alt(alloc, out, image)
}

fn append_alt(alloc: Global, out: &mut Text, image: Element<'_>) -> Result<(), AllocError>
    ensures { OnOk result (out.new ≡ out.old ++ blocks_spec.attribute_text (codes "alt")
        (Some (blocks_spec.alt_of (walk_spec.element_of image.entry)
        (walk_spec.inside_of image.entry)))) }
{
    match image.node.value_of("alt") {
        Some(text) => append_attribute(out, "alt", text),
        None => append_child_alt(alloc, out, image.inside),
    }
}

fn append_child_alt(alloc: Global, out: &mut Text, inside: Siblings<'_>) -> Result<(), AllocError>
    ensures { OnOk result (out.new ≡ out.old ++ blocks_spec.attribute_text (codes "alt")
        (Some (elements_spec.text_of (elements_spec.first_child (codes "topic/alt")
        (walk_spec.content_of inside.entry))))) }
{
    match first_child(inside, "topic/alt") {
        Some((_, held)) => {
            let text = plain_text(alloc, held)?;
            append_attribute(out, "alt", text.as_str())
        }
        None => append_attribute(out, "alt", ""),
    }
}
