//! The classes of elements.

ghost use Rattle.std.specs.Prelude.{◌≡◌, ◌++◌, [], ◌∷◌, ℕ, List, None, Some, OnOk, codes, unwrap_or, if◌then◌else◌};
ghost use Rattle.doc_elements.specs.Walk as elements_walk;
ghost use Rattle.html_blocks.specs.Marks as marks_spec;
ghost use Rattle.html_blocks.specs.Opened as opened_spec;
ghost use Rattle.html_forms.specs.Shown.{form_shown_of};
ghost use Rattle.map_spec.specs.Elements as elements_spec;
ghost use Rattle.html_spec.specs.Blocks as blocks_spec;

use crate::element::Element;
use crate::mark::{ElementMarks, Marks};
use crate::tags::append_if_some;
use dita_doc::{Node, Text, append_html_value};
use html_forms::Form;
use std::alloc::AllocError;

/// Appends the class of an element of this form: that of the form, if it has one, and behind it the
/// marks of the element.
pub(crate) fn append_class(
    out: &mut Text,
    form: Form,
    element: Element<'_>,
    marks: &Marks<'_>,
) -> Result<(), AllocError>
    ensures { (name : List ℕ) → OnOk result (out.new ≡ out.old ++ marks_spec.class_text
        (blocks_spec.class_with (blocks_spec.marks_at marks.now.marks.now element.entry.place)
        (opened_spec.class_by (elements_walk.element_of name element.entry.node.now)
        (form_shown_of form)))) }
{
    if marks.is_empty() {
        append_form_class(out, form, element.node)
    } else {
        append_marked_class(out, form, element.node, marks.at(element.place))
    }
}

// Appends the class of an element of this form, if it has one.
fn append_form_class(out: &mut Text, form: Form, element: &Node) -> Result<(), AllocError>
    ensures { (name : List ℕ) → OnOk result (out.new ≡ out.old ++ marks_spec.class_text
        (opened_spec.class_by (elements_walk.element_of name element.now) (form_shown_of form))) }
{
    match form {
        Form::Tag(_, class) => append_if_some(out, "class", class),
        Form::Note => append_note_class(out, kind_of(element)),
        _ => Ok(()),
    }
}

// The type that a note says; empty if it says none.
fn kind_of(note: &Node) -> &str
    ensures { (name : List ℕ) → result.now ≡ unwrap_or (elements_spec.attribute (codes "type")
        (elements_walk.element_of name note.now)) [] }
{
    note.value_of("type").unwrap_or("")
}

// Appends the class of a note of this type.
fn append_note_class(out: &mut Text, kind: &str) -> Result<(), AllocError>
    ensures { OnOk result (out.new ≡ out.old ++ opened_spec.note_text kind.now) }
{
    begin_note_class(out, kind)?;
    out.append("\"")
}

fn begin_note_class(out: &mut Text, kind: &str) -> Result<(), AllocError>
    ensures { OnOk result (out.new ≡ out.old ++ opened_spec.note_begun kind.now) }
{
    out.append(" class=\"note")?;
    append_kind(out, kind)
}

fn append_kind(out: &mut Text, kind: &str) -> Result<(), AllocError>
    ensures { OnOk result (out.new ≡ out.old ++ opened_spec.kind_text kind.now) }
{
    if kind.is_empty() {
        return Ok(());
    }
    out.append(" ")?;
    append_html_value(out, kind)
}

// Appends the class of an element of this form with these marks.
fn append_marked_class(
    out: &mut Text,
    form: Form,
    element: &Node,
    marks: ElementMarks<'_>,
) -> Result<(), AllocError>
    ensures { (name : List ℕ) → OnOk result (out.new ≡ out.old ++ marks_spec.class_text
        (blocks_spec.class_with (marks_spec.texts_of marks.entry) (opened_spec.class_by
        (elements_walk.element_of name element.now) (form_shown_of form)))) }
{
    match form {
        Form::Tag(_, class) => append_tag_class(out, class, marks),
        Form::Note => append_marked_note(out, kind_of(element), marks),
        _ => append_marks(out, marks),
    }
}

fn append_tag_class(out: &mut Text, class: &str, marks: ElementMarks<'_>) -> Result<(), AllocError>
    ensures { OnOk result (out.new ≡ out.old ++ marks_spec.class_text
        (blocks_spec.class_with (marks_spec.texts_of marks.entry) class.now)) }
{
    if class.is_empty() {
        append_marks(out, marks)
    } else {
        append_texts(out, class, marks)
    }
}

fn append_marked_note(out: &mut Text, kind: &str, marks: ElementMarks<'_>) -> Result<(), AllocError>
    ensures { OnOk result (out.new ≡ out.old ++ (opened_spec.note_begun kind.now
        ++ (marks_spec.behind (marks_spec.texts_of marks.entry) ++ codes "\""))) }
{
    begin_note_class(out, kind)?;
    append_behind(out, marks)?;
    out.append("\"")
}

// Appends a class of marks alone, if there are any.
fn append_marks(out: &mut Text, marks: ElementMarks<'_>) -> Result<(), AllocError>
    ensures { OnOk result (out.new ≡ out.old ++ marks_spec.class_text
        (blocks_spec.spaced (marks_spec.texts_of marks.entry))) }
{
    match marks.split_first() {
        Some((text, others)) => append_texts(out, text, others),
        None => Ok(()),
    }
}

// Appends a class of a text and of marks behind it. An empty class is none.
fn append_texts(out: &mut Text, first: &str, marks: ElementMarks<'_>) -> Result<(), AllocError>
    ensures { OnOk result (out.new ≡ out.old ++ marks_spec.class_text
        (blocks_spec.spaced (first.now ∷ marks_spec.texts_of marks.entry))) }
{
    if is_nothing(first, marks) {
        return Ok(());
    }
    out.append(" class=\"")?;
    append_html_value(out, first)?;
    append_behind(out, marks)?;
    out.append("\"")
}

fn is_nothing(first: &str, marks: ElementMarks<'_>) -> bool
    ensures { marks_spec.class_text
        (blocks_spec.spaced (first.now ∷ marks_spec.texts_of marks.entry))
        ≡ (if result then [] else marks_spec.texts_text first.now
        (marks_spec.texts_of marks.entry)) }
{
    first.is_empty() && marks.is_empty()
}

// Appends marks, each behind a space.
fn append_behind(out: &mut Text, marks: ElementMarks<'_>) -> Result<(), AllocError>
    ensures { OnOk result (out.new ≡ out.old
        ++ marks_spec.behind (marks_spec.texts_of marks.entry)) }
{
    let mut left = marks;
    while let Some((text, others)) = left.split_first() {
        out.append(" ")?;
        append_html_value(out, text)?;
        left = others;
    }
    Ok(())
}
