//! Images.

ghost use Rattle.std.specs.Arc.{arc_value};
ghost use Rattle.std.specs.Prelude.{◌≡◌, ℕ, List, IfOk, OnOk, None, if◌then◌else◌};
ghost use Rattle.doc_elements.specs.Walk as walk_spec;
ghost use Rattle.html_forms.specs.Shown as shown_spec;
ghost use Rattle.html_spec.specs.Anchors as anchors_spec;
ghost use Rattle.html_spec.specs.Anchors.{Here};
ghost use Rattle.xref_links.specs.Adding as spec;

use crate::hrefs::read_image_href;
use crate::lead::href_outside;
use crate::made::AnchorsMade;
use crate::page::{PageRead, PlacedElement};
use dita_doc::{Anchor, Fault, List, NoMemory, Target, Text};
use html_forms::{Form, form_of};

// Adds the anchor of an image that leads where its key does, if that is defined.
pub(crate) fn add_image<'a>(
    page: PageRead<'a>,
    standing: PlacedElement<'a>,
    target: Target,
    made: &mut AnchorsMade,
) -> Result<(), NoMemory>
    requires { spec.IsPlaced page standing }
    ensures { (here : Here) → here.page.name ≡ (arc_value page.entry.context.now).name
        → OnOk result (spec.HasMore made.old made.new
        (anchors_spec.image_added here (spec.alone page.entry standing.entry)
        (anchors_spec.image_by (spec.element_of page.entry standing.entry) target))) }
{
    let target = image_target(page, standing, target, &mut made.faults)?;
    let href = image_href(page, standing, target)?;
    Ok(
        made.anchors.push(Anchor {
            place: standing.place,
            href,
            label: None,
        })?,
    )
}

// What an image leads to: without a target by the key the href counts, and a document of ours
// counts as the file of its name.
fn image_target<'a>(
    page: PageRead<'a>,
    standing: PlacedElement<'a>,
    target: Target,
    faults: &mut List<Fault>,
) -> Result<Target, NoMemory>
    requires { spec.IsPlaced page standing }
    ensures { IfOk result (λ read. spec.IsRead (anchors_spec.image_by
        (spec.element_of page.entry standing.entry) target) read faults.old faults.new) }
{
    match target {
        Target::Nothing => read_image_href(page, standing, faults),
        Target::Local(name, _reference) => Ok(Target::File(name, Text::new(page.alloc))),
        Target::File(name, rest) => Ok(Target::File(name, rest)),
        Target::Other(value) => Ok(Target::Other(value)),
    }
}

// The href of an image, if the page shows it.
fn image_href(
    page: PageRead<'_>,
    standing: PlacedElement<'_>,
    target: Target,
) -> Result<Option<Text>, NoMemory>
    ensures { IfOk result (λ href. href ≡ (if anchors_spec.has_form anchors_spec.shows_href
        (spec.element_of page.entry standing.entry)
        then spec.href_outside (arc_value page.entry.context.now).name target else None)) }
{
    if !shows_href(standing) {
        return Ok(None);
    }
    href_outside(page, &target)
}

// Whether the page shows the href of an element of its form.
fn shows_href(standing: PlacedElement<'_>) -> bool
    ensures { (name : List ℕ) → result ≡ anchors_spec.has_form anchors_spec.shows_href
        (walk_spec.element_of name standing.entry.node.now) }
{
    match form_of(standing.node) {
        Some(form) => is_shown(form),
        None => false,
    }
}

fn is_shown(form: Form) -> bool
    ensures { result ≡ anchors_spec.shows_href (shown_spec.form_shown_of form) }
{
    match form {
        Form::Image | Form::Reference => true,
        _ => false,
    }
}
