//! Hrefs as they are written, and what they lead to.

ghost use Rattle.std.specs.Arc.{arc_value};
ghost use Rattle.std.specs.Prelude.{◌≡◌, ◌||◌, IfOk, codes, unwrap_or};
ghost use Rattle.dita_doc.specs.ClassValue as class_value_spec;
ghost use Rattle.href_text.specs.Reference as reference_spec;
ghost use Rattle.map_spec.specs.Elements as elements_spec;
ghost use Rattle.map_spec.specs.Target as target_spec;
ghost use Rattle.html_spec.specs.Anchors as anchors_spec;
ghost use Rattle.html_spec.specs.Anchors.{Here};
ghost use Rattle.xref_links.specs.Adding as spec;

use crate::page::{PageRead, PlacedElement};
use dita_doc::{Fault, FaultCode, List, NoMemory, Node, Reference, Target, Text};
use targets::{file_target, is_external, is_far, is_same_topic, target_by};

// What the href of an element leads to; nothing, with a fault, if it can't be read.
pub(crate) fn read_href<'a>(
    page: PageRead<'a>,
    standing: PlacedElement<'a>,
    faults: &mut List<Fault>,
) -> Result<Target, NoMemory>
    requires { spec.IsPlaced page standing }
    ensures { (here : Here) → here.page.id ≡ (arc_value page.entry.context.now).page
        → IfOk result (λ target. spec.IsRead (anchors_spec.read_href here standing.entry.topic.now
        (spec.element_of page.entry standing.entry)
        (elements_spec.attribute (codes "href") (spec.element_of page.entry standing.entry)))
        target faults.old faults.new) }
{
    let element = standing.node;
    let Some(href) = element.value_of("href") else {
        return Ok(Target::Nothing);
    };
    let doc = page.href_home(standing);
    let format = value_or(element, "format", "dita");
    let scope = value_or(element, "scope", "local");
    let Some(target) = target_by(page.alloc, href, format, scope, doc)? else {
        page.put_fault(standing, FaultCode::BadReference, href, faults)?;
        return Ok(Target::Nothing);
    };
    in_topic(page, standing.topic, target)
}

// `#./element` means the topic where the element stands, on this page.
fn in_topic(page: PageRead<'_>, topic: &str, target: Target) -> Result<Target, NoMemory>
    ensures { (here : Here) → here.page.id ≡ (arc_value page.entry.context.now).page
        → IfOk result (λ read. read ≡ anchors_spec.in_topic here topic.now target) }
{
    match target {
        Target::Local(name, reference) => {
            if !is_same_topic(&reference) {
                return Ok(Target::Local(name, reference));
            }
            let name = page.context.page.doc.clone()?;
            let topic = Text::from_str(page.alloc, topic)?;
            Ok(Target::Local(name, Reference { topic, ..reference }))
        }
        target => Ok(target),
    }
}

// What the href of an image leads to, whatever its format; nothing, with a fault, if it can't be
// read.
pub(crate) fn read_image_href<'a>(
    page: PageRead<'a>,
    standing: PlacedElement<'a>,
    faults: &mut List<Fault>,
) -> Result<Target, NoMemory>
    requires { spec.IsPlaced page standing }
    ensures { IfOk result (λ target. spec.IsRead
        (anchors_spec.image_by_href (spec.element_of page.entry standing.entry)
        (elements_spec.attribute (codes "href") (spec.element_of page.entry standing.entry)))
        target faults.old faults.new) }
{
    let element = standing.node;
    let Some(href) = element.value_of("href") else {
        return Ok(Target::Nothing);
    };
    if is_away(value_or(element, "scope", "local"), href) {
        return Ok(Target::Other(Text::from_str(page.alloc, href)?));
    }
    let doc = page.href_home(standing);
    match file_target(page.alloc, href, doc)? {
        Some(target) => Ok(target),
        None => {
            page.put_fault(standing, FaultCode::BadReference, href, faults)?;
            Ok(Target::Nothing)
        }
    }
}

// Whether an href of this scope leads away from the documents of the desk.
fn is_away(scope: &str, href: &str) -> bool
    ensures { result ≡ (target_spec.is_far scope.now || reference_spec.is_external href.now) }
{
    is_far(scope) || is_external(href)
}

// The value of an attribute, or another if the element has none.
fn value_or<'a>(element: &'a Node, name: &str, other: &'a str) -> &'a str
    ensures { result.now
        ≡ unwrap_or (class_value_spec.value_of name.now element.now.attributes) other.now }
{
    element.value_of(name).unwrap_or(other)
}
