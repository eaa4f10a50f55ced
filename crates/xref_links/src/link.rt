//! Cross references, links, and all else that names a defined key.

ghost use Rattle.std.specs.Arc.{arc_value};
ghost use Rattle.std.specs.Prelude.{◌≡◌, ◌∷◌, ◌++◌, [], ℕ, List, IfOk, OnOk, None, Some, codes, unwrap_or};
ghost use Rattle.std.specs.Option.{option_copied, option_to_list};
ghost use Rattle.dita_doc.specs.declared.content.KeyAnswer as key_answer_spec;
ghost use Rattle.doc_elements.specs.Walk as walk_spec;
ghost use Rattle.html_forms.specs.Shown as shown_spec;
ghost use Rattle.map_spec.specs.Elements as elements_spec;
ghost use Rattle.html_spec.specs.Anchors as anchors_spec;
ghost use Rattle.html_spec.specs.Anchors.{Here};
ghost use Rattle.readers.specs.Documents as documents_spec;
ghost use Rattle.readers.specs.Documents.{AsksOnly};
ghost use Rattle.readers.specs.Founded.{Grows, StaysFounded};
ghost use Rattle.readers.specs.Named as named_spec;
ghost use Rattle.readers.specs.Told.{Agrees};
ghost use Rattle.xref_links.specs.Adding as spec;
ghost use Rattle.xref_links.specs.Names as names_spec;
ghost use Rattle.xref_links.specs.declared.page.PageRead as page_spec;

use crate::hrefs::read_href;
use crate::keyed::Keyed;
use crate::lead::{Lead, lead_of, lead_to};
use crate::made::AnchorsMade;
use crate::page::{PageRead, PlacedElement};
use crate::types::Types;
use dita_doc::{
    Anchor, Fault, LinkKind, List, Name, NoMemory, Node, PageLink, Reference, Siblings, Target,
    Text,
};
use doc_elements::{first_child, plain_text};
use html_forms::{Form, form_of};
use readers::Asker;
use std::alloc::Global;

// Adds what an element of a defined key adds: it leads where the key leads, and shows its text.
#[tactic(auto, using(readers::proofs::Rules::walking))]
pub(crate) fn add_keyed<'a, A: Asker>(
    page: PageRead<'a>,
    asker: &mut A,
    types: Types,
    standing: PlacedElement<'a>,
    keyed: &Keyed<'a>,
    made: &mut AnchorsMade,
) -> Result<(), NoMemory>
    requires { spec.IsPlaced page standing }
    ensures known { (here : Here) (answer : key_answer_spec.KeyAnswer)
        → Agrees here.world (A.told asker.new) → spec.IsHere (A.stand asker.old) page.entry here
        → types.is_link ≡ anchors_spec.is_link (spec.element_of page.entry standing.entry)
        → anchors_spec.defined_key here (spec.element_of page.entry standing.entry) ≡ Some answer
        → spec.IsGiven (anchors_spec.keyref_of (spec.element_of page.entry standing.entry)) answer
        keyed.now
        → OnOk result (spec.HasMore made.old made.new
        (anchors_spec.linked_added here (spec.alone page.entry standing.entry)
        (anchors_spec.linked_by_key here (spec.element_of page.entry standing.entry) answer))) }
    ensures stand { A.stand asker.new ≡ A.stand asker.old }
    ensures founded { StaysFounded (names_spec.names_of_target keyed.now.target) (A.told asker.old)
        (A.told asker.new) }
    ensures asks { AsksOnly documents_spec.nothing [] (A.told asker.old) (A.told asker.new) }
    ensures grows { Grows (A.told asker.old) (A.told asker.new) }
{
    let faults = &mut made.faults;
    let lead = lead_by_key(page, asker, standing, keyed.id, &keyed.target, faults)?;
    let label = label_or(page.alloc, types, standing, &keyed.label)?;
    add_linked(types, standing, lead, true, label, made)
}

// Where an element leads by its key: `key/id` to that element of the key's document.
#[tactic(auto, using(readers::proofs::Rules::walking))]
fn lead_by_key<'a, A: Asker>(
    page: PageRead<'a>,
    asker: &mut A,
    standing: PlacedElement<'a>,
    id: Option<&'a str>,
    target: &Target,
    faults: &mut List<Fault>,
) -> Result<Lead, NoMemory>
    requires { spec.IsPlaced page standing }
    ensures known { (here : Here) → Agrees here.world (A.told asker.new)
        → spec.IsHere (A.stand asker.old) page.entry here → IfOk result (λ lead. spec.IsLead here
        (anchors_spec.lead_by_key here (spec.element_of page.entry standing.entry)
        (option_copied id.entry) target.now) lead faults.old faults.new) }
    ensures stand { A.stand asker.new ≡ A.stand asker.old }
    ensures founded { StaysFounded (names_spec.names_of_target target.now) (A.told asker.old)
        (A.told asker.new) }
    ensures asks { AsksOnly documents_spec.nothing [] (A.told asker.old) (A.told asker.new) }
    ensures grows { Grows (A.told asker.old) (A.told asker.new) }
{
    let Some(id) = id else {
        return lead_of(page, asker, standing, target, faults);
    };
    match target {
        Target::Local(name, reference) => {
            lead_to_id(page, asker, standing, name, reference, id, faults)
        }
        target => lead_of(page, asker, standing, target, faults),
    }
}

// Where a document leads, to an element of the topic that its reference names, or of its first.
#[tactic(auto, using(readers::proofs::Rules::walking))]
fn lead_to_id<'a, A: Asker>(
    page: PageRead<'a>,
    asker: &mut A,
    standing: PlacedElement<'a>,
    name: &Name,
    reference: &Reference,
    id: &str,
    faults: &mut List<Fault>,
) -> Result<Lead, NoMemory>
    requires { spec.IsPlaced page standing }
    ensures known { (here : Here) → Agrees here.world (A.told asker.new)
        → spec.IsHere (A.stand asker.old) page.entry here → IfOk result (λ lead. spec.IsLead here
        (anchors_spec.lead_of_document here (spec.element_of page.entry standing.entry) name.now
        (anchors_spec.topic_or_first here name.now reference.now.topic) id.now) lead
        faults.old faults.new) }
    ensures stand { A.stand asker.new ≡ A.stand asker.old }
    ensures founded { StaysFounded (name.now ∷ []) (A.told asker.old) (A.told asker.new) }
    ensures asks { AsksOnly documents_spec.nothing [] (A.told asker.old) (A.told asker.new) }
    ensures grows { Grows (A.told asker.old) (A.told asker.new) }
{
    let topic = topic_or_first(page.alloc, asker, name, reference)?;
    lead_to(page, asker, standing, name, topic.as_str(), id, faults)
}

// The topic that a key's reference names, or the first of the document.
#[tactic(auto, using(readers::proofs::Rules::walking))]
fn topic_or_first<A: Asker>(
    alloc: Global,
    asker: &mut A,
    name: &Name,
    reference: &Reference,
) -> Result<Text, NoMemory>
    ensures known { (here : Here) → Agrees here.world (A.told asker.new) → IfOk result (λ topic.
        topic ≡ anchors_spec.topic_or_first here name.now reference.now.topic) }
    ensures stand { A.stand asker.new ≡ A.stand asker.old }
    ensures founded { StaysFounded (name.now ∷ []) (A.told asker.old) (A.told asker.new) }
    ensures asks { AsksOnly documents_spec.nothing [] (A.told asker.old) (A.told asker.new) }
    ensures grows { Grows (A.told asker.old) (A.told asker.new) }
{
    if reference.topic.is_empty() {
        return asker.first(alloc, name);
    }
    Ok(reference.topic.clone()?)
}

// Adds what a cross reference or a link adds that is read by its href.
#[tactic(auto, using(readers::proofs::Rules::walking))]
pub(crate) fn add_written<'a, A: Asker>(
    page: PageRead<'a>,
    asker: &mut A,
    types: Types,
    standing: PlacedElement<'a>,
    made: &mut AnchorsMade,
) -> Result<(), NoMemory>
    requires { spec.IsPlaced page standing }
    ensures known { (here : Here) → Agrees here.world (A.told asker.new)
        → spec.IsHere (A.stand asker.old) page.entry here
        → types.is_link ≡ anchors_spec.is_link (spec.element_of page.entry standing.entry)
        → anchors_spec.defined_key here (spec.element_of page.entry standing.entry) ≡ None
        → OnOk result (spec.HasMore made.old made.new
        (anchors_spec.linked_added here (spec.alone page.entry standing.entry)
        (anchors_spec.linked_by_read here (spec.element_of page.entry standing.entry)
        (anchors_spec.read_href here standing.entry.topic.now
        (spec.element_of page.entry standing.entry)
        (elements_spec.attribute (codes "href") (spec.element_of page.entry standing.entry)))))) }
    ensures stand { A.stand asker.new ≡ A.stand asker.old }
    ensures founded { StaysFounded ((arc_value page.entry.context.now).page.doc
        ∷ named_spec.link_names (spec.element_of page.entry standing.entry)) (A.told asker.old)
        (A.told asker.new) }
    ensures asks { AsksOnly documents_spec.nothing [] (A.told asker.old) (A.told asker.new) }
    ensures grows { Grows (A.told asker.old) (A.told asker.new) }
{
    let target = read_href(page, standing, &mut made.faults)?;
    add_read(page, asker, types, standing, &target, made)
}

// Adds what a cross reference or a link of this target adds.
#[tactic(auto, using(readers::proofs::Rules::walking))]
fn add_read<'a, A: Asker>(
    page: PageRead<'a>,
    asker: &mut A,
    types: Types,
    standing: PlacedElement<'a>,
    target: &Target,
    made: &mut AnchorsMade,
) -> Result<(), NoMemory>
    requires { spec.IsPlaced page standing }
    ensures known { (here : Here) → Agrees here.world (A.told asker.new)
        → spec.IsHere (A.stand asker.old) page.entry here
        → types.is_link ≡ anchors_spec.is_link (spec.element_of page.entry standing.entry)
        → anchors_spec.defined_key here (spec.element_of page.entry standing.entry) ≡ None
        → OnOk result (spec.HasMore made.old made.new
        (anchors_spec.linked_added here (spec.alone page.entry standing.entry)
        (anchors_spec.linked_by_read here (spec.element_of page.entry standing.entry)
        (spec.read_as target.now)))) }
    ensures stand { A.stand asker.new ≡ A.stand asker.old }
    ensures founded { StaysFounded (names_spec.names_of_target target.now) (A.told asker.old)
        (A.told asker.new) }
    ensures asks { AsksOnly documents_spec.nothing [] (A.told asker.old) (A.told asker.new) }
    ensures grows { Grows (A.told asker.old) (A.told asker.new) }
{
    let label = label_of(page.alloc, asker, types, standing, target)?;
    let lead = lead_of(page, asker, standing, target, &mut made.faults)?;
    let holds = is_reference(standing.node);
    add_linked(types, standing, lead, holds, label, made)
}

// Adds the anchor and the link of an element that leads there and shows this text. One that is not
// shown as a cross reference holds no link itself.
fn add_linked(
    types: Types,
    standing: PlacedElement<'_>,
    lead: Lead,
    holds: bool,
    label: Text,
    made: &mut AnchorsMade,
) -> Result<(), NoMemory>
    ensures { OnOk result (spec.HasMore made.old made.new
        (spec.added_with standing.entry.place types.is_link lead holds label)) }
{
    let Lead { href, is_own } = lead;
    if types.is_link && !is_own {
        list_link(&href, &label, &mut made.links)?;
    }
    Ok(
        made.anchors.push(Anchor {
            place: standing.place,
            href: if holds { href } else { None },
            label: Some(label),
        })?,
    )
}

// Lists a link, unless it leads nowhere.
fn list_link(href: &Option<Text>, label: &Text, links: &mut List<PageLink>) -> Result<(), NoMemory>
    ensures { OnOk result (links.new
        ≡ links.old ++ option_to_list (spec.link_to href.now label.now)) }
{
    match href {
        Some(href) => Ok(links.push(PageLink {
            kind: LinkKind::Related,
            href: href.clone()?,
            label: label.clone()?,
        })?),
        None => Ok(()),
    }
}

// The text of a link is that of its linktext, if it has one.
fn own_label(
    alloc: Global,
    types: Types,
    standing: PlacedElement<'_>,
) -> Result<Option<Text>, NoMemory>
    ensures { (page : page_spec.PageRead) (other : List ℕ) → IfOk result (λ label.
        unwrap_or label other
        ≡ spec.label_with types.is_link (spec.inside_of page standing.entry) other) }
{
    if !types.is_link {
        return Ok(None);
    }
    match first_child(standing.inside, "topic/linktext") {
        Some((_, inside)) => Ok(Some(plain_text(alloc, inside)?)),
        None => Ok(None),
    }
}

// The text of a link's own linktext, or else another.
fn label_or(
    alloc: Global,
    types: Types,
    standing: PlacedElement<'_>,
    other: &Text,
) -> Result<Text, NoMemory>
    ensures { (page : page_spec.PageRead) → IfOk result (λ label. label
        ≡ spec.label_with types.is_link (spec.inside_of page standing.entry) other.now) }
{
    match own_label(alloc, types, standing)? {
        Some(label) => Ok(label),
        None => Ok(other.clone()?),
    }
}

// The text that an element shows which is read by its href.
#[tactic(auto, using(readers::proofs::Rules::walking))]
fn label_of<A: Asker>(
    alloc: Global,
    asker: &mut A,
    types: Types,
    standing: PlacedElement<'_>,
    target: &Target,
) -> Result<Text, NoMemory>
    ensures known { (here : Here) (page : page_spec.PageRead) → Agrees here.world (A.told asker.new)
        → IfOk result (λ label.
        label ≡ spec.label_with types.is_link (spec.inside_of page standing.entry)
        (anchors_spec.text_of_target here (spec.element_of page standing.entry) target.now)) }
    ensures stand { A.stand asker.new ≡ A.stand asker.old }
    ensures founded { StaysFounded (names_spec.names_of_target target.now) (A.told asker.old)
        (A.told asker.new) }
    ensures asks { AsksOnly documents_spec.nothing [] (A.told asker.old) (A.told asker.new) }
    ensures grows { Grows (A.told asker.old) (A.told asker.new) }
{
    match own_label(alloc, types, standing)? {
        Some(label) => Ok(label),
        None => text_of_target(alloc, asker, standing.node, target),
    }
}

// The text for what an element's href leads to: a topic's title, else the href as written.
#[tactic(auto, using(readers::proofs::Rules::walking))]
fn text_of_target<A: Asker>(
    alloc: Global,
    asker: &mut A,
    element: &Node,
    target: &Target,
) -> Result<Text, NoMemory>
    ensures known { (here : Here) (name : List ℕ) → Agrees here.world (A.told asker.new)
        → IfOk result (λ label.
        label ≡ anchors_spec.text_of_target here (walk_spec.element_of name element.now)
        target.now) }
    ensures stand { A.stand asker.new ≡ A.stand asker.old }
    ensures founded { StaysFounded (names_spec.names_of_target target.now) (A.told asker.old)
        (A.told asker.new) }
    ensures asks { AsksOnly documents_spec.nothing [] (A.told asker.old) (A.told asker.new) }
    ensures grows { Grows (A.told asker.old) (A.told asker.new) }
{
    match target {
        Target::Local(name, reference) => asker.title(alloc, name, &reference.topic),
        _ => Ok(Text::from_str(alloc, element.value_of("href").unwrap_or(""))?),
    }
}

// Whether an element is shown as a cross reference.
fn is_reference(element: &Node) -> bool
    ensures { (name : List ℕ) → result ≡ anchors_spec.has_form anchors_spec.is_reference_form
        (walk_spec.element_of name element.now) }
{
    match form_of(element) {
        Some(form) => is_reference_form(form),
        None => false,
    }
}

fn is_reference_form(form: Form) -> bool
    ensures { result ≡ anchors_spec.is_reference_form (shown_spec.form_shown_of form) }
{
    match form {
        Form::Reference => true,
        _ => false,
    }
}
