//! Where a target leads from a page.

ghost use Rattle.std.specs.Arc.{arc_value};
ghost use Rattle.std.specs.Prelude.{◌≡◌, ◌∷◌, ◌++◌, [], List, IfOk, OnOk, Some, slice_get};
ghost use Rattle.std.specs.Option.{option_copied};
ghost use Rattle.dita_doc.specs.declared.fault.Fault as fault_spec;
ghost use Rattle.map_spec.specs.Pages as pages_spec;
ghost use Rattle.map_spec.specs.Written.{Element};
ghost use Rattle.html_spec.specs.Anchors as anchors_spec;
ghost use Rattle.html_spec.specs.Anchors.{Here};
ghost use Rattle.readers.specs.Documents as documents_spec;
ghost use Rattle.readers.specs.Documents.{AsksOnly};
ghost use Rattle.readers.specs.Founded.{Grows, StaysFounded};
ghost use Rattle.readers.specs.Setting.{Stand};
ghost use Rattle.readers.specs.Told.{Agrees};
ghost use Rattle.xref_links.specs.Adding as spec;
ghost use Rattle.xref_links.specs.Names as names_spec;

use crate::page::{PageRead, PlacedElement};
use dita_doc::{Fault, FaultCode, List, Name, NoMemory, PagePlan, Plan, Target, Text};
use href_text::relative;
use readers::Asker;

// Where a target leads: an href, if it leads anywhere, and whether that is the page itself.
#[derive(Drop)]
pub(crate) struct Lead {
    pub href: Option<Text>,
    pub is_own: bool,
}

impl Lead {
    ghost use Rattle.std.specs.Prelude.{◌≡◌, None, false};
    ghost use Rattle.xref_links.specs.declared.lead.Lead as lead_spec;

    fn nowhere() -> Lead
        ensures href { result.href ≡ None }
        ensures own { result.is_own ≡ false }
    {
        Lead {
            href: None,
            is_own: false,
        }
    }
}

// Where the target of an element leads. A document without a page leads nowhere, with a fault.
#[tactic(auto, using(readers::proofs::Rules::walking))]
pub(crate) fn lead_of<'a, A: Asker>(
    page: PageRead<'a>,
    asker: &mut A,
    standing: PlacedElement<'a>,
    target: &Target,
    faults: &mut List<Fault>,
) -> Result<Lead, NoMemory>
    requires { spec.IsPlaced page standing }
    ensures known { (here : Here) → Agrees here.world (A.told asker.new)
        → spec.IsHere (A.stand asker.old) page.entry here → IfOk result (λ lead. spec.IsLead here
        (anchors_spec.lead_of_target here (spec.element_of page.entry standing.entry) target.now) lead
        faults.old faults.new) }
    ensures stand { A.stand asker.new ≡ A.stand asker.old }
    ensures founded { StaysFounded (names_spec.names_of_target target.now) (A.told asker.old)
        (A.told asker.new) }
    ensures asks { AsksOnly documents_spec.nothing [] (A.told asker.old) (A.told asker.new) }
    ensures grows { Grows (A.told asker.old) (A.told asker.new) }
{
    match target {
        Target::Local(name, reference) => {
            let topic = reference.topic.as_str();
            let id = reference.element.as_str();
            lead_to(page, asker, standing, name, topic, id, faults)
        }
        target => Ok(Lead {
            href: href_outside(page, target)?,
            is_own: false,
        }),
    }
}

// Where a document leads, in it to a topic, or to an element of a topic: to the document's page for
// the context of this page.
#[tactic(auto, using(readers::proofs::Rules::walking))]
pub(crate) fn lead_to<'a, A: Asker>(
    page: PageRead<'a>,
    asker: &mut A,
    standing: PlacedElement<'a>,
    name: &Name,
    topic: &str,
    id: &str,
    faults: &mut List<Fault>,
) -> Result<Lead, NoMemory>
    requires { spec.IsPlaced page standing }
    ensures known { (here : Here) → Agrees here.world (A.told asker.new)
        → spec.IsHere (A.stand asker.old) page.entry here → IfOk result (λ lead. spec.IsLead here
        (anchors_spec.lead_of_document here (spec.element_of page.entry standing.entry) name.now topic.now
        id.now) lead faults.old faults.new) }
    ensures stand { A.stand asker.new ≡ A.stand asker.old }
    ensures founded { StaysFounded (name.now ∷ []) (A.told asker.old) (A.told asker.new) }
    ensures asks { AsksOnly documents_spec.nothing [] (A.told asker.old) (A.told asker.new) }
    ensures grows { Grows (A.told asker.old) (A.told asker.new) }
{
    let Some(number) = asker.page_of(page.alloc, name, page.context)? else {
        page.put_fault(standing, FaultCode::LinkNoPage, name.as_str(), faults)?;
        return Ok(Lead::nowhere());
    };
    lead_to_page(page, name, number, topic, id)
}

// Where a document leads that has the page of this number.
fn lead_to_page(
    page: PageRead<'_>,
    name: &Name,
    number: u32,
    topic: &str,
    id: &str,
) -> Result<Lead, NoMemory>
    ensures { (here : Here) (stand : Stand) (element : Element) (faults : List fault_spec.Fault)
        → spec.IsHere stand page.entry here
        → pages_spec.page_for here.pages name.now (arc_value page.entry.context.now).page
        ≡ Some number
        → IfOk result (λ lead. spec.IsLead here
        (anchors_spec.lead_of_page here element name.now topic.now id.now (Some number))
        lead faults faults) }
{
    let Some(other) = page_numbered(page.plan, number) else {
        return Ok(Lead::nowhere());
    };
    let mut href = relative(page.alloc, &page.context.name, &other.name)?;
    append_fragment(&mut href, topic, id)?;
    // The page of the page's own document for the page's own context is the page.
    let is_own = *name == page.context.page.doc;
    Ok(Lead {
        href: Some(href),
        is_own,
    })
}

fn page_numbered(plan: &Plan, number: u32) -> Option<&PagePlan>
    ensures { option_copied result ≡ slice_get plan.now.pages number }
{
    plan.pages.as_slice().get(number as usize)
}

// The href of what is no document of ours.
pub(crate) fn href_outside(page: PageRead<'_>, target: &Target) -> Result<Option<Text>, NoMemory>
    ensures { IfOk result (λ href. href
        ≡ spec.href_outside (arc_value page.entry.context.now).name target.now) }
{
    match target {
        Target::Nothing | Target::Local(..) => Ok(None),
        Target::File(name, rest) => {
            let mut href = relative(page.alloc, &page.context.name, name)?;
            href.append(rest.as_str())?;
            Ok(Some(href))
        }
        Target::Other(value) => Ok(Some(value.clone()?)),
    }
}

// Appends what stands behind a page's name for a topic, or for an element of it.
fn append_fragment(href: &mut Text, topic: &str, id: &str) -> Result<(), NoMemory>
    ensures { OnOk result (href.new ≡ href.old ++ anchors_spec.fragment topic.now id.now) }
{
    if topic.is_empty() && id.is_empty() {
        return Ok(());
    }
    href.append("#")?;
    href.append(topic)?;
    if !id.is_empty() {
        href.append("__")?;
        href.append(id)?;
    }
    Ok(())
}
