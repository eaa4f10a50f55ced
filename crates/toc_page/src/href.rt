//! What an item leads to.

ghost use Rattle.std.specs.Arc.{arc_value};
ghost use Rattle.std.specs.Prelude.{◌≡◌, ◌++◌, [], ◌∷◌, slice_get, IfOk, OnOk, Some};
ghost use Rattle.std.specs.Option.{option_copied, option_to_list};
ghost use Rattle.map_spec.specs.Pages as pages_spec;
ghost use Rattle.html_spec.specs.Contents as contents_spec;
ghost use Rattle.link_spec.specs.Links as links_spec;
ghost use Rattle.reader_spec.specs.World.{World};
ghost use Rattle.readers.specs.Documents as documents_spec;
ghost use Rattle.readers.specs.Documents.{AsksOnly};
ghost use Rattle.readers.specs.Founded.{Grows, StaysFounded};
ghost use Rattle.readers.specs.Only.{TellsOnly};
ghost use Rattle.readers.specs.Only as only_spec;
ghost use Rattle.readers.specs.Told.{Agrees};
ghost use Rattle.toc_page.specs.Made as made_spec;
ghost use Rattle.toc_page.specs.Toc as spec;

use crate::item::node_at;
use dita_doc::{Context, Name, NoMemory, PageId, Plan, PlanNode, Target, Text};
use plan_nodes::{copy_affixes, copy_names};
use readers::Asker;
use std::alloc::{AllocError, Global};
use std::sync::Arc;

/// What an item leads to: the page of its document, or a target that is no document of ours.
#[tactic(auto, using(crate::proofs::Walking::walking))]
pub(crate) fn href_of<A: Asker>(
    alloc: Global,
    asker: &mut A,
    plan: &Plan,
    at: usize,
    node: &PlanNode,
) -> Result<Option<Text>, NoMemory>
    ensures known { (world : World) → Agrees world (A.told asker.new)
        → (A.stand asker.old).setting.pages ≡ plan.now.pages
        → slice_get plan.now.nodes at ≡ Some node.now → IfOk result (λ href.
        href ≡ contents_spec.href_by plan.now at (links_spec.plan_target plan.now at)) }
    ensures stand { A.stand asker.new ≡ A.stand asker.old }
    ensures founded { StaysFounded (made_spec.contents_names plan.now) (A.told asker.old)
        (A.told asker.new) }
    ensures asks { AsksOnly documents_spec.nothing [] (A.told asker.old) (A.told asker.new) }
    ensures only { slice_get plan.now.nodes at ≡ Some node.now
        → OnOk result (TellsOnly (made_spec.is_page_of_nodes plan.now) (A.told asker.old)
        (A.told asker.new)) }
    ensures grows { Grows (A.told asker.old) (A.told asker.new) }
{
    match target_at(plan, at) {
        Some(target) => href_by(alloc, asker, plan, node, target),
        None => Ok(None),
    }
}

/// The target at this place, if there is one.
pub(crate) fn target_at(plan: &Plan, at: usize) -> Option<&Target>
    ensures { option_copied result ≡ slice_get plan.now.targets at }
{
    plan.targets.as_slice().get(at)
}

// What this target is.
#[tactic(auto, using(crate::proofs::Walking::walking))]
fn href_by<A: Asker>(
    alloc: Global,
    asker: &mut A,
    plan: &Plan,
    node: &PlanNode,
    target: &Target,
) -> Result<Option<Text>, NoMemory>
    ensures known { (world : World) → Agrees world (A.told asker.new)
        → IfOk result (λ href. href ≡ spec.href_to (A.stand asker.old).setting.pages plan.now
        node.now target.now) }
    ensures stand { A.stand asker.new ≡ A.stand asker.old }
    ensures founded { StaysFounded (option_to_list (pages_spec.local_name target.now))
        (A.told asker.old) (A.told asker.new) }
    ensures asks { AsksOnly documents_spec.nothing [] (A.told asker.old) (A.told asker.new) }
    ensures only { OnOk result (TellsOnly
        (made_spec.is_page_by plan.now (Some node.now) (pages_spec.local_name target.now))
        (A.told asker.old) (A.told asker.new)) }
    ensures grows { Grows (A.told asker.old) (A.told asker.new) }
{
    match target {
        Target::Local(name, _) => page_href(alloc, asker, plan, node, name),
        Target::File(name, rest) => Ok(Some(file_href(alloc, name, rest)?)),
        Target::Other(value) => Ok(Some(value.clone()?)),
        Target::Nothing => Ok(None),
    }
}

/// The name of a file, and what stands behind it.
pub(crate) fn file_href(alloc: Global, name: &Name, rest: &Text) -> Result<Text, AllocError>
    ensures { IfOk result (λ href. href ≡ name.now ++ rest.now) }
{
    let mut href = Text::from_str(alloc, name.as_str())?;
    href.append(rest.as_str())?;
    Ok(href)
}

// The name of the page that a document has for a node, if it has one.
#[tactic(auto, using(crate::proofs::Walking::walking))]
fn page_href<A: Asker>(
    alloc: Global,
    asker: &mut A,
    plan: &Plan,
    node: &PlanNode,
    name: &Name,
) -> Result<Option<Text>, NoMemory>
    ensures known { (world : World) → Agrees world (A.told asker.new)
        → IfOk result (λ href. href ≡ spec.page_named (A.stand asker.old).setting.pages plan.now
        name.now node.now) }
    ensures stand { A.stand asker.new ≡ A.stand asker.old }
    ensures founded { StaysFounded (name.now ∷ []) (A.told asker.old) (A.told asker.new) }
    ensures asks { AsksOnly documents_spec.nothing [] (A.told asker.old) (A.told asker.new) }
    ensures only { OnOk result (TellsOnly
        (only_spec.is_page_in (links_spec.map_of plan.now node.now) name.now
        (links_spec.context_of node.now name.now))
        (A.told asker.old) (A.told asker.new)) }
    ensures grows { Grows (A.told asker.old) (A.told asker.new) }
{
    let context = context_of(alloc, plan, node, name)?;
    let page = asker.page_of(alloc, name, &context)?;
    Ok(name_of_page(alloc, plan, page)?)
}

// The name of the page at this place, if there is one.
fn name_of_page(alloc: Global, plan: &Plan, page: Option<u32>) -> Result<Option<Text>, AllocError>
    ensures { IfOk result (λ name. name ≡ spec.page_name plan.now page) }
{
    let Some(page) = page else {
        return Ok(None);
    };
    match plan.pages.as_slice().get(page as usize) {
        Some(page) => Ok(Some(Text::from_str(alloc, page.name.as_str())?)),
        None => Ok(None),
    }
}

// Where a document is used by a node of a plan. The map is the plan's, and what sets pages apart is
// the node's. A plan does not say its DITAVAL, and only the answer says which page has a name.
fn context_of(
    alloc: Global,
    plan: &Plan,
    node: &PlanNode,
    name: &Name,
) -> Result<Arc<Context>, AllocError>
    ensures whole { IfOk result (λ context. arc_value context
        ≡ links_spec.use_of plan.now node.now name.now) }
    ensures page { IfOk result (λ context. (arc_value context).page
        ≡ links_spec.context_of node.now name.now) }
{
    let context = Context {
        map: map_of(plan, node).clone()?,
        val: None,
        page: PageId {
            doc: name.clone()?,
            scope: node.scope,
            filters: copy_names(alloc, node.filters.as_slice())?,
            affixes: copy_affixes(alloc, node.affixes.as_slice())?,
        },
        name: name.clone()?,
    };
    Ok(Arc::new(alloc, context)?)
}

// The document of the plan's map, in which its first node stands.
fn map_of<'p>(plan: &'p Plan, node: &'p PlanNode) -> &'p Name
    ensures { result.now ≡ links_spec.map_of plan.now node.now }
{
    match node_at(plan, 0) {
        Some(root) => &root.doc,
        None => &node.doc,
    }
}
