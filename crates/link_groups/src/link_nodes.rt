//! The nodes that links go from and to.

ghost use Rattle.std.specs.Arc.{arc_value};
ghost use Rattle.std.specs.Prelude.{◌≡◌, ◌&&◌, [], ◌∷◌, ℕ, IfOk, OnOk, slice_get};
ghost use Rattle.std.specs.Option.{option_copied};
ghost use Rattle.dita_doc.specs.declared.plan.Plan as plan_spec;
ghost use Rattle.link_groups.specs.LinkNodes as spec;
ghost use Rattle.map_spec.specs.Pages.{local_name, page_for};
ghost use Rattle.link_spec.specs.Links as links_spec;
ghost use Rattle.plan_nodes.specs.Carried.{CarryValues};
ghost use Rattle.reader_spec.specs.World.{World};
ghost use Rattle.readers.specs.Documents as documents_spec;
ghost use Rattle.readers.specs.Documents.{AsksOnly};
ghost use Rattle.readers.specs.Founded.{Grows, StaysFounded};
ghost use Rattle.readers.specs.Told.{Agrees};

use dita_doc::{Context, Name, NoMemory, PageId, Plan, PlanNode, Target};
use plan_nodes::{copy_affixes, copy_names, place_of};
use readers::Asker;
use std::alloc::Global;
use std::collections::BTreeMap;
use std::sync::Arc;

/// A node that has a page: its place in the plan, the page, and what its `linking` allows. Nodes
/// are ordered by their places.
#[derive(Clone, Copy, PartialEq, Eq, PartialOrd, Ord)]
pub struct LinkNode {
    pub at: u32,
    pub page: u32,
    /// Links may go from its page.
    pub is_source: bool,
    /// Links may lead to its page.
    pub is_target: bool,
}

impl LinkNode {
    /// Whether a link may go from this node to the other.
    pub fn may_link(&self, other: &LinkNode) -> bool
        ensures { result ≡ (self.now.is_source && other.now.is_target) }
    {
        self.is_source && other.is_target
    }
}

/// The nodes of a plan that were asked for their pages.
#[derive(Drop)]
pub struct LinkNodes {
    known: BTreeMap<u32, Option<LinkNode>>,
}

impl LinkNodes {
    /// No node was asked for.
    pub fn new(alloc: Global) -> LinkNodes
        ensures { (world : World) (plan : plan_spec.Plan) → spec.AreLinkNodes world plan result }
    {
        LinkNodes {
            known: BTreeMap::new(alloc),
        }
    }

    /// The node at this place, if it has a page. The asker is asked once for it, as the node uses
    /// its document.
    #[tactic(auto, using(readers::proofs::Rules::walking))]
    pub fn find<A: Asker>(
        &mut self,
        alloc: Global,
        asker: &mut A,
        plan: &Plan,
        at: usize,
    ) -> Result<Option<LinkNode>, NoMemory>
        ensures known { (world : World) → Agrees world (A.told asker.new)
            → CarryValues world plan.now.nodes
            → (A.stand asker.old).setting.pages ≡ plan.now.pages
            → spec.AreLinkNodes world plan.now self.old
            → IfOk result (λ found. spec.IsLinkNode world plan.now at found self.new) }
        ensures asked { OnOk result (spec.AsksOfNode plan.now at
            (A.stand asker.old).setting.pages (A.told asker.old) (A.told asker.new)) }
        ensures stand { A.stand asker.new ≡ A.stand asker.old }
        ensures founded { StaysFounded (spec.plan_names plan.now) (A.told asker.old)
            (A.told asker.new) }
        ensures asks { AsksOnly documents_spec.nothing [] (A.told asker.old) (A.told asker.new) }
        ensures grows { Grows (A.told asker.old) (A.told asker.new) }
    {
        let Some(name) = name_at(plan, at) else {
            return Ok(None);
        };
        let Some(node) = node_at(plan, at) else {
            return Ok(None);
        };
        let place = place_of(at)?;
        if let Some(known) = self.known.get(&place) {
            return Ok(*known);
        }
        let found = link_node_of(alloc, asker, plan, place, node, name)?;
        let _ = self.known.insert(place, found)?;
        Ok(found)
    }
}

/// The document to which the node at this place leads, if it is local.
pub fn name_at(plan: &Plan, at: usize) -> Option<&Name>
    ensures { option_copied result ≡ local_name (links_spec.plan_target plan.now at) }
{
    match plan.targets.as_slice().get(at) {
        Some(Target::Local(name, _)) => Some(name),
        _ => None,
    }
}

/// The node at this place of the plan, if there is one.
pub fn node_at(plan: &Plan, at: usize) -> Option<&PlanNode>
    ensures { option_copied result ≡ slice_get plan.now.nodes at }
{
    plan.nodes.as_slice().get(at)
}

// Asks for the page of a node that leads to this document.
#[tactic(auto, using(readers::proofs::Rules::walking))]
fn link_node_of<A: Asker>(
    alloc: Global,
    asker: &mut A,
    plan: &Plan,
    at: u32,
    node: &PlanNode,
    name: &Name,
) -> Result<Option<LinkNode>, NoMemory>
    ensures known { (world : World) → Agrees world (A.told asker.new)
        → IfOk result (λ found. found ≡ spec.link_node_of (page_for (A.stand asker.old).setting.pages
        name.now (links_spec.context_of node.now name.now)) at node.now) }
    ensures asked { OnOk result (spec.AsksPage (A.stand asker.old).setting.pages name.now
        (links_spec.use_of plan.now node.now name.now) (A.told asker.old) (A.told asker.new)) }
    ensures stand { A.stand asker.new ≡ A.stand asker.old }
    ensures founded { StaysFounded (name.now ∷ []) (A.told asker.old) (A.told asker.new) }
    ensures asks { AsksOnly documents_spec.nothing [] (A.told asker.old) (A.told asker.new) }
    ensures grows { Grows (A.told asker.old) (A.told asker.new) }
{
    let context = context_of(alloc, plan, node, name)?;
    let page = asker.page_of(alloc, name, &context)?;
    Ok(link_node(at, page, node))
}

fn link_node(at: u32, page: Option<u32>, node: &PlanNode) -> Option<LinkNode>
    ensures { result ≡ spec.link_node_of page at node.now }
{
    let page = page?;
    let linking = linking_of(node);
    Some(LinkNode {
        at,
        page,
        is_source: is_either(linking, "normal", "sourceonly"),
        is_target: is_either(linking, "normal", "targetonly"),
    })
}

fn is_either(value: &str, one: &str, other: &str) -> bool
    ensures { result ≡ links_spec.is_one_of (one.now ∷ other.now ∷ []) value.now }
{
    value == one || value == other
}

// The value of `linking` that holds for a node.
fn linking_of(node: &PlanNode) -> &str
    ensures { result.now ≡ spec.linking_of node.now }
{
    match node.cascaded_value("linking") {
        Some(linking) => linking,
        None => "normal",
    }
}

// Where a document is used by a node of a plan. The map is the plan's, and what sets pages apart is
// the node's. A plan does not say its DITAVAL, and only the answer says which page has a name.
fn context_of(
    alloc: Global,
    plan: &Plan,
    node: &PlanNode,
    name: &Name,
) -> Result<Arc<Context>, NoMemory>
    ensures whole { IfOk result (λ context. arc_value context ≡ links_spec.use_of plan.now node.now name.now) }
    ensures page { IfOk result (λ context.
        (arc_value context).page ≡ links_spec.context_of node.now name.now) }
{
    let page = PageId {
        doc: name.clone()?,
        scope: node.scope,
        filters: copy_names(alloc, node.filters.as_slice())?,
        affixes: copy_affixes(alloc, node.affixes.as_slice())?,
    };
    let context = Context {
        map: map_of(plan, node).clone()?,
        val: None,
        page,
        name: name.clone()?,
    };
    Ok(Arc::new(alloc, context)?)
}

// The document of the plan's map, in which its first node stands.
fn map_of<'p>(plan: &'p Plan, node: &'p PlanNode) -> &'p Name
    ensures { result.now ≡ links_spec.map_of plan.now node.now }
{
    match node_at(plan, 0) {
        Some(root) => &root.doc,
        None => &node.doc,
    }
}
