//! The items, each with its label and its link.

ghost use Rattle.std.specs.Prelude.{◌≡◌, ◌++◌, [], codes, false, slice_get, unwrap_or, OnOk, Some};
ghost use Rattle.std.specs.List.{flat_map};
ghost use Rattle.std.specs.Option.{option_copied};
ghost use Rattle.dita_doc.specs.HtmlEscapes as html_escapes_spec;
ghost use Rattle.html_spec.specs.Blocks as blocks_spec;
ghost use Rattle.html_spec.specs.Contents as contents_spec;
ghost use Rattle.link_spec.specs.Links as links_spec;
ghost use Rattle.plan_nodes.specs.Preorder as preorder_spec;
ghost use Rattle.reader_spec.specs.World.{World};
ghost use Rattle.readers.specs.Documents as documents_spec;
ghost use Rattle.readers.specs.Documents.{AsksOnly};
ghost use Rattle.readers.specs.Founded.{Grows, StaysFounded};
ghost use Rattle.readers.specs.Only.{TellsOnly};
ghost use Rattle.readers.specs.Told.{Agrees};
ghost use Rattle.toc_page.specs.Made as made_spec;
ghost use Rattle.toc_page.specs.Opened as opened_spec;
ghost use Rattle.toc_page.specs.Toc as spec;

use crate::href::href_of;
use crate::label::label_of;
use crate::list::OpenItems;
use crate::titles::navtitle_of;
use dita_doc::{
    Attribute, NoMemory, Plan, PlanKind, PlanNode, Target, Text, append_html, append_html_value,
};
use ditaval_rules::is_conditional;
use html_page::append_anchor;
use key_scopes::ScopeTable;
use plan_nodes::NodeElements;
use readers::Asker;
use std::alloc::{AllocError, Global};

/// A plan with the elements of its nodes, its keys if they are needed, and for each node whether it
/// stands in a relationship table.
#[derive(Clone, Copy)]
pub(crate) struct Toc<'a> {
    pub plan: &'a Plan,
    pub homes: &'a NodeElements,
    pub keys: &'a Option<ScopeTable>,
    pub in_tables: &'a [bool],
}

/// Appends the list of the items, if there are any.
#[tactic(auto, using(crate::proofs::Walking::walking))]
pub(crate) fn append_items<A: Asker>(
    alloc: Global,
    asker: &mut A,
    toc: Toc<'_>,
    out: &mut Text,
) -> Result<(), NoMemory>
    ensures known { (world : World) → Agrees world (A.told asker.new)
        → spec.IsToc world toc.entry
        → (A.stand asker.old).setting.pages ≡ toc.entry.plan.now.pages
        → preorder_spec.IsTree toc.entry.plan.now.nodes → OnOk result (out.new ≡ out.old
        ++ contents_spec.list_text (contents_spec.items world toc.entry.plan.now)) }
    ensures stand { A.stand asker.new ≡ A.stand asker.old }
    ensures founded { StaysFounded (made_spec.contents_names toc.entry.plan.now)
        (A.told asker.old) (A.told asker.new) }
    ensures asks { AsksOnly documents_spec.nothing [] (A.told asker.old) (A.told asker.new) }
    ensures only { OnOk result (TellsOnly (made_spec.is_of_contents toc.entry.plan.now)
        (A.told asker.old) (A.told asker.new)) }
    ensures grows { Grows (A.told asker.old) (A.told asker.new) }
{
    let mut items = OpenItems::new(alloc);
    let count = toc.plan.nodes.len();
    for at in 1..count {
        append_node(alloc, asker, toc, at, &mut items, out)?;
    }
    items.close(out)?;
    Ok(())
}

// Appends the item that the node at this place is, up to the items below it, if it is one.
#[tactic(auto, using(crate::proofs::Walking::walking))]
fn append_node<A: Asker>(
    alloc: Global,
    asker: &mut A,
    toc: Toc<'_>,
    at: usize,
    items: &mut OpenItems,
    out: &mut Text,
) -> Result<(), NoMemory>
    ensures known { (world : World) → Agrees world (A.told asker.new)
        → spec.IsToc world toc.entry
        → (A.stand asker.old).setting.pages ≡ toc.entry.plan.now.pages
        → OnOk result (spec.IsStep world toc.entry.plan.now at items.old items.new out.old
        out.new) }
    ensures stand { A.stand asker.new ≡ A.stand asker.old }
    ensures founded { StaysFounded (made_spec.contents_names toc.entry.plan.now)
        (A.told asker.old) (A.told asker.new) }
    ensures asks { AsksOnly documents_spec.nothing [] (A.told asker.old) (A.told asker.new) }
    ensures only { OnOk result (TellsOnly (made_spec.is_of_contents toc.entry.plan.now)
        (A.told asker.old) (A.told asker.new)) }
    ensures grows { Grows (A.told asker.old) (A.told asker.new) }
{
    let Some(node) = node_at(toc.plan, at) else {
        return Ok(());
    };
    if !may_be_item(node, is_within(toc.in_tables, at)) {
        return Ok(());
    }
    let navtitle = navtitle_of(alloc, toc.homes, at)?;
    if !is_told(toc, at, &navtitle) {
        return Ok(());
    }
    items.begin_item(out, at, node.end)?;
    append_front(alloc, asker, toc, at, node, navtitle, out)?;
    Ok(())
}

/// The node at this place, if there is one.
pub(crate) fn node_at(plan: &Plan, at: usize) -> Option<&PlanNode>
    ensures { option_copied result ≡ slice_get plan.now.nodes at }
{
    plan.nodes.as_slice().get(at)
}

// Appends an item up to the items below it.
#[tactic(auto, using(crate::proofs::Walking::walking))]
fn append_front<A: Asker>(
    alloc: Global,
    asker: &mut A,
    toc: Toc<'_>,
    at: usize,
    node: &PlanNode,
    navtitle: Text,
    out: &mut Text,
) -> Result<(), NoMemory>
    ensures known { (world : World) → Agrees world (A.told asker.new)
        → spec.IsToc world toc.entry
        → (A.stand asker.old).setting.pages ≡ toc.entry.plan.now.pages
        → slice_get toc.entry.plan.now.nodes at ≡ Some node.now
        → navtitle ≡ contents_spec.navtitle_of world node.now → OnOk result (out.new
        ≡ out.old ++ spec.item_front world toc.entry.plan.now at node.now) }
    ensures stand { A.stand asker.new ≡ A.stand asker.old }
    ensures founded { StaysFounded (made_spec.contents_names toc.entry.plan.now)
        (A.told asker.old) (A.told asker.new) }
    ensures asks { AsksOnly documents_spec.nothing [] (A.told asker.old) (A.told asker.new) }
    ensures only { slice_get toc.entry.plan.now.nodes at ≡ Some node.now
        → OnOk result (TellsOnly (made_spec.is_of_contents toc.entry.plan.now)
        (A.told asker.old) (A.told asker.new)) }
    ensures grows { Grows (A.told asker.old) (A.told asker.new) }
{
    append_start(out, node.cascaded.as_slice())?;
    let label = label_of(alloc, asker, toc, at, node, navtitle)?;
    let href = href_of(alloc, asker, toc.plan, at, node)?;
    Ok(append_linked(out, href, &label)?)
}

// Whether a node is an item, if it has a target or a title.
fn may_be_item(node: &PlanNode, is_in_table: bool) -> bool
    ensures { result ≡ spec.may_be_item is_in_table node.now }
{
    node.kind == PlanKind::Reference
        && !is_in_table
        && has_cascaded(node, "processing-role", "normal")
        && !has_cascaded(node, "toc", "no")
}

// Whether a place stands in a relationship table, as the list for all places tells it.
fn is_within(in_tables: &[bool], at: usize) -> bool
    ensures { result ≡ unwrap_or (slice_get in_tables.now at) false }
{
    in_tables.get(at).copied().unwrap_or(false)
}

fn has_cascaded(node: &PlanNode, name: &str, value: &str) -> bool
    ensures { result ≡ contents_spec.cascaded_is name.now value.now node.now }
{
    node.cascaded.as_slice().iter().any(|given| given.name.as_str() == name
        && given.value.as_str() == value)
}

// Whether a node has a target or a title.
fn is_told(toc: Toc<'_>, at: usize, navtitle: &Text) -> bool
    ensures { result ≡ spec.is_told toc.entry.plan.now at navtitle.now }
{
    !is_nothing(toc, at) || !navtitle.is_empty()
}

fn is_nothing(toc: Toc<'_>, at: usize) -> bool
    ensures { result ≡ contents_spec.is_no_target (links_spec.plan_target toc.entry.plan.now at) }
{
    matches!(
        toc.plan.targets.as_slice().get(at),
        None | Some(Target::Nothing)
    )
}

// Appends the start tag of an item, with the conditional attributes of its node.
fn append_start(out: &mut Text, cascaded: &[Attribute]) -> Result<(), AllocError>
    ensures { OnOk result (out.new ≡ out.old ++ blocks_spec.start_tag (codes "li")
        (flat_map contents_spec.data_text cascaded.now)) }
{
    out.append("<li")?;
    for given in cascaded {
        append_data(out, given)?;
    }
    out.append(">")
}

// Appends an attribute, if it is a conditional one.
fn append_data(out: &mut Text, given: &Attribute) -> Result<(), AllocError>
    ensures { OnOk result (out.new ≡ out.old ++ contents_spec.data_text given.now) }
{
    if !is_conditional(given.name.as_str()) {
        return Ok(());
    }
    out.append(" data-")?;
    out.append(given.name.as_str())?;
    out.append("=\"")?;
    append_html_value(out, given.value.as_str())?;
    out.append("\"")
}

// Appends a label, which leads where the item leads.
fn append_linked(out: &mut Text, href: Option<Text>, label: &Text) -> Result<(), AllocError>
    ensures { OnOk result (out.new ≡ out.old
        ++ contents_spec.linked href (html_escapes_spec.escaped label.now)) }
{
    match href {
        Some(href) => append_anchor(out, href.as_str(), label.as_str()),
        None => append_html(out, label.as_str()),
    }
}
