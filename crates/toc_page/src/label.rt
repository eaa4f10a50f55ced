//! The label of an item.

ghost use Rattle.std.specs.Prelude.{◌≡◌, ◌∷◌, ◌++◌, ◌||◌, ◌&&◌, [], true, not, slice_get, unwrap_or, IfOk, OnOk, Some};
ghost use Rattle.std.specs.Option.{option_to_list};
ghost use Rattle.map_spec.specs.Pages as pages_spec;
ghost use Rattle.dita_doc.specs.declared.plan.Target.TheVariants as targets_spec;
ghost use Rattle.html_spec.specs.Contents as contents_spec;
ghost use Rattle.link_spec.specs.Links as links_spec;
ghost use Rattle.reader_spec.specs.World.{World};
ghost use Rattle.readers.specs.Documents as documents_spec;
ghost use Rattle.readers.specs.Documents.{AsksOnly};
ghost use Rattle.readers.specs.Founded.{Grows, StaysFounded};
ghost use Rattle.readers.specs.Only as only_spec;
ghost use Rattle.readers.specs.Only.{TellsOnly};
ghost use Rattle.readers.specs.Told as told_spec;
ghost use Rattle.readers.specs.Told.{Agrees};
ghost use Rattle.toc_page.specs.Made as made_spec;
ghost use Rattle.toc_page.specs.Toc as spec;

use crate::href::{file_href, target_at};
use crate::item::Toc;
use crate::keys::is_keyed;
use dita_doc::{Name, NoMemory, PlanNode, Target, Text};
use readers::Asker;
use std::alloc::{AllocError, Global};

/// The label of an item. The title that the node says of itself counts if it is locked, or if the
/// target is no document of ours.
#[tactic(auto, using(crate::proofs::Walking::walking))]
pub(crate) fn label_of<A: Asker>(
    alloc: Global,
    asker: &mut A,
    toc: Toc<'_>,
    at: usize,
    node: &PlanNode,
    navtitle: Text,
) -> Result<Text, NoMemory>
    ensures known { (world : World) → Agrees world (A.told asker.new)
        → spec.IsToc world toc.entry
        → slice_get toc.entry.plan.now.nodes at ≡ Some node.now
        → navtitle ≡ contents_spec.navtitle_of world node.now → IfOk result (λ label.
        label ≡ contents_spec.label_of world toc.entry.plan.now at node.now) }
    ensures stand { A.stand asker.new ≡ A.stand asker.old }
    ensures founded { StaysFounded (made_spec.contents_names toc.entry.plan.now)
        (A.told asker.old) (A.told asker.new) }
    ensures asks { AsksOnly documents_spec.nothing [] (A.told asker.old) (A.told asker.new) }
    ensures only { OnOk result (TellsOnly (made_spec.is_title_of_targets toc.entry.plan.now)
        (A.told asker.old) (A.told asker.new)) }
    ensures grows { Grows (A.told asker.old) (A.told asker.new) }
{
    if navtitle_counts(toc, at, &navtitle) {
        return Ok(navtitle);
    }
    label_by_target(alloc, asker, toc, at, node)
}

// Whether the title that a node says of itself is its label.
fn navtitle_counts(toc: Toc<'_>, at: usize, navtitle: &Text) -> bool
    ensures { result ≡ spec.navtitle_counts toc.entry.plan.now toc.entry.homes.now at
        navtitle.now }
{
    !navtitle.is_empty() && (is_locked(toc, at) || !is_local(toc, at))
}

// The label by the target: the title of a document of ours, else the value.
#[tactic(auto, using(crate::proofs::Walking::walking))]
fn label_by_target<A: Asker>(
    alloc: Global,
    asker: &mut A,
    toc: Toc<'_>,
    at: usize,
    node: &PlanNode,
) -> Result<Text, NoMemory>
    ensures known { (world : World) → Agrees world (A.told asker.new)
        → spec.IsToc world toc.entry
        → slice_get toc.entry.plan.now.nodes at ≡ Some node.now → IfOk result (λ label. label
        ≡ contents_spec.label_by_target world toc.entry.plan.now node.now
        (links_spec.plan_target toc.entry.plan.now at)) }
    ensures stand { A.stand asker.new ≡ A.stand asker.old }
    ensures founded { StaysFounded (made_spec.contents_names toc.entry.plan.now)
        (A.told asker.old) (A.told asker.new) }
    ensures asks { AsksOnly documents_spec.nothing [] (A.told asker.old) (A.told asker.new) }
    ensures only { OnOk result (TellsOnly (made_spec.is_title_of_targets toc.entry.plan.now)
        (A.told asker.old) (A.told asker.new)) }
    ensures grows { Grows (A.told asker.old) (A.told asker.new) }
{
    match target_at(toc.plan, at) {
        Some(target) => label_by(alloc, asker, toc, at, node, target),
        None => Ok(Text::new(alloc)),
    }
}

// The label by this target.
#[tactic(auto, using(crate::proofs::Walking::walking))]
fn label_by<A: Asker>(
    alloc: Global,
    asker: &mut A,
    toc: Toc<'_>,
    at: usize,
    node: &PlanNode,
    target: &Target,
) -> Result<Text, NoMemory>
    ensures known { (world : World) → Agrees world (A.told asker.new)
        → spec.IsToc world toc.entry
        → slice_get toc.entry.plan.now.nodes at ≡ Some node.now
        → target.now ≡ links_spec.plan_target toc.entry.plan.now at → IfOk result (λ label. label
        ≡ contents_spec.label_by_target world toc.entry.plan.now node.now target.now) }
    ensures stand { A.stand asker.new ≡ A.stand asker.old }
    ensures founded { StaysFounded (option_to_list (pages_spec.local_name target.now))
        (A.told asker.old) (A.told asker.new) }
    ensures asks { AsksOnly documents_spec.nothing [] (A.told asker.old) (A.told asker.new) }
    ensures only { OnOk result (TellsOnly
        (only_spec.is_title_among (option_to_list (pages_spec.local_name target.now)))
        (A.told asker.old) (A.told asker.new)) }
    ensures grows { Grows (A.told asker.old) (A.told asker.new) }
{
    match target {
        Target::Local(name, _) => document_title(alloc, asker, name),
        Target::File(name, rest) => Ok(file_label(alloc, toc, at, node, name, rest)?),
        Target::Other(value) => Ok(value.clone()?),
        Target::Nothing => Ok(Text::new(alloc)),
    }
}

// The title of a document: that of its first topic.
fn document_title<A: Asker>(alloc: Global, asker: &mut A, name: &Name) -> Result<Text, NoMemory>
    ensures told { IfOk result (λ text. A.told asker.new
        ≡ told_spec.title name.now [] text ∷ A.told asker.old) }
    ensures stand { A.stand asker.new ≡ A.stand asker.old }
    ensures founded { StaysFounded (name.now ∷ []) (A.told asker.old) (A.told asker.new) }
    ensures asks { AsksOnly documents_spec.nothing [] (A.told asker.old) (A.told asker.new) }
    ensures grows { Grows (A.told asker.old) (A.told asker.new) }
{
    let no_topic = Text::new(alloc);
    asker.title(alloc, name, &no_topic)
}

fn is_local(toc: Toc<'_>, at: usize) -> bool
    ensures { result ≡ contents_spec.is_local (links_spec.plan_target toc.entry.plan.now at) }
{
    matches!(
        toc.plan.targets.as_slice().get(at),
        Some(Target::Local(_, _))
    )
}

fn is_locked(toc: Toc<'_>, at: usize) -> bool
    ensures { result ≡ spec.is_locked_in toc.entry.homes.now at }
{
    match toc.homes.value(at, "locktitle") {
        Some(value) => value == "yes",
        None => false,
    }
}

// The label of a file: the value as it was written, or its name if a key gives the file.
fn file_label(
    alloc: Global,
    toc: Toc<'_>,
    at: usize,
    node: &PlanNode,
    name: &Name,
    rest: &Text,
) -> Result<Text, NoMemory>
    ensures { (world : World) → spec.IsToc world toc.entry
        → slice_get toc.entry.plan.now.nodes at ≡ Some node.now
        → spec.is_file (links_spec.plan_target toc.entry.plan.now at) ≡ true
        → IfOk result (λ label. label
        ≡ contents_spec.label_by_target world toc.entry.plan.now node.now
        (targets_spec.File name.now rest.now)) }
{
    if is_keyed(alloc, toc.keys, toc.homes, at, node)? {
        return Ok(file_href(alloc, name, rest)?);
    }
    let href = toc.homes.value(at, "href").unwrap_or("");
    Ok(Text::from_str(alloc, href)?)
}
