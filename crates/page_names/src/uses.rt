//! What the nodes of a map lead to and use, and what was met on the way.

ghost use Rattle.std.specs.Prelude.{◌≡◌, ◌+◌, ◌++◌, ◌&&◌, [], ◌∷◌, ℕ, IfOk, OnOk, Some, bytes_eq, codes, length, map, slice_get, if◌then◌else◌, None};
ghost use Rattle.std.specs.Option.{option_copied, option_to_list};
ghost use Rattle.map_spec.specs.Cascade as cascade_spec;
ghost use Rattle.map_spec.specs.Pages as pages_spec;
ghost use Rattle.page_names.specs.Aims as aims_spec;
ghost use Rattle.page_names.specs.PageUses as page_uses_spec;
ghost use Rattle.page_names.specs.Used as used_spec;
ghost use Rattle.page_names.specs.Uses as spec;
ghost use Rattle.plan_nodes.specs.Home as home_spec;
ghost use Rattle.plan_nodes.specs.Preorder as preorder_spec;
ghost use Rattle.reader_spec.specs.World.{World};
ghost use Rattle.readers.specs.Documents as documents_spec;
ghost use Rattle.readers.specs.Documents.{AsksOnly};
ghost use Rattle.readers.specs.Founded as founded_spec;
ghost use Rattle.readers.specs.Founded.{Grows, StaysFounded};
ghost use Rattle.readers.specs.Told.{Agrees};

use crate::aim::{is_reference, target_of};
use crate::documents::Documents;
use crate::page_uses::PageUses;
use dita_doc::{DocKind, Fault, FaultCode, List, Name, NoMemory, Node, PlanNode, Target};
use plan_nodes::{NodeElements, fault_of, in_tables};
use readers::Keys;
use std::alloc::Global;

/// What the nodes of a map lead to and use, in order.
#[derive(Drop)]
pub(crate) struct Uses {
    pub pages: PageUses,
    pub targets: List<Target>,
    pub documents: Documents,
    pub faults: List<Fault>,
}

impl Uses {
    /// Goes over all nodes in order.
    #[tactic(auto, using(readers::proofs::Rules::walking))]
    pub(crate) fn of<K: Keys>(
        alloc: Global,
        asker: &mut K,
        nodes: &[PlanNode],
    ) -> Result<Uses, NoMemory>
        ensures known { spec.AreReady (K.stand asker.old).setting.nodes (K.stand asker.old).world
            nodes.now → (world : World) → Agrees world (K.told asker.new)
            → IfOk result (λ uses. spec.AreUses world nodes.now (length nodes.now) uses) }
        ensures stand { K.stand asker.new ≡ K.stand asker.old }
        ensures founded { (K.stand asker.old).setting.nodes ≡ nodes.now
            → StaysFounded (founded_spec.homes nodes.now) (K.told asker.old)
            (K.told asker.new) }
        ensures asks { AsksOnly documents_spec.nothing (founded_spec.homes nodes.now)
            (K.told asker.old) (K.told asker.new) }
        ensures grows { Grows (K.told asker.old) (K.told asker.new) }
    {
        let homes = NodeElements::of(alloc, asker, nodes)?;
        let inside = in_tables(alloc, nodes)?;
        let mut uses = Uses::new(alloc);
        for (at, node) in nodes.iter().enumerate() {
            let is_in_table = is_within(&inside, at);
            uses.add_node(alloc, asker, &homes, at, node, is_in_table)?;
        }
        Ok(uses)
    }

    fn new(alloc: Global) -> Uses
        ensures { (world : World) (nodes : spec.Nodes) → spec.AreUses world nodes 0 result }
    {
        Uses {
            pages: PageUses::new(alloc),
            targets: List::new(alloc),
            documents: Documents::new(alloc),
            faults: List::new(alloc),
        }
    }

    // Adds what a node leads to and uses.
    #[tactic(auto, using(readers::proofs::Rules::walking))]
    fn add_node<K: Keys>(
        &mut self,
        alloc: Global,
        asker: &mut K,
        homes: &NodeElements,
        at: usize,
        node: &PlanNode,
        is_in_table: bool,
    ) -> Result<(), NoMemory>
        ensures known { (world : World) (nodes : spec.Nodes) → Agrees world (K.told asker.new)
            → spec.AreReady (K.stand asker.old).setting.nodes world nodes
            → homes.now ≡ map (cascade_spec.whole_at world) nodes
            → slice_get nodes at ≡ Some node.now
            → is_in_table ≡ preorder_spec.is_in_table_at nodes at
            → spec.AreUses world nodes at self.old
            → OnOk result (spec.AreUses world nodes (at + 1) self.new) }
        ensures stand { K.stand asker.new ≡ K.stand asker.old }
        ensures founded { aims_spec.IsGiven (K.told asker.old) node.now.doc
            (home_spec.value_at homes.now at (codes "href"))
            → StaysFounded (founded_spec.homes (K.stand asker.old).setting.nodes)
            (K.told asker.old) (K.told asker.new) }
        ensures asks { AsksOnly documents_spec.nothing [] (K.told asker.old) (K.told asker.new) }
        ensures grows { Grows (K.told asker.old) (K.told asker.new) }
    {
        let target = aim(alloc, asker, homes, at, node, &mut self.faults)?;
        let name = used_name(&target, is_in_table);
        self.add_use(alloc, asker, at, node, name)?;
        self.targets.push(target)?;
        Ok(())
    }

    // Adds the use of a document by a node, if it uses one, and the page that it makes.
    #[tactic(auto, using(readers::proofs::Rules::walking))]
    fn add_use<K: Keys>(
        &mut self,
        alloc: Global,
        asker: &mut K,
        at: usize,
        node: &PlanNode,
        name: Option<&Name>,
    ) -> Result<(), NoMemory>
        ensures known { (world : World) (nodes : spec.Nodes) (names : spec.Texts)
            (uses : page_uses_spec.Uses) → Agrees world (K.told asker.new)
            → aims_spec.Carries world nodes at node.now
            → used_spec.AreUsed world names self.old.documents
            → page_uses_spec.AreFirst uses self.old.pages
            → OnOk result (spec.IsAdded world nodes at node.now names uses
            (option_copied name.entry) self.old self.new) }
        ensures stand { K.stand asker.new ≡ K.stand asker.old }
        ensures founded { StaysFounded (option_to_list (option_copied name.entry))
            (K.told asker.old) (K.told asker.new) }
        ensures asks { AsksOnly documents_spec.nothing [] (K.told asker.old) (K.told asker.new) }
        ensures grows { Grows (K.told asker.old) (K.told asker.new) }
    {
        match name {
            None => Ok(()),
            Some(name) => self.add_name(alloc, asker, at, node, name),
        }
    }

    // Adds the use of this document by a node.
    #[tactic(auto, using(readers::proofs::Rules::walking))]
    fn add_name<K: Keys>(
        &mut self,
        alloc: Global,
        asker: &mut K,
        at: usize,
        node: &PlanNode,
        name: &Name,
    ) -> Result<(), NoMemory>
        ensures known { (world : World) (nodes : spec.Nodes) (names : spec.Texts)
            (uses : page_uses_spec.Uses) → Agrees world (K.told asker.new)
            → aims_spec.Carries world nodes at node.now
            → used_spec.AreUsed world names self.old.documents
            → page_uses_spec.AreFirst uses self.old.pages
            → OnOk result (spec.IsAdded world nodes at node.now names uses (Some name.now)
            self.old self.new) }
        ensures stand { K.stand asker.new ≡ K.stand asker.old }
        ensures founded { StaysFounded (name.now ∷ []) (K.told asker.old) (K.told asker.new) }
        ensures asks { AsksOnly documents_spec.nothing [] (K.told asker.old) (K.told asker.new) }
        ensures grows { Grows (K.told asker.old) (K.told asker.new) }
    {
        let kind = self.documents.kind(alloc, asker, name)?;
        append_kind(alloc, node, name, kind, &mut self.faults)?;
        if makes_page(node, kind) {
            self.pages.put(alloc, at, node, name)?;
        }
        Ok(())
    }
}

fn is_within(inside: &[bool], at: usize) -> bool
    ensures { result ≡ spec.told_at inside.now at }
{
    inside.get(at).copied().unwrap_or(false)
}

// What a node leads to. Appends the faults of its attributes, and those met on the way.
#[tactic(auto, using(readers::proofs::Rules::walking))]
fn aim<K: Keys>(
    alloc: Global,
    asker: &mut K,
    homes: &NodeElements,
    at: usize,
    node: &PlanNode,
    faults: &mut List<Fault>,
) -> Result<Target, NoMemory>
    ensures known { (world : World) (nodes : spec.Nodes) → Agrees world (K.told asker.new)
        → (K.stand asker.old).setting.nodes ≡ nodes
        → homes.now ≡ map (cascade_spec.whole_at world) nodes
        → slice_get nodes at ≡ Some node.now → aims_spec.Carries world nodes at node.now
        → IfOk result (λ target. aims_spec.IsAim (pages_spec.with_more
        (pages_spec.ignored_at world node.now) (pages_spec.aim_of world nodes at node.now))
        target faults.old faults.new) }
    ensures given { aims_spec.IsGiven (K.told asker.old) node.now.doc
        (home_spec.value_at homes.now at (codes "href"))
        → IfOk result (λ target. aims_spec.MayName (K.told asker.new) target) }
    ensures stand { K.stand asker.new ≡ K.stand asker.old }
    ensures founded { StaysFounded (founded_spec.homes (K.stand asker.old).setting.nodes)
        (K.told asker.old) (K.told asker.new) }
    ensures asks { AsksOnly documents_spec.nothing [] (K.told asker.old) (K.told asker.new) }
    ensures grows { Grows (K.told asker.old) (K.told asker.new) }
{
    let element = homes.element(at);
    let copy_to = value_in(element, "copy-to");
    append_value(alloc, node, FaultCode::CopyTo, copy_to, faults)?;
    let chunk = value_in(element, "chunk");
    append_value(alloc, node, FaultCode::Chunk, chunk, faults)?;
    if !is_reference(node.kind) {
        return Ok(Target::Nothing);
    }
    let keyref = value_in(element, "keyref");
    let href = value_in(element, "href");
    target_of(alloc, asker, node, keyref, href, faults)
}

// The value of an attribute of a node's element, if there is one that has it.
fn value_in<'e>(element: Option<&'e Node>, name: &str) -> Option<&'e str>
    ensures { (homes : spec.Wholes) (at : ℕ) → home_spec.found_in (home_spec.doc_of homes at)
        element.entry ≡ home_spec.element_among homes at
        → option_copied result ≡ home_spec.value_at homes at name.now }
{
    element?.value_of(name)
}

// Appends the fault of an attribute that is passed over, if it is written.
fn append_value(
    alloc: Global,
    node: &PlanNode,
    code: FaultCode,
    value: Option<&str>,
    faults: &mut List<Fault>,
) -> Result<(), NoMemory>
    ensures { OnOk result (faults.new ≡ faults.old
        ++ pages_spec.fault_of_value node.now code (option_copied value.entry)) }
{
    if let Some(value) = value {
        faults.push(fault_of(alloc, node, code, value)?)?;
    }
    Ok(())
}

// The document that a node uses by its target. Nothing in a relationship table uses one.
fn used_name(target: &Target, is_in_table: bool) -> Option<&Name>
    ensures { option_copied result
        ≡ (if is_in_table then None else pages_spec.local_name target.now) }
{
    match target {
        Target::Local(name, _) if !is_in_table => Some(name),
        _ => None,
    }
}

// Appends the fault of a document that is none of topics.
fn append_kind(
    alloc: Global,
    node: &PlanNode,
    name: &Name,
    kind: DocKind,
    faults: &mut List<Fault>,
) -> Result<(), NoMemory>
    ensures { OnOk result (faults.new ≡ faults.old
        ++ pages_spec.fault_of_kind node.now name.now kind) }
{
    let code = match kind {
        DocKind::Topic | DocKind::Dita => return Ok(()),
        DocKind::Absent => FaultCode::TopicMissing,
        DocKind::Map | DocKind::Other => FaultCode::NotTopic,
    };
    Ok(faults.push(fault_of(alloc, node, code, name.as_str())?)?)
}

// Whether the use of a document of this kind makes a page: it is one of topics, and the use is more
// than a resource.
fn makes_page(node: &PlanNode, kind: DocKind) -> bool
    ensures { (world : World) (around : spec.Nodes)
        → node.now.cascaded ≡ cascade_spec.cascaded_on world around
        → result ≡ (pages_spec.is_page_kind kind
        && bytes_eq (cascade_spec.cascaded_value world (codes "processing-role") around)
        (codes "normal")) }
{
    is_page_kind(kind) && is_normal(node)
}

fn is_page_kind(kind: DocKind) -> bool
    ensures { result ≡ pages_spec.is_page_kind kind }
{
    matches!(kind, DocKind::Topic | DocKind::Dita)
}

// Whether a node's use is more than a resource.
fn is_normal(node: &PlanNode) -> bool
    ensures { (world : World) (around : spec.Nodes)
        → node.now.cascaded ≡ cascade_spec.cascaded_on world around
        → result ≡ bytes_eq (cascade_spec.cascaded_value world (codes "processing-role") around)
        (codes "normal") }
{
    node.cascaded_value("processing-role").unwrap_or("normal") == "normal"
}
