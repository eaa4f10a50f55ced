//! The scopes of nodes, and what the nodes define.

ghost use Rattle.std.specs.Prelude.{◌≡◌, ◌+◌, ◌++◌, ◌&&◌, ◌==◌, ℕ, Bool, false, List, [], ◌∷◌, Some, map, not, nat_lt, length, is_some, slice_get, unwrap_or, IfOk, OnOk};
ghost use Rattle.dita_doc.specs.declared.plan.PlanNode.{PlanNode};
ghost use Rattle.key_scopes.specs.Named as named_spec;
ghost use Rattle.key_scopes.specs.Numbered as spec;
ghost use Rattle.map_spec.specs.Branches as branches_spec;
ghost use Rattle.map_spec.specs.Cascade as cascade_spec;
ghost use Rattle.map_spec.specs.Scopes as scopes_spec;
ghost use Rattle.plan_nodes.specs.Home as home_spec;
ghost use Rattle.plan_nodes.specs.Preorder as preorder_spec;
ghost use Rattle.reader_spec.specs.World.{World};

use crate::definitions::WrittenKey;
use crate::names::Names;
use dita_doc::{Fault, FaultCode, List, NoMemory, PlanKind, PlanNode, Scope, Text};
use plan_nodes::{NodeElements, fault_of, in_tables, place_of};
use std::alloc::{AllocError, Global};

/// The scopes, the scope of each node, the keys that are defined, and the faults of names.
#[derive(Drop)]
pub(crate) struct Numbering<'a> {
    pub scopes: List<Scope>,
    pub places: Vec<u32>,
    pub written: Vec<WrittenKey<'a>>,
    pub faults: List<Fault>,
}

impl<'a> Numbering<'a> {
    /// Those of nodes in preorder.
    pub(crate) fn of(
        alloc: Global,
        homes: &'a NodeElements,
        nodes: &[PlanNode],
    ) -> Result<Numbering<'a>, NoMemory>
        ensures { (world : World) → homes.now ≡ map (cascade_spec.whole_at world) nodes.now
            → preorder_spec.HasParentsBefore nodes.now
            → IfOk result (λ numbering. spec.AreNumbered world nodes.now (length nodes.now)
            numbering) }
    {
        let inside = in_tables(alloc, nodes)?;
        let mut numbering = Numbering::new(alloc)?;
        for (at, node) in nodes.iter().enumerate() {
            let in_table = is_within(&inside, at);
            numbering.put_node(alloc, homes, at, node, in_table)?;
        }
        Ok(numbering)
    }

    // The root scope alone.
    fn new(alloc: Global) -> Result<Numbering<'a>, AllocError>
        ensures { IfOk result (λ numbering. spec.IsNew numbering) }
    {
        let mut scopes = List::new(alloc);
        scopes.push(Scope {
            parent: 0,
            node: 0,
            names: List::new(alloc),
        })?;
        Ok(Numbering {
            scopes,
            places: Vec::new(alloc),
            written: Vec::new(alloc),
            faults: List::new(alloc),
        })
    }

    // What a node adds to what those before it are known to have.
    fn put_node(
        &mut self,
        alloc: Global,
        homes: &'a NodeElements,
        at: usize,
        node: &PlanNode,
        in_table: bool,
    ) -> Result<(), NoMemory>
        ensures { OnOk result (spec.IsPut at node.now
            (spec.keys_written (scopes_spec.may_define node.now.kind && not in_table)
            (home_spec.value_at homes.now at spec.keys_name)) self.old self.new) }
    {
        let scope = self.put_scope(alloc, at, node)?;
        self.places.push(scope)?;
        if defines(node.kind, in_table) {
            self.define(alloc, homes, at, node, scope)?;
        }
        Ok(())
    }

    // The scope of a node: one that it begins, if it has a name for it, else that of its parent.
    // The root begins none.
    fn put_scope(&mut self, alloc: Global, at: usize, node: &PlanNode) -> Result<u32, NoMemory>
        ensures { IfOk result (λ scope. spec.IsScopePut at node.now scope self.old self.new) }
    {
        if at == 0 {
            return Ok(0);
        }
        self.put_named(alloc, at, node)
    }

    // The scope of a node that is not the root.
    fn put_named(&mut self, alloc: Global, at: usize, node: &PlanNode) -> Result<u32, NoMemory>
        requires { (at == 0) ≡ false }
        ensures { IfOk result (λ scope. spec.IsScopePut at node.now scope self.old self.new) }
    {
        let around = place_in(&self.places, node.parent as usize);
        let names = Names::among(alloc, node.scope_names.as_slice())?;
        put_faults(
            alloc,
            &mut self.faults,
            node,
            FaultCode::BadScopeName,
            &names.bad,
        )?;
        if !has_names(&names.good) {
            return Ok(around);
        }
        let names = texts_of(alloc, &names.good)?;
        let number = self.begin_scope(at, around, names)?;
        Ok(number)
    }

    // Puts a scope behind the others, and gives its number.
    fn begin_scope(&mut self, at: usize, around: u32, names: List<Text>) -> Result<u32, NoMemory>
        ensures { IfOk result (λ number.
            spec.IsBegun at around names number self.old self.new) }
    {
        let number = place_of(self.scopes.len())?;
        let node = place_of(at)?;
        self.scopes.push(Scope {
            parent: around,
            node,
            names,
        })?;
        Ok(number)
    }

    // The keys that a node defines in its scope.
    fn define(
        &mut self,
        alloc: Global,
        homes: &'a NodeElements,
        at: usize,
        node: &PlanNode,
        scope: u32,
    ) -> Result<(), NoMemory>
        ensures { OnOk result (spec.AreKeysPut at node.now scope
            (branches_spec.words_written (home_spec.value_at homes.now at spec.keys_name))
            self.old self.new) }
    {
        let Some(value) = homes.value(at, "keys") else {
            return Ok(());
        };
        let place = place_of(at)?;
        let names = Names::within(alloc, value)?;
        put_faults(
            alloc,
            &mut self.faults,
            node,
            FaultCode::BadKeyName,
            &names.bad,
        )?;
        put_keys(&mut self.written, &names.good, scope, node.level, place)?;
        Ok(())
    }
}

fn is_within(inside: &[bool], at: usize) -> bool
    ensures { result ≡ spec.told_at inside.now at }
{
    inside.get(at).copied().unwrap_or(false)
}

/// What stands at a place; 0 beyond the end.
pub(crate) fn place_in(places: &[u32], at: usize) -> u32
    ensures { result ≡ spec.place_in places.now at }
{
    places.get(at).copied().unwrap_or(0)
}

fn has_names(names: &[&str]) -> bool
    ensures { result ≡ is_some (slice_get (named_spec.texts names.now) 0) }
{
    !names.is_empty()
}

fn put_faults(
    alloc: Global,
    faults: &mut List<Fault>,
    node: &PlanNode,
    code: FaultCode,
    names: &[&str],
) -> Result<(), NoMemory>
    ensures { OnOk result (faults.new
        ≡ faults.old ++ map (scopes_spec.node_fault node.now code) (named_spec.texts names.now)) }
{
    for name in names {
        faults.push(fault_of(alloc, node, code, name)?)?;
    }
    Ok(())
}

fn put_keys<'a>(
    written: &mut Vec<WrittenKey<'a>>,
    names: &[&'a str],
    scope: u32,
    level: u32,
    place: u32,
) -> Result<(), AllocError>
    ensures { OnOk result (spec.entries written.new.items ≡ spec.entries written.old.items
        ++ map (spec.entry scope level place) (named_spec.texts names.now)) }
{
    for name in names {
        written.push((*name, scope, level, place))?;
    }
    Ok(())
}

// Whether a node defines its keys, of which those in a relationship table do not count.
fn defines(kind: PlanKind, in_table: bool) -> bool
    ensures { result ≡ (scopes_spec.may_define kind && not in_table) }
{
    may_define(kind) && !in_table
}

fn may_define(kind: PlanKind) -> bool
    ensures { result ≡ scopes_spec.may_define kind }
{
    matches!(kind, PlanKind::Reference | PlanKind::Included)
}

fn texts_of(alloc: Global, names: &[&str]) -> Result<List<Text>, AllocError>
    ensures { IfOk result (λ copies. copies ≡ named_spec.texts names.now) }
{
    let mut texts = List::new(alloc);
    for name in names {
        texts.push(Text::from_str(alloc, name)?)?;
    }
    Ok(texts)
}
