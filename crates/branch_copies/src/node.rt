//! The nodes that are copied, and their copies.

ghost use Rattle.std.specs.Prelude.{◌≡◌, ◌+◌, ◌<◌, ◌≤◌, ◌++◌, ℕ, List, [], Some, length, option_map, slice_get, unwrap_or, IfOk, IfSome, OnOk};
ghost use Rattle.std.specs.List.{list_any};
ghost use Rattle.std.specs.Option.{option_copied, option_to_list};
ghost use Rattle.branch_copies.specs.declared.branch.Branch.{Branch};
ghost use Rattle.branch_copies.specs.Marks as marks_spec;
ghost use Rattle.branch_copies.specs.Read as read_spec;
ghost use Rattle.branch_copies.specs.Originals as source_spec;
ghost use Rattle.branch_copies.specs.Stands as stands_spec;
ghost use Rattle.dita_doc.specs.declared.plan.PlanNode.{PlanNode};
ghost use Rattle.map_spec.specs.Branches as branches_spec;
ghost use Rattle.map_spec.specs.MapTree as map_tree_spec;
ghost use Rattle.map_spec.specs.MapTree.{Head, MapTree};
ghost use Rattle.reader_spec.specs.World.{World};

use crate::branch::Branch;
use crate::branches::{Span, is_map_at, next_sibling};
use crate::names::{is_no_affix, names_in_copy};
use crate::work::Walk;
use dita_doc::{Affix, List, Name, NoMemory, Node, PlanKind, PlanNode, Text};
use ditaval_rules::RuleTable;
use plan_nodes::{NodeElements, copy_affixes, copy_attributes, copy_names, copy_texts};
use std::alloc::Global;

/// The nodes that are copied, with their elements, the names that are declared for these, the names
/// of their scopes, and their branches with the rules of these.
#[derive(Drop)]
pub(crate) struct Originals<'a> {
    pub nodes: &'a [PlanNode],
    pub homes: &'a NodeElements,
    // The names declared for each element.
    pub declared: Vec<&'a List<Text>>,
    pub names: &'a [List<Text>],
    pub branches: &'a [Branch],
    pub spans: &'a [Span],
    pub tables: Vec<RuleTable>,
}

/// A node that is copied, and the names of its scope.
#[derive(Clone, Copy)]
pub(crate) struct Original<'a> {
    pub node: &'a PlanNode,
    pub names: &'a List<Text>,
}

/// The first of some nodes, the place just past its subtree, and its branches.
#[derive(Clone, Copy)]
pub(crate) struct Seen<'a> {
    pub original: Original<'a>,
    pub end: usize,
    pub span: Span,
}

// What a copy does not have of the node that it is a copy of.
#[derive(Drop)]
struct Changed {
    kind: PlanKind,
    level: u32,
    parent: u32,
    scope_names: List<Text>,
}

impl<'a> Originals<'a> {
    /// The first of the nodes that are left, if there is one. It has no more branches than nodes
    /// below it.
    pub fn see(&self, walk: Walk) -> Option<Seen<'a>>
        ensures begins { IfSome result (λ seen. walk.at < seen.end) }
        ensures ends { IfSome result (λ seen. seen.end ≤ walk.end) }
        ensures branches { IfSome result (λ seen. walk.at + seen.span.count < seen.end) }
        ensures first { (world : World) (defined : List branches_spec.Branch) (above : ℕ)
            (head : Head) (below more : MapTree) → source_spec.IsSource world self.now defined
            → stands_spec.StandsAt self.now.nodes.now above walk.at
            (map_tree_spec.MapNode head below more)
            → read_spec.HaveBranches world self.now.spans.now defined walk.at
            (map_tree_spec.MapNode head below more)
            → walk.at + map_tree_spec.count (map_tree_spec.MapNode head below more) ≡ walk.end
            → source_spec.SeesFirst world self.now defined walk.at head below result }
    {
        if walk.at >= walk.end {
            return None;
        }
        let original = self.original(walk.at)?;
        let end = next_sibling(self.nodes, walk.at).min(walk.end);
        let span = self.span(walk.at);
        let count = span.count.min(end - walk.at - 1);
        Some(Seen {
            original,
            end,
            span: Span { count, ..span },
        })
    }

    // The branches of the node at a place.
    fn span(&self, at: usize) -> Span
        ensures { result ≡ unwrap_or (slice_get self.now.spans.now at) source_spec.no_span }
    {
        match self.spans.get(at) {
            Some(span) => *span,
            None => Span { first: 0, count: 0 },
        }
    }

    // The node at a place, if there is one.
    fn original(&self, at: usize) -> Option<Original<'a>>
        ensures within { IfSome result (λ original. at < length self.now.nodes.now) }
        ensures is { option_map source_spec.parts_of result
            ≡ source_spec.node_with (slice_get self.now.nodes.now at)
            (slice_get self.now.names.now at) }
    {
        let node = self.nodes.get(at)?;
        let names = self.names.get(at)?;
        Some(Original { node, names })
    }

    /// Whether one of some branches excludes a node.
    pub fn is_excluded(&self, at: usize, branches: &[usize]) -> bool
        ensures { result ≡ list_any (source_spec.excludes_at self.now at) branches.now }
    {
        branches
            .iter()
            .any(|branch| self.is_excluded_by(at, *branch))
    }

    // Whether a branch excludes the element of a node; a group has none.
    fn is_excluded_by(&self, at: usize, branch: usize) -> bool
        ensures { result ≡ source_spec.excludes_at self.now at branch }
    {
        let Some(declared) = self.declared.get(at) else {
            return false;
        };
        match (self.homes.element(at), self.table_of(branch)) {
            (Some(element), Some(table)) => table.verdict(declared, &element.attributes),
            _ => false,
        }
    }

    /// Whether a branch excludes the top of its copy of a node. A group, which is that of a map, is
    /// never excluded.
    pub fn is_top_excluded(&self, at: usize, branch: usize) -> bool
        ensures { result ≡ source_spec.excludes_top_at self.now at branch }
    {
        !is_map_at(self.nodes, at) && self.is_excluded_by(at, branch)
    }

    fn table_of(&self, branch: usize) -> Option<&RuleTable>
        ensures { option_copied result
            ≡ source_spec.table_at self.now.branches.now self.now.tables.items branch }
    {
        let filter = self.branches.get(branch)?.filter.as_ref()?;
        self.tables.get(filter.ditaval)
    }

    /// A copy of a node that is not the top of a branch's copy.
    pub fn copy(
        &self,
        alloc: Global,
        original: Original<'_>,
        parent: u32,
        chain: &[usize],
    ) -> Result<PlanNode, NoMemory>
        ensures { IfOk result (λ made. made ≡ marks_spec.copied_node self.now.branches.now
            chain.now original.entry.node.now original.entry.names.now parent) }
    {
        let changed = Changed {
            kind: original.node.kind,
            level: original.node.level,
            parent,
            scope_names: copy_texts(alloc, original.names.as_slice())?,
        };
        self.marked(alloc, original.node, changed, chain)
    }

    /// The top of a branch's copy of a node; of a map it is a group.
    pub fn copy_for(
        &self,
        alloc: Global,
        at: usize,
        branch: usize,
        parent: u32,
        chain: &[usize],
    ) -> Result<Option<PlanNode>, NoMemory>
        ensures { (node : PlanNode) (names : List (List ℕ)) (own : Branch)
            → slice_get self.now.nodes.now at ≡ Some node
            → slice_get self.now.names.now at ≡ Some names
            → slice_get self.now.branches.now branch ≡ Some own
            → IfOk result (λ made. made ≡ marks_spec.top_node self.now.nodes.now
            self.now.branches.now chain.now node names parent own) }
    {
        let (Some(original), Some(branch)) = (self.original(at), self.branches.get(branch)) else {
            return Ok(None);
        };
        if original.node.kind == PlanKind::Map {
            return self.group(alloc, original.node, branch, parent, chain);
        }
        let changed = Changed {
            kind: original.node.kind,
            level: original.node.level,
            parent,
            scope_names: names_in_copy(alloc, &branch.keyscope, original.names.as_slice())?,
        };
        Ok(Some(self.marked(alloc, original.node, changed, chain)?))
    }

    // The group in which the copied nodes of a map's branch stand.
    fn group(
        &self,
        alloc: Global,
        map: &PlanNode,
        branch: &Branch,
        parent: u32,
        chain: &[usize],
    ) -> Result<Option<PlanNode>, NoMemory>
        ensures { IfOk result (λ made. made ≡ option_map (λ (ditavalref : PlanNode).
            marks_spec.copied_node self.now.branches.now chain.now
            (marks_spec.group_of map.now ditavalref)
            (branches_spec.names_in_copy branch.now.keyscope []) parent)
            (slice_get self.now.nodes.now branch.now.place)) }
    {
        let Some(ditavalref) = self.nodes.get(branch.place) else {
            return Ok(None);
        };
        let changed = Changed {
            kind: PlanKind::Group,
            level: map.level,
            parent,
            scope_names: names_in_copy(alloc, &branch.keyscope, &[])?,
        };
        Ok(Some(self.marked(alloc, ditavalref, changed, chain)?))
    }

    // A node with the filters and the affixes of a chain of branches behind its own.
    fn marked(
        &self,
        alloc: Global,
        node: &PlanNode,
        changed: Changed,
        chain: &[usize],
    ) -> Result<PlanNode, NoMemory>
        ensures { IfOk result (λ made. made ≡ record node.now {
          kind = changed.kind;
          level = changed.level;
          parent = changed.parent;
          end = 0;
          scope_names = changed.scope_names;
          filters = node.now.filters ++ marks_spec.filters_of self.now.branches.now chain.now;
          affixes = node.now.affixes ++ marks_spec.affixes_of self.now.branches.now chain.now;
        }) }
    {
        let Changed {
            kind,
            level,
            parent,
            scope_names,
            ..
        } = changed;
        let filters = self.filters(alloc, node.filters.as_slice(), chain)?;
        let affixes = self.affixes(alloc, node.affixes.as_slice(), chain)?;
        Ok(PlanNode {
            kind,
            doc: node.doc.clone()?,
            place: node.place,
            line: node.line,
            level,
            parent,
            end: 0,
            scope: node.scope,
            scope_names,
            filters,
            affixes,
            cascaded: copy_attributes(alloc, node.cascaded.as_slice())?,
        })
    }

    fn filters(&self, alloc: Global, own: &[Name], chain: &[usize]) -> Result<List<Name>, NoMemory>
        ensures { IfOk result (λ filters. filters
            ≡ own.now ++ marks_spec.filters_of self.now.branches.now chain.now) }
    {
        let mut filters = copy_names(alloc, own)?;
        for branch in chain {
            self.push_filter(&mut filters, *branch)?;
        }
        Ok(filters)
    }

    fn push_filter(&self, filters: &mut List<Name>, branch: usize) -> Result<(), NoMemory>
        ensures { OnOk result (filters.new ≡ filters.old
            ++ option_to_list (marks_spec.filter_at self.now.branches.now branch)) }
    {
        if let Some(filter) = self.filter_of(branch) {
            filters.push(filter.clone()?)?;
        }
        Ok(())
    }

    fn filter_of(&self, branch: usize) -> Option<&Name>
        ensures { option_copied result ≡ marks_spec.filter_at self.now.branches.now branch }
    {
        let filter = self.branches.get(branch)?.filter.as_ref()?;
        Some(&filter.name)
    }

    fn affixes(
        &self,
        alloc: Global,
        own: &[Affix],
        chain: &[usize],
    ) -> Result<List<Affix>, NoMemory>
        ensures { IfOk result (λ affixes. affixes
            ≡ own.now ++ marks_spec.affixes_of self.now.branches.now chain.now) }
    {
        let mut affixes = copy_affixes(alloc, own)?;
        for branch in chain {
            self.push_affix(&mut affixes, *branch)?;
        }
        Ok(affixes)
    }

    fn push_affix(&self, affixes: &mut List<Affix>, branch: usize) -> Result<(), NoMemory>
        ensures { OnOk result (affixes.new ≡ affixes.old
            ++ option_to_list (marks_spec.affix_at self.now.branches.now branch)) }
    {
        if let Some(affix) = self.affix_of(branch) {
            affixes.push(copy_affix(affix)?)?;
        }
        Ok(())
    }

    // What a branch puts before and after the names of pages, if it puts anything.
    fn affix_of(&self, branch: usize) -> Option<&Affix>
        ensures { option_copied result ≡ marks_spec.affix_at self.now.branches.now branch }
    {
        let affix = &self.branches.get(branch)?.resource;
        if is_no_affix(affix) {
            None
        } else {
            Some(affix)
        }
    }
}

fn copy_affix(affix: &Affix) -> Result<Affix, NoMemory>
    ensures { IfOk result (λ copy. copy ≡ affix.now) }
{
    Ok(Affix {
        prefix: affix.prefix.clone()?,
        suffix: affix.suffix.clone()?,
    })
}
