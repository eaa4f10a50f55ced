//! The values of each node.

ghost use Rattle.std.specs.Prelude.{◌≡◌, ◌++◌, ◌<◌, [], ◌∷◌, length, map, unwrap_or, codes, IfOk, OnOk, if◌then◌else◌};
ghost use Rattle.attr_cascade.specs.Nearest as nearest_spec;
ghost use Rattle.attr_cascade.specs.Tokens as tokens_spec;
ghost use Rattle.attr_cascade.specs.Values as spec;
ghost use Rattle.ditaval_rules.specs.Verdict as verdict_spec;
ghost use Rattle.map_spec.specs.Cascade as cascade_spec;
ghost use Rattle.plan_nodes.specs.Preorder as preorder_spec;
ghost use Rattle.reader_spec.specs.World.{World};
ghost use Rattle.readers.specs.Documents as documents_spec;
ghost use Rattle.readers.specs.Documents.{AsksOnly};
ghost use Rattle.readers.specs.Founded as founded_spec;
ghost use Rattle.readers.specs.Founded.{Grows, StaysFounded};
ghost use Rattle.readers.specs.Told.{Agrees};

use crate::nearest::{Nearest, nearest_at};
use crate::tokens::TokenTable;
use dita_doc::{Attribute, List, NoMemory, PlanNode, Text};
use plan_nodes::{NodeElements, copy_node, in_tables};
use readers::Reader;
use std::alloc::{AllocError, Global};

/// The nodes, each with the values that hold at it: the six of which the nearest counts, always, and
/// then those of the conditional attributes that have tokens.
///
/// A node whose parent does not stand before it counts as a root. The document of each node is
/// asked for, and none of them twice.
///
/// # Errors
///
/// Out of memory.
pub fn cascade<R: Reader>(
    alloc: Global,
    reader: &mut R,
    nodes: &List<PlanNode>,
) -> Result<List<PlanNode>, NoMemory>
    ensures known { (world : World) → Agrees world (R.told reader.new)
        → preorder_spec.HasParentsBefore nodes.now
        → IfOk result (λ made. made ≡ cascade_spec.cascaded world nodes.now) }
    ensures value { preorder_spec.HasParentsBefore nodes.now → IfOk result (λ made. made
        ≡ cascade_spec.cascaded (R.stand reader.old).world nodes.now) }
    ensures stand { R.stand reader.new ≡ R.stand reader.old }
    ensures founded { StaysFounded (founded_spec.homes nodes.now) (R.told reader.old)
        (R.told reader.new) }
    ensures asks { AsksOnly documents_spec.nothing (founded_spec.homes nodes.now)
        (R.told reader.old) (R.told reader.new) }
    ensures grows { Grows (R.told reader.old) (R.told reader.new) }
{
    cascaded(alloc, reader, nodes.as_slice())
}

// What `cascade` says, but of the reader's own world.
#[tactic(auto, using(readers::proofs::Rules::walking))]
fn cascaded<R: Reader>(
    alloc: Global,
    reader: &mut R,
    nodes: &[PlanNode],
) -> Result<List<PlanNode>, NoMemory>
    ensures known { (world : World) → Agrees world (R.told reader.new)
        → preorder_spec.HasParentsBefore nodes.now
        → IfOk result (λ made. made ≡ cascade_spec.cascaded world nodes.now) }
    ensures stand { R.stand reader.new ≡ R.stand reader.old }
    ensures founded { StaysFounded (founded_spec.homes nodes.now) (R.told reader.old)
        (R.told reader.new) }
    ensures asks { AsksOnly documents_spec.nothing (founded_spec.homes nodes.now)
        (R.told reader.old) (R.told reader.new) }
    ensures grows { Grows (R.told reader.old) (R.told reader.new) }
{
    let homes = NodeElements::of(alloc, reader, nodes)?;
    cascade_in(alloc, &homes, nodes)
}

// The nodes with their values, where the element of each is known.
fn cascade_in(
    alloc: Global,
    homes: &NodeElements,
    nodes: &[PlanNode],
) -> Result<List<PlanNode>, NoMemory>
    ensures { (world : World) → homes.now ≡ map (cascade_spec.whole_at world) nodes.now
        → preorder_spec.HasParentsBefore nodes.now
        → IfOk result (λ made. made ≡ cascade_spec.cascaded world nodes.now) }
{
    let inside = in_tables(alloc, nodes)?;
    let nearest = Nearest::of(alloc, homes, nodes)?;
    let mut tables = Vec::new(alloc);
    put_tables(alloc, &mut tables, homes, nodes, &nearest)?;
    copies_with_values(alloc, nodes, &nearest, &tables, &inside)
}

// Copies of the nodes, each with its values.
fn copies_with_values(
    alloc: Global,
    nodes: &[PlanNode],
    nearest: &Nearest<'_>,
    tables: &[TokenTable<'_>],
    inside: &[bool],
) -> Result<List<PlanNode>, NoMemory>
    ensures { (world : World) → nearest_spec.AreNearest world nodes.now nearest.now
        → tokens_spec.AreTables world nodes.now verdict_spec.conditional_names tables.now
        → inside.now ≡ preorder_spec.tables_around nodes.now
        → IfOk result (λ made. made ≡ cascade_spec.cascaded world nodes.now) }
{
    let mut made = List::new(alloc);
    for (at, node) in nodes.iter().enumerate() {
        made.push(with_values(alloc, node, nearest, tables, at, is_within(inside, at))?)?;
    }
    Ok(made)
}

fn is_within(inside: &[bool], at: usize) -> bool
    ensures { result ≡ spec.told_at inside.now at }
{
    inside.get(at).copied().unwrap_or(false)
}

// A copy of the node at this place, with its values.
fn with_values(
    alloc: Global,
    node: &PlanNode,
    nearest: &Nearest<'_>,
    tables: &[TokenTable<'_>],
    at: usize,
    in_table: bool,
) -> Result<PlanNode, AllocError>
    ensures { (world : World) (nodes : tokens_spec.Nodes) → at < length nodes
        → nearest_spec.AreNearest world nodes nearest.now
        → tokens_spec.AreTables world nodes verdict_spec.conditional_names tables.now
        → in_table ≡ preorder_spec.is_in_table_at nodes at
        → IfOk result (λ copy. copy ≡ record node.now {
          cascaded = cascade_spec.cascaded_on world (cascade_spec.walk nodes at);
        }) }
{
    let values = values_at(alloc, nearest, tables, at, in_table)?;
    let mut copy = copy_node(alloc, node)?;
    copy.cascaded = values;
    Ok(copy)
}

// Puts the tokens of each conditional attribute, in the order in which their values come, behind
// no others.
fn put_tables<'a>(
    alloc: Global,
    tables: &mut Vec<TokenTable<'a>>,
    homes: &'a NodeElements,
    nodes: &[PlanNode],
    nearest: &Nearest<'_>,
) -> Result<(), NoMemory>
    ensures { (world : World) → homes.now ≡ map (cascade_spec.whole_at world) nodes.now
        → preorder_spec.HasParentsBefore nodes.now
        → nearest_spec.AreNearest world nodes.now nearest.now → tables.old.items ≡ []
        → OnOk result (tokens_spec.AreTables world nodes.now
        verdict_spec.conditional_names tables.new.items) }
{
    put_table(alloc, tables, homes, nodes, nearest, "audience")?;
    put_table(alloc, tables, homes, nodes, nearest, "platform")?;
    put_table(alloc, tables, homes, nodes, nearest, "product")?;
    put_table(alloc, tables, homes, nodes, nearest, "otherprops")?;
    put_table(alloc, tables, homes, nodes, nearest, "props")?;
    put_table(alloc, tables, homes, nodes, nearest, "deliveryTarget")
}

// Puts the tokens of a conditional attribute behind the others.
fn put_table<'a>(
    alloc: Global,
    tables: &mut Vec<TokenTable<'a>>,
    homes: &'a NodeElements,
    nodes: &[PlanNode],
    nearest: &Nearest<'_>,
    name: &'static str,
) -> Result<(), NoMemory>
    ensures { (world : World) (names : tokens_spec.Texts)
        → homes.now ≡ map (cascade_spec.whole_at world) nodes.now
        → preorder_spec.HasParentsBefore nodes.now
        → nearest_spec.AreNearest world nodes.now nearest.now
        → tokens_spec.AreTables world nodes.now names tables.old.items
        → OnOk result (tokens_spec.AreTables world nodes.now (names ++ name.now ∷ [])
        tables.new.items) }
{
    tables.push(TokenTable::of(alloc, homes, nodes, &nearest.cascade, name)?)?;
    Ok(())
}

// The values at a node.
fn values_at(
    alloc: Global,
    nearest: &Nearest<'_>,
    tables: &[TokenTable<'_>],
    at: usize,
    in_table: bool,
) -> Result<List<Attribute>, AllocError>
    ensures { (world : World) (nodes : tokens_spec.Nodes) → at < length nodes
        → nearest_spec.AreNearest world nodes nearest.now
        → tokens_spec.AreTables world nodes verdict_spec.conditional_names tables.now
        → in_table ≡ preorder_spec.is_in_table_at nodes at
        → IfOk result (λ values. values
        ≡ cascade_spec.cascaded_on world (cascade_spec.walk nodes at)) }
{
    let mut values = List::new(alloc);
    put_nearest(alloc, &mut values, nearest, at, in_table)?;
    for table in tables {
        put_tokens(alloc, &mut values, table, at)?;
    }
    Ok(values)
}

// Puts the values of which the nearest counts behind no others. In a relationship table nothing
// stands in the contents, if nothing else is said.
fn put_nearest(
    alloc: Global,
    values: &mut List<Attribute>,
    nearest: &Nearest<'_>,
    at: usize,
    in_table: bool,
) -> Result<(), AllocError>
    ensures { (world : World) (nodes : tokens_spec.Nodes) → at < length nodes
        → nearest_spec.AreNearest world nodes nearest.now
        → in_table ≡ preorder_spec.is_in_table_at nodes at → values.old ≡ []
        → OnOk result (values.new ≡ spec.nearest_on world (cascade_spec.walk nodes at)) }
{
    put(alloc, values, "linking", &nearest.linking, at, "normal")?;
    put(alloc, values, "toc", &nearest.toc, at, toc_in(in_table))?;
    put(alloc, values, "format", &nearest.format, at, "dita")?;
    put(alloc, values, "scope", &nearest.scope, at, "local")?;
    put(
        alloc,
        values,
        "processing-role",
        &nearest.role,
        at,
        "normal",
    )?;
    put(alloc, values, "cascade", &nearest.cascade, at, "merge")
}

// What holds without a value of `toc`.
fn toc_in(in_table: bool) -> &'static str
    ensures { result.now ≡ (if in_table then codes "no" else codes "yes") }
{
    if in_table { "no" } else { "yes" }
}

// Puts the nearest value of an attribute at a node behind the others, or what holds without one.
fn put(
    alloc: Global,
    values: &mut List<Attribute>,
    name: &str,
    nearest: &[Option<&str>],
    at: usize,
    default: &str,
) -> Result<(), AllocError>
    ensures { OnOk result (values.new ≡ values.old ++ record {
      name = name.now;
      value = unwrap_or (nearest_spec.value_at (nearest_spec.seen nearest.now) at) default.now;
    } ∷ []) }
{
    let value = nearest_at(nearest, at).unwrap_or(default);
    values.push(attribute(alloc, name, value)?)
}

// Puts the tokens at a node behind the other values, if it has some.
fn put_tokens(
    alloc: Global,
    values: &mut List<Attribute>,
    table: &TokenTable<'_>,
    at: usize,
) -> Result<(), AllocError>
    ensures { (world : World) (name : tokens_spec.Text) (nodes : tokens_spec.Nodes)
        → at < length nodes → tokens_spec.IsTableOf world nodes name table.now
        → OnOk result (values.new ≡ values.old
        ++ spec.put_if (cascade_spec.named_tokens name
        (tokens_spec.tokens_at world name nodes at))) }
{
    match table.value_at(at) {
        Some(value) => values.push(attribute(alloc, table.name, value)?),
        None => Ok(()),
    }
}

fn attribute(alloc: Global, name: &str, value: &str) -> Result<Attribute, AllocError>
    ensures { IfOk result (λ made. made ≡ record { name = name.now; value = value.now }) }
{
    Ok(Attribute {
        name: Text::from_str(alloc, name)?,
        value: Text::from_str(alloc, value)?,
    })
}
