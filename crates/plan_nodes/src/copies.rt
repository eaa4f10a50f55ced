//! Copies of nodes and of what they have.

ghost use Rattle.std.specs.Prelude.{◌≡◌, IfOk};
ghost use Rattle.plan_nodes.specs.Affixes as affixes_spec;

use dita_doc::{Affix, Attribute, List, Name, PlanNode, Text};
use std::alloc::{AllocError, Global};

/// A copy of a node with all that it has.
pub fn copy_node(alloc: Global, node: &PlanNode) -> Result<PlanNode, AllocError>
    ensures { IfOk result (λ copy. copy ≡ node.now) }
{
    Ok(PlanNode {
        kind: node.kind,
        doc: node.doc.clone()?,
        place: node.place,
        line: node.line,
        level: node.level,
        parent: node.parent,
        end: node.end,
        scope: node.scope,
        scope_names: copy_texts(alloc, node.scope_names.as_slice())?,
        filters: copy_names(alloc, node.filters.as_slice())?,
        affixes: copy_affixes(alloc, node.affixes.as_slice())?,
        cascaded: copy_attributes(alloc, node.cascaded.as_slice())?,
    })
}

/// Copies of all nodes.
pub fn copy_nodes(alloc: Global, nodes: &[PlanNode]) -> Result<List<PlanNode>, AllocError>
    ensures { IfOk result (λ copies. copies ≡ nodes.now) }
{
    let mut copies = List::new(alloc);
    for node in nodes {
        copies.push(copy_node(alloc, node)?)?;
    }
    Ok(copies)
}

/// A copy of each text, in order.
pub fn copy_texts(alloc: Global, texts: &[Text]) -> Result<List<Text>, AllocError>
    ensures { IfOk result (λ copies. copies ≡ texts.now) }
{
    let mut copies = List::new(alloc);
    for text in texts {
        copies.push(text.clone()?)?;
    }
    Ok(copies)
}

/// The copies share the texts of the names.
pub fn copy_names(alloc: Global, names: &[Name]) -> Result<List<Name>, AllocError>
    ensures { IfOk result (λ copies. copies ≡ names.now) }
{
    let mut copies = List::new(alloc);
    for name in names {
        copies.push(name.clone()?)?;
    }
    Ok(copies)
}

/// A copy of each prefix and suffix, in order.
pub fn copy_affixes(alloc: Global, affixes: &[Affix]) -> Result<List<Affix>, AllocError>
    ensures { IfOk result (λ copies. copies ≡ affixes.now) }
{
    let mut copies = List::new(alloc);
    for affix in affixes {
        copies.push(Affix {
            prefix: affix.prefix.clone()?,
            suffix: affix.suffix.clone()?,
        })?;
    }
    Ok(copies)
}

/// A copy of each attribute, in order.
pub fn copy_attributes(
    alloc: Global,
    attributes: &[Attribute],
) -> Result<List<Attribute>, AllocError>
    ensures { IfOk result (λ copies. copies ≡ attributes.now) }
{
    let mut copies = List::new(alloc);
    for attribute in attributes {
        copies.push(attribute.clone()?)?;
    }
    Ok(copies)
}

/// The texts of affixes, each prefix before its suffix. Lists of affixes are the same exactly if
/// their texts are.
pub fn affix_texts(alloc: Global, affixes: &[Affix]) -> Result<List<Text>, AllocError>
    ensures { IfOk result (λ texts. texts ≡ affixes_spec.texts_of affixes.now) }
{
    let mut texts = List::new(alloc);
    for affix in affixes {
        texts.push(affix.prefix.clone()?)?;
        texts.push(affix.suffix.clone()?)?;
    }
    Ok(texts)
}
