//! The attributes of pushed copies.

ghost use Rattle.std.specs.Prelude.{◌≡◌, ◌++◌, ◌∷◌, ◌||◌, [], ℕ, List, IfOk, OnOk, codes, bytes_eq, if◌then◌else◌};
ghost use Rattle.std.specs.List.{list_any};
ghost use Rattle.std.specs.Option.{option_copied};
ghost use Rattle.conref_push.specs.Making as making_spec;
ghost use Rattle.conref_push.specs.Sight as sight_spec;
ghost use Rattle.dita_doc.specs.ClassValue as class_value_spec;
ghost use Rattle.doc_elements.specs.Walk as walk_spec;
ghost use Rattle.map_spec.specs.Pushes as pushes_spec;

use dita_doc::{Attribute, List, Node, Text};
use std::alloc::{AllocError, Global};

// The attributes of a copy that is put instead of an element or beside one.
pub(crate) fn attributes_of(
    alloc: Global,
    element: &Node,
    replaced: Option<&Node>,
) -> Result<List<Attribute>, AllocError>
    ensures { (name other : List ℕ) → IfOk result (λ kept. kept ≡ (making_spec.pushed_copy
        (sight_spec.element_before other replaced.entry)
        (walk_spec.element_of name element.now)).attributes) }
{
    match replaced {
        Some(replaced) => attributes_instead(alloc, element, replaced),
        None => attributes_beside(alloc, element),
    }
}

// The attributes of a pushed copy: those of the element, without the ones that push.
fn attributes_beside(alloc: Global, element: &Node) -> Result<List<Attribute>, AllocError>
    ensures { IfOk result (λ kept. kept
        ≡ pushes_spec.without_names pushes_spec.pushing_names element.now.attributes) }
{
    let mut kept = List::new(alloc);
    for attribute in element.attributes.as_slice() {
        let drops = is_pushing_name(attribute.name.as_str());
        keep(&mut kept, attribute, drops)?;
    }
    Ok(kept)
}

// The same of a copy that replaces an element, whose id it takes.
fn attributes_instead(
    alloc: Global,
    element: &Node,
    replaced: &Node,
) -> Result<List<Attribute>, AllocError>
    ensures { IfOk result (λ kept. kept
        ≡ pushes_spec.id_written (class_value_spec.value_of (codes "id") replaced.now.attributes)
        ++ pushes_spec.without_names (codes "id" ∷ [])
        (pushes_spec.without_names pushes_spec.pushing_names element.now.attributes)) }
{
    let mut kept = id_written(alloc, replaced.value_of("id"))?;
    for attribute in element.attributes.as_slice() {
        let drops = is_name_to_drop(attribute.name.as_str());
        keep(&mut kept, attribute, drops)?;
    }
    Ok(kept)
}

// The attribute of an id, if there is one.
fn id_written(alloc: Global, id: Option<&str>) -> Result<List<Attribute>, AllocError>
    ensures { IfOk result (λ kept. kept ≡ pushes_spec.id_written (option_copied id.entry)) }
{
    let mut kept = List::new(alloc);
    if let Some(id) = id {
        kept.push(Attribute {
            name: Text::from_str(alloc, "id")?,
            value: Text::from_str(alloc, id)?,
        })?;
    }
    Ok(kept)
}

// Puts a copy of an attribute behind the others, unless it is to be dropped.
fn keep(kept: &mut List<Attribute>, attribute: &Attribute, drops: bool) -> Result<(), AllocError>
    ensures { OnOk result (kept.new ≡ kept.old ++ (if drops then [] else attribute.now ∷ [])) }
{
    if !drops {
        kept.push(attribute.clone()?)?;
    }
    Ok(())
}

// Whether a copy that replaces an element loses the attribute of this name of its own.
fn is_name_to_drop(name: &str) -> bool
    ensures { result ≡ (bytes_eq name.now (codes "id")
        || list_any (bytes_eq name.now) pushes_spec.pushing_names) }
{
    name == "id" || is_pushing_name(name)
}

fn is_pushing_name(name: &str) -> bool
    ensures { result ≡ list_any (bytes_eq name.now) pushes_spec.pushing_names }
{
    name == "conaction" || name == "conref" || name == "conkeyref" || name == "conrefend"
}
