//! What an element takes from its targets.

ghost use Rattle.std.specs.Prelude.{◌≡◌, ◌&&◌, ℕ, List, [], ◌++◌, not, is_some, filter, IfOk, OnOk, if◌then◌else◌};
ghost use Rattle.dita_doc.specs.ClassValue as class_value_spec;
ghost use Rattle.dita_doc.specs.Tree as tree_spec;
ghost use Rattle.dita_doc.specs.declared.doc.Attribute.{Attribute};
ghost use Rattle.doc_elements.specs.Walk as walk_spec;
ghost use Rattle.map_spec.specs.Written.{Element, Written};
ghost use Rattle.conref_spec.specs.Content as content_spec;
ghost use Rattle.conref_spec.specs.Content.{Place};
ghost use Rattle.readers.specs.Told.{Told};
ghost use Rattle.conref_targets.specs.Hrefs.{HasNamed};
ghost use Rattle.conref_pull.specs.Linked.{AreGivenTo, IsGivenTo};
ghost use Rattle.conref_pull.specs.PutHrefs.{MergedNamed};
ghost use Rattle.conref_pull.specs.Linked as linked_spec;
ghost use Rattle.conref_pull.specs.Merging as merging_spec;
ghost use Rattle.conref_pull.specs.NameSet as names_spec;
ghost use Rattle.conref_pull.specs.Step as step_spec;
ghost use Rattle.conref_pull.specs.Step.{Taken};

use crate::chain::TakenTarget;
use crate::name_set::NameSet;
use dita_doc::{Attribute, List, Name, NoMemory, Node, is_same};
use std::alloc::Global;

// The value that an element leaves to its target.
pub(crate) const USE_TARGET: &str = "-dita-use-conref-target";

// The names of attributes that an element does not take from its target.
const NOT_TAKEN: [&str; 5] = ["id", "conref", "conkeyref", "conrefend", "conaction"];

// An attribute of a target is sought among all of the element's own, one after the other. If both
// have more than these, that would take too long, and the names of the own are put into a set. Nearly
// all elements have fewer, and take no memory for it.
const FEW_ATTRIBUTES: usize = 32;

// The attributes of an element with those that it takes, and the document in which its href was
// written.
#[derive(Drop)]
pub(crate) struct Merged {
    pub attributes: List<Attribute>,
    pub href_doc: Name,
}

impl Merged {
    ghost use Rattle.std.specs.Prelude.{ℕ, List, IfOk};
    ghost use Rattle.doc_elements.specs.Walk as walk_spec;
    ghost use Rattle.map_spec.specs.Written.{Element};
    ghost use Rattle.conref_spec.specs.Content as content_spec;
    ghost use Rattle.conref_spec.specs.Content.{Place};
    ghost use Rattle.readers.specs.Told.{Told};
    ghost use Rattle.conref_targets.specs.Hrefs.{HasNamed};
    ghost use Rattle.conref_pull.specs.Linked.{AreGivenTo, IsGivenTo};
    ghost use Rattle.conref_pull.specs.PutHrefs.{MergedNamed};
    ghost use Rattle.conref_pull.specs.Linked as linked_spec;
    ghost use Rattle.conref_pull.specs.Merging as merging_spec;
    ghost use Rattle.conref_pull.specs.Step.{Taken};

    // An element as it is written, in the document of this name.
    pub(crate) fn written(alloc: Global, origin: &Name, element: &Node) -> Result<Merged, NoMemory>
        ensures { IfOk result (λ merged. merging_spec.IsMerged merged
            (walk_spec.element_of origin.now element.now)) }
    {
        let mut attributes = List::new(alloc);
        for attribute in element.attributes.as_slice() {
            attributes.push(attribute.clone()?)?;
        }
        Ok(Merged {
            attributes,
            href_doc: origin.clone()?,
        })
    }

    // What an element does not leave to its target.
    fn specified(alloc: Global, origin: &Name, element: &Node) -> Result<Merged, NoMemory>
        ensures merged { IfOk result (λ merged. merging_spec.IsMerged merged
            (merging_spec.own_part (walk_spec.element_of origin.now element.now))) }
        ensures hrefs { (told : List Told)
            → HasNamed told (walk_spec.element_of origin.now element.now)
            → IfOk result (MergedNamed told) }
    {
        let mut attributes = List::new(alloc);
        append_specified(&mut attributes, element)?;
        Ok(Merged {
            attributes,
            href_doc: origin.clone()?,
        })
    }

    // The same with what it has not from these targets, the nearest of which stands last. Each of
    // them leaves values to the one before it.
    fn with_nearer(self, alloc: Global, nearer: &[TakenTarget]) -> Result<Merged, NoMemory>
        ensures merged { (path : List Place) (end : ℕ) (taken : List Taken) (own : Element)
            → linked_spec.AreLinks path end taken nearer.now → merging_spec.IsMerged self own
            → IfOk result (λ merged. merging_spec.TakesAll merged own taken) }
        ensures hrefs { (told : List Told) → AreGivenTo told nearer.now → MergedNamed told self
            → IfOk result (MergedNamed told) }
    {
        let mut merged = self;
        let mut left = nearer;
        while let Some((nearest, others)) = left.split_last() {
            merged = merged.with_link(alloc, nearest, true)?;
            left = others;
        }
        Ok(merged)
    }

    // The same with what it has not from a target, which may leave values to another.
    fn with_link(self, alloc: Global, link: &TakenTarget, leaves: bool) -> Result<Merged, NoMemory>
        ensures merged { (own : Element) (one : Taken) → merging_spec.IsMerged self own
            → linked_spec.IsLink link.now one → IfOk result (λ merged. merging_spec.IsMerged merged
            (merging_spec.taking own (merging_spec.part_of leaves one.element))) }
        ensures hrefs { (told : List Told) → IsGivenTo told link.now → MergedNamed told self
            → IfOk result (MergedNamed told) }
    {
        let Some(target) = link.whole() else {
            return Ok(self);
        };
        self.with_target(alloc, target.origin, target.node, leaves)
    }

    // The same with what it has not from an element that was written in the document of this name.
    fn with_target(
        self,
        alloc: Global,
        origin: &Name,
        target: &Node,
        leaves: bool,
    ) -> Result<Merged, NoMemory>
        ensures merged { (own : Element) → merging_spec.IsMerged self own
            → IfOk result (λ merged. merging_spec.IsMerged merged (merging_spec.taking own
            (merging_spec.part_of leaves (walk_spec.element_of origin.now target.now)))) }
        ensures hrefs { (told : List Told)
            → HasNamed told (walk_spec.element_of origin.now target.now) → MergedNamed told self
            → IfOk result (MergedNamed told) }
    {
        let Merged {
            attributes,
            href_doc,
        } = self;
        let mut more = List::new(alloc);
        append_missing(alloc, &mut more, &attributes, target, leaves)?;
        let href_doc = href_from(takes_href(&attributes, &more), origin, href_doc)?;
        let mut all = attributes;
        append(&mut all, more)?;
        Ok(Merged {
            attributes: all,
            href_doc,
        })
    }

    // The same without an id, if the element stands in a range.
    pub(crate) fn without_id(self, alloc: Global, is_range: bool) -> Result<Merged, NoMemory>
        ensures { (element : Element) → merging_spec.IsMerged self element
            → IfOk result (λ merged. merging_spec.IsMerged merged
            (content_spec.without_id is_range element)) }
    {
        if !is_range {
            return Ok(self);
        }
        let Merged {
            attributes,
            href_doc,
        } = self;
        let mut others = List::new(alloc);
        append_without_id(&mut others, attributes)?;
        Ok(Merged {
            attributes: others,
            href_doc,
        })
    }
}

// An element with what it takes from these targets, the farthest first: that one takes from none,
// and each other from the one before it.
pub(crate) fn merged_with(
    alloc: Global,
    origin: &Name,
    element: &Node,
    links: &[TakenTarget],
) -> Result<Merged, NoMemory>
    ensures merged { (path : List Place) (end : ℕ) (taken : List Taken) (inside : Written)
        → linked_spec.AreLinks path end taken links.now
        → IfOk result (λ merged. merging_spec.IsMerged merged (step_spec.followed_to_all
        (walk_spec.element_of origin.now element.now) inside [] [] taken).element) }
    ensures hrefs { (told : List Told) → HasNamed told (walk_spec.element_of origin.now element.now)
        → AreGivenTo told links.now → IfOk result (MergedNamed told) }
{
    match links.split_first() {
        None => Merged::written(alloc, origin, element),
        Some((farthest, nearer)) => merged_from(alloc, origin, element, farthest, nearer),
    }
}

// The nearest target comes first, so that nothing is copied that the element or a nearer target has.
fn merged_from(
    alloc: Global,
    origin: &Name,
    element: &Node,
    farthest: &TakenTarget,
    nearer: &[TakenTarget],
) -> Result<Merged, NoMemory>
    ensures merged { (path : List Place) (end : ℕ) (one : Taken) (taken : List Taken)
        → linked_spec.IsLink farthest.now one → linked_spec.AreLinks path end taken nearer.now
        → IfOk result (λ merged. merging_spec.IsMerged merged (content_spec.merged_element
        (walk_spec.element_of origin.now element.now)
        (step_spec.merged_onto one.element taken))) }
    ensures hrefs { (told : List Told) → HasNamed told (walk_spec.element_of origin.now element.now)
        → IsGivenTo told farthest.now → AreGivenTo told nearer.now
        → IfOk result (MergedNamed told) }
{
    let own = Merged::specified(alloc, origin, element)?;
    let merged = own.with_nearer(alloc, nearer)?;
    merged.with_link(alloc, farthest, false)
}

// Whether an href is taken from a target.
fn takes_href(own: &List<Attribute>, taken: &List<Attribute>) -> bool
    ensures { result ≡ (not (tree_spec.has_href own.now) && tree_spec.has_href taken.now) }
{
    if has_name(own, "href") {
        return false;
    }
    has_name(taken, "href")
}

fn href_from(takes: bool, target: &Name, own: Name) -> Result<Name, NoMemory>
    ensures { IfOk result (λ name. name ≡ (if takes then target.now else own)) }
{
    if takes {
        return Ok(target.clone()?);
    }
    Ok(own)
}

// Appends the attributes that an element does not leave to its target.
fn append_specified(out: &mut List<Attribute>, element: &Node) -> Result<(), NoMemory>
    ensures { OnOk result (out.new ≡ out.old ++ content_spec.specified element.now.attributes) }
{
    for attribute in element.attributes.as_slice() {
        if is_specified(attribute) {
            out.push(attribute.clone()?)?;
        }
    }
    Ok(())
}

// Appends the attributes of a target that an element with these takes, without those that the target
// leaves to another.
fn append_missing(
    alloc: Global,
    out: &mut List<Attribute>,
    own: &List<Attribute>,
    target: &Node,
    leaves: bool,
) -> Result<(), NoMemory>
    ensures { OnOk result (out.new ≡ out.old
        ++ filter (merging_spec.is_given leaves own.now) target.now.attributes) }
{
    if own.len() > FEW_ATTRIBUTES && target.attributes.len() > FEW_ATTRIBUTES {
        return append_missing_of_many(alloc, out, own, target, leaves);
    }
    for attribute in target.attributes.as_slice() {
        if is_given(own, attribute, leaves) {
            out.push(attribute.clone()?)?;
        }
    }
    Ok(())
}

// Appends the same, with the names of the element's own attributes in a set.
fn append_missing_of_many(
    alloc: Global,
    out: &mut List<Attribute>,
    own: &List<Attribute>,
    target: &Node,
    leaves: bool,
) -> Result<(), NoMemory>
    ensures { OnOk result (out.new ≡ out.old
        ++ filter (merging_spec.is_given leaves own.now) target.now.attributes) }
{
    let names = NameSet::of(alloc, own)?;
    for attribute in target.attributes.as_slice() {
        if is_given_beside(&names, attribute, leaves) {
            out.push(attribute.clone()?)?;
        }
    }
    Ok(())
}

fn append(out: &mut List<Attribute>, more: List<Attribute>) -> Result<(), NoMemory>
    ensures { OnOk result (out.new ≡ out.old ++ more) }
{
    for attribute in more.into_vec() {
        out.push(attribute)?;
    }
    Ok(())
}

fn append_without_id(out: &mut List<Attribute>, attributes: List<Attribute>) -> Result<(), NoMemory>
    ensures { OnOk result (out.new ≡ out.old ++ filter merging_spec.is_no_id attributes) }
{
    for attribute in attributes.into_vec() {
        if attribute.name.as_str() != "id" {
            out.push(attribute)?;
        }
    }
    Ok(())
}

// Whether an attribute of a target is one that an element with these takes, and is not left.
fn is_given(own: &List<Attribute>, other: &Attribute, leaves: bool) -> bool
    ensures { result ≡ merging_spec.is_given leaves own.now other.now }
{
    (!leaves || is_specified(other)) && is_missing(own, other)
}

// The same, where these are the names of the element's own attributes.
fn is_given_beside(names: &NameSet<'_>, other: &Attribute, leaves: bool) -> bool
    ensures { (own : List Attribute) → names_spec.HasNamesOf names.now own
        → result ≡ merging_spec.is_given leaves own other.now }
{
    let name = other.name.as_str();
    (!leaves || is_specified(other)) && is_taken(name) && !names.has(name)
}

// Whether an attribute of a target is taken by an element that has these of its own.
fn is_missing(own: &List<Attribute>, other: &Attribute) -> bool
    ensures { result ≡ merging_spec.is_missing own.now other.now }
{
    is_taken(other.name.as_str()) && !has_name(own, other.name.as_str())
}

fn has_name(attributes: &List<Attribute>, name: &str) -> bool
    ensures { result ≡ is_some (class_value_spec.value_of name.now attributes.now) }
{
    for own in attributes.as_slice() {
        if is_same(own.name.as_bytes(), name.as_bytes()) {
            return true;
        }
    }
    false
}

// The id that an element does not leave to its target.
pub(crate) fn own_id(element: &Node) -> &str
    ensures { result.now ≡ merging_spec.own_id element.now.attributes }
{
    for attribute in element.attributes.as_slice() {
        if is_own_id(attribute) {
            return attribute.value.as_str();
        }
    }
    ""
}

// Whether an attribute is an id that is not left to a target.
fn is_own_id(attribute: &Attribute) -> bool
    ensures { result ≡ merging_spec.is_own_id attribute.now }
{
    attribute.name.as_str() == "id" && is_specified(attribute)
}

// Whether an attribute is written, and not left to a target.
fn is_specified(attribute: &Attribute) -> bool
    ensures { result ≡ merging_spec.is_specified attribute.now }
{
    !is_same(attribute.value.as_bytes(), USE_TARGET.as_bytes())
}

// Whether an attribute of this name is taken from a target.
fn is_taken(name: &str) -> bool
    ensures { result ≡ merging_spec.is_taken name.now }
{
    !NOT_TAKEN
        .iter()
        .any(|kept| is_same(name.as_bytes(), kept.as_bytes()))
}
