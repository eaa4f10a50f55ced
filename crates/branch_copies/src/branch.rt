//! What a ditavalref does.

ghost use Rattle.std.specs.Prelude.{◌≡◌, [], ◌∷◌, ℕ, List, IfOk, codes};
ghost use Rattle.branch_copies.specs.BranchRead as branch_read_spec;
ghost use Rattle.branch_copies.specs.Ditavals as ditavals_spec;
ghost use Rattle.doc_elements.specs.Walk as walk_spec;
ghost use Rattle.map_spec.specs.Branches as branches_spec;
ghost use Rattle.reader_spec.specs.World.{World};
ghost use Rattle.readers.specs.Documents as documents_spec;
ghost use Rattle.readers.specs.Documents.{AsksOnly};
ghost use Rattle.readers.specs.Founded.{Grows, StaysFounded};
ghost use Rattle.readers.specs.Told.{Agrees};

use crate::ditavals::Ditavals;
use dita_doc::{Affix, Fault, FaultCode, List, Name, NoMemory, Node, Siblings, Text};
use doc_elements::{fault_at, first_under, plain_text};
use readers::Reader;
use std::alloc::Global;
use targets::{Named, named_of};

/// A DITAVAL by which a branch is filtered: its name, and which of the DITAVALs it is.
#[derive(Drop)]
pub(crate) struct Filter {
    pub name: Name,
    pub ditaval: usize,
}

/// What a ditavalref does: its place among the nodes, its filter, and what it puts before and after
/// the names of pages and of scopes.
#[derive(Drop)]
pub(crate) struct Branch {
    pub place: usize,
    pub filter: Option<Filter>,
    pub resource: Affix,
    pub keyscope: Affix,
}

/// What the ditavalref at this place does, of which this is the element, written in the document of
/// this name. Faults are appended.
#[tactic(auto, using(readers::proofs::Rules::walking))]
pub(crate) fn read_branch<R: Reader>(
    alloc: Global,
    reader: &mut R,
    ditavals: &mut Ditavals,
    faults: &mut List<Fault>,
    place: usize,
    name: &Name,
    element: &Node,
    inside: Siblings<'_>,
) -> Result<Branch, NoMemory>
    ensures known { (world : World) → Agrees world (R.told reader.new)
        → ditavals_spec.AreKnown world ditavals.old.read.items ditavals.old.known.entries
        → IfOk result (λ branch. branch_read_spec.IsBranchOf world ditavals.old.read.items
        ditavals.new.read.items ditavals.new.known.entries faults.old faults.new place
        (walk_spec.element_of name.now element.now)
        (walk_spec.content_in name.now inside.entry) branch) }
    ensures stand { R.stand reader.new ≡ R.stand reader.old }
    ensures founded { StaysFounded (branch_read_spec.targets_of (walk_spec.element_of name.now element.now))
        (R.told reader.old) (R.told reader.new) }
    ensures asks { AsksOnly documents_spec.nothing
        (branch_read_spec.targets_of (walk_spec.element_of name.now element.now))
        (R.told reader.old) (R.told reader.new) }
    ensures grows { Grows (R.told reader.old) (R.told reader.new) }
{
    Ok(Branch {
        place,
        filter: read_filter(alloc, reader, ditavals, faults, name, element)?,
        resource: resource_affix(alloc, inside)?,
        keyscope: keyscope_affix(alloc, inside)?,
    })
}

fn resource_affix(alloc: Global, inside: Siblings<'_>) -> Result<Affix, NoMemory>
    ensures { (name : List ℕ) → IfOk result (λ affix. affix ≡ branches_spec.affix_of
        (walk_spec.content_in name inside.entry) (codes "ditavalref-d/dvrResourcePrefix")
        (codes "ditavalref-d/dvrResourceSuffix")) }
{
    Ok(Affix {
        prefix: metadata_text(alloc, inside, "ditavalref-d/dvrResourcePrefix")?,
        suffix: metadata_text(alloc, inside, "ditavalref-d/dvrResourceSuffix")?,
    })
}

fn keyscope_affix(alloc: Global, inside: Siblings<'_>) -> Result<Affix, NoMemory>
    ensures { (name : List ℕ) → IfOk result (λ affix. affix ≡ branches_spec.affix_of
        (walk_spec.content_in name inside.entry) (codes "ditavalref-d/dvrKeyscopePrefix")
        (codes "ditavalref-d/dvrKeyscopeSuffix")) }
{
    Ok(Affix {
        prefix: metadata_text(alloc, inside, "ditavalref-d/dvrKeyscopePrefix")?,
        suffix: metadata_text(alloc, inside, "ditavalref-d/dvrKeyscopeSuffix")?,
    })
}

// The plain text of an element of the branch's metadata; empty if there is none.
fn metadata_text(alloc: Global, inside: Siblings<'_>, token: &str) -> Result<Text, NoMemory>
    ensures { (name : List ℕ) → IfOk result (λ text. text ≡ branches_spec.metadata_text
        (walk_spec.content_in name inside.entry) token.now) }
{
    match first_under(inside, "ditavalref-d/ditavalmeta", token) {
        Some((_, content)) => Ok(plain_text(alloc, content)?),
        None => Ok(Text::new(alloc)),
    }
}

// What a ditavalref filters by, if it filters. Faults are appended.
#[tactic(auto, using(readers::proofs::Rules::walking))]
fn read_filter<R: Reader>(
    alloc: Global,
    reader: &mut R,
    ditavals: &mut Ditavals,
    faults: &mut List<Fault>,
    name: &Name,
    element: &Node,
) -> Result<Option<Filter>, NoMemory>
    ensures known { (world : World) → Agrees world (R.told reader.new)
        → ditavals_spec.AreKnown world ditavals.old.read.items ditavals.old.known.entries
        → IfOk result (λ filter. branch_read_spec.IsFilterOf world ditavals.old.read.items
        ditavals.new.read.items ditavals.new.known.entries faults.old faults.new
        (branches_spec.filter_of world (walk_spec.element_of name.now element.now)) filter) }
    ensures stand { R.stand reader.new ≡ R.stand reader.old }
    ensures founded { StaysFounded (branch_read_spec.targets_of (walk_spec.element_of name.now element.now))
        (R.told reader.old) (R.told reader.new) }
    ensures asks { AsksOnly documents_spec.nothing
        (branch_read_spec.targets_of (walk_spec.element_of name.now element.now))
        (R.told reader.old) (R.told reader.new) }
    ensures grows { Grows (R.told reader.old) (R.told reader.new) }
{
    let Some(href) = element.value_of("href") else {
        return Ok(None);
    };
    match named_of(alloc, name, element, href)? {
        Named::Document(val) => {
            return filter_under(alloc, reader, ditavals, faults, name, element, val);
        }
        Named::Elsewhere => {
            faults.push(fault_at(alloc, name, element, FaultCode::DitavalMissing, href)?)?;
        }
        Named::Unreadable => {
            faults.push(fault_at(alloc, name, element, FaultCode::BadReference, href)?)?;
        }
    }
    Ok(None)
}

// The filter by the DITAVAL of this name, if there is one. Faults are appended.
#[tactic(auto, using(readers::proofs::Rules::walking))]
fn filter_under<R: Reader>(
    alloc: Global,
    reader: &mut R,
    ditavals: &mut Ditavals,
    faults: &mut List<Fault>,
    name: &Name,
    element: &Node,
    val: Name,
) -> Result<Option<Filter>, NoMemory>
    ensures known { (world : World) → Agrees world (R.told reader.new)
        → ditavals_spec.AreKnown world ditavals.old.read.items ditavals.old.known.entries
        → IfOk result (λ filter. branch_read_spec.IsFilterOf world ditavals.old.read.items
        ditavals.new.read.items ditavals.new.known.entries faults.old faults.new
        (branches_spec.filter_read (walk_spec.element_of name.now element.now) val
        (branches_spec.ditaval_in world val)) filter) }
    ensures stand { R.stand reader.new ≡ R.stand reader.old }
    ensures founded { StaysFounded (val ∷ [])
        (R.told reader.old) (R.told reader.new) }
    ensures asks { AsksOnly documents_spec.nothing
        (val ∷ [])
        (R.told reader.old) (R.told reader.new) }
    ensures grows { Grows (R.told reader.old) (R.told reader.new) }
{
    if let Some(ditaval) = ditavals.find(alloc, reader, &val)? {
        ditavals.append_faults(faults, ditaval)?;
        return Ok(Some(Filter { name: val, ditaval }));
    }
    let code = FaultCode::DitavalMissing;
    faults.push(fault_at(alloc, name, element, code, val.as_str())?)?;
    Ok(None)
}
