//! The rules by which pages are judged.

ghost use Rattle.std.specs.Prelude.{◌≡◌, ◌++◌, [], ◌∷◌, IfOk, OnOk, length, take};
ghost use Rattle.std.specs.Option.{option_to_list};
ghost use Rattle.ditaval_rules.specs.Verdict as verdict_spec;
ghost use Rattle.reader_spec.specs.World.{World};
ghost use Rattle.readers.specs.Documents as documents_spec;
ghost use Rattle.readers.specs.Documents.{AsksOnly};
ghost use Rattle.readers.specs.Founded.{Grows, StaysFounded};
ghost use Rattle.readers.specs.Only as only_spec;
ghost use Rattle.readers.specs.Only.{TellsOnly};
ghost use Rattle.readers.specs.Told.{Agrees, tree_found};
ghost use Rattle.conref_targets.specs.Rules as rules_spec;
ghost use Rattle.dita_doc.specs.Shown.{shown};

use dita_doc::{Attribute, Context, Doc, List, Name, NoMemory, Stop, Text};
use ditaval_rules::{NotDitaval, RuleTable, read_rules};
use readers::Reader;
use std::alloc::Global;
use std::collections::BTreeMap;
use std::marker::Model;
use std::sync::Arc;

/// A table of the rules of each DITAVAL, by its name; a document that is none has no rules. They hold
/// in one world, and may serve all pages of a plan, whichever reader over it makes them.
#[derive(Drop)]
pub struct RuleLists {
    lists: BTreeMap<Name, Option<RuleTable>>,
}

impl RuleLists {
    /// Nothing is read yet.
    pub fn new(alloc: Global) -> Self
        ensures { (world : World) → rules_spec.AreRules world result }
    {
        RuleLists {
            lists: BTreeMap::new(alloc),
        }
    }

    /// Reads what the rules of a page need that is not read yet. Each page asks for its documents,
    /// so that its questions do not depend on what was made before, and so its rules are those of
    /// each world that agrees with what it was told, in whichever world they were read.
    #[tactic(auto, using(crate::proofs::Telling::telling))]
    pub fn read<R: Reader>(
        &mut self,
        alloc: Global,
        reader: &mut R,
        context: &Context,
    ) -> Result<(), NoMemory>
        ensures known { rules_spec.AreRules (R.stand reader.old).world self.old
            → (world : World) → Agrees world (R.told reader.new)
            → OnOk result (rules_spec.all_kept self.new
            (rules_spec.ditavals context.now.val context.now.page.filters)
            ≡ rules_spec.page_rules world
            (rules_spec.ditavals context.now.val context.now.page.filters)) }
        ensures kept { rules_spec.AreRules (R.stand reader.old).world self.old
            → OnOk result (rules_spec.AreRules (R.stand reader.old).world self.new) }
        ensures stand { R.stand reader.new ≡ R.stand reader.old }
        ensures founded { StaysFounded (rules_spec.ditavals context.now.val context.now.page.filters)
            (R.told reader.old) (R.told reader.new) }
        ensures asks { AsksOnly documents_spec.nothing
            (rules_spec.ditavals context.now.val context.now.page.filters)
            (R.told reader.old) (R.told reader.new) }
        ensures only { OnOk result (TellsOnly (only_spec.is_document_of
            (rules_spec.ditavals context.now.val context.now.page.filters))
            (R.told reader.old) (R.told reader.new)) }
        ensures grows { Grows (R.told reader.old) (R.told reader.new) }
    {
        self.read_val(alloc, reader, context)?;
        self.read_filters(alloc, reader, context.page.filters.as_slice())
    }

    #[tactic(auto, using(crate::proofs::Telling::telling))]
    fn read_val<R: Reader>(
        &mut self,
        alloc: Global,
        reader: &mut R,
        context: &Context,
    ) -> Result<(), NoMemory>
        ensures kept { rules_spec.AreRules (R.stand reader.old).world self.old
            → OnOk result (rules_spec.AreRules (R.stand reader.old).world self.new) }
        ensures same { (world : World) → Agrees world (R.told reader.new)
            → OnOk result (rules_spec.HaveSame (R.stand reader.old).world world (option_to_list context.now.val)) }
        ensures has { OnOk result (rules_spec.HasAll self.new (option_to_list context.now.val)) }
        ensures stand { R.stand reader.new ≡ R.stand reader.old }
        ensures founded { StaysFounded (option_to_list context.now.val) (R.told reader.old)
            (R.told reader.new) }
        ensures asks { AsksOnly documents_spec.nothing (option_to_list context.now.val)
            (R.told reader.old) (R.told reader.new) }
        ensures only { OnOk result (TellsOnly
            (only_spec.is_document_of (option_to_list context.now.val)) (R.told reader.old)
            (R.told reader.new)) }
        ensures grows { Grows (R.told reader.old) (R.told reader.new) }
    {
        match &context.val {
            Some(val) => self.read_one(alloc, reader, val),
            None => Ok(()),
        }
    }

    #[tactic(auto, using(crate::proofs::Telling::telling))]
    fn read_filters<R: Reader>(
        &mut self,
        alloc: Global,
        reader: &mut R,
        filters: &[Name],
    ) -> Result<(), NoMemory>
        ensures kept { rules_spec.AreRules (R.stand reader.old).world self.old
            → OnOk result (rules_spec.AreRules (R.stand reader.old).world self.new) }
        ensures same { (world : World) → Agrees world (R.told reader.new)
            → OnOk result (rules_spec.HaveSame (R.stand reader.old).world world filters.now) }
        ensures keeps { OnOk result (rules_spec.Keeps self.old self.new) }
        ensures has { OnOk result (rules_spec.HasAll self.new filters.now) }
        ensures stand { R.stand reader.new ≡ R.stand reader.old }
        ensures founded { StaysFounded filters.now (R.told reader.old) (R.told reader.new) }
        ensures asks { AsksOnly documents_spec.nothing filters.now (R.told reader.old)
            (R.told reader.new) }
        ensures only { OnOk result (TellsOnly (only_spec.is_document_of filters.now)
            (R.told reader.old) (R.told reader.new)) }
        ensures grows { Grows (R.told reader.old) (R.told reader.new) }
    {
        for filter in filters {
            self.read_one(alloc, reader, filter)?;
        }
        Ok(())
    }

    #[tactic(auto, using(crate::proofs::Telling::telling))]
    fn read_one<R: Reader>(
        &mut self,
        alloc: Global,
        reader: &mut R,
        name: &Name,
    ) -> Result<(), NoMemory>
        ensures kept { rules_spec.AreRules (R.stand reader.old).world self.old
            → OnOk result (rules_spec.AreRules (R.stand reader.old).world self.new) }
        ensures same { (world : World) → Agrees world (R.told reader.new)
            → OnOk result (rules_spec.HaveSame (R.stand reader.old).world world (name.now ∷ [])) }
        ensures has { OnOk result (rules_spec.HasRead self.new self.old name.now) }
        ensures stand { R.stand reader.new ≡ R.stand reader.old }
        ensures founded { StaysFounded (name.now ∷ []) (R.told reader.old) (R.told reader.new) }
        ensures asks { AsksOnly documents_spec.nothing (name.now ∷ []) (R.told reader.old)
            (R.told reader.new) }
        ensures only { OnOk result (TellsOnly (only_spec.is_document_of (name.now ∷ []))
            (R.told reader.old) (R.told reader.new)) }
        ensures grows { Grows (R.told reader.old) (R.told reader.new) }
    {
        let doc = reader.doc(alloc, name)?;
        if self.lists.contains_key(name) {
            return Ok(());
        }
        let rules = rules_of(alloc, name, doc)?;
        self.lists.insert(name.clone()?, rules)?;
        Ok(())
    }

    /// The rules that are kept for the DITAVALs of a page, in their order.
    pub fn of_page<'a>(
        &'a self,
        alloc: Global,
        context: &Context,
    ) -> Result<Vec<&'a RuleTable>, NoMemory>
        ensures { IfOk result (λ tables. shown tables.items ≡ rules_spec.all_kept self.now
            (rules_spec.ditavals context.now.val context.now.page.filters)) }
    {
        let mut tables = Vec::new(alloc);
        push_val(&mut tables, self, context)?;
        push_filters(&mut tables, self, context.page.filters.as_slice())?;
        Ok(tables)
    }
}

// The rules of the DITAVAL of this name, if a document was found and is one.
fn rules_of(
    alloc: Global,
    name: &Name,
    found: Option<Arc<Doc>>,
) -> Result<Option<RuleTable>, NoMemory>
    ensures { (world : World) → world name.now ≡ tree_found found
        → IfOk result (λ rules. rules ≡ rules_spec.rules_under world name.now) }
{
    let Some(doc) = found else {
        return Ok(None);
    };
    match read_rules(alloc, name, &doc) {
        Ok(read) => Ok(Some(RuleTable::of(read.rules)?)),
        Err(Stop::Fault(NotDitaval)) => Ok(None),
        Err(Stop::NoMemory) => Err(NoMemory),
    }
}

/// The rules of a page: those of the build's DITAVAL and of each of its filters, seen by contracts
/// as the lists of them.
#[derive(Drop)]
pub struct PageRules<'a> {
    tables: Vec<&'a RuleTable>,
}

impl<'a> Model for PageRules<'a> {
    ghost use Rattle.std.specs.Prelude.{List};
    ghost use Rattle.dita_doc.specs.declared.content.Rule.{Rule};
    ghost use Rattle.dita_doc.specs.Shown.{shown};

    ghost Value = { List (List Rule) };

    ghost view = { λ r. shown r.tables.items };
}

impl<'a> PageRules<'a> {
    ghost use Rattle.std.specs.Prelude.{◌≡◌, [], IfOk, true};
    ghost use Rattle.conref_targets.specs.Rules as rules_spec;

    /// The rules that are kept for the DITAVALs of a page.
    pub fn of(
        alloc: Global,
        known: &'a RuleLists,
        context: &Context,
    ) -> Result<PageRules<'a>, NoMemory>
        ensures { IfOk result (λ rules. rules ≡ rules_spec.all_kept known.now
            (rules_spec.ditavals context.now.val context.now.page.filters)) }
    {
        let tables = known.of_page(alloc, context)?;
        Ok(PageRules { tables })
    }

    // Whether the page has no rules at all.
    pub(crate) fn is_empty(&self) -> bool
        ensures { result ≡ true → self.now ≡ [] }
    {
        self.tables.is_empty()
    }

    // Whether rules exclude an element of these attributes, for which these names are declared.
    pub(crate) fn exclude(&self, declared: &List<Text>, attributes: &List<Attribute>) -> bool
        ensures { result ≡ rules_spec.some_exclude self.now declared.now attributes.now }
    {
        self.tables
            .iter()
            .any(|table| table.verdict(declared, attributes))
    }
}

fn push_val<'a>(
    tables: &mut Vec<&'a RuleTable>,
    known: &'a RuleLists,
    context: &Context,
) -> Result<(), NoMemory>
    ensures { OnOk result (shown tables.new.items ≡ shown tables.old.items
        ++ rules_spec.all_kept known.now (option_to_list context.now.val)) }
{
    match &context.val {
        Some(val) => push_kept(tables, known, val),
        None => Ok(()),
    }
}

fn push_filters<'a>(
    tables: &mut Vec<&'a RuleTable>,
    known: &'a RuleLists,
    filters: &[Name],
) -> Result<(), NoMemory>
    ensures { OnOk result (shown tables.new.items ≡ shown tables.old.items
        ++ rules_spec.all_kept known.now filters.now) }
{
    for filter in filters {
        push_kept(tables, known, filter)?;
    }
    Ok(())
}

// Puts the rules that are kept under a name behind others, if there are any.
fn push_kept<'a>(
    tables: &mut Vec<&'a RuleTable>,
    known: &'a RuleLists,
    name: &Name,
) -> Result<(), NoMemory>
    ensures { OnOk result (shown tables.new.items
        ≡ shown tables.old.items ++ rules_spec.rules_kept known.now name.now) }
{
    if let Some(Some(rules)) = known.lists.get(name) {
        tables.push(rules)?;
    }
    Ok(())
}
