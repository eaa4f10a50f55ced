//! The DITAVALs that were asked for.

ghost use Rattle.std.specs.Prelude.{◌≡◌, ◌++◌, [], ◌∷◌, Some, IfOk, OnOk, length, map};
ghost use Rattle.branch_copies.specs.Ditavals as ditavals_spec;
ghost use Rattle.ditaval_rules.specs.declared.rules.RulesRead.{RulesRead};
ghost use Rattle.map_spec.specs.Branches as branches_spec;
ghost use Rattle.plan_nodes.specs.HomeDocs as home_docs_spec;
ghost use Rattle.reader_spec.specs.World.{World};
ghost use Rattle.readers.specs.Documents as documents_spec;
ghost use Rattle.readers.specs.Documents.{AsksOnly};
ghost use Rattle.readers.specs.Founded.{Grows, StaysFounded};
ghost use Rattle.readers.specs.Told.{Agrees};

use dita_doc::{Fault, List, Name, NoMemory, Stop};
use ditaval_rules::{RuleTable, RulesRead, read_rules};
use readers::Reader;
use std::alloc::Global;
use std::collections::BTreeMap;

/// What was read of DITAVALs, and for each name which of them stands under it, if one does.
#[derive(Drop)]
pub(crate) struct Ditavals {
    known: BTreeMap<Name, Option<usize>>,
    read: Vec<RulesRead>,
}

impl Ditavals {
    pub fn new(alloc: Global) -> Ditavals
        ensures known { result.known.entries ≡ [] }
        ensures read { result.read.items ≡ [] }
    {
        Ditavals {
            known: BTreeMap::new(alloc),
            read: Vec::new(alloc),
        }
    }

    /// The DITAVAL of a name, if there is one. No document is asked for or read twice.
    #[tactic(auto, using(readers::proofs::Rules::walking))]
    pub fn find<R: Reader>(
        &mut self,
        alloc: Global,
        reader: &mut R,
        name: &Name,
    ) -> Result<Option<usize>, NoMemory>
        ensures known { (world : World) → Agrees world (R.told reader.new)
            → ditavals_spec.AreKnown world self.old.read.items self.old.known.entries
            → IfOk result (λ place. ditavals_spec.IsDitavalOf world self.old.read.items
            self.new.read.items self.new.known.entries name.now place) }
        ensures stand { R.stand reader.new ≡ R.stand reader.old }
        ensures founded { StaysFounded (name.now ∷ []) (R.told reader.old) (R.told reader.new) }
        ensures asks { AsksOnly documents_spec.nothing (name.now ∷ []) (R.told reader.old)
            (R.told reader.new) }
        ensures grows { Grows (R.told reader.old) (R.told reader.new) }
    {
        if let Some(ditaval) = self.known.get(name) {
            return Ok(*ditaval);
        }
        let read = read_under(alloc, reader, name)?;
        let ditaval = self.put(read)?;
        self.known.insert(name.clone()?, ditaval)?;
        Ok(ditaval)
    }

    // Puts a DITAVAL behind the others, if there is one, and gives its place.
    fn put(&mut self, read: Option<RulesRead>) -> Result<Option<usize>, NoMemory>
        ensures longer { OnOk result (ditavals_spec.Longer self.old.read.items
            self.new.read.items) }
        ensures within { IfOk result (λ place. home_docs_spec.IsWithin
            (length self.new.read.items) place) }
        ensures is { IfOk result (λ place.
            ditavals_spec.ditaval_at self.new.read.items place ≡ read) }
        ensures known { self.new.known ≡ self.old.known }
    {
        let Some(read) = read else {
            return Ok(None);
        };
        let place = self.read.len();
        self.read.push(read)?;
        Ok(Some(place))
    }

    /// Appends what is wrong with a DITAVAL.
    pub fn append_faults(&self, faults: &mut List<Fault>, ditaval: usize) -> Result<(), NoMemory>
        ensures { OnOk result (faults.new
            ≡ faults.old ++ ditavals_spec.faults_at self.now.read.items ditaval) }
    {
        if let Some(read) = self.read.get(ditaval) {
            append_copies(faults, read.faults.as_slice())?;
        }
        Ok(())
    }

    /// A table of the rules of each DITAVAL.
    pub fn tables(&self, alloc: Global) -> Result<Vec<RuleTable>, NoMemory>
        ensures { IfOk result (λ tables. tables.items
            ≡ map (λ (read : RulesRead). read.rules) self.now.read.items) }
    {
        let mut tables = Vec::new(alloc);
        for read in &self.read {
            tables.push(table_of(read)?)?;
        }
        Ok(tables)
    }
}

// What is read of the DITAVAL that stands under a name.
#[tactic(auto, using(readers::proofs::Rules::walking))]
fn read_under<R: Reader>(
    alloc: Global,
    reader: &mut R,
    name: &Name,
) -> Result<Option<RulesRead>, NoMemory>
    ensures known { (world : World) → Agrees world (R.told reader.new)
        → IfOk result (λ read. read ≡ branches_spec.ditaval_in world name.now) }
    ensures stand { R.stand reader.new ≡ R.stand reader.old }
    ensures founded { StaysFounded (name.now ∷ []) (R.told reader.old) (R.told reader.new) }
    ensures asks { AsksOnly documents_spec.nothing (name.now ∷ []) (R.told reader.old)
        (R.told reader.new) }
    ensures grows { Grows (R.told reader.old) (R.told reader.new) }
{
    let Some(doc) = reader.doc(alloc, name)? else {
        return Ok(None);
    };
    match read_rules(alloc, name, &doc) {
        Ok(read) => Ok(Some(read)),
        Err(Stop::Fault(_)) => Ok(None),
        Err(Stop::NoMemory) => Err(NoMemory),
    }
}

// Appends copies of faults.
fn append_copies(out: &mut List<Fault>, faults: &[Fault]) -> Result<(), NoMemory>
    ensures { OnOk result (out.new ≡ out.old ++ faults.now) }
{
    for fault in faults {
        out.push(fault.clone()?)?;
    }
    Ok(())
}

// The table of the rules of a DITAVAL.
fn table_of(read: &RulesRead) -> Result<RuleTable, NoMemory>
    ensures { IfOk result (λ table. table ≡ read.now.rules) }
{
    RuleTable::of(read.rules.clone()?)
}
