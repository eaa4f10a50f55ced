//! The pages and the faults of a build, gathered one after another.

ghost use Rattle.std.specs.Prelude.{◌≡◌, ◌++◌, [], ◌∷◌, ℕ, List, IfOk, OnOk, nat_le, not};
ghost use Rattle.clean_build.specs.Gathering as gathering_spec;
ghost use Rattle.clean_build.specs.Gathering.{AreAsGood, HasGathered, HasPages};
ghost use Rattle.dita_doc.specs.declared.fact.Html as html_declared;
ghost use Rattle.dita_doc.specs.declared.fault.Fault as fault_declared;
ghost use Rattle.dita_doc.specs.declared.plan.Plan as plan_declared;
ghost use Rattle.part_spec.specs.Parts as parts_spec;

use crate::built::Clean;
use dita_doc::{Fault, Html, List, Name, NoMemory};
use doc_elements::append_faults;
use fault_report::report;
use std::alloc::Global;
use std::sync::Arc;

// The most bytes of all pages of a build.
const TOTAL_LIMIT: u64 = 268_435_456;

// So many faults are gathered before they are made distinct for the first time.
const FEW_FAULTS: usize = 4_096;

/// What a build has so far. Once its pages are too large together none is kept, and their bytes are
/// counted on. Faults are made distinct whenever their number has doubled.
#[derive(Drop)]
pub(crate) struct Gathered {
    pages: List<(Name, Arc<Html>)>,
    total: u64,
    faults: List<Fault>,
    distinct: usize,
}

impl Gathered {
    pub fn new(alloc: Global) -> Self
        ensures { HasGathered [] [] [] result }
    {
        Gathered {
            pages: List::new(alloc),
            total: 0,
            faults: List::new(alloc),
            distinct: FEW_FAULTS,
        }
    }

    /// Puts a page of the build behind those before it, with its faults. More bytes than can be
    /// counted are more than there is memory for.
    pub fn put(&mut self, alloc: Global, name: Name, page: Html) -> Result<(), NoMemory>
        ensures pages { (names : List (List ℕ)) (parts : List html_declared.Html)
            (part : html_declared.Html) → HasPages names parts self.old → part.bytes ≡ page.bytes
            → OnOk result (HasPages (names ++ name ∷ []) (parts ++ part ∷ []) self.new) }
        ensures faults { (all : List fault_declared.Fault) → AreAsGood self.old.faults all
            → OnOk result (AreAsGood self.new.faults (all ++ page.faults)) }
    {
        let Html { bytes, faults } = page;
        self.put_faults(alloc, faults)?;
        self.put_bytes(alloc, name, bytes)
    }

    /// Puts faults of the build.
    pub fn put_faults(&mut self, alloc: Global, faults: List<Fault>) -> Result<(), NoMemory>
        ensures faults { (all : List fault_declared.Fault) → AreAsGood self.old.faults all
            → OnOk result (AreAsGood self.new.faults (all ++ faults)) }
        ensures pages { self.new.pages ≡ self.old.pages }
        ensures total { self.new.total ≡ self.old.total }
    {
        append_faults(&mut self.faults, faults)?;
        if self.faults.len() / 2 > self.distinct {
            self.faults = report(alloc, &self.faults)?;
            self.distinct = self.faults.len().max(FEW_FAULTS);
        }
        Ok(())
    }

    // Puts the bytes of a page.
    fn put_bytes(&mut self, alloc: Global, name: Name, bytes: List<u8>) -> Result<(), NoMemory>
        ensures pages { (names : List (List ℕ)) (parts : List html_declared.Html)
            (part : html_declared.Html) → HasPages names parts self.old → part.bytes ≡ bytes
            → OnOk result (HasPages (names ++ name ∷ []) (parts ++ part ∷ []) self.new) }
        ensures faults { self.new.faults ≡ self.old.faults }
    {
        let Some(total) = self.total.checked_add(bytes.len() as u64) else {
            return Err(NoMemory);
        };
        self.total = total;
        if total > TOTAL_LIMIT {
            self.pages = List::new(alloc);
            return Ok(());
        }
        let html = Html {
            bytes,
            faults: List::new(alloc),
        };
        self.pages.push((name, Arc::new(alloc, html)?))?;
        Ok(())
    }

    /// Whether the pages that were put are too large together.
    pub fn is_too_large(&self) -> bool
        ensures { result ≡ not (nat_le self.now.total parts_spec.total_limit) }
    {
        self.total > TOTAL_LIMIT
    }

    /// What the build gives.
    pub fn finish(self, alloc: Global) -> Result<Clean, NoMemory>
        ensures { (plan : plan_declared.Plan) (parts : List html_declared.Html)
            (faults : List fault_declared.Fault)
            → HasGathered (parts_spec.names_of_pages plan) parts faults self
            → AreAsGood faults (parts_spec.faults_of plan parts)
            → IfOk result (gathering_spec.IsBuilt plan parts) }
    {
        let Gathered {
            pages,
            total,
            faults,
            ..
        } = self;
        if total > TOTAL_LIMIT {
            return Ok(Clean::TooLarge(total));
        }
        Ok(Clean::Done(pages, report(alloc, &faults)?))
    }
}
