//! What is kept for all pages of a plan.

use conref_targets::{PlaceTables, RuleLists};
use dita_doc::{Context, NoMemory};
use ditaval_rules::RuleTable;
use std::alloc::Global;

/// What was read of the documents of a plan, each when a page first needs it: where their elements
/// stand, the conditional attributes that they declare, and the rules of each DITAVAL. It holds for
/// one plan over one world, and each answer by it is the same as with new tables. The rules alone may
/// go on to a page that is made for other worlds, too.
#[derive(Drop)]
pub struct Tables {
    pub(crate) rules: RuleLists,
    pub(crate) places: PlaceTables,
}

impl Tables {
    ghost use Rattle.std.specs.Prelude.{◌≡◌, IfOk};
    ghost use Rattle.reader_spec.specs.World.{World};
    ghost use Rattle.conref_targets.specs.Rules as rules_spec;
    ghost use Rattle.dita_doc.specs.Shown.{shown};
    ghost use Rattle.conref_targets.specs.Tables as tables_spec;
    ghost use Rattle.conref_targets.specs.Tables.{Documents};

    pub fn new(alloc: Global) -> Self
        ensures rules { (world : World) → rules_spec.AreRules world result.rules }
        ensures places { (documents : Documents) → tables_spec.AreTables documents result.places }
    {
        Tables::with_rules(alloc, RuleLists::new(alloc))
    }

    /// Tables of these rules, for which nothing else is read yet.
    pub fn with_rules(alloc: Global, rules: RuleLists) -> Self
        ensures rules { result.rules ≡ rules }
        ensures places { (documents : Documents) → tables_spec.AreTables documents result.places }
    {
        Tables {
            rules,
            places: PlaceTables::new(alloc),
        }
    }

    /// The rules that were read.
    pub fn into_rules(self) -> RuleLists
        ensures { result ≡ self.rules }
    {
        self.rules
    }

    /// The rules by which a page is judged: those of the build's DITAVAL and of each of its
    /// filters, as far as they were read. Once the page was resolved by these tables they all are.
    pub fn rules_of<'a>(
        &'a self,
        alloc: Global,
        context: &Context,
    ) -> Result<Vec<&'a RuleTable>, NoMemory>
        ensures { IfOk result (λ tables. shown tables.items ≡ rules_spec.all_kept self.now.rules
            (rules_spec.ditavals context.now.val context.now.page.filters)) }
    {
        self.rules.of_page(alloc, context)
    }
}
