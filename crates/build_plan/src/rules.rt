//! The rules of a build's DITAVAL.

ghost use Rattle.std.specs.Prelude.{◌≡◌};
ghost use Rattle.std.specs.Option.{option_copied, option_to_list};
ghost use Rattle.dita_doc.specs.Gives.{Gives};
ghost use Rattle.map_spec.specs.PlanOf as plan_spec;
ghost use Rattle.reader_spec.specs.World.{World};
ghost use Rattle.readers.specs.Documents as documents_spec;
ghost use Rattle.readers.specs.Documents.{AsksOnly};
ghost use Rattle.readers.specs.Founded.{Grows, StaysFounded};
ghost use Rattle.readers.specs.Told.{Agrees};

use dita_doc::{List, Name, PlanStop, Stop};
use ditaval_rules::{RulesRead, read_rules};
use readers::Reader;
use std::alloc::Global;

/// The rules of the DITAVAL, which must be there if it is named.
pub(crate) fn rules_of_build<R: Reader>(
    alloc: Global,
    reader: &mut R,
    val: Option<&Name>,
) -> Result<RulesRead, Stop<PlanStop>>
    ensures known { (world : World) → Agrees world (R.told reader.new)
        → Gives result (plan_spec.build_rules world (option_copied val.entry)) }
    ensures stand { R.stand reader.new ≡ R.stand reader.old }
    ensures founded { StaysFounded (option_to_list (option_copied val.entry)) (R.told reader.old)
        (R.told reader.new) }
    ensures asks { AsksOnly documents_spec.nothing (option_to_list (option_copied val.entry))
        (R.told reader.old) (R.told reader.new) }
    ensures grows { Grows (R.told reader.old) (R.told reader.new) }
{
    let Some(val) = val else {
        return Ok(RulesRead {
            rules: List::new(alloc),
            faults: List::new(alloc),
        });
    };
    let Some(doc) = reader.doc(alloc, val)? else {
        return Err(Stop::Fault(PlanStop::NoDitaval));
    };
    match read_rules(alloc, val, &doc) {
        Ok(read) => Ok(read),
        Err(Stop::Fault(_)) => Err(Stop::Fault(PlanStop::NoDitaval)),
        Err(Stop::NoMemory) => Err(Stop::NoMemory),
    }
}
