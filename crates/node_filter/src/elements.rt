//! The elements that nodes stand for, with the conditional attributes declared for each.

ghost use Rattle.std.specs.Prelude.{◌≡◌, IfOk, map};
ghost use Rattle.node_filter.specs.Domains as domains_spec;
ghost use Rattle.map_spec.specs.Cascade as cascade_spec;
ghost use Rattle.plan_nodes.specs.Given as given_spec;
ghost use Rattle.readers.specs.Documents as documents_spec;
ghost use Rattle.readers.specs.Documents.{AsksOnly};
ghost use Rattle.readers.specs.Founded as founded_spec;
ghost use Rattle.readers.specs.Founded.{Grows, StaysFounded};
ghost use Rattle.readers.specs.Told.{Agrees};
ghost use Rattle.reader_spec.specs.World.{World};

use crate::domains::DeclaredNames;
use dita_doc::{NoMemory, PlanNode};
use plan_nodes::NodeElements;
use readers::Reader;
use std::alloc::Global;

/// The element of each node, and the names of conditional attributes declared for it.
#[derive(Drop)]
pub struct Elements {
    pub homes: NodeElements,
    pub declared: DeclaredNames,
}

impl Elements {
    /// Asks for the documents in which nodes stand: once for the elements, and once for what the
    /// documents declare.
    ///
    /// # Errors
    ///
    /// Out of memory.
    #[tactic(auto, using(crate::proofs::DomainLaws::reading))]
    pub fn of<R: Reader>(
        alloc: Global,
        reader: &mut R,
        nodes: &[PlanNode],
    ) -> Result<Elements, NoMemory>
        ensures known { (world : World) → Agrees world (R.told reader.new)
            → IfOk result (λ elements.
            elements.homes ≡ map (cascade_spec.whole_at world) nodes.now) }
        ensures declared { (world : World) → Agrees world (R.told reader.new)
            → IfOk result (λ elements.
            domains_spec.AreDeclared world nodes.now elements.declared) }
        ensures value { IfOk result (λ elements. elements.homes
            ≡ map (cascade_spec.whole_at (R.stand reader.old).world) nodes.now) }
        ensures given { IfOk result (λ elements.
            given_spec.AreTold (R.told reader.new) elements.homes) }
        ensures stand { R.stand reader.new ≡ R.stand reader.old }
        ensures founded { StaysFounded (founded_spec.homes nodes.now) (R.told reader.old)
            (R.told reader.new) }
        ensures asks { AsksOnly documents_spec.nothing (founded_spec.homes nodes.now)
            (R.told reader.old) (R.told reader.new) }
        ensures grows { Grows (R.told reader.old) (R.told reader.new) }
    {
        let homes = NodeElements::of(alloc, reader, nodes)?;
        let declared = DeclaredNames::of(alloc, reader, nodes)?;
        Ok(Elements { homes, declared })
    }
}
