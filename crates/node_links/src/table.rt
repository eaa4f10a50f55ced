//! The table of the links between pages.

ghost use Rattle.std.specs.Prelude.{◌≡◌, [], IfOk, OnOk};
ghost use Rattle.dita_doc.specs.declared.plan.Plan as plan_spec;
ghost use Rattle.link_groups.specs.Asked as asked_spec;
ghost use Rattle.link_groups.specs.LinkNodes as link_nodes_spec;
ghost use Rattle.node_links.specs.NodeTable as spec;
ghost use Rattle.link_spec.specs.Links as links_spec;
ghost use Rattle.reader_spec.specs.World.{World};
ghost use Rattle.readers.specs.Documents as documents_spec;
ghost use Rattle.readers.specs.Documents.{AsksOnly};
ghost use Rattle.readers.specs.Founded as founded_spec;
ghost use Rattle.readers.specs.Founded.{Grows, StaysFounded};
ghost use Rattle.readers.specs.Only.{TellsOnly};
ghost use Rattle.readers.specs.Told.{Agrees};
ghost use Rattle.reltable_links.specs.RowTable as row_table_spec;

use dita_doc::{Fault, List, NoMemory, PageLink, Plan};
use family_links::Collections;
use link_groups::{LinkList, LinkNodes};
use plan_nodes::NodeElements;
use readers::Asker;
use reltable_links::Rows;
use std::alloc::Global;

/// The collections and rows of a plan, by pages, and the faults of the rows.
#[derive(Drop)]
pub struct NodeLinks {
    collections: Collections,
    rows: Rows,
    faults: List<Fault>,
}

impl NodeLinks {
    /// Finds the collections and rows of a plan. Each node in them is asked for its page once.
    #[tactic(auto, using(readers::proofs::Rules::walking))]
    pub fn of<A: Asker>(alloc: Global, asker: &mut A, plan: &Plan) -> Result<NodeLinks, NoMemory>
        ensures known { (world : World) → Agrees world (A.told asker.new)
            → row_table_spec.CanLink world plan.now (A.stand asker.old).setting.pages
            → IfOk result (spec.AreNodeLinks world plan.now) }
        ensures stand { A.stand asker.new ≡ A.stand asker.old }
        ensures founded { StaysFounded (link_nodes_spec.plan_names plan.now) (A.told asker.old)
            (A.told asker.new) }
        ensures asks { AsksOnly documents_spec.nothing (founded_spec.homes plan.now.nodes)
            (A.told asker.old) (A.told asker.new) }
        ensures only { OnOk result (TellsOnly (asked_spec.is_of_links plan.now) (A.told asker.old)
            (A.told asker.new)) }
        ensures grows { Grows (A.told asker.old) (A.told asker.new) }
    {
        let homes = NodeElements::of(alloc, asker, plan.nodes.as_slice())?;
        let mut link_nodes = LinkNodes::new(alloc);
        let collections = Collections::of(alloc, asker, plan, &homes, &mut link_nodes)?;
        let rows = Rows::of(alloc, asker, plan, &homes, &mut link_nodes)?;
        let faults = rows.faults(alloc, plan)?;
        Ok(NodeLinks {
            collections,
            rows,
            faults,
        })
    }

    /// The links of a page: to those before it, to those behind it, to its siblings and to those
    /// that are related, each in the order of the nodes linked to. Each href stands once, with its
    /// first kind, and none leads to the page itself.
    #[tactic(auto, using(readers::proofs::Rules::walking))]
    pub fn of_page<A: Asker>(
        &self,
        alloc: Global,
        asker: &mut A,
        plan: &Plan,
        page: u32,
    ) -> Result<List<PageLink>, NoMemory>
        ensures known { (world : World) → Agrees world (A.told asker.new)
            → spec.AreNodeLinks world plan.now self.now
            → IfOk result (λ links. links ≡ spec.node_links world plan.now page) }
        ensures stand { A.stand asker.new ≡ A.stand asker.old }
        ensures founded { StaysFounded (link_nodes_spec.plan_names plan.now) (A.told asker.old)
            (A.told asker.new) }
        ensures asks { AsksOnly documents_spec.nothing [] (A.told asker.old) (A.told asker.new) }
        ensures only { OnOk result (TellsOnly (asked_spec.is_title_of_pages plan.now)
            (A.told asker.old) (A.told asker.new)) }
        ensures grows { Grows (A.told asker.old) (A.told asker.new) }
    {
        let mut links = LinkList::new(alloc, page);
        self.collections.append(alloc, page, &mut links)?;
        self.rows.append(alloc, page, &mut links)?;
        let shown = links.written(alloc, asker, plan)?;
        Ok(shown)
    }

    /// The faults of nodes in rows that have no page, each once. They are faults of every page.
    pub fn faults(&self) -> &[Fault]
        ensures { (world : World) (plan : plan_spec.Plan) → spec.AreNodeLinks world plan self.now
            → result.now ≡ row_table_spec.cell_faults plan }
    {
        self.faults.as_slice()
    }

    /// The faults of each row in turn: a node that stands in several rows has its fault in each.
    pub fn faults_by_row(&self, alloc: Global, plan: &Plan) -> Result<List<Fault>, NoMemory>
        ensures { (world : World) → spec.AreNodeLinks world plan.now self.now
            → IfOk result (λ faults. faults ≡ links_spec.row_faults plan.now) }
    {
        self.rows.faults_by_row(alloc, plan)
    }
}
