//! The links of one page alone.

ghost use Rattle.std.specs.Prelude.{◌≡◌, IfOk};
ghost use Rattle.family_links.specs.Collected as collected_spec;
ghost use Rattle.link_groups.specs.LinkNodes as link_nodes_spec;
ghost use Rattle.reader_spec.specs.World.{World};
ghost use Rattle.readers.specs.Documents as documents_spec;
ghost use Rattle.readers.specs.Documents.{AsksOnly};
ghost use Rattle.readers.specs.Founded as founded_spec;
ghost use Rattle.readers.specs.Founded.{Grows, StaysFounded};
ghost use Rattle.readers.specs.Told.{Agrees};
ghost use Rattle.reltable_links.specs.RowTable as row_table_spec;
ghost use Rattle.whole_calls.specs.PageLinks as spec;

use dita_doc::{Fault, List, NoMemory, PageLink, Plan};
use family_links::Collections;
use link_groups::{LinkList, LinkNodes};
use plan_nodes::NodeElements;
use readers::Asker;
use reltable_links::Rows;
use std::alloc::Global;

/// The links of a page, and the faults that were met.
#[derive(Drop)]
pub struct LinksMade {
    pub links: List<PageLink>,
    pub faults: List<Fault>,
}

/// The links of a page by the relationship tables of its plan. The faults are those of all rows,
/// whatever the page.
pub fn by_rows<A: Asker>(
    alloc: Global,
    asker: &mut A,
    plan: &Plan,
    page: u32,
) -> Result<LinksMade, NoMemory>
    ensures known { row_table_spec.CanLink (A.stand asker.old).world plan.now
        (A.stand asker.old).setting.pages → (world : World) → Agrees world (A.told asker.new)
        → IfOk result (spec.AreRowLinks world plan.now page) }
    ensures value { row_table_spec.CanLink (A.stand asker.old).world plan.now
        (A.stand asker.old).setting.pages
        → IfOk result (spec.AreRowLinks (A.stand asker.old).world plan.now page) }
    ensures stand { A.stand asker.new ≡ A.stand asker.old }
    ensures founded { StaysFounded (link_nodes_spec.plan_names plan.now) (A.told asker.old)
        (A.told asker.new) }
    ensures asks { AsksOnly documents_spec.nothing (founded_spec.homes plan.now.nodes)
        (A.told asker.old) (A.told asker.new) }
    ensures grows { Grows (A.told asker.old) (A.told asker.new) }
{
    rows_linked(alloc, asker, plan, page)
}

// What `by_rows` says, but of the reader's own world.
fn rows_linked<A: Asker>(
    alloc: Global,
    asker: &mut A,
    plan: &Plan,
    page: u32,
) -> Result<LinksMade, NoMemory>
    ensures known { row_table_spec.CanLink (A.stand asker.old).world plan.now
        (A.stand asker.old).setting.pages → (world : World) → Agrees world (A.told asker.new)
        → IfOk result (spec.AreRowLinks world plan.now page) }
    ensures stand { A.stand asker.new ≡ A.stand asker.old }
    ensures founded { StaysFounded (link_nodes_spec.plan_names plan.now) (A.told asker.old)
        (A.told asker.new) }
    ensures asks { AsksOnly documents_spec.nothing (founded_spec.homes plan.now.nodes)
        (A.told asker.old) (A.told asker.new) }
    ensures grows { Grows (A.told asker.old) (A.told asker.new) }
{
    let homes = NodeElements::of(alloc, asker, plan.nodes.as_slice())?;
    let mut link_nodes = LinkNodes::new(alloc);
    let rows = Rows::of(alloc, asker, plan, &homes, &mut link_nodes)?;
    let mut links = LinkList::new(alloc, page);
    rows.append(alloc, page, &mut links)?;
    Ok(LinksMade {
        links: links.written(alloc, asker, plan)?,
        faults: rows.faults_by_row(alloc, plan)?,
    })
}

/// The links of a page by the collections of its plan. There are no faults.
pub fn by_families<A: Asker>(
    alloc: Global,
    asker: &mut A,
    plan: &Plan,
    page: u32,
) -> Result<LinksMade, NoMemory>
    ensures known { collected_spec.IsReady (A.stand asker.old).world plan.now
        (A.stand asker.old).setting.pages → (world : World) → Agrees world (A.told asker.new)
        → IfOk result (spec.AreFamilyLinks world plan.now page) }
    ensures value { collected_spec.IsReady (A.stand asker.old).world plan.now
        (A.stand asker.old).setting.pages
        → IfOk result (spec.AreFamilyLinks (A.stand asker.old).world plan.now page) }
    ensures stand { A.stand asker.new ≡ A.stand asker.old }
    ensures founded { StaysFounded (link_nodes_spec.plan_names plan.now) (A.told asker.old)
        (A.told asker.new) }
    ensures asks { AsksOnly documents_spec.nothing (founded_spec.homes plan.now.nodes)
        (A.told asker.old) (A.told asker.new) }
    ensures grows { Grows (A.told asker.old) (A.told asker.new) }
{
    families_linked(alloc, asker, plan, page)
}

// What `by_families` says, but of the reader's own world.
fn families_linked<A: Asker>(
    alloc: Global,
    asker: &mut A,
    plan: &Plan,
    page: u32,
) -> Result<LinksMade, NoMemory>
    ensures known { collected_spec.IsReady (A.stand asker.old).world plan.now
        (A.stand asker.old).setting.pages → (world : World) → Agrees world (A.told asker.new)
        → IfOk result (spec.AreFamilyLinks world plan.now page) }
    ensures stand { A.stand asker.new ≡ A.stand asker.old }
    ensures founded { StaysFounded (link_nodes_spec.plan_names plan.now) (A.told asker.old)
        (A.told asker.new) }
    ensures asks { AsksOnly documents_spec.nothing (founded_spec.homes plan.now.nodes)
        (A.told asker.old) (A.told asker.new) }
    ensures grows { Grows (A.told asker.old) (A.told asker.new) }
{
    let homes = NodeElements::of(alloc, asker, plan.nodes.as_slice())?;
    let mut link_nodes = LinkNodes::new(alloc);
    let collections = Collections::of(alloc, asker, plan, &homes, &mut link_nodes)?;
    let mut links = LinkList::new(alloc, page);
    collections.append(alloc, page, &mut links)?;
    Ok(LinksMade {
        links: links.written(alloc, asker, plan)?,
        faults: List::new(alloc),
    })
}
