//! The links of one page.

ghost use Rattle.std.specs.Prelude.{◌≡◌, ◌++◌, [], ◌∷◌, ℕ, IfOk, OnOk, map, slice_get};
ghost use Rattle.std.specs.List.{filter_map};
ghost use Rattle.std.specs.Option.{option_copied, option_to_list};
ghost use Rattle.std.specs.Ordering.{nat_cmp};
ghost use Rattle.link_groups.specs.Asked as asked_spec;
ghost use Rattle.link_groups.specs.LinkLists as spec;
ghost use Rattle.link_groups.specs.LinkNodes as link_nodes_spec;
ghost use Rattle.link_spec.specs.Links as links_spec;
ghost use Rattle.reader_spec.specs.World.{World};
ghost use Rattle.readers.specs.Documents as documents_spec;
ghost use Rattle.readers.specs.Documents.{AsksOnly};
ghost use Rattle.readers.specs.Founded.{Grows, StaysFounded};
ghost use Rattle.readers.specs.Only as only_spec;
ghost use Rattle.readers.specs.Only.{TellsOnly};
ghost use Rattle.readers.specs.Told.{Agrees};

use crate::link_nodes::LinkNode;
use crate::page_marks::PageMarks;
use dita_doc::{LinkKind, List, NoMemory, PageLink, PagePlan, Plan, Text};
use href_text::relative;
use readers::Asker;
use std::alloc::Global;

// A link to a page.
#[derive(Clone, Copy)]
struct LinkTo {
    kind: LinkKind,
    page: u32,
}

/// The links of a page before they are written: to each other page once, by what comes first, and
/// none to the page itself.
#[derive(Drop)]
pub struct LinkList {
    page: u32,
    seen: PageMarks,
    links: Vec<LinkTo>,
}

impl LinkList {
    /// The empty list of a page.
    pub fn new(alloc: Global, page: u32) -> LinkList
        ensures { spec.HoldsLinks page [] result }
    {
        LinkList {
            page,
            seen: PageMarks::new(alloc),
            links: Vec::new(alloc),
        }
    }

    /// Appends a link to a page, unless it is this one, or the list has a link to it.
    pub fn push(&mut self, kind: LinkKind, page: u32) -> Result<(), NoMemory>
        ensures { (own : ℕ) (all : spec.Links) → spec.HoldsLinks own all self.old
            → OnOk result (spec.HoldsLinks own (spec.with_link own all kind page) self.new) }
    {
        if page == self.page {
            return Ok(());
        }
        if self.seen.insert(page)? {
            self.links.push(LinkTo { kind, page })?;
        }
        Ok(())
    }

    /// Appends links to the pages of nodes, in the order in which the nodes stand.
    pub fn append(&mut self, kind: LinkKind, nodes: Vec<LinkNode>) -> Result<(), NoMemory>
        ensures { (own : ℕ) (all : spec.Links) → spec.HoldsLinks own all self.old
            → OnOk result (spec.AppendsLinks own all kind nodes.items self.new) }
    {
        let mut nodes = nodes;
        nodes.sort_unstable_by_key(|node| node.at);
        self.put_nodes(kind, &nodes)?;
        Ok(())
    }

    /// The links with their hrefs and labels: the titles of the documents.
    #[tactic(auto, using(readers::proofs::Rules::walking))]
    pub fn written<A: Asker>(
        &self,
        alloc: Global,
        asker: &mut A,
        plan: &Plan,
    ) -> Result<List<PageLink>, NoMemory>
        ensures known { (world : World) (own : ℕ) (all : spec.Links)
            → Agrees world (A.told asker.new) → spec.HoldsLinks own all self.now
            → IfOk result (λ links. links ≡ links_spec.page_links world plan.now own all) }
        ensures stand { A.stand asker.new ≡ A.stand asker.old }
        ensures founded { StaysFounded (link_nodes_spec.plan_names plan.now) (A.told asker.old)
            (A.told asker.new) }
        ensures asks { AsksOnly documents_spec.nothing [] (A.told asker.old) (A.told asker.new) }
        ensures only { OnOk result (TellsOnly (asked_spec.is_title_of_pages plan.now)
            (A.told asker.old) (A.told asker.new)) }
        ensures grows { Grows (A.told asker.old) (A.told asker.new) }
    {
        let pages = plan.pages.as_slice();
        let Some(own) = page_at(pages, self.page) else {
            return Ok(List::new(alloc));
        };
        let written = all_written(alloc, asker, pages, own, &self.links)?;
        Ok(written)
    }

    // Appends links to the pages of nodes, as they stand.
    fn put_nodes(&mut self, kind: LinkKind, nodes: &[LinkNode]) -> Result<(), NoMemory>
        ensures { (own : ℕ) (all : spec.Links) → spec.HoldsLinks own all self.old
            → OnOk result (spec.HoldsLinks own (all ++ spec.links_to_nodes own kind nodes.now)
            self.new) }
    {
        for node in nodes {
            self.push_node(kind, node)?;
        }
        Ok(())
    }

    fn push_node(&mut self, kind: LinkKind, node: &LinkNode) -> Result<(), NoMemory>
        ensures { (own : ℕ) (all : spec.Links) → spec.HoldsLinks own all self.old
            → OnOk result (spec.HoldsLinks own (spec.with_link own all kind node.now.page)
            self.new) }
    {
        self.push(kind, node.page)
    }
}

// Links of this page as they are written.
#[tactic(auto, using(readers::proofs::Rules::walking))]
fn all_written<A: Asker>(
    alloc: Global,
    asker: &mut A,
    pages: &[PagePlan],
    own: &PagePlan,
    links: &[LinkTo],
) -> Result<List<PageLink>, NoMemory>
    ensures known { (world : World) → Agrees world (A.told asker.new)
        → IfOk result (λ written. written ≡ filter_map (spec.page_link_in world pages.now own.now)
        (map spec.link_shown links.now)) }
    ensures stand { A.stand asker.new ≡ A.stand asker.old }
    ensures founded { StaysFounded (link_nodes_spec.names_of_pages pages.now) (A.told asker.old)
        (A.told asker.new) }
    ensures asks { AsksOnly documents_spec.nothing [] (A.told asker.old) (A.told asker.new) }
    ensures only { OnOk result (TellsOnly
        (only_spec.is_title_among (link_nodes_spec.names_of_pages pages.now))
        (A.told asker.old) (A.told asker.new)) }
    ensures grows { Grows (A.told asker.old) (A.told asker.new) }
{
    let mut written = List::new(alloc);
    for link in links {
        put_link(alloc, asker, pages, own, link, &mut written)?;
    }
    Ok(written)
}

// Writes a link of this page behind the others.
#[tactic(auto, using(readers::proofs::Rules::walking))]
fn put_link<A: Asker>(
    alloc: Global,
    asker: &mut A,
    pages: &[PagePlan],
    own: &PagePlan,
    link: &LinkTo,
    written: &mut List<PageLink>,
) -> Result<(), NoMemory>
    ensures known { (world : World) → Agrees world (A.told asker.new)
        → OnOk result (written.new ≡ written.old ++ option_to_list
        (spec.page_link_in world pages.now own.now (spec.link_shown link.now))) }
    ensures stand { A.stand asker.new ≡ A.stand asker.old }
    ensures founded { StaysFounded (link_nodes_spec.names_of_pages pages.now) (A.told asker.old)
        (A.told asker.new) }
    ensures asks { AsksOnly documents_spec.nothing [] (A.told asker.old) (A.told asker.new) }
    ensures only { OnOk result (TellsOnly
        (only_spec.is_title_among (link_nodes_spec.names_of_pages pages.now))
        (A.told asker.old) (A.told asker.new)) }
    ensures grows { Grows (A.told asker.old) (A.told asker.new) }
{
    let Some(other) = page_at(pages, link.page) else {
        return Ok(());
    };
    let made = link_to(alloc, asker, link.kind, own, other)?;
    written.push(made)?;
    Ok(())
}

fn page_at(pages: &[PagePlan], place: u32) -> Option<&PagePlan>
    ensures { option_copied result ≡ slice_get pages.now place }
{
    pages.get(place as usize)
}

// The link from a page to another.
#[tactic(auto, using(readers::proofs::Rules::walking))]
fn link_to<A: Asker>(
    alloc: Global,
    asker: &mut A,
    kind: LinkKind,
    own: &PagePlan,
    other: &PagePlan,
) -> Result<PageLink, NoMemory>
    ensures known { (world : World) → Agrees world (A.told asker.new)
        → IfOk result (λ link. link ≡ spec.page_link_to world kind own.now other.now) }
    ensures stand { A.stand asker.new ≡ A.stand asker.old }
    ensures founded { StaysFounded (other.now.id.doc ∷ []) (A.told asker.old)
        (A.told asker.new) }
    ensures asks { AsksOnly documents_spec.nothing [] (A.told asker.old) (A.told asker.new) }
    ensures only { OnOk result (TellsOnly (only_spec.is_title_among (other.now.id.doc ∷ []))
        (A.told asker.old) (A.told asker.new)) }
    ensures grows { Grows (A.told asker.old) (A.told asker.new) }
{
    let no_topic = Text::new(alloc);
    let label = asker.title(alloc, &other.id.doc, &no_topic)?;
    Ok(PageLink {
        kind,
        href: relative(alloc, &own.name, &other.name)?,
        label,
    })
}
