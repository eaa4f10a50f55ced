//! What is made of a plan over a reader that knows it: its links, a page and the contents page.

ghost use Rattle.std.specs.Prelude.{◌≡◌, ◌++◌, ◌∷◌, ℕ, List, [], Some, IfOk, OnOk, slice_get};
ghost use Rattle.std.specs.Option.{option_copied};
ghost use Rattle.clean_build.specs.Made as made_spec;
ghost use Rattle.clean_build.specs.Names as names_spec;
ghost use Rattle.clean_build.specs.Bodies.{AreKnown, IsBodyMade};
ghost use Rattle.clean_build.specs.BuildInput.{IsReady, context_for};
ghost use Rattle.clean_build.specs.Reads.{MayReadFor, ReadsOnly};
ghost use Rattle.conref_targets.specs.Asking as asking_spec;
ghost use Rattle.conref_targets.specs.Rules.{AreRules, ditavals};
ghost use Rattle.map_spec.specs.Titles.{title_in};
ghost use Rattle.node_links.specs.NodeTable.{AreNodeLinks};
ghost use Rattle.html_spec.specs.PageHtml as page_html_spec;
ghost use Rattle.part_spec.specs.Parts as parts_spec;
ghost use Rattle.reader_spec.specs.World.{World};
ghost use Rattle.readers.specs.Documents as documents_spec;
ghost use Rattle.readers.specs.Documents.{AsksOnly};
ghost use Rattle.readers.specs.Founded as founded_spec;
ghost use Rattle.readers.specs.Founded.{Grows, StaysFounded};
ghost use Rattle.readers.specs.Told.{Agrees};

use crate::body::{BodyMade, no_html, page_body};
use crate::build_input::BuildInput;
use crate::hrefs::hrefs_once;
use crate::plan_task::PlanTask;
use crate::root::root_line;
use conref_pull::Tables;
use dita_doc::{Fault, Html, List, Name, NoMemory, PageLink, PagePlan, TermEntry, Text};
use html_page::page_html;
use node_links::NodeLinks;
use readers::Asker;
use std::alloc::{AllocError, Global};
use toc_page::contents;

/// The links of a plan's collections and relationship tables.
#[derive(Clone, Copy)]
pub(crate) struct LinksWork<'p> {
    pub ground: BuildInput<'p>,
}

impl<'p> PlanTask for LinksWork<'p> {
    ghost use Rattle.clean_build.specs.Made as made_spec;
    ghost use Rattle.clean_build.specs.Names as names_spec;
    ghost use Rattle.readers.specs.Documents as documents_spec;

    type Made = NodeLinks;

    ghost makes = { made_spec.MakesLinks };

    ghost about = { names_spec.about_links };

    ghost documents = { names_spec.documents_of_links };

    ghost follows = { λ work. documents_spec.nothing };

    ghost tells = { made_spec.TellsLinks };

    fn run<A: Asker>(self, alloc: Global, asker: &mut A) -> Result<NodeLinks, NoMemory> {
        NodeLinks::of(alloc, asker, self.ground.plan)
    }
}

/// The contents page, with the faults of all pushes.
#[derive(Clone, Copy)]
pub struct ContentsWork<'p> {
    pub ground: BuildInput<'p>,
}

impl<'p> PlanTask for ContentsWork<'p> {
    ghost use Rattle.clean_build.specs.Made as made_spec;
    ghost use Rattle.clean_build.specs.Names as names_spec;
    ghost use Rattle.readers.specs.Documents as documents_spec;

    type Made = Html;

    ghost makes = { made_spec.MakesContents };

    ghost about = { names_spec.about_contents };

    ghost documents = { names_spec.documents_of_contents };

    ghost follows = { λ work. documents_spec.nothing };

    ghost tells = { made_spec.TellsContents };

    fn run<A: Asker>(self, alloc: Global, asker: &mut A) -> Result<Html, NoMemory> {
        contents(alloc, asker, self.ground.plan)
    }
}

/// The page at an index, with the faults of its content and, behind them, these, and the terms of
/// its content, if they are wanted. It is empty if its document is not stored.
#[derive(Drop)]
pub struct PageWork<'p, 'b> {
    pub ground: BuildInput<'p>,
    pub page: &'p PagePlan,
    pub index: u32,
    pub links: &'b NodeLinks,
    pub content: Tables,
    pub behind: List<Fault>,
    pub with_terms: bool,
}

/// A page, the terms of its content, and the tables by which that was resolved.
#[derive(Drop)]
pub struct PageMade {
    pub html: Html,
    pub terms: List<TermEntry>,
    pub content: Tables,
}

impl<'p, 'b> PlanTask for PageWork<'p, 'b> {
    ghost use Rattle.clean_build.specs.Made as made_spec;
    ghost use Rattle.clean_build.specs.Names as names_spec;
    ghost use Rattle.conref_targets.specs.Asking as asking_spec;

    type Made = PageMade;

    ghost makes = { made_spec.MakesPage };

    ghost about = { names_spec.about_page };

    ghost documents = { names_spec.documents_of_page };

    ghost follows = { λ work. asking_spec.of_content };

    ghost tells = { made_spec.TellsPage };

    fn run<A: Asker>(self, alloc: Global, asker: &mut A) -> Result<PageMade, NoMemory> {
        let Some(line) = root_line(alloc, asker, &self.page.id.doc)? else {
            return Ok(nothing(alloc, self.content));
        };
        rooted(alloc, asker, self, line)
    }
}

// No page, as its document has no root.
fn nothing(alloc: Global, content: Tables) -> PageMade
    ensures { result ≡ made_spec.nothing content }
{
    PageMade {
        html: no_html(alloc),
        terms: List::new(alloc),
        content,
    }
}

// The page of a document whose root stands at this line.
fn rooted<A: Asker>(
    alloc: Global,
    asker: &mut A,
    work: PageWork<'_, '_>,
    line: u32,
) -> Result<PageMade, NoMemory>
    ensures known { (world : World) → Agrees world (A.told asker.new)
        → IsReady world work.entry.ground (A.stand asker.old).setting
        → slice_get work.entry.ground.plan.now.pages work.entry.index ≡ Some work.entry.page.now
        → AreNodeLinks world work.entry.ground.plan.now work.entry.links.now
        → AreKnown (A.stand asker.old).world world work.entry.ground.plan.now work.entry.content
        → IfOk result (made_spec.IsMadeAt (A.stand asker.old).world world work.entry line) }
    ensures kept { AreRules (A.stand asker.old).world work.entry.content.rules
        → IfOk result (λ made. AreRules (A.stand asker.old).world made.content.rules) }
    ensures founded { StaysFounded (founded_spec.homes (A.stand asker.old).setting.nodes
        ++ names_spec.about_page work.entry) (A.told asker.old) (A.told asker.new) }
    ensures asks { AsksOnly asking_spec.of_content (names_spec.documents_of_page work.entry)
        (A.told asker.old) (A.told asker.new) }
    ensures only { (world : World) → Agrees world (A.told asker.new)
        → OnOk result (made_spec.TellsPage work.entry world (A.stand asker.old).setting
        (A.told asker.old) (A.told asker.new)) }
    ensures stand { A.stand asker.new ≡ A.stand asker.old }
    ensures grows { Grows (A.told asker.old) (A.told asker.new) }
{
    let ground = work.ground;
    let number = number_wanted(work.with_terms, work.index);
    let BodyMade {
        body,
        links: own,
        terms,
        content,
    } = body_on_ground(
        alloc,
        asker,
        ground,
        work.page,
        work.content,
        work.behind,
        number,
    )?;
    let of_nodes = work.links.of_page(alloc, asker, ground.plan, work.index)?;
    let hrefs = joined_once(alloc, of_nodes, own)?;
    let html = titled(alloc, asker, &work.page.id.doc, line, &body, &hrefs)?;
    Ok(PageMade {
        html,
        terms,
        content,
    })
}

// The page's number, if its terms are wanted.
fn number_wanted(with_terms: bool, number: u32) -> Option<u32>
    ensures { result ≡ made_spec.number_wanted with_terms number }
{
    if with_terms { Some(number) } else { None }
}

// The body of a page of this ground's plan, made for the page's own context.
fn body_on_ground<A: Asker>(
    alloc: Global,
    asker: &mut A,
    ground: BuildInput<'_>,
    page: &PagePlan,
    content: Tables,
    behind: List<Fault>,
    number: Option<u32>,
) -> Result<BodyMade, NoMemory>
    ensures known { (world : World) (index : ℕ) → Agrees world (A.told asker.new)
        → IsReady world ground.entry (A.stand asker.old).setting
        → slice_get ground.entry.plan.now.pages index ≡ Some page.now
        → AreKnown (A.stand asker.old).world world ground.entry.plan.now content
        → IfOk result (IsBodyMade (A.stand asker.old).world world ground.entry.plan.now
        (context_for ground.entry page.now) page.now index behind number) }
    ensures kept { AreRules (A.stand asker.old).world content.rules
        → IfOk result (λ made. AreRules (A.stand asker.old).world made.content.rules) }
    ensures founded { StaysFounded (founded_spec.homes (A.stand asker.old).setting.nodes
        ++ page.now.id.doc ∷ ditavals (option_copied ground.entry.val) page.now.id.filters)
        (A.told asker.old) (A.told asker.new) }
    ensures asks { AsksOnly asking_spec.of_content
        (names_spec.names_of_content ground.entry page.now) (A.told asker.old) (A.told asker.new) }
    ensures only { (world : World) → Agrees world (A.told asker.new)
        → OnOk result (ReadsOnly (MayReadFor world (A.stand asker.old).setting
        (context_for ground.entry page.now)) (A.told asker.old) (A.told asker.new)) }
    ensures stand { A.stand asker.new ≡ A.stand asker.old }
    ensures grows { Grows (A.told asker.old) (A.told asker.new) }
{
    let context = ground.context_of(alloc, page)?;
    page_body(alloc, asker, content, ground.plan, &context, behind, number)
}

// The page of this body with these links, under the title of its document.
fn titled<A: Asker>(
    alloc: Global,
    asker: &mut A,
    name: &Name,
    line: u32,
    body: &Html,
    hrefs: &List<PageLink>,
) -> Result<Html, NoMemory>
    ensures known { (world : World) → Agrees world (A.told asker.new)
        → IfOk result (λ html. html ≡ page_html_spec.page_html name.now line
        (title_in world name.now []) body.now hrefs.now) }
    ensures founded { StaysFounded (name.now ∷ []) (A.told asker.old) (A.told asker.new) }
    ensures asks { AsksOnly documents_spec.nothing [] (A.told asker.old) (A.told asker.new) }
    ensures stand { A.stand asker.new ≡ A.stand asker.old }
    ensures grows { Grows (A.told asker.old) (A.told asker.new) }
{
    let title = asker.title(alloc, name, &Text::new(alloc))?;
    page_html(alloc, name, line, &title, body, hrefs)
}

// The first links, and behind them the others, without those whose href an earlier one has.
fn joined_once(
    alloc: Global,
    first: List<PageLink>,
    others: List<PageLink>,
) -> Result<List<PageLink>, AllocError>
    ensures { IfOk result (λ once. once ≡ parts_spec.hrefs_once (first ++ others)) }
{
    hrefs_once(alloc, joined(first, others)?)
}

// The first links, and behind them the others.
fn joined(first: List<PageLink>, others: List<PageLink>) -> Result<List<PageLink>, AllocError>
    ensures { IfOk result (λ all. all ≡ first ++ others) }
{
    let mut links = first;
    for link in others.into_vec() {
        links.push(link)?;
    }
    Ok(links)
}
