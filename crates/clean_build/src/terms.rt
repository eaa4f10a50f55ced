//! The page of a build's terms.

ghost use Rattle.std.specs.Prelude.{◌≡◌, ◌++◌, [], IfOk, OnOk};
ghost use Rattle.std.specs.Option.{option_copied};
ghost use Rattle.clean_build.specs.Gathering as gathering_spec;
ghost use Rattle.clean_build.specs.Terms as terms_spec;
ghost use Rattle.plan_reader.specs.Tables.{AreTables, GoesOn};
ghost use Rattle.reader_spec.specs.World.{World, world_of};
ghost use Rattle.readers.specs.Documents as documents_spec;
ghost use Rattle.readers.specs.Documents.{AsksOnly};
ghost use Rattle.readers.specs.Founded.{Grows, StaysFounded};
ghost use Rattle.readers.specs.Told.{Agrees};

use crate::build_input::BuildInput;
use crate::gathered::Gathered;
use crate::plan_task::PlanTask;
use crate::work_done::made_over;
use dita_doc::{Html, List, NoMemory, PagePlan, Sources, TermEntry, Text};
use index_page::terms_html;
use plan_reader::{PlanCache, PlanTables};
use readers::{Asker, Titles};
use std::alloc::Global;

/// The page of terms of a build whose pages were all gathered, with these terms, if it is wanted.
/// Pages that are too large together have none.
pub(crate) fn terms_page(
    alloc: Global,
    sources: &Sources,
    cache: PlanCache,
    ground: BuildInput<'_>,
    tables: &PlanTables,
    gathered: &Gathered,
    terms: &List<TermEntry>,
    with_terms: bool,
) -> Result<Option<Html>, NoMemory>
    requires goes_on { GoesOn (world_of sources.now) ground.plan.now.documents cache }
    requires tables { AreTables (world_of sources.now) ground.plan.now.nodes
        ground.plan.now.documents ground.plan.now.pages tables.now }
    requires gathered { gathering_spec.HasPartsOf (world_of sources.now) ground.plan.now
        (option_copied ground.val) gathered.now }
    requires terms { terms.now ≡ terms_spec.terms_of_all with_terms (world_of sources.now)
        ground.plan.now (option_copied ground.val) }
    ensures { IfOk result (λ page. page ≡ terms_spec.page_of_plan with_terms
        (world_of sources.now) ground.entry.plan.now (option_copied ground.entry.val)) }
{
    if !with_terms {
        return Ok(None);
    }
    if gathered.is_too_large() {
        return Ok(None);
    }
    let work = TermsWork { ground, terms };
    let (page, _) = made_over(alloc, sources, cache, ground.plan, tables, work)?;
    Ok(page)
}

/// The page that lists these terms, under the titles of the plan's pages.
#[derive(Clone, Copy)]
pub(crate) struct TermsWork<'p, 't> {
    ground: BuildInput<'p>,
    terms: &'t List<TermEntry>,
}

impl<'p, 't> PlanTask for TermsWork<'p, 't> {
    ghost use Rattle.std.specs.Prelude.{[]};
    ghost use Rattle.clean_build.specs.Terms as terms_spec;
    ghost use Rattle.readers.specs.Documents as documents_spec;

    type Made = Option<Html>;

    ghost makes = { terms_spec.MakesTerms };

    ghost about = { terms_spec.about_terms };

    ghost documents = { λ work. [] };

    ghost follows = { λ work. documents_spec.nothing };

    ghost tells = { terms_spec.TellsTerms };

    fn run<A: Asker>(self, alloc: Global, asker: &mut A) -> Result<Option<Html>, NoMemory> {
        let titles = titles_of(alloc, asker, self.ground.plan.pages.as_slice())?;
        terms_html(alloc, self.terms, self.ground.plan, &titles)
    }
}

// The titles of pages, each that of its document.
fn titles_of<T: Titles>(
    alloc: Global,
    asker: &mut T,
    pages: &[PagePlan],
) -> Result<List<Text>, NoMemory>
    ensures known { (world : World) → Agrees world (T.told asker.new)
        → IfOk result (λ titles. titles ≡ terms_spec.titles_in world pages.now) }
    ensures founded { StaysFounded (terms_spec.documents_of pages.now) (T.told asker.old)
        (T.told asker.new) }
    ensures asks { AsksOnly documents_spec.nothing [] (T.told asker.old) (T.told asker.new) }
    ensures stand { T.stand asker.new ≡ T.stand asker.old }
    ensures grows { Grows (T.told asker.old) (T.told asker.new) }
{
    let no_topic = Text::new(alloc);
    let mut titles = List::new(alloc);
    for page in pages {
        titles.push(asker.title(alloc, &page.id.doc, &no_topic)?)?;
    }
    Ok(titles)
}

/// Appends terms, which are moved.
pub(crate) fn append_terms(
    out: &mut List<TermEntry>,
    terms: List<TermEntry>,
) -> Result<(), NoMemory>
    ensures { OnOk result (out.new ≡ out.old ++ terms) }
{
    for entry in terms.into_vec() {
        out.push(entry)?;
    }
    Ok(())
}
