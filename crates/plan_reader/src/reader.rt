//! The reader of one part of a plan.

ghost use Rattle.std.specs.Prelude.{◌≡◌, []};
ghost use Rattle.plan_reader.specs.Made as made_spec;
ghost use Rattle.plan_reader.specs.Tables.{AreTables, AreTables-prop, GoesOn};
ghost use Rattle.pushed_docs.specs.Made.{AreKept, AreKept-prop, ArePushed, ArePushed-prop};
ghost use Rattle.reader_spec.specs.World.{world_of};
ghost use Rattle.readers.specs.Props.{Agrees-prop};
ghost use Rattle.readers.specs.Told.{Agrees};

use crate::cache::PlanCache;
use crate::tables::PlanTables;
use dita_doc::{List, Name, PagePlan, PlanNode, Sources};
use pushed_docs::{PushedDocs, PushedMemo};
use readers::Questions;
use source_reader::KnownTitles;
use std::alloc::Global;

/// A reader over stored sources, made for the nodes, the documents and the pages of a plan. `asked`
/// has the questions of one part, and `memo` the documents that were made for it; what is in `known`
/// and in `docs` goes on to the next part.
///
/// `agreed` says that the sources give each answer that was told; `tabled` that the tables are those
/// of the plan over these sources; `made` and `kept` that the documents are right, in each world that
/// agrees with what was told and over these sources.
#[derive(Drop)]
pub struct PlanReader<'a, 'n> {
    pub known: KnownTitles<'a>,
    pub docs: PushedDocs,
    pub asked: Questions,
    pub memo: PushedMemo,
    pub nodes: &'n List<PlanNode>,
    pub documents: &'n List<Name>,
    pub pages: &'n List<PagePlan>,
    pub tables: &'n PlanTables,
    pub ghost agreed: { Agrees (world_of known.sources.now)
        (made_spec.told_for nodes.now documents.now pages.now asked) } by { Agrees-prop
            (world_of known.sources.now)
            (made_spec.told_for nodes.now documents.now pages.now asked) },
    pub ghost tabled: { AreTables (world_of known.sources.now) nodes.now documents.now pages.now
        tables.now } by { AreTables-prop (world_of known.sources.now) nodes.now documents.now
            pages.now tables.now },
    pub ghost made: { ArePushed (made_spec.told_for nodes.now documents.now pages.now asked)
        documents.now memo } by { ArePushed-prop
            (made_spec.told_for nodes.now documents.now pages.now asked) documents.now memo },
    pub ghost kept: { AreKept (world_of known.sources.now) documents.now docs } by { AreKept-prop
        (world_of known.sources.now) documents.now docs },
}

impl<'a, 'n> PlanReader<'a, 'n> {
    /// A reader that was asked nothing. It takes no memory.
    pub fn new(
        alloc: Global,
        sources: &'a Sources,
        cache: PlanCache,
        nodes: &'n List<PlanNode>,
        documents: &'n List<Name>,
        pages: &'n List<PagePlan>,
        tables: &'n PlanTables,
    ) -> Self
        requires goes_on { GoesOn (world_of sources.now) documents.now cache }
        requires tables { AreTables (world_of sources.now) nodes.now documents.now
            pages.now tables.now }
        ensures sources { result.known.sources.now ≡ sources.now }
        ensures asked { result.asked ≡ [] }
        ensures nodes { result.nodes.now ≡ nodes.now }
        ensures documents { result.documents.now ≡ documents.now }
        ensures pages { result.pages.now ≡ pages.now }
    {
        let PlanCache { titles, docs } = cache;
        PlanReader {
            known: KnownTitles::with_titles(sources, titles),
            docs,
            asked: Questions::new(alloc),
            memo: PushedMemo::new(alloc),
            nodes,
            documents,
            pages,
            tables,
        }
    }

    /// The questions that it was asked, and what goes on to the next part.
    pub fn into_asked(self) -> (Questions, PlanCache)
        ensures asked { result.0 ≡ self.entry.asked }
        ensures goes_on { GoesOn (world_of self.entry.known.sources.now)
            self.entry.documents.now result.1 }
    {
        let PlanReader {
            known,
            docs,
            asked,
            ..
        } = self;
        let titles = known.into_titles();
        (asked, PlanCache { titles, docs })
    }
}
