//! The layer.

ghost use Rattle.std.specs.Prelude.{◌≡◌};
ghost use Rattle.conref_push.specs.Table.{IsPushTable, IsPushTable-prop};
ghost use Rattle.page_table.specs.Pages.{IsPageTable, IsPageTable-prop};
ghost use Rattle.plan_layer.specs.Carried.{CarriesFrom, CarriesFrom-prop, WereAllowed, WereAllowed-prop};
ghost use Rattle.plan_layer.specs.Carried as carried_spec;
ghost use Rattle.plan_layer.specs.Passing.{PassesOn, PassesOn-prop};
ghost use Rattle.pushed_docs.specs.Made.{AreKept, AreKept-prop, ArePushed, ArePushed-prop};
ghost use Rattle.readers.specs.Founded.{Grows};
ghost use Rattle.readers.specs.Noted as noted_spec;
ghost use Rattle.readers.specs.Props.{Knows-prop, Stand-set};
ghost use Rattle.readers.specs.Told.{Knows};

use conref_push::PushTable;
use dita_doc::{List, Name, PagePlan};
use page_table::PageTable;
use pushed_docs::{PushedDocs, PushedMemo};
use readers::{Keys, LogStart, Questions};
use std::marker::PhantomData;

/// The pushes and the pages of a plan over a reader that knows keys. Each document is made once with
/// the pushes into it, and shared if they leave it as it is. `memo` is that of the questions in
/// `asked`; `docs` goes on from one list of questions to the next. The questions begin behind those
/// that the reader below had been told at the start.
///
/// `carried` and `passed` say that what the reader below was told carries what the layer tells, and
/// `grown` that it only grows from the start; so what holds of the layer's questions holds below.
/// `tabled` and `paged` say that the tables are those of the plan's documents and pages, and `given`
/// that the documents might be asked about by the start, since each was asked for. `kept` says that
/// what is in `docs` is right in the world on which the reader below stands.
#[derive(Drop)]
pub struct PlanLayer<'r, 'q, 'm, 'd, 'n, K: Keys, S: LogStart> {
    pub lower: &'r mut K,
    pub asked: &'q mut Questions,
    pub memo: &'m mut PushedMemo,
    pub docs: &'d mut PushedDocs,
    pub documents: &'n List<Name>,
    pub pages: &'n List<PagePlan>,
    pub table: &'n PushTable,
    pub places: &'n PageTable,
    pub since: PhantomData<S>,
    pub ghost tabled: { Knows S.told (λ world. IsPushTable world documents.now table.now) } by { Knows-prop S.told (λ world. IsPushTable world documents.now table.now)
        (λ world. IsPushTable-prop world documents.now table.now) },
    pub ghost paged: { IsPageTable pages.now places.now } by { IsPageTable-prop
        pages.now places.now },
    pub ghost given: { WereAllowed S.told documents.now } by { WereAllowed-prop
        S.told documents.now },
    pub ghost made: { ArePushed
        (noted_spec.told_onto (carried_spec.made_for documents.now pages.now S.stand.setting)
        S.told asked.now) documents.now memo.now } by { ArePushed-prop
            (noted_spec.told_onto (carried_spec.made_for documents.now pages.now S.stand.setting)
            S.told asked.now) documents.now memo.now },
    pub ghost kept: { AreKept (K.stand lower.now).world documents.now docs.now } by { AreKept-prop
        (K.stand lower.now).world documents.now docs.now },
    pub ghost carried: { CarriesFrom S.told (K.told lower.now)
        (noted_spec.told_onto (carried_spec.made_for documents.now pages.now S.stand.setting)
        S.told asked.now) } by { CarriesFrom-prop S.told (K.told lower.now)
            (noted_spec.told_onto (carried_spec.made_for documents.now pages.now S.stand.setting)
            S.told asked.now) },
    pub ghost passed: { PassesOn documents.now (K.told lower.now)
        (noted_spec.told_onto (carried_spec.made_for documents.now pages.now S.stand.setting)
        S.told asked.now) } by { PassesOn-prop documents.now (K.told lower.now)
            (noted_spec.told_onto (carried_spec.made_for documents.now pages.now S.stand.setting)
            S.told asked.now) },
    pub ghost stand: { K.stand lower.now ≡ S.stand } by { Stand-set (K.stand lower.now) S.stand },
    pub ghost grown: { Grows S.told (K.told lower.now) },
}
