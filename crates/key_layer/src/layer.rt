//! The layer.

ghost use Rattle.std.specs.Prelude.{◌≡◌};
ghost use Rattle.key_layer.specs.Answers.{AreAnswers, AreAnswers-prop};
ghost use Rattle.key_layer.specs.Passing.{PassesOn, PassesOn-prop};
ghost use Rattle.key_layer.specs.Ready as ready_spec;
ghost use Rattle.key_layer.specs.Ready.{AreReady, AreReady-prop};
ghost use Rattle.key_scopes.specs.Made as made_spec;
ghost use Rattle.readers.specs.Founded.{Carries, Grows};
ghost use Rattle.readers.specs.Noted as noted_spec;
ghost use Rattle.readers.specs.Props.{Carries-prop, Knows-prop, Stand-set};
ghost use Rattle.readers.specs.Told.{Knows};

use crate::memo::KeyMemo;
use dita_doc::{List, PlanNode};
use key_scopes::ScopeTable;
use plan_nodes::NodeElements;
use readers::{LogStart, Questions, Titles};
use std::marker::PhantomData;

/// The keys of nodes over a reader that knows titles. Each answer is made once, and then told from
/// the memo. Its own questions begin behind those that the reader below had been told at the start.
///
/// `carried` and `passed` say that what the reader below was told carries what the layer tells,
/// and `grown` that it only grows from the start; so what holds of the layer's questions holds
/// below. `ready` and `tabled` say that the elements and the table are those of the nodes, in each
/// world that agrees with what was told at the start.
#[derive(Drop)]
pub struct KeyLayer<'r, 'q, 'm, 'n, T: Titles, S: LogStart> {
    pub lower: &'r mut T,
    pub asked: &'q mut Questions,
    pub memo: &'m mut KeyMemo,
    pub nodes: &'n List<PlanNode>,
    pub homes: &'n NodeElements,
    pub table: &'n ScopeTable,
    pub since: PhantomData<S>,
    pub ghost ready: { AreReady S.told nodes.now homes.now } by { AreReady-prop
        S.told nodes.now homes.now },
    pub ghost tabled: { Knows S.told
        (λ world. ∥ made_spec.IsTableOf world nodes.now table.now ∥₁) },
    pub ghost answers: { AreAnswers (T.told lower.now) nodes.now memo.now } by { AreAnswers-prop
        (T.told lower.now) nodes.now memo.now },
    pub ghost carried: { Carries (T.told lower.now)
        (noted_spec.told_onto (ready_spec.made_for nodes.now S.stand.setting) S.told
        asked.now) } by { Carries-prop (T.told lower.now)
            (noted_spec.told_onto (ready_spec.made_for nodes.now S.stand.setting) S.told
            asked.now) },
    pub ghost passed: { PassesOn (T.told lower.now)
        (noted_spec.told_onto (ready_spec.made_for nodes.now S.stand.setting) S.told
        asked.now) } by { PassesOn-prop (T.told lower.now)
            (noted_spec.told_onto (ready_spec.made_for nodes.now S.stand.setting) S.told
            asked.now) },
    pub ghost stand: { T.stand lower.now ≡ S.stand } by { Stand-set (T.stand lower.now) S.stand },
    pub ghost grown: { Grows S.told (T.told lower.now) },
}
