//! What a worker judges and makes by.

ghost use Rattle.std.specs.Prelude.{◌≡◌, Some, None, IfOk};
ghost use Rattle.std.specs.Arc.{arc_value};
ghost use Rattle.std.specs.Option.{option_map};
ghost use Rattle.desk_lock.specs.Meaning as meaning_spec;
ghost use Rattle.desk_work.specs.Makers as makers_spec;
ghost use Rattle.desk_work.specs.Sites as sites_spec;
ghost use Rattle.facts.specs.Rows as rows_spec;

use crate::makers::Makers;
use desk_core::Snapshot;
use dita_doc::{FactKey, NoMemory, Part};
use facts::{Fact, FactPair, Parts};
use std::alloc::Global;

// A worker's judge, and its maker from the first part on that it makes.
#[derive(Drop)]
pub(crate) struct Bench<P: Parts, M: Makers<P>> {
    pub judge: M::PartJudge,
    pub maker: Option<M::PartMaker>,
}

impl<P: Parts, M: Makers<P>> Bench<P, M> {
    // The bench of a worker, for builds of the map and DITAVAL of a part that it has.
    pub fn new(
        alloc: Global,
        key: &FactKey,
        snapshot: &Snapshot,
        ready: &Option<M::Ready>,
    ) -> Result<Self, NoMemory>
        requires ready { sites_spec.IsReadyOver M.ready_state (arc_value snapshot.now.sources)
            ready.now }
        requires of { sites_spec.IsPartBy (option_map M.ready_row ready.now) key.now }
        ensures judge { IfOk result (λ bench. sites_spec.IsJudgeOf M.PartJudge.sources
            M.PartJudge.build key.now (arc_value snapshot.now.sources) bench.judge) }
        ensures none { IfOk result (λ bench. bench.maker ≡ None) }
    {
        let judge = M::judge(alloc, key, &snapshot.sources, ready.as_ref())?;
        Ok(Bench { judge, maker: None })
    }

    // Makes a part, so that it can be published. If no plan is ready, it is the plan that is made.
    pub fn make(
        &mut self,
        alloc: Global,
        key: &FactKey,
        snapshot: &Snapshot,
        ready: &Option<M::Ready>,
    ) -> Result<FactPair, NoMemory>
        requires maker { sites_spec.HasMaker M.maker_row M.maker_state
            (arc_value snapshot.now.sources) (option_map M.ready_row ready.now) self.old.maker }
        requires ready { sites_spec.IsReadyOver M.ready_state (arc_value snapshot.now.sources)
            ready.now }
        requires of { sites_spec.IsPartBy (option_map M.ready_row ready.now) key.now }
        ensures maker { sites_spec.HasMaker M.maker_row M.maker_state
            (arc_value snapshot.now.sources) (option_map M.ready_row ready.now) self.new.maker }
        ensures judge { self.new.judge ≡ self.old.judge }
        ensures made { IfOk result (λ pair. makers_spec.IsMade
            (meaning_spec.meant_by P.plan_agrees P.own_agrees P.is_sound) M.language
            (arc_value snapshot.now.sources) (option_map M.ready_row ready.now) key.now
            (arc_value pair.kept)) }
    {
        let fact = self.make_fact(alloc, key, snapshot, ready)?;
        FactPair::new(alloc, fact)
    }

    fn make_fact(
        &mut self,
        alloc: Global,
        key: &FactKey,
        snapshot: &Snapshot,
        ready: &Option<M::Ready>,
    ) -> Result<Fact, NoMemory>
        requires maker { sites_spec.HasMaker M.maker_row M.maker_state
            (arc_value snapshot.now.sources) (option_map M.ready_row ready.now) self.old.maker }
        requires ready { sites_spec.IsReadyOver M.ready_state (arc_value snapshot.now.sources)
            ready.now }
        requires of { sites_spec.IsPartBy (option_map M.ready_row ready.now) key.now }
        ensures maker { sites_spec.HasMaker M.maker_row M.maker_state
            (arc_value snapshot.now.sources) (option_map M.ready_row ready.now) self.new.maker }
        ensures judge { self.new.judge ≡ self.old.judge }
        ensures made { IfOk result (makers_spec.IsMade
            (meaning_spec.meant_by P.plan_agrees P.own_agrees P.is_sound) M.language
            (arc_value snapshot.now.sources) (option_map M.ready_row ready.now) key.now) }
    {
        match ready {
            Some(ready) => self.make_part(alloc, snapshot, ready, key.part),
            None => M::plan_fact(alloc, key, &snapshot.sources),
        }
    }

    fn make_part(
        &mut self,
        alloc: Global,
        snapshot: &Snapshot,
        ready: &M::Ready,
        part: Part,
    ) -> Result<Fact, NoMemory>
        requires maker { sites_spec.HasMaker M.maker_row M.maker_state
            (arc_value snapshot.now.sources) (Some (M.ready_row ready.now)) self.old.maker }
        requires ready { M.ready_state ready.now ≡ arc_value snapshot.now.sources }
        requires of { makers_spec.HasPart (rows_spec.plan_in (M.ready_row ready.now)).value part }
        ensures maker { sites_spec.HasMaker M.maker_row M.maker_state
            (arc_value snapshot.now.sources) (Some (M.ready_row ready.now)) self.new.maker }
        ensures judge { self.new.judge ≡ self.old.judge }
        ensures made { IfOk result (makers_spec.IsPartMade
            (meaning_spec.meant_by P.plan_agrees P.own_agrees P.is_sound) M.language
            (M.ready_row ready.now) part (arc_value snapshot.now.sources)) }
    {
        let mut maker = self.take_maker(alloc, snapshot, ready)?;
        let made = M::make(alloc, &mut maker, part);
        self.maker = Some(maker);
        made
    }

    // The maker, which the bench has no more then.
    fn take_maker(
        &mut self,
        alloc: Global,
        snapshot: &Snapshot,
        ready: &M::Ready,
    ) -> Result<M::PartMaker, NoMemory>
        requires maker { sites_spec.HasMaker M.maker_row M.maker_state
            (arc_value snapshot.now.sources) (Some (M.ready_row ready.now)) self.old.maker }
        requires ready { M.ready_state ready.now ≡ arc_value snapshot.now.sources }
        ensures judge { self.new.judge ≡ self.old.judge }
        ensures none { self.new.maker ≡ None }
        ensures row { IfOk result (λ maker. M.maker_row maker ≡ M.ready_row ready.now) }
        ensures state { IfOk result
            (λ maker. M.maker_state maker ≡ arc_value snapshot.now.sources) }
    {
        match self.maker.take() {
            Some(maker) => Ok(maker),
            None => M::maker(alloc, &snapshot.sources, ready),
        }
    }
}
