//! What follows from the contract of a run, as laws: nothing stands on them. They hold of runs with
//! pages of terms and of runs without.
//!
//! Each law is the contract of a function that does nothing, so that the check proves it like any
//! other.
#![tactic(auto)]

ghost use Rattle.std.specs.Prelude.{◌≡◌, ◌⊎◌, Bool, Ok, Option, Some, take};
ghost use Rattle.command_line.specs.declared.modes.Mode.{Mode};
ghost use Rattle.dita_doc.specs.Bytes.{Bytes};
ghost use Rattle.desk_laws.specs.OneHistory as one_history_spec;
ghost use Rattle.desk_laws.specs.SureRun as sure_run_spec;
ghost use Rattle.desk_laws.specs.WholeBatch as whole_batch_spec;
ghost use Rattle.desk_laws.specs.WholeRun as whole_run_spec;
ghost use Rattle.desk_top.specs.Ends as ends_spec;
ghost use Rattle.desk_top.specs.Outside as outside_spec;
ghost use Rattle.desk_top.specs.Outside.{Change};
ghost use Rattle.dita_outside.specs.Pages.{Pages};
ghost use Rattle.run_spec.specs.CleanRun as clean_run_spec;
ghost use Rattle.run_spec.specs.EndsBatch as batch_spec;
ghost use Rattle.run_spec.specs.declared.status.Status.{Status};
ghost use Rattle.run_spec.specs.declared.status.Status.TheVariants as statuses;
ghost use Rattle.script_text.specs.Script as script_spec;

use dita_outside::{Door, Outlet, Sink, Source};

/// Over objects that do not fail, a run is done, rejects its script, or is out of memory. If it is
/// not out of memory and its source tells its bytes, it ended as all of these say.
pub fn sure_run()
    ensures status { (with_terms : Bool) (source sink : Change Bytes) (outlet : Change Pages)
        (status : Status) → sure_run_spec.NoneFailed source sink outlet →
        ends_spec.EndsRun with_terms source sink outlet status → sure_run_spec.IsSure status }
    ensures whole { (with_terms : Bool) (source sink : Change Bytes) (outlet : Change Pages)
        (status : Status) (held : Bytes) → sure_run_spec.NoneFailed source sink outlet →
        source.before ≡ Some held → ends_spec.EndsRun with_terms source sink outlet status →
        (status ≡ statuses.NoMemory) ⊎ whole_run_spec.EndsAsAll with_terms held sink outlet status }
{}

/// Over objects that do not fail, the program answers `Words` only if its words name no mode, is
/// done only if they name one, and rejects a script only in a mode that reads one. Else it is out of
/// memory.
pub fn sure_program<S: Source, K: Sink, O: Outlet, D: Door>()
    ensures { (mode : Option Mode) (source source' : S) (sink sink' : K) (outlet outlet' : O)
        (door door' : D) (status : Status) →
        let left : ends_spec.AsBefore = record {
          source = source' ≡ source;
          outlet = outlet' ≡ outlet;
          door = door' ≡ door;
        } in
        let told : ends_spec.Objects = record {
          source = outside_spec.change S.left S.faults source source';
          sink = outside_spec.change K.taken K.faults sink sink';
          outlet = outside_spec.change O.pages O.faults outlet outlet';
          door = D.told door;
          door_after = D.told door';
        } in
        sure_run_spec.NoObjectFailed told →
        ends_spec.EndsProgram mode (λ named. ends_spec.EndsMode named left told)
        ((source' ≡ source) × (sink' ≡ sink) × (outlet' ≡ outlet) × (door' ≡ door)) status →
        sure_run_spec.IsSureProgram mode status }
{}

/// A batch that is done read its source to the end, what the source held is a script, and the sink
/// took a faithful transcript of this script and nothing else.
pub fn done_batch()
    ensures { (old new : batch_spec.Streams) (held : Bytes) → old.left ≡ Some held →
        batch_spec.EndsBatch old new statuses.Done → whole_batch_spec.IsDoneBatch held old new }
{}

/// Over a source and a sink that do not fail a batch is done, rejects its script, or is out of
/// memory. If its source holds a script and tells it, the batch is done or out of memory.
pub fn sure_batch()
    ensures status { (old new : batch_spec.Streams) (status : Status) →
        whole_batch_spec.NeitherFailed old new → batch_spec.EndsBatch old new status →
        sure_run_spec.IsSure status }
    ensures done { (old new : batch_spec.Streams) (held : Bytes) (steps : one_history_spec.Steps)
        (status : Status) → old.left ≡ Some held → script_spec.script_of held ≡ Ok steps →
        whole_batch_spec.NeitherFailed old new → batch_spec.EndsBatch old new status →
        (status ≡ statuses.NoMemory) ⊎ whole_batch_spec.IsDoneBatch held old new }
{}

/// A run that answered what it read ended as all bytes of its source say, if the source tells them.
pub fn answered_run()
    ensures { (with_terms : Bool) (source sink : Change Bytes) (outlet : Change Pages)
        (status : Status) (held : Bytes) → whole_run_spec.IsAnswered status →
        source.before ≡ Some held → ends_spec.EndsRun with_terms source sink outlet status →
        whole_run_spec.EndsAsAll with_terms held sink outlet status }
{}

/// No run depends on what stands behind the first byte that is too many for a script.
pub fn long_sources()
    ensures { (with_terms : Bool) (held : Bytes) →
        clean_run_spec.run_over with_terms (take clean_run_spec.read_limit held)
        ≡ clean_run_spec.run_over with_terms held }
{}

/// A run that is done read its source to the end, and what the source held is a script. The sink
/// took a transcript, and whoever reads it reads one history: the requests in the script's order,
/// each answered as the desk answers it at its place.
pub fn done_run()
    ensures { (with_terms : Bool) (source sink : Change Bytes) (outlet : Change Pages)
        (held : Bytes) → source.before ≡ Some held →
        ends_spec.EndsRun with_terms source sink outlet statuses.Done →
        whole_run_spec.IsDone with_terms held source sink outlet }
{}

/// The answers to some steps are one history: the requests in the script's order, each answered as
/// the desk answers it at its place, and each build over what is stored there.
pub fn one_history()
    ensures { (steps : one_history_spec.Steps) → one_history_spec.IsOneHistory steps }
{}
