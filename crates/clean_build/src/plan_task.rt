//! What is made over a reader that knows a plan.

ghost use Rattle.std.specs.Prelude.{◌≡◌, ◌++◌, ℕ, List, IfOk, OnOk};
ghost use Rattle.reader_spec.specs.World.{World};
ghost use Rattle.readers.specs.Documents.{AsksOnly, Follows};
ghost use Rattle.readers.specs.Founded as founded_spec;
ghost use Rattle.readers.specs.Founded.{Grows, StaysFounded};
ghost use Rattle.readers.specs.Setting.{Setting};
ghost use Rattle.readers.specs.Told.{Told, Agrees};

use dita_doc::NoMemory;
use readers::Asker;
use std::alloc::Global;

/// What is made over a reader that knows a plan. It leaves the reader where it stood.
pub trait PlanTask {
    type Made;

    /// What is made in the second world by a reader that stands on the first and was made for this.
    ghost makes: { Self → World → World → Setting → Self.Made → Type 0 };

    /// The documents that it asks about, beside those in which the reader's nodes stand.
    ghost about: { Self → List (List ℕ) };

    /// The documents that it asks for as a whole, beside those that follow from answers.
    ghost documents: { Self → List (List ℕ) };

    /// The documents that follow from an answer.
    ghost follows: { Self → Follows };

    /// What it asks in a world that agrees with what was told, by a reader that was made for this:
    /// what was told before and behind it.
    ghost tells: { Self → World → Setting → List Told → List Told → Type 0 };

    fn run<A: Asker>(self, alloc: Global, asker: &mut A) -> Result<Self::Made, NoMemory>
        ensures known { (world : World) → Agrees world (A.told asker.new)
            → IfOk result (makes self (A.stand asker.old).world world (A.stand asker.old).setting) }
        ensures founded { StaysFounded
            (founded_spec.homes (A.stand asker.old).setting.nodes ++ about self)
            (A.told asker.old) (A.told asker.new) }
        ensures asks { AsksOnly (follows self) (documents self) (A.told asker.old)
            (A.told asker.new) }
        ensures only { (world : World) → Agrees world (A.told asker.new)
            → OnOk result (tells self world (A.stand asker.old).setting (A.told asker.old)
            (A.told asker.new)) }
        ensures stand { A.stand asker.new ≡ A.stand asker.old }
        ensures grows { Grows (A.told asker.old) (A.told asker.new) };
}
