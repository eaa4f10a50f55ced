//! What is done over any reader of documents, by titles that are laid over it.

ghost use Rattle.std.specs.Prelude.{◌≡◌, [], ℕ, List, IfOk};
ghost use Rattle.reader_spec.specs.World.{World};
ghost use Rattle.readers.specs.Founded.{Grows, StaysFounded};
ghost use Rattle.readers.specs.Titled.{AreTitles};
ghost use Rattle.readers.specs.Told.{Agrees, Knows};

use dita_doc::NoMemory;
use readers::{LogStart, Questions, Reader, TitleTable, Titles};
use std::alloc::Global;
use std::marker::{Brand, PhantomData};
use title_layer::TitleLayer;

/// What is made over a reader that knows titles. It leaves the reader where it stood.
pub(crate) trait TitleWork {
    type Made;

    /// What is made by a reader of the first world, as each world has it that agrees with what the
    /// reader was told.
    ghost makes: { Self → World → World → Self.Made → Type 0 };

    /// The documents that it asks about.
    ghost about: { Self → List (List ℕ) };

    fn run<T: Titles>(self, alloc: Global, asker: &mut T) -> Result<Self::Made, NoMemory>
        ensures known { (world : World) → Agrees world (T.told asker.new)
            → IfOk result (makes self (T.stand asker.old).world world) }
        ensures founded { StaysFounded (about self) (T.told asker.old) (T.told asker.new) }
        ensures stand { T.stand asker.new ≡ T.stand asker.old }
        ensures grows { Grows (T.told asker.old) (T.told asker.new) };
}

/// Does a work over a reader of documents. The titles have a list of questions of their own, and
/// each is made once.
pub(crate) fn over_reader<R: Reader, W: TitleWork>(
    alloc: Global,
    reader: &mut R,
    work: W,
) -> Result<W::Made, NoMemory>
    ensures known { (world : World) → Agrees world (R.told reader.new)
        → IfOk result (W.makes work (R.stand reader.old).world world) }
    ensures founded { StaysFounded (W.about work) (R.told reader.old) (R.told reader.new) }
    ensures stand { R.stand reader.new ≡ R.stand reader.old }
    ensures grows { Grows (R.told reader.old) (R.told reader.new) }
{
    let mut table = TitleTable::new(alloc);
    reader_since::<R, Brand, W>(alloc, reader, &mut table, work)
}

// The same since a start, with titles that are known then.
fn reader_since<R: Reader, S: LogStart, W: TitleWork>(
    alloc: Global,
    reader: &mut R,
    table: &mut TitleTable,
    work: W,
) -> Result<W::Made, NoMemory>
    requires stand { R.stand reader.old ≡ S.stand }
    requires told { R.told reader.old ≡ S.told }
    requires table { Knows (R.told reader.old) (λ world. AreTitles world table.old) }
    ensures known { (world : World) → Agrees world (R.told reader.new)
        → IfOk result (W.makes work S.stand.world world) }
    ensures founded { StaysFounded (W.about work) S.told (R.told reader.new) }
    ensures stand { R.stand reader.new ≡ S.stand }
    ensures grows { Grows S.told (R.told reader.new) }
{
    let mut asked = Questions::new(alloc);
    let mut layer: TitleLayer<'_, '_, '_, R, S> = TitleLayer {
        lower: reader,
        asked: &mut asked,
        table,
        since: PhantomData,
    };
    reader_under(alloc, &mut layer, work)
}

// What the layer's questions say of the reader below.
fn reader_under<'r, 'q, 't, R: Reader, S: LogStart, W: TitleWork>(
    alloc: Global,
    layer: &mut TitleLayer<'r, 'q, 't, R, S>,
    work: W,
) -> Result<W::Made, NoMemory>
    requires asked { layer.old.asked.now ≡ [] }
    ensures known { (world : World) → Agrees world (R.told layer.new.lower.now)
        → IfOk result (W.makes work S.stand.world world) }
    ensures founded { StaysFounded (W.about work) S.told (R.told layer.new.lower.now) }
    ensures same { layer.new.lower.ghost_name ≡ layer.old.lower.ghost_name }
    ensures same_table { layer.new.table.ghost_name ≡ layer.old.table.ghost_name }
    ensures stand { R.stand layer.new.lower.now ≡ S.stand }
    ensures grows { Grows S.told (R.told layer.new.lower.now) }
{
    work.run(alloc, layer)
}
