//! The root of a document.

ghost use Rattle.std.specs.Prelude.{◌≡◌, [], ◌∷◌, IfOk};
ghost use Rattle.clean_build.specs.Made as made_spec;
ghost use Rattle.reader_spec.specs.World.{World};
ghost use Rattle.readers.specs.Documents as documents_spec;
ghost use Rattle.readers.specs.Documents.{AsksOnly};
ghost use Rattle.readers.specs.Founded.{Grows, StaysFounded};
ghost use Rattle.readers.specs.Told.{Agrees};

use dita_doc::{Name, NoMemory};
use doc_elements::root_of;
use readers::Reader;
use std::alloc::Global;

/// The line in which the root of a document stands, if the document stands there and has one.
pub fn root_line<R: Reader>(
    alloc: Global,
    reader: &mut R,
    name: &Name,
) -> Result<Option<u32>, NoMemory>
    ensures known { (world : World) → Agrees world (R.told reader.new)
        → IfOk result (made_spec.IsRootLine world name.now) }
    ensures founded { StaysFounded (name.now ∷ []) (R.told reader.old) (R.told reader.new) }
    ensures asks { AsksOnly documents_spec.nothing (name.now ∷ []) (R.told reader.old)
        (R.told reader.new) }
    ensures stand { R.stand reader.new ≡ R.stand reader.old }
    ensures grows { Grows (R.told reader.old) (R.told reader.new) }
{
    let Some(doc) = reader.doc(alloc, name)? else {
        return Ok(None);
    };
    let Some(root) = root_of(&doc) else {
        return Ok(None);
    };
    Ok(Some(root.line))
}
