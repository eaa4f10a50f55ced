//! Questions for pushes and for pages, with their answers.

ghost use Rattle.std.specs.Arc.{arc_value};
ghost use Rattle.std.specs.Prelude.{◌≡◌, ℕ, List, IfOk};
ghost use Rattle.conref_push.specs.Table.{IsPushTable};
ghost use Rattle.map_spec.specs.Pushes as pushes_spec;
ghost use Rattle.reader_spec.specs.World.{World};
ghost use Rattle.readers.specs.Noted as noted_spec;
ghost use Rattle.readers.specs.Setting.{Setting};
ghost use Rattle.readers.specs.Told as told_spec;

use conref_push::PushTable;
use dita_doc::{Answered, Asked, Context, Name, NoMemory, PushList, Question};
use readers::Note;
use std::alloc::Global;
use std::sync::Arc;

/// The question for the pushes into a document, with what a table answers.
pub fn pushes_known(alloc: Global, table: &PushTable, name: &Name) -> Result<Note, NoMemory>
    ensures { (world : World) (documents : List (List ℕ)) → IsPushTable world documents table.now
        → IfOk result (λ note. (setting : Setting) → noted_spec.told_of setting note
        ≡ told_spec.pushes setting.documents name.now
        (pushes_spec.pushes_into world documents name.now)) }
{
    let answer = table.pushes_into(alloc, name)?;
    let note = pushes_note(alloc, name, answer)?;
    Ok(note)
}

// The question for the pushes into a document.
fn pushes_note(alloc: Global, name: &Name, answer: PushList) -> Result<Note, NoMemory>
    ensures { IfOk result (λ note. (setting : Setting) → noted_spec.told_of setting note
        ≡ told_spec.pushes setting.documents name.now answer) }
{
    let PushList { pushes, faults } = answer;
    let asked = Asked {
        question: Question::Pushes(name.clone()?),
        answered: Answered::Pushes(pushes, faults),
    };
    Ok(Note::Answer(Box::new(alloc, asked)?))
}

/// The question for the page of a document, which shares the context.
pub fn page_note(
    alloc: Global,
    name: &Name,
    context: &Arc<Context>,
    place: Option<u32>,
) -> Result<Note, NoMemory>
    ensures { IfOk result (λ note. (setting : Setting) → noted_spec.told_of setting note
        ≡ told_spec.page_of setting.pages name.now (arc_value context.now) place) }
{
    let asked = Asked {
        question: Question::PageOf(name.clone()?, Arc::try_clone(context)?),
        answered: Answered::PageOf(place),
    };
    Ok(Note::Answer(Box::new(alloc, asked)?))
}
