//! Copies of targets and of what keys give.

ghost use Rattle.std.specs.Prelude.{◌≡◌, IfOk};

use dita_doc::{KeyAnswer, NoMemory, Reference, Target, copy_faults};
use std::alloc::Global;

/// A copy of a target with texts of its own.
pub fn copy_target(alloc: Global, target: &Target) -> Result<Target, NoMemory>
    ensures { IfOk result (λ copy. copy ≡ target.now) }
{
    Ok(match target {
        Target::Nothing => Target::Nothing,
        Target::Local(name, reference) => {
            Target::Local(name.clone()?, copy_reference(alloc, reference)?)
        }
        Target::File(name, rest) => Target::File(name.clone()?, rest.clone()?),
        Target::Other(value) => Target::Other(value.clone()?),
    })
}

/// A copy of the three parts of a reference.
pub fn copy_reference(_alloc: Global, reference: &Reference) -> Result<Reference, NoMemory>
    ensures { IfOk result (λ copy. copy ≡ reference.now) }
{
    Ok(Reference {
        file: reference.file.clone()?,
        topic: reference.topic.clone()?,
        element: reference.element.clone()?,
    })
}

/// A copy of what a key gives, its faults included.
pub fn copy_answer(alloc: Global, answer: &KeyAnswer) -> Result<KeyAnswer, NoMemory>
    ensures { IfOk result (λ copy. copy ≡ answer.now) }
{
    Ok(KeyAnswer {
        node: answer.node,
        label: answer.label.clone()?,
        faults: copy_faults(alloc, answer.faults.as_slice())?,
        target: copy_target(alloc, &answer.target)?,
    })
}
