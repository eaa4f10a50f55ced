//! Answers that were made, each under its scope and key.

ghost use Rattle.std.specs.Prelude.{◌≡◌, [], List, IfOk, IfSome, OnErr};
ghost use Rattle.dita_doc.specs.declared.plan.PlanNode.{PlanNode};
ghost use Rattle.key_layer.specs.Answers.{AreAnswers, IsAnswer};
ghost use Rattle.readers.specs.Told.{Told};

use dita_doc::{KeyAnswer, NoMemory, Text};
use std::alloc::Global;
use std::collections::BTreeMap;
use std::marker::Model;
use targets::copy_answer;

/// A key in the scope of this place.
#[derive(PartialEq, Eq, PartialOrd, Ord, Drop)]
pub struct KeyAt {
    pub scope: u32,
    pub key: Text,
}

impl KeyAt {
    pub fn new(scope: u32, key: &Text) -> Result<KeyAt, NoMemory>
        ensures scope { IfOk result (λ at. at.scope ≡ scope) }
        ensures key { IfOk result (λ at. at.key ≡ key.now) }
    {
        Ok(KeyAt {
            scope,
            key: key.clone()?,
        })
    }
}

/// Answers, by their scopes and keys.
#[derive(Drop)]
pub struct KeyMemo {
    answers: BTreeMap<KeyAt, KeyAnswer>,
}

impl Model for KeyMemo {
    ghost use Rattle.std.specs.Prelude.{List};
    ghost use Rattle.dita_doc.specs.declared.content.KeyAnswer as answer_spec;
    ghost use Rattle.key_layer.specs.declared.memo.KeyAt as at_spec;

    ghost Value = { List (at_spec.KeyAt × answer_spec.KeyAnswer) };

    ghost view = { λ memo. memo.answers.entries };
}

impl KeyMemo {
    pub fn new(alloc: Global) -> Self
        ensures { result ≡ [] }
    {
        KeyMemo {
            answers: BTreeMap::new(alloc),
        }
    }

    /// The answer to a key, if it is there.
    pub fn find(&self, at: &KeyAt) -> Option<&KeyAnswer>
        ensures { (told : List Told) (nodes : List PlanNode) → AreAnswers told nodes self.now
            → IfSome result (λ answer. IsAnswer told nodes at.now answer.now) }
    {
        self.answers.get(at)
    }

    /// Puts the answer to a key. Without memory the answers stay as they were.
    pub fn put(&mut self, at: KeyAt, answer: KeyAnswer) -> Result<(), NoMemory>
        ensures answers { (told : List Told) (nodes : List PlanNode)
            → AreAnswers told nodes self.old → IsAnswer told nodes at answer
            → AreAnswers told nodes self.new }
        ensures err { OnErr result (self.new ≡ self.old) }
    {
        let _ = self.answers.insert(at, answer)?;
        Ok(())
    }

    // A copy of the answer to a key, if it is there.
    pub(crate) fn recall(&self, alloc: Global, at: &KeyAt) -> Result<Option<KeyAnswer>, NoMemory>
        ensures { (told : List Told) (nodes : List PlanNode) → AreAnswers told nodes self.now
            → IfOk result (λ found. IfSome found (IsAnswer told nodes at.now)) }
    {
        match self.find(at) {
            Some(known) => Ok(Some(copy_answer(alloc, known)?)),
            None => Ok(None),
        }
    }

    // Puts a copy of the answer to a key, and gives the answer back.
    pub(crate) fn keep(
        &mut self,
        alloc: Global,
        at: KeyAt,
        answer: KeyAnswer,
    ) -> Result<KeyAnswer, NoMemory>
        ensures answers { (told : List Told) (nodes : List PlanNode)
            → AreAnswers told nodes self.old → IsAnswer told nodes at answer
            → AreAnswers told nodes self.new }
        ensures same { IfOk result (λ kept. kept ≡ answer) }
    {
        self.put_copy(alloc, at, &answer)?;
        Ok(answer)
    }

    fn put_copy(&mut self, alloc: Global, at: KeyAt, answer: &KeyAnswer) -> Result<(), NoMemory>
        ensures { (told : List Told) (nodes : List PlanNode)
            → AreAnswers told nodes self.old → IsAnswer told nodes at answer.now
            → AreAnswers told nodes self.new }
    {
        let copy = copy_answer(alloc, answer)?;
        self.put(at, copy)
    }
}
