//! The questions that the fact of a part records.

ghost use Rattle.std.specs.Prelude.{◌≡◌, reverse, IfOk};
ghost use Rattle.fact_maker.specs.Own as own_spec;
ghost use Rattle.readers.specs.Noted as noted_spec;

use dita_doc::{Answered, Asked, List, NoMemory, Question};
use readers::Questions;
use std::alloc::Global;

/// The questions for a part of a plan of so many scopes, the oldest first. Those for pages are left
/// out: the answer follows from the plan alone, so that it is the same in every world.
pub(crate) fn own_asked(
    alloc: Global,
    asked: Questions,
    scopes: usize,
) -> Result<List<Asked>, NoMemory>
    ensures { IfOk result (λ list. list
        ≡ own_spec.own_asked scopes (noted_spec.answered_of (reverse asked))) }
{
    let mut list = List::new(alloc);
    for one in asked.into_answered(alloc)?.into_vec() {
        if is_own(&one.question, &one.answered) {
            list.push(asked_within(one, scopes))?;
        }
    }
    Ok(list)
}

// Whether the answer is of the question's kind, and the question is not about a page.
fn is_own(question: &Question, answered: &Answered) -> bool
    ensures { result ≡ own_spec.is_own question.now answered.now }
{
    match (question, answered) {
        (Question::Document(_), Answered::Document(_)) => true,
        (Question::Kind(_), Answered::Kind(_)) => true,
        (Question::Title(..), Answered::Title(_)) => true,
        (Question::First(_), Answered::First(_)) => true,
        (Question::Key(..), Answered::Key(_)) => true,
        (Question::Pushes(_), Answered::Pushes(..)) => true,
        _ => false,
    }
}

// The question in a scope that the plan has: beyond them a key is sought as in the root scope.
fn asked_within(one: Asked, scopes: usize) -> Asked
    ensures { result ≡ own_spec.asked_within scopes one }
{
    let Asked { question, answered } = one;
    Asked {
        question: question_within(question, scopes),
        answered,
    }
}

fn question_within(question: Question, scopes: usize) -> Question
    ensures { result ≡ own_spec.question_within scopes question }
{
    match question {
        Question::Key(scope, key) => Question::Key(scope_within(scope, scopes), key),
        other => other,
    }
}

fn scope_within(scope: u32, scopes: usize) -> u32
    ensures { result ≡ own_spec.scope_within scopes scope }
{
    if (scope as usize) < scopes { scope } else { 0 }
}
