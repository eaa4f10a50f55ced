//! Whether the questions of a fact's own have their recorded answers, those about its plan too.

ghost use Rattle.std.specs.Prelude.{◌≡◌, ◌<◌, ℕ, Ok, IfOk, length, List as Listed};
ghost use Rattle.std.specs.Arc.{arc_value};
ghost use Rattle.std.specs.List.{list_any};
ghost use Rattle.conref_push.specs.Table as push_spec;
ghost use Rattle.dita_doc.specs.declared.plan.PagePlan.{PagePlan};
ghost use Rattle.dita_doc.specs.declared.question.Asked as asked_declared;
ghost use Rattle.fact_judge.specs.Answer as answer_spec;
ghost use Rattle.fact_judge.specs.Judging as judging_spec;
ghost use Rattle.fact_judge.specs.Judging.{WasSo};
ghost use Rattle.facts.specs.Judged.{Tells};
ghost use Rattle.map_spec.specs.Keys as keys_spec;
ghost use Rattle.map_spec.specs.Pages as pages_spec;
ghost use Rattle.map_spec.specs.Pushes as pushes_spec;
ghost use Rattle.map_spec.specs.Scopes as scopes_spec;
ghost use Rattle.page_table.specs.Pages as page_table_spec;
ghost use Rattle.plan_reader.specs.Keyed.{AreKeyed};
ghost use Rattle.plan_reader.specs.Tables.{AreTables};
ghost use Rattle.reader_spec.specs.World.{World, world_of};

use crate::stored::StoredSince;
use dita_doc::{
    Answered, Asked, Context, Fault, KeyAnswer, List, Name, NoMemory, Plan, PlanNode, Push,
    Question, Text,
};
use plan_reader::{PlanTables, answer_aside};
use source_reader::KnownTitles;
use std::alloc::Global;

/// Whether one of some questions is put for the nodes, the documents or the pages of a plan.
pub(crate) fn are_about_plan(asked: &[Asked]) -> bool
    ensures { result ≡ list_any (λ (one : asked_declared.Asked).
        judging_spec.is_about_plan one.question) asked.now }
{
    asked.iter().any(|one| is_about_plan(&one.question))
}

fn is_about_plan(question: &Question) -> bool
    ensures { result ≡ judging_spec.is_about_plan question.now }
{
    matches!(
        question,
        Question::Key(..) | Question::Pushes(..) | Question::PageOf(..)
    )
}

/// Whether each of some questions has its recorded answer, where those about a plan are put for this
/// one; the first that has another decides.
pub(crate) fn are_planned_answers(
    alloc: Global,
    stored: &StoredSince<'_>,
    known: &mut KnownTitles<'_>,
    plan: &Plan,
    tables: &PlanTables,
    asked: &[Asked],
) -> Result<bool, NoMemory>
    requires known { world_of known.old.sources.now ≡ world_of stored.now.sources.now }
    requires tables { AreTables (world_of stored.now.sources.now) plan.now.nodes
        plan.now.documents plan.now.pages tables.now }
    requires was { WasSo (λ state. answer_spec.AreAnswers (world_of state)
        (answer_spec.setting_by (Ok plan.now)) asked.now) stored.now.since
        stored.now.sources.now }
    ensures known { world_of known.new.sources.now ≡ world_of known.old.sources.now }
    ensures tells { IfOk result (λ are. Tells are (answer_spec.AreAnswers
        (world_of stored.now.sources.now) (answer_spec.setting_by (Ok plan.now)) asked.now)) }
{
    for one in asked {
        if !is_planned_answer(alloc, stored, known, plan, tables, one)? {
            return Ok(false);
        }
    }
    Ok(true)
}

// Whether a question has its recorded answer. An answer of another kind is none.
fn is_planned_answer(
    alloc: Global,
    stored: &StoredSince<'_>,
    known: &mut KnownTitles<'_>,
    plan: &Plan,
    tables: &PlanTables,
    one: &Asked,
) -> Result<bool, NoMemory>
    requires known { world_of known.old.sources.now ≡ world_of stored.now.sources.now }
    requires tables { AreTables (world_of stored.now.sources.now) plan.now.nodes
        plan.now.documents plan.now.pages tables.now }
    requires was { WasSo (λ state. answer_spec.IsAnswer (world_of state)
        (answer_spec.setting_by (Ok plan.now)) one.now.question one.now.answered)
        stored.now.since stored.now.sources.now }
    ensures known { world_of known.new.sources.now ≡ world_of known.old.sources.now }
    ensures tells { IfOk result (λ is. Tells is (answer_spec.IsAnswer
        (world_of stored.now.sources.now) (answer_spec.setting_by (Ok plan.now))
        one.now.question one.now.answered)) }
{
    match &one.question {
        Question::Key(scope, key) => match &one.answered {
            Answered::Key(answer) => is_key(alloc, known, &plan.nodes, tables, *scope, key, answer),
            _ => Ok(false),
        },
        Question::Pushes(name) => match &one.answered {
            Answered::Pushes(pushes, faults) => are_pushes(alloc, tables, name, pushes, faults),
            _ => Ok(false),
        },
        Question::PageOf(name, context) => match &one.answered {
            Answered::PageOf(place) => is_page(alloc, tables, name, context, *place),
            _ => Ok(false),
        },
        _ => stored.is_answer(alloc, known, one),
    }
}

// Whether a key gives this in a scope that the plan has.
fn is_key(
    alloc: Global,
    known: &mut KnownTitles<'_>,
    nodes: &List<PlanNode>,
    tables: &PlanTables,
    scope: u32,
    key: &Text,
    answer: &KeyAnswer,
) -> Result<bool, NoMemory>
    requires { AreKeyed (world_of known.old.sources.now) nodes.now tables.now.homes
        tables.now.scopes }
    ensures known { world_of known.new.sources.now ≡ world_of known.old.sources.now }
    ensures tells { IfOk result (λ is. Tells is ((scope < length (scopes_spec.scopes nodes.now))
        × (keys_spec.key_answer (world_of known.old.sources.now) nodes.now scope key.now
        ≡ answer.now))) }
{
    if scope as usize >= tables.scopes.list().len() {
        return Ok(false);
    }
    let given = answer_aside(alloc, known, nodes, tables, scope, key)?;
    Ok(given == *answer)
}

// Whether these are the pushes into a document, and the faults of those that stand in it.
fn are_pushes(
    alloc: Global,
    tables: &PlanTables,
    name: &Name,
    pushes: &List<Push>,
    faults: &List<Fault>,
) -> Result<bool, NoMemory>
    ensures { (world : World) (documents : Listed (Listed ℕ))
        → push_spec.IsPushTable world documents tables.now.pushes → IfOk result (λ are. Tells are
        (pushes_spec.pushes_into world documents name.now
        ≡ record { pushes = pushes.now; faults = faults.now })) }
{
    let given = tables.pushes.pushes_into(alloc, name)?;
    Ok(given.pushes == *pushes && given.faults == *faults)
}

// Whether the page of a document for a context stands at this place, or there is none.
fn is_page(
    alloc: Global,
    tables: &PlanTables,
    name: &Name,
    context: &Context,
    place: Option<u32>,
) -> Result<bool, NoMemory>
    ensures { (pages : Listed PagePlan) → page_table_spec.IsPageTable pages
        tables.now.pages → IfOk result (λ is. Tells is
        (pages_spec.page_for pages name.now context.now.page ≡ place)) }
{
    let given = tables.pages.find(alloc, name, &context.page)?;
    Ok(given == place)
}
