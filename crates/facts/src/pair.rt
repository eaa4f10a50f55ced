//! Facts that are ready to be published.

ghost use Rattle.std.specs.Prelude.{◌≡◌, ◌≤◌, ◌^◌, IfOk};
ghost use Rattle.std.specs.Arc.{arc_value};
ghost use Rattle.facts.specs.Table as table_spec;

use crate::fact::Fact;
use dita_doc::{Html, NoMemory, Part, Plan, PlanStop};
use std::alloc::Global;
use std::sync::Arc;

// The most nodes and the most pages of a plan that is kept.
const COUNT_LIMIT: usize = 1 << 48;

/// Two shares of one fact: one is kept, and one is given away without memory being taken then.
#[derive(Drop)]
pub struct FactPair {
    pub kept: Arc<Fact>,
    pub given: Arc<Fact>,
    /// What the fact's value counts for.
    pub bytes: u64,
    pub ghost same: { ∥ arc_value kept ≡ arc_value given ∥₁ },
    pub ghost measured: { ∥ bytes ≡ table_spec.value_bytes (arc_value kept) ∥₁ },
    pub ghost small: { bytes ≤ 2 ^ 63 },
}

impl FactPair {
    /// Two shares of a fact, which is not copied.
    ///
    /// # Errors
    ///
    /// Out of memory; also if its plan has more nodes or pages than any memory holds.
    pub fn new(alloc: Global, fact: Fact) -> Result<FactPair, NoMemory>
        ensures kept { IfOk result (λ pair. arc_value pair.kept ≡ fact) }
        ensures given { IfOk result (λ pair. arc_value pair.given ≡ fact) }
    {
        let bytes = value_bytes(&fact)?;
        let kept = Arc::new(alloc, fact)?;
        let given = Arc::try_clone(&kept)?;
        Ok(FactPair { kept, given, bytes })
    }
}

// What the value of a fact counts for.
fn value_bytes(fact: &Fact) -> Result<u64, NoMemory>
    ensures value { IfOk result (λ bytes. bytes ≡ table_spec.value_bytes fact.now) }
    ensures small { IfOk result (λ bytes. bytes ≤ 2 ^ 63) }
{
    match fact.key.part {
        Part::Plan => plan_bytes(&fact.plan.value),
        Part::Page(_) | Part::Contents => Ok(html_bytes(&fact.html)),
    }
}

fn plan_bytes(plan: &Result<Plan, PlanStop>) -> Result<u64, NoMemory>
    ensures value { IfOk result (λ bytes. bytes ≡ table_spec.plan_bytes plan.now) }
    ensures small { IfOk result (λ bytes. bytes ≤ 2 ^ 63) }
{
    let Ok(plan) = plan else {
        return Ok(0);
    };
    let nodes = plan.nodes.len();
    let pages = plan.pages.len();
    if nodes > COUNT_LIMIT || pages > COUNT_LIMIT {
        return Err(NoMemory);
    }
    Ok(256 * (nodes as u64 + pages as u64))
}

fn html_bytes(html: &Option<Arc<Html>>) -> u64
    ensures value { result ≡ table_spec.html_bytes html.now }
    ensures small { result ≤ 2 ^ 63 }
{
    match html {
        Some(html) => html.bytes.len() as u64,
        None => 0,
    }
}
