//! The calls that resolve content.

ghost use Rattle.std.specs.Prelude.{◌≡◌, ◌+◌, ◌++◌, [], ◌∷◌, ℕ, List, IfOk, OnOk};
ghost use Rattle.dita_doc.specs.declared.plan.PlanNode.{PlanNode};
ghost use Rattle.doc_maker.specs.Made as made_spec;
ghost use Rattle.conref_spec.specs.Content as content_spec;
ghost use Rattle.conref_spec.specs.Content.{Made, count_limit, within};
ghost use Rattle.reader_spec.specs.World.{World};
ghost use Rattle.readers.specs.Documents.{AsksOnly};
ghost use Rattle.readers.specs.Founded as founded_spec;
ghost use Rattle.readers.specs.Founded.{AreAllowed, Grows, StaysFounded};
ghost use Rattle.readers.specs.Named as named_spec;
ghost use Rattle.readers.specs.Told.{Agrees, Told};
ghost use Rattle.conref_targets.specs.Asking.{Asks};
ghost use Rattle.conref_targets.specs.Hrefs.{HaveNamed};
ghost use Rattle.conref_targets.specs.PageAsking.{AsksPage, IsAt, PageAt, page_at};
ghost use Rattle.conref_targets.specs.Rules.{AreRules, all_kept, ditavals, page_rules};
ghost use Rattle.conref_targets.specs.ResolveInput.{documents_in};
ghost use Rattle.conref_targets.specs.Tables.{AreTables};
ghost use Rattle.conref_targets.specs.Asking as asking_spec;
ghost use Rattle.conref_pull.specs.PutHrefs.{PutNamed};
ghost use Rattle.conref_pull.specs.Resolved as resolved_spec;
ghost use Rattle.conref_pull.specs.Resolved.{IsResolved, too_many_faults};

use crate::resolver::{At, Resolver, TOO_MANY, TooMany};
use crate::tables::Tables;
use conref_targets::{NodeStanding, PageRules};
use dita_doc::{Context, Fault, FaultCode, List, NoMemory, Resolved, Siblings, Stop};
use doc_elements::{fault_at, root_of};
use doc_maker::DocMaker;
use readers::Asker;
use std::alloc::Global;

// How deep an element may stand whose reference is followed.
const DEPTH_LIMIT: usize = 256;

/// The content that stands in the place of one node of a page's document, where it stands. With
/// more than 262,144 nodes there is none, and one fault at the root of the document as stored.
#[tactic(auto, using(conref_targets::proofs::Telling::telling))]
pub fn resolve<A: Asker>(
    alloc: Global,
    asker: &mut A,
    context: &Context,
    place: u32,
) -> Result<Resolved, NoMemory>
    ensures known { (world : World) → Agrees world (A.told asker.new)
        → IfOk result (λ resolved. IsResolved resolved (resolved_spec.node_resolved world
        (A.stand asker.old).setting context.now.val context.now.page place)) }
    ensures value { IfOk result (λ resolved. IsResolved resolved (resolved_spec.node_resolved
        (A.stand asker.old).world (A.stand asker.old).setting context.now.val context.now.page place)) }
    ensures stand { A.stand asker.new ≡ A.stand asker.old }
    ensures founded { StaysFounded (founded_spec.homes (A.stand asker.old).setting.nodes
        ++ context.now.page.doc ∷ ditavals context.now.val context.now.page.filters)
        (A.told asker.old) (A.told asker.new) }
    ensures asks { AsksOnly asking_spec.of_content (context.now.page.doc
        ∷ ditavals context.now.val context.now.page.filters) (A.told asker.old)
        (A.told asker.new) }
    ensures only { (world : World) → Agrees world (A.told asker.new)
        → OnOk result (AsksPage (page_at world (A.stand asker.old).setting context.now.val
        context.now.page) (A.told asker.old) (A.told asker.new)) }
    ensures given { IfOk result (λ resolved. (roots : List (List ℕ)) → AreAllowed roots
        (A.told asker.new) (named_spec.linked_in (made_spec.resolved_tree resolved))) }
    ensures grows { Grows (A.told asker.old) (A.told asker.new) }
{
    let mut tables = Tables::new(alloc);
    resolve_with(alloc, asker, &mut tables, context, place)
}

/// The content of a page: of all roots of its document, of which pushes can make several or none.
/// With more than 262,144 nodes there is none, and one fault at the root of the document as stored.
#[tactic(auto, using(conref_targets::proofs::Telling::telling))]
pub fn resolve_page<A: Asker>(
    alloc: Global,
    asker: &mut A,
    context: &Context,
) -> Result<Resolved, NoMemory>
    ensures known { (world : World) → Agrees world (A.told asker.new)
        → IfOk result (λ resolved. IsResolved resolved (resolved_spec.page_made world
        (A.stand asker.old).setting context.now.val context.now.page)) }
    ensures value { IfOk result (λ resolved. IsResolved resolved (resolved_spec.page_made
        (A.stand asker.old).world (A.stand asker.old).setting context.now.val context.now.page)) }
    ensures stand { A.stand asker.new ≡ A.stand asker.old }
    ensures founded { StaysFounded (founded_spec.homes (A.stand asker.old).setting.nodes
        ++ context.now.page.doc ∷ ditavals context.now.val context.now.page.filters)
        (A.told asker.old) (A.told asker.new) }
    ensures asks { AsksOnly asking_spec.of_content (context.now.page.doc
        ∷ ditavals context.now.val context.now.page.filters) (A.told asker.old)
        (A.told asker.new) }
    ensures only { (world : World) → Agrees world (A.told asker.new)
        → OnOk result (AsksPage (page_at world (A.stand asker.old).setting context.now.val
        context.now.page) (A.told asker.old) (A.told asker.new)) }
    ensures given { IfOk result (λ resolved. (roots : List (List ℕ)) → AreAllowed roots
        (A.told asker.new) (named_spec.linked_in (made_spec.resolved_tree resolved))) }
    ensures grows { Grows (A.told asker.old) (A.told asker.new) }
{
    let mut tables = Tables::new(alloc);
    resolve_page_with(alloc, asker, &mut tables, context)
}

/// The same as `resolve`, by tables that are kept for all pages of the plan.
#[tactic(auto, using(conref_targets::proofs::Telling::telling))]
pub fn resolve_with<A: Asker>(
    alloc: Global,
    asker: &mut A,
    tables: &mut Tables,
    context: &Context,
    place: u32,
) -> Result<Resolved, NoMemory>
    ensures known { (world : World) → Agrees world (A.told asker.new)
        → AreRules (A.stand asker.old).world tables.old.rules
        → AreTables (documents_in world (A.stand asker.old).setting) tables.old.places
        → IfOk result (λ resolved. IsResolved resolved (resolved_spec.node_resolved world
        (A.stand asker.old).setting context.now.val context.now.page place)) }
    ensures kept { AreRules (A.stand asker.old).world tables.old.rules
        → OnOk result (AreRules (A.stand asker.old).world tables.new.rules) }
    ensures places { (world : World) → Agrees world (A.told asker.new)
        → AreRules (A.stand asker.old).world tables.old.rules
        → AreTables (documents_in world (A.stand asker.old).setting) tables.old.places
        → OnOk result
        (AreTables (documents_in world (A.stand asker.old).setting) tables.new.places) }
    ensures stand { A.stand asker.new ≡ A.stand asker.old }
    ensures founded { StaysFounded (founded_spec.homes (A.stand asker.old).setting.nodes
        ++ context.now.page.doc ∷ ditavals context.now.val context.now.page.filters)
        (A.told asker.old) (A.told asker.new) }
    ensures asks { AsksOnly asking_spec.of_content (context.now.page.doc
        ∷ ditavals context.now.val context.now.page.filters) (A.told asker.old)
        (A.told asker.new) }
    ensures only { (world : World) → Agrees world (A.told asker.new)
        → OnOk result (AsksPage (page_at world (A.stand asker.old).setting context.now.val
        context.now.page) (A.told asker.old) (A.told asker.new)) }
    ensures given { IfOk result (λ resolved. (roots : List (List ℕ)) → AreAllowed roots
        (A.told asker.new) (named_spec.linked_in (made_spec.resolved_tree resolved))) }
    ensures grows { Grows (A.told asker.old) (A.told asker.new) }
{
    let Some(doc) = asker.pushed(alloc, &context.page.doc)? else {
        return Ok(nothing(alloc));
    };
    tables.rules.read(alloc, asker, context)?;
    let rules = PageRules::of(alloc, &tables.rules, context)?;
    let standing = NodeStanding::at(alloc, &doc, place)?;
    let deepest = DEPTH_LIMIT.saturating_sub(standing.depth);
    let mut resolver = Resolver::new(alloc, context, rules, deepest);
    let at = At {
        topic: standing.topic,
        declared: &standing.declared,
        links: 0,
        is_range: false,
    };
    let done = resolver.node_at(asker, &mut tables.places, &doc, place, at);
    finish(alloc, asker, context, resolver, done)
}

/// The same as `resolve_page`, by tables that are kept for all pages of the plan.
#[tactic(auto, using(conref_targets::proofs::Telling::telling))]
pub fn resolve_page_with<A: Asker>(
    alloc: Global,
    asker: &mut A,
    tables: &mut Tables,
    context: &Context,
) -> Result<Resolved, NoMemory>
    ensures known { (world : World) → Agrees world (A.told asker.new)
        → AreRules (A.stand asker.old).world tables.old.rules
        → AreTables (documents_in world (A.stand asker.old).setting) tables.old.places
        → IfOk result (λ resolved. IsResolved resolved (resolved_spec.page_made world
        (A.stand asker.old).setting context.now.val context.now.page)) }
    ensures kept { AreRules (A.stand asker.old).world tables.old.rules
        → OnOk result (AreRules (A.stand asker.old).world tables.new.rules) }
    ensures places { (world : World) → Agrees world (A.told asker.new)
        → AreRules (A.stand asker.old).world tables.old.rules
        → AreTables (documents_in world (A.stand asker.old).setting) tables.old.places
        → OnOk result
        (AreTables (documents_in world (A.stand asker.old).setting) tables.new.places) }
    ensures rules { AreRules (A.stand asker.old).world tables.old.rules
        → (world : World) → Agrees world (A.told asker.new) → OnOk result (all_kept tables.new.rules
        (ditavals context.now.val context.now.page.filters)
        ≡ page_rules world (ditavals context.now.val context.now.page.filters)) }
    ensures stand { A.stand asker.new ≡ A.stand asker.old }
    ensures founded { StaysFounded (founded_spec.homes (A.stand asker.old).setting.nodes
        ++ context.now.page.doc ∷ ditavals context.now.val context.now.page.filters)
        (A.told asker.old) (A.told asker.new) }
    ensures asks { AsksOnly asking_spec.of_content (context.now.page.doc
        ∷ ditavals context.now.val context.now.page.filters) (A.told asker.old)
        (A.told asker.new) }
    ensures only { (world : World) → Agrees world (A.told asker.new)
        → OnOk result (AsksPage (page_at world (A.stand asker.old).setting context.now.val
        context.now.page) (A.told asker.old) (A.told asker.new)) }
    ensures given { IfOk result (λ resolved. (roots : List (List ℕ)) → AreAllowed roots
        (A.told asker.new) (named_spec.linked_in (made_spec.resolved_tree resolved))) }
    ensures grows { Grows (A.told asker.old) (A.told asker.new) }
{
    tables.rules.read(alloc, asker, context)?;
    let Some(doc) = asker.pushed(alloc, &context.page.doc)? else {
        return Ok(nothing(alloc));
    };
    let rules = PageRules::of(alloc, &tables.rules, context)?;
    let mut resolver = Resolver::new(alloc, context, rules, DEPTH_LIMIT);
    let declared = List::new(alloc);
    let at = At {
        topic: "",
        declared: &declared,
        links: 0,
        is_range: false,
    };
    let done = resolver.siblings(asker, &mut tables.places, Siblings::of(&doc), at);
    finish(alloc, asker, context, resolver, done)
}

#[tactic(auto, using(conref_targets::proofs::AskingLaws::following))]
fn finish<A: Asker>(
    alloc: Global,
    asker: &mut A,
    context: &Context,
    resolver: Resolver<'_>,
    done: Result<(), Stop<TooMany>>,
) -> Result<Resolved, NoMemory>
    ensures known { (world : World) (made : Made) → Agrees world (A.told asker.new)
        → resolved_spec.IsDone done made resolver.entry → IfOk result (λ resolved. IsResolved
        resolved (within count_limit (too_many_faults world context.now.page.doc) made)) }
    ensures memory { OnOk result (resolved_spec.HasMemory done) }
    ensures hrefs { (told : List Told) → OnOk done (PutNamed told resolver.entry)
        → IfOk result (λ resolved. HaveNamed told (made_spec.resolved_tree resolved)) }
    ensures stand { A.stand asker.new ≡ A.stand asker.old }
    ensures asks { (nodes : List PlanNode) → Asks nodes (context.now.page.doc ∷ [])
        (A.told asker.old) (A.told asker.new) }
    ensures only { (page : PageAt) → Agrees page.world (A.told asker.new)
        → IsAt page (A.stand asker.old) context.now.page
        → OnOk result (AsksPage page (A.told asker.old) (A.told asker.new)) }
    ensures grows { Grows (A.told asker.old) (A.told asker.new) }
{
    match done {
        Ok(()) => Ok(resolver.finish()),
        Err(stop) => stopped(alloc, asker, context, stop),
    }
}

// What is handed out if the walk was stopped.
#[tactic(auto, using(conref_targets::proofs::AskingLaws::following))]
fn stopped<A: Asker>(
    alloc: Global,
    asker: &mut A,
    context: &Context,
    stop: Stop<TooMany>,
) -> Result<Resolved, NoMemory>
    ensures known { (world : World) (made : Made) → Agrees world (A.told asker.new)
        → resolved_spec.IsStopped stop made → IfOk result (λ resolved. IsResolved
        resolved (within count_limit (too_many_faults world context.now.page.doc) made)) }
    ensures memory { OnOk result (resolved_spec.HasRoom stop) }
    ensures hrefs { (told : List Told)
        → IfOk result (λ resolved. HaveNamed told (made_spec.resolved_tree resolved)) }
    ensures stand { A.stand asker.new ≡ A.stand asker.old }
    ensures asks { (nodes : List PlanNode) → Asks nodes (context.now.page.doc ∷ [])
        (A.told asker.old) (A.told asker.new) }
    ensures only { (page : PageAt) → Agrees page.world (A.told asker.new)
        → IsAt page (A.stand asker.old) context.now.page
        → OnOk result (AsksPage page (A.told asker.old) (A.told asker.new)) }
    ensures grows { Grows (A.told asker.old) (A.told asker.new) }
{
    match stop {
        Stop::Fault(TooMany) => too_many(alloc, asker, context),
        Stop::NoMemory => Err(NoMemory),
    }
}

fn nothing(alloc: Global) -> Resolved
    ensures { IsResolved result content_spec.nothing_made }
{
    DocMaker::new(alloc).finish_resolved(0, List::new(alloc))
}

// No content, with the fault of too much of it.
#[tactic(auto, using(conref_targets::proofs::AskingLaws::following))]
fn too_many<A: Asker>(alloc: Global, asker: &mut A, context: &Context) -> Result<Resolved, NoMemory>
    ensures known { (world : World) → Agrees world (A.told asker.new)
        → IfOk result (λ resolved. IsResolved resolved (resolved_spec.too_much
        (too_many_faults world context.now.page.doc))) }
    ensures hrefs { (told : List Told)
        → IfOk result (λ resolved. HaveNamed told (made_spec.resolved_tree resolved)) }
    ensures stand { A.stand asker.new ≡ A.stand asker.old }
    ensures asks { (nodes : List PlanNode) → Asks nodes (context.now.page.doc ∷ [])
        (A.told asker.old) (A.told asker.new) }
    ensures only { (page : PageAt) → Agrees page.world (A.told asker.new)
        → IsAt page (A.stand asker.old) context.now.page
        → OnOk result (AsksPage page (A.told asker.old) (A.told asker.new)) }
    ensures grows { Grows (A.told asker.old) (A.told asker.new) }
{
    let mut faults: List<Fault> = List::new(alloc);
    if let Some(doc) = asker.doc(alloc, &context.page.doc)? {
        if let Some(root) = root_of(&doc) {
            let name = &context.page.doc;
            faults.push(fault_at(alloc, name, root, FaultCode::TooManyResolved, "")?)?;
        }
    }
    Ok(DocMaker::new(alloc).finish_resolved(TOO_MANY, faults))
}
