//! The body of a page, with the terms of its content.

ghost use Rattle.std.specs.Arc.{arc_value};
ghost use Rattle.std.specs.Prelude.{◌≡◌, ◌++◌, ◌∷◌, ℕ, [], IfOk, OnOk, map};
ghost use Rattle.clean_build.specs.Bodies as bodies_spec;
ghost use Rattle.clean_build.specs.Bodies.{AreKnown, IsBodyMade};
ghost use Rattle.clean_build.specs.Reads.{MayReadFor, ReadsOnly};
ghost use Rattle.clean_build.specs.Told.{made_for};
ghost use Rattle.conref_targets.specs.Asking as asking_spec;
ghost use Rattle.conref_targets.specs.Rules.{AreRules, all_kept, ditavals};
ghost use Rattle.dita_doc.specs.declared.plan.PagePlan.{PagePlan};
ghost use Rattle.flag_marks.specs.Marks as marks_spec;
ghost use Rattle.html_spec.specs.Blocks as blocks_spec;
ghost use Rattle.part_spec.specs.Parts as parts_spec;
ghost use Rattle.reader_spec.specs.World.{World};
ghost use Rattle.readers.specs.Documents.{AsksOnly};
ghost use Rattle.readers.specs.Founded as founded_spec;
ghost use Rattle.readers.specs.Founded.{Grows, StaysFounded};
ghost use Rattle.readers.specs.Told.{Agrees};
ghost use Rattle.xref_links.specs.Body.{written_of};
ghost use Rattle.xref_links.specs.Here.{IsPageOf};

use crate::content::resolved_for;
use conref_pull::Tables;
use dita_doc::{
    Anchor, Context, Fault, Html, List, Mark, NoMemory, PageLink, Plan, Resolved, TermEntry,
};
use doc_elements::append_faults;
use flag_marks::marks_by;
use html_blocks::body_html;
use index_page::terms_of;
use readers::Asker;
use std::alloc::Global;
use std::sync::Arc;
use xref_links::{AnchorsMade, anchors};

/// The body of a page, the links that its elements list, the terms of its content if they are
/// wanted, and the tables by which it was resolved.
#[derive(Drop)]
pub(crate) struct BodyMade {
    pub body: Html,
    pub links: List<PageLink>,
    pub terms: List<TermEntry>,
    pub content: Tables,
}

/// The HTML of a page's body, and the links that its elements list. Its faults are those of its
/// content, of its elements' links and of its HTML, and behind them these. If a number is given,
/// the terms of the content are those of the page of this number; otherwise there are none.
pub(crate) fn page_body<A: Asker>(
    alloc: Global,
    asker: &mut A,
    content: Tables,
    plan: &Plan,
    context: &Arc<Context>,
    behind: List<Fault>,
    number: Option<u32>,
) -> Result<BodyMade, NoMemory>
    ensures known { (world : World) (page : PagePlan) (index : ℕ) → Agrees world (A.told asker.new)
        → (A.stand asker.old).setting ≡ made_for plan.now
        → IsPageOf plan.now (arc_value context.now) page index
        → AreKnown (A.stand asker.old).world world plan.now content
        → IfOk result (IsBodyMade (A.stand asker.old).world world plan.now (arc_value context.now)
        page index behind number) }
    ensures kept { AreRules (A.stand asker.old).world content.rules
        → IfOk result (λ made. AreRules (A.stand asker.old).world made.content.rules) }
    ensures founded { StaysFounded (founded_spec.homes (A.stand asker.old).setting.nodes
        ++ (arc_value context.now).page.doc
        ∷ ditavals (arc_value context.now).val (arc_value context.now).page.filters)
        (A.told asker.old) (A.told asker.new) }
    ensures asks { AsksOnly asking_spec.of_content ((arc_value context.now).page.doc
        ∷ ditavals (arc_value context.now).val (arc_value context.now).page.filters)
        (A.told asker.old) (A.told asker.new) }
    ensures only { (world : World) → Agrees world (A.told asker.new)
        → OnOk result (ReadsOnly (MayReadFor world (A.stand asker.old).setting
        (arc_value context.now)) (A.told asker.old) (A.told asker.new)) }
    ensures stand { A.stand asker.new ≡ A.stand asker.old }
    ensures grows { Grows (A.told asker.old) (A.told asker.new) }
{
    let mut content = content;
    let resolved = resolved_for(alloc, asker, &mut content, context)?;
    let marks = marks_of(alloc, &content, context, &resolved)?;
    let terms = terms_if(alloc, &resolved, number)?;
    let AnchorsMade {
        anchors,
        links,
        faults,
    } = anchors(alloc, asker, plan, context, &resolved)?;
    let body = shown(alloc, resolved, &anchors, &marks, faults, behind)?;
    Ok(BodyMade {
        body,
        links,
        terms,
        content,
    })
}

// The marks of the elements of a page's content, by the rules of the page.
fn marks_of(
    alloc: Global,
    content: &Tables,
    context: &Context,
    resolved: &Resolved,
) -> Result<List<Mark>, NoMemory>
    ensures { IfOk result (λ marks. marks ≡ marks_spec.marks_from (all_kept content.now.rules
        (ditavals context.now.val context.now.page.filters)) 0 resolved.now.declared
        (map marks_spec.attributes_at resolved.now.doc.nodes)) }
{
    let tables = content.rules_of(alloc, context)?;
    marks_by(alloc, resolved, &tables, &resolved.declared)
}

// The terms of content as those of the page of this number, if one is given.
fn terms_if(
    alloc: Global,
    resolved: &Resolved,
    number: Option<u32>,
) -> Result<List<TermEntry>, NoMemory>
    ensures { IfOk result
        (λ terms. terms ≡ bodies_spec.terms_wanted number (written_of resolved.now)) }
{
    match number {
        Some(page) => terms_of(alloc, resolved, page),
        None => Ok(List::new(alloc)),
    }
}

// The HTML of what was resolved, with these anchors and marks. Its faults are those of what was
// resolved, of its links and its own, and behind them these.
fn shown(
    alloc: Global,
    resolved: Resolved,
    anchors: &List<Anchor>,
    marks: &List<Mark>,
    of_links: List<Fault>,
    behind: List<Fault>,
) -> Result<Html, NoMemory>
    ensures { IfOk result (λ html. html ≡ bodies_spec.with_faults
        (blocks_spec.body_html anchors.now marks.now (written_of resolved)) resolved.faults
        of_links behind) }
{
    let html = body_html(alloc, &resolved, anchors, marks)?;
    with_faults(html, resolved.faults, of_links, behind)
}

// The same HTML with other faults around its own.
fn with_faults(
    html: Html,
    before: List<Fault>,
    next: List<Fault>,
    behind: List<Fault>,
) -> Result<Html, NoMemory>
    ensures { IfOk result (λ made. made ≡ bodies_spec.with_faults html before next behind) }
{
    let Html {
        bytes,
        faults: of_html,
    } = html;
    let mut faults = before;
    append_faults(&mut faults, next)?;
    append_faults(&mut faults, of_html)?;
    append_faults(&mut faults, behind)?;
    Ok(Html { bytes, faults })
}

/// A page without bytes and without faults.
pub fn no_html(alloc: Global) -> Html
    ensures { result ≡ parts_spec.no_html }
{
    Html {
        bytes: List::new(alloc),
        faults: List::new(alloc),
    }
}
