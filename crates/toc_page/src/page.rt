//! The page as a whole, and its faults.

ghost use Rattle.std.specs.Prelude.{◌≡◌, ◌++◌, [], codes, map, IfOk, OnOk};
ghost use Rattle.std.specs.List.{flat_map};
ghost use Rattle.dita_doc.specs.HtmlEscapes as html_escapes_spec;
ghost use Rattle.map_spec.specs.Cascade as cascade_spec;
ghost use Rattle.html_spec.specs.Contents as contents_spec;
ghost use Rattle.plan_nodes.specs.Preorder as preorder_spec;
ghost use Rattle.reader_spec.specs.World.{World};
ghost use Rattle.readers.specs.Documents as documents_spec;
ghost use Rattle.readers.specs.Documents.{AsksOnly};
ghost use Rattle.readers.specs.Founded as founded_spec;
ghost use Rattle.readers.specs.Founded.{Grows, StaysFounded};
ghost use Rattle.readers.specs.Only.{TellsOnly};
ghost use Rattle.readers.specs.Only as only_spec;
ghost use Rattle.readers.specs.Told.{Agrees};
ghost use Rattle.toc_page.specs.Made as spec;

use crate::item::{Toc, append_items};
use crate::keys::key_table;
use crate::titles::contents_title;
use dita_doc::{Fault, Html, List, Name, NoMemory, Plan, Text, append_html};
use doc_elements::append_faults;
use html_page::page_text;
use plan_nodes::{NodeElements, in_tables};
use readers::Asker;
use std::alloc::{AllocError, Global};

/// The contents page of a plan, with the faults of all pushes. It has no limit.
pub fn contents<A: Asker>(alloc: Global, asker: &mut A, plan: &Plan) -> Result<Html, NoMemory>
    ensures known { (world : World) → Agrees world (A.told asker.new)
        → spec.IsReady plan.now (A.stand asker.old).setting
        → IfOk result (spec.IsContents world plan.now) }
    ensures value { spec.IsReady plan.now (A.stand asker.old).setting
        → IfOk result (spec.IsContents (A.stand asker.old).world plan.now) }
    ensures stand { A.stand asker.new ≡ A.stand asker.old }
    ensures founded { StaysFounded (spec.contents_names plan.now) (A.told asker.old)
        (A.told asker.new) }
    ensures asks { AsksOnly documents_spec.nothing (founded_spec.homes plan.now.nodes)
        (A.told asker.old) (A.told asker.new) }
    ensures only { OnOk result (TellsOnly (spec.is_of_contents plan.now)
        (A.told asker.old) (A.told asker.new)) }
    ensures grows { Grows (A.told asker.old) (A.told asker.new) }
{
    contents_made(alloc, asker, plan)
}

// What `contents` says, but of the reader's own world.
#[tactic(auto, using(crate::proofs::Walking::walking))]
fn contents_made<A: Asker>(alloc: Global, asker: &mut A, plan: &Plan) -> Result<Html, NoMemory>
    ensures known { (world : World) → Agrees world (A.told asker.new)
        → spec.IsReady plan.now (A.stand asker.old).setting
        → IfOk result (spec.IsContents world plan.now) }
    ensures stand { A.stand asker.new ≡ A.stand asker.old }
    ensures founded { StaysFounded (spec.contents_names plan.now) (A.told asker.old)
        (A.told asker.new) }
    ensures asks { AsksOnly documents_spec.nothing (founded_spec.homes plan.now.nodes)
        (A.told asker.old) (A.told asker.new) }
    ensures only { OnOk result (TellsOnly (spec.is_of_contents plan.now)
        (A.told asker.old) (A.told asker.new)) }
    ensures grows { Grows (A.told asker.old) (A.told asker.new) }
{
    Ok(Html {
        bytes: bytes_of(alloc, asker, plan)?,
        faults: push_faults(alloc, asker, plan.documents.as_slice())?,
    })
}

// The bytes of the page.
#[tactic(auto, using(crate::proofs::Walking::walking))]
fn bytes_of<A: Asker>(alloc: Global, asker: &mut A, plan: &Plan) -> Result<List<u8>, NoMemory>
    ensures known { (world : World) → Agrees world (A.told asker.new)
        → preorder_spec.IsTree plan.now.nodes
        → (A.stand asker.old).setting.pages ≡ plan.now.pages
        → IfOk result (λ bytes. bytes ≡ contents_spec.contents world plan.now) }
    ensures stand { A.stand asker.new ≡ A.stand asker.old }
    ensures founded { StaysFounded (spec.contents_names plan.now) (A.told asker.old)
        (A.told asker.new) }
    ensures asks { AsksOnly documents_spec.nothing (founded_spec.homes plan.now.nodes)
        (A.told asker.old) (A.told asker.new) }
    ensures only { OnOk result (TellsOnly (spec.is_of_contents plan.now)
        (A.told asker.old) (A.told asker.new)) }
    ensures grows { Grows (A.told asker.old) (A.told asker.new) }
{
    let homes = NodeElements::of(alloc, asker, plan.nodes.as_slice())?;
    let title = contents_title(alloc, &homes)?;
    let body = body_of(alloc, asker, plan, &homes, &title)?;
    Ok(page_text(alloc, &title, body.as_bytes(), &[])?)
}

// What stands in the page: its title, and the list of the items.
#[tactic(auto, using(crate::proofs::Walking::walking))]
fn body_of<A: Asker>(
    alloc: Global,
    asker: &mut A,
    plan: &Plan,
    homes: &NodeElements,
    title: &Text,
) -> Result<Text, NoMemory>
    ensures known { (world : World) → Agrees world (A.told asker.new)
        → preorder_spec.IsTree plan.now.nodes
        → (A.stand asker.old).setting.pages ≡ plan.now.pages
        → homes.now ≡ map (cascade_spec.whole_at world) plan.now.nodes
        → title.now ≡ contents_spec.contents_title world plan.now
        → IfOk result (λ body. body ≡ contents_spec.contents_body world plan.now) }
    ensures stand { A.stand asker.new ≡ A.stand asker.old }
    ensures founded { StaysFounded (spec.contents_names plan.now) (A.told asker.old)
        (A.told asker.new) }
    ensures asks { AsksOnly documents_spec.nothing (founded_spec.homes plan.now.nodes)
        (A.told asker.old) (A.told asker.new) }
    ensures only { OnOk result (TellsOnly (spec.is_of_contents plan.now)
        (A.told asker.old) (A.told asker.new)) }
    ensures grows { Grows (A.told asker.old) (A.told asker.new) }
{
    let keys = key_table(alloc, plan, homes)?;
    let nodes = plan.nodes.as_slice();
    let in_tables = in_tables(alloc, nodes)?;
    let inside = in_tables.as_slice();
    let toc = Toc {
        plan,
        homes,
        keys: &keys,
        in_tables: inside,
    };
    let mut body = heading(alloc, title)?;
    append_items(alloc, asker, toc, &mut body)?;
    body.append("</nav>")?;
    Ok(body)
}

// What stands before the items.
fn heading(alloc: Global, title: &Text) -> Result<Text, AllocError>
    ensures { IfOk result (λ text. text ≡ codes "<nav class=\"toc\"><h1>"
        ++ html_escapes_spec.escaped title.now ++ codes "</h1>") }
{
    let mut text = Text::from_str(alloc, "<nav class=\"toc\"><h1>")?;
    append_html(&mut text, title.as_str())?;
    text.append("</h1>")?;
    Ok(text)
}

// The faults of all pushes: by document, in the order of first use.
#[tactic(auto, using(crate::proofs::Walking::walking))]
fn push_faults<A: Asker>(
    alloc: Global,
    asker: &mut A,
    documents: &[Name],
) -> Result<List<Fault>, NoMemory>
    ensures known { (world : World) → Agrees world (A.told asker.new)
        → IfOk result (λ faults. faults ≡ flat_map
        (spec.faults_in world (A.stand asker.old).setting.documents) documents.now) }
    ensures stand { A.stand asker.new ≡ A.stand asker.old }
    ensures founded { StaysFounded documents.now (A.told asker.old) (A.told asker.new) }
    ensures asks { AsksOnly documents_spec.nothing [] (A.told asker.old) (A.told asker.new) }
    ensures only { OnOk result (TellsOnly (only_spec.is_pushes_of documents.now)
        (A.told asker.old) (A.told asker.new)) }
    ensures grows { Grows (A.told asker.old) (A.told asker.new) }
{
    let mut faults = List::new(alloc);
    for document in documents {
        let pushes = asker.pushes(alloc, document)?;
        append_faults(&mut faults, pushes.faults)?;
    }
    Ok(faults)
}
