//! The requests of a project.

ghost use Rattle.std.specs.Prelude.{◌≡◌, ◌++◌, ◌<◌, ◌≤◌, ◌+◌, ◌*◌, ◌%◌, ◌^◌, codes, IfOk, OnOk};
ghost use Rattle.std.specs.Fmt.{decimal};
ghost use Rattle.std.specs.List.{flat_map};
ghost use Rattle.dita_doc.specs.Lines as lines_spec;
ghost use Rattle.script_text.specs.Printed as printed_spec;
ghost use Rattle.doc_gen.specs.Project as project_spec;

use crate::draws::{draw_at, next_draw, value_of};
use crate::map::{append_book, append_excluding};
use crate::topic::append_topic;
use dita_doc::{List, NoMemory};
use std::alloc::{AllocError, Global};

/// The script of a number and of a count of topics: three sessions, of which the first puts a map
/// with its topics and DITAVALs and builds it, and the others each put one topic again and build.
/// The text takes about 490 bytes a topic.
pub fn project(alloc: Global, number: u64, topics: u32) -> Result<List<u8>, NoMemory>
    requires few { 2 ≤ topics }
    requires many { topics ≤ 4000 }
    ensures { IfOk result (λ text. text ≡ project_spec.project number topics) }
{
    let mut out = List::new(alloc);
    append_ground(alloc, &mut out, topics)?;
    append_topics(alloc, &mut out, number, topics)?;
    append_build(alloc, &mut out, 1)?;
    append_edits(alloc, &mut out, number, topics, 2, topics + 1)?;
    append_edits(alloc, &mut out, number, topics, 3, topics + 3)?;
    Ok(out)
}

// The puts of the DITAVALs and of the map.
fn append_ground(alloc: Global, out: &mut List<u8>, topics: u32) -> Result<(), AllocError>
    requires { topics ≤ 4000 }
    ensures { OnOk result (out.new ≡ out.old
        ++ project_spec.put_text 1 (codes "val.ditaval")
        (project_spec.excluding (codes "audience") (codes "internal"))
        ++ project_spec.put_text 1 (codes "win.ditaval")
        (project_spec.excluding (codes "platform") (codes "lin"))
        ++ project_spec.put_text 1 (codes "lin.ditaval")
        (project_spec.excluding (codes "platform") (codes "win"))
        ++ project_spec.put_text 1 (codes "book.ditamap") (project_spec.book topics)) }
{
    append_ditaval(alloc, out, "val.ditaval", "audience", "internal")?;
    append_ditaval(alloc, out, "win.ditaval", "platform", "lin")?;
    append_ditaval(alloc, out, "lin.ditaval", "platform", "win")?;
    append_map(alloc, out, topics)
}

#[tactic(auto, unfolding(crate::specs::Project::put_text))]
fn append_ditaval(
    alloc: Global,
    out: &mut List<u8>,
    name: &str,
    attribute: &str,
    value: &str,
) -> Result<(), AllocError>
    ensures { OnOk result (out.new ≡ out.old
        ++ project_spec.put_text 1 name.now (project_spec.excluding attribute.now value.now)) }
{
    open_put(alloc, out, 1, name)?;
    append_excluding(out, attribute, value)?;
    out.append(b".\n")
}

#[tactic(auto, unfolding(crate::specs::Project::put_text))]
fn append_map(alloc: Global, out: &mut List<u8>, topics: u32) -> Result<(), AllocError>
    requires { topics ≤ 4000 }
    ensures { OnOk result (out.new ≡ out.old
        ++ project_spec.put_text 1 (codes "book.ditamap") (project_spec.book topics)) }
{
    open_put(alloc, out, 1, "book.ditamap")?;
    append_book(alloc, out, topics)?;
    out.append(b".\n")
}

// The line of a put.
fn open_put(alloc: Global, out: &mut List<u8>, session: u32, name: &str) -> Result<(), AllocError>
    ensures { OnOk result (out.new ≡ out.old
        ++ lines_spec.line (decimal session ++ codes " put " ++ name.now)) }
{
    append_number(alloc, out, session)?;
    out.append(b" put ")?;
    out.append(name.as_bytes())?;
    out.append(b"\n")
}

fn append_number(alloc: Global, out: &mut List<u8>, number: u32) -> Result<(), AllocError>
    ensures { OnOk result (out.new ≡ out.old ++ decimal number) }
{
    out.append(format!(in alloc; "{number}")?.as_bytes())
}

// Each topic, as it is put first.
fn append_topics(
    alloc: Global,
    out: &mut List<u8>,
    number: u64,
    topics: u32,
) -> Result<(), AllocError>
    requires few { 2 ≤ topics }
    requires many { topics ≤ 4000 }
    ensures { OnOk result (out.new ≡ out.old
        ++ flat_map (λ index. printed_spec.step_text (project_spec.puts_first number topics index))
        (project_spec.numbers_from 1 topics)) }
{
    let mut draw = number;
    for index in 0..topics {
        draw = next_draw(draw);
        let value = value_of(draw);
        append_put(alloc, out, topics, 1, index + 1, value, value % 1000)?;
    }
    Ok(())
}

// A session puts a topic again, which a draw chooses, and builds the map.
fn append_edits(
    alloc: Global,
    out: &mut List<u8>,
    number: u64,
    topics: u32,
    session: u32,
    draw: u32,
) -> Result<(), AllocError>
    requires few { 2 ≤ topics }
    requires many { topics ≤ 4000 }
    requires draw { draw ≤ 4003 }
    ensures { OnOk result (out.new ≡ out.old
        ++ flat_map printed_spec.step_text (project_spec.edits_by number topics session draw)) }
{
    let chosen = draw_at(number, draw);
    let choice = value_of(chosen);
    let index = 1 + (choice % u64::from(topics)) as u32;
    let following = next_draw(chosen);
    let text_value = value_of(following);
    let own = draw_at(number, index);
    let value = value_of(own);
    append_put(alloc, out, topics, session, index, value, text_value % 1000)?;
    append_build(alloc, out, session)
}

#[tactic(auto, unfolding(crate::specs::Project::put_text))]
fn append_put(
    alloc: Global,
    out: &mut List<u8>,
    topics: u32,
    session: u32,
    index: u32,
    value: u64,
    number: u64,
) -> Result<(), AllocError>
    requires { 0 < topics }
    ensures { OnOk result (out.new ≡ out.old
        ++ project_spec.put_text session (project_spec.topic_name index)
        (project_spec.topic topics index value number)) }
{
    open_put(
        alloc,
        out,
        session,
        format!(in alloc; "t{index}.dita")?.as_str(),
    )?;
    append_topic(alloc, out, topics, index, value, number)?;
    out.append(b".\n")
}

fn append_build(alloc: Global, out: &mut List<u8>, session: u32) -> Result<(), AllocError>
    ensures { OnOk result (out.new ≡ out.old
        ++ printed_spec.step_text (project_spec.builds session)) }
{
    append_number(alloc, out, session)?;
    out.append(b" build book.ditamap val.ditaval\n")
}
