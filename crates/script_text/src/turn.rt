//! What a line leads to, behind those before it.

ghost use Rattle.std.specs.Prelude.{◌≡◌, Ok, IfOk, IfSome};
ghost use Rattle.dita_doc.specs.Gives.{GivesSeen};
ghost use Rattle.script_text.specs.Command as command_spec;
ghost use Rattle.script_text.specs.Machine as machine_spec;
ghost use Rattle.script_text.specs.Script as script_spec;

use crate::command::{Command, EditCommand};
use crate::fault::ScriptCode;
use crate::group::{Group, read_edit_line};
use crate::opened::OpenPut;
use crate::outside::LineReader;
use dita_doc::{Request, Stop};
use std::alloc::Global;

/// What has begun and has no end yet.
#[derive(Drop)]
pub enum Begun {
    /// A put, in its session.
    Put(u32, OpenPut),
    Group(Group),
    /// A put that is an edit of a group.
    GroupPut(Group, OpenPut),
}

/// What a line leads to.
#[derive(Drop)]
pub struct Turn {
    /// The request that the line ends, with its session.
    pub step: Option<(u32, Request)>,
    /// What is begun behind the line.
    pub begun: Option<Begun>,
}

impl Turn {
    ghost use Rattle.std.specs.Prelude.{◌≡◌, Some};
    ghost use Rattle.dita_doc.specs.Seen as seen_spec;
    ghost use Rattle.script_text.specs.Machine as machine_spec;
    ghost use Rattle.script_text.specs.Script as script_spec;

    // No request ends, and this is begun.
    fn goes_on(begun: Begun) -> Self
        ensures turn { machine_spec.turn_seen result
            ≡ script_spec.goes_on (Some (machine_spec.begun_seen begun)) }
        ensures own { machine_spec.EndsOwn result }
    {
        Turn {
            step: None,
            begun: Some(begun),
        }
    }

    // A request ends, and nothing is begun.
    fn ends(session: u32, request: Request) -> Self
        requires { seen_spec.HasOwnOrigin request }
        ensures turn { machine_spec.turn_seen result
            ≡ script_spec.ends session (seen_spec.request_seen request) }
        ensures own { machine_spec.EndsOwn result }
    {
        Turn {
            step: Some((session, request)),
            begun: None,
        }
    }
}

/// What a line leads to behind so many requests, where this is begun.
pub fn turn_at<L: LineReader>(
    alloc: Global,
    reader: &L,
    count: usize,
    begun: Option<Begun>,
    line: &[u8],
) -> Result<Turn, Stop<ScriptCode>>
    ensures turn { GivesSeen machine_spec.turn_seen result
        (script_spec.turn L.reads count (machine_spec.pending_seen begun) line.now) }
    ensures own { IfOk result machine_spec.EndsOwn }
{
    let Ok(line) = str::from_utf8(line) else {
        return Err(Stop::Fault(ScriptCode::NotUtf8));
    };
    match begun {
        None => turn_outside(alloc, reader, count, line),
        Some(Begun::Put(session, put)) => turn_in_put(alloc, session, put, line),
        Some(Begun::Group(group)) => turn_in_group(alloc, group, line),
        Some(Begun::GroupPut(group, put)) => turn_in_group_put(alloc, group, put, line),
    }
}

// A line outside bodies and groups.
fn turn_outside<L: LineReader>(
    alloc: Global,
    reader: &L,
    count: usize,
    line: &str,
) -> Result<Turn, Stop<ScriptCode>>
    ensures turn { GivesSeen machine_spec.turn_seen result
        (script_spec.turn_outside (L.reads count line.now)) }
    ensures own { IfOk result machine_spec.EndsOwn }
{
    match reader.read(alloc, count, line)? {
        None => Ok(Turn {
            step: None,
            begun: None,
        }),
        Some((session, command)) => Ok(turn_by(alloc, session, command)),
    }
}

// What a command leads to.
fn turn_by(alloc: Global, session: u32, command: Command) -> Turn
    requires { command_spec.HasOwn command }
    ensures turn { machine_spec.turn_seen result
        ≡ script_spec.turn_in session (command_spec.command_seen command) }
    ensures own { machine_spec.EndsOwn result }
{
    match command {
        Command::Edit(EditCommand::Whole(edit)) => Turn::ends(session, edit.into_request()),
        Command::Edit(EditCommand::Opens(opening)) => {
            Turn::goes_on(Begun::Put(session, OpenPut::new(alloc, opening)))
        }
        Command::Whole(request) => Turn::ends(session, request),
        Command::OpensGroup => Turn::goes_on(Begun::Group(Group::new(alloc, session))),
    }
}

// A line of the body of a put, or its end.
fn turn_in_put(
    alloc: Global,
    session: u32,
    mut put: OpenPut,
    line: &str,
) -> Result<Turn, Stop<ScriptCode>>
    ensures turn { GivesSeen machine_spec.turn_seen result
        (script_spec.turn_within (script_spec.InPut session (machine_spec.opened_seen put))
        line.now) }
    ensures own { IfOk result machine_spec.EndsOwn }
{
    if line == "." {
        let edit = put.into_edit(alloc)?;
        return Ok(Turn::ends(session, edit.into_request()));
    }
    put.add(line)?;
    Ok(Turn::goes_on(Begun::Put(session, put)))
}

// A line of a group, or its end.
fn turn_in_group(alloc: Global, group: Group, line: &str) -> Result<Turn, Stop<ScriptCode>>
    ensures turn { GivesSeen machine_spec.turn_seen result
        (script_spec.turn_within (machine_spec.group_seen group) line.now) }
    ensures own { IfOk result machine_spec.EndsOwn }
{
    if line == "end" {
        return Ok(Turn::ends(group.session, Request::Group(group.edits)));
    }
    let Some(edit) = read_edit_line(alloc, group.edits.len(), line)? else {
        return Ok(Turn::goes_on(Begun::Group(group)));
    };
    match edit {
        EditCommand::Whole(edit) => {
            let group = group.with_edit(edit)?;
            Ok(Turn::goes_on(Begun::Group(group)))
        }
        EditCommand::Opens(opening) => {
            let put = OpenPut::new(alloc, opening);
            Ok(Turn::goes_on(Begun::GroupPut(group, put)))
        }
    }
}

// A line of the body of a put of a group, or its end.
fn turn_in_group_put(
    alloc: Global,
    group: Group,
    mut put: OpenPut,
    line: &str,
) -> Result<Turn, Stop<ScriptCode>>
    ensures turn { GivesSeen machine_spec.turn_seen result
        (script_spec.turn_within (script_spec.InGroupPut group.session
        (machine_spec.edits_seen group) (machine_spec.opened_seen put)) line.now) }
    ensures own { IfOk result machine_spec.EndsOwn }
{
    if line == "." {
        let edit = put.into_edit(alloc)?;
        let group = group.with_edit(edit)?;
        return Ok(Turn::goes_on(Begun::Group(group)));
    }
    put.add(line)?;
    Ok(Turn::goes_on(Begun::GroupPut(group, put)))
}
