//! Commands: the words of a line behind its session, and those of an edit in a group.

ghost use Rattle.std.specs.Prelude.{◌≡◌, ◌∷◌, [], IfOk};
ghost use Rattle.dita_doc.specs.Bytes as bytes_spec;
ghost use Rattle.dita_doc.specs.Gives.{GivesSeen};
ghost use Rattle.dita_doc.specs.Seen as seen_spec;
ghost use Rattle.script_text.specs.Command as command_spec;
ghost use Rattle.script_text.specs.Script as script_spec;

use crate::fault::ScriptCode;
use crate::words::{has_no_word, number_of, only_word, read_name, split_word};
use dita_doc::{Edit, List, Name, NoMemory, Request, Stop};
use pyx_text::read_body;
use std::alloc::Global;

/// A put whose body is to come.
#[derive(Drop)]
pub enum Opening {
    Put(Name),
    /// A put that stores only if this version stands under the name.
    PutIf(u64, Name),
}

impl Opening {
    /// The whole edit, with its body. No byte of the body is copied.
    pub fn with_body(self, alloc: Global, body: List<u8>) -> Result<Edit, NoMemory>
        ensures edit { IfOk result (λ edit. seen_spec.edit_seen edit
            ≡ script_spec.with_body (command_spec.opening_seen self) body) }
        ensures origin { IfOk result seen_spec.IsOwnEdit }
    {
        match self {
            Opening::Put(name) => {
                let body = read_body(alloc, &name, body)?;
                Ok(Edit::Put(name, body))
            }
            Opening::PutIf(version, name) => {
                let body = read_body(alloc, &name, body)?;
                Ok(Edit::PutIf(version, name, body))
            }
        }
    }
}

/// What the line of an edit says: a whole edit, or one with a body.
#[derive(Drop)]
pub enum EditCommand {
    Whole(Edit),
    Opens(Opening),
}

/// What a line asks: an edit, another whole request, or a group whose edits are to come.
#[derive(Drop)]
pub enum Command {
    Edit(EditCommand),
    Whole(Request),
    OpensGroup,
}

/// The command that words say. The first fault is tried from left to right, once the count of words
/// is right.
pub fn read_command(alloc: Global, words: &str) -> Result<Command, Stop<ScriptCode>>
    ensures command { GivesSeen command_spec.command_seen result
        (script_spec.command_of (bytes_spec.spaced_words words.now)) }
    ensures own { IfOk result command_spec.HasOwn }
{
    let Some((verb, rest)) = split_word(words) else {
        return Err(Stop::Fault(ScriptCode::BadCommand));
    };
    match verb {
        "get" => read_get(alloc, rest),
        "names" => read_names(rest),
        "build" => read_build(alloc, rest),
        "group" => read_group(rest),
        _ => read_edit_alone(alloc, words),
    }
}

// An edit that is a request by itself.
fn read_edit_alone(alloc: Global, words: &str) -> Result<Command, Stop<ScriptCode>>
    ensures command { GivesSeen command_spec.command_seen result
        (script_spec.edit_alone (script_spec.edit_of (bytes_spec.spaced_words words.now))) }
    ensures own { IfOk result command_spec.HasOwn }
{
    let edit = read_edit(alloc, words)?;
    Ok(Command::Edit(edit))
}

/// The edit that words say, with the first fault as in `read_command`.
pub fn read_edit(alloc: Global, words: &str) -> Result<EditCommand, Stop<ScriptCode>>
    ensures edit { GivesSeen command_spec.edit_command_seen result
        (script_spec.edit_of (bytes_spec.spaced_words words.now)) }
    ensures own { IfOk result command_spec.HasOwnEdit }
{
    let Some((verb, rest)) = split_word(words) else {
        return Err(Stop::Fault(ScriptCode::BadCommand));
    };
    match verb {
        "put" => read_put(alloc, rest),
        "putif" => read_put_if(alloc, rest),
        "remove" => read_remove(alloc, rest),
        _ => Err(Stop::Fault(ScriptCode::BadCommand)),
    }
}

fn read_put(alloc: Global, words: &str) -> Result<EditCommand, Stop<ScriptCode>>
    ensures edit { GivesSeen command_spec.edit_command_seen result
        (script_spec.put_by (bytes_spec.spaced_words words.now)) }
    ensures own { IfOk result command_spec.HasOwnEdit }
{
    let Some(name) = only_word(words) else {
        return Err(Stop::Fault(ScriptCode::BadCommand));
    };
    let name = read_name(alloc, name)?;
    Ok(EditCommand::Opens(Opening::Put(name)))
}

fn read_put_if(alloc: Global, words: &str) -> Result<EditCommand, Stop<ScriptCode>>
    ensures edit { GivesSeen command_spec.edit_command_seen result
        (script_spec.put_if_by (bytes_spec.spaced_words words.now)) }
    ensures own { IfOk result command_spec.HasOwnEdit }
{
    let Some((version, rest)) = split_word(words) else {
        return Err(Stop::Fault(ScriptCode::BadCommand));
    };
    let Some(name) = only_word(rest) else {
        return Err(Stop::Fault(ScriptCode::BadCommand));
    };
    let Some(version) = number_of(version) else {
        return Err(Stop::Fault(ScriptCode::BadNumber));
    };
    let name = read_name(alloc, name)?;
    Ok(EditCommand::Opens(Opening::PutIf(version, name)))
}

fn read_remove(alloc: Global, words: &str) -> Result<EditCommand, Stop<ScriptCode>>
    ensures edit { GivesSeen command_spec.edit_command_seen result
        (script_spec.remove_by (bytes_spec.spaced_words words.now)) }
    ensures own { IfOk result command_spec.HasOwnEdit }
{
    let Some(name) = only_word(words) else {
        return Err(Stop::Fault(ScriptCode::BadCommand));
    };
    let name = read_name(alloc, name)?;
    Ok(EditCommand::Whole(Edit::Remove(name)))
}

fn read_get(alloc: Global, words: &str) -> Result<Command, Stop<ScriptCode>>
    ensures command { GivesSeen command_spec.command_seen result
        (script_spec.get_by (bytes_spec.spaced_words words.now)) }
    ensures own { IfOk result command_spec.HasOwn }
{
    let Some(name) = only_word(words) else {
        return Err(Stop::Fault(ScriptCode::BadCommand));
    };
    let name = read_name(alloc, name)?;
    Ok(Command::Whole(Request::Get(name)))
}

fn read_names(words: &str) -> Result<Command, Stop<ScriptCode>>
    ensures command { GivesSeen command_spec.command_seen result
        (script_spec.names_by (bytes_spec.spaced_words words.now)) }
    ensures own { IfOk result command_spec.HasOwn }
{
    if !has_no_word(words) {
        return Err(Stop::Fault(ScriptCode::BadCommand));
    }
    Ok(Command::Whole(Request::Names))
}

fn read_build(alloc: Global, words: &str) -> Result<Command, Stop<ScriptCode>>
    ensures command { GivesSeen command_spec.command_seen result
        (script_spec.build_command (bytes_spec.spaced_words words.now)) }
    ensures own { IfOk result command_spec.HasOwn }
{
    let Some((map, rest)) = split_word(words) else {
        return Err(Stop::Fault(ScriptCode::BadCommand));
    };
    if has_no_word(rest) {
        return read_build_of_all(alloc, map);
    }
    let Some(val) = only_word(rest) else {
        return Err(Stop::Fault(ScriptCode::BadCommand));
    };
    read_build_by_val(alloc, map, val)
}

// A build without a DITAVAL.
fn read_build_of_all(alloc: Global, map: &str) -> Result<Command, Stop<ScriptCode>>
    ensures command { GivesSeen command_spec.command_seen result
        (script_spec.build_command (map.now ∷ [])) }
    ensures own { IfOk result command_spec.HasOwn }
{
    let map = read_name(alloc, map)?;
    Ok(Command::Whole(Request::Build(map, None)))
}

fn read_build_by_val(alloc: Global, map: &str, val: &str) -> Result<Command, Stop<ScriptCode>>
    ensures command { GivesSeen command_spec.command_seen result
        (script_spec.build_command (map.now ∷ val.now ∷ [])) }
    ensures own { IfOk result command_spec.HasOwn }
{
    let map = read_name(alloc, map)?;
    let val = read_name(alloc, val)?;
    Ok(Command::Whole(Request::Build(map, Some(val))))
}

fn read_group(words: &str) -> Result<Command, Stop<ScriptCode>>
    ensures command { GivesSeen command_spec.command_seen result
        (script_spec.group_by (bytes_spec.spaced_words words.now)) }
    ensures own { IfOk result command_spec.HasOwn }
{
    if !has_no_word(words) {
        return Err(Stop::Fault(ScriptCode::BadCommand));
    }
    Ok(Command::OpensGroup)
}
