//! The lines of replies.
ghost use Rattle.std.specs.Prelude.{◌≡◌, false, map, IfOk};
ghost use Rattle.std.specs.Str.{IsUtf8};
ghost use Rattle.serde_json.specs.Data.{Items, array, object, string};
ghost use Rattle.serde_json.specs.View.{items_view, members_view, view};
ghost use Rattle.serde_json.specs.Written.{compact_text, items_have_float, members_have_float};
ghost use Rattle.note_texts.specs.Notes.{line};
ghost use Rattle.session_server.specs.Replies.{closed as closed_reply, error_of as error_reply, grown_to as grown_reply, no_request as request_error, opened as opened_reply, names_object, reply_text, rows_object};
ghost use Rattle.session_server.specs.Rows.{more_text};

use cell_text::{push_bytes, push_number};
use serde_json::{Map, Value, push, put};
use span_core::{OutOfMemory, VarSet};
use std::alloc::Global;

/// The line of a JSON object.
fn line_of(alloc: Global, members: Map<String, Value>) -> Result<Vec<u8>, OutOfMemory>
    ensures { IfOk result (λ s. members_have_float (members_view members.entries) ≡ false →
        s.items ≡ line (compact_text (object (members_view members.entries)))) }
{
    let mut line = Value::Object(members).to_vec(alloc)?;
    line.push(b'\n')?;
    Ok(line)
}

/// A session was opened, whose rows have these variables.
pub(crate) fn opened(alloc: Global, id: u32, vars: &VarSet) -> Result<Vec<u8>, OutOfMemory>
    ensures { IfOk result (λ s. s.items ≡ reply_text (opened_reply id vars.now)) }
{
    let names = names_of(alloc, vars)?;
    with_names(alloc, id, names)
}

/// A session was opened, whose rows have the variables of these names.
fn with_names(alloc: Global, id: u32, names: Vec<Value>) -> Result<Vec<u8>, OutOfMemory>
    ensures { IfOk result (λ s. items_have_float (items_view names.items) ≡ false →
        s.items ≡ line (compact_text (names_object id (items_view names.items)))) }
{
    let mut members = Map::new(alloc);
    put(&mut members, alloc, "id", Value::from(id))?;
    put(&mut members, alloc, "variables", Value::Array(names))?;
    line_of(alloc, members)
}

/// The names, as JSON.
fn names_of(alloc: Global, vars: &VarSet) -> Result<Vec<Value>, OutOfMemory>
    ensures { IfOk result (λ names. map view names.items ≡ map string vars.now) }
{
    let mut names = Vec::new(alloc);
    for k in 0..vars.len() {
        let name = Value::try_from_str(alloc, vars.at(k).as_str())?;
        push(&mut names, name)?;
    }
    Ok(names)
}

/// The next rows of a session, as their array, and whether more remain.
pub(crate) fn given(alloc: Global, id: u32, more: bool, rows: &[u8]) -> Result<Vec<u8>, OutOfMemory>
    ensures { IfOk result (λ s. (items : Items) → rows.now ≡ compact_text (array items) →
        s.items ≡ line (compact_text (rows_object id more items))) }
{
    let mut line = Vec::new(alloc);
    push_bytes(b"{\"id\":", &mut line)?;
    push_number(id, &mut line)?;
    push_bytes(between(more).as_bytes(), &mut line)?;
    push_bytes(rows, &mut line)?;
    push_bytes(b"}\n", &mut line)?;
    Ok(line)
}

/// What stands between the session's number and its rows.
fn between(more: bool) -> &'static str
    ensures { result.now ≡ more_text more }
{
    if more {
        ",\"more\":true,\"rows\":"
    } else {
        ",\"more\":false,\"rows\":"
    }
}

/// The document of a session has so many bytes now.
pub(crate) fn grown(alloc: Global, id: u32, bytes: usize) -> Result<Vec<u8>, OutOfMemory>
    ensures { IfOk result (λ s. s.items ≡ reply_text (grown_reply id bytes)) }
{
    let mut members = Map::new(alloc);
    put(&mut members, alloc, "bytes", Value::from(bytes))?;
    put(&mut members, alloc, "id", Value::from(id))?;
    line_of(alloc, members)
}

/// A session was closed.
pub(crate) fn closed(alloc: Global, id: u32) -> Result<Vec<u8>, OutOfMemory>
    ensures { IfOk result (λ s. s.items ≡ reply_text (closed_reply id)) }
{
    let mut members = Map::new(alloc);
    put(&mut members, alloc, "closed", Value::Bool(true))?;
    put(&mut members, alloc, "id", Value::from(id))?;
    line_of(alloc, members)
}

/// An error of a session.
pub(crate) fn error_of(alloc: Global, id: u32, text: &str) -> Result<Vec<u8>, OutOfMemory>
    ensures { IfOk result (λ s. s.items ≡ reply_text (error_reply id text.now)) }
{
    let mut members = Map::new(alloc);
    put(
        &mut members,
        alloc,
        "error",
        Value::try_from_str(alloc, text)?,
    )?;
    put(&mut members, alloc, "id", Value::from(id))?;
    line_of(alloc, members)
}

/// A line is no request.
pub(crate) fn no_request(alloc: Global) -> Result<Vec<u8>, OutOfMemory>
    ensures { IfOk result (λ s. s.items ≡ reply_text request_error) }
{
    let mut members = Map::new(alloc);
    put(
        &mut members,
        alloc,
        "error",
        Value::try_from_str(alloc, "request")?,
    )?;
    line_of(alloc, members)
}
