//! The requests of lines.
ghost use Rattle.std.specs.Prelude.{◌≡◌, ◌≢◌, ℕ, List, ◌<◌, ◌^◌, Some, None, IfOk, IfSome, IfNone, codes, option_map, string_bytes};
ghost use Rattle.std.specs.Str.{IsUtf8};
ghost use Rattle.std.specs.Bool.{OnTrue, OnFalse};
ghost use Rattle.serde_json.specs.Data.{no_members, string, object, member as member_of};
ghost use Rattle.serde_json.specs.Read.{read};
ghost use Rattle.serde_json.specs.View.{view, members_view};
ghost use Rattle.session_server.specs.Requests.{session_id as id_of};
ghost use Rattle.session_server.specs.Asked.{IsNoObject, IsObjectOf, TakesMember, itself, request_of, whole_number};

use crate::MOST_ROWS_ASKED;
use serde_json::Value;
use span_core::OutOfMemory;
use std::alloc::Global;
use std::collections::btree_map::IntoIter;

/// What an open asks: a session with this number, for the rows of a query's text on a document.
#[derive(Drop)]
pub(crate) struct OpenRequest {
    pub(crate) id: u32,
    pub(crate) query: String,
    pub(crate) document: String,
}

/// What is asked of the session with this number.
#[derive(Drop)]
pub(crate) enum SessionRequest {
    Open(OpenRequest),
    Next { id: u32, most: u32 },
    Grow { id: u32, text: String },
    Close { id: u32 },
}

impl SessionRequest {
    pub(crate) fn id(&self) -> u32
        ensures { result ≡ id_of (request_of self.now) }
    {
        match self {
            SessionRequest::Open(asked) => asked.id,
            SessionRequest::Next { id, .. } => *id,
            SessionRequest::Grow { id, .. } => *id,
            SessionRequest::Close { id } => *id,
        }
    }
}

/// The members that are left of an object, in the order of their names.
type Members = IntoIter<String, Value, Global>;

/// The JSON value of a line, where it has one.
pub(crate) fn value_of(alloc: Global, line: &[u8]) -> Result<Option<Value>, OutOfMemory>
    ensures some { IfOk result (λ o. IfSome o (λ v. IsUtf8 line.now × (read line.now ≡ Some (view v)))) }
    ensures none { IfOk result (λ o. IfNone o (IsUtf8 line.now → read line.now ≡ None)) }
{
    match Value::from_slice(alloc, line) {
        Ok(value) => Ok(Some(value)),
        Err(error) => {
            if error.is_memory() {
                return Err(OutOfMemory);
            }
            Ok(None)
        }
    }
}

/// The request that a JSON value is, if it is one. Its texts are those of the value, which are not copied.
pub(crate) fn request_in(value: Value) -> Option<SessionRequest>
    ensures some { IfSome result (λ r. IsObjectOf (view value) (request_of r)) }
    ensures none { IfNone result (IsNoObject (view value)) }
{
    match value {
        Value::Object(members) => request_with(&mut members.into_iter()),
        _ => None,
    }
}

/// An open has the first name of all, and the other requests begin with their number.
fn request_with(left: &mut Members) -> Option<SessionRequest>
    ensures some { IfSome result (λ r. IsObjectOf (object (members_view left.old)) (request_of r)) }
    ensures none { IfNone result (IsNoObject (object (members_view left.old))) }
{
    match left.next() {
        Some((name, value)) => {
            if name.as_str() == "doc" {
                return open_in(value, left);
            }
            if name.as_str() == "id" {
                return numbered_in(&value, left);
            }
            None
        }
        None => None,
    }
}

fn open_in(document: Value, left: &mut Members) -> Option<SessionRequest>
    ensures some { IfSome result
        (λ r. IsObjectOf (object (member_of (codes "doc") (view document) (members_view left.old))) (request_of r)) }
    ensures none { IfNone result (IsNoObject (object (member_of (codes "doc") (view document) (members_view left.old)))) }
{
    let Some(document) = text_of(document) else {
        return None;
    };
    let Some(id) = session_id(left) else {
        return None;
    };
    if !is_operation(left, "open") {
        return None;
    }
    let Some(query) = text(left, "query") else {
        return None;
    };
    if !is_empty(left) {
        return None;
    }
    Some(SessionRequest::Open(OpenRequest {
        id,
        query,
        document,
    }))
}

fn numbered_in(id: &Value, left: &mut Members) -> Option<SessionRequest>
    ensures some { IfSome result
        (λ r. IsObjectOf (object (member_of (codes "id") (view id.now) (members_view left.old))) (request_of r)) }
    ensures none { IfNone result (IsNoObject (object (member_of (codes "id") (view id.now) (members_view left.old)))) }
{
    let Some(id) = number_of(id) else {
        return None;
    };
    match left.next() {
        Some((name, value)) => {
            if name.as_str() == "n" {
                return next_in(id, &value, left);
            }
            if name.as_str() == "op" {
                return operation_in(id, &value, left);
            }
            None
        }
        None => None,
    }
}

fn next_in(id: u32, most: &Value, left: &mut Members) -> Option<SessionRequest>
    ensures some { IfSome result (λ r. IsObjectOf (object (member_of (codes "id") (whole_number id)
        (member_of (codes "n") (view most.now) (members_view left.old)))) (request_of r)) }
    ensures none { IfNone result (IsNoObject (object (member_of (codes "id") (whole_number id)
        (member_of (codes "n") (view most.now) (members_view left.old))))) }
{
    let Some(most) = most.as_u64() else {
        return None;
    };
    if !is_operation(left, "next") {
        return None;
    }
    if !is_empty(left) {
        return None;
    }
    if most < 1 || most > MOST_ROWS_ASKED {
        return None;
    }
    Some(SessionRequest::Next {
        id,
        most: most as u32,
    })
}

fn operation_in(id: u32, operation: &Value, left: &mut Members) -> Option<SessionRequest>
    ensures some { IfSome result (λ r. IsObjectOf (object (member_of (codes "id") (whole_number id)
        (member_of (codes "op") (view operation.now) (members_view left.old)))) (request_of r)) }
    ensures none { IfNone result (IsNoObject (object (member_of (codes "id") (whole_number id)
        (member_of (codes "op") (view operation.now) (members_view left.old))))) }
{
    let Some(operation) = operation.as_str() else {
        return None;
    };
    if operation == "grow" {
        return grow_in(id, left);
    }
    if operation == "close" {
        return close_in(id, left);
    }
    None
}

fn grow_in(id: u32, left: &mut Members) -> Option<SessionRequest>
    ensures some { IfSome result (λ r. IsObjectOf (object (member_of (codes "id") (whole_number id)
        (member_of (codes "op") (string (codes "grow")) (members_view left.old)))) (request_of r)) }
    ensures none { IfNone result (IsNoObject (object (member_of (codes "id") (whole_number id)
        (member_of (codes "op") (string (codes "grow")) (members_view left.old))))) }
{
    let Some(more) = text(left, "text") else {
        return None;
    };
    if !is_empty(left) {
        return None;
    }
    Some(SessionRequest::Grow { id, text: more })
}

fn close_in(id: u32, left: &mut Members) -> Option<SessionRequest>
    ensures some { IfSome result (λ r. IsObjectOf (object (member_of (codes "id") (whole_number id)
        (member_of (codes "op") (string (codes "close")) (members_view left.old)))) (request_of r)) }
    ensures none { IfNone result (IsNoObject (object (member_of (codes "id") (whole_number id)
        (member_of (codes "op") (string (codes "close")) (members_view left.old))))) }
{
    if !is_empty(left) {
        return None;
    }
    Some(SessionRequest::Close { id })
}

/// The next member, if it has this name.
fn member(left: &mut Members, name: &str) -> Option<Value>
    ensures { TakesMember itself name.now (members_view left.old) (option_map (λ v. view v) result) (members_view left.new) }
{
    match left.next() {
        Some((key, value)) => {
            if key.as_str() == name {
                return Some(value);
            }
            None
        }
        None => None,
    }
}

/// The text of the next member, if it has this name and is one.
fn text(left: &mut Members, name: &str) -> Option<String>
    ensures { TakesMember string name.now (members_view left.old) (option_map (λ s. string_bytes s) result) (members_view left.new) }
{
    match member(left, name) {
        Some(value) => text_of(value),
        None => None,
    }
}

/// The text that a value is, if it is one.
fn text_of(value: Value) -> Option<String>
    ensures some { IfSome result (λ s. view value ≡ string (string_bytes s)) }
    ensures none { IfNone result ((s : List ℕ) → view value ≢ string s) }
{
    match value {
        Value::String(text) => Some(text),
        _ => None,
    }
}

/// The number of a session.
fn session_id(left: &mut Members) -> Option<u32>
    ensures some { IfSome result (λ id. TakesMember whole_number (codes "id") (members_view left.old) (Some id) (members_view left.new)) }
    ensures small { IfSome result (λ id. id < 2 ^ 32) }
    ensures none { IfNone result ((id : ℕ) → id < 2 ^ 32 → (rest : _) →
        members_view left.old ≢ member_of (codes "id") (whole_number id) rest) }
{
    match member(left, "id") {
        Some(value) => number_of(&value),
        None => None,
    }
}

/// The number of a session that a value is, if it is written in digits alone.
fn number_of(value: &Value) -> Option<u32>
    ensures some { IfSome result (λ id. view value.now ≡ whole_number id) }
    ensures small { IfSome result (λ id. id < 2 ^ 32) }
    ensures none { IfNone result ((id : ℕ) → id < 2 ^ 32 → view value.now ≢ whole_number id) }
{
    match value.as_u64() {
        Some(id) => {
            if id > u64::from(u32::MAX) {
                return None;
            }
            Some(id as u32)
        }
        None => None,
    }
}

/// Whether the next member is the name of this operation.
fn is_operation(left: &mut Members, name: &str) -> bool
    ensures true_of { OnTrue result (TakesMember string (codes "op") (members_view left.old) (Some name.now) (members_view left.new)) }
    ensures false_of { OnFalse result ((rest : _) → members_view left.old ≢ member_of (codes "op") (string name.now) rest) }
{
    match text(left, "op") {
        Some(operation) => operation.as_str() == name,
        None => false,
    }
}

/// Whether no member is left.
fn is_empty(left: &mut Members) -> bool
    ensures true_of { OnTrue result (members_view left.old ≡ no_members) }
    ensures false_of { OnFalse result (members_view left.old ≢ no_members) }
{
    left.next().is_none()
}
