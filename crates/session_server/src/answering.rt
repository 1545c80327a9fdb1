//! One line, and its reply.
ghost use Rattle.std.specs.Prelude.{◌≡◌, ◌^◌, ◌≤◌, ◌<◌, ℕ, List, length, IfOk, OnErr, OnOk, IfSome, IfNone, filter, not, ◌==◌, ◌++◌, ◌∷◌, [], string_len};
ghost use Rattle.std.specs.Str.{IsUtf8};
ghost use Rattle.spanner_model.specs.Passing.{Known, known};
ghost use Rattle.note_texts.specs.Notes.{table_note};
ghost use Rattle.session_server.specs.declared.TheConstants.{SESSION_TABLE};
ghost use Rattle.session_server.specs.Asked.{opening_of, request_of};
ghost use Rattle.session_server.specs.Requests.{close_request, grow_request, next_request, session_id as id_of};
ghost use Rattle.session_server.specs.Replies.{IsReply, Reply, Sessions, error_of as error_reply, opened as opened_reply, reply_text};
ghost use Rattle.session_server.specs.Open.{AreOpen, HasNone, IsFirstPlaceOf, LosesOne, RepliesTo};

use crate::replies::{closed, error_of, given, grown, no_request, opened};
use crate::requests::{OpenRequest, SessionRequest, request_in, value_of};
use crate::session::{Halt, Session, of_table};
use crate::{MOST_AUTOMATA, MOST_SESSIONS};
use note_texts::Refusal;
use span_core::{OutOfMemory, Steps};
use span_tests::{Judge, Tests};
use std::alloc::Global;
use std::sync::ledger::Ledger;

/// A session with its number.
#[derive(Drop)]
pub(crate) struct Opened {
    pub(crate) id: u32,
    pub(crate) session: Session,
}

/// The reply to a line.
pub(crate) fn answer<J: Judge, L: Ledger>(
    alloc: Global,
    tests: &Tests<J>,
    sessions: &mut Vec<Opened>,
    line: &[u8],
    steps: &mut Steps<L>,
) -> Result<Vec<u8>, OutOfMemory>
    requires stands { (all : Sessions) × AreOpen (known tests.now J.judges) sessions.old.items all }
    ensures reply { IfOk result (λ s. (all : Sessions) → AreOpen (known tests.now J.judges) sessions.old.items all →
        (r : Reply) × (after : Sessions) × IsReply (known tests.now J.judges) all line.now r after × (s.items ≡ reply_text r)
        × AreOpen (known tests.now J.judges) sessions.new.items after) }
{
    let value = match value_of(alloc, line)? {
        Some(value) => value,
        None => return no_request(alloc),
    };
    let request = match request_in(value) {
        Some(request) => request,
        None => return no_request(alloc),
    };
    let id = request.id();
    match answer_request(alloc, tests, sessions, request, steps) {
        Ok(reply) => Ok(reply),
        Err(OutOfMemory) => {
            close(sessions, id);
            error_of(alloc, id, "memory")
        }
    }
}

fn answer_request<J: Judge, L: Ledger>(
    alloc: Global,
    tests: &Tests<J>,
    sessions: &mut Vec<Opened>,
    request: SessionRequest,
    steps: &mut Steps<L>,
) -> Result<Vec<u8>, OutOfMemory>
    requires stands { (all : Sessions) × AreOpen (known tests.now J.judges) sessions.old.items all }
    ensures reply { IfOk result (RepliesTo (known tests.now J.judges) sessions.old.items sessions.new.items (request_of request)) }
    ensures memory { OnErr result
        (LosesOne (known tests.now J.judges) sessions.old.items sessions.new.items (id_of (request_of request))) }
{
    match request {
        SessionRequest::Open(asked) => answer_open(alloc, tests, sessions, asked, steps),
        SessionRequest::Next { id, most } => answer_next(alloc, tests, sessions, id, most, steps),
        SessionRequest::Grow { id, text } => answer_grow(alloc, sessions, id, &text, steps),
        SessionRequest::Close { id } => answer_close(alloc, sessions, id),
    }
}

/// The most bytes of a document that a session is opened on. A line has less.
const MOST_DOCUMENT: usize = 268_435_456;

fn answer_open<J: Judge, L: Ledger>(
    alloc: Global,
    tests: &Tests<J>,
    sessions: &mut Vec<Opened>,
    asked: OpenRequest,
    steps: &mut Steps<L>,
) -> Result<Vec<u8>, OutOfMemory>
    ensures reply { IfOk result (RepliesTo (known tests.now J.judges) sessions.old.items sessions.new.items (opening_of asked)) }
    ensures memory { OnErr result (LosesOne (known tests.now J.judges) sessions.old.items sessions.new.items asked.id) }
{
    if place_of(sessions, asked.id).is_some() {
        return error_of(alloc, asked.id, "taken");
    }
    if sessions.len() >= MOST_SESSIONS {
        return error_of(alloc, asked.id, "full");
    }
    if asked.document.len() > MOST_DOCUMENT {
        return Err(OutOfMemory);
    }
    open_new(alloc, tests, sessions, asked, steps)
}

/// Opens a session where there is room for one of this number.
fn open_new<J: Judge, L: Ledger>(
    alloc: Global,
    tests: &Tests<J>,
    sessions: &mut Vec<Opened>,
    asked: OpenRequest,
    steps: &mut Steps<L>,
) -> Result<Vec<u8>, OutOfMemory>
    requires none { HasNone sessions.old.items asked.id }
    requires room { length sessions.old.items < MOST_SESSIONS }
    requires few { string_len asked.document ≤ 2 ^ 28 }
    ensures reply { IfOk result (RepliesTo (known tests.now J.judges) sessions.old.items sessions.new.items (opening_of asked)) }
    ensures memory { OnErr result (LosesOne (known tests.now J.judges) sessions.old.items sessions.new.items asked.id) }
{
    let OpenRequest {
        id,
        query,
        document,
    } = asked;
    match Session::open(alloc, tests, query.as_bytes(), document.into_bytes(), steps) {
        Ok(session) => put_opened(alloc, sessions, id, session),
        Err(Refusal::Note(note)) => refused(alloc, id, &note),
        Err(Refusal::OutOfMemory) => Err(OutOfMemory),
    }
}

/// Adds a session to those that are open, and gives the variables of its rows, unless the automata of all are too large.
fn put_opened(
    alloc: Global,
    sessions: &mut Vec<Opened>,
    id: u32,
    session: Session,
) -> Result<Vec<u8>, OutOfMemory>
    ensures put { OnOk result (sessions.new.items ≡ sessions.old.items ++ record { id = id; session = session } ∷ []) }
    ensures reply { IfOk result (λ s. s.items ≡ reply_text (opened_reply id session.vars)) }
    ensures same { OnErr result (sessions.new.items ≡ sessions.old.items) }
{
    if automata_bytes(sessions).saturating_add(session.automaton_bytes()) > MOST_AUTOMATA {
        give_up(Opened { id, session });
        return Err(OutOfMemory);
    }
    let reply = match opened(alloc, id, session.vars()) {
        Ok(reply) => reply,
        Err(OutOfMemory) => {
            give_up(Opened { id, session });
            return Err(OutOfMemory);
        }
    };
    match sessions.push(Opened { id, session }) {
        Ok(()) => Ok(reply),
        Err(full) => {
            give_up(full.value);
            Err(OutOfMemory)
        }
    }
}

/// How many bytes the automata of all sessions take.
fn automata_bytes(sessions: &[Opened]) -> u64 {
    let mut bytes: u64 = 0;
    for opened in sessions {
        bytes = bytes.saturating_add(opened.session.automaton_bytes());
    }
    bytes
}

/// Drops a session, here alone: what a caller has to prove grows with each of its many fields.
fn give_up(_opened: Opened) {}

fn refused(alloc: Global, id: u32, note: &[u8]) -> Result<Vec<u8>, OutOfMemory>
    requires { IsUtf8 note.now }
    ensures { IfOk result (λ s. s.items ≡ reply_text (error_reply id note.now)) }
{
    match str::from_utf8(note) {
        Ok(text) => error_of(alloc, id, text),
        Err(_) => unreachable!(),
    }
}

fn answer_next<J: Judge, L: Ledger>(
    alloc: Global,
    tests: &Tests<J>,
    sessions: &mut Vec<Opened>,
    id: u32,
    most: u32,
    steps: &mut Steps<L>,
) -> Result<Vec<u8>, OutOfMemory>
    requires stands { (all : Sessions) × AreOpen (known tests.now J.judges) sessions.old.items all }
    ensures reply { IfOk result (RepliesTo (known tests.now J.judges) sessions.old.items sessions.new.items (next_request id most)) }
    ensures memory { OnErr result (LosesOne (known tests.now J.judges) sessions.old.items sessions.new.items id) }
{
    let Some(k) = place_of(sessions, id) else {
        return error_of(alloc, id, "not open");
    };
    match sessions[k].session.page(alloc, tests, most, steps) {
        Ok(page) => given(alloc, id, page.more, &page.rows),
        Err(Halt::Heavy) => close_heavy(alloc, sessions, id),
        Err(Halt::OutOfMemory) => Err(OutOfMemory),
    }
}

fn answer_grow<L: Ledger>(
    alloc: Global,
    sessions: &mut Vec<Opened>,
    id: u32,
    text: &str,
    steps: &mut Steps<L>,
) -> Result<Vec<u8>, OutOfMemory>
    ensures reply { (k : Known) → IfOk result (RepliesTo k sessions.old.items sessions.new.items (grow_request id text.now)) }
    ensures memory { (k : Known) → OnErr result (LosesOne k sessions.old.items sessions.new.items id) }
{
    let Some(k) = place_of(sessions, id) else {
        return error_of(alloc, id, "not open");
    };
    let text = text.as_bytes();
    let session = &mut sessions[k].session;
    let Some(length) = session.length_with(text) else {
        return error_of(alloc, id, "long");
    };
    match session.grow(text, steps) {
        Ok(()) => grown(alloc, id, length),
        Err(Halt::Heavy) => close_heavy(alloc, sessions, id),
        Err(Halt::OutOfMemory) => Err(OutOfMemory),
    }
}

/// Closes the session of this number, since reading its document weighs too much.
fn close_heavy(alloc: Global, sessions: &mut Vec<Opened>, id: u32) -> Result<Vec<u8>, OutOfMemory>
    ensures closed { sessions.new.items ≡ filter (λ s. not (s.id == id)) sessions.old.items }
    ensures text { IfOk result (λ s. s.items ≡ reply_text (error_reply id (table_note SESSION_TABLE))) }
{
    close(sessions, id);
    match of_table(alloc) {
        Refusal::Note(note) => refused(alloc, id, &note),
        Refusal::OutOfMemory => Err(OutOfMemory),
    }
}

fn answer_close(alloc: Global, sessions: &mut Vec<Opened>, id: u32) -> Result<Vec<u8>, OutOfMemory>
    ensures reply { (k : Known) → IfOk result (RepliesTo k sessions.old.items sessions.new.items (close_request id)) }
    ensures memory { (k : Known) → OnErr result (LosesOne k sessions.old.items sessions.new.items id) }
{
    if place_of(sessions, id).is_none() {
        return error_of(alloc, id, "not open");
    }
    close(sessions, id);
    closed(alloc, id)
}

/// The place of the session of this number, where it is open.
fn place_of(sessions: &[Opened], id: u32) -> Option<usize>
    ensures some { IfSome result (IsFirstPlaceOf sessions.now id) }
    ensures none { IfNone result (HasNone sessions.now id) }
{
    let mut k = 0;
    while k < sessions.len() {
        if sessions[k].id == id {
            return Some(k);
        }
        k += 1;
    }
    None
}

/// Takes the session of this number away.
fn close(sessions: &mut Vec<Opened>, id: u32)
    ensures { sessions.new.items ≡ filter (λ s. not (s.id == id)) sessions.old.items }
{
    sessions.retain(|s| s.id != id);
}
