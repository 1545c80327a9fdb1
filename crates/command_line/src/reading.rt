//! What the words ask for, by the program's own checks on what the command found.
ghost use Rattle.std.specs.Prelude.{◌≡◌, ◌≤◌, None, Some, map, option_map, IfOk, IfSome, string_bytes, IsErrOf};
ghost use Rattle.command_line.specs.declared.TheConstants.{MOST_MAX_TABLE, MOST_TRIAL_LINES};
ghost use Rattle.command_line.specs.Short.{lines_of};
ghost use Rattle.command_line.specs.Given.{given_view};
ghost use Rattle.command_line.specs.RequestView.{requested, requested_by, cursor_of, document_of, form_named, form_of, goes_with as mode_goes_with, has_no_page as no_page, limit_of, max_table_of, mode_of, names_input_twice as input_twice, number_of, query_of, query_view, request_view};

use crate::given::{Given, given_in};
use crate::request::{Form, Mode, QuerySource, Request};
use crate::{DEFAULT_MAX_TABLE, MOST_MAX_TABLE, MOST_TRIAL_LINES};
use std::alloc::Global;

/// Why there is no request.
#[derive(Clone, Copy, Debug, PartialEq, Eq)]
pub enum WordsFault {
    /// The command does not take the words, or a check on what they give fails.
    Refused,
    /// The allocator gave no memory.
    OutOfMemory,
}

/// What the words after the program's name ask for, where they are accepted.
#[tactic(auto, using(crate::proofs::RequestedLemmas::requested_when_taken, crate::proofs::RequestedLemmas::requested_when_refused))]
pub fn read_request<'a>(alloc: Global, words: &'a [String]) -> Result<Request<'a>, WordsFault>
    ensures ok { IfOk result (λ request. requested (map string_bytes words.entry.now) ≡ Some (request_view request)) }
    ensures refused { IsErrOf result WordsFault.Refused → requested (map string_bytes words.entry.now) ≡ None }
{
    match given_in(alloc, words) {
        Ok(given) => match checked(&given) {
            Some(request) => Ok(request),
            None => Err(WordsFault::Refused),
        },
        Err(fault) => Err(fault),
    }
}

// What is asked for, where each check passes.
#[tactic(auto, unfolding(crate::specs::RequestView::requested_by))]
fn checked<'a>(given: &Given<'a>) -> Option<Request<'a>>
    ensures { option_map request_view result ≡ requested_by (given_view given.now) }
{
    let query = query_asked(given)?;
    let limit = limit_asked(given)?;
    let form = form_asked(given)?;
    let max_table = max_table_asked(given)?;
    let mode = mode_asked(given)?;
    if !goes_with(mode, &query, given) {
        return None;
    }
    Some(Request {
        query,
        document: document_asked(given),
        limit,
        after: cursor_asked(given),
        form,
        texts: given.texts,
        filter: given.filter,
        max_table,
        mode,
    })
}

// The query, if exactly one is given.
fn query_asked<'a>(given: &Given<'a>) -> Option<QuerySource<'a>>
    ensures { option_map query_view result ≡ query_of (given_view given.now).query (given_view given.now).query_name }
{
    match (given.query, given.query_name) {
        (Some(text), None) => Some(QuerySource::Given(text)),
        (None, Some(name)) => Some(QuerySource::Named(name)),
        _ => None,
    }
}

// The limit, which may be left out.
fn limit_asked(given: &Given<'_>) -> Option<Option<u64>>
    ensures { result ≡ limit_of (given_view given.now).limit }
{
    match given.limit {
        Some(text) => number(text).map(Some),
        None => Some(None),
    }
}

fn number(text: &str) -> Option<u64>
    ensures { result ≡ number_of text.now }
{
    text.parse::<u64>().ok()
}

// The form, which may be left out.
fn form_asked(given: &Given<'_>) -> Option<Form>
    ensures { result ≡ form_of (given_view given.now).form }
{
    match given.form {
        Some(text) => form_by_name(text),
        None => Some(Form::Spans),
    }
}

fn form_by_name(text: &str) -> Option<Form>
    ensures { result ≡ form_named text.now }
{
    if text == "spans" {
        return Some(Form::Spans);
    }
    if text == "table" {
        return Some(Form::Table);
    }
    if text == "json" {
        return Some(Form::Json);
    }
    None
}

// The most that the table and each filter may weigh, which may be left out.
fn max_table_asked(given: &Given<'_>) -> Option<u64>
    ensures value { result ≡ max_table_of (given_view given.now).max_table }
    ensures light { IfSome result (λ weight. weight ≤ MOST_MAX_TABLE) }
{
    match given.max_table {
        Some(text) => match number(text) {
            Some(weight) if weight > 0 && weight <= MOST_MAX_TABLE => Some(weight),
            _ => None,
        },
        None => Some(DEFAULT_MAX_TABLE),
    }
}

// The mode.
fn mode_asked(given: &Given<'_>) -> Option<Mode>
    ensures value { result ≡ mode_of (given_view given.now).explain (given_view given.now).trial }
    ensures short { IfSome result (λ mode. lines_of mode ≤ MOST_TRIAL_LINES) }
{
    match given.trial {
        None if given.explain => Some(Mode::Explain),
        None => Some(Mode::Plain),
        Some(_) if given.explain => None,
        Some(text) => match number(text) {
            Some(lines) if lines <= MOST_TRIAL_LINES as u64 => Some(Mode::Trial(lines as u32)),
            _ => None,
        },
    }
}

// Whether all that is given goes with the mode.
fn goes_with(mode: Mode, query: &QuerySource<'_>, given: &Given<'_>) -> bool
    ensures { result ≡ mode_goes_with mode (query_view query.now) (given_view given.now) }
{
    match mode {
        Mode::Plain => !names_input_twice(query, document_asked(given)),
        Mode::Explain | Mode::Trial(_) => has_no_page(given),
    }
}

// Whether nothing is said of a page and of a document.
fn has_no_page(given: &Given<'_>) -> bool
    ensures { result ≡ no_page (given_view given.now) }
{
    given.limit.is_none()
        && given.after.is_none()
        && given.form.is_none()
        && !given.texts
        && given.document.is_none()
}

fn document_asked<'a>(given: &Given<'a>) -> &'a str
    ensures { result.now ≡ document_of (given_view given.now).document }
{
    given.document.unwrap_or("-")
}

// The text of the cursor, unless it is the word for the place before all rows.
fn cursor_asked<'a>(given: &Given<'a>) -> Option<&'a str>
    ensures { option_map (λ s. s.now) result ≡ cursor_of (given_view given.now).after }
{
    match given.after {
        Some(text) if text != "start" => Some(text),
        _ => None,
    }
}

fn names_input_twice(query: &QuerySource<'_>, document: &str) -> bool
    ensures { result ≡ input_twice (query_view query.now) document.now }
{
    match query {
        QuerySource::Given(_) => false,
        QuerySource::Named(name) => *name == "-" && document == "-",
    }
}
