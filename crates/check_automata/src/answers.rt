//! The automata of queries against their answers.
ghost use Rattle.std.specs.Prelude.{◌≡◌, ◌<◌, ◌≤◌, length};
ghost use Rattle.spanner_model.specs.ExprView.{query_of};
ghost use Rattle.spanner_model.specs.Sound.{IsSound};
ghost use Rattle.check_cases.specs.declared.TheConstants.{MOST_BYTES};

use crate::fault::Fault;
use crate::rows::{number_of_rows, row_of, spans_within};
use check_cases::{MOST_BYTES, document_of, number_of_documents};
use marked_automaton::Automaton;
use plain_spanner::all;
use query_automaton::compile;
use query_parser::read_query;
use spanner_model::Query;
use std::alloc::Global;

/// What was checked.
#[derive(Clone, Copy)]
pub(crate) struct Tally {
    pub queries: usize,
    /// The rows that were tried, each on each document.
    pub rows: usize,
    /// Those of them that are answers.
    pub answers: usize,
}

impl Tally {
    pub(crate) fn none() -> Tally {
        Tally {
            queries: 0,
            rows: 0,
            answers: 0,
        }
    }

    /// Both together.
    pub(crate) fn plus(self, other: Tally) -> Tally {
        Tally {
            queries: self.queries.saturating_add(other.queries),
            rows: self.rows.saturating_add(other.rows),
            answers: self.answers.saturating_add(other.answers),
        }
    }
}

/// Checks the query of a text on all short documents of these bytes.
pub(crate) fn check_text(alloc: Global, bytes: &[u8], text: &str) -> Result<Tally, Fault>
    requires { 0 < length bytes.now }
{
    let query = read_query(alloc, text.as_bytes())?;
    check_query(alloc, bytes, &query)
}

fn check_query(alloc: Global, bytes: &[u8], query: &Query) -> Result<Tally, Fault>
    requires sound { IsSound (query_of query.now) }
    requires bytes { 0 < length bytes.now }
{
    let compiled = compile(alloc, query)?;
    check_documents(alloc, bytes, query, compiled.automaton())
}

fn check_documents(
    alloc: Global,
    bytes: &[u8],
    query: &Query,
    automaton: &Automaton,
) -> Result<Tally, Fault>
    requires sound { IsSound (query_of query.now) }
    requires bytes { 0 < length bytes.now }
{
    let mut tally = Tally {
        queries: 1,
        ..Tally::none()
    };
    for len in 0..=MOST_BYTES {
        for number in 0..number_of_documents(bytes, len) {
            let document = document_of(alloc, bytes, len, number)?;
            tally = tally.plus(check_rows(alloc, query, automaton, &document, len)?);
        }
    }
    Ok(tally)
}

/// Checks all rows on a document of `len` bytes.
fn check_rows(
    alloc: Global,
    query: &Query,
    automaton: &Automaton,
    document: &[u8],
    len: u32,
) -> Result<Tally, Fault>
    requires sound { IsSound (query_of query.now) }
    requires len { length document.now ≡ len }
    requires short { len ≤ MOST_BYTES }
{
    let answers = all(alloc, query, document)?;
    let spans = spans_within(alloc, len)?;
    let variables = automaton.vars().len();
    let rows = number_of_rows(&spans, variables as u32);
    let mut accepted: usize = 0;
    for number in 0..rows {
        let row = row_of(&spans, variables, number);
        let accepts = automaton.accepts(alloc, &row, document)?;
        if accepts != answers.contains(&row) {
            let document = document.to_vec(alloc)?;
            return Err(Fault::Row {
                document,
                row,
                accepted: accepts,
            });
        }
        accepted = accepted.saturating_add(usize::from(accepts));
    }
    if accepted != answers.len() {
        let document = document.to_vec(alloc)?;
        return Err(Fault::Number {
            document,
            accepted,
            answers: answers.len(),
        });
    }
    Ok(Tally {
        rows,
        answers: accepted,
        ..Tally::none()
    })
}
