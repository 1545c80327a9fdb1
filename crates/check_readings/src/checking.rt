//! All that is checked of a query.
ghost use Rattle.std.specs.Prelude.{◌≡◌, ◌<◌, ◌≤◌, length};
ghost use Rattle.spanner_model.specs.ExprView.{query_of};
ghost use Rattle.spanner_model.specs.Sound.{IsSound};

use crate::fault::Fault;
use crate::reading::check_readings;
use check_cases::{MOST_BYTES, document_of, number_of_documents};
use marked_automaton::Automaton;
use query_automaton::compile;
use query_parser::read_query;
use spanner_model::Query;
use std::alloc::Global;

/// What was checked.
#[derive(Clone, Copy)]
pub(crate) struct Tally {
    pub queries: usize,
    /// The documents that were read, each at each set of positions.
    pub readings: usize,
    /// The readings of a document in two pieces, at all positions.
    pub pieces: usize,
}

impl Tally {
    pub(crate) fn none() -> Tally {
        Tally {
            queries: 0,
            readings: 0,
            pieces: 0,
        }
    }

    /// Both together.
    pub(crate) fn plus(self, other: Tally) -> Tally {
        Tally {
            queries: self.queries.saturating_add(other.queries),
            readings: self.readings.saturating_add(other.readings),
            pieces: self.pieces.saturating_add(other.pieces),
        }
    }
}

/// Checks the query of a text on all short documents of these bytes.
pub(crate) fn check_text(alloc: Global, bytes: &[u8], text: &str) -> Result<Tally, Fault>
    requires { 0 < length bytes.now }
{
    let query = read_query(alloc, text.as_bytes())?;
    check_query(alloc, bytes, &query)
}

/// The automaton of a text's query.
pub(crate) fn automaton_of(alloc: Global, text: &[u8]) -> Result<Automaton, Fault> {
    let query = read_query(alloc, text)?;
    let compiled = compile(alloc, &query)?;
    Ok(compiled.into_automaton())
}

fn check_query(alloc: Global, bytes: &[u8], query: &Query) -> Result<Tally, Fault>
    requires sound { IsSound (query_of query.now) }
    requires bytes { 0 < length bytes.now }
{
    let compiled = compile(alloc, query)?;
    check_documents(alloc, bytes, compiled.automaton())
}

fn check_documents(alloc: Global, bytes: &[u8], automaton: &Automaton) -> Result<Tally, Fault>
    requires { 0 < length bytes.now }
{
    let mut tally = Tally {
        queries: 1,
        ..Tally::none()
    };
    for len in 0..=MOST_BYTES {
        for number in 0..number_of_documents(bytes, len) {
            let document = document_of(alloc, bytes, len, number)?;
            tally = tally.plus(check_readings(alloc, automaton, &document, len)?);
        }
    }
    Ok(tally)
}
