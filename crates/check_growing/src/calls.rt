//! The calls that the cases make, each with the fault of a case.
ghost use Rattle.std.specs.Prelude.{◌≤◌};
ghost use Rattle.spanner_model.specs.ExprView.{query_of};
ghost use Rattle.spanner_model.specs.Sound.{IsSound};

use crate::fault::Fault;
use enumerator::Enumerator;
use growing_document::{GrowFault, Growing};
use query_parser::read_query;
use span_core::Steps;
use spanner_engine::{Answers, Compiled, Options, begin, compile};
use spanner_model::Query;
use std::alloc::Global;
use std::sync::ledger::Ledger;

/// The limit of weight, where a case has no other.
pub(crate) const LIMIT: u64 = 1_000_000;

/// The greatest limit that there is.
const MOST_LIMIT: u64 = 100_000_000;

/// The longest document.
pub(crate) const MOST_BYTES: usize = 268_435_456;

/// A document of no byte, which is read by the automaton of the query of this text.
pub(crate) fn begin_text<L: Ledger>(
    alloc: Global,
    text: &str,
    limit: u64,
    steps: &mut Steps<L>,
) -> Result<Growing, Fault> {
    let query = read_query(alloc, text.as_bytes())?;
    begin_query(alloc, &query, limit, steps)
}

/// A document of no byte, which is read by the automaton of this query.
pub(crate) fn begin_query<L: Ledger>(
    alloc: Global,
    query: &Query,
    limit: u64,
    steps: &mut Steps<L>,
) -> Result<Growing, Fault>
    requires { IsSound (query_of query.now) }
{
    let compiled = compile(alloc, query)?;
    Ok(begin_compiled(alloc, compiled, limit.min(MOST_LIMIT), steps)?)
}

fn begin_compiled<L: Ledger>(
    alloc: Global,
    compiled: Compiled<'_>,
    limit: u64,
    steps: &mut Steps<L>,
) -> Result<Growing, GrowFault>
    requires { limit ≤ 100000000 }
{
    let automaton = compiled.into_automaton();
    Growing::new(alloc, automaton, limit, steps)
}

/// Puts a piece behind a document.
pub(crate) fn append<L: Ledger>(
    growing: &mut Growing,
    piece: &[u8],
    steps: &mut Steps<L>,
) -> Result<(), Fault> {
    growing.append(piece, steps)?;
    Ok(())
}

/// The rows of a document so far.
pub(crate) fn rows<L: Ledger>(
    growing: &mut Growing,
    steps: &mut Steps<L>,
) -> Result<Enumerator, Fault> {
    Ok(growing.rows(steps)?)
}

/// What the engine gives for a whole document.
pub(crate) fn answers<L: Ledger>(
    alloc: Global,
    compiled: &Compiled<'_>,
    document: &[u8],
    limit: u64,
    steps: &mut Steps<L>,
) -> Result<Answers, Fault> {
    if document.len() > MOST_BYTES {
        return Err(Fault::TooLong);
    }
    let options = Options {
        filter: false,
        limit: limit.min(MOST_LIMIT),
    };
    Ok(begin(alloc, compiled, document, None, options, steps)?)
}
