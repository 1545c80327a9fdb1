//! The sizes of large queries.
ghost use Rattle.spanner_model.specs.ExprView.{query_of};
ghost use Rattle.spanner_model.specs.Sound.{IsSound};

use crate::fault::Fault;
use marked_automaton::SizeFault;
use place_automaton::count;
use query_automaton::compile;
use query_parser::read_query;
use spanner_model::{Expr, Query};
use std::alloc::Global;
use std::fmt;

/// What becomes of a query.
#[derive(Clone, Copy)]
pub(crate) enum Size {
    /// Its automaton has so many states and ways.
    Compiled { states: u32, ways: usize },
    /// It is refused, with so many states.
    States { count: u64 },
    /// It is refused, with so many ways.
    Ways { count: u64 },
}

impl fmt::Display for Size {
    fn fmt<W: fmt::Write>(&self, f: &mut fmt::Formatter<W>) -> fmt::Result {
        match self {
            Size::Compiled { states, ways } => write!(f, "compiled: states {states} ways {ways}"),
            Size::States { count } => write!(f, "refused: states {count}"),
            Size::Ways { count } => write!(f, "refused: ways {count}"),
        }
    }
}

/// The states and ways of an atom's automaton as they are counted, and never made.
#[derive(Clone, Copy)]
pub(crate) struct Counted {
    pub states: u64,
    pub ways: u64,
}

/// What becomes of the query of a text.
pub(crate) fn size_of_text(alloc: Global, text: &str) -> Result<Size, Fault> {
    let query = read_query(alloc, text.as_bytes())?;
    size_of_query(alloc, &query)
}

fn size_of_query(alloc: Global, query: &Query) -> Result<Size, Fault>
    requires { IsSound (query_of query.now) }
{
    match compile(alloc, query) {
        Ok(compiled) => Ok(Size::Compiled {
            states: compiled.automaton().states(),
            ways: compiled.automaton().ways().len(),
        }),
        Err(SizeFault::States { count }) => Ok(Size::States { count }),
        Err(SizeFault::Ways { count }) => Ok(Size::Ways { count }),
        Err(SizeFault::OutOfMemory) => Err(Fault::OutOfMemory),
    }
}

/// The numbers of the text's query, where it is one atom.
pub(crate) fn counted_of_text(alloc: Global, text: &str) -> Result<Option<Counted>, Fault> {
    let query = read_query(alloc, text.as_bytes())?;
    let Expr::Atom(atom) = &query.body else {
        return Ok(None);
    };
    let counts = count(alloc, atom)?;
    Ok(Some(Counted {
        states: counts.states,
        ways: counts.ways,
    }))
}
