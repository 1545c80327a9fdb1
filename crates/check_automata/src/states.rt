//! How many states of a query's automaton are spent and how many are lasting, as worked out by hand.
ghost use Rattle.spanner_model.specs.ExprView.{query_of};
ghost use Rattle.spanner_model.specs.Sound.{IsSound};

use crate::fault::Fault;
use marked_automaton::Automaton;
use query_automaton::compile;
use query_parser::read_query;
use settled_states::{lasting_states, unspent_states};
use spanner_model::Query;
use std::alloc::Global;

/// How many states an automaton has, how many of them are spent, and how many are lasting.
#[derive(Clone, Copy, Debug, PartialEq, Eq)]
pub(crate) struct Settled {
    states: u32,
    spent: usize,
    lasting: usize,
}

/// A query, and what is so of its automaton.
pub(crate) struct Settling {
    pub text: &'static str,
    settled: Settled,
}

/// The state behind an atom and its last place are lasting, if the atom is not tied to the end. They are spent, if no capture ends
/// there. Of a difference a state is lasting only where no text takes the row away any more.
pub static SETTLING: [Settling; 10] = [
    Settling {
        text: "/a/",
        settled: Settled {
            states: 3,
            spent: 3,
            lasting: 2,
        },
    },
    Settling {
        text: "/!x{a}/",
        settled: Settled {
            states: 3,
            spent: 1,
            lasting: 1,
        },
    },
    Settling {
        text: "/!x{a}b/",
        settled: Settled {
            states: 4,
            spent: 2,
            lasting: 2,
        },
    },
    Settling {
        text: "/!x{a}b$/",
        settled: Settled {
            states: 3,
            spent: 1,
            lasting: 0,
        },
    },
    Settling {
        text: "/!x{a}b.*$/",
        settled: Settled {
            states: 4,
            spent: 2,
            lasting: 0,
        },
    },
    Settling {
        text: "/!x{a}|b/",
        settled: Settled {
            states: 4,
            spent: 2,
            lasting: 2,
        },
    },
    Settling {
        text: "/!x{a}b/ union /!x{c}d/",
        settled: Settled {
            states: 8,
            spent: 4,
            lasting: 4,
        },
    },
    Settling {
        text: "/!x{a}b/ join /!x{.}/",
        settled: Settled {
            states: 4,
            spent: 2,
            lasting: 2,
        },
    },
    Settling {
        text: "/!x{a}/ minus /!x{a}b/",
        settled: Settled {
            states: 3,
            spent: 1,
            lasting: 1,
        },
    },
    Settling {
        text: "/!x{a}/ minus /!x{a}[^b]*b/",
        settled: Settled {
            states: 3,
            spent: 1,
            lasting: 0,
        },
    },
];

/// Checks the states of a query's automaton.
pub(crate) fn check_settling(alloc: Global, one: &Settling) -> Result<(), Fault> {
    let query = read_query(alloc, one.text.as_bytes())?;
    let settled = settled_of_query(alloc, &query)?;
    if settled == one.settled {
        Ok(())
    } else {
        Err(Fault::Settled(settled))
    }
}

fn settled_of_query(alloc: Global, query: &Query) -> Result<Settled, Fault>
    requires { IsSound (query_of query.now) }
{
    let compiled = compile(alloc, query)?;
    settled_of(alloc, compiled.automaton())
}

fn settled_of(alloc: Global, automaton: &Automaton) -> Result<Settled, Fault> {
    let unspent = unspent_states(alloc, automaton)?;
    let lasting = lasting_states(alloc, automaton)?;
    Ok(Settled {
        states: automaton.states(),
        spent: unspent.iter().filter(|flag| !**flag).count(),
        lasting: lasting.iter().filter(|flag| **flag).count(),
    })
}
