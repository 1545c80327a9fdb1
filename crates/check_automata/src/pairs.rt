//! What two automata accept, and what is made of both accepts.
ghost use Rattle.std.specs.Prelude.{◌≡◌, [], IfOk};
ghost use Rattle.spanner_model.specs.ExprView.{query_of};
ghost use Rattle.spanner_model.specs.Sound.{IsSound};

use crate::fault::Fault;
use algebra::{Effort, join, join_within, project, union, unite};
use algebra_minus::{minus, minus_within};
use check_cases::{MOST_BYTES, Pair, document_of, number_of_documents};
use marked_automaton::Automaton;
use query_automaton::compile;
use query_parser::read_query;
use span_core::{Row, VarSet};
use spanner_model::Query;
use std::alloc::Global;

/// The bytes of the documents.
const BYTES: &[u8] = b"ab";

/// The work that an operation may take.
const ENOUGH: u64 = 1_000_000;

/// How an automaton is made of two.
#[derive(Clone, Copy, Debug, PartialEq, Eq)]
pub(crate) enum Operation {
    Union,
    UnionInPlace,
    Join,
    JoinWithin,
    Minus,
    MinusWithin,
    /// A copy of the first, with its ways grouped, and trimmed.
    Copy,
    /// The first from its end to its start.
    Reverse,
}

/// An automaton that is made of two.
#[derive(Drop)]
struct Made {
    operation: Operation,
    automaton: Automaton,
}

/// Checks what is made of two queries on all short documents, and gives how many automata and documents were tried.
pub(crate) fn check_pair(alloc: Global, pair: Pair) -> Result<usize, Fault> {
    let first = bare(alloc, pair.first)?;
    let second = bare(alloc, pair.second)?;
    let made = made_of(alloc, &first, &second)?;
    let mut tried: usize = 0;
    for len in 0..=MOST_BYTES {
        for number in 0..number_of_documents(BYTES, len) {
            let document = document_of(alloc, BYTES, len, number)?;
            check_document(alloc, &first, &second, &made, &document)?;
            tried = tried.saturating_add(made.len());
        }
    }
    Ok(tried)
}

/// The automaton of a text's query with its variables forgotten.
fn bare(alloc: Global, text: &str) -> Result<Automaton, Fault>
    ensures { IfOk result (λ a. a.names ≡ []) }
{
    let query = read_query(alloc, text.as_bytes())?;
    bare_of(alloc, &query)
}

fn bare_of(alloc: Global, query: &Query) -> Result<Automaton, Fault>
    requires { IsSound (query_of query.now) }
    ensures { IfOk result (λ a. a.names ≡ []) }
{
    let compiled = compile(alloc, query)?;
    Ok(project(alloc, compiled.automaton(), &VarSet::empty())?)
}

/// All that is made of two automata of no variable.
fn made_of(alloc: Global, a: &Automaton, b: &Automaton) -> Result<Vec<Made>, Fault>
    requires first { a.now.names ≡ [] }
    requires second { b.now.names ≡ [] }
{
    let mut made = Vec::new(alloc);
    put(&mut made, Operation::Union, union(alloc, a, b)?)?;
    put(
        &mut made,
        Operation::UnionInPlace,
        unite(alloc, a.copy(alloc)?, b)?,
    )?;
    put(&mut made, Operation::Join, join(alloc, a, b)?)?;
    let mut effort = Effort::new(ENOUGH);
    put(
        &mut made,
        Operation::JoinWithin,
        join_within(alloc, a, b, &mut effort)?,
    )?;
    put(&mut made, Operation::Minus, minus(alloc, a, b)?)?;
    put(
        &mut made,
        Operation::MinusWithin,
        minus_within(alloc, a, b, &mut effort)?,
    )?;
    let mut copy = a.copy(alloc)?;
    copy.group_ways(alloc)?;
    put(&mut made, Operation::Copy, copy.trim(alloc)?)?;
    put(&mut made, Operation::Reverse, reversed(alloc, a)?)?;
    Ok(made)
}

fn put(made: &mut Vec<Made>, operation: Operation, automaton: Automaton) -> Result<(), Fault> {
    made.push(Made {
        operation,
        automaton,
    })?;
    Ok(())
}

fn reversed(alloc: Global, a: &Automaton) -> Result<Automaton, Fault>
    requires { a.now.names ≡ [] }
{
    // What `states` says holds: no way and no end has markers.
    let _whole = a.states();
    Ok(a.reverse(alloc)?)
}

/// Checks all that is made of two automata on a document.
fn check_document(
    alloc: Global,
    a: &Automaton,
    b: &Automaton,
    made: &[Made],
    document: &[u8],
) -> Result<(), Fault> {
    let mut turned = document.to_vec(alloc)?;
    turned.reverse();
    let first = accepts(alloc, a, document)?;
    let second = accepts(alloc, b, document)?;
    for one in made {
        let (accepted, wanted) = match one.operation {
            Operation::Reverse => (accepts(alloc, &one.automaton, &turned)?, first),
            operation => (
                accepts(alloc, &one.automaton, document)?,
                is_wanted(operation, first, second),
            ),
        };
        if accepted != wanted {
            return Err(Fault::Made {
                operation: one.operation,
                document: document.to_vec(alloc)?,
            });
        }
    }
    Ok(())
}

/// Whether what is made of two is to accept a document, by whether they do.
fn is_wanted(operation: Operation, first: bool, second: bool) -> bool {
    match operation {
        Operation::Union | Operation::UnionInPlace => first || second,
        Operation::Join | Operation::JoinWithin => first && second,
        Operation::Minus | Operation::MinusWithin => first && !second,
        Operation::Copy | Operation::Reverse => first,
    }
}

/// Whether the automaton has no variable and accepts the document.
fn accepts(alloc: Global, automaton: &Automaton, document: &[u8]) -> Result<bool, Fault> {
    if automaton.vars().len() > 0 {
        return Ok(false);
    }
    Ok(automaton.accepts(alloc, &Row::empty(), document)?)
}
