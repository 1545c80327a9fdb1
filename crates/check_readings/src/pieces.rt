//! Documents that are read in two pieces.
ghost use Rattle.std.specs.Prelude.{◌≡◌, ◌+◌, ◌<◌, ◌≤◌, length};
ghost use Rattle.check_cases.specs.declared.TheConstants.{MOST_BYTES};

use crate::fault::Fault;
use crate::reading::LIMIT;
use crate::words::{Block, words_of};
use check_cases::MOST_BYTES;
use marked_automaton::Automaton;
use one_pass::{advance, finish};
use output_graph::{OutputGraph, RowLists};
use set_table::Table;
use span_core::Steps;
use std::alloc::Global;
use std::marker::Brand;
use std::sync::ledger::{Blank, Ledger};

/// Checks that a document has the same words where it is read in two pieces, wherever it is cut, and gives the
/// number of cuts.
pub(crate) fn check_pieces(
    alloc: Global,
    automaton: &Automaton,
    document: &[u8],
    whole: &Vec<Vec<Block>>,
) -> Result<usize, Fault>
    requires short { length document.now ≤ MOST_BYTES }
{
    for cut in 0..=document.len() {
        let pieces = document.split_at(cut);
        let read = words_in_pieces::<Brand>(alloc, Blank::new(1), automaton, pieces)?;
        if read != *whole {
            return Err(Fault::Pieces {
                document: document.to_vec(alloc)?,
                cut,
                read,
                whole: whole.clone()?,
            });
        }
    }
    Ok(document.len() + 1)
}

/// The words of a document that is read in these two pieces.
fn words_in_pieces<L: Ledger>(
    alloc: Global,
    blank: Blank,
    automaton: &Automaton,
    pieces: (&[u8], &[u8]),
) -> Result<Vec<Vec<Block>>, Fault>
    requires name { blank.name ≡ L.name }
    requires parts { blank.parts ≡ L.parts }
    requires some { 0 < L.parts }
    requires short { length pieces.0.now + length pieces.1.now ≤ MOST_BYTES }
{
    let mut steps = Steps::<L>::new(blank);
    let mut table = Table::new(alloc, automaton, LIMIT, &mut steps)?;
    let listed = lists_by(alloc, &mut table, pieces, &mut steps);
    give_up(table);
    match listed {
        Ok(lists) => words_of(alloc, &lists, &mut steps),
        Err(fault) => Err(fault),
    }
}

/// The lists of the rows of a document that is read in these two pieces by a table.
fn lists_by<L: Ledger>(
    alloc: Global,
    table: &mut Table<'_>,
    pieces: (&[u8], &[u8]),
    steps: &mut Steps<L>,
) -> Result<RowLists, Fault>
    requires short { length pieces.0.now + length pieces.1.now ≤ MOST_BYTES }
{
    let (first, second) = pieces;
    let middle = first.len() as u32;
    let end = middle + second.len() as u32;
    let graph = OutputGraph::start(alloc, table.start(), steps)?;
    let graph = advance(alloc, table, graph, 0, first, steps)?;
    let graph = advance(alloc, table, graph, middle, second, steps)?;
    let graph = finish(alloc, table, graph, end, steps)?;
    Ok(graph.turn(steps))
}

/// Drops a table, here alone: what a caller has to prove grows with each of its many fields.
fn give_up(_table: Table<'_>) {}
