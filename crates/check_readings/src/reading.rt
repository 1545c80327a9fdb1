//! The readings of a query's documents against their definition.
ghost use Rattle.std.specs.Prelude.{◌≡◌, ◌<◌, ◌≤◌, ℕ, length, IfOk};
ghost use Rattle.span_core.specs.Intervals.{Covers};
ghost use Rattle.check_cases.specs.declared.TheConstants.{MOST_BYTES};

use crate::checking::Tally;
use crate::definition::words_by_definition;
use crate::fault::Fault;
use crate::pieces::check_pieces;
use crate::words::{Block, words_of};
use check_cases::MOST_BYTES;
use marked_automaton::Automaton;
use one_pass::read_rows;
use set_table::Table;
use span_core::{OutOfMemory, Steps, Touched};
use std::alloc::Global;
use std::marker::Brand;
use std::sync::ledger::{Blank, Ledger};

/// The limit of the tables' weight.
pub(crate) const LIMIT: u64 = 1_000_000;

/// Checks the readings of a document of `len` bytes: one at each set of positions, and at all of them those in
/// two pieces.
pub(crate) fn check_readings(
    alloc: Global,
    automaton: &Automaton,
    document: &[u8],
    len: u32,
) -> Result<Tally, Fault>
    requires len { length document.now ≡ len }
    requires short { len ≤ MOST_BYTES }
{
    let all = (1u32 << (len + 1)) - 1;
    for positions in 0..all {
        check_reading(alloc, automaton, document, len, positions)?;
    }
    let words = check_reading(alloc, automaton, document, len, all)?;
    Ok(Tally {
        readings: all as usize + 1,
        pieces: check_pieces(alloc, automaton, document, &words)?,
        ..Tally::none()
    })
}

/// Checks one reading of a document of `len` bytes, and gives its words.
fn check_reading(
    alloc: Global,
    automaton: &Automaton,
    document: &[u8],
    len: u32,
    positions: u32,
) -> Result<Vec<Vec<Block>>, Fault>
    requires len { length document.now ≡ len }
    requires short { len ≤ MOST_BYTES }
{
    let read = words_read::<Brand>(alloc, Blank::new(1), automaton, document, positions)?;
    let defined = words_by_definition(alloc, automaton, document, positions)?;
    if read != defined {
        return Err(Fault::Words {
            document: document.to_vec(alloc)?,
            positions,
            read,
            defined,
        });
    }
    Ok(read)
}

/// The words with which one pass reads a document at the positions whose bits are set.
fn words_read<L: Ledger>(
    alloc: Global,
    blank: Blank,
    automaton: &Automaton,
    document: &[u8],
    positions: u32,
) -> Result<Vec<Vec<Block>>, Fault>
    requires name { blank.name ≡ L.name }
    requires parts { blank.parts ≡ L.parts }
    requires some { 0 < L.parts }
    requires short { length document.now ≤ MOST_BYTES }
{
    let mut steps = Steps::<L>::new(blank);
    let chosen = chosen_positions(alloc, document.len() as u32, positions)?;
    let mut table = Table::new(alloc, automaton, LIMIT, &mut steps)?;
    let lists = read_rows(alloc, &mut table, document, &chosen, &mut steps)?;
    words_of(alloc, &lists, &mut steps)
}

/// The positions from 0 to `n` whose bits are set.
fn chosen_positions(alloc: Global, n: u32, positions: u32) -> Result<Touched, OutOfMemory>
    requires { n ≤ MOST_BYTES }
    ensures { IfOk result (λ chosen. (q : ℕ) → Covers chosen q → q ≤ n) }
{
    let mut chosen = Touched::new(alloc);
    for at in 0..=n {
        if at < 32 && positions & (1 << at) != 0 {
            chosen.add(at)?;
        }
    }
    Ok(chosen)
}
