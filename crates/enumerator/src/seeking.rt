//! To the first row after a given one.
//!
//! The lists are gone down beside the blocks of the given row: cells that stand before its next block are passed over,
//! one that is equal is gone into, and its neighbours wait. Each cell is looked at once at most.
ghost use Rattle.std.specs.Prelude.{◌≡◌, ℕ, ◌+◌, ◌*◌, ◌<◌, ◌≤◌, ◌⊎◌, IsTrue, ◌↔◌, List, Option, [], ◌∷◌, ◌++◌, length, MatchOption};
ghost use Rattle.span_core.specs.Lists.{Has};
ghost use Rattle.output_graph.specs.Listed.{AreLists};
ghost use Rattle.node_arena.specs.Words.{Word};
ghost use Rattle.node_arena.specs.Rows.{rows};
ghost use Rattle.enumerator.specs.Enumeration.{IsRestAfter, IsWordOfRow};
ghost use Rattle.enumerator.specs.Rows.{positions_of, rows_of, waiting_rows};
ghost use Rattle.enumerator.specs.Seeking.{HasNoBlock, IsNextBlock, earlier_of};
ghost use Rattle.enumerator.specs.Waiting.{AreStacked};

use crate::positions::{MOST_MARKERS, place};
use crate::stack::{MOST_WAITING, Stack};
use crate::walking::wait;
use node_arena::{Entry, RowCell};
use output_graph::RowLists;
use span_core::{MOST_VARIABLES, Marks, Row, Steps};
use std::sync::ledger::Ledger;

/// The rows of `lists` that stand after the row `after` wait then, and no others.
pub(crate) fn seek_row<L: Ledger>(
    lists: &RowLists,
    v: usize,
    after: &Row,
    positions: &mut [u32; MOST_MARKERS],
    stack: &mut Stack,
    steps: &mut Steps<L>,
)
    requires few { v ≤ MOST_VARIABLES }
    requires variables { length after.now ≡ v }
    requires sound { AreLists lists.now }
    requires words { (w : Word) → Has (rows lists.now.store lists.now.first) w → IsWordOfRow v w }
    ensures stacked { AreStacked lists.now.store v stack.new }
    ensures rest { IsRestAfter after.now (rows_of lists.now v) (waiting_rows lists.now.store v (positions_of positions.new) stack.new) }
    ensures steps { steps.new ≤ steps.old + length lists.now.store }
{
    stack.clear();
    let mut settled = Marks::none();
    let mut entry = lists.first();
    let mut sought = next_block(after, 0);
    while let Some(block) = sought {
        let Entry::Row(id) = entry else {
            wait(stack, settled, entry);
            return;
        };
        let cell = lists.at(id, steps);
        let own = Block {
            at: cell.at,
            number: cell.marks.number(),
        };
        if stands_before(block, own) {
            wait(stack, settled, entry);
            return;
        }
        if stands_before(own, block) {
            entry = cell.next;
        } else {
            wait(stack, settled, cell.next);
            let marks = Marks::of(block.number);
            place(positions, block.at, marks);
            settled = settled.with(marks);
            entry = cell.child;
            sought = next_block(after, u64::from(block.at) + 1);
        }
    }
}

/// The markers of a row at a position, as a number.
#[derive(Clone, Copy)]
struct Block {
    at: u32,
    number: u64,
}

/// Whether rows with the block `a` come before those with the block `b` in its place.
fn stands_before(a: Block, b: Block) -> bool
    ensures { IsTrue result ↔ ((a.at < b.at) ⊎ ((a.at ≡ b.at) × (b.number < a.number))) }
{
    a.at < b.at || (a.at == b.at && b.number < a.number)
}

/// The first block of a row from a position on.
fn next_block(row: &Row, from: u64) -> Option<Block>
    ensures { MatchOption result (HasNoBlock row.now from) (λ block. IsNextBlock row.now from (block.at, block.number)) }
{
    let mut first = None;
    for k in 0..row.len() {
        if let Some(span) = row.at(k) {
            first = earlier(from, first, span.start);
            first = earlier(from, first, span.end);
        }
    }
    match first {
        None => None,
        Some(at) => Some(Block {
            at,
            number: row.marks_at(at).number(),
        }),
    }
}

/// The lesser of two positions, without those before `from`.
fn earlier(from: u64, first: Option<u32>, at: u32) -> Option<u32>
    ensures { result ≡ earlier_of from first at }
{
    match first {
        None => { if u64::from(at) < from { None } else { Some(at) } }
        Some(first) => {
            if u64::from(at) < from || first <= at {
                Some(first)
            } else {
                Some(at)
            }
        }
    }
}
