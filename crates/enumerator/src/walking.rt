//! From one row to the next.
//!
//! What waits lies on a stack, the next row's part on top. Going down from it, each cell's neighbours wait and its
//! markers are written into their positions: as many cells as the row has markers, whatever the document's size.
ghost use Rattle.std.specs.Prelude.{◌≡◌, ℕ, ◌+◌, ◌*◌, ◌<◌, ◌≤◌, List, Option, [], ◌∷◌, ◌++◌, length, take};
ghost use Rattle.std.specs.Bool.{OnTrue, OnFalse};
ghost use Rattle.span_core.specs.Lists.{Has};
ghost use Rattle.output_graph.specs.Listed.{AreLists};
ghost use Rattle.enumerator.specs.Rows.{positions_of, rows_under, row_of as row_by, waiting_rows};
ghost use Rattle.enumerator.specs.Waiting.{AreBelow, AreStacked, IsWaiting, left, waited};
ghost use Rattle.node_arena.specs.declared.row.Entry.TheVariants.{Done};
ghost use Rattle.enumerator.specs.declared.stack.TheConstants.{MOST_WAITING};

use crate::positions::{MOST_MARKERS, ReadRow, place, put_end, read_spans};
use crate::stack::{MOST_WAITING, Stack, Waiting};
use node_arena::Entry;
use output_graph::RowLists;
use span_core::{MOST_VARIABLES, Marks, Steps};
use std::sync::ledger::Ledger;

/// Reads the first row of what waits, which no longer waits then; false where nothing waits. Where it is the last
/// read row with another end of one variable, that end alone is written.
pub(crate) fn next_row<L: Ledger>(
    lists: &RowLists,
    v: usize,
    row: &mut ReadRow,
    stack: &mut Stack,
    steps: &mut Steps<L>,
) -> bool
    requires few { v ≤ MOST_VARIABLES }
    requires sound { AreLists lists.now }
    requires stacked { AreStacked lists.now.store v stack.old }
    requires row { take v row.old.spans ≡ row_by v row.old.settled (positions_of row.old.positions) }
    ensures stacked { AreStacked lists.now.store v stack.new }
    ensures row { take v row.new.spans ≡ row_by v row.new.settled (positions_of row.new.positions) }
    ensures next { OnTrue result (waiting_rows lists.now.store v (positions_of row.old.positions) stack.old
        ≡ take v row.new.spans ∷ waiting_rows lists.now.store v (positions_of row.new.positions) stack.new) }
    ensures none { OnFalse result ((stack.old ≡ []) × (stack.new ≡ []) × (row.new.spans ≡ row.old.spans)) }
    ensures steps { steps.new ≤ steps.old + 2 * v }
{
    let Some(waiting) = stack.pop() else {
        return false;
    };
    let (before, entry) = (waiting.settled, waiting.entry);
    let Entry::Row(id) = entry else {
        row.settled = before;
        read_spans(v, before, &row.positions, &mut row.spans);
        return true;
    };
    let cell = lists.at(id, steps);
    wait(stack, before, cell.next);
    let begun = before.with(cell.marks);
    if is_done(cell.child) && begun.number() == row.settled.number() {
        if put_end(
            v,
            begun,
            cell.at,
            cell.marks,
            &mut row.positions,
            &mut row.spans,
        ) {
            return true;
        }
    }
    place(&mut row.positions, cell.at, cell.marks);
    let first = Waiting {
        settled: begun,
        entry: cell.child,
    };
    let settled = settle(lists, v, first, &mut row.positions, stack, steps);
    row.settled = settled;
    read_spans(v, settled, &row.positions, &mut row.spans);
    true
}

/// Whether the entry is the empty row alone.
#[inline(always)]
pub(crate) fn is_done(entry: Entry) -> bool
    ensures { OnTrue result (entry ≡ Done) }
{
    match entry {
        Entry::Done => true,
        _ => false,
    }
}

/// Settles the markers of the first row of `first` under those that are settled, and tells which it has; its other rows wait then.
fn settle<L: Ledger>(
    lists: &RowLists,
    v: usize,
    first: Waiting,
    positions: &mut [u32; MOST_MARKERS],
    stack: &mut Stack,
    steps: &mut Steps<L>,
) -> Marks
    requires few { v ≤ MOST_VARIABLES }
    requires sound { AreLists lists.now }
    requires waits { IsWaiting lists.now.store v first }
    requires below { AreBelow lists.now.store v first.settled stack.old }
    ensures stacked { AreStacked lists.now.store v stack.new }
    ensures row { rows_under lists.now.store v (positions_of positions.old) first ++ waiting_rows lists.now.store v
        (positions_of positions.old) stack.old
        ≡ row_by v result (positions_of positions.new) ∷ waiting_rows lists.now.store v (positions_of positions.new) stack.new }
    ensures steps { steps.new ≤ steps.old + left v first.settled }
{
    let mut settled = first.settled;
    let mut entry = first.entry;
    while let Entry::Row(id) = entry {
        let cell = lists.at(id, steps);
        wait(stack, settled, cell.next);
        place(positions, cell.at, cell.marks);
        settled = settled.with(cell.marks);
        entry = cell.child;
    }
    settled
}

/// The rows of `entry`, if it has any, wait under these settled markers.
pub(crate) fn wait(stack: &mut Stack, settled: Marks, entry: Entry)
    requires { length stack.old < MOST_WAITING }
    ensures { stack.new ≡ waited settled entry stack.old }
{
    if let Entry::Nothing = entry {
        return;
    }
    stack.push(Waiting { settled, entry });
}
