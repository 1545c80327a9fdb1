//! Rows that differ in the end of one span, many at once.
//!
//! Where the cell on top is a block that closes one variable, with the empty row behind it, and the row that was read differs from
//! it in that end alone, its neighbours often are such blocks too. They are gone along in one loop: one cell is a row.
ghost use Rattle.std.specs.Prelude.{◌≡◌, ℕ, ◌+◌, ◌*◌, ◌<◌, ◌≤◌, List, Option, [], ◌∷◌, ◌++◌, length, take, IfSome};
ghost use Rattle.output_graph.specs.Listed.{AreLists};
ghost use Rattle.enumerator.specs.Rows.{positions_of, row_of as row_by, waiting_rows};
ghost use Rattle.enumerator.specs.Waiting.{AreStacked, IsWaiting, frame};
ghost use Rattle.enumerator.specs.Ends.{AreEnds, AreTaken, IsOpenEnd, last_of, rows_to};

use crate::positions::{MOST_MARKERS, ReadRow};
use crate::stack::Stack;
use crate::walking::{is_done, wait};
use node_arena::Entry;
use output_graph::RowLists;
use span_core::{MOST_VARIABLES, Marks, Span, Steps};
use std::sync::ledger::Ledger;

/// The most rows that are gone to at once.
pub const MOST_ENDS: usize = 16;

/// Rows that differ from the one before in the end of the span at this place: so many.
#[derive(Clone, Copy)]
pub struct EndRun {
    pub place: usize,
    pub count: usize,
}

/// How many cells were gone along, the position of the last, and what stands behind it.
#[derive(Clone, Copy)]
struct Taken {
    count: usize,
    last: u32,
    later: Entry,
}

/// Goes along cells that have these markers alone, with the empty row behind each, and writes their positions.
fn take_ends<L: Ledger>(
    lists: &RowLists,
    v: usize,
    before: Marks,
    marks: Marks,
    start: u32,
    entry: Entry,
    most: usize,
    ends: &mut [u32; MOST_ENDS],
    steps: &mut Steps<L>,
) -> Taken
    requires sound { AreLists lists.now }
    requires waits { IsWaiting lists.now.store v (frame before entry) }
    requires most { most ≤ 16 }
    ensures count { result.count ≤ most }
    ensures last { start ≤ result.last }
    ensures taken { AreTaken lists.now.store v before marks start entry (take result.count ends.new) result.last result.later }
    ensures steps { steps.new ≤ steps.old + (result.count + 1) }
{
    let _v = v;
    let mut count = 0;
    let mut last = start;
    let mut later = entry;
    while count < most {
        let Entry::Row(id) = later else {
            return Taken { count, last, later };
        };
        let cell = lists.at(id, steps);
        if !is_done(cell.child) {
            return Taken { count, last, later };
        }
        if cell.marks.number() != marks.number() {
            return Taken { count, last, later };
        }
        if cell.at < start {
            return Taken { count, last, later };
        }
        ends[count] = cell.at;
        last = cell.at;
        later = cell.next;
        count += 1;
    }
    Taken { count, last, later }
}

/// What closes one variable whose span is there.
#[derive(Clone, Copy)]
struct OpenEnd {
    half: usize,
    start: u32,
}

/// The variable of `v` that these markers close, and where its span starts; None where they are others, or it has no span.
#[inline(always)]
fn open_end(v: usize, marks: Marks, spans: &[Option<Span>; MOST_VARIABLES]) -> Option<OpenEnd>
    requires few { v ≤ MOST_VARIABLES }
    ensures { IfSome result (λ o. IsOpenEnd v marks spans.now o.half o.start) }
{
    let half = marks.number().trailing_zeros() as usize / 2;
    if half >= v {
        return None;
    }
    let k = v - 1 - half;
    if marks.number() != Marks::closing(k, v).number() {
        return None;
    }
    match spans[k] {
        Some(span) => Some(OpenEnd {
            half,
            start: span.start,
        }),
        None => None,
    }
}

/// Goes to the rows that stand next and differ from the row that was read in the end of one span alone, as many as stand there up to
/// `most`, and reads the last of them. Their ends are written in order.
pub(crate) fn next_ends<L: Ledger>(
    lists: &RowLists,
    v: usize,
    row: &mut ReadRow,
    stack: &mut Stack,
    ends: &mut [u32; MOST_ENDS],
    most: usize,
    steps: &mut Steps<L>,
) -> EndRun
    requires few { v ≤ MOST_VARIABLES }
    requires most { most ≤ 16 }
    requires sound { AreLists lists.now }
    requires stacked { AreStacked lists.now.store v stack.old }
    requires row { take v row.old.spans ≡ row_by v row.old.settled (positions_of row.old.positions) }
    ensures stacked { AreStacked lists.now.store v stack.new }
    ensures row { take v row.new.spans ≡ row_by v row.new.settled (positions_of row.new.positions) }
    ensures count { result.count ≤ most }
    ensures ends { AreEnds (take v row.old.spans) result.place (take result.count ends.new) }
    ensures next { waiting_rows lists.now.store v (positions_of row.old.positions) stack.old
        ≡ rows_to (take v row.old.spans) result.place (take result.count ends.new)
        ++ waiting_rows lists.now.store v (positions_of row.new.positions) stack.new }
    ensures last { take v row.new.spans ≡ last_of (take v row.old.spans)
        (rows_to (take v row.old.spans) result.place (take result.count ends.new)) }
    ensures steps { steps.new ≤ steps.old + (result.count + 2) }
{
    let none = EndRun { place: 0, count: 0 };
    let Some(waiting) = stack.pop() else {
        return none;
    };
    let (before, entry) = (waiting.settled, waiting.entry);
    let Entry::Row(id) = entry else {
        stack.push(waiting);
        return none;
    };
    let cell = lists.at(id, steps);
    let marks = cell.marks;
    if before.with(marks).number() != row.settled.number() {
        stack.push(waiting);
        return none;
    }
    let Some(open) = open_end(v, marks, &row.spans) else {
        stack.push(waiting);
        return none;
    };
    let taken = take_ends(
        lists, v, before, marks, open.start, entry, most, ends, steps,
    );
    if taken.count == 0 {
        stack.push(waiting);
        return none;
    }
    wait(stack, before, taken.later);
    let place = v - 1 - open.half;
    row.positions[2 * open.half] = taken.last;
    row.spans[place] = Some(Span::new(open.start, taken.last));
    EndRun {
        place,
        count: taken.count,
    }
}
