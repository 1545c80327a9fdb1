//! The words of row lists.
ghost use Rattle.std.specs.Prelude.{OnOk};
ghost use Rattle.node_arena.specs.Rows.{HasRow, IsThere};
ghost use Rattle.check_readings.specs.Waiting.{AreThere};

use crate::fault::Fault;
use node_arena::{Entry, RowId};
use output_graph::RowLists;
use span_core::Steps;
use std::alloc::Global;
use std::sync::ledger::Ledger;

/// A position and the markers that stand there, as their number.
#[derive(Clone, Copy, Debug, PartialEq, Eq)]
pub(crate) struct Block {
    pub at: u32,
    pub marks: u64,
}

/// The most row cells that are looked at.
const MOST_LOOK_UPS: u32 = 1_000_000;

/// What is still to be listed: the rows of an entry, each behind these blocks.
#[derive(Drop)]
struct Waiting {
    before: Vec<Block>,
    entry: Entry,
}

/// The words of row lists, in their order.
pub(crate) fn words_of<L: Ledger>(
    alloc: Global,
    lists: &RowLists,
    steps: &mut Steps<L>,
) -> Result<Vec<Vec<Block>>, Fault> {
    lists.are_lists();
    let mut words = Vec::new(alloc);
    let mut stack = Vec::new(alloc);
    stack.push(Waiting {
        before: Vec::new(alloc),
        entry: lists.first(),
    })?;
    for _ in 0..MOST_LOOK_UPS {
        match stack.pop() {
            Some(waiting) => visit(lists, waiting, &mut stack, &mut words, steps)?,
            None => return Ok(words),
        }
    }
    Err(Fault::TooManyRows)
}

/// Lists the row that ends here, or lets the rows of a row cell wait.
fn visit<L: Ledger>(
    lists: &RowLists,
    waiting: Waiting,
    stack: &mut Vec<Waiting>,
    words: &mut Vec<Vec<Block>>,
    steps: &mut Steps<L>,
) -> Result<(), Fault>
    requires there { IsThere lists.now.store waiting.entry }
    requires all { AreThere lists.now.store stack.old.items }
    ensures { OnOk result (AreThere lists.now.store stack.new.items) }
{
    let Waiting { before, entry } = waiting;
    match entry {
        Entry::Nothing => Ok(()),
        Entry::Done => {
            words.push(before)?;
            Ok(())
        }
        Entry::Row(row) => wait_behind(lists, row, before, stack, steps),
    }
}

/// Lets the rows of a row cell wait: those of its child behind its block, and then those of its next.
fn wait_behind<L: Ledger>(
    lists: &RowLists,
    row: RowId,
    before: Vec<Block>,
    stack: &mut Vec<Waiting>,
    steps: &mut Steps<L>,
) -> Result<(), Fault>
    requires row { HasRow lists.now.store row }
    requires all { AreThere lists.now.store stack.old.items }
    ensures { OnOk result (AreThere lists.now.store stack.new.items) }
{
    lists.are_lists();
    let cell = lists.at(row, steps);
    let mut word = before.clone()?;
    word.push(Block {
        at: cell.at,
        marks: cell.marks.number(),
    })?;
    stack.push(Waiting {
        before,
        entry: cell.next,
    })?;
    stack.push(Waiting {
        before: word,
        entry: cell.child,
    })?;
    Ok(())
}
