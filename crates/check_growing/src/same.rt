//! The rows of pieces against those of the whole.

use crate::calls::{LIMIT, answers, rows};
use crate::fault::Fault;
use enumerator::Enumerator;
use growing_document::Growing;
use span_core::Steps;
use spanner_engine::{Answers, Compiled};
use std::alloc::Global;
use std::sync::ledger::Ledger;

/// More than the rows of any document that is drawn.
const MOST_ROWS: u64 = 100_000;

/// Compares the rows of a document so far with those that the engine gives for all of it, and gives their number.
pub(crate) fn compare<L: Ledger>(
    alloc: Global,
    compiled: &Compiled<'_>,
    growing: &mut Growing,
    steps: &mut Steps<L>,
) -> Result<u64, Fault> {
    let mut whole = answers(alloc, compiled, growing.document(), LIMIT, steps)?;
    compare_with(growing, &mut whole, steps)
}

fn compare_with<L: Ledger>(
    growing: &mut Growing,
    whole: &mut Answers,
    steps: &mut Steps<L>,
) -> Result<u64, Fault> {
    let bytes = growing.document().len();
    let mut grown = rows(growing, steps)?;
    count_or_fault(bytes, agreeing_rows(&mut grown, whole, steps))
}

fn count_or_fault(bytes: usize, agreeing: Agreeing) -> Result<u64, Fault> {
    if agreeing.all {
        Ok(agreeing.rows)
    } else {
        Err(Fault::Row {
            bytes,
            at: agreeing.rows,
        })
    }
}

/// How many rows agree, and whether these are all.
#[derive(Clone, Copy)]
struct Agreeing {
    rows: u64,
    all: bool,
}

fn agreeing_rows<L: Ledger>(
    grown: &mut Enumerator,
    whole: &mut Answers,
    steps: &mut Steps<L>,
) -> Agreeing {
    for rows in 0..MOST_ROWS {
        match next_of_both(grown, whole, steps) {
            Next::Same => {}
            Next::Ended => return Agreeing { rows, all: true },
            Next::Differs => return Agreeing { rows, all: false },
        }
    }
    Agreeing {
        rows: MOST_ROWS,
        all: false,
    }
}

/// What comes next on both sides.
#[derive(Clone, Copy)]
enum Next {
    Same,
    Ended,
    Differs,
}

fn next_of_both<L: Ledger>(
    grown: &mut Enumerator,
    whole: &mut Answers,
    steps: &mut Steps<L>,
) -> Next {
    match (grown.next(steps), whole.next(steps)) {
        (Some(row), Some(other)) => {
            if row == other {
                Next::Same
            } else {
                Next::Differs
            }
        }
        (None, None) => Next::Ended,
        _ => Next::Differs,
    }
}
