//! What is refused, and the rows of what is not.

use crate::calls::{append, rows};
use crate::fault::Fault;
use growing_document::{GrowFault, Growing};
use span_core::{Span, Steps};
use std::sync::ledger::Ledger;

/// More than the rows of any document of a script.
const MOST_ROWS: u32 = 10;

/// What came of a call.
#[derive(Clone, Copy, Debug)]
pub(crate) enum Told {
    Done,
    Full,
    Spent,
}

/// What came of a piece.
#[derive(Clone, Copy)]
pub(crate) struct Shown {
    pub(crate) appended: Told,
    /// The length then.
    pub(crate) bytes: usize,
    pub(crate) asked: Told,
    pub(crate) came: Came,
}

/// How many rows came, and the span of the first variable in the last.
#[derive(Clone, Copy)]
pub(crate) struct Came {
    pub(crate) rows: u32,
    pub(crate) last: Option<Span>,
}

impl Came {
    fn none() -> Came {
        Came {
            rows: 0,
            last: None,
        }
    }
}

/// Appends a piece, and asks for the rows.
pub(crate) fn show<L: Ledger>(
    growing: &mut Growing,
    piece: &str,
    steps: &mut Steps<L>,
) -> Result<Shown, Fault> {
    let appended = outcome_told(append(growing, piece.as_bytes(), steps))?;
    let bytes = growing.document().len();
    let (asked, came) = ask(growing, steps)?;
    Ok(Shown {
        appended,
        bytes,
        asked,
        came,
    })
}

fn ask<L: Ledger>(growing: &mut Growing, steps: &mut Steps<L>) -> Result<(Told, Came), Fault> {
    match take_rows(growing, steps) {
        Ok(came) => Ok((Told::Done, came)),
        Err(fault) => Ok((outcome_told(Err(fault))?, Came::none())),
    }
}

/// Tells what came of a call; any other fault ends the run.
fn outcome_told(outcome: Result<(), Fault>) -> Result<Told, Fault> {
    match outcome {
        Ok(()) => Ok(Told::Done),
        Err(Fault::Grow(GrowFault::Full { .. })) => Ok(Told::Full),
        Err(Fault::Grow(GrowFault::Spent)) => Ok(Told::Spent),
        Err(fault) => Err(fault),
    }
}

/// Takes the rows of a document so far.
fn take_rows<L: Ledger>(growing: &mut Growing, steps: &mut Steps<L>) -> Result<Came, Fault> {
    let mut rows = rows(growing, steps)?;
    let mut came = Came::none();
    for _ in 0..MOST_ROWS {
        let Some(row) = rows.next(steps) else {
            return Ok(came);
        };
        came = Came {
            rows: came.rows.saturating_add(1),
            last: if row.len() > 0 { row.at(0) } else { None },
        };
    }
    Ok(came)
}
