//! A long document of many pieces, on which nothing matches up to its last.

use crate::calls::{LIMIT, append, begin_text, rows};
use crate::fault::Fault;
use growing_document::Growing;
use span_core::{Span, Steps};
use std::alloc::Global;
use std::sync::ledger::Ledger;

/// Its query.
pub(crate) const TEXT: &str = "/!x{a}c/";

/// How many pieces it has.
pub(crate) const PIECES: u32 = 4_000;

/// How many bytes `b` each piece is.
pub(crate) const PIECE_BYTES: usize = 4_000;

/// What is behind it at last, so that an answer comes.
const LAST: &[u8] = b"ac";

/// What came of it.
#[derive(Clone, Copy)]
pub(crate) struct Grown {
    /// The rows that came, of the one that was asked for after each piece.
    pub(crate) rows: u64,
    /// The cells that live then.
    pub(crate) live: u64,
    /// The first span behind the last piece, and the length.
    pub(crate) last: Option<Span>,
    pub(crate) bytes: usize,
}

/// Grows it piece by piece, and asks for one row after each.
pub(crate) fn grow_long<L: Ledger>(alloc: Global, steps: &mut Steps<L>) -> Result<Grown, Fault> {
    let mut growing = begin_text(alloc, TEXT, LIMIT, steps)?;
    grow_to_last(alloc, &mut growing, steps)
}

fn grow_to_last<L: Ledger>(
    alloc: Global,
    growing: &mut Growing,
    steps: &mut Steps<L>,
) -> Result<Grown, Fault> {
    let rows = append_pieces(alloc, growing, steps)?;
    let live = growing.live();
    let last = last_span(growing, steps)?;
    Ok(Grown {
        rows,
        live,
        last,
        bytes: growing.document().len(),
    })
}

fn append_pieces<L: Ledger>(
    alloc: Global,
    growing: &mut Growing,
    steps: &mut Steps<L>,
) -> Result<u64, Fault> {
    let piece = vec![in alloc; b'b'; PIECE_BYTES]?;
    append_all(growing, &piece, steps)
}

fn append_all<L: Ledger>(
    growing: &mut Growing,
    piece: &[u8],
    steps: &mut Steps<L>,
) -> Result<u64, Fault> {
    let mut rows: u64 = 0;
    for _ in 0..PIECES {
        append(growing, piece, steps)?;
        rows = rows.saturating_add(u64::from(has_row(growing, steps)?));
    }
    Ok(rows)
}

/// Whether a row comes that is asked for.
fn has_row<L: Ledger>(growing: &mut Growing, steps: &mut Steps<L>) -> Result<bool, Fault> {
    let mut rows = rows(growing, steps)?;
    Ok(rows.advance(steps))
}

/// The first span that comes after the last piece.
fn last_span<L: Ledger>(
    growing: &mut Growing,
    steps: &mut Steps<L>,
) -> Result<Option<Span>, Fault> {
    append(growing, LAST, steps)?;
    let mut rows = rows(growing, steps)?;
    match rows.next(steps) {
        Some(row) if row.len() > 0 => Ok(row.at(0)),
        _ => Ok(None),
    }
}
