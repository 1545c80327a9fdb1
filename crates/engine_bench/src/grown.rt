//! How long a document takes that grows.
ghost use Rattle.std.specs.Prelude.{◌≡◌, ◌<◌};

use growing_document::Growing;
use query_parser::read_query;
use span_core::Steps;
use spanner_engine::{Compiled, compile};
use std::alloc::Global;
use std::marker::Brand;
use std::sync::ledger::{Blank, Ledger};
use std::time::Instant;

/// The limit of weight, that of a session.
const LIMIT: u64 = 1_000_000;

/// Puts so many pieces of so many bytes `b` behind one another, asks for one row of `/!x{a}c/` after each, and prints how
/// many came, and how many cells live at the end.
pub(crate) fn measure_growing(rt: &HostRuntime, bytes: usize, pieces: u32) -> anyhow::Result<()> {
    let start = Instant::now(rt)?;
    let grown = grow::<Brand>(rt.alloc(), Blank::new(1), bytes, pieces);
    let end = Instant::now(rt)?;
    eprintln!(rt;
        "{pieces} pieces of {bytes} bytes: {:?}",
        end.duration_since(start)
    )?;
    match grown {
        Some(Grown { rows, live, bytes }) => println!(rt; "grown {bytes} rows {rows} live {live}")?,
        None => println!(rt; "none")?,
    }
    Ok(())
}

/// How many rows came, how many cells live, and how long the document is.
#[derive(Clone, Copy)]
struct Grown {
    rows: u64,
    live: u64,
    bytes: usize,
}

fn grow<L: Ledger>(alloc: Global, blank: Blank, bytes: usize, pieces: u32) -> Option<Grown>
    requires name { blank.name ≡ L.name }
    requires parts { blank.parts ≡ L.parts }
    requires some { 0 < L.parts }
{
    let mut steps = Steps::<L>::new(blank);
    let mut growing = begin_text(alloc, &mut steps)?;
    grow_by(alloc, &mut growing, bytes, pieces, &mut steps)
}

/// As `grow`, of a document that was begun.
fn grow_by<L: Ledger>(
    alloc: Global,
    growing: &mut Growing,
    bytes: usize,
    pieces: u32,
    steps: &mut Steps<L>,
) -> Option<Grown> {
    let rows = append_pieces(alloc, growing, bytes, pieces, steps)?;
    Some(Grown {
        rows,
        live: growing.live(),
        bytes: growing.document().len(),
    })
}

/// A document of no byte.
fn begin_text<L: Ledger>(alloc: Global, steps: &mut Steps<L>) -> Option<Growing> {
    let query = read_query(alloc, b"/!x{a}c/").ok()?;
    let compiled = compile(alloc, &query).ok()?;
    begin_growing(alloc, compiled, steps)
}

fn begin_growing<L: Ledger>(
    alloc: Global,
    compiled: Compiled<'_>,
    steps: &mut Steps<L>,
) -> Option<Growing> {
    let automaton = compiled.into_automaton();
    Growing::new(alloc, automaton, LIMIT, steps).ok()
}

/// Makes the piece and appends it so many times, and gives how many rows came.
fn append_pieces<L: Ledger>(
    alloc: Global,
    growing: &mut Growing,
    bytes: usize,
    pieces: u32,
    steps: &mut Steps<L>,
) -> Option<u64> {
    let mut piece = Vec::new(alloc);
    piece.resize(bytes, b'b').ok()?;
    append_all(growing, &piece, pieces, steps)
}

/// Appends the piece so many times, and gives how many rows came.
fn append_all<L: Ledger>(
    growing: &mut Growing,
    piece: &[u8],
    pieces: u32,
    steps: &mut Steps<L>,
) -> Option<u64> {
    let mut rows: u64 = 0;
    for _ in 0..pieces {
        rows = rows.saturating_add(u64::from(append_and_ask(growing, piece, steps)?));
    }
    Some(rows)
}

/// Appends the piece, and asks for one row: whether it came.
fn append_and_ask<L: Ledger>(
    growing: &mut Growing,
    piece: &[u8],
    steps: &mut Steps<L>,
) -> Option<bool> {
    growing.append(piece, steps).ok()?;
    let mut rows = growing.rows(steps).ok()?;
    Some(rows.advance(steps))
}
