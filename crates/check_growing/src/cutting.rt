//! Drawn documents, cut into pieces at drawn places.
ghost use Rattle.spanner_model.specs.ExprView.{query_of};
ghost use Rattle.spanner_model.specs.Sound.{IsSound};

use crate::calls::{LIMIT, append, begin_query};
use crate::drawing::Draw;
use crate::fault::Fault;
use crate::groups::Group;
use crate::same::compare;
use growing_document::Growing;
use query_parser::read_query;
use span_core::Steps;
use spanner_engine::{Compiled, compile};
use spanner_model::Query;
use std::alloc::Global;
use std::sync::ledger::Ledger;

/// How many documents are drawn for a query.
const DOCUMENTS: u32 = 12;

/// How many pieces are cut off its front; the rest is one more.
const CUTS: u32 = 8;

/// A document that is drawn, and the most bytes of the pieces that are cut off it.
#[derive(Clone, Copy)]
struct Drawn<'d> {
    document: &'d [u8],
    most_piece: usize,
}

/// What was compared.
#[derive(Clone, Copy)]
pub(crate) struct Tally {
    pub(crate) documents: u64,
    pub(crate) pieces: u64,
    /// The rows after each piece, all together.
    pub(crate) rows: u64,
}

impl Tally {
    pub(crate) fn none() -> Tally {
        Tally {
            documents: 0,
            pieces: 0,
            rows: 0,
        }
    }

    fn plus(self, other: Tally) -> Tally {
        Tally {
            documents: self.documents.saturating_add(other.documents),
            pieces: self.pieces.saturating_add(other.pieces),
            rows: self.rows.saturating_add(other.rows),
        }
    }
}

/// Compares the queries of a group, each on documents of its own; some row must come.
pub(crate) fn check_group<L: Ledger>(
    alloc: Global,
    group: &Group,
    draw: &mut Draw,
    steps: &mut Steps<L>,
) -> Result<Tally, Fault> {
    let mut tally = Tally::none();
    for text in group.texts.lines() {
        tally = tally.plus(check_text(alloc, text, group, draw, steps)?);
    }
    if tally.rows == 0 {
        return Err(Fault::NoRow);
    }
    Ok(tally)
}

fn check_text<L: Ledger>(
    alloc: Global,
    text: &str,
    group: &Group,
    draw: &mut Draw,
    steps: &mut Steps<L>,
) -> Result<Tally, Fault> {
    let query = read_query(alloc, text.as_bytes())?;
    check_query(alloc, &query, group, draw, steps)
}

fn check_query<L: Ledger>(
    alloc: Global,
    query: &Query,
    group: &Group,
    draw: &mut Draw,
    steps: &mut Steps<L>,
) -> Result<Tally, Fault>
    requires { IsSound (query_of query.now) }
{
    let compiled = compile(alloc, query)?;
    check_documents(alloc, query, &compiled, group, draw, steps)
}

/// Draws the documents of a query, and checks each.
fn check_documents<L: Ledger>(
    alloc: Global,
    query: &Query,
    compiled: &Compiled<'_>,
    group: &Group,
    draw: &mut Draw,
    steps: &mut Steps<L>,
) -> Result<Tally, Fault>
    requires { IsSound (query_of query.now) }
{
    let mut tally = Tally::none();
    for _ in 0..DOCUMENTS {
        let document = draw.document(alloc, group.bytes, group.most)?;
        let growing = begin_query(alloc, query, LIMIT, steps)?;
        tally = tally.plus(check_document(
            alloc,
            compiled,
            growing,
            Drawn {
                document: &document,
                most_piece: group.most_piece,
            },
            draw,
            steps,
        )?);
    }
    Ok(tally)
}

/// Puts a document behind nothing piece by piece, and compares the rows before the first and after each.
fn check_document<L: Ledger>(
    alloc: Global,
    compiled: &Compiled<'_>,
    growing: Growing,
    drawn: Drawn<'_>,
    draw: &mut Draw,
    steps: &mut Steps<L>,
) -> Result<Tally, Fault> {
    let mut growing = growing;
    compare_document(alloc, compiled, &mut growing, drawn, draw, steps)
}

fn compare_document<L: Ledger>(
    alloc: Global,
    compiled: &Compiled<'_>,
    growing: &mut Growing,
    drawn: Drawn<'_>,
    draw: &mut Draw,
    steps: &mut Steps<L>,
) -> Result<Tally, Fault> {
    let before = compare(alloc, compiled, growing, steps)?;
    let after = compare_pieces(alloc, compiled, growing, drawn, draw, steps)?;
    is_kept(growing, drawn.document)?;
    Ok(Tally {
        documents: 1,
        pieces: u64::from(CUTS) + 1,
        rows: before.saturating_add(after),
    })
}

/// Compares the rows after each piece.
fn compare_pieces<L: Ledger>(
    alloc: Global,
    compiled: &Compiled<'_>,
    growing: &mut Growing,
    drawn: Drawn<'_>,
    draw: &mut Draw,
    steps: &mut Steps<L>,
) -> Result<u64, Fault> {
    let mut rows: u64 = 0;
    let mut rest = drawn.document;
    for _ in 0..CUTS {
        let (piece, behind) = cut(rest, drawn.most_piece, draw);
        let more = append_and_compare(alloc, compiled, growing, piece, steps)?;
        rows = rows.saturating_add(more);
        rest = behind;
    }
    let more = append_and_compare(alloc, compiled, growing, rest, steps)?;
    Ok(rows.saturating_add(more))
}

/// A drawn piece of the front, and the rest.
fn cut<'d>(rest: &'d [u8], most_piece: usize, draw: &mut Draw) -> (&'d [u8], &'d [u8]) {
    let len = draw
        .below(most_piece.saturating_add(1).max(1))
        .min(rest.len());
    rest.split_at(len)
}

/// Appends a piece, and compares the rows after it.
fn append_and_compare<L: Ledger>(
    alloc: Global,
    compiled: &Compiled<'_>,
    growing: &mut Growing,
    piece: &[u8],
    steps: &mut Steps<L>,
) -> Result<u64, Fault> {
    append(growing, piece, steps)?;
    compare(alloc, compiled, growing, steps)
}

/// The pieces together are the document.
fn is_kept(growing: &Growing, document: &[u8]) -> Result<(), Fault> {
    if growing.document() != document {
        return Err(Fault::Kept {
            bytes: document.len(),
        });
    }
    Ok(())
}
