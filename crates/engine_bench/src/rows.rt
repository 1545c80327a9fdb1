//! How long a pass and its rows take.
ghost use Rattle.std.specs.Prelude.{◌≡◌, ◌<◌, ◌≤◌};
ghost use Rattle.engine_bench.specs.declared.rows.TheConstants.{MOST_BYTES};

use query_parser::read_query;
use span_core::{Span, Steps};
use spanner_engine::{Options, begin, compile};
use std::alloc::Global;
use std::marker::Brand;
use std::sync::ledger::{Blank, Ledger};
use std::time::Instant;

/// The limit of the table's weight.
const LIMIT: u64 = 8_000_000;

/// The longest document.
const MOST_BYTES: usize = 268_435_456;

/// Begins all answers of `/!x{a*}/` on so many bytes, takes them, and prints how many there are and the sum of
/// their ends.
pub(crate) fn measure_rows(rt: &HostRuntime, bytes: usize) -> anyhow::Result<()> {
    if bytes > MOST_BYTES {
        println!(rt; "too many bytes")?;
        return Ok(());
    }
    let start = Instant::now(rt)?;
    let taken = take_rows::<Brand>(rt.alloc(), Blank::new(1), bytes);
    let end = Instant::now(rt)?;
    eprintln!(rt; "rows of {bytes} bytes: {:?}", end.duration_since(start))?;
    match taken {
        Some(Taken { rows, sum }) => println!(rt; "rows {rows} sum {sum}")?,
        None => println!(rt; "none")?,
    }
    Ok(())
}

/// How many rows there are, and the sum of their ends.
#[derive(Clone, Copy)]
struct Taken {
    rows: u64,
    sum: u64,
}

fn take_rows<L: Ledger>(alloc: Global, blank: Blank, bytes: usize) -> Option<Taken>
    requires name { blank.name ≡ L.name }
    requires parts { blank.parts ≡ L.parts }
    requires some { 0 < L.parts }
    requires few { bytes ≤ MOST_BYTES }
{
    let mut steps = Steps::<L>::new(blank);
    let query = read_query(alloc, b"/!x{a*}/").ok()?;
    let compiled = compile(alloc, &query).ok()?;
    let mut document = Vec::new(alloc);
    document.resize(bytes, b'a').ok()?;
    let options = Options {
        filter: false,
        limit: LIMIT,
    };
    let mut answers = begin(alloc, &compiled, &document, None, options, &mut steps).ok()?;
    let mut taken = Taken { rows: 0, sum: 0 };
    while let Some(row) = answers.next(&mut steps) {
        taken.rows = taken.rows.wrapping_add(1);
        if row.len() > 0 {
            taken.sum = taken.sum.wrapping_add(end_of(row.at(0)));
        }
    }
    Some(taken)
}

/// Where the span ends; 0 where it is absent.
fn end_of(span: Option<Span>) -> u64 {
    match span {
        Some(span) => u64::from(span.end),
        None => 0,
    }
}
