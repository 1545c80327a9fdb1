//! How long a column of short documents takes, with a cache and without.
ghost use Rattle.std.specs.Prelude.{◌≡◌, ◌^◌, ◌<◌, ◌≤◌, length};
ghost use Rattle.spanner_engine.specs.Caching.{IsCacheOf};

use known_tests::{ProgramJudge, program_tests};
use span_core::Steps;
use spanner_library::{Cache, Options, Prepared};
use std::alloc::Global;
use std::marker::Brand;
use std::sync::ledger::{Blank, Ledger};
use std::time::Instant;

/// What is asked of each document; none has a row.
const QUERY: &[u8] =
    b"/Failed password for (invalid user |)!user{\\w+} from !address{[\\d.]+} port /";

/// A document, in which digits are drawn.
const LINE: &[u8] =
    b"Mar  4 06:43:51 gate sshd[4109]: Accepted publickey for ada from 198.51.100.4 port 41357 ssh2: SHA256:\n";

const OPTIONS: Options = Options {
    filter: false,
    limit: 1_000_000,
};

/// How many documents are opened at most.
const MOST_LINES: usize = 1_000_000;

/// Opens so many documents of some 100 bytes without rows, first each by itself and then with a cache, and prints how many were opened.
pub(crate) fn measure_column(rt: &HostRuntime, lines: usize) -> anyhow::Result<()> {
    let made = make_lines(rt.alloc(), lines.min(MOST_LINES));
    let Some(document) = made else {
        println!(rt; "none")?;
        return Ok(());
    };
    let start = Instant::now(rt)?;
    let apart = open_apart::<Brand>(rt.alloc(), Blank::new(1), &document);
    let middle = Instant::now(rt)?;
    let kept = open_kept::<Brand>(rt.alloc(), Blank::new(1), &document);
    let end = Instant::now(rt)?;
    eprintln!(rt;
        "{lines} lines: {:?}, with a cache {:?}",
        middle.duration_since(start),
        end.duration_since(middle)
    )?;
    match (apart, kept) {
        (Some(apart), Some(kept)) => println!(rt; "opened {apart}, with a cache {kept}")?,
        _ => println!(rt; "none")?,
    }
    Ok(())
}

/// So many documents, one behind another.
fn make_lines(alloc: Global, lines: usize) -> Option<Vec<u8>> {
    let mut document = Vec::new(alloc);
    let mut drawn: u32 = 37;
    for _ in 0..lines {
        for byte in LINE {
            drawn = drawn.wrapping_mul(1_664_525).wrapping_add(1_013_904_223);
            document.push(drawn_byte(*byte, drawn)).ok()?;
        }
    }
    Some(document)
}

/// A digit that is drawn in the place of a digit; another byte as it is.
fn drawn_byte(byte: u8, drawn: u32) -> u8 {
    if byte.is_ascii_digit() {
        b'0' + ((drawn >> 16) % 10) as u8
    } else {
        byte
    }
}

/// Opens each document by itself, and counts them.
fn open_apart<L: Ledger>(alloc: Global, blank: Blank, document: &[u8]) -> Option<u64>
    requires name { blank.name ≡ L.name }
    requires parts { blank.parts ≡ L.parts }
    requires some { 0 < L.parts }
{
    let mut steps = Steps::<L>::new(blank);
    let query = prepare(alloc)?;
    open_each(alloc, &query, document, &mut steps)
}

/// As `open_apart`, by a query that was prepared.
fn open_each<L: Ledger>(
    alloc: Global,
    query: &Prepared<ProgramJudge>,
    document: &[u8],
    steps: &mut Steps<L>,
) -> Option<u64> {
    let mut opened: u64 = 0;
    for line in document.chunks(LINE.len()) {
        if line.len() <= LINE.len() {
            let _rows = query.open(alloc, line, None, OPTIONS, steps).ok()?;
            opened = opened.wrapping_add(1);
        }
    }
    Some(opened)
}

/// Opens each document with a cache, and counts them.
fn open_kept<L: Ledger>(alloc: Global, blank: Blank, document: &[u8]) -> Option<u64>
    requires name { blank.name ≡ L.name }
    requires parts { blank.parts ≡ L.parts }
    requires some { 0 < L.parts }
{
    let mut steps = Steps::<L>::new(blank);
    let query = prepare(alloc)?;
    open_all(alloc, &query, document, &mut steps)
}

/// As `open_kept`, by a query that was prepared. The cache is dropped here alone.
fn open_all<L: Ledger>(
    alloc: Global,
    query: &Prepared<ProgramJudge>,
    document: &[u8],
    steps: &mut Steps<L>,
) -> Option<u64> {
    let mut cache = Cache::new(alloc, OPTIONS.limit);
    open_lines(query, &mut cache, document, steps)
}

/// As `open_all`, with a cache of the query's.
fn open_lines<L: Ledger>(
    query: &Prepared<ProgramJudge>,
    cache: &mut Cache,
    document: &[u8],
    steps: &mut Steps<L>,
) -> Option<u64>
    requires { IsCacheOf query.now.graph cache.old }
{
    let mut opened: u64 = 0;
    for line in document.chunks(LINE.len()) {
        if line.len() <= LINE.len() {
            open_line(query, cache, line, steps)?;
            opened = opened.wrapping_add(1);
        }
    }
    Some(opened)
}

/// Opens a document with a cache, and lets its rows go.
fn open_line<L: Ledger>(
    query: &Prepared<ProgramJudge>,
    cache: &mut Cache,
    line: &[u8],
    steps: &mut Steps<L>,
) -> Option<()>
    requires cache { IsCacheOf query.now.graph cache.old }
    requires few { length line.now ≤ 2 ^ 28 }
    ensures { IsCacheOf query.now.graph cache.new }
{
    let _rows = query.open_with(cache, line, None, OPTIONS, steps).ok()?;
    Some(())
}

/// The query, compiled.
fn prepare(alloc: Global) -> Option<Prepared<ProgramJudge>> {
    Prepared::read(alloc, program_tests(alloc).ok()?, QUERY).ok()
}
