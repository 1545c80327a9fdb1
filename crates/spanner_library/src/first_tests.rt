//! A first caller: a query that is compiled once, and asked of several documents with a cache.
ghost use Rattle.std.specs.Prelude.{◌≡◌, ◌^◌, ◌<◌, ◌≤◌, length};
ghost use Rattle.spanner_engine.specs.Caching.{IsCacheOf};
ghost use Rattle.spanner_engine.specs.Fitting.{AreLast};
ghost use Rattle.spanner_library.specs.Library.{tree};

use crate::{ABSENT, Cache, Options, Prepared, Rows};
use known_tests::{ProgramJudge, program_tests};
use span_core::Steps;
use std::alloc::Global;
use std::marker::Brand;
use std::sync::ledger::{Blank, Ledger};
use std::test::Fail;

/// The address of each failed login, and the user's name where there is no such user.
const QUERY: &[u8] =
    b"/Failed password for (invalid user !user{\\w+}|\\w+) from !address{[\\d.]+} port /";

/// The documents: each is a line of a log.
const LINES: [&[u8]; 4] = [
    b"06:22:04 sshd: Failed password for invalid user pi from 203.0.113.7 port 39548",
    b"06:22:08 sshd: Connection closed by 203.0.113.7 port 39548",
    b"07:08:48 sshd: Failed password for ada from 198.51.100.4 port 41357",
    b"08:05:19 sshd: Failed password for invalid user oracle from 203.0.113.7 port 57092",
];

/// The rows of all lines: where the address starts and ends, and where the name does.
const ROWS: [u32; 12] = [56, 67, 48, 50, 44, 56, ABSENT, ABSENT, 60, 71, 48, 54];

/// Each document is read at all its positions, with a table that weighs no more than this.
const OPTIONS: Options = Options {
    filter: false,
    limit: 1_000_000,
};

/// How much a table may weigh that is kept for the next document.
const MOST_KEPT: u64 = 1_000_000;

/// How many rows are taken at a time.
const MOST_ROWS: usize = 2;

/// The longest document.
const MOST_BYTES: usize = 268_435_456;

#[test]
fn rows_of_lines(rt: HostRuntime) -> Result<(), Fail> {
    let mut found = Vec::new(rt.alloc());
    let asked = ask_all::<Brand>(rt.alloc(), Blank::new(1), &mut found);
    assert_eq!(rt; asked, Some(()));
    assert_eq!(rt; found.as_slice(), ROWS.as_slice());
    Ok(())
}

/// Compiles the query, and asks it.
fn ask_all<L: Ledger>(alloc: Global, blank: Blank, found: &mut Vec<u32>) -> Option<()>
    requires name { blank.name ≡ L.name }
    requires parts { blank.parts ≡ L.parts }
    requires some { 0 < L.parts }
{
    let mut steps = Steps::<L>::new(blank);
    let query = Prepared::read(alloc, program_tests(alloc).ok()?, QUERY).ok()?;
    ask_each(alloc, &query, found, &mut steps)
}

/// Asks the query of each line. The cache is dropped here alone: what has to be proved grows with each exit that drops it.
fn ask_each<L: Ledger>(
    alloc: Global,
    query: &Prepared<ProgramJudge>,
    found: &mut Vec<u32>,
    steps: &mut Steps<L>,
) -> Option<()> {
    let mut cache = Cache::new(alloc, MOST_KEPT);
    ask_lines(alloc, query, &mut cache, found, steps)
}

/// Asks the query of each line, with what a cache keeps of the lines before.
fn ask_lines<L: Ledger>(
    alloc: Global,
    query: &Prepared<ProgramJudge>,
    cache: &mut Cache,
    found: &mut Vec<u32>,
    steps: &mut Steps<L>,
) -> Option<()>
    requires { IsCacheOf query.now.graph cache.old }
{
    for line in LINES {
        ask(alloc, query, cache, line, found, steps)?;
    }
    Some(())
}

/// Asks the query of a document, and lists the numbers of its rows.
fn ask<L: Ledger>(
    alloc: Global,
    query: &Prepared<ProgramJudge>,
    cache: &mut Cache,
    document: &[u8],
    found: &mut Vec<u32>,
    steps: &mut Steps<L>,
) -> Option<()>
    requires { IsCacheOf query.now.graph cache.old }
    ensures { IsCacheOf query.now.graph cache.new }
{
    if document.len() > MOST_BYTES {
        return None;
    }
    match query.open_with(cache, document, None, OPTIONS, steps) {
        Ok(mut rows) => list_rows(alloc, query, &mut rows, document, found, steps),
        Err(_) => None,
    }
}

/// Lists the numbers of all rows that are still to come.
fn list_rows<L: Ledger>(
    alloc: Global,
    query: &Prepared<ProgramJudge>,
    rows: &mut Rows,
    document: &[u8],
    found: &mut Vec<u32>,
    steps: &mut Steps<L>,
) -> Option<()>
    requires few { length document.now ≤ 2 ^ 28 }
    requires last { AreLast (tree query.now).query document.now query.now.names rows.old.rest }
{
    let width = 2 * query.vars().len();
    let mut numbers = Vec::new(alloc);
    numbers.resize(MOST_ROWS * width, 0).ok()?;
    loop {
        let given = rows.fill(query, document, &mut numbers, MOST_ROWS, steps);
        push_first(&numbers, given.saturating_mul(width), found)?;
        if given < MOST_ROWS {
            return Some(());
        }
    }
}

/// Appends so many of the numbers, from the first one on.
fn push_first(numbers: &[u32], count: usize, found: &mut Vec<u32>) -> Option<()> {
    for number in numbers.iter().take(count) {
        found.push(*number).ok()?;
    }
    Some(())
}
