//! Runs over the shelf and the sinks in memory.
ghost use Rattle.std.specs.Prelude.{◌≡◌, ◌<◌};

use crate::run;
use rm_outside::{MemoryShelf, MemorySink, Status};
use span_core::{OutOfMemory, Steps};
use std::alloc::Global;
use std::marker::Brand;
use std::sync::ledger::{Blank, Ledger};
use std::test::Fail;

/// The query that the shelf holds under the name Q.
const QUERY: &[u8] = b"let w = /!x{[a-z]+}/; project x (w join /!x{..}!y{\\d}/)";

/// Words with `~` between, the document that the shelf holds under the name D, and what comes.
const ROWS: [(&str, &[u8], Status, &[u8], &[u8]); 54] = [
    // Spans line by line, in block order; the empty ones too, and each once.
    (
        "-e~/!x{a*}/~D",
        b"aa",
        Status::Done,
        b"x=0-0\nx=0-1\nx=0-2\nx=1-1\nx=1-2\nx=2-2\n",
        b"end\n",
    ),
    ("-e~/^!x{a*}$/~D", b"aa", Status::Done, b"x=0-2\n", b"end\n"),
    (
        "-e~/!x{a}(a|aa)*/~D",
        b"aaa",
        Status::Done,
        b"x=0-1\nx=1-2\nx=2-3\n",
        b"end\n",
    ),
    (
        "-e~/!x{a+}!y{b+}/~D",
        b"aabb",
        Status::Done,
        b"x=0-2 y=2-3\nx=0-2 y=2-4\nx=1-2 y=2-3\nx=1-2 y=2-4\n",
        b"end\n",
    ),
    ("-e~/ab/~D", b"xxab", Status::Done, b"()\n", b"end\n"),
    ("-e~/ab/~D", b"xx", Status::Done, b"", b"end\n"),
    (
        "-e~/!x{[ab]+}/ join /!x{.}b/~D",
        b"aab",
        Status::Done,
        b"x=1-2\n",
        b"end\n",
    ),
    (
        "-e~project x (/!x{a}!y{b*}/)~D",
        b"abb",
        Status::Done,
        b"x=0-1\n",
        b"end\n",
    ),
    ("-q~Q~D", b"ab1", Status::Done, b"x=0-2\n", b"end\n"),
    (
        "-e~/!x{é+}/~D",
        b"\xc3\xa9\xc3\xa9",
        Status::Done,
        b"x=0-2\nx=0-4\nx=2-4\n",
        b"end\n",
    ),
    // Absent variables.
    (
        "-e~/!x{a}|b/~D",
        b"ab",
        Status::Done,
        b"x=0-1\nx=-\n",
        b"end\n",
    ),
    (
        "-e~/!x{a}/ union /!y{a}/~D",
        b"a",
        Status::Done,
        b"x=0-1 y=-\nx=- y=0-1\n",
        b"end\n",
    ),
    (
        "-e~/!x{a}|b/~-n~1~D",
        b"abb",
        Status::Done,
        b"x=0-1\n",
        b"more c2:3;x:0-1\n",
    ),
    // Pages.
    (
        "-e~/!x{a*}/~-n~2~D",
        b"aa",
        Status::Done,
        b"x=0-0\nx=0-1\n",
        b"more c2:2;x:0-1\n",
    ),
    (
        "-e~/!x{a*}/~-a~c1;x:0-1~D",
        b"aa",
        Status::Done,
        b"x=0-2\nx=1-1\nx=1-2\nx=2-2\n",
        b"end\n",
    ),
    (
        "-e~/!x{a*}/~-n~0~D",
        b"aa",
        Status::Done,
        b"",
        b"more start\n",
    ),
    (
        "-e~/!x{a*}/~-n~0~-a~c1;x:0-1~D",
        b"aa",
        Status::Done,
        b"",
        b"more c1;x:0-1\n",
    ),
    // A cursor that is no answer, and those that are refused.
    (
        "-e~/!x{a}/~-a~c1;x:0-2~D",
        b"aab",
        Status::Done,
        b"x=1-2\n",
        b"end\n",
    ),
    (
        "-e~/!x{a}/~-a~c1;x:0-9~D",
        b"aab",
        Status::Cursor,
        b"",
        b"cursor: past the document\n",
    ),
    (
        "-e~/!x{a}/~-a~c1;y:0-1~D",
        b"aab",
        Status::Cursor,
        b"",
        b"cursor: other variables\n",
    ),
    (
        "-e~/!x{a}/~-a~c1;x:2-1~D",
        b"aab",
        Status::Cursor,
        b"",
        b"cursor: not a cursor\n",
    ),
    // A cursor of a document of another length.
    (
        "-e~/!x{a*}/~-a~c2:3;x:0-1~D",
        b"aa",
        Status::Cursor,
        b"",
        b"cursor: document of 3 bytes, not 2\n",
    ),
    // The cursor's text is read before the document is fetched.
    (
        "-e~/!x{a}/~-a~c1~E",
        b"aab",
        Status::Cursor,
        b"",
        b"cursor: other variables\n",
    ),
    // Forms.
    (
        "-e~/^!x{a*}$/~-f~json~D",
        b"aa",
        Status::Done,
        b"{\"x\":[0,2]}\n",
        b"end\n",
    ),
    (
        "-e~/ab/~-f~json~D",
        b"xxab",
        Status::Done,
        b"{}\n",
        b"end\n",
    ),
    (
        "-e~/!x{a+}!y{b+}/~-f~table~-n~1~D",
        b"aabb",
        Status::Done,
        b"x\ty\n0-2\t2-3\n",
        b"more c2:4;x:0-2;y:2-3\n",
    ),
    ("-e~/ab/~-f~table~D", b"xx", Status::Done, b"()\n", b"end\n"),
    (
        "-e~/!x{.\\n}/~-t~D",
        b"a\n",
        Status::Done,
        b"x=0-2\"a\\n\"\n",
        b"end\n",
    ),
    (
        "-e~/!x{.\\n}/~-f~json~-t~D",
        b"a\n",
        Status::Done,
        b"{\"x\":[0,2,\"a\\\\n\"]}\n",
        b"end\n",
    ),
    // Tables and automata within their limits and past them.
    (
        "-e~/(a|b)*a(a|b){12}!x{c}/~--max-table~166~D",
        b"aaaaaaaaaaaaac",
        Status::Done,
        b"x=13-14\n",
        b"end\n",
    ),
    (
        "-e~/(a|b)*a(a|b){12}!x{c}/~--max-table~100~D",
        b"aaaaaaaaaaaaac",
        Status::Size,
        b"",
        b"size: table past 100\n",
    ),
    (
        "-e~/(a{1000}){20}/~D",
        b"a",
        Status::Size,
        b"",
        b"size: more than 20000 states\n",
    ),
    (
        "-e~/((a?){1000}){3}/~D",
        b"a",
        Status::Size,
        b"",
        b"size: more than 2000000 ways\n",
    ),
    // Only where some atom touches the document; the rows are the same.
    (
        "-e~/!x{a*}/~--filter~D",
        b"bbb",
        Status::Done,
        b"x=0-0\nx=1-1\nx=2-2\nx=3-3\n",
        b"end\n",
    ),
    (
        "-e~/!x{aab}/~--filter~D",
        b"xxxxaabxxxx",
        Status::Done,
        b"x=4-7\n",
        b"end\n",
    ),
    (
        "-e~/!x{a}/ union /!x{b}/~--filter~D",
        b"ab",
        Status::Done,
        b"x=0-1\nx=1-2\n",
        b"end\n",
    ),
    (
        "-q~Q~--filter~-n~1~-a~c1;x:0-1~D",
        b"ab1 cd2",
        Status::Done,
        b"x=0-2\n",
        b"more c2:7;x:0-2\n",
    ),
    // A filter past its limit, which is tried after the cursor's place.
    (
        "-e~/!x{a}/~--filter~--max-table~1~D",
        b"a",
        Status::Size,
        b"",
        b"size: filter past 1\n",
    ),
    (
        "-e~/!x{a}/~--filter~--max-table~1~-a~c1;x:0-9~D",
        b"a",
        Status::Cursor,
        b"",
        b"cursor: past the document\n",
    ),
    // What a query is, whatever its size.
    (
        "-e~/!x{a*}/~--explain",
        b"",
        Status::Done,
        b"query /!x{a*}/\nvariables x\natom 1 states 3 ways 6\n",
        b"end\n",
    ),
    (
        "-e~/!x{a*}/~--explain~--filter",
        b"",
        Status::Done,
        b"query /!x{a*}/\nvariables x\natom 1 states 3 ways 6\n",
        b"end\n",
    ),
    (
        "-e~let u = /a{0}/; /((a?){1000}){3}/ union u~--explain",
        b"",
        Status::Done,
        b"query let u = /a{0}/; /((a?){1000}){3}/ union u\nvariables none\natom 1 states 2 ways 3\natom 2 states 3002 ways 4504503\n",
        b"end\n",
    ),
    // Trials on made documents.
    (
        "-e~/!user{\\w+} logged in from !ip{\\d+\\.\\d+\\.\\d+\\.\\d+}/~--trial~3",
        b"",
        Status::Done,
        b"lines 3\nbytes 41\nrows 2\nfirst ip=18-26 user=0-2\nlast ip=18-26 user=1-2\n",
        b"end\n",
    ),
    (
        "-e~/!user{\\w+} logged in from !ip{\\d+\\.\\d+\\.\\d+\\.\\d+}/~--trial~300",
        b"",
        Status::Done,
        b"lines 300\nbytes 4736\nrows 287\nfirst ip=18-26 user=0-2\nlast ip=4707-4717 user=4690-4691\n",
        b"end\n",
    ),
    (
        "-e~/!user{\\w+} logged in from !ip{\\d+\\.\\d+\\.\\d+\\.\\d+}/~--trial~300~--filter",
        b"",
        Status::Done,
        b"lines 300\nbytes 4736\nrows 287\nfirst ip=18-26 user=0-2\nlast ip=4707-4717 user=4690-4691\n",
        b"end\n",
    ),
    (
        "-e~/!x{a}/~--trial~0",
        b"",
        Status::Done,
        b"lines 0\nbytes 0\nrows 0\nfirst none\nlast none\n",
        b"end\n",
    ),
    // Words, queries and names that are refused.
    ("", b"", Status::Words, b"", b"bad command line\n"),
    (
        "-e~/a/~-q~Q~D",
        b"",
        Status::Words,
        b"",
        b"bad command line\n",
    ),
    (
        "-e~/!x{a}|b/ join /!x{.}/~D",
        b"a",
        Status::Query,
        b"",
        b"query: variable x not sure on both sides of join\n",
    ),
    (
        "-e~/a**/~D",
        b"a",
        Status::Query,
        b"",
        b"query: repeat after repeat at 3\n",
    ),
    (
        "-e~/a/ join b~D",
        b"a",
        Status::Query,
        b"",
        b"query: unknown name at 9\n",
    ),
    (
        "-e~/a/~E",
        b"a",
        Status::Read,
        b"",
        b"read failed: document\n",
    ),
    ("-q~R~E", b"a", Status::Read, b"", b"read failed: query\n"),
    ("-q~R~D", b"a", Status::Read, b"", b"read failed: query\n"),
];

fn words_of(alloc: Global, line: &str) -> Result<Vec<String>, Fail> {
    let mut words = Vec::new(alloc);
    for word in line.split('~') {
        if !word.is_empty() {
            words.push(String::from_str(alloc, word)?)?;
        }
    }
    Ok(words)
}

/// A shelf with a document under the name D and a query under the name Q.
fn shelf_of(alloc: Global, document: &[u8], failing: Vec<u64>) -> Result<MemoryShelf, Fail> {
    let mut shelf = MemoryShelf::new(alloc, failing);
    shelf.hold("D", document)?;
    shelf.hold("Q", QUERY)?;
    Ok(shelf)
}

fn sink_of(alloc: Global, failing: Vec<(u64, usize)>) -> Result<MemorySink, Fail> {
    Ok(MemorySink::new(alloc, 200_000, failing)?)
}

fn runs<L: Ledger>(
    alloc: Global,
    blank: Blank,
    words: &[String],
    mut shelf: MemoryShelf,
    mut out: MemorySink,
    mut notes: MemorySink,
) -> (Status, MemorySink, MemorySink, MemoryShelf)
    requires name { blank.name ≡ L.name }
    requires parts { blank.parts ≡ L.parts }
    requires some { 0 < L.parts }
{
    let mut steps = Steps::<L>::new(blank);
    let status = run(alloc, words, &mut shelf, &mut out, &mut notes, &mut steps);
    (status, out, notes, shelf)
}

#[test]
fn rows(rt: HostRuntime) -> Result<(), Fail> {
    let alloc = rt.alloc();
    for (line, document, status, out, notes) in ROWS {
        let words = words_of(alloc, line)?;
        let shelf = shelf_of(alloc, document, Vec::new(alloc))?;
        let out_sink = sink_of(alloc, Vec::new(alloc))?;
        let note_sink = sink_of(alloc, Vec::new(alloc))?;
        let ended = runs::<Brand>(alloc, Blank::new(1), &words, shelf, out_sink, note_sink);
        assert_eq!(rt; ended.0, status, "at {line}");
        assert_eq!(rt; ended.1.bytes(), out, "at {line}");
        assert_eq!(rt; ended.2.bytes(), notes, "at {line}");
    }
    Ok(())
}

/// Words, the fetches that fail, how many bytes out's and notes' put 0 take before they fail, and what
/// comes on `aa`.
const FAULTS: [(
    &str,
    &[u64],
    Option<usize>,
    Option<usize>,
    Status,
    &str,
    &str,
); 19] = [
    (
        "-e~/!x{a*}/~D",
        &[],
        Some(7),
        None,
        Status::Write,
        "x=0-0\nx",
        "write failed\n",
    ),
    (
        "-e~/!x{a*}/~D",
        &[],
        Some(7),
        Some(3),
        Status::Write,
        "x=0-0\nx",
        "wri",
    ),
    (
        "-e~/!x{a*}/~D",
        &[],
        None,
        Some(0),
        Status::Write,
        "x=0-0\nx=0-1\nx=0-2\nx=1-1\nx=1-2\nx=2-2\n",
        "",
    ),
    ("-e~/a**/~D", &[], None, Some(2), Status::Query, "", "qu"),
    (
        "-q~Q~D",
        &[0],
        None,
        None,
        Status::Read,
        "",
        "read failed: query\n",
    ),
    (
        "-q~Q~D",
        &[1],
        None,
        None,
        Status::Read,
        "",
        "read failed: document\n",
    ),
    // A fetch that fails after one that is not made.
    (
        "-e~/!x{a}/~D",
        &[0],
        None,
        None,
        Status::Read,
        "",
        "read failed: document\n",
    ),
    (
        "-q~Q~--explain",
        &[0],
        None,
        None,
        Status::Read,
        "",
        "read failed: query\n",
    ),
    (
        "-q~Q~--trial~3",
        &[1],
        None,
        None,
        Status::Done,
        "lines 3\nbytes 41\nrows 0\nfirst none\nlast none\n",
        "end\n",
    ),
    (
        "-e~/!x{a}/~-a~x~D",
        &[0],
        None,
        None,
        Status::Cursor,
        "",
        "cursor: not a cursor\n",
    ),
    // A put that takes all and fails, or more than there is.
    (
        "-e~/!x{a}/~D",
        &[],
        Some(12),
        None,
        Status::Write,
        "x=0-1\nx=1-2\n",
        "write failed\n",
    ),
    (
        "-e~/!x{a}/~D",
        &[],
        None,
        Some(100),
        Status::Write,
        "x=0-1\nx=1-2\n",
        "end\n",
    ),
    // The other forms, and the modes.
    (
        "-e~/!x{a}/~-f~table~D",
        &[],
        Some(3),
        None,
        Status::Write,
        "x\n0",
        "write failed\n",
    ),
    (
        "-e~/!x{a}/~-f~json~-t~-n~1~D",
        &[],
        Some(8),
        Some(0),
        Status::Write,
        "{\"x\":[0,",
        "",
    ),
    (
        "-e~/!x{a}/~--explain",
        &[],
        Some(9),
        None,
        Status::Write,
        "query /!x",
        "write failed\n",
    ),
    (
        "-e~/!x{a}/~--trial~0",
        &[],
        Some(10),
        Some(5),
        Status::Write,
        "lines 0\nby",
        "write",
    ),
    // What writes no row makes no put that could fail.
    (
        "-e~/!x{b}/~D",
        &[],
        Some(0),
        None,
        Status::Done,
        "",
        "end\n",
    ),
    (
        "-e~/!x{a}/~-n~0~D",
        &[],
        Some(0),
        Some(4),
        Status::Write,
        "",
        "more",
    ),
    ("-x", &[0], Some(0), Some(0), Status::Words, "", ""),
];

/// That put 0 fails after so many bytes.
fn first_fails(alloc: Global, taken: Option<usize>) -> Result<Vec<(u64, usize)>, Fail> {
    let mut failing = Vec::new(alloc);
    if let Some(count) = taken {
        failing.push((0, count))?;
    }
    Ok(failing)
}

#[test]
fn faults(rt: HostRuntime) -> Result<(), Fail> {
    let alloc = rt.alloc();
    for (line, fetches, out_takes, notes_take, status, out, notes) in FAULTS {
        let words = words_of(alloc, line)?;
        let shelf = shelf_of(alloc, b"aa", fetches.to_vec(alloc)?)?;
        let out_sink = sink_of(alloc, first_fails(alloc, out_takes)?)?;
        let note_sink = sink_of(alloc, first_fails(alloc, notes_take)?)?;
        let ended = runs::<Brand>(alloc, Blank::new(1), &words, shelf, out_sink, note_sink);
        assert_eq!(rt; ended.0, status, "at {line}");
        assert_eq!(rt; ended.1.bytes(), out.as_bytes(), "at {line}");
        assert_eq!(rt; ended.2.bytes(), notes.as_bytes(), "at {line}");
    }
    Ok(())
}

/// Words, and the names that are fetched. The shelf holds no name E.
const FETCHED: [(&str, &[&str]); 10] = [
    ("-e~/!x{a}/~D", &["D"]),
    ("-e~/!x{a}/~E", &["E"]),
    ("-q~Q~D", &["Q", "D"]),
    ("-q~Q~Q", &["Q", "Q"]),
    ("-q~E~D", &["E"]),
    ("-q~Q~--explain", &["Q"]),
    ("-q~Q~--trial~3", &["Q"]),
    ("-e~/!x{a}/~--explain", &[]),
    ("-e~/a**/~D", &[]),
    ("-e~/!x{a}/~-a~x~D", &[]),
];

#[test]
fn fetched_names(rt: HostRuntime) -> Result<(), Fail> {
    let alloc = rt.alloc();
    for (line, names) in FETCHED {
        let words = words_of(alloc, line)?;
        let shelf = shelf_of(alloc, b"aa", Vec::new(alloc))?;
        let out = sink_of(alloc, Vec::new(alloc))?;
        let notes = sink_of(alloc, Vec::new(alloc))?;
        let ended = runs::<Brand>(alloc, Blank::new(1), &words, shelf, out, notes);
        let fetched = ended.3.fetched().ok_or(OutOfMemory)?;
        assert_eq!(rt; fetched.len(), names.len(), "at {line}");
        for (told, name) in fetched.iter().zip(names) {
            assert_eq!(rt; told.as_str(), *name, "at {line}");
        }
    }
    Ok(())
}

/// What the second of two puts of whole lines takes before it fails, how many bytes are then there, and how
/// they end.
const SECOND_PUT: [(usize, usize, &str); 2] = [
    (0, 65_535, "\nx=5645-5646\n"),
    (7, 65_542, "\nx=5645-5646\nx=5646-"),
];

/// Ten thousand rows go in two puts.
#[test]
fn second_put_fails(rt: HostRuntime) -> Result<(), Fail> {
    let alloc = rt.alloc();
    let words = words_of(alloc, "-e~/!x{a}/~D")?;
    let mut document = Vec::new(alloc);
    document.resize(10_000, b'a')?;
    for (taken, length, last) in SECOND_PUT {
        let shelf = shelf_of(alloc, document.as_slice(), Vec::new(alloc))?;
        let mut failing = Vec::new(alloc);
        failing.push((1, taken))?;
        let out = sink_of(alloc, failing)?;
        let notes = sink_of(alloc, Vec::new(alloc))?;
        let ended = runs::<Brand>(alloc, Blank::new(1), &words, shelf, out, notes);
        assert_eq!(rt; ended.0, Status::Write);
        assert_eq!(rt; ended.1.bytes().len(), length);
        assert!(rt; ended.1.bytes().ends_with(last.as_bytes()));
        assert_eq!(rt; ended.2.bytes(), b"write failed\n".as_slice());
    }
    Ok(())
}
