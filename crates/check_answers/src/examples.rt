//! The worked examples, by the text of their queries.
ghost use Rattle.std.specs.Prelude.{◌≡◌, ◌^◌, ◌<◌, ◌≤◌, length};

use query_parser::read_query;
use span_core::{Kept, Row, Span, Steps};
use spanner_engine::{Answers, BeginFault, Options, begin, compile};
use std::alloc::Global;
use std::marker::Brand;
use std::sync::ledger::{Blank, Ledger};

/// More than the rows of any of the examples.
const MOST_ROWS: u32 = 20;

/// A document is read at all positions.
const WHOLE: Options = Options {
    filter: false,
    limit: 8_000_000,
};

/// It is read at those that an atom touches.
const FILTERED: Options = Options {
    filter: true,
    limit: 8_000_000,
};

/// How an absent variable is shown.
const ABSENT: u64 = 9999;

/// The first variable's spans in the rows that come, each as 100 times its start and its end.
fn spans<L: Ledger>(
    alloc: Global,
    answers: Answers,
    steps: &mut Steps<L>,
) -> Result<Vec<u64>, BeginFault> {
    let mut answers = answers;
    let mut spans = Vec::new(alloc);
    for _ in 0..MOST_ROWS {
        let Some(row) = answers.next(steps) else {
            return Ok(spans);
        };
        if row.len() > 0 {
            let shown = match row.at(0) {
                Some(span) => 100 * u64::from(span.start) + u64::from(span.end),
                None => ABSENT,
            };
            if spans.push(shown).is_err() {
                return Err(BeginFault::OutOfMemory);
            }
        }
    }
    Ok(spans)
}

/// The rows of a query of one variable on a document, after a span of it that was kept with the length of a document, or
/// without one.
fn rows_of<L: Ledger>(
    blank: Blank,
    alloc: Global,
    text: &[u8],
    doc: &[u8],
    after: Option<(Span, Option<u32>)>,
    options: Options,
) -> Result<Vec<u64>, BeginFault>
    requires name { blank.name ≡ L.name }
    requires parts { blank.parts ≡ L.parts }
    requires some { 0 < L.parts }
    requires few { length doc.now ≤ 2 ^ 28 }
    requires limit { options.limit ≤ 100000000 }
{
    let mut steps = Steps::<L>::new(blank);
    let Ok(query) = read_query(alloc, text) else {
        return Err(BeginFault::OutOfMemory);
    };
    let Ok(compiled) = compile(alloc, &query) else {
        return Err(BeginFault::OutOfMemory);
    };
    let mut row = Row::empty();
    let mut length = None;
    if let Some((span, of)) = after {
        row.push(Some(span));
        length = of;
    }
    let kept = Kept { row, length };
    let is_kept = kept.row.len() > 0 && kept.row.len() == compiled.vars().len();
    let after = is_kept.then_some(&kept);
    let answers = begin(alloc, &compiled, doc, after, options, &mut steps)?;
    spans(alloc, answers, &mut steps)
}

#[test]
fn a_star_gives_its_spans_in_order(rt: HostRuntime) -> Result<(), BeginFault> {
    let (text, doc) = (b"/!x{a*}/", b"aa");
    let all = rows_of::<Brand>(Blank::new(1), rt.alloc(), text, doc, None, WHOLE)?;
    assert_eq!(rt; all.as_slice(), [0, 1, 2, 101, 102, 202].as_slice());
    for length in [None, Some(2)] {
        let after = Some((Span::new(0, 1), length));
        let rest = rows_of::<Brand>(Blank::new(1), rt.alloc(), text, doc, after, WHOLE)?;
        assert_eq!(rt; rest.as_slice(), [2, 101, 102, 202].as_slice());
    }
    let optional = rows_of::<Brand>(Blank::new(1), rt.alloc(), b"/!x{a}|b/", b"ab", None, WHOLE)?;
    assert_eq!(rt; optional.as_slice(), [1, ABSENT].as_slice());
    Ok(())
}

#[test]
fn a_table_is_refused_by_its_weight(rt: HostRuntime) -> Result<(), BeginFault> {
    let (text, doc) = (b"/(a|b)*a(a|b){12}!x{c}/", b"aaaaaaaaaaaaac");
    let (enough, less) = (
        Options {
            limit: 166,
            ..WHOLE
        },
        Options {
            limit: 100,
            ..WHOLE
        },
    );
    let read = rows_of::<Brand>(Blank::new(1), rt.alloc(), text, doc, None, enough)?;
    assert_eq!(rt; read.as_slice(), [1314].as_slice());
    let full = rows_of::<Brand>(Blank::new(1), rt.alloc(), text, doc, None, less);
    assert!(rt; matches!(full, Err(BeginFault::Table { weight: 101..=166 })));
    Ok(())
}

#[test]
fn a_row_may_end_where_the_document_does(rt: HostRuntime) -> Result<(), BeginFault> {
    let (text, doc) = (b"/!x{a*}/", b"aa");
    let last = Some((Span::new(2, 2), None));
    let none = rows_of::<Brand>(Blank::new(1), rt.alloc(), text, doc, last, WHOLE)?;
    assert!(rt; none.is_empty());
    let past = Some((Span::new(2, 3), None));
    let refused = rows_of::<Brand>(Blank::new(1), rt.alloc(), text, doc, past, WHOLE);
    assert!(rt; matches!(refused, Err(BeginFault::CursorPlace)));
    let other = Some((Span::new(2, 3), Some(3)));
    let refused = rows_of::<Brand>(Blank::new(1), rt.alloc(), text, doc, other, WHOLE);
    assert!(rt; matches!(refused, Err(BeginFault::CursorOther { kept: 3, found: 2 })));
    Ok(())
}

#[test]
fn a_filter_leaves_the_answers_as_they_are(rt: HostRuntime) -> Result<(), BeginFault> {
    let (text, doc) = (b"/!x{a*}/", b"bbb");
    let empty = rows_of::<Brand>(Blank::new(1), rt.alloc(), text, doc, None, FILTERED)?;
    assert_eq!(rt; empty.as_slice(), [0, 101, 202, 303].as_slice());
    let (text, doc) = (b"/!x{aab}/", b"xxxxaabxxxx");
    let one = rows_of::<Brand>(Blank::new(1), rt.alloc(), text, doc, None, FILTERED)?;
    assert_eq!(rt; one.as_slice(), [407].as_slice());
    let little = Options {
        limit: 3,
        ..FILTERED
    };
    let full = rows_of::<Brand>(Blank::new(1), rt.alloc(), text, doc, None, little);
    assert!(rt; matches!(full, Err(BeginFault::Filter { weight: 4.. })));
    Ok(())
}
