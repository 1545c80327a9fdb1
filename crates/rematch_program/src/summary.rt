//! A summary of all answers: how many there are, the first and the last.
ghost use Rattle.std.specs.Prelude.{◌≡◌, ℕ, ◌≤◌, ◌++◌, ◌^◌, ◌-◌, codes, length, min, slice_get, None, IfOk, IfSome, OnOk};
ghost use Rattle.spanner_model.specs.Answers.{page_end};
ghost use Rattle.rm_outside.specs.Change.{change};
ghost use Rattle.rematch_program.specs.Work.{work, clock};
ghost use Rattle.note_texts.specs.Notes.{line, note_bytes};
ghost use Rattle.spanner_engine.specs.Borrowed.{left_in};
ghost use Rattle.rematch_program.specs.Pages.{FitsPage};
ghost use Rattle.rematch_program.specs.Run.{FromPage};
ghost use Rattle.rematch_program.specs.Taking.{AllTaken, coming};
ghost use Rattle.rematch_program.specs.Trials.{later_row, summary_row, trial_summary};
ghost use Rattle.trial_maker.specs.Summary.{number_line, row_line};

use note_texts::{FixedNote, Outcome};
use rm_outside::{Sink, SinkFailed, Status};
use row_writer::spans_line;
use span_core::{OutOfMemory, Row, Steps, VarSet};
use span_tests::Judge;
use spanner_engine::TestedRows;
use std::alloc::Global;
use std::sync::ledger::Ledger;

/// Takes all rows that are left, and puts a summary of them: how many lines and bytes the document has,
/// how many rows there are, the first and the last.
pub fn write_summary<O: Sink, J: Judge, L: Ledger>(
    alloc: Global,
    lines: u32,
    rows: &mut TestedRows<'_, J>,
    out: &mut O,
    steps: &mut Steps<L>,
) -> Outcome
    ensures case { FromPage
        (work (change (O.told out.old) (O.told out.new)) (clock steps.old steps.new))
        result.status (note_bytes result.note)
        (trial_summary lines (left_in rows.old).source.names (left_in rows.old).source.document (coming J.judges (left_in rows.old))) (line (codes "end")) (AllTaken J.judges (left_in rows.old)) }
{
    let counted = count_rows(rows, steps);
    let text = match summary(alloc, lines, rows.vars(), rows.document(), &counted) {
        Ok(text) => text,
        Err(OutOfMemory) => return Outcome::out_of_memory(),
    };
    match out.put(&text) {
        Ok(()) => Outcome::fixed(Status::Done, FixedNote::End),
        Err(SinkFailed) => Outcome::fixed(Status::Write, FixedNote::WriteFailed),
    }
}

/// How many rows there are, the first and the last.
#[derive(Drop)]
pub struct Counted {
    /// At most 2^64 - 1.
    pub rows: u64,
    pub first: Option<Row>,
    /// The last, where it is not the first.
    pub later: Option<Row>,
}

/// Takes all rows that are left.
fn count_rows<J: Judge, L: Ledger>(rows: &mut TestedRows<'_, J>, steps: &mut Steps<L>) -> Counted
    ensures source { (left_in rows.new).source ≡ (left_in rows.old).source }
    ensures rows { result.rows ≡ min (length (coming J.judges (left_in rows.old))) (2 ^ 64 - 1) }
    ensures first { result.first ≡ slice_get (coming J.judges (left_in rows.old)) 0 }
    ensures last { later_row result.first result.later ≡ page_end (coming J.judges (left_in rows.old)) None }
    ensures first_fits { IfSome result.first
        (FitsPage (length (left_in rows.old).source.names) (length (left_in rows.old).source.document)) }
    ensures later_fits { IfSome result.later
        (FitsPage (length (left_in rows.old).source.names) (length (left_in rows.old).source.document)) }
    ensures steps { AllTaken J.judges (left_in rows.old) (clock steps.old steps.new) }
{
    let first = match rows.next(steps) {
        Some(row) => row,
        None => {
            return Counted {
                rows: 0,
                first: None,
                later: None,
            };
        }
    };
    let mut count: u64 = 1;
    let mut later = None;
    while let Some(row) = rows.next(steps) {
        count = count.saturating_add(1);
        later = Some(row);
    }
    Counted {
        rows: count,
        first: Some(first),
        later,
    }
}

/// The text of the summary.
fn summary(
    alloc: Global,
    lines: u32,
    vars: &VarSet,
    document: &[u8],
    counted: &Counted,
) -> Result<Vec<u8>, OutOfMemory>
    requires first { IfSome counted.now.first (FitsPage (length vars.now) (length document.now)) }
    requires later { IfSome counted.now.later (FitsPage (length vars.now) (length document.now)) }
    ensures { IfOk result (λ text. text.items ≡
        number_line (codes "lines") lines ++ number_line (codes "bytes") (length document.now) ++ number_line (codes "rows") counted.now.rows
        ++ row_line (codes "first") (summary_row vars.now document.now counted.now.first)
        ++ row_line (codes "last") (summary_row vars.now document.now (later_row counted.now.first counted.now.later))) }
{
    let (bytes, rows) = (document.len(), counted.rows);
    let head = format!(in alloc; "lines {lines}\nbytes {bytes}\nrows {rows}\n")?;
    let mut text = head.into_bytes();
    push_row("first", vars, document, &counted.first, &mut text)?;
    let last = match &counted.later {
        Some(_) => &counted.later,
        None => &counted.first,
    };
    push_row("last", vars, document, last, &mut text)?;
    Ok(text)
}

/// Appends a word and the line of a row, or that there is none.
fn push_row(
    word: &str,
    vars: &VarSet,
    document: &[u8],
    row: &Option<Row>,
    text: &mut Vec<u8>,
) -> Result<(), OutOfMemory>
    requires { IfSome row.now (FitsPage (length vars.now) (length document.now)) }
    ensures { OnOk result (text.new.items ≡ text.old.items ++ row_line word.now (summary_row vars.now document.now row.now)) }
{
    text.extend_from_slice(word.as_bytes())?;
    match row {
        Some(row) => {
            text.push(b' ')?;
            spans_line(vars, row, document, false, text)
        }
        None => {
            text.extend_from_slice(b" none\n")?;
            Ok(())
        }
    }
}
