//! A page of answers: its rows, one by one, its text on out, and the note at its end.
//!
//! A page is never held: each row is asked for when its line is written. The note is made before the last put, so that
//! want of memory can no more come when all is written.
ghost use Rattle.std.specs.Prelude.{◌≡◌, ◌+◌, ◌-◌, ◌*◌, ◌<◌, ◌≤◌, ◌^◌, ◌++◌, [], false, length, IfOk, OnOk, OnErr, IsErrOf};
ghost use Rattle.std.specs.Bool.{OnTrue};
ghost use Rattle.span_core.specs.declared.TheConstants.{MOST_VARIABLES};
ghost use Rattle.command_line.specs.RequestView.{request_view};
ghost use Rattle.note_texts.specs.Notes.{note_bytes};
ghost use Rattle.rm_outside.specs.Change.{change, Adds, AddsPart, Failed};
ghost use Rattle.spanner_engine.specs.Borrowed.{left_in};
ghost use Rattle.spanner_engine.specs.Left.{EndsIn};
ghost use Rattle.rematch_program.specs.Pages.{FitsIf, cursor_given, last_note, row_if};
ghost use Rattle.rematch_program.specs.Run.{FromPage};
ghost use Rattle.rematch_program.specs.Taking.{HaveTaken, PageTaken, coming, page_note as note_of_page, page_rows, whole_text};
ghost use Rattle.rematch_program.specs.Work.{clock, work, Passes, SoFar};
ghost use Rattle.rematch_program.specs.Written.{EndsPage, Fits, IsOver, lines_of, with_waiting};

use crate::page_writer::{PageFault, PageWriter};
use crate::remaining::Remaining;
use command_line::Request;
use note_texts::{FixedNote, Note, NoteLine, Outcome};
use rm_outside::{Sink, SinkFailed, Status};
use span_core::{OutOfMemory, Row, Steps, VarSet};
use span_tests::Judge;
use spanner_engine::{MOST_ENDS, TestedRows};
use std::alloc::Global;
use std::sync::ledger::Ledger;

/// Writes the page. Its note is made before the last put.
pub fn write_page<O: Sink, J: Judge, L: Ledger>(
    alloc: Global,
    request: &Request<'_>,
    rows: &mut TestedRows<'_, J>,
    out: &mut O,
    steps: &mut Steps<L>,
) -> Outcome
    ensures case { FromPage
        (work (change (O.told out.old) (O.told out.new)) (clock steps.old steps.new))
        result.status (note_bytes result.note)
        (whole_text J.judges (left_in rows.old) (request_view request.now))
        (note_of_page J.judges (left_in rows.old) (request_view request.now))
        (PageTaken J.judges (left_in rows.old) (request_view request.now).limit) }
{
    match put_page(alloc, request, rows, out, steps) {
        Ok(note) => Outcome {
            status: Status::Done,
            note,
        },
        Err(PageFault::Failed) => Outcome::fixed(Status::Write, FixedNote::WriteFailed),
        Err(PageFault::OutOfMemory) => Outcome::out_of_memory(),
    }
}

/// Puts the text of the page, and gives its note.
fn put_page<O: Sink, J: Judge, L: Ledger>(
    alloc: Global,
    request: &Request<'_>,
    rows: &mut TestedRows<'_, J>,
    out: &mut O,
    steps: &mut Steps<L>,
) -> Result<NoteLine, PageFault>
    ensures whole { OnOk result (Adds (change (O.told out.old) (O.told out.new))
        (whole_text J.judges (left_in rows.old) (request_view request.now))) }
    ensures part { OnErr result (AddsPart (change (O.told out.old) (O.told out.new))
        (whole_text J.judges (left_in rows.old) (request_view request.now))) }
    ensures failed { IsErrOf result PageFault.Failed → Failed (change (O.told out.old) (O.told out.new)) }
    ensures note { IfOk result (λ note. note_bytes note ≡ note_of_page J.judges (left_in rows.old) (request_view request.now)) }
    ensures steps { PageTaken J.judges (left_in rows.old) (request_view request.now).limit (clock steps.old steps.new) }
{
    let mut page = PageWriter::begin(alloc, request, rows.vars(), rows.document())?;
    let end = match put_rows(&mut page, request.limit, rows, out, steps) {
        Ok(end) => end,
        Err(fault) => return Err(fault),
    };
    let note = page_note(alloc, request, rows.vars(), rows.document(), &end)?;
    match page.flush(out) {
        Ok(()) => Ok(note),
        Err(SinkFailed) => Err(PageFault::Failed),
    }
}

/// The note at the end of a page.
fn page_note(
    alloc: Global,
    request: &Request<'_>,
    vars: &VarSet,
    document: &[u8],
    end: &PageEnd,
) -> Result<NoteLine, OutOfMemory>
    requires few { length document.now ≤ 2 ^ 28 }
    requires fit { FitsIf (length vars.now) (length document.now) end.now.last }
    ensures { IfOk result (λ note. note_bytes note
        ≡ last_note vars.now (length document.now)
        (cursor_given vars.now (length document.now) end.now.last (request_view request.now).after) [] end.now.more) }
{
    if !end.more {
        return Ok(NoteLine::Fixed(FixedNote::End));
    }
    let n = document.len() as u32;
    let mut cursor = Vec::new(alloc);
    match &end.last {
        Some(row) => row_cursor::print(row, vars, n, &mut cursor)?,
        None => cursor.extend_from_slice(request.after.unwrap_or("start").as_bytes())?,
    }
    NoteLine::of_note(alloc, &Note::More { cursor: &cursor })
}

/// Where the rows of a page end.
#[derive(Drop)]
pub struct PageEnd {
    /// The last row of the page. It is told where more rows remain.
    pub last: Option<Row>,
    /// Whether more rows remain.
    pub more: bool,
}

/// Takes rows up to the limit, one by one, and puts the line of each or lets it wait; and then one more, to know whether rows remain.
fn put_rows<O: Sink, J: Judge, L: Ledger>(
    page: &mut PageWriter<'_>,
    limit: Option<u64>,
    rows: &mut TestedRows<'_, J>,
    out: &mut O,
    steps: &mut Steps<L>,
) -> Result<PageEnd, PageFault>
    requires over { IsOver page.old (left_in rows.old).source }
    ensures source { (left_in rows.new).source ≡ (left_in rows.old).source }
    ensures ok { OnOk result (Passes page.old.waiting (lines_of page.old (page_rows J.judges (left_in rows.old) limit)) page.new.waiting
        (change (O.told out.old) (O.told out.new))) }
    ensures part { OnErr result (AddsPart (change (O.told out.old) (O.told out.new))
        (page.old.waiting ++ lines_of page.old (page_rows J.judges (left_in rows.old) limit))) }
    ensures failed { IsErrOf result PageFault.Failed → Failed (change (O.told out.old) (O.told out.new)) }
    ensures later { (O.told out.old).faults ≤ (O.told out.new).faults }
    ensures fits { IfOk result (λ e. FitsIf (length page.old.names) (length page.old.document) e.last) }
    ensures end { IfOk result
        (λ e. EndsPage (page_rows J.judges (left_in rows.old) limit) (coming J.judges (left_in rows.old)) e.last e.more) }
    ensures steps { PageTaken J.judges (left_in rows.old) limit (clock steps.old steps.new) }
{
    let mut some = false;
    let mut remaining = Remaining::of(limit);
    while remaining.take_one() {
        if !rows.advance(steps) {
            return Ok(PageEnd {
                last: None,
                more: false,
            });
        }
        if let Err(fault) = page.put(rows.spans(), out) {
            return Err(fault);
        }
        some = true;
        if let Err(fault) = put_runs(page, &mut remaining, rows, out, steps) {
            return Err(fault);
        }
    }
    let last = last_row(some, rows);
    let more = rows.advance(steps);
    Ok(PageEnd { last, more })
}

/// Takes the rows that stand next and differ from the one that was gone to in the end of one span alone, as many as remain of the page,
/// and puts their lines or lets them wait.
fn put_runs<O: Sink, J: Judge, L: Ledger>(
    page: &mut PageWriter<'_>,
    remaining: &mut Remaining,
    rows: &mut TestedRows<'_, J>,
    out: &mut O,
    steps: &mut Steps<L>,
) -> Result<(), PageFault>
    requires over { IsOver page.old (left_in rows.old).source }
    requires row { Fits page.old (left_in rows.old).row }
    ensures source { (left_in rows.new).source ≡ (left_in rows.old).source }
    ensures same { page.new ≡ with_waiting page.new.waiting page.old }
    ensures taken { HaveTaken J.judges (left_in rows.old) (left_in rows.new) remaining.old remaining.new }
    ensures left { EndsIn (left_in rows.old).rest (left_in rows.new).rest }
    ensures row { Fits page.old (left_in rows.new).row }
    ensures ok { OnOk result (SoFar (change (O.told out.old) (O.told out.new)) page.new.waiting
        (lines_of page.old (page_rows J.judges (left_in rows.new) remaining.new))
        (page.old.waiting ++ lines_of page.old (page_rows J.judges (left_in rows.old) remaining.old))) }
    ensures part { OnErr result (AddsPart (change (O.told out.old) (O.told out.new))
        (page.old.waiting ++ lines_of page.old (page_rows J.judges (left_in rows.old) remaining.old))) }
    ensures failed { IsErrOf result PageFault.Failed → Failed (change (O.told out.old) (O.told out.new)) }
    ensures later { (O.told out.old).faults ≤ (O.told out.new).faults }
    ensures steps { steps.new ≤ steps.old + (4 * (length (left_in rows.old).rest - length (left_in rows.new).rest) + 2) }
{
    if !page.takes_ends() {
        return Ok(());
    }
    let mut full = true;
    while full {
        full = match put_run(page, remaining, rows, out, steps) {
            Ok(full) => full,
            Err(fault) => return Err(fault),
        };
    }
    Ok(())
}

/// Takes such rows as many at once as fit one put of lines, and says whether they were so many.
fn put_run<O: Sink, J: Judge, L: Ledger>(
    page: &mut PageWriter<'_>,
    remaining: &mut Remaining,
    rows: &mut TestedRows<'_, J>,
    out: &mut O,
    steps: &mut Steps<L>,
) -> Result<bool, PageFault>
    requires bare { page.old.texts ≡ false }
    requires few { length page.old.names < MOST_VARIABLES }
    requires over { IsOver page.old (left_in rows.old).source }
    requires row { Fits page.old (left_in rows.old).row }
    ensures source { (left_in rows.new).source ≡ (left_in rows.old).source }
    ensures same { page.new ≡ with_waiting page.new.waiting page.old }
    ensures taken { HaveTaken J.judges (left_in rows.old) (left_in rows.new) remaining.old remaining.new }
    ensures left { EndsIn (left_in rows.old).rest (left_in rows.new).rest }
    ensures row { Fits page.old (left_in rows.new).row }
    ensures ok { OnOk result (SoFar (change (O.told out.old) (O.told out.new)) page.new.waiting
        (lines_of page.old (page_rows J.judges (left_in rows.new) remaining.new))
        (page.old.waiting ++ lines_of page.old (page_rows J.judges (left_in rows.old) remaining.old))) }
    ensures part { OnErr result (AddsPart (change (O.told out.old) (O.told out.new))
        (page.old.waiting ++ lines_of page.old (page_rows J.judges (left_in rows.old) remaining.old))) }
    ensures failed { IsErrOf result PageFault.Failed → Failed (change (O.told out.old) (O.told out.new)) }
    ensures later { (O.told out.old).faults ≤ (O.told out.new).faults }
    ensures steps { steps.new ≤ steps.old + (4 * (length (left_in rows.old).rest - length (left_in rows.new).rest) + 2) }
    ensures full { IfOk result (λ full. OnTrue full ((length (left_in rows.new).rest < length (left_in rows.old).rest)
        × (steps.new ≤ steps.old + 4 * (length (left_in rows.old).rest - length (left_in rows.new).rest)))) }
{
    let mut ends = [0; MOST_ENDS];
    let run = rows.advance_ends(&mut ends, remaining.at_most(MOST_ENDS), steps);
    if run.count == 0 {
        return Ok(false);
    }
    remaining.take(run.count);
    match page.put_ends(rows.spans(), run.place, &ends[..run.count], out) {
        Ok(()) => Ok(run.count == MOST_ENDS),
        Err(fault) => Err(fault),
    }
}

/// The row that was gone to last, if some row was.
#[inline(never)]
fn last_row<J: Judge>(some: bool, rows: &TestedRows<'_, J>) -> Option<Row>
    ensures { result ≡ row_if some (left_in rows.now).row }
{
    if some { Some(rows.row()) } else { None }
}
