//! Serving: a line with a reply for each line with a request.
ghost use Rattle.std.specs.Prelude.{◌≡◌, ◌⊎◌, [], codes};
ghost use Rattle.note_texts.specs.Notes.{number_between, note_bytes};
ghost use Rattle.note_texts.specs.Outcomes.{Is, IsOutOfMemory};
ghost use Rattle.rm_outside.specs.Change.{change};
ghost use Rattle.spanner_model.specs.Passing.{known};
ghost use Rattle.session_server.specs.declared.TheConstants.{MOST_LINE_BYTES};
ghost use Rattle.session_server.specs.Serve.{Serves, ServesAll, ServesLines};

use crate::MOST_LINE_BYTES;
use crate::answering::{Opened, answer};
use note_texts::{FixedNote, Note, Outcome};
use rm_outside::{LineFault, Sink, Source, Status};
use span_core::{OutOfMemory, Steps};
use span_tests::{Judge, Tests};
use std::alloc::Global;
use std::sync::ledger::Ledger;

/// Answers the requests of a source, line by line, each with a line on out, until the source has no more; at most `most` of them.
pub fn serve<R: Source, O: Sink, N: Sink, J: Judge, L: Ledger>(
    alloc: Global,
    most: u64,
    tests: &Tests<J>,
    source: &mut R,
    out: &mut O,
    notes: &mut N,
    steps: &mut Steps<L>,
) -> Status
    ensures serves { Serves (known tests.now J.judges) most
        (change (R.told source.old) (R.told source.new))
        (change (O.told out.old) (O.told out.new))
        (change (N.told notes.old) (N.told notes.new))
        result }
    ensures all { ServesAll (known tests.now J.judges) most
        (change (R.told source.old) (R.told source.new))
        (change (O.told out.old) (O.told out.new))
        (change (N.told notes.old) (N.told notes.new))
        result }
{
    let outcome = serve_lines(alloc, most, tests, source, out, steps);
    outcome.report(notes)
}

fn serve_lines<R: Source, O: Sink, J: Judge, L: Ledger>(
    alloc: Global,
    most: u64,
    tests: &Tests<J>,
    source: &mut R,
    out: &mut O,
    steps: &mut Steps<L>,
) -> Outcome
    ensures serves { ServesLines (known tests.now J.judges) most
        (change (R.told source.old) (R.told source.new))
        (change (O.told out.old) (O.told out.new))
        result.status (note_bytes result.note) }
{
    let mut sessions = Vec::new(alloc);
    serve_on(most, tests, &mut sessions, source, out, steps)
}

/// Serves the lines by sessions of which none is open yet, and leaves them to its caller, who lets them go in one place.
fn serve_on<R: Source, O: Sink, J: Judge, L: Ledger>(
    most: u64,
    tests: &Tests<J>,
    sessions: &mut Vec<Opened>,
    source: &mut R,
    out: &mut O,
    steps: &mut Steps<L>,
) -> Outcome
    requires none { sessions.old.items ≡ [] }
    ensures serves { ServesLines (known tests.now J.judges) most
        (change (R.told source.old) (R.told source.new))
        (change (O.told out.old) (O.told out.new))
        result.status (note_bytes result.note) }
{
    let alloc = *sessions.allocator();
    let mut line = Vec::new(alloc);
    let mut served = 0u64;
    loop {
        line.clear();
        match source.line(MOST_LINE_BYTES, &mut line) {
            Ok(true) => {}
            Ok(false) => return Outcome::fixed(Status::Done, FixedNote::End),
            Err(LineFault::Failed) => return Outcome::fixed(
                Status::Read,
                FixedNote::RequestsUnread,
            ),
            Err(LineFault::TooLong { seen: _ }) => return too_long(alloc),
            Err(LineFault::OutOfMemory) => return Outcome::out_of_memory(),
        }
        if served >= most {
            return Outcome::fixed(Status::Long, FixedNote::TooManyRequests);
        }
        let reply = match answer(alloc, tests, sessions, &line, steps) {
            Ok(reply) => reply,
            Err(OutOfMemory) => return Outcome::out_of_memory(),
        };
        match out.put(&reply) {
            Ok(()) => served += 1,
            Err(_) => return Outcome::fixed(Status::Write, FixedNote::WriteFailed),
        }
    }
}

/// A request is longer than any that is answered.
fn too_long(alloc: Global) -> Outcome
    ensures { Is result.status (note_bytes result.note) Status.Long
        (number_between (codes "request longer than ") MOST_LINE_BYTES (codes " bytes"))
        ⊎ IsOutOfMemory result.status (note_bytes result.note) }
{
    let most = MOST_LINE_BYTES as u64;
    Outcome::with(alloc, Status::Long, &Note::RequestTooLong { most })
}
