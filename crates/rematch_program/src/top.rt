//! A run, from the words to the status.
//!
//! One function a stage, each with the type of its stage in `specs/Run.antt` as its one clause; a stage either ends the
//! run with a status and a note or hands what it has to the next.
ghost use Rattle.std.specs.Prelude.{◌≡◌, ◌≤◌, None, map, string_bytes, length, true, IfErr, IfOk, IfSome, IsErrOf, OnOk};
ghost use Rattle.std.specs.Coded.{Coded-set};
ghost use Rattle.std.specs.Option.{option_copied};
ghost use Rattle.rm_outside.specs.Shelf.{ByLength};
ghost use Rattle.command_line.specs.RequestView.{request_view};
ghost use Rattle.spanner_model.specs.ExprView.{query_of};
ghost use Rattle.spanner_model.specs.contracts.query.Query.{the_row};
ghost use Rattle.spanner_model.specs.Sound.{IsSound};
ghost use Rattle.spanner_model.specs.Answers.{AreResultNames};
ghost use Rattle.query_parser.specs.Tested.{IsTestedText};
ghost use Rattle.spanner_model.specs.Tested.{TestedTree, tested_of};
ghost use Rattle.query_automaton.specs.Parts.{AtomsAreSmall};
ghost use Rattle.spanner_engine.specs.Begun.{begin_steps, row_kept};
ghost use Rattle.spanner_engine.specs.Left.{AreLeft};
ghost use Rattle.spanner_model.specs.Passing.{AreKnown, checks_of, known};
ghost use Rattle.trial_maker.specs.Trial.{trial_text};
ghost use Rattle.rematch_program.specs.declared.TheConstants.{DOCUMENT_LIMIT};
ghost use Rattle.rm_outside.specs.Change.{change};
ghost use Rattle.rematch_program.specs.Work.{clock, work};
ghost use Rattle.note_texts.specs.Notes.{note_bytes};
ghost use Rattle.rematch_program.specs.Steps.{KeepsWithin};
ghost use Rattle.rematch_program.specs.Pages.{CursorFits, HasWidth, IsAfter};
ghost use Rattle.rematch_program.specs.Complete.{Completes};
ghost use Rattle.rematch_program.specs.Run.{FromRequest, FromCursor, FromDocument, FromPlace, FromQuery, FromText, FromWords};
ghost use Rattle.rematch_program.specs.Run.{FetchFailed, Fetches, Gives, IsHeldWithin, IsNotBegun, IsTooLarge, Run, RunTested, none_known, shelved};

use crate::explanation::write_explanation;
use crate::page::write_page;
use crate::summary::write_summary;
use crate::untested::NoJudge;
use crate::{DOCUMENT_LIMIT, QUERY_LIMIT};
use command_line::{Mode, QuerySource, Request, WordsFault, read_request};
use note_texts::{FixedNote, Note, Outcome};
use query_parser::{bind, read_tested};
use rm_outside::{FetchFault, Shelf, Sink, Status};
use row_cursor::CursorFault;
use span_core::{Kept, OutOfMemory, Steps};
use span_tests::{Judge, Tests};
use spanner_engine::{Answers, BeginFault, Compiled, Options, TestedRows, begin, compile};
use spanner_model::{Query, Tested};
use std::alloc::Global;
use std::sync::ledger::Ledger;
use trial_maker::trial;

/// Runs the program on the words after its name, where no test is known: what `run_tested` does with the empty list of tests.
pub fn run<S: Shelf, O: Sink, N: Sink, L: Ledger>(
    alloc: Global,
    words: &[String],
    shelf: &mut S,
    out: &mut O,
    notes: &mut N,
    steps: &mut Steps<L>,
) -> Status
    ensures run { Run (map string_bytes words.now)
        (shelved (S.told shelf.old) (S.told shelf.new))
        (change (O.told out.old) (O.told out.new))
        (change (N.told notes.old) (N.told notes.new))
        (clock steps.old steps.new)
        result }
    ensures complete { Completes none_known (map string_bytes words.now)
        (shelved (S.told shelf.old) (S.told shelf.new))
        (change (O.told out.old) (O.told out.new))
        (change (N.told notes.old) (N.told notes.new))
        result }
{
    let tests = Tests::<NoJudge>::new(alloc);
    run_tested(alloc, words, &tests, shelf, out, notes, steps)
}

/// Runs the program on the words after its name, with the tests that its queries may ask.
///
/// The query is fetched where the words name it, once and before all else; the document once, after all that can be decided without it,
/// and only for a page. No other name is.
///
/// The first of these steps that cannot be taken decides the status: the words, the fetch of the
/// query, its text and the names of its tests, the sizes of its automata, the cursor's text, the fetch of the document, the cursor's
/// length or place, the filter, the table, the page. Want of memory may stand in place of any of them. Until the page is begun out gets
/// nothing. The work done, notes gets one line. The page has the answers for which all tests of the query hold. It is put on out in whole
/// lines, as many at once as fit 65,536 bytes; a line that is longer is put alone, and no put is empty (tested).
///
/// The counter stands still until the document is read. The filter, the building, the place of the cursor
/// and the rows then take at most the steps that are stated; each answer that is tried takes one for each test beside its own.
pub fn run_tested<S: Shelf, O: Sink, N: Sink, J: Judge, L: Ledger>(
    alloc: Global,
    words: &[String],
    tests: &Tests<J>,
    shelf: &mut S,
    out: &mut O,
    notes: &mut N,
    steps: &mut Steps<L>,
) -> Status
    ensures run { RunTested (known tests.now J.judges) (map string_bytes words.now)
        (shelved (S.told shelf.old) (S.told shelf.new))
        (change (O.told out.old) (O.told out.new))
        (change (N.told notes.old) (N.told notes.new))
        (clock steps.old steps.new)
        result }
    ensures complete { Completes (known tests.now J.judges) (map string_bytes words.now)
        (shelved (S.told shelf.old) (S.told shelf.new))
        (change (O.told out.old) (O.told out.new))
        (change (N.told notes.old) (N.told notes.new))
        result }
{
    let outcome = with_words(alloc, words, tests, shelf, out, steps);
    outcome.report(notes)
}

/// All the work but the note.
fn with_words<S: Shelf, O: Sink, J: Judge, L: Ledger>(
    alloc: Global,
    words: &[String],
    tests: &Tests<J>,
    shelf: &mut S,
    out: &mut O,
    steps: &mut Steps<L>,
) -> Outcome
    ensures case { FromWords (shelved (S.told shelf.old) (S.told shelf.new))
        (work (change (O.told out.old) (O.told out.new)) (clock steps.old steps.new))
        result.status (note_bytes result.note) (known tests.now J.judges) (map string_bytes words.now) }
{
    match read_request(alloc, words) {
        Ok(request) => {
            let job = Job {
                alloc,
                request: &request,
                tests,
            };
            with_request(&job, shelf, out, steps)
        }
        Err(WordsFault::Refused) => Outcome::fixed(Status::Words, FixedNote::BadCommandLine),
        Err(WordsFault::OutOfMemory) => Outcome::out_of_memory(),
    }
}

/// What a run is to do, before its query is read.
#[derive(Drop)]
struct Job<'r, J: Judge> {
    alloc: Global,
    /// What the words ask for.
    request: &'r Request<'r>,
    /// The tests that are known.
    tests: &'r Tests<J>,
}

/// The query's text is taken from the words, or fetched.
fn with_request<S: Shelf, O: Sink, J: Judge, L: Ledger>(
    job: &Job<'_, J>,
    shelf: &mut S,
    out: &mut O,
    steps: &mut Steps<L>,
) -> Outcome
    ensures case { FromRequest (shelved (S.told shelf.old) (S.told shelf.new))
        (work (change (O.told out.old) (O.told out.new)) (clock steps.old steps.new))
        result.status (note_bytes result.note) (known job.now.tests.now J.judges) (request_view job.now.request.now) }
{
    let name = match job.request.query {
        QuerySource::Given(text) => {
            return with_text(job, text.as_bytes(), shelf, out, steps);
        }
        QuerySource::Named(name) => name,
    };
    match fetch_all(job.alloc, shelf, name, QUERY_LIMIT) {
        Ok(text) => with_text(job, &text, shelf, out, steps),
        Err(FetchFault::Failed) => Outcome::fixed(Status::Read, FixedNote::QueryUnread),
        Err(FetchFault::TooLong { seen: _ }) => Outcome::with(
            job.alloc,
            Status::Query,
            &Note::QueryTooLong { most: QUERY_LIMIT },
        ),
        Err(FetchFault::OutOfMemory) => Outcome::out_of_memory(),
    }
}

/// The query is read, and its tests are looked for among those that are known.
fn with_text<S: Shelf, O: Sink, J: Judge, L: Ledger>(
    job: &Job<'_, J>,
    text: &[u8],
    shelf: &mut S,
    out: &mut O,
    steps: &mut Steps<L>,
) -> Outcome
    ensures case { FromText (shelved (S.told shelf.old) (S.told shelf.new))
        (work (change (O.told out.old) (O.told out.new)) (clock steps.old steps.new))
        result.status (note_bytes result.note) (known job.now.tests.now J.judges) (request_view job.now.request.now) text.now }
{
    let tested = match read_tested(job.alloc, text) {
        Ok(tested) => tested,
        Err(fault) => return Outcome::of_query(job.alloc, &fault),
    };
    match bind(&tested, job.tests) {
        Ok(()) => with_query(job, &tested, shelf, out, steps),
        Err(fault) => Outcome::of_query(job.alloc, &fault),
    }
}

/// What the query is, or the answers that are asked for.
fn with_query<S: Shelf, O: Sink, J: Judge, L: Ledger>(
    job: &Job<'_, J>,
    tested: &Tested,
    shelf: &mut S,
    out: &mut O,
    steps: &mut Steps<L>,
) -> Outcome
    requires sound { IsSound (query_of tested.now.query) }
    requires bound { AreKnown (known job.now.tests.now J.judges) tested.now.asked }
    ensures case { FromQuery (shelved (S.told shelf.old) (S.told shelf.new))
        (work (change (O.told out.old) (O.told out.new)) (clock steps.old steps.new))
        result.status (note_bytes result.note) (request_view job.now.request.now) (tested_of tested.now)
        (checks_of (known job.now.tests.now J.judges) tested.now.asked) }
{
    match job.request.mode {
        Mode::Explain => write_explanation(job.alloc, tested, out),
        Mode::Plain => match compiled_query(job.alloc, &tested.query) {
            Ok(compiled) => {
                let asking = Asking {
                    alloc: job.alloc,
                    request: job.request,
                    tested,
                    tests: job.tests,
                    compiled,
                };
                with_cursor(&asking, shelf, out, steps)
            }
            Err(outcome) => outcome,
        },
        Mode::Trial(lines) => match compiled_query(job.alloc, &tested.query) {
            Ok(compiled) => {
                let asking = Asking {
                    alloc: job.alloc,
                    request: job.request,
                    tested,
                    tests: job.tests,
                    compiled,
                };
                with_lines(lines, &asking, out, steps)
            }
            Err(outcome) => outcome,
        },
    }
}

/// What is asked of a document. The automaton is that of the query with its tests, and each of its tests is known.
#[derive(Drop)]
struct Asking<'r, J: Judge> {
    alloc: Global,
    /// What the words ask for.
    request: &'r Request<'r>,
    /// The query with its tests.
    tested: &'r Tested,
    /// The tests that are known.
    tests: &'r Tests<J>,
    /// The query with its automaton.
    compiled: Compiled<'r>,
    ghost query: { compiled.query ≡ tested.now.query } by { Coded-set the_row.coded compiled.query tested.now.query },
    ghost bound: { ∥ AreKnown (known tests.now J.judges) tested.now.asked ∥₁ },
}

/// The query with its automaton, or how a run ends that has none.
fn compiled_query<'q>(alloc: Global, query: &'q Query) -> Result<Compiled<'q>, Outcome>
    requires sound { IsSound (query_of query.now) }
    ensures query { IfOk result (λ c. c.query ≡ query.now) }
    ensures names { IfOk result (λ c. AreResultNames (query_of query.now) c.automaton.names) }
    ensures small { OnOk result (AtomsAreSmall (query_of query.now)) }
    ensures outcome { IfErr result (λ e. IsTooLarge (query_of query.now) e.status (note_bytes e.note)) }
{
    match compile(alloc, query) {
        Ok(compiled) => Ok(compiled),
        Err(fault) => Err(Outcome::of_size(alloc, &fault)),
    }
}

/// The cursor is read.
fn with_cursor<S: Shelf, O: Sink, J: Judge, L: Ledger>(
    asking: &Asking<'_, J>,
    shelf: &mut S,
    out: &mut O,
    steps: &mut Steps<L>,
) -> Outcome
    requires plain { (request_view asking.now.request.now).mode ≡ Mode.Plain }
    ensures case { let a = asking.now in
        FromCursor (request_view a.request.now) (query_of a.compiled.query) (checks_of (known a.tests.now J.judges) a.tested.now.asked)
        (work (change (O.told out.old) (O.told out.new)) (clock steps.old steps.new))
        result.status (note_bytes result.note) (shelved (S.told shelf.old) (S.told shelf.new)) a.compiled.automaton.names }
{
    let text = match asking.request.after {
        Some(text) => text,
        None => return with_place(asking, None, shelf, out, steps),
    };
    match row_cursor::read(text.as_bytes(), asking.compiled.vars()) {
        Ok(kept) => with_place(asking, Some(&kept), shelf, out, steps),
        Err(CursorFault::Syntax) => Outcome::fixed(Status::Cursor, FixedNote::NotACursor),
        Err(CursorFault::Variables) => Outcome::fixed(Status::Cursor, FixedNote::OtherVariables),
    }
}

/// The document is fetched, for a page that begins after the row that is kept.
fn with_place<S: Shelf, O: Sink, J: Judge, L: Ledger>(
    asking: &Asking<'_, J>,
    after: Option<&Kept>,
    shelf: &mut S,
    out: &mut O,
    steps: &mut Steps<L>,
) -> Outcome
    requires plain { (request_view asking.now.request.now).mode ≡ Mode.Plain }
    requires after { IsAfter asking.now.compiled.automaton.names (request_view asking.now.request.now).after (option_copied after) }
    ensures case { let a = asking.now in
        FromPlace (request_view a.request.now) (query_of a.compiled.query) (checks_of (known a.tests.now J.judges) a.tested.now.asked)
        (work (change (O.told out.old) (O.told out.new)) (clock steps.old steps.new))
        result.status (note_bytes result.note) (shelved (S.told shelf.old) (S.told shelf.new))
        a.compiled.automaton.names (option_copied after.entry) }
{
    match fetch_all(asking.alloc, shelf, asking.request.document, DOCUMENT_LIMIT) {
        Ok(document) => with_document(asking, after, &document, out, steps),
        Err(FetchFault::Failed) => Outcome::fixed(Status::Read, FixedNote::DocumentUnread),
        Err(FetchFault::TooLong { seen: _ }) => Outcome::with(
            asking.alloc,
            Status::Long,
            &Note::DocumentTooLong {
                most: DOCUMENT_LIMIT,
            },
        ),
        Err(FetchFault::OutOfMemory) => Outcome::out_of_memory(),
    }
}

/// The answers after the row that is kept are begun, for a page of those that pass the tests.
fn with_document<O: Sink, J: Judge, L: Ledger>(
    asking: &Asking<'_, J>,
    after: Option<&Kept>,
    document: &[u8],
    out: &mut O,
    steps: &mut Steps<L>,
) -> Outcome
    requires plain { (request_view asking.now.request.now).mode ≡ Mode.Plain }
    requires after { IsAfter asking.now.compiled.automaton.names (request_view asking.now.request.now).after (option_copied after) }
    requires short { length document.now ≤ DOCUMENT_LIMIT }
    ensures case { let a = asking.now in
        FromDocument (request_view a.request.now) (query_of a.compiled.query) (checks_of (known a.tests.now J.judges) a.tested.now.asked)
        (work (change (O.told out.old) (O.told out.new)) (clock steps.old steps.new))
        result.status (note_bytes result.note) a.compiled.automaton.names (option_copied after.entry) document.now }
{
    match begun(asking, after, document, steps) {
        Ok(mut answers) => {
            let mut rows = TestedRows::new(
                &mut answers,
                asking.tested,
                asking.compiled.vars(),
                asking.tests,
                document,
            );
            write_page(asking.alloc, asking.request, &mut rows, out, steps)
        }
        Err(outcome) => outcome,
    }
}

/// The document of so many lines is made, and all answers on it are begun, for a summary of those that pass the tests.
fn with_lines<O: Sink, J: Judge, L: Ledger>(
    lines: u32,
    asking: &Asking<'_, J>,
    out: &mut O,
    steps: &mut Steps<L>,
) -> Outcome
    requires trial { (request_view asking.now.request.now).mode ≡ Mode.Trial lines }
    ensures case { let a = asking.now in
        FromDocument (request_view a.request.now) (query_of a.compiled.query) (checks_of (known a.tests.now J.judges) a.tested.now.asked)
        (work (change (O.told out.old) (O.told out.new)) (clock steps.old steps.new))
        result.status (note_bytes result.note) a.compiled.automaton.names None (trial_text lines) }
{
    match trial(asking.alloc, lines) {
        Ok(document) => with_trial(lines, asking, &document, out, steps),
        Err(OutOfMemory) => Outcome::out_of_memory(),
    }
}

/// The answers on the document of so many lines are begun.
fn with_trial<O: Sink, J: Judge, L: Ledger>(
    lines: u32,
    asking: &Asking<'_, J>,
    document: &[u8],
    out: &mut O,
    steps: &mut Steps<L>,
) -> Outcome
    requires trial { (request_view asking.now.request.now).mode ≡ Mode.Trial lines }
    requires short { length document.now ≤ DOCUMENT_LIMIT }
    ensures case { let a = asking.now in
        FromDocument (request_view a.request.now) (query_of a.compiled.query) (checks_of (known a.tests.now J.judges) a.tested.now.asked)
        (work (change (O.told out.old) (O.told out.new)) (clock steps.old steps.new))
        result.status (note_bytes result.note) a.compiled.automaton.names None document.now }
{
    match begun(asking, None, document, steps) {
        Ok(mut answers) => {
            let mut rows = TestedRows::new(
                &mut answers,
                asking.tested,
                asking.compiled.vars(),
                asking.tests,
                document,
            );
            write_summary(asking.alloc, lines, &mut rows, out, steps)
        }
        Err(outcome) => outcome,
    }
}

/// The answers on a document after the row that is kept, or how a run ends that has none.
fn begun<J: Judge, L: Ledger>(
    asking: &Asking<'_, J>,
    after: Option<&Kept>,
    document: &[u8],
    steps: &mut Steps<L>,
) -> Result<Answers, Outcome>
    requires short { length document.now ≤ DOCUMENT_LIMIT }
    requires width { HasWidth (length asking.now.compiled.automaton.names) (row_kept (option_copied after)) }
    ensures names { OnOk result (AreResultNames (query_of asking.now.compiled.query) asking.now.compiled.automaton.names) }
    ensures fits { OnOk result (CursorFits (length document.now) (option_copied after.entry)) }
    ensures left { let c = asking.now.compiled in
        IfOk result (λ a. AreLeft (query_of c.query) document.now c.automaton.names (row_kept (option_copied after.entry)) a.rest) }
    ensures variables { IfOk result (λ a. a.variables ≡ length asking.now.compiled.automaton.names) }
    ensures held { let r = request_view asking.now.request.now in
        OnOk result (IsHeldWithin r.filter (query_of asking.now.compiled.query) document.now r.max_table) }
    ensures outcome { let r = request_view asking.now.request.now in
        let q = query_of asking.now.compiled.query in
        IfErr result (λ e. IsNotBegun r.filter q (option_copied after.entry) document.now r.max_table (clock steps.old steps.new)
        e.status (note_bytes e.note)) }
    ensures steps { let filter = (request_view asking.now.request.now).filter in
        let q = query_of asking.now.compiled.query in
        KeepsWithin filter q document.now (λ K. begin_steps filter q document.now K (row_kept (option_copied after.entry)))
        (clock steps.old steps.new) }
{
    let options = Options {
        filter: asking.request.filter,
        limit: asking.request.max_table,
    };
    asking.compiled.automaton(); // it was compiled from the query, which this call says
    match begin(
        asking.alloc,
        &asking.compiled,
        document,
        after,
        options,
        steps,
    ) {
        Ok(answers) => Ok(answers),
        Err(BeginFault::CursorOther { kept, found }) => Err(Outcome::with(
            asking.alloc,
            Status::Cursor,
            &Note::OtherDocument { kept, found },
        )),
        Err(BeginFault::CursorPlace) => Err(Outcome::fixed(
            Status::Cursor,
            FixedNote::PastTheDocument,
        )),
        Err(BeginFault::Filter { weight: _ }) => Err(Outcome::with(
            asking.alloc,
            Status::Size,
            &Note::Filter {
                limit: asking.request.max_table,
            },
        )),
        Err(BeginFault::Table { weight: _ }) => Err(Outcome::with(
            asking.alloc,
            Status::Size,
            &Note::Table {
                limit: asking.request.max_table,
            },
        )),
        Err(BeginFault::OutOfMemory) => Err(Outcome::out_of_memory()),
    }
}

/// All that a name holds.
fn fetch_all<S: Shelf>(
    alloc: Global,
    shelf: &mut S,
    name: &str,
    limit: u64,
) -> Result<Vec<u8>, FetchFault>
    ensures once { Fetches (shelved (S.told shelf.old) (S.told shelf.new)) name.now }
    ensures gives { IfOk result (λ bytes. Gives (shelved (S.told shelf.old) (S.told shelf.new)) name.now limit bytes.items) }
    ensures by_length { IfSome ((S.told shelf.old).held name.now) (λ all. ByLength limit (length all) result) }
    ensures failed { IsErrOf result FetchFault.Failed → FetchFailed (shelved (S.told shelf.old) (S.told shelf.new)) name.now }
{
    let mut bytes = Vec::new(alloc);
    match shelf.fetch(name, limit, &mut bytes) {
        Ok(()) => Ok(bytes),
        Err(fault) => Err(fault),
    }
}
