//! One session: a query with its tests on a document that may grow, and the rows that are still to come.
ghost use Rattle.std.specs.Prelude.{◌≡◌, ◌^◌, ◌≤◌, ◌<◌, ◌+◌, ℕ, List, [], ◌∷◌, length, true, IfOk, IfErr, IfSome, IfNone, OnOk};
ghost use Rattle.std.specs.Bool.{OnTrue, OnFalse};
ghost use Rattle.spanner_model.specs.Answers.{SpanRow, AreResultNames, AreAnswers};
ghost use Rattle.spanner_model.specs.Expression.{QueryTree};
ghost use Rattle.spanner_model.specs.ExprView.{query_of};
ghost use Rattle.spanner_model.specs.Sound.{IsSound};
ghost use Rattle.query_parser.specs.Tested.{IsTestedText};
ghost use Rattle.spanner_model.specs.Tested.{TestedTree, tested_of};
ghost use Rattle.query_automaton.specs.CompiledQuery.{IsCompiled};
ghost use Rattle.query_automaton.specs.Parts.{AtomsAreSmall};
ghost use Rattle.query_parser.specs.Binding.{IsOnlyTested};
ghost use Rattle.spanner_model.specs.Passing.{Known, known};
ghost use Rattle.row_writer.specs.Kept.{json_kept};
ghost use Rattle.note_texts.specs.Notes.{table_note};
ghost use Rattle.note_texts.specs.Refusals.{MatchNote};
ghost use Rattle.session_server.specs.Replies.{Session as Spoken, asking, growing as growing_by, to_come};
ghost use Rattle.session_server.specs.Standing.{GivesOne, GivesPage, HasGiven, IsBegun, IsGrowHalt, IsReadOn, IsRefusal, IsRowsHalt, IsSession, IsSessionOver, IsStartHalt, IsTooHeavy, IsWaiting, halt_of as halt_by};

use crate::json_rows::JsonRows;
use crate::{MOST_GROWN, SESSION_TABLE};
use growing_document::{GrowFault, Growing};
use marked_automaton::Automaton;
use note_texts::{Note, Refusal};
use query_parser::{bind, read_tested};
use span_core::{OutOfMemory, Steps, VarSet};
use span_tests::{Judge, Tests};
use spanner_engine::{Answers, Compiled, TestedRows, compile};
use spanner_model::{Query, Tested};
use std::alloc::Global;
use std::sync::ledger::Ledger;

/// How many bytes a way of an automaton takes.
const WAY_BYTES: u64 = 48;

/// How many bytes an end takes.
const END_BYTES: u64 = 16;

/// A session that is open.
#[derive(Drop)]
pub(crate) struct Session {
    tested: Tested,
    vars: VarSet,
    growing: Growing,
    answers: Answers,
    /// Whether a row remains; it is the one that `answers` has gone to.
    some: bool,
    /// Whether the document has grown since its rows were asked for.
    grown: bool,
}

/// Why a session is not gone on with.
#[derive(Clone, Copy)]
pub(crate) enum Halt {
    /// Reading its document weighs too much.
    Heavy,
    OutOfMemory,
}

/// The rows of a session, as a JSON array, and whether more remain.
#[derive(Drop)]
pub(crate) struct Page {
    pub(crate) rows: Vec<u8>,
    pub(crate) more: bool,
}

impl Session {
    /// Begins the rows of a query's text on a document.
    pub(crate) fn open<J: Judge, L: Ledger>(
        alloc: Global,
        tests: &Tests<J>,
        text: &[u8],
        document: Vec<u8>,
        steps: &mut Steps<L>,
    ) -> Result<Session, Refusal>
        requires few { length document.items ≤ 2 ^ 28 }
        ensures opened { IfOk result (IsBegun (known tests.now J.judges) text.now document.items) }
        ensures refused { IfErr result (IsRefusal (known tests.now J.judges) text.now document.items) }
    {
        let tested = match read_tested(alloc, text) {
            Ok(tested) => tested,
            Err(fault) => return Err(Refusal::of_query(alloc, &fault)),
        };
        started(alloc, tests, text, tested, document, steps)
    }

    /// The variables of its rows.
    pub(crate) fn vars(&self) -> &VarSet
        ensures { result.now ≡ self.now.vars }
    {
        &self.vars
    }

    /// How many bytes the ways and the ends of its automaton take.
    pub(crate) fn automaton_bytes(&self) -> u64 {
        let automaton = self.growing.automaton();
        let ways = (automaton.ways().len() as u64).saturating_mul(WAY_BYTES);
        let ends = (automaton.stops().len() as u64).saturating_mul(END_BYTES);
        ways.saturating_add(ends)
    }

    /// Gives the next rows, so many at most; from the first on where the document has grown.
    pub(crate) fn page<J: Judge, L: Ledger>(
        &mut self,
        alloc: Global,
        tests: &Tests<J>,
        most: u32,
        steps: &mut Steps<L>,
    ) -> Result<Page, Halt>
        requires stands { (s : Spoken) × IsSession (known tests.now J.judges) self.old s }
        ensures given { IfOk result (λ page. (s : Spoken) → IsSession (known tests.now J.judges) self.old s →
            GivesPage (known tests.now J.judges) self.old self.new most page.rows.items page.more s) }
        ensures halted { IfErr result (λ h. (s : Spoken) → IsSession (known tests.now J.judges) self.old s → IsRowsHalt s h) }
    {
        if let Err(halt) = self.refresh(tests, steps) {
            return Err(halt);
        }
        match self.next_rows(alloc, tests, most, steps) {
            Ok(page) => Ok(page),
            Err(OutOfMemory) => Err(Halt::OutOfMemory),
        }
    }

    /// Asks for the rows anew, where the document has grown.
    fn refresh<J: Judge, L: Ledger>(
        &mut self,
        tests: &Tests<J>,
        steps: &mut Steps<L>,
    ) -> Result<(), Halt>
        requires stands { (s : Spoken) × IsSession (known tests.now J.judges) self.old s }
        ensures ready { OnOk result ((s : Spoken) → IsSession (known tests.now J.judges) self.old s →
            (all : List SpanRow) × IsSessionOver (known tests.now J.judges) self.new (asking s) all) }
        ensures halted { IfErr result (λ h. (s : Spoken) → IsSession (known tests.now J.judges) self.old s → IsRowsHalt s h) }
        ensures vars { self.new.vars ≡ self.old.vars }
    {
        if self.grown {
            return self.ask(tests, steps);
        }
        Ok(())
    }

    /// Asks for the rows of a document that has grown.
    fn ask<J: Judge, L: Ledger>(
        &mut self,
        tests: &Tests<J>,
        steps: &mut Steps<L>,
    ) -> Result<(), Halt>
        requires stands { (s : Spoken) × IsWaiting (known tests.now J.judges) self.old s }
        ensures ready { OnOk result ((s : Spoken) → IsWaiting (known tests.now J.judges) self.old s →
            (all : List SpanRow) × IsSessionOver (known tests.now J.judges) self.new (asking s) all) }
        ensures halted { IfErr result (λ h. (s : Spoken) → IsWaiting (known tests.now J.judges) self.old s → IsRowsHalt s h) }
        ensures vars { self.new.vars ≡ self.old.vars }
    {
        let rows = match self.growing.rows(steps) {
            Ok(rows) => rows,
            Err(fault) => return Err(halt_of(fault)),
        };
        self.answers = Answers::over(rows);
        let document = self.growing.document();
        let mut left = TestedRows::new(
            &mut self.answers,
            &self.tested,
            &self.vars,
            tests,
            document,
        );
        self.some = left.advance(steps);
        self.grown = false;
        Ok(())
    }

    /// How many bytes the document has with this text behind it, where it may have so many.
    pub(crate) fn length_with(&self, text: &[u8]) -> Option<usize>
        ensures some { IfSome result (λ n. (n ≡ length self.now.growing.document + length text.now) × (n ≤ MOST_GROWN)) }
        ensures none { IfNone result (MOST_GROWN < length self.now.growing.document + length text.now) }
    {
        let held = self.growing.document().len();
        if held > MOST_GROWN || text.len() > MOST_GROWN - held {
            return None;
        }
        Some(held + text.len())
    }

    /// Puts a text behind the document, so that its rows begin anew.
    pub(crate) fn grow<L: Ledger>(&mut self, text: &[u8], steps: &mut Steps<L>) -> Result<(), Halt>
        requires few { length self.old.growing.document + length text.now ≤ MOST_GROWN }
        ensures grown { OnOk result ((k : Known) (s : Spoken) → IsSession k self.old s → IsSession k self.new (growing_by text.now s)) }
        ensures halted { IfErr result (λ h. (k : Known) (s : Spoken) → IsSession k self.old s → IsGrowHalt s text.now h) }
    {
        match self.growing.append(text, steps) {
            Ok(()) => {
                self.grown = true;
                Ok(())
            }
            Err(fault) => Err(halt_of(fault)),
        }
    }

    /// Gives the next rows, so many at most.
    fn next_rows<J: Judge, L: Ledger>(
        &mut self,
        alloc: Global,
        tests: &Tests<J>,
        most: u32,
        steps: &mut Steps<L>,
    ) -> Result<Page, OutOfMemory>
        requires stands { (s : Spoken) × (all : List SpanRow) × IsSessionOver (known tests.now J.judges) self.old s all }
        ensures given { IfOk result (λ page. (s : Spoken) (all : List SpanRow) → IsSessionOver (known tests.now J.judges) self.old s all →
            HasGiven (known tests.now J.judges) self.old self.new most page.rows.items page.more s all) }
        ensures vars { self.new.vars ≡ self.old.vars }
    {
        let mut rows = JsonRows::new(alloc, &self.vars)?;
        let mut count = 0u32;
        while count < most {
            if !self.give(tests, &mut rows, steps)? {
                let array = rows.into_array()?;
                return Ok(Page {
                    rows: array,
                    more: false,
                });
            }
            count += 1;
        }
        let array = rows.into_array()?;
        Ok(Page {
            rows: array,
            more: self.some,
        })
    }

    /// Gives the next row, where one remains, behind those before it.
    fn give<J: Judge, L: Ledger>(
        &mut self,
        tests: &Tests<J>,
        rows: &mut JsonRows,
        steps: &mut Steps<L>,
    ) -> Result<bool, OutOfMemory>
        requires line { rows.old.line ≡ json_kept self.old.vars }
        requires stands { (s : Spoken) × (all : List SpanRow) × IsSessionOver (known tests.now J.judges) self.old s all }
        ensures some { IfOk result (λ some. OnTrue some ((s : Spoken) (all : List SpanRow) →
            IsSessionOver (known tests.now J.judges) self.old s all →
            GivesOne (known tests.now J.judges) self.old self.new rows.old.text.items rows.new.text.items s all)) }
        ensures none { IfOk result (λ some. OnFalse some ((rows.new ≡ rows.old) × (self.new ≡ self.old)
            × ((s : Spoken) (all : List SpanRow) → IsSessionOver (known tests.now J.judges) self.old s all →
            to_come (known tests.now J.judges) s self.old.vars all ≡ []))) }
        ensures vars { self.new.vars ≡ self.old.vars }
        ensures line { rows.new.line ≡ rows.old.line }
    {
        if !self.some {
            return Ok(false);
        }
        let document = self.growing.document();
        rows.add(self.answers.spans(), document)?;
        let mut left = TestedRows::new(
            &mut self.answers,
            &self.tested,
            &self.vars,
            tests,
            document,
        );
        self.some = left.advance(steps);
        Ok(true)
    }
}

/// Begins the rows of a query with its tests on a document.
fn started<J: Judge, L: Ledger>(
    alloc: Global,
    tests: &Tests<J>,
    _text: &[u8],
    tested: Tested,
    document: Vec<u8>,
    steps: &mut Steps<L>,
) -> Result<Session, Refusal>
    requires few { length document.items ≤ 2 ^ 28 }
    requires spelled { IsTestedText _text.now (tested_of tested) }
    requires only { (other : TestedTree) → IsTestedText _text.now other → other ≡ tested_of tested }
    ensures opened { IfOk result (IsBegun (known tests.now J.judges) _text.now document.items) }
    ensures refused { IfErr result (IsRefusal (known tests.now J.judges) _text.now document.items) }
{
    match bind(&tested, tests) {
        Ok(()) => bound(alloc, tests, _text, tested, document, steps),
        Err(fault) => Err(Refusal::of_query(alloc, &fault)),
    }
}

/// The same, where all tests are known.
fn bound<J: Judge, L: Ledger>(
    alloc: Global,
    tests: &Tests<J>,
    _text: &[u8],
    tested: Tested,
    document: Vec<u8>,
    steps: &mut Steps<L>,
) -> Result<Session, Refusal>
    requires few { length document.items ≤ 2 ^ 28 }
    requires spelled { IsOnlyTested (known tests.now J.judges) _text.now (tested_of tested) }
    ensures opened { IfOk result (IsBegun (known tests.now J.judges) _text.now document.items) }
    ensures refused { IfErr result (IsRefusal (known tests.now J.judges) _text.now document.items) }
{
    let Ready {
        vars,
        growing,
        mut answers,
    } = match begun(alloc, &tested.query, document, steps) {
        Ok(begun) => begun,
        Err(refusal) => return Err(refusal),
    };
    let mut left = TestedRows::new(&mut answers, &tested, &vars, tests, growing.document());
    let some = left.advance(steps);
    Ok(Session {
        tested,
        vars,
        growing,
        answers,
        some,
        grown: false,
    })
}

/// A document that is read by a query's automaton, with all answers on it and their variables.
#[derive(Drop)]
pub(crate) struct Ready {
    vars: VarSet,
    growing: Growing,
    answers: Answers,
}

/// All answers of a query on a document.
fn begun<L: Ledger>(
    alloc: Global,
    query: &Query,
    document: Vec<u8>,
    steps: &mut Steps<L>,
) -> Result<Ready, Refusal>
    requires few { length document.items ≤ 2 ^ 28 }
    requires sound { IsSound (query_of query.now) }
    ensures small { OnOk result (AtomsAreSmall (query_of query.now)) }
    ensures names { IfOk result (λ b. AreResultNames (query_of query.now) b.vars) }
    ensures growing { IfOk result (λ b. IsReadOn (query_of query.now) document.items (length document.items ∷ []) b.vars b.growing) }
    ensures all { IfOk result (λ b. AreAnswers (query_of query.now) document.items b.vars b.answers.rest) }
    ensures wide { IfOk result (λ b. b.answers.variables ≡ length b.vars) }
    ensures refused { IfErr result (IsTooHeavy (query_of query.now) document.items) }
{
    match compile(alloc, query) {
        Ok(compiled) => all_of(alloc, compiled, document, steps),
        Err(fault) => Err(Refusal::of_size(alloc, &fault)),
    }
}

fn all_of<L: Ledger>(
    alloc: Global,
    compiled: Compiled<'_>,
    document: Vec<u8>,
    steps: &mut Steps<L>,
) -> Result<Ready, Refusal>
    requires names { AreResultNames (query_of compiled.query) compiled.automaton.names }
    requires small { AtomsAreSmall (query_of compiled.query) }
    ensures names { IfOk result (λ b. b.vars ≡ compiled.entry.automaton.names) }
    ensures growing { IfOk result
        (λ b. IsReadOn (query_of compiled.entry.query) document.items (length document.items ∷ []) b.vars b.growing) }
    ensures all { IfOk result (λ b. AreAnswers (query_of compiled.entry.query) document.items b.vars b.answers.rest) }
    ensures wide { IfOk result (λ b. b.answers.variables ≡ length b.vars) }
    ensures refused { IfErr result (IsTooHeavy (query_of compiled.entry.query) document.items) }
{
    let vars = compiled.vars().copy();
    let automaton = compiled.into_automaton();
    match read_by(alloc, automaton, document, steps) {
        Ok((growing, answers)) => Ok(Ready {
            vars,
            growing,
            answers,
        }),
        Err(Halt::Heavy) => Err(of_table(alloc)),
        Err(Halt::OutOfMemory) => Err(Refusal::OutOfMemory),
    }
}

/// A document that is read by this automaton, with its rows.
fn read_by<L: Ledger>(
    alloc: Global,
    automaton: Automaton,
    document: Vec<u8>,
    steps: &mut Steps<L>,
) -> Result<(Growing, Answers), Halt>
    requires compiled { (q : QueryTree) × IsCompiled q automaton }
    ensures growing { IfOk result (λ b. (q : QueryTree) → IsCompiled q automaton →
        IsReadOn q document.items (length document.items ∷ []) automaton.names b.0) }
    ensures all { IfOk result (λ b. (q : QueryTree) → IsCompiled q automaton → AreAnswers q document.items automaton.names b.1.rest) }
    ensures wide { IfOk result (λ b. b.1.variables ≡ length automaton.names) }
    ensures halted { IfErr result (λ h. (q : QueryTree) → IsCompiled q automaton → IsStartHalt q document.items h) }
{
    let mut growing = match Growing::new(alloc, automaton, SESSION_TABLE, steps) {
        Ok(growing) => growing,
        Err(fault) => return Err(halt_of(fault)),
    };
    if let Err(fault) = growing.append_vec(document, steps) {
        give_up(growing);
        return Err(halt_of(fault));
    }
    match growing.rows(steps) {
        Ok(rows) => Ok((growing, Answers::over(rows))),
        Err(fault) => {
            give_up(growing);
            Err(halt_of(fault))
        }
    }
}

/// Drops a document with its reading, here alone: what a caller has to prove grows with each of its many fields.
fn give_up(_growing: Growing) {}

/// A refusal of a session's document, which is read on as long as it may be, and has less than 2^28 bytes.
fn halt_of(fault: GrowFault) -> Halt
    ensures { result ≡ halt_by fault }
{
    match fault {
        GrowFault::Full { weight: _ } => Halt::Heavy,
        GrowFault::Spent | GrowFault::TooLong { seen: _ } | GrowFault::OutOfMemory => {
            Halt::OutOfMemory
        }
    }
}

/// Reading a session's document weighs too much.
pub(crate) fn of_table(alloc: Global) -> Refusal
    ensures { MatchNote result (table_note SESSION_TABLE) }
{
    let heavy = Note::Table {
        limit: SESSION_TABLE,
    };
    Refusal::of_note(alloc, &heavy)
}
