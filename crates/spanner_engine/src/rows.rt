//! The answers of a query for which its tests hold, one by one.
ghost use Rattle.std.specs.Prelude.{◌≡◌, ℕ, ◌+◌, ◌-◌, ◌^◌, ◌≤◌, ◌++◌, [], ◌∷◌, length, take, MatchOption, IfSome, is_some};
ghost use Rattle.std.specs.Bool.{OnTrue, OnFalse};
ghost use Rattle.std.proofs.Props.{props};
ghost use Rattle.enumerator.specs.Ends.{AreEnds, last_of, rows_to};
ghost use Rattle.span_core.specs.NameSets.{Ascending};
ghost use Rattle.spanner_model.specs.ExprView.{query_of};
ghost use Rattle.spanner_model.specs.Answers.{AreResultNames};
ghost use Rattle.spanner_engine.specs.Fitting.{AllFit, AreLast, FitsRow};
ghost use Rattle.spanner_engine.specs.Left.{EndsIn, over, passing_over};
ghost use Rattle.spanner_model.specs.Passing.{AreKnown, known};
ghost use Rattle.spanner_engine.specs.Trying.{trying_steps};

use crate::Answers;
use crate::tested::advance_tested;
use enumerator::{EndRun, MOST_ENDS};
use span_core::{Row, Span, Steps, VarSet};
use span_tests::{Judge, Tests};
use spanner_model::Tested;
use std::sync::ledger::Ledger;

/// The answers of a query that are still to come, of which those are given for which all its tests hold.
///
/// The answers are borrowed: once these rows are dropped, the answers still have those that were not tried. It is seen as what
/// the rows are taken from, the answers that were not tried yet, and the row that was gone to (`left_in`).
#[derive(Drop)]
pub struct TestedRows<'r, J: Judge> {
    answers: &'r mut Answers,
    tested: &'r Tested,
    vars: &'r VarSet,
    tests: &'r Tests<J>,
    document: &'r [u8],
    ghost ascending: { Ascending vars.now } by { Prim.hlevel props },
    ghost few: { length document.now ≤ 2 ^ 28 },
    ghost fits: { AllFit (length vars.now) (length document.now) answers.now.rest },
    ghost bound: { ∥ AreKnown (known tests.now J.judges) tested.now.asked ∥₁ },
    ghost variables: { answers.now.variables ≡ length vars.now },
}

impl<'r, J: Judge> TestedRows<'r, J> {
    ghost use Rattle.spanner_engine.specs.Borrowed.{left_in};

    /// The answers that `answers` still has, of a query on a document. It takes no memory.
    pub fn new(
        answers: &'r mut Answers,
        tested: &'r Tested,
        vars: &'r VarSet,
        tests: &'r Tests<J>,
        document: &'r [u8],
    ) -> TestedRows<'r, J>
        requires names { AreResultNames (query_of tested.now.query) vars.now }
        requires few { length document.now ≤ 2 ^ 28 }
        requires last { AreLast (query_of tested.now.query) document.now vars.now answers.old.rest }
        requires bound { AreKnown (known tests.now J.judges) tested.now.asked }
        requires variables { answers.old.variables ≡ length vars.now }
        ensures same { result.answers.ghost_name ≡ answers.entry.ghost_name }
        ensures answers { result.answers.now ≡ answers.old }
        ensures source { (left_in result).source ≡ over tested.now.asked tests.now vars.now document.now }
    {
        TestedRows {
            answers,
            tested,
            vars,
            tests,
            document,
        }
    }

    /// Goes to the next answer for which all tests hold; false exactly where none follows, and from then on. It takes no memory,
    /// and for each answer that it tries at most the steps of `Answers::advance` and one for each test.
    #[inline(always)]
    pub fn advance<L: Ledger>(&mut self, steps: &mut Steps<L>) -> bool
        ensures same { self.new.answers.ghost_name ≡ self.old.answers.ghost_name }
        ensures source { (left_in self.new).source ≡ (left_in self.old).source }
        ensures variables { self.new.answers.now.variables ≡ self.old.answers.now.variables }
        ensures next { OnTrue result (passing_over J.judges (left_in self.old).source (left_in self.old).rest
            ≡ (left_in self.new).row ∷ passing_over J.judges (left_in self.old).source (left_in self.new).rest) }
        ensures fits { OnTrue result
            (FitsRow (length (left_in self.old).source.names) (length (left_in self.old).source.document) (left_in self.new).row) }
        ensures none { OnFalse result
            ((passing_over J.judges (left_in self.old).source (left_in self.old).rest ≡ []) × ((left_in self.new).rest ≡ [])) }
        ensures left { EndsIn (left_in self.old).rest (left_in self.new).rest }
        ensures steps { steps.new ≤ steps.old
            + trying_steps (length (left_in self.old).source.names) (length (left_in self.old).source.asked)
            (length (left_in self.old).rest - length (left_in self.new).rest) result }
    {
        advance_tested(
            self.answers,
            self.tested,
            self.vars,
            self.tests,
            self.document,
            steps,
        )
    }

    /// Goes on along the rows that stand next and differ from the one that was gone to in the end of one span alone, at most so
    /// many of them, and none where there are tests. Their ends are written in order. It takes no memory, and a step for each,
    /// and two.
    pub fn advance_ends<L: Ledger>(
        &mut self,
        ends: &mut [u32; MOST_ENDS],
        most: usize,
        steps: &mut Steps<L>,
    ) -> EndRun
        requires { most ≤ 16 }
        ensures same { self.new.answers.ghost_name ≡ self.old.answers.ghost_name }
        ensures source { (left_in self.new).source ≡ (left_in self.old).source }
        ensures variables { self.new.answers.now.variables ≡ self.old.answers.now.variables }
        ensures count { result.count ≤ most }
        ensures ends { AreEnds (left_in self.old).row result.place (take result.count ends.new) }
        ensures next { passing_over J.judges (left_in self.old).source (left_in self.old).rest
            ≡ rows_to (left_in self.old).row result.place (take result.count ends.new)
            ++ passing_over J.judges (left_in self.old).source (left_in self.new).rest }
        ensures fits { AllFit (length (left_in self.old).source.names) (length (left_in self.old).source.document)
            (rows_to (left_in self.old).row result.place (take result.count ends.new)) }
        ensures row { (left_in self.new).row
            ≡ last_of (left_in self.old).row (rows_to (left_in self.old).row result.place (take result.count ends.new)) }
        ensures left { (left_in self.old).rest
            ≡ rows_to (left_in self.old).row result.place (take result.count ends.new) ++ (left_in self.new).rest }
        ensures steps { steps.new ≤ steps.old + (result.count + 2) }
    {
        if self.tested.asked.len() > 0 {
            return EndRun { place: 0, count: 0 };
        }
        self.answers.advance_ends(ends, most, steps)
    }

    /// The spans of the row that was gone to, in the order of the variables; None where one is absent.
    pub fn spans(&self) -> &[Option<Span>]
        ensures { result.now ≡ (left_in self.now).row }
    {
        self.answers.spans()
    }

    /// The row that was gone to.
    pub fn row(&self) -> Row
        ensures { result ≡ (left_in self.now).row }
    {
        self.answers.row()
    }

    /// The next answer for which all tests hold; None exactly where none follows, and from then on.
    pub fn next<L: Ledger>(&mut self, steps: &mut Steps<L>) -> Option<Row>
        ensures same { self.new.answers.ghost_name ≡ self.old.answers.ghost_name }
        ensures source { (left_in self.new).source ≡ (left_in self.old).source }
        ensures next { MatchOption result
            ((passing_over J.judges (left_in self.old).source (left_in self.old).rest ≡ []) × ((left_in self.new).rest ≡ []))
            (λ row. passing_over J.judges (left_in self.old).source (left_in self.old).rest
            ≡ row ∷ passing_over J.judges (left_in self.old).source (left_in self.new).rest) }
        ensures fits { IfSome result (FitsRow (length (left_in self.old).source.names) (length (left_in self.old).source.document)) }
        ensures left { EndsIn (left_in self.old).rest (left_in self.new).rest }
        ensures steps { steps.new ≤ steps.old
            + trying_steps (length (left_in self.old).source.names) (length (left_in self.old).source.asked)
            (length (left_in self.old).rest - length (left_in self.new).rest) (is_some result) }
    {
        if self.advance(steps) {
            Some(self.row())
        } else {
            None
        }
    }

    /// The variables of the rows.
    pub fn vars(&self) -> &'r VarSet
        ensures { result.now ≡ (left_in self.now).source.names }
    {
        self.vars
    }

    /// The document.
    pub fn document(&self) -> &'r [u8]
        ensures document { result.now ≡ (left_in self.now).source.document }
        ensures few { length result.now ≤ 2 ^ 28 }
    {
        self.document
    }
}
