//! Answers to come.
ghost use Rattle.std.specs.Prelude.{◌≡◌, ◌+◌, ◌*◌, ◌≤◌, ◌++◌, [], ◌∷◌, take, MatchOption};
ghost use Rattle.std.specs.Bool.{OnTrue, OnFalse};
ghost use Rattle.enumerator.specs.Ends.{AreEnds, last_of, rows_to};

use enumerator::{EndRun, Enumerator, MOST_ENDS};
use span_core::{Row, Span, Steps};
use std::marker::Model;
use std::sync::ledger::Ledger;

/// The answers of a query on a document that are still to come, in block order.
///
/// It holds the lists of rows that were made of the document, and neither the document nor the query.
#[derive(Drop)]
pub struct Answers {
    rows: Enumerator,
}

impl Model for Answers {
    ghost use Rattle.spanner_engine.specs.Left.{AnswersLeft};

    ghost Value = { AnswersLeft };

    ghost view = { λ a. record {
      variables = a.rows.variables;
      rest = a.rows.rest;
      row = a.rows.row;
    } };
}

impl Answers {
    /// The rows that an enumerator still has. It takes no memory.
    pub fn over(rows: Enumerator) -> Answers
        ensures variables { result.variables ≡ rows.variables }
        ensures rest { result.rest ≡ rows.rest }
    {
        Answers { rows }
    }

    /// Goes to the next answer; false exactly where none is left, and from then on. It takes no memory, and at
    /// most two steps for each variable, however large the document is; so it keeps within the four for each
    /// variable, and four more, that are allowed.
    #[inline(always)]
    pub fn advance<L: Ledger>(&mut self, steps: &mut Steps<L>) -> bool
        ensures variables { self.new.variables ≡ self.old.variables }
        ensures next { OnTrue result (self.old.rest ≡ self.new.row ∷ self.new.rest) }
        ensures none { OnFalse result ((self.old.rest ≡ []) × (self.new.rest ≡ []) × (self.new.row ≡ self.old.row)) }
        ensures steps { steps.new ≤ steps.old + 2 * self.old.variables }
    {
        self.rows.advance(steps)
    }

    /// Goes on along the answers that stand next and differ from the one that was gone to in the end of one span alone, at most
    /// so many of them. Their ends are written in order. It takes no memory, and a step for each, and two.
    pub fn advance_ends<L: Ledger>(
        &mut self,
        ends: &mut [u32; MOST_ENDS],
        most: usize,
        steps: &mut Steps<L>,
    ) -> EndRun
        requires { most ≤ 16 }
        ensures variables { self.new.variables ≡ self.old.variables }
        ensures count { result.count ≤ most }
        ensures ends { AreEnds self.old.row result.place (take result.count ends.new) }
        ensures next { self.old.rest ≡ rows_to self.old.row result.place (take result.count ends.new) ++ self.new.rest }
        ensures row { self.new.row ≡ last_of self.old.row (rows_to self.old.row result.place (take result.count ends.new)) }
        ensures steps { steps.new ≤ steps.old + (result.count + 2) }
    {
        self.rows.advance_ends(ends, most, steps)
    }

    /// The spans of the answer that was gone to, in the order of the variables; None where one is absent.
    pub fn spans(&self) -> &[Option<Span>]
        ensures { result.now ≡ self.now.row }
    {
        self.rows.spans()
    }

    /// The answer that was gone to.
    pub fn row(&self) -> Row
        ensures { result ≡ self.now.row }
    {
        self.rows.row()
    }

    /// The next answer; None exactly where none is left, and from then on. It takes no memory, and at
    /// most two steps for each variable, as `advance`.
    pub fn next<L: Ledger>(&mut self, steps: &mut Steps<L>) -> Option<Row>
        ensures variables { self.new.variables ≡ self.old.variables }
        ensures rest { MatchOption result ((self.old.rest ≡ []) × (self.new.rest ≡ [])) (λ row. self.old.rest ≡ row ∷ self.new.rest) }
        ensures steps { steps.new ≤ steps.old + 2 * self.old.variables }
    {
        self.rows.next(steps)
    }
}
