//! Enumerators.
ghost use Rattle.std.specs.Prelude.{◌≡◌, ℕ, ◌+◌, ◌*◌, ◌<◌, ◌≤◌, [], ◌∷◌, length, MatchOption};
ghost use Rattle.std.specs.Bool.{OnTrue, OnFalse};
ghost use Rattle.span_core.specs.Lists.{Has};
ghost use Rattle.node_arena.specs.Words.{Word};
ghost use Rattle.node_arena.specs.Rows.{rows};
ghost use Rattle.std.specs.Prelude.{take, ◌++◌};
ghost use Rattle.enumerator.specs.Ends.{AreEnds, last_of, rows_to};
ghost use Rattle.enumerator.specs.Enumeration.{AreInBlockOrder, AreRowsOf, IsRestAfter, IsWordOfRow};

use crate::ends::{EndRun, MOST_ENDS, next_ends};
use crate::positions::{MOST_MARKERS, ReadRow, read_spans, row_of};
use crate::seeking::seek_row;
use crate::stack::Stack;
use crate::walking::{next_row, wait};
use output_graph::RowLists;
use span_core::{MOST_VARIABLES, Marks, Row, Span, Steps};
use std::marker::Model;
use std::sync::ledger::Ledger;

/// Gives the rows of row lists one by one, in block order, and can go to any place among them.
///
/// It is seen as the list of all rows, the list of those that are still to come, and the row that it
/// stands at.
#[derive(Drop)]
pub struct Enumerator {
    lists: RowLists,
    variables: usize,
    /// The row that it stands at.
    current: ReadRow,
    stack: Stack,
}

impl Model for Enumerator {
    ghost use Rattle.std.specs.Prelude.{length, take};
    ghost use Rattle.enumerator.specs.Enumeration.{Enumeration};

    ghost Value = { Enumeration };

    ghost use Rattle.enumerator.specs.Rows.{positions_of, rows_of, waiting_rows};
    ghost use Rattle.enumerator.specs.Enumerating.{IsEnumerating};

    ghost view = { λ e. record {
      variables = e.variables;
      cells = length e.lists.store;
      whole = rows_of e.lists e.variables;
      rest = waiting_rows e.lists.store e.variables (positions_of e.current.positions) e.stack;
      row = take e.variables e.current.spans;
    } };

    ghost invariant = { λ e. IsEnumerating e.lists e.variables e.stack e.current.spans e.current.settled e.current.positions };
}

impl Enumerator {
    /// An enumerator of the rows of `lists`, which are over `v` variables. It stands before the first.
    pub fn new(lists: RowLists, v: usize) -> Enumerator
        requires few { v ≤ MOST_VARIABLES }
        requires rows { (w : Word) → Has (rows lists.store lists.first) w → IsWordOfRow v w }
        ensures variables { result.variables ≡ v }
        ensures cells { result.cells ≡ length lists.store }
        ensures whole { AreRowsOf v (rows lists.store lists.first) result.whole }
        ensures order { AreInBlockOrder result.whole }
        ensures rest { result.rest ≡ result.whole }
    {
        lists.are_lists();
        let mut stack = Stack::new();
        wait(&mut stack, Marks::none(), lists.first());
        let mut current = ReadRow {
            settled: Marks::none(),
            positions: [0; MOST_MARKERS],
            spans: [None; MOST_VARIABLES],
        };
        read_spans(v, current.settled, &current.positions, &mut current.spans);
        Enumerator {
            lists,
            variables: v,
            current,
            stack,
        }
    }

    /// Goes to the first of all rows that stands after the row `after`, which need not be one of
    /// them, whatever was given before. At most as many steps as there are row cells.
    pub fn seek<L: Ledger>(&mut self, after: &Row, steps: &mut Steps<L>)
        requires { length after.now ≡ self.old.variables }
        ensures variables { self.new.variables ≡ self.old.variables }
        ensures cells { self.new.cells ≡ self.old.cells }
        ensures whole { self.new.whole ≡ self.old.whole }
        ensures rest { IsRestAfter after.now self.old.whole self.new.rest }
        ensures steps { steps.new ≤ steps.old + self.old.cells }
    {
        seek_row(
            &self.lists,
            self.variables,
            after,
            &mut self.current.positions,
            &mut self.stack,
            steps,
        );
        self.current.settled = Marks::none();
        read_spans(
            self.variables,
            self.current.settled,
            &self.current.positions,
            &mut self.current.spans,
        );
    }

    /// Goes to the next row; false exactly where none is left, and from then on until a seek. It takes no
    /// memory, and at most two steps for each variable.
    pub fn advance<L: Ledger>(&mut self, steps: &mut Steps<L>) -> bool
        ensures variables { self.new.variables ≡ self.old.variables }
        ensures cells { self.new.cells ≡ self.old.cells }
        ensures whole { self.new.whole ≡ self.old.whole }
        ensures next { OnTrue result (self.old.rest ≡ self.new.row ∷ self.new.rest) }
        ensures none { OnFalse result ((self.old.rest ≡ []) × (self.new.rest ≡ []) × (self.new.row ≡ self.old.row)) }
        ensures steps { steps.new ≤ steps.old + 2 * self.old.variables }
    {
        next_row(
            &self.lists,
            self.variables,
            &mut self.current,
            &mut self.stack,
            steps,
        )
    }

    /// Goes on along the rows that stand next and differ from the row that it stands at in the end of one span alone, at most so
    /// many of them, as many as wait beside one another. Their ends are written in order. It takes no memory, and a step for
    /// each, and two.
    pub fn advance_ends<L: Ledger>(
        &mut self,
        ends: &mut [u32; MOST_ENDS],
        most: usize,
        steps: &mut Steps<L>,
    ) -> EndRun
        requires { most ≤ 16 }
        ensures variables { self.new.variables ≡ self.old.variables }
        ensures cells { self.new.cells ≡ self.old.cells }
        ensures whole { self.new.whole ≡ self.old.whole }
        ensures count { result.count ≤ most }
        ensures ends { AreEnds self.old.row result.place (take result.count ends.new) }
        ensures next { self.old.rest ≡ rows_to self.old.row result.place (take result.count ends.new) ++ self.new.rest }
        ensures row { self.new.row ≡ last_of self.old.row (rows_to self.old.row result.place (take result.count ends.new)) }
        ensures steps { steps.new ≤ steps.old + (result.count + 2) }
    {
        next_ends(
            &self.lists,
            self.variables,
            &mut self.current,
            &mut self.stack,
            ends,
            most,
            steps,
        )
    }

    /// The row that it stands at, as its spans; before the first all are absent.
    pub fn spans(&self) -> &[Option<Span>]
        ensures { result.now ≡ self.now.row }
    {
        &self.current.spans[..self.variables]
    }

    /// The row that it stands at.
    pub fn row(&self) -> Row
        ensures { result ≡ self.now.row }
    {
        row_of(&self.current.spans[..self.variables])
    }

    /// The next row; None exactly where none is left, and from then on until a seek. It takes no
    /// memory, and at most two steps for each variable.
    pub fn next<L: Ledger>(&mut self, steps: &mut Steps<L>) -> Option<Row>
        ensures variables { self.new.variables ≡ self.old.variables }
        ensures cells { self.new.cells ≡ self.old.cells }
        ensures whole { self.new.whole ≡ self.old.whole }
        ensures rest { MatchOption result ((self.old.rest ≡ []) × (self.new.rest ≡ [])) (λ row. self.old.rest ≡ row ∷ self.new.rest) }
        ensures steps { steps.new ≤ steps.old + 2 * self.old.variables }
    {
        if self.advance(steps) {
            Some(self.row())
        } else {
            None
        }
    }
}
