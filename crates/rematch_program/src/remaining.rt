//! How many rows may still be written.
ghost use Rattle.std.specs.Prelude.{◌≡◌, ◌≤◌, List, [], ◌∷◌, ◌++◌, length};
ghost use Rattle.std.specs.Bool.{OnTrue, OnFalse};
ghost use Rattle.spanner_model.specs.Answers.{SpanRow};
ghost use Rattle.rematch_program.specs.Pages.{Allows, first_rows};

use std::marker::Model;

/// So many rows may still be written, or any number.
#[derive(Drop)]
pub struct Remaining {
    rows: Option<u64>,
}

impl Model for Remaining {
    ghost use Rattle.std.specs.Prelude.{ℕ, Option};

    ghost Value = { Option ℕ };

    ghost view = { λ r. r.rows };
}

impl Remaining {
    /// Those of a limit.
    pub fn of(limit: Option<u64>) -> Remaining
        ensures { result ≡ limit }
    {
        Remaining { rows: limit }
    }

    /// Takes one of them; false exactly where none is left.
    #[inline(always)]
    pub fn take_one(&mut self) -> bool
        ensures one { OnTrue result ((row : SpanRow) (rows : List SpanRow) →
            first_rows self.old (row ∷ rows) ≡ row ∷ first_rows self.new rows) }
        ensures none { OnFalse result ((rows : List SpanRow) → first_rows self.old rows ≡ []) }
    {
        match self.rows {
            Some(0) => false,
            Some(rows) => {
                self.rows = Some(rows - 1);
                true
            }
            None => true,
        }
    }

    /// How many of them may be taken at once, up to so many.
    #[inline(always)]
    pub fn at_most(&self, most: usize) -> usize
        ensures few { result ≤ most }
        ensures allows { Allows self.now result }
    {
        match self.rows {
            Some(rows) if rows < most as u64 => rows as usize,
            _ => most,
        }
    }

    /// Takes so many of them.
    #[inline(always)]
    pub fn take(&mut self, count: usize)
        requires { Allows self.old count }
        ensures { (rows more : List SpanRow) → length rows ≡ count → first_rows self.old (rows ++ more) ≡ rows ++ first_rows self.new more }
    {
        let Some(rows) = self.rows else {
            return;
        };
        self.rows = Some(rows - count as u64);
    }
}
