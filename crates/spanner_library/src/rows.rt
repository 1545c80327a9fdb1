//! Rows that are still to come.
ghost use Rattle.std.specs.Prelude.{◌≡◌, ◌+◌, ◌*◌, ◌-◌, ◌^◌, ◌≤◌, ◌==◌, length};
ghost use Rattle.spanner_engine.specs.Fitting.{AreLast};
ghost use Rattle.spanner_engine.specs.Trying.{trying_steps};
ghost use Rattle.spanner_library.specs.Library.{Given, checks_by, tree};

use crate::Prepared;
use crate::cells::put_row;
use span_core::Steps;
use span_tests::Judge;
use spanner_engine::{Answers, advance_tested};
use std::marker::Model;
use std::sync::ledger::Ledger;

/// The rows of a query on a document that are still to come.
///
/// They hold the lists of rows that were made of the document, and neither the document nor the query.
#[derive(Drop)]
pub struct Rows {
    answers: Answers,
}

impl Model for Rows {
    ghost use Rattle.spanner_library.specs.Library.{RowsToCome};

    ghost Value = { RowsToCome };

    ghost view = { λ r. record {
      variables = r.answers.variables;
      rest = r.answers.rest;
    } };
}

impl Rows {
    /// The rows of answers that are still to come. It takes no memory.
    pub(crate) fn over(answers: Answers) -> Rows
        ensures variables { result.variables ≡ answers.variables }
        ensures rest { result.rest ≡ answers.rest }
    {
        Rows { answers }
    }

    /// Gives the next rows for which all tests hold, so many at most: for each its spans in the order of the variables, each as where it starts
    /// and where it ends, or twice `ABSENT`. What is left of `out` stays as it was. The number of the rows is told; it is less than `most`
    /// only where no row remains. It takes no memory.
    ///
    /// For each answer that it tries it takes at most two steps for each variable and one for each test, whatever the length of the
    /// document; and two for each variable once more where fewer rows remain than `most`.
    ///
    /// The rows are those of this query on this document.
    pub fn fill<J: Judge, L: Ledger>(
        &mut self,
        query: &Prepared<J>,
        document: &[u8],
        out: &mut [u32],
        most: usize,
        steps: &mut Steps<L>,
    ) -> usize
        requires few { length document.now ≤ 2 ^ 28 }
        requires last { AreLast (tree query.now).query document.now query.now.names self.old.rest }
        requires room { most * (2 * length query.now.names) ≤ length out.old }
        ensures given { Given (checks_by J.judges query.now) query.now.names document.now self.old.rest self.new.rest
            out.old out.new most result }
        ensures last { AreLast (tree query.now).query document.now query.now.names self.new.rest }
        ensures variables { self.new.variables ≡ self.old.variables }
        ensures fewer { length self.new.rest + result ≤ length self.old.rest }
        ensures len { length out.new ≡ length out.old }
        ensures steps { steps.new ≤ steps.old + trying_steps self.old.variables (length (tree query.now).asked)
            (length self.old.rest - length self.new.rest) (result == most) }
    {
        fill_from(&mut self.answers, query, document, out, most, steps)
    }
}

/// As `fill`, over the answers themselves.
fn fill_from<J: Judge, L: Ledger>(
    answers: &mut Answers,
    query: &Prepared<J>,
    document: &[u8],
    out: &mut [u32],
    most: usize,
    steps: &mut Steps<L>,
) -> usize
    requires few { length document.now ≤ 2 ^ 28 }
    requires last { AreLast (tree query.now).query document.now query.now.names answers.old.rest }
    requires room { most * (2 * length query.now.names) ≤ length out.old }
    ensures given { Given (checks_by J.judges query.now) query.now.names document.now answers.old.rest answers.new.rest
        out.old out.new most result }
    ensures last { AreLast (tree query.now).query document.now query.now.names answers.new.rest }
    ensures variables { answers.new.variables ≡ answers.old.variables }
    ensures fewer { length answers.new.rest + result ≤ length answers.old.rest }
    ensures len { length out.new ≡ length out.old }
    ensures steps { steps.new ≤ steps.old + trying_steps answers.old.variables (length (tree query.now).asked)
        (length answers.old.rest - length answers.new.rest) (result == most) }
{
    let tested = query.tested();
    let vars = query.vars();
    let tests = query.tests();
    let width = 2 * vars.len();
    let mut count = 0;
    while count < most {
        if !advance_tested(answers, tested, vars, tests, document, steps) {
            return count;
        }
        put_row(out, count * width, answers.spans());
        count += 1;
    }
    count
}
