//! The answers for which all tests of a query hold.
ghost use Rattle.std.specs.Prelude.{◌≡◌, ◌+◌, ◌*◌, ◌-◌, ◌^◌, ◌<◌, ◌≤◌, ◌++◌, [], ◌∷◌, length, List, MatchOption, Some, IfSome, slice_get, slice_range, true, is_some};
ghost use Rattle.std.specs.Bool.{OnTrue, OnFalse};
ghost use Rattle.span_core.specs.Lists.{Has};
ghost use Rattle.span_core.specs.declared.span.Span.{Span};
ghost use Rattle.span_core.specs.NameSets.{Ascending};
ghost use Rattle.spanner_model.specs.ExprView.{query_of};
ghost use Rattle.spanner_model.specs.Answers.{AreAnswers, AreResultNames, SpanRow};
ghost use Rattle.spanner_model.specs.Passing.{AreKnown, check_of, checks_of, known, passes, passing, row_passes};
ghost use Rattle.spanner_engine.specs.Trying.{IsNextPassing, trying_steps};
ghost use Rattle.spanner_engine.specs.Left.{EndsIn};
ghost use Rattle.spanner_engine.specs.Fitting.{AllFit, AreLast, FitsRow};
ghost use Rattle.span_tests.specs.Listed.{IsNamed, number_named};

use crate::Answers;
use span_core::{Name, Row, Span, Steps, VarSet};
use span_tests::{Judge, Tests};
use spanner_model::{Asked, Asks, Tested};
use std::sync::ledger::Ledger;

/// The span at a place.
fn span_at(spans: &[Option<Span>], place: usize) -> Option<Span>
    requires { place < length spans.now }
    ensures { slice_get spans.now place ≡ Some result }
{
    spans[place]
}

/// Whether a test holds of the bytes of a span.
fn bytes_hold<J: Judge, L: Ledger>(
    span: Span,
    test: &Name,
    tests: &Tests<J>,
    doc: &[u8],
    steps: &mut Steps<L>,
) -> bool
    requires few { length doc.now ≤ 2 ^ 28 }
    requires inside { span.end ≤ length doc.now }
    requires known { IsNamed tests.now test.now }
    ensures value { result ≡ J.judges (number_named tests.now test.now) (slice_range doc.now span.start span.end) }
    ensures steps { steps.new ≤ steps.old + 1 }
{
    match tests.find(test) {
        Some(k) => tests.holds(k, &doc[span.start as usize..span.end as usize], steps),
        None => unreachable!(),
    }
}

/// Whether one test holds of a row.
fn holds<J: Judge, L: Ledger>(
    spans: &[Option<Span>],
    asked: &Asked,
    vars: &VarSet,
    tests: &Tests<J>,
    doc: &[u8],
    steps: &mut Steps<L>,
) -> bool
    requires few { length doc.now ≤ 2 ^ 28 }
    requires names { Ascending vars.now }
    requires fits { FitsRow (length vars.now) (length doc.now) spans.now }
    requires known { IsNamed tests.now asked.now.test }
    ensures value { result ≡ row_passes vars.now doc.now spans.now (check_of (known tests.now J.judges) asked.now) }
    ensures steps { steps.new ≤ steps.old + 1 }
{
    match vars.find(&asked.var) {
        Some(place) => match span_at(spans, place) {
            Some(span) => bytes_hold(span, &asked.test, tests, doc, steps),
            None => false,
        },
        None => false,
    }
}

/// Whether all tests hold of a row.
fn all_hold<J: Judge, L: Ledger>(
    spans: &[Option<Span>],
    asked: &Asks,
    vars: &VarSet,
    tests: &Tests<J>,
    doc: &[u8],
    steps: &mut Steps<L>,
) -> bool
    requires few { length doc.now ≤ 2 ^ 28 }
    requires names { Ascending vars.now }
    requires fits { FitsRow (length vars.now) (length doc.now) spans.now }
    requires bound { AreKnown (known tests.now J.judges) asked.now }
    ensures value { result ≡ passes (checks_of (known tests.now J.judges) asked.now) vars.now doc.now spans.now }
    ensures steps { steps.new ≤ steps.old + length asked.now }
{
    let mut k = 0;
    while k < asked.len() {
        if !holds(spans, asked.at(k), vars, tests, doc, steps) {
            return false;
        }
        k += 1;
    }
    true
}

/// Goes to the next answer for which all tests of the query hold; false exactly where none follows, and from then on.
/// It takes no memory.
#[inline(always)]
pub fn advance_tested<J: Judge, L: Ledger>(
    answers: &mut Answers,
    tested: &Tested,
    vars: &VarSet,
    tests: &Tests<J>,
    doc: &[u8],
    steps: &mut Steps<L>,
) -> bool
    requires ascending { Ascending vars.now }
    requires few { length doc.now ≤ 2 ^ 28 }
    requires fits { AllFit (length vars.now) (length doc.now) answers.old.rest }
    requires bound { AreKnown (known tests.now J.judges) tested.now.asked }
    ensures variables { answers.new.variables ≡ answers.old.variables }
    ensures next { OnTrue result (IsNextPassing (checks_of (known tests.now J.judges) tested.now.asked) vars.now doc.now
        answers.old.rest answers.new.row answers.new.rest) }
    ensures none { OnFalse result ((passing (checks_of (known tests.now J.judges) tested.now.asked) vars.now doc.now
        answers.old.rest ≡ []) × (answers.new.rest ≡ [])) }
    ensures left { EndsIn answers.old.rest answers.new.rest }
    ensures steps { steps.new ≤ steps.old + trying_steps answers.old.variables (length tested.now.asked)
        (length answers.old.rest - length answers.new.rest) result }
{
    if tested.asked.len() == 0 {
        return answers.advance(steps);
    }
    while answers.advance(steps) {
        if all_hold(answers.spans(), &tested.asked, vars, tests, doc, steps) {
            return true;
        }
    }
    false
}

/// The next answer for which all tests of the query hold; None exactly where none follows, and from then on. It takes no
/// memory, and for each answer that it tries at most the steps of `Answers::next` and one for each test.
pub fn next_tested<J: Judge, L: Ledger>(
    answers: &mut Answers,
    tested: &Tested,
    vars: &VarSet,
    tests: &Tests<J>,
    doc: &[u8],
    steps: &mut Steps<L>,
) -> Option<Row>
    requires names { AreResultNames (query_of tested.now.query) vars.now }
    requires few { length doc.now ≤ 2 ^ 28 }
    requires last { AreLast (query_of tested.now.query) doc.now vars.now answers.old.rest }
    requires bound { AreKnown (known tests.now J.judges) tested.now.asked }
    ensures variables { answers.new.variables ≡ answers.old.variables }
    ensures next { MatchOption result
        ((passing (checks_of (known tests.now J.judges) tested.now.asked) vars.now doc.now answers.old.rest ≡ []) × (answers.new.rest ≡ []))
        (λ row. IsNextPassing (checks_of (known tests.now J.judges) tested.now.asked) vars.now doc.now answers.old.rest row answers.new.rest) }
    ensures last { AreLast (query_of tested.now.query) doc.now vars.now answers.new.rest }
    ensures steps { steps.new ≤ steps.old + trying_steps answers.old.variables (length tested.now.asked)
        (length answers.old.rest - length answers.new.rest) (is_some result) }
{
    if advance_tested(answers, tested, vars, tests, doc, steps) {
        Some(answers.row())
    } else {
        None
    }
}
