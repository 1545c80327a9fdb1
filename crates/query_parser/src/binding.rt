//! The tests of a query among those that a program knows.
ghost use Rattle.std.specs.Prelude.{◌≡◌, ℕ, OnOk, IfErr};
ghost use Rattle.spanner_model.specs.Passing.{AreKnown, known};
ghost use Rattle.query_parser.specs.Binding.{FirstUnknown};

use crate::QueryFault;
use span_tests::{Judge, Tests};
use spanner_model::Tested;

/// Whether each test of the query is in the list; else the fault of the first that is not.
pub fn bind<J: Judge>(tested: &Tested, tests: &Tests<J>) -> Result<(), QueryFault>
    ensures known { OnOk result (AreKnown (known tests.now J.judges) tested.now.asked) }
    ensures fault { IfErr result (λ e. (at : ℕ) × FirstUnknown (known tests.now J.judges) tested.now.asked at ×
        (e ≡ QueryFault.UnknownTest at)) }
{
    let mut k = 0;
    while k < tested.asked.len() {
        let asked = tested.asked.at(k);
        if tests.find(&asked.test).is_none() {
            return Err(QueryFault::UnknownTest { at: asked.at });
        }
        k += 1;
    }
    Ok(())
}
