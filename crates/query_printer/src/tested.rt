//! Prints queries with tests.
ghost use Rattle.std.specs.Prelude.{◌≡◌, ◌++◌, OnOk, OnErr};
ghost use Rattle.span_core.specs.Lists.{IsPrefixOf};
ghost use Rattle.spanner_model.specs.ExprView.{query_of};
ghost use Rattle.spanner_model.specs.Sound.{IsSound};
ghost use Rattle.query_parser.specs.Formed.{IsFormedQuery};
ghost use Rattle.query_printer.specs.PrintedTested.{test_text, tests_text, tested_text, TestedAreRead};

use crate::queries::{push_given, push_query};
use cell_text::push_bytes;
use span_core::OutOfMemory;
use spanner_model::{Asked, Asks, Tested};

/// Appends the printed form of a query with its tests, or answers that memory ran out and leaves `out` as
/// it was.
///
/// It is that of the query, and where there are tests ` where ` and the tests, with `, ` between. It may be
/// longer, and nest deeper, than what is read.
pub fn print_tested(tested: &Tested, out: &mut Vec<u8>) -> Result<(), OutOfMemory>
    requires { IsSound (query_of tested.now.query) }
    ensures ok { OnOk result (out.new.items ≡ out.old.items ++ tested_text (query_of tested.now.query) tested.now.asked) }
    ensures err { OnErr result (out.new.items ≡ out.old.items) }
{
    let before = out.len();
    let done = push_tested(tested, out);
    if done.is_err() {
        out.truncate(before);
    }
    done
}

/// The printed form of a sound query with tests of its result's variables, within the limits of what is read,
/// is a text of that query with these tests, each at its place in the text.
pub fn printed_tests_are_read()
    ensures { TestedAreRead }
{}

fn push_tested(tested: &Tested, out: &mut Vec<u8>) -> Result<(), OutOfMemory>
    requires { IsFormedQuery (query_of tested.now.query) }
    ensures ok { OnOk result (out.new.items ≡ out.old.items ++ tested_text (query_of tested.now.query) tested.now.asked) }
    ensures front { IsPrefixOf out.old.items out.new.items }
{
    push_query(&tested.query, out)?;
    if tested.asked.len() == 0 {
        return Ok(());
    }
    push_bytes(b" where ", out)?;
    push_tests(&tested.asked, out)
}

fn push_tests(asked: &Asks, out: &mut Vec<u8>) -> Result<(), OutOfMemory>
    ensures ok { OnOk result (out.new.items ≡ out.old.items ++ tests_text asked.now) }
    ensures front { IsPrefixOf out.old.items out.new.items }
{
    for k in 0..asked.len() {
        push_given(k > 0, b", ", out)?;
        push_test(asked.at(k), out)?;
    }
    Ok(())
}

fn push_test(asked: &Asked, out: &mut Vec<u8>) -> Result<(), OutOfMemory>
    ensures ok { OnOk result (out.new.items ≡ out.old.items ++ test_text asked.now) }
    ensures front { IsPrefixOf out.old.items out.new.items }
{
    push_bytes(asked.test.as_bytes(), out)?;
    push_bytes(b"(", out)?;
    push_bytes(asked.var.as_bytes(), out)?;
    push_bytes(b")", out)
}
