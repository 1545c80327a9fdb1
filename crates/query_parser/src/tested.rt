//! Reads a query with tests.
//!
//! The turns of a query are taken until the word `where` stands behind a whole one. From there the tests are read.
ghost use Rattle.std.specs.Prelude.{◌≡◌, ◌≤◌, ◌⊎◌, ◌&&◌, ◌+◌, true, length, IfOk, IfErr, Ok, Err};
ghost use Rattle.std.specs.Option.{MatchOption};
ghost use Rattle.formula_parser.specs.declared.fault.FormulaFault.TheVariants as formula_fault;
ghost use Rattle.span_core.specs.Lists.{Has};
ghost use Rattle.spanner_model.specs.ExprView.{query_of};
ghost use Rattle.spanner_model.specs.Sound.{IsSound};
ghost use Rattle.query_parser.specs.declared.TheConstants.{MOST_TEXT_BYTES};
ghost use Rattle.query_parser.specs.Tokens.{name_token, TokenAt};
ghost use Rattle.query_parser.specs.Reads.{is_whole};
ghost use Rattle.std.specs.Str.{bytes_eq};
ghost use Rattle.query_parser.specs.Nest.{reading_of};
ghost use Rattle.query_parser.specs.Step.{word_at};
ghost use Rattle.query_parser.specs.View.{nest_of};
ghost use Rattle.query_parser.specs.TokenRuns.{IsReadTo};
ghost use Rattle.query_parser.specs.TestSteps.{IsReadAs};
ghost use Rattle.query_parser.specs.TestAnswers.{AreReadFrom, IsReadThrough, IsTestedRead};
ghost use Rattle.query_parser.specs.Tested.{where_word, FirstMissing, HasTestedFault, IsTestedText, SpellsTested};
ghost use Rattle.spanner_model.specs.Tested.{TestedTree, tested_of};
ghost use Rattle.query_parser.specs.TestedAnswers.{IsTestedAnswer};
ghost use Rattle.spanner_model.specs.declared.tested.Asked.{Asked as AskedValue};

use crate::MOST_TEXT_BYTES;
use crate::check::{check_query, names_of};
use crate::fault::QueryFault;
use crate::nest::Nest;
use crate::tests_read::{SoFar, test_turn};
use crate::tokens::word_at;
use crate::turns::{finish, take_turn};
use functional_check::names::has;
use span_core::{Name, VarSet};
use spanner_model::{Asks, Query, Tested, variables};
use std::alloc::Global;

/// The tests from a place on, to the text's end.
fn read_tests(alloc: Global, text: &[u8], from: usize) -> Result<Asks, QueryFault>
    requires short { length text.now ≤ MOST_TEXT_BYTES }
    requires within { from ≤ length text.now }
    ensures { AreReadFrom result text.now from }
{
    let mut tests = SoFar::new(alloc);
    let mut at = from;
    while at < text.len() {
        let (_, rest) = text.split_at(at);
        at += test_turn(at, rest, &mut tests)?;
    }
    if tests.is_whole() {
        return Ok(tests.asked);
    }
    Err(QueryFault::Unexpected { at })
}

/// The query that ends before the word at the place `at`, and the tests behind that word.
fn read_where(
    alloc: Global,
    text: &[u8],
    at: usize,
    nest: Nest,
) -> Result<(Query, bool, Asks), QueryFault>
    requires short { length text.now ≤ MOST_TEXT_BYTES }
    requires reads { IsReadTo text.now at (nest_of nest) }
    requires whole { is_whole (reading_of (nest_of nest)) ≡ true }
    requires word { TokenAt text.now at (name_token where_word) (at + 5) }
    ensures { IsReadThrough result text.now }
{
    let (query, many) = finish(alloc, at, nest)?;
    let asked = read_tests(alloc, text, at + 5)?;
    Ok((query, many, asked))
}

/// Whether the word `where` stands behind a whole query.
fn begins_tests(nest: &Nest, rest: &[u8]) -> bool
    ensures { result ≡ (is_whole (reading_of (nest_of nest.now)) && bytes_eq (word_at rest.now) where_word) }
{
    nest.is_whole() && word_at(rest) == b"where".as_slice()
}

fn read_turns(alloc: Global, text: &[u8]) -> Result<(Query, bool, Asks), QueryFault>
    requires { length text.now ≤ MOST_TEXT_BYTES }
    ensures { IsReadThrough result text.now }
{
    let mut nest = Nest::new(alloc);
    let mut at = 0;
    while at < text.len() {
        let (_, rest) = text.split_at(at);
        if begins_tests(&nest, rest) {
            return read_where(alloc, text, at, nest);
        }
        at += take_turn(alloc, text, at, rest, &mut nest)?;
    }
    let (query, many) = finish(alloc, at, nest)?;
    Ok((query, many, Asks::new(alloc)))
}

/// The one sound query with tests of a text, or the text's first fault.
///
/// The time is linear in the text's length, but for looking up the names of `let`s and of variables.
pub fn read_tested(alloc: Global, text: &[u8]) -> Result<Tested, QueryFault>
    // The text spells the query with its tests, within all limits, the query is sound, and its result has the tests' variables.
    ensures found { IfOk result (λ t. IsTestedText text.now (tested_of t)) }
    // Such a text is read, unless memory runs out.
    ensures only { (t : TestedTree) → IsTestedText text.now t → IsTestedAnswer result (Ok t) }
    // The fault is the text's one fault, unless memory ran out.
    ensures fault { IfErr result (λ e. (e ≡ QueryFault.OutOfMemory) ⊎ HasTestedFault text.now e) }
    // The fault of a text is found, unless memory runs out.
    ensures only_fault { (e : QueryFault) → HasTestedFault text.now e → IsTestedAnswer result (Err e) }
    ensures never { IfErr result (λ e. ¬ (e ≡ QueryFault.Formula formula_fault.OutOfMemory)) }
{
    read_text(alloc, text)
}

/// Reads the text, and then checks what it spells.
fn read_text(alloc: Global, text: &[u8]) -> Result<Tested, QueryFault>
    ensures { IsTestedRead text.now result }
{
    if text.len() > MOST_TEXT_BYTES {
        return Err(QueryFault::TooLong);
    }
    match read_turns(alloc, text) {
        Ok((query, many, asked)) => kept(alloc, text, many, Tested { query, asked }),
        Err(fault) => Err(fault),
    }
}

/// What a text spells, where no projection keeps too many names.
fn kept(alloc: Global, text: &[u8], many: bool, tested: Tested) -> Result<Tested, QueryFault>
    requires short { length text.now ≤ MOST_TEXT_BYTES }
    requires read { IsReadAs text.now (query_of tested.query) many tested.asked }
    ensures { IsTestedRead text.now result }
{
    if many {
        return Err(QueryFault::TooManyVariables);
    }
    checked(alloc, text, tested)
}

/// What a text spells, where its names are few and it passes the checks.
fn checked(alloc: Global, text: &[u8], tested: Tested) -> Result<Tested, QueryFault>
    requires short { length text.now ≤ MOST_TEXT_BYTES }
    requires spelled { SpellsTested text.now (tested_of tested) }
    ensures { IsTestedRead text.now result }
{
    let Some(names) = names_of(&tested.query) else {
        return Err(QueryFault::TooManyVariables);
    };
    match check_query(alloc, &tested.query, &names) {
        Ok(()) => with_tests(alloc, text, tested),
        Err(fault) => Err(fault),
    }
}

/// What a text spells, where the query's result has the variables of its tests.
fn with_tests(alloc: Global, _text: &[u8], tested: Tested) -> Result<Tested, QueryFault>
    requires short { length _text.now ≤ MOST_TEXT_BYTES }
    requires spelled { SpellsTested _text.now (tested_of tested) }
    requires sound { IsSound (query_of tested.query) }
    ensures { IsTestedRead _text.now result }
{
    let vars = variables(alloc, &tested.query)?;
    match first_missing(&vars, &tested.asked) {
        Some(var) => Err(QueryFault::TestVariable { var }),
        None => Ok(tested),
    }
}

/// The first variable of a test that is none of these.
fn first_missing(vars: &VarSet, asked: &Asks) -> Option<Name>
    ensures { MatchOption result ((a : AskedValue) → Has asked.now a → Has vars.now a.var) (FirstMissing (Has vars.now) asked.now) }
{
    for k in 0..asked.len() {
        let var = asked.at(k).var;
        if !has(vars, &var) {
            return Some(var);
        }
    }
    None
}
