//! Reads a query.
ghost use Rattle.std.specs.Prelude.{◌≡◌, ◌≤◌, ◌⊎◌, length, IfOk, IfErr, Ok, Err};
ghost use Rattle.formula_parser.specs.declared.fault.FormulaFault.TheVariants as formula_fault;
ghost use Rattle.spanner_model.specs.Expression.{QueryTree};
ghost use Rattle.spanner_model.specs.ExprView.{query_of};
ghost use Rattle.query_parser.specs.Faults.{HasFault, IsQueryText};
ghost use Rattle.query_parser.specs.Answers.{IsQueryAnswer, IsRead};
ghost use Rattle.query_parser.specs.Spells.{SpellsQuery};
ghost use Rattle.query_parser.specs.Nest.{outermost};
ghost use Rattle.query_parser.specs.Step.{EndsReading};
ghost use Rattle.query_parser.specs.Turn.{AnswersBody};

use crate::MOST_TEXT_BYTES;
use crate::check::{check_query, names_of};
use crate::fault::QueryFault;
use crate::nest::Nest;
use crate::turns::{finish, take_turn};
use spanner_model::Query;
use std::alloc::Global;

fn read_by_turns(alloc: Global, text: &[u8]) -> Result<(Query, bool), QueryFault>
    requires { length text.now ≤ MOST_TEXT_BYTES }
    ensures { AnswersBody result (EndsReading text.now 0 outermost) }
{
    let mut nest = Nest::new(alloc);
    let mut at = 0;
    while at < text.len() {
        let (_, rest) = text.split_at(at);
        at += take_turn(alloc, text, at, rest, &mut nest)?;
    }
    finish(alloc, at, nest)
}

/// The one sound query of a text, or the text's first fault.
///
/// The time is linear in the text's length, but for looking up the names of `let`s.
pub fn read_query(alloc: Global, text: &[u8]) -> Result<Query, QueryFault>
    // The text spells the query, within all limits, and the query is sound.
    ensures found { IfOk result (λ q. IsQueryText text.now (query_of q)) }
    // The text of a sound query is read, unless memory runs out.
    ensures only { (q : QueryTree) → IsQueryText text.now q → IsQueryAnswer result (Ok q) }
    // The fault is the text's one fault, unless memory ran out.
    ensures fault { IfErr result (λ e. (e ≡ QueryFault.OutOfMemory) ⊎ HasFault text.now e) }
    // The fault of a text is found, unless memory runs out.
    ensures only_fault { (e : QueryFault) → HasFault text.now e → IsQueryAnswer result (Err e) }
    ensures never { IfErr result (λ e. ¬ (e ≡ QueryFault.Formula formula_fault.OutOfMemory)) }
{
    read_text(alloc, text)
}

/// Reads the text, and then checks what it spells.
fn read_text(alloc: Global, text: &[u8]) -> Result<Query, QueryFault>
    ensures { IsRead text.now result }
{
    if text.len() > MOST_TEXT_BYTES {
        return Err(QueryFault::TooLong);
    }
    match read_by_turns(alloc, text) {
        Ok((query, many)) => kept(alloc, text, query, many),
        Err(fault) => Err(fault),
    }
}

/// The query that a text spells, where no projection keeps too many names.
fn kept(alloc: Global, text: &[u8], query: Query, many: bool) -> Result<Query, QueryFault>
    requires short { length text.now ≤ MOST_TEXT_BYTES }
    requires spelled { EndsReading text.now 0 outermost (Ok (query_of query, many)) }
    ensures { IsRead text.now result }
{
    if many {
        return Err(QueryFault::TooManyVariables);
    }
    checked(alloc, text, query)
}

/// The query that a text spells, where its names are few and it passes the checks.
fn checked(alloc: Global, _text: &[u8], query: Query) -> Result<Query, QueryFault>
    requires short { length _text.now ≤ MOST_TEXT_BYTES }
    requires spelled { SpellsQuery _text.now (query_of query) }
    ensures { IsRead _text.now result }
{
    let Some(names) = names_of(&query) else {
        return Err(QueryFault::TooManyVariables);
    };
    match check_query(alloc, &query, &names) {
        Ok(()) => Ok(query),
        Err(fault) => Err(fault),
    }
}
