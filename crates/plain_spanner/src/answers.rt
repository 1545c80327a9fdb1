//! All answers of a query.
ghost use Rattle.std.specs.Prelude.{◌≤◌, List, length, IfOk};
ghost use Rattle.spanner_model.specs.Captures.{VarName};
ghost use Rattle.spanner_model.specs.ExprView.{query_of};
ghost use Rattle.spanner_model.specs.Sound.{IsSound};
ghost use Rattle.spanner_model.specs.Answers.{AreResultNames, AreAnswers};

use crate::MOST_DOCUMENT_BYTES;
use crate::order::sort_once;
use crate::tables::expr_table;
use span_core::{OutOfMemory, Row};
use spanner_model::Query;
use std::alloc::Global;

/// All answers of the query on the document, as rows over the names of its result: each once, in block
/// order.
///
/// Each `let` is worked out once, in order. The time and memory grow with the answers of each part of
/// the query, and not with those of the whole alone.
pub fn all(alloc: Global, query: &Query, doc: &[u8]) -> Result<Vec<Row>, OutOfMemory>
    requires sound { IsSound (query_of query.now) }
    requires short { length doc.now ≤ MOST_DOCUMENT_BYTES }
    ensures { IfOk result
        (λ rows. (names : List VarName) → AreResultNames (query_of query.now) names → AreAnswers (query_of query.now) doc.now names rows.items) }
{
    let mut tables = Vec::new(alloc);
    for k in 0..query.lets.len() {
        let table = expr_table(alloc, query, &tables, &query.lets.at(k).1, doc)?;
        tables.push(table)?;
    }
    let mut table = expr_table(alloc, query, &tables, &query.body, doc)?;
    sort_once(&mut table.rows);
    Ok(table.rows)
}
