//! Differences of tables.
ghost use Rattle.std.specs.Prelude.{◌≡◌, ◌↔◌, ◌⊎◌, IfOk, IsTrue, OnOk};
ghost use Rattle.span_core.specs.Lists.{Has};
ghost use Rattle.spanner_model.specs.Answers.{SpanRow};
ghost use Rattle.plain_spanner.specs.Listed.{Tells};
ghost use Rattle.plain_spanner.specs.Tables.{AreRows, IsLeft, row_over};

use crate::table::{Table, row_with};
use span_core::{OutOfMemory, Row};
use std::alloc::Global;

/// Whether the row is one of these.
fn has_row(rows: &[Row], row: &Row) -> bool
    ensures { IsTrue result ↔ Has rows.now row.now }
{
    for other in rows {
        if other == row {
            return true;
        }
    }
    false
}

/// Adds the row, if it is none of these.
fn add_left(rows: &mut Vec<Row>, row: Row, others: &[Row]) -> Result<(), OutOfMemory>
    ensures kept { OnOk result ((r : SpanRow) → Has rows.old.items r → Has rows.new.items r) }
    ensures only { OnOk result ((r : SpanRow) → Has rows.new.items r → Has rows.old.items r ⊎ ((r ≡ row) × (Has others.now r → ⊥))) }
    ensures added { OnOk result ((Has others.now row → ⊥) → Has rows.new.items row) }
{
    if !has_row(others, &row) {
        rows.push(row)?;
    }
    Ok(())
}

/// The rows of the first table that are none of the second.
pub fn less(alloc: Global, left: &Table, right: &Table) -> Result<Table, OutOfMemory>
    requires rows { AreRows left.now.names left.now.rows.items }
    requires whole { (r : SpanRow) → Has left.now.rows.items r → row_over left.now.names left.now.names r ≡ r }
    ensures names { IfOk result (λ t. t.names ≡ left.now.names) }
    ensures rows { IfOk result (λ t. Tells (Has t.rows.items) (IsLeft left.now.rows.items right.now.rows.items)) }
{
    let others = right.rows.as_slice();
    let mut rows = Vec::new(alloc);
    for row in &left.rows {
        add_left(&mut rows, row_with(row, &left.names, &left.names), others)?;
    }
    Ok(Table {
        names: left.names.copy(),
        rows,
    })
}
