//! All answers of an expression.
ghost use Rattle.std.specs.Prelude.{◌≡◌, ◌≤◌, ℕ, List, length, IfOk};
ghost use Rattle.span_core.specs.Lists.{Has};
ghost use Rattle.spanner_model.specs.Captures.{VarName};
ghost use Rattle.spanner_model.specs.Expression.{ExprTree, union_all, join_all};
ghost use Rattle.spanner_model.specs.ExprView.{expr_of, exprs_of, query_of};
ghost use Rattle.plain_spanner.specs.Tables.{IsTableOf, AreTables, IsAsked};

use crate::MOST_DOCUMENT_BYTES;
use crate::join::join;
use crate::less::less;
use crate::rows::atom_table;
use crate::table::Table;
use crate::unite::unite;
use span_core::OutOfMemory;
use spanner_model::{Expr, Exprs, Query};
use std::alloc::Global;

/// The answers of an expression of the query, where `tables` has those of the `let`s before it.
#[cycle(tables)]
pub fn expr_table(
    alloc: Global,
    query: &Query,
    tables: &[Table],
    expr: &Expr,
    doc: &[u8],
) -> Result<Table, OutOfMemory>
    requires known { AreTables (query_of query.now) doc.now tables.now }
    requires asked { IsAsked (query_of query.now) (length tables.now) (expr_of expr.now) }
    requires short { length doc.now ≤ MOST_DOCUMENT_BYTES }
    ensures { IfOk result (λ t. IsTableOf (query_of query.now) doc.now (length tables.now) (expr_of expr.now) t.names t.rows.items) }
{
    match expr {
        Expr::Atom(atom) => atom_table(alloc, atom, doc),
        Expr::Named(k) => {
            let known = &tables[*k as usize];
            known.over(alloc, &known.names)
        }
        Expr::Union(parts) => union_table(alloc, query, tables, parts, doc),
        Expr::Join(parts) => join_table(alloc, query, tables, parts, doc),
        Expr::Project(names, sub) => {
            let inner = expr_table(alloc, query, tables, sub, doc)?;
            inner.over(alloc, names)
        }
        Expr::Minus(left, right) => {
            let first = expr_table(alloc, query, tables, left, doc)?;
            let second = expr_table(alloc, query, tables, right, doc)?;
            less(alloc, &first, &second)
        }
    }
}

/// The answers of the union of the parts.
#[cycle(tables)]
fn union_table(
    alloc: Global,
    query: &Query,
    tables: &[Table],
    parts: &Exprs,
    doc: &[u8],
) -> Result<Table, OutOfMemory>
    requires known { AreTables (query_of query.now) doc.now tables.now }
    requires asked { IsAsked (query_of query.now) (length tables.now) (union_all (exprs_of parts.now)) }
    requires short { length doc.now ≤ MOST_DOCUMENT_BYTES }
    ensures { IfOk result (λ t. IsTableOf (query_of query.now) doc.now (length tables.now)
        (union_all (exprs_of parts.now)) t.names t.rows.items) }
{
    let mut all = Table::none(alloc);
    for k in 0..parts.len() {
        let next = expr_table(alloc, query, tables, parts.at(k), doc)?;
        all = unite(alloc, &all, &next)?;
    }
    Ok(all)
}

/// The answers of the join of the parts.
#[cycle(tables)]
fn join_table(
    alloc: Global,
    query: &Query,
    tables: &[Table],
    parts: &Exprs,
    doc: &[u8],
) -> Result<Table, OutOfMemory>
    requires known { AreTables (query_of query.now) doc.now tables.now }
    requires asked { IsAsked (query_of query.now) (length tables.now) (join_all (exprs_of parts.now)) }
    requires short { length doc.now ≤ MOST_DOCUMENT_BYTES }
    ensures { IfOk result (λ t. IsTableOf (query_of query.now) doc.now (length tables.now)
        (join_all (exprs_of parts.now)) t.names t.rows.items) }
{
    let mut all = Table::unit(alloc)?;
    for k in 0..parts.len() {
        let next = expr_table(alloc, query, tables, parts.at(k), doc)?;
        all = join(alloc, &all, &next)?;
    }
    Ok(all)
}
