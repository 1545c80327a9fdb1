//! Whether a difference stands in the text of a query.
ghost use Rattle.std.specs.Prelude.{◌↔◌, IsTrue};
ghost use Rattle.spanner_model.specs.Expression.{join_all};
ghost use Rattle.spanner_model.specs.ExprView.{expr_of, exprs_of, query_of};
ghost use Rattle.spanner_engine.specs.Touching.{HasMinus, HasMinusIn};

use spanner_model::{Expr, Exprs, Query};

/// Whether a difference stands in the query's text: in a `let`, used or not, or in the body.
pub(crate) fn has_minus(query: &Query) -> bool
    ensures { IsTrue result ↔ HasMinus (query_of query.now) }
{
    for k in 0..query.lets.len() {
        if has_minus_in(&query.lets.at(k).1) {
            return true;
        }
    }
    has_minus_in(&query.body)
}

/// Whether one stands in the expression.
#[cycle(differences)]
fn has_minus_in(expr: &Expr) -> bool
    ensures { IsTrue result ↔ HasMinusIn (expr_of expr.now) }
{
    match expr {
        Expr::Atom(_) => false,
        Expr::Named(_) => false,
        Expr::Union(parts) => has_minus_among(parts),
        Expr::Join(parts) => has_minus_among(parts),
        Expr::Project(_kept, sub) => has_minus_in(sub),
        Expr::Minus(_left, _right) => true,
    }
}

/// Whether one stands in some part of a union or a join.
#[cycle(differences)]
fn has_minus_among(parts: &Exprs) -> bool
    ensures { IsTrue result ↔ HasMinusIn (join_all (exprs_of parts.now)) }
{
    for k in 0..parts.len() {
        if has_minus_in(parts.at(k)) {
            return true;
        }
    }
    false
}
