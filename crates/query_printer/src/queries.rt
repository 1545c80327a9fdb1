//! Prints queries.
//!
//! A named expression prints the name of its `let`; a union in a join stands in parentheses, and a join in a union
//! does not. A difference is in parentheses where a union is, and so is a union that is one of its sides.
ghost use Rattle.std.specs.Prelude.{◌≡◌, ◌++◌, ◌∷◌, [], ◌<◌, ◌≤◌, length, slice_get, unwrap_or, OnOk, OnErr, if◌then◌else◌};
ghost use Rattle.span_core.specs.Lists.{Has, IsPrefixOf};
ghost use Rattle.spanner_model.specs.Expression.{ExprTree, union_all, join_all, project, minus};
ghost use Rattle.spanner_model.specs.ExprView.{expr_of, exprs_of, lets_of, query_of};
ghost use Rattle.spanner_model.specs.Sound.{IsSound};
ghost use Rattle.spanner_model.specs.WellBuilt.{IsWellBuilt};
ghost use Rattle.spanner_model.specs.View.{tree_of, atom_of};
ghost use Rattle.query_printer.specs.PrintedFormula.{wrapped, atom_text};
ghost use Rattle.query_parser.specs.Spells.{names_of};
ghost use Rattle.query_parser.specs.declared.TheConstants.{MOST_TEXT_BYTES};
ghost use Rattle.query_parser.specs.Faults.{IsQueryText};
ghost use Rattle.query_parser.specs.Formed.{IsFormed, IsFormedQuery};
ghost use Rattle.query_printer.specs.PrintedQuery.{shape, wraps_in_union, wraps_in_join, keep_text, printed, let_text, query_text, IsShallowQuery};
ghost use Rattle.query_printer.specs.QueryShape.{shape_of};
ghost use Rattle.query_printer.specs.QueryLaws.{QueriesSpell, QueriesAreRead};

use crate::formulas::print_atom;
use cell_text::push_bytes;
use span_core::{Name, OutOfMemory, VarSet};
use spanner_model::{Atom, Expr, Exprs, Lets, Query};

/// What an expression is, as far as parentheses are concerned.
#[derive(Clone, Copy, Debug)]
pub(crate) enum Shape {
    Unit,
    Join,
    /// A union, or a difference.
    Union,
}

impl Shape {
    fn of(expr: &Expr) -> Shape
        ensures { shape_of result ≡ shape (expr_of expr.now) }
    {
        match expr {
            Expr::Atom(_) | Expr::Named(_) | Expr::Project(_, _) => Shape::Unit,
            Expr::Join(_) => Shape::Join,
            Expr::Union(_) => Shape::Union,
            Expr::Minus(_, _) => Shape::Union,
        }
    }

    /// Whether it stands in parentheses among the parts of a union, and as a side of a difference.
    fn wraps_in_union(self) -> bool
        ensures { result ≡ wraps_in_union (shape_of self) }
    {
        match self {
            Shape::Unit | Shape::Join => false,
            Shape::Union => true,
        }
    }

    /// Whether it stands in parentheses among the parts of a join.
    fn wraps_in_join(self) -> bool
        ensures { result ≡ wraps_in_join (shape_of self) }
    {
        match self {
            Shape::Unit => false,
            Shape::Join | Shape::Union => true,
        }
    }
}

/// Appends the printed form of a query, or answers that memory ran out and leaves `out` as it was.
///
/// Each `let` is followed by one space, and the body by nothing. The printed form may be longer, and nest
/// deeper, than what is read. The recursion is as deep as unions, joins, differences and projections stand
/// inside each other, in a sound query at most 600.
pub fn print_query(query: &Query, out: &mut Vec<u8>) -> Result<(), OutOfMemory>
    requires { IsSound (query_of query.now) }
    ensures ok { OnOk result (out.new.items ≡ out.old.items ++ query_text (query_of query.now)) }
    ensures err { OnErr result (out.new.items ≡ out.old.items) }
    // Where it nests no deeper than what is read, is no longer, and has no more differences, what was printed is a text of the query.
    ensures again { OnOk result (IsShallowQuery (query_of query.now) → length (query_text (query_of query.now)) ≤ MOST_TEXT_BYTES →
        IsQueryText (query_text (query_of query.now)) (query_of query.now)) }
{
    let before = out.len();
    let done = push_query(query, out);
    if done.is_err() {
        out.truncate(before);
    }
    done
}

/// The printed form of a sound query with at most 100 parentheses open at once, at most 100 parentheses and
/// captures in each atom, and at most 100 differences, spells it. Where it has no more bytes than a text may have, it
/// is a text of that query, so that reading it gives this query and no other.
pub fn printed_forms_spell_their_queries()
    ensures queries { QueriesSpell }
    ensures texts { QueriesAreRead }
{}

pub(crate) fn push_query(query: &Query, out: &mut Vec<u8>) -> Result<(), OutOfMemory>
    requires { IsFormedQuery (query_of query.now) }
    ensures ok { OnOk result (out.new.items ≡ out.old.items ++ query_text (query_of query.now)) }
    ensures front { IsPrefixOf out.old.items out.new.items }
{
    for k in 0..query.lets.len() {
        push_let(query.lets.at(k), &query.lets, out)?;
    }
    push_expr(&query.body, &query.lets, out)
}

/// Appends one of the lets.
fn push_let(named: &(Name, Expr), lets: &Lets, out: &mut Vec<u8>) -> Result<(), OutOfMemory>
    requires { IsFormed (length (lets_of lets.now)) (expr_of named.now.1) }
    ensures ok { OnOk result (out.new.items ≡ out.old.items ++ let_text (names_of (lets_of lets.now)) (named.now.0, expr_of named.now.1)) }
    ensures front { IsPrefixOf out.old.items out.new.items }
{
    push_bytes(b"let ", out)?;
    push_bytes(named.0.as_bytes(), out)?;
    push_bytes(b" = ", out)?;
    push_expr(&named.1, lets, out)?;
    push_bytes(b"; ", out)
}

#[cycle(print)]
fn push_expr(expr: &Expr, lets: &Lets, out: &mut Vec<u8>) -> Result<(), OutOfMemory>
    requires { IsFormed (length (lets_of lets.now)) (expr_of expr.now) }
    ensures ok { OnOk result (out.new.items ≡ out.old.items ++ printed (names_of (lets_of lets.now)) (expr_of expr.now)) }
    ensures front { IsPrefixOf out.old.items out.new.items }
{
    match expr {
        Expr::Atom(atom) => push_atom(atom, out),
        Expr::Named(k) => push_name(*k, lets, out),
        Expr::Union(parts) => push_union(parts, lets, out),
        Expr::Join(parts) => push_join(parts, lets, out),
        Expr::Project(names, sub) => push_projection(names, sub, lets, out),
        Expr::Minus(left, right) => push_difference(left, right, lets, out),
    }
}

/// Appends the parts of a union.
#[cycle(print)]
fn push_union(parts: &Exprs, lets: &Lets, out: &mut Vec<u8>) -> Result<(), OutOfMemory>
    requires { (e : ExprTree) → Has (exprs_of parts.now) e → IsFormed (length (lets_of lets.now)) e }
    ensures ok { OnOk result (out.new.items ≡ out.old.items ++ printed (names_of (lets_of lets.now)) (union_all (exprs_of parts.now))) }
    ensures front { IsPrefixOf out.old.items out.new.items }
{
    for k in 0..parts.len() {
        let part = parts.at(k);
        push_given(k > 0, b" union ", out)?;
        push_wrapped(Shape::of(part).wraps_in_union(), part, lets, out)?;
    }
    Ok(())
}

/// Appends the parts of a join.
#[cycle(print)]
fn push_join(parts: &Exprs, lets: &Lets, out: &mut Vec<u8>) -> Result<(), OutOfMemory>
    requires { (e : ExprTree) → Has (exprs_of parts.now) e → IsFormed (length (lets_of lets.now)) e }
    ensures ok { OnOk result (out.new.items ≡ out.old.items ++ printed (names_of (lets_of lets.now)) (join_all (exprs_of parts.now))) }
    ensures front { IsPrefixOf out.old.items out.new.items }
{
    for k in 0..parts.len() {
        let part = parts.at(k);
        push_given(k > 0, b" join ", out)?;
        push_wrapped(Shape::of(part).wraps_in_join(), part, lets, out)?;
    }
    Ok(())
}

/// Appends the sides of a difference.
#[cycle(print)]
fn push_difference(
    left: &Expr,
    right: &Expr,
    lets: &Lets,
    out: &mut Vec<u8>,
) -> Result<(), OutOfMemory>
    requires left { IsFormed (length (lets_of lets.now)) (expr_of left.now) }
    requires right { IsFormed (length (lets_of lets.now)) (expr_of right.now) }
    ensures ok { OnOk result (out.new.items ≡ out.old.items ++ printed (names_of (lets_of lets.now))
        (minus (expr_of left.now) (expr_of right.now))) }
    ensures front { IsPrefixOf out.old.items out.new.items }
{
    push_wrapped(Shape::of(left).wraps_in_union(), left, lets, out)?;
    push_bytes(b" minus ", out)?;
    push_wrapped(Shape::of(right).wraps_in_union(), right, lets, out)
}

#[cycle(print)]
fn push_projection(
    names: &VarSet,
    sub: &Expr,
    lets: &Lets,
    out: &mut Vec<u8>,
) -> Result<(), OutOfMemory>
    requires { IsFormed (length (lets_of lets.now)) (expr_of sub.now) }
    ensures ok { OnOk result (out.new.items ≡ out.old.items ++ printed (names_of (lets_of lets.now))
        (project names.now (expr_of sub.now))) }
    ensures front { IsPrefixOf out.old.items out.new.items }
{
    push_bytes(b"project ", out)?;
    push_keep(names, out)?;
    push_bytes(b" (", out)?;
    push_expr(sub, lets, out)?;
    push_bytes(b")", out)
}

/// Appends an expression, in parentheses where it is to have them.
#[cycle(print)]
fn push_wrapped(wraps: bool, expr: &Expr, lets: &Lets, out: &mut Vec<u8>) -> Result<(), OutOfMemory>
    requires { IsFormed (length (lets_of lets.now)) (expr_of expr.now) }
    ensures ok { OnOk result (out.new.items ≡ out.old.items ++ wrapped wraps (printed (names_of (lets_of lets.now)) (expr_of expr.now))) }
    ensures front { IsPrefixOf out.old.items out.new.items }
{
    if !wraps {
        return push_expr(expr, lets, out);
    }
    push_bytes(b"(", out)?;
    push_expr(expr, lets, out)?;
    push_bytes(b")", out)
}

fn push_atom(atom: &Atom, out: &mut Vec<u8>) -> Result<(), OutOfMemory>
    requires { IsWellBuilt (tree_of atom.now.formula) }
    ensures ok { OnOk result (out.new.items ≡ out.old.items ++ atom_text (atom_of atom.now)) }
    ensures front { IsPrefixOf out.old.items out.new.items }
{
    print_atom(atom, out)
}

/// Appends the name of let `k`.
fn push_name(k: u32, lets: &Lets, out: &mut Vec<u8>) -> Result<(), OutOfMemory>
    requires { k < length (lets_of lets.now) }
    ensures ok { OnOk result (out.new.items ≡ out.old.items ++ unwrap_or (slice_get (names_of (lets_of lets.now)) k) []) }
    ensures front { IsPrefixOf out.old.items out.new.items }
{
    push_bytes(lets.at(k as usize).0.as_bytes(), out)
}

/// Appends the names that a projection keeps.
fn push_keep(names: &VarSet, out: &mut Vec<u8>) -> Result<(), OutOfMemory>
    ensures ok { OnOk result (out.new.items ≡ out.old.items ++ keep_text names.now) }
    ensures front { IsPrefixOf out.old.items out.new.items }
{
    if names.len() == 0 {
        return push_bytes(b"none", out);
    }
    for k in 0..names.len() {
        push_given(k > 0, b",", out)?;
        push_bytes(names.at(k).as_bytes(), out)?;
    }
    Ok(())
}

/// Appends the bytes, where they are to be there.
pub(crate) fn push_given(there: bool, bytes: &[u8], out: &mut Vec<u8>) -> Result<(), OutOfMemory>
    ensures ok { OnOk result (out.new.items ≡ out.old.items ++ (if there then bytes.now else [])) }
    ensures front { IsPrefixOf out.old.items out.new.items }
{
    if there {
        return push_bytes(bytes, out);
    }
    Ok(())
}
