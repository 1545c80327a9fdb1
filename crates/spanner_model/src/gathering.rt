//! The variables of formulas and of queries.
ghost use Rattle.std.specs.Prelude.{◌≡◌, ℕ, ◌<◌, ◌≤◌, ◌↔◌, IsTrue, IfOk, List, [], length};
ghost use Rattle.std.specs.Bool.{OnTrue, OnFalse};
ghost use Rattle.span_core.specs.declared.TheConstants.{MOST_VARIABLES};
ghost use Rattle.span_core.specs.NameSets.{Ascending};
ghost use Rattle.span_core.specs.Lists.{Has};
ghost use Rattle.spanner_model.specs.Tree.{Tree, cat_all};
ghost use Rattle.spanner_model.specs.View.{tree_of, trees_of};
ghost use Rattle.spanner_model.specs.Sequential.{HasVar};
ghost use Rattle.spanner_model.specs.WellBuilt.{IsWellBuilt};
ghost use Rattle.spanner_model.specs.Expression.{ExprTree, join_all};
ghost use Rattle.spanner_model.specs.ExprView.{expr_of, exprs_of, query_of};
ghost use Rattle.spanner_model.specs.Answer.{VarOf};
ghost use Rattle.spanner_model.specs.Answers.{AreResultNames};
ghost use Rattle.spanner_model.specs.Sound.{IsSound};
ghost use Rattle.spanner_model.specs.Gathered.{Adds, AddsSome, HaveRoom, Gathered, vars_in, IsUnderLets};

use crate::expression::{Expr, Exprs};
use crate::formula::{Formula, Parts};
use crate::query::Query;
use span_core::{MOST_VARIABLES, Name, OutOfMemory, VarSet};
use std::alloc::Global;

/// Adds the names of a formula's captures to a set. False where that would be more names than a set has
/// room for; then some of the new ones may have been added.
pub fn gather(formula: &Formula, into: &mut VarSet) -> bool
    requires { IsWellBuilt (tree_of formula.now) }
    ensures room { IsTrue result ↔ HaveRoom into.old (HasVar (tree_of formula.now)) }
    ensures added { OnTrue result (Adds into.old (HasVar (tree_of formula.now)) into.new) }
    ensures partly { OnFalse result (AddsSome into.old (HasVar (tree_of formula.now)) into.new) }
{
    let all = gather_formula(formula, into);
    prove!(into.len() <= MOST_VARIABLES);
    all
}

#[cycle(gather)]
fn gather_formula(formula: &Formula, into: &mut VarSet) -> bool
    requires { IsWellBuilt (tree_of formula.now) }
    ensures { Gathered into.old (HasVar (tree_of formula.now)) result into.new }
{
    match formula {
        Formula::Empty | Formula::One(_) => true,
        Formula::Cat(parts) | Formula::Alt(parts) => gather_parts(parts, into),
        Formula::Rep(sub, _, _) => gather_formula(sub, into),
        Formula::Cap(name, sub) => {
            if !gather_name(name, into) {
                return false;
            }
            gather_formula(sub, into)
        }
    }
}

#[cycle(gather)]
fn gather_parts(parts: &Parts, into: &mut VarSet) -> bool
    requires { (f : Tree) → Has (trees_of parts.now) f → IsWellBuilt f }
    ensures { Gathered into.old (HasVar (cat_all (trees_of parts.now))) result into.new }
{
    for k in 0..parts.len() {
        if !gather_formula(parts.at(k), into) {
            return false;
        }
    }
    true
}

fn gather_name(name: &Name, into: &mut VarSet) -> bool
    ensures { Gathered into.old (λ x. name.now ≡ x) result into.new }
{
    prove!(into.len() <= MOST_VARIABLES);
    into.add(*name)
}

/// The variables of a query's result.
///
/// The variables of each `let` are worked out once, in order, and kept in a list.
pub fn variables(alloc: Global, query: &Query) -> Result<VarSet, OutOfMemory>
    requires { IsSound (query_of query.now) }
    ensures { IfOk result (AreResultNames (query_of query.now)) }
{
    let mut known = Vec::new(alloc);
    for k in 0..query.lets.len() {
        let vars = variables_of(&query.lets.at(k).1, &known);
        known.push(vars)?;
    }
    Ok(variables_of(&query.body, &known))
}

/// The variables of an expression, where `known` has those of the `let`s of which it may speak.
fn variables_of(expr: &Expr, known: &[VarSet]) -> VarSet
    requires under { IsUnderLets (length known.now) (expr_of expr.now) }
    requires room { HaveRoom [] (VarOf (vars_in known.now) (expr_of expr.now)) }
    ensures names { (x : List ℕ) → Has result x ↔ VarOf (vars_in known.now) (expr_of expr.now) x }
    ensures ascending { Ascending result }
{
    let mut vars = VarSet::empty();
    let all = gather_expr(expr, known, &mut vars);
    prove!(all);
    prove!(vars.len() <= MOST_VARIABLES);
    vars
}

#[cycle(expressions)]
fn gather_expr(expr: &Expr, known: &[VarSet], into: &mut VarSet) -> bool
    requires { IsUnderLets (length known.now) (expr_of expr.now) }
    ensures { Gathered into.old (VarOf (vars_in known.now) (expr_of expr.now)) result into.new }
{
    match expr {
        Expr::Atom(atom) => gather_formula(&atom.formula, into),
        Expr::Named(k) => gather_all(&known[*k as usize], into),
        Expr::Union(parts) | Expr::Join(parts) => gather_exprs(parts, known, into),
        Expr::Project(names, _) => gather_all(names, into),
        Expr::Minus(left, _) => gather_expr(left, known, into),
    }
}

#[cycle(expressions)]
fn gather_exprs(parts: &Exprs, known: &[VarSet], into: &mut VarSet) -> bool
    requires { (e : ExprTree) → Has (exprs_of parts.now) e → IsUnderLets (length known.now) e }
    ensures { Gathered into.old (VarOf (vars_in known.now) (join_all (exprs_of parts.now))) result into.new }
{
    for k in 0..parts.len() {
        if !gather_expr(parts.at(k), known, into) {
            return false;
        }
    }
    true
}

fn gather_all(names: &VarSet, into: &mut VarSet) -> bool
    ensures { Gathered into.old (Has names.now) result into.new }
{
    for k in 0..names.len() {
        if !gather_name(names.at(k), into) {
            return false;
        }
    }
    true
}
