//! Checks the expressions of a query, from the leaves up.
//!
//! Each expression answers its variables, with those of them that are sure, or its first fault; a `let` is checked
//! under those before it, whose variables are known by number. The names of all atoms are gathered first, and each
//! set of variables is told by their numbers.
ghost use Rattle.std.specs.Prelude.{◌≡◌, ℕ, ◌<◌, ◌≤◌, ◌↔◌, List, length, IfSome, IfNone, Some, OnOk, IfErr, ◌⊎◌};
ghost use Rattle.span_core.specs.declared.TheConstants.{MOST_VARIABLES};
ghost use Rattle.span_core.specs.Lists.{Has, AtMost};
ghost use Rattle.span_core.specs.NameSets.{Ascending};
ghost use Rattle.spanner_model.specs.Expression.{ExprTree, union_all, join_all};
ghost use Rattle.spanner_model.specs.ExprView.{expr_of, exprs_of, query_of};
ghost use Rattle.spanner_model.specs.Sound.{NameIn, NameOf};
ghost use Rattle.spanner_model.specs.Gathered.{Gathered};
ghost use Rattle.functional_check.specs.Faults.{IsLeastOf};
ghost use Rattle.functional_check.specs.Numbered.{HasNumber};
ghost use Rattle.query_parser.specs.TreeFaults.{IsTreeFault};
ghost use Rattle.query_parser.specs.Formed.{IsFormed, IsFormedQuery, PassesQuery};
ghost use Rattle.query_parser.specs.Bounds.{bound_in, bounds_in, HasSureAmongVars, CheckedUnder, IsUnsureIn, IsProjectionOf, IsDifferenceOf};

use crate::fault::QueryFault;
use functional_check::{NameBits, check_among, sure_among};
use span_core::{MOST_VARIABLES, Name, VarSet};
use spanner_model::{Expr, Exprs, Query, gather};
use std::alloc::Global;

/// The variables of an expression, and those of them that are sure: each answer gives them a span.
#[derive(Clone, Copy)]
pub(crate) struct Bound {
    vars: NameBits,
    sure: NameBits,
}

impl Bound {
    /// Those of a join of no parts.
    fn none() -> Bound
        ensures vars { (k : ℕ) → ¬ HasNumber result.vars k }
        ensures sure { (k : ℕ) → ¬ HasNumber result.sure k }
    {
        Bound {
            vars: NameBits::empty(),
            sure: NameBits::empty(),
        }
    }

    /// Those of a union of parts that have these, and of one part more.
    fn unite(self, part: Bound) -> Bound
        ensures vars { (k : ℕ) → HasNumber result.vars k ↔ (HasNumber self.vars k ⊎ HasNumber part.vars k) }
        ensures sure { (k : ℕ) → HasNumber result.sure k ↔ (HasNumber self.sure k × HasNumber part.sure k) }
    {
        Bound {
            vars: self.vars.union(part.vars),
            sure: self.sure.meet(part.sure),
        }
    }

    /// Those of a join of parts that have these, and of one part more.
    fn join(self, part: Bound) -> Bound
        ensures vars { (k : ℕ) → HasNumber result.vars k ↔ (HasNumber self.vars k ⊎ HasNumber part.vars k) }
        ensures sure { (k : ℕ) → HasNumber result.sure k ↔ (HasNumber self.sure k ⊎ HasNumber part.sure k) }
    {
        Bound {
            vars: self.vars.union(part.vars),
            sure: self.sure.union(part.sure),
        }
    }

    /// The least variable that is in both and not sure in both.
    fn least_unsure(self, part: Bound, names: &VarSet) -> Option<Name>
        requires { Ascending names.now }
        ensures { IsLeastOf (IsUnsureIn (bound_in names.now self) (bound_in names.now part)) result }
    {
        let sure = self.sure.meet(part.sure);
        let vars = self.vars.meet(part.vars);
        vars.without(sure).least(names)
    }
}

/// The variables of an expression, where `names` has the names of its atoms and `known` the variables of the lets
/// of which it may speak, or its first fault.
#[cycle(check)]
pub(crate) fn check_expr(expr: &Expr, names: &VarSet, known: &[Bound]) -> Result<Bound, QueryFault>
    requires formed { IsFormed (length known.now) (expr_of expr.now) }
    requires ascending { Ascending names.now }
    requires named { (x : List ℕ) → NameIn (expr_of expr.now) x → Has names.now x }
    requires among { HasSureAmongVars (bounds_in names.now known.now) }
    ensures { CheckedUnder names.now known.now (expr_of expr.now) result }
{
    match expr {
        Expr::Atom(atom) => match check_among(&atom.formula, names) {
            Ok(vars) => Ok(Bound {
                vars,
                sure: sure_among(&atom.formula, names),
            }),
            Err(fault) => Err(QueryFault::Check(fault)),
        },
        Expr::Named(k) => Ok(known[*k as usize]),
        Expr::Union(parts) => check_union(parts, names, known),
        Expr::Join(parts) => check_join(parts, names, known),
        Expr::Project(keep, sub) => {
            let bound = check_expr(sub, names, known)?;
            projected(keep, bound, names)
        }
        Expr::Minus(left, right) => {
            let bound = check_expr(left, names, known)?;
            let other = check_expr(right, names, known)?;
            differing(bound, other, names)
        }
    }
}

#[cycle(check)]
fn check_union(parts: &Exprs, names: &VarSet, known: &[Bound]) -> Result<Bound, QueryFault>
    requires some { 0 < length (exprs_of parts.now) }
    requires formed { (e : ExprTree) → Has (exprs_of parts.now) e → IsFormed (length known.now) e }
    requires ascending { Ascending names.now }
    requires named { (x : List ℕ) → NameIn (join_all (exprs_of parts.now)) x → Has names.now x }
    requires among { HasSureAmongVars (bounds_in names.now known.now) }
    ensures { CheckedUnder names.now known.now (union_all (exprs_of parts.now)) result }
{
    let mut bound = match check_expr(parts.at(0), names, known) {
        Ok(bound) => bound,
        Err(fault) => return Err(fault),
    };
    for k in 1..parts.len() {
        match check_expr(parts.at(k), names, known) {
            Ok(part) => bound = bound.unite(part),
            Err(fault) => return Err(fault),
        }
    }
    Ok(bound)
}

/// All parts are checked before what they share, so that a part's own fault comes first.
#[cycle(check)]
fn check_join(parts: &Exprs, names: &VarSet, known: &[Bound]) -> Result<Bound, QueryFault>
    requires formed { (e : ExprTree) → Has (exprs_of parts.now) e → IsFormed (length known.now) e }
    requires ascending { Ascending names.now }
    requires named { (x : List ℕ) → NameIn (join_all (exprs_of parts.now)) x → Has names.now x }
    requires among { HasSureAmongVars (bounds_in names.now known.now) }
    ensures { CheckedUnder names.now known.now (join_all (exprs_of parts.now)) result }
{
    let mut bound = Bound::none();
    let mut clash = None;
    for k in 0..parts.len() {
        let part = check_expr(parts.at(k), names, known)?;
        clash = first_clash(clash, bound, part, names);
        bound = bound.join(part);
    }
    match clash {
        Some(var) => Err(QueryFault::JoinUnsure { var }),
        None => Ok(bound),
    }
}

/// A projection to these names of an expression with these variables.
fn projected(keep: &VarSet, bound: Bound, names: &VarSet) -> Result<Bound, QueryFault>
    requires { Ascending names.now }
    ensures { IsProjectionOf names.now keep.now bound result }
{
    let mut vars = NameBits::empty();
    for k in 0..keep.len() {
        let name = keep.at(k);
        if !bound.vars.has(name, names) {
            return Err(QueryFault::UnknownVariable { var: *name });
        }
        vars = vars.union(NameBits::of(name, names));
    }
    Ok(Bound {
        vars,
        sure: vars.meet(bound.sure),
    })
}

/// A difference of a side with these variables and one with those.
fn differing(left: Bound, right: Bound, names: &VarSet) -> Result<Bound, QueryFault>
    requires { Ascending names.now }
    ensures { IsDifferenceOf names.now left right result }
{
    let first = left.vars.without(right.vars);
    let second = right.vars.without(left.vars);
    let both = first.union(second);
    match both.least(names) {
        Some(var) => Err(QueryFault::MinusVariables { var }),
        None => Ok(left),
    }
}

/// A variable that clashes at an earlier part, or else the least one that clashes at this part with those
/// before it.
///
/// Where none clashed before, a variable that is sure in one of the earlier parts is sure in each that has it.
fn first_clash(clash: Option<Name>, before: Bound, part: Bound, names: &VarSet) -> Option<Name>
    requires { Ascending names.now }
    ensures before { IfSome clash (λ x. result ≡ Some x) }
    ensures here { IfNone clash (IsLeastOf (IsUnsureIn (bound_in names.now before) (bound_in names.now part)) result) }
{
    match clash {
        Some(var) => Some(var),
        None => before.least_unsure(part, names),
    }
}

/// Adds the names of an expression's atoms to a set. False where they find no room.
#[cycle(names)]
fn gather_names(expr: &Expr, into: &mut VarSet) -> bool
    requires { (n : ℕ) × IsFormed n (expr_of expr.now) }
    ensures { Gathered into.old (NameIn (expr_of expr.now)) result into.new }
{
    match expr {
        Expr::Atom(atom) => gather(&atom.formula, into),
        Expr::Named(_) => true,
        Expr::Union(parts) => gather_parts(parts, into),
        Expr::Join(parts) => gather_parts(parts, into),
        Expr::Project(_, sub) => gather_names(sub, into),
        Expr::Minus(left, right) => {
            if !gather_names(left, into) {
                return false;
            }
            gather_names(right, into)
        }
    }
}

#[cycle(names)]
fn gather_parts(parts: &Exprs, into: &mut VarSet) -> bool
    requires { (e : ExprTree) → Has (exprs_of parts.now) e → (n : ℕ) × IsFormed n e }
    ensures { Gathered into.old (NameIn (join_all (exprs_of parts.now))) result into.new }
{
    for k in 0..parts.len() {
        if !gather_names(parts.at(k), into) {
            return false;
        }
    }
    true
}

/// The names of the captures of all atoms. None exactly where a set has no room for them.
pub(crate) fn names_of(query: &Query) -> Option<VarSet>
    requires { IsFormedQuery (query_of query.now) }
    ensures none { IfNone result (¬ AtMost MOST_VARIABLES (NameOf (query_of query.now))) }
    ensures few { IfSome result (λ names. length names ≤ MOST_VARIABLES) }
    ensures ascending { IfSome result Ascending }
    ensures names { IfSome result (λ names. (x : List ℕ) → NameOf (query_of query.now) x → Has names x) }
{
    let mut names = VarSet::empty();
    for k in 0..query.lets.len() {
        if !gather_names(&query.lets.at(k).1, &mut names) {
            return None;
        }
    }
    let all = gather_names(&query.body, &mut names);
    prove!(names.len() <= MOST_VARIABLES);
    if all { Some(names) } else { None }
}

/// The first fault of the lets in order and then of the body, where `names` has the names of all atoms.
pub(crate) fn check_query(alloc: Global, query: &Query, names: &VarSet) -> Result<(), QueryFault>
    requires formed { IsFormedQuery (query_of query.now) }
    requires ascending { Ascending names.now }
    requires named { (x : List ℕ) → NameOf (query_of query.now) x → Has names.now x }
    ensures passes { OnOk result (PassesQuery (query_of query.now)) }
    ensures fault { IfErr result (λ e. (e ≡ QueryFault.OutOfMemory) ⊎ IsTreeFault (query_of query.now) e) }
{
    let mut known = Vec::new(alloc);
    for k in 0..query.lets.len() {
        match check_expr(&query.lets.at(k).1, names, &known) {
            Ok(bound) => {
                let Ok(()) = known.push(bound) else {
                    return Err(QueryFault::OutOfMemory);
                };
            }
            Err(fault) => return Err(fault),
        }
    }
    match check_expr(&query.body, names, &known) {
        Ok(_) => Ok(()),
        Err(fault) => Err(fault),
    }
}
