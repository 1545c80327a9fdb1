//! The positions at which a document is read: all, or what the atoms of the query's text touch.
//!
//! Each atom is looked at by itself and their positions are merged. The atoms of every `let` count, used or not, as
//! all are compiled. Where a difference stands in the text, all positions are read: what is taken away may stand anywhere.
ghost use Rattle.std.specs.Prelude.{◌≡◌, ℕ, ◌+◌, ◌^◌, ◌≤◌, ◌⊎◌, ◌↔◌, false, true, length, IfErr, IfOk, IsTrue, OnOk};
ghost use Rattle.std.specs.Bool.{OnFalse, OnTrue};
ghost use Rattle.span_core.specs.Intervals.{Covers};
ghost use Rattle.span_core.specs.Lists.{Has};
ghost use Rattle.spanner_model.specs.Expression.{ExprTree, atom as atom_expr, join_all};
ghost use Rattle.spanner_model.specs.ExprView.{expr_of, exprs_of, query_of};
ghost use Rattle.spanner_model.specs.Sound.{IsSound};
ghost use Rattle.spanner_model.specs.View.{atom_of};
ghost use Rattle.spanner_engine.specs.Touching.{HasMinus, SomeAtom, SomeAtomOf};
ghost use Rattle.spanner_engine.specs.Begun.{IsReadAt, filter_steps};
ghost use Rattle.spanner_engine.specs.Filtering.{AddsTouched, AreAtomsWithin, HasFullAtom, IsFilterFault, IsHeavy, IsInSound, steps_in};

use crate::Options;
use crate::differences::has_minus;
use segment_filter::{FilterFault, touched};
use span_core::{Steps, Touched};
use spanner_model::{Atom, Expr, Exprs, Query};
use std::alloc::Global;
use std::sync::ledger::Ledger;

/// The positions at which a document is read: all of them, or with the filter those that some atom of the
/// query's text touches, unless a difference stands there.
pub(crate) fn positions_read<L: Ledger>(
    alloc: Global,
    query: &Query,
    doc: &[u8],
    options: Options,
    steps: &mut Steps<L>,
) -> Result<Touched, FilterFault>
    requires sound { IsSound (query_of query.now) }
    requires few { length doc.now ≤ 2 ^ 28 }
    requires limit { options.limit ≤ 100000000 }
    ensures read { IfOk result (λ t. (i : ℕ) → Covers t i ↔ IsReadAt options.filter (query_of query.now) doc.now i) }
    ensures within { OnOk result (AreAtomsWithin (query_of query.now) doc.now options.filter options.limit) }
    ensures fault { IfErr result (IsFilterFault (query_of query.now) doc.now options.filter options.limit) }
    ensures steps { steps.new ≤ steps.old + filter_steps options.filter (query_of query.now) doc.now }
{
    if leaves_out(query, options.filter) {
        return touched_by_query(alloc, query, doc, options.limit, steps);
    }
    Ok(Touched::all(alloc, doc.len() as u32)?)
}

/// Whether positions that no atom touches are left out: the filter is asked for, and no difference stands in the query's text.
fn leaves_out(query: &Query, filter: bool) -> bool
    ensures yes { OnTrue result (IsTrue filter × ¬ HasMinus (query_of query.now)) }
    ensures no { OnFalse result ((filter ≡ false) ⊎ HasMinus (query_of query.now)) }
{
    if !filter {
        return false;
    }
    !has_minus(query)
}

/// The positions that the atoms of all `let`s, used or not, and of the body touch, where no difference stands in the text.
fn touched_by_query<L: Ledger>(
    alloc: Global,
    query: &Query,
    doc: &[u8],
    limit: u64,
    steps: &mut Steps<L>,
) -> Result<Touched, FilterFault>
    requires sound { IsSound (query_of query.now) }
    requires plain { ¬ HasMinus (query_of query.now) }
    requires few { length doc.now ≤ 2 ^ 28 }
    requires limit { limit ≤ 100000000 }
    ensures touched { IfOk result (λ t. (i : ℕ) → Covers t i ↔ IsReadAt true (query_of query.now) doc.now i) }
    ensures within { OnOk result (¬ SomeAtomOf (IsHeavy doc.now limit) (query_of query.now)) }
    ensures fault { IfErr result (IsFilterFault (query_of query.now) doc.now true limit) }
    ensures steps { steps.new ≤ steps.old + filter_steps true (query_of query.now) doc.now }
{
    let mut found = Touched::new(alloc);
    for k in 0..query.lets.len() {
        found = touched_in(alloc, &query.lets.at(k).1, found, doc, limit, steps)?;
    }
    touched_in(alloc, &query.body, found, doc, limit, steps)
}

/// The positions that were found before, and those that the atoms of an expression touch.
#[cycle(touching)]
fn touched_in<L: Ledger>(
    alloc: Global,
    expr: &Expr,
    before: Touched,
    doc: &[u8],
    limit: u64,
    steps: &mut Steps<L>,
) -> Result<Touched, FilterFault>
    requires sound { IsInSound (expr_of expr.now) }
    requires few { length doc.now ≤ 2 ^ 28 }
    requires limit { limit ≤ 100000000 }
    ensures touched { IfOk result (AddsTouched doc.now (expr_of expr.now) before) }
    ensures within { OnOk result (¬ SomeAtom (IsHeavy doc.now limit) (expr_of expr.now)) }
    ensures fault { IfErr result (HasFullAtom doc.now limit (expr_of expr.now)) }
    ensures steps { steps.new ≤ steps.old + steps_in doc.now (expr_of expr.now) }
{
    match expr {
        Expr::Atom(atom) => touched_by_atom(alloc, atom, before, doc, limit, steps),
        Expr::Named(_) => Ok(before),
        Expr::Union(parts) => touched_among(alloc, parts, before, doc, limit, steps),
        Expr::Join(parts) => touched_among(alloc, parts, before, doc, limit, steps),
        Expr::Project(_kept, sub) => touched_in(alloc, sub, before, doc, limit, steps),
        Expr::Minus(left, right) => {
            let found = touched_in(alloc, left, before, doc, limit, steps)?;
            touched_in(alloc, right, found, doc, limit, steps)
        }
    }
}

/// The positions that were found before, and those that the atoms of the parts of a union or a join touch.
#[cycle(touching)]
fn touched_among<L: Ledger>(
    alloc: Global,
    parts: &Exprs,
    before: Touched,
    doc: &[u8],
    limit: u64,
    steps: &mut Steps<L>,
) -> Result<Touched, FilterFault>
    requires sound { (e : ExprTree) → Has (exprs_of parts.now) e → IsInSound e }
    requires few { length doc.now ≤ 2 ^ 28 }
    requires limit { limit ≤ 100000000 }
    ensures touched { IfOk result (AddsTouched doc.now (join_all (exprs_of parts.now)) before) }
    ensures within { OnOk result (¬ SomeAtom (IsHeavy doc.now limit) (join_all (exprs_of parts.now))) }
    ensures fault { IfErr result (HasFullAtom doc.now limit (join_all (exprs_of parts.now))) }
    ensures steps { steps.new ≤ steps.old + steps_in doc.now (join_all (exprs_of parts.now)) }
{
    let mut found = before;
    for k in 0..parts.len() {
        found = touched_in(alloc, parts.at(k), found, doc, limit, steps)?;
    }
    Ok(found)
}

/// The positions that were found before, and those that an atom touches: apart from the recursion, whose stack stays small so.
#[inline(never)]
fn touched_by_atom<L: Ledger>(
    alloc: Global,
    atom: &Atom,
    before: Touched,
    doc: &[u8],
    limit: u64,
    steps: &mut Steps<L>,
) -> Result<Touched, FilterFault>
    requires sound { IsInSound (atom_expr (atom_of atom.now)) }
    requires few { length doc.now ≤ 2 ^ 28 }
    requires limit { limit ≤ 100000000 }
    ensures touched { IfOk result (AddsTouched doc.now (atom_expr (atom_of atom.now)) before) }
    ensures within { OnOk result (¬ SomeAtom (IsHeavy doc.now limit) (atom_expr (atom_of atom.now))) }
    ensures fault { IfErr result (HasFullAtom doc.now limit (atom_expr (atom_of atom.now))) }
    ensures steps { steps.new ≤ steps.old + steps_in doc.now (atom_expr (atom_of atom.now)) }
{
    let here = touched(alloc, atom, doc, limit, steps)?;
    Ok(before.merge(alloc, &here)?)
}
