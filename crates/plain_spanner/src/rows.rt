//! All answers of an atom.
ghost use Rattle.std.specs.Prelude.{◌≡◌, ◌↔◌, ◌⊎◌, ℕ, ◌<◌, ◌≤◌, List, [], length, IfOk, OnOk, IsTrue};
ghost use Rattle.span_core.specs.Lists.{Has};
ghost use Rattle.spanner_model.specs.View.{tree_of, atom_of};
ghost use Rattle.spanner_model.specs.Captures.{span_of, row_of};
ghost use Rattle.spanner_model.specs.Sequential.{HasVar, IsSequential};
ghost use Rattle.spanner_model.specs.WellBuilt.{IsWellBuilt};
ghost use Rattle.spanner_model.specs.Gathered.{HaveRoom};
ghost use Rattle.spanner_model.specs.Answer.{FitsSomewhere};
ghost use Rattle.plain_spanner.specs.Listed.{Tells, FromSome};
ghost use Rattle.plain_spanner.specs.Tables.{IsTable, IsRowOfFits};

use crate::MOST_DOCUMENT_BYTES;
use crate::fits::{Branch, go_on};
use crate::order::sort_once;
use crate::table::Table;
use span_core::{MOST_VARIABLES, Name, OutOfMemory, Row, Span, VarSet};
use spanner_model::{Atom, gather};
use std::alloc::Global;

/// The answers of the atom.
pub fn atom_table(alloc: Global, atom: &Atom, doc: &[u8]) -> Result<Table, OutOfMemory>
    requires built { IsWellBuilt (tree_of atom.now.formula) }
    requires sequential { IsSequential (tree_of atom.now.formula) }
    requires room { HaveRoom [] (HasVar (tree_of atom.now.formula)) }
    requires short { length doc.now ≤ MOST_DOCUMENT_BYTES }
    ensures { IfOk result (λ t. IsTable (HasVar (tree_of atom.now.formula)) (FitsSomewhere (atom_of atom.now) doc.now)
        t.names t.rows.items) }
{
    let mut names = VarSet::empty();
    let all = gather(&atom.formula, &mut names);
    prove!(all);
    prove!(names.len() <= MOST_VARIABLES);
    let mut rows = Vec::new(alloc);
    for from in 0..places(atom.from_start, doc.len()) {
        let here = [Branch::at(alloc, from)?];
        let found = go_on(alloc, &atom.formula, doc, &here)?;
        add_rows(&mut rows, &found, &names, atom.to_end, doc.len())?;
    }
    sort_once(&mut rows);
    Ok(Table { names, rows })
}

/// How many places a fit may begin at.
fn places(from_start: bool, len: usize) -> usize
    requires { len ≤ MOST_DOCUMENT_BYTES }
    ensures only { (i : ℕ) → i < result → (i ≤ len) × (IsTrue from_start → i ≡ 0) }
    ensures enough { (i : ℕ) → i ≤ len → (IsTrue from_start → i ≡ 0) → i < result }
{
    if from_start { 1 } else { len + 1 }
}

/// Adds the rows of these fits, of those that end where they have to.
fn add_rows(
    rows: &mut Vec<Row>,
    found: &[Branch],
    names: &VarSet,
    to_end: bool,
    end: usize,
) -> Result<(), OutOfMemory>
    ensures { OnOk result (Tells (Has rows.new.items)
        (λ r. Has rows.old.items r ⊎ FromSome (IsRowOfFits names.now to_end end) found.now r)) }
{
    for branch in found {
        add_row(rows, branch, names, to_end, end)?;
    }
    Ok(())
}

/// Adds the row of the fits of one branch, if one of them ends where it has to.
fn add_row(
    rows: &mut Vec<Row>,
    branch: &Branch,
    names: &VarSet,
    to_end: bool,
    end: usize,
) -> Result<(), OutOfMemory>
    ensures { OnOk result (Tells (Has rows.new.items)
        (λ r. Has rows.old.items r ⊎ IsRowOfFits names.now to_end end branch.now r)) }
{
    if !some_ends_there(branch.ends(), to_end, end) {
        return Ok(());
    }
    rows.push(row_of_captures(names, branch.captures()))?;
    Ok(())
}

/// Whether a fit ends here, or where `to_end` is false anywhere.
fn some_ends_there(ends: &[usize], to_end: bool, end: usize) -> bool
    ensures { IsTrue result ↔ ((j : ℕ) × Has ends.now j × (IsTrue to_end → j ≡ end)) }
{
    for known in ends {
        if !to_end || *known == end {
            return true;
        }
    }
    false
}

/// The row of these captures. A name that is not captured is absent.
fn row_of_captures(names: &VarSet, captures: &[(Name, Span)]) -> Row
    ensures { result ≡ row_of names.now (span_of captures.now) }
{
    let mut row = Row::empty();
    for k in 0..names.len() {
        row.push(find_span(captures, names.at(k)));
    }
    row
}

/// The span that a name is given, if it is captured.
fn find_span(captures: &[(Name, Span)], name: &Name) -> Option<Span>
    ensures { result ≡ span_of captures.now name.now }
{
    for (known, span) in captures {
        if *known == *name {
            return Some(*span);
        }
    }
    None
}
