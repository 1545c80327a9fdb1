//! What a query is: its printed form with its tests, the variables of its result, and the numbers of its atoms.
ghost use Rattle.std.specs.Prelude.{◌≡◌, ℕ, ◌+◌, ◌++◌, [], ◌∷◌, List, codes, length, IfOk, OnOk, OnErr, IsErrOf};
ghost use Rattle.spanner_model.specs.Captures.{VarName};
ghost use Rattle.spanner_model.specs.ExprView.{expr_of, exprs_of, query_of};
ghost use Rattle.spanner_model.specs.View.{tree_of, atom_of};
ghost use Rattle.spanner_model.specs.Sound.{IsSound};
ghost use Rattle.spanner_model.specs.Answers.{AreResultNames};
ghost use Rattle.spanner_model.specs.Tested.{tested_of};
ghost use Rattle.rm_outside.specs.Change.{change};
ghost use Rattle.rematch_program.specs.Work.{work, clock, StandsStill};
ghost use Rattle.rematch_program.specs.Explained.{AreCounted, HasLines, IsCounted, atoms_among, atoms_in, atoms_of, names_text};
ghost use Rattle.note_texts.specs.Notes.{line, note_bytes};
ghost use Rattle.rematch_program.specs.Run.{FromPage, IsExplained};
ghost use Rattle.rematch_program.specs.Testing.{explain_tested};

use note_texts::{FixedNote, Outcome};
use place_automaton::{Counts, count};
use query_printer::print_tested;
use rm_outside::{Sink, SinkFailed, Status};
use span_core::{OutOfMemory, VarSet};
use spanner_model::{Atom, Expr, Exprs, Query, Tested, variables};
use std::alloc::Global;

/// Puts the lines that explain a query with its tests, all at once. No automaton is made.
pub fn write_explanation<O: Sink>(alloc: Global, tested: &Tested, out: &mut O) -> Outcome
    requires sound { IsSound (query_of tested.now.query) }
    ensures case { IsExplained (tested_of tested.now)
        (change (O.told out.old) (O.told out.new))
        result.status (note_bytes result.note) }
{
    match explanation(alloc, tested) {
        Ok(text) => put_text(&text, out),
        Err(OutOfMemory) => Outcome::out_of_memory(),
    }
}

/// Puts a text whole.
fn put_text<O: Sink>(text: &[u8], out: &mut O) -> Outcome
    ensures case { FromPage
        (work (change (O.told out.old) (O.told out.new)) (clock 0 0))
        result.status (note_bytes result.note)
        text.now (line (codes "end")) StandsStill }
{
    match out.put(text) {
        Ok(()) => Outcome::fixed(Status::Done, FixedNote::End),
        Err(SinkFailed) => Outcome::fixed(Status::Write, FixedNote::WriteFailed),
    }
}

/// The lines that explain a query with its tests.
fn explanation(alloc: Global, tested: &Tested) -> Result<Vec<u8>, OutOfMemory>
    requires { IsSound (query_of tested.now.query) }
    ensures { IfOk result (λ text. (names : List VarName) × AreResultNames (query_of tested.now.query) names ×
        (text.items ≡ explain_tested (tested_of tested.now) names)) }
{
    let query = &tested.query;
    let vars = variables(alloc, query)?;
    let mut text = Vec::new(alloc);
    text.extend_from_slice(b"query ")?;
    print_tested(tested, &mut text)?;
    text.extend_from_slice(b"\nvariables ")?;
    push_names(&vars, &mut text)?;
    text.push(b'\n')?;
    let atoms = push_let_atoms(alloc, query, &mut text)?;
    let _all = push_atoms(alloc, &query.body, atoms, &mut text)?;
    Ok(text)
}

/// Appends the names with a space between, or the word `none`.
fn push_names(vars: &VarSet, text: &mut Vec<u8>) -> Result<(), OutOfMemory>
    ensures { OnOk result (text.new.items ≡ text.old.items ++ names_text vars.now) }
{
    if vars.len() == 0 {
        text.extend_from_slice(b"none")?;
        return Ok(());
    }
    text.extend_from_slice(vars.at(0).as_bytes())?;
    for k in 1..vars.len() {
        text.push(b' ')?;
        text.extend_from_slice(vars.at(k).as_bytes())?;
    }
    Ok(())
}

/// Appends the lines of the atoms of all `let`s, and tells how many there are.
fn push_let_atoms(alloc: Global, query: &Query, text: &mut Vec<u8>) -> Result<u64, OutOfMemory>
    requires { AreCounted (atoms_in (query_of query.now).lets) }
    ensures { IfOk result (λ all. HasLines 0 text.old.items (atoms_in (query_of query.now).lets) all text.new.items) }
{
    let mut atoms = 0;
    for k in 0..query.lets.len() {
        atoms = push_atoms(alloc, &query.lets.at(k).1, atoms, text)?;
    }
    Ok(atoms)
}

/// Appends the lines of the atoms of an expression, behind so many others, and tells how many there are then.
#[cycle(atoms)]
fn push_atoms(
    alloc: Global,
    expr: &Expr,
    before: u64,
    text: &mut Vec<u8>,
) -> Result<u64, OutOfMemory>
    requires { AreCounted (atoms_of (expr_of expr.now)) }
    ensures { IfOk result (λ all. HasLines before text.old.items (atoms_of (expr_of expr.now)) all text.new.items) }
{
    match expr {
        Expr::Atom(atom) => push_atom(alloc, atom, before, text),
        Expr::Named(_) => Ok(before),
        Expr::Union(parts) => push_parts(alloc, parts, before, text),
        Expr::Join(parts) => push_parts(alloc, parts, before, text),
        Expr::Project(_kept, sub) => push_atoms(alloc, sub, before, text),
        Expr::Minus(left, right) => {
            let atoms = push_atoms(alloc, left, before, text)?;
            push_atoms(alloc, right, atoms, text)
        }
    }
}

/// Appends the lines of the atoms of parts, from left to right.
#[cycle(atoms)]
fn push_parts(
    alloc: Global,
    parts: &Exprs,
    before: u64,
    text: &mut Vec<u8>,
) -> Result<u64, OutOfMemory>
    requires { AreCounted (atoms_among (exprs_of parts.now)) }
    ensures { IfOk result (λ all. HasLines before text.old.items (atoms_among (exprs_of parts.now)) all text.new.items) }
{
    let mut atoms = before;
    for k in 0..parts.len() {
        atoms = push_atoms(alloc, parts.at(k), atoms, text)?;
    }
    Ok(atoms)
}

/// Appends the line of an atom, behind so many others, and tells how many there are then. The numbers
/// of more than 2^64 - 1 atoms are not told: memory would be wanting long before.
#[inline(never)]
fn push_atom(
    alloc: Global,
    atom: &Atom,
    before: u64,
    text: &mut Vec<u8>,
) -> Result<u64, OutOfMemory>
    requires { IsCounted (atom_of atom.now) }
    ensures { IfOk result (λ all. HasLines before text.old.items (atom_of atom.now ∷ []) all text.new.items) }
{
    let number = before.checked_add(1).ok_or(OutOfMemory)?;
    let Counts { states, ways } = count(alloc, atom)?;
    let shown = format!(in alloc; "atom {number} states {states} ways {ways}\n")?;
    text.extend_from_slice(shown.as_bytes())?;
    Ok(number)
}
