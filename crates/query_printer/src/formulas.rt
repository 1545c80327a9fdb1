//! Prints formulas and atoms.
//!
//! A set of one byte is that byte, all but the line feed is a dot, all else a class of maximal runs; parentheses stand
//! only where the grammar needs them. Every byte that is printed is ASCII and none depends on what follows.
ghost use Rattle.std.specs.Prelude.{◌≡◌, ℕ, ◌+◌, ◌-◌, ◌==◌, ◌++◌, ◌∷◌, [], OnOk, OnErr, if◌then◌else◌};
ghost use Rattle.std.specs.Fmt.{decimal};
ghost use Rattle.span_core.specs.Lists.{IsPrefixOf};
ghost use Rattle.spanner_model.specs.Tree.{rep, cap, cat_all, alt_all};
ghost use Rattle.spanner_model.specs.View.{tree_of, trees_of, atom_of};
ghost use Rattle.spanner_model.specs.WellBuilt.{IsWellBuilt};
ghost use Rattle.formula_parser.specs.Spells.{given};
ghost use Rattle.formula_parser.specs.Names.{head_text};
ghost use Rattle.query_printer.specs.FormulaShape.{shape_of};
ghost use Rattle.query_printer.specs.FormulaLaws.{FormulasSpell, AtomsSpell, AtomsStand};
ghost use Rattle.query_printer.specs.PrintedFormula.{is_shown, hex_text, byte_text, bytes_below, begins_run, run_end, run_text, runs_text, set_text, sign, exactly_text, at_least_text, between_text, shape, wraps_arm, wraps_part, wraps_operand, wrapped, printed, tied_text, atom_text};

use cell_text::{hex_digits, push_bytes};
use itoa::Buffer;
use span_core::{ByteSet, Name, OutOfMemory};
use spanner_model::{Atom, Formula, Parts};

/// What a formula is, as far as parentheses are concerned.
#[derive(Clone, Copy, Debug)]
pub(crate) enum Shape {
    Unit,
    Repeat,
    Cat,
    Alt,
}

impl Shape {
    fn of(formula: &Formula) -> Shape
        ensures { shape_of result ≡ shape (tree_of formula.now) }
    {
        match formula {
            Formula::Empty | Formula::One(_) | Formula::Cap(_, _) => Shape::Unit,
            Formula::Rep(_, _, _) => Shape::Repeat,
            Formula::Cat(_) => Shape::Cat,
            Formula::Alt(_) => Shape::Alt,
        }
    }

    /// Whether it stands in parentheses among the arms of an alternation.
    fn wraps_arm(self) -> bool
        ensures { result ≡ wraps_arm (shape_of self) }
    {
        match self {
            Shape::Unit | Shape::Repeat | Shape::Cat => false,
            Shape::Alt => true,
        }
    }

    /// Whether it stands in parentheses among the parts of a concatenation.
    fn wraps_part(self) -> bool
        ensures { result ≡ wraps_part (shape_of self) }
    {
        match self {
            Shape::Unit | Shape::Repeat => false,
            Shape::Cat | Shape::Alt => true,
        }
    }

    /// Whether it stands in parentheses under a repeat.
    fn wraps_operand(self) -> bool
        ensures { result ≡ wraps_operand (shape_of self) }
    {
        match self {
            Shape::Unit => false,
            Shape::Repeat | Shape::Cat | Shape::Alt => true,
        }
    }
}

/// Appends the printed form of a formula, or answers that memory ran out and leaves `out` as it was.
///
/// The recursion is as deep as formulas stand inside each other.
pub fn print_formula(formula: &Formula, out: &mut Vec<u8>) -> Result<(), OutOfMemory>
    requires { IsWellBuilt (tree_of formula.now) }
    ensures ok { OnOk result (out.new.items ≡ out.old.items ++ printed (tree_of formula.now)) }
    ensures err { OnErr result (out.new.items ≡ out.old.items) }
{
    let before = out.len();
    let done = push_formula(formula, out);
    if done.is_err() {
        out.truncate(before);
    }
    done
}

/// Appends the printed form of an atom: its formula between slashes, with a `^` before it and a `$`
/// after it where it is tied. Where memory runs out, leaves `out` as it was.
pub fn print_atom(atom: &Atom, out: &mut Vec<u8>) -> Result<(), OutOfMemory>
    requires { IsWellBuilt (tree_of atom.now.formula) }
    ensures ok { OnOk result (out.new.items ≡ out.old.items ++ atom_text (atom_of atom.now)) }
    ensures err { OnErr result (out.new.items ≡ out.old.items) }
{
    let before = out.len();
    let done = push_atom(atom, out);
    if done.is_err() {
        out.truncate(before);
    }
    done
}

/// Does nothing. Its contract says that a printed form with at most 100 parentheses and captures open at
/// once is read as what was printed.
pub fn printed_forms_spell_their_trees()
    ensures formulas { FormulasSpell }
    ensures atoms { AtomsSpell }
    ensures places { AtomsStand }
{}

fn push_atom(atom: &Atom, out: &mut Vec<u8>) -> Result<(), OutOfMemory>
    ensures ok { OnOk result (out.new.items ≡ out.old.items ++ atom_text (atom_of atom.now)) }
    ensures front { IsPrefixOf out.old.items out.new.items }
{
    push_bytes(b"/", out)?;
    push_tied(atom, out)?;
    push_bytes(b"/", out)
}

/// Appends what stands between the slashes.
fn push_tied(atom: &Atom, out: &mut Vec<u8>) -> Result<(), OutOfMemory>
    ensures ok { OnOk result (out.new.items ≡ out.old.items ++ tied_text (atom_of atom.now)) }
    ensures front { IsPrefixOf out.old.items out.new.items }
{
    push_given(atom.from_start, b'^', out)?;
    push_formula(&atom.formula, out)?;
    push_given(atom.to_end, b'$', out)
}

/// Appends the byte, where it is to be there.
fn push_given(there: bool, byte: u8, out: &mut Vec<u8>) -> Result<(), OutOfMemory>
    ensures ok { OnOk result (out.new.items ≡ out.old.items ++ given there byte) }
    ensures front { IsPrefixOf out.old.items out.new.items }
{
    if there {
        return push_bytes(&[byte], out);
    }
    Ok(())
}

#[cycle(print)]
fn push_formula(formula: &Formula, out: &mut Vec<u8>) -> Result<(), OutOfMemory>
    ensures ok { OnOk result (out.new.items ≡ out.old.items ++ printed (tree_of formula.now)) }
    ensures front { IsPrefixOf out.old.items out.new.items }
{
    match formula {
        Formula::Empty => push_bytes(b"()", out),
        Formula::One(set) => push_set(set, out),
        Formula::Cat(parts) => push_parts(parts, out),
        Formula::Alt(arms) => push_arms(arms, out),
        Formula::Rep(sub, least, most) => push_repeat(sub, *least, *most, out),
        Formula::Cap(name, sub) => push_capture(name, sub, out),
    }
}

#[cycle(print)]
fn push_repeat(
    sub: &Formula,
    least: u16,
    most: Option<u16>,
    out: &mut Vec<u8>,
) -> Result<(), OutOfMemory>
    ensures ok { OnOk result (out.new.items ≡ out.old.items ++ printed (rep (tree_of sub.now) least most)) }
    ensures front { IsPrefixOf out.old.items out.new.items }
{
    push_wrapped(Shape::of(sub).wraps_operand(), sub, out)?;
    push_sign(least, most, out)
}

#[cycle(print)]
fn push_capture(name: &Name, sub: &Formula, out: &mut Vec<u8>) -> Result<(), OutOfMemory>
    ensures ok { OnOk result (out.new.items ≡ out.old.items ++ printed (cap name.now (tree_of sub.now))) }
    ensures front { IsPrefixOf out.old.items out.new.items }
{
    push_head(name.as_bytes(), out)?;
    push_formula(sub, out)?;
    push_bytes(b"}", out)
}

/// Appends the parts of a concatenation.
#[cycle(print)]
fn push_parts(parts: &Parts, out: &mut Vec<u8>) -> Result<(), OutOfMemory>
    ensures ok { OnOk result (out.new.items ≡ out.old.items ++ printed (cat_all (trees_of parts.now))) }
    ensures front { IsPrefixOf out.old.items out.new.items }
{
    for k in 0..parts.len() {
        let part = parts.at(k);
        push_wrapped(Shape::of(part).wraps_part(), part, out)?;
    }
    Ok(())
}

/// Appends the arms of an alternation, with a bar between.
#[cycle(print)]
fn push_arms(arms: &Parts, out: &mut Vec<u8>) -> Result<(), OutOfMemory>
    ensures ok { OnOk result (out.new.items ≡ out.old.items ++ printed (alt_all (trees_of arms.now))) }
    ensures front { IsPrefixOf out.old.items out.new.items }
{
    for k in 0..arms.len() {
        let arm = arms.at(k);
        push_given(k > 0, b'|', out)?;
        push_wrapped(Shape::of(arm).wraps_arm(), arm, out)?;
    }
    Ok(())
}

/// Appends a formula, in parentheses where it is to have them.
#[cycle(print)]
fn push_wrapped(wraps: bool, formula: &Formula, out: &mut Vec<u8>) -> Result<(), OutOfMemory>
    ensures ok { OnOk result (out.new.items ≡ out.old.items ++ wrapped wraps (printed (tree_of formula.now))) }
    ensures front { IsPrefixOf out.old.items out.new.items }
{
    if !wraps {
        return push_formula(formula, out);
    }
    push_bytes(b"(", out)?;
    push_formula(formula, out)?;
    push_bytes(b")", out)
}

/// Appends the head of a capture.
fn push_head(name: &[u8], out: &mut Vec<u8>) -> Result<(), OutOfMemory>
    ensures ok { OnOk result (out.new.items ≡ out.old.items ++ head_text name.now) }
    ensures front { IsPrefixOf out.old.items out.new.items }
{
    push_bytes(b"!", out)?;
    push_bytes(name, out)?;
    push_bytes(b"{", out)
}

fn push_sign(least: u16, most: Option<u16>, out: &mut Vec<u8>) -> Result<(), OutOfMemory>
    ensures ok { OnOk result (out.new.items ≡ out.old.items ++ sign least most) }
    ensures front { IsPrefixOf out.old.items out.new.items }
{
    match (least, most) {
        (0, None) => push_bytes(b"*", out),
        (1, None) => push_bytes(b"+", out),
        (0, Some(1)) => push_bytes(b"?", out),
        (_, None) => push_at_least(least, out),
        (_, Some(most)) if least == most => push_exactly(least, out),
        (_, Some(most)) => push_between(least, most, out),
    }
}

fn push_at_least(least: u16, out: &mut Vec<u8>) -> Result<(), OutOfMemory>
    ensures ok { OnOk result (out.new.items ≡ out.old.items ++ at_least_text least) }
    ensures front { IsPrefixOf out.old.items out.new.items }
{
    push_bytes(b"{", out)?;
    push_number(least, out)?;
    push_bytes(b",}", out)
}

fn push_exactly(times: u16, out: &mut Vec<u8>) -> Result<(), OutOfMemory>
    ensures ok { OnOk result (out.new.items ≡ out.old.items ++ exactly_text times) }
    ensures front { IsPrefixOf out.old.items out.new.items }
{
    push_bytes(b"{", out)?;
    push_number(times, out)?;
    push_bytes(b"}", out)
}

fn push_between(least: u16, most: u16, out: &mut Vec<u8>) -> Result<(), OutOfMemory>
    ensures ok { OnOk result (out.new.items ≡ out.old.items ++ between_text least most) }
    ensures front { IsPrefixOf out.old.items out.new.items }
{
    push_bytes(b"{", out)?;
    push_number(least, out)?;
    push_most(most, out)
}

/// Appends the end of a repeat with two numbers, from its comma on.
fn push_most(most: u16, out: &mut Vec<u8>) -> Result<(), OutOfMemory>
    ensures ok { OnOk result (out.new.items ≡ out.old.items ++ 44 ∷ (decimal most ++ 125 ∷ [])) }
    ensures front { IsPrefixOf out.old.items out.new.items }
{
    push_bytes(b",", out)?;
    push_number(most, out)?;
    push_bytes(b"}", out)
}

fn push_number(number: u16, out: &mut Vec<u8>) -> Result<(), OutOfMemory>
    ensures ok { OnOk result (out.new.items ≡ out.old.items ++ decimal number) }
    ensures front { IsPrefixOf out.old.items out.new.items }
{
    let mut buffer = Buffer::new();
    push_bytes(buffer.format(number).as_bytes(), out)
}

#[tactic(auto, unfolding(crate::specs::PrintedFormula::set_text))]
fn push_set(set: &ByteSet, out: &mut Vec<u8>) -> Result<(), OutOfMemory>
    ensures ok { OnOk result (out.new.items ≡ out.old.items ++ set_text set.now) }
    ensures front { IsPrefixOf out.old.items out.new.items }
{
    let count = members(set);
    if count == 1 {
        push_runs(set, out)
    } else if count == 255 && !set.contains(b'\n') {
        push_bytes(b".", out)
    } else {
        push_class(set, out)
    }
}

fn push_class(set: &ByteSet, out: &mut Vec<u8>) -> Result<(), OutOfMemory>
    ensures ok { OnOk result (out.new.items ≡ out.old.items ++ 91 ∷ (runs_text set.now 256 ++ 93 ∷ [])) }
    ensures front { IsPrefixOf out.old.items out.new.items }
{
    push_bytes(b"[", out)?;
    push_runs(set, out)?;
    push_bytes(b"]", out)
}

/// How many bytes are in the set.
#[tactic(auto, using(crate::proofs::PrintedSteps::members_next))]
fn members(set: &ByteSet) -> usize
    ensures { result ≡ bytes_below set.now 256 }
{
    let mut count = 0;
    for number in 0..256usize {
        if set.contains(number as u8) {
            count += 1;
        }
    }
    count
}

/// Appends the maximal runs of the set, ascending.
fn push_runs(set: &ByteSet, out: &mut Vec<u8>) -> Result<(), OutOfMemory>
    ensures ok { OnOk result (out.new.items ≡ out.old.items ++ runs_text set.now 256) }
    ensures front { IsPrefixOf out.old.items out.new.items }
{
    for number in 0..256usize {
        push_run_at(number as u8, set, out)?;
    }
    Ok(())
}

/// Appends the run that begins at the byte, if one does.
fn push_run_at(first: u8, set: &ByteSet, out: &mut Vec<u8>) -> Result<(), OutOfMemory>
    ensures ok { OnOk result (out.new.items
        ≡ out.old.items ++ (if begins_run set.now first then run_text first (run_end set.now (255 - first) first) else [])) }
    ensures front { IsPrefixOf out.old.items out.new.items }
{
    if begins_run(set, first) {
        return push_run(first, run_end(set, first), out);
    }
    Ok(())
}

fn begins_run(set: &ByteSet, byte: u8) -> bool
    ensures { result ≡ begins_run set.now byte }
{
    set.contains(byte) && (byte == 0 || !set.contains(byte - 1))
}

/// The last byte of the run that the byte is in.
#[tactic(auto, using(crate::proofs::PrintedSteps::run_goes_on, crate::proofs::PrintedSteps::run_stops, crate::proofs::PrintedSteps::run_ends))]
fn run_end(set: &ByteSet, byte: u8) -> u8
    ensures { result ≡ run_end set.now (255 - byte) byte }
{
    let mut end = byte;
    while end < 255 && set.contains(end + 1) {
        end += 1;
    }
    end
}

fn push_run(first: u8, last: u8, out: &mut Vec<u8>) -> Result<(), OutOfMemory>
    ensures ok { OnOk result (out.new.items ≡ out.old.items ++ run_text first last) }
    ensures front { IsPrefixOf out.old.items out.new.items }
{
    push_byte(first, out)?;
    if first == last {
        return Ok(());
    }
    push_bytes(b"-", out)?;
    push_byte(last, out)
}

fn push_byte(byte: u8, out: &mut Vec<u8>) -> Result<(), OutOfMemory>
    ensures ok { OnOk result (out.new.items ≡ out.old.items ++ byte_text byte) }
    ensures front { IsPrefixOf out.old.items out.new.items }
{
    if is_shown(byte) {
        return push_bytes(&[byte], out);
    }
    match byte {
        b'\n' => push_bytes(b"\\n", out),
        b'\t' => push_bytes(b"\\t", out),
        b'\r' => push_bytes(b"\\r", out),
        b'!'..=b'~' => push_bytes(&[b'\\', byte], out),
        _ => push_hex(byte, out),
    }
}

fn is_shown(byte: u8) -> bool
    ensures { result ≡ is_shown byte }
{
    byte.is_ascii_alphanumeric() || byte == b'_' || byte == b' '
}

/// Appends the byte by its number.
fn push_hex(byte: u8, out: &mut Vec<u8>) -> Result<(), OutOfMemory>
    ensures ok { OnOk result (out.new.items ≡ out.old.items ++ hex_text byte) }
    ensures front { IsPrefixOf out.old.items out.new.items }
{
    push_bytes(b"\\x", out)?;
    push_bytes(&hex_digits(byte), out)
}
