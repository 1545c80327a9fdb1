//! Reads an atom, one token after another.
//!
//! The first byte of what is left decides which token it is (`take_turn`), and each token changes the nest by one
//! function. So the first fault from left to right is the one that the reader stops at, and no token is read twice.
ghost use Rattle.std.specs.Prelude.{◌≡◌, ◌+◌, ◌-◌, ◌≤◌, ◌<◌, ◌∷◌, length, take, drop, ℕ, Some, None, OnOk, IfOk, IfErr, Ok, Err, ◌⊎◌, slice_get};
ghost use Rattle.spanner_model.specs.Tree.{rep, one};
ghost use Rattle.spanner_model.specs.View.{tree_of, atom_of};
ghost use Rattle.spanner_model.specs.WellBuilt.{IsWellBuilt};
ghost use Rattle.spanner_model.specs.Expression.{AtomTree};
ghost use Rattle.formula_parser.specs.Sets.{single, all_but_newline};
ghost use Rattle.formula_parser.specs.Spells.{bytes_tree, IsAtomAt, IsAtomOver};
ghost use Rattle.formula_parser.specs.Faults.{HasFault, HasFaultOver};
ghost use Rattle.formula_parser.specs.Nest.{outermost, with_unit, next_arm};
ghost use Rattle.formula_parser.specs.Tokens.{head_at, bounds_at, tails};
ghost use Rattle.formula_parser.specs.Alphabet.{dot_set};
ghost use Rattle.formula_parser.specs.Dialect.{Dialect, plain_bytes, alphabet_of, tree_in, Speaks, escape_in};
ghost use Rattle.formula_parser.specs.ClassStep.{class_at};
ghost use Rattle.formula_parser.specs.AtomView.{Answers};
ghost use Rattle.formula_parser.specs.View.{nest_of, opener_of, alphabet_seen};
ghost use Rattle.formula_parser.specs.Turn.{IsStep, AnswersBody};
ghost use Rattle.formula_parser.specs.Step.{goes, step, repeats, braces, opens, escapes, classes, bangs, closes_group, closes_capture, closes_atom, ties, widens, is_tied, start_at, end_len, Ends};

use crate::alphabet::Alphabet;
use crate::class::class_at;
use crate::fault::FormulaFault;
use crate::nest::{Last, Nest, Opener};
use crate::sign::sign_len;
use crate::tokens::{begins_with, bounds_at, escape_at, head_at, tails};
use crate::{MOST_OPEN, characters};
use span_core::{ByteSet, Name, OutOfMemory};
use spanner_model::{Atom, Formula, Parts};
use std::alloc::Global;
use std::mem;

/// What one token made of the reading.
#[derive(Drop)]
pub(crate) enum Turn {
    /// So many bytes were read.
    Took(usize),
    /// The atom ends here: its formula, and whether it is tied to the end.
    Done(Formula, bool),
}

fn all_but_newline() -> ByteSet
    ensures { result ≡ all_but_newline }
{
    ByteSet::single(b'\n').negation()
}

/// A unit, in a text of so many bytes.
pub(crate) fn unit(formula: Formula, len: usize, nest: &mut Nest) -> Result<Turn, FormulaFault>
    ensures { IsStep result (goes len (with_unit (tree_of formula) (nest_of nest.old))) (nest_of nest.new) }
{
    nest.unit(formula)?;
    Ok(Turn::Took(len))
}

/// One byte of a set, in a text of so many bytes.
fn byte_unit(set: ByteSet, len: usize, nest: &mut Nest) -> Result<Turn, FormulaFault>
    ensures { IsStep result (goes len (with_unit (one set) (nest_of nest.old))) (nest_of nest.new) }
{
    unit(Formula::One(set), len, nest)
}

fn repeated(
    alloc: Global,
    formula: Formula,
    least: u16,
    most: Option<u16>,
) -> Result<Formula, OutOfMemory>
    ensures { IfOk result (λ f. tree_of f ≡ rep (tree_of formula) least most) }
{
    match Box::new(alloc, formula) {
        Ok(sub) => Ok(Formula::Rep(sub, least, most)),
        Err(_) => Err(OutOfMemory),
    }
}

/// A repeat, which takes so many bytes.
fn repeat(
    alloc: Global,
    at: usize,
    len: usize,
    least: u16,
    most: Option<u16>,
    nest: &mut Nest,
) -> Result<Turn, FormulaFault>
    ensures { IsStep result (repeats at len least most (nest_of nest.old)) (nest_of nest.new) }
{
    let last = mem::replace(&mut nest.last, Last::Start);
    match last {
        Last::Start => Err(FormulaFault::Unexpected { at }),
        Last::Unit(formula) => {
            let formula = repeated(alloc, formula, least, most)?;
            nest.last = Last::Repeated(formula);
            Ok(Turn::Took(len))
        }
        Last::Repeated(_) => Err(FormulaFault::DoubleRepeat { at }),
    }
}

/// A `{` that begins no repeat.
fn no_repeat(at: usize, nest: &Nest) -> FormulaFault
    ensures { IsStep (Err result) (braces at None (nest_of nest.now)) (nest_of nest.now) }
{
    match nest.last {
        Last::Start => FormulaFault::Unexpected { at },
        Last::Unit(_) => FormulaFault::BadRepeat { at },
        Last::Repeated(_) => FormulaFault::DoubleRepeat { at },
    }
}

/// A `{`, before the text `others`.
fn brace(alloc: Global, at: usize, others: &[u8], nest: &mut Nest) -> Result<Turn, FormulaFault>
    ensures { IsStep result (braces at (bounds_at others.now) (nest_of nest.old)) (nest_of nest.new) }
{
    match bounds_at(others) {
        Some(bounds) => repeat(alloc, at, bounds.len, bounds.least, bounds.most, nest),
        None => Err(no_repeat(at, nest)),
    }
}

fn open(
    alloc: Global,
    opener: Opener,
    at: usize,
    len: usize,
    nest: &mut Nest,
) -> Result<Turn, FormulaFault>
    ensures { IsStep result (opens (opener_of opener) at len (nest_of nest.old)) (nest_of nest.new) }
{
    if nest.below.len() >= MOST_OPEN {
        return Err(FormulaFault::TooDeep { at });
    }
    nest.open(alloc, opener, at)?;
    Ok(Turn::Took(len))
}

fn close_group(alloc: Global, at: usize, nest: &mut Nest) -> Result<Turn, FormulaFault>
    ensures { IsStep result (closes_group at (nest_of nest.old)) (nest_of nest.new) }
{
    match nest.top.opener {
        Opener::Slash => Err(FormulaFault::Unexpected { at }),
        Opener::Group => {
            let whole = nest.take_whole(alloc)?;
            if nest.leave(whole) {
                Ok(Turn::Took(1))
            } else {
                Err(FormulaFault::Unexpected { at })
            }
        }
        Opener::Capture(_) => Err(FormulaFault::Unclosed { at: nest.top.place }),
    }
}

fn close_capture(alloc: Global, at: usize, nest: &mut Nest) -> Result<Turn, FormulaFault>
    ensures { IsStep result (closes_capture at (nest_of nest.old)) (nest_of nest.new) }
{
    let opener = mem::replace(&mut nest.top.opener, Opener::Slash);
    match opener {
        Opener::Slash => Err(FormulaFault::Unexpected { at }),
        Opener::Group => Err(FormulaFault::Unclosed { at: nest.top.place }),
        Opener::Capture(name) => {
            let whole = nest.take_whole(alloc)?;
            let Ok(sub) = Box::new(alloc, whole) else {
                return Err(FormulaFault::OutOfMemory);
            };
            if nest.leave(Formula::Cap(name, sub)) {
                Ok(Turn::Took(1))
            } else {
                Err(FormulaFault::Unexpected { at })
            }
        }
    }
}

/// A `/`.
fn close_atom(alloc: Global, nest: &mut Nest) -> Result<Turn, FormulaFault>
    ensures { IsStep result (closes_atom (nest_of nest.old)) (nest_of nest.new) }
{
    match nest.top.opener {
        Opener::Slash => Ok(Turn::Done(nest.take_whole(alloc)?, false)),
        _ => Err(FormulaFault::Unclosed { at: nest.top.place }),
    }
}

/// A `$`, before the text `others`.
fn tie(alloc: Global, at: usize, others: &[u8], nest: &mut Nest) -> Result<Turn, FormulaFault>
    ensures { IsStep result (ties at others.now (nest_of nest.old)) (nest_of nest.new) }
{
    match nest.top.opener {
        Opener::Slash => {
            if begins_with(others, b'/') {
                Ok(Turn::Done(nest.take_whole(alloc)?, true))
            } else {
                Err(FormulaFault::Anchor { at })
            }
        }
        _ => Err(FormulaFault::Anchor { at }),
    }
}

/// A `!`, before the text `others`.
fn bang(alloc: Global, at: usize, others: &[u8], nest: &mut Nest) -> Result<Turn, FormulaFault>
    ensures { IsStep result (bangs at (head_at others.now) (nest_of nest.old)) (nest_of nest.new) }
{
    match head_at(others) {
        None => byte_unit(ByteSet::single(b'!'), 1, nest),
        Some(word) => open_capture(alloc, at, word, nest),
    }
}

/// The capture that a `!` and this word begin.
fn open_capture(
    alloc: Global,
    at: usize,
    word: &[u8],
    nest: &mut Nest,
) -> Result<Turn, FormulaFault>
    ensures { IsStep result (bangs at (Some word.now) (nest_of nest.old)) (nest_of nest.new) }
{
    let Some(name) = Name::read(word) else {
        return Err(FormulaFault::NameTooLong { at });
    };
    if word == b"none".as_slice() {
        return Err(FormulaFault::ReservedName { at });
    }
    open(alloc, Opener::Capture(name), at, word.len() + 2, nest)
}

/// A dot.
fn dot(alloc: Global, alphabet: Alphabet, nest: &mut Nest) -> Result<Turn, FormulaFault>
    ensures { (lang : Dialect) → Speaks lang → alphabet_of lang ≡ alphabet_seen alphabet
        → IsStep result (goes 1 (with_unit (tree_in lang (dot_set (alphabet_of lang))) (nest_of nest.old))) (nest_of nest.new) }
{
    match alphabet {
        Alphabet::Bytes => byte_unit(all_but_newline(), 1, nest),
        Alphabet::Characters => characters::dot(alloc, nest),
    }
}

/// A backslash over bytes, before the text `others`.
fn byte_escape(at: usize, others: &[u8], nest: &mut Nest) -> Result<Turn, FormulaFault>
    ensures { IsStep result (escapes plain_bytes at (escape_in plain_bytes at others.now) (nest_of nest.old)) (nest_of nest.new) }
{
    match escape_at(others) {
        Some((elem, len)) => byte_unit(elem.set(), len, nest),
        None => Err(FormulaFault::BadEscape { at }),
    }
}

/// A backslash, before the text `others`.
fn escape(
    alloc: Global,
    alphabet: Alphabet,
    at: usize,
    others: &[u8],
    nest: &mut Nest,
) -> Result<Turn, FormulaFault>
    ensures { (lang : Dialect) → Speaks lang → alphabet_of lang ≡ alphabet_seen alphabet
        → IsStep result (escapes lang at (escape_in lang at others.now) (nest_of nest.old)) (nest_of nest.new) }
{
    match alphabet {
        Alphabet::Bytes => byte_escape(at, others, nest),
        Alphabet::Characters => characters::escape(alloc, at, others, nest),
    }
}

/// A `[` over bytes, before the text `others`.
fn byte_class(at: usize, others: &[u8], nest: &mut Nest) -> Result<Turn, FormulaFault>
    requires { at + length others.now < usize.MAX }
    ensures { IsStep result (classes plain_bytes (class_at plain_bytes at others.now) (nest_of nest.old)) (nest_of nest.new) }
{
    match class_at(at, others) {
        Ok((set, len)) => byte_unit(set, len, nest),
        Err(fault) => Err(fault),
    }
}

/// A `[`, before the text `others`.
fn class(
    alloc: Global,
    alphabet: Alphabet,
    at: usize,
    others: &[u8],
    nest: &mut Nest,
) -> Result<Turn, FormulaFault>
    requires { at + length others.now < usize.MAX }
    ensures { (lang : Dialect) → Speaks lang → alphabet_of lang ≡ alphabet_seen alphabet
        → IsStep result (classes lang (class_at lang at others.now) (nest_of nest.old)) (nest_of nest.new) }
{
    match alphabet {
        Alphabet::Bytes => byte_class(at, others, nest),
        Alphabet::Characters => characters::class(alloc, at, others, nest),
    }
}

/// A bar.
fn bar(alloc: Global, nest: &mut Nest) -> Result<Turn, FormulaFault>
    ensures { IsStep result (goes 1 (next_arm (nest_of nest.old))) (nest_of nest.new) }
{
    nest.bar(alloc)?;
    Ok(Turn::Took(1))
}

/// These bytes, one after another.
fn bytes(alloc: Global, first: u8, others: &[u8]) -> Result<Formula, OutOfMemory>
    ensures { IfOk result (λ f. tree_of f ≡ bytes_tree (first ∷ others.now)) }
{
    if others.is_empty() {
        return Ok(Formula::One(ByteSet::single(first)));
    }
    let mut parts = Parts::new(alloc);
    parts.add(Formula::One(ByteSet::single(first)))?;
    for b in others {
        parts.add(Formula::One(ByteSet::single(*b)))?;
    }
    Ok(Formula::Cat(parts))
}

/// A byte of C0 or more, before the text `others`.
fn wide(alloc: Global, first: u8, others: &[u8], nest: &mut Nest) -> Result<Turn, FormulaFault>
    ensures { IsStep result (widens first (tails others.now) (nest_of nest.old)) (nest_of nest.new) }
{
    let tails = tails(others);
    let formula = bytes(alloc, first, tails)?;
    nest.unit(formula)?;
    Ok(Turn::Took(tails.len() + 1))
}

/// Reads the next token, which begins the rest of the text.
fn take_turn(
    alloc: Global,
    alphabet: Alphabet,
    at: usize,
    rest: &[u8],
    nest: &mut Nest,
) -> Result<Turn, FormulaFault>
    requires { at + length rest.now ≤ usize.MAX }
    ensures { (lang : Dialect) → Speaks lang → alphabet_of lang ≡ alphabet_seen alphabet
        → IsStep result (step lang at rest.now (nest_of nest.old)) (nest_of nest.new) }
{
    let [c, others @ ..] = rest else {
        return Err(FormulaFault::Unclosed { at: nest.top.place });
    };
    match *c {
        b'/' => close_atom(alloc, nest),
        b'(' => open(alloc, Opener::Group, at, 1, nest),
        b')' => close_group(alloc, at, nest),
        b'[' => class(alloc, alphabet, at, others, nest),
        b']' => Err(FormulaFault::Unexpected { at }),
        b'{' => brace(alloc, at, others, nest),
        b'}' => close_capture(alloc, at, nest),
        b'|' => bar(alloc, nest),
        b'*' => repeat(alloc, at, 1, 0, None, nest),
        b'+' => repeat(alloc, at, 1, 1, None, nest),
        b'?' => repeat(alloc, at, 1, 0, Some(1), nest),
        b'.' => dot(alloc, alphabet, nest),
        b'^' => Err(FormulaFault::Anchor { at }),
        b'$' => tie(alloc, at, others, nest),
        b'!' => bang(alloc, at, others, nest),
        b'\\' => escape(alloc, alphabet, at, others, nest),
        c if c < 192 => byte_unit(ByteSet::single(c), 1, nest),
        c => wide(alloc, c, others, nest),
    }
}

/// Reads what follows the slash of the nest, from the place `at` on, one turn after another.
fn read_by_turns(
    alloc: Global,
    alphabet: Alphabet,
    text: &[u8],
    at: usize,
    from_start: bool,
    nest: &mut Nest,
) -> Result<(Atom, usize), FormulaFault>
    requires { at ≤ length text.now }
    ensures ends { (lang : Dialect) → Speaks lang → alphabet_of lang ≡ alphabet_seen alphabet
        → AnswersBody result (Ends lang at (drop at text.now) (nest_of nest.old)) }
    ensures tied { IfOk result (λ x. x.0.from_start ≡ from_start) }
{
    let mut at = at;
    loop {
        let (_, rest) = text.split_at(at);
        match take_turn(alloc, alphabet, at, rest, nest)? {
            Turn::Took(len) => at += len,
            Turn::Done(formula, to_end) => {
                let atom = Atom {
                    from_start,
                    to_end,
                    formula,
                };
                return Ok((atom, at + end_len(to_end)));
            }
        }
    }
}

/// How many bytes the end of an atom takes.
fn end_len(to_end: bool) -> usize
    ensures { result ≡ end_len to_end }
{
    if to_end { 2 } else { 1 }
}

/// Whether a `^` stands straight after the slash at `from`.
fn is_tied(text: &[u8], from: usize) -> bool
    requires { from < length text.now }
    ensures { result ≡ is_tied text.now from }
{
    let (_, rest) = text.split_at(from + 1);
    begins_with(rest, b'^')
}

/// Where the formula begins whose slash stands at `from`.
fn start_at(text: &[u8], from: usize) -> usize
    requires { from < length text.now }
    ensures { result ≡ start_at text.now from }
{
    from + 1 + usize::from(is_tied(text, from))
}

/// Reads the atom over the alphabet whose opening slash stands at `from`, into a nest in which nothing is read.
fn read_nest(
    alloc: Global,
    alphabet: Alphabet,
    text: &[u8],
    from: usize,
    nest: &mut Nest,
) -> Result<(Atom, usize), FormulaFault>
    requires slash { slice_get text.now from ≡ Some 47 }
    requires nest { nest_of nest.old ≡ outermost from }
    ensures found { IfOk result (λ x. IsAtomOver (alphabet_seen alphabet) text.now from (atom_of x.0, x.1)) }
    ensures fault { IfErr result (λ e. (e ≡ FormulaFault.OutOfMemory) ⊎ HasFaultOver (alphabet_seen alphabet) text.now from e) }
    ensures built { IfOk result (λ x. IsWellBuilt (tree_of x.0.formula)) }
    ensures within { IfOk result (λ x. x.1 ≤ length text.now) }
{
    let from_start = is_tied(text, from);
    read_by_turns(
        alloc,
        alphabet,
        text,
        start_at(text, from),
        from_start,
        nest,
    )
}

/// Reads the atom over the alphabet whose opening slash stands at `from`, and gives the place after its
/// closing slash.
fn read_over(
    alloc: Global,
    alphabet: Alphabet,
    text: &[u8],
    from: usize,
) -> Result<(Atom, usize), FormulaFault>
    requires slash { slice_get text.now from ≡ Some 47 }
    ensures found { IfOk result (λ x. IsAtomOver (alphabet_seen alphabet) text.now from (atom_of x.0, x.1)) }
    ensures fault { IfErr result (λ e. (e ≡ FormulaFault.OutOfMemory) ⊎ HasFaultOver (alphabet_seen alphabet) text.now from e) }
    ensures built { IfOk result (λ x. IsWellBuilt (tree_of x.0.formula)) }
    ensures within { IfOk result (λ x. x.1 ≤ length text.now) }
{
    let mut nest = Nest::new(alloc, from);
    read_nest(alloc, alphabet, text, from, &mut nest)
}

/// The bytes after the slash at `from`, so many of them.
fn between(text: &[u8], from: usize, len: usize) -> &[u8]
    requires { from + 1 + len ≤ length text.now }
    ensures { result.now ≡ take len (drop (from + 1) text.now) }
{
    let (_, rest) = text.split_at(from + 1);
    let (inside, _) = rest.split_at(len);
    inside
}

/// Reads the atom whose opening slash stands at `from`, and gives the place after it: behind its closing
/// slash, or behind the sign `u`, where that follows the slash. With the sign the atom is over
/// characters.
///
/// Places count bytes from 0. The formula need not be sequential. But for the trees of sets of characters, the
/// time is linear in the text's length.
pub fn read_atom(alloc: Global, text: &[u8], from: usize) -> Result<(Atom, usize), FormulaFault>
    requires slash { slice_get text.now from ≡ Some 47 }
    requires short { length text.now ≤ 65536 }
    // What is read is spelled so.
    ensures found { IfOk result (λ x. IsAtomAt text.now from (atom_of x.0, x.1)) }
    // What is spelled so is read, unless memory runs out.
    ensures only { (x : AtomTree × ℕ) → IsAtomAt text.now from x → Answers result (λ r. r ≡ Ok x) }
    // The fault is the one that is met first, unless memory ran out.
    ensures fault { IfErr result (λ e. (e ≡ FormulaFault.OutOfMemory) ⊎ HasFault text.now from e) }
    ensures built { IfOk result (λ x. IsWellBuilt (tree_of x.0.formula)) }
{
    let Some(len) = sign_len(text, from) else {
        return read_over(alloc, Alphabet::Bytes, text, from);
    };
    if let Err(error) = str::from_utf8(between(text, from, len)) {
        return Err(FormulaFault::NotUtf8 {
            at: from + 1 + error.valid_up_to(),
        });
    }
    match read_over(alloc, Alphabet::Characters, text, from) {
        Ok((atom, place)) => Ok((atom, place + 1)),
        Err(fault) => Err(fault),
    }
}
