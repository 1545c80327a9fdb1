//! The units of a formula over characters that differ from those over bytes: the dot, escapes and classes.
ghost use Rattle.std.specs.Prelude.{◌≡◌, ℕ, ◌+◌, ◌<◌, length, Some, IfSome, IfOk, IsTrue, MatchOption};
ghost use Rattle.std.specs.Option.{option_map};
ghost use Rattle.std.specs.FinSet as sets;
ghost use Rattle.bstr.specs.Utf8.{decoded};
ghost use Rattle.spanner_model.specs.Tree.{Tree};
ghost use Rattle.spanner_model.specs.View.{tree_of};
ghost use Rattle.formula_parser.specs.Sets.{Bytes};
ghost use Rattle.formula_parser.specs.Alphabet.{of_characters, dot_set};
ghost use Rattle.formula_parser.specs.CharSets.{AreAllCharacters, property_set};
ghost use Rattle.formula_parser.specs.Escapes.{Elem, elem_set, hex_value};
ghost use Rattle.formula_parser.specs.CharEscapes.{hex_after};
ghost use Rattle.formula_parser.specs.CharView.{Holds, HoldsBelow, IsElemOf, IsElemToken, scalar_of};
ghost use Rattle.formula_parser.specs.Dialect.{with_characters, AreTrees, braced_at, number_in, property_in, property_elem, narrow_at, char_escape_at, char_elem};
ghost use Rattle.formula_parser.specs.ClassStep.{class_at};
ghost use Rattle.formula_parser.specs.Nest.{with_unit};
ghost use Rattle.formula_parser.specs.Tokens.{escape_at};
ghost use Rattle.formula_parser.specs.View.{nest_of, elem_of};
ghost use Rattle.formula_parser.specs.Turn.{IsStep};
ghost use Rattle.formula_parser.specs.Step.{goes, escapes, classes};

use crate::char_class::class_at;
use crate::fault::FormulaFault;
use crate::nest::Nest;
use crate::reader::{Turn, unit};
use crate::tokens::{Elem as ByteElem, begins_with, escape_at, name_run};
use span_core::{ByteSet, OutOfMemory};
use spanner_model::Formula;
use std::alloc::Global;
use unicode_classes::CharSet;

/// What an escape, or an element of a class, stands for over characters.
#[derive(Drop)]
pub(crate) enum CharElem {
    One(char),
    Kind(CharSet),
}

/// One character.
#[tactic(auto, using(crate::proofs::CharSetLaws::holds_single))]
pub(crate) fn single(alloc: Global, c: char) -> Result<CharSet, OutOfMemory>
    ensures { IfOk result (λ s. Holds s (sets.insert sets.empty c)) }
{
    let mut set = CharSet::none(alloc);
    set.add(c, c)?;
    Ok(set)
}

/// The set, and the character of this number where it is one of the bytes.
#[tactic(auto, using(crate::proofs::CharSetLaws::takes_byte, crate::proofs::CharSetLaws::leaves_byte))]
fn with_byte(set: CharSet, bytes: ByteSet, b: u8) -> Result<CharSet, OutOfMemory>
    ensures { HoldsBelow set b bytes → IfOk result (λ r. HoldsBelow r (b + 1) bytes) }
{
    let mut set = set;
    if bytes.contains(b) {
        set.add(char::from(b), char::from(b))?;
    }
    Ok(set)
}

/// The characters whose numbers are these bytes.
fn of_bytes(alloc: Global, bytes: ByteSet) -> Result<CharSet, OutOfMemory>
    ensures { IfOk result (λ s. ((c : ℕ) → IsTrue (sets.contains bytes c) → c < 256) → Holds s bytes) }
{
    let mut set = CharSet::none(alloc);
    let mut b = 0u8;
    while b < 255 {
        set = with_byte(set, bytes, b)?;
        b += 1;
    }
    with_byte(set, bytes, 255)
}

/// A run of letters, digits and `_` in braces.
#[tactic(auto, unfolding(crate::specs::Dialect::braced_at))]
fn braced(text: &[u8]) -> Option<&[u8]>
    ensures { option_map (λ x. x.now) result ≡ braced_at text.now }
{
    let [c, others @ ..] = text else {
        return None;
    };
    let run = name_run(others);
    let (_, after) = others.split_at(run.len());
    if *c == b'{' && begins_with(after, b'}') {
        Some(run)
    } else {
        None
    }
}

/// The value of a hexadecimal digit.
#[tactic(auto, using(crate::proofs::HexLaws::digit_is))]
fn hex_digit(c: u8) -> Option<u32>
    ensures value { result ≡ hex_value c }
    ensures small { IfSome result (λ v. v < 16) }
{
    char::from(c).to_digit(16)
}

/// The character whose number hexadecimal digits write.
fn hex_character(digits: &[u8]) -> Option<char>
    ensures { result ≡ scalar_of (hex_after 0 digits.now) }
{
    let mut value = 0u32;
    for digit in digits {
        let Some(next) = hex_digit(*digit) else {
            return None;
        };
        value = 16 * value + next;
        if value >= 0x11_0000 {
            return None;
        }
    }
    char::from_u32(value)
}

/// What follows `\u`: a number in braces.
fn number(at: usize, text: &[u8]) -> Result<(CharElem, usize), FormulaFault>
    ensures { IsElemToken result (number_in at (braced_at text.now)) }
{
    let Some(digits) = braced(text) else {
        return Err(FormulaFault::BadEscape { at });
    };
    match hex_character(digits) {
        Some(c) if !digits.is_empty() && digits.len() <= 6 => {
            Ok((CharElem::One(c), digits.len() + 4))
        }
        _ => Err(FormulaFault::BadEscape { at }),
    }
}

/// The set of the property of this name, of which the escape takes so many bytes.
#[tactic(auto, using(crate::proofs::CharSetLaws::property_is, crate::proofs::CharSetLaws::no_property_is))]
fn property_named(alloc: Global, at: usize, name: &[u8]) -> Result<(CharElem, usize), FormulaFault>
    ensures { IsElemToken result (property_elem at (length name.now) (property_set name.now)) }
{
    match CharSet::property(alloc, name) {
        Ok(Some(set)) => Ok((CharElem::Kind(set), name.len() + 4)),
        Ok(None) => Err(FormulaFault::UnknownProperty { at }),
        Err(_) => Err(FormulaFault::OutOfMemory),
    }
}

/// What follows `\p`: a name in braces.
fn property(alloc: Global, at: usize, text: &[u8]) -> Result<(CharElem, usize), FormulaFault>
    ensures { IsElemToken result (property_in at (braced_at text.now)) }
{
    match braced(text) {
        Some(name) if !name.is_empty() => property_named(alloc, at, name),
        _ => Err(FormulaFault::BadEscape { at }),
    }
}

/// An escape over bytes, but no byte past 7F.
fn narrow_elem(
    alloc: Global,
    at: usize,
    elem: ByteElem,
    len: usize,
) -> Result<(CharElem, usize), FormulaFault>
    requires { (c : ℕ) → IsTrue (sets.contains (elem_set (elem_of elem)) c) → c < 256 }
    ensures { IsElemToken result (narrow_at at (Some (elem_of elem, len))) }
{
    match elem {
        ByteElem::Byte(b) => {
            if b < 128 {
                Ok((CharElem::One(char::from(b)), len))
            } else {
                Err(FormulaFault::BadEscape { at })
            }
        }
        ByteElem::Kind(bytes) => Ok((CharElem::Kind(of_bytes(alloc, bytes)?), len)),
    }
}

fn narrow(alloc: Global, at: usize, text: &[u8]) -> Result<(CharElem, usize), FormulaFault>
    ensures { IsElemToken result (narrow_at at (escape_at text.now)) }
{
    match escape_at(text) {
        Some((elem, len)) => narrow_elem(alloc, at, elem, len),
        None => Err(FormulaFault::BadEscape { at }),
    }
}

/// The escape after the backslash at `at`: what it stands for, and how many bytes it takes with the
/// backslash.
pub(crate) fn elem_at(
    alloc: Global,
    at: usize,
    text: &[u8],
) -> Result<(CharElem, usize), FormulaFault>
    ensures { IsElemToken result (char_escape_at at text.now) }
{
    match text {
        [b'u', others @ ..] => number(at, others),
        [b'p', others @ ..] => property(alloc, at, others),
        _ => narrow(alloc, at, text),
    }
}

/// The character at the front of a text, which begins at `at`.
pub(crate) fn wide_at(at: usize, text: &[u8]) -> Result<(CharElem, usize), FormulaFault>
    ensures { IsElemToken result (char_elem at (decoded text.now)) }
{
    let (found, len) = bstr::decode_utf8(text);
    match found {
        Some(c) => Ok((CharElem::One(c), len)),
        None => Err(FormulaFault::Unexpected { at }),
    }
}

/// The tree of a set, and None where no character is in the set.
pub(crate) fn tree(alloc: Global, set: &CharSet) -> Result<Option<Formula>, OutOfMemory>
    ensures { IfOk result (λ found. (trees : Bytes → Tree) → AreTrees trees → (s : Bytes) → Holds set.now s → AreAllCharacters s
        → MatchOption found (s ≡ sets.empty) (λ f. ¬ (s ≡ sets.empty) × (tree_of f ≡ trees s))) }
{
    let _ranges = set.ranges();
    if set.is_empty() {
        return Ok(None);
    }
    Ok(Some(set.tree(alloc)?))
}

/// A dot: every character but the line feed.
pub(crate) fn dot(alloc: Global, nest: &mut Nest) -> Result<Turn, FormulaFault>
    ensures { (trees : Bytes → Tree) → AreTrees trees
        → IsStep result (goes 1 (with_unit (trees (dot_set of_characters)) (nest_of nest.old))) (nest_of nest.new) }
{
    let newline = single(alloc, '\n')?;
    let others = newline.negation(alloc)?;
    match tree(alloc, &others)? {
        Some(formula) => unit(formula, 1, nest),
        None => Err(FormulaFault::OutOfMemory),
    }
}

/// The characters that an escape or an element stands for.
pub(crate) fn set_of(alloc: Global, elem: CharElem) -> Result<CharSet, OutOfMemory>
    ensures { IfOk result (λ s. (x : Elem) → IsElemOf elem x → Holds s (elem_set x)) }
{
    match elem {
        CharElem::One(c) => single(alloc, c),
        CharElem::Kind(set) => Ok(set),
    }
}

/// A backslash, before the text `others`.
pub(crate) fn escape(
    alloc: Global,
    at: usize,
    others: &[u8],
    nest: &mut Nest,
) -> Result<Turn, FormulaFault>
    ensures { (trees : Bytes → Tree) → AreTrees trees
        → IsStep result (escapes (with_characters trees) at (char_escape_at at others.now) (nest_of nest.old)) (nest_of nest.new) }
{
    let (elem, len) = elem_at(alloc, at, others)?;
    let set = set_of(alloc, elem)?;
    match tree(alloc, &set)? {
        Some(formula) => unit(formula, len, nest),
        None => Err(FormulaFault::BadRange { at }),
    }
}

/// A `[`, before the text `others`.
pub(crate) fn class(
    alloc: Global,
    at: usize,
    others: &[u8],
    nest: &mut Nest,
) -> Result<Turn, FormulaFault>
    requires { at + length others.now < usize.MAX }
    ensures { (trees : Bytes → Tree) → AreTrees trees
        → IsStep result (classes (with_characters trees) (class_at (with_characters trees) at others.now) (nest_of nest.old)) (nest_of nest.new) }
{
    match class_at(alloc, at, others) {
        Ok((formula, len)) => unit(formula, len, nest),
        Err(fault) => Err(fault),
    }
}
