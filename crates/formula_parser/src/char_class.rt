//! Reads a class over characters, one element after another.
ghost use Rattle.std.specs.Prelude.{◌≡◌, ℕ, ◌+◌, ◌<◌, ◌≤◌, length, IfOk, Ok};
ghost use Rattle.std.specs.FinSet as set;
ghost use Rattle.spanner_model.specs.Tree.{Tree};
ghost use Rattle.formula_parser.specs.Sets.{Bytes};
ghost use Rattle.formula_parser.specs.Escapes.{Elem, elem_set};
ghost use Rattle.formula_parser.specs.Classes.{Within, after_elem, after_dash, no_item};
ghost use Rattle.formula_parser.specs.ClassStep.{takes_elem, takes_token, takes_dash, takes_end, class_step, closed_class, items_at, class_at};
ghost use Rattle.formula_parser.specs.Dialect.{ElemToken, with_characters, AreTrees};
ghost use Rattle.formula_parser.specs.CharView.{Holds, chosen_set, IsElemOf, IsElemToken, IsLastOf, AreItemsOf, is_after_elem, IsTokenStep, AreItemsAfter, IsWholeSet, IsClassRead};

use crate::characters::{CharElem, elem_at, set_of, tree, wide_at};
use crate::fault::FormulaFault;
use crate::tokens::begins_with;
use span_core::OutOfMemory;
use spanner_model::Formula;
use std::alloc::Global;
use unicode_classes::CharSet;

/// The last thing read in a class.
#[derive(Drop)]
pub(crate) enum CharLast {
    Nothing,
    /// An element and its place.
    Elem(CharElem, usize),
    /// An element and its place, and the dash of a range.
    Dash(CharElem, usize),
    Range,
}

/// The items that were read.
#[derive(Drop)]
pub(crate) struct CharItems {
    /// Those before the last element.
    set: CharSet,
    last: CharLast,
}

/// A token of a class.
#[derive(Drop)]
pub(crate) enum CharToken {
    /// An element, which takes so many bytes.
    Elem(CharElem, usize),
    /// The dash of a range.
    Dash,
    End,
}

/// Whether the last thing read is an element.
fn is_after_elem(last: &CharLast) -> bool
    ensures { (w : Within) → IsLastOf last.now w → result ≡ is_after_elem w }
{
    match last {
        CharLast::Elem(_, _) => true,
        _ => false,
    }
}

/// The items and an element at the place `at`, after the first element of a range, which stands at `place`.
fn with_range(
    items: CharSet,
    first: CharElem,
    place: usize,
    elem: CharElem,
) -> Result<CharItems, FormulaFault>
    ensures { (s : Bytes) (x y : Elem) (at len : ℕ) → Holds items s → IsElemOf first y → IsElemOf elem x
        → AreItemsAfter result len (takes_elem at (x, len) s (after_dash y place)) }
{
    let (CharElem::One(low), CharElem::One(high)) = (first, elem) else {
        return Err(FormulaFault::BadRange { at: place });
    };
    if low > high {
        return Err(FormulaFault::BadRange { at: place });
    }
    let mut set = items;
    set.add(low, high)?;
    Ok(CharItems {
        set,
        last: CharLast::Range,
    })
}

/// The set with an element that is an item.
fn with_elem(alloc: Global, items: CharSet, elem: CharElem) -> Result<CharSet, OutOfMemory>
    ensures { IfOk result (λ r. (s : Bytes) (x : Elem) → Holds items s → IsElemOf elem x → Holds r (set.union s (elem_set x))) }
{
    let mut set = items;
    set.merge(&set_of(alloc, elem)?)?;
    Ok(set)
}

/// The items and an element at the place `at`.
fn with(
    alloc: Global,
    items: CharItems,
    elem: CharElem,
    at: usize,
) -> Result<CharItems, FormulaFault>
    ensures { (s : Bytes) (w : Within) (x : Elem) (len : ℕ) → AreItemsOf items s w → IsElemOf elem x
        → AreItemsAfter result len (takes_elem at (x, len) s w) }
{
    let CharItems { set, last } = items;
    match last {
        CharLast::Nothing => Ok(CharItems {
            set,
            last: CharLast::Elem(elem, at),
        }),
        CharLast::Range => Ok(CharItems {
            set,
            last: CharLast::Elem(elem, at),
        }),
        CharLast::Elem(before, _) => Ok(CharItems {
            set: with_elem(alloc, set, before)?,
            last: CharLast::Elem(elem, at),
        }),
        CharLast::Dash(first, place) => with_range(set, first, place, elem),
    }
}

/// The items and the dash of a range.
fn with_dash(items: CharItems) -> CharItems
    ensures { (s : Bytes) (x : Elem) (q : ℕ) → AreItemsOf items s (after_elem x q) → AreItemsOf result s (after_dash x q) }
{
    let CharItems { set, last } = items;
    match last {
        CharLast::Elem(elem, at) => CharItems {
            set,
            last: CharLast::Dash(elem, at),
        },
        CharLast::Dash(elem, at) => CharItems {
            set,
            last: CharLast::Dash(elem, at),
        },
        CharLast::Nothing => CharItems {
            set,
            last: CharLast::Nothing,
        },
        CharLast::Range => CharItems {
            set,
            last: CharLast::Range,
        },
    }
}

/// The set of all the items, at the `]` that stands at the place `at`.
fn all(alloc: Global, items: CharItems, at: usize) -> Result<CharSet, FormulaFault>
    ensures { (s : Bytes) (w : Within) → AreItemsOf items s w → IsWholeSet result (takes_end at s w) }
{
    let CharItems { set, last } = items;
    match last {
        CharLast::Elem(elem, _) => Ok(with_elem(alloc, set, elem)?),
        CharLast::Range => Ok(set),
        CharLast::Nothing => Err(FormulaFault::Unexpected { at }),
        CharLast::Dash(_, _) => Err(FormulaFault::Unexpected { at }),
    }
}

/// The token of an element.
fn elem_token(found: Result<(CharElem, usize), FormulaFault>) -> Result<CharToken, FormulaFault>
    ensures { (token : ElemToken) (p : ℕ) (s : Bytes) (w : Within) → IsElemToken found token →
        IsTokenStep result p s w (takes_token p token s w) }
{
    match found {
        Ok((elem, len)) => Ok(CharToken::Elem(elem, len)),
        Err(fault) => Err(fault),
    }
}

/// The token that a `-` is, before the text `others`.
fn dash_token(others: &[u8], after_elem: bool) -> CharToken
    ensures { (p : ℕ) (s : Bytes) (w : Within) → after_elem ≡ is_after_elem w →
        IsTokenStep (Ok result) p s w (takes_dash p others.now s w) }
{
    if after_elem && !begins_with(others, b']') {
        CharToken::Dash
    } else {
        CharToken::Elem(CharElem::One('-'), 1)
    }
}

/// The next token of the class whose `[` stands at `from`.
fn token_at(
    alloc: Global,
    from: usize,
    at: usize,
    rest: &[u8],
    after_elem: bool,
) -> Result<CharToken, FormulaFault>
    ensures { (trees : Bytes → Tree) (s : Bytes) (w : Within) → after_elem ≡ is_after_elem w
        → IsTokenStep result at s w (class_step (with_characters trees) from at rest.now s w) }
{
    let [c, others @ ..] = rest else {
        return Err(FormulaFault::Unclosed { at: from });
    };
    match *c {
        b']' => Ok(CharToken::End),
        b'[' => Err(FormulaFault::Unexpected { at }),
        b'/' => Err(FormulaFault::Unclosed { at: from }),
        128.. => elem_token(wide_at(at, rest)),
        b'\\' => elem_token(elem_at(alloc, at, others)),
        b'-' => Ok(dash_token(others, after_elem)),
        b => Ok(CharToken::Elem(CharElem::One(char::from(b)), 1)),
    }
}

/// The characters of the class: those of the items, or all others.
fn chosen(alloc: Global, negated: bool, items: CharSet) -> Result<CharSet, OutOfMemory>
    ensures { IfOk result (λ r. (s : Bytes) → Holds items s → Holds r (chosen_set negated s)) }
{
    if negated {
        return items.negation(alloc);
    }
    Ok(items)
}

/// The class with these items, from its `[` at `from` to before the place `end`.
fn close(
    alloc: Global,
    negated: bool,
    from: usize,
    end: usize,
    items: CharSet,
) -> Result<(Formula, usize), FormulaFault>
    requires { from ≤ end }
    ensures { (trees : Bytes → Tree) → AreTrees trees → (s : Bytes) → Holds items s
        → IsClassRead trees result (closed_class (with_characters trees) negated from end s) }
{
    let set = chosen(alloc, negated, items)?;
    match tree(alloc, &set)? {
        Some(formula) => Ok((formula, end - from)),
        None => Err(FormulaFault::BadRange { at: from }),
    }
}

/// Reads the items of a class, the first of which stands at the place `first`.
fn read_items(
    alloc: Global,
    negated: bool,
    from: usize,
    first: usize,
    text: &[u8],
) -> Result<(Formula, usize), FormulaFault>
    requires before { from < first }
    requires within { first + length text.now ≤ usize.MAX }
    ensures { (trees : Bytes → Tree) → AreTrees trees
        → IsClassRead trees result (items_at (with_characters trees) negated from 0 first text.now set.empty no_item) }
{
    let mut items = CharItems {
        set: CharSet::none(alloc),
        last: CharLast::Nothing,
    };
    let mut read = 0;
    loop {
        let (_, rest) = text.split_at(read);
        let at = first + read;
        match token_at(alloc, from, at, rest, is_after_elem(&items.last))? {
            CharToken::Elem(elem, len) => {
                items = with(alloc, items, elem, at)?;
                read += len;
            }
            CharToken::Dash => {
                items = with_dash(items);
                read += 1;
            }
            CharToken::End => {
                return close(alloc, negated, from, at + 1, all(alloc, items, at)?);
            }
        }
    }
}

/// The class whose `[` stands at the place `at`, by the text after it: its tree, and how many bytes it
/// takes with both brackets.
pub(crate) fn class_at(
    alloc: Global,
    at: usize,
    text: &[u8],
) -> Result<(Formula, usize), FormulaFault>
    requires { at + length text.now < usize.MAX }
    ensures { (trees : Bytes → Tree) → AreTrees trees
        → IsClassRead trees result (class_at (with_characters trees) at text.now) }
{
    if begins_with(text, b'^') {
        let (_, others) = text.split_at(1);
        read_items(alloc, true, at, at + 2, others)
    } else {
        read_items(alloc, false, at, at + 1, text)
    }
}
