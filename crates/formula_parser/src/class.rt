//! Reads a class, one element after another.
//!
//! Whether a `-` is a range or itself depends on what stands before and behind it, so the last element waits until
//! the next token tells whether it begins a range.
ghost use Rattle.std.specs.Prelude.{◌≡◌, ℕ, ◌+◌, ◌<◌, ◌≤◌, ◌==◌, length, Some, None, IfOk, if◌then◌else◌};
ghost use Rattle.std.specs.FinSet as set;
ghost use Rattle.formula_parser.specs.Classes.{range_set, no_item};
ghost use Rattle.formula_parser.specs.ClassStep.{are_range, takes_elem, takes_dash, takes_end, class_step, closed_class, items_at, class_at};
ghost use Rattle.formula_parser.specs.Dialect.{plain_bytes, escape_in};
ghost use Rattle.formula_parser.specs.View.{elem_of};
ghost use Rattle.formula_parser.specs.ClassView.{last_of, after_elem, after_end, after_token};

use crate::fault::FormulaFault;
use crate::tokens::{Elem, begins_with, escape_at};
use span_core::ByteSet;

/// The last thing read in a class.
#[derive(Clone, Copy, Debug)]
pub(crate) enum ClassLast {
    Nothing,
    /// An element and its place.
    Elem(Elem, usize),
    /// An element and its place, and the dash of a range.
    Dash(Elem, usize),
    Range,
}

/// The items that were read.
#[derive(Clone, Copy, Debug)]
pub(crate) struct Items {
    /// Those before the last element.
    set: ByteSet,
    last: ClassLast,
}

/// A token of a class.
#[derive(Clone, Copy, Debug)]
pub(crate) enum ClassToken {
    /// An element, which takes so many bytes.
    Elem(Elem, usize),
    /// The dash of a range, after the element that stands at this place.
    Dash(Elem, usize),
    End,
}

impl Items {
    /// The items and an element at the place `at`.
    fn with(&self, elem: Elem, at: usize) -> Result<Items, FormulaFault>
        ensures { (len : ℕ)
            → after_elem len result ≡ takes_elem at (elem_of elem, len) self.now.set (last_of self.now.last) }
    {
        match self.last {
            ClassLast::Nothing | ClassLast::Range => Ok(Items {
                set: self.set,
                last: ClassLast::Elem(elem, at),
            }),
            ClassLast::Elem(before, _) => Ok(Items {
                set: self.set.union(&before.set()),
                last: ClassLast::Elem(elem, at),
            }),
            ClassLast::Dash(first, place) => match range(&first, &elem) {
                Some(range) => Ok(Items {
                    set: self.set.union(&range),
                    last: ClassLast::Range,
                }),
                None => Err(FormulaFault::BadRange { at: place }),
            },
        }
    }

    /// The set of all the items, at the `]` that stands at the place `at`.
    fn all(&self, at: usize) -> Result<ByteSet, FormulaFault>
        ensures { after_end result ≡ takes_end at self.now.set (last_of self.now.last) }
    {
        match self.last {
            ClassLast::Elem(elem, _) => Ok(self.set.union(&elem.set())),
            ClassLast::Range => Ok(self.set),
            ClassLast::Nothing | ClassLast::Dash(_, _) => Err(FormulaFault::Unexpected { at }),
        }
    }

    /// The token that a `-` is, before the text `others`.
    fn dash(&self, others: &[u8]) -> ClassToken
        ensures { (at : ℕ)
            → after_token at (Ok result) self.now.set (last_of self.now.last)
            ≡ takes_dash at others.now self.now.set (last_of self.now.last) }
    {
        match self.last {
            ClassLast::Elem(first, place) if !begins_with(others, b']') => {
                ClassToken::Dash(first, place)
            }
            _ => ClassToken::Elem(Elem::Byte(b'-'), 1),
        }
    }
}

/// The bytes from one element to another.
fn range(first: &Elem, last: &Elem) -> Option<ByteSet>
    ensures { result
        ≡ (if are_range (elem_of first.now) (elem_of last.now) then Some (range_set (elem_of first.now) (elem_of last.now)) else None) }
{
    match (first, last) {
        (Elem::Byte(low), Elem::Byte(high)) if low <= high => Some(ByteSet::range(*low, *high)),
        _ => None,
    }
}

/// The next token of the class whose `[` stands at `from`.
fn token_at(from: usize, at: usize, rest: &[u8], items: &Items) -> Result<ClassToken, FormulaFault>
    ensures { after_token at result items.now.set (last_of items.now.last)
        ≡ class_step plain_bytes from at rest.now items.now.set (last_of items.now.last) }
{
    let [c, others @ ..] = rest else {
        return Err(FormulaFault::Unclosed { at: from });
    };
    match *c {
        b']' => Ok(ClassToken::End),
        b'[' => Err(FormulaFault::Unexpected { at }),
        b'/' => Err(FormulaFault::Unclosed { at: from }),
        128.. => Err(FormulaFault::Unexpected { at }),
        b'\\' => match escape_at(others) {
            Some((elem, len)) => Ok(ClassToken::Elem(elem, len)),
            None => Err(FormulaFault::BadEscape { at }),
        },
        b'-' => Ok(items.dash(others)),
        b => Ok(ClassToken::Elem(Elem::Byte(b), 1)),
    }
}

/// Whether no byte is in the set.
fn is_empty(bytes: &ByteSet) -> bool
    ensures { result ≡ (set.len bytes.now == 0) }
{
    bytes.is_empty()
}

/// The class with these items, from its `[` at `from` to before the place `end`.
fn close(
    negated: bool,
    from: usize,
    end: usize,
    items: ByteSet,
) -> Result<(ByteSet, usize), FormulaFault>
    requires { from ≤ end }
    ensures { result ≡ closed_class plain_bytes negated from end items }
{
    let set = if negated { items.negation() } else { items };
    if is_empty(&set) {
        Err(FormulaFault::BadRange { at: from })
    } else {
        Ok((set, end - from))
    }
}

/// Reads the items of a class, the first of which stands at the place `first`.
fn read_items(
    negated: bool,
    from: usize,
    first: usize,
    text: &[u8],
) -> Result<(ByteSet, usize), FormulaFault>
    requires before { from < first }
    requires within { first + length text.now ≤ usize.MAX }
    ensures { result ≡ items_at plain_bytes negated from 0 first text.now set.empty no_item }
{
    let mut items = Items {
        set: ByteSet::empty(),
        last: ClassLast::Nothing,
    };
    let mut read = 0;
    loop {
        let (_, rest) = text.split_at(read);
        let at = first + read;
        match token_at(from, at, rest, &items)? {
            ClassToken::Elem(elem, len) => {
                items = items.with(elem, at)?;
                read += len;
            }
            ClassToken::Dash(before, place) => {
                items.last = ClassLast::Dash(before, place);
                read += 1;
            }
            ClassToken::End => return close(negated, from, at + 1, items.all(at)?),
        }
    }
}

/// The class whose `[` stands at the place `at`, by the text after it: its set, and how many bytes it
/// takes with both brackets.
pub(crate) fn class_at(at: usize, text: &[u8]) -> Result<(ByteSet, usize), FormulaFault>
    requires { at + length text.now < usize.MAX }
    ensures value { result ≡ class_at plain_bytes at text.now }
    ensures within { IfOk result (λ x. (0 < x.1) × (x.1 ≤ length text.now + 1)) }
{
    if begins_with(text, b'^') {
        let (_, others) = text.split_at(1);
        read_items(true, at, at + 2, others)
    } else {
        read_items(false, at, at + 1, text)
    }
}
