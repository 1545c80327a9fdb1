//! The turns of reading a query: what each token makes of what has been read.
//!
//! A token that may not come next is a fault at its first byte, before anything in it is looked at.
ghost use Rattle.std.specs.Prelude.{◌≡◌, ◌+◌, ◌≤◌, ◌<◌, ◌∷◌, [], ◌⊎◌, length, drop, slice_get, Some, None, if◌then◌else◌, IfOk, IfErr, OnOk, Ok, Err};
ghost use Rattle.spanner_model.specs.ExprView.{expr_of};
ghost use Rattle.query_parser.specs.Tokens.{let_word, union_word, join_word, project_word, none_word, name_token, equals, semicolon, open_paren, close_paren, comma, sign_token};
ghost use Rattle.query_parser.specs.Spells.{names_of};
ghost use Rattle.query_parser.specs.declared.TheConstants.{MOST_TEXT_BYTES};
ghost use Rattle.query_parser.specs.Reads.{finds_room};
ghost use Rattle.span_core.specs.NameSets.{with_name};
ghost use Rattle.query_parser.specs.Nest.{outermost, unit, move, moves_name, opens, begins_let, keeps, reads_name, speaks_of, find, whole, moves_minus, ends_let, ends_body};
ghost use Rattle.query_parser.specs.Step.{moved, after_word, signs, ends, step, EndsReading};
ghost use Rattle.query_parser.specs.View.{word_of, sign_of, nest_of};
ghost use Rattle.query_parser.specs.Turn.{IsStep, ReadAtom, IsTurn, IsEnd, AnswersBody};

use crate::fault::QueryFault;
use crate::named::Named;
use crate::nest::{Frame, Last, Nest};
use crate::tokens::{Sign, Word, is_blank, sign_of, word_at, word_of};
use crate::{MOST_MINUSES, MOST_OPEN};
use formula_parser::{FormulaFault, read_atom};
use span_core::{Name, VarSet, is_name_start};
use spanner_model::{Expr, Query};
use std::alloc::Global;
use std::mem;

fn let_word(at: usize, nest: &mut Nest) -> Result<usize, QueryFault>
    ensures { IsStep result (moved at 3 (move let_word (nest_of nest.old))) (nest_of nest.new) }
{
    match nest.last {
        Last::Start => {
            nest.last = Last::Let;
            Ok(3)
        }
        _ => Err(QueryFault::Unexpected { at }),
    }
}

fn project_word(at: usize, nest: &mut Nest) -> Result<usize, QueryFault>
    ensures { IsStep result (moved at 7 (move project_word (nest_of nest.old))) (nest_of nest.new) }
{
    match nest.last {
        Last::Start | Last::Before => {
            nest.last = Last::Project;
            Ok(7)
        }
        _ => Err(QueryFault::Unexpected { at }),
    }
}

fn none_word(at: usize, nest: &mut Nest) -> Result<usize, QueryFault>
    ensures { IsStep result (moved at 4 (move none_word (nest_of nest.old))) (nest_of nest.new) }
{
    match nest.last {
        Last::Project => {
            nest.last = Last::KeepNone;
            Ok(4)
        }
        _ => Err(QueryFault::Unexpected { at }),
    }
}

fn union_word(alloc: Global, at: usize, nest: &mut Nest) -> Result<usize, QueryFault>
    ensures { IsStep result (moved at 5 (move union_word (nest_of nest.old))) (nest_of nest.new) }
{
    let last = mem::replace(&mut nest.last, Last::Before);
    match last {
        Last::Unit(unit) => {
            nest.next_conj(alloc, unit)?;
            Ok(5)
        }
        _ => Err(QueryFault::Unexpected { at }),
    }
}

fn join_word(at: usize, nest: &mut Nest) -> Result<usize, QueryFault>
    ensures { IsStep result (moved at 4 (move join_word (nest_of nest.old))) (nest_of nest.new) }
{
    let last = mem::replace(&mut nest.last, Last::Before);
    match last {
        Last::Unit(unit) => {
            nest.next_unit(unit)?;
            Ok(4)
        }
        _ => Err(QueryFault::Unexpected { at }),
    }
}

/// The name of a let.
fn begin_let(at: usize, word: &[u8], nest: &mut Nest) -> Result<usize, QueryFault>
    ensures { IsStep result (moved at (length word.now) (begins_let word.now (nest_of nest.old))) (nest_of nest.new) }
{
    let Some(name) = Name::read(word) else {
        return Err(QueryFault::NameTooLong { at });
    };
    if nest.named.has(&name) {
        return Err(QueryFault::NameTwice { at });
    }
    nest.current = Some(name);
    nest.last = Last::LetName;
    Ok(word.len())
}

/// A name as a unit.
fn speak_of(at: usize, word: &[u8], nest: &mut Nest) -> Result<usize, QueryFault>
    ensures { IsStep result
        (moved at (length word.now) (reads_name word.now (speaks_of (find (names_of (nest_of nest.old).lets) word.now) (nest_of nest.old))))
        (nest_of nest.new) }
{
    let Some(name) = Name::read(word) else {
        return Err(QueryFault::NameTooLong { at });
    };
    match nest.named.find(&name) {
        Some(number) => {
            nest.last = Last::Unit(Expr::Named(number));
            Ok(word.len())
        }
        None => Err(QueryFault::UnknownName { at }),
    }
}

/// Adds a name, where it finds room.
fn add(names: &mut VarSet, name: Name) -> bool
    ensures room { result ≡ finds_room names.old name }
    ensures kept { names.new ≡ (if finds_room names.old name then with_name name names.old else names.old) }
{
    names.add(name)
}

/// A name that a projection keeps.
fn keep(at: usize, word: &[u8], nest: &mut Nest) -> Result<usize, QueryFault>
    ensures { IsStep result (moved at (length word.now) (keeps nest.old.names word.now (nest_of nest.old))) (nest_of nest.new) }
{
    let Some(name) = Name::read(word) else {
        return Err(QueryFault::NameTooLong { at });
    };
    nest.last = Last::Kept;
    if add(&mut nest.names, name) {
        Ok(word.len())
    } else {
        nest.many = true;
        Ok(word.len())
    }
}

/// A name where only the sign `minus` may stand.
fn minus_word(alloc: Global, at: usize, word: &[u8], nest: &mut Nest) -> Result<usize, QueryFault>
    ensures { IsStep result (moved at (length word.now)
        (moves_minus word.now (nest_of nest.old).last (nest_of nest.old))) (nest_of nest.new) }
{
    let last = mem::replace(&mut nest.last, Last::Before);
    match last {
        Last::Unit(unit) => {
            if word != b"minus".as_slice() {
                return Err(QueryFault::Unexpected { at });
            }
            if nest.minuses >= MOST_MINUSES {
                return Err(QueryFault::TooDeep { at });
            }
            nest.next_side(alloc, unit)?;
            Ok(word.len())
        }
        _ => Err(QueryFault::Unexpected { at }),
    }
}

fn name(alloc: Global, at: usize, word: &[u8], nest: &mut Nest) -> Result<usize, QueryFault>
    ensures { IsStep result (moved at (length word.now) (move (name_token word.now) (nest_of nest.old))) (nest_of nest.new) }
{
    match nest.last {
        Last::Start | Last::Before => speak_of(at, word, nest),
        Last::Let => begin_let(at, word, nest),
        Last::Project => {
            nest.names = VarSet::empty();
            keep(at, word, nest)
        }
        Last::Comma => keep(at, word, nest),
        Last::LetName | Last::Unit(_) | Last::KeepNone | Last::Kept => {
            minus_word(alloc, at, word, nest)
        }
    }
}

fn word(alloc: Global, at: usize, word: &[u8], nest: &mut Nest) -> Result<usize, QueryFault>
    ensures { IsStep result (after_word at word.now (nest_of nest.old)) (nest_of nest.new) }
{
    match word_of(word) {
        Word::Let => let_word(at, nest),
        Word::Union => union_word(alloc, at, nest),
        Word::Join => join_word(at, nest),
        Word::Project => project_word(at, nest),
        Word::None => none_word(at, nest),
        Word::Name => name(alloc, at, word, nest),
    }
}

fn equals(at: usize, nest: &mut Nest) -> Result<usize, QueryFault>
    ensures { IsStep result (moved at 1 (move equals (nest_of nest.old))) (nest_of nest.new) }
{
    match nest.last {
        Last::LetName => {
            nest.last = Last::Before;
            Ok(1)
        }
        _ => Err(QueryFault::Unexpected { at }),
    }
}

fn comma(at: usize, nest: &mut Nest) -> Result<usize, QueryFault>
    ensures { IsStep result (moved at 1 (move comma (nest_of nest.old))) (nest_of nest.new) }
{
    match nest.last {
        Last::Kept => {
            nest.last = Last::Comma;
            Ok(1)
        }
        _ => Err(QueryFault::Unexpected { at }),
    }
}

/// A `(`, where one may stand.
fn open(
    alloc: Global,
    at: usize,
    names: Option<VarSet>,
    nest: &mut Nest,
) -> Result<usize, QueryFault>
    ensures { IsStep result (moved at 1 (opens names (nest_of nest.old))) (nest_of nest.new) }
{
    if nest.below.len() >= MOST_OPEN {
        return Err(QueryFault::TooDeep { at });
    }
    nest.open(alloc, names)?;
    Ok(1)
}

fn open_paren(alloc: Global, at: usize, nest: &mut Nest) -> Result<usize, QueryFault>
    ensures { IsStep result (moved at 1 (move open_paren (nest_of nest.old))) (nest_of nest.new) }
{
    match nest.last {
        Last::Start | Last::Before => open(alloc, at, None, nest),
        Last::KeepNone => open(alloc, at, Some(VarSet::empty()), nest),
        Last::Kept => {
            let names = nest.names.copy();
            open(alloc, at, Some(names), nest)
        }
        _ => Err(QueryFault::Unexpected { at }),
    }
}

fn close_paren(alloc: Global, at: usize, nest: &mut Nest) -> Result<usize, QueryFault>
    ensures { IsStep result (moved at 1 (move close_paren (nest_of nest.old))) (nest_of nest.new) }
{
    let last = mem::replace(&mut nest.last, Last::Before);
    match last {
        Last::Unit(unit) => {
            let Some(outer) = nest.below.pop() else {
                return Err(QueryFault::Unexpected { at });
            };
            let inner = mem::replace(&mut nest.top, outer);
            nest.last = Last::Unit(inner.closed(alloc, unit)?);
            Ok(1)
        }
        _ => Err(QueryFault::Unexpected { at }),
    }
}

/// A `;` after this unit.
fn end_let(alloc: Global, at: usize, last: Expr, nest: &mut Nest) -> Result<usize, QueryFault>
    ensures { IsStep result
        (moved at 1
        (ends_let (whole (nest_of nest.old).top (expr_of last)) (nest_of nest.old).lets (nest_of nest.old).many (nest_of nest.old).minuses (nest_of nest.old).below (nest_of nest.old).current))
        (nest_of nest.new) }
{
    if !nest.below.is_empty() {
        return Err(QueryFault::Unexpected { at });
    }
    match nest.current {
        Some(name) => {
            let top = mem::replace(&mut nest.top, Frame::new(alloc, None));
            let expr = top.whole(alloc, last)?;
            let named = mem::replace(&mut nest.named, Named::new(alloc));
            nest.named = named.with(name, expr)?;
            nest.current = None;
            nest.last = Last::Start;
            Ok(1)
        }
        None => Err(QueryFault::Unexpected { at }),
    }
}

fn semicolon(alloc: Global, at: usize, nest: &mut Nest) -> Result<usize, QueryFault>
    ensures { IsStep result (moved at 1 (move semicolon (nest_of nest.old))) (nest_of nest.new) }
{
    let last = mem::replace(&mut nest.last, Last::Before);
    match last {
        Last::Unit(unit) => end_let(alloc, at, unit, nest),
        _ => Err(QueryFault::Unexpected { at }),
    }
}

fn sign(alloc: Global, at: usize, c: u8, nest: &mut Nest) -> Result<usize, QueryFault>
    ensures { IsStep result (signs at (sign_token c) (nest_of nest.old)) (nest_of nest.new) }
{
    match sign_of(c) {
        Some(Sign::Equals) => equals(at, nest),
        Some(Sign::Semicolon) => semicolon(alloc, at, nest),
        Some(Sign::Open) => open_paren(alloc, at, nest),
        Some(Sign::Close) => close_paren(alloc, at, nest),
        Some(Sign::Comma) => comma(at, nest),
        None => Err(QueryFault::Unexpected { at }),
    }
}

/// A `/` where a unit is due.
fn atom(alloc: Global, text: &[u8], at: usize, nest: &mut Nest) -> Result<usize, QueryFault>
    requires slash { slice_get text.now at ≡ Some 47 }
    requires short { length text.now ≤ MOST_TEXT_BYTES }
    ensures { ReadAtom result text.now at (nest_of nest.old) (nest_of nest.new) }
{
    match read_atom(alloc, text, at) {
        Ok((atom, after)) => {
            nest.last = Last::Unit(Expr::Atom(atom));
            Ok(after - at)
        }
        Err(FormulaFault::OutOfMemory) => Err(QueryFault::OutOfMemory),
        Err(fault) => Err(QueryFault::Formula(fault)),
    }
}

/// Reads the blank or the token at the place `at`, where the rest of the text begins, and gives how many
/// bytes it takes.
pub(crate) fn take_turn(
    alloc: Global,
    text: &[u8],
    at: usize,
    rest: &[u8],
    nest: &mut Nest,
) -> Result<usize, QueryFault>
    requires short { length text.now ≤ MOST_TEXT_BYTES }
    requires here { rest.now ≡ drop at text.now }
    requires some { 0 < length rest.now }
    ensures { IsTurn result text.now at (nest_of nest.old) (nest_of nest.new) }
{
    let [c, ..] = rest else {
        return Err(QueryFault::Unexpected { at });
    };
    if is_blank(*c) {
        return Ok(1);
    }
    if *c == b'/' {
        if !nest.wants_unit() {
            return Err(QueryFault::Unexpected { at });
        }
        return atom(alloc, text, at, nest);
    }
    if is_name_start(*c) {
        return word(alloc, at, word_at(rest), nest);
    }
    sign(alloc, at, *c, nest)
}

/// The query that ends after this unit.
fn end_body(alloc: Global, at: usize, last: Expr, nest: Nest) -> Result<(Query, bool), QueryFault>
    ensures { IsEnd result
        (ends at (ends_body (nest_of nest).lets (nest_of nest).many (nest_of nest).top (nest_of nest).below (nest_of nest).current (unit (expr_of last)))) }
{
    if !nest.below.is_empty() {
        return Err(QueryFault::Unexpected { at });
    }
    if nest.current.is_some() {
        return Err(QueryFault::Unexpected { at });
    }
    let many = nest.many;
    let body = nest.top.whole(alloc, last)?;
    let lets = nest.named.lets;
    Ok((Query { lets, body }, many))
}

/// The query that ends at the text's end, and whether some projection keeps too many names.
pub(crate) fn finish(alloc: Global, at: usize, nest: Nest) -> Result<(Query, bool), QueryFault>
    ensures { IsEnd result (step at [] (nest_of nest)) }
{
    let mut nest = nest;
    let last = mem::replace(&mut nest.last, Last::Before);
    match last {
        Last::Unit(unit) => end_body(alloc, at, unit, nest),
        _ => Err(QueryFault::Unexpected { at }),
    }
}
