//! Where fits of formulas without variables end.
ghost use Rattle.std.specs.Prelude.{◌≡◌, ◌↔◌, ◌⊎◌, ℕ, ◌+◌, ◌<◌, ◌≤◌, [], ◌∷◌, ◌++◌, length, drop, take, map, IfOk, OnOk, IsTrue};
ghost use Rattle.std.specs.Option.{ForSome};
ghost use Rattle.span_core.specs.Lists.{Has};
ghost use Rattle.spanner_model.specs.View.{tree_of, trees_of};
ghost use Rattle.spanner_model.specs.Tree.{Tree, one, rep, cat_all, alt_all};
ghost use Rattle.spanner_model.specs.Fit.{Fit};
ghost use Rattle.spanner_model.specs.WellBuilt.{IsWellBuilt};
ghost use Rattle.spanner_model.specs.Sequential.{HasNoVar};
ghost use Rattle.plain_spanner.specs.Listed.{Tells, LeadsOn, LeadsTimes, LeadsIn};

use crate::MOST_DOCUMENT_BYTES;
use crate::order::sort_once;
use crate::repeats::{Reached, rounds};
use span_core::{ByteSet, OutOfMemory};
use spanner_model::{Formula, Parts};
use std::alloc::Global;

/// Where the fits of the formula end that begin at one of the starts.
#[cycle(reached_from)]
pub fn reached_from(
    alloc: Global,
    formula: &Formula,
    doc: &[u8],
    starts: &[usize],
) -> Result<Vec<usize>, OutOfMemory>
    requires built { IsWellBuilt (tree_of formula.now) }
    requires bare { HasNoVar (tree_of formula.now) }
    requires short { length doc.now ≤ MOST_DOCUMENT_BYTES }
    requires within { (k : ℕ) → Has starts.now k → k ≤ length doc.now }
    ensures { IfOk result (λ v. Tells (Has v.items) (LeadsOn (Fit (tree_of formula.now) doc.now) starts.now)) }
{
    match formula {
        Formula::Empty => Ok(Vec::from_slice(alloc, starts)?),
        Formula::One(set) => after_byte(alloc, set, doc, starts),
        Formula::Cat(parts) => in_turn(alloc, parts, doc, starts),
        Formula::Alt(parts) => by_arms(alloc, parts, doc, starts),
        Formula::Rep(sub, least, most) => {
            let first = repeated(alloc, sub, *least, doc, starts)?;
            let more = rounds(*least, *most, doc.len());
            repeated_more(alloc, sub, more, doc, &first)
        }
        Formula::Cap(_, _) => Ok(Vec::new(alloc)),
    }
}

/// Where one byte of the set ends.
fn after_byte(
    alloc: Global,
    set: &ByteSet,
    doc: &[u8],
    starts: &[usize],
) -> Result<Vec<usize>, OutOfMemory>
    requires { length doc.now ≤ MOST_DOCUMENT_BYTES }
    ensures { IfOk result (λ v. Tells (Has v.items) (LeadsOn (Fit (one set.now) doc.now) starts.now)) }
{
    let mut ends = Vec::new(alloc);
    for start in starts {
        add_after_byte(&mut ends, set, doc, *start)?;
    }
    Ok(ends)
}

/// Adds the end of one byte of the set, if such a byte stands at `start`.
fn add_after_byte(
    ends: &mut Vec<usize>,
    set: &ByteSet,
    doc: &[u8],
    start: usize,
) -> Result<(), OutOfMemory>
    requires { length doc.now ≤ MOST_DOCUMENT_BYTES }
    ensures { OnOk result
        (Tells (Has ends.new.items) (λ j. Has ends.old.items j ⊎ Fit (one set.now) doc.now start j [])) }
{
    if start < doc.len() && set.contains(doc[start]) {
        ends.push(start + 1)?;
    }
    Ok(())
}

/// Where the parts end, one after another.
#[cycle(reached_from)]
fn in_turn(
    alloc: Global,
    parts: &Parts,
    doc: &[u8],
    starts: &[usize],
) -> Result<Vec<usize>, OutOfMemory>
    requires built { (t : Tree) → Has (trees_of parts.now) t → IsWellBuilt t }
    requires bare { HasNoVar (cat_all (trees_of parts.now)) }
    requires short { length doc.now ≤ MOST_DOCUMENT_BYTES }
    requires within { (k : ℕ) → Has starts.now k → k ≤ length doc.now }
    ensures { IfOk result (λ v. Tells (Has v.items) (LeadsOn (Fit (cat_all (trees_of parts.now)) doc.now) starts.now)) }
{
    let mut reached = Vec::from_slice(alloc, starts)?;
    for k in 0..parts.len() {
        if reached.is_empty() {
            return Ok(reached);
        }
        reached = reached_from(alloc, parts.at(k), doc, &reached)?;
    }
    Ok(reached)
}

/// Where one of the arms ends.
#[cycle(reached_from)]
fn by_arms(
    alloc: Global,
    parts: &Parts,
    doc: &[u8],
    starts: &[usize],
) -> Result<Vec<usize>, OutOfMemory>
    requires built { (t : Tree) → Has (trees_of parts.now) t → IsWellBuilt t }
    requires bare { HasNoVar (cat_all (trees_of parts.now)) }
    requires short { length doc.now ≤ MOST_DOCUMENT_BYTES }
    requires within { (k : ℕ) → Has starts.now k → k ≤ length doc.now }
    ensures { IfOk result (λ v. Tells (Has v.items) (LeadsOn (Fit (alt_all (trees_of parts.now)) doc.now) starts.now)) }
{
    let mut all = Vec::new(alloc);
    for k in 0..parts.len() {
        let mut others = reached_from(alloc, parts.at(k), doc, starts)?;
        all.append(&mut others)?;
    }
    sort_once(&mut all);
    Ok(all)
}

/// Where exactly so many fits of the formula end, one after another.
#[cycle(reached_from)]
fn repeated(
    alloc: Global,
    sub: &Formula,
    count: u16,
    doc: &[u8],
    starts: &[usize],
) -> Result<Vec<usize>, OutOfMemory>
    requires built { IsWellBuilt (tree_of sub.now) }
    requires bare { HasNoVar (tree_of sub.now) }
    requires short { length doc.now ≤ MOST_DOCUMENT_BYTES }
    requires within { (k : ℕ) → Has starts.now k → k ≤ length doc.now }
    ensures { IfOk result (λ v. Tells (Has v.items) (LeadsTimes (Fit (tree_of sub.now) doc.now) count starts.now)) }
{
    let mut reached = Vec::from_slice(alloc, starts)?;
    for _count in 0..count {
        if reached.is_empty() {
            return Ok(reached);
        }
        reached = reached_from(alloc, sub, doc, &reached)?;
    }
    Ok(reached)
}

/// Where at most so many fits of the formula end, one after another. It goes on from each end once, and
/// stops where no fit leads to a new one.
#[cycle(reached_from)]
fn repeated_more(
    alloc: Global,
    sub: &Formula,
    most: usize,
    doc: &[u8],
    starts: &[usize],
) -> Result<Vec<usize>, OutOfMemory>
    requires built { IsWellBuilt (tree_of sub.now) }
    requires bare { HasNoVar (tree_of sub.now) }
    requires short { length doc.now ≤ MOST_DOCUMENT_BYTES }
    requires within { (k : ℕ) → Has starts.now k → k ≤ length doc.now }
    ensures { IfOk result (λ v. Tells (Has v.items) (LeadsIn (Fit (tree_of sub.now) doc.now) 0 most starts.now)) }
{
    let mut reached = Reached::new(alloc);
    reached.add_all(starts)?;
    let mut done = 0;
    for _round in 0..most {
        if done == reached.len() {
            return Ok(reached.into_ends());
        }
        let next = reached_from(alloc, sub, doc, reached.after(done))?;
        done = reached.len();
        reached.add_all(&next)?;
    }
    Ok(reached.into_ends())
}
