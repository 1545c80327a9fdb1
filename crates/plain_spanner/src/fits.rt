//! All fits of a formula.
ghost use Rattle.std.specs.Prelude.{◌≡◌, ◌⊎◌, ℕ, ◌≤◌, [], ◌∷◌, ◌++◌, length, Some, IfOk, OnOk};
ghost use Rattle.span_core.specs.Lists.{Has};
ghost use Rattle.spanner_model.specs.Captures.{Captures};
ghost use Rattle.spanner_model.specs.View.{tree_of, trees_of};
ghost use Rattle.spanner_model.specs.Tree.{Tree, rep, cap, cat_all, alt_all};
ghost use Rattle.spanner_model.specs.Fit.{Fit};
ghost use Rattle.spanner_model.specs.WellBuilt.{IsWellBuilt};
ghost use Rattle.spanner_model.specs.Sequential.{IsSequential, HasNoVar};
ghost use Rattle.plain_spanner.specs.Listed.{Tells, FromSome, HasFit, Continued, EndWithin, EndAndCaptures, CapturedFrom, CapturedAt};

use crate::MOST_DOCUMENT_BYTES;
use crate::bare::{are_bare, is_bare};
use crate::ends::reached_from;
use span_core::{Name, OutOfMemory, Span};
use spanner_model::{Formula, Parts};
use std::alloc::{AllocError, Global};
use std::marker::Model;

/// Fits that capture the same: what they capture, and where they end.
#[derive(Drop)]
pub struct Branch {
    captures: Vec<(Name, Span)>,
    ends: Vec<usize>,
}

impl Model for Branch {
    ghost use Rattle.plain_spanner.specs.Listed.{CapturesAndEnds};

    ghost Value = { CapturesAndEnds };

    ghost view = { λ b. (b.captures.items, b.ends.items) };
}

impl Branch {
    /// The fit of nothing at `place`.
    pub fn at(alloc: Global, place: usize) -> Result<Branch, AllocError>
        ensures { IfOk result (λ b. b ≡ ([], place ∷ [])) }
    {
        let mut ends = Vec::new(alloc);
        ends.push(place)?;
        Ok(Branch {
            captures: Vec::new(alloc),
            ends,
        })
    }

    /// What the fits of this branch capture, in the order of the formula.
    pub fn captures(&self) -> &[(Name, Span)]
        ensures { result.now ≡ self.now.0 }
    {
        &self.captures
    }

    /// Where the fits of this branch end, in bytes from 0.
    pub fn ends(&self) -> &[usize]
        ensures { result.now ≡ self.now.1 }
    {
        &self.ends
    }

    fn copy(&self, alloc: Global) -> Result<Branch, AllocError>
        ensures { IfOk result (λ b. b ≡ self.now) }
    {
        Ok(Branch {
            captures: Vec::from_slice(alloc, &self.captures)?,
            ends: Vec::from_slice(alloc, &self.ends)?,
        })
    }
}

/// The fits that go on from some of `firsts` by a fit of the formula.
#[cycle(fits)]
pub fn go_on(
    alloc: Global,
    formula: &Formula,
    doc: &[u8],
    firsts: &[Branch],
) -> Result<Vec<Branch>, OutOfMemory>
    requires built { IsWellBuilt (tree_of formula.now) }
    requires sequential { IsSequential (tree_of formula.now) }
    requires short { length doc.now ≤ MOST_DOCUMENT_BYTES }
    requires within { EndWithin (length doc.now) firsts.now }
    ensures { IfOk result (λ v. Tells (HasFit v.items) (Continued (HasFit firsts.now) (Fit (tree_of formula.now) doc.now))) }
{
    match formula {
        Formula::Cat(parts) => in_turn(alloc, parts, doc, firsts),
        Formula::Alt(parts) => {
            if are_bare(parts) {
                go_on_bare(alloc, formula, doc, firsts)
            } else {
                by_arms(alloc, parts, doc, firsts)
            }
        }
        Formula::Rep(sub, least, _) => {
            if is_bare(sub) {
                go_on_bare(alloc, formula, doc, firsts)
            } else {
                once_at_most(alloc, sub, *least, doc, firsts)
            }
        }
        Formula::Cap(name, sub) => captured(alloc, name, sub, doc, firsts),
        Formula::Empty | Formula::One(_) => go_on_bare(alloc, formula, doc, firsts),
    }
}

/// The same for a formula that captures nothing.
fn go_on_bare(
    alloc: Global,
    formula: &Formula,
    doc: &[u8],
    firsts: &[Branch],
) -> Result<Vec<Branch>, OutOfMemory>
    requires built { IsWellBuilt (tree_of formula.now) }
    requires bare { HasNoVar (tree_of formula.now) }
    requires short { length doc.now ≤ MOST_DOCUMENT_BYTES }
    requires within { EndWithin (length doc.now) firsts.now }
    ensures { IfOk result (λ v. Tells (HasFit v.items) (Continued (HasFit firsts.now) (Fit (tree_of formula.now) doc.now))) }
{
    let mut all = Vec::new(alloc);
    for first in firsts {
        let places = first.ends();
        let later = reached_from(alloc, formula, doc, places)?;
        add_branch(alloc, &mut all, first.captures(), later)?;
    }
    Ok(all)
}

/// Adds a branch, unless it has no end.
fn add_branch(
    alloc: Global,
    all: &mut Vec<Branch>,
    captures: &[(Name, Span)],
    ends: Vec<usize>,
) -> Result<(), AllocError>
    ensures { OnOk result
        (Tells (HasFit all.new.items) (λ f. HasFit all.old.items f ⊎ HasFit ((captures.now, ends.items) ∷ []) f)) }
{
    if !ends.is_empty() {
        let captures = Vec::from_slice(alloc, captures)?;
        all.push(Branch { captures, ends })?;
    }
    Ok(())
}

/// The fits that go on from some of `firsts` by fits of the parts, one after another.
#[cycle(fits)]
fn in_turn(
    alloc: Global,
    parts: &Parts,
    doc: &[u8],
    firsts: &[Branch],
) -> Result<Vec<Branch>, OutOfMemory>
    requires built { (t : Tree) → Has (trees_of parts.now) t → IsWellBuilt t }
    requires sequential { IsSequential (cat_all (trees_of parts.now)) }
    requires short { length doc.now ≤ MOST_DOCUMENT_BYTES }
    requires within { EndWithin (length doc.now) firsts.now }
    ensures { IfOk result (λ v. Tells (HasFit v.items) (Continued (HasFit firsts.now) (Fit (cat_all (trees_of parts.now)) doc.now))) }
{
    let mut reached = copies(alloc, firsts)?;
    for k in 0..parts.len() {
        if reached.is_empty() {
            return Ok(reached);
        }
        reached = go_on(alloc, parts.at(k), doc, &reached)?;
    }
    Ok(reached)
}

fn copies(alloc: Global, branches: &[Branch]) -> Result<Vec<Branch>, AllocError>
    ensures { IfOk result (λ v. v.items ≡ branches.now) }
{
    let mut all = Vec::new(alloc);
    for branch in branches {
        all.push(branch.copy(alloc)?)?;
    }
    Ok(all)
}

/// The fits that go on from some of `firsts` by a fit of one of the arms.
#[cycle(fits)]
fn by_arms(
    alloc: Global,
    parts: &Parts,
    doc: &[u8],
    firsts: &[Branch],
) -> Result<Vec<Branch>, OutOfMemory>
    requires built { (t : Tree) → Has (trees_of parts.now) t → IsWellBuilt t }
    requires sequential { IsSequential (alt_all (trees_of parts.now)) }
    requires short { length doc.now ≤ MOST_DOCUMENT_BYTES }
    requires within { EndWithin (length doc.now) firsts.now }
    ensures { IfOk result (λ v. Tells (HasFit v.items) (Continued (HasFit firsts.now) (Fit (alt_all (trees_of parts.now)) doc.now))) }
{
    let mut all = Vec::new(alloc);
    for k in 0..parts.len() {
        let mut others = go_on(alloc, parts.at(k), doc, firsts)?;
        all.append(&mut others)?;
    }
    Ok(all)
}

/// The fits that go on from some of `firsts` by a fit of the formula, or where `least` is 0 by nothing.
#[cycle(fits)]
fn once_at_most(
    alloc: Global,
    sub: &Formula,
    least: u16,
    doc: &[u8],
    firsts: &[Branch],
) -> Result<Vec<Branch>, OutOfMemory>
    requires built { IsWellBuilt (tree_of sub.now) }
    requires sequential { IsSequential (tree_of sub.now) }
    requires once { least ≤ 1 }
    requires short { length doc.now ≤ MOST_DOCUMENT_BYTES }
    requires within { EndWithin (length doc.now) firsts.now }
    ensures { IfOk result (λ v. Tells (HasFit v.items)
        (Continued (HasFit firsts.now) (Fit (rep (tree_of sub.now) least (Some 1)) doc.now))) }
{
    let mut all = go_on(alloc, sub, doc, firsts)?;
    if least > 0 {
        return Ok(all);
    }
    let mut none = copies(alloc, firsts)?;
    all.append(&mut none)?;
    Ok(all)
}

/// The fits that go on from some of `firsts` by a capture.
#[cycle(fits)]
fn captured(
    alloc: Global,
    name: &Name,
    sub: &Formula,
    doc: &[u8],
    firsts: &[Branch],
) -> Result<Vec<Branch>, OutOfMemory>
    requires built { IsWellBuilt (tree_of sub.now) }
    requires sequential { IsSequential (cap name.now (tree_of sub.now)) }
    requires short { length doc.now ≤ MOST_DOCUMENT_BYTES }
    requires within { EndWithin (length doc.now) firsts.now }
    ensures { IfOk result (λ v. Tells (HasFit v.items) (Continued (HasFit firsts.now) (Fit (cap name.now (tree_of sub.now)) doc.now))) }
{
    let mut all = Vec::new(alloc);
    for first in firsts {
        add_captured(alloc, &mut all, name, sub, doc, first)?;
    }
    Ok(all)
}

/// Adds the fits that go on from those of one branch by a capture.
#[cycle(fits)]
fn add_captured(
    alloc: Global,
    all: &mut Vec<Branch>,
    name: &Name,
    sub: &Formula,
    doc: &[u8],
    first: &Branch,
) -> Result<(), OutOfMemory>
    requires built { IsWellBuilt (tree_of sub.now) }
    requires sequential { IsSequential (tree_of sub.now) }
    requires short { length doc.now ≤ MOST_DOCUMENT_BYTES }
    requires within { (k : ℕ) → Has first.now.1 k → k ≤ length doc.now }
    ensures { OnOk result (Tells (HasFit all.new.items)
        (λ f. HasFit all.old.items f ⊎ FromSome (CapturedFrom name.now (Fit (tree_of sub.now) doc.now) first.now.0) first.now.1 f)) }
{
    let places = first.ends();
    for place in places {
        let here = [Branch::at(alloc, *place)?];
        let inner = go_on(alloc, sub, doc, &here)?;
        add_named(alloc, all, name, *place, first.captures(), &inner)?;
    }
    Ok(())
}

/// Adds the fits of a capture that begins at `place`, where `inner` are those of the formula under it.
fn add_named(
    alloc: Global,
    all: &mut Vec<Branch>,
    name: &Name,
    place: usize,
    captures: &[(Name, Span)],
    inner: &[Branch],
) -> Result<(), AllocError>
    requires { (f : EndAndCaptures) → HasFit inner.now f → (place ≤ f.0) × (f.0 ≤ MOST_DOCUMENT_BYTES) }
    ensures { OnOk result (Tells (HasFit all.new.items)
        (λ f. HasFit all.old.items f ⊎ FromSome (CapturedAt name.now place captures.now) inner.now f)) }
{
    for branch in inner {
        add_spans(alloc, all, name, place, captures, branch)?;
    }
    Ok(())
}

/// The same for one branch of the inner fits.
fn add_spans(
    alloc: Global,
    all: &mut Vec<Branch>,
    name: &Name,
    place: usize,
    captures: &[(Name, Span)],
    inner: &Branch,
) -> Result<(), AllocError>
    requires { (j : ℕ) → Has inner.now.1 j → (place ≤ j) × (j ≤ MOST_DOCUMENT_BYTES) }
    ensures { OnOk result (Tells (HasFit all.new.items)
        (λ f. HasFit all.old.items f ⊎ CapturedAt name.now place captures.now inner.now f)) }
{
    let ends = inner.ends();
    for end in ends {
        let span = Span::new(place as u32, *end as u32);
        all.push(spanning(alloc, captures, name, span, inner.captures(), *end)?)?;
    }
    Ok(())
}

/// The branch of one fit of a capture: first what was captured before, then the span, and then what was
/// captured in it.
fn spanning(
    alloc: Global,
    before: &[(Name, Span)],
    name: &Name,
    span: Span,
    inner: &[(Name, Span)],
    end: usize,
) -> Result<Branch, AllocError>
    ensures { IfOk result (λ b. b ≡ (before.now ++ (name.now, span) ∷ inner.now, end ∷ [])) }
{
    let mut captures = Vec::from_slice(alloc, before)?;
    captures.push((*name, span))?;
    captures.extend_from_slice(inner)?;
    let mut ends = Vec::new(alloc);
    ends.push(end)?;
    Ok(Branch { captures, ends })
}
