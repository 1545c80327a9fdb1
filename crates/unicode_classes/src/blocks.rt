//! Formulas of byte strings of one length.
//!
//! A byte string of a first byte and `tails` continuation bytes is given by a number: its first byte
//! is a base and the number's digit of highest value, and each other byte is 80 and a digit, where
//! digits are those to the base 64.
ghost use Rattle.std.specs.Prelude.{◌≡◌, ℕ, ◌+◌, ◌*◌, ◌/◌, ◌^◌, ◌<◌, ◌≤◌, ◌↔◌, List, suc, IfOk, OnOk};
ghost use Rattle.span_core.specs.Intervals.{Covers, AreApart};
ghost use Rattle.spanner_model.specs.View.{tree_of};
ghost use Rattle.unicode_classes.specs.Joined.{IsBlockText};
ghost use Rattle.unicode_classes.specs.ClassTree.{IsTreeOf, IsByteIn};
ghost use Rattle.unicode_classes.specs.Grouped.{IsPut, AreGrouped};

use crate::arms::{Arms, alternation_of, pair, with_arm};
use crate::ranges::{are_equal, part_of};
use span_core::{ByteSet, OutOfMemory, Touched};
use spanner_model::Formula;
use std::alloc::Global;

/// First bytes, and the numbers of the tails that follow each of them.
#[derive(Drop)]
pub(crate) struct TailGroup {
    bytes: ByteSet,
    tails: Touched,
}

/// The formula of the byte strings of the numbers in these ranges.
pub(crate) fn block_formula(
    alloc: Global,
    base: u8,
    tails: u8,
    ranges: &[(u32, u32)],
) -> Result<Formula, OutOfMemory>
    requires tails { tails ≤ 3 }
    requires apart { AreApart ranges.now }
    requires few { 0 < tails → (v : ℕ) → Covers ranges.now v → v < 64 * 64 ^ tails }
    requires bytes { (v : ℕ) → Covers ranges.now v → base + v / 64 ^ tails < 256 }
    ensures { IfOk result (λ f. IsTreeOf tails (IsBlockText base tails ranges.now) (tree_of f)) }
{
    if tails == 0 {
        return Ok(Formula::One(single_bytes(base, ranges)));
    }
    let groups = grouped(alloc, base, unit_of(tails), ranges)?;
    let mut arms = Arms::None;
    for group in &groups {
        let rest = block_formula(alloc, 0x80, tails - 1, group.tails.parts())?;
        let both = pair(alloc, Formula::One(group.bytes), rest)?;
        arms = with_arm(alloc, arms, Formula::Cat(both))?;
    }
    Ok(alternation_of(alloc, arms))
}

/// How many numbers share their digit of highest value, where so many digits follow it.
fn unit_of(tails: u8) -> u32
    requires { tails ≤ 3 }
    ensures { result ≡ 64 ^ tails }
{
    match tails {
        0 => 1,
        1 => 0x40,
        2 => 0x1000,
        _ => 0x4_0000,
    }
}

/// The base and each number.
fn single_bytes(base: u8, ranges: &[(u32, u32)]) -> ByteSet
    requires apart { AreApart ranges.now }
    requires bytes { (v : ℕ) → Covers ranges.now v → base + v < 256 }
    ensures { (b : ℕ) → IsByteIn result b ↔ ((v : ℕ) × Covers ranges.now v × (base + v ≡ b)) }
{
    let mut bytes = ByteSet::empty();
    for range in ranges {
        let lo = base + range.0 as u8;
        let hi = base + range.1 as u8;
        bytes = bytes.union(&ByteSet::range(lo, hi));
    }
    bytes
}

/// The first bytes by equal tails, in the order of the least byte of each group. `unit` numbers share
/// a first byte.
fn grouped(
    alloc: Global,
    base: u8,
    unit: u32,
    ranges: &[(u32, u32)],
) -> Result<Vec<TailGroup>, OutOfMemory>
    requires positive { 0 < unit }
    requires unit { unit ≤ 262144 }
    requires apart { AreApart ranges.now }
    requires bytes { (v : ℕ) → Covers ranges.now v → base + v / unit < 256 }
    ensures { IfOk result (λ groups. AreGrouped base unit ranges.now 64 groups.items) }
{
    let mut groups: Vec<TailGroup> = Vec::new(alloc);
    for digit in 0..64u8 {
        let from = u32::from(digit) * unit;
        let tails = part_of(alloc, ranges, from, from + unit, from)?;
        if !tails.parts().is_empty() {
            put(&mut groups, base + digit, tails)?;
        }
    }
    Ok(groups)
}

/// Adds a first byte to the group that has its tails, or a group of its own.
fn put(groups: &mut Vec<TailGroup>, byte: u8, tails: Touched) -> Result<(), OutOfMemory>
    ensures { OnOk result (IsPut byte tails groups.old.items groups.new.items) }
{
    for k in 0..groups.len() {
        if are_equal(groups[k].tails.parts(), tails.parts()) {
            groups[k].bytes = groups[k].bytes.union(&ByteSet::single(byte));
            return Ok(());
        }
    }
    groups.push(TailGroup {
        bytes: ByteSet::single(byte),
        tails,
    })?;
    Ok(())
}
