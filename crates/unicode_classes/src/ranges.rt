//! Ranges of numbers.
ghost use Rattle.std.specs.Prelude.{◌≡◌, ℕ, ◌+◌, ◌≤◌, ◌<◌, ◌↔◌, ◌⊎◌, IfOk, OnOk, IsTrue};
ghost use Rattle.std.specs.Char.{IsScalar};
ghost use Rattle.span_core.specs.Intervals.{Covers, AreApart};
ghost use Rattle.span_core.specs.IntervalSteps.{StartUpTo};
ghost use Rattle.unicode_classes.specs.Texts.{AreCharacters, IsPartOf};

use span_core::{OutOfMemory, Touched};
use std::alloc::Global;

/// Adds the characters from `lo` to `hi`, where no range of the set starts after `lo`. There are
/// none where `hi` is below `lo`.
pub(crate) fn push_characters(set: &mut Touched, lo: u32, hi: u32) -> Result<(), OutOfMemory>
    requires { StartUpTo set.old lo }
    ensures ok { OnOk result ((c : ℕ) → Covers set.new c ↔ (Covers set.old c ⊎ (IsScalar c × (lo ≤ c) × (c ≤ hi)))) }
    ensures start { OnOk result ((at : ℕ) → lo ≤ at → hi ≤ at → StartUpTo set.new at) }
{
    let below = hi.min(0xD7FF);
    if lo <= below {
        set.extend(lo, below)?;
    }
    let above = lo.max(0xE000);
    let last = hi.min(0x10_FFFF);
    if above <= last {
        set.extend(above, last)?;
    }
    Ok(())
}

/// The characters that lie in none of the ranges.
pub(crate) fn gaps(alloc: Global, ranges: &[(u32, u32)]) -> Result<Touched, OutOfMemory>
    requires apart { AreApart ranges.now }
    requires characters { AreCharacters ranges.now }
    ensures { IfOk result (λ s. (c : ℕ) → Covers s c ↔ (IsScalar c × (Covers ranges.now c → ⊥))) }
{
    let mut set = Touched::new(alloc);
    let mut next = 0;
    for range in ranges {
        if next < range.0 {
            push_characters(&mut set, next, range.0 - 1)?;
        }
        next = range.1 + 1;
    }
    push_characters(&mut set, next, 0x10_FFFF)?;
    Ok(set)
}

/// The numbers of the ranges from `from` on and below `end`, counted from `origin`.
pub(crate) fn part_of(
    alloc: Global,
    ranges: &[(u32, u32)],
    from: u32,
    end: u32,
    origin: u32,
) -> Result<Touched, OutOfMemory>
    requires apart { AreApart ranges.now }
    requires some { from < end }
    requires origin { origin ≤ from }
    ensures { IfOk result (λ s. (q : ℕ) → Covers s q ↔ IsPartOf ranges.now from end (origin + q)) }
{
    let mut set = Touched::new(alloc);
    for range in ranges {
        let lo = range.0.max(from);
        let hi = range.1.min(end - 1);
        if lo <= hi {
            set.extend(lo - origin, hi - origin)?;
        }
    }
    Ok(set)
}

/// Whether two lists of ranges are equal.
pub(crate) fn are_equal(a: &[(u32, u32)], b: &[(u32, u32)]) -> bool
    ensures { IsTrue result ↔ (a.now ≡ b.now) }
{
    a == b
}
