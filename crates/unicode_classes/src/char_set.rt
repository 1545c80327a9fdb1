//! Sets of characters.
ghost use Rattle.std.specs.Prelude.{◌≡◌, ℕ, ◌+◌, ◌*◌, ◌/◌, ◌^◌, ◌≤◌, ◌<◌, ◌↔◌, ◌⊎◌, [], IsTrue, IfOk, OnOk, OnErr, MatchOption};
ghost use Rattle.std.specs.Char.{IsScalar};
ghost use Rattle.span_core.specs.Intervals.{Covers, AreApart};
ghost use Rattle.spanner_model.specs.View.{tree_of};
ghost use Rattle.unicode_classes.specs.Texts.{FitsTexts, IsText, AreCharacters};
ghost use Rattle.unicode_classes.specs.Arms.{arm_trees, AreProper, IsWithBlock};
ghost use Rattle.unicode_classes.specs.ClassTree.{IsClassTree, IsPlain};
ghost use Rattle.unicode_classes.specs.Properties.{IsProperty, IsPropertyName};

use crate::arms::{Arms, alternation_of, with_arm};
use crate::blocks::block_formula;
use crate::properties::property_set;
use crate::ranges::{gaps, part_of, push_characters};
use span_core::{OutOfMemory, Touched};
use spanner_model::Formula;
use std::alloc::Global;
use std::marker::Model;

/// A set of characters, seen as the ranges of their numbers: they ascend, and between two of them
/// lies a number that is in neither.
#[derive(Drop)]
pub struct CharSet {
    alloc: Global,
    ranges: Touched,
}

impl Model for CharSet {
    ghost use Rattle.std.specs.Prelude.{List, ℕ};

    ghost Value = { List (ℕ × ℕ) };

    ghost use Rattle.unicode_classes.specs.Texts.{AreCharacters};

    ghost view = { λ s. s.ranges };

    ghost invariant = { λ s. AreCharacters s.ranges };
}

impl CharSet {
    /// No character. Takes no memory.
    pub fn none(alloc: Global) -> CharSet
        ensures { result ≡ [] }
    {
        CharSet {
            alloc,
            ranges: Touched::new(alloc),
        }
    }

    /// The set of a name: `Alphabetic`, the short name of a general category, as `Lu`, but for `Cs`, which
    /// is that of surrogates, or the letter that several short names begin with, as `L`. None where it is
    /// no such name. Letter case counts.
    pub fn property(alloc: Global, name: &[u8]) -> Result<Option<CharSet>, OutOfMemory>
        ensures { IfOk result (λ found. MatchOption found (¬ IsPropertyName name.now) (λ s. IsProperty name.now s)) }
    {
        property_set(alloc, name)
    }

    /// The set of these ranges.
    pub(crate) fn of(alloc: Global, ranges: Touched) -> CharSet
        requires { AreCharacters ranges }
        ensures { result ≡ ranges }
    {
        CharSet { alloc, ranges }
    }

    /// Adds the characters from `lo` to `hi`, both included. Where there is no memory, the set is
    /// unchanged.
    pub fn add(&mut self, lo: char, hi: char) -> Result<(), OutOfMemory>
        requires { lo ≤ hi }
        ensures ok { OnOk result ((c : ℕ) → Covers self.new c ↔ (Covers self.old c ⊎ (IsScalar c × (lo ≤ c) × (c ≤ hi)))) }
        ensures err { OnErr result (self.new ≡ self.old) }
    {
        let mut added = Touched::new(self.alloc);
        push_characters(&mut added, u32::from(lo), u32::from(hi))?;
        self.ranges = self.ranges.merge(self.alloc, &added)?;
        Ok(())
    }

    /// Adds the characters of another set. Where there is no memory, the set is unchanged.
    pub fn merge(&mut self, other: &CharSet) -> Result<(), OutOfMemory>
        ensures ok { OnOk result ((c : ℕ) → Covers self.new c ↔ (Covers self.old c ⊎ Covers other.now c)) }
        ensures err { OnErr result (self.new ≡ self.old) }
    {
        self.ranges = self.ranges.merge(self.alloc, &other.ranges)?;
        Ok(())
    }

    /// The characters that are not in the set.
    pub fn negation(&self, alloc: Global) -> Result<CharSet, OutOfMemory>
        ensures { IfOk result (λ s. (c : ℕ) → Covers s c ↔ (IsScalar c × (Covers self.now c → ⊥))) }
    {
        let ranges = gaps(alloc, self.ranges.parts())?;
        Ok(CharSet { alloc, ranges })
    }

    /// Whether no character is in the set.
    pub fn is_empty(&self) -> bool
        ensures { IsTrue result ↔ (self.now ≡ []) }
    {
        self.ranges.parts().is_empty()
    }

    /// The ranges of the characters' numbers, in order: of each the first and the last.
    pub fn ranges(&self) -> &[(u32, u32)]
        ensures value { result.now ≡ self.now }
        ensures apart { AreApart self.now }
        ensures characters { AreCharacters self.now }
    {
        self.ranges.parts()
    }

    /// The formula that fits the UTF-8 texts of the characters, and nothing else. It captures nothing.
    pub fn tree(&self, alloc: Global) -> Result<Formula, OutOfMemory>
        requires { ¬ (self.now ≡ []) }
        ensures fits { IfOk result (λ f. FitsTexts (tree_of f) (IsText self.now)) }
        ensures shape { IfOk result (λ f. IsClassTree self.now (tree_of f)) }
        ensures plain { IfOk result (λ f. IsPlain (tree_of f)) }
    {
        let ranges = self.ranges.parts();
        let one = part_of(alloc, ranges, 0, 0x80, 0)?;
        let arms = with_block(alloc, Arms::None, 0, 0, &one)?;
        let two = part_of(alloc, ranges, 0x80, 0x800, 0)?;
        let arms = with_block(alloc, arms, 0xC0, 1, &two)?;
        let three = part_of(alloc, ranges, 0x800, 0x1_0000, 0)?;
        let arms = with_block(alloc, arms, 0xE0, 2, &three)?;
        let four = part_of(alloc, ranges, 0x1_0000, 0x11_0000, 0)?;
        let arms = with_block(alloc, arms, 0xF0, 3, &four)?;
        Ok(alternation_of(alloc, arms))
    }
}

/// The arms, with one more for the numbers of these ranges where there are any.
fn with_block(
    alloc: Global,
    arms: Arms,
    base: u8,
    tails: u8,
    set: &Touched,
) -> Result<Arms, OutOfMemory>
    requires proper { AreProper arms }
    requires tails { tails ≤ 3 }
    requires few { 0 < tails → (v : ℕ) → Covers set.now v → v < 64 * 64 ^ tails }
    requires bytes { (v : ℕ) → Covers set.now v → base + v / 64 ^ tails < 256 }
    ensures block { IfOk result (λ new. IsWithBlock base tails set.now (arm_trees arms) (arm_trees new)) }
    ensures proper { IfOk result (λ new. AreProper new) }
{
    let ranges = set.parts();
    if ranges.is_empty() {
        return Ok(arms);
    }
    let formula = block_formula(alloc, base, tails, ranges)?;
    with_arm(alloc, arms, formula)
}
