//! Sets of names as sets of their numbers.
ghost use Rattle.std.specs.Prelude.{◌≡◌, ℕ, ◌<◌, ◌↔◌, ◌⊎◌, List, IsTrue};
ghost use Rattle.span_core.specs.declared.TheConstants.{MOST_VARIABLES};
ghost use Rattle.span_core.specs.Lists.{Has};
ghost use Rattle.functional_check.specs.Faults.{IsLeastOf};
ghost use Rattle.functional_check.specs.Numbered.{HasNumber, members};

use crate::names::add_one;
use span_core::{MOST_VARIABLES, Name, VarSet};

/// A set of names in one word.
///
/// A name's number is its place, counted from 0, in the set of all names, which each call is given that is told or
/// tells a name. So the least name of a set is that of its lowest bit.
#[derive(Clone, Copy, Debug)]
pub struct NameBits {
    /// Bit `k` says whether the name of the number `k` is in the set.
    bits: u32,
}

impl NameBits {
    /// No name.
    pub fn empty() -> NameBits
        ensures { (k : ℕ) → ¬ HasNumber result k }
    {
        NameBits { bits: 0 }
    }

    /// The name of this number.
    pub fn single(number: usize) -> NameBits
        requires { number < MOST_VARIABLES }
        ensures { (k : ℕ) → HasNumber result k ↔ (k ≡ number) }
    {
        NameBits { bits: 1 << number }
    }

    /// This name, where it is one of all names, and else no name.
    pub fn of(name: &Name, names: &VarSet) -> NameBits
        ensures { (x : List ℕ) → Has (members names.now result) x ↔ ((name.now ≡ x) × Has names.now x) }
    {
        prove!(names.len() <= MOST_VARIABLES);
        match names.find(name) {
            Some(number) => NameBits::single(number),
            None => NameBits::empty(),
        }
    }

    /// The names of either set.
    pub fn union(self, other: NameBits) -> NameBits
        ensures { (k : ℕ) → HasNumber result k ↔ (HasNumber self k ⊎ HasNumber other k) }
    {
        NameBits {
            bits: self.bits | other.bits,
        }
    }

    /// The names of both sets.
    pub fn meet(self, other: NameBits) -> NameBits
        ensures { (k : ℕ) → HasNumber result k ↔ (HasNumber self k × HasNumber other k) }
    {
        NameBits {
            bits: self.bits & other.bits,
        }
    }

    /// The names of this set that are not in the other.
    pub fn without(self, other: NameBits) -> NameBits
        ensures { (k : ℕ) → HasNumber result k ↔ (HasNumber self k × ¬ HasNumber other k) }
    {
        NameBits {
            bits: self.bits & !other.bits,
        }
    }

    /// Whether a name is in the set.
    pub fn has(self, name: &Name, names: &VarSet) -> bool
        ensures { IsTrue result ↔ Has (members names.now self) name.now }
    {
        prove!(names.len() <= MOST_VARIABLES);
        match names.find(name) {
            Some(number) => (self.bits >> number) & 1 == 1,
            None => false,
        }
    }

    /// The least name of the set.
    pub fn least(self, names: &VarSet) -> Option<Name>
        ensures { IsLeastOf (Has (members names.now self)) result }
    {
        if self.bits == 0 {
            return None;
        }
        let number = self.bits.trailing_zeros() as usize;
        if number < names.len() {
            Some(*names.at(number))
        } else {
            None
        }
    }

    /// The names of the set, as a set of their own.
    pub fn listed(self, names: &VarSet) -> VarSet
        ensures { (x : List ℕ) → Has result x ↔ Has (members names.now self) x }
    {
        let mut listed = VarSet::empty();
        for k in 0..names.len() {
            let name = names.at(k);
            if self.has(name, names) {
                add_one(name, &mut listed);
            }
        }
        listed
    }
}
