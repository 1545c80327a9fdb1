//! The numbers of what stands between a formula's places and at its ends, without the places.
//!
//! Sides and ways of a part are counted from those of its parts by the rules of the construction, in numbers
//! that stop at 2^64 - 1: sums and products that stop there tell the least of the true number and the greatest.
ghost use Rattle.std.specs.Prelude.{◌≡◌, ◌↔◌, ◌<◌, ℕ, ◌+◌, ◌-◌, ◌*◌, Some, length, IfOk, IsTrue, if◌then◌else◌};
ghost use Rattle.place_automaton.specs.declared.TheConstants.{MOST_SETS};
ghost use Rattle.span_core.specs.Lists.{AreDistinct, Has};
ghost use Rattle.place_automaton.specs.Capped.{AreCapped, capped};
ghost use Rattle.place_automaton.specs.Counts.{PlaceCounts, counts_nothing, counts_never, counts_one, counts_cat, counts_alt, counts_opt, counts_plus, counts_cap, counts_copies, counts_at_most, counts_repeated, ways_of};
ghost use Rattle.place_automaton.specs.Sides.{JoinAsSum};
ghost use Rattle.place_automaton.specs.Places.{add_once, sums};

use crate::MOST_SETS;
use crate::null_sets::{
    add_unless_there, copied_sets, either_of, joined_with, mark_each, only_none,
};
use span_core::{Marks, OutOfMemory};
use std::alloc::Global;

/// The numbers of a part of a formula. A number past 2^64 - 1 is kept as 2^64 - 1.
#[derive(Drop)]
pub(crate) struct Numbers {
    /// The sets of markers with which the empty string fits.
    pub(crate) null: Vec<Marks>,
    /// The ways into the places that a match may begin with.
    pub(crate) first: u64,
    /// The ends of the places that a match may end with.
    pub(crate) last: u64,
    /// The ways from a place to one that may follow it.
    pub(crate) follow: u64,
}

impl Numbers {
    /// Those of the empty formula.
    pub(crate) fn nothing(alloc: Global) -> Result<Numbers, OutOfMemory>
        ensures { IfOk result (λ n. AreCapped counts_nothing n) }
    {
        Ok(Numbers {
            null: only_none(alloc)?,
            first: 0,
            last: 0,
            follow: 0,
        })
    }

    /// Those of an alternation of no arms.
    pub(crate) fn never(alloc: Global) -> Numbers
        ensures { AreCapped counts_never result }
    {
        Numbers {
            null: Vec::new(alloc),
            first: 0,
            last: 0,
            follow: 0,
        }
    }

    /// Those of one byte.
    pub(crate) fn one(alloc: Global) -> Numbers
        ensures { AreCapped counts_one result }
    {
        Numbers {
            null: Vec::new(alloc),
            first: 1,
            last: 1,
            follow: 0,
        }
    }

    /// Those of this once more.
    fn again(&self, alloc: Global) -> Result<Numbers, OutOfMemory>
        ensures null { IfOk result (λ c. c.null.items ≡ self.now.null.items) }
        ensures capped { (a : PlaceCounts) → AreCapped a self.now → IfOk result (λ c. AreCapped a c) }
    {
        Ok(Numbers {
            null: copied_sets(alloc, &self.null)?,
            first: self.first,
            last: self.last,
            follow: self.follow,
        })
    }

    /// Whether more sets are there than are listed.
    pub(crate) fn has_large_null(&self) -> bool
        ensures { IsTrue result ↔ (MOST_SETS < length self.now.null.items) }
    {
        self.null.len() > MOST_SETS
    }

    /// Whether the sets of this, each joined with each of the rest, are more than are listed.
    pub(crate) fn has_large_join(&self, rest: &Numbers) -> bool
        ensures { IsTrue result ↔ (MOST_SETS < length self.now.null.items * length rest.now.null.items) }
    {
        self.null.len().saturating_mul(rest.null.len()) > MOST_SETS
    }

    /// Those of a concatenation of this and the rest.
    pub(crate) fn cat(self, alloc: Global, rest: Numbers) -> Result<Numbers, OutOfMemory>
        requires { (m n : ℕ) → Has self.null.items m → Has rest.null.items n → JoinAsSum m n }
        ensures null { IfOk result (λ c. c.null.items ≡ sums self.null.items rest.null.items) }
        ensures capped { (a b : PlaceCounts) → AreCapped a self → AreCapped b rest → IfOk result (λ c. AreCapped (counts_cat a b) c) }
    {
        let sets = self.null.len() as u64;
        let rest_sets = rest.null.len() as u64;
        let between = self.last.saturating_mul(rest.first);
        let null = joined_with(alloc, self.null, rest.null)?;
        Ok(Numbers {
            null,
            first: self.first.saturating_add(sets.saturating_mul(rest.first)),
            last: rest
                .last
                .saturating_add(rest_sets.saturating_mul(self.last)),
            follow: self
                .follow
                .saturating_add(rest.follow)
                .saturating_add(between),
        })
    }

    /// Those of an alternation of this and the rest.
    pub(crate) fn alt(self, rest: Numbers) -> Result<Numbers, OutOfMemory>
        requires { AreDistinct self.null.items }
        ensures { (a b : PlaceCounts) → AreCapped a self → AreCapped b rest → IfOk result (λ c. AreCapped (counts_alt a b) c) }
    {
        let null = either_of(self.null, rest.null)?;
        Ok(Numbers {
            null,
            first: self.first.saturating_add(rest.first),
            last: self.last.saturating_add(rest.last),
            follow: self.follow.saturating_add(rest.follow),
        })
    }

    /// Those of this or nothing.
    pub(crate) fn opt(self) -> Result<Numbers, OutOfMemory>
        ensures null { IfOk result (λ c. c.null.items ≡ add_once 0 self.null.items) }
        ensures capped { (a : PlaceCounts) → AreCapped a self → IfOk result (λ c. AreCapped (counts_opt a) c) }
    {
        let mut null = self.null;
        add_unless_there(Marks::none(), &mut null)?;
        Ok(Numbers {
            null,
            first: self.first,
            last: self.last,
            follow: self.follow,
        })
    }

    /// Those of this, or of nothing too if that may be.
    pub(crate) fn opt_if(self, optional: bool) -> Result<Numbers, OutOfMemory>
        ensures { (a : PlaceCounts) → AreCapped a self → IfOk result (λ c. AreCapped (if optional then counts_opt a else a) c) }
    {
        if optional { self.opt() } else { Ok(self) }
    }

    /// Those of this, once or more.
    pub(crate) fn plus(&self, alloc: Global) -> Result<Numbers, OutOfMemory>
        ensures null { IfOk result (λ c. c.null.items ≡ self.now.null.items) }
        ensures capped { (a : PlaceCounts) → AreCapped a self.now → IfOk result (λ c. AreCapped (counts_plus a) c) }
    {
        let between = self.last.saturating_mul(self.first);
        Ok(Numbers {
            null: copied_sets(alloc, &self.null)?,
            first: self.first,
            last: self.last,
            follow: self.follow.saturating_add(between),
        })
    }

    /// Those of this in a capture with these markers.
    pub(crate) fn captured(self, both: Marks) -> Numbers
        requires { (m : ℕ) → Has self.null.items m → JoinAsSum both m }
        ensures { (a : PlaceCounts) → AreCapped a self → AreCapped (counts_cap both a) result }
    {
        let mut null = self.null;
        mark_each(both, &mut null);
        Numbers {
            null,
            first: self.first,
            last: self.last,
            follow: self.follow,
        }
    }

    /// Those of so many copies of this, and then the rest. No marker stands in them.
    fn copies(&self, alloc: Global, count: u16, rest: Numbers) -> Result<Numbers, OutOfMemory>
        requires bare { (m : ℕ) → Has self.now.null.items m → m ≡ 0 }
        requires bare_rest { (m : ℕ) → Has rest.null.items m → m ≡ 0 }
        ensures { (a b : PlaceCounts) → AreCapped a self.now → AreCapped b rest → IfOk result (λ c. AreCapped (counts_copies count a b) c) }
    {
        let mut numbers = rest;
        for _copy in 0..count {
            numbers = self.again(alloc)?.cat(alloc, numbers)?;
        }
        Ok(numbers)
    }

    /// Those of so many copies of this at most. No marker stands in them.
    fn at_most(&self, alloc: Global, count: u16) -> Result<Numbers, OutOfMemory>
        requires { (m : ℕ) → Has self.now.null.items m → m ≡ 0 }
        ensures bare { IfOk result (λ c. (m : ℕ) → Has c.null.items m → m ≡ 0) }
        ensures capped { (a : PlaceCounts) → AreCapped a self.now → IfOk result (λ c. AreCapped (counts_at_most count a) c) }
    {
        let mut numbers = Numbers::nothing(alloc)?;
        for _copy in 0..count {
            numbers = self.again(alloc)?.cat(alloc, numbers)?.opt()?;
        }
        Ok(numbers)
    }

    /// Those of a repetition of this. No marker stands in it.
    pub(crate) fn repeated(
        &self,
        alloc: Global,
        least: u16,
        most: Option<u16>,
    ) -> Result<Numbers, OutOfMemory>
        requires { (m : ℕ) → Has self.now.null.items m → m ≡ 0 }
        ensures { (a : PlaceCounts) → AreCapped a self.now → IfOk result (λ c. AreCapped (counts_repeated least most a) c) }
    {
        match most {
            None if least == 0 => self.plus(alloc)?.opt(),
            None => {
                let plus = self.plus(alloc)?;
                self.copies(alloc, least - 1, plus)
            }
            Some(most) => {
                let optional = self.at_most(alloc, most.saturating_sub(least))?;
                self.copies(alloc, least, optional)
            }
        }
    }

    /// The ways of the automaton of an atom with this formula.
    pub(crate) fn ways(&self, from_start: bool, to_end: bool) -> u64
        ensures { (a : PlaceCounts) → AreCapped a self.now → result ≡ capped (ways_of from_start to_end a) }
    {
        let mut ways = self.first.saturating_add(self.follow);
        if !from_start {
            ways = ways.saturating_add(1);
        }
        if !to_end {
            ways = ways
                .saturating_add(self.last)
                .saturating_add(self.null.len() as u64)
                .saturating_add(1);
        }
        ways
    }

    /// How many ends the automaton of an atom with this formula has, but for that of After.
    pub(crate) fn ends(&self) -> u64
        ensures { (a : PlaceCounts) → AreCapped a self.now → result ≡ capped (a.last + length a.null) }
    {
        self.last.saturating_add(self.null.len() as u64)
    }
}
