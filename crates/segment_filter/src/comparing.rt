//! Pairs of sets of states that were compared.
//!
//! A document has few pairs of sets and many positions, so what a comparison told is remembered, in one of 4,096
//! places that its two numbers choose. A pair that finds another in its place takes it.
ghost use Rattle.std.specs.Prelude.{◌≡◌, ◌<◌, ◌↔◌, ℕ, List, length, IfOk, IfSome, IsTrue, Some};
ghost use Rattle.numbered_lists.specs.Numbered.{set_at};
ghost use Rattle.segment_filter.specs.Sets.{HaveShared};
ghost use Rattle.segment_filter.specs.declared.comparing.TheConstants.{PLACES};
ghost use Rattle.segment_filter.specs.Remembered.{AreRemembered, compared};

use crate::dense::DenseTable;
use crate::sharing::share;
use span_core::OutOfMemory;
use std::alloc::Global;

/// How many pairs are remembered at most: each has one place where it may stand.
pub(crate) const PLACES: usize = 4096;

/// Two sets that were compared, by their numbers, and whether they share a state.
#[derive(Clone, Copy)]
struct Compared {
    set: u32,
    other: u32,
    meets: bool,
}

/// What comparing sets of two tables told, as far as it is remembered.
#[derive(Drop)]
pub(crate) struct Comparisons {
    pairs: Vec<Option<Compared>>,
}

impl Comparisons {
    /// Nothing is compared yet.
    pub(crate) fn new(alloc: Global) -> Result<Comparisons, OutOfMemory>
        ensures places { IfOk result (λ c. length c.pairs.items ≡ PLACES) }
        ensures right { IfOk result (λ c. (most : ℕ) (sets others : List (List ℕ)) → AreRemembered most sets others c.pairs.items) }
    {
        let mut pairs = Vec::new(alloc);
        for _ in 0..PLACES {
            pairs.push(None)?;
        }
        Ok(Comparisons { pairs })
    }

    /// Whether a set of one table and one of the other share a state that is at most `most`, which is always the
    /// same. Two sets that are remembered are not compared again.
    #[inline(always)]
    pub(crate) fn meet(
        &mut self,
        most: u32,
        table: &DenseTable<'_>,
        set: u32,
        others: &DenseTable<'_>,
        other: u32,
    ) -> bool
        requires places { length self.old.pairs.items ≡ PLACES }
        requires set { set < length table.now.sets }
        requires other { other < length others.now.sets }
        requires right { AreRemembered most table.now.sets others.now.sets self.old.pairs.items }
        ensures places { length self.new.pairs.items ≡ PLACES }
        ensures right { AreRemembered most table.now.sets others.now.sets self.new.pairs.items }
        ensures meets { IsTrue result ↔ HaveShared most (set_at table.now.sets set) (set_at others.now.sets other) }
    {
        if let Some(meets) = told(self.pairs[place_of(set, other)], set, other) {
            return meets;
        }
        self.compare(most, table, set, others, other)
    }

    /// Compares the two sets, and remembers it.
    #[cold]
    #[inline(never)]
    fn compare(
        &mut self,
        most: u32,
        table: &DenseTable<'_>,
        set: u32,
        others: &DenseTable<'_>,
        other: u32,
    ) -> bool
        requires places { length self.old.pairs.items ≡ PLACES }
        requires set { set < length table.now.sets }
        requires other { other < length others.now.sets }
        requires right { AreRemembered most table.now.sets others.now.sets self.old.pairs.items }
        ensures places { length self.new.pairs.items ≡ PLACES }
        ensures right { AreRemembered most table.now.sets others.now.sets self.new.pairs.items }
        ensures meets { IsTrue result ↔ HaveShared most (set_at table.now.sets set) (set_at others.now.sets other) }
    {
        let states = table.members(set);
        let other_states = others.members(other);
        let meets = share(states, other_states, most);
        self.pairs[place_of(set, other)] = Some(Compared { set, other, meets });
        meets
    }
}

/// Where a pair may stand.
#[inline(always)]
fn place_of(set: u32, other: u32) -> usize
    ensures { result < PLACES }
{
    (set as usize * 1021 + other as usize) % PLACES
}

/// Whether two sets share a state, if it is these that were compared.
#[inline(always)]
fn told(pair: Option<Compared>, set: u32, other: u32) -> Option<bool>
    ensures { IfSome result (λ meets. pair ≡ Some (compared set other meets)) }
{
    match pair {
        Some(pair) => (pair.set == set && pair.other == other).then_some(pair.meets),
        None => None,
    }
}
