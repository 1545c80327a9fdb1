//! The pairs of states of a join, and the ways between them.
ghost use Rattle.std.specs.Prelude.{◌≡◌, ℕ, ◌+◌, ◌-◌, ◌*◌, ◌<◌, ◌≤◌, ◌^◌, ◌⊎◌, ◌++◌, List, [], ◌∷◌, length, slice_get, Some, OnOk, IfOk, IfErr};
ghost use Rattle.span_core.specs.Lists.{AreDistinct, Has};
ghost use Rattle.marked_automaton.specs.declared.TheConstants.{MOST_STATES, MOST_WAYS};
ghost use Rattle.marked_automaton.specs.Faults.{IsSizeFaultWithin};
ghost use Rattle.algebra.specs.Joining.{IsSpentOn};
ghost use Rattle.algebra.specs.Sides.{IsJoinable, IsProductRefusal, IsSearchOf, IsSearchRefusal, IsFollowRefusal, IsTold, half_ways_of, ways_of_all};
ghost use Rattle.algebra.specs.Pairs.{AreRowsOf, AreStarted, ArePairsWithin, HaveSmallMarks, IsFollowed, IsRefusalOf, IsStartRefusal, half_from, pair_of, pairs, tried_at, way_pair, ways_meet, ways_with};

use crate::effort::Effort;
use crate::fault::JoinFault;
use crate::halves::{HalfWay, Operand, put_half_ways};
use indexmap::IndexSet;
use marked_automaton::{Automaton, MOST_STATES, MOST_WAYS, SizeFault, Way};
use span_core::{Marks, OutOfMemory};
use std::alloc::Global;

/// A state of each side.
#[derive(Clone, Copy, Debug, PartialEq, Eq, Hash)]
pub(crate) struct Pair {
    pub(crate) left: u32,
    pub(crate) right: u32,
}

/// All pairs that are reached from pairs of starts, numbered in the order in which they were found, and the ways
/// between them.
#[derive(Drop)]
pub(crate) struct ReachedPairs {
    pub(crate) found: IndexSet<Pair>,
    pub(crate) ways: Vec<Way>,
    /// So many of the first pairs are those of starts, and no others are.
    pub(crate) starts: u32,
}

/// The pairs that are found, numbered in the order in which they were, and the ways from those that are
/// followed.
#[derive(Drop)]
struct Search {
    found: IndexSet<Pair>,
    ways: Vec<Way>,
}

/// The ways at the two states of a pair, as those of a join's sides. They are made for one pair after the
/// other, in the same memory.
#[derive(Drop)]
struct Rows {
    left: Vec<HalfWay>,
    right: Vec<HalfWay>,
}

/// All pairs that are reached from pairs of starts, and the ways between them. Where the effort is used up, it is
/// refused.
pub(crate) fn searched(
    alloc: Global,
    left: &Operand<'_>,
    right: &Operand<'_>,
    effort: &mut Effort,
) -> Result<ReachedPairs, JoinFault>
    requires left { IsJoinable left.now }
    requires right { IsJoinable right.now }
    requires marks { HaveSmallMarks (half_ways_of left.now) (half_ways_of right.now) }
    ensures searched { IfOk result (λ r. IsSearchOf left.now right.now r.found.keys r.starts r.ways.items) }
    ensures fault { IfErr result (IsTold (IsSearchRefusal left.now right.now)) }
    ensures effort { effort.new ≤ effort.old }
    ensures spent { IfErr result (IsSpentOn effort.old (3 * (length (half_ways_of left.now) * length (half_ways_of right.now)))) }
    ensures steps { OnOk result (effort.old ≤ effort.new + 3 * (length (half_ways_of left.now) * length (half_ways_of right.now))) }
{
    let mut search = Search::new(alloc);
    search.find_all(left.automaton.starts(), right.automaton.starts())?;
    let starts = search.found.len() as u32;
    search.follow_all(alloc, left, right, effort)?;
    let Search { found, ways } = search;
    Ok(ReachedPairs {
        found,
        ways,
        starts,
    })
}

/// Refuses what may have too many pairs of states.
fn fit_in_pairs(a: &Automaton, b: &Automaton) -> Result<(), SizeFault>
    ensures few { OnOk result (a.now.graph.states * b.now.graph.states ≤ MOST_STATES) }
    ensures fault { IfErr result (IsProductRefusal a.now.graph b.now.graph) }
{
    let count = u64::from(a.states()) * u64::from(b.states());
    if count > u64::from(MOST_STATES) {
        return Err(SizeFault::States { count });
    }
    Ok(())
}

impl Rows {
    /// Makes the rows of this pair, in the place of those that were there. Where one of its states has no
    /// ways, those of the other are left out.
    fn put(
        &mut self,
        pair: Pair,
        left: &Operand<'_>,
        right: &Operand<'_>,
    ) -> Result<(), OutOfMemory>
        requires left { IsJoinable left.now }
        requires right { IsJoinable right.now }
        ensures rows { OnOk result (AreRowsOf (half_ways_of left.now) (half_ways_of right.now) pair self.new.left.items
            self.new.right.items) }
        ensures few { OnOk result ((length self.new.left.items ≤ MOST_WAYS) × (length self.new.right.items ≤ MOST_WAYS)) }
        ensures steps { OnOk result (length self.new.left.items * length self.new.right.items + length
            self.new.left.items + length self.new.right.items
            ≤ 3 * length (tried_at half_from half_from (half_ways_of left.now) (half_ways_of right.now) pair)) }
    {
        left.automaton.is_marked();
        right.automaton.is_marked();
        let lefts = left.automaton.ways_from(pair.left);
        let rights = right.automaton.ways_from(pair.right);
        if lefts.is_empty() || rights.is_empty() {
            self.left.clear();
            self.right.clear();
            return Ok(());
        }
        put_half_ways(
            &mut self.left,
            lefts,
            left.own.as_slice(),
            left.shared.as_slice(),
        )?;
        put_half_ways(
            &mut self.right,
            rights,
            right.own.as_slice(),
            right.shared.as_slice(),
        )?;
        Ok(())
    }

    /// The steps that it takes to try these: one for each two that may go together, and one for each that
    /// was made.
    fn steps(&self) -> u64
        requires left { length self.now.left.items ≤ MOST_WAYS }
        requires right { length self.now.right.items ≤ MOST_WAYS }
        ensures { result ≡ length self.now.left.items * length self.now.right.items + length self.now.left.items +
            length self.now.right.items }
    {
        let lefts = self.left.len() as u64;
        let rights = self.right.len() as u64;
        lefts * rights + lefts + rights
    }
}

impl Search {
    /// Nothing is found.
    fn new(alloc: Global) -> Search
        ensures found { result.found.keys ≡ [] }
        ensures ways { result.ways.items ≡ [] }
    {
        Search {
            found: IndexSet::new(alloc),
            ways: Vec::new(alloc),
        }
    }

    /// Finds all pairs of these states.
    fn find_all(&mut self, lefts: &[u32], rights: &[u32]) -> Result<(), SizeFault>
        ensures started { OnOk result (AreStarted lefts.now rights.now self.old.found.keys self.new.found.keys) }
        ensures ways { self.new.ways.items ≡ self.old.ways.items }
        ensures fault { IfErr result (λ e. IsStartRefusal lefts.now rights.now self.old.found.keys e) }
    {
        for left in lefts {
            self.find_with(*left, rights)?;
        }
        Ok(())
    }

    /// Finds the pairs of this state of the first side and of these of the second.
    fn find_with(&mut self, left: u32, rights: &[u32]) -> Result<(), SizeFault>
        ensures started { OnOk result (AreStarted (left ∷ []) rights.now self.old.found.keys self.new.found.keys) }
        ensures ways { self.new.ways.items ≡ self.old.ways.items }
        ensures fault { IfErr result (λ e. IsStartRefusal (left ∷ []) rights.now self.old.found.keys e) }
    {
        for right in rights {
            self.number_of(Pair {
                left,
                right: *right,
            })?;
        }
        Ok(())
    }

    /// Follows each pair that is found, also those that are found meanwhile. The steps of a pair are taken
    /// from the effort before its ways are tried. Where none is left then, it is refused: by the states if
    /// there may be too many pairs of them, and else for want of memory.
    fn follow_all(
        &mut self,
        alloc: Global,
        left: &Operand<'_>,
        right: &Operand<'_>,
        effort: &mut Effort,
    ) -> Result<(), JoinFault>
        requires left { IsJoinable left.now }
        requires right { IsJoinable right.now }
        requires marks { HaveSmallMarks (half_ways_of left.now) (half_ways_of right.now) }
        requires few { length self.old.found.keys ≤ MOST_STATES }
        ensures apart { OnOk result (AreDistinct self.new.found.keys) }
        ensures followed { OnOk result
            (IsFollowed (ways_of_all left.now right.now self.new.found.keys) self.old.found.keys self.old.ways.items
            self.new.found.keys self.new.ways.items) }
        ensures fault { IfErr result (IsTold (IsFollowRefusal left.now right.now self.old.found.keys self.old.ways.items)) }
        ensures effort { effort.new ≤ effort.old }
        ensures spent { IfErr result (IsSpentOn effort.old (3 * (length (half_ways_of left.now) * length (half_ways_of right.now)))) }
        ensures steps { OnOk result (effort.old ≤ effort.new + 3 * (length (half_ways_of left.now) * length (half_ways_of right.now))) }
    {
        let mut rows = Rows {
            left: Vec::new(alloc),
            right: Vec::new(alloc),
        };
        let mut done = 0;
        while done < self.found.len() {
            let pair = self.found.as_slice()[done];
            rows.put(pair, left, right)?;
            effort.spend(rows.steps());
            if effort.is_spent() {
                fit_in_pairs(left.automaton, right.automaton)?;
                return Err(JoinFault::Spent);
            }
            self.follow_pair(done as u32, rows.left.as_slice(), rows.right.as_slice())?;
            done += 1;
        }
        Ok(())
    }

    /// The number of a pair, which is found now if it was not.
    fn number_of(&mut self, pair: Pair) -> Result<u32, SizeFault>
        ensures number { IfOk result (λ i. slice_get self.new.found.keys i ≡ Some pair) }
        ensures grows { OnOk result ((found : List Pair) × (self.new.found.keys ≡ self.old.found.keys ++ found)) }
        ensures only { OnOk result ((k : Pair) → Has self.new.found.keys k → Has self.old.found.keys k ⊎ (k ≡ pair)) }
        ensures last { IfOk result (λ i. (p : ℕ) → length self.old.found.keys ≤ p → p < length self.new.found.keys → i ≡ p) }
        ensures few { OnOk result (length self.new.found.keys ≤ MOST_STATES) }
        ensures within { OnOk result ((n1 n2 : ℕ) → ArePairsWithin n1 n2 self.old.found.keys → pair.left < n1 →
            pair.right < n2 → ArePairsWithin n1 n2 self.new.found.keys) }
        ensures ways { self.new.ways.items ≡ self.old.ways.items }
        ensures fault { IfErr result (λ e. (n1 n2 w : ℕ) → ArePairsWithin n1 n2 self.old.found.keys → pair.left < n1 →
            pair.right < n2 → IsSizeFaultWithin (n1 * n2) w e) }
    {
        let (number, _) = self.found.insert_full(pair)?;
        let count = self.found.len();
        if count > MOST_STATES as usize {
            return Err(SizeFault::States {
                count: count as u64,
            });
        }
        Ok(number as u32)
    }

    /// Makes the way of two that lead from the pair of this number, if they go together.
    fn follow_both(&mut self, from: u32, x: &HalfWay, y: &HalfWay) -> Result<(), SizeFault>
        requires from { slice_get self.old.found.keys from ≡ Some (pair_of x.now.way.from y.now.way.from) }
        requires marks { x.now.way.marks + y.now.way.marks < 2 ^ 64 }
        ensures followed { OnOk result
            (IsFollowed (ways_with x.now (y.now ∷ [])) self.old.found.keys self.old.ways.items self.new.found.keys self.new.ways.items) }
        ensures fault { IfErr result (λ e. IsRefusalOf (ways_with x.now (y.now ∷ [])) self.old.found.keys self.old.ways.items e) }
    {
        if x.shared.number() != y.shared.number() {
            return Ok(());
        }
        let bytes = x.way.bytes.meet(&y.way.bytes);
        if bytes.is_empty() {
            return Ok(());
        }
        let to = self.number_of(Pair {
            left: x.way.to,
            right: y.way.to,
        })?;
        self.ways.push(Way {
            from,
            marks: Marks::of(x.way.marks.number() + y.way.marks.number()),
            bytes,
            to,
        })?;
        Ok(())
    }

    /// Makes the ways of one way of the first side and of ways of the second, from the pair of this number.
    fn follow_way(&mut self, from: u32, x: &HalfWay, ys: &[HalfWay]) -> Result<(), SizeFault>
        requires from { (y : HalfWay) → Has ys.now y → slice_get self.old.found.keys from ≡ Some (pair_of x.now.way.from y.way.from) }
        requires marks { (y : HalfWay) → Has ys.now y → x.now.way.marks + y.way.marks < 2 ^ 64 }
        ensures followed { OnOk result
            (IsFollowed (ways_with x.now ys.now) self.old.found.keys self.old.ways.items self.new.found.keys self.new.ways.items) }
        ensures fault { IfErr result (λ e. IsRefusalOf (ways_with x.now ys.now) self.old.found.keys self.old.ways.items e) }
    {
        for y in ys {
            self.follow_both(from, x, y)?;
        }
        Ok(())
    }

    /// Makes the ways of all of these, which lead from the states of the pair of this number.
    fn follow_pair(&mut self, from: u32, xs: &[HalfWay], ys: &[HalfWay]) -> Result<(), SizeFault>
        requires from { (x y : HalfWay) → Has xs.now x → Has ys.now y →
            slice_get self.old.found.keys from ≡ Some (pair_of x.way.from y.way.from) }
        requires marks { HaveSmallMarks xs.now ys.now }
        ensures followed { OnOk result
            (IsFollowed (pairs ways_meet way_pair ys.now xs.now) self.old.found.keys self.old.ways.items
            self.new.found.keys self.new.ways.items) }
        ensures fault { IfErr result (λ e. IsRefusalOf (pairs ways_meet way_pair ys.now xs.now) self.old.found.keys self.old.ways.items e) }
    {
        for x in xs {
            self.follow_way(from, x, ys)?;
            if self.ways.len() > MOST_WAYS {
                return Err(SizeFault::Ways {
                    count: self.ways.len() as u64,
                });
            }
        }
        Ok(())
    }
}
