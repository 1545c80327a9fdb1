//! The bytes on which a set of states stays, told from the ways of its members.
//!
//! It stays on a byte where the ways on it take no marks, lead to members alone, and lead to each of them. All bytes are
//! told at once, by one look at each way.
ghost use Rattle.std.specs.Prelude.{◌≡◌, ℕ, ◌<◌, ◌∷◌, ◌++◌, [], List, length, slice_index_or, IfNone, IfOk, IfSome, IsTrue, ◌↔◌};
ghost use Rattle.std.specs.FinSet as bytes;
ghost use Rattle.span_core.specs.Lists.{Has, IsInOrder};
ghost use Rattle.marked_automaton.specs.Automaton.{AreGrouped};
ghost use Rattle.marked_automaton.specs.declared.way.Way.{Way as WayOf};
ghost use Rattle.std.specs.List.{filter, flat_map};
ghost use Rattle.automaton_reading.specs.Reading.{is_among};
ghost use Rattle.marked_automaton.specs.Automaton.{ways_from};
ghost use Rattle.set_table.specs.Runs.{AreIndexed, AreRuns, Bounds};
ghost use Rattle.set_table.specs.Staying.{AreGathered, IsInside, LeadsBackOn};
ghost use Rattle.set_table.specs.Tabled.{StaysOn};

use crate::reaching::has_state;
use crate::store::put_empty;
use crate::way_runs::{FEW_WAYS, WayRuns, first_run};
use marked_automaton::{Automaton, Way};
use span_core::{ByteSet, OutOfMemory};
use std::alloc::Global;

/// Where ways of a set's members lead, byte by byte.
#[derive(Drop)]
struct Leading {
    /// For each member the bytes of ways without marks that lead to it.
    to_members: Vec<ByteSet>,
    /// The bytes of all other ways.
    elsewhere: ByteSet,
}

/// The bytes on which a set of states stays.
pub(crate) fn stays_of(
    alloc: Global,
    automaton: &Automaton,
    members: &[u32],
    runs: &WayRuns,
) -> Result<ByteSet, OutOfMemory>
    requires order { IsInOrder ◌<◌ members.now }
    requires indexed { AreIndexed automaton.now.graph.ways runs.now }
    ensures { IfOk result (λ s. (b : ℕ) → IsTrue (bytes.contains s b) ↔ StaysOn automaton.now.graph members.now b) }
{
    if members.is_empty() {
        return Ok(ByteSet::empty());
    }
    let mut leading = Leading::nowhere(alloc, members.len())?;
    if automaton.is_grouped() {
        leading.add_from(members, automaton, runs);
    } else {
        leading.add_among(members, automaton.ways());
    }
    Ok(leading.stays())
}

impl Leading {
    /// No way leads anywhere, of so many members.
    fn nowhere(alloc: Global, members: usize) -> Result<Leading, OutOfMemory>
        ensures { IfOk result (λ x. (states : List ℕ) → length states ≡ members → AreGathered states [] x) }
    {
        let mut to_members = Vec::new(alloc);
        put_empty(&mut to_members, members)?;
        Ok(Leading {
            to_members,
            elsewhere: ByteSet::empty(),
        })
    }

    /// Adds a way from a member.
    fn add(&mut self, members: &[u32], way: &Way)
        requires order { IsInOrder ◌<◌ members.now }
        requires count { length self.old.to_members.items ≡ length members.now }
        ensures count { length self.new.to_members.items ≡ length members.now }
        ensures gathered { (ways : List WayOf) → AreGathered members.now ways self.old →
            AreGathered members.now (ways ++ way.now ∷ []) self.new }
    {
        match member_at(members, way) {
            Some(place) => {
                let bytes = self.to_members[place].union(&way.bytes);
                self.to_members[place] = bytes;
            }
            None => self.elsewhere = self.elsewhere.union(&way.bytes),
        }
    }

    /// Adds ways from members.
    fn add_all(&mut self, members: &[u32], ways: &[Way])
        requires order { IsInOrder ◌<◌ members.now }
        requires count { length self.old.to_members.items ≡ length members.now }
        ensures count { length self.new.to_members.items ≡ length members.now }
        ensures gathered { (before : List WayOf) → AreGathered members.now before self.old →
            AreGathered members.now (before ++ ways.now) self.new }
    {
        for way in ways {
            self.add(members, way);
        }
    }

    /// Adds the ways from each member, where the ways stand in the order of states.
    fn add_from(&mut self, members: &[u32], automaton: &Automaton, runs: &WayRuns)
        requires order { IsInOrder ◌<◌ members.now }
        requires grouped { AreGrouped automaton.now.graph.ways }
        requires indexed { AreIndexed automaton.now.graph.ways runs.now }
        requires none { AreGathered members.now [] self.old }
        ensures { AreGathered members.now (flat_map (ways_from automaton.now.graph.ways) members.now) self.new }
    {
        for state in members {
            self.add_state(members, automaton, runs, *state);
        }
    }

    /// Adds the ways from a member, where the ways stand in the order of states.
    fn add_state(&mut self, members: &[u32], automaton: &Automaton, runs: &WayRuns, state: u32)
        requires order { IsInOrder ◌<◌ members.now }
        requires grouped { AreGrouped automaton.now.graph.ways }
        requires indexed { AreIndexed automaton.now.graph.ways runs.now }
        requires count { length self.old.to_members.items ≡ length members.now }
        ensures count { length self.new.to_members.items ≡ length members.now }
        ensures gathered { (before : List WayOf) → AreGathered members.now before self.old →
            AreGathered members.now (before ++ ways_from automaton.now.graph.ways state) self.new }
    {
        let ways = automaton.ways_from(state);
        if ways.len() <= FEW_WAYS {
            return self.add_all(members, ways);
        }
        match runs.of(state) {
            Some(runs) => self.add_runs(members, ways, runs),
            None => self.add_all(members, ways),
        }
    }

    /// Adds ways from members, by their runs.
    fn add_runs(&mut self, members: &[u32], ways: &[Way], runs: &[ByteSet])
        requires order { IsInOrder ◌<◌ members.now }
        requires runs { AreRuns ways.now runs.now }
        requires count { length self.old.to_members.items ≡ length members.now }
        ensures count { length self.new.to_members.items ≡ length members.now }
        ensures gathered { (before : List WayOf) → AreGathered members.now before self.old →
            AreGathered members.now (before ++ ways.now) self.new }
    {
        let mut rest = ways;
        for bytes in runs {
            let (run, behind) = first_run(rest);
            self.add_run(members, bytes, run);
            rest = behind;
        }
    }

    /// Adds ways from members that take no other bytes than these, unless all of the bytes lead elsewhere already: on such bytes no
    /// set stays.
    fn add_run(&mut self, members: &[u32], bytes: &ByteSet, run: &[Way])
        requires order { IsInOrder ◌<◌ members.now }
        requires bounds { Bounds bytes.now run.now }
        requires count { length self.old.to_members.items ≡ length members.now }
        ensures count { length self.new.to_members.items ≡ length members.now }
        ensures gathered { (before : List WayOf) → AreGathered members.now before self.old →
            AreGathered members.now (before ++ run.now) self.new }
    {
        if bytes.without(&self.elsewhere).is_empty() {
            return;
        }
        self.add_all(members, run);
    }

    /// Adds those of all ways that lead from members.
    fn add_among(&mut self, members: &[u32], ways: &[Way])
        requires order { IsInOrder ◌<◌ members.now }
        requires none { AreGathered members.now [] self.old }
        ensures { AreGathered members.now (filter (λ (y : WayOf). is_among members.now y.from) ways.now) self.new }
    {
        for way in ways {
            if has_state(members, way.from) {
                self.add(members, way);
            }
        }
    }

    /// The bytes that lead to each member, and nowhere else.
    fn stays(&self) -> ByteSet
        requires { 0 < length self.now.to_members.items }
        ensures { (b : ℕ) → IsTrue (bytes.contains result b) ↔ LeadsBackOn self.now b }
    {
        let mut stays = self.to_members[0];
        for bytes in self.to_members.as_slice() {
            stays = stays.meet(bytes);
        }
        stays.without(&self.elsewhere)
    }
}

/// The place of the member that a way leads to without marks, if it does.
fn member_at(members: &[u32], way: &Way) -> Option<usize>
    requires { IsInOrder ◌<◌ members.now }
    ensures some { IfSome result (λ k. (k < length members.now) × (slice_index_or members.now k 0 ≡ way.now.to) × (way.now.marks ≡ 0)) }
    ensures none { IfNone result (¬ IsInside members.now way.now) }
{
    if !way.marks.is_none() {
        return None;
    }
    members.binary_search(&way.to).ok()
}
