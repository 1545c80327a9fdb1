//! A search over the ways of an automaton, each from where it leads to where it begins.
ghost use Rattle.std.specs.Prelude.{◌≡◌, ℕ, ◌<◌, List, [], length, replicate, false, slice_get, Some, IfOk, OnOk};
ghost use Rattle.span_core.specs.Lists.{Has};
ghost use Rattle.marked_automaton.specs.Reach.{AreTargets, Grows, IsFlagged, IsSearch};
ghost use Rattle.marked_automaton.specs.Trimmed.{back_edges_of};
ghost use Rattle.settled_states.specs.States.{HasMarkedEnd, HasMarkedWay};

use marked_automaton::{Stop, Way};
use span_core::OutOfMemory;
use std::alloc::Global;

/// For each state a list of the states from which ways lead to it.
pub(crate) fn sources(
    alloc: Global,
    states: u32,
    ways: &[Way],
) -> Result<Vec<Vec<u32>>, OutOfMemory>
    requires { (y : Way) → Has ways.now y → y.to < states }
    ensures len { IfOk result (λ sources. length sources.items ≡ states) }
    ensures exactly { IfOk result (λ sources. AreTargets (back_edges_of ways.now) sources.items) }
{
    let mut sources = empty_lists(alloc, states)?;
    for way in ways {
        sources[way.to as usize].push(way.from)?;
    }
    Ok(sources)
}

/// So many empty lists.
fn empty_lists(alloc: Global, count: u32) -> Result<Vec<Vec<u32>>, OutOfMemory>
    ensures len { IfOk result (λ lists. length lists.items ≡ count) }
    ensures empty { IfOk result (λ lists. AreTargets [] lists.items) }
{
    let mut lists = Vec::with_capacity(alloc, count as usize)?;
    for _ in 0..count {
        lists.push(Vec::new(alloc))?;
    }
    Ok(lists)
}

/// The states that are found, and those of them whose ways are not followed yet.
#[derive(Drop)]
pub(crate) struct Search {
    /// For each state whether it is found.
    pub(crate) found: Vec<bool>,
    pub(crate) waiting: Vec<u32>,
}

impl Search {
    /// Nothing is found.
    pub(crate) fn new(alloc: Global, states: u32) -> Result<Search, OutOfMemory>
        ensures found { IfOk result (λ s. s.found.items ≡ replicate states false) }
        ensures waiting { IfOk result (λ s. s.waiting.items ≡ []) }
    {
        let mut found = Vec::new(alloc);
        found.resize(states as usize, false)?;
        Ok(Search {
            found,
            waiting: Vec::new(alloc),
        })
    }

    /// Finds a state.
    fn find(&mut self, state: u32) -> Result<(), OutOfMemory>
        requires { state < length self.old.found.items }
        ensures grows { OnOk result (Grows (λ p. p ≡ state) self.old.found.items self.old.waiting.items
            self.new.found.items self.new.waiting.items) }
        ensures found { OnOk result (IsFlagged self.new.found.items state) }
    {
        if self.found[state as usize] {
            return Ok(());
        }
        self.found[state as usize] = true;
        self.waiting.push(state)?;
        Ok(())
    }

    /// Finds these states.
    fn find_all(&mut self, states: &[u32]) -> Result<(), OutOfMemory>
        requires { (p : ℕ) → Has states.now p → p < length self.old.found.items }
        ensures grows { OnOk result (Grows (Has states.now) self.old.found.items self.old.waiting.items
            self.new.found.items self.new.waiting.items) }
        ensures found { OnOk result ((p : ℕ) → Has states.now p → IsFlagged self.new.found.items p) }
    {
        for state in states {
            self.find(*state)?;
        }
        Ok(())
    }

    /// Finds the states from which one of these ways leads that has marks.
    pub(crate) fn find_by_ways(&mut self, ways: &[Way]) -> Result<(), OutOfMemory>
        requires { (y : Way) → Has ways.now y → y.from < length self.old.found.items }
        ensures grows { OnOk result (Grows (HasMarkedWay ways.now) self.old.found.items self.old.waiting.items
            self.new.found.items self.new.waiting.items) }
        ensures found { OnOk result ((q : ℕ) → HasMarkedWay ways.now q → IsFlagged self.new.found.items q) }
    {
        for way in ways {
            if !way.marks.is_none() {
                self.find(way.from)?;
            }
        }
        Ok(())
    }

    /// Finds the states of which one of these is an end that has marks.
    pub(crate) fn find_by_stops(&mut self, stops: &[Stop]) -> Result<(), OutOfMemory>
        requires { (x : Stop) → Has stops.now x → x.state < length self.old.found.items }
        ensures grows { OnOk result (Grows (HasMarkedEnd stops.now) self.old.found.items self.old.waiting.items
            self.new.found.items self.new.waiting.items) }
        ensures found { OnOk result ((q : ℕ) → HasMarkedEnd stops.now q → IsFlagged self.new.found.items q) }
    {
        for stop in stops {
            if !stop.marks.is_none() {
                self.find(stop.state)?;
            }
        }
        Ok(())
    }

    /// Finds the sources of all that waits, and theirs, until nothing waits.
    pub(crate) fn follow_all(&mut self, sources: &[Vec<u32>]) -> Result<(), OutOfMemory>
        requires states { length sources.now ≡ length self.old.found.items }
        requires within { (p : ℕ) (list : _) → slice_get sources.now p ≡ Some list → (q : ℕ) → Has list.items q →
            q < length self.old.found.items }
        requires waiting { (p : ℕ) → Has self.old.waiting.items p → IsFlagged self.old.found.items p }
        ensures len { OnOk result (length self.new.found.items ≡ length self.old.found.items) }
        ensures search { OnOk result ((ways : List Way) (seeds : List ℕ) → AreTargets (back_edges_of ways) sources.now →
            IsSearch (back_edges_of ways) seeds self.old.found.items self.old.waiting.items →
            IsSearch (back_edges_of ways) seeds self.new.found.items []) }
    {
        while let Some(state) = self.waiting.pop() {
            self.find_all(sources[state as usize].as_slice())?;
        }
        Ok(())
    }
}
