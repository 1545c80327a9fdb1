//! The ways of a state in runs of 64, each with the bytes that its ways take, and the parts of their numbers on a byte.
//!
//! A state with many ways is not read whole for each byte: a run of which no way takes the byte is passed over. The runs of a
//! state are laid when it is first asked. They take less than a byte for each way. What was read on a byte is kept in parts, up
//! to a limit.
ghost use Rattle.std.specs.Prelude.{◌≡◌, ℕ, ◌+◌, ◌*◌, List, take, drop, IfOk, IfSome};
ghost use Rattle.marked_automaton.specs.Automaton.{AreGrouped, ways_from};
ghost use Rattle.marked_automaton.specs.declared.way.Way.{Way as WayOf};
ghost use Rattle.set_table.specs.Cut.{codes_at};
ghost use Rattle.set_table.specs.Runs.{AreIndexed, ArePartsOf, AreRuns, AreSeen, Bounds};

use crate::parts::{Part, parts_of};
use indexmap::IndexMap;
use marked_automaton::{Automaton, Way};
use span_core::{ByteSet, OutOfMemory};
use std::alloc::Global;

/// How many ways a run has; the last one of a state may have fewer.
const RUN: usize = 64;

/// The most ways of a state that are read whole.
pub(crate) const FEW_WAYS: usize = 256;

/// How many parts are kept in all. A part takes 64 bytes, so all take at most 256 MB. A state of 1,600 ways has some five parts for
/// each byte, so that 3,000 such states keep theirs for all bytes.
const MOST_PARTS: usize = 4_000_000;

/// The runs of states with many ways, and the parts of their numbers on bytes, as far as they were asked for.
#[derive(Drop)]
pub(crate) struct WayRuns {
    alloc: Global,
    /// For a state the bytes of each run of its ways.
    of_states: IndexMap<u32, Vec<ByteSet>>,
    /// For 256 times a state and a byte the parts of the numbers of its ways that take the byte.
    of_bytes: IndexMap<u64, Vec<Part>>,
    /// How many parts are kept.
    kept: usize,
}

impl WayRuns {
    /// The runs of no state.
    pub(crate) fn new(alloc: Global) -> WayRuns
        ensures { (ways : List WayOf) → AreIndexed ways result }
    {
        WayRuns {
            alloc,
            of_states: IndexMap::new(alloc),
            of_bytes: IndexMap::new(alloc),
            kept: 0,
        }
    }

    /// No part is seen.
    pub(crate) fn nothing_seen(&self) -> IndexMap<u128, ByteSet>
        ensures { (codes : List ℕ) → AreSeen result codes }
    {
        IndexMap::new(self.alloc)
    }

    /// The parts of the numbers of a state's ways that take the byte, where they are kept.
    pub(crate) fn parts(&self, state: u32, byte: u8) -> Option<&[Part]>
        ensures { IfSome result (λ parts. (ways : List WayOf) → AreIndexed ways self.now →
            ArePartsOf parts.now (codes_at ways byte state)) }
    {
        match self.of_bytes.get(&key_of(state, byte)) {
            Some(parts) => Some(parts.as_slice()),
            None => None,
        }
    }

    /// Keeps the numbers of a state's ways that take the byte in parts. Where too many are kept, or there is no memory for them, it
    /// does without.
    pub(crate) fn keep(&mut self, state: u32, byte: u8, codes: &[u128])
        ensures { (ways : List WayOf) → AreIndexed ways self.old → codes.now ≡ codes_at ways byte state → AreIndexed ways self.new }
    {
        if self.kept.saturating_add(codes.len()) > MOST_PARTS {
            return;
        }
        if let Ok(parts) = parts_of(self.alloc, codes) {
            self.kept = self.kept.saturating_add(parts.len());
            let _kept = self.of_bytes.insert(key_of(state, byte), parts);
        }
    }

    /// The runs of a state, where they were laid.
    pub(crate) fn of(&self, state: u32) -> Option<&[ByteSet]>
        ensures { IfSome result (λ runs. (ways : List WayOf) → AreIndexed ways self.now → AreRuns (ways_from ways state) runs.now) }
    {
        match self.of_states.get(&state) {
            Some(runs) => Some(runs.as_slice()),
            None => None,
        }
    }

    /// Lays the runs of a state, unless they are there. Where there is no memory for them it does without: the state is then
    /// read whole.
    pub(crate) fn lay(&mut self, automaton: &Automaton, state: u32)
        requires grouped { AreGrouped automaton.now.graph.ways }
        requires indexed { AreIndexed automaton.now.graph.ways self.old }
        ensures { AreIndexed automaton.now.graph.ways self.new }
    {
        if self.of_states.get(&state).is_some() {
            return;
        }
        if let Ok(runs) = runs_of(self.alloc, automaton.ways_from(state)) {
            let _kept = self.of_states.insert(state, runs);
        }
    }
}

/// Where the parts of a state and a byte are kept.
fn key_of(state: u32, byte: u8) -> u64
    ensures { result ≡ 256 * state + byte }
{
    256 * u64::from(state) + u64::from(byte)
}

/// The bytes of each run of ways.
fn runs_of(alloc: Global, ways: &[Way]) -> Result<Vec<ByteSet>, OutOfMemory>
    ensures { IfOk result (λ runs. AreRuns ways.now runs.items) }
{
    let mut runs = Vec::with_capacity(alloc, ways.len() / RUN + 1)?;
    let mut rest = ways;
    while !rest.is_empty() {
        let (run, behind) = first_run(rest);
        runs.push(bytes_of(run))?;
        rest = behind;
    }
    Ok(runs)
}

/// The first run of ways, and those behind it.
pub(crate) fn first_run(ways: &[Way]) -> (&[Way], &[Way])
    ensures run { result.0.now ≡ take 64 ways.now }
    ensures behind { result.1.now ≡ drop 64 ways.now }
{
    ways.split_at(ways.len().min(RUN))
}

/// The bytes that some of the ways take.
fn bytes_of(ways: &[Way]) -> ByteSet
    ensures { Bounds result ways.now }
{
    let mut bytes = ByteSet::empty();
    for way in ways {
        bytes = bytes.union(&way.bytes);
    }
    bytes
}
