//! The states that lie between a start and an end, and what is left of an automaton on them.
ghost use Rattle.std.specs.Prelude.{◌≡◌, ℕ, ◌<◌, ◌≤◌, ◌↔◌, List, length, map, IfOk};
ghost use Rattle.std.specs.List.{filter_map};
ghost use Rattle.span_core.specs.Lists.{Has};
ghost use Rattle.marked_automaton.specs.declared.TheConstants.{MOST_STATES};
ghost use Rattle.marked_automaton.specs.Reach.{IsFlagged};
ghost use Rattle.marked_automaton.specs.Trimmed.{IsBetween, both, count_set, kept_flags, moved_stop, moved_way, number_of, numbered, states_of};

use crate::reach::{Direction, reached};
use crate::{MOST_STATES, Stop, Way};
use span_core::OutOfMemory;
use std::alloc::{AllocError, Global};

/// For each state whether a start leads to it and it leads to an end. The time is linear in the states,
/// the ways, the starts and the ends.
pub(crate) fn states_between(
    alloc: Global,
    states: u32,
    starts: &[u32],
    ways: &[Way],
    stops: &[Stop],
) -> Result<Vec<bool>, OutOfMemory>
    requires starts { (p : ℕ) → Has starts.now p → p < states }
    requires froms { (y : Way) → Has ways.now y → y.from < states }
    requires tos { (y : Way) → Has ways.now y → y.to < states }
    requires stops { (x : Stop) → Has stops.now x → x.state < states }
    ensures len { IfOk result (λ useful. length useful.items ≡ states) }
    ensures exactly { IfOk result (λ useful. (p : ℕ) → IsFlagged useful.items p ↔ IsBetween starts.now ways.now stops.now p) }
{
    let from_starts = reached(alloc, states, starts, ways, Direction::Forward)?;
    let ends = end_states(alloc, stops)?;
    let to_ends = reached(alloc, states, ends.as_slice(), ways, Direction::Back)?;
    Ok(both_set(alloc, from_starts.as_slice(), to_ends.as_slice())?)
}

/// The states of the ends.
pub(crate) fn end_states(alloc: Global, stops: &[Stop]) -> Result<Vec<u32>, AllocError>
    ensures { IfOk result (λ states. states.items ≡ states_of stops.now) }
{
    stops.iter().map(|stop| stop.state).collect(alloc)
}

/// Which flags are set in both.
fn both_set(alloc: Global, left: &[bool], right: &[bool]) -> Result<Vec<bool>, AllocError>
    requires { length left.now ≡ length right.now }
    ensures { IfOk result (λ flags. flags.items ≡ both left.now right.now) }
{
    let mut flags = Vec::new(alloc);
    for k in 0..left.len() {
        flags.push(left[k] & right[k])?;
    }
    Ok(flags)
}

/// The new numbers of the states that are kept, and how many these are.
#[derive(Drop)]
pub(crate) struct Numbers {
    /// For each state its new number, if it is kept.
    pub(crate) numbers: Vec<Option<u32>>,
    /// How many states are kept.
    pub(crate) count: u32,
}

impl Numbers {
    /// Numbers those whose flags are set, in their order.
    pub(crate) fn new(alloc: Global, useful: &[bool]) -> Result<Numbers, AllocError>
        requires { length useful.now ≤ MOST_STATES }
        ensures numbers { IfOk result (λ n. n.numbers.items ≡ numbered 0 useful.now) }
        ensures count { IfOk result (λ n. n.count ≡ count_set useful.now) }
    {
        let mut numbers = Vec::new(alloc);
        let mut count: u32 = 0;
        for kept in useful {
            if *kept {
                numbers.push(Some(count))?;
                count += 1;
            } else {
                numbers.push(None)?;
            }
        }
        Ok(Numbers { numbers, count })
    }

    /// The new numbers of these states, without those that are not kept.
    pub(crate) fn states(&self, alloc: Global, states: &[u32]) -> Result<Vec<u32>, AllocError>
        requires { (p : ℕ) → Has states.now p → p < length self.now.numbers.items }
        ensures { IfOk result (λ kept. kept.items ≡ filter_map (number_of self.now.numbers.items) states.now) }
    {
        let mut kept = Vec::new(alloc);
        for state in states {
            if let Some(number) = self.numbers[*state as usize] {
                kept.push(number)?;
            }
        }
        Ok(kept)
    }

    /// The ways between states that are kept, in the memory of those that are handed in.
    pub(crate) fn ways(&self, mut ways: Vec<Way>) -> Vec<Way>
        requires froms { (y : Way) → Has ways.items y → y.from < length self.now.numbers.items }
        requires tos { (y : Way) → Has ways.items y → y.to < length self.now.numbers.items }
        ensures { result.items ≡ filter_map (moved_way self.now.numbers.items) ways.items }
    {
        let mut count = 0;
        for k in 0..ways.len() {
            if let Some(moved) = self.way(&ways[k]) {
                ways[count] = moved;
                count += 1;
            }
        }
        ways.truncate(count);
        ways
    }

    /// The way between the same states, if both are kept.
    fn way(&self, way: &Way) -> Option<Way>
        requires from { way.now.from < length self.now.numbers.items }
        requires to { way.now.to < length self.now.numbers.items }
        ensures { result ≡ moved_way self.now.numbers.items way.now }
    {
        let from = self.numbers[way.from as usize]?;
        let to = self.numbers[way.to as usize]?;
        Some(Way {
            from,
            marks: way.marks,
            bytes: way.bytes,
            to,
        })
    }

    /// The ends in states that are kept.
    pub(crate) fn stops(&self, alloc: Global, stops: &[Stop]) -> Result<Vec<Stop>, AllocError>
        requires { (x : Stop) → Has stops.now x → x.state < length self.now.numbers.items }
        ensures { IfOk result (λ kept. kept.items ≡ filter_map (moved_stop self.now.numbers.items) stops.now) }
    {
        let mut kept = Vec::new(alloc);
        for stop in stops {
            if let Some(state) = self.numbers[stop.state as usize] {
                kept.push(Stop {
                    state,
                    marks: stop.marks,
                })?;
            }
        }
        Ok(kept)
    }
}

/// The flags of the states that are kept.
pub(crate) fn flags_of_kept(
    alloc: Global,
    useful: &[bool],
    flags: &[bool],
) -> Result<Vec<bool>, AllocError>
    requires { length useful.now ≡ length flags.now }
    ensures { IfOk result (λ kept. kept.items ≡ kept_flags useful.now flags.now) }
{
    let mut kept = Vec::new(alloc);
    for k in 0..useful.len() {
        if useful[k] {
            kept.push(flags[k])?;
        }
    }
    Ok(kept)
}
