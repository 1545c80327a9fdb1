//! Chains: the sets of bytes that what leaves states takes in turn.
ghost use Rattle.std.specs.Prelude.{◌≡◌, true, IfSome, IsTrue};
ghost use Rattle.way_exits.specs.Exits.{HasAdded};
ghost use Rattle.way_exits.specs.Waiting.{Forces, IsLevel};

use crate::states::{has, is_all, is_loop, put};
use byte_runs::Chain;
use marked_automaton::Way;
use span_core::ByteSet;
use std::alloc::{AllocError, Global};

/// So many sets a chain has at most.
const MOST_SETS: usize = 16;

/// A set of a chain with so many bytes at most is narrow.
const FEW: usize = 4;

/// A chain is narrow where so many of its sets are.
const LEAST_NARROW: usize = 3;

/// Where ways lead: the bytes that they take, and the states.
#[derive(Drop)]
pub(crate) struct Level {
    pub(crate) bytes: ByteSet,
    pub(crate) next: Vec<u32>,
}

/// The chain that leads out of these states, if it can be searched for.
pub(crate) fn front_of(alloc: Global, ways: &[Way], states: &[u32]) -> Option<Chain>
    ensures { IfSome result (λ chain. Forces ways.now true states.now chain) }
{
    match chain_of(alloc, ways, states) {
        Some(sets) => Chain::new(alloc, sets),
        None => None,
    }
}

/// Whether the chain that leads out of these states is narrow, so that few places keep to it.
pub(crate) fn is_narrow(alloc: Global, ways: &[Way], states: &[u32]) -> bool {
    let sets = match chain_of(alloc, ways, states) {
        Some(sets) => sets,
        None => return false,
    };
    let mut narrow: usize = 0;
    for set in sets.as_slice() {
        if has_few(set) {
            narrow = narrow.saturating_add(1);
        }
    }
    narrow >= LEAST_NARROW
}

/// Whether the set has few bytes.
fn has_few(set: &ByteSet) -> bool {
    let mut left = FEW;
    for byte in 0..=u8::MAX {
        if set.contains(byte) {
            if left == 0 {
                return false;
            }
            left -= 1;
        }
    }
    true
}

/// The sets of bytes that what leaves the states takes in turn.
fn chain_of(alloc: Global, ways: &[Way], states: &[u32]) -> Option<Vec<ByteSet>>
    ensures { IfSome result (λ sets. Forces ways.now true states.now sets.items) }
{
    let mut sets = Vec::new(alloc);
    let mut from = match copied(alloc, states) {
        Some(from) => from,
        None => return None,
    };
    let mut leaving = true;
    for _ in 0..MOST_SETS {
        let level = match level_of(alloc, ways, from.as_slice(), leaving) {
            Some(level) => level,
            None => return Some(sets),
        };
        let Level { bytes, next } = level;
        if bytes.is_empty() || is_all(&bytes) {
            return Some(sets);
        }
        match sets.push(bytes) {
            Ok(()) => {}
            Err(_) => return None,
        }
        from = next;
        leaving = false;
    }
    Some(sets)
}

/// The bytes that the ways from these states take, and where they lead, loops left out if so told; None where that are many
/// states.
fn level_of(alloc: Global, ways: &[Way], from: &[u32], leaving: bool) -> Option<Level>
    ensures { IfSome result (λ l. IsLevel leaving ways.now from.now l.bytes l.next.items) }
{
    let mut level = Level {
        bytes: ByteSet::empty(),
        next: Vec::new(alloc),
    };
    for way in ways {
        if !add_way(&mut level, from, leaving, way) {
            return None;
        }
    }
    Some(level)
}

/// Adds a way to a level, if it leads from one of these states and is not left out, and tells whether its states are few.
fn add_way(level: &mut Level, from: &[u32], leaving: bool, way: &Way) -> bool
    ensures { IsTrue result → HasAdded leaving from.now way.now level.old level.new }
{
    if !has(from, way.from) {
        return true;
    }
    if leaving && is_loop(way) {
        return true;
    }
    let bytes = level.bytes.union(&way.bytes);
    level.bytes = bytes;
    put(&mut level.next, way.to)
}

/// A list of the same states.
fn copied(alloc: Global, states: &[u32]) -> Option<Vec<u32>>
    ensures { IfSome result (λ copy. copy.items ≡ states.now) }
{
    let mut copy = Vec::new(alloc);
    match copy.extend_from_slice(states) {
        Ok(()) => Some(copy),
        Err(AllocError) => None,
    }
}
