//! Proposals for a text inside: a region of states that what leaves states that wait goes about in, and a text that leads out
//! of it. Nothing is claimed of a proposal: `inside` checks it.
//!
//! A chain is a run of states, each of which but the last is entered from the one before alone, and each on one byte alone.
//! The region has the states that are reached without the last way of the chain.
use crate::inside::{homes_of, is_only, kills_of};
use crate::states::{has, is_loop, put};
use marked_automaton::Way;
use span_core::ByteSet;
use std::alloc::Global;

/// A shorter chain is not taken.
const LEAST_CHAIN: usize = 3;

/// A longer chain is cut.
const MOST_CHAIN: usize = 32;

/// More states than these are not looked at.
const MOST_STATES: usize = 64;

/// More bytes of a text do not count.
const MOST_DEPTH: u32 = 64;

/// How many bytes there are.
const BYTES: usize = 256;

/// A way on one byte alone, and where it leads.
#[derive(Clone, Copy)]
struct Step {
    byte: u8,
    to: u32,
}

/// A state of a region, and how many bytes of the text stand before it.
#[derive(Clone, Copy)]
pub(crate) struct Member {
    pub(crate) state: u32,
    pub(crate) depth: u32,
}

/// A region, and the text behind which it may be left.
#[derive(Drop)]
pub(crate) struct Region {
    pub(crate) members: Vec<Member>,
    pub(crate) text: Vec<u8>,
}

/// The region with the longest chain, if there is one with bytes that kill, or that bring the states home, if so told.
pub(crate) fn propose(alloc: Global, ways: &[Way], states: &[u32], home: bool) -> Option<Region> {
    let reached = match reached_from(alloc, ways, states) {
        Some(reached) => reached,
        None => return None,
    };
    let mut seen = Vec::new(alloc);
    let mut best = None;
    let mut most = LEAST_CHAIN;
    for state in reached.as_slice() {
        if !has(seen.as_slice(), *state) {
            let chain = match chain_from(alloc, ways, reached.as_slice(), *state) {
                Some(chain) => chain,
                None => return best,
            };
            note(&mut seen, chain.as_slice());
            if chain.len() >= most {
                if let Some(region) = region_of(alloc, ways, states, chain.as_slice(), home) {
                    most = chain.len() + 1;
                    best = Some(region);
                }
            }
        }
    }
    best
}

/// Notes the states of a chain, so that no other begins with them.
fn note(seen: &mut Vec<u32>, chain: &[Step]) {
    for step in chain {
        put(seen, step.to);
    }
}

/// The states that are reached from these, but by their loops; those that are found first, where they are many.
fn reached_from(alloc: Global, ways: &[Way], states: &[u32]) -> Option<Vec<u32>> {
    let mut reached = Vec::new(alloc);
    for way in ways {
        if has(states, way.from) && !is_loop(way) {
            put(&mut reached, way.to);
        }
    }
    for k in 0..MOST_STATES {
        if k >= reached.len() {
            return Some(reached);
        }
        let from = reached[k];
        for way in ways {
            if way.from == from {
                put(&mut reached, way.to);
            }
        }
    }
    Some(reached)
}

/// The chain that begins with the ways into this state, which is empty where they take several bytes.
fn chain_from(alloc: Global, ways: &[Way], reached: &[u32], state: u32) -> Option<Vec<Step>> {
    let mut chain = Vec::new(alloc);
    let mut step = match way_into(ways, state) {
        Some(byte) => Step { byte, to: state },
        None => return Some(chain),
    };
    for _ in 0..MOST_CHAIN {
        match chain.push(step) {
            Ok(()) => {}
            Err(_) => return None,
        }
        let next = match way_out(ways, step.to) {
            Some(next) => next,
            None => return Some(chain),
        };
        if !is_entered_from(ways, reached, step.to, next.to) {
            return match chain.push(next) {
                Ok(()) => Some(chain),
                Err(_) => None,
            };
        }
        step = next;
    }
    Some(chain)
}

/// The one byte that all ways into the state take.
fn way_into(ways: &[Way], state: u32) -> Option<u8> {
    let mut found = None;
    for way in ways {
        if way.to == state {
            let byte = match found {
                Some(byte) => byte,
                None => match one_byte(&way.bytes) {
                    Some(byte) => byte,
                    None => return None,
                },
            };
            if !is_only(&way.bytes, byte) {
                return None;
            }
            found = Some(byte);
        }
    }
    found
}

/// The one byte that all ways from the state take, and the one state that they lead to.
fn way_out(ways: &[Way], state: u32) -> Option<Step> {
    let mut found = None;
    for way in ways {
        if way.from == state {
            let step = match found {
                Some(step) => step,
                None => match one_byte(&way.bytes) {
                    Some(byte) => Step { byte, to: way.to },
                    None => return None,
                },
            };
            if step.to != way.to || !is_only(&way.bytes, step.byte) {
                return None;
            }
            found = Some(step);
        }
    }
    found
}

/// Whether the state is entered from one state alone, of those that are reached.
fn is_entered_from(ways: &[Way], reached: &[u32], from: u32, state: u32) -> bool {
    for way in ways {
        if way.to == state && way.from != from && has(reached, way.from) {
            return false;
        }
    }
    true
}

/// The byte of a set that has one alone.
fn one_byte(set: &ByteSet) -> Option<u8> {
    for number in 0..BYTES {
        let byte = number as u8;
        if set.contains(byte) {
            return if is_only(set, byte) { Some(byte) } else { None };
        }
    }
    None
}

/// The region of a chain, if it has few states and there are bytes that kill, or that bring the states home.
fn region_of(
    alloc: Global,
    ways: &[Way],
    states: &[u32],
    chain: &[Step],
    home: bool,
) -> Option<Region> {
    let mut members = Vec::new(alloc);
    for way in ways {
        if has(states, way.from) && !is_loop(way) && !put_member(&mut members, chain, way.to) {
            return None;
        }
    }
    for k in 0..MOST_STATES {
        if k >= members.len() {
            let ends = if home {
                homes_of(ways, states, members.as_slice())
            } else {
                kills_of(ways, states, members.as_slice())
            };
            if ends.is_empty() {
                return None;
            }
            return with_text(alloc, members, chain);
        }
        let from = members[k].state;
        if !put_next(&mut members, ways, chain, from) {
            return None;
        }
    }
    None
}

/// Puts the states that are reached from this one among the members, but by the last way of the chain, and tells whether they
/// are few.
fn put_next(members: &mut Vec<Member>, ways: &[Way], chain: &[Step], from: u32) -> bool {
    for way in ways {
        if way.from == from && !is_last(way, chain) && !put_member(members, chain, way.to) {
            return false;
        }
    }
    true
}

/// Puts a state among the members, and tells whether they are few.
fn put_member(members: &mut Vec<Member>, chain: &[Step], state: u32) -> bool {
    for member in members.as_slice() {
        if member.state == state {
            return true;
        }
    }
    if members.len() >= MOST_STATES {
        return false;
    }
    let depth = depth_in(chain, state);
    match members.push(Member { state, depth }) {
        Ok(()) => true,
        Err(_) => false,
    }
}

/// How many bytes of the chain stand before the state; 0 where it is none of the chain's, or the last.
fn depth_in(chain: &[Step], state: u32) -> u32 {
    let mut depth = 0;
    for step in chain {
        depth = if depth < MOST_DEPTH { depth + 1 } else { depth };
        if step.to == state && (depth as usize) < chain.len() {
            return depth;
        }
    }
    0
}

/// Whether the way is the last of the chain.
fn is_last(way: &Way, chain: &[Step]) -> bool {
    let count = chain.len();
    if count < 2 {
        return false;
    }
    let last = chain[count - 1];
    way.from == chain[count - 2].to && way.to == last.to && is_only(&way.bytes, last.byte)
}

/// The region of these members, with the text of a chain.
fn with_text(alloc: Global, members: Vec<Member>, chain: &[Step]) -> Option<Region> {
    let mut text = Vec::new(alloc);
    for step in chain {
        match text.push(step.byte) {
            Ok(()) => {}
            Err(_) => return None,
        }
    }
    Some(Region { members, text })
}
