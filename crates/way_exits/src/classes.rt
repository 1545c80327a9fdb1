//! Classes of bytes that the ways of an automaton do not tell apart.
//!
//! What is kept by classes is true whatever they are: by these it is kept once for all bytes that every way takes or leaves
//! alike.
ghost use Rattle.std.specs.Prelude.{ℕ, ◌<◌, ◌≤◌, length, slice_index};

use marked_automaton::Way;
use span_core::ByteSet;
use std::alloc::Global;

/// How many bytes there are: 256.
pub const BYTES: usize = 256;

/// So many sets of bytes part the classes at most. Where ways have more, each byte has a class of its own, so that a short
/// document does not pay for what only a long one needs.
const MOST_SETS: usize = 64;

/// Classes of bytes: for each byte the number of its class, below how many there are, from 1 to 256. (Compilers of regular
/// expressions call this alphabet compression.) That the bytes of a class are alike is not stated: who keeps something for a
/// class looks at each of its bytes.
#[derive(Drop)]
pub struct Classes {
    pub numbers: [u8; BYTES],
    pub count: usize,
    ghost few: { count ≤ 256 },
    ghost within: { (b : ℕ) → b < 256 → slice_index numbers b < count },
}

impl Classes {
    /// One class of all bytes. Takes no memory.
    pub fn one() -> Classes {
        Classes {
            numbers: [0; BYTES],
            count: 1,
        }
    }

    /// A class for each byte.
    fn each() -> Classes {
        let mut numbers = [0; BYTES];
        for byte in 0..BYTES {
            numbers[byte] = byte as u8;
        }
        Classes {
            numbers,
            count: BYTES,
        }
    }

    /// The classes of the bytes that no set of these ways parts. Where there are more than 64 sets, or memory is short, each
    /// byte has its own. It compares each way with at most 64 sets.
    pub fn of_ways(alloc: Global, ways: &[Way]) -> Classes {
        match parts_of(alloc, ways) {
            Some(parts) => Classes::of_parts(&parts),
            None => Classes::each(),
        }
    }

    /// The classes of the bytes of each of these sets.
    fn of_parts(parts: &[ByteSet]) -> Classes {
        if parts.is_empty() || parts.len() > BYTES {
            return Classes::each();
        }
        let mut numbers = [0; BYTES];
        for byte in 0..BYTES {
            numbers[byte] = part_with(parts, byte as u8);
        }
        Classes {
            numbers,
            count: parts.len(),
        }
    }
}

/// The number of the first of these sets that has the byte, or 0.
fn part_with(parts: &[ByteSet], byte: u8) -> u8
    requires some { 0 < length parts.now }
    requires few { length parts.now ≤ 256 }
    ensures { result < length parts.now }
{
    for k in 0..parts.len() {
        if parts[k].contains(byte) {
            return k as u8;
        }
    }
    0
}

/// All bytes, parted by the set of each of these ways. None where the sets are too many, or memory is short.
fn parts_of(alloc: Global, ways: &[Way]) -> Option<Vec<ByteSet>> {
    let mut sets = Vec::new(alloc);
    let mut parts = Vec::new(alloc);
    parts.push(ByteSet::all()).ok()?;
    for way in ways {
        if !has_set(&sets, &way.bytes) {
            if sets.len() >= MOST_SETS || !part(&mut parts, &way.bytes) {
                return None;
            }
            sets.push(way.bytes).ok()?;
        }
    }
    Some(parts)
}

/// Whether a set is among these.
fn has_set(sets: &[ByteSet], set: &ByteSet) -> bool {
    for other in sets {
        if are_equal(other, set) {
            return true;
        }
    }
    false
}

/// Parts each of these sets by whether its bytes are in another, and tells whether there was memory.
fn part(parts: &mut Vec<ByteSet>, set: &ByteSet) -> bool {
    for k in 0..parts.len() {
        let inside = parts[k].meet(set);
        let outside = parts[k].without(set);
        if !inside.is_empty() && !outside.is_empty() {
            if parts.push(outside).is_err() {
                return false;
            }
            parts[k] = inside;
        }
    }
    true
}

/// Whether the sets have the same bytes.
fn are_equal(a: &ByteSet, b: &ByteSet) -> bool {
    a.without(b).is_empty() && b.without(a).is_empty()
}
