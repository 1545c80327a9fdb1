//! States, by their numbers, and which of them loop.
ghost use Rattle.std.specs.Prelude.{ℕ, ◌<◌, ◌↔◌, IsTrue};
ghost use Rattle.std.specs.FinSet as bytes;
ghost use Rattle.span_core.specs.Lists.{Has};
ghost use Rattle.way_exits.specs.Waiting.{IsLoop, IsLooping};

use marked_automaton::Way;
use span_core::ByteSet;

/// More states than these are not looked at.
const MOST_STATES: usize = 64;

/// Whether the state, by its number, is among these. It takes as many steps as there are states.
pub fn has(states: &[u32], state: u32) -> bool
    ensures { IsTrue result ↔ Has states.now state }
{
    for member in states {
        if *member == state {
            return true;
        }
    }
    false
}

/// Puts these states among others, each once, and tells whether all of them are there. They are not where there would be more
/// than 64 states, or memory runs out; some of them may be there then.
pub fn put_all(states: &mut Vec<u32>, more: &[u32]) -> bool {
    for state in more {
        if !put(states, *state) {
            return false;
        }
    }
    true
}

/// Puts a state among others, and tells whether they are few.
pub(crate) fn put(states: &mut Vec<u32>, state: u32) -> bool
    ensures kept { (x : ℕ) → Has states.old.items x → Has states.new.items x }
    ensures there { IsTrue result → Has states.new.items state }
{
    if has(states.as_slice(), state) {
        return true;
    }
    if states.len() >= MOST_STATES {
        return false;
    }
    match states.push(state) {
        Ok(()) => true,
        Err(_) => false,
    }
}

/// Whether each of the states has a way to itself, without marks, on each byte. One way has to have all of the bytes: several
/// that have them together do not count.
pub fn all_loop(ways: &[Way], states: &[u32]) -> bool
    ensures { IsTrue result → (p : ℕ) → Has states.now p → IsLooping ways.now p }
{
    for state in states {
        if !loops(ways, *state) {
            return false;
        }
    }
    true
}

/// Whether the state has a way to itself, without marks, on each byte.
pub(crate) fn loops(ways: &[Way], state: u32) -> bool
    ensures { IsTrue result → IsLooping ways.now state }
{
    for way in ways {
        if way.from == state && is_loop(way) && is_all(&way.bytes) {
            return true;
        }
    }
    false
}

/// Whether the way leads to where it leads from, without marks.
pub(crate) fn is_loop(way: &Way) -> bool
    ensures { IsTrue result → IsLoop way.now }
{
    way.marks.is_none() && way.to == way.from
}

/// Whether each byte is in the set.
pub(crate) fn is_all(set: &ByteSet) -> bool
    ensures { IsTrue result → (b : ℕ) → b < 256 → IsTrue (bytes.contains set.now b) }
{
    set.negation().is_empty()
}

/// Whether each of the states loops on every byte, or is entered, without marks, from another of them that does: only such a set
/// may come home. Nothing follows from the answer; it says where looking for more is worth the time.
pub fn are_home(ways: &[Way], states: &[u32]) -> bool {
    for state in states {
        if !loops(ways, *state) && !is_entered(ways, states, *state) {
            return false;
        }
    }
    true
}

/// Whether a way without marks leads to the state from one of the states that loops on every byte.
fn is_entered(ways: &[Way], states: &[u32], state: u32) -> bool {
    for way in ways {
        if way.to == state
            && way.from != state
            && way.marks.is_none()
            && has(states, way.from)
            && loops(ways, way.from)
        {
            return true;
        }
    }
    false
}
