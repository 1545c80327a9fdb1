//! Waiting: states that lead back to themselves, and what is known of how they are left.
//!
//! What leaves states that wait takes bytes of some sets in turn (`chains`), or comes through behind a text alone (`inside`). Up
//! to a place before which the bytes nowhere keep to these sets, or the text ends nowhere, the states lead back to themselves,
//! whatever was under way on the way there; so what stands between need not be read.
ghost use Rattle.std.specs.Prelude.{◌≡◌, ℕ, ◌≤◌, List, length, take, IfSome, IsTrue};
ghost use Rattle.span_core.specs.Lists.{Has};
ghost use Rattle.way_exits.specs.Exits.{Knows, LeaveBy};
ghost use Rattle.way_exits.specs.Home.{HasAll, IsAmong};
ghost use Rattle.way_exits.specs.Paths.{ComeBack};
ghost use Rattle.way_exits.specs.Waiting.{IsLooping, IsOf};

use crate::chains::{front_of, is_narrow};
use crate::inside::{home_of, inside_of};
use crate::states::has;
use byte_runs::{Chain, InnerText};
use marked_automaton::Way;
use std::alloc::Global;

/// How states are left.
#[derive(Drop)]
pub enum Exit {
    /// By bytes of sets in turn, the first of them on a way that is no loop.
    Front(Chain),
    /// Behind a text alone. On the bytes that kill only loops lead from the states, and no way leads on from what left them.
    Inside(InnerText),
    /// Behind a text alone, and some bytes bring sets of the states home.
    Home(Homes),
}

/// Sets of states, by their numbers in any order, and the text behind which alone they are left. Its bytes that kill bring each
/// set home: they lead from it to itself alone, without marks.
#[derive(Drop)]
pub struct Homes {
    pub sets: Vec<Vec<u32>>,
    pub text: InnerText,
}

/// States, by their numbers in any order, and what is known of how they are left. It is true of the ways that it was made of
/// (`LeaveBy`), and says nothing of ends.
#[derive(Drop)]
pub struct Waiting {
    pub states: Vec<u32>,
    pub exit: Exit,
}

impl Waiting {
    /// How these states are left, each of which loops on each byte: by a text inside rather than by a chain of wide sets, which
    /// begins at too many places. None where nothing is found that can be searched for, or memory runs out. It looks at each
    /// way some 32 times, and more often only where many states are reached, of which it follows 64 at most.
    pub fn of_loops(alloc: Global, ways: &[Way], states: Vec<u32>) -> Option<Waiting>
        requires { (p : ℕ) → Has states.items p → IsLooping ways.now p }
        ensures { IfSome result (λ w. LeaveBy ways.now w.states.items w.exit) }
    {
        match exit_of(alloc, ways, states.as_slice()) {
            Some(exit) => Some(Waiting { states, exit }),
            None => None,
        }
    }

    /// How these sets are left, whose members are the states, where some bytes bring each of them home. None where no such bytes
    /// or no text are found, or memory runs out.
    pub fn of_homes(
        alloc: Global,
        ways: &[Way],
        states: Vec<u32>,
        sets: Vec<Vec<u32>>,
    ) -> Option<Waiting>
        ensures { IfSome result (λ w. LeaveBy ways.now w.states.items w.exit) }
    {
        match home_of(alloc, ways, states.as_slice(), sets.as_slice()) {
            Some(text) => Some(Waiting {
                states,
                exit: Exit::Home(Homes { sets, text }),
            }),
            None => None,
        }
    }

    /// Whether it is known how this set is left: it has a member, and its members are among the states; where a byte brings some
    /// sets home, it is one of these.
    pub fn knows(&self, set: &[u32]) -> bool
        ensures { IsTrue result → Knows self.now set.now }
    {
        match &self.exit {
            Exit::Front(_) => is_of(self.states.as_slice(), set),
            Exit::Inside(_) => is_of(self.states.as_slice(), set),
            Exit::Home(homes) => is_among(homes.sets.as_slice(), set),
        }
    }

    /// Over how many bytes at the front of these each set of which that is known leads back to itself, as far as one search
    /// tells; 0 where it tells nothing. The clause is of all ways of which what is known is true.
    pub fn next_place(&self, bytes: &[u8]) -> usize
        ensures within { result ≤ length bytes.now }
        ensures back { (ways : List Way) → LeaveBy ways self.now.states.items self.now.exit →
            (set : List ℕ) → Knows self.now set → ComeBack ways set (take result bytes.now) }
    {
        match &self.exit {
            Exit::Front(chain) => chain.next_place(bytes),
            Exit::Inside(text) => text.next_place(bytes),
            Exit::Home(homes) => homes.text.next_place(bytes),
        }
    }
}

/// How these states are left, each of which loops on each byte, if it can be searched for: by a text inside rather than by a
/// chain of wide sets, which begins at too many places.
fn exit_of(alloc: Global, ways: &[Way], states: &[u32]) -> Option<Exit>
    requires { (p : ℕ) → Has states.now p → IsLooping ways.now p }
    ensures { IfSome result (LeaveBy ways.now states.now) }
{
    if !is_narrow(alloc, ways, states) {
        if let Some(text) = inside_of(alloc, ways, states) {
            return Some(Exit::Inside(text));
        }
    }
    match front_of(alloc, ways, states) {
        Some(chain) => Some(Exit::Front(chain)),
        None => None,
    }
}

/// Whether a set has a member, and all of them are among these states.
fn is_of(states: &[u32], set: &[u32]) -> bool
    ensures { IsTrue result → IsOf states.now set.now }
{
    if set.is_empty() {
        return false;
    }
    for state in set {
        if !has(states, *state) {
            return false;
        }
    }
    true
}

/// Whether a set is one of these.
fn is_among(sets: &[Vec<u32>], set: &[u32]) -> bool
    ensures { IsTrue result → IsAmong sets.now set.now }
{
    for one in sets {
        if is_same(one.as_slice(), set) {
            return true;
        }
    }
    false
}

/// Whether a set has a member, and has these states and no others.
fn is_same(states: &[u32], set: &[u32]) -> bool
    ensures { IsTrue result → IsOf states.now set.now × HasAll states.now set.now }
{
    is_of(states, set) && has_all(set, states)
}

/// Whether a set has all of these states.
fn has_all(set: &[u32], states: &[u32]) -> bool
    ensures { IsTrue result → HasAll states.now set.now }
{
    for state in states {
        if !has(set, *state) {
            return false;
        }
    }
    true
}
