//! Automata whose transitions take sets of markers, and the words that they accept.
#![tactic(auto)]

ghost use Rattle.std.specs.Prelude.{◌≡◌};
ghost use Rattle.marked_automaton.specs.declared.TheConstants.{MOST_STATES, MOST_WAYS};

pub use automaton::Automaton;
pub use fault::SizeFault;
pub use grouping::ways_from;
pub use way::{Stop, Way};

mod accepting;
mod automaton;
mod eraser;
mod fault;
mod grouping;
pub mod laws;
mod reach;
mod trimming;
mod way;

/// The most states that an automaton may have.
pub const MOST_STATES: u32 = 20_000;

/// The most ways that an automaton may have.
pub const MOST_WAYS: usize = 2_000_000;

/// The limits, as numbers: a law.
pub fn limits()
    ensures states { MOST_STATES ≡ 20000 }
    ensures ways { MOST_WAYS ≡ 2000000 }
{}
