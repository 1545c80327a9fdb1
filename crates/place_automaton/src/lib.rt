//! The automaton of the places of a regex formula (Glushkov 1961).
//!
//! Each byte set of the formula, its repetitions written out, is a place, and the automaton steps from place to place
//! with no empty ways. A part is known by its two sides: where it may begin, where it may end, and with which markers
//! it fits the empty string. All that a concatenation, an alternation or a repetition needs are those.
#![tactic(auto)]

ghost use Rattle.std.specs.Prelude.{◌≡◌};
ghost use Rattle.place_automaton.specs.declared.TheConstants.{MOST_ENDS, MOST_SETS};

pub use building::{automaton_of, of_atom};
pub use counting::{Counts, count};
pub use fault::AtomFault;

mod building;
mod counting;
mod fault;
mod fragment;
mod joins;
pub mod laws;
mod moving;
mod null_sets;
mod numbers;
mod outer;
mod place_count;
mod placing;
mod variables;

/// The number of the state Before, in which the automaton of an atom begins.
pub(crate) const BEFORE: u32 = 0;

/// The most sets of markers that are listed of those with which a part of a formula, or the first parts of a
/// concatenation, fits the empty string. Past it the ways are not counted, and the atom is refused for them.
pub const MOST_SETS: usize = 65_536;

/// The limits, as numbers: a law.
pub fn limits()
    ensures sets { MOST_SETS ≡ 65536 }
    ensures ends { MOST_ENDS ≡ 8000000 }
{}

/// The most ends of an automaton that is made. Where captures may be absent, a place may have an end for each
/// set of them. One that is not tied to the end of the document never has more: each of its ends but one has a way.
pub const MOST_ENDS: u64 = 8_000_000;
