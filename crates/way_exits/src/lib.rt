//! What leads out of the states of an automaton, by its ways alone: no table of sets and no graph of words is known here.
//!
//! States wait where each has a way to itself, without marks, on each byte. What leaves them takes bytes of some sets in turn,
//! or comes through behind a text alone. Up to where a search finds neither, the states lead back to themselves, whatever was
//! under way on the way there.
#![tactic(auto)]

pub use classes::{BYTES, Classes};
pub use states::{all_loop, are_home, has, put_all};
pub use waiting::{Exit, Homes, Waiting};

mod chains;
mod classes;
mod inside;
mod regions;
mod states;
mod waiting;
