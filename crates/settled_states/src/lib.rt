//! Which states of an automaton are spent, and which are lasting.
//!
//! From a state that is spent no marks are taken any more. A state that is lasting stays accepted, whatever comes.
#![tactic(auto)]

pub use lasting::lasting_states;
pub use unspent::unspent_states;

mod lasting;
mod search;
mod unspent;
