//! How a document is read by sets of an automaton's states, and what that costs.
#![tactic(auto)]

pub mod laws;
