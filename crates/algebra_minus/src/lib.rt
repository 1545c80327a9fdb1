//! Difference of automata.
#![tactic(auto)]

pub use difference::{minus, minus_with_cause, minus_within};
pub use fault::MinusFault;

mod charge;
mod covering;
mod difference;
mod fault;
pub mod laws;
mod partitions;
mod pieces;
mod rows;
mod search;
mod stops;
#[cfg(test)]
mod tests;
